//! The names of the kinds of commands.
ghost use Rattle.std.specs.Prelude.{◌≡◌};
ghost use Rattle.docket_command.specs.Names.{name_of};

use crate::command::Action;
use crate::word::Word;

/// A kind of command.
#[derive(Clone, Copy, PartialEq, Eq)]
pub enum CommandName {
    DeclareDay,
    CloseDay,
    CloseSpan,
    ShortDay,
    WithdrawCalendar,
    ImportCalendar,
    OpenCase,
    AddParty,
    FileEntry,
    ServeSummons,
    FileWaiver,
    ServePleading,
    OrderReply,
    RuleMotion,
    Dispose,
    StatementServed,
    NoticeHearing,
    OrderPeriod,
    EnterJudgment,
    Extend,
    Satisfy,
    Vacate,
    LocalRule,
    LocalPeriod,
}

impl Word for CommandName {
    ghost use Rattle.docket_command.specs.Names.{command_word, command_named};

    ghost word_of = { command_word };

    ghost named = { command_named };

    fn word(self) -> &'static str {
        match self {
            CommandName::DeclareDay => "declare_day",
            CommandName::CloseDay => "close_day",
            CommandName::CloseSpan => "close_span",
            CommandName::ShortDay => "short_day",
            CommandName::WithdrawCalendar => "withdraw_calendar",
            CommandName::ImportCalendar => "import_calendar",
            CommandName::OpenCase => "open_case",
            CommandName::AddParty => "add_party",
            CommandName::FileEntry => "file_entry",
            CommandName::ServeSummons => "serve_summons",
            CommandName::FileWaiver => "file_waiver",
            CommandName::ServePleading => "serve_pleading",
            CommandName::OrderReply => "order_reply",
            CommandName::RuleMotion => "rule_motion",
            CommandName::Dispose => "dispose",
            CommandName::StatementServed => "statement_served",
            CommandName::NoticeHearing => "notice_hearing",
            CommandName::OrderPeriod => "order_period",
            CommandName::EnterJudgment => "enter_judgment",
            CommandName::Extend => "extend",
            CommandName::Satisfy => "satisfy",
            CommandName::Vacate => "vacate",
            CommandName::LocalRule => "local_rule",
            CommandName::LocalPeriod => "local_period",
        }
    }

    fn values() -> &'static [CommandName] {
        &[
            CommandName::DeclareDay,
            CommandName::CloseDay,
            CommandName::CloseSpan,
            CommandName::ShortDay,
            CommandName::WithdrawCalendar,
            CommandName::ImportCalendar,
            CommandName::OpenCase,
            CommandName::AddParty,
            CommandName::FileEntry,
            CommandName::ServeSummons,
            CommandName::FileWaiver,
            CommandName::ServePleading,
            CommandName::OrderReply,
            CommandName::RuleMotion,
            CommandName::Dispose,
            CommandName::StatementServed,
            CommandName::NoticeHearing,
            CommandName::OrderPeriod,
            CommandName::EnterJudgment,
            CommandName::Extend,
            CommandName::Satisfy,
            CommandName::Vacate,
            CommandName::LocalRule,
            CommandName::LocalPeriod,
        ]
    }
}

impl Action {
    /// Which kind of command it is.
    pub fn name(&self) -> CommandName
        ensures { result ≡ name_of self.now }
    {
        match self {
            Action::DeclareDay(_) => CommandName::DeclareDay,
            Action::CloseDay(_) => CommandName::CloseDay,
            Action::CloseSpan(_) => CommandName::CloseSpan,
            Action::ShortDay(_) => CommandName::ShortDay,
            Action::WithdrawCalendar(_) => CommandName::WithdrawCalendar,
            Action::ImportCalendar(_) => CommandName::ImportCalendar,
            Action::OpenCase(_) => CommandName::OpenCase,
            Action::AddParty(_) => CommandName::AddParty,
            Action::FileEntry(_) => CommandName::FileEntry,
            Action::ServeSummons(_) => CommandName::ServeSummons,
            Action::FileWaiver(_) => CommandName::FileWaiver,
            Action::ServePleading(_) => CommandName::ServePleading,
            Action::OrderReply(_) => CommandName::OrderReply,
            Action::RuleMotion(_) => CommandName::RuleMotion,
            Action::Dispose(_) => CommandName::Dispose,
            Action::StatementServed(_) => CommandName::StatementServed,
            Action::NoticeHearing(_) => CommandName::NoticeHearing,
            Action::OrderPeriod(_) => CommandName::OrderPeriod,
            Action::EnterJudgment(_) => CommandName::EnterJudgment,
            Action::Extend(_) => CommandName::Extend,
            Action::Satisfy(_) => CommandName::Satisfy,
            Action::Vacate(_) => CommandName::Vacate,
            Action::LocalRule(_) => CommandName::LocalRule,
            Action::LocalPeriod(_) => CommandName::LocalPeriod,
        }
    }
}
