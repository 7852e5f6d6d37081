//! What the kinds of commands are called.
ghost use Rattle.std.specs.Prelude.{◌≡◌};
ghost use Rattle.html_sheets.specs.Titles.{title_of};

use docket_command::CommandName;

/// What a kind of command is called on the pages.
pub fn title_of(kind: CommandName) -> &'static str
    ensures { result.now ≡ title_of kind }
{
    match kind {
        CommandName::DeclareDay => "Declare a holiday",
        CommandName::CloseDay => "Close the office on a day",
        CommandName::CloseSpan => "Close the office for some hours",
        CommandName::ShortDay => "Close early on a day",
        CommandName::WithdrawCalendar => "Withdraw a row of the court's calendar",
        CommandName::ImportCalendar => "Enter a table of days",
        CommandName::OpenCase => "Open a case",
        CommandName::AddParty => "Add a party",
        CommandName::FileEntry => "File an entry",
        CommandName::ServeSummons => "Serve a summons",
        CommandName::FileWaiver => "File a waiver of service",
        CommandName::ServePleading => "Serve a pleading",
        CommandName::OrderReply => "Order a reply to an answer",
        CommandName::RuleMotion => "File a motion under Rule 12",
        CommandName::Dispose => "Rule on a motion",
        CommandName::StatementServed => "Serve a more definite statement",
        CommandName::NoticeHearing => "Notice a hearing",
        CommandName::OrderPeriod => "Set a period",
        CommandName::EnterJudgment => "Enter a judgment",
        CommandName::Extend => "Extend a deadline",
        CommandName::Satisfy => "Record what was filed",
        CommandName::Vacate => "Vacate a deadline",
        CommandName::LocalRule => "Enter a local rule",
        CommandName::LocalPeriod => "Start a period of a local rule",
    }
}
