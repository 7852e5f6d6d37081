//! What is entered in a form: the fields of each kind of command, by the one table.
ghost use Rattle.std.specs.Prelude.{◌≡◌, map};
ghost use Rattle.docket_command.specs.Schema.{fields_of};
ghost use Rattle.command_forms.specs.Entered.{spec_of};

use crate::entered::Entered::{May, Must};
use docket_command::{CommandName, Field};

/// How a value is entered: by its type.
#[derive(Clone, Copy)]
pub enum Input {
    Number,
    Day,
    Moment,
    TimeOfDay,
    Flag,
    Text,
    Rows,
    Basis,
    Direction,
    MotionKind,
    PeriodUnit,
    PleadingKind,
    Role,
    Ruling,
    ServiceMethod,
    Sovereign,
    Way,
}

/// A field that is entered.
#[derive(Clone, Copy)]
pub enum Entered {
    /// It has to be there.
    Must(Field, Input),
    /// It may be left empty.
    May(Field, Input),
}

/// The fields of a kind of command, in their order.
pub fn entered_of(kind: CommandName) -> &'static [Entered]
    ensures { map spec_of result.now ≡ fields_of kind }
{
    match kind {
        CommandName::DeclareDay => &[
            Must(Field::Day, Input::Day),
            Must(Field::Kind, Input::Sovereign),
            Must(Field::Name, Input::Text),
        ],
        CommandName::CloseDay => &[Must(Field::Day, Input::Day), Must(Field::Name, Input::Text)],
        CommandName::CloseSpan => &[
            Must(Field::Start, Input::Moment),
            Must(Field::End, Input::Moment),
        ],
        CommandName::ShortDay => &[
            Must(Field::Day, Input::Day),
            Must(Field::Close, Input::TimeOfDay),
            Must(Field::Name, Input::Text),
        ],
        CommandName::WithdrawCalendar => &[Must(Field::Row, Input::Number)],
        CommandName::ImportCalendar => &[Must(Field::Rows, Input::Rows)],
        CommandName::OpenCase => &[
            Must(Field::Label, Input::Text),
            Must(Field::Caption, Input::Text),
            Must(Field::Filed, Input::Day),
        ],
        CommandName::AddParty => &[
            Must(Field::Case, Input::Number),
            Must(Field::Name, Input::Text),
            Must(Field::Role, Input::Role),
        ],
        CommandName::FileEntry => &[
            Must(Field::Case, Input::Number),
            Must(Field::Day, Input::Day),
            Must(Field::Text, Input::Text),
        ],
        CommandName::ServeSummons => &[
            Must(Field::Case, Input::Number),
            Must(Field::Party, Input::Number),
            Must(Field::Basis, Input::Basis),
            Must(Field::Served, Input::Day),
            May(Field::Attorney, Input::Day),
        ],
        CommandName::FileWaiver => &[
            Must(Field::Case, Input::Number),
            Must(Field::Party, Input::Number),
            Must(Field::Sent, Input::Day),
            Must(Field::Allowed, Input::Number),
            Must(Field::Returned, Input::Day),
            Must(Field::Abroad, Input::Flag),
        ],
        CommandName::ServePleading => &[
            Must(Field::Case, Input::Number),
            Must(Field::Party, Input::Number),
            Must(Field::Kind, Input::PleadingKind),
            Must(Field::Basis, Input::Basis),
            Must(Field::Served, Input::Day),
            Must(Field::Method, Input::ServiceMethod),
            May(Field::Attorney, Input::Day),
            May(Field::AttorneyMethod, Input::ServiceMethod),
        ],
        CommandName::OrderReply => &[
            Must(Field::Case, Input::Number),
            Must(Field::Party, Input::Number),
            Must(Field::Served, Input::Day),
            Must(Field::Method, Input::ServiceMethod),
            May(Field::Due, Input::Day),
        ],
        CommandName::RuleMotion => &[
            Must(Field::Case, Input::Number),
            Must(Field::Deadline, Input::Number),
            Must(Field::Kind, Input::MotionKind),
            Must(Field::Served, Input::Day),
        ],
        CommandName::Dispose => &[
            Must(Field::Case, Input::Number),
            Must(Field::Deadline, Input::Number),
            Must(Field::Outcome, Input::Ruling),
            Must(Field::Notice, Input::Day),
            May(Field::Party, Input::Number),
            May(Field::Due, Input::Day),
        ],
        CommandName::StatementServed => &[
            Must(Field::Case, Input::Number),
            Must(Field::Deadline, Input::Number),
            Must(Field::Served, Input::Day),
            Must(Field::Method, Input::ServiceMethod),
        ],
        CommandName::NoticeHearing => &[
            Must(Field::Case, Input::Number),
            Must(Field::Party, Input::Number),
            Must(Field::Opponent, Input::Number),
            Must(Field::Hearing, Input::Day),
        ],
        CommandName::OrderPeriod => &[
            Must(Field::Case, Input::Number),
            Must(Field::Party, Input::Number),
            Must(Field::Unit, Input::PeriodUnit),
            May(Field::Start, Input::Day),
            May(Field::At, Input::Moment),
            May(Field::Count, Input::Number),
            May(Field::Direction, Input::Direction),
            May(Field::Method, Input::ServiceMethod),
            May(Field::Until, Input::Day),
        ],
        CommandName::EnterJudgment => &[
            Must(Field::Case, Input::Number),
            Must(Field::Entered, Input::Day),
            May(Field::Discharged, Input::Day),
        ],
        CommandName::Extend => &[
            Must(Field::Case, Input::Number),
            Must(Field::Deadline, Input::Number),
            Must(Field::At, Input::Moment),
            Must(Field::Neglect, Input::Flag),
            May(Field::Days, Input::Number),
            May(Field::Until, Input::Day),
        ],
        CommandName::Satisfy => &[
            Must(Field::Case, Input::Number),
            Must(Field::Deadline, Input::Number),
            Must(Field::At, Input::Moment),
            Must(Field::Way, Input::Way),
        ],
        CommandName::Vacate => &[
            Must(Field::Case, Input::Number),
            Must(Field::Deadline, Input::Number),
        ],
        CommandName::LocalRule => &[
            Must(Field::Name, Input::Text),
            Must(Field::Days, Input::Number),
            Must(Field::Direction, Input::Direction),
            Must(Field::Three, Input::Flag),
            Must(Field::Extendable, Input::Flag),
        ],
        CommandName::LocalPeriod => &[
            Must(Field::Case, Input::Number),
            Must(Field::Party, Input::Number),
            Must(Field::Rule, Input::Text),
            Must(Field::Start, Input::Day),
            May(Field::Method, Input::ServiceMethod),
        ],
    }
}
