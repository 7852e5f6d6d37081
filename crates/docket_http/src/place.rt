//! Where a browser is led by an accepted command.
ghost use Rattle.std.specs.Prelude.{◌≡◌};
ghost use Rattle.docket_http.specs.Places.{place_after};

use docket_command::{Action, Command, Reply as Number};
use std::fmt;

/// A page that shows what a command has changed.
#[derive(Clone, Copy)]
pub(crate) enum Place {
    /// The case of a number.
    Case(u32),
    CourtDays,
    /// The local rules, with the other rules.
    Rules,
}

/// Writes its path.
impl fmt::Display for Place {
    ghost use Rattle.std.specs.Prelude.{Some};
    ghost use Rattle.docket_http.specs.Places.{path_of};

    ghost output = { λ place. Some (path_of place) };

    fn fmt<W: fmt::Write>(&self, f: &mut fmt::Formatter<W>) -> fmt::Result {
        match *self {
            Place::Case(number) => write!(f, "/pages/cases/{number}"),
            Place::CourtDays => f.write_str("/pages/court-days"),
            Place::Rules => f.write_str("/pages/rules"),
        }
    }
}

/// The place after a command with this reply.
pub(crate) fn place_after(command: &Command, reply: Number) -> Place
    ensures { result ≡ place_after command.now reply }
{
    match &command.action {
        Action::DeclareDay(_)
        | Action::CloseDay(_)
        | Action::CloseSpan(_)
        | Action::ShortDay(_)
        | Action::ImportCalendar(_)
        | Action::WithdrawCalendar(_) => Place::CourtDays,
        Action::LocalRule(_) => Place::Rules,
        Action::OpenCase(_) => Place::Case(reply.number),
        Action::AddParty(a) => Place::Case(a.case),
        Action::FileEntry(a) => Place::Case(a.case),
        Action::ServeSummons(a) => Place::Case(a.case),
        Action::FileWaiver(a) => Place::Case(a.case),
        Action::ServePleading(a) => Place::Case(a.case),
        Action::OrderReply(a) => Place::Case(a.case),
        Action::RuleMotion(a) => Place::Case(a.case),
        Action::Dispose(a) => Place::Case(a.case),
        Action::StatementServed(a) => Place::Case(a.case),
        Action::NoticeHearing(a) => Place::Case(a.case),
        Action::OrderPeriod(a) => Place::Case(a.case),
        Action::EnterJudgment(a) => Place::Case(a.case),
        Action::Extend(a) => Place::Case(a.case),
        Action::Satisfy(a) => Place::Case(a.case),
        Action::Vacate(a) => Place::Case(a.case),
        Action::LocalPeriod(a) => Place::Case(a.case),
    }
}
