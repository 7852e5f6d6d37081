//! Whether the docket lacks what an action names.
ghost use Rattle.std.specs.Prelude.{◌≡◌};
ghost use Rattle.docket_command.specs.declared.command.Action.{Action as Asked};
ghost use Rattle.docket_history.specs.Actions.{subject_of};
ghost use Rattle.docket_decisions.specs.Refusals.{lacks_case, is_no_party, lacks_party, lacks_deadline, lacks_row, lacks_local_rule};

use docket_command::Action;
use docket_history::{Subject, View};

pub(crate) fn lacks_case(view: &View, subject: Subject) -> bool
    ensures { (a : Asked) → subject ≡ subject_of a → result ≡ lacks_case view.now a }
{
    subject.case.is_some() && view.case.is_none()
}

/// Whether the case that is named has no party of that number.
fn is_no_party(view: &View, party: u32) -> bool
    ensures { result ≡ is_no_party view.now party }
{
    party < 1 || view.parties() < party
}

pub(crate) fn lacks_party(view: &View, action: &Action) -> bool
    ensures { result ≡ lacks_party view.now action.now }
{
    match action {
        Action::ServeSummons(a) => is_no_party(view, a.party),
        Action::FileWaiver(a) => is_no_party(view, a.party),
        Action::ServePleading(a) => is_no_party(view, a.party),
        Action::OrderReply(a) => is_no_party(view, a.party),
        Action::Dispose(a) => match a.party {
            Some(party) => is_no_party(view, party),
            None => false,
        },
        Action::NoticeHearing(a) => is_no_party(view, a.party) || is_no_party(view, a.opponent),
        Action::OrderPeriod(a) => a.party != 0 && is_no_party(view, a.party),
        Action::LocalPeriod(a) => is_no_party(view, a.party),
        _ => false,
    }
}

pub(crate) fn lacks_deadline(view: &View, subject: Subject) -> bool
    ensures { (a : Asked) → subject ≡ subject_of a → result ≡ lacks_deadline view.now a }
{
    subject.deadline.is_some() && view.deadline_named().is_none()
}

pub(crate) fn lacks_row(view: &View, action: &Action) -> bool
    ensures { result ≡ lacks_row view.now action.now }
{
    match action {
        Action::WithdrawCalendar(_) => !view.row_stands,
        _ => false,
    }
}

pub(crate) fn lacks_local_rule(view: &View, action: &Action) -> bool
    ensures { result ≡ lacks_local_rule view.now action.now }
{
    match action {
        Action::LocalPeriod(_) => view.local.is_none(),
        _ => false,
    }
}
