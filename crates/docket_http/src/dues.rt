//! The deadlines that fall due, as requests ask for them.
ghost use Rattle.std.specs.Prelude.{◌≡◌};
ghost use Rattle.docket_http.specs.Asked.{days_of, exported, format_of, listed, listed_by};

use crate::moment::second_of;
use court_days::Day;
use docket_questions::{DueDays, DueForm, Dues};
use due_exports::Form;
use html_sheets::{Due, DueList};
use http_request::Export;

/// The page of those of some days, on this day.
pub(crate) fn listed(from: Day, to: Day, day: Day) -> Dues
    ensures { result ≡ listed from to day }
{
    Dues {
        form: DueForm::Page(DueList::Days, day),
        days: DueDays::Between(from, to),
    }
}

/// The page of those by the day of the request, which is this one.
pub(crate) fn listed_by(due: Due, day: Day, fresh: u64) -> Dues
    ensures { result ≡ listed_by due day fresh }
{
    Dues {
        form: DueForm::Page(DueList::By(due), day),
        days: DueDays::By(due, second_of(fresh)),
    }
}

/// The format of an export.
fn format_of(export: Export) -> Form
    ensures { result ≡ format_of export }
{
    match export {
        Export::Calendar => Form::Calendar,
        Export::Csv => Form::Csv,
        Export::Json => Form::Json,
    }
}

/// The days that are asked for, or without any those about a second.
fn days_of(days: Option<(Day, Day)>, second: i64) -> DueDays
    ensures { result ≡ days_of days second }
{
    match days {
        Some((from, to)) => DueDays::Between(from, to),
        None => DueDays::Around(second),
    }
}

/// The export of those of some days, or without any of those about the second of the request. It is written at that
/// second.
pub(crate) fn exported(export: Export, days: Option<(Day, Day)>, fresh: u64) -> Dues
    ensures { result ≡ exported export days fresh }
{
    let second = second_of(fresh);
    Dues {
        form: DueForm::Export(format_of(export), second),
        days: days_of(days, second),
    }
}
