//! Exports of the deadlines that fall due, by the query.
ghost use Rattle.std.specs.Prelude.{◌≡◌, option_copied};
ghost use Rattle.http_request.specs.Exports.{days_asked as days_by_query, days_behind as days_by_text};

use crate::days::read_range;
use crate::target::behind;
use civil_time::Day;

/// The format of an export.
#[derive(Clone, Copy)]
pub enum Export {
    /// iCalendar.
    Calendar,
    /// Comma-separated values.
    Csv,
    Json,
}

// The days that the text behind "from=" gives, as D&to=D.
fn days_behind(text: &str) -> Option<(Day, Day)>
    ensures { result ≡ days_by_text text.now }
{
    match text.split_once('&') {
        Some((first, rest)) => read_range(first, behind(rest, "to=")?),
        None => None,
    }
}

/// The days that a query asks for: from the first to the last, `from=D&to=D`, or without a query none. The query may
/// be bad.
pub fn days_asked(query: Option<&str>) -> Option<Option<(Day, Day)>>
    ensures { result ≡ days_by_query (option_copied query.entry) }
{
    match query {
        None => Some(None),
        Some(query) => Some(Some(days_behind(behind(query, "from=")?)?)),
    }
}
