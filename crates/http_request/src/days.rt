//! The days that texts in a path or a query give.
ghost use Rattle.std.specs.Prelude.{◌≡◌};
ghost use Rattle.http_request.specs.Days.{days_of, week_of};

use civil_time::{Day, read_day};
use html_sheets::Due;

/// The days from the first to the last, where the first is not after the last.
pub fn read_range(first: &str, last: &str) -> Option<(Day, Day)>
    ensures { result ≡ days_of first.now last.now }
{
    let (Some(first), Some(last)) = (read_day(first.as_bytes()), read_day(last.as_bytes())) else {
        return None;
    };
    if first.epoch_day() <= last.epoch_day() {
        Some((first, last))
    } else {
        None
    }
}

/// The seven days from a day on, up to the last day that there is.
pub fn read_week(text: &str) -> Option<(Day, Day)>
    ensures { result ≡ week_of text.now }
{
    Some(Due::Week.days(read_day(text.as_bytes())?))
}
