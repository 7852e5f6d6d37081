//! When a request came, by its number.
ghost use Rattle.std.specs.Prelude.{◌≡◌};
ghost use Rattle.docket_http.specs.Moments.{day_of_request, second_of};

use court_days::{Court, Day};
use html_sheets::day_of_clock;

/// How many nanoseconds a second has.
const NANOSECONDS_PER_SECOND: u64 = 1_000_000_000;

/// The second of the request of that number.
pub(crate) fn second_of(fresh: u64) -> i64
    ensures { result ≡ second_of fresh }
{
    (fresh / NANOSECONDS_PER_SECOND) as i64
}

/// The local day of the request of that number.
pub(crate) fn day_of_request(court: &Court, fresh: u64) -> Day
    ensures { result ≡ day_of_request court.now fresh }
{
    day_of_clock(court, second_of(fresh))
}
