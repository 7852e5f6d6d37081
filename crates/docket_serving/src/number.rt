//! The numbers of connections.
ghost use Rattle.std.specs.Prelude.{◌≡◌, ◌<◌};
ghost use Rattle.docket_serving.specs.Exchanges.{IsAbove};

use std::time::{Clock, SystemTime, UNIX_EPOCH};

/// Returns the nanoseconds since 1970-01-01T00:00Z, or 0 where the clock can't be read.
pub(crate) fn nanoseconds_now<C: Clock>(clock: &C) -> u64 {
    let Ok(now) = SystemTime::now(clock) else {
        return 0;
    };
    match now.duration_since(UNIX_EPOCH) {
        Ok(since) => u64::try_from(since.as_nanos()).unwrap_or(0),
        Err(_) => 0,
    }
}

/// Returns the number of a connection that comes at this moment: the moment itself, or one more than the number
/// of the last connection where the clock does not go on.
pub(crate) fn number_above(last: u64, now: u64) -> u64
    ensures moment { last < now → result ≡ now }
    ensures above { IsAbove last result }
{
    now.max(last.saturating_add(1))
}
