//! What the clock shows.

use std::time::{Clock, SystemTime, UNIX_EPOCH};

/// Returns the seconds since 1970-01-01T00:00Z, or 0 where the clock can't be read.
pub(crate) fn seconds_now<C: Clock>(clock: &C) -> i64 {
    let Ok(now) = SystemTime::now(clock) else {
        return 0;
    };
    match now.duration_since(UNIX_EPOCH) {
        Ok(since) => i64::try_from(since.as_secs()).unwrap_or(0),
        Err(_) => 0,
    }
}
