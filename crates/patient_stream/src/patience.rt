//! How long a peer is waited for.
ghost use Rattle.std.specs.Prelude.{◌≡◌, ◌≤◌, ◌-◌, IsErrAnd};
ghost use Rattle.std.specs.Duration.{as_nanos};
ghost use Rattle.std.specs.IoError.{error_kind};
ghost use Rattle.std.specs.Time.{instant_nanos};

use std::io;
use std::io::ErrorKind;
use std::time::{Clock, Duration, Instant};

/// How long a peer may still be waited for, in all.
#[derive(Clone, Copy)]
pub(crate) struct Patience {
    pub(crate) left: Duration,
}

impl Patience {
    /// Returns when a wait begins. None begins where no patience is left.
    pub(crate) fn begin<C: Clock>(&self, clock: &C) -> io::Result<Instant>
        ensures spent { as_nanos self.now.left ≡ 0 → IsErrAnd result (λ e. error_kind e ≡ ErrorKind.TimedOut) }
    {
        if self.left.is_zero() {
            return Err(ErrorKind::TimedOut.into());
        }
        Instant::now(clock)
    }

    /// Takes off what was waited from one moment to another.
    fn take_off(&mut self, since: Instant, now: Instant)
        ensures { as_nanos self.new.left ≡ as_nanos self.old.left - (instant_nanos now - instant_nanos since) }
    {
        self.left = self
            .left
            .saturating_sub(now.saturating_duration_since(since));
    }

    /// Takes off what was waited since then, or all where the clock can't be read.
    pub(crate) fn end<C: Clock>(&mut self, clock: &C, since: Instant)
        ensures shorter { as_nanos self.new.left ≤ as_nanos self.old.left }
    {
        match Instant::now(clock) {
            Ok(now) => self.take_off(since, now),
            Err(_) => self.left = Duration::ZERO,
        }
    }
}
