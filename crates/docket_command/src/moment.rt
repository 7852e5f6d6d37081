//! Moments of commands.
ghost use Rattle.std.specs.Prelude.{◌≡◌, ◌↔◌, ◌%◌, ℕ, pos, IsSome, IfSome, Some};
ghost use Rattle.std.specs.Str.{IsUtf8};
ghost use Rattle.civil_time.specs.LocalTime.{IsMoment, seconds};
ghost use Rattle.civil_time.specs.MomentGrammar.{SpellsMoment};
ghost use Rattle.docket_command.specs.Moments.{IsWholeMinute, moment_named, utc_text};

use civil_time::{read_moment, read_zone};
use std::marker::Model;

/// 1980-01-03T00:00Z, the first moment, in seconds since 1970-01-01T00:00Z.
const FIRST_MOMENT: i64 = 315_705_600;

/// 3999-12-29T00:00Z, the last one.
const LAST_MOMENT: i64 = 64_060_329_600;

/// A whole minute from 1980-01-03T00:00Z to 3999-12-29T00:00Z, seen as its instant: the seconds
/// since 1970-01-01T00:00Z.
#[derive(Clone, Copy, PartialEq, Eq, PartialOrd, Ord)]
pub struct Moment {
    seconds: u64,
}

impl Model for Moment {
    ghost use Rattle.std.specs.Prelude.{ℕ};
    ghost use Rattle.docket_command.specs.Moments.{IsWholeMinute};

    ghost Value = { ℕ };

    ghost view = { λ moment. moment.seconds };

    ghost invariant = { λ moment. IsWholeMinute moment.seconds };

    ghost inverse = { λ instant. record { seconds = instant } };
}

impl Moment {
    fn at(at: i64) -> Moment
        requires limits { IsMoment at }
        requires minute { seconds at % 60 ≡ 0 }
        ensures { pos result ≡ at }
    {
        Moment { seconds: at as u64 }
    }

    /// The moment of an instant, in seconds since 1970-01-01T00:00Z. `None`: it is no whole minute,
    /// or it lies outside the limits.
    pub fn new(at: i64) -> Option<Moment>
        ensures valid { IsSome result ↔ (IsMoment at × (seconds at % 60 ≡ 0)) }
        ensures value { IfSome result (λ moment. pos moment ≡ at) }
    {
        if (FIRST_MOMENT..=LAST_MOMENT).contains(&at) && at % 60 == 0 {
            Some(Moment::at(at))
        } else {
            None
        }
    }

    /// Its instant: the seconds since 1970-01-01T00:00Z.
    pub fn seconds(self) -> i64
        ensures value { result ≡ pos self }
        ensures limits { IsWholeMinute self }
    {
        self.seconds as i64
    }

    /// The same without a sign.
    pub fn instant(self) -> u64
        ensures value { result ≡ self }
        ensures limits { IsWholeMinute self }
    {
        self.seconds
    }

    /// The moment that the text spells, if it spells one: 22 bytes, as `2025-07-07T09:00-04:00`.
    pub fn read(text: &[u8]) -> Option<Moment>
        ensures value { result ≡ moment_named text.now }
        ensures grammar { (instant : ℕ) → (result ≡ Some instant) ↔ SpellsMoment (pos instant) text.now }
    {
        match read_moment(text) {
            Some(at) => Some(Moment::at(at)),
            None => None,
        }
    }

    /// Its text at Greenwich, as `2025-07-07T13:00+00:00`.
    pub fn bytes(self) -> [u8; 22]
        ensures value { result ≡ utc_text self }
        ensures means { SpellsMoment (pos self) result }
        ensures text { IsUtf8 result }
    {
        read_zone(b"UTC0").unwrap().moment_bytes(self.seconds())
    }
}
