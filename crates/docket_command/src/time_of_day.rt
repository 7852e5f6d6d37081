//! Times of day of commands.
ghost use Rattle.std.specs.Prelude.{◌≡◌, ◌↔◌, ◌<◌, ℕ, IsSome, IfSome, Some};
ghost use Rattle.std.specs.Str.{IsUtf8};
ghost use Rattle.civil_time.specs.MomentGrammar.{SpellsTimeOfDay};
ghost use Rattle.civil_time.specs.MomentText.{clock_text};
ghost use Rattle.civil_time.specs.Reading.{time_of_day_at};

use civil_time::{clock_bytes, read_time_of_day};
use std::marker::Model;

const MINUTES_OF_A_DAY: u32 = 1440;

/// A minute of a day, from 00:00 to 23:59, seen as the minutes after 00:00.
#[derive(Clone, Copy, PartialEq, Eq, PartialOrd, Ord)]
pub struct TimeOfDay {
    minute: u32,
}

impl Model for TimeOfDay {
    ghost use Rattle.std.specs.Prelude.{◌<◌, ℕ};

    ghost Value = { ℕ };

    ghost view = { λ time. time.minute };

    ghost invariant = { λ time. time.minute < 1440 };

    ghost inverse = { λ minute. record { minute = minute } };
}

impl TimeOfDay {
    /// The minute after 00:00. `None`: a day has no such minute.
    pub fn new(minute: u32) -> Option<TimeOfDay>
        ensures valid { IsSome result ↔ (minute < 1440) }
        ensures value { IfSome result (λ time. time ≡ minute) }
    {
        if minute < MINUTES_OF_A_DAY {
            Some(TimeOfDay { minute })
        } else {
            None
        }
    }

    /// The minutes after 00:00.
    pub fn minute(self) -> u32
        ensures value { result ≡ self }
        ensures limit { result < 1440 }
    {
        self.minute
    }

    /// The time of day that the text spells, if it spells one: five bytes, as `17:00`.
    pub fn read(text: &[u8]) -> Option<TimeOfDay>
        ensures value { result ≡ time_of_day_at text.now }
        ensures grammar { (minute : ℕ) → (result ≡ Some minute) ↔ SpellsTimeOfDay minute text.now }
    {
        match read_time_of_day(text) {
            Some(minute) => Some(TimeOfDay { minute }),
            None => None,
        }
    }

    /// Its text, as `17:00`.
    pub fn bytes(self) -> [u8; 5]
        ensures value { result ≡ clock_text self }
        ensures means { SpellsTimeOfDay self result }
        ensures text { IsUtf8 result }
    {
        clock_bytes(self.minute)
    }
}
