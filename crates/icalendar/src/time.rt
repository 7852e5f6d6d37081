//! Days and instants.
ghost use Rattle.std.specs.Prelude.{◌≡◌, ℕ, ◌/◌, ◌%◌, ◌≤◌, ◌<◌, ◌++◌, ◌∷◌, pos};
ghost use Rattle.std.specs.Str.{IsUtf8};
ghost use Rattle.civil_time.specs.MomentText.{two_digits};
ghost use Rattle.icalendar.specs.Times.{date_value, digits_of_time, told, utc_value};

use court_days::{Day, day_bytes};
use std::fmt;

/// 1980-01-01T00:00:00Z, the first instant that is written.
const FIRST_INSTANT: i64 = 315_532_800;

/// 3999-12-31T23:59:59Z, the last one.
const LAST_INSTANT: i64 = 64_060_588_799;

/// The instant itself, in seconds since 1970-01-01T00:00Z, or the nearest one that is written.
fn told(at: i64) -> u64
    ensures value { result ≡ told at }
    ensures limits { (315_532_800 ≤ result) × (result ≤ 64_060_588_799) }
{
    if at < FIRST_INSTANT {
        return FIRST_INSTANT as u64;
    }
    if at > LAST_INSTANT {
        return LAST_INSTANT as u64;
    }
    at as u64
}

/// A day as `20251201`.
fn date_bytes(day: Day) -> [u8; 8]
    ensures value { result ≡ date_value day }
    ensures text { IsUtf8 result }
{
    let [y, e, a, r, _, m, n, _, d, b] = day_bytes(day);
    [y, e, a, r, m, n, d, b]
}

/// Two digits.
fn two_digits(number: u64) -> [u8; 2]
    requires { number < 100 }
    ensures { result ≡ two_digits number }
{
    [b'0' + (number / 10) as u8, b'0' + (number % 10) as u8]
}

/// The time of a second of a day, as `220000`.
fn time_bytes(second: u64) -> [u8; 6]
    requires { second < 86_400 }
    ensures value { result ≡ digits_of_time second }
    ensures text { IsUtf8 result }
{
    let [h, hour] = two_digits(second / 3600);
    let [m, minute] = two_digits(second / 60 % 60);
    let [s, second] = two_digits(second % 60);
    [h, hour, m, minute, s, second]
}

/// A day, written as `20251201`.
#[derive(Clone, Copy)]
pub(crate) struct DateText(pub(crate) Day);

impl fmt::Display for DateText {
    ghost use Rattle.std.specs.Prelude.{Some};
    ghost use Rattle.icalendar.specs.Times.{date_value};

    ghost output = { λ date. Some (date_value date.0) };

    fn fmt<W: fmt::Write>(&self, f: &mut fmt::Formatter<W>) -> fmt::Result {
        let bytes = date_bytes(self.0);
        f.write_str(str::from_utf8(&bytes).unwrap())
    }
}

/// An instant in UTC, written as `20251201T220000Z`.
#[derive(Clone, Copy)]
pub(crate) struct UtcText(pub(crate) i64);

impl fmt::Display for UtcText {
    ghost use Rattle.std.specs.Prelude.{Some};
    ghost use Rattle.icalendar.specs.Times.{told, utc_value};

    ghost output = { λ text. Some (utc_value (told text.0)) };

    #[tactic(auto, unfolding(crate::specs::Times::utc_value))]
    fn fmt<W: fmt::Write>(&self, f: &mut fmt::Formatter<W>) -> fmt::Result {
        let at = told(self.0);
        let date = DateText(Day::new((at / 86_400) as i32).unwrap());
        let time = time_bytes(at % 86_400);
        let time = str::from_utf8(&time).unwrap();
        write!(f, "{date}T{time}Z")
    }
}
