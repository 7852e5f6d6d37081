//! Moments as text: `YYYY-MM-DDTHH:MM+HH:00`, read and written.
ghost use Rattle.std.specs.Str.{IsUtf8};
ghost use Rattle.std.specs.Prelude.{◌≡◌, ◌↔◌, ℕ, ℤ, ◌+◌, ◌-◌, ◌*◌, ◌%◌, ◌<◌, ◌≤◌, ◌++◌, ◌∷◌, pos, negsuc, ◌-ℤ◌, ◌*ℤ◌, Some, option_map, IfSome, IfOk, string_bytes};
ghost use Rattle.jiff_core.specs.Calendar.{IsBetween};
ghost use Rattle.civil_time.specs.DayText.{day_text};
ghost use Rattle.civil_time.specs.LocalTime.{IsMoment};
ghost use Rattle.civil_time.specs.MomentGrammar.{SpellsMoment};
ghost use Rattle.civil_time.specs.MomentText.{two_digits, clock_text, offset_text, date_at, whole_hours_at, offset_at, in_limits, moment_at};

use crate::day::Day;
use crate::day_text::{day_bytes, read_day};
use crate::local_time::SECONDS_PER_DAY;
use crate::reading::{after, read_clock, read_two_digits};
use crate::zone::Zone;
use std::alloc::{AllocError, Global};

/// 1980-01-03T00:00Z, the first moment that is read or written.
const FIRST_MOMENT: i64 = 315_705_600;

/// 3999-12-29T00:00Z, the last one.
const LAST_MOMENT: i64 = 64_060_329_600;

/// The number of the day that the first ten bytes spell, and what follows them.
fn read_date(text: &[u8]) -> Option<(u32, &[u8])>
    ensures value { option_map (λ p. (p.0, p.1.now)) result ≡ date_at text.now }
    ensures limit { IfSome result (λ p. p.0 ≤ 741_441) }
{
    let (date, rest) = text.split_at_checked(10)?;
    let day = read_day(date)?;
    Some((day.epoch_day(), rest))
}

/// Up to 13 whole hours, and what follows them.
fn read_whole_hours(text: &[u8]) -> Option<(i64, &[u8])>
    ensures value { option_map (λ p. (p.0, p.1.now)) result ≡ whole_hours_at pos text.now }
    ensures hours { IfSome result (λ p. IsBetween (pos 0) (pos 13) p.0) }
{
    let (hours, rest) = read_two_digits(text)?;
    let rest = after(b'0', after(b'0', after(b':', rest)?)?)?;
    if hours <= 13 {
        Some((i64::from(hours), rest))
    } else {
        None
    }
}

/// The hours ahead of Greenwich, and what follows them.
fn read_offset(text: &[u8]) -> Option<(i64, &[u8])>
    ensures value { option_map (λ p. (p.0, p.1.now)) result ≡ offset_at text.now }
    ensures hours { IfSome result (λ p. IsBetween (negsuc 12) (pos 13) p.0) }
{
    match text {
        [b'+', rest @ ..] => read_whole_hours(rest),
        [b'-', rest @ ..] => {
            let (hours, rest) = read_whole_hours(rest)?;
            Some((-hours, rest))
        }
        _ => None,
    }
}

/// The instant of a local time at an offset, if it is one of 1980-01-03 to 3999-12-29.
fn instant_at(day: u32, minute: u32, hours_ahead: i64) -> Option<i64>
    requires day { day ≤ 741_441 }
    requires minute { minute < 1440 }
    requires hours { IsBetween (negsuc 12) (pos 13) hours_ahead }
    ensures value { result ≡ in_limits (pos (86_400 * day + 60 * minute) -ℤ pos 3600 *ℤ hours_ahead) }
    ensures limits { IfSome result IsMoment }
{
    let local = u64::from(day) * SECONDS_PER_DAY + u64::from(minute) * 60;
    let at = local as i64 - 3600 * hours_ahead;
    if at < FIRST_MOMENT {
        return None;
    }
    if at > LAST_MOMENT {
        return None;
    }
    Some(at)
}

/// The instant that the text spells, in seconds since 1970-01-01T00:00Z, if it spells one: 22
/// bytes, a day, `T`, a time of day and an offset of up to 13 whole hours.
pub fn read_moment(text: &[u8]) -> Option<i64>
    ensures value { result ≡ moment_at text.now }
    ensures grammar { (at : ℤ) → (result ≡ Some at) ↔ SpellsMoment at text.now }
    ensures limits { IfSome result IsMoment }
{
    let (day, rest) = read_date(text)?;
    let (minute, rest) = read_clock(after(b'T', rest)?)?;
    let (hours_ahead, rest) = read_offset(rest)?;
    if !rest.is_empty() {
        return None;
    }
    instant_at(day, minute, hours_ahead)
}

/// Two digits.
fn two_digits(number: u32) -> [u8; 2]
    requires { number < 100 }
    ensures { result ≡ two_digits number }
{
    [b'0' + (number / 10) as u8, b'0' + (number % 10) as u8]
}

/// A time of day, in minutes after 00:00, as `HH:MM`.
pub fn clock_bytes(minute: u32) -> [u8; 5]
    requires { minute < 1440 }
    ensures value { result ≡ clock_text minute }
    ensures text { IsUtf8 result }
{
    let [h, hour] = two_digits(minute / 60);
    let [m, minute] = two_digits(minute % 60);
    [h, hour, b':', m, minute]
}

/// An offset of whole hours, as `+HH:00` or `-HH:00`.
fn offset_bytes(hours_ahead: i64) -> [u8; 6]
    requires { IsBetween (negsuc 12) (pos 13) hours_ahead }
    ensures { result ≡ offset_text hours_ahead }
{
    let sign = if hours_ahead < 0 { b'-' } else { b'+' };
    let [h, hour] = two_digits(hours_ahead.unsigned_abs() as u32);
    [sign, h, hour, b':', b'0', b'0']
}

/// `YYYY-MM-DDTHH:MM+HH:00`.
fn joined(day: Day, minute: u32, hours_ahead: i64) -> [u8; 22]
    requires minute { minute < 1440 }
    requires hours { IsBetween (negsuc 12) (pos 13) hours_ahead }
    ensures { result ≡ day_text day ++ (84 ∷ (clock_text minute ++ offset_text hours_ahead)) }
{
    let mut text = [0; 22];
    text[..10].copy_from_slice(&day_bytes(day));
    text[10] = b'T';
    text[11..16].copy_from_slice(&clock_bytes(minute));
    text[16..].copy_from_slice(&offset_bytes(hours_ahead));
    text
}

impl Zone {
    ghost use Rattle.civil_time.specs.LocalTime.{seconds};
    ghost use Rattle.civil_time.specs.MomentText.{moment_text};

    /// The local time at the instant, rounded down to the minute, with the offset then in force, as
    /// `YYYY-MM-DDTHH:MM+HH:00`.
    #[tactic(auto, unfolding(crate::specs::MomentText::moment_text))]
    pub fn moment_bytes(&self, at: i64) -> [u8; 22]
        requires { IsMoment at }
        ensures value { result ≡ moment_text self.now (seconds at) }
        ensures means { SpellsMoment (pos (seconds at - seconds at % 60)) result }
        ensures text { IsUtf8 result }
    {
        let (day, minute) = self.local(at);
        joined(day, minute, self.offset_in_force(at as u64))
    }

    /// The same as a `String`.
    pub fn moment_text(&self, alloc: Global, at: i64) -> Result<String, AllocError>
        requires { IsMoment at }
        ensures { IfOk result (λ text. string_bytes text ≡ moment_text self.now (seconds at)) }
    {
        let bytes = self.moment_bytes(at);
        String::from_str(alloc, str::from_utf8(&bytes).unwrap())
    }
}
