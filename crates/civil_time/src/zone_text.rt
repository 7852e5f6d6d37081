//! The text of a zone, `NAMEh` or `NAMEhNAME,Mm.w.d,Mm.w.d`: a part of POSIX's form for TZ.
ghost use Rattle.std.specs.Prelude.{◌≡◌, ◌↔◌, ℕ, ◌≤◌, pos, negsuc, length, option_map, option_copied, IfSome, IsTrue};
ghost use Rattle.std.specs.List.{prefix_len};
ghost use Rattle.jiff_core.specs.Calendar.{IsBetween};
ghost use Rattle.civil_time.specs.Zone.{AreApart, IsChangeDate, IsSummerTime, ZoneRules};
ghost use Rattle.civil_time.specs.ZoneGrammar.{SpellsZone};
ghost use Rattle.civil_time.specs.ZoneText.{is_letter, after_name, digits_at, hours_at, month_at, change_at, are_apart, summer_at, zone_at};

use crate::reading::{after, read_digit};
use crate::zone::{ChangeDate, SummerTime, Zone};

/// How many letters the text begins with.
fn count_letters(text: &[u8]) -> usize
    ensures value { result ≡ prefix_len is_letter text.now }
    ensures bound { result ≤ length text.now }
{
    text.iter()
        .take_while(|byte| byte.is_ascii_alphabetic())
        .count()
}

/// What follows a name of three to six letters.
fn after_name(text: &[u8]) -> Option<&[u8]>
    ensures { option_copied result ≡ after_name text.now }
{
    let letters = count_letters(text);
    if letters < 3 || letters > 6 {
        return None;
    }
    Some(text.split_at(letters).1)
}

/// The value of one or two digits, and what follows them.
fn read_digits(text: &[u8]) -> Option<(u8, &[u8])>
    ensures value { option_map (λ p. (p.0, p.1.now)) result ≡ digits_at text.now }
    ensures digits { IfSome result (λ p. p.0 ≤ 99) }
{
    let (tens, rest) = read_digit(text)?;
    match read_digit(rest) {
        None => Some((tens, rest)),
        Some((ones, rest)) => Some((10 * tens + ones, rest)),
    }
}

/// The hours west of Greenwich, and what follows them.
fn read_hours(text: &[u8]) -> Option<(i8, &[u8])>
    ensures value { option_map (λ p. (p.0, p.1.now)) result ≡ hours_at text.now }
    ensures hours { IfSome result (λ p. IsBetween (negsuc 11) (pos 12) p.0) }
{
    let (is_east, digits) = match text {
        [b'-', rest @ ..] => (true, rest),
        [b'+', rest @ ..] => (false, rest),
        _ => (false, text),
    };
    let (hours, rest) = read_digits(digits)?;
    if hours > 12 {
        return None;
    }
    let west = hours as i8;
    Some((if is_east { -west } else { west }, rest))
}

/// A month from 2 to 11 without a leading zero, and what follows it.
fn read_month(text: &[u8]) -> Option<(u8, &[u8])>
    ensures value { option_map (λ p. (p.0, p.1.now)) result ≡ month_at text.now }
    ensures month { IfSome result (λ p. (2 ≤ p.0) × (p.0 ≤ 11)) }
{
    let (first, rest) = read_digit(text)?;
    match first {
        0 => None,
        1 => {
            let (second, rest) = read_digit(rest)?;
            if second <= 1 {
                Some((10 + second, rest))
            } else {
                None
            }
        }
        _ => Some((first, rest)),
    }
}

/// A date of a clock change after a comma, and what follows it.
fn read_change(text: &[u8]) -> Option<(ChangeDate, &[u8])>
    ensures value { option_map (λ p. (p.0, p.1.now)) result ≡ change_at text.now }
    ensures date { IfSome result (λ p. IsChangeDate p.0) }
{
    let (month, rest) = read_month(after(b'M', after(b',', text)?)?)?;
    let (week, rest) = read_digit(after(b'.', rest)?)?;
    let (weekday, rest) = read_digit(after(b'.', rest)?)?;
    if week < 1 || week > 5 || weekday > 6 {
        return None;
    }
    let date = ChangeDate {
        month,
        week,
        weekday,
    };
    Some((date, rest))
}

/// Whether the months are neither equal nor neighbours.
fn are_apart(first: u8, second: u8) -> bool
    requires { (2 ≤ first) × (first ≤ 11) × (2 ≤ second) × (second ≤ 11) }
    ensures value { result ≡ are_apart first second }
    ensures apart { IsTrue result ↔ AreApart first second }
{
    first != second && first + 1 != second && first != second + 1
}

/// The dates of the clock changes, after a name.
fn read_summer(text: &[u8]) -> Option<SummerTime>
    ensures value { result ≡ summer_at text.now }
    ensures summer { IfSome result IsSummerTime }
{
    let (begins, rest) = read_change(after_name(text)?)?;
    let (ends, rest) = read_change(rest)?;
    if !rest.is_empty() || !are_apart(begins.month, ends.month) {
        return None;
    }
    Some(SummerTime { begins, ends })
}

/// The zone that the text spells, if it spells one: a name of 3 to 6 ASCII letters and the hours
/// west of Greenwich (0 to 12 in one or two digits, east of it after `-`). For summer time another
/// name and the two dates of the clock changes follow.
pub fn read_zone(text: &[u8]) -> Option<Zone>
    ensures value { result ≡ zone_at text.now }
    ensures grammar { (zone : ZoneRules) → (result ≡ Some zone) ↔ SpellsZone zone text.now }
{
    let (hours_west, rest) = read_hours(after_name(text)?)?;
    let summer = if rest.is_empty() {
        None
    } else {
        Some(read_summer(rest)?)
    };
    Some(Zone { hours_west, summer })
}
