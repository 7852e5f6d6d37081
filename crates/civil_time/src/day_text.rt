//! Days as text: ten bytes, as `2025-12-31` (ISO 8601).
ghost use Rattle.std.specs.Prelude.{◌≡◌, ◌≤◌, ◌<◌, ◌-◌, ℕ, IfSome, IfNone};
ghost use Rattle.civil_time.specs.Civil.{IsDayNumber};
ghost use Rattle.civil_time.specs.DayText.{digit, SpellsDay, day_text, day_of_text};

use crate::day::Day;

/// The last decimal digit of the number.
fn digit(n: u32) -> u8
    ensures { result ≡ digit n }
{
    b'0' + (n % 10) as u8
}

/// The day's date, as `2025-12-31`: four digits, two and two, with dashes between them.
pub fn day_bytes(day: Day) -> [u8; 10]
    ensures value { result ≡ day_text day }
    ensures means { SpellsDay result day }
{
    let (year, month, day_of_month) = day.ymd();
    let year = year as u32;
    [
        digit(year / 1000),
        digit(year / 100),
        digit(year / 10),
        digit(year),
        b'-',
        digit(month / 10),
        digit(month),
        b'-',
        digit(day_of_month / 10),
        digit(day_of_month),
    ]
}

/// The value of a digit, and 0 to 207 for other bytes.
fn digit_value(byte: u8) -> u32
    ensures value { result ≡ byte - 48 }
    ensures small { result < 256 }
{
    u32::from(byte.saturating_sub(b'0'))
}

/// The day whose text this is, in the form of `day_bytes`. `None`: the text is not exactly such a
/// date of 1980-01-01 to 3999-12-31.
pub fn read_day(text: &[u8]) -> Option<Day>
    ensures value { result ≡ day_of_text text.now }
    ensures means { IfSome result (λ day. SpellsDay text.now day) }
    ensures only { IfSome result (λ day. (other : ℕ) → IsDayNumber other → SpellsDay text.now other
        → other ≡ day) }
    ensures none { IfNone result ((day : ℕ) → IsDayNumber day → ¬ (SpellsDay text.now day)) }
{
    if text.len() != 10 {
        return None;
    }
    let year = 1000 * digit_value(text[0])
        + 100 * digit_value(text[1])
        + 10 * digit_value(text[2])
        + digit_value(text[3]);
    let month = 10 * digit_value(text[5]) + digit_value(text[6]);
    let day = 10 * digit_value(text[8]) + digit_value(text[9]);
    // Other bytes than digits may have been read as digits: only the day's own text is taken.
    let day = Day::from_ymd(year as i32, month, day)?;
    if text == day_bytes(day).as_slice() {
        Some(day)
    } else {
        None
    }
}
