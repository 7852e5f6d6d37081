//! What texts begin with: bytes, digits and times of day. Each reader also returns what follows.
ghost use Rattle.std.specs.Prelude.{◌≡◌, ◌↔◌, ℕ, ◌<◌, ◌≤◌, Some, option_map, option_copied, IfSome};
ghost use Rattle.civil_time.specs.MomentGrammar.{SpellsTimeOfDay};
ghost use Rattle.civil_time.specs.Reading.{after, digit_at, two_digits_at, clock_at, time_of_day_at};

/// What follows the byte.
pub(crate) fn after(byte: u8, text: &[u8]) -> Option<&[u8]>
    ensures { option_copied result ≡ after byte text.now }
{
    match text {
        [first, rest @ ..] if *first == byte => Some(rest),
        _ => None,
    }
}

/// The value of a digit.
pub(crate) fn read_digit(text: &[u8]) -> Option<(u8, &[u8])>
    ensures value { option_map (λ p. (p.0, p.1.now)) result ≡ digit_at text.now }
    ensures digit { IfSome result (λ p. p.0 ≤ 9) }
{
    match text {
        [first, rest @ ..] if first.is_ascii_digit() => Some((*first - b'0', rest)),
        _ => None,
    }
}

/// The value of two digits.
pub(crate) fn read_two_digits(text: &[u8]) -> Option<(u32, &[u8])>
    ensures value { option_map (λ p. (p.0, p.1.now)) result ≡ two_digits_at text.now }
    ensures digits { IfSome result (λ p. p.0 ≤ 99) }
{
    let (tens, rest) = read_digit(text)?;
    let (ones, rest) = read_digit(rest)?;
    Some((u32::from(10 * tens + ones), rest))
}

/// A time of day, `HH:MM`, as minutes after 00:00.
pub(crate) fn read_clock(text: &[u8]) -> Option<(u32, &[u8])>
    ensures value { option_map (λ p. (p.0, p.1.now)) result ≡ clock_at text.now }
    ensures minutes { IfSome result (λ p. p.0 < 1440) }
{
    let (hour, rest) = read_two_digits(text)?;
    let (minute, rest) = read_two_digits(after(b':', rest)?)?;
    if hour <= 23 && minute <= 59 {
        Some((60 * hour + minute, rest))
    } else {
        None
    }
}

/// The minutes after 00:00 of a time of day from `00:00` to `23:59`, if the text spells one.
pub fn read_time_of_day(text: &[u8]) -> Option<u32>
    ensures value { result ≡ time_of_day_at text.now }
    ensures grammar { (minute : ℕ) → (result ≡ Some minute) ↔ SpellsTimeOfDay minute text.now }
    ensures minutes { IfSome result (λ minute. minute < 1440) }
{
    let (minute, rest) = read_clock(text)?;
    if rest.is_empty() { Some(minute) } else { None }
}
