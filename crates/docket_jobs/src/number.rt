//! Numbers of a command line.
ghost use Rattle.std.specs.Prelude.{◌≡◌, IfSome};
ghost use Rattle.std.specs.Int.{IsInRange};
ghost use Rattle.docket_jobs.specs.Jobs.{count_if, count_of, number_of, port_of, year_if, year_of};

/// The number from 1 to 4294967295 that 1 to 10 digits spell, the first of them not 0.
pub(crate) fn read_number(text: &str) -> Option<u32>
    ensures { result ≡ number_of text.now }
{
    let digits = text.as_bytes();
    if digits.is_empty() || digits.len() > 10 || digits[0] == b'0' {
        return None;
    }
    let mut value: u64 = 0;
    for digit in digits {
        if !digit.is_ascii_digit() {
            return None;
        }
        value = value * 10 + u64::from(digit - b'0');
    }
    u32::try_from(value).ok()
}

/// The port from 0 to 65535 that a number spells; its first digit is 0 where there is no other.
pub(crate) fn read_port(text: &str) -> Option<u16>
    ensures { result ≡ port_of text.now }
{
    if text == "0" {
        return Some(0);
    }
    let port = read_number(text)?;
    u16::try_from(port).ok()
}

/// The number of connections, from 1 to 1,000,000, that a number spells.
pub(crate) fn read_count(text: &str) -> Option<u32>
    ensures { result ≡ count_of text.now }
{
    let count = read_number(text)?;
    count_within(count)
}

fn count_within(count: u32) -> Option<u32>
    ensures { result ≡ count_if count }
{
    if count <= 1_000_000 {
        Some(count)
    } else {
        None
    }
}

/// The year from 2000 to 2099 that four digits spell.
pub(crate) fn read_year(text: &str) -> Option<u32>
    ensures value { result ≡ year_of text.now }
    ensures limited { IfSome result (λ year. IsInRange 2000 2099 year) }
{
    let year = read_number(text)?;
    year_within(year)
}

fn year_within(year: u32) -> Option<u32>
    ensures value { result ≡ year_if year }
    ensures limited { IfSome result (λ year. IsInRange 2000 2099 year) }
{
    if (2000..=2099).contains(&year) {
        Some(year)
    } else {
        None
    }
}
