//! The key that is made for a command: its day, and what it says.
ghost use Rattle.std.specs.Prelude.{◌≡◌, take, IfOk, string_bytes};
ghost use Rattle.hex.specs.Hex.{encode_lower};
ghost use Rattle.sha2.specs.Sha256.{sha256};
ghost use Rattle.entry_lines.specs.Lines.{made_key};

use court_days::Court;
use docket_text::DayText;
use html_sheets::day_of_clock;
use sha2::{Digest, Sha256};
use std::alloc::{AllocError, Global};

/// The SHA-256 of the bytes.
fn digest_of(bytes: &[u8]) -> [u8; 32]
    ensures { result ≡ sha256 bytes.now }
{
    Sha256::digest(bytes)
}

/// The first 16 hexadecimal digits of the SHA-256 of the bytes.
fn digest_text(alloc: Global, bytes: &[u8]) -> Result<String, AllocError>
    ensures { IfOk result (λ text. string_bytes text ≡ encode_lower (take 8 (sha256 bytes.now))) }
{
    let digest = digest_of(bytes);
    hex::encode(alloc, &digest[..8])
}

/// The key of a line that is entered now: the day, and the front of its digest.
pub(crate) fn made_key(
    alloc: Global,
    court: &Court,
    now: i64,
    line: &str,
) -> Result<String, AllocError>
    ensures { IfOk result (λ key. string_bytes key ≡ made_key court.now now line.now) }
{
    let day = DayText(day_of_clock(court, now));
    let digest = digest_text(alloc, line.as_bytes())?;
    format!(in alloc; "{day}-{digest}")
}
