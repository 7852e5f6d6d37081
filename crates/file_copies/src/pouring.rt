//! All that a reader gives, into a writer, with a piece of it in memory at a time.
ghost use Rattle.std.specs.Prelude.{◌≡◌, ℕ, List, length, IfOk, OnOk, IfSome};
ghost use Rattle.std.specs.Io.KnownBytes.{Appends, Consumes, IsAtEnd};

use crate::fault::CopyFault;
use std::io::{Read, Write};

/// The most bytes of a read.
const PIECE: usize = 16_384;

/// Moves the next piece. Where none is left, nothing is moved.
fn pour_piece<R: Read, W: Write>(reader: &mut R, writer: &mut W) -> Result<usize, CopyFault>
    ensures moved { IfOk result (λ count. (piece : List ℕ) × (length piece ≡ count)
        × Consumes (R.remaining reader.old) (R.remaining reader.new) piece
        × Appends (W.contents writer.old) (W.contents writer.new) piece) }
    ensures end { IfOk result (λ count. count ≡ 0 → IsAtEnd (R.remaining reader.new)) }
{
    let mut piece = [0u8; PIECE];
    let Ok(count) = reader.read(&mut piece) else {
        return Err(CopyFault::ReadFailed);
    };
    if count > 0 {
        match writer.write_all(&piece[..count]) {
            Ok(()) => {}
            Err(error) => return Err(CopyFault::of_writing(&error)),
        }
    }
    Ok(count)
}

/// Writes all that the reader has. A read that fails is not tried again.
pub fn pour<R: Read, W: Write>(reader: &mut R, writer: &mut W) -> Result<(), CopyFault>
    ensures whole { OnOk result (IfSome (R.remaining reader.old)
        (Appends (W.contents writer.old) (W.contents writer.new))) }
    ensures end { OnOk result (IsAtEnd (R.remaining reader.new)) }
{
    'pieces: for _ in 0..u64::MAX {
        if pour_piece(reader, writer)? == 0 {
            return Ok(());
        }
    }
    Err(CopyFault::ReadFailed)
}
