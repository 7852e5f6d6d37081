//! Taking the bytes of a request from a reader.
ghost use Rattle.std.specs.Prelude.{◌≡◌, ◌≢◌, ◌+◌, ◌<◌, ◌≤◌, [], length, IfOk, OnOk, IfErr, IfSome, IsErrOf, vec_len};
ghost use Rattle.std.specs.Io.KnownBytes.{IsAtEnd};
ghost use Rattle.http_request.specs.Head.{head_of, found_end, EndsWithin, IsUnfinished};
ghost use Rattle.http_request.specs.Input.{Takes};

use crate::head::{HeadSearch, START, search};
use std::io::Read;

/// Why no more came.
#[derive(Clone, Copy)]
pub enum InputFault {
    ReadFailed,
    EndedEarly,
    NoMemory,
}

/// How the search for a head ended.
#[derive(Clone, Copy)]
pub enum HeadEnd {
    At(usize),
    TooLong,
}

// Reads once, and keeps what came. Returns how many bytes, 0 only at the end.
fn read_piece<R: Read>(reader: &mut R, came: &mut Vec<u8>) -> Result<usize, InputFault>
    ensures takes { OnOk result (Takes (R.remaining reader.old) (R.remaining reader.new) came.old.items came.new.items) }
    ensures count { IfOk result (λ n. vec_len came.new ≡ vec_len came.old + n) }
    ensures end { IfOk result (λ n. n ≡ 0 → IsAtEnd (R.remaining reader.new)) }
    ensures not_ended { IfErr result (λ e. e ≢ InputFault.EndedEarly) }
{
    let mut piece = [0u8; 4096];
    let Ok(count) = reader.read(&mut piece) else {
        return Err(InputFault::ReadFailed);
    };
    if came.extend_from_slice(&piece[..count]).is_err() {
        return Err(InputFault::NoMemory);
    }
    Ok(count)
}

/// Reads until the head is whole or can't be. What came may go past it.
pub fn read_head<R: Read>(reader: &mut R, came: &mut Vec<u8>) -> Result<HeadEnd, InputFault>
    requires { came.old.items ≡ [] }
    ensures takes { OnOk result
        (Takes (R.remaining reader.old) (R.remaining reader.new) came.old.items came.new.items) }
    ensures end { IfOk result (λ end. head_of came.new.items ≡ found_end end) }
    ensures within { IfOk result (EndsWithin (vec_len came.new)) }
    ensures early { IsErrOf result InputFault.EndedEarly
        → IfSome (R.remaining reader.old) (λ input. IsUnfinished (head_of input)) }
{
    let mut scan = START;
    'pieces: loop {
        if read_piece(reader, came)? == 0 {
            return Err(InputFault::EndedEarly);
        }
        match search(scan, &came[scan.len..]) {
            HeadSearch::More(next) => scan = next,
            HeadSearch::Head(len) => return Ok(HeadEnd::At(len)),
            HeadSearch::TooLong => return Ok(HeadEnd::TooLong),
        }
    }
}

/// Reads until at least so many bytes came.
pub fn read_to<R: Read>(reader: &mut R, came: &mut Vec<u8>, len: usize) -> Result<(), InputFault>
    ensures takes { OnOk result
        (Takes (R.remaining reader.old) (R.remaining reader.new) came.old.items came.new.items) }
    ensures whole { OnOk result (len ≤ vec_len came.new) }
    ensures early { IsErrOf result InputFault.EndedEarly
        → IfSome (R.remaining reader.old) (λ left. vec_len came.old + length left < len) }
{
    'pieces: while came.len() < len {
        if read_piece(reader, came)? == 0 {
            return Err(InputFault::EndedEarly);
        }
    }
    Ok(())
}
