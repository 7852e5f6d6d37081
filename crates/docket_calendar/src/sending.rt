//! The lines of a calendar, each written before the next row is read.
ghost use Rattle.std.specs.Prelude.{◌≡◌, ◌++◌, false, [], IfOk, IfErr, IsTrue, Ok, Err, string_bytes, MatchResult};
ghost use Rattle.std.specs.Io.KnownBytes.{Appends};
ghost use Rattle.sqlite.specs.Held.{state};
ghost use Rattle.sqlite.specs.State.{HasCleanDisk, Survives};
ghost use Rattle.line_io.specs.Output.{HasFront};
ghost use Rattle.docket_calendar.specs.Asked.{OfAsked};
ghost use Rattle.docket_calendar.specs.Sending.{opening, line_text, Remains, SendsNext, SendsAll};
ghost use Rattle.docket_calendar.specs.Stops.{IsCausedStop, IsStopAt, IsUnderWay};

use crate::next::next_due;
use crate::stop::Stop;
use court_days::{Calendar, Court};
use docket_history::DueRow;
use docket_tables::ReadFault;
use docket_text::{calendar_line, end_line};
use line_io::write_bytes;
use sqlite::{Alter, Rows};
use std::alloc::{AllocError, Global};
use std::io::Write;

/// Where a question stops if it fails before line `lines`.
fn stop_at(lines: u32, fault: ReadFault) -> Stop
    ensures { IsStopAt lines fault result }
{
    if lines == 0 {
        Stop::NotBegun(fault)
    } else {
        Stop::Broken(fault)
    }
}

/// What goes out with line `lines`: before the first, the bytes in front of the text.
fn opening(front: &[u8], lines: u32) -> &[u8]
    ensures { result.now ≡ opening front.now lines }
{
    if lines == 0 { front } else { &[] }
}

/// The line of a deadline; without one, the last line.
fn line_text(
    alloc: Global,
    court: &Court,
    lines: u32,
    due: Option<DueRow>,
) -> Result<String, AllocError>
    ensures { IfOk result (λ text. string_bytes text ≡ line_text court.now lines due) }
{
    match due {
        Some(due) => calendar_line(alloc, court, &due),
        None => end_line(alloc, lines),
    }
}

/// Writes the bytes, and then the text.
fn send<W: Write>(writer: &mut W, front: &[u8], text: &str) -> Result<(), Stop>
    ensures { MatchResult result (λ _. Appends (W.contents writer.old) (W.contents writer.new) (front.now ++ text.now))
        (λ stop. (stop ≡ Stop.WriteFailed) × HasFront (W.contents writer.old) (W.contents writer.new) (front.now ++ text.now)) }
{
    match write_bytes(writer, front) {
        Ok(()) => {}
        Err(_) => return Err(Stop::WriteFailed),
    }
    match write_bytes(writer, text.as_bytes()) {
        Ok(()) => Ok(()),
        Err(_) => Err(Stop::WriteFailed),
    }
}

/// Writes the line of the next row, or the last line after the last row. `true`: a line may follow.
fn send_next<S: Alter, W: Write>(
    alloc: Global,
    court: &Court,
    entered: &Calendar,
    front: &[u8],
    lines: u32,
    rows: &mut Rows<'_, S>,
    writer: &mut W,
) -> Result<bool, Stop>
    ensures same_reference { rows.new.conn.ghost_name ≡ rows.old.conn.ghost_name }
    ensures mode { rows.old.conn.now.in_transaction ≡ false → rows.new.conn.now.in_transaction ≡ false }
    ensures survives { Survives (state S.Store rows.old.conn.now) (state S.Store rows.new.conn.now) (λ _. ⊥) }
    ensures cause { HasCleanDisk (state S.Store rows.new.conn.now) → IsUnderWay S.Store rows.old.conn.now
        → MatchResult result (λ more. IsTrue more → IsUnderWay S.Store rows.new.conn.now) (IsCausedStop (state S.Store rows.old.conn.now) (state S.Store rows.new.conn.now)) }
    ensures remains { HasCleanDisk (state S.Store rows.new.conn.now) → Remains S.Store rows.old.conn.now rows.new.conn.now result }
    ensures sends { OfAsked S.Store court.now entered.now lines rows.old.conn.now rows.new.conn.now
        (λ sql params listed. SendsNext S.Store sql params court.now listed lines front.now (W.contents writer.old) (W.contents writer.new)
        rows.old.conn.now rows.new.conn.now result) }
{
    let due = match next_due(alloc, court, entered, rows) {
        Ok(due) => due,
        Err(fault) => return Err(stop_at(lines, fault)),
    };
    let more = due.is_some();
    let text = match line_text(alloc, court, lines, due) {
        Ok(text) => text,
        Err(_) => return Err(stop_at(lines, ReadFault::NoMemory)),
    };
    send(writer, front, text.as_str())?;
    Ok(more)
}

/// Writes the bytes, a line for each row of the question, and then how many there are. The bytes go out
/// with the first line.
pub(crate) fn send_all<S: Alter, W: Write>(
    alloc: Global,
    court: &Court,
    entered: &Calendar,
    front: &[u8],
    rows: &mut Rows<'_, S>,
    writer: &mut W,
) -> Result<u32, Stop>
    ensures same_reference { rows.new.conn.ghost_name ≡ rows.old.conn.ghost_name }
    ensures mode { rows.old.conn.now.in_transaction ≡ false → rows.new.conn.now.in_transaction ≡ false }
    ensures survives { Survives (state S.Store rows.old.conn.now) (state S.Store rows.new.conn.now) (λ _. ⊥) }
    ensures cause { HasCleanDisk (state S.Store rows.new.conn.now) → IsUnderWay S.Store rows.old.conn.now
        → IfErr result (IsCausedStop (state S.Store rows.old.conn.now) (state S.Store rows.new.conn.now)) }
    ensures remains { HasCleanDisk (state S.Store rows.new.conn.now) → IsTrue (state S.Store rows.old.conn.now).is_open → Remains S.Store rows.old.conn.now rows.new.conn.now result }
    ensures sends { OfAsked S.Store court.now entered.now 0 rows.old.conn.now rows.new.conn.now
        (λ sql params listed. IsTrue (state S.Store rows.old.conn.now).is_open
        → SendsAll S.Store court.now listed front.now (W.contents writer.old) (W.contents writer.new) rows.old.conn.now rows.new.conn.now result) }
{
    'rows: for lines in 0..u32::MAX {
        let front = opening(front, lines);
        if !send_next(alloc, court, entered, front, lines, rows, writer)? {
            return Ok(lines);
        }
    }
    Err(Stop::Broken(ReadFault::Damaged))
}
