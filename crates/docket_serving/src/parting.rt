//! Closing a connection so that the peer gets its answer.

use docket_http::{ServeFault, Served};
use patient_stream::{PatientReader, Stream};
use std::io;
use std::io::Read;
use std::time::Duration;

/// How many seconds to wait for a peer to close its side.
const FAREWELL: u64 = 1;

/// The most pieces that are read and dropped.
const MAX_PIECES: u32 = 1024;

/// Whether an answer went out that may have come before the whole request was read. An answer of one of
/// these statuses comes after the whole body; one of any other may answer the head alone.
fn is_early(served: &Result<Served, ServeFault>) -> bool {
    match served {
        Ok(served) => !matches!(served.status, 200 | 303 | 409),
        Err(_) => false,
    }
}

/// Whether bytes have come that were not read. The first of them is read.
fn has_unread(mut stream: &Stream) -> bool {
    let mut first = [0u8; 1];
    let _ = stream.set_nonblocking(true);
    let read = stream.read(&mut first);
    let _ = stream.set_nonblocking(false);
    matches!(read, Ok(1))
}

/// Reads and drops what still comes, until the peer closes its side.
fn drop_rest(rt: &HostRuntime, stream: &Stream) -> io::Result<()> {
    stream.end_sending()?;
    let mut rest = PatientReader::new(rt, stream, Duration::from_secs(FAREWELL));
    let mut piece = [0u8; 4096];
    for _ in 0..MAX_PIECES {
        if rest.read(&mut piece)? == 0 {
            return Ok(());
        }
    }
    Ok(())
}

/// Ends a connection. Closing a socket with unread bytes resets the connection, and the peer may lose its
/// answer; so it reads and drops them for a while.
pub(crate) fn part(rt: &HostRuntime, stream: &Stream, served: &Result<Served, ServeFault>) {
    if is_early(served) || has_unread(stream) {
        let _ = drop_rest(rt, stream);
    }
}
