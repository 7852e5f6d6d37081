//! Connections, one after the other.
ghost use Rattle.std.specs.Prelude.{◌≡◌, ◌≤◌, true};
ghost use Rattle.sqlite.specs.Held.{state};
ghost use Rattle.sqlite.specs.View.{doubt};
ghost use Rattle.docket_serving.specs.Exchanges.{tells_failure};
ghost use Rattle.docket_serving.specs.Serving.{ServesRun};

use crate::connections::Connections;
use crate::desk::Desk;
use docket_http::{ServeFault, Served};
use line_io::write_bytes;
use sqlite::Alter;
use std::alloc::Global;
use std::fmt;
use std::io::Write;

/// Why no more connections are served.
#[derive(Clone, Copy)]
pub enum ServingFault {
    /// No connection could be taken.
    AcceptFailed,
    /// The docket returned that it is closed or damaged, or that its database failed.
    DocketFailed,
}

impl fmt::Display for ServingFault {
    fn fmt<W: fmt::Write>(&self, f: &mut fmt::Formatter<W>) -> fmt::Result {
        f.write_str(match self {
            ServingFault::AcceptFailed => "a connection could not be taken",
            ServingFault::DocketFailed => "the docket failed, and is served no more",
        })
    }
}

/// Writes one line about what went wrong with a connection.
fn tell<E: Write, F: fmt::Display>(alloc: Global, e: &mut E, fault: &F) {
    let _ = match format!(in alloc; "docketctl: {fault}\n") {
        Ok(line) => write_bytes(e, line.as_bytes()),
        Err(_) => write_bytes(e, b"docketctl: there is not enough memory\n"),
    };
}

/// Whether the docket failed in serving a request.
fn is_failed(served: &Result<Served, ServeFault>) -> bool
    ensures { result ≡ tells_failure served.now }
{
    match served {
        Ok(served) => served.status == 503,
        Err(fault) => matches!(fault, ServeFault::StoreFailed),
    }
}

/// Serves the next connection, and ends it.
fn serve_next<C: Connections, S: Alter, E: Write>(
    alloc: Global,
    connections: &mut C,
    desk: &mut Desk<'_, S>,
    e: &mut E,
) -> Result<(), ServingFault>
    ensures routes { desk.new.routes ≡ desk.old.routes }
    ensures next { ServesRun S.Store desk.old.routes desk.old.number desk.new.number desk.old.docket desk.new.docket 1 (C.log connections.old) (C.log connections.new) result }
{
    let Ok((_peer, served)) = connections.next(desk) else {
        return Err(ServingFault::AcceptFailed);
    };
    if let Err(fault) = &served {
        tell(alloc, e, fault);
    }
    if is_failed(&served) {
        return Err(ServingFault::DocketFailed);
    }
    Ok(())
}

/// Serves so many connections, one after the other, each from the docket that the one before it left. It
/// writes on `e` what goes wrong with a connection, and serves the next; a docket that failed is served no
/// more.
pub fn serve_run<C: Connections, S: Alter, E: Write>(
    alloc: Global,
    connections: &mut C,
    count: u64,
    desk: &mut Desk<'_, S>,
    e: &mut E,
) -> Result<(), ServingFault>
    ensures routes { desk.new.routes ≡ desk.old.routes }
    ensures court { desk.new.docket.court ≡ desk.old.docket.court }
    ensures clean { doubt (state S.Store desk.old.docket.conn).is_clean ≤ doubt (state S.Store desk.new.docket.conn).is_clean }
    ensures closed { desk.old.docket.closed ≡ true → desk.new.docket ≡ desk.old.docket }
    ensures served { ServesRun S.Store desk.old.routes desk.old.number desk.new.number desk.old.docket desk.new.docket count (C.log connections.old) (C.log connections.new) result }
{
    for _ in 0..count {
        serve_next(alloc, connections, desk, e)?;
    }
    Ok(())
}
