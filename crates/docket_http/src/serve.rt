//! One connection: a request is read, and its answer is written.
ghost use Rattle.std.specs.Prelude.{◌≡◌, ◌⊎◌, ◌≤◌, Err, IfOk, IfErr, MatchOption, false, true, vec_len};
ghost use Rattle.std.specs.Io.KnownBytes.{Keeps};
ghost use Rattle.sqlite.specs.Held.{state};
ghost use Rattle.sqlite.specs.State.{HasCleanDisk};
ghost use Rattle.sqlite.specs.View.{doubt};
ghost use Rattle.docket_history.specs.Histories.{History};
ghost use Rattle.docket_applying.specs.AnyRows.{HoldsDocketRows, WritesAtMostOne};
ghost use Rattle.docket_applying.specs.Applying.{Stands};
ghost use Rattle.http_request.specs.Request.{body_of};
ghost use Rattle.http_request.specs.Wish.{IsWithinLimits};
ghost use Rattle.http_request.specs.declared.wish.Wish.TheVariants.{Calendar, Copy};
ghost use Rattle.docket_http.specs.Asking.{IsBuilt};
ghost use Rattle.docket_http.specs.Recorded.{OnlySends, ServesBacked, ServesStill};
ghost use Rattle.docket_http.specs.Serve.{Delivers, Serves, Fails, ServesClosed, WantsCopy};

use crate::answering::reply_of;
use crate::calendar::serve_calendar;
use crate::fault::ServeFault;
use crate::problem::Problem;
use crate::reply::Reply;
use crate::sending::{Served, send};
use court_days::Day;
use docket_store::Docket;
use http_request::{InputFault, Request, Routes, Wish, read_request};
use sqlite::Alter;
use std::alloc::Global;
use std::io::{Read, Write};

/// The days of the calendar that is wanted.
fn days_of(wish: &Wish) -> Option<(Day, Day)>
    ensures { MatchOption result (IsBuilt wish.now) (λ days. wish.now ≡ Calendar days.0 days.1) }
{
    match wish {
        Wish::Calendar(from, to) => Some((*from, *to)),
        _ => None,
    }
}

/// Serves a request that was read.
fn serve_request<W: Write, S: Alter>(
    alloc: Global,
    docket: &mut Docket<S>,
    request: &Request,
    writer: &mut W,
) -> Result<Served, ServeFault>
    requires limits { IsWithinLimits request.now.wish }
    requires within { request.now.start ≤ request.now.end × request.now.end ≤ vec_len request.now.came }
    ensures delivers { (h : History) → Stands S.Store docket.old h → HasCleanDisk (state S.Store docket.new.conn)
        → Delivers S.Store docket.new h request.now.wish (body_of request.now) (W.contents writer.old) (W.contents writer.new) result }
    ensures only { OnlySends S.Store docket.old docket.new request.now.wish (body_of request.now) (W.contents writer.old) (W.contents writer.new) result }
{
    match days_of(&request.wish) {
        Some((from, to)) => serve_calendar(docket, from, to, writer),
        None => {
            let reply = reply_of(alloc, docket, request);
            send(writer, &reply)
        }
    }
}

/// Whether the request wants a copy of the file of an open docket.
fn wants_copy<S: Alter>(docket: &Docket<S>, wish: &Wish) -> bool
    ensures { result ≡ true → (wish.now ≡ Copy) × (docket.now.closed ≡ false) }
{
    matches!(wish, Wish::Copy) && !docket.is_closed()
}

/// Serves one request of a connection: writes the answer to the request that it reads, and the docket then
/// holds the history that this answer reports. A closed docket stays as it is, and the answer to a request
/// that needs it reports that it is closed. Pages are shown if they are among the routes. `fresh` makes the key of
/// a form among them, and gives the day of a page and the second of an export: it counts nanoseconds since 1970,
/// and the caller has another number for each connection. If the request asks for a copy of the file in which the
/// docket is kept, it writes nothing and returns `CopyWanted`.
pub fn serve_one<R: Read, W: Write, S: Alter>(
    alloc: Global,
    reader: &mut R,
    writer: &mut W,
    docket: &mut Docket<S>,
    routes: &Routes,
    fresh: u64,
) -> Result<Served, ServeFault>
    ensures court { docket.new.court ≡ docket.old.court }
    ensures clean { doubt (state S.Store docket.old.conn).is_clean ≤ doubt (state S.Store docket.new.conn).is_clean }
    ensures any { WritesAtMostOne S.Store docket.old docket.new }
    // A request that enters no command, as a preview, writes nothing, whatever the rows of the docket are.
    ensures still { ServesStill S.Store routes.now fresh (R.remaining reader.old) docket.old docket.new }
    ensures closed { docket.old.closed ≡ true → (docket.new ≡ docket.old)
        × ServesClosed routes.now fresh (R.remaining reader.old) (W.contents writer.old) (W.contents writer.new) result }
    ensures served { IfOk result (λ served. (h : History) → Stands S.Store docket.old h
        → HasCleanDisk (state S.Store docket.new.conn)
        → Serves S.Store routes.now fresh (R.remaining reader.old) docket.old docket.new h
        (W.contents writer.old) (W.contents writer.new) served.status) }
    ensures fails { IfErr result (λ e. (h : History) → Stands S.Store docket.old h
        → HasCleanDisk (state S.Store docket.new.conn)
        → Fails S.Store routes.now fresh (R.remaining reader.old) docket.old docket.new h
        (W.contents writer.old) (W.contents writer.new) e) }
    // For any docket, a command whose reply is written has its receipt.
    ensures recorded { HoldsDocketRows S.Store docket.old
        → ServesBacked S.Store routes.now fresh (R.remaining reader.old) docket.new (W.contents writer.old) (W.contents writer.new) result }
    // If no request was read, nothing was written and the docket is as it was.
    ensures untouched { IfErr result (λ e. (e ≡ ServeFault.ReadFailed) ⊎ (e ≡ ServeFault.EndedEarly)
        → (docket.new ≡ docket.old) × Keeps (W.contents writer.old) (W.contents writer.new)) }
    // A copy is wanted where a request asks an open docket for one, and nowhere else.
    ensures copy { result ≡ Err ServeFault.CopyWanted
        → WantsCopy routes.now fresh (R.remaining reader.old) docket.old docket.new × (writer.new ≡ writer.old) }
{
    let request = match read_request(alloc, reader, routes, fresh) {
        Ok(request) => request,
        Err(InputFault::NoMemory) => return send(writer, &Reply::Fixed(Problem::NoMemory)),
        Err(InputFault::ReadFailed) => return Err(ServeFault::ReadFailed),
        Err(InputFault::EndedEarly) => return Err(ServeFault::EndedEarly),
    };
    if wants_copy(docket, &request.wish) {
        return Err(ServeFault::CopyWanted);
    }
    serve_request(alloc, docket, &request, writer)
}
