//! The answer that goes out while the docket is read: a calendar.
ghost use Rattle.std.specs.Prelude.{◌≡◌, ℕ, List};
ghost use Rattle.sqlite.specs.Held.{state};
ghost use Rattle.sqlite.specs.State.{HasCleanDisk};
ghost use Rattle.docket_history.specs.Histories.{History};
ghost use Rattle.docket_applying.specs.Applying.{Stands};
ghost use Rattle.http_request.specs.declared.wish.Wish.TheVariants.{Calendar};
ghost use Rattle.docket_http.specs.Recorded.{OnlySends};
ghost use Rattle.docket_http.specs.Serve.{Delivers, IsOfWriting, fault_of_broken};

use crate::fault::ServeFault;
use crate::head::open_head;
use crate::problem::problem_of;
use crate::reply::Reply;
use crate::sending::{Served, send};
use court_days::Day;
use docket_store::{Docket, Fault, ListingEnd};
use http::StatusCode;
use sqlite::Alter;
use std::io::Write;

/// The fault of a calendar whose docket failed in the middle.
fn broken(fault: Fault) -> ServeFault
    ensures fault { result ≡ fault_of_broken fault }
    ensures own { IsOfWriting result }
{
    match fault {
        Fault::NoMemory => ServeFault::NoMemory,
        _ => ServeFault::StoreFailed,
    }
}

/// Serves a calendar, whose answer goes out while the docket is read.
pub(crate) fn serve_calendar<W: Write, S: Alter>(
    docket: &mut Docket<S>,
    from: Day,
    to: Day,
    writer: &mut W,
) -> Result<Served, ServeFault>
    ensures delivers { (h : History) (body : List ℕ) → Stands S.Store docket.old h → HasCleanDisk (state S.Store docket.new.conn)
        → Delivers S.Store docket.new h (Calendar from to) body (W.contents writer.old) (W.contents writer.new) result }
    ensures only { (body : List ℕ) → OnlySends S.Store docket.old docket.new (Calendar from to) body (W.contents writer.old) (W.contents writer.new) result }
{
    match docket.calendar_after(open_head(), from, to, writer) {
        Ok(_) => Ok(Served {
            status: StatusCode::OK.as_u16(),
        }),
        Err(ListingEnd::NotBegun(fault)) => send(writer, &Reply::Fixed(problem_of(fault))),
        Err(ListingEnd::Broken(fault)) => Err(broken(fault)),
        Err(ListingEnd::WriteFailed) => Err(ServeFault::WriteFailed),
    }
}
