//! The desk at which a docket is served.
ghost use Rattle.std.specs.Prelude.{◌≡◌};
ghost use Rattle.docket_serving.specs.Exchanges.{wants_copy};

use crate::connections::Attendant;
use crate::copying::give_copy;
use crate::number::{nanoseconds_now, number_above};
use docket_copies::DocketFiles;
use docket_http::{Docket, Routes, ServeFault, Served, serve_one};
use sqlite::Alter;
use std::io::{Read, Write};
use std::marker::Model;
use std::rt::HostRuntime;

/// Keeps a docket in a database, and answers one request of each connection from it. Each connection has a
/// number, for the forms that it shows and the days that it asks for: the nanoseconds of the clock since 1970, or
/// one more than the last number where the clock does not go on. A contract sees the docket, which routes are
/// served, and the number of the last connection.
pub struct Desk<'a, S: Alter> {
    rt: &'a HostRuntime,
    docket: Docket<S>,
    routes: Routes,
    number: u64,
    // The files to copy, if the docket is kept in files.
    files: Option<DocketFiles<'a>>,
}

impl<'a, S: Alter> Model for Desk<'a, S> {
    ghost use Rattle.docket_serving.specs.Desks.{Desk, desk_code};

    ghost Value = { Desk S };

    ghost coded = { desk_code S.code };

    ghost view = { λ desk. record { docket = desk.docket; routes = desk.routes; number = desk.number } };
}

impl<S: Alter + Drop> Drop for Desk<'_, S> {
    fn drop(self) {
        let _ = self.into_docket().close();
    }
}

impl<'a, S: Alter> Desk<'a, S> {
    /// A desk that serves these routes of the docket, with copies of the files in which it is kept. No connection
    /// was attended to yet.
    pub fn new(
        rt: &'a HostRuntime,
        docket: Docket<S>,
        routes: Routes,
        files: Option<DocketFiles<'a>>,
    ) -> Desk<'a, S>
        ensures { result ≡ record { docket = docket; routes = routes; number = 0 } }
    {
        Desk {
            rt,
            docket,
            routes,
            number: 0,
            files,
        }
    }

    /// Serves these routes from now on.
    pub fn show(&mut self, routes: Routes)
        ensures { self.new ≡ record { docket = self.old.docket; routes = routes; number = self.old.number } }
    {
        self.routes = routes;
    }

    /// The docket as the connections left it.
    pub fn into_docket(self) -> Docket<S>
        ensures { result ≡ self.entry.docket }
    {
        let Desk {
            rt: _,
            docket,
            routes: _,
            number: _,
            files: _,
        } = self;
        docket
    }
}

/// Whether a request for a copy is still to be answered.
fn is_copy_wanted(served: &Result<Served, ServeFault>) -> bool
    ensures { result ≡ wants_copy served.now }
{
    matches!(served, Err(ServeFault::CopyWanted))
}

impl<S: Alter> Attendant for Desk<'_, S> {
    ghost use Rattle.docket_serving.specs.Desks.{DeskAttends};

    ghost Attends = { λ old e new. DeskAttends S.Store old e new };

    fn routes(&self) -> &Routes
        ensures { result.now ≡ self.now.routes }
    {
        &self.routes
    }

    fn attend<R: Read, W: Write>(
        &mut self,
        reader: &mut R,
        writer: &mut W,
    ) -> Result<Served, ServeFault> {
        self.number = number_above(self.number, nanoseconds_now(self.rt));
        let served = serve_one(
            self.rt.alloc(),
            reader,
            writer,
            &mut self.docket,
            &self.routes,
            self.number,
        );
        if is_copy_wanted(&served) {
            return give_copy(self.rt.alloc(), self.files, writer);
        }
        served
    }
}
