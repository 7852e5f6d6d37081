//! The docket of a database, served by HTTP.
ghost use Rattle.std.specs.Prelude.{◌≤◌, IfOk};
ghost use Rattle.sqlite.specs.Held.{state};
ghost use Rattle.sqlite.specs.View.{doubt};
ghost use Rattle.file_serving.specs.Serves.{AreServed, AreServedAt, ServesPlace};

use docket_serving::{
    Desk, DocketFiles, Listener, Listening, Place, Routes, ServingFault, serve_run,
};
use docket_store::{AdoptFault, Watch};
use file_dockets::{Work, Worked, adopt};
use sqlite::{Alter, Connection};
use std::alloc::{AllocError, Global};
use std::io;
use std::io::{ErrorKind, Write};
use std::rt::HostRuntime;

/// Whether the pages of a docket are shown, and who is answered.
#[derive(Clone, Copy)]
pub enum Shown<'a> {
    /// Shows no pages, and answers whoever asks.
    NoPages,
    /// Shows no pages, and answers who asks at the origins of this machine, or at another one where that is
    /// given, such as that of a proxy.
    Guarded(Option<&'a str>),
    /// Shows the pages too, and answers who asks at those origins.
    Pages(Option<&'a str>),
}

/// At which place of this machine a docket is served, to how many connections, and whether its pages are shown.
#[derive(Clone, Copy)]
pub struct Service<'a> {
    pub place: Place<'a>,
    pub count: u64,
    pub shown: Shown<'a>,
}

/// Why a docket was not served to the end.
#[derive(Clone, Copy)]
pub enum ServeEnd {
    /// Nobody can listen at the place.
    NotListening(ErrorKind),
    /// The line that says where connections are taken could not be written.
    NotAnnounced(ErrorKind),
    Stopped(ServingFault),
}

/// Prints where connections are taken.
fn announce<W: Write>(alloc: Global, listener: &Listener<'_>, w: &mut W) -> io::Result<()> {
    let line = format!(in alloc; "listening on {listener}\n")?;
    w.write_all(line.as_bytes())?;
    w.flush()
}

/// The routes that are served at origins with a port.
fn routes_at(alloc: Global, shown: Shown<'_>, port: u16) -> Result<Routes, AllocError>
    ensures { IfOk result (AreServedAt port shown.entry) }
{
    match shown {
        Shown::NoPages => Ok(Routes::Docket),
        Shown::Guarded(other) => Routes::guarded(alloc, port, other),
        Shown::Pages(other) => Routes::with_pages(alloc, port, other),
    }
}

/// Listens at a place of this machine alone, with the routes that are served there.
fn listen_at<'a>(rt: &'a HostRuntime, service: &Service<'a>) -> io::Result<(Listener<'a>, Routes)>
    ensures { IfOk result (λ opened. AreServed service.now opened.1) }
{
    let listener = Listener::bind(rt, service.place)?;
    let routes = routes_at(rt.alloc(), service.shown, listener.port())?;
    Ok((listener, routes))
}

/// Listens at a place of this machine alone, and serves so many connections.
fn listen<S: Alter, W: Write, E: Write>(
    rt: &HostRuntime,
    service: &Service<'_>,
    desk: &mut Desk<'_, S>,
    w: &mut W,
    e: &mut E,
) -> Result<(), ServeEnd>
    ensures served { ServesPlace S.Store desk.old desk.new service.now result }
    ensures clean { doubt (state S.Store desk.old.docket.conn).is_clean ≤ doubt (state S.Store desk.new.docket.conn).is_clean }
{
    let (listener, routes) = match listen_at(rt, service) {
        Ok(opened) => opened,
        Err(error) => return Err(ServeEnd::NotListening(error.kind())),
    };
    let mut connections = match Listening::new(rt, &listener) {
        Ok(connections) => connections,
        Err(why) => return Err(ServeEnd::NotListening(why.kind())),
    };
    if let Err(error) = announce(rt.alloc(), &listener, w) {
        return Err(ServeEnd::NotAnnounced(error.kind()));
    }
    desk.show(routes);
    match serve_run(rt.alloc(), &mut connections, service.count, desk, e) {
        Ok(()) => Ok(()),
        Err(fault) => Err(ServeEnd::Stopped(fault)),
    }
}

/// Adopts the docket that a database holds, prints on `w` where connections are taken, and serves so many of
/// them. Prints on `e` what goes wrong with one. The files at the path are those of the database. The connections
/// are numbered by the machine's clock, so that a later run of the program has greater numbers, unless the clock
/// was set back.
#[derive(Drop)]
pub(crate) struct Serve<'a, V> {
    pub(crate) rt: &'a HostRuntime,
    pub(crate) path: &'a str,
    pub(crate) watch: V,
    pub(crate) service: &'a Service<'a>,
}

impl<V: Watch + Drop, W: Write, E: Write> Work<W, E> for Serve<'_, V> {
    ghost use Rattle.file_serving.specs.Serves.{ServesOver};

    type Done = Result<(), ServeEnd>;

    type Fault = AdoptFault;

    ghost Comes = { λ it g old new _ _ _ _. ServesOver g old new it.service.now };

    fn work<S: Alter>(
        self,
        alloc: Global,
        conn: Connection<S>,
        w: &mut W,
        e: &mut E,
    ) -> Worked<S, Result<(), ServeEnd>, AdoptFault> {
        let (docket, _) = match adopt(alloc, conn, self.watch) {
            Ok(found) => found,
            Err(returned) => return Worked::from(returned),
        };
        let files = DocketFiles::new(self.rt, self.path);
        let mut desk = Desk::new(self.rt, docket, Routes::Docket, Some(files));
        let end = listen(self.rt, self.service, &mut desk, w, e);
        Worked {
            outcome: Ok(end),
            failure: None,
            connection: desk.into_docket().close(),
        }
    }
}
