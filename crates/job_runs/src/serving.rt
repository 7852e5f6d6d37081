//! The docket in a file, served by HTTP.
ghost use Rattle.std.specs.Prelude.{◌≡◌, [], unwrap_or, MatchResult};
ghost use Rattle.std.specs.Cow.{cow_str_bytes};
ghost use Rattle.sqlite_wal.specs.Files.{image_at};
ghost use Rattle.file_serving.specs.declared.serving.Service.{Service as Asked};
ghost use Rattle.job_runs.specs.Jobs.{FailsOr, IfUnopened, OfDocket};
ghost use Rattle.job_runs.specs.Serving.{EndsServing, service_of, shown};
ghost use Rattle.job_runs.specs.Spares.{SparesRun};

use crate::opening::ready;
use file_serving::{Place, ServeEnd, Service, Shown, serve_on_file};
use job_ends::{JobEnd, Status, done_on_docket, failed, failed_by};
use sqlite::{FileFrom, Start};
use std::alloc::Global;
use std::fmt;
use std::io::{ErrorKind, Write};

/// Returns how many connections to serve: more than any run reaches, where all that come are served.
fn limit(count: Option<u32>) -> u64
    ensures { result ≡ unwrap_or count 18_446_744_073_709_551_615 }
{
    match count {
        Some(count) => u64::from(count),
        None => u64::MAX,
    }
}

/// Whether pages are shown, and who is answered.
fn shown(pages: bool, guard: bool, origin: Option<&str>) -> Shown<'_>
    ensures { result ≡ shown pages guard origin.entry }
{
    if pages {
        return Shown::Pages(origin);
    }
    if guard {
        return Shown::Guarded(origin);
    }
    Shown::NoPages
}

/// Returns the service that a job asks for: its place, so many connections or all that come, whether it shows
/// pages or guards the docket, and at which other origin.
pub(crate) fn service_of<'a>(
    place: Place<'a>,
    count: Option<u32>,
    pages: bool,
    guard: bool,
    origin: Option<&'a str>,
) -> Service<'a>
    ensures { result ≡ service_of place.entry count pages guard origin.entry }
{
    Service {
        place,
        count: limit(count),
        shown: shown(pages, guard, origin),
    }
}

/// Why nobody listens at a port.
fn port_fault(kind: ErrorKind) -> &'static str {
    match kind {
        ErrorKind::AddrInUse => "it is in use",
        ErrorKind::PermissionDenied => "it may not be used",
        ErrorKind::OutOfMemory => "there is not enough memory",
        _ => "it can't be listened at",
    }
}

/// Why nobody listens at the socket of a file.
fn socket_fault(kind: ErrorKind) -> &'static str {
    match kind {
        ErrorKind::AddrInUse => "it is in use, or is no socket",
        ErrorKind::PermissionDenied => "it may not be made",
        ErrorKind::NotFound | ErrorKind::NotADirectory => "there is no such folder",
        ErrorKind::InvalidInput => "its path has more than 107 bytes",
        ErrorKind::OutOfMemory => "there is not enough memory",
        _ => "it can't be listened at",
    }
}

/// Why nobody listens at a place.
#[derive(Drop)]
struct NotListening<'a> {
    place: Place<'a>,
    kind: ErrorKind,
}

impl fmt::Display for NotListening<'_> {
    fn fmt<W: fmt::Write>(&self, f: &mut fmt::Formatter<W>) -> fmt::Result {
        match self.place {
            Place::Port(port) => {
                write!(f, "port {port} of 127.0.0.1: {}", port_fault(self.kind))
            }
            Place::Socket(path) => write!(f, "socket {path:?}: {}", socket_fault(self.kind)),
        }
    }
}

/// Returns how a job ends from how its serving of a docket ended, and prints why that failed.
fn serving_told<E: Write>(
    alloc: Global,
    place: Place<'_>,
    end: Result<(), ServeEnd>,
    e: &mut E,
) -> Status
    ensures { MatchResult end (λ _. result ≡ Status.Done) (λ _. result ≡ Status.Failed) }
{
    match end {
        Ok(()) => Status::Done,
        Err(ServeEnd::NotListening(kind)) => failed(alloc, e, &NotListening { place, kind }),
        Err(ServeEnd::NotAnnounced(kind)) => {
            failed_by(alloc, e, kind, "the output could not be written")
        }
        Err(ServeEnd::Stopped(fault)) => failed(alloc, e, &fault),
    }
}

/// Serves the docket in a file to the connections that come to a place of this machine alone. The job is done
/// where as many were served as the service asks for; where its docket or a connection could not be had, it
/// failed.
pub(crate) fn serve_docket<S: Start, P: Write + Drop, W: Write, E: Write>(
    rt: &HostRuntime,
    start: S,
    screen: Option<P>,
    path: &str,
    service: &Service<'_>,
    w: &mut W,
    e: &mut E,
) -> JobEnd<FileFrom<S>>
    ensures serves { (asked : Asked) → service.now ≡ asked
        → OfDocket (image_at S.Start) (λ docket. FailsOr result (λ left. EndsServing docket asked left result.status)) }
    ensures unopened { IfUnopened result (W.contents w.new ≡ W.contents w.old) }
    ensures untold { cow_str_bytes result.text ≡ [] }
    ensures spared { SparesRun path.now (image_at S.Start) (E.contents e.old) (E.contents e.new) result (W.contents w.new ≡ W.contents w.old) }
{
    let rows = match ready(rt, path, screen, e) {
        Ok(rows) => rows,
        Err(status) => return JobEnd::of(status),
    };
    let ended = serve_on_file(rt, path, start, rows, service, w, e);
    match done_on_docket(rt.alloc(), path, ended, e) {
        Ok((end, left)) => JobEnd::of(serving_told(rt.alloc(), service.place, end, e)).with(Some(
            left,
        )),
        Err(end) => end,
    }
}
