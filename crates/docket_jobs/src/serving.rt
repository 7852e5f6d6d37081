//! The job of `docketctl serve`: where connections are taken, how many, and what they may ask.
ghost use Rattle.std.specs.Prelude.{◌≡◌, IfOk, MatchResult, None, Some, option_copied};
ghost use Rattle.clap.specs.Matches.{found_of};
ghost use Rattle.clap.specs.Walk.{rows_of};
ghost use Rattle.docket_jobs.specs.Jobs.{IsLimited, asked, is_origin, limit_of, origin_if, place_if, serve_asked, socket_if, where_asked};

use crate::job::Job;
use crate::number::{read_count, read_port};
use crate::value::{BadValue, flag, value, value_if_any};
use clap::ArgMatches;
use patient_stream::Place;

const BAD_PORT: &str = "P is a port from 0 to 65535, without a leading zero";

const BAD_SOCKET: &str = "PATH of --socket is the path of a file";

const BAD_PLACE: &str = "--port P or --socket PATH is needed, and not both";

const BAD_ORIGIN: &str =
    "--origin goes with --pages or --guard, and is one as https://docket.example";

const BAD_COUNT: &str = "N is a number from 1 to 1000000, without a leading zero";

const BAD_LIMIT: &str = "--count N or --endless is needed, and not both";

/// Whether a text begins as an origin does.
fn is_origin(text: &str) -> bool
    ensures { result ≡ is_origin text.now }
{
    text.as_bytes().starts_with(b"http://") || text.as_bytes().starts_with(b"https://")
}

/// The other origin at which a docket is served, which goes with the guard alone.
fn read_origin<'a>(guarded: bool, origin: Option<&'a str>) -> Result<Option<&'a str>, BadValue<'a>>
    ensures { MatchResult result (λ other. origin_if guarded (option_copied origin.entry) ≡ Some (option_copied other))
        (λ _. origin_if guarded (option_copied origin.entry) ≡ None) }
{
    let Some(origin) = origin else {
        return Ok(None);
    };
    if guarded && is_origin(origin) {
        Ok(Some(origin))
    } else {
        Err(BadValue::Told(BAD_ORIGIN))
    }
}

/// Returns how many connections to serve, or none where all that come are served.
fn read_limit<'a>(count: Option<&'a str>, endless: bool) -> Result<Option<u32>, BadValue<'a>>
    ensures { MatchResult result (λ limit. limit_of (option_copied count.entry) endless ≡ Some limit)
        (λ _. limit_of (option_copied count.entry) endless ≡ None) }
{
    match (count, endless) {
        (Some(text), false) => match read_count(text) {
            Some(count) => Ok(Some(count)),
            None => Err(BadValue::Told(BAD_COUNT)),
        },
        (None, true) => Ok(None),
        _ => Err(BadValue::Told(BAD_LIMIT)),
    }
}

/// The socket of a file, whose path has a byte or more.
fn read_path<'a>(path: &'a str) -> Result<Place<'a>, BadValue<'a>>
    ensures { MatchResult result (λ place. socket_if path.now ≡ Some (where_asked place)) (λ _. socket_if path.now ≡ None) }
{
    if path.is_empty() {
        return Err(BadValue::Told(BAD_SOCKET));
    }
    Ok(Place::Socket(path))
}

/// Where connections are taken, at a port or at the socket of a file.
fn read_place<'a>(port: Option<&'a str>, socket: Option<&'a str>) -> Result<Place<'a>, BadValue<'a>>
    ensures { MatchResult result (λ place. place_if (option_copied port.entry) (option_copied socket.entry) ≡ Some (where_asked place))
        (λ _. place_if (option_copied port.entry) (option_copied socket.entry) ≡ None) }
{
    match (port, socket) {
        (Some(text), None) => match read_port(text) {
            Some(port) => Ok(Place::Port(port)),
            None => Err(BadValue::Told(BAD_PORT)),
        },
        (None, Some(path)) => read_path(path),
        _ => Err(BadValue::Told(BAD_PLACE)),
    }
}

pub(crate) fn serve_job<'a>(found: &ArgMatches<'a>) -> Result<Job<'a>, BadValue<'a>>
    ensures limited { IfOk result IsLimited }
    ensures job { MatchResult result (λ job. serve_asked (rows_of (found_of found.now)) ≡ Some (asked job))
        (λ _. serve_asked (rows_of (found_of found.now)) ≡ None) }
{
    let place = read_place(value_if_any(found, "port"), value_if_any(found, "socket"))?;
    let count = read_limit(value_if_any(found, "count"), flag(found, "endless"))?;
    let pages = flag(found, "pages");
    let guard = flag(found, "guard");
    let origin = read_origin(pages || guard, value_if_any(found, "origin"))?;
    Ok(Job::Serve {
        file: value(found, "db"),
        place,
        count,
        pages,
        guard,
        origin,
    })
}
