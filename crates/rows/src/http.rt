//! Requests of HTTP, one a connection, to a docket in memory. A line of input is a string of JSON, the bytes of a
//! request; a line of output has the bytes of its answer, escaped, or why there is none.
use crate::compare::text_difference;
use crate::docket::created;
use crate::job::length;
use crate::script::{Step, Way, json_bytes};
use crate::streams::{Pieces, Taker};
use anyhow::{Error, anyhow};
use court_days::Court;
use docket_http::{Routes, ServeFault, serve_one};
use docket_store::Docket;
use sqlite::MemStore;
use std::alloc::Global;

/// A docket without any record, of a court of Eastern time.
fn docket(alloc: Global) -> Result<Docket<MemStore>, Error> {
    match Court::read(alloc, "EST5EDT,M3.2.0,M11.1.0", "17:00") {
        Ok(court) => created(alloc, court),
        Err(_) => Err(anyhow!("no court")),
    }
}

/// Appends a line with the answer to the request, which comes in pieces of a size, or why there is none. Its
/// connection has the number `fresh`.
fn push_answer(
    alloc: Global,
    docket: &mut Docket<MemStore>,
    routes: &Routes,
    fresh: u64,
    size: usize,
    request: &[u8],
    to: &mut Vec<u8>,
) -> Result<(), Error> {
    let mut reader = Pieces::new(request, size, u32::MAX);
    let mut answer = Vec::new(alloc);
    let line = match serve_one(alloc, &mut reader, &mut answer, docket, routes, fresh) {
        Ok(_) => format!(in alloc; "{}\n", answer.escape_ascii())?,
        Err(fault) => format!(in alloc; "{fault}\n")?,
    };
    Ok(to.extend_from_slice(line.as_bytes())?)
}

/// Appends the answers to the requests, whose connections have the numbers behind `before`.
fn push_answers(
    alloc: Global,
    docket: &mut Docket<MemStore>,
    routes: &Routes,
    before: u64,
    size: usize,
    requests: &[u8],
    to: &mut Vec<u8>,
) -> Result<(), Error> {
    let mut fresh = before;
    for line in requests.split_inclusive(|byte| *byte == b'\n') {
        fresh = fresh.wrapping_add(1);
        let request = json_bytes(alloc, line)?;
        push_answer(alloc, docket, routes, fresh, size, &request, to)?;
    }
    Ok(())
}

/// The answers of a new docket to the requests, which come in pieces of a size.
fn answers(
    alloc: Global,
    routes: &Routes,
    before: u64,
    size: usize,
    requests: &[u8],
) -> Result<Vec<u8>, Error> {
    let mut docket = docket(alloc)?;
    let mut written = Vec::new(alloc);
    let pushed = push_answers(
        alloc,
        &mut docket,
        routes,
        before,
        size,
        requests,
        &mut written,
    );
    let _ = docket.close();
    pushed?;
    Ok(written)
}

/// The number behind which those of the step's connections begin: its third word, or 0.
fn number_before(step: &Step) -> Result<u64, Error> {
    match step.word(2) {
        "" => Ok(0),
        word => word
            .parse::<u64>()
            .map_err(|_| anyhow!("{word} is no number")),
    }
}

/// The first difference from the expected answers, in pieces of each size.
fn in_pieces(
    alloc: Global,
    routes: &Routes,
    sizes: &[usize],
    step: &Step,
) -> Result<Option<String>, Error> {
    let before = number_before(step)?;
    for size in sizes {
        let came = answers(alloc, routes, before, *size, &step.input)?;
        let wanted = step.wanted.output.as_slice();
        if let Some(text) = text_difference(alloc, "output", &came, wanted)? {
            return Ok(Some(format!(in alloc; "in pieces of {size}: {text}")?));
        }
    }
    Ok(None)
}

/// Whether a request that is cut after any of its bytes ends early, with nothing written.
fn ends_early(alloc: Global, docket: &mut Docket<MemStore>, request: &[u8]) -> bool {
    for len in 0..request.len() {
        let mut reader = &request[..len];
        let mut answer = Vec::new(alloc);
        let served = serve_one(alloc, &mut reader, &mut answer, docket, &Routes::Docket, 0);
        if served != Err(ServeFault::EndedEarly) || !answer.is_empty() {
            return false;
        }
    }
    true
}

/// Whether a read that fails after any of its bytes is reported as that, with nothing written.
fn reports_reads(alloc: Global, docket: &mut Docket<MemStore>, request: &[u8]) -> bool {
    for good_reads in 0..length(request) {
        let mut reader = Pieces::new(request, 1, good_reads);
        let mut answer = Vec::new(alloc);
        let served = serve_one(alloc, &mut reader, &mut answer, docket, &Routes::Docket, 0);
        if served != Err(ServeFault::ReadFailed) || !answer.is_empty() {
            return false;
        }
    }
    true
}

/// Whether a write that fails, or takes nothing, after any byte of the answer is reported as that, with the
/// bytes before it written.
fn reports_writes(alloc: Global, docket: &mut Docket<MemStore>, request: &[u8]) -> bool {
    let mut reader = request;
    let mut answer = Vec::new(alloc);
    if serve_one(alloc, &mut reader, &mut answer, docket, &Routes::Docket, 0).is_err() {
        return false;
    }
    for good_writes in 0..length(&answer) {
        let mut reader = request;
        let mut writer = Taker::new(alloc, 1, good_writes, good_writes % 2 == 0);
        let served = serve_one(alloc, &mut reader, &mut writer, docket, &Routes::Docket, 0);
        let front = answer.iter().take(good_writes as usize);
        if served != Err(ServeFault::WriteFailed) || !writer.taken.iter().eq(front) {
            return false;
        }
    }
    true
}

/// What goes wrong where the reads of a request fail, if anything does.
fn read_fault(
    alloc: Global,
    docket: &mut Docket<MemStore>,
    request: &[u8],
) -> Option<&'static str> {
    if !ends_early(alloc, docket, request) {
        return Some("a request that is cut does not end early");
    }
    if !reports_reads(alloc, docket, request) {
        return Some("a read that fails is not reported");
    }
    None
}

/// What goes wrong where its writes fail, if anything does.
fn write_fault(
    alloc: Global,
    docket: &mut Docket<MemStore>,
    request: &[u8],
) -> Option<&'static str> {
    if reports_writes(alloc, docket, request) {
        None
    } else {
        Some("a write that fails is not reported")
    }
}

/// The first of the requests that goes wrong where its reads fail, or else where its writes fail.
fn first_fault(
    alloc: Global,
    docket: &mut Docket<MemStore>,
    reads: bool,
    requests: &[u8],
) -> Result<Option<String>, Error> {
    for line in requests.split_inclusive(|byte| *byte == b'\n') {
        let request = json_bytes(alloc, line)?;
        let fault = if reads {
            read_fault(alloc, docket, &request)
        } else {
            write_fault(alloc, docket, &request)
        };
        if let Some(fault) = fault {
            return Ok(Some(format!(in alloc; "{fault}: {}", request.escape_ascii())?));
        }
    }
    Ok(None)
}

/// The same of a new docket.
fn failing(alloc: Global, reads: bool, requests: &[u8]) -> Result<Option<String>, Error> {
    let mut docket = docket(alloc)?;
    let found = first_fault(alloc, &mut docket, reads, requests);
    let _ = docket.close();
    found
}

/// Pages are shown, or the docket is guarded, at port 8080 of this machine and at the origin `http://x`.
fn routes_of(alloc: Global, word: &str) -> Result<Routes, Error> {
    match word {
        "pages" => Ok(Routes::with_pages(alloc, 8080, Some("http://x"))?),
        "guard" => Ok(Routes::guarded(alloc, 8080, Some("http://x"))?),
        _ => Ok(Routes::Docket),
    }
}

/// The first difference from the step's expected output, played in the way that the step says.
pub(crate) fn http_difference(alloc: Global, step: &Step) -> Result<Option<String>, Error> {
    match &step.way {
        Way::Pieces(sizes) => in_pieces(alloc, &routes_of(alloc, step.word(1))?, sizes, step),
        Way::EachRead => failing(alloc, true, &step.input),
        Way::EachWrite => failing(alloc, false, &step.input),
        Way::FailingRead { .. } | Way::FailingWrite { .. } => {
            Err(anyhow!("requests are not played in this way"))
        }
    }
}
