//! A connection that waits until its request has come.
ghost use Rattle.std.specs.Prelude.{◌≡◌, ◌++◌, ℕ, List, [], false};
ghost use Rattle.http_request.specs.Request.{EndsEarly};

use http_request::{InputFault, Routes, read_request};
use patient_stream::Stream;
use std::alloc::Global;
use std::io::{ErrorKind, Read};
use std::time::{Clock, Duration, Instant};

/// How many seconds a caller may take from its first byte on, until its request has come.
pub(crate) const PATIENCE: u64 = 10;

/// The most bytes of a read.
const PIECE: usize = 4096;

/// So many bytes are a whole request, or more than one may have: 8,192 of a head and 65,536 of a body.
const ENOUGH: usize = 73_728;

/// The result of one read.
enum Taken {
    Piece,
    Nothing,
    End,
}

/// A connection, what has come of it, and how much longer it may take.
#[derive(Drop)]
pub(crate) struct Caller {
    pub(crate) stream: Stream,
    pub(crate) came: Vec<u8>,
    pub(crate) left: Duration,
    begun: Option<Instant>,
}

/// Whether the bytes are enough: no more has to come of a request by these routes, or none can. No form is
/// shown here, so any number serves as its connection's.
fn is_whole(alloc: Global, came: &[u8], routes: &Routes) -> bool
    ensures { result ≡ false → EndsEarly routes.now came.now }
{
    let mut rest = came;
    match read_request(alloc, &mut rest, routes, 0) {
        Err(InputFault::EndedEarly) => false,
        _ => true,
    }
}

impl Caller {
    /// A connection from which nothing was read yet. Its reads do not wait.
    pub(crate) fn new(alloc: Global, stream: Stream) -> Caller
        ensures stream { result.stream ≡ stream }
        ensures came { result.came.items ≡ [] }
    {
        Caller {
            stream,
            came: Vec::new(alloc),
            left: Duration::from_secs(PATIENCE),
            begun: None,
        }
    }

    /// Reads once. It reserves memory first, so that no bytes that were read are lost; if there is none, the
    /// attendant reads the rest. After a failed read the wait is over.
    fn take_piece(&mut self) -> Taken
        ensures stream { self.new.stream ≡ self.old.stream }
    {
        if self.came.reserve(PIECE).is_err() {
            return Taken::End;
        }
        let mut piece = [0u8; PIECE];
        match (&self.stream).read(&mut piece) {
            Ok(0) => Taken::End,
            Ok(count) if self.came.extend_from_slice(&piece[..count]).is_ok() => Taken::Piece,
            Err(error) if error.kind() == ErrorKind::WouldBlock => Taken::Nothing,
            _ => {
                self.left = Duration::ZERO;
                Taken::End
            }
        }
    }

    /// Reads what has come, and returns whether more may come.
    fn take_all(&mut self) -> bool
        ensures stream { self.new.stream ≡ self.old.stream }
    {
        for _ in 0..ENOUGH {
            if self.came.len() >= ENOUGH {
                return false;
            }
            match self.take_piece() {
                Taken::Piece => {}
                Taken::Nothing => return true,
                Taken::End => return false,
            }
        }
        false
    }

    /// Subtracts the time since its first bytes were read, or all of it if the clock fails.
    fn pass_time<C: Clock>(&mut self, clock: &C)
        ensures stream { self.new.stream ≡ self.old.stream }
        ensures came { self.new.came ≡ self.old.came }
    {
        if self.came.is_empty() {
            return;
        }
        let most = Duration::from_secs(PATIENCE);
        self.left = match (Instant::now(clock), self.begun) {
            (Ok(now), Some(begun)) => most.saturating_sub(now.saturating_duration_since(begun)),
            (Ok(now), None) => {
                self.begun = Some(now);
                most
            }
            (Err(_), _) => Duration::ZERO,
        };
    }

    /// Whether a part of its request was read.
    pub(crate) fn has_begun(&self) -> bool {
        self.begun.is_some()
    }

    /// Reads what has come, and returns whether it can be attended to. It can after a whole request by these
    /// routes, bytes that can be no request, the end of the input, or the end of the wait.
    pub(crate) fn is_ready<C: Clock>(&mut self, alloc: Global, clock: &C, routes: &Routes) -> bool
        ensures stream { self.new.stream ≡ self.old.stream }
        ensures waits { result ≡ false → EndsEarly routes.now self.new.came.items }
    {
        if !self.take_all() || is_whole(alloc, &self.came, routes) {
            return true;
        }
        self.pass_time(clock);
        self.left.is_zero()
    }
}
