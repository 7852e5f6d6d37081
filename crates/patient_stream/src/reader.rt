//! Reading from a peer that is waited for only so long.
ghost use Rattle.std.specs.Prelude.{◌≡◌, ◌≤◌, IsErrAnd};
ghost use Rattle.std.specs.Duration.{as_nanos};
ghost use Rattle.std.specs.Io.{ReadsAtMost};
ghost use Rattle.std.specs.Io.KnownBytes.{ReadConsumes};
ghost use Rattle.std.specs.IoError.{error_kind};

use crate::patience::Patience;
use crate::stream::TimedStream;
use std::io;
use std::io::{ErrorKind, Read};
use std::time::{Clock, Duration};

/// Reads from a stream, and waits only so long for all that it reads. Past that each read fails with
/// `TimedOut`.
#[derive(Drop)]
pub struct PatientReader<C, S> {
    clock: C,
    stream: S,
    patience: Patience,
}

impl<C: Clock + Drop, S: Read + TimedStream + Drop> PatientReader<C, S> {
    /// Reads from a stream, and waits at most so long in all.
    pub fn new(clock: C, stream: S, most: Duration) -> PatientReader<C, S> {
        PatientReader {
            clock,
            stream,
            patience: Patience { left: most },
        }
    }
}

impl<C: Clock + Drop, S: Read + TimedStream + Drop> Read for PatientReader<C, S> {
    ghost remaining = { λ reader. S.remaining reader.stream };

    fn read(&mut self, buf: &mut [u8]) -> io::Result<usize>
        ensures bound { ReadsAtMost result buf.new }
        ensures bytes { ReadConsumes (S.remaining self.old.stream) (S.remaining self.new.stream) result buf.new }
        ensures spent { as_nanos self.old.patience.left ≡ 0 → IsErrAnd result (λ e. error_kind e ≡ ErrorKind.TimedOut) }
        ensures shorter { as_nanos self.new.patience.left ≤ as_nanos self.old.patience.left }
    {
        let since = self.patience.begin(&self.clock)?;
        self.stream.wait_to_read(self.patience.left)?;
        let read = self.stream.read(buf);
        self.patience.end(&self.clock, since);
        read
    }
}
