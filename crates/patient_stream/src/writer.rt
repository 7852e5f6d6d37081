//! Writing to a peer that is waited for only so long.
ghost use Rattle.std.specs.Prelude.{◌≡◌, ◌≤◌, IsErrAnd};
ghost use Rattle.std.specs.Duration.{as_nanos};
ghost use Rattle.std.specs.Io.{WritesAtMost};
ghost use Rattle.std.specs.Io.KnownBytes.{WriteAppends};
ghost use Rattle.std.specs.IoError.{error_kind};

use crate::patience::Patience;
use crate::stream::TimedStream;
use std::io;
use std::io::{ErrorKind, Write};
use std::time::{Clock, Duration};

/// Writes to a stream, and waits only so long for all that it writes. Past that each write fails with
/// `TimedOut`.
#[derive(Drop)]
pub struct PatientWriter<C, S> {
    clock: C,
    stream: S,
    patience: Patience,
}

impl<C: Clock + Drop, S: Write + TimedStream + Drop> PatientWriter<C, S> {
    /// Writes to a stream, and waits at most so long in all.
    pub fn new(clock: C, stream: S, most: Duration) -> PatientWriter<C, S> {
        PatientWriter {
            clock,
            stream,
            patience: Patience { left: most },
        }
    }
}

impl<C: Clock + Drop, S: Write + TimedStream + Drop> Write for PatientWriter<C, S> {
    ghost contents = { λ writer. S.contents writer.stream };

    fn write(&mut self, bytes: &[u8]) -> io::Result<usize>
        ensures bound { WritesAtMost result bytes.now }
        ensures bytes { WriteAppends (S.contents self.old.stream) (S.contents self.new.stream) result bytes.now }
        ensures spent { as_nanos self.old.patience.left ≡ 0 → IsErrAnd result (λ e. error_kind e ≡ ErrorKind.TimedOut) }
        ensures shorter { as_nanos self.new.patience.left ≤ as_nanos self.old.patience.left }
    {
        let since = self.patience.begin(&self.clock)?;
        self.stream.wait_to_write(self.patience.left)?;
        let written = self.stream.write(bytes);
        self.patience.end(&self.clock, since);
        written
    }

    fn flush(&mut self) -> io::Result<()> {
        self.stream.flush()
    }
}
