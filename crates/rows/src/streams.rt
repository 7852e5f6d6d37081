//! A reader and a writer that work piece by piece, and fail.
use std::alloc::Global;
use std::io;
use std::io::{ErrorKind, Read, Write};

/// Returns its bytes in pieces of at most `size` bytes, and fails after so many reads.
#[derive(Drop)]
pub(crate) struct Pieces<'a> {
    rest: &'a [u8],
    size: usize,
    good_reads: u32,
}

impl<'a> Pieces<'a> {
    pub(crate) fn new(rest: &'a [u8], size: usize, good_reads: u32) -> Pieces<'a> {
        Pieces {
            rest,
            size,
            good_reads,
        }
    }
}

impl Read for Pieces<'_> {
    fn read(&mut self, buf: &mut [u8]) -> io::Result<usize> {
        if self.good_reads == 0 {
            return Err(ErrorKind::Other.into());
        }
        self.good_reads -= 1;
        let count = self.size.min(self.rest.len()).min(buf.len());
        buf[..count].copy_from_slice(&self.rest[..count]);
        self.rest = &self.rest[count..];
        Ok(count)
    }
}

/// Takes at most `size` bytes a write. After so many writes it fails, or takes nothing.
#[derive(Drop)]
pub(crate) struct Taker {
    pub(crate) taken: Vec<u8>,
    size: usize,
    good_writes: u32,
    fails: bool,
}

impl Taker {
    /// Takes all that is written.
    pub(crate) fn whole(alloc: Global) -> Taker {
        Taker::new(alloc, usize::MAX, u32::MAX, true)
    }

    pub(crate) fn new(alloc: Global, size: usize, good_writes: u32, fails: bool) -> Taker {
        Taker {
            taken: Vec::new(alloc),
            size,
            good_writes,
            fails,
        }
    }
}

impl Write for Taker {
    fn write(&mut self, buf: &[u8]) -> io::Result<usize> {
        if self.good_writes == 0 {
            return if self.fails {
                Err(ErrorKind::Other.into())
            } else {
                Ok(0)
            };
        }
        self.good_writes -= 1;
        let count = self.size.min(buf.len());
        self.taken.extend_from_slice(&buf[..count])?;
        Ok(count)
    }

    fn flush(&mut self) -> io::Result<()> {
        Ok(())
    }
}
