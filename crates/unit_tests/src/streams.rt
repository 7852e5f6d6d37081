//! A writer that fails.
use std::io;
use std::io::{ErrorKind, Write};

/// Takes as many bytes as there is room for. Where there is no more room a write fails.
#[derive(Drop)]
pub(crate) struct Limited {
    pub(crate) taken: Vec<u8>,
    pub(crate) room: usize,
}

impl Write for Limited {
    fn write(&mut self, buf: &[u8]) -> io::Result<usize> {
        if self.room == 0 {
            return Err(ErrorKind::StorageFull.into());
        }
        let count = self.room.min(buf.len());
        self.taken.extend_from_slice(&buf[..count])?;
        self.room -= count;
        Ok(count)
    }

    fn flush(&mut self) -> io::Result<()> {
        Ok(())
    }
}
