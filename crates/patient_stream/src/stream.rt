//! The streams of connections, whose waits can be limited.
ghost use Rattle.std.specs.Io.{ReadsAtMost, WritesAtMost};

use std::io;
use std::io::{Read, Write};
use std::net::{Shutdown, TcpStream};
use std::os::fd::{AsRawFd, RawFd};
use std::os::unix::net::UnixStream;
use std::time::Duration;

/// A stream whose reads and writes fail after a wait. A wait of no time can't be set.
pub trait TimedStream {
    /// Sets the most that a read waits from now on.
    fn wait_to_read(&self, most: Duration) -> io::Result<()>;

    /// Sets the most that a write waits from now on.
    fn wait_to_write(&self, most: Duration) -> io::Result<()>;
}

/// A connection, which is closed where this is dropped.
#[derive(Drop)]
pub enum Stream {
    Port(TcpStream),
    Socket(UnixStream),
}

impl Stream {
    /// Sets whether a read or a write that would wait fails with `WouldBlock` from now on.
    pub fn set_nonblocking(&self, nonblocking: bool) -> io::Result<()> {
        match self {
            Stream::Port(stream) => stream.set_nonblocking(nonblocking),
            Stream::Socket(stream) => stream.set_nonblocking(nonblocking),
        }
    }

    /// Ends the sending: the peer reads the end after what was sent.
    pub fn end_sending(&self) -> io::Result<()> {
        match self {
            Stream::Port(stream) => stream.shutdown(Shutdown::Write),
            Stream::Socket(stream) => stream.shutdown(Shutdown::Write),
        }
    }

    fn receive(&self, buf: &mut [u8]) -> io::Result<usize>
        ensures { ReadsAtMost result buf.new }
    {
        match self {
            Stream::Port(stream) => (&*stream).read(buf),
            Stream::Socket(stream) => (&*stream).read(buf),
        }
    }

    fn send(&self, bytes: &[u8]) -> io::Result<usize>
        ensures { WritesAtMost result bytes.now }
    {
        match self {
            Stream::Port(stream) => (&*stream).write(bytes),
            Stream::Socket(stream) => (&*stream).write(bytes),
        }
    }

    fn set_read_timeout(&self, most: Duration) -> io::Result<()> {
        match self {
            Stream::Port(stream) => stream.set_read_timeout(Some(most)),
            Stream::Socket(stream) => stream.set_read_timeout(Some(most)),
        }
    }

    fn set_write_timeout(&self, most: Duration) -> io::Result<()> {
        match self {
            Stream::Port(stream) => stream.set_write_timeout(Some(most)),
            Stream::Socket(stream) => stream.set_write_timeout(Some(most)),
        }
    }
}

impl Read for &Stream {
    fn read(&mut self, buf: &mut [u8]) -> io::Result<usize> {
        self.receive(buf)
    }
}

impl Write for &Stream {
    fn write(&mut self, bytes: &[u8]) -> io::Result<usize> {
        self.send(bytes)
    }

    /// What was written is sent at once.
    fn flush(&mut self) -> io::Result<()> {
        Ok(())
    }
}

impl TimedStream for &Stream {
    fn wait_to_read(&self, most: Duration) -> io::Result<()> {
        self.set_read_timeout(most)
    }

    fn wait_to_write(&self, most: Duration) -> io::Result<()> {
        self.set_write_timeout(most)
    }
}

impl AsRawFd for Stream {
    fn as_raw_fd(&self) -> RawFd {
        match self {
            Stream::Port(stream) => stream.as_raw_fd(),
            Stream::Socket(stream) => stream.as_raw_fd(),
        }
    }
}
