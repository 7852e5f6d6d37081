//! Listening at a place.
ghost use Rattle.std.specs.Prelude.{◌≡◌, IfOk};
ghost use Rattle.patient_stream.specs.Places.{IsPortOf, port_of};

use crate::place::Place;
use crate::socket_file::{SocketFile, listen_at};
use crate::stream::Stream;
use std::net::{SocketAddr, TcpListener};
use std::os::fd::{AsRawFd, RawFd};
use std::os::unix::net::UnixListener;
use std::rt::HostRuntime;
use std::{fmt, io};

/// The port of HTTP.
const HTTP: u16 = 80;

/// Takes connections at a place. The file of a socket is removed where this is dropped.
#[derive(Drop)]
pub enum Listener<'a> {
    Port(SocketAddr, TcpListener),
    Socket(SocketFile<'a>, UnixListener),
}

impl<'a> Listener<'a> {
    /// Listens at a place. A file that is made for that has rights for its owner alone.
    pub fn bind(rt: &'a HostRuntime, place: Place<'a>) -> io::Result<Listener<'a>>
        ensures { IfOk result (λ listener. IsPortOf place.entry (port_of listener)) }
    {
        match place {
            Place::Port(port) => {
                let listener = TcpListener::bind(rt, ("127.0.0.1", port))?;
                Ok(Listener::Port(listener.local_addr()?, listener))
            }
            Place::Socket(path) => {
                let (listener, file) = listen_at(rt, path)?;
                Ok(Listener::Socket(file, listener))
            }
        }
    }

    /// The port in the origins of what is served here: that of the address, or that of HTTP, which an origin
    /// leaves out, where a file is in its place.
    pub fn port(&self) -> u16
        ensures { result ≡ port_of self.now }
    {
        match self {
            Listener::Port(address, _) => address.port(),
            Listener::Socket(_, _) => HTTP,
        }
    }

    /// Sets whether an `accept` that would wait fails with `WouldBlock` from now on.
    pub fn set_nonblocking(&self, nonblocking: bool) -> io::Result<()> {
        match self {
            Listener::Port(_, listener) => listener.set_nonblocking(nonblocking),
            Listener::Socket(_, listener) => listener.set_nonblocking(nonblocking),
        }
    }

    /// Returns the next connection.
    pub fn accept(&self) -> io::Result<Stream> {
        match self {
            Listener::Port(_, listener) => Ok(Stream::Port(listener.accept()?.0)),
            Listener::Socket(_, listener) => Ok(Stream::Socket(listener.accept()?.0)),
        }
    }
}

/// An address, or the path of a file.
impl fmt::Display for Listener<'_> {
    fn fmt<W: fmt::Write>(&self, f: &mut fmt::Formatter<W>) -> fmt::Result {
        match self {
            Listener::Port(address, _) => write!(f, "{address}"),
            Listener::Socket(file, _) => f.write_str(file.path),
        }
    }
}

impl AsRawFd for Listener<'_> {
    fn as_raw_fd(&self) -> RawFd {
        match self {
            Listener::Port(_, listener) => listener.as_raw_fd(),
            Listener::Socket(_, listener) => listener.as_raw_fd(),
        }
    }
}
