//! A docket served at places of this machine, by one thread: the client's request waits in the socket.
use crate::dockets::new_docket;
use docket_serving::{Desk, Listener, Listening, Place, Routes, serve_run};
use patient_stream::Stream;
use sqlite::MemStore;
use std::io;
use std::io::{Read, Write};
use std::net::TcpStream;
use std::os::unix::net::UnixStream;
use std::test::Fail;

const OPEN: &[u8] =
    b"POST /commands HTTP/1.1\r\nHost: x\r\nContent-Length: 97\r\n\r\n{\"caption\":\"Roe v. Doe\",\"do\":\"open_case\",\"filed\":\"2025-06-02\",\"key\":\"k1\",\"label\":\"1:25-cv-00001\"}";

const OPENED: &[u8] =
    b"HTTP/1.1 200 OK\r\ncontent-type: application/json\r\ncontent-length: 13\r\nconnection: close\r\n\r\n{\"number\":1}\n";

const NOT_FOUND: &[u8] =
    b"HTTP/1.1 404 Not Found\r\ncontent-type: application/json\r\ncontent-length: 22\r\nconnection: close\r\n\r\n{\"error\":\"not-found\"}\n";

/// Requests of one client after the other, each with its answer and what is printed as an error.
const VISITS: [(&[u8], &[u8], &[u8]); 4] = [
    (OPEN, OPENED, b""),
    (OPEN, OPENED, b""),
    (b"GET /courts HTTP/1.1\r\n\r\nmore", NOT_FOUND, b""),
    (
        b"GET /cases/1 HTTP/1.1\r\n",
        b"",
        b"docketctl: a request ended early\n",
    ),
];

/// A connection to who listens at a place.
fn client_of(rt: &HostRuntime, place: Place<'_>, listener: &Listener<'_>) -> io::Result<Stream> {
    match place {
        Place::Port(_) => Ok(Stream::Port(TcpStream::connect(rt, ("127.0.0.1", listener.port()))?)),
        Place::Socket(path) => Ok(Stream::Socket(UnixStream::connect(rt, path)?)),
    }
}

/// The answer to a client who ends its side at once, and what is printed as an error.
fn visited(
    rt: &HostRuntime,
    client: &Stream,
    listener: &Listener<'_>,
    desk: &mut Desk<'_, MemStore>,
    request: &[u8],
) -> Result<(Vec<u8>, Vec<u8>), Fail> {
    let mut client = client;
    client.write_all(request)?;
    client.end_sending()?;
    let mut errors = Vec::new(rt.alloc());
    let mut connections = Listening::new(rt, listener)?;
    if serve_run(rt.alloc(), &mut connections, 1, desk, &mut errors).is_err() {
        return Err(Fail::new("serving ended"));
    }
    let mut answer = Vec::new(rt.alloc());
    client.read_to_end(&mut answer)?;
    Ok((answer, errors))
}

/// Plays all visits at a place.
fn play_at(rt: &HostRuntime, place: Place<'_>) -> Result<(), Fail> {
    let docket = new_docket(rt.alloc()).ok_or("no docket")?;
    let mut desk = Desk::new(rt, docket, Routes::Docket, None);
    let listener = Listener::bind(rt, place)?;
    for (request, wanted, fault) in VISITS {
        let client = client_of(rt, place, &listener)?;
        let (answer, errors) = visited(rt, &client, &listener, &mut desk, request)?;
        if answer.as_slice() != wanted || errors.as_slice() != fault {
            return Err(Fail::new("an answer is another"));
        }
    }
    Ok(())
}

#[test]
fn clients_of_a_port(rt: HostRuntime) -> Result<(), Fail> {
    play_at(&rt, Place::Port(0))
}

#[test]
fn clients_of_a_socket(rt: HostRuntime) -> Result<(), Fail> {
    play_at(&rt, Place::Socket("visits.socket"))
}
