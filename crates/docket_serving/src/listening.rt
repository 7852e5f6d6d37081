//! Connections that a listener takes.
ghost use Rattle.std.specs.Prelude.{◌≡◌};
ghost use Rattle.docket_serving.specs.Exchanges.{Exchange};

use crate::caller::{Caller, PATIENCE};
use crate::connections::{Attendant, Connections};
use crate::parting::part;
use crate::waiting::{MOST, Waiting};
use docket_http::{Routes, ServeFault, Served};
use mio::unix::SourceFd;
use mio::{Events, Interest, Poll, Token};
use patient_stream::{Listener, PatientReader, PatientWriter, Stream};
use std::io;
use std::io::{ErrorKind, Read};
use std::os::fd::AsRawFd;
use std::rt::HostRuntime;
use std::time::Duration;

/// How many seconds pass before a connection whose request has begun is looked at again.
const PAUSE: u64 = 1;

/// The connections of a listener. Each waits until its request has come, and is then attended to; nobody waits
/// for another's bytes. Contracts do not know what they send, or what is sent to them.
#[derive(Drop)]
pub struct Listening<'a> {
    rt: &'a HostRuntime,
    listener: &'a Listener<'a>,
    poll: Poll,
    events: Events,
    waiting: Waiting,
}

/// Makes a wait end when this source has something to read.
fn watch<F: AsRawFd>(poll: &Poll, source: &F) -> io::Result<()> {
    let fd = source.as_raw_fd();
    poll.registry()
        .register(&mut SourceFd(&fd), Token(0), Interest::READABLE)
}

impl<'a> Listening<'a> {
    /// The connections that this listener takes. From now on its `accept` does not wait.
    pub fn new(rt: &'a HostRuntime, listener: &'a Listener<'a>) -> io::Result<Listening<'a>> {
        listener.set_nonblocking(true)?;
        let poll = Poll::new(rt)?;
        watch(&poll, listener)?;
        Ok(Listening {
            rt,
            listener,
            poll,
            events: Events::with_capacity(rt.alloc(), MOST)?,
            waiting: Waiting::new(rt.alloc())?,
        })
    }

    /// Adds a connection to those that wait, or drops it if the poll can't watch it.
    fn receive(&mut self, stream: Stream) {
        if stream.set_nonblocking(true).is_ok() && watch(&self.poll, &stream).is_ok() {
            let _ = self.waiting.join(Caller::new(self.rt.alloc(), stream));
        }
    }

    /// Adds a connection to those that wait, if one has come, and returns whether one had. If none can be
    /// taken, as when too many files are open, the connection that has waited longest is dropped.
    fn admit(&mut self) -> io::Result<bool> {
        match self.listener.accept() {
            Ok(stream) => {
                self.receive(stream);
                Ok(true)
            }
            Err(error) if error.kind() == ErrorKind::WouldBlock => Ok(false),
            Err(error) => match self.waiting.let_go() {
                Some(_) => Ok(true),
                None => Err(error),
            },
        }
    }

    /// Waits until something comes, at most a second if a caller's time may run out.
    fn wait(&mut self) -> io::Result<()> {
        let most = if self.waiting.have_begun() {
            Some(Duration::from_secs(PAUSE))
        } else {
            None
        };
        self.poll.poll(&mut self.events, most)
    }

    /// Returns the next caller whose request by these routes can be attended to. It looks at all that came
    /// before each wait: a wait reports only what came since.
    fn next_caller(&mut self, routes: &Routes) -> io::Result<Caller> {
        for _ in 0..u64::MAX {
            if let Some(caller) = self.waiting.take_ready(self.rt, routes) {
                return Ok(caller);
            }
            if !self.admit()? {
                self.wait()?;
            }
        }
        Err(ErrorKind::TimedOut.into())
    }
}

/// Attends to a caller, with a limit on how long it may take.
fn attend_patiently<A: Attendant>(
    rt: &HostRuntime,
    caller: &Caller,
    attendant: &mut A,
) -> Result<Served, ServeFault>
    ensures { (e : Exchange) × (e.end ≡ result) × A.Attends attendant.old e attendant.new }
{
    let rest = PatientReader::new(rt, &caller.stream, caller.left);
    let mut reader = caller.came.as_slice().chain(rest);
    let mut writer = PatientWriter::new(rt, &caller.stream, Duration::from_secs(PATIENCE));
    attendant.attend(&mut reader, &mut writer)
}

impl Connections for Listening<'_> {
    type Peer = Stream;

    fn next<A: Attendant>(
        &mut self,
        attendant: &mut A,
    ) -> io::Result<(Stream, Result<Served, ServeFault>)> {
        let caller = self.next_caller(attendant.routes())?;
        caller.stream.set_nonblocking(false)?;
        let served = attend_patiently(self.rt, &caller, attendant);
        part(self.rt, &caller.stream, &served);
        Ok((caller.stream, served))
    }
}
