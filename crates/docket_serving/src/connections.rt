//! Where connections come from, and who attends to them.
ghost use Rattle.std.specs.Prelude.{◌≡◌, ◌∷◌, [], ℕ, List, Option, None, IfOk, OnErr};
ghost use Rattle.docket_serving.specs.Exchanges.{Exchange, Logs, exchange};

use docket_http::{Routes, ServeFault, Served};
use std::io;
use std::io::{Read, Write};

/// Attends to connections.
pub trait Attendant {
    // What one connection does to the attendant.
    ghost Attends: { Self → Exchange → Self → Type 0 };

    /// The routes by which it reads a request.
    fn routes(&self) -> &Routes;

    /// Attends to one connection: gives it a number, reads its request, and writes the answer.
    fn attend<R: Read, W: Write>(
        &mut self,
        reader: &mut R,
        writer: &mut W,
    ) -> Result<Served, ServeFault>
        ensures { (number : ℕ) × Attends self.old (exchange number (R.remaining reader.old) (W.contents writer.old) (W.contents writer.new) result) self.new };
}

/// A source of connections. It calls the attendant for each one that it takes: nothing else can bring an
/// attendant to what `Attends` defines.
pub trait Connections {
    /// What is left of a connection. Dropping it closes the connection.
    type Peer: Drop;

    // The exchanges of the connections that were taken, one after the other, where they are known.
    ghost log: { Self → Option (List Exchange) } = { λ _. None };

    /// Takes the next connection, calls the attendant once for it, and returns how it ended.
    fn next<A: Attendant>(
        &mut self,
        attendant: &mut A,
    ) -> io::Result<(Self::Peer, Result<Served, ServeFault>)>
        ensures attended { IfOk result (λ met. (e : Exchange) × (e.end ≡ met.1)
            × Logs (log self.old) (log self.new) (e ∷ []) × A.Attends attendant.old e attendant.new) }
        ensures missed { OnErr result (Logs (log self.old) (log self.new) [] × (attendant.new ≡ attendant.old)) };
}
