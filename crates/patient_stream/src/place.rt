//! Where connections are taken.

/// A place of this machine at which connections are taken.
#[derive(Clone, Copy)]
pub enum Place<'a> {
    /// A port at 127.0.0.1, or 0 for one that the system chooses.
    Port(u16),
    /// The socket of a file at a path. Who may write in the file may connect.
    Socket(&'a str),
}
