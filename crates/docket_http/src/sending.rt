//! Writing an answer that is whole.
ghost use Rattle.std.specs.Prelude.{◌≡◌, ◌++◌, IfOk, IfErr, OnOk, OnErr};
ghost use Rattle.std.specs.Io.KnownBytes.{Appends};
ghost use Rattle.line_io.specs.Output.{AppendsFront};
ghost use Rattle.docket_http.specs.Reply.{reply_bytes, reply_status};

use crate::fault::ServeFault;
use crate::reply::Reply;
use line_io::{WriteFailed, write_bytes};
use std::io::Write;

/// What was answered.
#[derive(Clone, Copy, PartialEq, Eq)]
pub struct Served {
    /// The status code.
    pub status: u16,
}

/// Writes the head of an answer and then its body.
fn write_parts<W: Write>(writer: &mut W, head: &[u8], body: &[u8]) -> Result<(), WriteFailed>
    ensures whole { OnOk result (Appends (W.contents writer.old) (W.contents writer.new) (head.now ++ body.now)) }
    ensures front { OnErr result (AppendsFront (W.contents writer.old) (W.contents writer.new) (head.now ++ body.now)) }
{
    write_bytes(writer, head)?;
    write_bytes(writer, body)
}

/// Writes the bytes of an answer.
fn write_reply<W: Write>(writer: &mut W, reply: &Reply) -> Result<(), WriteFailed>
    ensures whole { OnOk result (Appends (W.contents writer.old) (W.contents writer.new) (reply_bytes reply.now)) }
    ensures front { OnErr result (AppendsFront (W.contents writer.old) (W.contents writer.new) (reply_bytes reply.now)) }
{
    match reply {
        Reply::Built { head, body, .. } => write_parts(writer, head.as_bytes(), body.as_bytes()),
        Reply::File { head, body } => write_parts(writer, head.as_bytes(), body.as_slice()),
        Reply::Fixed(problem) => write_bytes(writer, problem.answer()),
        Reply::Shown(failure) => write_bytes(writer, failure.page()),
    }
}

/// Writes an answer.
pub(crate) fn send<W: Write>(writer: &mut W, reply: &Reply) -> Result<Served, ServeFault>
    ensures whole { IfOk result (λ served. Appends (W.contents writer.old) (W.contents writer.new) (reply_bytes reply.now)
        × (served.status ≡ reply_status reply.now)) }
    ensures front { IfErr result (λ e. (e ≡ ServeFault.WriteFailed)
        × AppendsFront (W.contents writer.old) (W.contents writer.new) (reply_bytes reply.now)) }
{
    match write_reply(writer, reply) {
        Ok(()) => Ok(Served {
            status: reply.status().as_u16(),
        }),
        Err(WriteFailed) => Err(ServeFault::WriteFailed),
    }
}
