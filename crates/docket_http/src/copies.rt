//! The answer to a request for a copy of the file in which the docket is kept.
ghost use Rattle.std.specs.Prelude.{option_map};
ghost use Rattle.docket_http.specs.Answer.{Response};
ghost use Rattle.docket_http.specs.Reply.{IsReply};
ghost use Rattle.docket_http.specs.Serve.{IsCopyAnswer, SendsCopy};

use crate::failure::Failure;
use crate::fault::ServeFault;
use crate::reply::{Reply, file_reply};
use crate::sending::{Served, send};
use std::alloc::Global;
use std::io::Write;

/// The copy, or why there is none.
fn copy_reply(alloc: Global, copy: Option<Vec<u8>>) -> Reply
    ensures { (response : Response) × IsReply result response × IsCopyAnswer (option_map (λ bytes. bytes.items) copy) response }
{
    match copy {
        Some(bytes) => match file_reply(alloc, bytes) {
            Ok(reply) => reply,
            Err(_) => Reply::Shown(Failure::NoMemory),
        },
        None => Reply::Shown(Failure::NoCopy),
    }
}

/// Answers with a copy of the file in which the docket is kept, or that none was made. Memory may be short
/// for the head of the answer.
pub fn send_copy<W: Write>(
    alloc: Global,
    writer: &mut W,
    copy: Option<Vec<u8>>,
) -> Result<Served, ServeFault>
    ensures { SendsCopy (option_map (λ bytes. bytes.items) copy) (W.contents writer.old) (W.contents writer.new) result }
{
    let reply = copy_reply(alloc, copy);
    send(writer, &reply)
}
