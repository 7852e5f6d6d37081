//! Requests that enter a command.
ghost use Rattle.std.specs.Prelude.{◌≡◌, ℕ, List, Result, IfOk, IfErr, Some};
ghost use Rattle.command_forms.specs.Forms.{command_in_form, pairs_in, texts_of};
ghost use Rattle.docket_command.specs.declared.command.Command.{Command};
ghost use Rattle.http_request.specs.declared.wish.Wish.{Wish};
ghost use Rattle.http_request.specs.declared.wish.Wish.TheVariants.{Command as CommandWish, Form as FormWish};
ghost use Rattle.docket_applying.specs.declared.fault.Fault.TheVariants.{NoMemory};
ghost use Rattle.docket_wire.specs.Members.{Gives};
ghost use Rattle.docket_wire.specs.declared.fault.WireFault.{WireFault};
ghost use Rattle.docket_http.specs.Entering.{entry_of, manner_of};
ghost use Rattle.docket_http.specs.Recorded.{RepliesTo};

use crate::reply::Reply;
use crate::writing::{Writing, fault_reply, said_reply};
use command_forms::{Pair, entered_command, read_pairs};
use docket_command::Command;
use docket_store::{Docket, Fault, answer};
use docket_wire::{WireFault, read_command};
use sqlite::Alter;
use std::alloc::Global;

/// The answer to what spells a command, or has a fault for which it spells none.
fn entry_reply<S: Alter>(
    alloc: Global,
    docket: &mut Docket<S>,
    writing: &Writing,
    read: Result<Command, WireFault>,
) -> Result<Reply, Fault>
    ensures { (wish : Wish) (body : List ℕ) → entry_of wish body ≡ Some (record { read = read; manner = manner_of writing.now })
        → RepliesTo S.Store docket.old docket.new wish body result }
{
    match read {
        Ok(command) => {
            let said = answer(docket, &command)?;
            said_reply(alloc, writing, &command, &said)
        }
        Err(fault) => fault_reply(alloc, writing, fault),
    }
}

/// Returns what was read, but a lack of memory as a fault of the docket's.
fn kept(read: Result<Command, WireFault>) -> Result<Result<Command, WireFault>, Fault>
    ensures read { (spelled : Result Command WireFault) → Gives read spelled → IfOk result (λ read. spelled ≡ read) }
    ensures short { IfErr result (λ e. e ≡ NoMemory) }
{
    match read {
        Ok(command) => Ok(Ok(command)),
        Err(WireFault::NoMemory) => Err(Fault::NoMemory),
        Err(fault) => Ok(Err(fault)),
    }
}

/// The pairs of a form, and the command that they spell, or the fault for which they spell none.
pub(crate) fn read_form(
    alloc: Global,
    body: &[u8],
) -> Result<(Vec<Pair>, Result<Command, WireFault>), Fault>
    ensures pairs { IfOk result (λ form. texts_of form.0.items ≡ pairs_in body.now) }
    ensures read { IfOk result (λ form. form.1 ≡ command_in_form body.now) }
    ensures short { IfErr result (λ e. e ≡ NoMemory) }
{
    let pairs = read_pairs(alloc, body)?;
    let read = kept(entered_command(alloc, &pairs))?;
    Ok((pairs, read))
}

/// The answer to the text of a command.
pub(crate) fn command_reply<S: Alter>(
    alloc: Global,
    docket: &mut Docket<S>,
    body: &[u8],
) -> Result<Reply, Fault>
    ensures { (len : ℕ) → RepliesTo S.Store docket.old docket.new (CommandWish len) body.now result }
{
    let read = kept(read_command(alloc, body))?;
    entry_reply(alloc, docket, &Writing::Json, read)
}

/// The answer to a form. The number makes the key of the form that a browser gets again.
pub(crate) fn form_reply<S: Alter>(
    alloc: Global,
    docket: &mut Docket<S>,
    fresh: u64,
    body: &[u8],
) -> Result<Reply, Fault>
    ensures { (len : ℕ) → RepliesTo S.Store docket.old docket.new (FormWish len fresh) body.now result }
{
    let (pairs, read) = read_form(alloc, body)?;
    let writing = Writing::Pages { fresh, pairs };
    entry_reply(alloc, docket, &writing, read)
}
