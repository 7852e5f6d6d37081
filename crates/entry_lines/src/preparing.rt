//! The line of a command that a person enters in words, by a docket, and what it would do.
ghost use Rattle.std.specs.Prelude.{◌≡◌, Result, IfErr, IfOk, false};
ghost use Rattle.std.specs.Result.{result_map_both};
ghost use Rattle.command_forms.specs.Forms.{texts_of};
ghost use Rattle.command_forms.specs.Given.{texts_given};
ghost use Rattle.docket_applying.specs.Applying.{Asks, Stands};
ghost use Rattle.docket_applying.specs.declared.fault.Fault.TheVariants.{NoMemory};
ghost use Rattle.docket_command.specs.declared.command.Command.{Command as Entered};
ghost use Rattle.docket_history.specs.Histories.{History};
ghost use Rattle.docket_store.specs.Asking.{OnlyAnswers};
ghost use Rattle.docket_wire.specs.Members.{Gives};
ghost use Rattle.docket_wire.specs.Reading.{command_in};
ghost use Rattle.docket_wire.specs.declared.fault.WireFault.{WireFault as Faulty};
ghost use Rattle.entry_lines.specs.Lines.{fields_named};
ghost use Rattle.entry_lines.specs.Names.{case_found};
ghost use Rattle.entry_lines.specs.Preparing.{IsLine, IsPrepared, WouldDo};

use crate::digits::{case_spelled, is_name};
use crate::entry::{Entry, Prepared, Unnamed, Would};
use crate::fields::{case_text, pairs_meant};
use crate::line::line_entered;
use command_forms::{FieldText, Pair};
use docket_command::Command;
use docket_history::CaseRow;
use docket_questions::foreseen;
use docket_store::{Docket, Fault};
use docket_wire::{WireFault, read_command};
use sqlite::Alter;
use std::alloc::Global;

/// The number of the case that the text means, where this is the case of that label.
fn case_found(text: &str, labelled: Option<CaseRow>) -> Option<u32>
    ensures { result ≡ case_found text.now labelled }
{
    if !is_name(text) {
        return Some(case_spelled(text));
    }
    match labelled {
        Some(case) => Some(case.number),
        None => None,
    }
}

/// The pairs of the fields, with numbers for the names, or the first name that fits none or several.
fn fields_named<S: Alter>(
    alloc: Global,
    docket: &mut Docket<S>,
    given: &[FieldText<'_>],
) -> Result<Result<Vec<Pair>, Unnamed>, Fault>
    ensures answer { (h : History) → Stands S.Store docket.old h
        → Asks S.Store docket.new h (λ pairs. result_map_both (λ pairs. texts_of pairs.items) (λ why. why) pairs
        ≡ fields_named h (texts_given given.now)) result }
    ensures only { OnlyAnswers S.Store docket.old docket.new result }
{
    let text = case_text(given);
    let labelled = docket.case_labelled(text)?;
    let case = case_found(text, labelled);
    let parties = docket.parties(case.unwrap_or(0))?;
    let pairs = pairs_meant(alloc, case, parties.as_slice(), given)?;
    Ok(pairs)
}

/// Returns what was read, but a lack of memory as a fault of the docket's.
fn kept(read: Result<Command, WireFault>) -> Result<Result<Command, WireFault>, Fault>
    ensures read { (spelled : Result Entered Faulty) → Gives read spelled → IfOk result (λ read. spelled ≡ read) }
    ensures short { IfErr result (λ e. e ≡ NoMemory) }
{
    match read {
        Ok(command) => Ok(Ok(command)),
        Err(WireFault::NoMemory) => Err(Fault::NoMemory),
        Err(fault) => Ok(Err(fault)),
    }
}

/// What the line would do, by a docket that is not closed.
fn would_do<S: Alter>(alloc: Global, docket: &mut Docket<S>, line: &str) -> Result<Would, Fault>
    ensures answer { (h : History) → Stands S.Store docket.old h
        → Asks S.Store docket.new h (WouldDo docket.old.court h (command_in line.now)) result }
    ensures only { docket.old.closed ≡ false → OnlyAnswers S.Store docket.old docket.new result }
{
    let read = kept(read_command(alloc, line.as_bytes()))?;
    match read {
        Ok(command) => {
            let foreseen = foreseen(alloc, docket, &command)?;
            Ok(Would::Does(foreseen))
        }
        Err(fault) => Ok(Would::Faulty(fault)),
    }
}

/// The line of the command with these fields, and what it would do, by a docket that is not closed.
fn line_prepared<S: Alter>(
    alloc: Global,
    docket: &mut Docket<S>,
    entry: &Entry<'_>,
    fields: Vec<Pair>,
) -> Result<Prepared, Fault>
    ensures answer { (h : History) → Stands S.Store docket.old h
        → Asks S.Store docket.new h (IsLine docket.old.court h entry.now (texts_of fields.items)) result }
    ensures only { docket.old.closed ≡ false → OnlyAnswers S.Store docket.old docket.new result }
{
    let line = line_entered(alloc, docket.court(), entry, fields)?;
    let would = would_do(alloc, docket, line.as_str())?;
    Ok(Prepared::Line(line, would))
}

/// Prepares a command that a person enters in words: the line that `run` would read, and what it would do; or the
/// first name that fits none or several. Nothing is entered.
pub fn prepared<S: Alter>(
    alloc: Global,
    docket: &mut Docket<S>,
    entry: &Entry<'_>,
) -> Result<Prepared, Fault>
    ensures answer { (h : History) → Stands S.Store docket.old h
        → Asks S.Store docket.new h (IsPrepared docket.old.court h entry.now) result }
    ensures only { OnlyAnswers S.Store docket.old docket.new result }
{
    let named = fields_named(alloc, docket, entry.given)?;
    match named {
        Ok(fields) => line_prepared(alloc, docket, entry, fields),
        Err(why) => Ok(Prepared::Unnamed(why)),
    }
}
