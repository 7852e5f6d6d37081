//! A command that a person gives in words, entered in the docket in a file or shown.
ghost use Rattle.std.specs.Prelude.{◌≡◌, ◌⊎◌, [], None};
ghost use Rattle.std.specs.Cow.{cow_str_bytes};
ghost use Rattle.sqlite_wal.specs.Files.{image_at};
ghost use Rattle.docket_applying.specs.CourtDockets.{CourtDocket as Told};
ghost use Rattle.docket_store.specs.Left.{LeavesRows};
ghost use Rattle.entry_lines.specs.Preparing.{IsPrepared};
ghost use Rattle.entry_lines.specs.declared.entry.Entry.{Entry as Words};
ghost use Rattle.file_questions.specs.Tells.{AnswersTo};
ghost use Rattle.job_runs.specs.Entering.{IsEntry, ShowsEntry, ShowsPrepared, TellsEntered, TellsEntry, entry_status};
ghost use Rattle.job_runs.specs.Jobs.{DoesEntry, Enters, FailsOr, IfUnopened, OfDocket, TellsOf};
ghost use Rattle.job_runs.specs.Spares.{SparesAsked, SparesEntry, SparesRun};
ghost use Rattle.job_runs.specs.Tells.{TellsText};

use crate::asking::ask;
use crate::clock::seconds_now;
use crate::command::tell_end;
use crate::opening::ready;
use command_forms::FieldText;
use command_lines::RunFault;
use docket_command::CommandName;
use docket_questions::Foreseen;
use docket_store::Fault;
use entry_lines::{Entry, Prepared, Would, said};
use file_changes::{Entered, enter_on_file};
use job_ends::{JobEnd, Status, done_on_docket, failed, no_memory};
use line_io::write_bytes;
use sqlite::{FileFrom, Start};
use sqlite_disk::Disk;
use std::alloc::Global;
use std::io::Write;

/// Prints for a person what became of an entry, and returns the status. Where memory runs out for the sentence
/// the job has failed.
fn say<E: Write>(
    alloc: Global,
    kind: CommandName,
    prepared: &Prepared,
    status: Status,
    e: &mut E,
) -> Status
    ensures { (result ≡ status) ⊎ (result ≡ Status.Failed) }
{
    match said(alloc, kind, prepared) {
        Ok(text) => {
            let _ = write_bytes(e, text.as_bytes());
            status
        }
        Err(_) => no_memory(e),
    }
}

/// The status of an entry, by that of the run over its line.
fn entry_status(prepared: &Prepared, ran: Status) -> Status
    ensures { result ≡ entry_status prepared.now ran }
{
    match prepared {
        Prepared::Unnamed(_) => match ran {
            Status::Done => Status::SomeBad,
            other => other,
        },
        Prepared::Line(_, _) => ran,
    }
}

/// Returns how a job ends whose entry was prepared, from how the run over its line ended.
fn tell_entered<W: Write, E: Write>(
    alloc: Global,
    kind: CommandName,
    entered: &Entered,
    w: &mut W,
    e: &mut E,
) -> Status
    ensures { TellsEntered entered.now (W.contents w.old) (W.contents w.new) result }
{
    match entered.end {
        Ok(end) => {
            let ran = tell_end(alloc, Ok(end), w, e);
            let status = entry_status(&entered.prepared, ran);
            say(alloc, kind, &entered.prepared, status, e)
        }
        Err(fault) => tell_end(alloc, Err(fault), w, e),
    }
}

/// Returns how a job ends from what became of its entry, and prints that.
fn tell_entry<W: Write, E: Write>(
    alloc: Global,
    kind: CommandName,
    entered: Result<Entered, Fault>,
    w: &mut W,
    e: &mut E,
) -> Status
    ensures { TellsEntry entered (W.contents w.old) (W.contents w.new) result }
{
    match entered {
        Ok(entered) => tell_entered(alloc, kind, &entered, w, e),
        Err(Fault::NoMemory) => tell_end(alloc, Err(RunFault::NoMemory), w, e),
        Err(fault) => tell_end(alloc, Err(RunFault::Store(fault)), w, e),
    }
}

/// Enters a command in the docket in a file: answers its line as a run does, and says what became of it.
fn enter<S: Start, P: Write + Drop, W: Write, E: Write>(
    rt: &HostRuntime,
    start: S,
    screen: Option<P>,
    path: &str,
    entry: &Entry<'_>,
    w: &mut W,
    e: &mut E,
) -> JobEnd<FileFrom<S>>
    ensures enters { OfDocket (image_at S.Start) (λ docket.
        FailsOr result (λ left. Enters (LeavesRows left) docket entry.now (W.contents w.old) (W.contents w.new) result.status)) }
    ensures unopened { IfUnopened result (W.contents w.new ≡ W.contents w.old) }
    ensures untold { cow_str_bytes result.text ≡ [] }
    ensures spared { SparesRun path.now (image_at S.Start) (E.contents e.old) (E.contents e.new) result (W.contents w.new ≡ W.contents w.old) }
{
    let rows = match ready(rt, path, screen, e) {
        Ok(rows) => rows,
        Err(status) => return JobEnd::of(status),
    };
    let ended = enter_on_file(rt, path, start, rows, entry, w);
    match done_on_docket(rt.alloc(), path, ended, e) {
        Ok((entered, left)) => {
            let status = tell_entry(rt.alloc(), entry.kind, entered, w, e);
            JobEnd::of(status).with(Some(left))
        }
        Err(end) => end,
    }
}

/// Returns what an entry would do as the text of a job.
fn text_told<D: Disk + Drop, E: Write>(alloc: Global, text: &str, e: &mut E) -> JobEnd<D>
    ensures told { TellsText text.now (cow_str_bytes result.text) result.status }
    ensures left { result.left ≡ None }
{
    match String::from_str(alloc, text) {
        Ok(text) => JobEnd::told(text),
        Err(_) => JobEnd::of(no_memory(e)),
    }
}

/// Returns how a job ends that shows a prepared entry. Where that would not be accepted, prints why.
fn prepared_told<D: Disk + Drop, E: Write>(
    alloc: Global,
    kind: CommandName,
    prepared: &Prepared,
    e: &mut E,
) -> JobEnd<D>
    ensures told { ShowsPrepared prepared.now (cow_str_bytes result.text) result.status }
    ensures left { result.left ≡ None }
{
    match prepared {
        Prepared::Unnamed(_) => JobEnd::of(say(alloc, kind, prepared, Status::SomeBad, e)),
        Prepared::Line(_, Would::Faulty(_)) => JobEnd::of(say(
            alloc,
            kind,
            prepared,
            Status::SomeBad,
            e,
        )),
        Prepared::Line(_, Would::Does(Foreseen::Refused(_))) => JobEnd::of(say(
            alloc,
            kind,
            prepared,
            Status::SomeBad,
            e,
        )),
        Prepared::Line(_, Would::Does(Foreseen::Known(_))) => JobEnd::of(say(
            alloc,
            kind,
            prepared,
            Status::Done,
            e,
        )),
        Prepared::Line(_, Would::Does(Foreseen::Accepted(text))) => text_told(
            alloc,
            text.as_str(),
            e,
        ),
    }
}

/// Returns how a job ends that shows an entry, from the answer of the docket.
fn shown_told<D: Disk + Drop, E: Write>(
    alloc: Global,
    kind: CommandName,
    answer: Result<Prepared, Fault>,
    e: &mut E,
) -> JobEnd<D>
    ensures told { (docket : Told) (entry : Words) → AnswersTo (IsPrepared docket.court docket.history entry) answer
        → ShowsEntry docket entry (cow_str_bytes result.text) result.status }
    ensures left { result.left ≡ None }
{
    match answer {
        Ok(prepared) => prepared_told(alloc, kind, &prepared, e),
        Err(fault) => JobEnd::of(failed(alloc, e, &fault)),
    }
}

/// Shows what a command would do to the docket in a file. Nothing is entered.
fn show<S: Start, P: Write + Drop, E: Write>(
    rt: &HostRuntime,
    start: S,
    screen: Option<P>,
    path: &str,
    entry: &Entry<'_>,
    e: &mut E,
) -> JobEnd<FileFrom<S>>
    ensures told { OfDocket (image_at S.Start) (λ docket. TellsOf docket (ShowsEntry docket entry.now) result) }
    ensures spared { SparesAsked path.now (image_at S.Start) (E.contents e.old) (E.contents e.new) result }
{
    match ask(rt, start, screen, path, entry, &mut (), e) {
        Ok((answer, left)) => shown_told(rt.alloc(), entry.kind, answer, e).with(Some(left)),
        Err(end) => end,
    }
}

/// Enters the command that a person gives in words in the docket in a file, or shows what it would do. The clock
/// says when this is.
pub(crate) fn enter_words<S: Start, P: Write + Drop, W: Write, E: Write>(
    rt: &HostRuntime,
    start: S,
    screen: Option<P>,
    path: &str,
    key: Option<&str>,
    shows: bool,
    kind: CommandName,
    given: &[FieldText<'_>],
    w: &mut W,
    e: &mut E,
) -> JobEnd<FileFrom<S>>
    ensures does { (entry : Words) × IsEntry kind key.entry given.now entry
        × DoesEntry shows (image_at S.Start) entry (W.contents w.old) (W.contents w.new) result }
    ensures spared { SparesEntry path.now (image_at S.Start) (E.contents e.old) (E.contents e.new) result shows (W.contents w.new ≡ W.contents w.old) }
{
    let entry = Entry {
        kind,
        key,
        given,
        clock: seconds_now(rt),
    };
    if shows {
        return show(rt, start, screen, path, &entry, e);
    }
    enter(rt, start, screen, path, &entry, w, e)
}
