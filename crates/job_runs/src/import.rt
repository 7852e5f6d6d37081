//! A table of days, entered in the calendar of the docket in a file by one command.
ghost use Rattle.std.specs.Prelude.{◌≡◌, ◌≢◌, ◌∷◌, ◌++◌, [], ℕ, List, Option, IfErr, IfOk, IfSome, OnOk, None, Ok, Err, string_bytes};
ghost use Rattle.std.specs.Cow.{cow_str_bytes};
ghost use Rattle.sqlite_wal.specs.Files.{image_at};
ghost use Rattle.sqlite.specs.Files.{IsCleanLeft};
ghost use Rattle.docket_command.specs.declared.new_day.NewDay.{NewDay as Entered};
ghost use Rattle.day_tables.specs.CalendarCsv.{HasFault, IsTable};
ghost use Rattle.docket_wire.specs.Texts.{reply_text};
ghost use Rattle.docket_store.specs.Left.{LeavesRows};
ghost use Rattle.job_ends.specs.Ends.{TellsNothing};
ghost use Rattle.job_runs.specs.Imports.{TellsAnswer, TellsApplied, TellsFault, fault_line};
ghost use Rattle.job_runs.specs.Jobs.{AnswersLast, Applies, FailsOr, IfUnopened, Imports, OfDocket, import_command};
ghost use Rattle.job_runs.specs.Spares.{IsWhole, SparesImport};

use crate::opening::ready;
use day_tables::{CsvFault, read_calendar_csv};
use docket_command::{Action, Command, ImportCalendar, NewDay, NewDays, Refusal, Reply, Text};
use docket_store::Fault;
use docket_wire::reply_text;
use file_changes::apply_on_file;
use job_ends::{JobEnd, Status, done_on_docket, failed, failed_by, no_memory, write_text};
use sqlite::{FileFrom, Start};
use sqlite_disk::Disk;
use std::alloc::{AllocError, Global};
use std::io;
use std::io::{Read, Write};

/// The one command that enters the days.
fn import_of(alloc: Global, key: &str, days: Vec<NewDay>) -> Result<Command, AllocError>
    ensures { IfOk result (λ command. command ≡ import_command key.now days.items) }
{
    Ok(Command {
        key: Text::from_str(alloc, key)?,
        action: Action::ImportCalendar(ImportCalendar {
            rows: NewDays::new(days),
        }),
    })
}

/// The line of an answer.
fn answer_line(alloc: Global, answer: &Result<Reply, Refusal>) -> Result<String, AllocError>
    ensures { IfOk result (λ line. string_bytes line ≡ reply_text answer.now ++ 10 ∷ []) }
{
    let mut text = reply_text(alloc, answer)?;
    text.push('\n')?;
    Ok(text)
}

/// Returns how an import ends that was answered, with the line of the answer to print.
fn answer_told<D: Disk + Drop, E: Write>(
    alloc: Global,
    answer: Result<Reply, Refusal>,
    e: &mut E,
) -> JobEnd<D>
    ensures told { TellsAnswer answer (cow_str_bytes result.text) result.status }
    ensures left { result.left ≡ None }
{
    let status = match &answer {
        Ok(_) => Status::Done,
        Err(_) => Status::SomeBad,
    };
    match answer_line(alloc, &answer) {
        Ok(text) => JobEnd::told(text).ending(status),
        Err(_) => JobEnd::of(no_memory(e)),
    }
}

/// Returns how an import ends, with the line of its answer to print, or prints why there is none.
fn import_told<D: Disk + Drop, E: Write>(
    alloc: Global,
    answer: Result<Reply, Fault>,
    e: &mut E,
) -> JobEnd<D>
    ensures told { TellsApplied answer (cow_str_bytes result.text) result.status }
    ensures left { result.left ≡ None }
{
    match answer {
        Ok(reply) => answer_told(alloc, Ok(reply), e),
        Err(Fault::Refused(refusal)) => answer_told(alloc, Err(refusal), e),
        Err(fault) => JobEnd::of(failed(alloc, e, &fault)),
    }
}

/// Applies the command to the docket in a file, and returns the line of its answer.
fn import_by<S: Start, P: Write + Drop, E: Write>(
    rt: &HostRuntime,
    start: S,
    screen: Option<P>,
    path: &str,
    command: &Command,
    e: &mut E,
) -> JobEnd<FileFrom<S>>
    ensures applied { OfDocket (image_at S.Start) (λ docket. FailsOr result (λ left. Applies (LeavesRows left) docket command.now (cow_str_bytes result.text) result.status)) }
    ensures unopened { IfUnopened result (TellsNothing (cow_str_bytes result.text) result.status) }
    ensures spared { FailsOr result (IsWhole path.now (image_at S.Start) (E.contents e.old) (E.contents e.new) result command.now) }
{
    let rows = match ready(rt, path, screen, e) {
        Ok(rows) => rows,
        Err(status) => return JobEnd::of(status),
    };
    let ended = apply_on_file(rt, path, start, rows, command);
    match done_on_docket(rt.alloc(), path, ended, e) {
        Ok((answer, left)) => import_told(rt.alloc(), answer, e).with(Some(left)),
        Err(end) => end,
    }
}

/// Returns the line that says why a text is no table.
fn fault_line(alloc: Global, fault: CsvFault) -> Result<String, AllocError>
    ensures { IfOk result (λ line. string_bytes line ≡ fault_line fault) }
{
    format!(in alloc; "{fault}\n")
}

/// Prints why the input is no table.
fn refuse<W: Write, E: Write>(alloc: Global, fault: CsvFault, w: &mut W, e: &mut E) -> Status
    ensures { (input : Option (List ℕ)) → IfSome input (λ bytes. fault ≢ CsvFault.NoMemory → HasFault bytes fault)
        → TellsFault input (W.contents w.old) (W.contents w.new) result }
{
    if let CsvFault::NoMemory = fault {
        return no_memory(e);
    }
    match fault_line(alloc, fault) {
        Ok(line) => write_text(alloc, line.as_str(), Status::SomeBad, w, e),
        Err(_) => no_memory(e),
    }
}

/// All bytes of the input.
fn read_all<R: Read>(alloc: Global, r: &mut R) -> io::Result<Vec<u8>>
    ensures { IfOk result (λ bytes. IfSome (R.remaining r.old) (λ input. bytes.items ≡ input)) }
{
    let mut bytes = Vec::new(alloc);
    r.read_to_end(&mut bytes)?;
    Ok(bytes)
}

/// Returns the command that enters the input's days; or prints why not, and returns how the job ends.
fn read_import<R: Read, W: Write, E: Write>(
    alloc: Global,
    key: &str,
    r: &mut R,
    w: &mut W,
    e: &mut E,
) -> Result<Command, Status>
    ensures read { IfOk result
        (λ command. IfSome (R.remaining r.old) (λ input. (days : List Entered) × IsTable input days × (command ≡ import_command key.now days))) }
    ensures silent { OnOk result ((w.new ≡ w.old) × (e.new ≡ e.old)) }
    ensures refused { IfErr result (TellsFault (R.remaining r.old) (W.contents w.old) (W.contents w.new)) }
{
    let table = match read_all(alloc, r) {
        Ok(table) => table,
        Err(error) => {
            let what = "the input could not be read";
            return Err(failed_by(alloc, e, error.kind(), what));
        }
    };
    match read_calendar_csv(alloc, table.as_slice()) {
        Ok(days) => match import_of(alloc, key, days) {
            Ok(command) => Ok(command),
            Err(_) => Err(no_memory(e)),
        },
        Err(fault) => Err(refuse(alloc, fault, w, e)),
    }
}

/// Enters the days of the input's table in the calendar of the docket in a file. The table is read
/// before the file is opened.
pub(crate) fn import_days<S: Start, P: Write + Drop, R: Read, W: Write, E: Write>(
    rt: &HostRuntime,
    start: S,
    screen: Option<P>,
    path: &str,
    key: &str,
    r: &mut R,
    w: &mut W,
    e: &mut E,
) -> JobEnd<FileFrom<S>>
    // Until the files are dropped, only the line of a fault is written.
    ensures last { AnswersLast (R.remaining r.old) (W.contents w.old) (W.contents w.new) result }
    ensures entered { OfDocket (image_at S.Start) (λ docket. IfSome (R.remaining r.old) (λ input. IfSome result.left
        (λ left. IsCleanLeft left → Imports docket key.now input left (cow_str_bytes result.text) result.status))) }
    ensures spared { SparesImport path.now (image_at S.Start) (E.contents e.old) (E.contents e.new) result key.now (R.remaining r.old) }
{
    match read_import(rt.alloc(), key, r, w, e) {
        Ok(command) => import_by(rt, start, screen, path, &command, e),
        Err(status) => JobEnd::of(status),
    }
}
