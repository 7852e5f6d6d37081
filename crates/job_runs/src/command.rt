//! Commands of a docket, one a line.
ghost use Rattle.std.specs.Prelude.{◌≡◌, [], Ok, IfOk, IfSome, IsErr, IsTrue, MatchResult};
ghost use Rattle.std.specs.Cow.{cow_str_bytes};
ghost use Rattle.std.specs.Io.KnownBytes.{Appends};
ghost use Rattle.sqlite_wal.specs.Files.{image_at};
ghost use Rattle.sqlite.specs.Files.{IsCleanLeft, over_files};
ghost use Rattle.docket_applying.specs.Applying.{IsDocket};
ghost use Rattle.docket_store.specs.Reopening.{HoldDocket};
ghost use Rattle.line_io.specs.Output.{HasFront};
ghost use Rattle.docket_applying.specs.CourtDockets.{CourtDocket as Told, StandsAs};
ghost use Rattle.command_lines.specs.Lines.{bad_answers, run_text};
ghost use Rattle.docket_store.specs.Left.{LeavesRows};
ghost use Rattle.file_changes.specs.Runs.{Answers, LeavesPrefix};
ghost use Rattle.file_dockets.specs.Adopting.{IsJudged};
ghost use Rattle.file_dockets.specs.Works.{WorksTo};
ghost use Rattle.job_runs.specs.Tells.{last_line};
ghost use Rattle.job_runs.specs.Asked.{IfUnasked};
ghost use Rattle.job_runs.specs.Jobs.{FailsOr, IfUnopened, IsHonest, OfDocket, Runs, RunsInMemory, new_docket};
ghost use Rattle.job_runs.specs.Runs.{TellsEnd};
ghost use Rattle.job_runs.specs.Spares.{SparesRun};

use crate::opening::ready;
use crate::progress::LineCounter;
use command_lines::{Clerk, CountEnd, RunFault, command_run};
use court_days::Court;
use database_files::open_files;
use docket_store::{CreateFault, Docket, Fault, Returned, Watch};
use file_changes::run_on_file;
use file_dockets::OnFile;
use job_ends::{JobEnd, Status, done_on_docket, failed, out_of_memory};
use line_io::write_bytes;
use memory_file::MemoryFile;
use sqlite::{Alter, Connection, FileFrom, Files, Options, Start};
use sqlite_disk::Disk;
use std::alloc::Global;
use std::io::{Read, Write};

/// The last line of the output where a docket failed.
fn last_line(fault: RunFault) -> &'static [u8]
    ensures { result.now ≡ last_line fault }
{
    match fault {
        RunFault::Store(Fault::Closed) => b"{\"error\":\"closed\"}\n",
        RunFault::Store(Fault::Damaged) => b"{\"error\":\"damaged\"}\n",
        RunFault::Store(_) => b"{\"error\":\"store\"}\n",
        RunFault::NoMemory => b"{\"error\":\"no-memory\"}\n",
        RunFault::ReadFailed | RunFault::WriteFailed => b"",
    }
}

/// Returns how a job ends from how its run ended, and prints why the run failed.
pub(crate) fn tell_end<W: Write, E: Write>(
    alloc: Global,
    end: Result<CountEnd, RunFault>,
    w: &mut W,
    e: &mut E,
) -> Status
    ensures { TellsEnd end (W.contents w.old) (W.contents w.new) result }
{
    match end {
        Ok(end) if end.bad == 0 => Status::Done,
        Ok(_) => Status::SomeBad,
        Err(RunFault::NoMemory) => out_of_memory(w),
        Err(fault) => {
            let _ = write_bytes(w, last_line(fault));
            failed(alloc, e, &fault)
        }
    }
}

/// Answers commands of the docket in a file, and shows its progress if there is a screen.
fn run_told<S: Start, V: Watch + Drop, P: Write + Drop, R: Read, W: Write + Drop>(
    rt: &HostRuntime,
    start: S,
    rows: V,
    screen: Option<P>,
    path: &str,
    r: &mut R,
    w: W,
) -> (OnFile<S, Result<CountEnd, RunFault>>, W)
    ensures runs { (told : Told) → IsDocket told.court told.history → HoldDocket (image_at S.Start) told.court told.history
        → IfOk result.0 (λ done. IsCleanLeft done.left → IfSome (R.remaining r.old) (λ input. WorksTo
        (Answers (LeavesRows done.left) told input (W.contents w) (W.contents result.1)) done.outcome)) }
    ensures prefix { (told : Told) → IsDocket told.court told.history → HoldDocket (image_at S.Start) told.court told.history
        → IfOk result.0 (λ done. IsCleanLeft done.left → IfSome (R.remaining r.old) (λ input.
        LeavesPrefix (LeavesRows done.left) told input (W.contents w) (W.contents result.1))) }
    ensures judged { IfOk result.0 (λ done. IsCleanLeft done.left → IsJudged (image_at S.Start) done.left done.failure done.outcome) }
    ensures unwritten { IfUnasked (W.contents result.1 ≡ W.contents w) result.0 }
{
    let mut answers = LineCounter::new(rt, w, screen);
    let ended = run_on_file(rt, path, start, rows, r, &mut answers);
    (ended, answers.finish())
}

/// Answers commands of the docket in a file. Writes each answer once its command is in the file. Returns the
/// writer too.
pub(crate) fn run_commands<S: Start, P: Write + Drop, R: Read, W: Write + Drop, E: Write>(
    rt: &HostRuntime,
    start: S,
    opening: Option<P>,
    answers: Option<P>,
    path: &str,
    r: &mut R,
    w: W,
    e: &mut E,
) -> (JobEnd<FileFrom<S>>, W)
    ensures runs { OfDocket (image_at S.Start) (λ docket. IfSome (R.remaining r.old) (λ input.
        FailsOr result.0 (λ left. Runs (LeavesRows left) docket input (W.contents w) (W.contents result.1) result.0.status))) }
    ensures unopened { IfUnopened result.0 (W.contents result.1 ≡ W.contents w) }
    ensures untold { cow_str_bytes result.0.text ≡ [] }
    ensures spared { SparesRun path.now (image_at S.Start) (E.contents e.old) (E.contents e.new) result.0 (W.contents result.1 ≡ W.contents w) }
{
    let rows = match ready(rt, path, opening, e) {
        Ok(rows) => rows,
        Err(status) => return (JobEnd::of(status), w),
    };
    let (ended, mut w) = run_told(rt, start, rows, answers, path, r, w);
    match done_on_docket(rt.alloc(), path, ended, e) {
        Ok((end, left)) => {
            let status = tell_end(rt.alloc(), end, &mut w, e);
            (JobEnd::of(status).with(Some(left)), w)
        }
        Err(end) => (end, w),
    }
}

/// Makes a docket of the court in a database. Where that fails, returns why and drops the database.
fn created<S: Alter + Drop>(
    alloc: Global,
    conn: Connection<S>,
    court: Court,
) -> Result<Docket<S>, CreateFault>
    ensures made { IfOk result (λ docket. StandsAs S.Store docket (new_docket court)) }
{
    match Docket::create(alloc, conn, court) {
        Ok(docket) => Ok(docket),
        Err(Returned { fault, .. }) => Err(fault),
    }
}

/// Returns how a run ended on files in memory, which fail only where memory runs out.
fn end_in_memory(end: Result<CountEnd, RunFault>) -> Result<CountEnd, RunFault>
    ensures same { MatchResult result (λ told. end ≡ Ok told) (λ _. IsErr end) }
{
    match end {
        Err(RunFault::Store(Fault::StoreFailed)) => Err(RunFault::NoMemory),
        other => other,
    }
}

/// Answers commands of a docket, and shows its progress if there is a screen. Returns the writer too.
fn answer_all<S: Alter + Drop, P: Write + Drop, R: Read, W: Write + Drop>(
    rt: &HostRuntime,
    screen: Option<P>,
    docket: Docket<S>,
    r: &mut R,
    w: W,
) -> (Result<CountEnd, RunFault>, W)
    ensures answers { (told : Told) → StandsAs S.Store docket told → IsHonest S.Store → IfSome (R.remaining r.old) (λ input. MatchResult result.0
        (λ end. Appends (W.contents w) (W.contents result.1) (run_text told input) × (end.bad ≡ bad_answers told input))
        (λ _. HasFront (W.contents w) (W.contents result.1) (run_text told input))) }
{
    let mut clerk = Clerk::new(rt.alloc(), docket);
    let mut answers = LineCounter::new(rt, w, screen);
    let end = command_run(rt.alloc(), r, &mut answers, &mut clerk);
    (end, answers.finish())
}

/// Answers commands of a new docket of the court in a database that is in memory.
fn answer_of_new<S: Alter + Drop, P: Write + Drop, R: Read, W: Write + Drop, E: Write>(
    rt: &HostRuntime,
    screen: Option<P>,
    conn: Connection<S>,
    court: Court,
    r: &mut R,
    mut w: W,
    e: &mut E,
) -> (Status, W)
    ensures runs { IsHonest S.Store → IfSome (R.remaining r.old) (λ input. RunsInMemory (new_docket court) input (W.contents w) (W.contents result.1) result.0) }
{
    let alloc = rt.alloc();
    match created(alloc, conn, court) {
        Ok(docket) => {
            let (end, mut w) = answer_all(rt, screen, docket, r, w);
            (tell_end(alloc, end_in_memory(end), &mut w, e), w)
        }
        Err(CreateFault::NoMemory | CreateFault::StoreFailed) => (out_of_memory(&mut w), w),
        Err(fault) => (failed(alloc, e, &fault), w),
    }
}

/// Answers commands of a new docket of the court in files that are in memory.
fn answer_in_files<D: Disk + Drop, P: Write + Drop, R: Read, W: Write + Drop, E: Write>(
    rt: &HostRuntime,
    screen: Option<P>,
    files: Files<D>,
    court: Court,
    r: &mut R,
    mut w: W,
    e: &mut E,
) -> (Status, W)
    requires log { IsTrue (D.Disk.is_usable files.log) }
    requires db { IsTrue (D.Disk.is_usable files.db) }
    ensures runs { IsHonest (over_files {g = D.Disk}) → IfSome (R.remaining r.old) (λ input. RunsInMemory (new_docket court) input (W.contents w) (W.contents result.1) result.0) }
{
    match open_files(rt.alloc(), files, Options::new(0)) {
        Ok(conn) => answer_of_new(rt, screen, conn, court, r, w, e),
        Err(_) => (out_of_memory(&mut w), w),
    }
}

/// Answers commands of a new docket of the court in memory. Returns the writer too.
pub(crate) fn run_in_memory<P: Write + Drop, R: Read, W: Write + Drop, E: Write>(
    rt: &HostRuntime,
    screen: Option<P>,
    court: Court,
    r: &mut R,
    w: W,
    e: &mut E,
) -> (Status, W)
    ensures runs { IfSome (R.remaining r.old) (λ input. RunsInMemory (new_docket court) input (W.contents w) (W.contents result.1) result.0) }
{
    answer_in_files(rt, screen, MemoryFile::pair(rt.alloc()), court, r, w, e)
}
