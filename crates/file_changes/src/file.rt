//! Jobs that may change the docket in the files at a path: each opens them, adopts the docket, does its work
//! and lets the files go.
//!
//! `start` represents what the two files hold when they are opened. Each theorem here holds for every start,
//! and a program passes `Unknown`.
ghost use Rattle.std.specs.Prelude.{◌≡◌, [], Err, IfErr, IfOk, IfSome, MatchResult, OnOk};
ghost use Rattle.sqlite_wal.specs.Files.{image_at};
ghost use Rattle.sqlite.specs.Files.{IsCleanLeft};
ghost use Rattle.docket_columns.specs.declared.version.Version.{Version};
ghost use Rattle.docket_columns.specs.declared.version.Version.TheVariants.{First};
ghost use Rattle.docket_scan.specs.Dockets.{MayHold};
ghost use Rattle.docket_tables.specs.Layouts.{Rows};
ghost use Rattle.docket_tables.specs.Stands.{IsImageIn};
ghost use Rattle.docket_applying.specs.Applying.{IsDocket, docket_rows};
ghost use Rattle.docket_store.specs.Left.{IsUnharmed, Leaves, LeavesRows};
ghost use Rattle.docket_store.specs.Migrating.{HoldFirst};
ghost use Rattle.docket_store.specs.Reopening.{HoldDocket, HoldRows};
ghost use Rattle.docket_applying.specs.CourtDockets.{CourtDocket as Told};
ghost use Rattle.file_dockets.specs.Adopting.{IsJudged};
ghost use Rattle.file_dockets.specs.Keeping.{rows_told};
ghost use Rattle.file_dockets.specs.Works.{WorksTo};
ghost use Rattle.file_changes.specs.Commands.{AppliesTo, IsWrittenOn};
ghost use Rattle.file_changes.specs.Entering.{Enters};
ghost use Rattle.file_changes.specs.Migrates.{IsMigrated, MigratesTo};
ghost use Rattle.file_changes.specs.Runs.{LeavesPrefix, RunsTo};

use crate::creating::Create;
use crate::entering::{Enter, Entered};
use crate::importing::Apply;
use crate::migrating::Migrate;
use crate::running::Run;
use command_lines::{CountEnd, RunFault};
use court_days::Court;
use docket_command::{Command, Reply};
use docket_store::{CreateFault, Fault, MigrateFault, Watch};
use entry_lines::Entry;
use file_dockets::{OnFile, work_on_file};
use sqlite::Start;
use std::io::{Read, Write};
use std::rt::HostRuntime;

/// Answers the lines of the reader by the docket in the files at a path. Writes each answer before it applies
/// the next command. However it stops, also by a power failure, it leaves the docket of the lines whose
/// answers were written, and of at most one line more.
pub fn run_on_file<S: Start, V: Watch + Drop, R: Read, W: Write>(
    rt: &HostRuntime,
    path: &str,
    start: S,
    watch: V,
    reader: &mut R,
    writer: &mut W,
) -> OnFile<S, Result<CountEnd, RunFault>>
    ensures runs { (told : Told) → IsDocket told.court told.history → HoldDocket (image_at S.Start) told.court told.history
        → IfOk result (λ done. IsCleanLeft done.left → IfSome (R.remaining reader.old) (λ input.
        RunsTo (LeavesRows done.left) told input (W.contents writer.old) (W.contents writer.new) done.outcome)) }
    ensures prefix { (told : Told) → IsDocket told.court told.history → HoldDocket (image_at S.Start) told.court told.history
        → IfOk result (λ done. IsCleanLeft done.left → IfSome (R.remaining reader.old) (λ input.
        LeavesPrefix (LeavesRows done.left) told input (W.contents writer.old) (W.contents writer.new))) }
    // For any files, their tables are sound, or the fault says why there is no docket, and they stay.
    ensures judged { IfOk result (λ done. IsCleanLeft done.left → IsJudged (image_at S.Start) done.left done.failure done.outcome) }
    ensures unopened { (v : Version) (rows : Rows) → HoldRows v (image_at S.Start) rows
        → IfErr result (IsUnharmed (image_at S.Start) (IsImageIn v rows)) }
    // Where there is no docket nothing is read or written.
    ensures unread { MatchResult result (λ done. IfErr done.outcome (λ _. (reader.new ≡ reader.old) × (writer.new ≡ writer.old)))
        (λ _. (reader.new ≡ reader.old) × (writer.new ≡ writer.old)) }
{
    let run = Run { watch };
    work_on_file(rt, path, start, run, reader, writer)
}

/// Applies a command to the docket in the files at a path.
pub fn apply_on_file<S: Start, V: Watch + Drop>(
    rt: &HostRuntime,
    path: &str,
    start: S,
    watch: V,
    command: &Command,
) -> OnFile<S, Result<Reply, Fault>>
    ensures applies { (told : Told) → IsDocket told.court told.history → HoldDocket (image_at S.Start) told.court told.history
        → IfOk result (λ done. IsCleanLeft done.left
        → WorksTo (AppliesTo (LeavesRows done.left) told command.now) done.outcome) }
    ensures stays { (told : Told) → IsDocket told.court told.history → HoldDocket (image_at S.Start) told.court told.history
        → IfOk result (λ done. IsCleanLeft done.left → IfErr done.outcome (λ _. LeavesRows done.left (rows_told told) (rows_told told))) }
    // For any sound tables, the command is written whole, with its receipt, or not at all.
    ensures whole { IfOk result (λ done. IsCleanLeft done.left → IfOk done.outcome (IsWrittenOn (image_at S.Start) done.left command.now)) }
    // For any files, their tables are sound, or the fault says why there is no docket, and they stay.
    ensures judged { IfOk result (λ done. IsCleanLeft done.left → IsJudged (image_at S.Start) done.left done.failure done.outcome) }
    ensures unopened { (v : Version) (rows : Rows) → HoldRows v (image_at S.Start) rows
        → IfErr result (IsUnharmed (image_at S.Start) (IsImageIn v rows)) }
{
    let apply = Apply { watch, command };
    work_on_file(rt, path, start, apply, &mut (), &mut ())
}

/// Prepares an entry by the docket in the files at a path, and answers its line as a run does. An entry with
/// a name that fits none or several has no line: nothing is written then, and the docket is left as it was.
pub fn enter_on_file<S: Start, V: Watch + Drop, W: Write>(
    rt: &HostRuntime,
    path: &str,
    start: S,
    watch: V,
    entry: &Entry<'_>,
    writer: &mut W,
) -> OnFile<S, Result<Entered, Fault>>
    ensures enters { (told : Told) → IsDocket told.court told.history → HoldDocket (image_at S.Start) told.court told.history
        → IfOk result (λ done. IsCleanLeft done.left
        → WorksTo (Enters (LeavesRows done.left) told entry.now (W.contents writer.old) (W.contents writer.new)) done.outcome) }
    ensures stays { (told : Told) → IsDocket told.court told.history → HoldDocket (image_at S.Start) told.court told.history
        → IfOk result (λ done. IsCleanLeft done.left → IfErr done.outcome (λ _. LeavesRows done.left (rows_told told) (rows_told told))) }
    // For any files, their tables are sound, or the fault says why there is no docket, and they stay.
    ensures judged { IfOk result (λ done. IsCleanLeft done.left → IsJudged (image_at S.Start) done.left done.failure done.outcome) }
    ensures unopened { (v : Version) (rows : Rows) → HoldRows v (image_at S.Start) rows
        → IfErr result (IsUnharmed (image_at S.Start) (IsImageIn v rows)) }
    // Where there is no docket nothing is written.
    ensures unwritten { MatchResult result (λ done. IfErr done.outcome (λ _. writer.new ≡ writer.old)) (λ _. writer.new ≡ writer.old) }
{
    let enter = Enter { watch, entry };
    work_on_file(rt, path, start, enter, &mut (), writer)
}

/// Makes the docket of a court, without any record, in the files at a path, which hold nothing. A docket
/// that is there, of whichever version, is left as it was, and none is made.
pub fn create_on_file<S: Start>(
    rt: &HostRuntime,
    path: &str,
    start: S,
    court: Court,
) -> OnFile<S, (), CreateFault>
    ensures made { IfOk result (λ done. IsCleanLeft done.left
        → OnOk done.outcome (IsDocket court [] × LeavesRows done.left (docket_rows court []) (docket_rows court []))) }
    ensures stays { (v : Version) (rows : Rows) → HoldRows v (image_at S.Start) rows
        → IfOk result (λ done. IsCleanLeft done.left → (done.outcome ≡ Err CreateFault.NotEmpty) × Leaves done.left (IsImageIn v rows)) }
    ensures unopened { (v : Version) (rows : Rows) → HoldRows v (image_at S.Start) rows
        → IfErr result (IsUnharmed (image_at S.Start) (IsImageIn v rows)) }
{
    let create = Create { court };
    work_on_file(rt, path, start, create, &mut (), &mut ())
}

/// Takes the docket in the files at a path from the first version of the tables to the second. The first
/// holds no command of the last three kinds.
pub fn migrate_on_file<S: Start, V: Watch + Drop>(
    rt: &HostRuntime,
    path: &str,
    start: S,
    watch: V,
) -> OnFile<S, (), MigrateFault>
    ensures migrated { (told : Told) → IsDocket told.court told.history → MayHold First told.history → HoldFirst (image_at S.Start) told.court told.history
        → IfOk result (λ done. IsCleanLeft done.left → MigratesTo done.left told done.outcome) }
    // Any files are moved if their tables of the first version are sound; else the fault says why not.
    ensures told { IfOk result (λ done. IsCleanLeft done.left → IsMigrated (image_at S.Start) done.left done.outcome) }
    ensures unopened { (v : Version) (rows : Rows) → HoldRows v (image_at S.Start) rows
        → IfErr result (IsUnharmed (image_at S.Start) (IsImageIn v rows)) }
{
    let migrate = Migrate { watch };
    work_on_file(rt, path, start, migrate, &mut (), &mut ())
}
