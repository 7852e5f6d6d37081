//! Serving the docket in the files at a path: they are opened, the docket is adopted and served, and the files
//! are let go.
//!
//! `start` represents what the two files hold when they are opened. The theorem here holds for every start,
//! and a program passes `Unknown`.
ghost use Rattle.std.specs.Prelude.{◌≡◌, IfErr, IfOk, MatchResult};
ghost use Rattle.sqlite_wal.specs.Files.{image_at};
ghost use Rattle.sqlite.specs.Files.{IsCleanLeft};
ghost use Rattle.docket_columns.specs.declared.version.Version.{Version};
ghost use Rattle.docket_tables.specs.Layouts.{Rows};
ghost use Rattle.docket_tables.specs.Stands.{IsImageIn};
ghost use Rattle.docket_store.specs.Left.{IsUnharmed, LeavesRows};
ghost use Rattle.docket_store.specs.Reopening.{HoldDocket, HoldRows};
ghost use Rattle.docket_applying.specs.Applying.{IsDocket};
ghost use Rattle.docket_applying.specs.CourtDockets.{CourtDocket as Told};
ghost use Rattle.file_dockets.specs.Adopting.{IsJudged};
ghost use Rattle.file_dockets.specs.Keeping.{rows_told};
ghost use Rattle.file_dockets.specs.Works.{WorksTo};
ghost use Rattle.file_serving.specs.Left.{LeavesServed};
ghost use Rattle.file_serving.specs.Serves.{IfUnserved};

use crate::serving::{Serve, ServeEnd, Service};
use docket_store::Watch;
use file_dockets::{OnFile, work_on_file};
use sqlite::Start;
use std::io::Write;
use std::rt::HostRuntime;

/// Serves the connections that come to a place of this machine alone, by the docket in the files at a path.
/// Prints on `w` where they are taken, and on `e` what goes wrong with one.
pub fn serve_on_file<S: Start, V: Watch + Drop, W: Write, E: Write>(
    rt: &HostRuntime,
    path: &str,
    start: S,
    watch: V,
    service: &Service<'_>,
    w: &mut W,
    e: &mut E,
) -> OnFile<S, Result<(), ServeEnd>>
    // The docket is led by the connections alone, and it ends as they do.
    ensures serves { (told : Told) → IsDocket told.court told.history → HoldDocket (image_at S.Start) told.court told.history
        → IfOk result (λ done. IsCleanLeft done.left → WorksTo (LeavesServed (LeavesRows done.left) told service.now) done.outcome) }
    // Where no connection was waited for, the docket stays.
    ensures stays { (told : Told) → HoldDocket (image_at S.Start) told.court told.history
        → IfOk result (λ done. IsCleanLeft done.left → IfUnserved done.outcome (LeavesRows done.left (rows_told told) (rows_told told))) }
    // For any files, their tables are sound, or the fault says why there is no docket, and they stay.
    ensures judged { IfOk result (λ done. IsCleanLeft done.left → IsJudged (image_at S.Start) done.left done.failure done.outcome) }
    ensures unopened { (v : Version) (rows : Rows) → HoldRows v (image_at S.Start) rows
        → IfErr result (IsUnharmed (image_at S.Start) (IsImageIn v rows)) }
    ensures unserved { MatchResult result (λ done. IfErr done.outcome (λ _. (w.new ≡ w.old) × (e.new ≡ e.old))) (λ _. (w.new ≡ w.old) × (e.new ≡ e.old)) }
{
    let serve = Serve {
        rt,
        path,
        watch,
        service,
    };
    work_on_file(rt, path, start, serve, w, e)
}
