//! The docket in a file, taken to the version of the tables that is kept.
ghost use Rattle.std.specs.Cow.{cow_str_bytes};
ghost use Rattle.sqlite_wal.specs.Files.{image_at};
ghost use Rattle.docket_columns.specs.declared.version.Version.TheVariants.{First};
ghost use Rattle.docket_scan.specs.Dockets.{MayHold};
ghost use Rattle.docket_applying.specs.Applying.{IsDocket};
ghost use Rattle.docket_store.specs.Migrating.{HoldFirst};
ghost use Rattle.docket_applying.specs.CourtDockets.{CourtDocket as Told};
ghost use Rattle.job_ends.specs.Ends.{SaysUnopened};
ghost use Rattle.job_runs.specs.Jobs.{FailsOr, IfUnopened, Migrates};
ghost use Rattle.job_runs.specs.Spares.{Moves};

use crate::opening::ready;
use file_changes::migrate_on_file;
use job_ends::{JobEnd, Status, done_on_docket};
use sqlite::{FileFrom, Start};
use std::borrow::CowStr;
use std::io::Write;

/// Migrates the docket in a file that is there.
pub(crate) fn migrate_docket<S: Start, P: Write + Drop, E: Write>(
    rt: &HostRuntime,
    start: S,
    screen: Option<P>,
    path: &str,
    e: &mut E,
) -> JobEnd<FileFrom<S>>
    ensures migrated { (told : Told) → IsDocket told.court told.history → MayHold First told.history → HoldFirst (image_at S.Start) told.court told.history
        → FailsOr result (λ left. Migrates told left (cow_str_bytes result.text) result.status) }
    ensures unopened { IfUnopened result (SaysUnopened path.now (E.contents e.old) (E.contents e.new)) }
    ensures spared { FailsOr result (λ left. Moves path.now (image_at S.Start) (E.contents e.old) (E.contents e.new) left result.status) }
{
    let rows = match ready(rt, path, screen, e) {
        Ok(rows) => rows,
        Err(status) => return JobEnd::of(status),
    };
    match done_on_docket(rt.alloc(), path, migrate_on_file(rt, path, start, rows), e) {
        Ok((_, left)) => JobEnd {
            text: CowStr::Borrowed("migrated\n"),
            status: Status::Done,
            left: Some(left),
        },
        Err(end) => end,
    }
}
