//! The cases of the docket in a file, a line for each.
ghost use Rattle.std.specs.Prelude.{◌≡◌, [], ℕ, List, Option, option_copied};
ghost use Rattle.sqlite_wal.specs.Files.{image_at};
ghost use Rattle.docket_history.specs.declared.row.CaseRow.{CaseRow};
ghost use Rattle.file_questions.specs.CaseLists.{ListsCases, cases_told};
ghost use Rattle.job_runs.specs.Tells.{HasListed, SaysMissing, no_such_case};
ghost use Rattle.job_runs.specs.Jobs.{IfUnopened, OfDocket, TellsOf};
ghost use Rattle.job_runs.specs.Spares.{SparesAsked};

use crate::asking::ask;
use crate::text::NO_SUCH_CASE;
use docket_store::CalendarEnd;
use file_questions::Wanted;
use job_ends::{JobEnd, Status, failed};
use line_io::write_bytes;
use sqlite::{FileFrom, Start};
use std::alloc::Global;
use std::io::Write;

/// Returns how a job ends from how the writing of a list of cases ended. Where no case was listed, prints
/// that there is none.
fn list_told<E: Write>(alloc: Global, end: Result<u32, CalendarEnd>, e: &mut E) -> Status
    ensures told { (cases : List CaseRow) (before after : Option (List ℕ)) → ListsCases cases before after end → HasListed cases before after [] result }
    ensures missing { SaysMissing no_such_case result (E.contents e.old) (E.contents e.new) }
{
    match end {
        Ok(0) => {
            let _ = write_bytes(e, NO_SUCH_CASE.as_bytes());
            Status::SomeBad
        }
        Ok(_) => Status::Done,
        Err(CalendarEnd::Store(fault)) => failed(alloc, e, &fault),
        Err(CalendarEnd::WriteFailed) => failed(alloc, e, &"the output could not be written"),
    }
}

/// Prints the wanted cases of the docket in a file, in the order of their numbers. Writes each line before
/// the next case is read.
pub(crate) fn tell_cases<S: Start, P: Write + Drop, W: Write, E: Write>(
    rt: &HostRuntime,
    start: S,
    screen: Option<P>,
    path: &str,
    wanted: &Wanted<'_>,
    w: &mut W,
    e: &mut E,
) -> JobEnd<FileFrom<S>>
    ensures told { OfDocket (image_at S.Start) (λ docket. TellsOf docket (HasListed (cases_told docket.history (option_copied wanted.now.label) (option_copied wanted.now.party)) (W.contents w.old) (W.contents w.new)) result) }
    ensures unopened { IfUnopened result (W.contents w.new ≡ W.contents w.old) }
    ensures missing { SaysMissing no_such_case result.status (E.contents e.old) (E.contents e.new) }
    ensures spared { SparesAsked path.now (image_at S.Start) (E.contents e.old) (E.contents e.new) result }
{
    match ask(rt, start, screen, path, wanted, w, e) {
        Ok((end, left)) => JobEnd::of(list_told(rt.alloc(), end, e)).with(Some(left)),
        Err(end) => end,
    }
}
