//! The calendar of the docket in a file.
ghost use Rattle.std.specs.Prelude.{◌≡◌, [], ℕ, List, Option};
ghost use Rattle.sqlite_wal.specs.Files.{image_at};
ghost use Rattle.docket_calendar.specs.Calendar.{text_of_calendar};
ghost use Rattle.job_runs.specs.Asked.{GoesOut};
ghost use Rattle.job_runs.specs.Tells.{HasTold};
ghost use Rattle.job_runs.specs.Jobs.{DoesCalendar, IfUnopened, OfDocket, TellsOf, lines_of};
ghost use Rattle.job_runs.specs.Spares.{SparesAsked};

use crate::asking::ask;
use crate::text::tell_text;
use court_days::Day;
use docket_questions::{DueDays, DueForm, Dues};
use docket_store::CalendarEnd;
use file_questions::CalendarLines;
use job_ends::{JobEnd, Status, failed};
use sqlite::{FileFrom, Start};
use std::alloc::Global;
use std::io::Write;

/// The lines in which a calendar has its deadlines.
pub(crate) fn lines_of(long: bool) -> DueForm
    ensures { result ≡ lines_of long }
{
    if long {
        DueForm::Long
    } else {
        DueForm::Calendar
    }
}

/// Returns how a job ends from how the writing of its calendar ended, and prints why that failed.
fn calendar_told<E: Write>(alloc: Global, end: Result<u32, CalendarEnd>, e: &mut E) -> Status
    ensures { (wanted : List ℕ) (before after : Option (List ℕ)) → GoesOut wanted before after end → HasTold wanted before after [] result }
{
    match end {
        Ok(_) => Status::Done,
        Err(CalendarEnd::Store(fault)) => failed(alloc, e, &fault),
        Err(CalendarEnd::WriteFailed) => failed(alloc, e, &"the output could not be written"),
    }
}

/// Prints the deadlines that fall due from one day to another, by the docket in a file. Writes each line as
/// it is read.
fn tell_calendar<S: Start, P: Write + Drop, W: Write, E: Write>(
    rt: &HostRuntime,
    start: S,
    screen: Option<P>,
    path: &str,
    from: Day,
    to: Day,
    w: &mut W,
    e: &mut E,
) -> JobEnd<FileFrom<S>>
    ensures told { OfDocket (image_at S.Start) (λ docket. TellsOf docket (HasTold (text_of_calendar docket.court docket.history from to) (W.contents w.old) (W.contents w.new)) result) }
    ensures unopened { IfUnopened result (W.contents w.new ≡ W.contents w.old) }
    ensures spared { SparesAsked path.now (image_at S.Start) (E.contents e.old) (E.contents e.new) result }
{
    let lines = CalendarLines { from, to };
    match ask(rt, start, screen, path, &lines, w, e) {
        Ok((end, left)) => JobEnd::of(calendar_told(rt.alloc(), end, e)).with(Some(left)),
        Err(end) => end,
    }
}

/// Prints the deadlines that fall due from one day to another, by the docket in a file, in long lines where these
/// are asked for.
pub(crate) fn tell_days<S: Start, P: Write + Drop, W: Write, E: Write>(
    rt: &HostRuntime,
    start: S,
    screen: Option<P>,
    path: &str,
    from: Day,
    to: Day,
    long: bool,
    w: &mut W,
    e: &mut E,
) -> JobEnd<FileFrom<S>>
    ensures does { DoesCalendar long (image_at S.Start) from to (W.contents w.old) (W.contents w.new) result }
    ensures spared { SparesAsked path.now (image_at S.Start) (E.contents e.old) (E.contents e.new) result }
{
    if long {
        let form = DueForm::Long;
        let days = DueDays::Between(from, to);
        return tell_text(rt, start, screen, path, Dues { form, days }, "", e);
    }
    tell_calendar(rt, start, screen, path, from, to, w, e)
}
