//! A job, done.
ghost use Rattle.std.specs.Prelude.{◌≡◌, IfSome};
ghost use Rattle.sqlite_wal.specs.Files.{image_at};
ghost use Rattle.docket_jobs.specs.Jobs.{IsLimited};
ghost use Rattle.job_runs.specs.Jobs.{Counts, Does, IfMissing};
ghost use Rattle.job_runs.specs.Spares.{Spares};

use crate::backup::back_up;
use crate::calendar::{lines_of, tell_days};
use crate::cases::tell_cases;
use crate::check::tell_check;
use crate::clock::seconds_now;
use crate::command::{run_commands, run_in_memory};
use crate::create::create_docket;
use crate::entering::enter_words;
use crate::explain::explain_all;
use crate::holiday::tell_holidays;
use crate::import::import_days;
use crate::kinds::tell_kinds;
use crate::migrate::migrate_docket;
use crate::progress::Progress;
use crate::rules::tell_table;
use crate::serving::{serve_docket, service_of};
use crate::text::{NO_SUCH_CASE, NO_SUCH_DEADLINE, tell_text};
use count_lines::count_run;
use docket_jobs::Job;
use docket_questions::{
    CaseSheet, CaseText, CourtCalendarText, DueDays, DueForm, Dues, FoundCases, ReasonsText,
    RulesText,
};
use file_questions::Wanted;
use job_ends::{JobEnd, Status, failed};
use sqlite::{FileFrom, Start};
use std::alloc::Global;
use std::io::{Read, Write};

/// Answers lines of days.
fn count<R: Read, W: Write, E: Write>(alloc: Global, r: &mut R, w: &mut W, e: &mut E) -> Status
    ensures { IfSome (R.remaining r.old) (λ input. Counts input (W.contents w.old) (W.contents w.new) result) }
{
    match count_run(alloc, r, w) {
        Ok(end) if end.bad == 0 => Status::Done,
        Ok(_) => Status::SomeBad,
        Err(fault) => failed(alloc, e, &fault),
    }
}

/// Does a job, with `r`, `w` and `e` as the standard input, output and error. `start` represents what the
/// files of its docket hold. Text that is to be printed once the files are dropped is printed by
/// `JobEnd::finish`, on the writer that this returns.
#[tactic(auto, using(crate::proofs::AskLemmas::whole_told))]
pub fn run_job<S: Start, P: Write + Drop, R: Read, W: Write + Drop, E: Write>(
    rt: &HostRuntime,
    start: S,
    job: Job<'_>,
    progress: Progress<P>,
    r: &mut R,
    mut w: W,
    e: &mut E,
) -> (JobEnd<FileFrom<S>>, W)
    requires { IsLimited job }
    ensures does { Does job.entry (image_at S.Start) (R.remaining r.old) (W.contents w) (W.contents result.1) result.0 }
    // Where there is no such case, or no such deadline, the standard error says so.
    ensures missing { IfMissing job.entry result.0.status (E.contents e.old) (E.contents e.new) }
    // Whatever the files held: a job works by sound tables, or says why it does not, and what it does not
    // change stays.
    ensures spared { Spares job.entry (image_at S.Start) (R.remaining r.old) (W.contents result.1 ≡ W.contents w) (E.contents e.old) (E.contents e.new) result.0 }
{
    let screen = progress.of_opening;
    match job {
        Job::Count => (JobEnd::of(count(rt.alloc(), r, &mut w, e)), w),
        Job::Holidays { year } => (tell_holidays(rt.alloc(), year, e), w),
        Job::CourtCalendar { file, from, to } => {
            let days = CourtCalendarText { from, to };
            (tell_text(rt, start, screen, file, days, "", e), w)
        }
        Job::RunInMemory { court } => {
            let (status, w) = run_in_memory(rt, progress.of_answers, court, r, w, e);
            (JobEnd::of(status), w)
        }
        Job::Run { file } => { run_commands(rt, start, screen, progress.of_answers, file, r, w, e) }
        Job::Create { file, court } => (create_docket(rt, start, file, court, e), w),
        Job::Rules { file } => match file {
            Some(file) => (tell_text(rt, start, screen, file, RulesText, "", e), w),
            None => (tell_table(rt.alloc(), e), w),
        },
        Job::Import { file, key } => {
            let end = import_days(rt, start, screen, file, key, r, &mut w, e);
            (end, w)
        }
        Job::Enter {
            file,
            key,
            show,
            kind,
            given,
        } => {
            let words = given.as_slice();
            let end = enter_words(rt, start, screen, file, key, show, kind, words, &mut w, e);
            (end, w)
        }
        Job::Commands { kind } => (tell_kinds(rt.alloc(), kind, e), w),
        Job::Case { file, number } => {
            let case = CaseText { number };
            (tell_text(rt, start, screen, file, case, NO_SUCH_CASE, e), w)
        }
        Job::Cases { file, label, party } => {
            let wanted = Wanted { label, party };
            let end = tell_cases(rt, start, screen, file, &wanted, &mut w, e);
            (end, w)
        }
        Job::Find { file, words } => {
            let found = FoundCases { words };
            let end = tell_text(rt, start, screen, file, found, NO_SUCH_CASE, e);
            (end, w)
        }
        Job::Calendar {
            file,
            from,
            to,
            long,
        } => {
            let end = tell_days(rt, start, screen, file, from, to, long, &mut w, e);
            (end, w)
        }
        Job::CalendarOf { file, due, long } => {
            let clock = seconds_now(rt);
            let form = lines_of(long);
            let days = DueDays::By(due, clock);
            let listed = tell_text(rt, start, screen, file, Dues { form, days }, "", e);
            (listed, w)
        }
        Job::Explain {
            file,
            case,
            deadline,
        } => {
            let reasons = ReasonsText { case, deadline };
            let end = tell_text(rt, start, screen, file, reasons, NO_SUCH_DEADLINE, e);
            (end, w)
        }
        Job::Export {
            file,
            from,
            to,
            form,
        } => {
            let stamp = seconds_now(rt);
            let form = DueForm::Export(form, stamp);
            let days = DueDays::Between(from, to);
            let exported = tell_text(rt, start, screen, file, Dues { form, days }, "", e);
            (exported, w)
        }
        Job::Sheet { file, number } => {
            let sheet = CaseSheet { number };
            let end = tell_text(rt, start, screen, file, sheet, NO_SUCH_CASE, e);
            (end, w)
        }
        Job::ExplainLines => (JobEnd::of(explain_all(rt.alloc(), r, &mut w, e)), w),
        Job::Check { file } => (tell_check(rt, start, screen, file, e), w),
        Job::Backup { file, to } => (back_up(rt, start, screen, file, to, e), w),
        Job::Migrate { file } => (migrate_docket(rt, start, screen, file, e), w),
        Job::Serve {
            file,
            place,
            count,
            pages,
            guard,
            origin,
        } => {
            let service = service_of(place, count, pages, guard, origin);
            let end = serve_docket(rt, start, screen, file, &service, &mut w, e);
            (end, w)
        }
    }
}
