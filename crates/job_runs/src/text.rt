//! A text by which the docket in a file answers.
ghost use Rattle.std.specs.Prelude.{◌≡◌, ℕ, List, Option, None, string_bytes};
ghost use Rattle.std.specs.Option.{option_map};
ghost use Rattle.std.specs.Cow.{cow_str_bytes};
ghost use Rattle.sqlite_wal.specs.Files.{image_at};
ghost use Rattle.file_questions.specs.Tells.{AnswersTo};
ghost use Rattle.job_runs.specs.Tells.{SaysMissing, TellsIfAny};
ghost use Rattle.job_runs.specs.Jobs.{OfDocket, TellsOf};
ghost use Rattle.job_runs.specs.Spares.{SparesAsked};

use crate::asking::ask;
use docket_questions::Question;
use docket_store::Fault;
use file_questions::TextOf;
use job_ends::{JobEnd, Status, failed};
use line_io::write_bytes;
use sqlite::{FileFrom, Start};
use sqlite_disk::Disk;
use std::alloc::Global;
use std::io::Write;

/// The line for a case that is missing.
pub(crate) const NO_SUCH_CASE: &str = "no such case\n";

/// The line for a deadline that is missing.
pub(crate) const NO_SUCH_DEADLINE: &str = "no such deadline\n";

/// Returns what was asked for as the text of a job. Where it is missing, prints the line `missing`.
fn told_if_any<D: Disk + Drop, E: Write>(
    alloc: Global,
    answer: Result<Option<String>, Fault>,
    missing: &str,
    e: &mut E,
) -> JobEnd<D>
    ensures told { (found : Option (List ℕ)) → AnswersTo (λ text. option_map string_bytes text ≡ found) answer
        → TellsIfAny found (cow_str_bytes result.text) result.status }
    ensures left { result.left ≡ None }
    ensures missing { SaysMissing missing.now result.status (E.contents e.old) (E.contents e.new) }
{
    match answer {
        Ok(Some(text)) => JobEnd::told(text),
        Ok(None) => {
            let _ = write_bytes(e, missing.as_bytes());
            JobEnd::of(Status::SomeBad)
        }
        Err(fault) => JobEnd::of(failed(alloc, e, &fault)),
    }
}

/// Returns the text by which the docket in a file answers a question. Where there is none, prints the line
/// `missing`.
pub(crate) fn tell_text<S: Start, P: Write + Drop, Q: Question + Copy, E: Write>(
    rt: &HostRuntime,
    start: S,
    screen: Option<P>,
    path: &str,
    question: Q,
    missing: &str,
    e: &mut E,
) -> JobEnd<FileFrom<S>>
    ensures told { OfDocket (image_at S.Start) (λ docket. TellsOf docket (TellsIfAny (Q.Text question docket.court docket.history)) result) }
    ensures missing { SaysMissing missing.now result.status (E.contents e.old) (E.contents e.new) }
    ensures spared { SparesAsked path.now (image_at S.Start) (E.contents e.old) (E.contents e.new) result }
{
    let text = TextOf { question };
    match ask(rt, start, screen, path, &text, &mut (), e) {
        Ok((answer, left)) => told_if_any(rt.alloc(), answer, missing, e).with(Some(left)),
        Err(end) => end,
    }
}
