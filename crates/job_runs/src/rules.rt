//! The rules of the table by which deadlines run.
ghost use Rattle.std.specs.Prelude.{◌≡◌, [], None};
ghost use Rattle.std.specs.Cow.{cow_str_bytes};
ghost use Rattle.docket_text.specs.RuleTexts.{rules_text};
ghost use Rattle.job_runs.specs.Tells.{TellsText};

use docket_text::rules_text;
use job_ends::{JobEnd, no_memory};
use sqlite_disk::Disk;
use std::alloc::Global;
use std::io::Write;

/// Returns the rules of the table as the text of a job.
pub(crate) fn tell_table<D: Disk + Drop, E: Write>(alloc: Global, e: &mut E) -> JobEnd<D>
    ensures told { TellsText (rules_text []) (cow_str_bytes result.text) result.status }
    ensures left { result.left ≡ None }
{
    match rules_text(alloc, &[]) {
        Ok(text) => JobEnd::told(text),
        Err(_) => JobEnd::of(no_memory(e)),
    }
}
