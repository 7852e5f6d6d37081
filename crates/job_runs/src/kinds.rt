//! The kinds of commands that a person may enter.
ghost use Rattle.std.specs.Prelude.{◌≡◌, None};
ghost use Rattle.std.specs.Cow.{cow_str_bytes};
ghost use Rattle.entry_pages.specs.CommandList.{commands_text};
ghost use Rattle.job_runs.specs.Tells.{TellsText};

use docket_command::CommandName;
use entry_pages::commands_text;
use job_ends::{JobEnd, no_memory};
use sqlite_disk::Disk;
use std::alloc::Global;
use std::io::Write;

/// Returns as the text of a job the kinds of commands, or the fields of one of them.
pub(crate) fn tell_kinds<D: Disk + Drop, E: Write>(
    alloc: Global,
    kind: Option<CommandName>,
    e: &mut E,
) -> JobEnd<D>
    ensures told { TellsText (commands_text kind) (cow_str_bytes result.text) result.status }
    ensures left { result.left ≡ None }
{
    match commands_text(alloc, kind) {
        Ok(text) => JobEnd::told(text),
        Err(_) => JobEnd::of(no_memory(e)),
    }
}
