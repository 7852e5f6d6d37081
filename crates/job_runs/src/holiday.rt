//! The holidays of a year.
ghost use Rattle.std.specs.Prelude.{◌≡◌, None};
ghost use Rattle.std.specs.Cow.{cow_str_bytes};
ghost use Rattle.std.specs.Int.{IsInRange};
ghost use Rattle.docket_text.specs.HolidayTexts.{holiday_text};
ghost use Rattle.job_runs.specs.Tells.{TellsText};

use docket_text::holiday_text;
use job_ends::{JobEnd, no_memory};
use sqlite_disk::Disk;
use std::alloc::Global;
use std::io::Write;

/// Returns the holidays of a year from 2000 to 2099 as the text of a job.
pub(crate) fn tell_holidays<D: Disk + Drop, E: Write>(
    alloc: Global,
    year: u32,
    e: &mut E,
) -> JobEnd<D>
    requires { IsInRange 2000 2099 year }
    ensures told { TellsText (holiday_text year) (cow_str_bytes result.text) result.status }
    ensures left { result.left ≡ None }
{
    match holiday_text(alloc, year) {
        Ok(text) => JobEnd::told(text),
        Err(_) => JobEnd::of(no_memory(e)),
    }
}
