//! Whether the docket in a file is sound, and what it holds.
ghost use Rattle.std.specs.Prelude.{◌≡◌, IfOk, None, Ok, string_bytes};
ghost use Rattle.std.specs.Cow.{cow_str_bytes};
ghost use Rattle.sqlite_wal.specs.Files.{image_at};
ghost use Rattle.court_days.specs.Court.{CourtSettings};
ghost use Rattle.docket_scan.specs.Dockets.{holdings_in};
ghost use Rattle.docket_scan.specs.declared.holdings.Holdings.{Holdings as Held};
ghost use Rattle.file_questions.specs.Checks.{IsSoundDocket};
ghost use Rattle.job_runs.specs.Checks.{check_text};
ghost use Rattle.job_runs.specs.Tells.{TellsText};
ghost use Rattle.job_runs.specs.Jobs.{OfDocket, TellsOf};
ghost use Rattle.job_runs.specs.Spares.{SparesAsked};

use crate::asking::ask;
use crate::holdings::{court_line, holdings_text};
use file_questions::{Judgment, Sound};
use job_ends::{JobEnd, no_memory};
use sqlite::{FileFrom, Start};
use sqlite_disk::Disk;
use std::alloc::{AllocError, Global};
use std::io::Write;

/// Returns the text that reports a docket whose tables are sound.
fn sound_text(alloc: Global, sound: &Sound) -> Result<String, AllocError>
    ensures { (court : CourtSettings) (held : Held) → IsSoundDocket court held (Ok sound.now) → IfOk result (λ text. string_bytes text ≡ check_text court held) }
{
    let line = court_line(alloc, sound.zone.as_str(), sound.close)?;
    let held = holdings_text(alloc, &sound.held)?;
    format!(in alloc; "sound\n{line}{held}")
}

/// Returns how the check of a docket ends, with the text to print.
fn check_told<D: Disk + Drop, E: Write>(
    alloc: Global,
    judged: Result<Sound, AllocError>,
    e: &mut E,
) -> JobEnd<D>
    ensures told { (court : CourtSettings) (held : Held) → IsSoundDocket court held judged → TellsText (check_text court held) (cow_str_bytes result.text) result.status }
    ensures left { result.left ≡ None }
{
    let Ok(sound) = judged else {
        return JobEnd::of(no_memory(e));
    };
    match sound_text(alloc, &sound) {
        Ok(text) => JobEnd::told(text),
        Err(_) => JobEnd::of(no_memory(e)),
    }
}

/// Reports that the tables of the docket in a file are sound, and what they hold. Where one is not sound,
/// prints which.
pub(crate) fn tell_check<S: Start, P: Write + Drop, E: Write>(
    rt: &HostRuntime,
    start: S,
    screen: Option<P>,
    path: &str,
    e: &mut E,
) -> JobEnd<FileFrom<S>>
    ensures told { OfDocket (image_at S.Start) (λ docket. TellsOf docket (TellsText (check_text docket.court (holdings_in docket.court docket.history))) result) }
    ensures spared { SparesAsked path.now (image_at S.Start) (E.contents e.old) (E.contents e.new) result }
{
    match ask(rt, start, screen, path, &Judgment, &mut (), e) {
        Ok((judged, left)) => check_told(rt.alloc(), judged, e).with(Some(left)),
        Err(end) => end,
    }
}
