//! What a sound docket holds, in a line for each kind of thing.
ghost use Rattle.std.specs.Prelude.{◌≡◌, IfOk, string_bytes};
ghost use Rattle.job_runs.specs.Checks.{calendar_lines, case_lines, court_line, held_lines, standings_text};

use docket_command::TimeOfDay;
use docket_store::{Holdings, Version};
use std::alloc::{AllocError, Global};
use std::str;

/// The line of a court, by the text of its zone and the time at which the clerk's office closes.
pub(crate) fn court_line(alloc: Global, zone: &str, close: TimeOfDay) -> Result<String, AllocError>
    ensures { IfOk result (λ text. string_bytes text ≡ court_line zone.now close) }
{
    let close = close.bytes();
    let close = str::from_utf8(&close).unwrap();
    format!(in alloc; "court {zone} closes {close}\n")
}

fn calendar_lines(alloc: Global, held: &Holdings) -> Result<String, AllocError>
    ensures { IfOk result (λ text. string_bytes text ≡ calendar_lines held.now) }
{
    let version = Version::KEPT.number();
    format!(in alloc;
        "version {version}\ncalendar rows {}\nlocal rules {}\n",
        held.calendar_rows, held.local_rules
    )
}

fn case_lines(alloc: Global, held: &Holdings) -> Result<String, AllocError>
    ensures { IfOk result (λ text. string_bytes text ≡ case_lines held.now) }
{
    format!(in alloc;
        "cases {}\nparties {}\nentries {}\n",
        held.cases, held.parties, held.entries
    )
}

fn standings_text(alloc: Global, held: &Holdings) -> Result<String, AllocError>
    ensures { IfOk result (λ text. string_bytes text ≡ standings_text held.now.standings) }
{
    let stand = held.standings;
    format!(in alloc;
        "running {}, suspended {}, awaiting {}, done {}, vacated {}",
        stand.running, stand.suspended, stand.awaiting, stand.done, stand.vacated
    )
}

/// Returns the lines of what the tables hold, after the line of their version.
pub(crate) fn holdings_text(alloc: Global, held: &Holdings) -> Result<String, AllocError>
    ensures { IfOk result (λ text. string_bytes text ≡ held_lines held.now) }
{
    let calendar = calendar_lines(alloc, held)?;
    let cases = case_lines(alloc, held)?;
    let standings = standings_text(alloc, held)?;
    format!(in alloc;
        "{calendar}{cases}deadlines {}: {standings}\nreceipts {}\n",
        held.deadlines, held.receipts
    )
}
