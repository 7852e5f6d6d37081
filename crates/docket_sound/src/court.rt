//! The table of the court.
ghost use Rattle.std.specs.Prelude.{◌≡◌, ◌↔◌, IsTrue, IfOk, IfSome, Ok, None};
ghost use Rattle.docket_sound.specs.Courts.{IsSoundCourt, is_sound_number, settings_of};
ghost use Rattle.docket_sound.specs.declared.court.CourtRecord.{CourtRecord as Settled};

use court_days::{Court, CourtFault};
use docket_command::Text;
use std::alloc::{AllocError, Global};

/// The number after the last that a row of the calendar may have.
const MOST_NEXT_ROW: u64 = 4_294_967_296;

/// The values of the row of a court, without the docket's word and the version of its tables.
#[derive(Drop)]
pub struct CourtRecord {
    pub id: u32,
    pub zone: Text,
    pub close: u32,
    pub next_row: u64,
}

/// Whether the number of the row is 1, and that of the next calendar row from 1 to 2^32.
fn is_sound_number(row: &CourtRecord) -> bool
    ensures { result ≡ is_sound_number row.now }
{
    row.id == 1 && 1 <= row.next_row && row.next_row <= MOST_NEXT_ROW
}

/// Returns the court of the row, if it is sound.
pub fn sound_court(alloc: Global, row: &CourtRecord) -> Result<Option<Court>, AllocError>
    ensures some { IfOk result (λ found. IfSome found (λ court. IsSoundCourt row.now × (court ≡ settings_of row.now))) }
    ensures none { result ≡ Ok None → IsSoundCourt row.now → ⊥ }
{
    if !is_sound_number(row) {
        return Ok(None);
    }
    match Court::closing_at(alloc, row.zone.as_str(), row.close) {
        Ok(court) => Ok(Some(court)),
        Err(CourtFault::NoMemory) => Err(AllocError),
        Err(CourtFault::BadZone) => Ok(None),
        Err(CourtFault::BadClose) => Ok(None),
    }
}
