//! The table of the court, of which one row is taken.
ghost use Rattle.std.specs.Prelude.{◌≡◌, ◌∷◌, [], List, IfOk, None};
ghost use Rattle.sqlite.specs.Order.{Row as Cells};
ghost use Rattle.docket_columns.specs.declared.version.Version.{Version};
ghost use Rattle.docket_scan.specs.Taken.{Finishes, HasTakenCourt, SaysCourtOf, Sees};

use crate::fault::AdoptFault;
use crate::taker::Taker;
use docket_columns::{CourtRow, Version, court_of, has_word, is_of_version};
use docket_sound::CourtRecord;
use docket_tables::Table;
use sqlite::Row;
use std::alloc::{AllocError, Global};

/// The values of a row of the court.
#[derive(Drop)]
pub(crate) struct SeenRow {
    has_word: bool,
    is_of_version: bool,
    court: Option<CourtRecord>,
}

/// Reads a row of the court. `None`: it is not a row of one, or is of another version.
fn record_in(alloc: Global, row: &Row, version: Version) -> Result<Option<CourtRecord>, AllocError>
    ensures { IfOk result (λ found. SaysCourtOf version found row.now) }
{
    let Some(
        CourtRow {
            zone,
            close,
            next_row,
        },
    ) = court_of(alloc, row, version)?
    else {
        return Ok(None);
    };
    Ok(Some(CourtRecord {
        id: 1,
        zone,
        close,
        next_row,
    }))
}

pub(crate) fn look_at(alloc: Global, row: &Row, version: Version) -> Result<SeenRow, AllocError>
    ensures { IfOk result (λ seen. Sees version seen row.now) }
{
    let court = record_in(alloc, row, version)?;
    Ok(SeenRow {
        has_word: has_word(row),
        is_of_version: is_of_version(row, version),
        court,
    })
}

impl SeenRow {
    /// Returns the court of the row, if it is that of a docket.
    fn finish(self) -> Result<CourtRecord, AdoptFault>
        ensures { (version : Version) (row : Cells) → Sees version self row → Finishes version (row ∷ []) result }
    {
        if !self.has_word {
            return Err(AdoptFault::NotADocket);
        }
        if !self.is_of_version {
            return Err(AdoptFault::OtherVersion);
        }
        match self.court {
            Some(court) => Ok(court),
            None => Err(AdoptFault::Damaged(Table::Court)),
        }
    }
}

/// A check that takes one row of a court, and no other.
#[derive(Drop)]
pub(crate) struct CourtCheck {
    /// The version in which the row is read.
    pub(crate) version: Version,
    pub(crate) seen: Option<SeenRow>,
}

impl CourtCheck {
    pub(crate) fn new(version: Version) -> CourtCheck
        ensures version { result.version ≡ version }
        ensures none { result.seen ≡ None }
    {
        CourtCheck {
            version,
            seen: None,
        }
    }

    /// Returns the court of the rows that were taken.
    pub(crate) fn finish(self) -> Result<CourtRecord, AdoptFault>
        ensures { (rows : List Cells) → HasTakenCourt self rows → Finishes self.version rows result }
    {
        match self.seen {
            Some(seen) => seen.finish(),
            None => Err(AdoptFault::NotADocket),
        }
    }
}

impl Taker for CourtCheck {
    ghost use Rattle.docket_columns.specs.declared.version.Version.{Version};
    ghost use Rattle.docket_scan.specs.Courts.{AreMarked};
    ghost use Rattle.docket_scan.specs.Taken.{HasTakenCourt};

    ghost HasTaken = { HasTakenCourt };

    ghost Context = { Version };

    ghost context = { λ check. check.version };

    ghost IsSound = { λ _. AreMarked };

    fn take(&mut self, alloc: Global, row: &Row) -> Result<bool, AllocError> {
        if self.seen.is_some() {
            return Ok(false);
        }
        self.seen = Some(look_at(alloc, row, self.version)?);
        Ok(true)
    }
}
