//! Judging the docket of a database, and returning what it holds.
ghost use Rattle.file_questions.specs.Checks.{IsSoundDocket};

use crate::inquiry::Inquiry;
use court_days::Court;
use docket_command::TimeOfDay;
use docket_store::{Docket, Holdings};
use sqlite::Alter;
use std::alloc::{AllocError, Global};

/// A sound docket: the text of its court's zone, when the clerk's office closes, and what its tables hold.
#[derive(Drop)]
pub struct Sound {
    pub zone: String,
    pub close: TimeOfDay,
    pub held: Holdings,
}

fn sound_docket(alloc: Global, court: &Court, held: Holdings) -> Result<Sound, AllocError>
    ensures { IsSoundDocket court.now held result }
{
    Ok(Sound {
        zone: String::from_str(alloc, court.zone_text())?,
        close: TimeOfDay::new(court.close_minute()).unwrap(),
        held,
    })
}

/// Whether the tables are sound, and what they hold. Adopting the docket has judged them.
#[derive(Clone, Copy)]
pub struct Judgment;

impl Inquiry<()> for Judgment {
    ghost use Rattle.docket_scan.specs.Dockets.{holdings_in};
    ghost use Rattle.file_questions.specs.Checks.{IsSoundDocket};

    type Answer = Result<Sound, AllocError>;

    ghost Tells = { λ _ court h _ _. IsSoundDocket court (holdings_in court h) };

    fn ask<S: Alter>(
        &self,
        alloc: Global,
        docket: &mut Docket<S>,
        held: Holdings,
        _out: &mut (),
    ) -> Result<Sound, AllocError> {
        sound_docket(alloc, docket.court(), held)
    }
}
