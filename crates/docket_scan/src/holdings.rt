//! What the tables of a docket hold, counted.
ghost use Rattle.std.specs.Prelude.{◌≡◌};
ghost use Rattle.court_days.specs.Court.{CourtSettings};
ghost use Rattle.docket_scan.specs.Holdings.{holdings_of};
ghost use Rattle.docket_scan.specs.Judging.{no_rows};

use docket_sound::Standings;

/// How many rows the tables of a docket have, and how many of its deadlines stand where.
#[derive(Clone, Copy)]
pub struct Holdings {
    pub calendar_rows: u64,
    pub local_rules: u64,
    pub cases: u64,
    pub parties: u64,
    pub entries: u64,
    pub deadlines: u64,
    pub standings: Standings,
    pub receipts: u64,
}

impl Holdings {
    pub(crate) fn none() -> Holdings
        ensures { (court : CourtSettings) → result ≡ holdings_of court no_rows }
    {
        Holdings {
            calendar_rows: 0,
            local_rules: 0,
            cases: 0,
            parties: 0,
            entries: 0,
            deadlines: 0,
            standings: Standings::none(),
            receipts: 0,
        }
    }
}
