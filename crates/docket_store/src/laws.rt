//! What the definitions of specs/ say, with nothing to run.
ghost use Rattle.std.specs.Prelude.{[]};
ghost use Rattle.docket_applying.specs.Applying.{IsDocket};

use court_days::Court;

/// A court without any record has a docket: `docket_tables::make` makes its tables.
pub fn courts_begin_without_a_record(court: &Court)
    ensures { IsDocket court.now [] }
{
    let _zone = court.zone_text();
    let _close = court.close_minute();
}
