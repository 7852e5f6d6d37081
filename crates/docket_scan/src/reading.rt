//! What is kept of the judged tables, for those behind them.
ghost use Rattle.std.specs.Prelude.{◌≡◌, ℕ, [], List, length, IfOk};
ghost use Rattle.docket_history.specs.CalendarItems.{calendar_of};
ghost use Rattle.docket_history.specs.Histories.{items_of};
ghost use Rattle.docket_history.specs.declared.row.CalendarRow.{CalendarRow as Entered};
ghost use Rattle.docket_scan.specs.Judging.{no_rows};
ghost use Rattle.docket_scan.specs.Names.{AreKnown};
ghost use Rattle.docket_scan.specs.Reading.{IsReady, Says};

use crate::holdings::Holdings;
use court_days::{Calendar, Court};
use docket_decisions::StoredEnd;
use docket_sound::{KnownTexts, Numbering, ShortDayCheck};
use std::alloc::{AllocError, Global};

/// What the checks of later tables use, up to that of deadlines, and how much the tables hold. It has nothing
/// of a table that was not judged yet.
#[derive(Drop)]
pub(crate) struct TablesRead {
    pub(crate) court: Court,
    pub(crate) calendar: Calendar,
    /// The check of the short days beside the calendar.
    pub(crate) short_days: ShortDayCheck,
    /// The local names in the table of local rules.
    pub(crate) names: KnownTexts,
    /// How many cases there are.
    pub(crate) cases: u32,
    /// How many parties each case has.
    pub(crate) parties: Numbering,
    pub(crate) held: Holdings,
}

impl TablesRead {
    /// Only the local names and the table of the calendar were read, which has so many rows.
    pub(crate) fn begin(
        alloc: Global,
        court: Court,
        calendar: Calendar,
        short_days: ShortDayCheck,
        names: KnownTexts,
        rows: u64,
    ) -> Result<TablesRead, AllocError>
        ensures { (days : List Entered) (texts : List (List ℕ)) (next : ℕ) → calendar ≡ calendar_of (items_of days) → rows ≡ length days
            → IsReady court next days [] short_days → AreKnown names texts
            → IfOk result (λ read. Says court next (record no_rows { calendar = days; names = texts }) read) }
    {
        let parties = Numbering::none(alloc)?;
        let mut held = Holdings::none();
        held.calendar_rows = rows;
        Ok(TablesRead {
            court,
            calendar,
            short_days,
            names,
            cases: 0,
            parties,
            held,
        })
    }
}

/// What is kept of them after the deadlines.
#[derive(Drop)]
pub(crate) struct ActsRead {
    pub(crate) court: Court,
    pub(crate) calendar: Calendar,
    pub(crate) short_days: ShortDayCheck,
    /// How many deadlines each case has.
    pub(crate) deadlines: Numbering,
    pub(crate) held: Holdings,
}

/// What is kept of them after the acts.
#[derive(Drop)]
pub(crate) struct EndsRead {
    /// The ends of the deadlines whose time runs, by their acts and the days and spans of the table of the
    /// calendar.
    pub(crate) ends: Vec<StoredEnd>,
    pub(crate) short_days: ShortDayCheck,
    pub(crate) held: Holdings,
}

/// What is kept of them after the ends.
#[derive(Drop)]
pub(crate) struct LastRead {
    pub(crate) short_days: ShortDayCheck,
    pub(crate) held: Holdings,
}
