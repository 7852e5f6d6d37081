//! The table of short days.
ghost use Rattle.std.specs.Prelude.{◌≡◌, ◌≤◌, ◌++◌, ◌∷◌, [], List, Ok, true, false, length};
ghost use Rattle.docket_history.specs.declared.row.ShortDayRow.{ShortDayRow as Entered};
ghost use Rattle.docket_sound.specs.Numbers.{Rises};
ghost use Rattle.docket_sound.specs.ShortDays.{is_among, is_sound_short_day, may_be_next, has_place, AreSoundShortDays, HasTakenShortDays};
ghost use Rattle.court_days.specs.Limits.{most_rows};

use crate::calendar::{enter, told_by};
use court_days::Calendar;
use docket_history::{CalendarItem, ShortDayRow};
use docket_values::{is_entered, is_text};
use std::alloc::{AllocError, Global};

/// How many rows the calendar has at most, short days and others.
const MOST_ROWS: usize = 4000;

/// Whether the values of the row are within their limits, by the minute at which the office closes on
/// other days.
fn is_sound_short_day(close: u32, row: &ShortDayRow) -> bool
    ensures { result ≡ is_sound_short_day close row.now }
{
    (is_entered(row.day) && row.close.minute() < close) && is_text(100, &row.name)
}

/// Whether the number is one of those, which rise.
fn is_among(numbers: &[u32], number: u32) -> bool
    ensures { Rises numbers.now → result ≡ is_among numbers.now number }
{
    numbers.binary_search(&number).is_ok()
}

/// The check of the rows of short days. It keeps the days.
#[derive(Drop)]
pub struct ShortDayCheck {
    /// The minute at which the office closes on other days.
    pub(crate) close: u32,
    pub(crate) next_row: u64,
    /// The numbers of the rows in the table of the calendar, which rise.
    pub(crate) calendar: Vec<u32>,
    pub(crate) last: u32,
    pub(crate) days: Calendar,
}

impl ShortDayCheck {
    pub(crate) fn new(alloc: Global, close: u32, next_row: u64, calendar: Vec<u32>) -> ShortDayCheck
        ensures none { length calendar.items ≤ most_rows → Rises calendar.items → HasTakenShortDays result [] }
        ensures close { result.close ≡ close }
        ensures next_row { result.next_row ≡ next_row }
        ensures calendar { result.calendar ≡ calendar }
    {
        ShortDayCheck {
            close,
            next_row,
            calendar,
            last: 0,
            days: Calendar::new(alloc),
        }
    }

    /// Whether the row may come next, but for the day.
    fn may_be_next(&self, row: &ShortDayRow) -> bool
        ensures { result ≡ may_be_next self.now row.now }
    {
        self.last < row.number
            && u64::from(row.number) < self.next_row
            && is_sound_short_day(self.close, row)
    }

    /// Whether no row of the calendar has its number, and there is room for it beside them.
    fn has_place(&self, row: &ShortDayRow) -> bool
        ensures { Rises self.now.calendar.items → result ≡ has_place self.now row.now }
    {
        !is_among(self.calendar.as_slice(), row.number)
            && self.calendar.len() + self.days.len() < MOST_ROWS
    }

    /// Takes the next row, unless the table is unsound by it.
    pub fn take(&mut self, row: &ShortDayRow) -> Result<bool, AllocError>
        ensures taken { (rows : List Entered) → HasTakenShortDays self.old rows → result ≡ Ok true
            → HasTakenShortDays self.new (rows ++ row.now ∷ []) }
        ensures refused { (rows more : List Entered) → HasTakenShortDays self.old rows → result ≡ Ok false
            → AreSoundShortDays self.old.close self.old.next_row self.old.calendar.items (rows ++ row.now ∷ more) → ⊥ }
        ensures close { self.new.close ≡ self.old.close }
        ensures next_row { self.new.next_row ≡ self.old.next_row }
        ensures calendar { self.new.calendar ≡ self.old.calendar }
    {
        if !self.may_be_next(row) {
            return Ok(false);
        }
        if !self.has_place(row) {
            return Ok(false);
        }
        match enter(&mut self.days, CalendarItem::Short(row.day, row.close)) {
            Ok(is_new) => {
                self.last = row.number;
                Ok(is_new)
            }
            Err(fault) => told_by(fault),
        }
    }
}
