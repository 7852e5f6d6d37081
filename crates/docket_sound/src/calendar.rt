//! The table of the calendar.
ghost use Rattle.std.specs.Prelude.{◌≡◌, ◌≢◌, ℕ, ◌++◌, ◌∷◌, [], List, map, Ok, true, false, not};
ghost use Rattle.court_days.specs.declared.calendar.CalendarFault.TheVariants.{NoMemory};
ghost use Rattle.docket_history.specs.CalendarItems.{with_item, calendar_of, IsEnteredItem};
ghost use Rattle.docket_history.specs.Histories.{items_of};
ghost use Rattle.docket_values.specs.Values.{is_entered_at};
ghost use Rattle.docket_history.specs.declared.row.CalendarRow.{CalendarRow as Entered};
ghost use Rattle.docket_sound.specs.Calendars.{is_sound_item, is_well_named, is_sound_row, AreSoundCalendarRows, HasTakenCalendarRows, may_come, Enters};
ghost use Rattle.docket_sound.specs.ShortDays.{GoesBy, HasTakenShortDays};

use crate::short_day::ShortDayCheck;
use court_days::{Calendar, CalendarFault, Court};
use docket_command::{Moment, Text};
use docket_history::{CalendarItem, CalendarRow};
use docket_values::{is_entered, is_text};
use std::alloc::{AllocError, Global};

/// Whether a court may enter the local day of the moment.
fn is_entered_at(court: &Court, at: Moment) -> bool
    ensures { result ≡ is_entered_at court.now at }
{
    let (day, _) = court.local(at.seconds());
    is_entered(day)
}

/// Whether the court may enter the item.
fn is_sound_item(court: &Court, item: CalendarItem) -> bool
    ensures { result ≡ is_sound_item court.now item }
{
    match item {
        CalendarItem::Day(_, day) => is_entered(day),
        CalendarItem::Span(start, end) => {
            is_entered_at(court, start)
                && is_entered_at(court, end)
                && start.seconds() < end.seconds()
        }
        CalendarItem::Short(day, close) => {
            is_entered(day) && close.minute() < court.close_minute()
        }
    }
}

/// Whether the item may have the name: that of a span is empty.
fn is_well_named(item: CalendarItem, name: &Text) -> bool
    ensures { result ≡ is_well_named item name.now }
{
    match item {
        CalendarItem::Day(_, _) | CalendarItem::Short(_, _) => is_text(100, name),
        CalendarItem::Span(_, _) => name.as_str().is_empty(),
    }
}

/// Whether the values of the row are within their limits.
fn is_sound_row(court: &Court, row: &CalendarRow) -> bool
    ensures { result ≡ is_sound_row court.now row.now }
{
    is_sound_item(court, row.item) && is_well_named(row.item, &row.name)
}

/// The check of the rows of a court's calendar. It keeps the calendar, and the numbers of its rows.
#[derive(Drop)]
pub struct CalendarCheck {
    pub(crate) court: Court,
    pub(crate) next_row: u64,
    pub(crate) last: u32,
    pub(crate) numbers: Vec<u32>,
    pub(crate) calendar: Calendar,
}

/// Enters the item. `false`: it is there already.
pub(crate) fn enter(calendar: &mut Calendar, item: CalendarItem) -> Result<bool, CalendarFault>
    ensures { Enters calendar.old item calendar.new result }
{
    match item {
        CalendarItem::Day(kind, day) => calendar.add_day(kind, day),
        CalendarItem::Span(start, end) => calendar.add_span(start.seconds(), end.seconds()),
        CalendarItem::Short(day, close) => calendar.add_short(day, close.minute()),
    }
}

/// Returns what a fault means: the row is unsound, or memory ran out.
pub(crate) fn told_by(fault: CalendarFault) -> Result<bool, AllocError>
    ensures taken { result ≢ Ok true }
    ensures refused { result ≡ Ok false → fault ≢ NoMemory }
{
    match fault {
        CalendarFault::NoMemory => Err(AllocError),
        CalendarFault::OutOfRange | CalendarFault::Full => Ok(false),
    }
}

impl CalendarCheck {
    /// It takes no memory yet.
    pub fn new(alloc: Global, court: Court, next_row: u64) -> CalendarCheck
        ensures none { HasTakenCalendarRows result [] }
        ensures court { result.court ≡ court }
        ensures next_row { result.next_row ≡ next_row }
    {
        CalendarCheck {
            court,
            next_row,
            last: 0,
            numbers: Vec::new(alloc),
            calendar: Calendar::new(alloc),
        }
    }

    /// Whether the row may come next, but for what it enters.
    fn may_come(&self, row: &CalendarRow) -> bool
        ensures { result ≡ may_come self.now.court self.now.next_row self.now.last row.now }
    {
        self.last < row.number
            && u64::from(row.number) < self.next_row
            && is_sound_row(&self.court, row)
    }

    /// Takes the next row, unless the table is unsound by it.
    pub fn take(&mut self, row: &CalendarRow) -> Result<bool, AllocError>
        ensures taken { (rows : List Entered) → HasTakenCalendarRows self.old rows → result ≡ Ok true
            → HasTakenCalendarRows self.new (rows ++ row.now ∷ []) }
        ensures refused { (rows more : List Entered) → HasTakenCalendarRows self.old rows → result ≡ Ok false
            → AreSoundCalendarRows self.old.court self.old.next_row (rows ++ row.now ∷ more) → ⊥ }
        ensures court { self.new.court ≡ self.old.court }
        ensures next_row { self.new.next_row ≡ self.old.next_row }
    {
        if !self.may_come(row) {
            return Ok(false);
        }
        match enter(&mut self.calendar, row.item) {
            Ok(is_new) => {
                self.last = row.number;
                self.numbers.push(row.number)?;
                Ok(is_new)
            }
            Err(fault) => told_by(fault),
        }
    }

    /// The court, the calendar of the rows that were taken, and the check of the short days beside them.
    pub fn finish(self, alloc: Global) -> (Court, Calendar, ShortDayCheck)
        ensures court { result.0 ≡ self.court }
        ensures calendar { (rows : List Entered) → HasTakenCalendarRows self rows → result.1 ≡ calendar_of (items_of rows) }
        ensures short_days { (rows : List Entered) → HasTakenCalendarRows self rows → HasTakenShortDays result.2 [] }
        ensures context { (rows : List Entered) → HasTakenCalendarRows self rows
            → GoesBy result.2 self.court.close_minute self.next_row (map (λ row. row.number) rows) }
    {
        let short_days = ShortDayCheck::new(
            alloc,
            self.court.close_minute(),
            self.next_row,
            self.numbers,
        );
        (self.court, self.calendar, short_days)
    }
}
