//! The calendar as it is at present.
ghost use Rattle.std.specs.Prelude.{◌≡◌, ◌≤◌, [], length, IfOk};
ghost use Rattle.std.specs.List.{All};
ghost use Rattle.docket_history.specs.CalendarItems.{calendar_of, IsEnteredItem};
ghost use Rattle.court_days.specs.Limits.{most_rows};

use crate::calendar_rows::calendar_of;
use crate::item::CalendarItem;
use court_days::Calendar;
use std::alloc::{AllocError, Global};
use std::marker::Model;

/// What the present rows of the calendar enter, in the order of their numbers, and the calendar of
/// these items, which is built once. A contract sees the list of items: ones that a court may enter,
/// at most 4,000.
#[derive(Drop)]
pub struct StandingCalendar {
    items: Vec<CalendarItem>,
    calendar: Calendar,
}

impl Model for StandingCalendar {
    ghost use Rattle.std.specs.Prelude.{List};
    ghost use Rattle.docket_history.specs.CalendarItems.{IsStanding};
    ghost use Rattle.docket_history.specs.declared.item.CalendarItem.{CalendarItem};

    ghost Value = { List CalendarItem };

    ghost view = { λ a. a.items.items };

    ghost invariant = { λ a. IsStanding a.items.items a.calendar };
}

impl StandingCalendar {
    /// The calendar without rows.
    pub fn empty(alloc: Global) -> StandingCalendar
        ensures { result ≡ [] }
    {
        StandingCalendar {
            items: Vec::new(alloc),
            calendar: Calendar::new(alloc),
        }
    }

    /// The calendar of these items.
    pub fn new(alloc: Global, items: Vec<CalendarItem>) -> Result<StandingCalendar, AllocError>
        requires items { All IsEnteredItem items.items }
        requires rows { length items.items ≤ most_rows }
        ensures { IfOk result (λ standing. standing ≡ items.items) }
    {
        let calendar = calendar_of(alloc, items.as_slice())?;
        Ok(StandingCalendar { items, calendar })
    }

    pub fn as_slice(&self) -> &[CalendarItem]
        ensures items { result.now ≡ self.now }
        ensures entered { All IsEnteredItem self.now }
        ensures rows { length self.now ≤ most_rows }
    {
        self.items.as_slice()
    }

    /// The calendar of the items.
    pub fn calendar(&self) -> &Calendar
        ensures { result.now ≡ calendar_of self.now }
    {
        &self.calendar
    }
}
