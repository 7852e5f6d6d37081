//! What a row of the calendar enters.
ghost use Rattle.std.specs.Prelude.{◌≡◌};
ghost use Rattle.std.specs.List.{list_any};
ghost use Rattle.docket_history.specs.CalendarItems.{is_same_kind, is_same_item, stands_among};
ghost use Rattle.docket_history.specs.declared.item.CalendarItem.TheVariants as item;

use court_days::{Day, DayKind};
use docket_command::{Moment, Text, TimeOfDay};

/// What a row of the calendar enters: a day under a kind, or a span of time in which the clerk's
/// office is inaccessible, from its start up to but not with its end. Or a day on which the office
/// is scheduled to close earlier, at that time.
#[derive(Clone, Copy)]
pub enum CalendarItem {
    Day(DayKind, Day),
    Span(Moment, Moment),
    Short(Day, TimeOfDay),
}

/// A row that is to be entered in the calendar. The name of a span is empty.
#[derive(Drop)]
pub struct NewRow {
    pub item: CalendarItem,
    pub name: Text,
}

fn is_same_kind(kind: DayKind, other: DayKind) -> bool
    ensures { result ≡ is_same_kind kind other }
{
    match (kind, other) {
        (DayKind::Federal, DayKind::Federal) => true,
        (DayKind::State, DayKind::State) => true,
        (DayKind::Closed, DayKind::Closed) => true,
        _ => false,
    }
}

impl CalendarItem {
    fn is_day(self, kind: DayKind, day: Day) -> bool
        ensures { result ≡ is_same_item self (item.Day kind day) }
    {
        match self {
            CalendarItem::Day(own, own_day) => {
                is_same_kind(own, kind) && own_day.epoch_day() == day.epoch_day()
            }
            CalendarItem::Span(_, _) | CalendarItem::Short(_, _) => false,
        }
    }

    fn is_span(self, start: Moment, end: Moment) -> bool
        ensures { result ≡ is_same_item self (item.Span start end) }
    {
        match self {
            CalendarItem::Span(own_start, own_end) => {
                own_start.seconds() == start.seconds() && own_end.seconds() == end.seconds()
            }
            CalendarItem::Day(_, _) | CalendarItem::Short(_, _) => false,
        }
    }

    fn is_short(self, day: Day, close: TimeOfDay) -> bool
        ensures { result ≡ is_same_item self (item.Short day close) }
    {
        match self {
            CalendarItem::Short(own, _) => own.epoch_day() == day.epoch_day(),
            CalendarItem::Day(_, _) | CalendarItem::Span(_, _) => false,
        }
    }

    /// Whether two rows enter the same.
    pub fn is_same(self, other: CalendarItem) -> bool
        ensures { result ≡ is_same_item self other }
    {
        match other {
            CalendarItem::Day(kind, day) => self.is_day(kind, day),
            CalendarItem::Span(start, end) => self.is_span(start, end),
            CalendarItem::Short(day, close) => self.is_short(day, close),
        }
    }
}

/// Whether the item is among those that are there.
pub fn stands_among(standing: &[CalendarItem], item: CalendarItem) -> bool
    ensures { result ≡ stands_among standing.now item }
{
    standing.iter().any(|other| other.is_same(item))
}
