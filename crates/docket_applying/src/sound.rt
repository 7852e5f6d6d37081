//! Whether a view that was read may be one that a history shows.
ghost use Rattle.std.specs.Prelude.{◌≡◌, ◌↔◌, IsTrue, IfSome};
ghost use Rattle.std.specs.List.{list_all};
ghost use Rattle.court_days.specs.Court.{zone_of};
ghost use Rattle.court_rules.specs.Acts.{is_instant, is_entered_day};
ghost use Rattle.court_rules.specs.Standings.{AreActs};
ghost use Rattle.docket_decisions.specs.Decisions.{IsSoundView};
ghost use Rattle.docket_history.specs.Views.{deadline_shown};
ghost use Rattle.docket_applying.specs.Sound.{is_entered_item, begins_in_time, are_acts, are_lawful, is_lawful, has_room, is_lawful_rule, IsSoundCalendar, IsSoundCase};

use court_days::{Court, Day, is_entered};
use court_rules::{Act, Standing, Start, acts_ok, due};
use docket_command::LocalRule;
use docket_history::{CalendarItem, DeadlineView, View};
use docket_sound::is_local_rule;

/// How many rows a calendar holds at most.
const MOST_ROWS: usize = 4000;

/// How many deadlines a case has at most.
const MOST_DEADLINES: usize = 1000;

/// How many acts a deadline has at most.
const MOST_ACTS: usize = 100;

/// The greatest number that the next calendar row may have.
const LAST_ROW: u64 = 4_294_967_296;

fn is_entered_day(day: Day) -> bool
    ensures { result ≡ is_entered_day day }
{
    is_entered(day)
}

/// Whether a court may enter the item.
fn is_entered_item(item: CalendarItem) -> bool
    ensures { result ≡ is_entered_item item }
{
    match item {
        CalendarItem::Day(_, day) => is_entered_day(day),
        CalendarItem::Short(day, _) => is_entered_day(day),
        CalendarItem::Span(start, end) => {
            946_598_400 <= start.seconds()
                && start.seconds() < end.seconds()
                && end.seconds() <= 4_102_531_200
        }
    }
}

fn are_entered_items(items: &[CalendarItem]) -> bool
    ensures { result ≡ list_all is_entered_item items.now }
{
    items.iter().all(|item| is_entered_item(*item))
}

/// Whether the instant is one from 1999-12-31T00:00Z to 2100-01-02T00:00Z.
fn is_instant(at: i64) -> bool
    ensures { result ≡ is_instant at }
{
    (946_598_400..=4_102_531_200).contains(&at)
}

/// Whether a period of hours begins on a local day that a court may enter.
fn begins_in_time(court: &Court, act: Act) -> bool
    ensures { result ≡ begins_in_time (zone_of court.now) act }
{
    match act {
        Act::Start(Start::Hours(hours)) => {
            is_instant(hours.at) && is_entered_day(court.local(hours.at).0)
        }
        _ => true,
    }
}

fn begin_in_time(court: &Court, acts: &[Act]) -> bool
    ensures { result ≡ list_all (begins_in_time (zone_of court.now)) acts.now }
{
    acts.iter().all(|act| begins_in_time(court, *act))
}

/// Whether these may be the acts of a deadline of the court.
fn are_acts(court: &Court, acts: &[Act]) -> bool
    ensures { result ≡ are_acts (zone_of court.now) acts.now }
{
    acts_ok(acts) && begin_in_time(court, acts)
}

fn are_lawful(court: &Court, deadlines: &[DeadlineView]) -> bool
    ensures { result ≡ are_lawful (zone_of court.now) deadlines.now }
{
    deadlines
        .iter()
        .all(|deadline| are_acts(court, deadline.acts.as_slice()))
}

/// Whether the deadline that the command names, if there is one, has lawful acts.
fn is_lawful(court: &Court, view: &View) -> bool
    ensures { result ≡ is_lawful (zone_of court.now) (deadline_shown view.now) }
{
    match view.deadline_named() {
        Some(deadline) => are_acts(court, deadline.acts.as_slice()),
        None => true,
    }
}

/// Whether there is room for one act more on the deadline that the command names, or its time is over.
fn has_room(court: &Court, view: &View) -> bool
    requires { IfSome (deadline_shown view.now) (λ deadline. AreActs (zone_of court.now) deadline.acts) }
    ensures { result ≡ has_room court.now view.now }
{
    let Some(deadline) = view.deadline_named() else {
        return true;
    };
    let acts = deadline.acts.as_slice();
    if acts.len() < MOST_ACTS {
        return true;
    }
    let standing = due(court, view.calendar.calendar(), acts);
    matches!(standing, Standing::Done | Standing::Vacated)
}

/// Whether the local rule, if there is one, is one that a court may have.
fn is_lawful_rule(rule: &Option<LocalRule>) -> bool
    ensures { result ≡ is_lawful_rule rule.now }
{
    match rule {
        Some(rule) => is_local_rule(rule),
        None => true,
    }
}

/// Whether the view is one that a history can show. What a docket shows always is.
pub(crate) fn is_sound(court: &Court, view: &View) -> bool
    ensures { IsTrue result ↔ IsSoundView court.now view.now }
{
    // Its contract says that a court may enter what stands in the calendar.
    let _items = view.calendar.as_slice();
    if view.next_row > LAST_ROW {
        return false;
    }
    if !is_lawful(court, view) {
        return false;
    }
    if !has_room(court, view) {
        return false;
    }
    is_lawful_rule(&view.local)
}

/// Whether these may be the items of a calendar.
pub fn is_sound_calendar(items: &[CalendarItem]) -> bool
    ensures { IsTrue result ↔ IsSoundCalendar items.now }
{
    if items.len() > MOST_ROWS {
        return false;
    }
    are_entered_items(items)
}

/// Whether a history can show these deadlines of a case: at most 1,000, each with lawful acts.
pub fn is_sound_case(court: &Court, deadlines: &[DeadlineView]) -> bool
    ensures { IsTrue result ↔ IsSoundCase court.now deadlines.now }
{
    if deadlines.len() > MOST_DEADLINES {
        return false;
    }
    are_lawful(court, deadlines)
}
