//! When a deadline is due: where it stands by its acts, and until when.
ghost use Rattle.std.specs.Prelude.{◌≡◌, ℕ, ◌+◌, ◌*◌, ◌≤◌, true};
ghost use Rattle.court_days.specs.LocalTime.{local_day, seconds};
ghost use Rattle.court_days.specs.Hours.{IsNearEntered};
ghost use Rattle.court_days.specs.Court.{zone_of};
ghost use Rattle.court_rules.specs.Acts.{is_start, is_within};
ghost use Rattle.court_rules.specs.Standings.{end_of_start, last_day, extended_by, resumed_end, standing_after, standing, begins_on_entered_day, AreActs, IsEndAfter, StandsAfter};
ghost use Rattle.court_days.specs.Limits.{last_entered_day, last_local_day};

use crate::act::{Act, DayPeriod, Standing, Start};
use crate::end::{end_after_service, end_of_period};
use court_days::{Calendar, Court, Day, Direction, End, count_days, count_hours};

/// How long the time runs after a ruling on the motion that suspended it, or after the statement
/// (Fed. R. Civ. P. 12(a)(4)).
const DAYS_AFTER_MOTION: u32 = 14;

/// The end of a period that begins.
fn end_of_start(court: &Court, calendar: &Calendar, start: Start) -> End
    requires within { is_start start ≡ true }
    requires entered { begins_on_entered_day (zone_of court.now) (Act.Start start) ≡ true }
    ensures value { result ≡ end_of_start (zone_of court.now) calendar.now start }
    ensures near { IsEndAfter 1 result }
{
    match start {
        Start::Days(days) => {
            let end = end_of_period(calendar, days.direction, days.trigger, days.period);
            End::LastDay(end_after_service(calendar, days.three_days, end))
        }
        Start::Hours(hours) => End::Moment(count_hours(
            court,
            calendar,
            hours.direction,
            hours.at,
            hours.hours,
        )),
    }
}

/// The local day at an instant near the days that a court may enter.
fn local_day(court: &Court, at: i64) -> Day
    requires { IsNearEntered (seconds at) }
    ensures value { result ≡ local_day (zone_of court.now) (seconds at) }
    ensures near { result ≤ last_local_day }
{
    court.local(at).0
}

/// The last day of a time: that of an instant is its local day.
fn last_day(court: &Court, end: End) -> Day
    requires { IsEndAfter 99 end }
    ensures value { result ≡ last_day (zone_of court.now) end }
    ensures near { (count : ℕ) → IsEndAfter count end → result ≤ last_local_day + 3737 * count }
{
    match end {
        End::LastDay(day) => day,
        End::Moment(at) => local_day(court, at),
    }
}

/// The last day of the time that begins again after a motion.
fn resumed_end(calendar: &Calendar, day: Day, three_days: bool) -> Day
    requires { day ≤ last_entered_day }
    ensures value { result ≡ resumed_end calendar.now day three_days }
    ensures near { result ≤ 51_608 }
{
    let end = count_days(calendar, Direction::Forward, day, DAYS_AFTER_MOTION);
    end_after_service(calendar, three_days, end)
}

/// A time that runs, extended by that many days from its last day (Fed. R. Civ. P. 6(b)).
fn extended_by(court: &Court, calendar: &Calendar, days: u32, before: Standing) -> Standing
    requires days { days ≤ 3650 }
    requires before { StandsAfter 99 before }
    ensures value { result ≡ extended_by (zone_of court.now) calendar.now days before }
    ensures near { (count : ℕ) → StandsAfter count before → StandsAfter (count + 1) result }
{
    match before {
        Standing::Running(end) => {
            let last = last_day(court, end);
            Standing::Running(End::LastDay(count_days(calendar, Direction::Forward, last, days)))
        }
        other => other,
    }
}

/// Where a deadline stands after the act, by where it stood before.
pub fn standing_after(court: &Court, calendar: &Calendar, before: Standing, act: Act) -> Standing
    requires within { is_within act ≡ true }
    requires begins { begins_on_entered_day (zone_of court.now) act ≡ true }
    requires before { StandsAfter 99 before }
    ensures value { result ≡ standing_after (zone_of court.now) calendar.now before act }
    ensures near { (count : ℕ) → StandsAfter count before → StandsAfter (count + 1) result }
{
    match act {
        Act::Start(start) => Standing::Running(end_of_start(court, calendar, start)),
        Act::Fixed(day) | Act::ExtendTo(day) => Standing::Running(End::LastDay(day)),
        Act::ExtendBy(days) => extended_by(court, calendar, days, before),
        Act::Motion(_, _) => Standing::Suspended,
        Act::Resume(day, three_days) => {
            Standing::Running(End::LastDay(resumed_end(calendar, day, three_days)))
        }
        Act::AwaitStatement(_) => Standing::Awaiting,
        Act::Done(_, _) => Standing::Done,
        Act::Vacated => Standing::Vacated,
    }
}

/// Where a deadline stands by its acts and, where its time runs, the end by the last act that set a
/// time. An extension by days counts them forward from the last day before it, for an instant from
/// its local day (Fed. R. Civ. P. 6(b)); a day that the court sets, or to which it extends the time,
/// neither moves to a business day nor is moved where the clerk's office is closed.
///
/// The acts are ones that `acts_ok` accepts; periods of hours begin on a local day that a court may
/// enter.
pub fn due(court: &Court, calendar: &Calendar, acts: &[Act]) -> Standing
    requires { AreActs (zone_of court.now) acts.now }
    ensures value { result ≡ standing (zone_of court.now) calendar.now acts.now }
    ensures near { StandsAfter 100 result }
{
    let mut standing = Standing::Vacated;
    for act in acts {
        standing = standing_after(court, calendar, standing, *act);
    }
    standing
}
