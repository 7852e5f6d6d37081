//! The period whose end a line asks for.
ghost use Rattle.std.specs.Prelude.{◌≡◌, ◌≤◌, [], ◌∷◌, IfSome};
ghost use Rattle.civil_time.specs.LocalTime.{IsMoment};
ghost use Rattle.count_lines.specs.Requests.{IsAsked};
ghost use Rattle.court_days.specs.Court.{zone_of};
ghost use Rattle.court_rules.specs.Rules.{period_of, direction_of, adds_three};
ghost use Rattle.court_rules.specs.Standings.{AreActs};
ghost use Rattle.explain_lines.specs.Explained.{days_from, hours_from, time_from, start_of, rule_of};

use count_lines::{Request, may_begin};
use court_days::{Court, Day, Direction};
use court_rules::{Act, DayPeriod, DeadlineRule, HourPeriod, Method, Period, Rule, Start};

/// A period of days or months from a day.
fn days_from(direction: Direction, day: Day, period: Period, three_days: bool) -> Start
    ensures { result ≡ days_from direction day period three_days }
{
    Start::Days(DayPeriod {
        trigger: day,
        period,
        direction,
        three_days,
    })
}

/// A period of hours from a moment, where one may begin at it.
fn hours_from(court: &Court, direction: Direction, at: i64, hours: u32) -> Option<Start>
    requires moment { IsMoment at }
    requires hours { (1 ≤ hours) × (hours ≤ 8760) }
    ensures value { result ≡ hours_from (zone_of court.now) direction at hours }
    ensures acts { IfSome result (λ begun. AreActs (zone_of court.now) (Act.Start begun ∷ [])) }
{
    if !may_begin(court, at) {
        return None;
    }
    Some(Start::Hours(HourPeriod {
        at,
        hours,
        direction,
    }))
}

/// The time that a rule sets, for a party that was served by the method.
fn time_from(rule: Rule, day: Day, method: Method) -> Option<Start>
    ensures { result ≡ time_from (period_of rule) (direction_of rule) day (adds_three rule method) }
{
    let period = rule.period()?;
    let direction = rule.direction()?;
    Some(days_from(direction, day, period, rule.adds_three(method)))
}

/// The period whose end a request asks for, if it asks for one. It may be the first act of a
/// deadline.
pub(crate) fn start_of(court: &Court, request: &Request) -> Option<Start>
    requires { IsAsked request.now }
    ensures value { result ≡ start_of (zone_of court.now) request.now }
    ensures acts { IfSome result (λ begun. AreActs (zone_of court.now) (Act.Start begun ∷ [])) }
{
    match request {
        Request::CountDays(direction, day, count) => {
            Some(days_from(*direction, *day, Period::Days(*count), false))
        }
        Request::CountMonths(direction, day, count) => {
            Some(days_from(*direction, *day, Period::Months(*count), false))
        }
        Request::CountHours(direction, at, count) => hours_from(court, *direction, *at, *count),
        Request::ByRule(rule, day, method) => time_from(*rule, *day, *method),
        _ => None,
    }
}

/// The rule that sets the time, where the request names one.
pub(crate) fn rule_of(request: &Request) -> Option<DeadlineRule>
    ensures { result ≡ rule_of request.now }
{
    match request {
        Request::ByRule(rule, _, _) => Some(DeadlineRule::Listed(*rule)),
        _ => None,
    }
}
