//! The last day of the time that a rule sets.
ghost use Rattle.std.specs.Prelude.{◌≡◌, ◌+◌, ◌≤◌, max, ◌↔◌, IfSome, IsNone};
ghost use Rattle.court_days.specs.Civil.{IsEnteredDay};
ghost use Rattle.court_rules.specs.Rules.{IsPeriod};
ghost use Rattle.court_rules.specs.Ends.{IsEndOfPeriod, IsEndAfterService, IsEndByRule, end_of_period, end_after_service, end_by_rule};

use crate::method::Method;
use crate::rule::Rule;
use crate::table::Period;
use court_days::{Calendar, Day, Direction, add_three, count_days, count_months};

/// The end of a period from the trigger (Fed. R. Civ. P. 6(a)).
pub(crate) fn end_of_period(
    calendar: &Calendar,
    direction: Direction,
    trigger: Day,
    period: Period,
) -> Day
    requires trigger { IsEnteredDay trigger }
    requires period { IsPeriod period }
    ensures value { result ≡ end_of_period calendar.now direction trigger period }
    ensures means { IsEndOfPeriod calendar.now direction trigger period result }
    ensures near { result ≤ 51_208 }
{
    match period {
        Period::Days(count) => count_days(calendar, direction, trigger, count),
        Period::Months(count) => count_months(calendar, direction, trigger, count),
    }
}

/// The end of a period, with the three days that service adds, if it does
/// (Fed. R. Civ. P. 6(d)).
pub(crate) fn end_after_service(calendar: &Calendar, three: bool, end: Day) -> Day
    requires end { end ≤ 705_282 }
    ensures value { result ≡ end_after_service calendar.now three end }
    ensures means { IsEndAfterService calendar.now three end result }
    ensures near { result ≤ max (end + 3) 47_482 + 7 }
{
    if three { add_three(calendar, end) } else { end }
}

impl Rule {
    /// The last day of the time that the rule sets, from the trigger, for a party that was served by
    /// the method. None for a time that the court ordered. The trigger is a day that a court may enter.
    pub fn end(self, calendar: &Calendar, trigger: Day, method: Method) -> Option<Day>
        requires { IsEnteredDay trigger }
        ensures value { result ≡ end_by_rule calendar.now self trigger method }
        ensures means { IfSome result (IsEndByRule calendar.now self trigger method) }
        ensures none { IsNone result ↔ (self ≡ Rule.Ordered) }
    {
        let period = self.period()?;
        let direction = self.direction()?;
        let end = end_of_period(calendar, direction, trigger, period);
        Some(end_after_service(calendar, self.adds_three(method), end))
    }
}
