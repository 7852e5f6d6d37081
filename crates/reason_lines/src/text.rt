//! The text of the steps by which the standing of a deadline was found.
ghost use Rattle.std.specs.Prelude.{◌≡◌, IfOk, option_copied, string_bytes};
ghost use Rattle.reason_lines.specs.Lines.{reasons_text};

use crate::step::StepLine;
use court_days::{Calendar, Court};
use court_reasons::Step;
use court_rules::DeadlineRule;
use std::alloc::{AllocError, Global};

/// A line for each step, with the rules cited: a day, or a moment in the court's time, its weekday,
/// and what holds then. The last line says until when the deadline may be met: a last day runs to
/// midnight for electronic filing, and for other filing to the minute at which the clerk's office
/// is scheduled to close on that day (Fed. R. Civ. P. 6(a)(4)).
///
/// `rule` is the rule that sets the time, where one does. A rule of the table is shown with its
/// event and a local rule by its name; a time that no rule sets is counted by 6(a)(1).
pub fn reasons_text(
    alloc: Global,
    court: &Court,
    calendar: &Calendar,
    rule: Option<&DeadlineRule>,
    steps: &[Step],
) -> Result<String, AllocError>
    ensures { IfOk result (λ text.
        string_bytes text ≡ reasons_text court.now calendar.now (option_copied rule.entry) steps.now) }
{
    let mut text = String::new(alloc);
    for step in steps {
        let line = StepLine {
            court,
            calendar,
            rule,
            step,
        };
        write!(text, "{line}")?;
    }
    Ok(text)
}
