//! The rules that set the times of a deadline, and the methods of service.
#![tactic(auto)]

mod act;
mod deadline_rule;
mod end;
mod laws;
mod local_rule;
mod method;
mod order;
mod rule;
mod standing;
mod table;
mod text;

pub use act::{Act, DayPeriod, HourPeriod, MotionKind, Standing, Start};
pub use court_days::{DayKind, Direction, Way};
pub use deadline_rule::DeadlineRule;
pub use laws::{
    acts_go_on, deadline_rules_read_back, method_names_read_back, rule_names_read_back,
};
pub use local_rule::{LocalRule, is_local_name};
pub use method::Method;
pub use order::acts_ok;
pub use rule::Rule;
pub use standing::{due, standing_after};
pub use table::{Period, RuleRow, rows as rule_rows};
pub use text::Text;
