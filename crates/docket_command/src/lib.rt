//! The commands that change a docket, with the types of their fields; the words by which they are
//! spelled; and the reasons for which they are refused.
#![tactic(auto)]

mod calendar_action;
mod case_action;
mod choice;
mod command;
mod command_name;
mod field;
mod laws;
mod local_action;
mod moment;
mod motion_action;
mod new_day;
mod refusal;
mod same;
mod service_action;
mod time_action;
mod time_of_day;
mod word;

pub use calendar_action::{
    CloseDay, CloseSpan, DeclareDay, ImportCalendar, ShortDay, WithdrawCalendar,
};
pub use case_action::{AddParty, FileEntry, OpenCase};
pub use choice::{Basis, PeriodUnit, PleadingKind, Role, Ruling, ServiceMethod, Sovereign};
pub use command::{Action, Command};
pub use command_name::CommandName;
pub use court_rules::{LocalRule, Text, is_local_name};
pub use field::Field;
pub use laws::{commands_are_told_apart, words_are_read_back};
pub use local_action::LocalPeriod;
pub use moment::Moment;
pub use motion_action::{Dispose, RuleMotion, StatementServed};
pub use new_day::{NewDay, NewDays};
pub use refusal::{Refusal, Reply};
pub use service_action::{FileWaiver, OrderReply, ServePleading, ServeSummons};
pub use time_action::{EnterJudgment, Extend, NoticeHearing, OrderPeriod, Satisfy, Vacate};
pub use time_of_day::TimeOfDay;
pub use word::{Word, from_word};
