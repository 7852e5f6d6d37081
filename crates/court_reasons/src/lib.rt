//! Why a deadline stands as it does: the steps by which its end was found.
#![tactic(auto)]

mod cause;
mod days;
mod hours;
mod laws;
mod local;
mod reason;
mod statutory;
mod step;

pub use cause::Causes;
pub use laws::{
    acts_end_in_their_ends, causes_are_true, causes_tell_of_ends, days_are_named,
    holidays_are_eleven, steps_end_in_the_standing, steps_explain_alone,
};
pub use reason::reasons;
pub use statutory::{Holiday, StatutoryHoliday, statutory_holiday};
pub use step::{Reasons, Step};
