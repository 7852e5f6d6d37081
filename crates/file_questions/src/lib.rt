//! The questions of the jobs of `docketctl` to the docket in files, each from the open to the last byte that
//! it writes. A job asks by one call, `ask_on_file`. Its contract says what is written, by what the files
//! held, and that they hold it still.
#![tactic(auto)]

mod calendar;
mod checking;
mod entering;
mod inquiry;
mod listing;
mod texts;

pub use calendar::CalendarLines;
pub use checking::{Judgment, Sound};
pub use inquiry::{Inquiry, ask_on_file};
pub use listing::Wanted;
pub use texts::TextOf;
