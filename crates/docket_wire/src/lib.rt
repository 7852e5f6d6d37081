//! Commands of the docket as JSON texts, and the texts of replies, refusals and faults.
#![tactic(auto)]

mod calendar_fields;
mod case_fields;
mod fault;
mod laws;
mod local_fields;
mod member;
mod motion_fields;
mod reading;
mod rows;
mod service_fields;
mod table;
mod texts;
mod time_fields;
mod writing;
mod written;

pub use fault::WireFault;
pub use laws::{
    canonical_texts_are_read_back, faults_are_told_in_order, texts_are_read_as_spelled,
};
pub use reading::read_command;
pub use texts::{reply_text, wire_fault_text};
pub use writing::command_text;
