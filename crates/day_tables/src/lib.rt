//! Tables of days to be entered in the court's calendar, as comma-separated values.
#![tactic(auto)]

mod calendar_csv;
mod csv_fault;

pub use calendar_csv::read_calendar_csv;
pub use csv_fault::CsvFault;
