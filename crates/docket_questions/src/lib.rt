//! Questions to a docket, as values. Each has a definition of the text or the page that answers it, by the
//! history of the docket. One function asks it, and changes nothing.
#![tactic(auto)]

mod calendar;
mod cases;
mod court;
mod due_entries;
mod due_texts;
mod dues;
mod filing;
mod foreseeing;
mod found;
mod kept;
mod lists;
mod long_lines;
mod moving;
mod newest;
mod prospect;
mod question;
mod reasons;
mod search;
mod sheets;
mod telling;
mod why_page;
mod words;

pub use cases::{CaseText, DeadlinesText};
pub use court::{CourtCalendarText, CourtDaysPage, RulesPage, RulesText};
pub use dues::{DueDays, DueForm, Dues};
pub use foreseeing::foreseen;
pub use found::FoundCases;
pub use lists::CasesPage;
pub use prospect::Foreseen;
pub use question::Question;
pub use reasons::ReasonsText;
pub use search::SearchPage;
pub use sheets::{CasePage, CaseSheet};
pub use why_page::ReasonsPage;
pub use words::has_words;
