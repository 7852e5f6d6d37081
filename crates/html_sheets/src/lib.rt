//! The docket as pages of HTML: the list of cases, those that a search found, the docket sheet of a case,
//! what is due in a week or on other days, why a deadline stands as it does, and the rows of the court's
//! calendar. They have no script and load nothing from elsewhere, and a text of the docket is within them by
//! its characters alone, whatever it is.
//!
//! A page is its head, then the pieces of its content, and its foot. The pages of a docket that is served lead
//! to one another, and in print each has the day of its request at its end. Those of a list of cases and of a
//! case are made whole here, and that of some days up to its rows.
#![tactic(auto)]

mod about;
mod cases;
mod court;
mod due;
mod due_list;
mod entering;
mod escape;
mod exports;
mod filed;
mod laws;
mod links;
mod page;
mod piece;
mod rule_words;
mod search;
mod sheet;
mod site;
mod style;
mod text;
mod title;
mod week;

pub use about::About;
pub use court::court_days_page;
pub use due::{Due, day_of_clock};
pub use due_list::DueList;
pub use entering::EnterLink;
pub use escape::Escaped;
pub use exports::days_page_foot;
pub use filed::Filed;
pub use laws::{tags_are_the_pages_own, texts_are_no_markup, texts_are_read_back};
pub use links::Links;
pub use page::{page_foot, page_head};
pub use piece::LinesTold;
pub use rule_words::RuleText;
pub use search::search_page;
pub use sheet::{case_sheet, party_name};
pub use site::{case_page, cases_page, days_page_head, site_nav};
pub use text::{printed_page, reasons_page, text_page};
pub use title::title_of;
pub use week::{due_head, due_row, named_row};
