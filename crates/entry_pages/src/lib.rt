//! The pages on which a clerk enters commands: the kinds of commands, and the form of each kind, filled in and
//! with what was said of it when it was sent before. They have no script, and a text that was entered is within
//! them by its characters alone.
//!
//! A form has exactly the fields of its kind, in the order of the one table. What it sends is read by
//! `command_forms`. Its first button enters the command, and its second shows what the command would do.
//!
//! Beside them, in lines for a terminal: the kinds, the fields of each with an example, and why a command was not
//! entered.
#![tactic(auto)]

mod choice;
mod command_list;
mod control;
mod example;
mod field;
mod form;
mod hint;
mod kinds;
mod label;
mod laws;
mod limit;
mod page;
mod pair;
mod said;
mod sentence;
mod value_form;

pub use command_list::commands_text;
pub use label::label_of;
pub use laws::examples_are_commands;
pub use page::{entry_page, form_again, kinds_page};
pub use pair::about_pairs;
pub use said::Said;
pub use sentence::{fault_line, refusal_line};
