//! The tables of a docket in one SQLite database: the schema, the statements, the questions, and the
//! changes of typed rows.
//!
//! `is_bare` and `has_docket_table` return by a schema whether the tables are there. `make` makes them, in
//! one transaction. The questions read them outside a transaction, and those of `inside` within one; there
//! `change_with_receipt` and `change_ends` change rows, which stand once the transaction is committed.
//! `fault_of` returns why a question or a transaction failed. Every call works over any store of `sqlite`. A
//! contract sees a connection as the rows that it holds, in each database that a power failure may leave
//! (`HoldsRows`). It sees a step of a transaction as the rows that it saw and sees then (`Inside`). A
//! question fails of the store only for a cause (`IsCaused`): the disk failed or refused more often than
//! before, memory ran out, or a query reached a step limit. So does the making of the tables
//! (`HasMakingCause`) on a connection that is open. Changes whose added rows may all stand (`MayStand`) fail
//! only for such a cause, or if no hidden rowid was left (`HasChangeCause`). A row may stand if no other has
//! its key, or a value that must be unique, and its parents stand.
#![tactic(auto)]

mod changing;
mod creation;
mod fault;
pub mod inside;
mod laws;
mod probe;
mod query;
mod reading;
mod recognition;
mod rows;
mod statement;
mod store;
mod table;

pub use changing::{change_ends, change_with_receipt};
pub use creation::{make, undone_fault};
pub use fault::{ReadFault, StoreFault};
pub use laws::{commands_keep_docket_rows, dockets_are_recognized};
pub use probe::fault_of;
pub use reading::{
    acts_of_case, acts_of_deadline, calendar, case, case_labelled, cases, count_deadlines,
    count_entries, count_local_rules, count_parties, court, deadline, deadlines, ends_of_case,
    entries, is_label_taken, is_row_standing, local_rule, local_rules, parties, under_key,
};
pub use recognition::{has_docket_table, is_bare};
pub use statement::{create_text, scan_text};
pub use table::{Table, table_columns, table_name};
