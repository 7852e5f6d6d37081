//! The texts of the statements.
ghost use Rattle.std.specs.Prelude.{◌≡◌};
ghost use Rattle.docket_tables.specs.Texts.{create_text, insert_text, scan_text};
ghost use Rattle.docket_tables.specs.Statements.{delete_text, delete_short_day_text, delete_end_text, move_end_text, count_text};

use crate::table::Table;

/// Makes the table.
pub fn create_text(table: Table) -> &'static str
    ensures { result.now ≡ create_text table }
{
    match table {
        Table::Court =>
            "CREATE TABLE court (id INTEGER PRIMARY KEY, word TEXT NOT NULL, version INTEGER NOT NULL, zone TEXT NOT NULL, close INTEGER NOT NULL, next_row INTEGER NOT NULL) STRICT",
        Table::Calendar =>
            "CREATE TABLE calendar (row_no INTEGER PRIMARY KEY, kind INTEGER NOT NULL, a INTEGER NOT NULL, b INTEGER NOT NULL, name TEXT NOT NULL, UNIQUE (kind, a, b)) STRICT",
        Table::Cases =>
            "CREATE TABLE cases (number INTEGER PRIMARY KEY, label TEXT NOT NULL UNIQUE, caption TEXT NOT NULL, filed INTEGER NOT NULL) STRICT",
        Table::Parties =>
            "CREATE TABLE party (case_no INTEGER NOT NULL, number INTEGER NOT NULL, name TEXT NOT NULL, role INTEGER NOT NULL, PRIMARY KEY (case_no, number), FOREIGN KEY (case_no) REFERENCES cases (number)) STRICT",
        Table::Entries =>
            "CREATE TABLE entry (case_no INTEGER NOT NULL, number INTEGER NOT NULL, day INTEGER NOT NULL, body TEXT NOT NULL, PRIMARY KEY (case_no, number), FOREIGN KEY (case_no) REFERENCES cases (number)) STRICT",
        Table::Deadlines =>
            "CREATE TABLE deadline (case_no INTEGER NOT NULL, number INTEGER NOT NULL, party INTEGER NOT NULL, rule TEXT NOT NULL, initial INTEGER NOT NULL, PRIMARY KEY (case_no, number), FOREIGN KEY (case_no) REFERENCES cases (number)) STRICT",
        Table::Acts =>
            "CREATE TABLE act (case_no INTEGER NOT NULL, deadline_no INTEGER NOT NULL, number INTEGER NOT NULL, kind INTEGER NOT NULL, p1 INTEGER NOT NULL, p2 INTEGER NOT NULL, p3 INTEGER NOT NULL, p4 INTEGER NOT NULL, p5 INTEGER NOT NULL, PRIMARY KEY (case_no, deadline_no, number), FOREIGN KEY (case_no, deadline_no) REFERENCES deadline (case_no, number)) STRICT",
        Table::Receipts =>
            "CREATE TABLE receipt (command_key TEXT NOT NULL PRIMARY KEY, body TEXT NOT NULL, reply INTEGER NOT NULL) STRICT",
        Table::Due =>
            "CREATE TABLE due (case_no INTEGER NOT NULL, deadline_no INTEGER NOT NULL, day INTEGER NOT NULL, moment INTEGER NOT NULL, PRIMARY KEY (case_no, deadline_no), UNIQUE (day, moment, case_no, deadline_no), FOREIGN KEY (case_no, deadline_no) REFERENCES deadline (case_no, number)) STRICT",
        Table::ShortDays =>
            "CREATE TABLE short_day (row_no INTEGER PRIMARY KEY, day INTEGER NOT NULL UNIQUE, close INTEGER NOT NULL, name TEXT NOT NULL) STRICT",
        Table::LocalRules =>
            "CREATE TABLE local_rule (number INTEGER PRIMARY KEY, name TEXT NOT NULL UNIQUE, days INTEGER NOT NULL, direction INTEGER NOT NULL, three INTEGER NOT NULL, extendable INTEGER NOT NULL) STRICT",
    }
}

/// Adds a row to the table.
pub(crate) fn insert_text(table: Table) -> &'static str
    ensures { result.now ≡ insert_text table }
{
    match table {
        Table::Court => {
            "INSERT INTO court (id, word, version, zone, close, next_row) VALUES (?1, ?2, ?3, ?4, ?5, ?6)"
        }
        Table::Calendar => {
            "INSERT INTO calendar (row_no, kind, a, b, name) VALUES (?1, ?2, ?3, ?4, ?5)"
        }
        Table::Cases => {
            "INSERT INTO cases (number, label, caption, filed) VALUES (?1, ?2, ?3, ?4)"
        }
        Table::Parties => {
            "INSERT INTO party (case_no, number, name, role) VALUES (?1, ?2, ?3, ?4)"
        }
        Table::Entries => {
            "INSERT INTO entry (case_no, number, day, body) VALUES (?1, ?2, ?3, ?4)"
        }
        Table::Deadlines => {
            "INSERT INTO deadline (case_no, number, party, rule, initial) VALUES (?1, ?2, ?3, ?4, ?5)"
        }
        Table::Acts => {
            "INSERT INTO act (case_no, deadline_no, number, kind, p1, p2, p3, p4, p5) VALUES (?1, ?2, ?3, ?4, ?5, ?6, ?7, ?8, ?9)"
        }
        Table::Receipts => { "INSERT INTO receipt (command_key, body, reply) VALUES (?1, ?2, ?3)" }
        Table::Due => {
            "INSERT INTO due (case_no, deadline_no, day, moment) VALUES (?1, ?2, ?3, ?4)"
        }
        Table::ShortDays => {
            "INSERT INTO short_day (row_no, day, close, name) VALUES (?1, ?2, ?3, ?4)"
        }
        Table::LocalRules => {
            "INSERT INTO local_rule (number, name, days, direction, three, extendable) VALUES (?1, ?2, ?3, ?4, ?5, ?6)"
        }
    }
}

/// Reads all rows of the table, in the order of its key.
pub fn scan_text(table: Table) -> &'static str
    ensures { result.now ≡ scan_text table }
{
    match table {
        Table::Court => "SELECT id, word, version, zone, close, next_row FROM court ORDER BY id",
        Table::Calendar => "SELECT row_no, kind, a, b, name FROM calendar ORDER BY row_no",
        Table::Cases => "SELECT number, label, caption, filed FROM cases ORDER BY number",
        Table::Parties => "SELECT case_no, number, name, role FROM party ORDER BY case_no, number",
        Table::Entries => "SELECT case_no, number, day, body FROM entry ORDER BY case_no, number",
        Table::Deadlines =>
            "SELECT case_no, number, party, rule, initial FROM deadline ORDER BY case_no, number",
        Table::Acts =>
            "SELECT case_no, deadline_no, number, kind, p1, p2, p3, p4, p5 FROM act ORDER BY case_no, deadline_no, number",
        Table::Receipts => "SELECT command_key, body, reply FROM receipt ORDER BY command_key",
        Table::Due =>
            "SELECT case_no, deadline_no, day, moment FROM due ORDER BY case_no, deadline_no",
        Table::ShortDays => "SELECT row_no, day, close, name FROM short_day ORDER BY row_no",
        Table::LocalRules =>
            "SELECT number, name, days, direction, three, extendable FROM local_rule ORDER BY number",
    }
}

/// Removes the day or span of a number from the calendar.
pub(crate) fn delete_text() -> &'static str
    ensures { result.now ≡ delete_text }
{
    "DELETE FROM calendar WHERE row_no = ?1"
}

/// Removes the short day of a number.
pub(crate) fn delete_short_day_text() -> &'static str
    ensures { result.now ≡ delete_short_day_text }
{
    "DELETE FROM short_day WHERE row_no = ?1"
}

/// Removes the end of a deadline of a case.
pub(crate) fn delete_end_text() -> &'static str
    ensures { result.now ≡ delete_end_text }
{
    "DELETE FROM due WHERE case_no = ?1 AND deadline_no = ?2"
}

/// Moves the end of a deadline of a case.
pub(crate) fn move_end_text() -> &'static str
    ensures { result.now ≡ move_end_text }
{
    "UPDATE due SET day = ?3, moment = ?4 WHERE case_no = ?1 AND deadline_no = ?2"
}

/// Adds one to the number of the next calendar row.
pub(crate) fn count_text() -> &'static str
    ensures { result.now ≡ count_text }
{
    "UPDATE court SET next_row = next_row + 1 WHERE id = 1"
}
