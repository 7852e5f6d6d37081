//! The tables of the docket.
ghost use Rattle.std.specs.Prelude.{◌≡◌, map};
ghost use Rattle.docket_tables.specs.Tables.{layout_of};
ghost use Rattle.docket_tables.specs.Texts.{names_in};

/// A table of the docket.
#[derive(Clone, Copy)]
pub enum Table {
    /// The court of the docket, in one row.
    Court,
    /// The days and spans of the court's calendar.
    Calendar,
    Cases,
    Parties,
    Entries,
    Deadlines,
    Acts,
    Receipts,
    /// The ends of the deadlines whose time runs.
    Due,
    /// The days on which the office is scheduled to close earlier than the court closes.
    ShortDays,
    /// The court's local rules.
    LocalRules,
}

/// The tables, in the order in which they are made.
pub(crate) const TABLES: [Table; 11] = [
    Table::Court,
    Table::Calendar,
    Table::Cases,
    Table::Parties,
    Table::Entries,
    Table::Deadlines,
    Table::Acts,
    Table::Receipts,
    Table::Due,
    Table::ShortDays,
    Table::LocalRules,
];

/// The name of the table in SQL.
pub fn table_name(table: Table) -> &'static str
    ensures { result.now ≡ (layout_of table).name }
{
    match table {
        Table::Court => "court",
        Table::Calendar => "calendar",
        Table::Cases => "cases",
        Table::Parties => "party",
        Table::Entries => "entry",
        Table::Deadlines => "deadline",
        Table::Acts => "act",
        Table::Receipts => "receipt",
        Table::Due => "due",
        Table::ShortDays => "short_day",
        Table::LocalRules => "local_rule",
    }
}

/// The names of its columns, in their order.
pub fn table_columns(table: Table) -> &'static [&'static str]
    ensures { map (λ name. name.now) result.now ≡ names_in (layout_of table) }
{
    match table {
        Table::Court => &["id", "word", "version", "zone", "close", "next_row"],
        Table::Calendar => &["row_no", "kind", "a", "b", "name"],
        Table::Cases => &["number", "label", "caption", "filed"],
        Table::Parties => &["case_no", "number", "name", "role"],
        Table::Entries => &["case_no", "number", "day", "body"],
        Table::Deadlines => &["case_no", "number", "party", "rule", "initial"],
        Table::Acts => &[
            "case_no",
            "deadline_no",
            "number",
            "kind",
            "p1",
            "p2",
            "p3",
            "p4",
            "p5",
        ],
        Table::Receipts => &["command_key", "body", "reply"],
        Table::Due => &["case_no", "deadline_no", "day", "moment"],
        Table::ShortDays => &["row_no", "day", "close", "name"],
        Table::LocalRules => &["number", "name", "days", "direction", "three", "extendable"],
    }
}
