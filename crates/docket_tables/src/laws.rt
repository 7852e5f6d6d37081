//! Laws of the definitions of specs/, with nothing to run.
ghost use Rattle.std.specs.Prelude.{◌≡◌, ◌++◌, ◌∷◌, [], ℕ, List, true, false};
ghost use Rattle.court_days.specs.Court.{CourtSettings};
ghost use Rattle.docket_command.specs.declared.command.Command.{Command};
ghost use Rattle.docket_command.specs.declared.refusal.Reply.{Reply};
ghost use Rattle.docket_decisions.specs.Tables.{Tables, all_changed, with_receipt};
ghost use Rattle.docket_decisions.specs.declared.end_row.StoredEnd.{StoredEnd};
ghost use Rattle.docket_history.specs.declared.row.Change.{Change};
ghost use Rattle.docket_columns.specs.Cells.{receipt_cells};
ghost use Rattle.docket_tables.specs.AnyRows.{AreDocketRows, next_after_all, recorded, with_stored};
ghost use Rattle.docket_tables.specs.Contents.{rows_with};
ghost use Rattle.docket_tables.specs.Layouts.{Rows};
ghost use Rattle.docket_tables.specs.Recognition.{has_docket_table};
ghost use Rattle.docket_tables.specs.Schema.{docket_schema, no_schema};
ghost use Rattle.docket_tables.specs.declared.table.Table.{Table};
ghost use Rattle.docket_tables.specs.declared.table.Table.TheVariants as table;

/// A docket's tables are recognized: the schema of a docket has a table of one of their names, and a
/// database without any table has none.
pub fn dockets_are_recognized()
    ensures named { has_docket_table docket_schema ≡ true }
    ensures none { has_docket_table no_schema ≡ false }
{}

/// A command makes rows of a docket from any rows of a docket, with one more receipt behind the others. From
/// the rows of a history's tables it makes the tables that the history has next.
pub fn commands_keep_docket_rows()
    ensures kept { (court : CourtSettings) (n : ℕ) (stored next : List StoredEnd) (rows : Rows) (command : Command) (reply : Reply) (changes : List Change) → AreDocketRows court n stored rows
        → AreDocketRows court (next_after_all changes n) next (with_stored next (recorded court n command reply changes rows)) }
    ensures one_more { (court : CourtSettings) (n : ℕ) (next : List StoredEnd) (rows : Rows) (command : Command) (reply : Reply) (changes : List Change)
        → with_stored next (recorded court n command reply changes rows) table.Receipts ≡ rows table.Receipts ++ receipt_cells (record { command = command; reply = reply }) ∷ [] }
    ensures tables { (court : CourtSettings) (t : Tables) (stored : List StoredEnd) (command : Command) (reply : Reply) (changes : List Change) (of : Table)
        → recorded court t.next_row command reply changes (rows_with court t stored) of ≡ rows_with court (with_receipt command reply (all_changed changes t)) stored of }
{}
