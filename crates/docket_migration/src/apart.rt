//! Whether a change of the court's table leaves every other as it is, by the schema alone.
ghost use Rattle.std.specs.Prelude.{◌≡◌};
ghost use Rattle.docket_migration.specs.Keeping.{has_courts_tree, is_court_apart, is_courts, refers_to_court};

use docket_tables::{Table, table_name};
use sqlite_schema::names::same_name;
use sqlite_schema::schema::{Schema, Table as Shape};

/// Whether the table has the name of the court's.
fn is_courts(table: &Shape) -> bool
    ensures { result ≡ is_courts table.now }
{
    same_name(table.name.as_slice(), table_name(Table::Court).as_bytes())
}

/// Whether a foreign key of the table refers to the court's.
fn refers_to_court(table: &Shape) -> bool
    ensures { result ≡ refers_to_court table.now }
{
    let name = table_name(Table::Court);
    table.references.as_slice().iter().any(|reference| same_name(
        reference.parent.as_slice(),
        name.as_bytes(),
    ))
}

/// Whether the tree of the table is that of the court's.
fn has_courts_tree(tables: &[Shape], table: &Shape) -> bool
    ensures { result ≡ has_courts_tree tables.now table.now }
{
    tables
        .iter()
        .any(|court| is_courts(court) && court.tree == table.tree)
}

/// Whether no foreign key refers to the court's table, and no other table has its tree.
pub fn is_court_apart(schema: &Schema) -> bool
    ensures { result ≡ is_court_apart schema.now }
{
    let tables = schema.tables.as_slice();
    tables.iter().all(|table| {
        !refers_to_court(table) && (is_courts(table) || !has_courts_tree(tables, table))
    })
}
