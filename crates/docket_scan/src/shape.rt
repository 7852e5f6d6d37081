//! Whether a table is there, by the schema.
ghost use Rattle.std.specs.Prelude.{◌≡◌};
ghost use Rattle.std.specs.List.{list_all};
ghost use Rattle.sqlite_schema.specs.Names.{same_name};
ghost use Rattle.docket_scan.specs.Shapes.{columns_of, has_column, has_columns, has_named, has_table};

use docket_tables::{Table, table_columns, table_name};
use sqlite_schema::names::same_name;
use sqlite_schema::schema::{Column, Schema};

/// Whether one of the columns has the name.
fn has_column(columns: &[Column], name: &str) -> bool
    ensures { result ≡ has_column columns.now name.now }
{
    columns.iter().any(|column| same_name(column.name.as_slice(), name.as_bytes()))
}

/// Whether there is a column of each of these names.
fn has_each(columns: &[Column], names: &[&str]) -> bool
    ensures { result ≡ list_all (λ name. has_column columns.now name.now) names.now }
{
    names.iter().all(|name| has_column(columns, name))
}

/// Whether the columns of the table are all among these.
fn has_columns(columns: &[Column], table: Table) -> bool
    ensures { result ≡ has_columns columns.now (columns_of table) }
{
    has_each(columns, table_columns(table))
}

/// Whether there is a table of that name. Names are compared without regard to ASCII case, as SQL does.
pub fn has_named(schema: &Schema, table: Table) -> bool
    ensures { result ≡ has_named schema.now table }
{
    let tables = schema.tables.as_slice();
    let name = table_name(table);
    tables
        .iter()
        .any(|found| same_name(found.name.as_slice(), name.as_bytes()))
}

/// Whether there is a table of that name with its columns, in any order and beside any others. Names
/// are compared without regard to ASCII case, as SQL does.
pub fn has_table(schema: &Schema, table: Table) -> bool
    ensures { result ≡ has_table schema.now table }
{
    let tables = schema.tables.as_slice();
    let name = table_name(table);
    tables.iter().any(|found| {
        same_name(found.name.as_slice(), name.as_bytes())
            && has_columns(found.columns.as_slice(), table)
    })
}
