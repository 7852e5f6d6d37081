//! Recognizing the tables of a docket by the schema alone.
ghost use Rattle.std.specs.Prelude.{◌≡◌, ◌↔◌, IsTrue};
ghost use Rattle.std.specs.List.{list_any};
ghost use Rattle.sqlite_schema.specs.Names.{same_name};
ghost use Rattle.docket_tables.specs.Recognition.{has_docket_table};
ghost use Rattle.docket_tables.specs.Tables.{layout_of};
ghost use Rattle.docket_tables.specs.Schema.{no_schema};

use crate::table::{TABLES, Table, table_name};
use sqlite_schema::names::same_name;
use sqlite_schema::schema::Schema;

fn is_table_name(name: &[u8], all: &[Table]) -> bool
    ensures { result ≡ list_any (λ table. same_name name.now (layout_of table).name) all.now }
{
    all.iter()
        .any(|table| same_name(name, table_name(*table).as_bytes()))
}

/// Whether a table has the name of one of a docket's. Names are compared without regard to ASCII case,
/// as SQL does.
pub fn has_docket_table(schema: &Schema) -> bool
    ensures { result ≡ has_docket_table schema.now }
{
    let tables = schema.tables.as_slice();
    tables
        .iter()
        .any(|table| is_table_name(table.name.as_slice(), &TABLES))
}

/// Whether the database has no table, no index and no view.
pub fn is_bare(schema: &Schema) -> bool
    ensures { IsTrue result ↔ (schema.now ≡ no_schema) }
{
    schema.tables.is_empty() && schema.indexes.is_empty() && schema.views.is_empty()
}
