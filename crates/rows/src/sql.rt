//! SQL on the file of a docket, as another program would execute it.
use crate::compare::text_difference;
use crate::script::Step;
use anyhow::{Error, anyhow};
use sqlite::types::ValueRef;
use sqlite::{Alter, Connection, Row};
use std::alloc::Global;
use std::str;

/// Appends a value. Scripts ask for integers and texts alone.
fn push_value(alloc: Global, value: ValueRef<'_>, to: &mut Vec<u8>) -> Result<(), Error> {
    match value {
        ValueRef::Null => Ok(()),
        ValueRef::Int(number) => {
            let text = format!(in alloc; "{number}")?;
            Ok(to.extend_from_slice(text.as_bytes())?)
        }
        ValueRef::Text(text) => Ok(to.extend_from_slice(text)?),
        ValueRef::Real(_) | ValueRef::Blob(_) => Err(anyhow!("no integer and no text")),
    }
}

/// Appends a line with the columns of a row.
fn push_row(alloc: Global, row: &Row, to: &mut Vec<u8>) -> Result<(), Error> {
    for place in 0..row.column_count() {
        if place > 0 {
            to.push(b'|')?;
        }
        push_value(alloc, row.get_ref(place)?, to)?;
    }
    Ok(to.push(b'\n')?)
}

fn selected<S: Alter>(
    alloc: Global,
    connection: &mut Connection<S>,
    sql: &str,
) -> Result<Vec<u8>, Error> {
    let mut written = Vec::new(alloc);
    for row in connection.query_all(sql, &[])? {
        push_row(alloc, &row, &mut written)?;
    }
    Ok(written)
}

/// What the SQL prints: the rows that it selects, or nothing.
fn executed<S: Alter>(
    alloc: Global,
    connection: &mut Connection<S>,
    sql: &str,
) -> Result<Vec<u8>, Error> {
    if sql.starts_with("SELECT") {
        return selected(alloc, connection, sql);
    }
    connection.execute_batch(sql)?;
    Ok(Vec::new(alloc))
}

fn executed_on_file(rt: &HostRuntime, path: &str, sql: &str) -> Result<Vec<u8>, Error> {
    let mut connection = Connection::open(rt, path)?;
    let printed = executed(rt.alloc(), &mut connection, sql);
    connection.close()?;
    printed
}

/// The first difference from the step's expected output.
pub(crate) fn sql_difference(
    rt: &HostRuntime,
    folder: &str,
    step: &Step,
) -> Result<Option<String>, Error> {
    let alloc = rt.alloc();
    let path = step.word(1).replace(alloc, "@", folder)?;
    let sql = str::from_utf8(&step.input).map_err(|_| anyhow!("the input is no text"))?;
    let came = executed_on_file(rt, &path, sql)?;
    Ok(text_difference(alloc, "output", &came, &step.wanted.output)?)
}
