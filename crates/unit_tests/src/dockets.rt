//! Dockets in memory, and commands to them.
use court_days::Court;
use docket_command::Command;
use docket_store::Docket;
use docket_wire::read_command;
use sqlite::{Connection, MemStore};
use std::alloc::Global;

pub(crate) type Database = Connection<MemStore>;

pub(crate) const OPEN_CASE: &str =
    r#"{"do":"open_case","key":"k1","label":"1:25-cv-00001","caption":"Roe v. Doe","filed":"2025-06-02"}"#;

pub(crate) const ADD_DOE: &str =
    r#"{"do":"add_party","key":"k2","case":1,"name":"Doe","role":"defendant"}"#;

pub(crate) const ADD_ROE: &str =
    r#"{"do":"add_party","key":"k3","case":1,"name":"Roe","role":"plaintiff"}"#;

/// Doe is to answer by 2025-07-07.
pub(crate) const SERVE_DOE: &str =
    r#"{"do":"serve_summons","key":"k4","case":1,"party":1,"basis":"private","served":"2025-06-13"}"#;

/// A court in New York.
pub(crate) fn court(alloc: Global) -> Option<Court> {
    Court::read(alloc, "EST5EDT,M3.2.0,M11.1.0", "17:00").ok()
}

/// A docket without any record.
pub(crate) fn new_docket(alloc: Global) -> Option<Docket<MemStore>> {
    let database = Connection::open_in_memory(alloc).ok()?;
    Docket::create(alloc, database, court(alloc)?).ok()
}

/// The command that a line spells.
pub(crate) fn command(alloc: Global, line: &str) -> Option<Command> {
    read_command(alloc, line.as_bytes()).ok()
}
