//! What is left of a database that is refused, and of a docket after a write that fails.
use crate::dockets::{
    ADD_DOE, ADD_ROE, Database, OPEN_CASE, SERVE_DOE, command, court, new_docket,
};
use crate::streams::Limited;
use court_days::read_day;
use docket_store::{AdoptFault, CreateFault, Docket, ListingEnd};
use sqlite::{Alter, Connection, MemStore};
use std::alloc::Global;
use std::test::Fail;

/// Why no docket is made in the database, and the database.
fn create_fault(alloc: Global, database: Database) -> Option<(CreateFault, Database)> {
    match Docket::create(alloc, database, court(alloc)?) {
        Ok(_) => None,
        Err(returned) => Some((returned.fault, returned.connection)),
    }
}

/// Why the database is not adopted, and the database.
fn adopt_fault(alloc: Global, database: Database) -> Option<(AdoptFault, Database)> {
    match Docket::adopt(alloc, database) {
        Ok(_) => None,
        Err(returned) => Some((returned.fault, returned.connection)),
    }
}

#[test]
fn open_transactions_are_left_open(rt: HostRuntime) -> Result<(), Fail> {
    let mut empty = Connection::open_in_memory(rt.alloc())?;
    empty.execute_batch("BEGIN")?;
    let (fault, empty) = create_fault(rt.alloc(), empty).ok_or("made")?;
    assert!(rt; matches!(fault, CreateFault::StoreFailed) && !empty.is_autocommit());
    let mut kept = new_docket(rt.alloc()).ok_or("no docket")?.close();
    kept.execute_batch("BEGIN")?;
    let (fault, kept) = adopt_fault(rt.alloc(), kept).ok_or("adopted")?;
    assert!(rt; matches!(fault, AdoptFault::StoreFailed) && !kept.is_autocommit());
    Ok(())
}

/// A table that is none of a docket's, and a row of it.
const NOTES: &str =
    "CREATE TABLE note (id INTEGER PRIMARY KEY, body TEXT NOT NULL) STRICT; INSERT INTO note (id, body) VALUES (7, 'Roe')";

#[test]
fn other_tables_are_left_alone(rt: HostRuntime) -> Result<(), Fail> {
    let mut database = Connection::open_in_memory(rt.alloc())?;
    database.execute_batch(NOTES)?;
    let (fault, database) = adopt_fault(rt.alloc(), database).ok_or("adopted")?;
    assert!(rt; matches!(fault, AdoptFault::Empty));
    let (fault, mut database) = create_fault(rt.alloc(), database).ok_or("made")?;
    assert!(rt; matches!(fault, CreateFault::StoreFailed));
    assert!(rt; database.schema().tables.len() == 1);
    let note = database.query_row("SELECT id FROM note WHERE body = 'Roe'", &[])?;
    assert!(rt; note.get(0) == Ok(7i64));
    Ok(())
}

/// The number in the reply to the command that a line spells.
fn applied<S: Alter>(alloc: Global, docket: &mut Docket<S>, line: &str) -> Option<u32> {
    let command = command(alloc, line)?;
    let reply = docket.apply(&command).ok()?;
    Some(reply.number)
}

/// Roe is to answer a counterclaim by 2025-11-28.
const COUNTERCLAIM: &str =
    r#"{"do":"serve_pleading","key":"k5","case":1,"party":2,"kind":"counterclaim","basis":"private","served":"2025-11-01","method":"C"}"#;

/// A motion of Doe is due on 2025-11-28, and the affidavit of Roe on 2025-12-05.
const HEARING: &str =
    r#"{"do":"notice_hearing","key":"k6","case":1,"party":1,"opponent":2,"hearing":"2025-12-12"}"#;

/// A docket with three deadlines.
fn docket_with_deadlines(alloc: Global) -> Option<Docket<MemStore>> {
    let mut docket = new_docket(alloc)?;
    for line in [OPEN_CASE, ADD_DOE, ADD_ROE, COUNTERCLAIM, HEARING] {
        applied(alloc, &mut docket, line)?;
    }
    Some(docket)
}

/// The calendar of the end of the year behind a line.
const LISTED: &str = "\
Due
2025-11-28 24:00 17:00       1    1 12(a)(1)(B)         2
2025-11-28 24:00 17:00       1    2 6(c)(1)             1
2025-12-05 24:00 17:00       1    3 6(c)(2)             2
end 3
";

/// Whether the calendar fills the room, and the write behind it fails.
fn is_cut_off<S: Alter>(alloc: Global, docket: &mut Docket<S>, room: usize) -> Option<bool> {
    let (from, to) = (read_day(b"2025-11-01")?, read_day(b"2025-12-31")?);
    let written = LISTED.as_bytes().get(..room)?;
    let taken = Vec::new(alloc);
    let mut writer = Limited { taken, room };
    let listed = docket.calendar_after(b"Due\n", from, to, &mut writer);
    let is_failure = matches!(listed, Err(ListingEnd::WriteFailed));
    Some(is_failure && writer.taken.as_slice() == written)
}

#[test]
fn failing_writers_leave_the_docket(rt: HostRuntime) -> Result<(), Fail> {
    let mut docket = docket_with_deadlines(rt.alloc()).ok_or("no docket")?;
    for room in 0..LISTED.len() {
        let is_cut_off = is_cut_off(rt.alloc(), &mut docket, room);
        assert!(rt; is_cut_off == Some(true), "room for {room}");
    }
    assert!(rt; applied(rt.alloc(), &mut docket, SERVE_DOE) == Some(4));
    Ok(())
}
