//! Sessions: commands in order on the docket that a database holds.
use crate::dockets::{ADD_DOE, ADD_ROE, OPEN_CASE, SERVE_DOE, command, new_docket};
use docket_command::Command;
use docket_store::{AdoptFault, Returned, SessionEnd, session};
use docket_wire::reply_text;
use sqlite::{Connection, MemStore};
use std::alloc::Global;
use std::test::Fail;

/// A case with the label of case 1.
const OPEN_AGAIN: &str =
    r#"{"do":"open_case","key":"k5","label":"1:25-cv-00001","caption":"Roe v. Poe","filed":"2025-06-02"}"#;

/// Another party under the key of `ADD_DOE`.
const ADD_POE: &str = r#"{"do":"add_party","key":"k2","case":1,"name":"Poe","role":"defendant"}"#;

/// Commands and their replies and refusals. A repeat has the reply that it had, and adds no party.
const STEPS: [(&str, &str); 7] = [
    (OPEN_CASE, r#"{"number":1}"#),
    (ADD_DOE, r#"{"number":1}"#),
    (OPEN_AGAIN, r#"{"name":"Exists","refused":8}"#),
    (ADD_DOE, r#"{"number":1}"#),
    (ADD_POE, r#"{"name":"KeyReused","refused":2}"#),
    (ADD_ROE, r#"{"number":2}"#),
    (SERVE_DOE, r#"{"number":1}"#),
];

fn commands(alloc: Global) -> Option<Vec<Command>> {
    let mut commands = Vec::new(alloc);
    for (line, _) in STEPS {
        commands.push(command(alloc, line)?).ok()?;
    }
    Some(commands)
}

/// How a session of all the commands on a new docket ends.
fn played(alloc: Global) -> Option<SessionEnd<MemStore>> {
    let commands = commands(alloc)?;
    let database = new_docket(alloc)?.close();
    session(alloc, database, commands.as_slice()).ok()
}

#[test]
fn a_session_goes_on_after_a_refusal(rt: HostRuntime) -> Result<(), Fail> {
    let end = played(rt.alloc()).ok_or("no session")?;
    assert!(rt; end.stopped_at.is_none());
    assert_eq!(rt; end.replies.len(), STEPS.len());
    for (reply, (line, wanted)) in end.replies.iter().zip(&STEPS) {
        let text = reply_text(rt.alloc(), reply)?;
        assert!(rt; text.as_str() == *wanted, "{line}");
    }
    Ok(())
}

#[test]
fn an_empty_database_has_no_docket(rt: HostRuntime) -> Result<(), Fail> {
    let database = Connection::open_in_memory(rt.alloc())?;
    let ended = session(rt.alloc(), database, &[]);
    let Err(Returned { fault, .. }) = ended else {
        return Err(Fail::new("a docket was adopted"));
    };
    assert!(rt; matches!(fault, AdoptFault::Empty));
    Ok(())
}
