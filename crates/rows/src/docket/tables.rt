//! A docket in SQLite's tables in memory.
use crate::docket::Asked;
use anyhow::{Error, anyhow};
use court_days::{Court, Day};
use docket_command::{Command, Refusal, Reply};
use docket_store::{Docket, Fault, Returned};
use docket_text::case_text;
use sqlite::{Connection, MemStore};
use std::alloc::Global;

/// A docket of the court, without any record.
pub(crate) fn created(alloc: Global, court: Court) -> Result<Docket<MemStore>, Error> {
    let connection = Connection::open_in_memory(alloc)?;
    match Docket::create(alloc, connection, court) {
        Ok(docket) => Ok(docket),
        Err(Returned { fault, .. }) => Err(anyhow!("{fault}")),
    }
}

pub(super) struct Tables {
    alloc: Global,
    docket: Docket<MemStore>,
}

impl Tables {
    pub(super) fn new(alloc: Global, court: Court) -> Result<Tables, Error> {
        Ok(Tables {
            alloc,
            docket: created(alloc, court)?,
        })
    }

    pub(super) fn close(self) {
        let Tables { alloc: _, docket } = self;
        let _ = docket.close();
    }
}

impl Asked for Tables {
    fn reply(&mut self, command: &Command) -> Result<Result<Reply, Refusal>, Error> {
        match self.docket.apply(command) {
            Ok(reply) => Ok(Ok(reply)),
            Err(Fault::Refused(refusal)) => Ok(Err(refusal)),
            Err(fault) => Err(anyhow!("{fault}")),
        }
    }

    fn push_case(&mut self, number: u32, to: &mut Vec<u8>) -> Result<(), Error> {
        let found = self
            .docket
            .case(number)
            .map_err(|fault| anyhow!("{fault}"))?;
        let lines = self
            .docket
            .deadlines(number)
            .map_err(|fault| anyhow!("{fault}"))?;
        let (Some(case), Some(lines)) = (found, lines) else {
            return Ok(());
        };
        let text = case_text(self.alloc, self.docket.court(), &case, &lines)?;
        Ok(to.extend_from_slice(text.as_bytes())?)
    }

    fn push_calendar(&mut self, from: Day, until: Day, to: &mut Vec<u8>) -> Result<(), Error> {
        match self.docket.calendar(from, until, to) {
            Ok(_) => Ok(()),
            Err(_) => Err(anyhow!("the calendar broke off")),
        }
    }
}
