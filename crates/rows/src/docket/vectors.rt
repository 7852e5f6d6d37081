//! A docket in vectors, the reference.
use crate::docket::Asked;
use anyhow::{Error, anyhow};
use court_days::{Court, Day, End};
use docket_command::{Command, Refusal, Reply};
use docket_decisions::DecideFault;
use docket_history::{DeadlineLine, DueRow};
use docket_plain::Plain;
use docket_text::{calendar_text, case_text, due_rows, sort_calendar};
use std::alloc::{AllocError, Global};

/// The first and the last instant whose local time a court can show, in seconds since 1970-01-01T00:00Z.
const INSTANTS: (i64, i64) = (315_705_600, 64_060_329_600);

/// No docket of a script has a case with a higher number.
const LAST_CASE: u32 = 1000;

#[derive(Drop)]
pub(super) struct Vectors {
    alloc: Global,
    docket: Plain,
    court: Court,
}

/// Whether the end is on one of the days.
fn is_between(court: &Court, end: End, from: Day, until: Day) -> bool {
    let day = match end {
        End::LastDay(day) => day,
        End::Moment(at) if at >= INSTANTS.0 && at <= INSTANTS.1 => court.local(at).0,
        End::Moment(_) => return false,
    };
    from.number() <= day.number() && day.number() <= until.number()
}

impl Vectors {
    /// A docket without any record, and its court once more, for its texts.
    pub(super) fn new(alloc: Global, court: Court, own: Court) -> Vectors {
        Vectors {
            alloc,
            docket: Plain::new(alloc, own),
            court,
        }
    }

    /// Adds the rows of a case's deadlines whose time runs to one of the days.
    fn push_rows(
        &self,
        number: u32,
        lines: &[DeadlineLine],
        (from, until): (Day, Day),
        rows: &mut Vec<DueRow>,
    ) -> Result<(), AllocError> {
        for row in due_rows(self.alloc, number, lines)? {
            if is_between(&self.court, row.end, from, until) {
                rows.push(row)?;
            }
        }
        Ok(())
    }

    fn rows_between(&self, from: Day, until: Day) -> Result<Vec<DueRow>, AllocError> {
        let mut rows = Vec::new(self.alloc);
        for number in 1..=LAST_CASE {
            let Some(lines) = self.docket.deadlines(number)? else {
                break;
            };
            self.push_rows(number, &lines, (from, until), &mut rows)?;
        }
        Ok(rows)
    }
}

impl Asked for Vectors {
    fn reply(&mut self, command: &Command) -> Result<Result<Reply, Refusal>, Error> {
        match self.docket.apply(command) {
            Ok(reply) => Ok(Ok(reply)),
            Err(DecideFault::Refused(refusal)) => Ok(Err(refusal)),
            Err(DecideFault::NoMemory) => Err(anyhow!("there is not enough memory")),
        }
    }

    fn push_case(&mut self, number: u32, to: &mut Vec<u8>) -> Result<(), Error> {
        let (found, lines) = (self.docket.case(number)?, self.docket.deadlines(number)?);
        let (Some(case), Some(lines)) = (found, lines) else {
            return Ok(());
        };
        let text = case_text(self.alloc, &self.court, &case, &lines)?;
        Ok(to.extend_from_slice(text.as_bytes())?)
    }

    fn push_calendar(&mut self, from: Day, until: Day, to: &mut Vec<u8>) -> Result<(), Error> {
        let mut rows = self.rows_between(from, until)?;
        sort_calendar(&self.court, &mut rows);
        let text = calendar_text(self.alloc, &self.court, &rows)?;
        Ok(to.extend_from_slice(text.as_bytes())?)
    }
}
