//! Stops at each call of each of two disks in memory.
use crate::compare::text_difference;
use crate::script::Step;
use anyhow::Error;
use std::alloc::Global;
use stopped_runs::{EACH_LOG, SHORT_LOG, Tally, migrations, sessions, stopped};

/// What the step prints, and how many stops there were. `stops thorough` also stops runs that copy nothing from
/// the log into the database.
fn swept(alloc: Global, step: &Step) -> Result<(Vec<u8>, Tally), Error> {
    match step.word(0) {
        "session" => sessions(alloc, &step.input),
        "migration" => migrations(alloc, &step.input),
        _ if step.word(1) == "thorough" => stopped(alloc, &step.input, &EACH_LOG),
        _ => stopped(alloc, &step.input, &SHORT_LOG),
    }
}

/// The first difference from the step's expected output. Prints how many stops there were on standard
/// error.
pub(crate) fn sweep_difference(rt: &HostRuntime, step: &Step) -> Result<Option<String>, Error> {
    let (came, tally) = swept(rt.alloc(), step)?;
    eprintln!(rt; "{}, line {}: {tally}", step.word(0), step.line)?;
    Ok(text_difference(rt.alloc(), "output", &came, &step.wanted.output)?)
}
