//! Plays scripts of text, and compares the whole output of each step with what the script says:
//!
//!     rows
//!     rows NAME..
//!
//! With no word it plays every script NAME.rows of the current folder, in the order of their names, else
//! those of these names. It prints a line for each script, and exits with 1 where a step's output differs.
//! The scripts are in ../data; `script` describes their form.
#![tactic(auto)]

mod compare;
mod docket;
mod http;
mod job;
mod names;
mod play;
mod script;
mod sql;
mod streams;
mod sweep;

use anyhow::Error;
use names::script_names;
use play::play_script;
use std::process::ExitCode;

/// Plays the scripts, and returns whether all outputs were as the scripts say.
fn play_all(rt: &HostRuntime) -> Result<bool, Error> {
    let mut all = true;
    for name in script_names(rt)? {
        all &= play_script(rt, name.as_str())?;
    }
    Ok(all)
}

fn main(rt: HostRuntime) -> Result<ExitCode, Error> {
    Ok(if play_all(&rt)? {
        ExitCode::SUCCESS
    } else {
        ExitCode::FAILURE
    })
}
