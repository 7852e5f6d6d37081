//! A script, played step by step in a folder of its own.
use crate::compare::text_difference;
use crate::docket::docket_difference;
use crate::http::http_difference;
use crate::job::job_difference;
use crate::names::ENDING;
use crate::script::{Step, read_script};
use crate::sql::sql_difference;
use crate::sweep::sweep_difference;
use anyhow::{Error, anyhow};
use docket_wire::{command_text, read_command, wire_fault_text};
use std::alloc::{AllocError, Global};
use std::{env, fs, process};

/// The canonical text of the command on the line, or the text of the line's fault.
fn canonical(alloc: Global, line: &[u8]) -> Result<String, AllocError> {
    match read_command(alloc, line) {
        Ok(command) => command_text(alloc, &command),
        Err(fault) => wire_fault_text(alloc, &fault),
    }
}

/// The first difference from the expected canonical texts, one for each line.
fn texts_difference(alloc: Global, step: &Step) -> Result<Option<String>, Error> {
    let mut texts = Vec::new(alloc);
    for line in step.input.split_inclusive(|byte| *byte == b'\n') {
        texts.extend_from_slice(canonical(alloc, line)?.as_bytes())?;
        texts.push(b'\n')?;
    }
    Ok(text_difference(alloc, "output", &texts, &step.wanted.output)?)
}

/// The first difference from the step's expected output, if there is one.
fn step_difference(rt: &HostRuntime, folder: &str, step: Step) -> Result<Option<String>, Error> {
    match step.word(0) {
        "docketctl" => job_difference(rt, folder, step),
        "docket" => docket_difference(rt.alloc(), &step),
        "http" => http_difference(rt.alloc(), &step),
        "sql" => sql_difference(rt, folder, &step),
        "texts" => texts_difference(rt.alloc(), &step),
        "stops" | "session" | "migration" => sweep_difference(rt, &step),
        kind => Err(anyhow!("there is no step {kind}")),
    }
}

/// A new folder for the files of a script.
fn new_folder(rt: &HostRuntime, name: &str) -> Result<String, Error> {
    let parent = env::temp_dir(rt)?;
    let id = process::id(rt.process());
    let folder = format!(in rt.alloc(); "{}/{name}-{id}", parent.as_str())?;
    fs::create_dir(rt, folder.as_str())?;
    Ok(folder)
}

/// Plays the steps in order up to the first with a difference. Returns the difference, if there is one.
fn steps_difference(
    rt: &HostRuntime,
    folder: &str,
    steps: Vec<Step>,
) -> Result<Option<String>, Error> {
    for step in steps {
        let line = step.line;
        let found = match step_difference(rt, folder, step) {
            Ok(found) => found,
            Err(fault) => Some(format!(in rt.alloc(); "{fault}")?),
        };
        if let Some(text) = found {
            return Ok(Some(format!(in rt.alloc(); "line {line}: {text}")?));
        }
    }
    Ok(None)
}

/// Plays the script, and prints how many steps it has, or the difference. Returns whether there was none.
pub(crate) fn play_script(rt: &HostRuntime, name: &str) -> Result<bool, Error> {
    let path = format!(in rt.alloc(); "{name}{ENDING}")?;
    let steps = read_script(rt, &fs::read_to_string(rt, path.as_str())?)?;
    let count = steps.len();
    let folder = new_folder(rt, name)?;
    let found = steps_difference(rt, &folder, steps);
    fs::remove_dir_all(rt, folder.as_str())?;
    match found? {
        Some(text) => {
            println!(rt; "{name}: {text}")?;
            Ok(false)
        }
        None => {
            println!(rt; "{name}: {count} steps")?;
            Ok(true)
        }
    }
}
