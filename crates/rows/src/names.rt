//! The names of the scripts to play.
use anyhow::Error;
use std::{env, fs};

/// The ending of a script's file.
pub(crate) const ENDING: &str = ".rows";

/// The words of the command line behind the program's name.
fn words(rt: &HostRuntime) -> Result<Vec<String>, Error> {
    Ok(env::args(rt)?.skip(1).collect(rt.alloc())?)
}

/// The scripts of the current folder, in order.
fn names_here(rt: &HostRuntime) -> Result<Vec<String>, Error> {
    let mut names = Vec::new(rt.alloc());
    for entry in fs::read_dir(rt, ".")? {
        let entry = entry?;
        if let Some(name) = entry.file_name().strip_suffix(ENDING) {
            names.push(String::from_str(rt.alloc(), name)?)?;
        }
    }
    names.sort()?;
    Ok(names)
}

/// The scripts that the words name, or all of the current folder.
pub(crate) fn script_names(rt: &HostRuntime) -> Result<Vec<String>, Error> {
    let names = words(rt)?;
    if names.is_empty() {
        return names_here(rt);
    }
    Ok(names)
}
