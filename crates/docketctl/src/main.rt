//! `docketctl`: the civil docket of a United States district court, with filing deadlines computed
//! under the Federal Rules of Civil Procedure.
#![tactic(auto)]

use docket_jobs::read_job;
use job_runs::{Progress, fail_unread, finish, run_job};
use sqlite::Unknown;
use std::io::{IsTerminal, Stderr};
use std::process::ExitCode;
use std::{env, fs, io};

/// Whether the input is a file, and no pipe or terminal.
fn input_is_a_file(rt: &HostRuntime) -> bool {
    match fs::metadata(rt, "/dev/stdin") {
        Ok(input) => input.is_file(),
        Err(_) => false,
    }
}

/// A job shows its progress on standard error, if that is a terminal. A run does so only if its answers go
/// elsewhere, and its lines come from a file, as fast as they are answered.
fn progress(rt: &HostRuntime) -> Progress<Stderr> {
    if !rt.stderr().is_terminal() {
        return Progress::untold();
    }
    let is_shown = rt.stdout().is_terminal() || !input_is_a_file(rt);
    Progress {
        of_opening: Some(rt.stderr()),
        of_answers: if is_shown { None } else { Some(rt.stderr()) },
    }
}

/// Does what the words after the program's name ask for, and returns the exit status.
fn run(rt: &HostRuntime) -> io::Result<u8> {
    let words: Vec<String> = env::args(rt)?.collect(rt.alloc())?;
    let mut e = rt.stderr();
    let (end, mut w) = match read_job(rt.alloc(), words.as_slice()) {
        Ok(job) => {
            let mut r = rt.stdin();
            let (end, w) = run_job(rt, Unknown, job, progress(rt), &mut r, rt.stdout(), &mut e);
            (Ok(end), w)
        }
        Err(error) => (Err(error), rt.stdout()),
    };
    Ok(finish(rt.alloc(), end, &mut w, &mut e))
}

fn main(rt: HostRuntime) -> ExitCode {
    let code = match run(&rt) {
        Ok(code) => code,
        Err(fault) => fail_unread(rt.alloc(), &fault, &mut rt.stderr()),
    };
    ExitCode::from(code)
}
