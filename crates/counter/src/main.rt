//! Answers the lines of `docketctl count` from standard input, as that program does, over five libraries alone:
//! so it is proved and built in a few minutes. The exit status is 0 where every line has an answer, 1 where a
//! line is bad or the calendar is full, and 3 where reading, writing or memory failed.
#![tactic(auto)]

use count_lines::count_run;
use std::process::ExitCode;

fn main(rt: HostRuntime) -> ExitCode {
    match count_run(rt.alloc(), &mut rt.stdin(), &mut rt.stdout()) {
        Ok(end) if end.bad == 0 => ExitCode::from(0),
        Ok(_) => ExitCode::from(1),
        Err(fault) => {
            let _ = eprintln!(rt; "docketctl: {fault}");
            ExitCode::from(3)
        }
    }
}
