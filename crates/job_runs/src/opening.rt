//! The file that a job works on, before it is opened.
ghost use Rattle.std.specs.Prelude.{◌≡◌, IfErr, OnErr, OnOk};
ghost use Rattle.job_ends.specs.Ends.{SaysUnopened};

use crate::progress::RowCounter;
use job_ends::{AtPath, Status, failed, test_file};
use std::fs;
use std::io::Write;

/// The megabytes from which a file takes more than a second to open.
const LARGE_FILE: u64 = 8;

/// Prints that a large file is being opened. That takes seconds, in which nothing is counted.
fn tell_opening<P: Write>(rt: &HostRuntime, path: &str, screen: &mut P) {
    let Ok(file) = fs::metadata(rt, path) else {
        return;
    };
    let megabytes = file.len() / 1_000_000;
    if megabytes >= LARGE_FILE {
        let _ = write!(screen, "opening {path:?}, {megabytes} MB\n");
    }
}

/// Tests the file that a job is to open, and returns a counter of the rows that will be read from it. Where
/// it can't be opened, prints why.
pub(crate) fn ready<'a, P: Write + Drop, E: Write>(
    rt: &'a HostRuntime,
    path: &str,
    mut screen: Option<P>,
    e: &mut E,
) -> Result<RowCounter<&'a HostRuntime, P>, Status>
    ensures failed { IfErr result (λ status. status ≡ Status.Failed) }
    ensures said { OnErr result (SaysUnopened path.now (E.contents e.old) (E.contents e.new)) }
    ensures silent { OnOk result (e.new ≡ e.old) }
{
    if let Some(screen) = &mut screen {
        tell_opening(rt, path, screen);
    }
    match test_file(rt, path) {
        Ok(()) => Ok(RowCounter::new(rt, screen)),
        Err(fault) => Err(failed(rt.alloc(), e, &AtPath { path, fault })),
    }
}
