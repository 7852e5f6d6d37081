//! The outcome of a job on files, or why it was not done.
ghost use Rattle.std.specs.Prelude.{◌≡◌, Ok, None, Some, IfErr, IfOk, IsErr, IsOkAnd, MatchResult, OnOk};
ghost use Rattle.std.specs.Cow.{cow_str_bytes};
ghost use Rattle.job_ends.specs.Ends.{SaysFault, SaysUnopened, TellsNothing, shown_at};

use crate::end::JobEnd;
use crate::fault::{Shown, Told};
use crate::file::FileFault;
use crate::messages::failed;
use file_dockets::{Ended, OnFile};
use sqlite::{FileFrom, Leftover, Start};
use std::alloc::Global;
use std::fmt;
use std::io::Write;

/// A fault of the file at a path, as it is printed.
#[derive(Drop)]
pub struct AtPath<'a, F> {
    pub path: &'a str,
    pub fault: F,
}

impl<F: fmt::Display> fmt::Display for AtPath<'_, F> {
    ghost use Rattle.job_ends.specs.Ends.{shown_at};

    ghost output = { λ it. shown_at it.path.now (F.output it.fault) };

    fn fmt<W: fmt::Write>(&self, f: &mut fmt::Formatter<W>) -> fmt::Result {
        write!(f, "{:?}: {}", self.path, self.fault)
    }
}

/// Returns the outcome of a work on the docket in the files at a path, and what is left of them. Where it was
/// not done, prints why and returns how the job ends.
pub fn done_on_docket<S: Start, T, F: Told + Drop, E: Write>(
    alloc: Global,
    path: &str,
    ended: OnFile<S, T, F>,
    e: &mut E,
) -> Result<(T, Leftover<FileFrom<S>>), JobEnd<FileFrom<S>>>
    ensures done { MatchResult result (λ found. IsOkAnd ended (λ it. (it.outcome ≡ Ok found.0) × (it.left ≡ found.1)))
        (λ end. TellsNothing (cow_str_bytes end.text) end.status
        × MatchResult ended (λ it. (end.left ≡ Some it.left) × IsErr it.outcome) (λ _. end.left ≡ None)) }
    // Where the work was not done, the line of its fault is printed.
    ensures said { IfOk ended (λ it. IfErr it.outcome (λ fault. SaysFault (shown_at path.now (Some (F.Text fault))) (E.contents e.old) (E.contents e.new))) }
    // Where the files were not opened, the line that says why.
    ensures unopened { IfErr ended (λ _. SaysUnopened path.now (E.contents e.old) (E.contents e.new)) }
    ensures silent { OnOk result (e.new ≡ e.old) }
{
    let Ended {
        outcome,
        failure: _,
        left,
    } = match ended {
        Ok(it) => it,
        Err((error, _)) => {
            let fault = FileFault::from(error);
            return Err(JobEnd::of(failed(alloc, e, &AtPath { path, fault })));
        }
    };
    match outcome {
        Ok(outcome) => Ok((outcome, left)),
        Err(fault) => {
            let fault = Shown { fault };
            let status = failed(alloc, e, &AtPath { path, fault });
            Err(JobEnd::of(status).with(Some(left)))
        }
    }
}
