//! What an entry would do to the docket of a database. Nothing is entered.

use crate::inquiry::Inquiry;
use docket_store::{Docket, Fault, Holdings};
use entry_lines::{Entry, Prepared, prepared};
use sqlite::Alter;
use std::alloc::Global;

impl Inquiry<()> for Entry<'_> {
    ghost use Rattle.entry_lines.specs.Preparing.{IsPrepared};
    ghost use Rattle.file_questions.specs.Tells.{AnswersTo};

    type Answer = Result<Prepared, Fault>;

    ghost Tells = { λ entry court h _ _. AnswersTo (IsPrepared court h entry) };

    fn ask<S: Alter>(
        &self,
        alloc: Global,
        docket: &mut Docket<S>,
        _held: Holdings,
        _out: &mut (),
    ) -> Result<Prepared, Fault> {
        prepared(alloc, docket, self)
    }
}
