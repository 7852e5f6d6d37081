//! Texts by which the docket of a database answers. Nothing is written.

use crate::inquiry::Inquiry;
use docket_questions::Question;
use docket_store::{Docket, Fault, Holdings};
use sqlite::Alter;
use std::alloc::Global;

/// The text that answers a question, if there is what it asks for.
#[derive(Clone, Copy)]
pub struct TextOf<Q> {
    pub question: Q,
}

impl<Q: Question> Inquiry<()> for TextOf<Q> {
    ghost use Rattle.std.specs.Prelude.{◌≡◌, string_bytes};
    ghost use Rattle.std.specs.Option.{option_map};
    ghost use Rattle.file_questions.specs.Tells.{AnswersTo};

    type Answer = Result<Option<String>, Fault>;

    ghost Tells = { λ asked court h _ _. AnswersTo (λ text. option_map string_bytes text ≡ Q.Text asked.question court h) };

    fn ask<S: Alter>(
        &self,
        alloc: Global,
        docket: &mut Docket<S>,
        _held: Holdings,
        _out: &mut (),
    ) -> Result<Option<String>, Fault> {
        self.question.ask(alloc, docket)
    }
}
