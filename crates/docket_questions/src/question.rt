//! A question to a docket.
ghost use Rattle.std.specs.Prelude.{◌≡◌, ℕ, List, Option, string_bytes};
ghost use Rattle.std.specs.Option.{option_map};
ghost use Rattle.court_days.specs.Court.{CourtSettings};
ghost use Rattle.docket_history.specs.Histories.{History};
ghost use Rattle.docket_applying.specs.Applying.{Asks, Stands};
ghost use Rattle.docket_store.specs.Asking.{OnlyAnswers};

use docket_store::{Docket, Fault};
use sqlite::Alter;
use std::alloc::Global;

/// A question to a docket, answered by a text. Every question may be asked. It changes nothing, except that a
/// docket whose database fails is closed.
pub trait Question {
    // The text that answers it, by the docket of a court, if what it names exists.
    ghost Text: { Self → CourtSettings → History → Option (List ℕ) };

    /// Asks a docket. Returns no text if what the question names does not exist.
    fn ask<S: Alter>(&self, alloc: Global, docket: &mut Docket<S>) -> Result<Option<String>, Fault>
        ensures answer { (h : History) → Stands S.Store docket.old h
            → Asks S.Store docket.new h (λ text. option_map string_bytes text ≡ Text self.now docket.old.court h) result }
        ensures only { OnlyAnswers S.Store docket.old docket.new result };
}
