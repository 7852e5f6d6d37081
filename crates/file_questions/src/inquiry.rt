//! Questions to the docket in the files at a path. Nothing is changed.
//!
//! The work that an inquiry does is a method of a trait, so that no function here is proved at the store of
//! files, which takes the prover long.
ghost use Rattle.std.specs.Prelude.{◌≡◌, ◌≤◌, IfErr, IfOk, MatchResult};
ghost use Rattle.sqlite.specs.Files.{IsCleanLeft};
ghost use Rattle.sqlite.specs.Held.{state};
ghost use Rattle.sqlite.specs.State.{HasCleanDisk};
ghost use Rattle.sqlite.specs.View.{doubt};
ghost use Rattle.sqlite_wal.specs.Files.{image_at};
ghost use Rattle.court_days.specs.Court.{CourtSettings};
ghost use Rattle.docket_history.specs.Histories.{History};
ghost use Rattle.docket_scan.specs.Dockets.{holdings_in};
ghost use Rattle.docket_tables.specs.Layouts.{Rows};
ghost use Rattle.docket_tables.specs.Stands.{HoldsRows};
ghost use Rattle.docket_applying.specs.Applying.{IsDocket, Stands};
ghost use Rattle.docket_applying.specs.CourtDockets.{CourtDocket as Told};
ghost use Rattle.docket_store.specs.Reopening.{HoldDocket};
ghost use Rattle.file_dockets.specs.Keeping.{HoldsBetween};
ghost use Rattle.file_dockets.specs.Works.{WorksTo};
ghost use Rattle.file_questions.specs.Asking.{OnlyAsks};

use docket_store::{AdoptFault, Docket, Holdings, Watch};
use file_dockets::{OnFile, Work, Worked, adopt, work_on_file};
use sqlite::{Alter, Connection, Start};
use std::alloc::Global;
use std::rt::HostRuntime;

/// A question to a docket in files. It may write to `W` what it answers. Nothing is changed.
pub trait Inquiry<W> {
    /// What the question returns in the end.
    type Answer;

    // What the question returns for the docket of a court, by what was written before and after.
    ghost Tells: { Self → CourtSettings → History → W → W → Self.Answer → Type 0 };

    /// Asks a docket whose tables hold `held`.
    fn ask<S: Alter>(
        &self,
        alloc: Global,
        docket: &mut Docket<S>,
        held: Holdings,
        out: &mut W,
    ) -> Self::Answer
        ensures told { (h : History) → Stands S.Store docket.old h → held ≡ holdings_in docket.old.court h
            → HasCleanDisk (state S.Store docket.new.conn) → Tells self.now docket.old.court h out.old out.new result }
        ensures stays { (rows : Rows) → HoldsRows S.Store docket.old.conn rows → HoldsBetween S.Store docket.new.conn rows rows }
        ensures clean { doubt (state S.Store docket.old.conn).is_clean ≤ doubt (state S.Store docket.new.conn).is_clean };
}

/// Adopts the docket that a database holds, and asks it.
#[derive(Drop)]
struct Asked<'q, V, Q> {
    watch: V,
    question: &'q Q,
}

impl<V: Watch + Drop, W, Q: Inquiry<W>> Work<(), W> for Asked<'_, V, Q> {
    ghost use Rattle.file_questions.specs.Asking.{AsksOver};

    type Done = Q::Answer;

    type Fault = AdoptFault;

    ghost Comes = { λ it g old new _ _ before after. AsksOver g old new (λ court h. Q.Tells it.question.now court h before after) };

    fn work<S: Alter>(
        self,
        alloc: Global,
        conn: Connection<S>,
        _reader: &mut (),
        out: &mut W,
    ) -> Worked<S, Q::Answer, AdoptFault> {
        let (mut docket, held) = match adopt(alloc, conn, self.watch) {
            Ok(found) => found,
            Err(returned) => return Worked::from(returned),
        };
        let answer = self.question.ask(alloc, &mut docket, held, out);
        Worked {
            outcome: Ok(answer),
            failure: None,
            connection: docket.close(),
        }
    }
}

/// Opens the files at a path, adopts their docket, asks it and lets the files go. Nothing is changed.
///
/// `start` represents what the two files hold when they are opened. The theorem holds for every start, and a
/// program passes `Unknown`.
pub fn ask_on_file<S: Start, V: Watch + Drop, W, Q: Inquiry<W>>(
    rt: &HostRuntime,
    path: &str,
    start: S,
    watch: V,
    question: &Q,
    out: &mut W,
) -> OnFile<S, Q::Answer>
    ensures told { (told : Told) → IsDocket told.court told.history → HoldDocket (image_at S.Start) told.court told.history
        → IfOk result (λ done. IsCleanLeft done.left
        → WorksTo (Q.Tells question.now told.court told.history out.old out.new) done.outcome) }
    ensures only { OnlyAsks (image_at S.Start) result }
    ensures unwritten { MatchResult result (λ done. IfErr done.outcome (λ _. out.new ≡ out.old)) (λ _. out.new ≡ out.old) }
{
    let asked = Asked { watch, question };
    work_on_file(rt, path, start, asked, &mut (), out)
}
