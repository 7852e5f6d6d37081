//! One command, in one transaction.
ghost use Rattle.std.specs.Prelude.{◌≡◌, ◌≤◌, ◌<◌, ◌^◌, ◌∷◌, ℕ, List, length, false, IfErr};
ghost use Rattle.sqlite.specs.Held.{state};
ghost use Rattle.sqlite.specs.State.{HasCleanDisk};
ghost use Rattle.sqlite.specs.View.{doubt};
ghost use Rattle.docket_command.specs.declared.command.Command.{Command as Asked};
ghost use Rattle.docket_history.specs.Histories.{History};
ghost use Rattle.docket_wire.specs.Valid.{IsCommand};
ghost use Rattle.docket_wire.specs.Writing.{canonical};
ghost use Rattle.docket_decisions.specs.declared.end_row.StoredEnd.{StoredEnd as Ended};
ghost use Rattle.docket_tables.specs.AnyRows.{AreDocketRows};
ghost use Rattle.docket_tables.specs.Causes.{IsLater};
ghost use Rattle.docket_tables.specs.Layouts.{Rows};
ghost use Rattle.docket_tables.specs.Stands.{HoldsRows};
ghost use Rattle.docket_applying.specs.AnyRows.{WritesWhole};
ghost use Rattle.docket_applying.specs.Applying.{Keeps, Stands, IsJudged, Applies};
ghost use Rattle.docket_applying.specs.Causes.{IsCausedBy, IsCausedWrite, IsNamed, IsNotAccepted};
ghost use Rattle.docket_applying.specs.Dockets.{serving};

use crate::fault::{Fault, store_fault};
use crate::judging::judge;
use crate::writing::write;
use court_days::Court;
use docket_command::{Action, Command, Reply};
use docket_decisions::{Changes, Decision};
use docket_history::{StandingCalendar, Subject};
use docket_wire::command_text;
use sqlite::{Alter, Connection, Error};
use std::alloc::Global;

/// Changes are in memory, so there are far fewer of them than a row may have numbers.
fn changes_fit(changes: &Changes)
    ensures { length changes.now.rows.items < 2 ^ 62 }
{
    let _rows = changes.rows.as_slice();
}

/// Drops the kept calendar after an accepted command that changes it.
fn drop_changed_calendar(kept: &mut Option<StandingCalendar>, action: &Action)
    ensures { (h : History) (c : Asked) → c.action ≡ action.now → Keeps kept.old h
        → Keeps kept.new h × Keeps kept.new (c ∷ h) }
{
    if Subject::of(action).changes_calendar {
        *kept = None;
    }
}

/// Writes what an accepted command changes.
fn write_accepted<S: Alter>(
    conn: &mut Connection<S>,
    alloc: Global,
    court: &Court,
    kept: &mut Option<StandingCalendar>,
    command: &Command,
    body: &str,
    changes: &Changes,
    failure: &mut Option<Error>,
) -> Result<Reply, Fault>
    requires idle { conn.old.in_transaction ≡ false }
    requires body { body.now ≡ canonical command.now }
    requires lawful { IsCommand command.now }
    ensures idle { conn.new.in_transaction ≡ false }
    ensures clean { doubt (state S.Store conn.old).is_clean ≤ doubt (state S.Store conn.new).is_clean }
    ensures named { IfErr result (IsNamed failure.new) }
    ensures any { (rows : Rows) (n : ℕ) (stored : List Ended) → AreDocketRows court.now n stored rows → n < 2 ^ 62 → HoldsRows S.Store conn.old rows
        → WritesWhole S.Store conn.new court.now n rows command.now result }
    ensures kept { (h : History) → Stands S.Store (serving conn.old court.now kept.old) h
        → IsJudged S.Store conn.old court.now h command.now changes.now
        → Applies S.Store (serving conn.new court.now kept.new) h command.now result }
    ensures later { (h : History) → Stands S.Store (serving conn.old court.now kept.old) h
        → IsJudged S.Store conn.old court.now h command.now changes.now → HasCleanDisk (state S.Store conn.new)
        → IsLater (state S.Store conn.old) (state S.Store conn.new) }
    ensures cause { (h : History) → Stands S.Store (serving conn.old court.now kept.old) h
        → IsJudged S.Store conn.old court.now h command.now changes.now → HasCleanDisk (state S.Store conn.new)
        → IfErr result (IsCausedWrite command.now (state S.Store conn.old) (state S.Store conn.new) failure.new) }
{
    changes_fit(changes);
    drop_changed_calendar(kept, &command.action);
    match write(conn, alloc, court, command, body, changes) {
        Ok(()) => Ok(changes.reply),
        Err(error) => Err(store_fault(conn, error, failure)),
    }
}

/// Applies a command to the docket of the court in the database, in one transaction. `kept` is the calendar
/// that is kept beside the connection; if the database fails, `failure` has its error.
pub fn apply_to<S: Alter>(
    conn: &mut Connection<S>,
    alloc: Global,
    court: &Court,
    kept: &mut Option<StandingCalendar>,
    command: &Command,
    failure: &mut Option<Error>,
) -> Result<Reply, Fault>
    requires { conn.old.in_transaction ≡ false }
    ensures idle { conn.new.in_transaction ≡ false }
    ensures clean { doubt (state S.Store conn.old).is_clean ≤ doubt (state S.Store conn.new).is_clean }
    ensures named { IfErr result (IsNamed failure.new) }
    ensures any { (rows : Rows) (n : ℕ) (stored : List Ended) → AreDocketRows court.now n stored rows → n < 2 ^ 62 → HoldsRows S.Store conn.old rows
        → WritesWhole S.Store conn.new court.now n rows command.now result }
    ensures answer { (h : History) → Stands S.Store (serving conn.old court.now kept.old) h
        → Applies S.Store (serving conn.new court.now kept.new) h command.now result }
    ensures later { (h : History) → Stands S.Store (serving conn.old court.now kept.old) h → HasCleanDisk (state S.Store conn.new)
        → IsLater (state S.Store conn.old) (state S.Store conn.new) }
    // A command for which nothing is written fails only for a cause.
    ensures spared { (h : History) → Stands S.Store (serving conn.old court.now kept.old) h → HasCleanDisk (state S.Store conn.new) → IsNotAccepted court.now h command.now
        → IfErr result (IsCausedBy (state S.Store conn.old) (state S.Store conn.new) failure.new) }
    // So does an accepted command, unless its text is very long.
    ensures cause { (h : History) → Stands S.Store (serving conn.old court.now kept.old) h → HasCleanDisk (state S.Store conn.new)
        → IfErr result (IsCausedWrite command.now (state S.Store conn.old) (state S.Store conn.new) failure.new) }
{
    let body = command_text(alloc, command)?;
    let decision = judge(conn, alloc, court, kept, command, body.as_str(), failure)?;
    match decision {
        Decision::Repeat(reply) => Ok(reply),
        Decision::Change(changes) => write_accepted(
            conn,
            alloc,
            court,
            kept,
            command,
            body.as_str(),
            &changes,
            failure,
        ),
    }
}
