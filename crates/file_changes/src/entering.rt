//! The line of an entry, prepared and answered by the docket of a database.
ghost use Rattle.std.specs.Prelude.{◌≡◌};
ghost use Rattle.sqlite.specs.Held.{state};
ghost use Rattle.sqlite.specs.State.{HasCleanDisk};
ghost use Rattle.file_dockets.specs.Keeping.{HoldsBetween};
ghost use Rattle.docket_applying.specs.CourtDockets.{CourtDocket as Told, StandsAs};
ghost use Rattle.file_changes.specs.Entering.{Enters, line_prepared};
ghost use Rattle.file_changes.specs.Runs.{Answers};

use crate::running::answer_lines;
use command_lines::{CountEnd, RunFault};
use docket_store::{AdoptFault, Docket, Fault, Watch};
use entry_lines::{Entry, Prepared, prepared};
use file_dockets::{Work, Worked, adopt};
use sqlite::{Alter, Connection};
use std::alloc::Global;
use std::io::Write;

/// An entry as it was prepared, and how the run over its line ended.
#[derive(Drop)]
pub struct Entered {
    pub prepared: Prepared,
    /// An entry with a name that fits none or several has no line, and its run is over nothing.
    pub end: Result<CountEnd, RunFault>,
}

/// The bytes of the line of a prepared entry. There are none where a name fits none or several.
fn line_of(prepared: &Prepared) -> &[u8]
    ensures { result.now ≡ line_prepared prepared.now }
{
    match prepared {
        Prepared::Unnamed(_) => b"",
        Prepared::Line(line, _) => line.as_bytes(),
    }
}

/// Answers the line of a prepared entry by a docket. Returns how that ended, and the docket's connection.
fn answer_prepared<S: Alter, W: Write>(
    alloc: Global,
    docket: Docket<S>,
    prepared: &Prepared,
    writer: &mut W,
) -> (Result<CountEnd, RunFault>, Connection<S>)
    ensures answers { (told : Told) → StandsAs S.Store docket told → HasCleanDisk (state S.Store result.1)
        → Answers (HoldsBetween S.Store result.1) told (line_prepared prepared.now) (W.contents writer.old) (W.contents writer.new) result.0 }
    ensures trust { HasCleanDisk (state S.Store result.1) → HasCleanDisk (state S.Store docket.conn) }
{
    let mut line = line_of(prepared);
    answer_lines(alloc, docket, &mut line, writer)
}

/// Prepares an entry by a docket, and answers its line. Returns how that ended, and the docket's connection.
/// Where the docket could not be asked, nothing is written.
fn answer_entry<S: Alter, W: Write>(
    alloc: Global,
    mut docket: Docket<S>,
    entry: &Entry<'_>,
    writer: &mut W,
) -> (Result<Entered, Fault>, Connection<S>)
    ensures enters { (told : Told) → StandsAs S.Store docket told → HasCleanDisk (state S.Store result.1)
        → Enters (HoldsBetween S.Store result.1) told entry.now (W.contents writer.old) (W.contents writer.new) result.0 }
    ensures trust { HasCleanDisk (state S.Store result.1) → HasCleanDisk (state S.Store docket.conn) }
{
    match prepared(alloc, &mut docket, entry) {
        Ok(prepared) => {
            let (end, connection) = answer_prepared(alloc, docket, &prepared, writer);
            (Ok(Entered { prepared, end }), connection)
        }
        Err(fault) => (Err(fault), docket.close()),
    }
}

/// Adopts the docket that a database holds, prepares an entry by it and answers its line.
#[derive(Drop)]
pub(crate) struct Enter<'e, V> {
    pub(crate) watch: V,
    pub(crate) entry: &'e Entry<'e>,
}

impl<V: Watch + Drop, W: Write> Work<(), W> for Enter<'_, V> {
    ghost use Rattle.file_changes.specs.Entering.{EntersOver};

    type Done = Result<Entered, Fault>;

    type Fault = AdoptFault;

    ghost Comes = { λ it g old new _ _ before after. EntersOver g old new it.entry.now (W.contents before) (W.contents after) };

    fn work<S: Alter>(
        self,
        alloc: Global,
        conn: Connection<S>,
        _reader: &mut (),
        writer: &mut W,
    ) -> Worked<S, Result<Entered, Fault>, AdoptFault> {
        let (docket, _) = match adopt(alloc, conn, self.watch) {
            Ok(found) => found,
            Err(returned) => return Worked::from(returned),
        };
        let (outcome, connection) = answer_entry(alloc, docket, self.entry, writer);
        Worked {
            outcome: Ok(outcome),
            failure: None,
            connection,
        }
    }
}
