//! The lines of an input, answered by the docket of a database.
ghost use Rattle.std.specs.Prelude.{IfSome};
ghost use Rattle.sqlite.specs.Held.{state};
ghost use Rattle.sqlite.specs.State.{HasCleanDisk};
ghost use Rattle.file_dockets.specs.Keeping.{HoldsBetween};
ghost use Rattle.docket_applying.specs.CourtDockets.{CourtDocket as Told, StandsAs};
ghost use Rattle.file_changes.specs.Runs.{Answers};

use command_lines::{Clerk, CountEnd, RunFault, command_run};
use docket_store::{AdoptFault, Docket, Returned, Watch};
use file_dockets::{Work, Worked, adopt};
use sqlite::{Alter, Connection};
use std::alloc::Global;
use std::io::{Read, Write};

/// Answers the lines of the reader by a docket. Returns how that ended, and the docket's connection.
pub(crate) fn answer_lines<S: Alter, R: Read, W: Write>(
    alloc: Global,
    docket: Docket<S>,
    reader: &mut R,
    writer: &mut W,
) -> (Result<CountEnd, RunFault>, Connection<S>)
    ensures answers { (told : Told) → StandsAs S.Store docket told → HasCleanDisk (state S.Store result.1)
        → IfSome (R.remaining reader.old) (λ input.
        Answers (HoldsBetween S.Store result.1) told input (W.contents writer.old) (W.contents writer.new) result.0) }
    ensures trust { HasCleanDisk (state S.Store result.1) → HasCleanDisk (state S.Store docket.conn) }
{
    let mut clerk = Clerk::new(alloc, docket);
    let end = command_run(alloc, reader, writer, &mut clerk);
    (end, clerk.into_docket().close())
}

/// Adopts the docket that a database holds, and answers the lines of the reader. Writes each answer before it
/// applies the next command. However it stops, also by a power failure, it leaves the docket of the lines
/// whose answers were written, and of at most one line more.
#[derive(Drop)]
pub(crate) struct Run<V> {
    pub(crate) watch: V,
}

impl<V: Watch + Drop, R: Read, W: Write> Work<R, W> for Run<V> {
    ghost use Rattle.file_changes.specs.Works.{RunsOver};

    type Done = Result<CountEnd, RunFault>;

    type Fault = AdoptFault;

    ghost Comes = { λ _ g old new input _ before after. RunsOver g old new (R.remaining input) (W.contents before) (W.contents after) };

    fn work<S: Alter>(
        self,
        alloc: Global,
        conn: Connection<S>,
        reader: &mut R,
        writer: &mut W,
    ) -> Worked<S, Result<CountEnd, RunFault>, AdoptFault> {
        match adopt(alloc, conn, self.watch) {
            Ok((docket, _)) => {
                let (end, connection) = answer_lines(alloc, docket, reader, writer);
                Worked {
                    outcome: Ok(end),
                    failure: None,
                    connection,
                }
            }
            Err(
                Returned {
                    fault,
                    failure,
                    connection,
                },
            ) => Worked {
                outcome: Err(fault),
                failure,
                connection,
            },
        }
    }
}
