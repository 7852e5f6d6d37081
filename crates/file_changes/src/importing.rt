//! One command to the docket of a database.

use docket_command::{Command, Reply};
use docket_store::{AdoptFault, Fault, Watch};
use file_dockets::{Work, Worked, adopt};
use sqlite::{Alter, Connection};
use std::alloc::Global;

/// Adopts the docket that a database holds, and applies the command.
#[derive(Drop)]
pub(crate) struct Apply<'c, V> {
    pub(crate) watch: V,
    pub(crate) command: &'c Command,
}

impl<V: Watch + Drop> Work<(), ()> for Apply<'_, V> {
    ghost use Rattle.file_changes.specs.Works.{AppliesOver};

    type Done = Result<Reply, Fault>;

    type Fault = AdoptFault;

    ghost Comes = { λ it g old new _ _ _ _. AppliesOver g old new it.command.now };

    fn work<S: Alter>(
        self,
        alloc: Global,
        conn: Connection<S>,
        _reader: &mut (),
        _writer: &mut (),
    ) -> Worked<S, Result<Reply, Fault>, AdoptFault> {
        let (mut docket, _) = match adopt(alloc, conn, self.watch) {
            Ok(found) => found,
            Err(returned) => return Worked::from(returned),
        };
        let answer = docket.apply(self.command);
        Worked {
            outcome: Ok(answer),
            failure: None,
            connection: docket.close(),
        }
    }
}
