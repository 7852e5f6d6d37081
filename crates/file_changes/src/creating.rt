//! A new docket in a database.

use court_days::Court;
use docket_store::{CreateFault, Docket};
use file_dockets::{Work, Worked};
use sqlite::{Alter, Connection};
use std::alloc::Global;

/// Makes the docket of a court, without any record, in a database that holds nothing.
#[derive(Drop)]
pub(crate) struct Create {
    pub(crate) court: Court,
}

impl Work<(), ()> for Create {
    ghost use Rattle.file_changes.specs.Works.{CreatesOver};

    type Done = ();

    type Fault = CreateFault;

    ghost Comes = { λ it g old new _ _ _ _ _. CreatesOver g old new it.court };

    fn work<S: Alter>(
        self,
        alloc: Global,
        conn: Connection<S>,
        _reader: &mut (),
        _writer: &mut (),
    ) -> Worked<S, (), CreateFault> {
        match Docket::create(alloc, conn, self.court) {
            Ok(docket) => Worked {
                outcome: Ok(()),
                failure: None,
                connection: docket.close(),
            },
            Err(returned) => Worked::from(returned),
        }
    }
}
