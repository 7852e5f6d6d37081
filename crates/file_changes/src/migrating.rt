//! The docket of a database, taken to the version of the tables that is kept.

use docket_store::{Docket, MigrateFault, Watch};
use file_dockets::{Work, Worked};
use sqlite::{Alter, Connection};
use std::alloc::Global;

/// Migrates the docket of a database. The watch sees each row that is read, and is then dropped.
#[derive(Drop)]
pub(crate) struct Migrate<V> {
    pub(crate) watch: V,
}

impl<V: Watch + Drop> Work<(), ()> for Migrate<V> {
    ghost use Rattle.file_changes.specs.Works.{MigratesOver};

    type Done = ();

    type Fault = MigrateFault;

    ghost Comes = { λ _ g old new _ _ _ _ _. MigratesOver g old new };

    fn work<S: Alter>(
        self,
        alloc: Global,
        conn: Connection<S>,
        _reader: &mut (),
        _writer: &mut (),
    ) -> Worked<S, (), MigrateFault> {
        let mut watch = self.watch;
        match Docket::migrate_watched(alloc, conn, &mut watch) {
            Ok(connection) => Worked {
                outcome: Ok(()),
                failure: None,
                connection,
            },
            Err(returned) => Worked::from(returned),
        }
    }
}
