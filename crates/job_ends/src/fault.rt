//! Why a work on files was not done, as it is told.
ghost use Rattle.std.specs.Prelude.{ℕ, List, Some};
ghost use Rattle.std.specs.Fmt.{DisplaysOnOk};
ghost use Rattle.job_ends.specs.Ends.{unsound_text};

use docket_store::{CreateFault, MigrateFault};
use docket_tables::{Table, table_name};
use file_dockets::AdoptFault;
use std::fmt;

/// Why a work on files was not done.
pub trait Told {
    // The text that says why, and what is to be done about it.
    ghost Text: { Self → List ℕ };

    /// Writes the text.
    fn tell<W: fmt::Write>(&self, f: &mut fmt::Formatter<W>) -> fmt::Result
        ensures told { DisplaysOnOk W.write_str_gives f.old result (Some (Text self.now)) f.new };
}

/// A fault that is shown by its text.
#[derive(Drop)]
pub(crate) struct Shown<F> {
    pub(crate) fault: F,
}

impl<F: Told> fmt::Display for Shown<F> {
    ghost use Rattle.std.specs.Prelude.{Some};

    ghost output = { λ it. Some (F.Text it.fault) };

    fn fmt<W: fmt::Write>(&self, f: &mut fmt::Formatter<W>) -> fmt::Result {
        self.fault.tell(f)
    }
}

/// Writes that a table is not sound.
fn tell_unsound<W: fmt::Write>(table: Table, f: &mut fmt::Formatter<W>) -> fmt::Result
    ensures { DisplaysOnOk W.write_str_gives f.old result (Some (unsound_text table)) f.new }
{
    write!(f, "the table {} is not sound", table_name(table))
}

impl Told for AdoptFault {
    ghost use Rattle.job_ends.specs.Ends.{unadopted_text};

    ghost Text = { unadopted_text };

    fn tell<W: fmt::Write>(&self, f: &mut fmt::Formatter<W>) -> fmt::Result {
        match self {
            AdoptFault::Empty => f.write_str("the database holds no docket"),
            AdoptFault::NotADocket => f.write_str("the database is not that of a docket"),
            AdoptFault::OtherVersion => f.write_str(
                "the docket is laid out in another version; `docketctl migrate` takes version 1 further",
            ),
            AdoptFault::Damaged(table) => tell_unsound(*table, f),
            AdoptFault::NoMemory => f.write_str("there is not enough memory"),
            AdoptFault::StoreFailed => f.write_str("the database failed"),
        }
    }
}

impl Told for CreateFault {
    ghost use Rattle.job_ends.specs.Ends.{uncreated_text};

    ghost Text = { uncreated_text };

    fn tell<W: fmt::Write>(&self, f: &mut fmt::Formatter<W>) -> fmt::Result {
        f.write_str(match self {
            CreateFault::NotEmpty => "the database holds a docket",
            CreateFault::NoMemory => "there is not enough memory",
            CreateFault::StoreFailed => "the docket could not be made in the database",
        })
    }
}

impl Told for MigrateFault {
    ghost use Rattle.job_ends.specs.Ends.{unmigrated_text};

    ghost Text = { unmigrated_text };

    fn tell<W: fmt::Write>(&self, f: &mut fmt::Formatter<W>) -> fmt::Result {
        match self {
            MigrateFault::Empty => f.write_str("the database holds no docket"),
            MigrateFault::NotADocket => f.write_str("the database is not that of a docket"),
            MigrateFault::OtherVersion => f.write_str("the docket is not in version 1"),
            MigrateFault::Damaged(table) => tell_unsound(*table, f),
            MigrateFault::NoMemory => f.write_str("there is not enough memory"),
            MigrateFault::StoreFailed => f.write_str(
                "the docket could not be migrated in the database",
            ),
        }
    }
}
