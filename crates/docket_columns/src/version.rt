//! How the tables of a docket are laid out.
ghost use Rattle.std.specs.Prelude.{◌≡◌};
ghost use Rattle.docket_columns.specs.Cells.{version_number};

/// A layout of a docket's tables.
#[derive(Clone, Copy)]
pub enum Version {
    /// The tables up to that of ends.
    First,
    /// Behind them those of short days and of local rules.
    Second,
}

impl Version {
    /// The version in which this program makes and keeps a docket.
    pub const KEPT: Version = Version::Second;

    /// The number of the version in the row of the court.
    pub fn number(self) -> u32
        ensures { result ≡ version_number self }
    {
        match self {
            Version::First => 1,
            Version::Second => 2,
        }
    }
}
