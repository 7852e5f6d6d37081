//! Why a text is no table of days.
ghost use Rattle.std.specs.Prelude.{◌≡◌};
ghost use Rattle.day_tables.specs.declared.csv_fault.CsvFault.TheVariants.{NoMemory};

use std::alloc::{AllocError, AllocFailed};
use std::fmt;

/// Why a text is no table of days: what is wrong with its first bad record, or that memory ran out.
#[derive(Clone, Copy)]
pub enum CsvFault {
    /// It is the first of all and not `kind,day,name`, or there is none (0); or the one of this number
    /// after the first has no kind, day or name, or is the 1,001st.
    BadRow(u32),
    /// It has another number of fields than three.
    BadCsv,
    /// Memory ran out.
    NoMemory,
}

impl fmt::Display for CsvFault {
    ghost use Rattle.std.specs.Prelude.{Some};
    ghost use Rattle.day_tables.specs.CalendarCsv.{fault_text};

    ghost output = { λ fault. Some (fault_text fault) };

    fn fmt<W: fmt::Write>(&self, f: &mut fmt::Formatter<W>) -> fmt::Result {
        match self {
            CsvFault::BadRow(n) => write!(f, "bad row {n}"),
            CsvFault::BadCsv => f.write_str("bad csv"),
            CsvFault::NoMemory => f.write_str("there is not enough memory"),
        }
    }
}

impl From<AllocError> for CsvFault {
    ghost from_gives = { λ _ e. e ≡ NoMemory };

    fn from(_e: AllocError) -> CsvFault {
        CsvFault::NoMemory
    }
}

impl<T: Drop> From<AllocFailed<T>> for CsvFault {
    ghost from_gives = { λ _ e. e ≡ NoMemory };

    fn from(_e: AllocFailed<T>) -> CsvFault {
        CsvFault::NoMemory
    }
}
