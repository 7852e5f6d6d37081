//! Why there is no copy.
use std::alloc::AllocError;
use std::io;

/// No copy was made: a file could not be read, or its bytes are not a sound docket, or memory ran out.
#[derive(Clone, Copy)]
pub struct NoCopy;

impl From<io::Error> for NoCopy {
    fn from(_error: io::Error) -> NoCopy {
        NoCopy
    }
}

impl From<AllocError> for NoCopy {
    fn from(_error: AllocError) -> NoCopy {
        NoCopy
    }
}
