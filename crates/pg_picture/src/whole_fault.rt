//! Why a table isn't printed whole.

ghost use Rattle.std.specs.Prelude.{◌≡◌, Some};
ghost use Rattle.pg_picture.specs.Printed.{whole_fault_text};
ghost use Rattle.pg_picture.specs.declared.whole_fault.WholeFault.{WholeFault};

use crate::shown::Unshown;
use std::alloc::{AllocError, AllocFailed};
use std::error::Error;
use std::fmt;

/// Why a table isn't printed whole.
#[derive(Debug, Clone, Copy, PartialEq, Eq)]
pub enum WholeFault {
    /// The table doesn't show each line of its texts, or doesn't fit, and nothing was appended.
    Unshown(Unshown),
    /// Out of memory; a beginning of the picture was appended.
    Memory,
}

impl From<Unshown> for WholeFault {
    ghost from_gives = { λ unshown fault. fault ≡ WholeFault.Unshown unshown };

    fn from(unshown: Unshown) -> WholeFault {
        WholeFault::Unshown(unshown)
    }
}

impl From<AllocError> for WholeFault {
    ghost from_gives = { λ _ fault. fault ≡ WholeFault.Memory };

    fn from(_error: AllocError) -> WholeFault {
        WholeFault::Memory
    }
}

impl<T: Drop> From<AllocFailed<T>> for WholeFault {
    ghost from_gives = { λ _ fault. fault ≡ WholeFault.Memory };

    fn from(_error: AllocFailed<T>) -> WholeFault {
        WholeFault::Memory
    }
}

/// Writes why not all is shown, or that memory is out.
impl fmt::Display for WholeFault {
    ghost output = { λ fault. Some (whole_fault_text fault) };

    fn fmt<W: fmt::Write>(&self, f: &mut fmt::Formatter<W>) -> fmt::Result {
        match self {
            WholeFault::Unshown(unshown) => write!(f, "{unshown}"),
            WholeFault::Memory => write!(f, "out of memory"),
        }
    }
}

impl Error for WholeFault {}
