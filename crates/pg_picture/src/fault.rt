//! Why a table isn't printed.

ghost use Rattle.std.specs.Prelude.{◌≡◌, Some};
ghost use Rattle.pg_picture.specs.declared.fault.PrintFault.{PrintFault};
ghost use Rattle.pg_picture.specs.Printed.{print_fault_text};

use crate::fits::Misfit;
use std::alloc::{AllocError, AllocFailed};
use std::error::Error;
use std::fmt;

/// Why a table isn't printed.
#[derive(Debug, Clone, Copy, PartialEq, Eq)]
pub enum PrintFault {
    /// The table doesn't fit, and nothing was appended.
    Misfit(Misfit),
    /// Out of memory; a beginning of the picture was appended.
    Memory,
}

impl From<Misfit> for PrintFault {
    ghost from_gives = { λ misfit fault. fault ≡ PrintFault.Misfit misfit };

    fn from(misfit: Misfit) -> PrintFault {
        PrintFault::Misfit(misfit)
    }
}

impl From<AllocError> for PrintFault {
    ghost from_gives = { λ _ fault. fault ≡ PrintFault.Memory };

    fn from(_error: AllocError) -> PrintFault {
        PrintFault::Memory
    }
}

impl<T: Drop> From<AllocFailed<T>> for PrintFault {
    ghost from_gives = { λ _ fault. fault ≡ PrintFault.Memory };

    fn from(_error: AllocFailed<T>) -> PrintFault {
        PrintFault::Memory
    }
}

/// Writes what doesn't fit, or that memory is out.
impl fmt::Display for PrintFault {
    ghost output = { λ fault. Some (print_fault_text fault) };

    fn fmt<W: fmt::Write>(&self, f: &mut fmt::Formatter<W>) -> fmt::Result {
        match self {
            PrintFault::Misfit(misfit) => write!(f, "does not fit: {misfit}"),
            PrintFault::Memory => write!(f, "out of memory"),
        }
    }
}

impl Error for PrintFault {}
