//! Why a run of the program prints no table.

ghost use Rattle.std.specs.Prelude.{◌≡◌, ◌≢◌, OnOk, Some};
ghost use Rattle.std.specs.Io.KnownBytes.{Appends};
ghost use Rattle.std.specs.IoError.{error_kind};
ghost use Rattle.pg_show.specs.Program.{status_of, line_of, fault_text, fault_of_print, fault_of_script};
ghost use Rattle.pg_show.specs.declared.fault.Fault.TheVariants.{Memory};

use pg_picture::PrintFault;
use pg_picture::fits::Misfit;
use pg_script::ScriptFault;
use std::alloc::AllocError;
use std::error::Error;
use std::io::{ErrorKind, Write};
use std::{fmt, io};

/// Why a run of the program prints no table.
#[derive(Debug, Clone, Copy)]
pub enum Fault {
    /// The arguments name no mode.
    Usage,
    /// This line of the script is the first bad one, counted from 1.
    Bad(usize),
    /// The table doesn't fit.
    Misfit(Misfit),
    /// Out of memory.
    Memory,
    /// A read failed, or there were too many.
    Read,
    /// A write failed.
    Write,
}

impl From<AllocError> for Fault {
    ghost from_gives = { λ _ fault. fault ≡ Memory };

    fn from(_error: AllocError) -> Fault {
        Fault::Memory
    }
}

impl From<ScriptFault> for Fault {
    ghost from_gives = { λ found fault. fault ≡ fault_of_script found };

    fn from(fault: ScriptFault) -> Fault {
        match fault {
            ScriptFault::Bad(line) => Fault::Bad(line),
            ScriptFault::Memory => Fault::Memory,
        }
    }
}

impl From<PrintFault> for Fault {
    ghost from_gives = { λ found fault. fault ≡ fault_of_print found };

    fn from(fault: PrintFault) -> Fault {
        match fault {
            PrintFault::Misfit(misfit) => Fault::Misfit(misfit),
            PrintFault::Memory => Fault::Memory,
        }
    }
}

impl Fault {
    /// Why the program's arguments couldn't be read: out of memory, or they are wrong, such as one
    /// that isn't text.
    pub fn of_arguments(error: &io::Error) -> Fault
        ensures memory { error_kind error.now ≡ ErrorKind.OutOfMemory → result ≡ Fault.Memory }
        ensures wrong { error_kind error.now ≢ ErrorKind.OutOfMemory → result ≡ Fault.Usage }
    {
        match error.kind() {
            ErrorKind::OutOfMemory => Fault::Memory,
            _ => Fault::Usage,
        }
    }

    /// The fault's exit status.
    pub fn status(self) -> u8
        ensures { result ≡ status_of self }
    {
        match self {
            Fault::Usage | Fault::Bad(_) => 2,
            Fault::Misfit(_) => 3,
            Fault::Memory => 4,
            Fault::Read | Fault::Write => 5,
        }
    }

    /// Writes the fault's line. An error is the writer's.
    pub fn tell<W: Write>(self, err: &mut W) -> io::Result<()>
        ensures { OnOk result (Appends (W.contents err.old) (W.contents err.new) (line_of self)) }
    {
        writeln!(err, "{self}")?;
        err.flush()
    }
}

/// Writes the words of the fault's line.
impl fmt::Display for Fault {
    ghost output = { λ fault. Some (fault_text fault) };

    fn fmt<W: fmt::Write>(&self, f: &mut fmt::Formatter<W>) -> fmt::Result {
        match self {
            Fault::Usage => write!(f, "usage: pgshow compact|iter|peek|table"),
            Fault::Bad(line) => write!(f, "line {line}: bad"),
            Fault::Misfit(misfit) => write!(f, "does not fit: {misfit}"),
            Fault::Memory => write!(f, "out of memory"),
            Fault::Read => write!(f, "read failed"),
            Fault::Write => write!(f, "write failed"),
        }
    }
}

impl Error for Fault {}
