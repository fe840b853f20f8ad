//! Why the program ends early.

use pg_picture::{PrintFault, WholeFault};
use pg_stream::StreamFault;
use pg_table::TableFault;
use std::alloc::{AllocError, AllocFailed};
use std::fmt::{self, Display};
use std::io;

/// Why the program ends early.
#[derive(Drop)]
pub(crate) enum Fault {
    /// Rows aren't a table, or it isn't printed.
    Table(TableFault),
    /// A grid isn't printed.
    Print(PrintFault),
    /// A grid isn't printed whole.
    Whole(WholeFault),
    /// A row isn't printed.
    Stream(StreamFault),
    /// The row of this line of an input, counted from 1, doesn't fit.
    Line(usize),
    /// No program of the guide has this name.
    Name,
    /// Out of memory.
    Memory,
    /// A read or a write failed.
    Io(io::Error),
}

impl From<TableFault> for Fault {
    fn from(fault: TableFault) -> Fault {
        Fault::Table(fault)
    }
}

impl From<PrintFault> for Fault {
    fn from(fault: PrintFault) -> Fault {
        Fault::Print(fault)
    }
}

impl From<WholeFault> for Fault {
    fn from(fault: WholeFault) -> Fault {
        Fault::Whole(fault)
    }
}

impl From<StreamFault> for Fault {
    fn from(fault: StreamFault) -> Fault {
        Fault::Stream(fault)
    }
}

impl From<AllocError> for Fault {
    fn from(_error: AllocError) -> Fault {
        Fault::Memory
    }
}

impl<T: Drop> From<AllocFailed<T>> for Fault {
    fn from(_error: AllocFailed<T>) -> Fault {
        Fault::Memory
    }
}

impl From<io::Error> for Fault {
    fn from(error: io::Error) -> Fault {
        Fault::Io(error)
    }
}

/// Writes why.
impl Display for Fault {
    fn fmt<W: fmt::Write>(&self, f: &mut fmt::Formatter<W>) -> fmt::Result {
        match self {
            Fault::Table(fault) => fault.fmt(f),
            Fault::Print(fault) => fault.fmt(f),
            Fault::Whole(fault) => fault.fmt(f),
            Fault::Stream(fault) => fault.fmt(f),
            Fault::Line(line) => write!(f, "line {line} doesn't fit"),
            Fault::Name => f.write_str("no program has this name"),
            Fault::Memory => f.write_str("out of memory"),
            Fault::Io(error) => error.fmt(f),
        }
    }
}
