//! Why rows aren't printed.

ghost use Rattle.std.specs.Prelude.{◌≡◌, Some};
ghost use Rattle.pg_stream.specs.declared.fault.RowsFault.{RowsFault};
ghost use Rattle.pg_stream.specs.declared.fault.StreamFault.{StreamFault};
ghost use Rattle.pg_stream.specs.Faults.{stream_fault_text, row_fault_text, fault_of_row, rows_fault_text};

use crate::printer::RowPrinter;
use pg_layout::{Colors, Dimension};
use pg_picture::PrintFault;
use pg_picture::fits::Misfit;
use std::alloc::{AllocError, AllocFailed, Allocator};
use std::convert::AsStr;
use std::error::Error;
use std::fmt;

/// Why a printer isn't made, or rows aren't printed to their end.
#[derive(Debug, Clone, Copy, PartialEq, Eq)]
pub enum StreamFault {
    /// The printer's parts don't fit. Only a call that makes a printer returns it.
    Misfit(Misfit),
    /// The row with this number doesn't fit below those above it. Rows are counted from 0, so it is
    /// also the number of rows above.
    Row(usize),
    /// The table doesn't end after its last row: a rectangle continues below it, or more rows are
    /// known. Only a call that ends a table none of whose rows was declared the last returns it.
    Open,
    /// Out of memory.
    Memory,
}

impl From<Misfit> for StreamFault {
    ghost from_gives = { λ misfit fault. fault ≡ StreamFault.Misfit misfit };

    fn from(misfit: Misfit) -> StreamFault {
        StreamFault::Misfit(misfit)
    }
}

impl From<AllocError> for StreamFault {
    ghost from_gives = { λ _ fault. fault ≡ StreamFault.Memory };

    fn from(_error: AllocError) -> StreamFault {
        StreamFault::Memory
    }
}

impl<T: Drop> From<AllocFailed<T>> for StreamFault {
    ghost from_gives = { λ _ fault. fault ≡ StreamFault.Memory };

    fn from(_error: AllocFailed<T>) -> StreamFault {
        StreamFault::Memory
    }
}

/// Writes what doesn't fit, or that memory is out.
impl fmt::Display for StreamFault {
    ghost output = { λ fault. Some (stream_fault_text fault) };

    fn fmt<W: fmt::Write>(&self, f: &mut fmt::Formatter<W>) -> fmt::Result {
        match self {
            StreamFault::Misfit(misfit) => write!(f, "{}", PrintFault::Misfit(*misfit)),
            StreamFault::Row(row) => write!(f, "row {row} does not fit"),
            StreamFault::Open => write!(f, "the table does not end here"),
            StreamFault::Memory => write!(f, "{}", PrintFault::Memory),
        }
    }
}

impl Error for StreamFault {}

/// Why a row isn't printed.
#[derive(Debug, Drop)]
pub enum RowFault<P> {
    /// The row doesn't fit. This is the printer, unchanged. If it isn't needed, `?` makes a
    /// `StreamFault::Row` of it, with the number of the row.
    Misfit(P),
    /// Out of memory, and the printer is gone.
    Memory,
}

/// Writes that the row doesn't fit, or that memory is out.
impl<P> fmt::Display for RowFault<P> {
    ghost output = { λ fault. Some (row_fault_text fault) };

    fn fmt<W: fmt::Write>(&self, f: &mut fmt::Formatter<W>) -> fmt::Result {
        match self {
            RowFault::Misfit(_) => write!(f, "the row does not fit"),
            RowFault::Memory => write!(f, "{}", PrintFault::Memory),
        }
    }
}

impl<'a, S, D, C, B, A> From<RowFault<RowPrinter<'a, S, D, C, B, A>>> for StreamFault
where
    S: AsStr + Drop,
    D: Dimension,
    C: Colors,
    B: Allocator,
    A: Allocator,
{
    ghost use Rattle.pg_stream.specs.Printers.{printing};

    ghost from_gives = { λ refused fault. fault ≡ fault_of_row (λ p. (printing D.width D.height C.color p).rows) refused };

    fn from(refused: RowFault<RowPrinter<'a, S, D, C, B, A>>) -> StreamFault {
        match refused {
            RowFault::Misfit(printer) => StreamFault::Row(printer.rows()),
            RowFault::Memory => StreamFault::Memory,
        }
    }
}

/// Why rows that may be errors aren't printed to their end.
#[derive(Debug, Drop)]
pub enum RowsFault<E> {
    /// A row isn't printed.
    Stream(StreamFault),
    /// This error came in place of a row.
    Source(E),
}

impl<E> From<StreamFault> for RowsFault<E> {
    ghost from_gives = { λ fault stop. stop ≡ RowsFault.Stream fault };

    fn from(fault: StreamFault) -> RowsFault<E> {
        RowsFault::Stream(fault)
    }
}

/// Writes what its part writes.
impl<E: fmt::Display> fmt::Display for RowsFault<E> {
    ghost output = { λ fault. rows_fault_text E.output fault };

    fn fmt<W: fmt::Write>(&self, f: &mut fmt::Formatter<W>) -> fmt::Result {
        match self {
            RowsFault::Stream(fault) => fault.fmt(f),
            RowsFault::Source(error) => error.fmt(f),
        }
    }
}

impl<E: Error> Error for RowsFault<E> {}
