//! The table printers, under one name.
#![tactic(auto)]

pub mod stream;

pub use pg_compact::CompactGrid;
pub use pg_iter::{GridWithMemory, IterGrid};
pub use pg_peekable::PeekableGrid;
pub use pg_picture::fits::Misfit;
pub use pg_picture::shown::Unshown;
pub use pg_picture::{PrintFault, TablePrinter, WholeFault, WholePrinter};
