//! The printer of rows: its parts, how far it has printed, which row can be next, and its end.

mod all_rows;
mod checked_rows;
mod conditions;
mod frame;
mod progress;
mod row_fits;
mod row_printer;
mod row_shown;
mod table_end;

pub use self::conditions::printer_fits;
pub(crate) use self::frame::Frame;
pub(crate) use self::progress::Progress;
pub use self::row_printer::RowPrinter;
pub use self::row_shown::RowUnshown;
