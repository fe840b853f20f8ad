//! Tables printed row by row, which keep only the cells that continue below.

pub use pg_stream::{
    LiveStream, OpenCells, RowFault, RowPrinter, RowStream, RowUnshown, RowsFault, SizedStream,
    StreamFault, printer_fits,
};
