//! Streams of rows over the printer: none of their rows need be declared the last.

mod held_rows;
mod lent_rows;
mod live_stream;
mod row_sizes;
mod row_stream;
mod sized_stream;

pub(crate) use self::held_rows::HeldRows;
pub use self::live_stream::LiveStream;
pub(crate) use self::row_sizes::RowSizes;
pub use self::row_stream::RowStream;
pub use self::sized_stream::SizedStream;
