//! What tables are made of: texts and their lines, places, sides, borders, colours, sizes and records.
#![tactic(auto)]

mod alignment;
mod borders;
mod colors;
mod colors_map;
mod dimension;
mod iter_records;
mod keys;
mod line_cursor;
mod looks;
mod places;
mod position;
mod records;
mod sides;
mod terminal;
mod text;
mod vec_records;

pub use crate::alignment::{AlignmentHorizontal, AlignmentVertical, Formatting};
pub use crate::borders::{Border, Borders, HorizontalLine};
pub use crate::colors::{ANSIBuf, ANSIFmt, ANSIStr, Colors, NoColors, same_color};
pub use crate::colors_map::ColorsMap;
pub use crate::dimension::{ConstantDimension, Dimension, EvenDimension};
pub use crate::iter_records::{IterRecords, IterRows};
pub use crate::keys::Key;
pub use crate::line_cursor::LineCursor;
pub use crate::looks::Look;
pub use crate::places::Places;
pub use crate::position::{ColumnPlace, Entity, Position};
pub use crate::records::{ExactRecords, PeekableRecords, Records};
pub use crate::sides::{Indent, Offset, Sides};
pub use crate::terminal::{Color, Hue, Tint};
pub use crate::text::{
    Lines, count_lines, first_line, get_line, get_line_width, get_lines, get_text_width, is_blank,
    is_plain, trim_line,
};
pub use crate::vec_records::{
    OwnedColumns, OwnedRows, PushFault, RecordsFault, VecColumns, VecRecords, VecRows,
};
