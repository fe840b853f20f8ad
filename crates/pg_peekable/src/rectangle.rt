//! The rectangles of cells.

use pg_layout::Position;

/// The rectangle of a cell: its top left, and how many columns and lines it has.
#[derive(Debug, Clone, Copy, PartialEq, Eq)]
pub(crate) struct Rectangle {
    pub(crate) corner: Position,
    pub(crate) width: usize,
    pub(crate) height: usize,
}
