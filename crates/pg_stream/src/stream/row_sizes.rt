//! Sizes of a table whose rows bring their heights: the widths, and the height of one row.

ghost use Rattle.pg_stream.specs.Inside.{height_in};

use pg_layout::Dimension;

/// The widths of a table's columns, the height of its next row, and the height of all rows above:
/// the first row counts for all of them.
#[derive(Drop)]
pub(crate) struct RowSizes<'a, D> {
    pub(crate) widths: &'a D,
    pub(crate) row: usize,
    pub(crate) height: usize,
    pub(crate) above: usize,
}

impl<D: Dimension> Dimension for RowSizes<'_, D> {
    ghost width = { λ sizes. D.width sizes.widths.now };

    ghost height = { λ sizes. height_in sizes.row sizes.height sizes.above };

    #[inline(always)]
    fn get_width(&self, column: usize) -> usize {
        self.widths.get_width(column)
    }

    #[inline(always)]
    fn get_height(&self, row: usize) -> usize {
        if row == self.row {
            return self.height;
        }
        if row == 0 {
            return self.above;
        }
        0
    }
}
