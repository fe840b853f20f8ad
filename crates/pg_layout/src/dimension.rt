//! The sizes of a table's columns and rows.

ghost use Rattle.std.specs.Prelude.{◌≡◌, ℕ, slice_index_or};

use std::alloc::{Allocator, Global};

/// The widths of a table's columns and the heights of its rows.
///
/// Both results depend on the value and the number alone.
pub trait Dimension {
    /// The width of each column, in terminal columns.
    ghost width: { Self → ℕ → ℕ };

    /// The height of each row, in lines.
    ghost height: { Self → ℕ → ℕ };

    /// The width of a column, in terminal columns.
    fn get_width(&self, column: usize) -> usize
        ensures { result ≡ width self.now column };

    /// The height of a row, in lines.
    fn get_height(&self, row: usize) -> usize
        ensures { result ≡ height self.now row };
}

impl<D: Dimension> Dimension for &D {
    ghost width = { λ d. D.width d.now };

    ghost height = { λ d. D.height d.now };

    fn get_width(&self, column: usize) -> usize {
        (**self).get_width(column)
    }

    fn get_height(&self, row: usize) -> usize {
        (**self).get_height(row)
    }
}

/// The widths of the columns and the heights of the rows, and 0 past their ends: a row past the end
/// of the heights is 0 lines high. If the rows aren't counted beforehand, take [`EvenDimension`].
#[derive(Debug)]
pub struct ConstantDimension<A: Allocator = Global>(
    /// The widths of the columns, in terminal columns.
    pub Vec<usize, A>,
    /// The heights of the rows, in lines.
    pub Vec<usize, A>,
);

// Written out, so that a caller's proof has one call when it drops the sizes.
impl<A: Allocator> Drop for ConstantDimension<A> {
    fn drop(self) {
        let ConstantDimension(widths, heights) = self;
        drop((widths, heights));
    }
}

impl<A: Allocator> Dimension for ConstantDimension<A> {
    ghost width = { λ d column. slice_index_or d.0.items column 0 };

    ghost height = { λ d row. slice_index_or d.1.items row 0 };

    fn get_width(&self, column: usize) -> usize {
        self.0.get(column).copied().unwrap_or(0)
    }

    fn get_height(&self, row: usize) -> usize {
        self.1.get(row).copied().unwrap_or(0)
    }
}

/// The widths of the columns, and 0 past their end; every row has the same height.
///
/// It is for tables whose number of rows isn't known, as when rows come one at a time: past the end
/// of its heights a [`ConstantDimension`] has 0, so further rows would fit and show nothing.
#[derive(Debug)]
pub struct EvenDimension<A: Allocator = Global> {
    /// The widths of the columns, in terminal columns.
    pub widths: Vec<usize, A>,
    /// The height of each row, in lines.
    pub height: usize,
}

// Written out, like that of [`ConstantDimension`].
impl<A: Allocator> Drop for EvenDimension<A> {
    fn drop(self) {
        let EvenDimension { widths, height: _ } = self;
        drop(widths);
    }
}

impl<A: Allocator> Dimension for EvenDimension<A> {
    ghost width = { λ d column. slice_index_or d.widths.items column 0 };

    ghost height = { λ d _. d.height };

    fn get_width(&self, column: usize) -> usize {
        self.widths.get(column).copied().unwrap_or(0)
    }

    fn get_height(&self, _row: usize) -> usize {
        self.height
    }
}
