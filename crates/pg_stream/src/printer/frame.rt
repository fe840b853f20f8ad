//! What a printer is made of: the table's configuration, its sizes and its colours.

ghost use Rattle.std.specs.Prelude.{◌↔◌, IsTrue};
ghost use Rattle.pg_stream.specs.Inside.{IsSingle};

use pg_layout::{Colors, Dimension};
use pg_picture::Sheet;
use std::alloc::{Allocator, Global};

/// What is known of a table printed row by row before its rows come.
#[derive(Drop)]
pub(crate) struct Frame<'a, D, C, B: Allocator = Global> {
    pub(crate) sheet: Sheet<'a, D, C, B>,
    /// How many rows the table has, if that is known.
    pub(crate) hint: Option<usize>,
}

impl<'a, D: Dimension, C: Colors, B: Allocator> Frame<'a, D, C, B> {
    ghost use Rattle.pg_picture.specs.Grids.{bare_table};

    // Whether the cells of a row are drawn as they come, and never open.
    #[inline(always)]
    pub(crate) fn is_single(&self, row: usize) -> bool
        ensures { IsTrue result ↔ IsSingle (bare_table D.width D.height C.color self.now.sheet) row }
    {
        self.sheet.config.spans().is_empty() && self.sheet.dimension.get_height(row) == 1
    }
}
