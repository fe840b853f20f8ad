//! The number of columns for which something is kept from line to line.

ghost use Rattle.std.specs.Prelude.{◌≡◌};
ghost use Rattle.pg_picture.specs.Appending.{Appends};
ghost use Rattle.pg_picture.specs.Inside.{body_text};
ghost use Rattle.pg_picture.specs.Table.{Known, table_body};

use crate::kept::{KeptCell, KeptCells, KeptRectangle, no_slots};
use crate::looked_up_table::LookedUpTable;
use pg_layout::{Colors, Dimension, PeekableRecords};
use pg_picture::{SEPARATOR_ROOM, TableMarker};
use std::alloc::{AllocError, Allocator};

/// The most columns of a table that needs few slots.
const FEW: usize = 16;

/// The most terminal columns of a line whose separator needs little room.
const NARROW: usize = 256;

/// This room, in bytes: a separator without colours takes at most four for each terminal column.
const NARROW_ROOM: usize = 1024;

/// The most columns of a table that needs more of them.
const SOME: usize = 128;

/// The most columns for which something is kept.
const MANY: usize = 1024;

impl<'g, T, R, D, C, B> LookedUpTable<'g, T, R, D, C, B>
where
    T: TableMarker,
    R: PeekableRecords,
    D: Dimension,
    C: Colors,
    B: Allocator,
{
    // The lines of the body, with as many slots as its columns need. Many slots cost more than they
    // save if each cell has one line.
    pub(super) fn push_kept_body<A: Allocator>(&self, buf: &mut String<A>) -> Result<(), AllocError>
        ensures { Appends buf.old buf.new result (body_text Known T.table T.table.config.margin.top.size 0 (table_body T.table)) }
    {
        if self.sheet.columns <= FEW && self.sheet.width <= NARROW {
            return self.push_narrow_body(buf);
        }
        self.push_wide_body(buf)
    }

    // Little room is lent. It is out of line, since a function clears all its room when it begins.
    #[inline(never)]
    fn push_narrow_body<A: Allocator>(&self, buf: &mut String<A>) -> Result<(), AllocError>
        ensures { Appends buf.old buf.new result (body_text Known T.table T.table.config.margin.top.size 0 (table_body T.table)) }
    {
        let mut separator = [0; NARROW_ROOM];
        let mut cells: [Option<KeptCell>; FEW] = no_slots();
        let mut rectangles: [Option<KeptRectangle<T>>; FEW] = no_slots();
        let mut kept: KeptCells<'_, T> = KeptCells::new(
            &mut cells,
            &mut rectangles,
            &mut separator,
        );
        self.push_body(buf, &mut kept)
    }

    #[inline(never)]
    fn push_wide_body<A: Allocator>(&self, buf: &mut String<A>) -> Result<(), AllocError>
        ensures { Appends buf.old buf.new result (body_text Known T.table T.table.config.margin.top.size 0 (table_body T.table)) }
    {
        let mut separator = [0; SEPARATOR_ROOM];
        if self.sheet.columns <= FEW || !self.may_have_tall_cells() {
            let mut cells: [Option<KeptCell>; FEW] = no_slots();
            let mut rectangles: [Option<KeptRectangle<T>>; FEW] = no_slots();
            let mut kept: KeptCells<'_, T> = KeptCells::new(
                &mut cells,
                &mut rectangles,
                &mut separator,
            );
            return self.push_body(buf, &mut kept);
        }
        if self.sheet.columns <= SOME {
            let mut cells: [Option<KeptCell>; SOME] = no_slots();
            let mut rectangles: [Option<KeptRectangle<T>>; SOME] = no_slots();
            let mut kept: KeptCells<'_, T> = KeptCells::new(
                &mut cells,
                &mut rectangles,
                &mut separator,
            );
            return self.push_body(buf, &mut kept);
        }
        let mut cells: [Option<KeptCell>; MANY] = no_slots();
        let mut rectangles: [Option<KeptRectangle<T>>; MANY] = no_slots();
        let mut kept: KeptCells<'_, T> = KeptCells::new(
            &mut cells,
            &mut rectangles,
            &mut separator,
        );
        self.push_body(buf, &mut kept)
    }

    // Whether a cell may have more than one line.
    fn may_have_tall_cells(&self) -> bool {
        if self.is_spanned {
            return true;
        }
        for row in 0..self.rows {
            if self.pen().height_of(row) > 1 {
                return true;
            }
        }
        false
    }
}
