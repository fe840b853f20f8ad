//! Separators.

ghost use Rattle.std.specs.Prelude.{◌≡◌, ◌++◌, IfOk, flat_map};
ghost use Rattle.std.specs.List.{range_with_len};
ghost use Rattle.pg_config.specs.Config.{get_horizontal};
ghost use Rattle.pg_picture.specs.Appending.{Appends};
ghost use Rattle.pg_picture.specs.Pieces.{separator_text};
ghost use Rattle.pg_picture.specs.Inside.{items_after, last_color};
ghost use Rattle.pg_picture.specs.Table.{separator_items, separator_part, crossing_at, border_items};
ghost use Rattle.pg_peekable.specs.Inside.{IsInner};

use crate::kept::KeptCells;
use crate::lines::Separator;
use crate::looked_up_table::LookedUpTable;
use pg_layout::{ANSIBuf, Colors, Dimension, PeekableRecords, Position};
use pg_picture::{Run, TableMarker, push_text};
use std::alloc::{AllocError, Allocator};

impl<'g, T, R, D, C, B> LookedUpTable<'g, T, R, D, C, B>
where
    T: TableMarker,
    R: PeekableRecords,
    D: Dimension,
    C: Colors,
    B: Allocator,
{
    pub(super) fn push_separator<A: Allocator>(
        &self,
        buf: &mut String<A>,
        kept: &mut KeptCells<'_, T>,
        separator: &Separator<T>,
    ) -> Result<(), AllocError>
        ensures { Appends buf.old buf.new result (separator_text (separator_items T.table separator.now.row)) }
    {
        let row = separator.row;
        if 0 < row && row < self.rows {
            return self.push_inner_separator(buf, kept, separator);
        }
        self.push_new_separator(buf, kept, separator)
    }

    // The separator between two rows: the kept one, or a new one, which is kept if all of them are
    // equal.
    fn push_inner_separator<A: Allocator>(
        &self,
        buf: &mut String<A>,
        kept: &mut KeptCells<'_, T>,
        separator: &Separator<T>,
    ) -> Result<(), AllocError>
        requires inner { IsInner T.table separator.now.row }
        ensures { Appends buf.old buf.new result (separator_text (separator_items T.table separator.now.row)) }
    {
        if let Some(text) = kept.separator() {
            return push_text(buf, text);
        }
        let from = buf.len();
        self.push_new_separator(buf, kept, separator)?;
        if self.pen().has_equal_separators() {
            kept.keep_separator(buf, from);
        }
        Ok(())
    }

    fn push_new_separator<A: Allocator>(
        &self,
        buf: &mut String<A>,
        kept: &mut KeptCells<'_, T>,
        separator: &Separator<T>,
    ) -> Result<(), AllocError>
        ensures { Appends buf.old buf.new result (separator_text (separator_items T.table separator.now.row)) }
    {
        let run = self.push_columns(Run::new(), buf, kept, separator)?;
        let run = self.push_last_crossing(run, buf, separator.row)?;
        run.close(buf)
    }

    fn push_columns<'s, A: Allocator>(
        &'s self,
        mut run: Run<'s, ANSIBuf<B>>,
        buf: &mut String<A>,
        kept: &mut KeptCells<'_, T>,
        separator: &Separator<T>,
    ) -> Result<Run<'s, ANSIBuf<B>>, AllocError>
        ensures appends { Appends buf.old buf.new result (items_after run.entry (flat_map (separator_part T.table separator.now.row) (range_with_len 0 T.table.columns))) }
        ensures color { IfOk result (λ after. after ≡ last_color run.entry (flat_map (separator_part T.table separator.now.row) (range_with_len 0 T.table.columns))) }
    {
        if self.is_spanned {
            return self.push_spanned_columns(run, buf, kept, separator);
        }
        for column in 0..self.sheet.columns {
            run = self.push_column(run, buf, Position::new(separator.row, column))?;
        }
        Ok(run)
    }

    #[inline(always)]
    pub(super) fn push_column<'s, A: Allocator>(
        &'s self,
        run: Run<'s, ANSIBuf<B>>,
        buf: &mut String<A>,
        pos: Position,
    ) -> Result<Run<'s, ANSIBuf<B>>, AllocError>
        ensures appends { Appends buf.old buf.new result (items_after run.entry (crossing_at T.table.config T.table.rows T.table.columns pos
            ++ border_items T.table.config pos T.table.rows (T.table.width pos.col) (get_horizontal T.table.config pos T.table.rows))) }
        ensures color { IfOk result (λ after. after
            ≡ last_color run.entry (crossing_at T.table.config T.table.rows T.table.columns pos
            ++ border_items T.table.config pos T.table.rows (T.table.width pos.col) (get_horizontal T.table.config pos T.table.rows))) }
    {
        let run = self.push_crossing(run, buf, pos)?;
        self.pen().push_border(run, buf, pos, self.rows)
    }

    #[inline(always)]
    pub(super) fn push_crossing<'s, A: Allocator>(
        &'s self,
        run: Run<'s, ANSIBuf<B>>,
        buf: &mut String<A>,
        pos: Position,
    ) -> Result<Run<'s, ANSIBuf<B>>, AllocError>
        ensures appends { Appends buf.old buf.new result (items_after run.entry (crossing_at T.table.config T.table.rows T.table.columns pos)) }
        ensures color { IfOk result (λ after. after ≡ last_color run.entry (crossing_at T.table.config T.table.rows T.table.columns pos)) }
    {
        self.pen().push_crossing(run, buf, pos, self.rows)
    }

    fn push_last_crossing<'s, A: Allocator>(
        &'s self,
        run: Run<'s, ANSIBuf<B>>,
        buf: &mut String<A>,
        row: usize,
    ) -> Result<Run<'s, ANSIBuf<B>>, AllocError>
        ensures appends { Appends buf.old buf.new result (items_after run.entry (separator_part T.table row T.table.columns)) }
        ensures color { IfOk result (λ after. after ≡ last_color run.entry (separator_part T.table row T.table.columns)) }
    {
        self.push_crossing(run, buf, Position::new(row, self.sheet.columns))
    }
}
