//! The lines of a compact table, one below the other.

ghost use Rattle.std.specs.Prelude.{◌≡◌, ◌==◌, ◌-◌, ◌++◌, [], ℕ, List, IfSome, IsOk, false, true, length, flat_map, replicate};
ghost use Rattle.std.specs.Iterator.{IsFinite};
ghost use Rattle.std.specs.List.{range_with_len};
ghost use Rattle.pg_layout.specs.Colors.{str_color};
ghost use Rattle.pg_layout.specs.Records.{Gives};
ghost use Rattle.pg_picture.specs.Appending.{Appends};
ghost use Rattle.pg_picture.specs.CompactLines.{compact_full_width, line_if, separator_row, padding_row, text_row, row_lines};
ghost use Rattle.pg_picture.specs.Pieces.{continued, fed};
ghost use Rattle.pg_picture.specs.Inside.{feed_before, lines_before};
ghost use Rattle.pg_picture.specs.Picture.{compact_picture};
ghost use Rattle.pg_compact.specs.CompactGrids.{has_no_cells, CompactFits};
ghost use Rattle.pg_compact.specs.Inside.{printed_table, IsRow, AreRows, IsInnerSeparator, lines_between, line_colors, lines_of_row, head_lines, foot_lines};

use crate::printer::CompactPrinter;
use crate::separators::{bottom_line, top_line};
use pg_layout::{ANSIStr, Colors, Dimension, HorizontalLine};
use pg_picture::fits::compact_full_width;
use pg_picture::{SEPARATOR_ROOM, SeparatorKeeper, push_compact_margin, push_feed};
use std::alloc::{AllocError, Allocator};
use std::convert::AsStr;

impl<D: Dimension, C: Colors> CompactPrinter<'_, D, C> {
    // The picture of the table of these rows.
    pub(super) fn push_table<T, Cells, Rows, A>(
        &self,
        buf: &mut String<A>,
        mut rows: Rows,
    ) -> Result<(), AllocError>
    where
        T: AsStr + Drop,
        Cells: Iterator<Item = T>,
        Rows: Iterator<Item = Cells>,
        A: Allocator,
        requires { (texts : List (List (List ℕ)))
            × AreRows (Gives (λ x y. T.text x ≡ y) Cells.can_next Cells.next_gives Cells.remaining) Rows.can_next Rows.next_gives Rows.remaining self.now.columns 0 texts rows
            × CompactFits (printed_table D.width C.color self.now texts) }
        ensures appends { (texts : List (List (List ℕ)))
            → AreRows (Gives (λ x y. T.text x ≡ y) Cells.can_next Cells.next_gives Cells.remaining) Rows.can_next Rows.next_gives Rows.remaining self.now.columns 0 texts rows
            → Appends buf.old buf.new result (compact_picture (printed_table D.width C.color self.now texts)) }
        ensures empty { (texts : List (List (List ℕ)))
            → AreRows (Gives (λ x y. T.text x ≡ y) Cells.can_next Cells.next_gives Cells.remaining) Rows.can_next Rows.next_gives Rows.remaining self.now.columns 0 texts rows
            → has_no_cells (printed_table D.width C.color self.now texts) ≡ true → IsOk result × (buf.new ≡ buf.old) }
    {
        if self.columns == 0 {
            return Ok(());
        }
        let Some(cells) = rows.next() else {
            return Ok(());
        };
        let width = compact_full_width(self.config, &self.dimension, self.columns).unwrap();
        let is_first = self.has_no_head();
        self.push_head(buf, width)?;
        self.push_row(buf, 0, cells, is_first)?;
        self.push_next_rows(buf, rows)?;
        self.push_foot(buf, width)
    }

    // Whether no line is above the rows.
    fn has_no_head(&self) -> bool
        ensures { result ≡ (length (head_lines (printed_table D.width C.color self.now [])) == 0) }
    {
        self.config.get_margin().top.size == 0 && !self.config.get_borders().has_top()
    }

    // What is above the rows: the top margin and the top line.
    fn push_head<A: Allocator>(&self, buf: &mut String<A>, width: usize) -> Result<(), AllocError>
        requires width { width ≡ compact_full_width (printed_table D.width C.color self.now []) }
        ensures { Appends buf.old buf.new result (continued 0 (head_lines (printed_table D.width C.color self.now []))) }
    {
        let (borders, colors) = (self.config.get_borders(), self.config.get_borders_color());
        let margin = self.config.get_margin().top;
        push_compact_margin(buf, margin, self.config.get_margin_color().top, width, true)?;
        self.push_separator_if(
            buf,
            borders.has_top(),
            top_line(borders),
            top_line(colors),
            margin.size == 0,
        )
    }

    // What is below the rows: the bottom line and the bottom margin.
    fn push_foot<A: Allocator>(&self, buf: &mut String<A>, width: usize) -> Result<(), AllocError>
        requires width { width ≡ compact_full_width (printed_table D.width C.color self.now []) }
        ensures { Appends buf.old buf.new result (fed (foot_lines (printed_table D.width C.color self.now []))) }
    {
        let (borders, colors) = (self.config.get_borders(), self.config.get_borders_color());
        let (margin, color) = (self.config.get_margin(), self.config.get_margin_color());
        self.push_separator_if(
            buf,
            borders.has_bottom(),
            bottom_line(borders),
            bottom_line(colors),
            false,
        )?;
        push_compact_margin(buf, margin.bottom, color.bottom, width, false)
    }

    // The lines of the rows after the first one, each below its separator.
    fn push_next_rows<T, Cells, Rows, A>(
        &self,
        buf: &mut String<A>,
        rows: Rows,
    ) -> Result<(), AllocError>
    where
        T: AsStr + Drop,
        Cells: Iterator<Item = T>,
        Rows: Iterator<Item = Cells>,
        A: Allocator,
        requires rows { (texts : List (List (List ℕ)))
            × AreRows (Gives (λ x y. T.text x ≡ y) Cells.can_next Cells.next_gives Cells.remaining) Rows.can_next Rows.next_gives Rows.remaining self.now.columns 1 texts rows }
        ensures { (texts : List (List (List ℕ)))
            → AreRows (Gives (λ x y. T.text x ≡ y) Cells.can_next Cells.next_gives Cells.remaining) Rows.can_next Rows.next_gives Rows.remaining self.now.columns 1 texts rows
            → Appends buf.old buf.new result (fed (flat_map (row_lines (printed_table D.width C.color self.now texts)) (range_with_len 1 (length texts - 1)))) }
    {
        let mut room = [0; SEPARATOR_ROOM];
        let mut kept = SeparatorKeeper::new(&mut room);
        let mut row = 0;
        for cells in rows {
            row += 1;
            self.push_inner_separator(buf, &mut kept)?;
            self.push_row(buf, row, cells, false)?;
        }
        Ok(())
    }

    // The lines of a row; `is_first` is whether no line is before them.
    fn push_row<T, Cells, A>(
        &self,
        buf: &mut String<A>,
        row: usize,
        cells: Cells,
        is_first: bool,
    ) -> Result<(), AllocError>
    where
        T: AsStr + Drop,
        Cells: Iterator<Item = T>,
        A: Allocator,
        requires cells { Cells.can_next cells × IsFinite (Cells.remaining cells) }
        ensures { (texts : List (List (List ℕ))) → IsRow T.text Cells.next_gives self.now.columns texts row cells
            → Appends buf.old buf.new result (continued (lines_before is_first) (lines_of_row (printed_table D.width C.color self.now texts) row)) }
    {
        let (padding, colors) = (self.config.get_padding(), self.config.get_padding_color());
        self.push_padding_rows(buf, padding.top.size, colors.top, is_first)?;
        self.push_text_line(buf, row, cells, is_first && padding.top.size == 0)?;
        self.push_padding_rows(buf, padding.bottom.size, colors.bottom, false)
    }

    // The text line of a row, after the line feed that separates it from the line before.
    fn push_text_line<T, Cells, A>(
        &self,
        buf: &mut String<A>,
        row: usize,
        cells: Cells,
        is_first: bool,
    ) -> Result<(), AllocError>
    where
        T: AsStr + Drop,
        Cells: Iterator<Item = T>,
        A: Allocator,
        requires cells { Cells.can_next cells × IsFinite (Cells.remaining cells) }
        ensures { (texts : List (List (List ℕ))) → IsRow T.text Cells.next_gives self.now.columns texts row cells
            → Appends buf.old buf.new result (feed_before is_first ++ text_row (printed_table D.width C.color self.now texts) row) }
    {
        push_feed(buf, is_first)?;
        self.push_text_row(buf, row, cells)
    }

    // So many padding lines; `is_first` is whether no line is before them.
    fn push_padding_rows<A: Allocator>(
        &self,
        buf: &mut String<A>,
        count: usize,
        color: ANSIStr<'_>,
        is_first: bool,
    ) -> Result<(), AllocError>
        ensures { Appends buf.old buf.new result (continued (lines_before is_first) (replicate count (padding_row (printed_table D.width C.color self.now []) (str_color color.entry)))) }
    {
        for number in 0..count {
            self.push_padding_line(buf, color, is_first && number == 0)?;
        }
        Ok(())
    }

    // A padding line, after the line feed that separates it from the line before.
    fn push_padding_line<A: Allocator>(
        &self,
        buf: &mut String<A>,
        color: ANSIStr<'_>,
        is_first: bool,
    ) -> Result<(), AllocError>
        ensures { Appends buf.old buf.new result (feed_before is_first ++ padding_row (printed_table D.width C.color self.now []) (str_color color.entry)) }
    {
        push_feed(buf, is_first)?;
        self.push_padding_row(buf, color)
    }

    // The separator between two rows, if its line exists, after its line feed.
    fn push_inner_separator<A: Allocator>(
        &self,
        buf: &mut String<A>,
        kept: &mut SeparatorKeeper<'_>,
    ) -> Result<(), AllocError>
        requires kept { IfSome kept.old.text (IsInnerSeparator (printed_table D.width C.color self.now [])) }
        ensures appends { Appends buf.old buf.new result (continued (lines_before false) (lines_between (printed_table D.width C.color self.now []))) }
        ensures kept { IfSome kept.new.text (IsInnerSeparator (printed_table D.width C.color self.now [])) }
    {
        if !self.config.get_borders().has_horizontal() {
            return Ok(());
        }
        push_feed(buf, false)?;
        self.push_kept_separator(buf, kept)
    }

    // A separator, if its line exists, after the line feed that separates it from the line before.
    fn push_separator_if<A: Allocator>(
        &self,
        buf: &mut String<A>,
        is_there: bool,
        glyphs: HorizontalLine<char>,
        colors: HorizontalLine<ANSIStr<'static>>,
        is_first: bool,
    ) -> Result<(), AllocError>
        ensures { Appends buf.old buf.new result (continued (lines_before is_first) (line_if is_there (separator_row (printed_table D.width C.color self.now []) glyphs (line_colors colors.entry)))) }
    {
        if !is_there {
            return Ok(());
        }
        push_feed(buf, is_first)?;
        self.push_separator(buf, glyphs, colors)
    }
}
