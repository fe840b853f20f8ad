//! Text lines and padding lines.

ghost use Rattle.std.specs.Prelude.{◌++◌, ℕ, List, [], flat_map};
ghost use Rattle.std.specs.List.{range_with_len};
ghost use Rattle.pg_layout.specs.Colors.{str_color};
ghost use Rattle.std.specs.Iterator.{IsFinite};
ghost use Rattle.pg_picture.specs.Appending.{Appends};
ghost use Rattle.pg_picture.specs.CompactLines.{padding_row, text_row, compact_cell_of, compact_indent};
ghost use Rattle.pg_compact.specs.Inside.{printed_table, IsRow, inner_glyph, text_column, padding_column};
ghost use Rattle.pg_compact.specs.RowEdges.{row_start, row_end};
ghost use Rattle.pg_config.specs.CompactConfig.{settings_of};

use crate::printer::CompactPrinter;
use pg_layout::{ANSIStr, Colors, Dimension, Indent, Position};
use pg_picture::{push_border_glyph, push_compact_cell, push_compact_indent, push_text};
use std::alloc::{AllocError, Allocator};
use std::convert::AsStr;

impl<D: Dimension, C: Colors> CompactPrinter<'_, D, C> {
    // The text line of a row.
    pub(super) fn push_text_row<T: AsStr + Drop, I: Iterator<Item = T>, A: Allocator>(
        &self,
        buf: &mut String<A>,
        row: usize,
        cells: I,
    ) -> Result<(), AllocError>
        requires cells { I.can_next cells × IsFinite (I.remaining cells) }
        ensures { (texts : List (List (List ℕ))) → IsRow T.text I.next_gives self.now.columns texts row cells
            → Appends buf.old buf.new result (text_row (printed_table D.width C.color self.now texts) row) }
    {
        self.push_row_start(buf)?;
        self.push_cells(buf, row, cells)?;
        self.push_row_end(buf)
    }

    // A padding line.
    pub(super) fn push_padding_row<A: Allocator>(
        &self,
        buf: &mut String<A>,
        color: ANSIStr<'_>,
    ) -> Result<(), AllocError>
        ensures { Appends buf.old buf.new result (padding_row (printed_table D.width C.color self.now []) (str_color color.entry)) }
    {
        self.push_row_start(buf)?;
        self.push_blanks(buf, color)?;
        self.push_row_end(buf)
    }

    // What is left of a row's cells: the left margin and the left glyph.
    #[tactic(auto, unfolding(crate::specs::RowEdges::row_start))]
    fn push_row_start<A: Allocator>(&self, buf: &mut String<A>) -> Result<(), AllocError>
        ensures { Appends buf.old buf.new result (row_start (settings_of self.now.config.now)) }
    {
        if let Some(text) = &self.edges.start {
            return push_text(buf, text.as_str());
        }
        let (borders, colors) = (self.config.get_borders(), self.config.get_borders_color());
        push_compact_indent(
            buf,
            self.config.get_margin().left,
            self.config.get_margin_color().left,
        )?;
        push_border_glyph(buf, borders.left, colors.left)
    }

    // What is right of a row's cells: the right glyph and the right margin.
    #[tactic(auto, unfolding(crate::specs::RowEdges::row_end))]
    fn push_row_end<A: Allocator>(&self, buf: &mut String<A>) -> Result<(), AllocError>
        ensures { Appends buf.old buf.new result (row_end (settings_of self.now.config.now)) }
    {
        if let Some(text) = &self.edges.end {
            return push_text(buf, text.as_str());
        }
        let (borders, colors) = (self.config.get_borders(), self.config.get_borders_color());
        push_border_glyph(buf, borders.right, colors.right)?;
        push_compact_indent(
            buf,
            self.config.get_margin().right,
            self.config.get_margin_color().right,
        )
    }

    // The cells of a row, each after the glyph between it and the one before.
    fn push_cells<T: AsStr + Drop, I: Iterator<Item = T>, A: Allocator>(
        &self,
        buf: &mut String<A>,
        row: usize,
        mut cells: I,
    ) -> Result<(), AllocError>
        requires cells { I.can_next cells × IsFinite (I.remaining cells) }
        ensures { (texts : List (List (List ℕ))) → IsRow T.text I.next_gives self.now.columns texts row cells
            → Appends buf.old buf.new result (flat_map (text_column (printed_table D.width C.color self.now texts) row) (range_with_len 0 self.now.columns)) }
    {
        for column in 0..self.columns {
            let Some(cell) = cells.next() else {
                return Ok(());
            };
            self.push_cell(buf, Position::new(row, column), cell.as_str())?;
        }
        Ok(())
    }

    // A cell, after the glyph between it and the one before.
    fn push_cell<A: Allocator>(
        &self,
        buf: &mut String<A>,
        pos: Position,
        text: &str,
    ) -> Result<(), AllocError>
        ensures { Appends buf.old buf.new result (inner_glyph (printed_table D.width C.color self.now []) pos.col
            ++ compact_cell_of (printed_table D.width C.color self.now []).config (D.width self.now.dimension pos.col) (C.color self.now.colors pos) text.now) }
    {
        self.push_inner_glyph(buf, pos.col)?;
        let width = self.dimension.get_width(pos.col);
        push_compact_cell(buf, self.config, width, self.colors.get_color(pos), text)
    }

    // The blanks of all columns, each after the glyph between it and the one before.
    fn push_blanks<A: Allocator>(
        &self,
        buf: &mut String<A>,
        color: ANSIStr<'_>,
    ) -> Result<(), AllocError>
        ensures { Appends buf.old buf.new result (flat_map (padding_column (printed_table D.width C.color self.now []) (str_color color.entry)) (range_with_len 0 self.now.columns)) }
    {
        for column in 0..self.columns {
            self.push_blank(buf, column, color)?;
        }
        Ok(())
    }

    // The spaces of a column, after the glyph between it and the one before.
    #[tactic(auto, unfolding(crate::specs::Inside::padding_column))]
    fn push_blank<A: Allocator>(
        &self,
        buf: &mut String<A>,
        column: usize,
        color: ANSIStr<'_>,
    ) -> Result<(), AllocError>
        ensures { Appends buf.old buf.new result (padding_column (printed_table D.width C.color self.now []) (str_color color.entry) column) }
    {
        self.push_inner_glyph(buf, column)?;
        let blank = Indent::spaced(self.dimension.get_width(column));
        push_compact_indent(buf, blank, color)
    }

    // The glyph between a column and the one before it.
    #[tactic(auto, unfolding(crate::specs::Inside::inner_glyph))]
    fn push_inner_glyph<A: Allocator>(
        &self,
        buf: &mut String<A>,
        column: usize,
    ) -> Result<(), AllocError>
        ensures { Appends buf.old buf.new result (inner_glyph (printed_table D.width C.color self.now []) column) }
    {
        if column == 0 {
            return Ok(());
        }
        if let Some(text) = &self.edges.between {
            return push_text(buf, text.as_str());
        }
        let (borders, colors) = (self.config.get_borders(), self.config.get_borders_color());
        push_border_glyph(buf, borders.vertical, colors.vertical)
    }
}
