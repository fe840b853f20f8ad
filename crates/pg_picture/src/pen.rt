//! The pieces of lines that all printers draw: a line's ends, verticals, crossings and horizontals.

ghost use Rattle.std.specs.Prelude.{◌≡◌, ◌&&◌, ◌==◌, ⊤, false, length, replicate, None, IfOk};
ghost use Rattle.pg_config.specs.Config.{get_alignment_horizontal, has_equal_row_lines, has_horizontal, get_horizontal, get_vertical, get_vertical_color};
ghost use Rattle.pg_layout.specs.Colors.{lent_color};
ghost use Rattle.pg_layout.specs.declared.position.Position.{Position};
ghost use Rattle.pg_picture.specs.Appending.{Appends};
ghost use Rattle.pg_picture.specs.Pieces.{continued, glyph_piece, written};
ghost use Rattle.pg_picture.specs.Inside.{items_after, last_color, lines_before, line_start, line_end};
ghost use Rattle.pg_picture.specs.Grids.{no_table, sheet_table};
ghost use Rattle.pg_picture.specs.Table.{Table, vertical, crossing_at, border_items, margin_line, side_margin_at};
ghost use Rattle.std.proofs.Props.{props};

use crate::margin::push_feed;
use crate::run::Run;
use crate::sheet::{Sheet, VerticalKind};
use crate::table_margins::{
    push_bottom_margin, push_left_margin, push_right_margin, push_top_margin,
};
use crate::vertical::{push_vertical, push_vertical_at};
use pg_layout::{ANSIBuf, AlignmentHorizontal, Colors, Dimension, Position};
use std::alloc::{AllocError, Allocator};
use std::marker::{Brand, PhantomData};

/// The table that is drawn, as a word of types: it names one table, and takes no room.
///
/// Whoever draws a whole table picks the word, by a call that passes `Brand`: the proof of that
/// call names the table (`ghosts-..` in its `Invariants.antt`), `PeekableGrid` that of its parts, a
/// printer of rows that of its sheet. It is no contradiction that the `Brand` below has a table of
/// nothing: everything that is called is proved for every table, so a call may pick any, and the
/// one below is taken only if none is picked. There it proves nothing false, since a [`Pen`] is
/// made only if its sheet is shown to be the word's.
pub trait TableMarker {
    /// The table.
    ghost table: { Table };
}

impl TableMarker for Brand {
    ghost table = { no_table };
}

/// Draws the pieces of a table's lines, by its sheet and the word for it.
///
/// For callers who draw pieces of a table themselves.
pub struct Pen<'s, T: TableMarker, D: Dimension, C: Colors, B: Allocator> {
    pub sheet: &'s Sheet<'s, D, C, B>,
    /// Whether a cell may have a colour.
    pub is_colored: bool,
    pub of: PhantomData<T>,
    ghost is: { sheet_table T.table.rows T.table.text D.width D.height C.color sheet.now ≡ T.table } by { Prim.hlevel props },
    ghost is_plain: { is_colored ≡ false → (pos : Position) → T.table.color pos ≡ None } by { Prim.hlevel props },
}

impl<'s, T: TableMarker, D: Dimension, C: Colors, B: Allocator> Clone for Pen<'s, T, D, C, B> {
    ghost is_clone = { λ x y. y ≡ x };

    ghost is_infallible = { λ _. ⊤ };

    fn clone(&self) -> Result<Self, AllocError> {
        Ok(*self)
    }
}

impl<'s, T: TableMarker, D: Dimension, C: Colors, B: Allocator> Copy for Pen<'s, T, D, C, B> {}

impl<'s, T, D, C, B> Pen<'s, T, D, C, B>
where
    T: TableMarker,
    D: Dimension,
    C: Colors,
    B: Allocator,
{
    /// How many columns the table has.
    #[inline(always)]
    pub fn columns(self) -> usize
        ensures { result ≡ T.table.columns }
    {
        self.sheet.columns
    }

    /// The width of a column.
    #[inline(always)]
    pub fn width_of(self, column: usize) -> usize
        ensures { result ≡ T.table.width column }
    {
        self.sheet.dimension.get_width(column)
    }

    /// The height of a row.
    #[inline(always)]
    pub fn height_of(self, row: usize) -> usize
        ensures { result ≡ T.table.height row }
    {
        self.sheet.dimension.get_height(row)
    }

    /// The colour of a cell, which isn't looked up if none has one.
    #[inline(always)]
    pub fn color_of(self, pos: Position) -> Option<&'s C::Color>
        ensures { lent_color C.Color.color_of result ≡ T.table.color pos }
    {
        if !self.is_colored {
            return None;
        }
        self.sheet.colors.get_color(pos)
    }

    /// The horizontal alignment of a cell, which isn't looked up if the sheet has that of its column.
    #[inline(always)]
    pub fn side_of(self, pos: Position) -> AlignmentHorizontal
        ensures { result ≡ get_alignment_horizontal T.table.config pos }
    {
        match self.sheet.sides.get(pos.col) {
            Some(side) => side,
            None => self.sheet.config.get_alignment_horizontal(pos),
        }
    }

    /// Whether there is a separator above a row of so many rows, or below the last one.
    #[inline(always)]
    #[tactic(auto, using(crate::proofs::FittingTables::no_row_line))]
    pub fn has_horizontal(self, row: usize, rows: usize) -> bool
        ensures { result ≡ has_horizontal T.table.config row rows }
    {
        if !self.sheet.draws_separators {
            return false;
        }
        self.sheet.config.has_horizontal(row, rows)
    }

    /// Whether the separators above all rows but the first are equal: no cell goes through them, and no
    /// glyph or colour of a row line was set by its place.
    pub fn has_equal_separators(self) -> bool
        ensures { result ≡ ((length T.table.config.spans == 0) && has_equal_row_lines T.table.config) }
    {
        self.sheet.config.spans().is_empty() && self.sheet.config.has_equal_row_lines()
    }

    /// Appends the lines of the top margin.
    pub fn push_top<A: Allocator>(self, buf: &mut String<A>) -> Result<(), AllocError>
        ensures { Appends buf.old buf.new result
            (continued 0 (replicate T.table.config.margin.top.size
            (written (margin_line T.table.config.margin.top T.table.config.margin_offset.top T.table.config.margin_color.top self.entry.sheet.now.width)))) }
    {
        push_top_margin(buf, self.sheet.config, self.sheet.width)
    }

    /// Appends the lines of the bottom margin; `is_first` is whether no line is above it.
    pub fn push_bottom<A: Allocator>(
        self,
        buf: &mut String<A>,
        is_first: bool,
    ) -> Result<(), AllocError>
        ensures { Appends buf.old buf.new result
            (continued (lines_before is_first) (replicate T.table.config.margin.bottom.size
            (written (margin_line T.table.config.margin.bottom T.table.config.margin_offset.bottom T.table.config.margin_color.bottom self.entry.sheet.now.width)))) }
    {
        push_bottom_margin(buf, self.sheet.config, self.sheet.width, is_first)
    }

    /// Appends what comes before a line of the body: its line feed, unless the line is the
    /// picture's first, and its left margin.
    #[inline(always)]
    pub fn push_line_start<A: Allocator>(
        self,
        buf: &mut String<A>,
        index: usize,
    ) -> Result<(), AllocError>
        ensures { Appends buf.old buf.new result (line_start T.table.config self.entry.sheet.now.height index) }
    {
        push_feed(buf, self.is_first(index))?;
        self.push_left(buf, index)
    }

    #[inline(always)]
    fn is_first(self, index: usize) -> bool
        ensures { result ≡ ((T.table.config.margin.top.size == 0) && (index == 0)) }
    {
        self.sheet.begins_with_body && index == 0
    }

    #[inline(always)]
    fn push_left<A: Allocator>(self, buf: &mut String<A>, index: usize) -> Result<(), AllocError>
        ensures { Appends buf.old buf.new result
            (written (side_margin_at self.entry.sheet.now.height T.table.config.margin.left T.table.config.margin_offset.left T.table.config.margin_color.left index)) }
    {
        if !self.sheet.has_sides {
            return Ok(());
        }
        push_left_margin(buf, self.sheet.config, index, self.sheet.height)
    }

    /// Appends what comes after a line of the body: its right margin.
    #[inline(always)]
    pub fn push_line_end<A: Allocator>(
        self,
        buf: &mut String<A>,
        index: usize,
    ) -> Result<(), AllocError>
        ensures { Appends buf.old buf.new result (line_end T.table.config self.entry.sheet.now.height index) }
    {
        if !self.sheet.has_sides {
            return Ok(());
        }
        push_right_margin(buf, self.sheet.config, index, self.sheet.height)
    }

    /// Appends the glyph of a vertical, on a line of its row.
    #[inline(always)]
    pub fn push_vertical<A: Allocator>(
        self,
        buf: &mut String<A>,
        pos: Position,
        line: usize,
    ) -> Result<(), AllocError>
        ensures { Appends buf.old buf.new result (written (vertical T.table pos.row line pos.col)) }
    {
        let sheet = self.sheet;
        match sheet.verticals {
            VerticalKind::Absent => Ok(()),
            VerticalKind::Whole => self.push_whole_vertical(buf, pos),
            VerticalKind::ByLine => {
                let height = sheet.dimension.get_height(pos.row);
                push_vertical_at(buf, sheet.config, sheet.columns, height, pos, line)
            }
        }
    }

    // Between two columns nothing is looked up if all verticals there have one glyph.
    #[inline(always)]
    fn push_whole_vertical<A: Allocator>(
        self,
        buf: &mut String<A>,
        pos: Position,
    ) -> Result<(), AllocError>
        ensures { Appends buf.old buf.new result (written (glyph_piece
            (get_vertical self.entry.sheet.now.config.now pos self.entry.sheet.now.columns)
            (get_vertical_color self.entry.sheet.now.config.now pos self.entry.sheet.now.columns))) }
    {
        let (config, columns) = (self.sheet.config, self.sheet.columns);
        if let Some(glyph) = self.sheet.inner {
            if 0 < pos.col && pos.col < columns {
                let none: Option<&'s ANSIBuf<B>> = None;
                return push_vertical(buf, Some(glyph), none);
            }
        }
        let glyph = config.get_vertical(pos, columns);
        push_vertical(buf, glyph, config.get_vertical_color(pos, columns))
    }

    /// Appends the crossing at a place of a separator of a table of so many rows.
    #[inline(always)]
    pub fn push_crossing<A: Allocator>(
        self,
        run: Run<'s, ANSIBuf<B>>,
        buf: &mut String<A>,
        pos: Position,
        rows: usize,
    ) -> Result<Run<'s, ANSIBuf<B>>, AllocError>
        ensures appends { Appends buf.old buf.new result (items_after run.entry (crossing_at T.table.config rows T.table.columns pos)) }
        ensures color { IfOk result (λ after. after ≡ last_color run.entry (crossing_at T.table.config rows T.table.columns pos)) }
    {
        run.crossing(buf, self.sheet.config, pos, (rows, self.sheet.columns))
    }

    /// Appends the horizontal of a column of such a separator.
    #[inline(always)]
    pub fn push_border<A: Allocator>(
        self,
        run: Run<'s, ANSIBuf<B>>,
        buf: &mut String<A>,
        pos: Position,
        rows: usize,
    ) -> Result<Run<'s, ANSIBuf<B>>, AllocError>
        ensures appends { Appends buf.old buf.new result (items_after run.entry (border_items T.table.config pos rows (T.table.width pos.col) (get_horizontal T.table.config pos rows))) }
        ensures color { IfOk result (λ after. after ≡ last_color run.entry (border_items T.table.config pos rows (T.table.width pos.col) (get_horizontal T.table.config pos rows))) }
    {
        let width = self.sheet.dimension.get_width(pos.col);
        run.border(buf, self.sheet.config, pos, width, rows)
    }
}
