//! A cell whose lines are drawn one by one: the place of its text, and each line.

ghost use Rattle.std.specs.Prelude.{◌≡◌, ◌+◌, ◌≤◌, true, length};
ghost use Rattle.pg_layout.specs.Text.{lines_of};
ghost use Rattle.pg_config.specs.Config.{get_alignment_horizontal};
ghost use Rattle.pg_picture.specs.Appending.{Appends};
ghost use Rattle.pg_picture.specs.Fits.{cell_fits};
ghost use Rattle.pg_picture.specs.Pieces.{written, style_at};
ghost use Rattle.pg_picture.specs.Inside.{HasRoomFor, style_of, place_in, placed_line, DrawsAs};
ghost use Rattle.std.proofs.Props.{props};

use crate::cell::push_block_line_of;
use crate::pen::{Pen, TableMarker};
use crate::place::CellPlace;
use pg_config::CellStyle;
use pg_layout::{Colors, Dimension, Position};
use std::alloc::{AllocError, Allocator};
use std::marker::PhantomData;

/// A line of a cell of so many columns, whose text is at a place: its number among the cell's
/// lines, and the one of the text's lines that [`CellPlace::text_line_at`] returns, or any text if
/// it returns none.
///
/// For callers who draw pieces of a table themselves. If a text line is there, the cell has room
/// for it.
#[derive(Drop)]
pub struct PlacedLine<'t, T: TableMarker> {
    pub pos: Position,
    pub width: usize,
    pub place: CellPlace,
    pub number: usize,
    pub text: &'t str,
    pub of: PhantomData<T>,
    ghost has_room: { HasRoomFor (style_at T.table.config pos) place width number text.now } by { Prim.hlevel props },
}

impl<'s, T, D, C, B> Pen<'s, T, D, C, B>
where
    T: TableMarker,
    D: Dimension,
    C: Colors,
    B: Allocator,
{
    /// The place of a text's lines in a cell of so many columns and lines, which has room for it; a
    /// cell of no line shows none.
    pub fn place_of(self, text: &str, pos: Position, width: usize, height: usize) -> CellPlace
        requires { cell_fits (style_at T.table.config pos) text.now width height ≡ true }
        ensures place { result ≡ place_in (style_at T.table.config pos) text.now width height }
        ensures lines { result.skip + result.shown ≤ length (lines_of text.now) }
    {
        match &self.sheet.all {
            Some(style) => {
                let aligned = style.aligned(self.side_of(pos));
                CellPlace::of_text(text, &aligned, width, height)
            }
            None => {
                let style = CellStyle::of(self.sheet.config, pos);
                CellPlace::of_text(text, &style, width, height)
            }
        }
    }

    /// Appends a line of a cell whose text was placed.
    ///
    /// The only error is out of memory; the buffer then has gained a beginning.
    #[inline(always)]
    pub fn push_placed_line<A: Allocator>(
        self,
        buf: &mut String<A>,
        line: PlacedLine<'_, T>,
    ) -> Result<(), AllocError>
        ensures { Appends buf.old buf.new result
            (written (placed_line (style_at T.table.config line.entry.pos) (T.table.color line.entry.pos) line.entry.place line.entry.width line.entry.number line.entry.text.now)) }
    {
        match &self.sheet.all {
            Some(style) => match line.place.left {
                Some(_) => self.push_line_in_style(buf, style, line),
                None => self.push_aligned_line(buf, style, line),
            },
            None => self.push_line_out_of_line(buf, line),
        }
    }

    // Appends the line in this style with the cell's own horizontal alignment: it is aligned by its own width.
    #[inline(never)]
    fn push_aligned_line<A: Allocator>(
        self,
        buf: &mut String<A>,
        style: &CellStyle<'_, B>,
        line: PlacedLine<'_, T>,
    ) -> Result<(), AllocError>
        requires style { record (style_of style.now) { across = get_alignment_horizontal T.table.config line.pos } ≡ style_at T.table.config line.pos }
        ensures { Appends buf.old buf.new result
            (written (placed_line (style_at T.table.config line.entry.pos) (T.table.color line.entry.pos) line.entry.place line.entry.width line.entry.number line.entry.text.now)) }
    {
        let aligned = style.aligned(self.side_of(line.pos));
        self.push_line_in_style(buf, &aligned, line)
    }

    // Passes the line to what looks the cell's style up. Room on a stack is cleared when its
    // function begins, even if that is inlined, so the line's is here, and not where the style of
    // all is at hand.
    #[inline(always)]
    fn push_line_out_of_line<A: Allocator>(
        self,
        buf: &mut String<A>,
        line: PlacedLine<'_, T>,
    ) -> Result<(), AllocError>
        ensures { Appends buf.old buf.new result
            (written (placed_line (style_at T.table.config line.entry.pos) (T.table.color line.entry.pos) line.entry.place line.entry.width line.entry.number line.entry.text.now)) }
    {
        self.push_line_in_own_style(buf, line)
    }

    #[inline(never)]
    fn push_line_in_own_style<A: Allocator>(
        self,
        buf: &mut String<A>,
        line: PlacedLine<'_, T>,
    ) -> Result<(), AllocError>
        ensures { Appends buf.old buf.new result
            (written (placed_line (style_at T.table.config line.entry.pos) (T.table.color line.entry.pos) line.entry.place line.entry.width line.entry.number line.entry.text.now)) }
    {
        let style = self.style_of_lines(line.place.left, line.pos);
        self.push_line_in_style(buf, &style, line)
    }

    // If all lines of a cell have one left share, its alignments say no more, and aren't looked up.
    #[inline(always)]
    fn style_of_lines(self, left: Option<usize>, pos: Position) -> CellStyle<'s, B>
        ensures { DrawsAs left (style_of result) (style_at T.table.config pos) }
    {
        match left {
            Some(_) => CellStyle::unaligned(self.sheet.config, pos),
            None => CellStyle::of(self.sheet.config, pos),
        }
    }

    #[inline(always)]
    fn push_line_in_style<A: Allocator>(
        self,
        buf: &mut String<A>,
        style: &CellStyle<'_, B>,
        line: PlacedLine<'_, T>,
    ) -> Result<(), AllocError>
        requires { DrawsAs line.place.left (style_of style.now) (style_at T.table.config line.pos) }
        ensures { Appends buf.old buf.new result
            (written (placed_line (style_at T.table.config line.entry.pos) (T.table.color line.entry.pos) line.entry.place line.entry.width line.entry.number line.entry.text.now)) }
    {
        let color = self.color_of(line.pos);
        push_block_line_of(
            buf,
            style,
            color,
            line.text,
            line.place,
            line.width,
            line.number,
        )
    }
}
