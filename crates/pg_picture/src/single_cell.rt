//! The line of a cell that has one.

ghost use Rattle.std.specs.Prelude.{◌≡◌, ◌∷◌, [], true};
ghost use Rattle.pg_layout.specs.Text.{lines_of, width_of};
ghost use Rattle.pg_config.specs.Config.{get_alignment_horizontal};
ghost use Rattle.pg_picture.specs.Appending.{Appends};
ghost use Rattle.pg_picture.specs.Fits.{cell_fits};
ghost use Rattle.pg_picture.specs.Pieces.{written, style_at, block_line};
ghost use Rattle.pg_picture.specs.Inside.{IsOfKind, style_of, is_simple};
ghost use Rattle.std.proofs.Props.{props};

use crate::cell::{
    inner_width, push_line_of_width, push_plain_parts, push_single_line, shows_texts_whole,
};
use crate::facts::{TextKind, single_line_width};
use crate::pen::{Pen, TableMarker};
use crate::share::calculate_indent;
use pg_config::CellStyle;
use pg_layout::{Colors, Dimension, Position};
use std::alloc::{AllocError, Allocator};
use std::marker::PhantomData;

/// A cell of so many columns and one line, which has room for its text.
///
/// For callers who draw pieces of a table themselves.
#[derive(Drop)]
pub struct SingleCell<'t, T: TableMarker> {
    pub pos: Position,
    pub width: usize,
    pub text: &'t str,
    pub kind: TextKind,
    pub of: PhantomData<T>,
    ghost is_known: { IsOfKind kind text.now } by { Prim.hlevel props },
    ghost has_room: { cell_fits (style_at T.table.config pos) text.now width 1 ≡ true } by { Prim.hlevel props },
}

impl<'s, T, D, C, B> Pen<'s, T, D, C, B>
where
    T: TableMarker,
    D: Dimension,
    C: Colors,
    B: Allocator,
{
    /// Appends the line of a cell that has one. A plain text isn't read for it.
    ///
    /// The only error is out of memory; the buffer then has gained a beginning.
    #[inline(always)]
    pub fn push_single<A: Allocator>(
        self,
        buf: &mut String<A>,
        cell: SingleCell<'_, T>,
    ) -> Result<(), AllocError>
        ensures { Appends buf.old buf.new result (written (block_line (style_at T.table.config cell.entry.pos) (T.table.color cell.entry.pos) cell.entry.text.now cell.entry.width 1 0)) }
    {
        if let Some(style) = &self.sheet.all {
            if self.sheet.is_simple {
                if let Some(line_width) = single_line_width(cell.text, cell.kind) {
                    return self.push_simple(buf, style, cell, line_width);
                }
            }
        }
        self.push_in_own_style(buf, cell)
    }

    // Appends the line in the cell's own style. It is out of line, so that the code of the usual case is
    // small enough to be inlined.
    #[inline(never)]
    fn push_in_own_style<A: Allocator>(
        self,
        buf: &mut String<A>,
        cell: SingleCell<'_, T>,
    ) -> Result<(), AllocError>
        ensures { Appends buf.old buf.new result (written (block_line (style_at T.table.config cell.entry.pos) (T.table.color cell.entry.pos) cell.entry.text.now cell.entry.width 1 0)) }
    {
        match &self.sheet.all {
            Some(style) => {
                let aligned = style.aligned(self.side_of(cell.pos));
                self.push_in_style(buf, &aligned, cell)
            }
            None => {
                let style = CellStyle::of(self.sheet.config, cell.pos);
                self.push_in_style(buf, &style, cell)
            }
        }
    }

    // Appends the line, of so many columns, in a style that is simple to draw, with the cell's own
    // horizontal alignment.
    #[inline(always)]
    fn push_simple<A: Allocator>(
        self,
        buf: &mut String<A>,
        style: &CellStyle<'_, B>,
        cell: SingleCell<'_, T>,
        line_width: usize,
    ) -> Result<(), AllocError>
        requires style { record (style_of style.now) { across = get_alignment_horizontal T.table.config cell.pos } ≡ style_at T.table.config cell.pos }
        requires simple { is_simple (style_of style.now) ≡ true }
        requires one { lines_of cell.text.now ≡ cell.text.now ∷ [] }
        requires width { line_width ≡ width_of cell.text.now }
        ensures { Appends buf.old buf.new result (written (block_line (style_at T.table.config cell.entry.pos) (T.table.color cell.entry.pos) cell.entry.text.now cell.entry.width 1 0)) }
    {
        let side = self.side_of(cell.pos);
        let color = self.color_of(cell.pos);
        let inner = inner_width(style, cell.width);
        let share = calculate_indent(side, line_width, inner).0;
        push_plain_parts(
            buf,
            style,
            color,
            cell.text,
            share,
            inner - share - line_width,
        )
    }

    // Appends the line in any style. It is rare enough to be out of line.
    #[inline(never)]
    fn push_in_style<A: Allocator>(
        self,
        buf: &mut String<A>,
        style: &CellStyle<'_, B>,
        cell: SingleCell<'_, T>,
    ) -> Result<(), AllocError>
        requires style { style_of style.now ≡ style_at T.table.config cell.pos }
        ensures { Appends buf.old buf.new result (written (block_line (style_at T.table.config cell.entry.pos) (T.table.color cell.entry.pos) cell.entry.text.now cell.entry.width 1 0)) }
    {
        let color = self.color_of(cell.pos);
        if shows_texts_whole(style) {
            if let Some(line_width) = single_line_width(cell.text, cell.kind) {
                return push_line_of_width(
                    buf, style, color, cell.text, line_width, None, cell.width,
                );
            }
        }
        push_single_line(buf, style, color, cell.text, cell.width)
    }
}
