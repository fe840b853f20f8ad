//! A glyph between two cells.

ghost use Rattle.pg_layout.specs.Colors.{lent_color};
ghost use Rattle.pg_picture.specs.Appending.{Appends};
ghost use Rattle.pg_picture.specs.Pieces.{glyph_piece, written};
ghost use Rattle.pg_picture.specs.Table.{vertical_at};

use crate::piece::push_fill;
use pg_config::SpannedConfig;
use pg_layout::{ANSIFmt, Position};
use std::alloc::{AllocError, Allocator};

/// Appends the glyph of a vertical in its colour, and nothing if there is no glyph.
///
/// The only error is out of memory; the buffer then has gained a beginning.
#[inline(always)]
pub fn push_vertical<C: ANSIFmt, A: Allocator>(
    buf: &mut String<A>,
    glyph: Option<char>,
    color: Option<&C>,
) -> Result<(), AllocError>
    ensures { Appends buf.old buf.new result (written (glyph_piece glyph (lent_color C.color_of color.entry))) }
{
    match glyph {
        None => Ok(()),
        Some(glyph) => push_fill(buf, glyph, 1, color),
    }
}

/// Appends what a configuration puts at a vertical of a table of `columns` columns, on line `line`
/// of the `height` lines of its row: the glyph set for that line, else the border's glyph, in the
/// border's colour, else in the colour set for that line; nothing if there is no glyph.
///
/// The only error is out of memory; the buffer then has gained a beginning.
#[inline(never)]
pub fn push_vertical_at<B: Allocator, A: Allocator>(
    buf: &mut String<A>,
    config: &SpannedConfig<B>,
    columns: usize,
    height: usize,
    pos: Position,
    line: usize,
) -> Result<(), AllocError>
    ensures { Appends buf.old buf.new result (written (vertical_at config.now columns height pos line)) }
{
    let Some(border) = config.get_vertical(pos, columns) else {
        return Ok(());
    };
    let glyph = config.lookup_vertical_char(pos, line, height);
    let own = config.get_vertical_color(pos, columns);
    let offset = config.lookup_vertical_color(pos, line, height);
    push_fill(buf, glyph.unwrap_or(border), 1, own.or(offset))
}
