//! Margins: the blank or filled columns and lines around a table, and the line feeds between lines.

ghost use Rattle.std.specs.Prelude.{◌≡◌, ◌++◌, replicate};
ghost use Rattle.pg_layout.specs.Colors.{lent_color};
ghost use Rattle.pg_picture.specs.Appending.{Appends};
ghost use Rattle.pg_picture.specs.Pieces.{continued, written};
ghost use Rattle.pg_picture.specs.Inside.{feed_before, lines_before, is_blank_in};
ghost use Rattle.pg_picture.specs.Table.{margin_line, side_margin_at};

use crate::fill::{push_char, push_repeated};
use crate::piece::push_fill;
use pg_layout::{ANSIFmt, Indent, Offset};
use std::alloc::{AllocError, Allocator};

/// Appends the line feed before a line, unless the line is the picture's first.
///
/// The only error is out of memory.
#[inline(always)]
pub fn push_feed<A: Allocator>(buf: &mut String<A>, is_first: bool) -> Result<(), AllocError>
    ensures { Appends buf.old buf.new result (feed_before is_first) }
{
    if is_first {
        return Ok(());
    }
    push_char(buf, '\n')
}

/// Appends a left or right margin at a line of the body, counted from 0, of which `height` is the
/// number of lines if that is known: uncoloured spaces where the offset leaves it blank, elsewhere
/// its fill in its colour.
///
/// An offset from the last line leaves nothing blank if the height isn't known.
///
/// For callers who draw pieces of a table themselves.
#[inline(always)]
pub fn push_side_margin<C: ANSIFmt, A: Allocator>(
    buf: &mut String<A>,
    indent: Indent,
    offset: Offset,
    color: Option<&C>,
    line: usize,
    height: Option<usize>,
) -> Result<(), AllocError>
    ensures { Appends buf.old buf.new result (written (side_margin_at height indent offset (lent_color C.color_of color.entry) line)) }
{
    if indent.size == 0 {
        return Ok(());
    }
    push_margin_columns(buf, indent, offset, color, line, height)
}

#[tactic(auto, using(crate::proofs::Rulesets::side_texts))]
fn push_margin_columns<C: ANSIFmt, A: Allocator>(
    buf: &mut String<A>,
    indent: Indent,
    offset: Offset,
    color: Option<&C>,
    line: usize,
    height: Option<usize>,
) -> Result<(), AllocError>
    ensures { Appends buf.old buf.new result (written (side_margin_at height indent offset (lent_color C.color_of color.entry) line)) }
{
    if is_blank(offset, line, height) {
        return push_repeated(buf, ' ', indent.size);
    }
    push_fill(buf, indent.fill, indent.size, color)
}

#[tactic(auto, unfolding(crate::specs::Table::is_blank_at))]
fn is_blank(offset: Offset, line: usize, height: Option<usize>) -> bool
    ensures { result ≡ is_blank_in height offset line }
{
    match (offset, height) {
        (Offset::Start(start), Some(height)) => line < start.min(height),
        (Offset::Start(start), None) => line < start,
        (Offset::End(end), Some(height)) => line >= height - end.min(height),
        (Offset::End(_), None) => false,
    }
}

/// Appends the lines of a top or bottom margin, each of `width` columns, with a line feed before
/// each, except before the first one if it is the picture's first line.
///
/// The columns that the offset leaves blank are uncoloured spaces, and the fill is coloured. The
/// only error is out of memory; the buffer then has gained a beginning.
///
/// For callers who draw pieces of a table themselves.
pub fn push_margin_lines<C: ANSIFmt, A: Allocator>(
    buf: &mut String<A>,
    indent: Indent,
    offset: Offset,
    color: Option<&C>,
    width: usize,
    is_first: bool,
) -> Result<(), AllocError>
    ensures { Appends buf.old buf.new result (continued (lines_before is_first) (replicate indent.size (written (margin_line indent offset (lent_color C.color_of color.entry) width)))) }
{
    for line in 0..indent.size {
        push_next_line(buf, indent, offset, color, width, is_first && line == 0)?;
    }
    Ok(())
}

// One line of a top or bottom margin, after the line feed that separates it from the line before.
fn push_next_line<C: ANSIFmt, A: Allocator>(
    buf: &mut String<A>,
    indent: Indent,
    offset: Offset,
    color: Option<&C>,
    width: usize,
    is_first: bool,
) -> Result<(), AllocError>
    ensures { Appends buf.old buf.new result (feed_before is_first ++ written (margin_line indent offset (lent_color C.color_of color.entry) width)) }
{
    push_feed(buf, is_first)?;
    push_margin_line(buf, indent, offset, color, width)
}

fn push_margin_line<C: ANSIFmt, A: Allocator>(
    buf: &mut String<A>,
    indent: Indent,
    offset: Offset,
    color: Option<&C>,
    width: usize,
) -> Result<(), AllocError>
    ensures { Appends buf.old buf.new result (written (margin_line indent offset (lent_color C.color_of color.entry) width)) }
{
    match offset {
        Offset::Start(start) => {
            let blank = start.min(width);
            push_repeated(buf, ' ', blank)?;
            push_fill(buf, indent.fill, width - blank, color)
        }
        Offset::End(end) => {
            let blank = end.min(width);
            push_fill(buf, indent.fill, width - blank, color)?;
            push_repeated(buf, ' ', blank)
        }
    }
}
