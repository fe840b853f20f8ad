//! The lines of a compact table's top and bottom margin.

ghost use Rattle.std.specs.Prelude.{◌≡◌, ◌++◌, replicate};
ghost use Rattle.pg_layout.specs.Colors.{str_color};
ghost use Rattle.pg_picture.specs.Appending.{Appends};
ghost use Rattle.pg_picture.specs.CompactLines.{compact_indent};
ghost use Rattle.pg_picture.specs.Pieces.{continued};
ghost use Rattle.pg_picture.specs.Inside.{feed_before, lines_before};

use crate::compact_cell::push_compact_indent;
use crate::margin::push_feed;
use pg_layout::{ANSIStr, Indent};
use std::alloc::{AllocError, Allocator};

/// Appends the lines of a compact table's top or bottom margin: as many as its size, each `width`
/// columns of its fill in its colour, with a line feed before each, except before the first one if
/// it is the picture's first line.
///
/// The only error is out of memory; the buffer then has gained a beginning.
pub fn push_compact_margin<A: Allocator>(
    buf: &mut String<A>,
    margin: Indent,
    color: ANSIStr<'_>,
    width: usize,
    is_first: bool,
) -> Result<(), AllocError>
    ensures { Appends buf.old buf.new result (continued (lines_before is_first) (replicate margin.size (compact_indent margin.fill width (str_color color.entry)))) }
{
    for number in 0..margin.size {
        push_margin_line(buf, margin, color, width, is_first && number == 0)?;
    }
    Ok(())
}

// One line of the margin, after the line feed that separates it from the line before.
fn push_margin_line<A: Allocator>(
    buf: &mut String<A>,
    margin: Indent,
    color: ANSIStr<'_>,
    width: usize,
    is_first: bool,
) -> Result<(), AllocError>
    ensures { Appends buf.old buf.new result (feed_before is_first ++ compact_indent margin.fill width (str_color color.entry)) }
{
    push_feed(buf, is_first)?;
    push_compact_indent(buf, Indent::new(width, margin.fill), color)
}
