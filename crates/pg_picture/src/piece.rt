//! Pieces of a line: runs of a character and texts, each in its colour.

ghost use Rattle.std.specs.Prelude.{◌≡◌, Some};
ghost use Rattle.pg_layout.specs.Colors.{lent_color};
ghost use Rattle.pg_picture.specs.Appending.{Appends};
ghost use Rattle.pg_picture.specs.Pieces.{fill, written, in_color, repeated};

use crate::fill::{push_repeated, push_text};
use pg_layout::ANSIFmt;
use std::alloc::{AllocError, Allocator};

/// Appends a character `size` times in a colour: the colour's prefix, the characters, its suffix;
/// only the characters if there is no colour, and nothing at all for a size of 0.
///
/// The only error is out of memory; the buffer then has gained a beginning.
///
/// For callers who draw pieces of a table themselves.
#[inline(always)]
#[tactic(auto, using(crate::proofs::PiecesOfLines::fill_texts))]
pub fn push_fill<C: ANSIFmt, A: Allocator>(
    buf: &mut String<A>,
    c: char,
    size: usize,
    color: Option<&C>,
) -> Result<(), AllocError>
    ensures { Appends buf.old buf.new result (written (fill c size (lent_color C.color_of color.entry))) }
{
    if size == 0 {
        return Ok(());
    }
    match color {
        None => push_repeated(buf, c, size),
        Some(color) => push_colored_run(buf, c, size, color),
    }
}

pub(crate) fn push_colored_run<C: ANSIFmt, A: Allocator>(
    buf: &mut String<A>,
    c: char,
    size: usize,
    color: &C,
) -> Result<(), AllocError>
    ensures { Appends buf.old buf.new result (in_color (Some (C.color_of color.now)) (repeated c size)) }
{
    push_text(buf, color.prefix())?;
    push_repeated(buf, c, size)?;
    push_text(buf, color.suffix())
}

/// Appends a text in a colour: the colour's prefix, the text, its suffix, even round an empty text;
/// only the text if there is no colour.
///
/// The only error is out of memory; the buffer then has gained a beginning.
#[inline(always)]
pub(crate) fn push_words<C: ANSIFmt, A: Allocator>(
    buf: &mut String<A>,
    text: &str,
    color: Option<&C>,
) -> Result<(), AllocError>
    ensures { Appends buf.old buf.new result (in_color (lent_color C.color_of color.entry) text.now) }
{
    match color {
        None => push_text(buf, text),
        Some(color) => push_colored_text(buf, text, color),
    }
}

fn push_colored_text<C: ANSIFmt, A: Allocator>(
    buf: &mut String<A>,
    text: &str,
    color: &C,
) -> Result<(), AllocError>
    ensures { Appends buf.old buf.new result (in_color (Some (C.color_of color.now)) text.now) }
{
    push_text(buf, color.prefix())?;
    push_text(buf, text)?;
    push_text(buf, color.suffix())
}
