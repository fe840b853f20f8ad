//! The lines of a cell: its text lines, and the fills above and below them.

ghost use Rattle.std.specs.Prelude.{◌≡◌, ◌+◌, ◌<◌, ◌≤◌, ◌++◌, [], ℕ, length, IfSome, IsSome, None, slice_index_or, true};
ghost use Rattle.pg_layout.specs.Colors.{lent_color};
ghost use Rattle.pg_layout.specs.Text.{lines_of, width_of};
ghost use Rattle.pg_picture.specs.Appending.{Appends};
ghost use Rattle.pg_picture.specs.Fits.{cell_fits};
ghost use Rattle.pg_picture.specs.Pieces.{written, fill, in_color, repeated, widest, inner_width, line_with, block_line};
ghost use Rattle.pg_picture.specs.Inside.{HasRoomFor, style_of, facts_of, place_of, share_of, line_if, line_parts, placed_line, shows_texts_whole, has_plain_sides};

use crate::facts::trim_if;
use crate::fill::{push_repeated, push_short_text};
use crate::piece::{push_fill, push_words};
use crate::place::CellPlace;
use crate::share::calculate_indent;
use pg_config::CellStyle;
use pg_layout::{ANSIBuf, ANSIFmt, Indent, get_line, get_line_width};
use std::alloc::{AllocError, Allocator};

#[inline(always)]
#[tactic(auto, unfolding(crate::specs::Pieces::inner_width))]
pub(crate) fn inner_width<A: Allocator>(style: &CellStyle<'_, A>, width: usize) -> usize
    requires { style.now.padding.left.size + style.now.padding.right.size ≤ width }
    ensures { result ≡ inner_width (style_of style.now) width }
{
    width - (style.padding.left.size + style.padding.right.size)
}

/// Appends a line of text between its cell's side paddings: the left padding, `left` columns of
/// justification or else the line's own left share, the line in its colour, the rest of the width,
/// and the right padding. The line is written as it is, even if the style trims.
///
/// Precondition: the cell has room for all of them. If [`crate::fits::cell_fits`] holds for a text,
/// a cell with a line has room for each line of the text, trimmed if the style trims, with the
/// `left` of its [`CellPlace`], or none. The only error is out of memory; the buffer then has
/// gained a beginning.
#[inline(always)]
pub fn push_text_line<C: ANSIFmt, B: Allocator, A: Allocator>(
    buf: &mut String<A>,
    style: &CellStyle<'_, B>,
    color: Option<&C>,
    line: &str,
    left: Option<usize>,
    width: usize,
) -> Result<(), AllocError>
    requires { style.now.padding.left.size + style.now.padding.right.size + share_of (style_of style.now) left width (width_of line.now) + width_of line.now ≤ width }
    ensures { Appends buf.old buf.new result
        (written (line_with (style_of style.now) (lent_color C.color_of color.entry) width (share_of (style_of style.now) left width (width_of line.now)) line.now)) }
{
    push_line_of_width(buf, style, color, line, get_line_width(line), left, width)
}

#[inline(always)]
#[tactic(auto, unfolding(crate::specs::Pieces::inner_width))]
pub(crate) fn push_line_of_width<C: ANSIFmt, B: Allocator, A: Allocator>(
    buf: &mut String<A>,
    style: &CellStyle<'_, B>,
    color: Option<&C>,
    line: &str,
    line_width: usize,
    left: Option<usize>,
    width: usize,
) -> Result<(), AllocError>
    requires known { line_width ≡ width_of line.now }
    requires room { style.now.padding.left.size + style.now.padding.right.size + share_of (style_of style.now) left width line_width + line_width ≤ width }
    ensures { Appends buf.old buf.new result
        (written (line_with (style_of style.now) (lent_color C.color_of color.entry) width (share_of (style_of style.now) left width (width_of line.now)) line.now)) }
{
    let inner = inner_width(style, width);
    let share = columns_left(style, left, line_width, width);
    push_parts(buf, style, color, line, share, inner - share - line_width)
}

#[inline(always)]
#[tactic(auto, unfolding(crate::specs::Pieces::inner_width))]
pub(crate) fn columns_left<B: Allocator>(
    style: &CellStyle<'_, B>,
    left: Option<usize>,
    line_width: usize,
    width: usize,
) -> usize
    requires { style.now.padding.left.size + style.now.padding.right.size + line_width ≤ width }
    ensures { result ≡ share_of (style_of style.now) left width line_width }
{
    match left {
        Some(share) => share,
        None => {
            let inner = inner_width(style, width);
            calculate_indent(style.alignment_horizontal, line_width, inner).0
        }
    }
}

#[inline(always)]
fn push_parts<C: ANSIFmt, B: Allocator, A: Allocator>(
    buf: &mut String<A>,
    style: &CellStyle<'_, B>,
    color: Option<&C>,
    line: &str,
    share: usize,
    rest: usize,
) -> Result<(), AllocError>
    ensures { Appends buf.old buf.new result (line_parts (style_of style.now) (lent_color C.color_of color.entry) share rest line.now) }
{
    push_left_side(buf, style, share)?;
    push_words(buf, line, color)?;
    push_right_side(buf, style, rest)
}

// Appends the parts of a line whose sides are of one character without colours: no side is tested.
#[inline(always)]
pub(crate) fn push_plain_parts<C: ANSIFmt, B: Allocator, A: Allocator>(
    buf: &mut String<A>,
    style: &CellStyle<'_, B>,
    color: Option<&C>,
    line: &str,
    share: usize,
    rest: usize,
) -> Result<(), AllocError>
    requires plain { has_plain_sides (style_of style.now) ≡ true }
    requires left { style.now.padding.left.size + share ≤ usize.MAX }
    requires right { rest + style.now.padding.right.size ≤ usize.MAX }
    ensures { Appends buf.old buf.new result (line_parts (style_of style.now) (lent_color C.color_of color.entry) share rest line.now) }
{
    push_columns(buf, style.justification, style.padding.left.size + share)?;
    push_short_words(buf, line, color)?;
    push_columns(buf, style.justification, rest + style.padding.right.size)
}

// Appends a line in its colour, like `push_words`. Most lines without a colour are short.
#[inline(always)]
fn push_short_words<C: ANSIFmt, A: Allocator>(
    buf: &mut String<A>,
    line: &str,
    color: Option<&C>,
) -> Result<(), AllocError>
    ensures { Appends buf.old buf.new result (in_color (lent_color C.color_of color.entry) line.now) }
{
    match color {
        None => push_short_text(buf, line),
        Some(_) => push_words(buf, line, color),
    }
}

#[inline(always)]
fn push_left_side<B: Allocator, A: Allocator>(
    buf: &mut String<A>,
    style: &CellStyle<'_, B>,
    share: usize,
) -> Result<(), AllocError>
    ensures { Appends buf.old buf.new result (written (fill style.now.padding.left.fill style.now.padding.left.size (style_of style.now).padding_color.left)
        ++ written (fill style.now.justification share (style_of style.now).justification_color)) }
{
    let left = style.padding.left;
    let color = &style.padding_color.left;
    if share == 0 {
        return push_padding(buf, left.fill, left.size, color);
    }
    if let Some(size) = columns_together(style, left, color, share) {
        return push_columns(buf, left.fill, size);
    }
    push_padding(buf, left.fill, left.size, color)?;
    push_fill(buf, style.justification, share, style.justification_color)
}

#[inline(always)]
fn push_right_side<B: Allocator, A: Allocator>(
    buf: &mut String<A>,
    style: &CellStyle<'_, B>,
    rest: usize,
) -> Result<(), AllocError>
    ensures { Appends buf.old buf.new result (written (fill style.now.justification rest (style_of style.now).justification_color)
        ++ written (fill style.now.padding.right.fill style.now.padding.right.size (style_of style.now).padding_color.right)) }
{
    let right = style.padding.right;
    let color = &style.padding_color.right;
    if rest == 0 {
        return push_padding(buf, right.fill, right.size, color);
    }
    if let Some(size) = columns_together(style, right, color, rest) {
        return push_columns(buf, right.fill, size);
    }
    push_fill(buf, style.justification, rest, style.justification_color)?;
    push_padding(buf, right.fill, right.size, color)
}

// How many columns a side padding makes together with what is beside it, if all are of one
// character without a colour.
#[inline(always)]
fn columns_together<B: Allocator>(
    style: &CellStyle<'_, B>,
    padding: Indent,
    color: &Option<ANSIBuf<B>>,
    beside: usize,
) -> Option<usize>
    ensures same { IsSome result → padding.fill ≡ style.now.justification }
    ensures plain { IsSome result → color.now ≡ None }
    ensures plain_beside { IsSome result → (style_of style.now).justification_color ≡ None }
    ensures size { IfSome result (λ size. size ≡ padding.size + beside) }
{
    let is_plain = color.is_none() && style.justification_color.is_none();
    if is_plain && padding.fill == style.justification {
        padding.size.checked_add(beside)
    } else {
        None
    }
}

#[inline(always)]
fn push_columns<A: Allocator>(buf: &mut String<A>, c: char, size: usize) -> Result<(), AllocError>
    ensures { Appends buf.old buf.new result (repeated c size) }
{
    if size == 0 {
        return Ok(());
    }
    push_repeated(buf, c, size)
}

/// Appends line `i` of a cell of so many columns, whose text is at this place: a line of the top
/// padding, a text line, or a line of the bottom padding. `line` is the one of the text's lines
/// that [`CellPlace::text_line_at`] returns, and any text if it returns none.
///
/// Precondition: the cell has room for a text line there. The only error is out of memory; the
/// buffer then has gained a beginning.
#[inline(always)]
pub(crate) fn push_block_line_of<C: ANSIFmt, B: Allocator, A: Allocator>(
    buf: &mut String<A>,
    style: &CellStyle<'_, B>,
    color: Option<&C>,
    line: &str,
    place: CellPlace,
    width: usize,
    i: usize,
) -> Result<(), AllocError>
    requires { HasRoomFor (style_of style.now) place width i line.now }
    ensures { Appends buf.old buf.new result (written (placed_line (style_of style.now) (lent_color C.color_of color.entry) place width i line.now)) }
{
    if i < place.top {
        return push_padding(buf, style.padding.top.fill, width, &style.padding_color.top);
    }
    if i - place.top < place.shown {
        let shown = trim_if(line, style.formatting.horizontal_trim);
        return push_text_line(buf, style, color, shown, place.left, width);
    }
    push_padding(
        buf,
        style.padding.bottom.fill,
        width,
        &style.padding_color.bottom,
    )
}

#[inline(always)]
fn push_padding<B: Allocator, A: Allocator>(
    buf: &mut String<A>,
    c: char,
    width: usize,
    color: &Option<ANSIBuf<B>>,
) -> Result<(), AllocError>
    ensures { Appends buf.old buf.new result (written (fill c width color.now)) }
{
    push_fill(buf, c, width, color.as_ref())
}

/// Appends line `i` of a cell of so many columns and lines: a line of the top padding, a line of
/// its text, or a line of the bottom padding. `place` is that of the text in this cell, from
/// [`CellPlace::of`].
///
/// Precondition: the cell has room for the side paddings and the widest line;
/// [`crate::fits::cell_fits`] tests it for a cell with a line. The only error is out of memory; the
/// buffer then has gained a beginning.
pub(crate) fn push_block_line<C: ANSIFmt, B: Allocator, A: Allocator>(
    buf: &mut String<A>,
    style: &CellStyle<'_, B>,
    color: Option<&C>,
    text: &str,
    place: CellPlace,
    width: usize,
    height: usize,
    i: usize,
) -> Result<(), AllocError>
    requires place { place ≡ place_of (facts_of style.now.formatting text.now) (style_of style.now) width height }
    requires width { style.now.padding.left.size + style.now.padding.right.size + widest style.now.formatting text.now ≤ width }
    ensures { Appends buf.old buf.new result (written (block_line (style_of style.now) (lent_color C.color_of color.entry) text.now width height i)) }
{
    let line = line_if(text, place.text_line_at(i));
    push_block_line_of(buf, style, color, line, place, width, i)
}

#[inline(always)]
fn line_if(text: &str, line: Option<usize>) -> &str
    requires { IfSome line (λ k. k < length (lines_of text.now)) }
    ensures { result.now ≡ line_if text.now line }
{
    match line {
        Some(line) => get_line(text, line),
        None => "",
    }
}

#[inline(always)]
pub(crate) fn shows_texts_whole<A: Allocator>(style: &CellStyle<'_, A>) -> bool
    ensures { result ≡ shows_texts_whole (style_of style.now) }
{
    let formatting = style.formatting;
    !formatting.horizontal_trim && !formatting.vertical_trim && style.padding.top.size == 0
}

/// Appends the line of a cell of so many columns and one line.
///
/// Precondition: the cell has room for its text; [`crate::fits::cell_fits`] of height 1 tests it.
/// The only error is out of memory; the buffer then has gained a beginning.
#[inline(always)]
#[tactic(auto, using(crate::proofs::Rulesets::room_of_texts))]
pub fn push_single_line<C: ANSIFmt, B: Allocator, A: Allocator>(
    buf: &mut String<A>,
    style: &CellStyle<'_, B>,
    color: Option<&C>,
    text: &str,
    width: usize,
) -> Result<(), AllocError>
    requires room { cell_fits (style_of style.now) text.now width 1 ≡ true }
    ensures { Appends buf.old buf.new result (written (block_line (style_of style.now) (lent_color C.color_of color.entry) text.now width 1 0)) }
{
    let place = CellPlace::of_text(text, style, width, 1);
    push_block_line(buf, style, color, text, place, width, 1, 0)
}
