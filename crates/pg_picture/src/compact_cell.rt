//! The cells of a compact table, and what is between them.

ghost use Rattle.std.specs.Prelude.{◌≡◌, ◌≤◌, ◌+◌, ◌-◌, ◌++◌, nat_le, option_map, IfSome, IsSome, if◌then◌else◌};
ghost use Rattle.pg_layout.specs.Text.{first_line_of, width_of};
ghost use Rattle.pg_layout.specs.Colors.{str_color, lent_color};
ghost use Rattle.pg_config.specs.CompactConfig.{settings_of};
ghost use Rattle.pg_picture.specs.Appending.{Appends};
ghost use Rattle.pg_picture.specs.CompactLines.{compact_indent, colored_glyph, compact_cell_of};
ghost use Rattle.pg_picture.specs.Pieces.{repeated, shares};

use crate::fill::push_repeated;
use crate::piece::{push_colored_run, push_words};
use crate::share::calculate_indent;
use crate::vertical::push_vertical;
use pg_config::CompactConfig;
use pg_layout::{
    ANSIFmt, ANSIStr, AlignmentHorizontal, Indent, Sides, first_line, get_line_width, is_plain,
};
use std::alloc::{AllocError, Allocator};

/// Appends an indent of a compact table in its colour, even if its size is 0; an empty colour is
/// none.
///
/// The only error is out of memory; the buffer then has gained a beginning.
#[inline(always)]
pub fn push_compact_indent<A: Allocator>(
    buf: &mut String<A>,
    indent: Indent,
    color: ANSIStr<'_>,
) -> Result<(), AllocError>
    ensures { Appends buf.old buf.new result (compact_indent indent.fill indent.size (str_color color.entry)) }
{
    if color.is_empty() {
        return push_repeated(buf, indent.fill, indent.size);
    }
    push_colored_run(buf, indent.fill, indent.size, &color)
}

/// Appends the glyph of a border in its colour, and nothing if there is no glyph.
///
/// The only error is out of memory; the buffer then has gained a beginning.
#[inline(always)]
#[tactic(auto, using(crate::proofs::Rulesets::glyph_texts))]
pub fn push_border_glyph<A: Allocator>(
    buf: &mut String<A>,
    glyph: Option<char>,
    color: Option<ANSIStr<'_>>,
) -> Result<(), AllocError>
    ensures { Appends buf.old buf.new result (colored_glyph glyph (option_map str_color color.entry)) }
{
    push_vertical(buf, glyph, color.as_ref())
}

/// Appends a cell of a compact table, in a column of so many terminal columns: the left padding, the
/// first line of the text in its colour between the shares of what it leaves free, and the right
/// padding.
///
/// The shares are plain spaces. A line that is too wide is written whole, without them.
pub fn push_compact_cell<C: ANSIFmt, A: Allocator>(
    buf: &mut String<A>,
    config: &CompactConfig,
    width: usize,
    color: Option<&C>,
    text: &str,
) -> Result<(), AllocError>
    ensures { Appends buf.old buf.new result (compact_cell_of (settings_of config.now) width (lent_color C.color_of color.entry) text.now) }
{
    let (line, line_width) = shown_line(text);
    let padding = config.get_padding();
    let colors = config.get_padding_color();
    let alignment = config.get_alignment_horizontal();
    let (left, right) = free_shares(alignment, line_width, inner_room(padding, width));
    push_left_side(buf, padding.left, colors.left, left)?;
    push_words(buf, line, color)?;
    push_right_side(buf, padding.right, colors.right, right)
}

// The first line of a text, and how many terminal columns it takes. A text of plain bytes is its one
// line, and is read once for both.
#[inline(always)]
#[tactic(auto, using(crate::proofs::Rulesets::plain_texts))]
fn shown_line(text: &str) -> (&str, usize)
    ensures line { result.0.now ≡ first_line_of text.now }
    ensures width { result.1 ≡ width_of result.0.now }
{
    if is_plain(text.as_bytes()) {
        return (text, text.len());
    }
    let line = first_line(text);
    (line, get_line_width(line))
}

#[inline(always)]
fn inner_room(padding: Sides<Indent>, width: usize) -> usize
    ensures { result ≡ width - (padding.left.size + padding.right.size) }
{
    width
        .saturating_sub(padding.left.size)
        .saturating_sub(padding.right.size)
}

#[inline(always)]
fn free_shares(alignment: AlignmentHorizontal, got: usize, room: usize) -> (usize, usize)
    ensures { result ≡ (if nat_le got room then shares alignment got room else (0, 0)) }
{
    if got > room {
        return (0, 0);
    }
    calculate_indent(alignment, got, room)
}

// The left padding, and the share left of the line: one run if both are plain spaces.
#[tactic(auto, using(crate::proofs::Rulesets::repeated_texts))]
fn push_left_side<A: Allocator>(
    buf: &mut String<A>,
    padding: Indent,
    color: ANSIStr<'_>,
    share: usize,
) -> Result<(), AllocError>
    ensures { Appends buf.old buf.new result (compact_indent padding.fill padding.size (str_color color.entry) ++ repeated 32 share) }
{
    if let Some(size) = spaces_together(padding, color, share) {
        return push_repeated(buf, ' ', size);
    }
    push_compact_indent(buf, padding, color)?;
    push_repeated(buf, ' ', share)
}

// The share right of the line, and the right padding: one run if both are plain spaces.
#[tactic(auto, using(crate::proofs::Rulesets::repeated_texts))]
fn push_right_side<A: Allocator>(
    buf: &mut String<A>,
    padding: Indent,
    color: ANSIStr<'_>,
    share: usize,
) -> Result<(), AllocError>
    ensures { Appends buf.old buf.new result (repeated 32 share ++ compact_indent padding.fill padding.size (str_color color.entry)) }
{
    if let Some(size) = spaces_together(padding, color, share) {
        return push_repeated(buf, ' ', size);
    }
    push_repeated(buf, ' ', share)?;
    push_compact_indent(buf, padding, color)
}

// How many spaces a padding makes together with a share beside it, if it is plain spaces.
#[inline(always)]
#[tactic(auto, using(crate::proofs::Rulesets::indent_texts))]
fn spaces_together(padding: Indent, color: ANSIStr<'_>, share: usize) -> Option<usize>
    ensures plain { IsSome result → compact_indent padding.fill padding.size (str_color color.entry) ≡ repeated 32 padding.size }
    ensures size { IfSome result (λ size. size ≡ padding.size + share) }
{
    if padding.fill == ' ' && color.is_empty() {
        padding.size.checked_add(share)
    } else {
        None
    }
}
