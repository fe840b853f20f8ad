//! The room of a cell.

ghost use Rattle.std.specs.Prelude.{◌≡◌, ◌+◌, ◌-◌, ◌≤◌, ◌&&◌, IfSome, SomeIff, false, is_some, map, nat_le};
ghost use Rattle.pg_layout.specs.Text.{lines_of, width_of, greatest};
ghost use Rattle.pg_picture.specs.Pieces.{Style, style_at, trimmed_if};
ghost use Rattle.pg_picture.specs.Fits.{cell_fits};
ghost use Rattle.pg_picture.specs.Inside.{IsOfKind, style_of};

use crate::facts::{TextKind, text_width};
use pg_config::{CellStyle, SpannedConfig};
use pg_layout::{Indent, Position, Sides, is_plain};
use std::alloc::Allocator;

#[inline(always)]
fn inner_width(padding: &Sides<Indent>, width: usize) -> Option<usize>
    ensures { SomeIff result (padding.now.left.size + padding.now.right.size ≤ width) (width - (padding.now.left.size + padding.now.right.size)) }
{
    width
        .checked_sub(padding.left.size)?
        .checked_sub(padding.right.size)
}

// What is known of a text. It is read for that if its lines aren't trimmed, as most aren't.
#[inline(always)]
fn kind_of(text: &str, trim: bool) -> TextKind
    ensures kind { IsOfKind result text.now }
    ensures whole { result ≡ TextKind.Plain → trim ≡ false }
{
    if !trim && is_plain(text.as_bytes()) {
        TextKind::Plain
    } else {
        TextKind::Any
    }
}

// How many columns the widest line of a text takes, like `text_width`, but without a call if the
// text is plain, as most are.
#[inline(always)]
fn width_of_text(text: &str, trim: bool, kind: TextKind) -> usize
    requires kind { IsOfKind kind text.now }
    requires whole { kind ≡ TextKind.Plain → trim ≡ false }
    ensures { result ≡ greatest (map (λ line. width_of (trimmed_if trim line)) (lines_of text.now)) }
{
    match kind {
        TextKind::Plain => text.len(),
        TextKind::Any => text_width(text, trim),
    }
}

#[inline(always)]
fn has_columns(padding: &Sides<Indent>, columns: usize, width: usize, height: usize) -> bool
    ensures { result ≡ (nat_le ((padding.now.left.size + padding.now.right.size) + columns) width && nat_le padding.now.top.size height) }
{
    match inner_width(padding, width) {
        Some(inner) => columns <= inner && padding.top.size <= height,
        None => false,
    }
}

#[inline(always)]
#[tactic(auto, unfolding(crate::specs::Fits::cell_fits, crate::specs::Pieces::widest))]
fn kind_with_room(
    text: &str,
    padding: &Sides<Indent>,
    trim: bool,
    width: usize,
    height: usize,
) -> Option<TextKind>
    ensures room { (style : Style) → style.padding ≡ padding.now → style.formatting.horizontal_trim ≡ trim → is_some result ≡ cell_fits style text.now width height }
    ensures kind { IfSome result (λ kind. IsOfKind kind text.now) }
{
    if height == 0 {
        return Some(TextKind::Any);
    }
    let kind = kind_of(text, trim);
    let columns = width_of_text(text, trim, kind);
    if !has_columns(padding, columns, width, height) {
        return None;
    }
    Some(kind)
}

/// Whether a cell of so many columns and lines has room for its side paddings beside its widest
/// line, and for its top padding. A cell of height 0 needs none, and its text isn't read.
///
/// Allocates nothing.
#[tactic(auto, unfolding(pg_config::specs::Cells::style_at))]
pub fn cell_fits<A: Allocator>(
    text: &str,
    config: &SpannedConfig<A>,
    pos: Position,
    width: usize,
    height: usize,
) -> bool
    ensures { result ≡ cell_fits (style_at config.now pos) text.now width height }
{
    let padding = config.get_padding(pos);
    let trim = config.get_formatting(pos).horizontal_trim;
    kind_with_room(text, &padding, trim, width, height).is_some()
}

/// The kind of a text for which a cell of so many columns and lines has room in this style
/// ([`cell_fits`]); nothing if it has none. A text counts as any if its lines are trimmed, or the
/// cell has no line.
#[inline(always)]
pub fn kind_if_fits<A: Allocator>(
    text: &str,
    style: &CellStyle<'_, A>,
    width: usize,
    height: usize,
) -> Option<TextKind>
    ensures room { is_some result ≡ cell_fits (style_of style.now) text.now width height }
    ensures kind { IfSome result (λ kind. IsOfKind kind text.now) }
{
    let trim = style.formatting.horizontal_trim;
    kind_with_room(text, &style.padding, trim, width, height)
}
