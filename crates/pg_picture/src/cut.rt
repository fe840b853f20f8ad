//! Cuts: how one colour is closed and the next is opened.

ghost use Rattle.std.specs.Prelude.{◌++◌};
ghost use Rattle.pg_layout.specs.Colors.{lent_color};
ghost use Rattle.pg_picture.specs.Appending.{Appends};
ghost use Rattle.pg_picture.specs.Pieces.{cut, prefix_of, repeated, suffix_of};

use crate::fill::{push_repeated, push_text};
use pg_layout::{ANSIFmt, same_color};
use std::alloc::{AllocError, Allocator};

/// Appends what comes between two colours: nothing if they are the same, else the suffix of the
/// first one and the prefix of the next.
#[inline(always)]
#[tactic(auto, unfolding(crate::specs::Pieces::cut))]
pub(crate) fn push_cut<C: ANSIFmt, D: ANSIFmt, A: Allocator>(
    buf: &mut String<A>,
    before: Option<&C>,
    after: Option<&D>,
) -> Result<(), AllocError>
    ensures { Appends buf.old buf.new result (cut (lent_color C.color_of before.entry) (lent_color D.color_of after.entry)) }
{
    if same_color(before, after) {
        return Ok(());
    }
    push_suffix(buf, before)?;
    push_prefix(buf, after)
}

/// Appends what comes between two colours, and then a character `count` times.
#[inline(always)]
pub(crate) fn push_after_cut<C: ANSIFmt, D: ANSIFmt, A: Allocator>(
    buf: &mut String<A>,
    before: Option<&C>,
    c: char,
    count: usize,
    after: Option<&D>,
) -> Result<(), AllocError>
    ensures { Appends buf.old buf.new result (cut (lent_color C.color_of before.entry) (lent_color D.color_of after.entry) ++ repeated c count) }
{
    push_cut(buf, before, after)?;
    push_repeated(buf, c, count)
}

/// Appends what opens a colour, and nothing if there is none.
pub(crate) fn push_prefix<C: ANSIFmt, A: Allocator>(
    buf: &mut String<A>,
    color: Option<&C>,
) -> Result<(), AllocError>
    ensures { Appends buf.old buf.new result (prefix_of (lent_color C.color_of color.entry)) }
{
    match color {
        None => Ok(()),
        Some(color) => push_text(buf, color.prefix()),
    }
}

/// Appends what closes a colour, and nothing if there is none.
pub(crate) fn push_suffix<C: ANSIFmt, A: Allocator>(
    buf: &mut String<A>,
    color: Option<&C>,
) -> Result<(), AllocError>
    ensures { Appends buf.old buf.new result (suffix_of (lent_color C.color_of color.entry)) }
{
    match color {
        None => Ok(()),
        Some(color) => push_text(buf, color.suffix()),
    }
}
