//! Whether a cell shows each line of its text.

ghost use Rattle.std.specs.Prelude.{◌≡◌, length};
ghost use Rattle.pg_picture.specs.Pieces.{style_at, shown};
ghost use Rattle.pg_picture.specs.Shown.{cell_shows_all};

use crate::facts::count_empty_lines;
use pg_config::SpannedConfig;
use pg_layout::{Formatting, Position, count_lines};
use std::alloc::Allocator;

/// How many lines of a text a cell shows that is high enough: all of them, or under vertical trim
/// those from the first to the last one that isn't blank.
///
/// Allocates nothing.
#[tactic(auto, using(crate::proofs::Rulesets::numbers_of_shown_lines))]
pub fn count_shown_lines(text: &str, formatting: Formatting) -> usize
    ensures { result ≡ length (shown formatting text.now) }
{
    if formatting.vertical_trim {
        return count_empty_lines(text).0;
    }
    count_lines(text)
}

/// Whether a cell of so many lines shows each line of a text below its top padding. Its bottom
/// padding doesn't count. A cell of height 0 shows a blank text under vertical trim, which has no
/// line to show, and no other text.
///
/// Allocates nothing.
pub fn cell_shows_all<A: Allocator>(
    text: &str,
    config: &SpannedConfig<A>,
    pos: Position,
    height: usize,
) -> bool
    ensures { result ≡ cell_shows_all (style_at config.now pos) text.now height }
{
    let padding = config.get_padding(pos);
    let lines = count_shown_lines(text, config.get_formatting(pos));
    lines <= height.saturating_sub(padding.top.size)
}
