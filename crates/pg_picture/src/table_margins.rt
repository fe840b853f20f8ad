//! What is round the body: margins by a configuration.

ghost use Rattle.std.specs.Prelude.{◌≡◌, replicate};
ghost use Rattle.pg_picture.specs.Appending.{Appends};
ghost use Rattle.pg_picture.specs.Pieces.{written, continued};
ghost use Rattle.pg_picture.specs.Inside.{lines_before};
ghost use Rattle.pg_picture.specs.Table.{margin_line, side_margin_at};

use crate::margin::{push_margin_lines, push_side_margin};
use pg_config::SpannedConfig;
use std::alloc::{AllocError, Allocator};

/// Appends the left margin at a line of the body, of which `height` is the number of lines.
#[inline(always)]
pub fn push_left_margin<B: Allocator, A: Allocator>(
    buf: &mut String<A>,
    config: &SpannedConfig<B>,
    line: usize,
    height: Option<usize>,
) -> Result<(), AllocError>
    ensures { Appends buf.old buf.new result (written (side_margin_at height config.now.margin.left config.now.margin_offset.left config.now.margin_color.left line)) }
{
    let margin = config.get_margin().left;
    let offset = config.get_margin_offset().left;
    push_side_margin(
        buf,
        margin,
        offset,
        config.get_margin_color().left,
        line,
        height,
    )
}

/// Appends the right margin at a line of the body, of which `height` is the number of lines.
#[inline(always)]
pub fn push_right_margin<B: Allocator, A: Allocator>(
    buf: &mut String<A>,
    config: &SpannedConfig<B>,
    line: usize,
    height: Option<usize>,
) -> Result<(), AllocError>
    ensures { Appends buf.old buf.new result (written (side_margin_at height config.now.margin.right config.now.margin_offset.right config.now.margin_color.right line)) }
{
    let margin = config.get_margin().right;
    let offset = config.get_margin_offset().right;
    push_side_margin(
        buf,
        margin,
        offset,
        config.get_margin_color().right,
        line,
        height,
    )
}

/// Appends the lines of the top margin, each of so many columns.
pub fn push_top_margin<B: Allocator, A: Allocator>(
    buf: &mut String<A>,
    config: &SpannedConfig<B>,
    width: usize,
) -> Result<(), AllocError>
    ensures { Appends buf.old buf.new result
        (continued 0 (replicate config.now.margin.top.size (written (margin_line config.now.margin.top config.now.margin_offset.top config.now.margin_color.top width)))) }
{
    let margin = config.get_margin().top;
    let offset = config.get_margin_offset().top;
    push_margin_lines(
        buf,
        margin,
        offset,
        config.get_margin_color().top,
        width,
        true,
    )
}

/// Appends the lines of the bottom margin, each of so many columns; `is_first` is whether no line
/// is before them.
pub fn push_bottom_margin<B: Allocator, A: Allocator>(
    buf: &mut String<A>,
    config: &SpannedConfig<B>,
    width: usize,
    is_first: bool,
) -> Result<(), AllocError>
    ensures { Appends buf.old buf.new result
        (continued (lines_before is_first) (replicate config.now.margin.bottom.size
        (written (margin_line config.now.margin.bottom config.now.margin_offset.bottom config.now.margin_color.bottom width)))) }
{
    let margin = config.get_margin().bottom;
    let offset = config.get_margin_offset().bottom;
    push_margin_lines(
        buf,
        margin,
        offset,
        config.get_margin_color().bottom,
        width,
        is_first,
    )
}
