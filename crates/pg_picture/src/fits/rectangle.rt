//! The width and the height of a rectangle.

ghost use Rattle.std.specs.Prelude.{◌≡◌, ℕ, ◌+◌, ◌^◌, ◌<◌, ◌≤◌, nat_lt, None, if◌then◌else◌};
ghost use Rattle.pg_config.specs.Spans.{rect_rows, rect_columns};
ghost use Rattle.pg_picture.specs.Table.{rect_width};
ghost use Rattle.pg_picture.specs.Sizes.{if_fits, sized, height_of_rect};

use crate::fits::totals::{plus, sum_heights, sum_widths};
use pg_config::SpannedConfig;
use pg_layout::{Dimension, Position};
use std::alloc::Allocator;

/// How many terminal columns the rectangle of a place takes in a table of so many columns: its
/// columns and the column lines between them. `None` if that exceeds `usize::MAX`.
///
/// Precondition: the rectangle has a column, and its columns end inside the table;
/// [`crate::fits::spans_fit`] and [`crate::fits::spans_fit_columns`] test it for each place in the
/// table. Allocates nothing.
///
/// For callers who work out single rectangles; the tests of a whole table test all of them.
pub fn rect_width<A: Allocator, D: Dimension>(
    config: &SpannedConfig<A>,
    dimension: &D,
    pos: Position,
    columns: usize,
) -> Option<usize>
    requires some { 0 < rect_columns config.now.spans pos }
    requires inside { pos.col + rect_columns config.now.spans pos ≤ columns }
    ensures { (rows : ℕ) → result ≡ if_fits (rect_width (sized config.now (D.width dimension.now) (D.height dimension.now) rows columns) pos) }
{
    width_of_columns(config, dimension, pos, config.rect_columns(pos), columns)
}

/// What [`rect_width`] returns, if the rectangle has `count` columns
/// ([`SpannedConfig::rect_size`] finds columns and rows by one search). Its precondition is that of
/// [`rect_width`]; [`crate::fits::spans_fit`] tests it.
pub fn width_of_columns<A: Allocator, D: Dimension>(
    config: &SpannedConfig<A>,
    dimension: &D,
    pos: Position,
    count: usize,
    columns: usize,
) -> Option<usize>
    requires count { count ≡ rect_columns config.now.spans pos }
    requires some { 0 < rect_columns config.now.spans pos }
    requires inside { pos.col + rect_columns config.now.spans pos ≤ columns }
    ensures { (rows : ℕ) → result ≡ if_fits (rect_width (sized config.now (D.width dimension.now) (D.height dimension.now) rows columns) pos) }
{
    if count == 1 {
        return Some(dimension.get_width(pos.col));
    }
    plus(
        sum_widths(dimension, pos.col, count),
        config.count_verticals(pos.col + 1, count - 1, columns),
    )
}

/// How many lines the rectangle of a place has in each table that it ends in: those of its rows and
/// the separators between them. `None` if that or the rectangle's end exceeds `usize::MAX`.
///
/// Precondition: the rectangle has a row; [`crate::fits::spans_fit`] and
/// [`crate::fits::spans_fit_columns`] test it. Allocates nothing.
///
/// For callers who work out single rectangles; the tests of a whole table test all of them.
pub fn rect_height<A: Allocator, D: Dimension>(
    config: &SpannedConfig<A>,
    dimension: &D,
    pos: Position,
) -> Option<usize>
    requires { 0 < rect_rows config.now.spans pos }
    ensures { result ≡ (if nat_lt (pos.row + rect_rows config.now.spans pos) (2 ^ 64) then if_fits (height_of_rect config.now (D.height dimension.now) pos) else None) }
{
    height_of_rows(config, dimension, pos, config.rect_rows(pos))
}

/// What [`rect_height`] returns, if the rectangle has `count` rows
/// ([`SpannedConfig::rect_size`]). Its precondition is that of [`rect_height`];
/// [`crate::fits::spans_fit`] tests it.
pub fn height_of_rows<A: Allocator, D: Dimension>(
    config: &SpannedConfig<A>,
    dimension: &D,
    pos: Position,
    count: usize,
) -> Option<usize>
    requires count { count ≡ rect_rows config.now.spans pos }
    requires some { 0 < rect_rows config.now.spans pos }
    ensures { result ≡ (if nat_lt (pos.row + rect_rows config.now.spans pos) (2 ^ 64) then if_fits (height_of_rect config.now (D.height dimension.now) pos) else None) }
{
    let end = pos.row.checked_add(count)?;
    if count == 1 {
        return Some(dimension.get_height(pos.row));
    }
    plus(
        sum_heights(dimension, pos.row, count),
        config.count_horizontals(pos.row + 1, count - 1, end),
    )
}
