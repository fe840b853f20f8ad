//! The total width and the total height of a table.

ghost use Rattle.std.specs.Prelude.{◌≡◌, ℕ, ◌+◌, ◌<◌, ◌≤◌, sum_by};
ghost use Rattle.std.specs.List.{range_with_len};
ghost use Rattle.pg_picture.specs.Table.{full_width};
ghost use Rattle.pg_picture.specs.Fits.{body_height, totals_fit};
ghost use Rattle.pg_picture.specs.Sizes.{if_fits, sized};

use pg_config::SpannedConfig;
use pg_layout::Dimension;
use std::alloc::Allocator;

/// The sum of the widths of so many columns from a first one on, or `None` if it exceeds
/// `usize::MAX`.
pub(crate) fn sum_widths<D: Dimension>(dimension: &D, first: usize, count: usize) -> Option<usize>
    requires { first + count ≤ usize.MAX }
    ensures { result ≡ if_fits (sum_by (D.width dimension.now) (range_with_len first count)) }
{
    let mut sum: usize = 0;
    for step in 0..count {
        sum = sum.checked_add(dimension.get_width(first + step))?;
    }
    Some(sum)
}

/// The sum of the heights of so many rows from a first one on, or `None` if it exceeds
/// `usize::MAX`.
pub(crate) fn sum_heights<D: Dimension>(dimension: &D, first: usize, count: usize) -> Option<usize>
    requires { first + count ≤ usize.MAX }
    ensures { result ≡ if_fits (sum_by (D.height dimension.now) (range_with_len first count)) }
{
    let mut sum: usize = 0;
    for step in 0..count {
        sum = sum.checked_add(dimension.get_height(first + step))?;
    }
    Some(sum)
}

pub(crate) fn plus(sum: Option<usize>, more: usize) -> Option<usize>
    ensures { (n : ℕ) → sum ≡ if_fits n → result ≡ if_fits (n + more) }
{
    sum?.checked_add(more)
}

/// How many terminal columns a line of the table has, including its side margins, or `None` if they
/// exceed `usize::MAX`.
///
/// Precondition: there are fewer than `usize::MAX` columns, as there are if [`totals_fit`] holds.
pub fn full_width<A: Allocator, D: Dimension>(
    config: &SpannedConfig<A>,
    dimension: &D,
    columns: usize,
) -> Option<usize>
    requires { columns < usize.MAX }
    ensures { result ≡ if_fits (full_width (sized config.now (D.width dimension.now) (D.height dimension.now) 0 columns)) }
{
    let margin = config.get_margin();
    let columns = plus(
        sum_widths(dimension, 0, columns),
        config.count_vertical(columns),
    );
    plus(plus(columns, margin.left.size), margin.right.size)
}

/// How many lines the body of the table has, or `None` if they exceed `usize::MAX`.
///
/// Precondition: there are fewer than `usize::MAX` rows, as there are if [`totals_fit`] holds.
#[tactic(auto, unfolding(crate::specs::Fits::body_height))]
pub fn body_height<A: Allocator, D: Dimension>(
    config: &SpannedConfig<A>,
    dimension: &D,
    rows: usize,
) -> Option<usize>
    requires { rows < usize.MAX }
    ensures { result ≡ if_fits (body_height (sized config.now (D.width dimension.now) (D.height dimension.now) rows 0)) }
{
    plus(
        sum_heights(dimension, 0, rows),
        config.count_horizontal(rows),
    )
}

/// Whether the rows and the columns can be counted, and the total width with the side margins and
/// the number of lines of the body are below 2^64.
///
/// Allocates nothing. Reads sizes only while both counts are below `usize::MAX`.
#[tactic(auto, unfolding(crate::specs::Fits::totals_fit, crate::specs::Fits::body_height, crate::specs::Table::full_width, crate::specs::Table::total_width))]
pub fn totals_fit<A: Allocator, D: Dimension>(
    config: &SpannedConfig<A>,
    dimension: &D,
    rows: usize,
    columns: usize,
) -> bool
    ensures { result ≡ totals_fit (sized config.now (D.width dimension.now) (D.height dimension.now) rows columns) }
{
    rows < usize::MAX
        && columns < usize::MAX
        && full_width(config, dimension, columns).is_some()
        && body_height(config, dimension, rows).is_some()
}
