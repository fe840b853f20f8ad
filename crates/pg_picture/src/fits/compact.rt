//! The conditions of a compact table.

ghost use Rattle.std.specs.Prelude.{◌≡◌, ℕ, ◌+◌, ◌-◌, ◌<◌, nat_lt, cond, find, option_map};
ghost use Rattle.std.specs.List.{range_with_len};
ghost use Rattle.pg_layout.specs.Borders.{has_left, has_right, has_inner_vertical};
ghost use Rattle.pg_config.specs.CompactConfig.{settings_of};
ghost use Rattle.pg_picture.specs.CompactLines.{compact_width, compact_full_width, compact_sized};
ghost use Rattle.pg_picture.specs.Fits.{compact_misfit_of};
ghost use Rattle.pg_picture.specs.Sizes.{if_fits, unless_misfit};

use crate::fits::Misfit;
use crate::fits::totals::{plus, sum_widths};
use pg_config::CompactConfig;
use pg_layout::{Borders, Dimension};

/// Whether a compact table of so many columns fits: its columns can be counted and its total width
/// with the side margins is below 2^64 (else `Totals`), and each column has room for the side
/// paddings (else `Room` at the first one without, in row 0). A table with no columns fits. Texts
/// don't matter: one that is too wide is written whole. Allocates nothing.
///
/// Texts don't matter: one that is wider than its room is written whole. Allocates nothing.
#[tactic(auto, unfolding(crate::specs::Fits::compact_misfit_of))]
pub fn compact_fits<D: Dimension>(
    config: &CompactConfig,
    dimension: &D,
    columns: usize,
) -> Result<(), Misfit>
    ensures { result ≡ unless_misfit (compact_misfit_of (compact_sized (settings_of config.now) (D.width dimension.now) columns)) }
{
    if columns == 0 {
        return Ok(());
    }
    if columns == usize::MAX || compact_full_width(config, dimension, columns).is_none() {
        return Err(Misfit::Totals);
    }
    match first_narrow_column(config, dimension, columns) {
        Some(column) => Err(Misfit::Room(0, column)),
        None => Ok(()),
    }
}

/// How many terminal columns a line of a compact table has, including its side margins, or `None`
/// if they exceed `usize::MAX`.
///
/// Precondition: there are fewer than `usize::MAX` columns, as there are if [`compact_fits`] holds.
#[tactic(auto, unfolding(crate::specs::CompactLines::compact_full_width))]
pub fn compact_full_width<D: Dimension>(
    config: &CompactConfig,
    dimension: &D,
    columns: usize,
) -> Option<usize>
    requires { columns < usize.MAX }
    ensures { result ≡ if_fits (compact_full_width (compact_sized (settings_of config.now) (D.width dimension.now) columns)) }
{
    let margin = config.get_margin();
    let width = compact_width(config, dimension, columns);
    plus(plus(width, margin.left.size), margin.right.size)
}

#[tactic(auto, unfolding(crate::specs::CompactLines::compact_width))]
fn compact_width<D: Dimension>(
    config: &CompactConfig,
    dimension: &D,
    columns: usize,
) -> Option<usize>
    requires { columns < usize.MAX }
    ensures { result ≡ if_fits (compact_width (compact_sized (settings_of config.now) (D.width dimension.now) columns)) }
{
    let borders = config.get_borders();
    let width = plus(
        sum_widths(dimension, 0, columns),
        count_inner(borders, columns),
    );
    plus(
        plus(width, columns_of_line(borders.has_left())),
        columns_of_line(borders.has_right()),
    )
}

fn columns_of_line(is_there: bool) -> usize
    ensures { result ≡ cond is_there 1 0 }
{
    usize::from(is_there)
}

fn count_inner(borders: &Borders<char>, columns: usize) -> usize
    ensures { result ≡ cond (has_inner_vertical borders.now) (columns - 1) 0 }
{
    if borders.has_vertical() {
        columns.saturating_sub(1)
    } else {
        0
    }
}

fn first_narrow_column<D: Dimension>(
    config: &CompactConfig,
    dimension: &D,
    columns: usize,
) -> Option<usize>
    ensures { result ≡ find (λ c. nat_lt (D.width dimension.now c) ((settings_of config.now).padding.left.size + (settings_of config.now).padding.right.size)) (range_with_len 0 columns) }
{
    (0..columns).find(|column| is_narrow(config, dimension.get_width(*column)))
}

fn is_narrow(config: &CompactConfig, width: usize) -> bool
    ensures { result ≡ nat_lt width ((settings_of config.now).padding.left.size + (settings_of config.now).padding.right.size) }
{
    let padding = config.get_padding();
    match padding.left.size.checked_add(padding.right.size) {
        Some(sides) => width < sides,
        None => true,
    }
}
