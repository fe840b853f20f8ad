//! Whether a table shows each line of its texts.

ghost use Rattle.std.specs.Prelude.{◌≡◌};
ghost use Rattle.pg_picture.specs.Shown.{cell_shows_all, unshown_of, unless_unshown};
ghost use Rattle.pg_picture.specs.Sizes.{table_of};

use crate::fits::table_fits;
use crate::shown::Unshown;
use crate::shown::cell::cell_shows_all;
use crate::sized_table::{CellTest, SizedTable};
use pg_config::SpannedConfig;
use pg_layout::{Dimension, ExactRecords, PeekableRecords, Position, Records};
use std::alloc::Allocator;

/// Whether a table of these records fits, and shows each line of its texts. The error is its first
/// misfit ([`crate::fits::table_fits`]), else the first cell, row by row, that doesn't show some
/// line. A table with no rows or no columns shows all.
///
/// Allocates nothing. Colours don't matter.
#[tactic(auto, unfolding(crate::specs::Shown::unshown_of))]
pub fn table_shows_all<R, A, D>(
    records: &R,
    config: &SpannedConfig<A>,
    dimension: &D,
) -> Result<(), Unshown>
where
    R: Records + PeekableRecords + ExactRecords,
    A: Allocator,
    D: Dimension,
    ensures { result ≡ unless_unshown (unshown_of (table_of config.now (D.width dimension.now) (D.height dimension.now) (R.texts records.now) (R.columns records.now))) }
{
    let (rows, columns) = (records.count_rows(), records.count_columns());
    if rows == 0 || columns == 0 {
        return Ok(());
    }
    table_fits(records, config, dimension)?;
    let table = SizedTable {
        records,
        config,
        dimension,
    };
    match table.first_failing::<ShowsAll>() {
        Some(pos) => Err(Unshown::Lines(pos.row, pos.col)),
        None => Ok(()),
    }
}

// A cell shows each line of its text.
struct ShowsAll;

impl CellTest for ShowsAll {
    ghost test = { λ style text _ height. cell_shows_all style text height };

    fn passes<A: Allocator>(
        text: &str,
        config: &SpannedConfig<A>,
        pos: Position,
        _width: usize,
        height: usize,
    ) -> bool {
        cell_shows_all(text, config, pos, height)
    }
}
