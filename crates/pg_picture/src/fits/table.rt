//! The conditions of a whole table.

ghost use Rattle.std.specs.Prelude.{◌≡◌};
ghost use Rattle.pg_picture.specs.Fits.{cell_fits, misfit_of};
ghost use Rattle.pg_picture.specs.Sizes.{table_of, unless_misfit};

use crate::fits::Misfit;
use crate::fits::room::cell_fits;
use crate::fits::spans::spans_fit;
use crate::fits::totals::totals_fit;
use crate::sized_table::{CellTest, SizedTable};
use pg_config::SpannedConfig;
use pg_layout::{Dimension, ExactRecords, PeekableRecords, Position, Records};
use std::alloc::Allocator;

/// Whether a table of these records fits: the first of its misfits, its spans before its totals,
/// these before the room of its cells, and the cells row by row. A table with no rows or no columns
/// fits.
///
/// Allocates nothing. Colours don't matter.
#[tactic(auto, unfolding(crate::specs::Fits::misfit_of))]
pub fn table_fits<R, A, D>(
    records: &R,
    config: &SpannedConfig<A>,
    dimension: &D,
) -> Result<(), Misfit>
where
    R: Records + PeekableRecords + ExactRecords,
    A: Allocator,
    D: Dimension,
    ensures { result ≡ unless_misfit (misfit_of (table_of config.now (D.width dimension.now) (D.height dimension.now) (R.texts records.now) (R.columns records.now))) }
{
    let (rows, columns) = (records.count_rows(), records.count_columns());
    if rows == 0 || columns == 0 {
        return Ok(());
    }
    if !spans_fit(config, rows, columns) {
        return Err(Misfit::Spans);
    }
    if !totals_fit(config, dimension, rows, columns) {
        return Err(Misfit::Totals);
    }
    let table = SizedTable {
        records,
        config,
        dimension,
    };
    match table.first_failing::<HasRoom>() {
        Some(pos) => Err(Misfit::Room(pos.row, pos.col)),
        None => Ok(()),
    }
}

// A cell has room for its text.
struct HasRoom;

impl CellTest for HasRoom {
    ghost test = { cell_fits };

    fn passes<A: Allocator>(
        text: &str,
        config: &SpannedConfig<A>,
        pos: Position,
        width: usize,
        height: usize,
    ) -> bool {
        cell_fits(text, config, pos, width, height)
    }
}
