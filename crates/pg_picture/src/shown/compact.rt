//! Whether a compact table shows each line of its texts.

ghost use Rattle.std.specs.Prelude.{◌≡◌, ◌<◌, not, find, length};
ghost use Rattle.pg_layout.specs.declared.position.Position.{Position};
ghost use Rattle.pg_layout.specs.Records.{text_at};
ghost use Rattle.pg_config.specs.CompactConfig.{settings_of};
ghost use Rattle.pg_picture.specs.Shown.{is_one_line, compact_table_of, compact_unshown_of, unless_unshown};
ghost use Rattle.pg_picture.specs.Inside.{row_places, places_from};

use crate::fits::compact_fits;
use crate::shown::Unshown;
use pg_config::CompactConfig;
use pg_layout::{Dimension, ExactRecords, PeekableRecords, Position, Records};

/// Whether a compact table of these records fits, and shows each line of its texts. The error is
/// its misfit ([`compact_fits`]), else the first cell, row by row, whose text has more than one
/// line. A table with no rows or no columns shows all.
///
/// Allocates nothing.
#[tactic(auto, unfolding(crate::specs::Shown::compact_unshown_of))]
pub fn compact_shows_all<R, D>(
    records: &R,
    config: &CompactConfig,
    dimension: &D,
) -> Result<(), Unshown>
where
    R: Records + PeekableRecords + ExactRecords,
    D: Dimension,
    ensures { result ≡ unless_unshown (compact_unshown_of (compact_table_of (settings_of config.now) (D.width dimension.now) (R.texts records.now) (R.columns records.now))) }
{
    let (rows, columns) = (records.count_rows(), records.count_columns());
    if rows == 0 || columns == 0 {
        return Ok(());
    }
    if let Err(misfit) = compact_fits(config, dimension, columns) {
        return Err(Unshown::Misfit(misfit));
    }
    match first_of_lines(records) {
        Some(pos) => Err(Unshown::Lines(pos.row, pos.col)),
        None => Ok(()),
    }
}

fn first_of_lines<R>(records: &R) -> Option<Position>
where
    R: Records + PeekableRecords + ExactRecords,
    ensures { result ≡ find (λ (p : Position). not (is_one_line (text_at (R.texts records.now) p))) (places_from (length (R.texts records.now)) (R.columns records.now) 0) }
{
    for row in 0..records.count_rows() {
        if let Some(pos) = lines_in_row(records, row) {
            return Some(pos);
        }
    }
    None
}

fn lines_in_row<R>(records: &R, row: usize) -> Option<Position>
where
    R: Records + PeekableRecords + ExactRecords,
    requires row { row < length (R.texts records.now) }
    ensures { result ≡ find (λ (p : Position). not (is_one_line (text_at (R.texts records.now) p))) (row_places (R.columns records.now) row 0) }
{
    for column in 0..records.count_columns() {
        let pos = Position::new(row, column);
        if records.count_lines(pos) != 1 {
            return Some(pos);
        }
    }
    None
}
