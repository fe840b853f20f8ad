//! The horizontal alignments of columns.

ghost use Rattle.std.specs.Prelude.{◌≡◌, ◌<◌, ◌≤◌, IfSome, slice_index_or};

use pg_config::SpannedConfig;
use pg_layout::{AlignmentHorizontal, Position};
use std::alloc::Allocator;

/// How many columns' alignments are kept.
const KEPT_COLUMNS: usize = 32;

/// The horizontal alignments of the first columns of a table, at most 32, if each cell has that of
/// its column; else none.
#[derive(Debug, Clone, Copy)]
pub(crate) struct ColumnSides {
    first: [AlignmentHorizontal; KEPT_COLUMNS],
    count: usize,
    ghost few: { count ≤ 32 },
}

impl ColumnSides {
    ghost use Rattle.pg_picture.specs.Inside.{AreSidesOf};

    /// Those of a table of so many columns.
    pub(crate) fn of<B: Allocator>(config: &SpannedConfig<B>, columns: usize) -> ColumnSides
        ensures { AreSidesOf config.now result }
    {
        let mut first = [AlignmentHorizontal::Left; KEPT_COLUMNS];
        if !config.has_sides_by_column() {
            return ColumnSides { first, count: 0 };
        }
        let count = columns.min(KEPT_COLUMNS);
        for column in 0..count {
            first[column] = config.get_alignment_horizontal(Position::new(0, column));
        }
        ColumnSides { first, count }
    }

    /// That of a column, if it is kept.
    #[inline(always)]
    pub(crate) fn get(&self, column: usize) -> Option<AlignmentHorizontal>
        ensures { IfSome result (λ side. (column < self.now.count) × (side ≡ slice_index_or self.now.first column AlignmentHorizontal.Left)) }
    {
        if column < self.count {
            return Some(self.first[column]);
        }
        None
    }
}
