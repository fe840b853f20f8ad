//! The widths of columns within a room.

ghost use Rattle.std.specs.Prelude.{◌≡◌, ◌+◌, ◌-◌, ◌≤◌, nat_le, IfOk};
ghost use Rattle.pg_fit.specs.Narrowing.{share, limited, gain, total, widest, level, narrowed};

use std::alloc::{AllocError, Allocator};

/// How narrow a column may be, and how wide it would be with enough room, in terminal columns.
#[derive(Debug, Clone, Copy, PartialEq, Eq)]
pub struct ColumnRange {
    /// The width below which the column is never narrowed.
    pub least: usize,
    /// The width of the column if nothing need be narrowed.
    pub natural: usize,
}

impl ColumnRange {
    /// Lowers the natural width to this one, but not below the least width.
    pub fn limited(self, width: usize) -> ColumnRange
        ensures { result ≡ limited width self }
    {
        ColumnRange {
            least: self.least,
            natural: self.least.max(self.natural.min(width)),
        }
    }

    // Its width if no column is wider than a level: its natural width, but at most the level, and
    // at least its least.
    #[inline(always)]
    fn share(self, level: usize) -> usize
        ensures { result ≡ share level self }
    {
        self.least.max(self.natural.min(level))
    }

    // What it gets of the rest: one, if it could be wider.
    #[inline(always)]
    fn gain(self, left: usize, level: usize) -> usize
        ensures value { result ≡ gain left level self }
        ensures bound { result ≤ left }
        ensures fits { share level self + result ≤ usize.MAX }
    {
        left.min(self.share(level.saturating_add(1)) - self.share(level))
    }
}

fn widest(columns: &[ColumnRange]) -> usize
    ensures { result ≡ widest columns.now }
{
    let mut width = 0;
    for column in columns {
        width = column.natural.max(width);
    }
    width
}

// Whether the columns fit at a level.
fn fit(room: usize, level: usize, columns: &[ColumnRange]) -> bool
    ensures { result ≡ nat_le (total level columns.now) room }
{
    let mut left = room;
    for column in columns {
        let share = column.share(level);
        if share > left {
            return false;
        }
        left -= share;
    }
    true
}

// What the columns leave of the room at a level.
fn left_at(room: usize, level: usize, columns: &[ColumnRange]) -> usize
    ensures { result ≡ room - total level columns.now }
{
    let mut left = room;
    for column in columns {
        left = left.saturating_sub(column.share(level));
    }
    left
}

// The greatest level, up to the widest natural width, at which the columns fit.
fn find_level(room: usize, columns: &[ColumnRange]) -> usize
    ensures { result ≡ level room columns.now }
{
    let mut low = 0;
    let mut high = widest(columns);
    'halving: while low < high {
        let middle = high - (high - low) / 2;
        if fit(room, middle, columns) {
            low = middle;
        } else {
            high = middle - 1;
        }
    }
    low
}

/// The widths of columns within a room. No column is wider than a level, unless its least width is
/// greater; the level is the greatest at which the columns fit. The rest of the room goes, a
/// terminal column each, to the first of the columns that are still narrowed.
///
/// If all fit at their natural widths, they have these; if they don't fit at their least widths,
/// they have those.
///
/// ```text
/// // three columns of 4, 20 and 30, which can be narrowed to 1, within 30
/// narrow(alloc, 30, &columns)? // [4, 13, 13]
/// ```
pub fn narrow<A: Allocator>(
    alloc: A,
    room: usize,
    columns: &[ColumnRange],
) -> Result<Vec<usize, A>, AllocError>
    ensures { IfOk result (λ widths. widths.items ≡ narrowed room columns.now) }
{
    let level = find_level(room, columns);
    let mut left = left_at(room, level, columns);
    let mut widths = Vec::with_capacity(alloc, columns.len())?;
    for column in columns {
        let gain = column.gain(left, level);
        left -= gain;
        widths.push(column.share(level) + gain)?;
    }
    Ok(widths)
}
