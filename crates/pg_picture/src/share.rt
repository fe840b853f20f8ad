//! The shares of free room: beside a line, and above the lines of a text.

ghost use Rattle.std.specs.Prelude.{◌≡◌, ◌≤◌};
ghost use Rattle.pg_picture.specs.Pieces.{shares, lines_above};

use pg_layout::{AlignmentHorizontal, AlignmentVertical};

/// How many of the columns that a text of `got` columns leaves free in `max` columns are left of
/// it, and how many right of it. The odd one of a centred text is at its right. Precondition: `got`
/// is at most `max`.
///
/// For callers who draw pieces of a table themselves.
#[inline(always)]
#[tactic(auto, unfolding(crate::specs::Pieces::shares))]
pub fn calculate_indent(alignment: AlignmentHorizontal, got: usize, max: usize) -> (usize, usize)
    requires { got ≤ max }
    ensures { result ≡ shares alignment got max }
{
    let free = max - got;
    match alignment {
        AlignmentHorizontal::Left => (0, free),
        AlignmentHorizontal::Right => (free, 0),
        AlignmentHorizontal::Center => (free / 2, free - free / 2),
    }
}

/// How many of the `available` lines of a cell are above its `real` lines of text. The odd one of a
/// centred text is below it. Precondition: `real` is at most `available`.
#[inline(always)]
#[tactic(auto, unfolding(crate::specs::Pieces::lines_above))]
pub fn indent_from_top(alignment: AlignmentVertical, available: usize, real: usize) -> usize
    requires { real ≤ available }
    ensures { result ≡ lines_above alignment available real }
{
    match alignment {
        AlignmentVertical::Top => 0,
        AlignmentVertical::Bottom => available - real,
        AlignmentVertical::Center => (available - real) / 2,
    }
}
