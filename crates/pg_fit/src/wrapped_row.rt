//! A row whose texts are wrapped in the widths of their columns, and how many lines it needs.

ghost use Rattle.std.specs.Prelude.{◌≡◌, ◌++◌, [], true, IfOk, IsOk, List, map, max, length, slice_index_or};
ghost use Rattle.std.specs.Vec.Iter.{into_iter_items};
ghost use Rattle.pg_layout.specs.Text.{lines_of};
ghost use Rattle.pg_fit.specs.Rows.{fitted_text, is_kept, is_narrow, by_width, wrapped_row, row_height};
ghost use Rattle.pg_fit.specs.Wrapping.{wrapped};

use crate::row::{Fitted, width_of_column};
use crate::wrapping::{Breaking, wrap};
use pg_layout::{count_lines, get_text_width, is_plain};
use std::alloc::{AllocError, Allocator};
use std::convert::AsStr;

// A cell, wrapped in so many columns.
#[tactic(auto, using(crate::proofs::LawsOfTexts::fitting_texts_stay))]
fn wrap_cell<S: AsStr + Drop, A: Allocator>(
    alloc: A,
    cell: S,
    width: usize,
    breaking: Breaking,
) -> Result<Fitted<S, A>, AllocError>
    ensures text { IfOk result (λ fitted. fitted_text S.text fitted ≡ wrapped breaking width (S.text cell)) }
    ensures kept { IfOk result (λ fitted. is_kept fitted ≡ is_narrow width (S.text cell)) }
    ensures nothing { is_narrow width (S.text cell) ≡ true → IsOk result }
{
    if get_text_width(cell.as_str()) <= width {
        return Ok(Fitted::Kept(cell));
    }
    let made = wrap(alloc, cell.as_str(), width, breaking)?;
    Ok(Fitted::Made(made))
}

/// The cells of a row, each wrapped in so many columns, like [`wrap`](crate::wrap). A cell without
/// a width has width 0, so each of its characters has a line.
///
/// Such a row is as high as [`row_height`] returns, and has room in columns of these widths and
/// their paddings if no character is wider than its column. Apart from the row itself only wrapped
/// cells take memory, and a row without cells takes none.
///
/// ```text
/// wrap_row(alloc, vec![in alloc; "tea", "dried leaves of a plant"]?, &[5, 12], Breaking::BetweenWords)?
/// // tea | dried leaves
/// //     | of a plant
/// ```
pub fn wrap_row<S: AsStr + Drop, B: Allocator, A: Allocator + Copy>(
    alloc: A,
    cells: Vec<S, B>,
    widths: &[usize],
    breaking: Breaking,
) -> Result<Vec<Fitted<S, A>, A>, AllocError>
    ensures texts { IfOk result (λ row. map (fitted_text S.text) row.items ≡ wrapped_row breaking widths.now (map S.text cells.items)) }
    ensures kept { IfOk result (λ row. map is_kept row.items ≡ by_width is_narrow widths.now (map S.text cells.items)) }
    ensures nothing { cells.items ≡ [] → IsOk result }
{
    let mut row = Vec::with_capacity(alloc, cells.len())?;
    for cell in cells {
        let width = width_of_column(widths, row.len());
        let fitted = wrap_cell(alloc, cell, width, breaking)?;
        row.push(fitted)?;
    }
    Ok(row)
}

// How many lines a text has. A plain one has one, and isn't read again for it.
#[inline(always)]
#[tactic(auto, using(crate::proofs::LawsOfTexts::single_lines))]
fn lines_in(text: &str) -> usize
    ensures { result ≡ length (lines_of text.now) }
{
    if is_plain(text.as_bytes()) {
        return 1;
    }
    count_lines(text)
}

/// How many lines a row of these cells needs: those of the cell with the most, and 0 without cells.
/// Paddings above and below aren't counted.
pub fn row_height<S: AsStr>(cells: &[S]) -> usize
    ensures { result ≡ row_height (map S.text cells.now) }
{
    let mut height = 0;
    for cell in cells {
        height = lines_in(cell.as_str()).max(height);
    }
    height
}
