//! A row whose texts are cut to the widths of their columns.

ghost use Rattle.std.specs.Prelude.{◌≡◌, ◌&&◌, ◌++◌, [], true, IfOk, IsOk, List, map, length, slice_index_or, string_bytes};
ghost use Rattle.std.specs.Vec.Iter.{into_iter_items};
ghost use Rattle.pg_layout.specs.Text.{width_of, first_line_of, lines_of};
ghost use Rattle.pg_fit.specs.Rows.{fitted_text, is_kept, is_fitting, by_width, cut_cell, cut_row};

use crate::cutting::push_cut;
use pg_layout::{count_lines, first_line, get_line_width};
use std::alloc::{AllocError, Allocator, Global};
use std::convert::AsStr;

/// A cell of a row that was cut or wrapped: its own text, or the one made in its place.
#[derive(Debug)]
pub enum Fitted<S, A: Allocator = Global> {
    /// It is narrow enough, and has one line if the row was cut.
    Kept(S),
    /// Some of its lines were cut, left out or broken.
    Made(String<A>),
}

// Written out, so that a caller's proof has one call when it drops cells.
impl<S: Drop, A: Allocator> Drop for Fitted<S, A> {
    fn drop(self) {
        match self {
            Fitted::Kept(cell) => drop(cell),
            Fitted::Made(text) => drop(text),
        }
    }
}

impl<S: AsStr, A: Allocator> AsStr for Fitted<S, A> {
    ghost text = { λ cell. fitted_text S.text cell };

    fn as_str(&self) -> &str {
        match self {
            Fitted::Kept(cell) => cell.as_str(),
            Fitted::Made(text) => text.as_str(),
        }
    }
}

fn is_fitting(text: &str, width: usize) -> bool
    ensures { result ≡ is_fitting width text.now }
{
    count_lines(text) == 1 && get_line_width(text) <= width
}

// The width of a column, or 0 if it has none.
pub(crate) fn width_of_column(widths: &[usize], column: usize) -> usize
    ensures { result ≡ slice_index_or widths.now column 0 }
{
    widths.get(column).copied().unwrap_or(0)
}

// A cell, cut to so many columns.
#[tactic(auto, using(crate::proofs::LawsOfCuts::fitting_cells))]
fn fit_cell<S: AsStr + Drop, A: Allocator>(
    alloc: A,
    cell: S,
    width: usize,
    tail: &str,
) -> Result<Fitted<S, A>, AllocError>
    ensures text { IfOk result (λ fitted. fitted_text S.text fitted ≡ cut_cell tail.now width (S.text cell)) }
    ensures kept { IfOk result (λ fitted. is_kept fitted ≡ is_fitting width (S.text cell)) }
    ensures nothing { is_fitting width (S.text cell) ≡ true → IsOk result }
{
    if is_fitting(cell.as_str(), width) {
        return Ok(Fitted::Kept(cell));
    }
    let mut made = String::new(alloc);
    push_cut(first_line(cell.as_str()), width, tail, &mut made)?;
    Ok(Fitted::Made(made))
}

/// The cells of a row, each cut to one line of at most so many columns; a line that is too wide
/// ends with the tail. A cell without a width has width 0.
///
/// Such a row has room in a table whose rows have one line and whose columns have these widths and
/// their paddings, so a long text ends no stream of rows. Apart from the row itself only cut cells
/// take memory, and a row without cells takes none.
///
/// ```text
/// fit_row(alloc, vec![in alloc; "tea", "dried leaves\nof a plant"]?, &[5, 8], "…")? // tea | dried l…
/// ```
pub fn fit_row<S: AsStr + Drop, B: Allocator, A: Allocator + Copy>(
    alloc: A,
    cells: Vec<S, B>,
    widths: &[usize],
    tail: &str,
) -> Result<Vec<Fitted<S, A>, A>, AllocError>
    ensures texts { IfOk result (λ row. map (fitted_text S.text) row.items ≡ cut_row tail.now widths.now (map S.text cells.items)) }
    ensures kept { IfOk result (λ row. map is_kept row.items ≡ by_width is_fitting widths.now (map S.text cells.items)) }
    ensures nothing { cells.items ≡ [] → IsOk result }
{
    let mut row = Vec::with_capacity(alloc, cells.len())?;
    for cell in cells {
        let width = width_of_column(widths, row.len());
        let fitted = fit_cell(alloc, cell, width, tail)?;
        row.push(fitted)?;
    }
    Ok(row)
}
