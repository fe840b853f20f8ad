//! The texts of all cells of a script's table.

ghost use Rattle.std.specs.Prelude.{◌≡◌, ◌<◌, [], length, All, IfOk, map, replicate, string_bytes};

use crate::statement::Size;
use pg_layout::{Position, VecRecords};
use std::alloc::{AllocError, Allocator};

/// A text for each cell of a table.
#[derive(Drop)]
pub(crate) struct CellTexts<A: Allocator> {
    size: Size,
    rows: Vec<Vec<String<A>, A>, A>,
    ghost all_rows: { length rows.items ≡ size.rows },
    ghost all_columns: { All (λ row. length row.items ≡ size.columns) rows.items },
}

// A row of empty texts.
fn empty_row<A: Allocator + Copy>(alloc: A, columns: usize) -> Result<Vec<String<A>, A>, AllocError>
    ensures columns { IfOk result (λ row. length row.items ≡ columns) }
    ensures texts { IfOk result (λ row. map string_bytes row.items ≡ replicate columns []) }
{
    let mut row = Vec::new(alloc);
    for _ in 0..columns {
        row.push(String::new(alloc))?;
    }
    Ok(row)
}

impl<A: Allocator + Copy> CellTexts<A> {
    ghost use Rattle.std.specs.Prelude.{◌≡◌, ◌<◌, [], IfOk, map, replicate, string_bytes};
    ghost use Rattle.pg_script.specs.Draft.{texts_of};
    ghost use Rattle.pg_script.specs.Told.{with_text};

    /// An empty text for each cell.
    pub(crate) fn empty(alloc: A, size: Size) -> Result<CellTexts<A>, AllocError>
        ensures size { IfOk result (λ texts. texts.size ≡ size) }
        ensures texts { IfOk result (λ texts. texts_of texts ≡ replicate size.rows (replicate size.columns [])) }
    {
        let mut rows = Vec::new(alloc);
        for _ in 0..size.rows {
            rows.push(empty_row(alloc, size.columns)?)?;
        }
        Ok(CellTexts { size, rows })
    }

    /// Changes the text of one cell.
    pub(crate) fn set(&mut self, place: Position, text: String<A>)
        requires row { place.row < self.old.size.rows }
        requires column { place.col < self.old.size.columns }
        ensures size { self.new.size ≡ self.old.size }
        ensures texts { texts_of self.new ≡ with_text place (string_bytes text) (texts_of self.old) }
    {
        self.rows[place.row][place.col] = text;
    }

    /// The texts as records.
    pub(crate) fn into_records(self) -> VecRecords<String<A>, A>
        ensures { map (λ row. map string_bytes row) result ≡ texts_of self }
    {
        VecRecords::new(self.rows).unwrap()
    }
}
