//! The columns of a table as rows.

ghost use Rattle.std.specs.Prelude.{◌≡◌, ◌<◌, [], length, map, Err, IfOk};
ghost use Rattle.std.specs.List.{range_with_len};
ghost use Rattle.pg_layout.specs.Position.{at};
ghost use Rattle.pg_layout.specs.Records.{columns_of, text_at};
ghost use Rattle.pg_table.specs.OwnRows.{texts_of, transposed};
ghost use Rattle.pg_table.specs.Printing.{ascii_config};

use crate::fault::TableFault;
use crate::table::Table;
use pg_layout::{ExactRecords, PeekableRecords, Position};
use std::alloc::{AllocError, Allocator};
use std::convert::AsStr;

impl<T: AsStr + Drop, A: Allocator> Table<T, A> {
    /// A table of the same texts, which are lent, whose rows are the columns of this one. It has the
    /// settings of [`Table::new`]. The only error is `Memory`.
    ///
    /// ```text
    /// let by_item = by_month.transposed(alloc)?.with_borders(Borders::rounded());
    /// ```
    pub fn transposed<B: Allocator + Copy>(&self, alloc: B) -> Result<Table<&str, B>, TableFault>
        ensures texts { IfOk result (λ table. texts_of (λ text. text.now) table ≡ transposed (texts_of T.text self.now) (columns_of self.now.rows)) }
        ensures settings { IfOk result (λ table. (table.config ≡ ascii_config) × (table.colors ≡ [])) }
        ensures memory { (fault : TableFault) → result ≡ Err fault → fault ≡ TableFault.Memory }
    {
        let rows = columns_as_rows(alloc, &self.records)?;
        Table::new(alloc, rows)
    }
}

// The texts of records, column by column.
fn columns_as_rows<'a, R: PeekableRecords + ExactRecords, B: Allocator + Copy>(
    alloc: B,
    records: &'a R,
) -> Result<Vec<Vec<&'a str, B>, B>, AllocError>
    ensures { IfOk result (λ rows. map (λ row. map (λ text. text.now) row.items) rows.items ≡ transposed (R.texts records.now) (R.columns records.now)) }
{
    let mut rows = Vec::with_capacity(alloc, records.count_columns())?;
    for column in 0..records.count_columns() {
        let texts = column_texts(alloc, records, column)?;
        rows.push(texts)?;
    }
    Ok(rows)
}

// The texts of a column, from the first row to the last.
fn column_texts<'a, R: PeekableRecords + ExactRecords, B: Allocator + Copy>(
    alloc: B,
    records: &'a R,
    column: usize,
) -> Result<Vec<&'a str, B>, AllocError>
    requires { column < R.columns records.now }
    ensures { IfOk result (λ texts. map (λ text. text.now) texts.items ≡ map (λ r. text_at (R.texts records.now) (at r column)) (range_with_len 0 (length (R.texts records.now)))) }
{
    let mut texts = Vec::with_capacity(alloc, records.count_rows())?;
    for row in 0..records.count_rows() {
        texts.push(records.get_text(Position::new(row, column)))?;
    }
    Ok(texts)
}
