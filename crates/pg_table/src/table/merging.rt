//! Cells of a column that have one text, made one cell.

ghost use Rattle.std.specs.Prelude.{◌≡◌, ◌<◌, ◌≤◌, ◌-◌, ℕ, length, Err, IfOk, IsOk, OnOk};
ghost use Rattle.std.specs.List.{prefix_len, range_with_len};
ghost use Rattle.pg_layout.specs.Records.{columns_of};
ghost use Rattle.pg_table.specs.Even.{IsNarrowLook};
ghost use Rattle.pg_table.specs.OwnRows.{texts_of, HasNoRuns, has_text, merged, run_from, with_run, with_runs};

use crate::fault::TableFault;
use crate::table::Table;
use pg_config::SpannedConfig;
use pg_layout::{ExactRecords, PeekableRecords, Position};
use std::alloc::{AllocError, Allocator};
use std::convert::AsStr;

impl<T: AsStr + Drop, A: Allocator> Table<T, A> {
    /// The table with each run of equal texts in a column, which aren't empty, as one cell over all its
    /// rows. A column that doesn't exist changes nothing.
    ///
    /// The lines that the cells interrupt keep their crossings until
    /// [`Table::set_span_crossings`] redraws them. Allocates only for a run of several rows. After an
    /// error the table is dropped.
    ///
    /// ```text
    /// let table = table.with_merged_column(0)?.with_span_crossings(alloc, Borders::modern())?;
    /// ```
    pub fn with_merged_column(mut self, column: usize) -> Result<Table<T, A>, TableFault>
    where
        A: Clone,
        ensures ok { IfOk result (λ table. table ≡ merged column T.text self) }
        ensures memory { (fault : TableFault) → result ≡ Err fault → fault ≡ TableFault.Memory }
        ensures absent { columns_of self.rows ≤ column → IsOk result }
        ensures nothing { HasNoRuns (texts_of T.text self) column → IsOk result }
        ensures narrow { IsNarrowLook self.config → IfOk result (λ table. IsNarrowLook table.config) }
    {
        match self.merge_column(column) {
            Ok(()) => Ok(self),
            Err(error) => Err(error.into()),
        }
    }

    // Makes one cell of each run of equal texts in a column, or of some of them if memory is refused.
    fn merge_column(&mut self, column: usize) -> Result<(), AllocError>
    where
        A: Clone,
        ensures ok { OnOk result (self.new ≡ merged column T.text self.old) }
        ensures absent { columns_of self.old.rows ≤ column → IsOk result }
        ensures nothing { HasNoRuns (texts_of T.text self.old) column → IsOk result }
        ensures narrow { IsNarrowLook self.old.config → IsNarrowLook self.new.config }
    {
        if self.count_columns() <= column {
            return Ok(());
        }
        merge_runs(&self.records, &mut self.config, column)
    }
}

// Makes one cell of each run of equal texts in a column, or of some of them if memory is refused.

fn merge_runs<R: PeekableRecords + ExactRecords, A: Allocator + Clone>(
    records: &R,
    config: &mut SpannedConfig<A>,
    column: usize,
) -> Result<(), AllocError>
    requires column { column < R.columns records.now }
    ensures spans { OnOk result (config.new ≡ record config.old { spans = with_runs (R.texts records.now) column config.old.spans }) }
    ensures nothing { HasNoRuns (R.texts records.now) column → IsOk result }
    ensures narrow { IsNarrowLook config.old → IsNarrowLook config.new }
{
    for row in 0..records.count_rows() {
        merge_run(records, config, column, row)?;
    }
    Ok(())
}

// Makes one cell of the run that begins in a row, if it has several rows.
fn merge_run<R: PeekableRecords + ExactRecords, A: Allocator + Clone>(
    records: &R,
    config: &mut SpannedConfig<A>,
    column: usize,
    row: usize,
) -> Result<(), AllocError>
    requires column { column < R.columns records.now }
    requires row { row < length (R.texts records.now) }
    ensures spans { OnOk result (config.new ≡ record config.old { spans = with_run (R.texts records.now) column config.old.spans row }) }
    ensures nothing { run_from (R.texts records.now) column row ≤ 1 → IsOk result }
    ensures narrow { IsNarrowLook config.old → IsNarrowLook config.new }
{
    let count = run_from(records, column, row);
    if count <= 1 {
        return Ok(());
    }
    config.set_row_span(Position::new(row, column), count)
}

// How many rows the run has that begins in a row; none if its text is empty or that of the row above.
fn run_from<R: PeekableRecords + ExactRecords>(records: &R, column: usize, row: usize) -> usize
    requires column { column < R.columns records.now }
    requires row { row < length (R.texts records.now) }
    ensures { result ≡ run_from (R.texts records.now) column row }
{
    let text = records.get_text(Position::new(row, column));
    if text.is_empty() || 0 < row && records.get_text(Position::new(row - 1, column)) == text {
        return 0;
    }
    rows_with(records, text, column, row)
}

// How many rows from the first one on have this text, up to the first one with another.
#[tactic(auto, using(crate::proofs::Rearranged::one_row_more, crate::proofs::Rearranged::no_row_more, crate::proofs::Rearranged::no_row_left))]
fn rows_with<R: PeekableRecords + ExactRecords>(
    records: &R,
    text: &str,
    column: usize,
    first: usize,
) -> usize
    requires column { column < R.columns records.now }
    requires first { first ≤ length (R.texts records.now) }
    ensures { result ≡ prefix_len (has_text (R.texts records.now) column text.now) (range_with_len first (length (R.texts records.now) - first)) }
{
    let rows = records.count_rows();
    for row in first..rows {
        if records.get_text(Position::new(row, column)) != text {
            return row - first;
        }
    }
    rows - first
}
