//! Records whose rows an iterator gives, and rows that are pushed to records.

ghost use Rattle.std.specs.Iterator.{IsFinite};

use crate::case::CaseFault;
use crate::values::Fact;
use pg_layout::{
    ExactRecords, IterRecords, PeekableRecords, Position, PushFault, Records, VecRecords,
};
use pg_testing::refusing::Refusing;
use pg_testing::report::Report;
use pg_testing::unhinted::Repeated;
use std::alloc::Global;
use std::array;

// The texts of rows of two cells, each row with a line feed.
fn read<R: Iterator<Item = array::IntoIter<&'static str, 2>>>(
    alloc: Global,
    rows: R,
) -> Result<String, CaseFault>
    requires can_next { R.can_next rows }
    requires ends { IsFinite (R.remaining rows) }
{
    let mut text = String::new(alloc);
    for row in rows {
        for cell in row {
            text.push_str(cell)?;
        }
        text.push('\n')?;
    }
    Ok(text)
}

fn rows_of_arrays_are_read(alloc: Global, report: &mut Report) -> Result<(), CaseFault> {
    let mut fact = Fact::new(report, "rows of arrays are read");
    let rows = vec![in alloc; ["a", "b"], ["c", "d"]]?;
    let records = IterRecords::new(rows.into_iter(), 2, Some(2));
    fact.same(records.count_columns(), 2);
    fact.same(records.hint_count_rows(), Some(2));
    let text = read(alloc, records.iter_rows())?;
    fact.same(text.as_str(), "ab\ncd\n");
    Ok(())
}

fn rows_of_another_iterator_are_read(alloc: Global, report: &mut Report) -> Result<(), CaseFault> {
    let mut fact = Fact::new(report, "rows of another iterator are read");
    let records = IterRecords::new(Repeated::new(["a", "b"], 3), 2, None);
    fact.same(records.count_columns(), 2);
    fact.same(records.hint_count_rows(), None);
    let text = read(alloc, records.iter_rows())?;
    fact.same(text.as_str(), "ab\nab\nab\n");
    Ok(())
}

/// All facts of this file.
pub(crate) fn check_given(alloc: Global, report: &mut Report) -> Result<(), CaseFault> {
    rows_of_arrays_are_read(alloc, report)?;
    rows_of_another_iterator_are_read(alloc, report)
}

/// A row, and what the call returns that pushes it.
type Push = (&'static [&'static str], Result<(), PushFault>);

/// Two rows of one length.
const EVEN: [Push; 2] = [(&["a", "b"], Ok(())), (&["c", "d"], Ok(()))];

/// Rows below one of two cells.
const UNEVEN: [Push; 4] = [
    (&["c"], Err(PushFault::Ragged(1))),
    (&["c", "d"], Ok(())),
    (&["e", "f", "g"], Err(PushFault::Ragged(2))),
    (&[], Err(PushFault::Ragged(2))),
];

/// Rows without cells, and one with a cell.
const EMPTY: [Push; 3] = [
    (&[], Ok(())),
    (&["a"], Err(PushFault::Ragged(1))),
    (&[], Ok(())),
];

// Pushes a row of these texts.
fn push(
    records: &mut VecRecords<&'static str>,
    alloc: Global,
    row: &[&'static str],
) -> Result<(), PushFault> {
    match row.to_vec(alloc) {
        Ok(row) => records.push_row(row),
        Err(_) => Err(PushFault::Memory),
    }
}

// Pushes rows one after the other. Two rows are there afterwards.
fn check_pushes(
    fact: &mut Fact<'_>,
    records: &mut VecRecords<&'static str>,
    alloc: Global,
    rows: &[Push],
) {
    for (row, expected) in rows {
        fact.same(push(records, alloc, row), *expected);
    }
    fact.same((&*records).count_rows(), 2);
}

fn rows_of_the_first_ones_length_are_pushed(alloc: Global, report: &mut Report) {
    let mut fact = Fact::new(report, "rows of the first ones length are pushed");
    let mut records = VecRecords::new(Vec::new(alloc)).unwrap();
    check_pushes(&mut fact, &mut records, alloc, &EVEN);
    let pushed = &records;
    fact.same(pushed.count_columns(), 2);
    if pushed.count_rows() == 2 && pushed.count_columns() == 2 {
        fact.same(pushed.get_text(Position::new(1, 0)), "c");
    }
}

fn another_length_is_refused_with_its_row(
    alloc: Global,
    report: &mut Report,
) -> Result<(), CaseFault> {
    let mut fact = Fact::new(report, "another length is refused with its row");
    let mut records = VecRecords::new(vec![in alloc; vec![in alloc; "a", "b"]?]?).unwrap();
    check_pushes(&mut fact, &mut records, alloc, &UNEVEN);
    Ok(())
}

fn rows_without_cells_stay_alone(alloc: Global, report: &mut Report) {
    let mut fact = Fact::new(report, "rows without cells stay alone");
    let mut records = VecRecords::new(Vec::new(alloc)).unwrap();
    check_pushes(&mut fact, &mut records, alloc, &EMPTY);
    fact.same((&records).count_columns(), 0);
}

fn a_refused_row_leaves_the_records(alloc: Global, report: &mut Report) -> Result<(), CaseFault> {
    let mut fact = Fact::new(report, "a refused row leaves the records");
    let memory = Refusing::from_on(alloc, 1);
    let alloc = &memory;
    let mut records = VecRecords::new(Vec::new(alloc)).unwrap();
    let row = vec![in alloc; "a"]?;
    fact.same(records.push_row(row), Err(PushFault::Memory));
    fact.same((&records).count_rows(), 0);
    Ok(())
}

/// All facts of this file.
pub(crate) fn check_pushed(alloc: Global, report: &mut Report) -> Result<(), CaseFault> {
    rows_of_the_first_ones_length_are_pushed(alloc, report);
    another_length_is_refused_with_its_row(alloc, report)?;
    rows_without_cells_stay_alone(alloc, report);
    a_refused_row_leaves_the_records(alloc, report)
}
