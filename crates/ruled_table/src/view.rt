//! The text of rows, and why there is none.

ghost use Rattle.std.specs.Prelude.{◌≡◌, map, string_bytes, IfOk, ◌⊎◌};
ghost use Rattle.csv.specs.Records.{fields_of};
ghost use Rattle.ruled_table.specs.Tables.{Tells, fault_of_stream};
ghost use Rattle.ruled_table.specs.Arranged as spec;
ghost use Rattle.pg_table.specs.declared.fault.TableFault.{TableFault};
ghost use Rattle.ruled_table.specs.declared.view.ViewFault.TheVariants.{Memory, Totals};

use crate::arrangement::arranged;
use crate::columns::places_of;
use crate::options::Options;
use crate::rows::{ends, heads, tails};
use crate::sides::body_of;
use pg_stream::StreamFault;
use pg_table::TableFault;
use ruled_row::TextRow;
use std::alloc::{AllocError, AllocFailed, Global};

/// The rows that are shown of an input.
#[derive(Drop)]
pub struct Chosen {
    /// The rows, of which the first is row 0.
    pub rows: Vec<TextRow>,
    /// The line below their table that counts rows and columns, with a line feed, or nothing.
    pub count: String,
}

// What a word for several ends with.
fn plural(count: usize) -> &'static str
    ensures { result.now ≡ spec.plural count }
{
    if count == 1 { "" } else { "s" }
}

// So many rows and columns, and a line feed.
fn count_of(alloc: Global, rows: usize, columns: usize) -> Result<String, AllocError>
    ensures { IfOk result (λ text. string_bytes text ≡ spec.count_of rows columns) }
{
    let (row_end, column_end) = (plural(rows), plural(columns));
    format!(in alloc; "{rows} row{row_end}, {columns} column{column_end}\n")
}

// The line below a table with rows of an input, of which so many columns are asked for.
#[tactic(auto, using(crate::proofs::LentTexts::lengths))]
fn count_text(
    alloc: Global,
    options: &Options,
    rows: &[TextRow],
    columns: usize,
) -> Result<String, AllocError>
    ensures { IfOk result (λ text. string_bytes text ≡ spec.counted_by options.now (map fields_of rows.now) columns) }
{
    if !options.is_counting {
        return Ok(String::new(alloc));
    }
    count_of(alloc, body_of(options.has_header, rows).len(), columns)
}

/// The rows that are shown of these, of which the first is row 0.
///
/// The fault is the word for a column that is wrong, whether rows are shown or not, or out of memory: that of
/// [`Options::sort`], or else one of [`Options::columns`].
pub fn chosen_rows(
    alloc: Global,
    options: &Options,
    rows: Vec<TextRow>,
) -> Result<Chosen, ViewFault>
    ensures rows { IfOk result (λ chosen. map fields_of chosen.rows.items ≡ spec.chosen_rows options.now (map fields_of rows.items)) }
    ensures count { IfOk result (λ chosen. string_bytes chosen.count ≡ spec.count_text options.now (map fields_of rows.items)) }
    ensures fault { Tells (spec.chosen_fault options.now (map fields_of rows.items)) result }
{
    let rows = arranged(alloc, options, rows)?;
    let columns = places_of(alloc, &options.columns, &rows)?.len();
    let rows = heads(options, rows);
    let count = count_text(alloc, options, &rows, columns)?;
    let rows = ends(alloc, options, tails(options, rows))?;
    Ok(Chosen { rows, count })
}

/// Why rows have no table.
#[derive(Clone, Copy)]
pub enum ViewFault {
    /// Row 0 has no column for this word, of those that [`crate::Options::columns`] lists, counted from 0, or no column
    /// stays.
    Column(usize),
    /// Row 0 has no column for the word of [`crate::Options::sort`].
    Sort,
    /// The sizes of the table are too large.
    Totals,
    /// Out of memory.
    Memory,
}

impl From<AllocError> for ViewFault {
    ghost from_gives = { λ _ fault. fault ≡ Memory };

    fn from(_error: AllocError) -> ViewFault {
        ViewFault::Memory
    }
}

impl<T: Drop> From<AllocFailed<T>> for ViewFault {
    ghost from_gives = { λ _ fault. fault ≡ Memory };

    fn from(_error: AllocFailed<T>) -> ViewFault {
        ViewFault::Memory
    }
}

impl From<StreamFault> for ViewFault {
    ghost from_gives = { λ found fault. fault ≡ fault_of_stream found };

    fn from(fault: StreamFault) -> ViewFault {
        match fault {
            StreamFault::Memory => ViewFault::Memory,
            _ => ViewFault::Totals,
        }
    }
}

/// Why a table isn't printed.
pub(crate) fn fault_in(fault: TableFault) -> ViewFault
    ensures two { result ≡ Memory ⊎ result ≡ Totals }
    ensures memory { fault ≡ TableFault.Memory → result ≡ Memory }
{
    match fault {
        TableFault::Memory => ViewFault::Memory,
        _ => ViewFault::Totals,
    }
}
