//! The rows that are asked of a database, or by a query.

ghost use Rattle.std.specs.Prelude.{◌≡◌, ◌∷◌, None, Some, map, option_map, string_bytes, true, IfErr, IfOk};
ghost use Rattle.csv.specs.Records.{fields_of};
ghost use Rattle.ruled_sql.specs.Filled as sql;
ghost use Rattle.ruled_io.specs.Faults.{Tells};
ghost use Rattle.ruled_io.specs.Input as spec;
ghost use Rattle.ruled_io.specs.Input.{AreAnswer, AreSelected, LacksSelected, below_names, table_of};
ghost use Rattle.ruled_io.specs.Requests.{known_in};
ghost use Rattle.ruled_io.specs.Runs.{AreAsked, LacksRowsAs};
ghost use Rattle.ruled_io.specs.declared.request.Selection.TheVariants.{Query as Select};

use crate::fault::{FurtherFault, InputFault};
use crate::formats::Known;
use crate::input::rows_in;
use crate::request::{Query, QueryTable, Selection, Source, sees_database};
use ruled_database::{list_rows, table_rows};
use ruled_row::TextRow;
use ruled_sql::{NamedRows, query_rows, query_tables};
use ruled_table::{named, padded};
use std::alloc::{AllocError, Global};

// The table of these rows that a query reads.
fn table_of(alloc: Global, query: &Query, rows: Vec<TextRow>) -> Result<Vec<TextRow>, AllocError>
    ensures { IfOk result (λ table. map fields_of table.items ≡ table_of query.now (map fields_of rows.items)) }
{
    let rows = named(alloc, &query.names, rows)?;
    if query.is_padded {
        return padded(alloc, rows);
    }
    Ok(rows)
}

// The rows of a further table of a query, whose number is this, or why there are none.
fn rows_read(
    alloc: Global,
    query: &Query,
    number: usize,
    table: &QueryTable,
) -> Result<Vec<TextRow>, InputFault>
    ensures rows { IfOk result (λ rows. map fields_of rows.items ≡ spec.rows_read query.now table.now) }
    ensures fault { Tells (spec.fault_read query.now number table.now) result }
{
    if sees_database(table.known, &table.bytes) {
        let fault = FurtherFault::Database;
        return Err(InputFault::Further {
            input: number,
            fault,
        });
    }
    match rows_in(alloc, table.known, &query.members, &table.bytes) {
        Ok(rows) => Ok(table_of(alloc, query, rows)?),
        Err(fault) => Err(fault.of_further(number)),
    }
}

// The tables that a query reads, of which the first has these rows.
fn tables_of<'q>(
    alloc: Global,
    query: &'q Query,
    rows: Vec<TextRow>,
) -> Result<Vec<NamedRows<'q>>, InputFault>
    ensures tables { IfOk result (λ tables. map sql.table_of tables.items ≡ (string_bytes query.now.table, map fields_of rows.items) ∷ map (spec.further_table query.now) query.now.tables.items) }
    ensures fault { Tells (spec.tables_fault query.now 0 query.now.tables.items) result }
{
    let mut tables = Vec::new(alloc);
    tables.push(NamedRows {
        name: query.table.as_str(),
        rows,
    })?;
    for (number, table) in query.tables.iter().enumerate() {
        let rows = rows_read(alloc, query, number, table)?;
        tables.push(NamedRows {
            name: table.name.as_str(),
            rows,
        })?;
    }
    Ok(tables)
}

// The rows that a query answers of the rows that bytes hold, of whose format this is known, and of those of further tables.
fn queried_rows(
    alloc: Global,
    query: &Query,
    known: Known,
    bytes: &[u8],
) -> Result<Vec<TextRow>, InputFault>
    ensures rows { IfOk result (λ rows. AreAnswer (Some known) query.now bytes.now (map fields_of rows.items)) }
    ensures cause { known_in query.now.known bytes.now ≡ Some known → IfErr result (LacksSelected None (Some (Select query.now)) bytes.now) }
{
    let rows = rows_in(alloc, known, &query.members, bytes)?;
    let first = table_of(alloc, query, rows)?;
    let tables = tables_of(alloc, query, first)?;
    let (text, null) = (query.text.as_str(), query.null.as_str());
    Ok(query_tables(alloc, tables, text, query.steps, null)?)
}

// The rows that a query answers.
fn answer_rows(alloc: Global, query: &Query, bytes: &[u8]) -> Result<Vec<TextRow>, InputFault>
    ensures rows { IfOk result (λ rows. AreAnswer (known_in query.now.known bytes.now) query.now bytes.now (map fields_of rows.items)) }
    ensures cause { IfErr result (LacksSelected None (Some (Select query.now)) bytes.now) }
{
    match query.known_in(bytes) {
        Some(known) => queried_rows(alloc, query, known, bytes),
        None => {
            let (text, null) = (query.text.as_str(), query.null.as_str());
            Ok(query_rows(alloc, bytes, text, query.steps, null)?)
        }
    }
}

// How many rows are needed below the names of columns, where so many are needed with these, if not all.
fn below_names(needed: Option<usize>) -> Option<usize>
    ensures { result ≡ below_names needed }
{
    match needed {
        Some(rows) => Some(rows.saturating_sub(1)),
        None => None,
    }
}

// The rows of a selection, or the tables where there is none. Of a table, so many are needed, if not all.
fn selected_rows(
    alloc: Global,
    selection: Option<&Selection>,
    needed: Option<usize>,
    bytes: &[u8],
) -> Result<Vec<TextRow>, InputFault>
    ensures rows { IfOk result (λ rows. AreSelected needed (option_map (λ it. it.now) selection.entry) bytes.now (map fields_of rows.items)) }
    ensures cause { IfErr result (LacksSelected needed (option_map (λ it. it.now) selection.entry) bytes.now) }
{
    match selection {
        Some(Selection::Query(query)) => answer_rows(alloc, query, bytes),
        Some(Selection::Table { name, null }) => {
            let below = below_names(needed);
            Ok(table_rows(alloc, bytes, name.as_str(), null.as_str(), below)?)
        }
        Some(Selection::Tables) | None => Ok(list_rows(alloc, bytes)?),
    }
}

/// The rows that are asked of a database, or by a query. Of a table, so many are needed, if not all.
pub(crate) fn asked_rows(
    alloc: Global,
    source: &Source,
    needed: Option<usize>,
    bytes: &[u8],
) -> Result<Vec<TextRow>, InputFault>
    ensures rows { IfOk result (λ rows. AreAsked needed source.now bytes.now (map fields_of rows.items)) }
    ensures cause { IfErr result (LacksRowsAs needed true source.now bytes.now) }
{
    if source.log().hides_rows(bytes) {
        return Err(InputFault::Log);
    }
    selected_rows(alloc, source.selection(), needed, bytes)
}
