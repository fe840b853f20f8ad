//! A database that rows fill.

ghost use Rattle.std.specs.Prelude.{◌≡◌, false, map, IfErr, IfOk, OnOk};
ghost use Rattle.csv.specs.Records.{fields_of};
ghost use Rattle.sqlite.specs.Held.{state};
ghost use Rattle.sqlite.specs.Listing.{misses_table, understood};
ghost use Rattle.sqlite.specs.Steps.{over_memory};
ghost use Rattle.sqlite.specs.Values.{bound, bound_value};
ghost use Rattle.sqlite_value.specs.Value.{owned};
ghost use Rattle.ruled_sql.specs.Answers.{is_memory};
ghost use Rattle.ruled_sql.specs.Filled as spec;

use crate::fault::{SqlFault, is_memory};
use crate::statements::{columns_text, create_text, field_at, insert_text, settle_text};
use ruled_row::TextRow;
use sqlite::{Connection, Error};
use sqlite_resolve::CompileError;
use sqlite_trees::memory::MemStore;
use sqlite_value::value::ValueRef;
use std::alloc::{AllocError, Global};

/// A table of rows, of which row 0 has the names of its columns.
#[derive(Drop)]
pub struct NamedRows<'a> {
    /// Its name in a query.
    pub name: &'a str,
    /// Its rows.
    pub rows: Vec<TextRow>,
}

// The value of a field.
fn value_of(text: &str) -> ValueRef<'_>
    ensures { bound_value (owned result) ≡ spec.value_of text.now }
{
    if text.is_empty() {
        ValueRef::Null
    } else {
        ValueRef::Text(text.as_bytes())
    }
}

// So many values of a row: those of its fields, and NULL where it has none.
fn values_of<'a>(
    alloc: Global,
    fields: &'a TextRow,
    count: usize,
) -> Result<Vec<ValueRef<'a>>, AllocError>
    ensures { IfOk result (λ values. bound values.items ≡ spec.values_of count (fields_of fields.now)) }
{
    let mut values = Vec::new(alloc);
    for place in 0..count {
        values.push(value_of(field_at(fields, place)))?;
    }
    Ok(values)
}

// Runs a statement with these values.
fn run(
    connection: &mut Connection<MemStore>,
    text: &str,
    values: &[ValueRef<'_>],
) -> Result<(), Error>
    ensures runs { OnOk result (spec.IsRun (text.now, bound values.now) connection.old connection.new) }
    ensures fails { IfErr result (spec.IsStuck (text.now, bound values.now) connection.old) }
{
    match connection.execute(text, values) {
        Ok(_) => Ok(()),
        Err(error) => Err(error),
    }
}

// Puts a row into a table.
fn insert_row(
    alloc: Global,
    connection: &mut Connection<MemStore>,
    text: &str,
    count: usize,
    fields: &TextRow,
) -> Result<(), Error>
    ensures runs { OnOk result (spec.IsRun (text.now, spec.values_of count (fields_of fields.now)) connection.old connection.new) }
    ensures fails { IfErr result (λ error. is_memory error ≡ false → spec.IsStuck (text.now, spec.values_of count (fields_of fields.now)) connection.old error) }
{
    let values = values_of(alloc, fields, count)?;
    run(connection, text, &values)
}

// Puts rows into a table.
fn insert_rows(
    alloc: Global,
    connection: &mut Connection<MemStore>,
    text: &str,
    count: usize,
    records: &[TextRow],
) -> Result<(), Error>
    ensures runs { OnOk result (spec.AreRun (spec.insertions text.now count (map fields_of records.now)) connection.old connection.new) }
    ensures fails { IfErr result (λ error. is_memory error ≡ false → spec.AreCut (spec.insertions text.now count (map fields_of records.now)) connection.old error) }
{
    for fields in records {
        insert_row(alloc, connection, text, count, fields)?;
    }
    Ok(())
}

// Puts rows into a table, of which no row counts as changed then.
fn fill(
    alloc: Global,
    connection: &mut Connection<MemStore>,
    table: &str,
    count: usize,
    records: &[TextRow],
) -> Result<(), Error>
    ensures runs { OnOk result (spec.AreRun (spec.fillings table.now count (map fields_of records.now)) connection.old connection.new) }
    ensures fails { IfErr result (λ error. is_memory error ≡ false → spec.AreCut (spec.fillings table.now count (map fields_of records.now)) connection.old error) }
{
    let insertion = insert_text(alloc, table, count)?;
    insert_rows(alloc, connection, insertion.as_str(), count, records)?;
    let settling = settle_text(alloc, table)?;
    run(connection, settling.as_str(), &[])
}

// Makes a table of this name, and puts rows into it. Without row 0 there is none.
fn make(
    alloc: Global,
    connection: &mut Connection<MemStore>,
    name: &str,
    rows: &[TextRow],
) -> Result<(), Error>
    ensures runs { OnOk result (spec.AreRun (spec.steps name.now (map fields_of rows.now)) connection.old connection.new) }
    ensures fails { IfErr result (λ error. is_memory error ≡ false → spec.AreCut (spec.steps name.now (map fields_of rows.now)) connection.old error) }
{
    let [names, records @ ..] = rows else {
        return Ok(());
    };
    let columns = columns_text(alloc, names, records)?;
    let creation = create_text(alloc, name, columns.as_str())?;
    run(connection, creation.as_str(), &[])?;
    fill(alloc, connection, name, names.len(), records)
}

// Why the table of this number can't be made or filled.
fn fault_of(table: usize, error: Error) -> SqlFault
    ensures { spec.IsFaultOfStep table error result }
{
    if is_memory(error) {
        return SqlFault::Memory;
    }
    SqlFault::Columns { table, error }
}

// The rows of a table, or row 0 alone.
fn rows_of<'t>(table: &'t NamedRows<'_>, has_all: bool) -> &'t [TextRow]
    ensures { map fields_of result.now ≡ spec.rows_by has_all (map fields_of table.now.rows.items) }
{
    if has_all {
        return table.rows.as_slice();
    }
    table.rows.get(..1).unwrap_or(&[])
}

/// A database with these tables, which have all of their rows, or row 0 alone. No row counts as changed over it.
pub(crate) fn filled(
    alloc: Global,
    tables: &[NamedRows<'_>],
    has_all: bool,
) -> Result<Connection<MemStore>, SqlFault>
    ensures filled { IfOk result (spec.IsFilled (spec.steps_of (spec.with_rows has_all (map spec.table_of tables.now)))) }
    ensures fault { IfErr result (spec.LacksTable has_all (map spec.table_of tables.now)) }
    ensures uncounted { IfOk result (λ made. made.changes ≡ 0) }
{
    let mut connection = Connection::open_in_memory(alloc)?;
    for (number, table) in tables.iter().enumerate() {
        let rows = rows_of(table, has_all);
        if rows.is_empty() {
            return Err(SqlFault::NoRows(number));
        }
        if let Err(error) = make(alloc, &mut connection, table.name, rows) {
            return Err(fault_of(number, error));
        }
    }
    if connection.changes() > 0 {
        return Err(SqlFault::Memory);
    }
    Ok(connection)
}

// Whether an error says that a table is missing.
fn is_no_table(error: Error) -> bool
    ensures { result ≡ spec.is_no_table error }
{
    matches!(error, Error::SqlInputError(CompileError::NoSuchTable))
}

// Whether a query names a table that a database lacks.
fn lacks_table(connection: &mut Connection<MemStore>, query: &str) -> Result<bool, AllocError>
    ensures { IfOk result (λ lacks. lacks ≡ misses_table (understood (state over_memory connection.old).now.schema query.now)) }
{
    let error = match connection.prepare(query) {
        Ok(_) => return Ok(false),
        Err(error) => error,
    };
    if is_memory(error) {
        return Err(AllocError);
    }
    Ok(is_no_table(error))
}

// Whether a query names a table that isn't one of these, or these can't be made.
fn misses_one(alloc: Global, tables: &[NamedRows<'_>], query: &str) -> Result<bool, SqlFault>
    ensures misses { IfOk result (spec.Misses (map spec.table_of tables.now) query.now) }
    ensures fault { IfErr result (spec.LacksNames (map spec.table_of tables.now)) }
{
    let mut connection = match filled(alloc, tables, false) {
        Ok(connection) => connection,
        Err(SqlFault::Columns { .. }) => return Ok(true),
        Err(fault) => return Err(fault),
    };
    Ok(lacks_table(&mut connection, query)?)
}

/// Gives the tables their names in a query: where it names one that isn't among them, the first is called `input`.
pub(crate) fn name_for(
    alloc: Global,
    tables: &mut Vec<NamedRows<'_>>,
    query: &str,
) -> Result<(), SqlFault>
    ensures called { OnOk result (spec.IsCalled (map spec.table_of tables.old.items) query.now (map spec.table_of tables.new.items)) }
    ensures fault { IfErr result (spec.LacksNames (map spec.table_of tables.old.items)) }
{
    if misses_one(alloc, tables.as_slice(), query)? && !tables.is_empty() {
        tables[0].name = "input";
    }
    Ok(())
}
