//! The rows of an answer, as texts.

ghost use Rattle.std.specs.Prelude.{◌≡◌, [], map, Err, IfErr, IfOk, if◌then◌else◌};
ghost use Rattle.csv.specs.Records.{fields_of};
ghost use Rattle.ruled_database.specs.Tables.{shown_text};
ghost use Rattle.ruled_sql.specs.Answers.{AreAnswered, HoldsNone, IsFaultOfRow, LacksRows, LacksText, shown_rows};
ghost use Rattle.ruled_sql.specs.Filled.{AreQueried, LacksQueried, left_by, names_no_table};
ghost use Rattle.ruled_sql.specs.Filled as spec;
ghost use Rattle.ruled_sql.specs.declared.fault.SqlFault.TheVariants.{Database, NoTable, Query};

use crate::database::{answer_of, open};
use crate::fault::{QueryFault, SqlFault};
use crate::filled::{NamedRows, filled, name_for};
use crate::lack::Meaning;
use ruled_database::push_value;
use ruled_row::{RowBuffer, TextRow};
use sqlite::{Error, Row};
use sqlite_resolve::CompileError;
use sqlite_value::value::Bytes;
use std::alloc::Global;

// The texts as a row of this number.
fn row_of(texts: &RowBuffer, row: usize) -> Result<TextRow, QueryFault>
    ensures fields { IfOk result (λ fields. fields_of fields ≡ fields_of texts.now) }
    ensures fault { IfErr result (IsFaultOfRow row (fields_of texts.now)) }
{
    match texts.to_row()? {
        Some(fields) => Ok(fields),
        None => Err(QueryFault::Encoding(row)),
    }
}

// The names of the columns.
fn header_of(alloc: Global, names: &[Bytes]) -> Result<TextRow, QueryFault>
    ensures fields { IfOk result (λ fields. fields_of fields ≡ names.now) }
    ensures fault { IfErr result (IsFaultOfRow 0 names.now) }
{
    let mut texts = RowBuffer::new(alloc);
    for name in names {
        texts.push_field(name.as_slice())?;
    }
    row_of(&texts, 0)
}

// The values of a row, with this text for NULL.
fn fields_in(alloc: Global, null: &str, row: usize, values: &Row) -> Result<TextRow, QueryFault>
    ensures fields { IfOk result (λ fields. fields_of fields ≡ map (shown_text null.now) values.now) }
    ensures fault { IfErr result (IsFaultOfRow row (map (shown_text []) values.now)) }
{
    let mut texts = RowBuffer::new(alloc);
    for at in 0..values.column_count() {
        let value = values.get_ref(at).unwrap();
        push_value(alloc, &mut texts, null.as_bytes(), value)?;
    }
    row_of(&texts, row)
}

// The rows of an answer, with the names of the columns as row 0, and this text for NULL.
fn rows_in(
    alloc: Global,
    null: &str,
    names: &[Bytes],
    answer: &[Row],
) -> Result<Vec<TextRow>, QueryFault>
    ensures rows { IfOk result (λ rows. map fields_of rows.items ≡ shown_rows null.now names.now answer.now) }
    ensures fault { IfErr result (LacksText (shown_rows [] names.now answer.now)) }
{
    let mut rows = Vec::new(alloc);
    let header = header_of(alloc, names)?;
    rows.push(header)?;
    for values in answer {
        let fields = fields_in(alloc, null, rows.len(), values)?;
        rows.push(fields)?;
    }
    Ok(rows)
}

/// The rows that a query answers of the database that the bytes of its file hold, with the names of the
/// columns as row 0.
///
/// Each row that the query reads or returns is a step; one that takes more of them than given is refused.
/// A value is shown as by [`push_value`], NULL as `null`. The query is one statement without parameters that changes nothing.
/// Rows in a log beside the file aren't seen: [`ruled_database::keeps_log`] says whether there may be a log.
pub fn query_rows(
    alloc: Global,
    bytes: &[u8],
    query: &str,
    steps: u64,
    null: &str,
) -> Result<Vec<TextRow>, SqlFault>
    ensures rows { IfOk result (λ rows. AreAnswered bytes.now query.now steps null.now (map fields_of rows.items)) }
    ensures none { result ≡ Err Database → HoldsNone bytes.now }
    ensures fault { IfErr result (LacksRows bytes.now query.now steps) }
{
    let mut connection = open(alloc, bytes)?;
    let answer = answer_of(&mut connection, "", query, steps)?;
    let rows = rows_in(alloc, null, answer.statement.column_names(), &answer.rows)?;
    Ok(rows)
}

// Why a query of tables has no rows.
fn fault_of_table(fault: QueryFault) -> SqlFault
    ensures { result ≡ (if names_no_table fault then NoTable (left_by fault) else Query fault) }
{
    match fault {
        QueryFault::Missing(Meaning::Table, left) => SqlFault::NoTable(Some(left)),
        QueryFault::Refused(Error::SqlInputError(CompileError::NoSuchTable)) => {
            SqlFault::NoTable(None)
        }
        _ => SqlFault::Query(fault),
    }
}

// The name of the first table.
fn first_name<'a>(tables: &[NamedRows<'a>]) -> &'a str
    ensures { result.now ≡ spec.first_name (map spec.table_of tables.now) }
{
    match tables {
        [first, ..] => first.name,
        [] => "",
    }
}

/// The rows that a query answers of tables of rows, with the names of its columns as row 0, as those of the columns of a
/// table are.
///
/// Each table has its name; where the query names one that isn't among them, the first is called `input`. A column without
/// a name has its number behind `column`. Values are NULL for empty fields, numbers in a column that has nothing else, and
/// texts in others. The query is one as for [`query_rows`].
pub fn query_tables(
    alloc: Global,
    tables: Vec<NamedRows<'_>>,
    query: &str,
    steps: u64,
    null: &str,
) -> Result<Vec<TextRow>, SqlFault>
    ensures rows { IfOk result (λ answer. AreQueried (map spec.table_of tables.entry.items) query.now steps null.now (map fields_of answer.items)) }
    ensures fault { IfErr result (LacksQueried (map spec.table_of tables.entry.items) query.now steps) }
{
    let name = first_name(&tables);
    let mut called = tables;
    name_for(alloc, &mut called, query)?;
    let mut connection = filled(alloc, &called, true)?;
    let found = match answer_of(&mut connection, name, query, steps) {
        Ok(found) => found,
        Err(fault) => return Err(fault_of_table(fault)),
    };
    let rows = rows_in(alloc, null, found.statement.column_names(), &found.rows)?;
    Ok(rows)
}
