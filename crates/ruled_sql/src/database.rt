//! A database over bytes in memory.

ghost use Rattle.std.specs.Prelude.{◌≡◌, IfErr, IfOk, IsTrue};
ghost use Rattle.sqlite.specs.Files.{IsOpened, file_state};
ghost use Rattle.sqlite.specs.Held.{IsNew, state};
ghost use Rattle.sqlite.specs.Start.{FindsIn};
ghost use Rattle.sqlite.specs.State.{HasCleanDisk};
ghost use Rattle.sqlite_disk.specs.Memory.{memory_bytes, memory_is_usable};
ghost use Rattle.ruled_sql.specs.Answers.{IsAnswer, IsFaultOf, IsFaultOfFile, IsFaultOfText, IsUnopened, LacksAnswer, image_of, kept_pages};
ghost use Rattle.ruled_sql.specs.declared.fault.SqlFault.{SqlFault};

use crate::fault::{QueryFault, SqlFault, is_memory};
use crate::lack::{missing_by, stray_in};
use sqlite::{Alter, Connection, Error, ErrorCode, FileStore, Files, Options, Row, Statement};
use sqlite_disk::{Disk, Memory};
use sqlite_schema::schema::Schema;
use std::alloc::Global;

// A copy of bytes, as a file in memory.
fn copy_of(alloc: Global, bytes: &[u8]) -> Result<Memory, SqlFault>
    ensures bytes { IfOk result (λ copy. memory_bytes copy ≡ bytes.now) }
    ensures usable { IfOk result (λ copy. IsTrue (memory_is_usable copy)) }
    ensures memory { IfErr result (λ fault. fault ≡ SqlFault.Memory) }
{
    let mut copy = Memory::new(alloc);
    match copy.write_at(0, bytes) {
        Ok(()) => Ok(copy),
        Err(_) => Err(SqlFault::Memory),
    }
}

// Why a file in memory can't be opened, if memory got its bytes right. Of one that can, nothing but memory fails.
fn fault_of_file(error: Error, is_right: bool) -> SqlFault
    ensures { IsFaultOfFile error is_right result }
{
    match error {
        Error::SqliteFailure(ErrorCode::NotADatabase) => SqlFault::Database,
        Error::SqliteFailure(ErrorCode::DatabaseCorrupt) if is_right => SqlFault::Damage,
        _ => SqlFault::Memory,
    }
}

// How many pages are kept in memory: those that the bytes have by the page size in their header, and 2,000 at most.
// The kit always takes 2,000, which is 131 MB for a file of 1 KiB that claims pages of 64 KiB.
fn kept_pages(bytes: &[u8]) -> usize
    ensures { result ≡ kept_pages bytes.now }
{
    let high = bytes.get(16).copied().unwrap_or(0);
    let low = bytes.get(17).copied().unwrap_or(0);
    let number = 256 * usize::from(high) + usize::from(low);
    let page_size = if number == 1 { 65_536 } else { number.max(512) };
    (bytes.len() / page_size).min(1_999) + 1
}

/// The database of these bytes.
pub(crate) fn open(alloc: Global, bytes: &[u8]) -> Result<Connection<FileStore<Memory>>, SqlFault>
    ensures opened { IfOk result (λ c. IsOpened c) }
    ensures found { IfOk result (λ c. FindsIn (image_of bytes.now) (file_state c)) }
    ensures fresh { IfOk result IsNew }
    ensures fault { IfErr result (IsUnopened bytes.now) }
{
    let db = copy_of(alloc, bytes)?;
    let files = Files {
        log: Memory::new(alloc),
        db,
    };
    let caught = files.tally().caught;
    let mut options = Options::new(1);
    options.cache_pages = kept_pages(bytes);
    match Connection::open_files(alloc, files, options) {
        Ok(connection) => Ok(connection),
        Err((error, left)) => {
            let is_right = left.into_files().tally().caught == caught;
            Err(fault_of_file(error, is_right))
        }
    }
}

// Why a query of so many steps fails. Memory never gets bytes wrong.
fn fault_of(error: Error, steps: u64) -> QueryFault
    ensures { IsFaultOf steps error result }
{
    if is_memory(error) {
        return QueryFault::Memory;
    }
    match error {
        Error::SqliteFailure(ErrorCode::OperationInterrupted) => QueryFault::Limit(steps),
        _ => QueryFault::Refused(error),
    }
}

// Why a text is no query of so many steps of a database with this schema.
fn fault_of_text(schema: &Schema, table: &str, query: &str, error: Error, steps: u64) -> QueryFault
    ensures { IsFaultOfText schema.now table.now query.now steps error result }
{
    if let Error::SqlInputError(fault) = error {
        let missing = missing_by(fault);
        if let Some(left) = stray_in(schema, table.as_bytes(), query.as_bytes(), missing) {
            return QueryFault::Missing(missing, left);
        }
    }
    fault_of(error, steps)
}

/// What a query answers.
#[derive(Drop)]
pub(crate) struct Answer {
    /// The query, which has the names of the columns.
    pub(crate) statement: Statement,
    pub(crate) rows: Vec<Row>,
}

/// What a query answers in so many steps at most, over a connection that counts no changed row. A name of its table, beside
/// those that it has, is never missing.
pub(crate) fn answer_of<S: Alter>(
    connection: &mut Connection<S>,
    table: &str,
    query: &str,
    steps: u64,
) -> Result<Answer, QueryFault>
    ensures answer { HasCleanDisk (state S.Store connection.new) → connection.old.changes ≡ 0
        → IfOk result (λ it. IsAnswer query.now steps (state S.Store connection.old).now it.statement.columns it.rows.items) }
    ensures fault { HasCleanDisk (state S.Store connection.new) → connection.old.changes ≡ 0
        → IfErr result (LacksAnswer table.now query.now steps (state S.Store connection.old).now) }
{
    connection.set_step_limit(Some(steps));
    let statement = match connection.prepare(query) {
        Ok(statement) => statement,
        Err(error) => return Err(fault_of_text(connection.schema(), table, query, error, steps)),
    };
    let rows = match statement.query_all(connection, &[]) {
        Ok(rows) => rows,
        Err(error) => return Err(fault_of(error, steps)),
    };
    if connection.changes() > 0 {
        return Err(QueryFault::Change);
    }
    Ok(Answer { statement, rows })
}
