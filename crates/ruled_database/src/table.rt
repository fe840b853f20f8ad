//! The rows of a table, as texts.

ghost use Rattle.std.specs.Prelude.{◌≡◌, ◌+◌, [], ℕ, List, None, length, map, IfErr, IfOk, OnOk};
ghost use Rattle.csv.specs.Records.{fields_of};
ghost use Rattle.sqlite_record.specs.Affinity.{as_real};
ghost use Rattle.sqlite_value.specs.Value.{owned};
ghost use Rattle.ruled_database.specs.Listings.{HasGiven, HasRead, LacksRow, PushesRows, stored_of};
ghost use Rattle.ruled_database.specs.Trees.{page_count};
ghost use Rattle.ruled_database.specs.Tables.{LacksTexts, AddsRows, GivesRow, HasWrongText, names_in, rowid, texts_in, tree_rows, value_at, value_in};

use crate::definition::{Column, Definition, Shown};
use crate::fault::TableFault;
use crate::file::File;
use crate::overflow::Overflow;
use crate::tree::{Cursor, StoredRow};
use crate::value::{push_value, row_of};
use ruled_row::{RowBuffer, TextRow};
use sqlite_format::cell::toggle_sign;
use sqlite_record::fields::decode_into;
use sqlite_value::row::Row;
use sqlite_value::value::ValueRef;
use std::alloc::{AllocError, Global};
use std::num::nearest_i64_to_f64;

/// The greatest integer up to which each one is a float.
const EXACT: u64 = 1 << 53;

// The rowid that a key stands for.
fn rowid_of(key: u64) -> i64
    ensures { result ≡ rowid key }
{
    toggle_sign(key).cast_signed()
}

// An integer as a float.
fn to_real(value: ValueRef<'_>) -> ValueRef<'_>
    ensures { owned result ≡ as_real (owned value.entry) }
{
    match value {
        ValueRef::Int(n) if n.unsigned_abs() <= EXACT => ValueRef::Real(nearest_i64_to_f64(n)),
        other => other,
    }
}

// The value at a place of a record, or of the defaults where the record is older.
fn value_at<'v>(definition: &'v Definition, values: &'v Row, place: usize) -> ValueRef<'v>
    ensures { owned result ≡ value_at definition.now values.now place }
{
    if place < values.len() {
        values.get(place)
    } else {
        definition.defaults.get(place)
    }
}

// The value of a column.
fn value_of<'v>(
    definition: &'v Definition,
    column: &Column,
    key: u64,
    values: &'v Row,
) -> ValueRef<'v>
    ensures { owned result ≡ value_in definition.now key values.now column.now }
{
    match column.shown {
        Shown::Rowids => ValueRef::Int(rowid_of(key)),
        Shown::Values => value_at(definition, values, column.place),
        Shown::Reals => to_real(value_at(definition, values, column.place)),
    }
}

// Puts the texts of all columns in place of those of another row.
#[tactic(auto, using(crate::proofs::Tabling::text_more))]
fn read_texts(
    alloc: Global,
    definition: &Definition,
    key: u64,
    values: &Row,
    texts: &mut RowBuffer,
) -> Result<(), AllocError>
    ensures { OnOk result (fields_of texts.new ≡ texts_in definition.now key values.now) }
{
    texts.clear();
    for column in definition.columns.as_slice() {
        let value = value_of(definition, column, key, values);
        push_value(alloc, texts, definition.null.as_slice(), value)?;
    }
    Ok(())
}

/// What reads rows: their overflow pages, and the record, the values and the texts of one row at a time. A row then
/// takes no more room than its texts.
#[derive(Drop)]
struct RowReader<'a> {
    overflow: Overflow<'a>,
    record: Vec<u8>,
    values: Row,
    texts: RowBuffer,
}

impl<'a> RowReader<'a> {
    // A reader that has read no row.
    fn of(alloc: Global, file: File<'a>) -> RowReader<'a>
        ensures file { result.overflow.file ≡ file.entry }
        ensures left { result.overflow.left ≡ page_count file.entry.bytes.now }
    {
        RowReader {
            overflow: Overflow::of(file),
            record: Vec::new(alloc),
            values: Row::new(alloc),
            texts: RowBuffer::new(alloc),
        }
    }

    // Appends a row, which has this number.
    fn push_row(
        &mut self,
        alloc: Global,
        definition: &Definition,
        row: &StoredRow<'_>,
        number: usize,
        rows: &mut Vec<TextRow>,
    ) -> Result<(), TableFault>
        ensures file { self.new.overflow.file ≡ self.old.overflow.file }
        ensures rows { GivesRow self.old.overflow.file.bytes.now definition.now (stored_of row.now) number self.old.overflow.left self.new.overflow.left
            (map fields_of rows.old.items) (map fields_of rows.new.items) result }
        ensures text { OnOk result (¬ HasWrongText self.old.overflow.file.bytes.now definition.now (stored_of row.now)) }
        ensures count { OnOk result (length rows.new.items ≡ length rows.old.items + 1) }
        ensures kept { IfErr result (λ fault. rows.new.items ≡ rows.old.items) }
    {
        self.record.clear();
        self.values.clear();
        self.overflow.read_record(row, &mut self.record)?;
        decode_into(&self.record, 0, &mut self.values)?;
        let encoding = self.overflow.file.encoding();
        encoding.to_utf8(alloc, &mut self.values)?;
        if self.values.len() < definition.least {
            return Err(TableFault::Default);
        }
        read_texts(alloc, definition, row.key, &self.values, &mut self.texts)?;
        let fields = row_of(&self.texts, number)?;
        rows.push(fields)?;
        Ok(())
    }
}

/// Appends the first so many rows of the tree that begins at this page, if not all. No page behind them is read.
pub(crate) fn push_rows(
    alloc: Global,
    file: File<'_>,
    root: u32,
    definition: &Definition,
    limit: Option<usize>,
    rows: &mut Vec<TextRow>,
) -> Result<(), TableFault>
    ensures { AddsRows limit file.entry.bytes.now root definition.now (map fields_of rows.old.items) (map fields_of rows.new.items) result }
{
    let mut stored = Cursor::of(alloc, file, definition.tree, root, limit)?;
    let mut reader = RowReader::of(alloc, file);
    let above = rows.len();
    while let Some(row) = stored.next()? {
        let number = rows.len() - above + 1;
        reader.push_row(alloc, definition, &row, number, rows)?;
    }
    Ok(())
}

/// The rows of a table, which are read one after another.
#[derive(Drop)]
pub struct TableReader<'a> {
    definition: Definition,
    stored: Cursor<'a>,
    reader: RowReader<'a>,
    /// How many rows it has given, of which the names of the columns are the first.
    given: usize,
}

impl<'a> TableReader<'a> {
    /// A reader of the tree that begins at this page. Only the names of the columns have been given.
    pub(crate) fn of(
        alloc: Global,
        file: File<'a>,
        root: u32,
        definition: Definition,
    ) -> Result<TableReader<'a>, TableFault>
        ensures given { IfOk result (HasGiven file.entry.bytes.now root definition []) }
        ensures fault { IfErr result (LacksRow (tree_rows None file.entry.bytes.now definition.tree root)) }
    {
        let stored = Cursor::of(alloc, file, definition.tree, root, None)?;
        Ok(TableReader {
            definition,
            stored,
            reader: RowReader::of(alloc, file),
            given: 1,
        })
    }

    /// Appends the next so many rows, and returns whether there may be more; or those that are left, or those in front of
    /// the first bad one. What is behind them isn't read.
    ///
    /// A row that isn't Unicode is counted from the names of the columns, which are row 0. Behind a fault nothing is read.
    pub fn push_rows(&mut self, count: usize, rows: &mut Vec<TextRow>) -> Result<bool, TableFault>
        ensures { (file name null_text : List ℕ) (given : List (List (List ℕ))) → HasRead file name null_text given self.old
            → PushesRows file name null_text count given (map fields_of rows.old.items) (map fields_of rows.new.items) self.new result }
    {
        let alloc = *rows.allocator();
        for _ in 0..count {
            let Some(row) = self.stored.next()? else {
                return Ok(false);
            };
            let given = self.given.checked_add(1).ok_or(TableFault::Memory)?;
            self.reader
                .push_row(alloc, &self.definition, &row, self.given, rows)?;
            self.given = given;
        }
        Ok(true)
    }
}

#[tactic(auto, using(crate::proofs::Tabling::text_more))]
/// The names of columns.
pub(crate) fn names_of(alloc: Global, columns: &[Column]) -> Result<TextRow, TableFault>
    ensures fields { IfOk result (λ fields. fields_of fields ≡ names_in columns.now) }
    ensures fault { IfErr result (LacksTexts 0 (names_in columns.now)) }
{
    let mut names = RowBuffer::new(alloc);
    for column in columns {
        names.push_field(column.name.as_slice())?;
    }
    row_of(&names, 0)
}
