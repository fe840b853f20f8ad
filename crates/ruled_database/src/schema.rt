//! The tables of a database, as its schema lists them.

ghost use Rattle.std.specs.Prelude.{◌≡◌, ◌∷◌, [], Some, map, option_map, IfErr, IfOk};
ghost use Rattle.csv.specs.Records.{fields_of};
ghost use Rattle.ruled_database.specs.Tables.{LacksTexts};
ghost use Rattle.ruled_database.specs.Listings as spec;
ghost use Rattle.ruled_database.specs.Listings.{HasOpened, HasRead};
ghost use Rattle.ruled_database.specs.Listings.{AreEntryRows, AreListed, AreTable, IsListing, LacksEntries, LacksEntry, LacksListing, LacksSchema, LacksTable, entry_of};

use crate::definition::{Column, Definition, definition_of};
use crate::fault::{DatabaseFault, TableFault};
use crate::file::File;
use crate::table::{TableReader, names_of, push_rows};
use crate::value::row_of;
use ruled_row::{RowBuffer, TextRow};
use sqlite_items::Items;
use sqlite_sql::numeral::int_at_front;
use std::alloc::{AllocError, Global};

/// What an entry of the schema is.
#[derive(Clone, Copy)]
pub(crate) enum ItemKind {
    /// A table whose rows the file has.
    Table,
    /// A table whose rows a module makes.
    VirtualTable,
    View,
}

/// A table or a view that a schema lists.
#[derive(Clone, Copy)]
pub(crate) struct Listed<'r> {
    kind: ItemKind,
    name: &'r str,
    /// The page at which its tree begins, or 0.
    root: u32,
    statement: &'r str,
}

/// The statement that declares the columns of a schema.
const SCHEMA: &[u8] =
    b"create table sqlite_schema(type text, name text, tbl_name text, rootpage integer, sql text)";

// The text at a place of an entry.
fn text_at(row: &TextRow, place: usize) -> &str
    ensures { result.now ≡ spec.text_at (fields_of row.now) place }
{
    row.get(place).unwrap_or("")
}

#[tactic(auto, unfolding(crate::specs::Listings::root_of))]
// The page of this number, or 0.
fn root_of(text: &str) -> u32
    ensures { result ≡ spec.root_of text.now }
{
    let root = int_at_front(text.as_bytes()).unsigned_abs();
    if root < 1 << 32 { root as u32 } else { 0 }
}

// What an entry is, where it is a table or a view.
fn kind_of(word: &str, root: u32) -> Option<ItemKind>
    ensures { result ≡ spec.kind_of word.now root }
{
    match word {
        "table" if root == 0 => Some(ItemKind::VirtualTable),
        "table" => Some(ItemKind::Table),
        "view" => Some(ItemKind::View),
        _ => None,
    }
}

#[tactic(auto, unfolding(crate::specs::Listings::entry_in))]
// The table or the view that an entry of the schema lists.
fn listed_in(row: &TextRow) -> Option<Listed<'_>>
    ensures { option_map entry_of result ≡ spec.entry_in (fields_of row.now) }
{
    let root = root_of(text_at(row, 3));
    let kind = kind_of(text_at(row, 0), root)?;
    Some(Listed {
        kind,
        name: text_at(row, 1),
        root,
        statement: text_at(row, 4),
    })
}

#[tactic(auto, unfolding(crate::specs::Listings::named_in))]
// The entry, if it has this name, in any case.
fn named_in<'r>(row: &'r TextRow, name: &str) -> Option<Listed<'r>>
    ensures { option_map entry_of result ≡ spec.named_in name.now (fields_of row.now) }
{
    let listed = listed_in(row)?;
    if listed.name.eq_ignore_ascii_case(name) {
        Some(listed)
    } else {
        None
    }
}

// The first table or view of this name.
fn find<'r>(mut schema: &'r [TextRow], name: &str) -> Option<Listed<'r>>
    ensures { option_map entry_of result ≡ spec.find name.now (map fields_of schema.entry.now) }
{
    while let [row, rest @ ..] = schema {
        if let Some(listed) = named_in(row, name) {
            return Some(listed);
        }
        schema = rest;
    }
    None
}

#[tactic(auto, unfolding(crate::specs::Listings::schema_definition))]
// The entries of a schema: the type, the name, the table, the page and the statement of each.
fn schema_rows(alloc: Global, file: File<'_>) -> Result<Vec<TextRow>, DatabaseFault>
    ensures rows { IfOk result (λ rows. AreListed file.entry.bytes.now (map fields_of rows.items)) }
    ensures fault { IfErr result (LacksSchema file.entry.bytes.now) }
{
    let definition = definition_of(alloc, SCHEMA)?;
    let mut rows = Vec::new(alloc);
    match push_rows(alloc, file, 1, &definition, None, &mut rows) {
        Ok(()) => Ok(rows),
        Err(fault) => Err(DatabaseFault::Schema(fault)),
    }
}

// What the statement of a table declares, where its rows are read, with this text for NULL.
fn stored_definition(
    alloc: Global,
    null: &str,
    listed: Listed<'_>,
) -> Result<Definition, DatabaseFault>
    ensures value { IfOk result (λ it. spec.IsStored null.now (entry_of listed.entry) it) }
    ensures fault { IfErr result (spec.LacksDefinition (entry_of listed.entry)) }
{
    if !matches!(listed.kind, ItemKind::Table) {
        return Err(DatabaseFault::Elsewhere);
    }
    let mut definition = definition_of(alloc, listed.statement.as_bytes())?;
    if !definition.known {
        return Err(DatabaseFault::Keyed);
    }
    if definition.computed {
        return Err(DatabaseFault::Computed);
    }
    definition.null = Items::from_slice(alloc, null.as_bytes())?;
    Ok(definition)
}

// The first so many rows of the table that begins at this page, if not all, below the names of its columns.
#[tactic(auto, using(crate::proofs::Tabling::lacks_added, crate::proofs::Tabling::lacks_names))]
fn rows_of(
    alloc: Global,
    file: File<'_>,
    root: u32,
    definition: &Definition,
    limit: Option<usize>,
) -> Result<Vec<TextRow>, TableFault>
    ensures rows { IfOk result (λ rows. spec.AreNamedRows limit file.entry.bytes.now root definition.now (map fields_of rows.items)) }
    ensures fault { IfErr result (spec.LacksRows limit file.entry.bytes.now root definition.now) }
{
    let mut rows = Vec::new(alloc);
    let names = names_of(alloc, definition.columns.as_slice())?;
    rows.push(names)?;
    push_rows(alloc, file, root, definition, limit, &mut rows)?;
    Ok(rows)
}

// The file of a database, whose texts are in a known encoding.
fn file_of(bytes: &[u8]) -> Result<File<'_>, DatabaseFault>
    ensures bytes { IfOk result (λ file. file.bytes.now ≡ bytes.now) }
    ensures known { IfOk result (λ file. spec.IsRead bytes.now) }
    ensures fault { IfErr result (spec.LacksFile bytes.now) }
{
    let file = File::of(bytes).ok_or(DatabaseFault::Database)?;
    if file.has_encoding() {
        Ok(file)
    } else {
        Err(DatabaseFault::Encoding)
    }
}

// The first so many rows of an entry of the schema, if not all, with this text for NULL.
#[tactic(auto, using(crate::proofs::Tabling::lacks_by_definition, crate::proofs::Tabling::lacks_by_rows))]
fn entry_rows(
    alloc: Global,
    file: File<'_>,
    null: &str,
    listed: Listed<'_>,
    limit: Option<usize>,
) -> Result<Vec<TextRow>, DatabaseFault>
    ensures rows { IfOk result (λ rows. AreEntryRows limit file.entry.bytes.now null.now (entry_of listed.entry) (map fields_of rows.items)) }
    ensures fault { IfErr result (LacksEntry limit file.entry.bytes.now null.now (entry_of listed.entry)) }
{
    let definition = stored_definition(alloc, null, listed)?;
    let rows = rows_of(alloc, file, listed.root, &definition, limit)?;
    Ok(rows)
}

/// The first so many rows of a table of the database that the bytes of its file hold, if not all, below the names of its
/// columns. What is behind them isn't read, and need not be sound.
///
/// A value is shown as by [`crate::push_value`], NULL as `null`. Of the schema's statements, only that of this table is read, and
/// of that only the columns.
pub fn table_rows(
    alloc: Global,
    bytes: &[u8],
    name: &str,
    null: &str,
    limit: Option<usize>,
) -> Result<Vec<TextRow>, DatabaseFault>
    ensures rows { IfOk result (λ rows. AreTable limit bytes.now name.now null.now (map fields_of rows.items)) }
    ensures fault { IfErr result (LacksTable limit bytes.now name.now null.now) }
{
    let file = file_of(bytes)?;
    let schema = schema_rows(alloc, file)?;
    match find(&schema, name) {
        Some(listed) => entry_rows(alloc, file, null, listed, limit),
        None => Err(DatabaseFault::Absent),
    }
}

// The names of the columns of an entry of the schema, and a reader of its rows, with this text for NULL.
#[tactic(auto, using(crate::proofs::Tabling::lacks_by_definition, crate::proofs::Reading::opened, crate::proofs::Reading::lacks_by_names, crate::proofs::Reading::lacks_by_tree))]
fn open_entry<'a>(
    alloc: Global,
    file: File<'a>,
    null: &str,
    listed: Listed<'_>,
) -> Result<(TextRow, TableReader<'a>), DatabaseFault>
    ensures rows { IfOk result (λ opened. HasOpened file.entry.bytes.now null.now (entry_of listed.entry) (fields_of opened.0) opened.1) }
    ensures fault { IfErr result (LacksEntry (Some 1) file.entry.bytes.now null.now (entry_of listed.entry)) }
{
    let definition = stored_definition(alloc, null, listed)?;
    let names = names_of(alloc, definition.columns.as_slice())?;
    let reader = TableReader::of(alloc, file, listed.root, definition)?;
    Ok((names, reader))
}

/// The names of the columns of a table, and a reader of its rows, which are shown as by [`table_rows`]. A fault is why
/// not even the first row can be read.
pub fn open_table<'a>(
    alloc: Global,
    bytes: &'a [u8],
    name: &str,
    null: &str,
) -> Result<(TextRow, TableReader<'a>), DatabaseFault>
    ensures rows { IfOk result (λ opened. HasRead bytes.now name.now null.now (fields_of opened.0 ∷ []) opened.1) }
    ensures fault { IfErr result (LacksTable (Some 1) bytes.now name.now null.now) }
{
    let file = file_of(bytes)?;
    let schema = schema_rows(alloc, file)?;
    match find(&schema, name) {
        Some(listed) => open_entry(alloc, file, null, listed),
        None => Err(DatabaseFault::Absent),
    }
}

// The names of columns, in a line.
fn line_of(alloc: Global, mut columns: &[Column]) -> Result<Vec<u8>, AllocError>
    ensures { IfOk result (λ line. line.items ≡ spec.line_of columns.entry.now) }
{
    let mut line = Vec::new(alloc);
    while let [column, rest @ ..] = columns {
        line.extend_from_slice(column.name.as_slice())?;
        if !rest.is_empty() {
            line.extend_from_slice(b", ")?;
        }
        columns = rest;
    }
    Ok(line)
}

// The names of the columns of an entry, in a line.
fn columns_of(alloc: Global, listed: Listed<'_>) -> Result<Vec<u8>, AllocError>
    ensures { IfOk result (λ line. line.items ≡ spec.columns_of (entry_of listed.entry)) }
{
    match listed.kind {
        ItemKind::Table => {
            let declared = definition_of(alloc, listed.statement.as_bytes())?;
            line_of(alloc, declared.columns.as_slice())
        }
        ItemKind::VirtualTable | ItemKind::View => Ok(Vec::new(alloc)),
    }
}

fn kind_name(kind: ItemKind) -> &'static str
    ensures { result.now ≡ spec.kind_name kind }
{
    match kind {
        ItemKind::Table => "table",
        ItemKind::VirtualTable => "virtual table",
        ItemKind::View => "view",
    }
}

// What is shown of an entry, in this row.
fn fields_in(alloc: Global, row: usize, listed: Listed<'_>) -> Result<TextRow, TableFault>
    ensures fields { IfOk result (λ fields. fields_of fields ≡ spec.fields_of_entry (entry_of listed.entry)) }
    ensures fault { IfErr result (LacksTexts row (spec.fields_of_entry (entry_of listed.entry))) }
{
    let mut texts = RowBuffer::new(alloc);
    texts.push_field(listed.name.as_bytes())?;
    texts.push_field(kind_name(listed.kind).as_bytes())?;
    let columns = columns_of(alloc, listed)?;
    texts.push_field(&columns)?;
    row_of(&texts, row)
}

// Appends what is shown of these entries.
fn push_listing(
    alloc: Global,
    mut schema: &[TextRow],
    rows: &mut Vec<TextRow>,
) -> Result<(), TableFault>
    ensures rows { IfOk result (λ x. map fields_of rows.new.items ≡ spec.with_entries (map fields_of rows.old.items) (map fields_of schema.entry.now)) }
    ensures fault { IfErr result (LacksEntries (map fields_of schema.entry.now)) }
{
    while let [row, rest @ ..] = schema {
        if let Some(listed) = listed_in(row) {
            let fields = fields_in(alloc, rows.len(), listed)?;
            rows.push(fields)?;
        }
        schema = rest;
    }
    Ok(())
}

// The list of these entries.
fn listing_of(alloc: Global, schema: &[TextRow]) -> Result<Vec<TextRow>, TableFault>
    ensures rows { IfOk result (λ rows. map fields_of rows.items ≡ spec.listing (map fields_of schema.now)) }
    ensures fault { IfErr result (LacksEntries (map fields_of schema.now)) }
{
    let header = TextRow::from_fields(alloc, &["name", "kind", "columns"])?;
    let mut rows = Vec::new(alloc);
    rows.push(header)?;
    push_listing(alloc, schema, &mut rows)?;
    Ok(rows)
}

/// The tables and views of the database that the bytes of its file hold: the name, the kind and the columns of
/// each, below a row of these words.
pub fn list_rows(alloc: Global, bytes: &[u8]) -> Result<Vec<TextRow>, DatabaseFault>
    ensures rows { IfOk result (λ rows. IsListing bytes.now (map fields_of rows.items)) }
    ensures fault { IfErr result (LacksListing bytes.now) }
{
    let file = file_of(bytes)?;
    let schema = schema_rows(alloc, file)?;
    match listing_of(alloc, &schema) {
        Ok(rows) => Ok(rows),
        Err(fault) => Err(DatabaseFault::Schema(fault)),
    }
}
