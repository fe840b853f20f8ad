//! The source that the arguments name: which file, in which format, and what is read of it. Files that have no rows of text,
//! such as compressed ones, which their first bytes show; the logs beside the file of a database; and reads that wait.

ghost use Rattle.std.specs.Prelude.{◌≡◌, ◌&&◌, ◌||◌, ◌∷◌, ◌++◌, [], codes, drop, nat_eq, option_map, None, Some, if◌then◌else◌};
ghost use Rattle.std.specs.List.{starts_with};

use clap::ArgMatches;
use ruled_io::{
    Fields, Format, FurtherInput, Kind, Known, Log, MemberRules, Query, QueryTable, RowRules,
    Selection, Source,
};
use ruled_table::Options;
use std::alloc::{AllocError, Global};
use std::io::{ErrorKind, Read};
use std::time::Duration;
use std::{fs, io, mem, thread};

/// How many steps a query may take if no argument sets it.
const STEPS: u32 = 100_000_000;

// The sign that a word is: one byte of ASCII that is no quote and ends no line.
fn sign_of(word: &str) -> Option<u8> {
    match word.as_bytes() {
        [b'"' | b'\r' | b'\n'] => None,
        [byte] if byte.is_ascii() => Some(*byte),
        _ => None,
    }
}

// The delimiter that a word names: a sign, or a tab. Between words any will do.
fn delimiter_of(word: &str) -> Option<u8> {
    match word {
        "tab" | "\\t" | "blanks" => Some(b'\t'),
        _ => sign_of(word),
    }
}

/// The files that are named, the first one first.
pub(crate) fn files_in<'m>(found: &'m ArgMatches) -> &'m [&'m str] {
    found.get_strs("file").unwrap_or(&[])
}

/// The first file that is named, or `-` for standard input.
pub(crate) fn first_name<'m>(found: &'m ArgMatches) -> &'m str {
    match files_in(found) {
        [name, ..] => name,
        [] => "-",
    }
}

// What the format is that is asked for, where one is.
fn kind_asked(found: &ArgMatches) -> Result<Option<Kind>, &'static str> {
    match found.get_str("format") {
        Some(name) => Ok(Some(Kind::by_name(name).ok_or("no such format")?)),
        None => Ok(None),
    }
}

// What the extension of the file's name says of the input, if anything. A file of CSV may have any delimiter.
fn source_in_name(name: &str) -> Option<Source> {
    let (_, extension) = name.rsplit_once('.')?;
    match Kind::by_name(extension)? {
        Kind::Rows(_) if extension == "csv" => Some(Source::Values {
            rules: RowRules::PLAIN,
        }),
        Kind::Rows(format) => Some(Source::Rows(format)),
        Kind::Database => Some(database(Selection::Tables)),
    }
}

// Rows with this delimiter, unless another format is asked for.
fn rows_with(delimiter: &str, asked: Option<Kind>) -> Result<Source, &'static str> {
    let Some(delimiter) = delimiter_of(delimiter) else {
        return Err(
            "a delimiter is one ASCII character other than a quote, or the word tab or blanks",
        );
    };
    match asked {
        Some(Kind::Rows(Format::Json)) | Some(Kind::Rows(Format::JsonLines)) => {
            Err("JSON has no delimiter")
        }
        Some(Kind::Database) => Err("a database has no delimiter"),
        Some(Kind::Rows(Format::Separated(_))) | None => {
            Ok(Source::Rows(Format::separated(delimiter, RowRules::PLAIN)))
        }
    }
}

// A database, of which it isn't known what is in its logs.
fn database(selection: Selection) -> Source {
    Source::Database {
        selection,
        log: Log::Unknown,
    }
}

// What the input is, but for what is asked of a database: by what is asked for, by the file's name, or by its first
// bytes.
fn source_without_selection(
    alloc: Global,
    found: &ArgMatches,
    name: &str,
    asked: Option<Kind>,
) -> Result<Source, &'static str> {
    if let Some(delimiter) = found.get_str("delimiter") {
        return rows_with(delimiter, asked);
    }
    Ok(match asked {
        Some(Kind::Rows(format)) => Source::Rows(format),
        Some(Kind::Database) => database(Selection::Tables),
        None => source_in_name(name).unwrap_or(Source::Seen {
            log: Log::Unknown,
            rules: RowRules::PLAIN,
            members: MemberRules::new(alloc),
        }),
    })
}

/// Whether row 0 is as long as the longest row.
pub(crate) fn is_padded(found: &ArgMatches) -> bool {
    found.get_str("ragged") == Some("pad")
}

// Whether it is asked for a table of a database, or why it can't be.
fn is_of_table(found: &ArgMatches, asked: Option<Kind>) -> Result<bool, &'static str> {
    if found.get_str("table").is_none() {
        return Ok(false);
    }
    if found.get_str("query").is_some() {
        return Err("--table can't be used with --query");
    }
    if found.get_str("delimiter").is_some() || matches!(asked, Some(Kind::Rows(_))) {
        return Err("--table needs a database");
    }
    Ok(true)
}

// The byte that begins comments, if there are any.
fn comment_asked(found: &ArgMatches) -> Result<Option<u8>, &'static str> {
    let Some(word) = found.get_str("comment") else {
        return Ok(None);
    };
    match sign_of(word) {
        Some(sign) => Ok(Some(sign)),
        None => Err("a comment begins with one ASCII character other than a quote"),
    }
}

// How fields are written: as words, or in quotes or without, unless these are characters like any other.
fn fields_asked(found: &ArgMatches) -> Fields {
    if found.get_str("delimiter") == Some("blanks") {
        return Fields::Words;
    }
    match found.get_str("quote") {
        Some(_) => Fields::Plain,
        None => Fields::Quoted,
    }
}

// Which lines are rows, how long these may be, and how their fields are written.
fn rules_asked(found: &ArgMatches) -> Result<RowRules, &'static str> {
    Ok(RowRules {
        is_ragged: found.get_str("ragged").is_some(),
        fields: fields_asked(found),
        skipped: found.get_one::<u32>("skip").unwrap_or(0) as usize,
        comment: comment_asked(found)?,
    })
}

// Whether an option is used that separated values alone have, as they have lines.
fn asks_for_lines(found: &ArgMatches) -> bool {
    found.get_one::<u32>("skip").is_some()
        || found.get_str("comment").is_some()
        || found.get_str("quote").is_some()
        || found.get_str("names").is_some()
}

// An input of separated values.
fn separated(source: Source) -> Result<Source, &'static str> {
    match source {
        Source::Seen { rules, .. } => Ok(Source::Values { rules }),
        Source::Values { .. } | Source::Rows(Format::Separated(_)) => Ok(source),
        Source::Rows(_) | Source::Members { .. } | Source::Database { .. } => {
            Err("--skip, --comment, --quote and --names need separated values")
        }
    }
}

// An input of one JSON value.
fn one_value(source: Source) -> Result<Source, &'static str> {
    match source {
        Source::Seen { .. } | Source::Rows(Format::Json) => Ok(Source::Rows(Format::Json)),
        _ => Err("--at needs one JSON value"),
    }
}

// An input of JSON.
fn json(source: Source) -> Result<Source, &'static str> {
    match source {
        Source::Seen { .. } | Source::Rows(Format::Json | Format::JsonLines) => Ok(source),
        _ => Err("--flatten needs JSON"),
    }
}

// Why rows of several files, of which one is this source, can't be one table, or the tables of a query.
fn unjoined(found: &ArgMatches, source: &Source) -> Option<&'static str> {
    if files_in(found).len() < 2 {
        return None;
    }
    if found.get_one::<u32>("stream").is_some() {
        return Some("several files can't be streamed");
    }
    if matches!(source, Source::Database { .. }) {
        return Some("a database can't be one of several files");
    }
    None
}

/// What the input of this name is, but for the words of a query, a table or a path, or why it can't be.
pub(crate) fn source_asked(
    alloc: Global,
    found: &ArgMatches,
    name: &str,
) -> Result<Source, &'static str> {
    let asked = kind_asked(found)?;
    let mut source = source_without_selection(alloc, found, name, asked)?;
    if is_of_table(found, asked)? {
        source = database(Selection::Tables);
    }
    if asks_for_lines(found) {
        source = separated(source)?;
    }
    if found.get_str("at").is_some() {
        source = one_value(source)?;
    }
    if found.get_flag("flatten") {
        source = json(source)?;
    }
    source.set_rules(rules_asked(found)?);
    match unjoined(found, &source) {
        Some(told) => Err(told),
        None => Ok(source),
    }
}

/// Why the input can't be streamed, if it can't.
pub(crate) fn unstreamed(found: &ArgMatches, source: &Source) -> Option<&'static str> {
    found.get_one::<u32>("stream")?;
    if found.get_str("query").is_some() {
        return Some("--query needs all rows, so it can't be streamed");
    }
    if matches!(source, Source::Database { .. }) && found.get_str("table").is_none() {
        return Some("the list of tables can't be streamed; --table can");
    }
    if is_padded(found) {
        return Some("--ragged pad needs all rows, so it can't be streamed; --ragged cut can");
    }
    None
}

// A copy of a text, where there is one.
fn copy_of(alloc: Global, text: Option<&str>) -> Result<Option<String>, AllocError> {
    match text {
        Some(text) => Ok(Some(String::from_str(alloc, text)?)),
        None => Ok(None),
    }
}

// The name of the table that has the rows of a file: that of the file, without its folder and its ending.
fn table_named(path: &str) -> &str {
    if path == "-" {
        return "input";
    }
    let name = path.rsplit_once('/').map_or(path, |(_, name)| name);
    match name.rsplit_once('.') {
        Some((stem, _)) if !stem.is_empty() => stem,
        _ => name,
    }
}

// Whether a query of these files finds a table of this name, in any case. The first is `input`, too.
fn is_named(files: &[&str], name: &str) -> bool {
    for file in files {
        if table_named(file).eq_ignore_ascii_case(name) {
            return true;
        }
    }
    !files.is_empty() && name.eq_ignore_ascii_case("input")
}

/// The file of a query whose table has the name of an earlier one, if there is one.
pub(crate) fn second_of_name<'m>(found: &'m ArgMatches) -> Option<&'m str> {
    found.get_str("query")?;
    let files = files_in(found);
    for (at, file) in files.iter().enumerate() {
        if is_named(&files[..at], table_named(file)) {
            return Some(*file);
        }
    }
    None
}

/// The tables that a query reads of these files, beside that of the first one. A database has none.
pub(crate) fn tables_in(
    alloc: Global,
    files: Vec<FurtherInput>,
) -> Result<Vec<QueryTable>, AllocError> {
    let mut tables = Vec::new(alloc);
    for file in files {
        let FurtherInput {
            name,
            source,
            bytes,
        } = file;
        if let Some(known) = source.known_rows() {
            tables.push(QueryTable {
                name: String::from_str(alloc, table_named(name.as_str()))?,
                input: name,
                known,
                bytes,
            })?;
        }
    }
    Ok(tables)
}

// A query of what is known so of its rows, and of further tables, of JSON at the path of these rules, whose text for null is that for NULL. Names above rows are those of the columns that it reads.
fn query_of(
    alloc: Global,
    found: &ArgMatches,
    text: String,
    known: Option<Known>,
    tables: Vec<QueryTable>,
    members: MemberRules,
    view: &mut Options,
) -> Result<Query, AllocError> {
    let MemberRules {
        path,
        null,
        is_flat,
    } = members;
    Ok(Query {
        text,
        known,
        members: MemberRules {
            path,
            null: String::new(alloc),
            is_flat,
        },
        table: String::from_str(alloc, table_named(first_name(found)))?,
        tables,
        names: mem::replace(&mut view.names, Vec::new(alloc)),
        is_padded: mem::replace(&mut view.is_padded, false),
        steps: u64::from(found.get_one::<u32>("limit-steps").unwrap_or(STEPS)),
        null,
    })
}

/// The source, with rules for its members if it is JSON.
pub(crate) fn with_members(source: Source, members: MemberRules) -> Source {
    match source {
        Source::Rows(format @ (Format::Json | Format::JsonLines)) => {
            Source::Members { format, members }
        }
        Source::Seen { log, rules, .. } => Source::Seen {
            log,
            rules,
            members,
        },
        _ => source,
    }
}

/// The source, with what is asked of it, of which a query reads these tables, too. If it is JSON, its rows are as these rules say.
pub(crate) fn selected(
    alloc: Global,
    found: &ArgMatches,
    source: Source,
    tables: Vec<QueryTable>,
    members: MemberRules,
    view: &mut Options,
) -> Result<Source, AllocError> {
    if let Some(text) = copy_of(alloc, found.get_str("query"))? {
        let query = query_of(
            alloc,
            found,
            text,
            source.known_rows(),
            tables,
            members,
            view,
        )?;
        return Ok(database(Selection::Query(query)));
    }
    match copy_of(alloc, found.get_str("table"))? {
        Some(name) => {
            let null = members.null;
            Ok(database(Selection::Table { name, null }))
        }
        None => Ok(with_members(source, members)),
    }
}

// The program that unpacks what begins with these bytes, if it is compressed: by gzip, by bzip2, with a digit as the
// fourth byte, by xz or by zstd.
fn unpacker_of(bytes: &[u8]) -> Option<&'static str>
    ensures { option_map (λ it. it.now) result ≡ (
        if starts_with nat_eq bytes.now (31 ∷ 139 ∷ []) then Some (codes "zcat")
        else if starts_with nat_eq bytes.now (codes "BZh") && starts_with nat_eq (drop 4 bytes.now) (codes "1AY&SY") then Some (codes "bzcat")
        else if starts_with nat_eq bytes.now (253 ∷ (codes "7zXZ" ++ 0 ∷ [])) then Some (codes "xzcat")
        else if starts_with nat_eq bytes.now (40 ∷ 181 ∷ 47 ∷ 253 ∷ []) then Some (codes "zstdcat")
        else None) }
{
    if bytes.starts_with(b"\x1f\x8b") {
        Some("zcat")
    } else if bytes.starts_with(b"BZh") && bytes.len() > 4 && bytes[4..].starts_with(b"1AY&SY") {
        Some("bzcat")
    } else if bytes.starts_with(b"\xfd7zXZ\0") {
        Some("xzcat")
    } else if bytes.starts_with(b"\x28\xb5\x2f\xfd") {
        Some("zstdcat")
    } else {
        None
    }
}

// What a file is that begins with these bytes, if it is of a kind that has no rows of text.
fn kind_of(bytes: &[u8]) -> Option<&'static str>
    ensures { option_map (λ it. it.now) result ≡ (
        if starts_with nat_eq bytes.now (codes "PK" ++ 3 ∷ 4 ∷ []) then Some (codes "a ZIP archive or a spreadsheet")
        else if starts_with nat_eq bytes.now (208 ∷ 207 ∷ 17 ∷ 224 ∷ []) then Some (codes "an old spreadsheet or document")
        else if starts_with nat_eq bytes.now (codes "%PDF-") then Some (codes "a PDF document")
        else if starts_with nat_eq bytes.now (codes "PAR1" ++ 21 ∷ []) then Some (codes "a Parquet file")
        else if starts_with nat_eq bytes.now (137 ∷ codes "PNG") || starts_with nat_eq bytes.now (255 ∷ 216 ∷ 255 ∷ []) || starts_with nat_eq bytes.now (codes "GIF89a") then Some (codes "an image")
        else if starts_with nat_eq bytes.now (127 ∷ codes "ELF") then Some (codes "a program")
        else None) }
{
    if bytes.starts_with(b"PK\x03\x04") {
        Some("a ZIP archive or a spreadsheet")
    } else if bytes.starts_with(b"\xd0\xcf\x11\xe0") {
        Some("an old spreadsheet or document")
    } else if bytes.starts_with(b"%PDF-") {
        Some("a PDF document")
    } else if bytes.starts_with(b"PAR1\x15") {
        Some("a Parquet file")
    } else if bytes.starts_with(b"\x89PNG")
        || bytes.starts_with(b"\xff\xd8\xff")
        || bytes.starts_with(b"GIF89a")
    {
        Some("an image")
    } else if bytes.starts_with(b"\x7fELF") {
        Some("a program")
    } else {
        None
    }
}

/// What an input is that has no rows of text.
#[derive(Clone, Copy)]
pub(crate) enum Content {
    /// Compressed: this program unpacks it.
    Packed(&'static str),
    /// Of this kind.
    Other(&'static str),
}

/// What an input is that begins with these bytes, if it has no rows of text.
pub(crate) fn content_of(bytes: &[u8]) -> Option<Content> {
    if let Some(unpacker) = unpacker_of(bytes) {
        return Some(Content::Packed(unpacker));
    }
    let kind = kind_of(bytes)?;
    Some(Content::Other(kind))
}

// What the file of this name is, if it has no rows of text. Nothing but a file is read, such as a pipe.
fn content_in(rt: &HostRuntime, name: &str) -> io::Result<Option<Content>> {
    if !fs::metadata(rt, name)?.is_file() {
        return Ok(None);
    }
    let mut bytes = [0u8; 10];
    let count = fs::open(rt, name)?.read(&mut bytes)?;
    Ok(content_of(&bytes[..count]))
}

/// What the file of this name is, if it can be read and has no rows of text. The only error is out of memory.
pub(crate) fn content_named(rt: &HostRuntime, name: &str) -> io::Result<Option<Content>> {
    match content_in(rt, name) {
        Err(error) if error.kind() != ErrorKind::OutOfMemory => Ok(None),
        found => found,
    }
}

// The first byte of the file at this path with this ending behind it, where there is one.
fn first_byte(rt: &HostRuntime, path: &str, ending: &str) -> io::Result<Option<u8>> {
    let name = format!(in rt.alloc(); "{path}{ending}")?;
    let mut byte = [0u8; 1];
    let count = match fs::open(rt, name.as_str()) {
        Ok(mut file) => file.read(&mut byte)?,
        Err(error) if error.kind() == ErrorKind::NotFound => 0,
        Err(error) => return Err(error),
    };
    Ok(if count == 0 { None } else { Some(byte[0]) })
}

// Whether a log beside the file of this name may have rows. SQLite keeps one in WAL mode, and another one
// of what a transaction has overwritten, which begins with a zero, if with anything, where none is open.
fn has_rows(rt: &HostRuntime, name: &str) -> io::Result<bool> {
    let path = fs::canonicalize(rt, name)?;
    let path = path.as_path().as_str();
    let log = first_byte(rt, path, "-wal")?;
    let journal = first_byte(rt, path, "-journal")?;
    Ok(log.is_some() || matches!(journal, Some(1..=255)))
}

/// What is known of the logs beside the file of this name. Of one that can't be read it isn't known that
/// it has no rows. The only error is out of memory.
pub(crate) fn log_beside(rt: &HostRuntime, name: &str) -> io::Result<Log> {
    match fs::metadata(rt, name) {
        Ok(metadata) if metadata.is_file() => match has_rows(rt, name) {
            Ok(false) => Ok(Log::Empty),
            Err(error) if error.kind() == ErrorKind::OutOfMemory => Err(error),
            _ => Ok(Log::Filled),
        },
        _ => Ok(Log::Unknown),
    }
}

/// A reader that waits for its input. Where a program that shares a terminal or a pipe has set it so, a read
/// returns `WouldBlock` until there is input: such a read is tried again, a hundred times a second.
#[derive(Drop)]
pub(crate) struct Waiting<R> {
    rt: HostRuntime,
    input: R,
}

impl<R: Read> Waiting<R> {
    pub(crate) fn new(rt: HostRuntime, input: R) -> Waiting<R> {
        Waiting { rt, input }
    }
}

impl<R: Read> Read for Waiting<R> {
    fn read(&mut self, buf: &mut [u8]) -> io::Result<usize> {
        for _ in 0..u64::MAX {
            match self.input.read(buf) {
                Err(error) if error.kind() == ErrorKind::WouldBlock => {
                    thread::sleep(&self.rt, Duration::from_millis(10));
                }
                result => return result,
            }
        }
        Err(ErrorKind::WouldBlock.into())
    }
}
