//! The formats of rows.

ghost use Rattle.std.specs.Prelude.{◌≡◌, ◌≤◌, ◌<◌, ◌++◌, ℕ, Bool, List, length, nat_eq, position, true, IfOk, IfSome};
ghost use Rattle.ruled_csv.specs.Kept.{from_first_row};
ghost use Rattle.ruled_io.specs.Reading.{ShowsInput, ShowsText};
ghost use Rattle.ruled_io.specs.declared.formats.Format.TheVariants.{Separated};
ghost use Rattle.std.specs.List.{list_any, starts_with};
ghost use Rattle.ruled_io.specs.Formats as spec;
ghost use Rattle.ruled_io.specs.declared.formats.Known.TheVariants as known;

use ruled_csv::{Dialect, RowRules, from_first_row, without_mark};
use ruled_json::is_value;
use std::alloc::{AllocError, Global};

/// How bytes hold rows.
#[derive(Clone, Copy)]
pub enum Format {
    /// Fields with a byte between two of them, quoted as in CSV, and a row on each line.
    Separated(Dialect),
    /// One JSON value: an array of objects, or an object.
    Json,
    /// JSON, an object on each line.
    JsonLines,
}

/// What is known of a format before a byte is read.
#[derive(Clone, Copy)]
pub enum Known {
    /// All of it.
    Format(Format),
    /// That it is separated values, and which of their lines are rows. The first row shows the delimiter.
    Values { rules: RowRules },
    /// Nothing, except which lines of separated values are rows.
    Nothing { rules: RowRules },
}

impl Format {
    /// Separated values with this byte between two fields, whose rows are as these rules say.
    pub fn separated(delimiter: u8, rules: RowRules) -> Format
        ensures { result ≡ spec.separated delimiter rules }
    {
        Format::Separated(Dialect {
            delimiter,
            rows: rules,
        })
    }
}

/// The kind of an input, by the name of its format or by its file's extension.
#[derive(Clone, Copy)]
pub enum Kind {
    /// Rows in a format.
    Rows(Format),
    /// A database of SQLite.
    Database,
}

impl Format {
    // Whether it is separated values.
    pub(crate) fn is_separated(self) -> bool
        ensures { result ≡ spec.is_separated self }
    {
        matches!(self, Format::Separated(_))
    }
}

impl Kind {
    /// The names of formats, as they are listed.
    pub const NAMES: [&'static str; 5] = ["csv", "tsv", "json", "jsonl", "sqlite"];

    /// The kind of this name, or of this extension.
    pub fn by_name(name: &str) -> Option<Kind>
        ensures { result ≡ spec.kind_named name.now }
    {
        match name {
            "csv" => Some(Kind::Rows(Format::separated(b',', RowRules::PLAIN))),
            "tsv" | "tab" => Some(Kind::Rows(Format::separated(b'\t', RowRules::PLAIN))),
            "json" => Some(Kind::Rows(Format::Json)),
            "jsonl" | "ndjson" => Some(Kind::Rows(Format::JsonLines)),
            "sqlite" | "sqlite3" | "db" => Some(Kind::Database),
            _ => None,
        }
    }
}

// The first byte that isn't blank.
fn first_sign(bytes: &[u8]) -> Option<u8>
    ensures { result ≡ spec.first_sign bytes.now }
{
    bytes
        .iter()
        .copied()
        .find(|byte| !matches!(*byte, b' ' | b'\t' | b'\n' | b'\r'))
}

// Whether a line ends at a byte.
fn ends_line(byte: u8) -> bool
    ensures { result ≡ spec.ends_line byte }
{
    matches!(byte, b'\n' | b'\r')
}

// Where the first line ends.
fn line_end(bytes: &[u8]) -> Option<usize>
    ensures place { result ≡ position spec.ends_line bytes.now }
    ensures within { IfSome result (λ end. end < length bytes.now) }
{
    bytes.iter().position(|byte| ends_line(*byte))
}

// The bytes of the first line.
fn first_line(bytes: &[u8]) -> &[u8]
    ensures { result.now ≡ spec.first_line bytes.now }
{
    match line_end(bytes) {
        Some(end) => &bytes[..end],
        None => bytes,
    }
}

// How often a line has a byte outside quotes.
fn count_of(rules: RowRules, line: &[u8], byte: u8) -> usize
    ensures { result ≡ spec.count_of rules line.now byte }
{
    let (mut is_quoted, mut count) = (false, 0usize);
    for other in line {
        if rules.is_quote(*other) {
            is_quoted = !is_quoted;
        } else if !is_quoted && *other == byte {
            count += 1;
        }
    }
    count
}

// Which of two bytes a line has more often; if equally often, the first.
fn oftener(rules: RowRules, line: &[u8], first: u8, second: u8) -> u8
    ensures { result ≡ spec.oftener rules line.now first second }
{
    if count_of(rules, line, first) < count_of(rules, line, second) {
        second
    } else {
        first
    }
}

// A comma, a tab, a semicolon or a bar: the one that a line has most often.
fn most_frequent(rules: RowRules, line: &[u8]) -> u8
    ensures { result ≡ spec.most_frequent rules line.now }
{
    let found = oftener(rules, line, b',', b'\t');
    let found = oftener(rules, line, found, b';');
    oftener(rules, line, found, b'|')
}

// The delimiter that a line such as `sep=;` sets.
fn setting_in(line: &[u8]) -> Option<u8>
    ensures setting { result ≡ spec.setting_in line.now }
    ensures long { IfSome result (λ sign. length line.now ≡ 5) }
{
    if !line.starts_with(b"sep=") || line.len() != 5 {
        return None;
    }
    let sign = line[4];
    if sign < 128 && sign != b'"' {
        Some(sign)
    } else {
        None
    }
}

// The delimiter that a text sets, unless its first line is left out.
fn setting_of(rules: RowRules, text: &[u8]) -> Option<u8>
    ensures setting { result ≡ spec.setting_of rules text.now }
    ensures within { IfSome result (λ sign. 5 ≤ length text.now) }
{
    if rules.skipped == 0 {
        setting_in(first_line(text))
    } else {
        None
    }
}

// The delimiter that a text sets, or else the most frequent one of its first row.
fn delimiter_seen(rules: RowRules, text: &[u8]) -> u8
    ensures { result ≡ spec.delimiter_seen rules text.now }
{
    match setting_of(rules, text) {
        Some(delimiter) => delimiter,
        None => most_frequent(rules, first_line(from_first_row(rules, text))),
    }
}

// Separated values that a text shows.
fn values_seen(rules: RowRules, text: &[u8]) -> Format
    ensures { result ≡ spec.values_seen rules text.now }
{
    Format::separated(delimiter_seen(rules, text), rules)
}

/// Whether bytes begin as the file of a database of SQLite does.
pub(crate) fn is_database(bytes: &[u8]) -> bool
    ensures { result ≡ spec.is_database bytes.now }
{
    bytes.starts_with(b"SQLite format 3\0")
}

// The format that a text shows, where what begins with an opening brace has a value of JSON on each line.
fn format_seen(rules: RowRules, text: &[u8]) -> Format
    ensures { result ≡ spec.format_from rules (spec.first_sign text.now) text.now }
{
    match first_sign(text) {
        Some(b'[') => Format::Json,
        Some(b'{') => Format::JsonLines,
        _ => values_seen(rules, text),
    }
}

// The format of a text that is known, or that its first bytes show.
fn format_shown(known: Known, text: &[u8]) -> Format
    ensures { result ≡ spec.format_shown known text.now }
{
    match known {
        Known::Format(format) => format,
        Known::Values { rules } => values_seen(rules, text),
        Known::Nothing { rules } => format_seen(rules, text),
    }
}

// Whether a text in the format that it shows is one value.
fn is_one_value(alloc: Global, known: Known, shown: Format, text: &[u8]) -> Result<bool, AllocError>
    ensures { IfOk result (λ is. is ≡ spec.is_one_value known shown text.now) }
{
    match (known, shown) {
        (Known::Nothing { .. }, Format::JsonLines) => is_value(alloc, text),
        _ => Ok(false),
    }
}

/// The format of the bytes of an input: the given one, else the one that they show.
pub(crate) fn format_in(alloc: Global, known: Known, bytes: &[u8]) -> Result<Format, AllocError>
    ensures { IfOk result (λ format. format ≡ spec.format_in known bytes.now) }
{
    let text = without_mark(bytes);
    let shown = format_shown(known, text);
    if is_one_value(alloc, known, shown, text)? {
        return Ok(Format::Json);
    }
    Ok(shown)
}

/// The format of streamed rows: the given one, else the one that the first bytes show.
pub(crate) fn format_streamed(known: Known, bytes: &[u8]) -> Format
    ensures { result ≡ spec.format_streamed known bytes.now }
{
    format_shown(known, without_mark(bytes))
}

// The bytes of separated values without a byte order mark, and without a line that sets the delimiter, except for its end.
fn without_setting(dialect: Dialect, bytes: &[u8]) -> &[u8]
    ensures { result.now ≡ spec.content_of (Separated dialect) bytes.now }
{
    let text = without_mark(bytes);
    match setting_of(dialect.rows, text) {
        Some(_) => &text[5..],
        None => text,
    }
}

/// The bytes that hold the rows of a format.
pub(crate) fn content_of(format: Format, bytes: &[u8]) -> &[u8]
    ensures { result.now ≡ spec.content_of format bytes.now }
{
    match format {
        Format::Separated(dialect) => without_setting(dialect, bytes),
        Format::Json | Format::JsonLines => bytes,
    }
}

/// Whether bytes show if the input that they are the first of begins with a mark.
pub(crate) fn shows_mark(bytes: &[u8], mark: &[u8]) -> bool
    ensures shown { result ≡ true → (behind : List ℕ) → starts_with nat_eq (bytes.now ++ behind) mark.now ≡ starts_with nat_eq bytes.now mark.now }
    ensures long { length mark.now ≤ length bytes.now → result ≡ true }
{
    bytes.len() >= mark.len() || !mark.starts_with(bytes)
}

// Whether the line of a text on which its first row begins is complete.
fn has_row_line(rules: RowRules, text: &[u8]) -> bool
    ensures { result ≡ list_any spec.ends_line (from_first_row rules text.now) }
{
    let row = from_first_row(rules, text);
    row.iter().any(|byte| ends_line(*byte))
}

// Whether the first bytes of a text in this format show which bytes of it hold its rows.
fn shows_rows(format: Format, text: &[u8]) -> bool
    ensures { result ≡ true → (behind : List ℕ) → ShowsText (known.Format format) text.now behind }
{
    match format {
        Format::Separated(dialect) => has_row_line(dialect.rows, text),
        Format::Json => true,
        Format::JsonLines => true,
    }
}

// Whether the first bytes of a text show its format, of which nothing is known.
fn shows_sign(rules: RowRules, text: &[u8]) -> bool
    ensures { result ≡ true → (behind : List ℕ) → ShowsText (known.Nothing rules) text.now behind }
{
    match first_sign(text) {
        Some(b'[' | b'{') => true,
        Some(_) => has_row_line(rules, text),
        None => false,
    }
}

// Whether the first bytes of a text show the format of all of it.
fn shows_text(known: Known, text: &[u8]) -> bool
    ensures { result ≡ true → (behind : List ℕ) → ShowsText known text.now behind }
{
    match known {
        Known::Format(format) => shows_rows(format, text),
        Known::Values { rules } => has_row_line(rules, text),
        Known::Nothing { rules } => shows_sign(rules, text),
    }
}

/// Whether the first bytes of an input show its format, whether it is a database, and which bytes hold its rows, whatever
/// follows them.
pub(crate) fn shows_input(known: Known, bytes: &[u8]) -> bool
    ensures { result ≡ true → (behind : List ℕ) → ShowsInput known bytes.now behind }
{
    if !shows_mark(bytes, b"\xef\xbb\xbf") {
        return false;
    }
    if !shows_mark(bytes, b"SQLite format 3\0") {
        return false;
    }
    shows_text(known, without_mark(bytes))
}
