//! Why a run shows no table, or not all of it, and names in error lines.

ghost use Rattle.std.specs.Prelude.{◌≡◌, Some};
ghost use Rattle.ruled_io.specs.Faults as spec;
ghost use Rattle.ruled_io.specs.Faults.{streamed_fault_text};
ghost use Rattle.ruled_io.specs.declared.fault.InputFault.TheVariants.{Memory};
ghost use Rattle.ruled_io.specs.declared.fault.RunFault.TheVariants.{Input};
ghost use Rattle.std.specs.Fmt.{DisplaysOnOk};

use crate::request::{Log, Query, Request, Selection};
use pg_fit::sign_of;
use ruled_csv::RowsFault;
use ruled_database::{DatabaseFault, TableFault};
use ruled_json::JsonFault;
use ruled_sql::{QueryFault, Refusal, SqlFault};
use ruled_table::ViewFault;
use std::alloc::{AllocError, AllocFailed};
use std::fmt;
use std::io::{self, Write};

/// Why rows can't be streamed.
#[derive(Clone, Copy)]
pub enum StreamedFault {
    /// One value of JSON holds all rows.
    Value,
    /// Of a database no table is asked for.
    Database,
}

/// Why a further input adds no rows.
#[derive(Clone, Copy)]
pub enum FurtherFault {
    /// The bytes of separated values hold no rows.
    Rows(RowsFault),
    /// The bytes of JSON hold no rows.
    Json(JsonFault),
    /// It is a database.
    Database,
    /// Its row 0 isn't that of the table.
    Header,
    /// Its rows have another number of fields than row 0 of the table, which names no columns.
    Length,
}

/// Why an input has no table: its bytes, the request, or out of memory.
#[derive(Clone, Copy)]
pub enum InputFault {
    /// The bytes of separated values hold no rows.
    Rows(RowsFault),
    /// The bytes of JSON hold no rows.
    Json(JsonFault),
    /// The database can't be opened, the rows make no table for the query, or it has no rows.
    Sql(SqlFault),
    /// The database has no such table to show, or no list of tables.
    Database(DatabaseFault),
    /// Rows of the database may be in a log that isn't read.
    Log,
    /// Rows can't be streamed.
    Stream(StreamedFault),
    /// The further input of this number, counted from 0, adds no rows.
    Further { input: usize, fault: FurtherFault },
    /// Row 0 has no field of this name, of those that [`ruled_table::Options::columns`] lists, counted from 0.
    Column(usize),
    /// Row 0 has no column for the word of [`ruled_table::Options::sort`].
    Sort,
    /// The sizes of the table are too large.
    Totals,
    /// Out of memory.
    Memory,
}

/// Why a read failed.
#[derive(Clone, Copy)]
pub enum ReadFault {
    /// Bytes spell no character in the encoding of the input.
    Encoding,
    /// The input is a folder.
    Folder,
    /// Anything else.
    Failed,
}

/// Why a run shows no table, or not all of it.
#[derive(Clone, Copy)]
pub enum RunFault {
    /// The input has no table.
    Input(InputFault),
    /// A read failed.
    Read(ReadFault),
    /// Nobody reads what is written.
    Closed,
    /// A write failed.
    Write,
}

impl From<AllocError> for InputFault {
    ghost from_gives = { λ _ fault. fault ≡ Memory };

    fn from(_error: AllocError) -> InputFault {
        InputFault::Memory
    }
}

impl<T: Drop> From<AllocFailed<T>> for InputFault {
    ghost from_gives = { λ _ fault. fault ≡ Memory };

    fn from(_error: AllocFailed<T>) -> InputFault {
        InputFault::Memory
    }
}

impl From<RowsFault> for InputFault {
    ghost from_gives = { λ found fault. fault ≡ spec.fault_of_rows found };

    fn from(fault: RowsFault) -> InputFault {
        match fault {
            RowsFault::Memory => InputFault::Memory,
            _ => InputFault::Rows(fault),
        }
    }
}

impl From<JsonFault> for InputFault {
    ghost from_gives = { λ found fault. fault ≡ spec.fault_of_json found };

    fn from(fault: JsonFault) -> InputFault {
        match fault {
            JsonFault::Memory => InputFault::Memory,
            _ => InputFault::Json(fault),
        }
    }
}

impl From<SqlFault> for InputFault {
    ghost from_gives = { λ found fault. fault ≡ spec.fault_of_sql found };

    fn from(fault: SqlFault) -> InputFault {
        match fault {
            SqlFault::Memory | SqlFault::Query(QueryFault::Memory) => InputFault::Memory,
            _ => InputFault::Sql(fault),
        }
    }
}

impl From<DatabaseFault> for InputFault {
    ghost from_gives = { λ found fault. fault ≡ spec.fault_of_database found };

    fn from(fault: DatabaseFault) -> InputFault {
        match fault {
            DatabaseFault::Schema(TableFault::Memory) | DatabaseFault::Table(TableFault::Memory) =>
                { InputFault::Memory }
            _ => InputFault::Database(fault),
        }
    }
}

impl From<ViewFault> for InputFault {
    ghost from_gives = { λ found fault. fault ≡ spec.fault_of_view found };

    fn from(fault: ViewFault) -> InputFault {
        match fault {
            ViewFault::Column(name) => InputFault::Column(name),
            ViewFault::Sort => InputFault::Sort,
            ViewFault::Totals => InputFault::Totals,
            ViewFault::Memory => InputFault::Memory,
        }
    }
}

impl From<InputFault> for RunFault {
    ghost from_gives = { λ found fault. fault ≡ Input found };

    fn from(fault: InputFault) -> RunFault {
        RunFault::Input(fault)
    }
}

impl From<AllocError> for RunFault {
    ghost from_gives = { λ _ fault. fault ≡ Input Memory };

    fn from(_error: AllocError) -> RunFault {
        RunFault::Input(InputFault::Memory)
    }
}

impl<T: Drop> From<AllocFailed<T>> for RunFault {
    ghost from_gives = { λ _ fault. fault ≡ Input Memory };

    fn from(_error: AllocFailed<T>) -> RunFault {
        RunFault::Input(InputFault::Memory)
    }
}

impl From<ViewFault> for RunFault {
    ghost from_gives = { λ found fault. fault ≡ spec.of_view found };

    fn from(fault: ViewFault) -> RunFault {
        RunFault::Input(InputFault::from(fault))
    }
}

/// Writes what is wrong.
impl fmt::Display for StreamedFault {
    ghost output = { λ fault. Some (streamed_fault_text fault) };

    fn fmt<W: fmt::Write>(&self, f: &mut fmt::Formatter<W>) -> fmt::Result {
        match self {
            StreamedFault::Value => write!(f, "a single JSON value can't be streamed"),
            StreamedFault::Database => {
                write!(f, "the list of tables can't be streamed; --table can")
            }
        }
    }
}

impl InputFault {
    // This fault, of the further input of this number.
    pub(crate) fn of_further(self, input: usize) -> InputFault
        ensures { result ≡ spec.of_further input self }
    {
        let fault = match self {
            InputFault::Rows(fault) => FurtherFault::Rows(fault),
            InputFault::Json(fault) => FurtherFault::Json(fault),
            _ => return self,
        };
        InputFault::Further { input, fault }
    }

    // Its exit status.
    fn status(self) -> u8
        ensures { result ≡ spec.status_of_input self }
    {
        match self {
            InputFault::Totals => 3,
            InputFault::Memory => 4,
            _ => 2,
        }
    }

    // Writes its error line. An error is the writer's.
    fn tell<W: Write>(self, request: &Request, err: &mut W) -> io::Result<()> {
        match self {
            InputFault::Rows(fault) => tell_rows(fault, err),
            InputFault::Json(fault) => tell_json(fault, request.source.path(), err),
            InputFault::Further { fault, .. } => fault.tell(request, err),
            InputFault::Sql(fault) => match request.source.selection() {
                Some(Selection::Query(query)) => tell_refusal(fault, query, err),
                _ => writeln!(err, "{fault}"),
            },
            InputFault::Database(fault) => match request.source.selection() {
                Some(Selection::Table { name, .. }) => writeln!(
                    err,
                    "{}: {fault}",
                    Quoted(name.as_str())
                ),
                _ => writeln!(err, "{fault}"),
            },
            InputFault::Log => writeln!(err, "{}", words_of(request.source.log())),
            InputFault::Stream(fault) => writeln!(err, "{fault}"),
            InputFault::Column(name) => { tell_column(request.view.columns.get(name), err) }
            InputFault::Sort => {
                let sort = request.view.sort.as_ref();
                tell_column(sort.map(|sort| &sort.column), err)
            }
            InputFault::Totals => writeln!(err, "the sizes are too large"),
            InputFault::Memory => writeln!(err, "out of memory"),
        }
    }
}

// Writes why bytes of separated values hold no rows. An error is the writer's.
fn tell_rows<W: Write>(fault: RowsFault, err: &mut W) -> io::Result<()> {
    match fault {
        RowsFault::Encoding { .. } => writeln!(err, "{fault}; try --encoding cp1252"),
        _ => writeln!(err, "{fault}"),
    }
}

// Writes why bytes of JSON hold no rows, which are those of the member at this path. An error is the writer's.
fn tell_json<W: Write>(fault: JsonFault, path: &[String], err: &mut W) -> io::Result<()> {
    match fault {
        JsonFault::Encoding(_) => writeln!(err, "{fault}; try --encoding cp1252"),
        JsonFault::NoMember => tell_member(path, err),
        _ => writeln!(err, "{fault}"),
    }
}

impl FurtherFault {
    // Writes its error line, but for the name of the input. An error is the writer's.
    fn tell<W: Write>(self, request: &Request, err: &mut W) -> io::Result<()> {
        match self {
            FurtherFault::Rows(fault) => tell_rows(fault, err),
            FurtherFault::Json(fault) => tell_json(fault, request.source.path(), err),
            FurtherFault::Database => writeln!(err, "a database can't be one of several files"),
            FurtherFault::Header => writeln!(err, "row 0 differs from that of the first file"),
            FurtherFault::Length => writeln!(err, "not as many fields as in the first file"),
        }
    }
}

// Writes that no column is meant by a word. An error is the writer's.
fn tell_column<W: Write>(word: Option<&String>, err: &mut W) -> io::Result<()> {
    let word = Quoted(word.map_or("", |word| word.as_str()));
    writeln!(err, "no column {word}")
}

// Writes that there is no member at a path, whose names are written with dots between them. An error is the writer's.
fn tell_member<W: Write>(path: &[String], err: &mut W) -> io::Result<()> {
    write!(err, "no member '")?;
    for (at, name) in path.iter().enumerate() {
        let dot = if at == 0 { "" } else { "." };
        write!(err, "{dot}{}", OneLine(name.as_str()))?;
    }
    writeln!(err, "'")
}

// The word of a query from which so many bytes are left, or its text up to a blank where no word begins.
fn word_at(query: &str, left: usize) -> &str {
    let rest = query.get(query.len().saturating_sub(left)..).unwrap_or("");
    let end = rest.as_bytes().iter().position(|byte| !byte.is_ascii_alphanumeric()
        && *byte != b'_'
        && *byte < 128);
    match end {
        Some(0) => rest.split_once(' ').map_or(rest, |(word, _)| word),
        Some(end) => rest.get(..end).unwrap_or(rest),
        None => rest,
    }
}

// Writes the error line of a query that has no rows. An error is the writer's.
fn tell_refusal<W: Write>(fault: SqlFault, query: &Query, err: &mut W) -> io::Result<()> {
    let text = query.text.as_str();
    let refusal = Refusal { fault, query: text };
    match refusal.left() {
        Some(0) => write!(err, "{refusal} at the end of the query")?,
        Some(left) => write!(err, "{refusal}: {}", Quoted(word_at(text, left)))?,
        None => write!(err, "{refusal}")?,
    }
    if let SqlFault::NoTable(_) = fault {
        return tell_tables(query, err);
    }
    writeln!(err)
}

// Writes which tables of rows a query has. An error is the writer's.
fn tell_tables<W: Write>(query: &Query, err: &mut W) -> io::Result<()> {
    let name = Quoted(query.table.as_str());
    if query.tables.is_empty() {
        return writeln!(err, "; the table of the rows is {name}, or input");
    }
    write!(err, "; the tables of the rows are")?;
    for table in &query.tables {
        write!(err, " {},", Quoted(table.name.as_str()))?;
    }
    writeln!(err, " and {name} or input")
}

// The words for a log that isn't read.
fn words_of(log: Log) -> &'static str {
    match log {
        Log::Unknown => "the database is in WAL mode, and its log can't be seen",
        _ => "a log beside the database may have rows that its file lacks",
    }
}

impl RunFault {
    /// Its exit status: 0 if nobody reads the output.
    pub fn status(self) -> u8
        ensures { result ≡ spec.status_of self }
    {
        match self {
            RunFault::Input(fault) => fault.status(),
            RunFault::Read(ReadFault::Encoding) => 2,
            RunFault::Closed => 0,
            RunFault::Read(ReadFault::Folder | ReadFault::Failed) | RunFault::Write => 5,
        }
    }

    // The name of the input that has it, if there are several. A fault of what they are asked for has none.
    fn input_name(self, request: &Request) -> Option<&String> {
        request.further_name(0)?;
        match self {
            RunFault::Input(InputFault::Further { input, .. }) => request.further_name(input),
            RunFault::Input(
                InputFault::Sql(SqlFault::NoRows(table) | SqlFault::Columns { table, .. }),
            ) => match table.checked_sub(1) {
                Some(number) => request.further_name(number),
                None => Some(&request.name),
            },
            RunFault::Read(_)
            | RunFault::Input(
                InputFault::Rows(_)
                | InputFault::Json(_)
                | InputFault::Database(_)
                | InputFault::Log,
            ) => Some(&request.name),
            _ => None,
        }
    }

    // Writes its error line. An error is the writer's.
    pub(crate) fn tell<W: Write>(self, request: &Request, err: &mut W) -> io::Result<()> {
        write!(err, "ruled: ")?;
        if let Some(name) = self.input_name(request) {
            write!(err, "{}: ", Quoted(name.as_str()))?;
        }
        match self {
            RunFault::Input(fault) => fault.tell(request, err)?,
            RunFault::Read(ReadFault::Encoding) => {
                writeln!(err, "not UTF-16: a lone surrogate or an odd byte")?
            }
            RunFault::Read(ReadFault::Folder) => writeln!(err, "the input is a folder")?,
            RunFault::Read(ReadFault::Failed) => writeln!(err, "read failed")?,
            RunFault::Closed | RunFault::Write => writeln!(err, "write failed")?,
        }
        err.flush()
    }
}

// The character for a character in a line: as a table shows it, and a picture for a line feed, too.
fn sign_in_line(c: char) -> char
    ensures { result ≡ spec.sign_in_line c }
{
    if c == '\n' { '␊' } else { sign_of(c) }
}

// Writes a text on one line.
fn write_line<W: fmt::Write>(text: &str, f: &mut fmt::Formatter<W>) -> fmt::Result
    ensures { DisplaysOnOk W.write_str_gives f.old result (Some (spec.line_text text.now)) f.new }
{
    for c in text.chars() {
        f.write_char(sign_in_line(c))?;
    }
    Ok(())
}

/// A text on one line that a terminal can't obey: each control character, line feeds included, is
/// shown as a character for it.
#[derive(Clone, Copy)]
pub struct OneLine<'a>(pub &'a str);

impl fmt::Display for OneLine<'_> {
    ghost output = { λ line. Some (spec.line_text line.0.now) };

    fn fmt<W: fmt::Write>(&self, f: &mut fmt::Formatter<W>) -> fmt::Result {
        write_line(self.0, f)
    }
}

/// A name that the user gave, as an error line shows it: in quotes, and like [`OneLine`].
#[derive(Clone, Copy)]
pub struct Quoted<'a>(pub &'a str);

impl fmt::Display for Quoted<'_> {
    ghost output = { λ name. Some (spec.quoted_text name.0.now) };

    fn fmt<W: fmt::Write>(&self, f: &mut fmt::Formatter<W>) -> fmt::Result {
        let line = OneLine(self.0);
        write!(f, "'{line}'")
    }
}
