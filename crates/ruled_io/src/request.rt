//! Requests.

ghost use Rattle.std.specs.Prelude.{◌≡◌, map, option_map, string_bytes};
ghost use Rattle.csv.specs.Records.{fields_of};
ghost use Rattle.ruled_json.specs.Rows.{plain_rules, rules_of};
ghost use Rattle.ruled_io.specs.Requests as spec;

use crate::formats::{Format, Known, is_database};
use ruled_csv::RowRules;
use ruled_database::keeps_log;
use ruled_json::MemberRules;
use ruled_row::TextRow;
use ruled_table::{Options, field_at};

/// What is known of the logs beside the file of a database.
#[derive(Clone, Copy)]
pub enum Log {
    /// None has rows.
    Empty,
    /// One may have rows that the file lacks.
    Filled,
    /// They can't be seen, as those of standard input. If the database is in WAL mode, rows may be
    /// in one.
    Unknown,
}

impl Log {
    // Whether rows of the database with these bytes may be in a log.
    pub(crate) fn hides_rows(self, bytes: &[u8]) -> bool
        ensures { result ≡ spec.hides_rows self bytes.now }
    {
        match self {
            Log::Empty => false,
            Log::Filled => true,
            Log::Unknown => is_database(bytes) && keeps_log(bytes),
        }
    }
}

/// A table that a query reads beside that of the first input.
#[derive(Drop)]
pub struct QueryTable {
    /// The name of its input in error lines.
    pub input: String,
    /// Its own name.
    pub name: String,
    /// What is known of its rows. A database is a fault.
    pub known: Known,
    /// All bytes of its input.
    pub bytes: Vec<u8>,
}

/// A query in SQL.
#[derive(Drop)]
pub struct Query {
    /// The statement.
    pub text: String,
    /// What is known of the rows that it reads, unless these are a database's.
    pub known: Option<Known>,
    /// Where these rows are, and how they are read, if they are JSON. So are those of further tables.
    pub members: MemberRules,
    /// The name of the table of these rows, for which `input` does, too.
    pub table: String,
    /// Further tables that it reads, unless the first input is a database.
    pub tables: Vec<QueryTable>,
    /// Names above the rows of each table, if there are any.
    pub names: Vec<String>,
    /// Whether row 0 of each table has as many columns as its longest row.
    pub is_padded: bool,
    /// How many steps it may take: each row that it reads or returns is one.
    pub steps: u64,
    /// The text that is shown for NULL.
    pub null: String,
}

/// Whether these bytes are a database, where this is known of the format of rows.
pub(crate) fn sees_database(known: Known, bytes: &[u8]) -> bool
    ensures { result ≡ spec.sees_database known bytes.now }
{
    match known {
        Known::Format(_) | Known::Values { .. } => false,
        Known::Nothing { .. } => is_database(bytes),
    }
}

impl Query {
    // What is known of the rows that it reads if these are the bytes, unless they are a database.
    pub(crate) fn known_in(&self, bytes: &[u8]) -> Option<Known>
        ensures { result ≡ spec.known_in self.now.known bytes.now }
    {
        let known = self.known?;
        if sees_database(known, bytes) {
            return None;
        }
        Some(known)
    }
}

/// Which rows of an input are shown, if not all.
#[derive(Drop)]
pub enum Selection {
    /// Those that a query selects.
    Query(Query),
    /// All rows of the table of this name of a database, in any case, with this text for NULL.
    Table { name: String, null: String },
    /// A row for each table and each view of a database, with its columns.
    Tables,
}

/// What an input is.
#[derive(Drop)]
pub enum Source {
    /// Rows in this format.
    Rows(Format),
    /// Rows of JSON in this format, as these rules say.
    Members {
        format: Format,
        members: MemberRules,
    },
    /// Rows of separated values, as these rules say, with the delimiter that the first line sets or the line of
    /// the first row has most often.
    Values {
        rules: RowRules,
    },
    /// Rows in the format that the first bytes show: `[` begins JSON; `{` begins JSON if all is one
    /// value, else lines of JSON; anything else is separated values like `Values`. Of a database, which the
    /// first bytes show, too, the tables are listed.
    Seen {
        log: Log,
        rules: RowRules,
        members: MemberRules,
    },
    /// A database of SQLite, or rows of which a query selects, and which rows are shown.
    Database {
        selection: Selection,
        log: Log,
    },
}

impl Source {
    // What is known of the format of its rows.
    pub(crate) fn known(&self) -> Known
        ensures { result ≡ spec.format_told self.now }
    {
        match self {
            Source::Rows(format) => Known::Format(*format),
            Source::Members { format, .. } => Known::Format(*format),
            Source::Values { rules } => Known::Values { rules: *rules },
            Source::Seen { rules, .. } => Known::Nothing { rules: *rules },
            Source::Database { .. } => Known::Nothing {
                rules: RowRules::PLAIN,
            },
        }
    }

    /// What is known of the format of its rows, unless they are a database's.
    pub fn known_rows(&self) -> Option<Known>
        ensures { result ≡ spec.known_rows self.now }
    {
        match self {
            Source::Database { .. } => None,
            _ => Some(self.known()),
        }
    }

    // How its rows are read, if they are JSON; as the plain rules say, if it has none.
    pub(crate) fn members_or<'m>(&'m self, plain: &'m MemberRules) -> &'m MemberRules
        requires plain { rules_of plain.now ≡ plain_rules }
        ensures { rules_of result.now ≡ spec.members_of self.now }
    {
        match self {
            Source::Members { members, .. } | Source::Seen { members, .. } => members,
            Source::Database {
                selection: Selection::Query(query),
                ..
            } => &query.members,
            _ => plain,
        }
    }

    // The path of the member that has the rows, if they are JSON.
    pub(crate) fn path(&self) -> &[String]
        ensures { map string_bytes result.now ≡ (spec.members_of self.now).path }
    {
        match self {
            Source::Members { members, .. } | Source::Seen { members, .. } => &members.path,
            Source::Database {
                selection: Selection::Query(query),
                ..
            } => &query.members.path,
            _ => &[],
        }
    }

    // Whether it is a database, if these are its bytes, or the first of them.
    pub(crate) fn is_database(&self, bytes: &[u8]) -> bool
        ensures { result ≡ spec.holds_database self.now bytes.now }
    {
        match self {
            Source::Rows(_) | Source::Members { .. } | Source::Values { .. } => false,
            Source::Seen { .. } => is_database(bytes),
            Source::Database { .. } => true,
        }
    }

    // What is asked of a database, if anything is.
    pub(crate) fn selection(&self) -> Option<&Selection>
        ensures { option_map (λ it. it.now) result ≡ spec.selection_of self.now }
    {
        match self {
            Source::Database { selection, .. } => Some(selection),
            Source::Rows(_)
            | Source::Members { .. }
            | Source::Values { .. }
            | Source::Seen { .. } => { None }
        }
    }

    // Whether its rows may be those of one JSON value.
    fn may_be_value(&self) -> bool
        ensures { result ≡ spec.may_be_value self.now }
    {
        match self {
            Source::Rows(format) | Source::Members { format, .. } => {
                matches!(format, Format::Json)
            }
            Source::Seen { .. } => true,
            Source::Values { .. } | Source::Database { .. } => false,
        }
    }

    // The first place at which a record that is alone below row 0 has an array of objects, which a path may lead to.
    pub(crate) fn inner_place(&self, rows: &[TextRow]) -> Option<usize>
        ensures { result ≡ spec.inner_place self.now (map fields_of rows.now) }
    {
        if self.may_be_value() {
            return records_place(rows);
        }
        None
    }

    /// What is known of its logs.
    pub fn log(&self) -> Log
        ensures { result ≡ spec.log_of self.now }
    {
        match self {
            Source::Rows(_) | Source::Members { .. } | Source::Values { .. } => Log::Empty,
            Source::Seen { log, .. } => *log,
            Source::Database { log, .. } => *log,
        }
    }

    /// Takes what is known of the logs beside its file.
    pub fn set_log(&mut self, known: Log)
        ensures { self.new ≡ spec.with_log known self.old }
    {
        match self {
            Source::Rows(_) | Source::Members { .. } | Source::Values { .. } => {}
            Source::Seen { log, .. } => *log = known,
            Source::Database { log, .. } => *log = known,
        }
    }

    /// Sets which lines of separated values are rows, and how long these may be.
    pub fn set_rules(&mut self, wanted: RowRules)
        ensures { self.new ≡ spec.with_rules wanted self.old }
    {
        match self {
            Source::Rows(Format::Separated(dialect)) => dialect.rows = wanted,
            Source::Values { rules } => *rules = wanted,
            Source::Seen { rules, .. } => *rules = wanted,
            Source::Rows(_) | Source::Members { .. } | Source::Database { .. } => {}
        }
    }

    // Whether its rows may have more or fewer fields than row 0.
    pub(crate) fn is_ragged(&self) -> bool
        ensures { result ≡ spec.is_ragged self.now }
    {
        match self {
            Source::Rows(Format::Separated(dialect)) => dialect.rows.is_ragged,
            Source::Values { rules } | Source::Seen { rules, .. } => rules.is_ragged,
            Source::Rows(_) | Source::Members { .. } | Source::Database { .. } => false,
        }
    }
}

// Whether a text is an array of objects, as JSON without spaces.
fn has_records(text: &str) -> bool
    ensures { result ≡ spec.has_records text.now }
{
    text.as_bytes().starts_with(b"[{")
}

// The first place at which a record that is alone below row 0 has an array of objects.
fn records_place(rows: &[TextRow]) -> Option<usize>
    ensures { result ≡ spec.records_place (map fields_of rows.now) }
{
    let [_, fields] = rows else {
        return None;
    };
    for place in 0..fields.len() {
        if has_records(field_at(fields, place)) {
            return Some(place);
        }
    }
    None
}

/// When rows are shown.
#[derive(Clone, Copy)]
pub enum Rows {
    /// All at once, after the last one.
    AtOnce,
    /// Each when it comes, with the widths and the sides of the first so many, at least one, and of
    /// a header.
    FromFirst(usize),
}

/// An input whose rows are below those of another one.
#[derive(Drop)]
pub struct FurtherInput {
    /// Its name in error lines.
    pub name: String,
    /// What it is. A database is a fault.
    pub source: Source,
    /// All of its bytes.
    pub bytes: Vec<u8>,
}

/// What a run is to show.
#[derive(Drop)]
pub struct Request {
    /// The name of the input, which is in error lines if there are further inputs.
    pub name: String,
    /// What the input is.
    pub source: Source,
    /// Further inputs, whose rows are below its own. Only [`Rows::AtOnce`] shows them.
    pub further: Vec<FurtherInput>,
    /// When its rows are shown.
    pub rows: Rows,
    /// How they are shown.
    pub view: Options,
}

impl Request {
    // The name of the further input of this number, which is that of a query's further table, if there is one.
    pub(crate) fn further_name(&self, number: usize) -> Option<&String> {
        if let Some(Selection::Query(query)) = self.source.selection() {
            return Some(&query.tables.get(number)?.input);
        }
        Some(&self.further.get(number)?.name)
    }
}
