//! Why a query has no rows, in words.

ghost use Rattle.std.specs.Prelude.{◌≡◌, option_map};
ghost use Rattle.ruled_sql.specs.Answers.{is_memory};
ghost use Rattle.ruled_sql.specs.Lacks.{query_fault_text, sql_fault_text};
ghost use Rattle.ruled_sql.specs.declared.fault.QueryFault.{QueryFault};
ghost use Rattle.ruled_sql.specs.declared.fault.SqlFault.{SqlFault};
ghost use Rattle.ruled_sql.specs.declared.fault.SqlFault.TheVariants.{Query};
ghost use Rattle.std.specs.Fmt.{DisplaysOnOk};
ghost use Rattle.ruled_sql.specs.Lacks as spec;

use crate::lack::{Lack, Meaning, lack_in};
use sqlite::{Error, ErrorCode};
use sqlite_resolve::CompileError;
use sqlite_syntax::error::ParseError;
use std::alloc::{AllocError, AllocFailed};
use std::fmt::{self, Display};

/// Why a query has no rows.
#[derive(Clone, Copy)]
pub enum QueryFault {
    /// It isn't understood, or fails, with this error.
    Refused(Error),
    /// It names what the database lacks, by the word from which so many bytes of it are left.
    Missing(Meaning, usize),
    /// It takes more steps than this.
    Limit(u64),
    /// It changes the database.
    Change,
    /// This row, of which the names are row 0, has a text that isn't UTF-8.
    Encoding(usize),
    /// Out of memory.
    Memory,
}

/// Why there are no rows.
#[derive(Clone, Copy)]
pub enum SqlFault {
    /// The bytes hold no database, or one of a kind that isn't understood.
    Database,
    /// The database is damaged, or of an unsupported kind.
    Damage,
    /// The table of this number, counted from 0, has no row 0 that names its columns.
    NoRows(usize),
    /// The rows of the table of this number make none, as this error says: for its name, for the names of row 0, or for a row that is too long.
    Columns { table: usize, error: Error },
    /// The query names another table than those of the rows: by the word from which so many bytes of it are left, if that is
    /// found.
    NoTable(Option<usize>),
    /// The query has none.
    Query(QueryFault),
    /// Out of memory, before the query was read.
    Memory,
}

/// Whether memory was refused, or got bytes wrong.
pub(crate) fn is_memory(error: Error) -> bool
    ensures { result ≡ is_memory error }
{
    matches!(
        error,
        Error::SqliteFailure(
            ErrorCode::OutOfMemory
                | ErrorCode::SystemIoFailure
                | ErrorCode::DatabaseCorrupt
                | ErrorCode::DiskFull
                | ErrorCode::Closed
        )
    )
}

impl From<AllocError> for QueryFault {
    ghost from_gives = { λ _ fault. fault ≡ QueryFault.Memory };

    fn from(_error: AllocError) -> QueryFault {
        QueryFault::Memory
    }
}

impl<T: Drop> From<AllocFailed<T>> for QueryFault {
    ghost from_gives = { λ _ fault. fault ≡ QueryFault.Memory };

    fn from(_error: AllocFailed<T>) -> QueryFault {
        QueryFault::Memory
    }
}

impl From<AllocError> for SqlFault {
    ghost from_gives = { λ _ fault. fault ≡ SqlFault.Memory };

    fn from(_error: AllocError) -> SqlFault {
        SqlFault::Memory
    }
}

impl<T: Drop> From<AllocFailed<T>> for SqlFault {
    ghost from_gives = { λ _ fault. fault ≡ SqlFault.Memory };

    fn from(_error: AllocFailed<T>) -> SqlFault {
        SqlFault::Memory
    }
}

impl From<QueryFault> for SqlFault {
    ghost from_gives = { λ found fault. fault ≡ Query found };

    fn from(fault: QueryFault) -> SqlFault {
        SqlFault::Query(fault)
    }
}

/// Writes what is wrong.
impl Display for QueryFault {
    ghost output = { query_fault_text };

    fn fmt<W: fmt::Write>(&self, f: &mut fmt::Formatter<W>) -> fmt::Result {
        match self {
            QueryFault::Limit(steps) => {
                write!(
                    f,
                    "the query takes more than {steps} steps; see --limit-steps"
                )
            }
            QueryFault::Refused(Error::SqlInputError(error)) => {
                write!(
                    f,
                    "the query isn't valid, or names something that doesn't exist: {error}"
                )
            }
            QueryFault::Refused(error) => write!(f, "the query fails: {error}"),
            QueryFault::Missing(Meaning::Table, _) => f.write_str("no such table"),
            QueryFault::Missing(Meaning::Function, _) => f.write_str("no such function"),
            QueryFault::Missing(_, _) => f.write_str("no such column"),
            QueryFault::Encoding(row) => write!(f, "row {row}: not UTF-8"),
            QueryFault::Change => f.write_str("the query changes the database"),
            QueryFault::Memory => f.write_str("out of memory"),
        }
    }
}

/// Writes what is wrong.
impl Display for SqlFault {
    ghost output = { sql_fault_text };

    fn fmt<W: fmt::Write>(&self, f: &mut fmt::Formatter<W>) -> fmt::Result {
        let words = match self {
            SqlFault::Database => {
                "not an SQLite database, or it is encrypted or of an unsupported kind"
            }
            SqlFault::Damage => "a query can't read this database, but --table may",
            SqlFault::NoRows(_) => "there is no row 0, so there is no table",
            SqlFault::Columns {
                error: Error::SqlInputError(CompileError::Exists),
                ..
            } => "two columns have one name, whose case doesn't count",
            SqlFault::Columns { error, .. } => {
                return write!(f, "the columns make no table: {error}");
            }
            SqlFault::NoTable(_) => "no such table",
            SqlFault::Query(fault) => return fault.fmt(f),
            SqlFault::Memory => "out of memory",
        };
        f.write_str(words)
    }
}

/// Why a query has no rows, in words that name what `sqlite` lacks of it.
#[derive(Clone, Copy)]
pub struct Refusal<'a> {
    /// Why it has none.
    pub fault: SqlFault,
    /// The query.
    pub query: &'a str,
}

// How many bytes of a statement are left from the word on that no rule reads, or that names what there isn't, if that is
// why it has no rows.
fn left_in(fault: SqlFault) -> Option<usize>
    ensures { result ≡ spec.left_in fault }
{
    match fault {
        SqlFault::Query(
            QueryFault::Refused(
                Error::SqlInputError(
                    CompileError::Parse(ParseError::Syntax(left) | ParseError::Unsupported(left)),
                ),
            ),
        )
        | SqlFault::Query(QueryFault::Missing(_, left)) => Some(left),
        SqlFault::NoTable(left) => left,
        _ => None,
    }
}

// Whether there may be no rows for something that `sqlite` lacks.
fn may_lack(fault: SqlFault) -> bool
    ensures { result ≡ spec.may_lack fault }
{
    match fault {
        SqlFault::Query(QueryFault::Refused(Error::SqlInputError(error))) => matches!(
            error,
            CompileError::Parse(ParseError::Syntax(_) | ParseError::Unsupported(_))
                | CompileError::NoSuchFunction
                | CompileError::Unsupported
        ),
        SqlFault::Query(
            QueryFault::Refused(Error::SqliteFailure(ErrorCode::NoClock))
            | QueryFault::Missing(Meaning::Function, _),
        ) => true,
        _ => false,
    }
}

impl Refusal<'_> {
    // What `sqlite` lacks of the query, if that may be why it has no rows.
    fn lack(&self) -> Option<Lack>
        ensures { option_map (λ it. (it.0.now, it.1.now)) result ≡ spec.lack_of self.now.fault self.now.query.now }
    {
        if may_lack(self.fault) {
            return lack_in(self.query.as_bytes());
        }
        None
    }

    /// How many bytes of the query are left from the word on that no rule reads, or that names what there isn't, if that
    /// is why it has no rows, and no word that `sqlite` lacks.
    pub fn left(&self) -> Option<usize>
        ensures { result ≡ spec.left_of self.now.fault self.now.query.now }
    {
        if self.lack().is_some() {
            return None;
        }
        left_in(self.fault)
    }
}

// Writes why a query has no rows, where `sqlite` lacks no word of it.
fn write_fault<W: fmt::Write>(fault: SqlFault, f: &mut fmt::Formatter<W>) -> fmt::Result
    ensures { DisplaysOnOk W.write_str_gives f.old result (spec.misread_text fault) f.new }
{
    match fault {
        SqlFault::Query(
            QueryFault::Refused(Error::SqlInputError(CompileError::Parse(ParseError::Syntax(_)))),
        ) => f.write_str("syntax error"),
        SqlFault::Query(
            QueryFault::Refused(
                Error::SqlInputError(CompileError::Parse(ParseError::Unsupported(_))),
            ),
        ) => f.write_str("not supported"),
        SqlFault::Query(QueryFault::Refused(Error::SqlInputError(CompileError::Unsupported))) => {
            f.write_str("something in the query isn't supported")
        }
        _ => fault.fmt(f),
    }
}

/// Writes what is wrong.
impl fmt::Display for Refusal<'_> {
    ghost output = { λ it. spec.refusal_text it.fault it.query.now };

    fn fmt<W: fmt::Write>(&self, f: &mut fmt::Formatter<W>) -> fmt::Result {
        match self.lack() {
            Some((word, what)) => write!(f, "not supported: {word} ({what})"),
            None => write_fault(self.fault, f),
        }
    }
}
