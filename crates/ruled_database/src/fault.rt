//! Why a database has no rows to show.

ghost use Rattle.std.specs.Prelude.{◌≡◌, Some};
ghost use Rattle.ruled_database.specs.Listings.{database_fault_text, table_fault_text};
ghost use Rattle.ruled_database.specs.declared.fault.DatabaseFault.TheVariants.{Table};
ghost use Rattle.ruled_database.specs.declared.fault.TableFault.{TableFault};

use std::alloc::{AllocError, AllocFailed};
use std::fmt;
use std::fmt::Display;

/// Why the rows of a table can't be read.
#[derive(Clone, Copy)]
pub enum TableFault {
    /// A page of the table is missing, or isn't one of a table.
    Damage,
    /// A row is older than a column whose default isn't understood.
    Default,
    /// A text of this row isn't in the database's encoding. The names of the columns are row 0.
    Encoding(usize),
    /// Out of memory.
    Memory,
}

/// Why a database has no rows to show.
#[derive(Clone, Copy)]
pub enum DatabaseFault {
    /// The bytes hold no database.
    Database,
    /// Its texts are in an encoding that the format lacks.
    Encoding,
    /// The list of the tables can't be read.
    Schema(TableFault),
    /// There is no table of this name.
    Absent,
    /// The rows aren't stored: it is a view, or a virtual table.
    Elsewhere,
    /// The rows are in the order of a primary key that isn't understood.
    Keyed,
    /// A column has values that aren't stored, but computed.
    Computed,
    /// The table can't be read.
    Table(TableFault),
}

impl From<AllocError> for TableFault {
    ghost from_gives = { λ _ fault. fault ≡ TableFault.Memory };

    fn from(_error: AllocError) -> TableFault {
        TableFault::Memory
    }
}

impl<T: Drop> From<AllocFailed<T>> for TableFault {
    ghost from_gives = { λ _ fault. fault ≡ TableFault.Memory };

    fn from(_error: AllocFailed<T>) -> TableFault {
        TableFault::Memory
    }
}

impl From<TableFault> for DatabaseFault {
    ghost from_gives = { λ found fault. fault ≡ Table found };

    fn from(fault: TableFault) -> DatabaseFault {
        DatabaseFault::Table(fault)
    }
}

impl From<AllocError> for DatabaseFault {
    ghost from_gives = { λ _ fault. fault ≡ Table TableFault.Memory };

    fn from(_error: AllocError) -> DatabaseFault {
        DatabaseFault::Table(TableFault::Memory)
    }
}

/// Writes what is wrong with a table.
impl Display for TableFault {
    ghost output = { λ fault. Some (table_fault_text fault) };

    fn fmt<W: fmt::Write>(&self, f: &mut fmt::Formatter<W>) -> fmt::Result {
        let words = match self {
            TableFault::Damage => "a page is damaged",
            TableFault::Default => "a default isn't supported",
            TableFault::Encoding(row) => return write!(f, "row {row}: not Unicode"),
            TableFault::Memory => "out of memory",
        };
        f.write_str(words)
    }
}

/// Writes what is wrong.
impl Display for DatabaseFault {
    ghost output = { λ fault. Some (database_fault_text fault) };

    fn fmt<W: fmt::Write>(&self, f: &mut fmt::Formatter<W>) -> fmt::Result {
        let words = match self {
            DatabaseFault::Database => {
                "not an SQLite database, or it is encrypted or of an unsupported kind"
            }
            DatabaseFault::Encoding => "its encoding isn't supported",
            DatabaseFault::Schema(fault) => return write!(f, "the list of the tables: {fault}"),
            DatabaseFault::Absent => "no such table",
            DatabaseFault::Elsewhere => "a view or a virtual table, which stores no rows",
            DatabaseFault::Keyed => "its primary key isn't supported",
            DatabaseFault::Computed => "a column that is computed isn't supported",
            DatabaseFault::Table(fault) => return fault.fmt(f),
        };
        f.write_str(words)
    }
}
