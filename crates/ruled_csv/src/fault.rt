//! Why rows can't be read.

ghost use Rattle.std.specs.Prelude.{◌≡◌, Some};
ghost use Rattle.ruled_csv.specs.Faults as spec;
ghost use Rattle.ruled_csv.specs.declared.fault.RowsFault.TheVariants.{Memory};

use std::alloc::{AllocError, AllocFailed};
use std::fmt;

/// Why rows can't be read. Lines count from 1, rows from 0.
#[derive(Clone, Copy)]
pub enum RowsFault {
    /// The quote opened on this line is never closed.
    OpenQuote {
        line: usize,
    },
    /// On this line text follows a closing quote.
    BehindQuote {
        line: usize,
    },
    /// This row, which begins on this line, has so many fields, and row 0 has so many columns.
    Length {
        row: usize,
        line: usize,
        fields: usize,
        columns: usize,
    },
    /// This row, which begins on this line, isn't UTF-8.
    Encoding {
        row: usize,
        line: usize,
    },
    /// Out of memory.
    Memory,
}

impl From<AllocError> for RowsFault {
    ghost from_gives = { λ _ fault. fault ≡ Memory };

    fn from(_error: AllocError) -> RowsFault {
        RowsFault::Memory
    }
}

impl<T: Drop> From<AllocFailed<T>> for RowsFault {
    ghost from_gives = { λ _ fault. fault ≡ Memory };

    fn from(_error: AllocFailed<T>) -> RowsFault {
        RowsFault::Memory
    }
}

// How so many fields are named.
fn fields_word(fields: usize) -> &'static str
    ensures { result.now ≡ spec.fields_word fields }
{
    if fields == 1 { "field" } else { "fields" }
}

/// Writes what is wrong.
impl fmt::Display for RowsFault {
    ghost output = { λ fault. Some (spec.rows_fault_text fault) };

    fn fmt<W: fmt::Write>(&self, f: &mut fmt::Formatter<W>) -> fmt::Result {
        match self {
            RowsFault::OpenQuote { line } => write!(f, "line {line}: a quote isn't closed"),
            RowsFault::BehindQuote { line } => write!(f, "line {line}: text after a closing quote"),
            RowsFault::Length {
                line,
                fields,
                columns,
                ..
            } => {
                let fields_word = fields_word(*fields);
                write!(
                    f,
                    "line {line}: {fields} {fields_word}, but row 0 has {columns}; see --ragged"
                )
            }
            RowsFault::Encoding { line, .. } => write!(f, "line {line}: not UTF-8"),
            RowsFault::Memory => write!(f, "out of memory"),
        }
    }
}
