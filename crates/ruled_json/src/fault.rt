//! Why JSON holds no rows, and where something is wrong.

ghost use Rattle.std.specs.Prelude.{◌≡◌, Some};
ghost use Rattle.ruled_json.specs.Faults.{json_fault_text, place_text, but_near};
ghost use Rattle.ruled_json.specs.declared.fault.JsonFault.TheVariants.{Memory};

use std::alloc::{AllocError, AllocFailed};
use std::fmt;

/// Why JSON holds no rows.
#[derive(Clone, Copy)]
pub enum JsonFault {
    /// The text isn't UTF-8.
    Encoding(Place),
    /// The text isn't a JSON value, or its arrays and objects nest deeper than 128.
    Syntax(Place),
    /// The value has no member at the path.
    NoMember,
    /// The value that has the records is neither an array nor an object.
    NoRecords,
    /// The value isn't an object.
    NoObject(Place),
    /// The object has a member that none of the first records has, whose members are the columns.
    NoColumn(Place),
    /// Out of memory.
    Memory,
}

impl From<AllocError> for JsonFault {
    ghost from_gives = { λ _ fault. fault ≡ Memory };

    fn from(_error: AllocError) -> JsonFault {
        JsonFault::Memory
    }
}

impl<T: Drop> From<AllocFailed<T>> for JsonFault {
    ghost from_gives = { λ _ fault. fault ≡ Memory };

    fn from(_error: AllocFailed<T>) -> JsonFault {
        JsonFault::Memory
    }
}

/// Writes what is wrong.
impl fmt::Display for JsonFault {
    ghost output = { λ fault. Some (json_fault_text fault) };

    fn fmt<W: fmt::Write>(&self, f: &mut fmt::Formatter<W>) -> fmt::Result {
        match self {
            JsonFault::Encoding(place) => write!(f, "{place}not UTF-8"),
            JsonFault::Syntax(place) => write!(f, "{place}not JSON"),
            JsonFault::NoMember => write!(f, "no such member"),
            JsonFault::NoRecords => write!(f, "neither an array nor an object"),
            JsonFault::NoObject(place) => write!(f, "{place}not an object"),
            JsonFault::NoColumn(place) => write!(
                f,
                "{place}a member that none of the first rows has"
            ),
            JsonFault::Memory => write!(f, "out of memory"),
        }
    }
}

/// Where something is wrong.
#[derive(Clone, Copy)]
pub enum Place {
    /// In the one value that the input should be, found on this line, counted from 1.
    Near(usize),
    /// In this record, counted from 1.
    Record(usize),
    /// On this line, counted from 1.
    Line(usize),
}

impl Place {
    /// This place; in the one value, with the line of this byte.
    pub(crate) fn at(self, bytes: &[u8], offset: usize) -> Place
        ensures { but_near result ≡ but_near self }
    {
        match self {
            Place::Near(_) => Place::Near(line_of(bytes, offset)),
            _ => self,
        }
    }
}

// The line of this byte, counted from 1: LF, CRLF and a lone CR each end one.
fn line_of(bytes: &[u8], offset: usize) -> usize {
    let above = bytes.get(..offset).unwrap_or(bytes);
    let ends = above
        .iter()
        .filter(|byte| matches!(**byte, b'\n' | b'\r'))
        .count();
    let pairs = above
        .windows(2)
        .filter(|pair| matches!(*pair, [b'\r', b'\n']))
        .count();
    ends.saturating_sub(pairs).saturating_add(1)
}

/// Writes what comes before the words of a fault.
impl fmt::Display for Place {
    ghost output = { λ place. Some (place_text place) };

    fn fmt<W: fmt::Write>(&self, f: &mut fmt::Formatter<W>) -> fmt::Result {
        match self {
            Place::Record(number) => write!(f, "record {number}: "),
            Place::Near(number) | Place::Line(number) => write!(f, "line {number}: "),
        }
    }
}
