//! Readers of rows whose bytes come in pieces.

ghost use Rattle.std.specs.Prelude.{◌≡◌, ◌++◌, [], ℕ, List, Some, map, IfErr, IfOk};
ghost use Rattle.ruled_database.specs.Listings.{HasRead};
ghost use Rattle.csv.specs.Records.{fields_of};
ghost use Rattle.ruled_json.specs.Rows.{rules_of};
ghost use Rattle.ruled_json.specs.Streamed.{LineRules};
ghost use Rattle.ruled_io.specs.Reading.{Ends, Gives, GivesStored, GoesOn, HasTaken};
ghost use Rattle.ruled_io.specs.declared.formats.Format.{Format};

use crate::fault::{InputFault, StreamedFault};
use crate::formats::Format;
use ruled_csv::{RowReader, RowsFault};
use ruled_database::{DatabaseFault, TableReader};
use ruled_json::{JsonFault, LineReader, MemberRules};
use ruled_row::TextRow;
use std::alloc::Global;

/// A reader of the rows of a format.
#[derive(Drop)]
pub(crate) enum Reader {
    /// Of separated values.
    Rows(RowReader),
    /// Of lines of JSON.
    Lines(LineReader),
}

/// How far an input is read.
#[derive(Drop)]
pub(crate) enum Reading<'d> {
    /// More bytes may come.
    More(Reader),
    /// More rows of a table of a database may be left.
    Stored(TableReader<'d>),
    /// All rows were read: those above the first bad one, with what is wrong, or all that there
    /// are.
    Done(Option<InputFault>),
}

impl Reader {
    /// Reads the next bytes, and appends the rows that are complete with them, or those above the first bad one.
    ///
    /// The only fault is out of memory.
    pub(crate) fn read<'d>(
        self,
        bytes: &[u8],
        rows: &mut Vec<TextRow>,
    ) -> Result<Reading<'d>, InputFault>
        ensures given { (format : Format) (rules : LineRules) (before behind : List ℕ) → HasTaken format rules before self
            → IfOk result (Gives format rules before bytes.now ((before ++ bytes.now) ++ behind) (map fields_of rows.old.items) (map fields_of rows.new.items)) }
        ensures memory { IfErr result (λ fault. fault ≡ InputFault.Memory) }
    {
        match self {
            Reader::Rows(reader) => match reader.read(bytes, rows) {
                Ok(reader) => Ok(Reading::More(Reader::Rows(reader))),
                Err(RowsFault::Memory) => Err(InputFault::Memory),
                Err(fault) => Ok(Reading::Done(Some(InputFault::Rows(fault)))),
            },
            Reader::Lines(reader) => match reader.read(bytes, rows) {
                Ok(reader) => Ok(Reading::More(Reader::Lines(reader))),
                Err(JsonFault::Memory) => Err(InputFault::Memory),
                Err(fault) => Ok(Reading::Done(Some(InputFault::Json(fault)))),
            },
        }
    }

    /// Ends the reading when no byte is left, and appends the rows that end with it, or those above
    /// the first bad one.
    ///
    /// The only fault is out of memory.
    pub(crate) fn finish<'d>(self, rows: &mut Vec<TextRow>) -> Result<Reading<'d>, InputFault>
        ensures given { (format : Format) (rules : LineRules) (bytes : List ℕ) → HasTaken format rules bytes self
            → IfOk result (Ends format rules bytes (map fields_of rows.old.items) (map fields_of rows.new.items)) }
        ensures memory { IfErr result (λ fault. fault ≡ InputFault.Memory) }
    {
        match self {
            Reader::Rows(reader) => match reader.finish(rows) {
                Ok(()) => Ok(Reading::Done(None)),
                Err(RowsFault::Memory) => Err(InputFault::Memory),
                Err(fault) => Ok(Reading::Done(Some(InputFault::Rows(fault)))),
            },
            Reader::Lines(reader) => match reader.finish(rows) {
                Ok(()) => Ok(Reading::Done(None)),
                Err(JsonFault::Memory) => Err(InputFault::Memory),
                Err(fault) => Ok(Reading::Done(Some(InputFault::Json(fault)))),
            },
        }
    }
}

impl<'d> Reading<'d> {
    /// The reading of an input in this format, of which these are the first bytes; the members of
    /// so many first records are the columns of lines of JSON, of which these rules say how they are read.
    ///
    /// The only fault is out of memory.
    pub(crate) fn of_front(
        alloc: Global,
        format: Format,
        members: &MemberRules,
        records: usize,
        front: &[u8],
        rows: &mut Vec<TextRow>,
    ) -> Result<Reading<'d>, InputFault>
        ensures given { (rest : List ℕ) → IfOk result (GoesOn format (record { records = records; members = rules_of members.now }) (front.now ++ rest) (Some rest) []
            (map fields_of rows.old.items) (map fields_of rows.new.items)) }
        ensures memory { IfErr result (λ fault. fault ≡ InputFault.Memory) }
    {
        match format {
            Format::Separated(dialect) => {
                let reader = RowReader::new(alloc, dialect);
                Reader::Rows(reader).read(front, rows)
            }
            Format::JsonLines => {
                let reader = LineReader::new(alloc, members, records)?;
                Reader::Lines(reader).read(front, rows)
            }
            Format::Json => Ok(Reading::Done(Some(InputFault::Stream(StreamedFault::Value)))),
        }
    }
}

/// How many rows of a table are read before their lines are written.
const BATCH: usize = 256;

/// Appends the next rows of a table of a database, or those above the first bad one.
pub(crate) fn read_stored<'d>(mut table: TableReader<'d>, rows: &mut Vec<TextRow>) -> Reading<'d>
    ensures { (file name null_text : List ℕ) (given : List (List (List ℕ))) → HasRead file name null_text given table.entry
        → GivesStored file name null_text given (map fields_of rows.old.items) (map fields_of rows.new.items) result }
{
    match table.push_rows(BATCH, rows) {
        Ok(true) => Reading::Stored(table),
        Ok(false) => Reading::Done(None),
        Err(fault) => Reading::Done(Some(DatabaseFault::Table(fault).into())),
    }
}
