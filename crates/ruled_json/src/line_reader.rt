//! Lines of JSON whose bytes come in pieces.

ghost use Rattle.std.specs.Prelude.{◌≡◌, ◌∷◌, ◌++◌, [], ℕ, List, false, map, IfOk, OnOk};
ghost use Rattle.csv.specs.Reading.{strip_bom};
ghost use Rattle.csv.specs.Records.{fields_of};
ghost use Rattle.ruled_json.specs.Faults.{Tells};
ghost use Rattle.ruled_json.specs.Streamed.{AppendsRest, Foretells, HasLines, HasRead, NoFeed, OnFault, without_front};
ghost use Rattle.ruled_json.specs.Rows.{records_on, rules_of};
ghost use Rattle.ruled_json.specs.Streamed.{LineRules, ended_line_rows, ended_table, fault_behind, sound_line_rows, streamed_line_fault, streamed_table};

use crate::fault::JsonFault;
use crate::line_table::LineTable;
use crate::lines::split_line;
use crate::member_names::MemberRules;
use json::Scratch;
use ruled_row::TextRow;
use std::alloc::{AllocError, Global};
use std::mem;

// The bytes without a byte order mark at the front.
#[tactic(auto, using(crate::proofs::Views::no_mark, crate::proofs::Views::with_mark))]
fn without_mark(bytes: &[u8]) -> &[u8]
    ensures { result.now ≡ strip_bom bytes.now }
{
    match bytes.strip_prefix(&[0xef, 0xbb, 0xbf]) {
        Some(rest) => rest,
        None => bytes,
    }
}

// The text of a line, which may begin with a byte order mark at the front of the input.
fn line_text(is_front: bool, line: &[u8]) -> &[u8]
    ensures { result.now ≡ without_front is_front line.now }
{
    if is_front { without_mark(line) } else { line }
}

// Appends bytes.
fn push_bytes(line: &mut Vec<u8>, bytes: &[u8]) -> Result<(), AllocError>
    ensures { OnOk result (line.new.items ≡ line.old.items ++ bytes.now) }
{
    line.extend_from_slice(bytes)
}

/// A reader of lines of JSON whose bytes come in pieces of any length.
///
/// Line feeds separate the lines. Each line holds an object, or is blank and no row. The members of
/// the first `records` objects are the columns, in the order in which they first appear. The header
/// and the rows of these objects come with the line of the last of them, each later row with its
/// own line. A byte order mark at the very front is skipped.
///
/// A fault ends the reading, after the rows above it. It is that of the first bad line, whatever
/// follows: one that isn't an object, or, after the first `records` objects, one with a member that
/// isn't a column.
#[derive(Drop)]
pub struct LineReader {
    alloc: Global,
    table: LineTable,
    // The bytes of a line whose line feed hasn't come yet.
    line: Vec<u8>,
    // Whether it is the first line.
    is_front: bool,
}

impl LineReader {
    /// A reader that has read nothing.
    pub fn new(alloc: Global, rules: &MemberRules, records: usize) -> Result<LineReader, AllocError>
        ensures { IfOk result (HasRead (record { records = records; members = rules_of rules.now }) []) }
    {
        let table = LineTable::new(alloc, rules, records)?;
        Ok(LineReader {
            alloc,
            table,
            line: Vec::new(alloc),
            is_front: true,
        })
    }

    // Reads a line.
    fn read_line(
        &mut self,
        scratch: &mut Scratch,
        line: &[u8],
        rows: &mut Vec<TextRow>,
    ) -> Result<(), JsonFault>
        ensures kept { (self.new.line ≡ self.old.line) × (self.new.is_front ≡ false) }
        ensures read { (rules : LineRules) (above : List (List ℕ)) → HasLines rules above self.old.table
            → OnOk result (HasLines rules (above ++ without_front self.old.is_front line.now ∷ []) self.new.table) }
        ensures rows { (rules : LineRules) (above : List (List ℕ)) → HasLines rules above self.old.table
            → OnOk result (AppendsRest (ended_table rules (records_on rules.members above)) (ended_table rules (records_on rules.members (above ++ without_front self.old.is_front line.now ∷ [])))
            (map fields_of rows.old.items) (map fields_of rows.new.items)) }
        ensures fault { (rules : LineRules) (above : List (List ℕ)) → HasLines rules above self.old.table → Tells (fault_behind rules above (without_front self.old.is_front line.now)) result }
        ensures sound { (rules : LineRules) (above : List (List ℕ)) → HasLines rules above self.old.table
            → OnFault result (AppendsRest (ended_table rules (records_on rules.members above)) (streamed_table rules (records_on rules.members above))
            (map fields_of rows.old.items) (map fields_of rows.new.items)) }
    {
        let text = line_text(self.is_front, line);
        self.is_front = false;
        self.table.read(scratch, text, rows)
    }

    // Reads the bytes before a line feed, and the line feed.
    fn end_line(
        &mut self,
        scratch: &mut Scratch,
        bytes: &[u8],
        rows: &mut Vec<TextRow>,
    ) -> Result<(), JsonFault>
        requires within { NoFeed bytes.now }
        ensures read { (rules : LineRules) (before : List ℕ) → HasRead rules before self.old → OnOk result (HasRead rules (before ++ (bytes.now ++ 10 ∷ [])) self.new) }
        ensures rows { (rules : LineRules) (before : List ℕ) → HasRead rules before self.old
            → OnOk result (AppendsRest (ended_line_rows rules before) (ended_line_rows rules (before ++ (bytes.now ++ 10 ∷ []))) (map fields_of rows.old.items) (map fields_of rows.new.items)) }
        ensures fault { (rules : LineRules) (before behind : List ℕ) → HasRead rules before self.old → Foretells (streamed_line_fault rules (before ++ (bytes.now ++ 10 ∷ behind))) result }
        ensures sound { (rules : LineRules) (before behind : List ℕ) → HasRead rules before self.old
            → OnFault result (AppendsRest (ended_line_rows rules before) (sound_line_rows rules (before ++ (bytes.now ++ 10 ∷ behind))) (map fields_of rows.old.items) (map fields_of rows.new.items)) }
    {
        let mut line = mem::replace(&mut self.line, Vec::new(self.alloc));
        if line.is_empty() {
            return self.read_line(scratch, bytes, rows);
        }
        push_bytes(&mut line, bytes)?;
        self.read_line(scratch, line.as_slice(), rows)
    }

    /// Reads the next bytes, and appends the rows that are complete with them.
    pub fn read(self, bytes: &[u8], rows: &mut Vec<TextRow>) -> Result<LineReader, JsonFault>
        ensures read { (rules : LineRules) (before : List ℕ) → HasRead rules before self → IfOk result (λ reader. HasRead rules (before ++ bytes.now) reader) }
        ensures rows { (rules : LineRules) (before : List ℕ) → HasRead rules before self
            → OnOk result (AppendsRest (ended_line_rows rules before) (ended_line_rows rules (before ++ bytes.now)) (map fields_of rows.old.items) (map fields_of rows.new.items)) }
        ensures fault { (rules : LineRules) (before behind : List ℕ) → HasRead rules before self → Foretells (streamed_line_fault rules ((before ++ bytes.now) ++ behind)) result }
        ensures sound { (rules : LineRules) (before behind : List ℕ) → HasRead rules before self
            → OnFault result (AppendsRest (ended_line_rows rules before) (sound_line_rows rules ((before ++ bytes.now) ++ behind)) (map fields_of rows.old.items) (map fields_of rows.new.items)) }
    {
        let mut reader = self;
        let mut scratch = Scratch::new(reader.alloc);
        let mut rest = bytes;
        while let Some((line, behind)) = split_line(rest) {
            reader.end_line(&mut scratch, line, rows)?;
            rest = behind;
        }
        push_bytes(&mut reader.line, rest)?;
        Ok(reader)
    }

    /// Ends the reading when no byte is left, and appends the remaining rows.
    pub fn finish(self, rows: &mut Vec<TextRow>) -> Result<(), JsonFault>
        ensures rows { (rules : LineRules) (bytes : List ℕ) → HasRead rules bytes self
            → OnOk result (AppendsRest (ended_line_rows rules bytes) (sound_line_rows rules bytes) (map fields_of rows.old.items) (map fields_of rows.new.items)) }
        ensures fault { (rules : LineRules) (bytes : List ℕ) → HasRead rules bytes self → Tells (streamed_line_fault rules bytes) result }
        ensures sound { (rules : LineRules) (bytes : List ℕ) → HasRead rules bytes self
            → OnFault result (AppendsRest (ended_line_rows rules bytes) (sound_line_rows rules bytes) (map fields_of rows.old.items) (map fields_of rows.new.items)) }
    {
        let mut reader = self;
        let mut scratch = Scratch::new(reader.alloc);
        let line = mem::replace(&mut reader.line, Vec::new(reader.alloc));
        reader.read_line(&mut scratch, line.as_slice(), rows)?;
        reader.table.finish(rows)?;
        Ok(())
    }
}
