//! The table of records, one on each line.

ghost use Rattle.std.specs.Prelude.{◌≡◌, ◌∷◌, ◌++◌, [], ℕ, List, fold, length, map, string_bytes, None, Some, IfOk, IsOk, OnOk, if◌then◌else◌};
ghost use Rattle.csv.specs.Records.{fields_of};
ghost use Rattle.json.specs.Json.{Json};
ghost use Rattle.json.specs.Tree.{HasNumbers};
ghost use Rattle.json.specs.Value.{value_view};
ghost use Rattle.ruled_json.specs.Faults.{Tells, line_rows_fault};
ghost use Rattle.ruled_json.specs.Streamed.{AppendsRest, HasLines, HasRecords, OnFault, columns_in, padded, LineRules, ended_table, fault_behind, late_fault, streamed_table};
ghost use Rattle.ruled_json.specs.Rows.{has_all, line_rows_of, names_in, records_on, row_of, rules_of, table_in, with_name};
ghost use Rattle.ruled_json.specs.declared.fault.JsonFault.TheVariants.{NoColumn};
ghost use Rattle.ruled_json.specs.declared.fault.Place.TheVariants.{Line};

use crate::fault::{JsonFault, Place};
use crate::lines::{line_after, lines_of, record_on};
use crate::member_names::{MemberNames, MemberRules};
use crate::objects::flat_record;
use bumpalo::Bump;
use json::{Scratch, Value};
use ruled_row::TextRow;
use std::alloc::{AllocError, Global};
use std::mem;

/// The table of records, one on each line; the members of the first ones are the columns.
#[derive(Drop)]
pub(crate) struct LineTable {
    alloc: Global,
    // The text for null.
    null: String,
    // Whether records are flat.
    is_flat: bool,
    // The columns.
    names: MemberNames,
    // How many records are still to come whose members are columns.
    left: usize,
    // The rows of those that came, until the last one has. Each has the columns that were known
    // then.
    held: Vec<TextRow>,
    // The number of the next line.
    number: usize,
}

impl LineTable {
    /// The table of no lines, whose columns are the members of so many records.
    pub(crate) fn new(
        alloc: Global,
        rules: &MemberRules,
        records: usize,
    ) -> Result<LineTable, AllocError>
        ensures { IfOk result (HasLines (record { records = records; members = rules_of rules.now }) []) }
    {
        let null = String::from_str(alloc, rules.null.as_str())?;
        Ok(LineTable {
            alloc,
            null,
            is_flat: rules.is_flat,
            names: MemberNames::new(alloc),
            left: records,
            held: Vec::new(alloc),
            number: 1,
        })
    }

    // Appends the header and the held rows.
    fn push_held(&mut self, rows: &mut Vec<TextRow>) -> Result<(), AllocError>
        ensures kept { (self.new.names ≡ self.old.names) × (self.new.left ≡ self.old.left) × (self.new.number ≡ self.old.number) × (self.new.null ≡ self.old.null)
            × (self.new.is_flat ≡ self.old.is_flat) }
        ensures rows { (word : List ℕ) (records : List Json)
            → map (padded (length (columns_in self.old))) (map fields_of self.old.held.items) ≡ map (row_of word (columns_in self.old)) records
            → OnOk result (map fields_of rows.new.items ≡ map fields_of rows.old.items ++ table_in word (columns_in self.old) records) }
    {
        if self.names.is_empty() {
            return Ok(());
        }
        rows.reserve(self.held.len().saturating_add(1))?;
        rows.push(self.names.header(self.alloc)?)?;
        let held = mem::replace(&mut self.held, Vec::new(self.alloc));
        for row in held {
            let padded = self.names.padded(row)?;
            rows.push(padded)?;
        }
        Ok(())
    }

    // Holds the row of a record whose members are columns.
    fn hold(&mut self, value: &Value<'_>) -> Result<(), AllocError>
        requires numbers { HasNumbers (value_view value.now) }
        ensures kept { (self.new.left ≡ self.old.left) × (self.new.number ≡ self.old.number) × (self.new.null ≡ self.old.null) × (self.new.is_flat ≡ self.old.is_flat) }
        ensures columns { OnOk result (columns_in self.new ≡ fold with_name (columns_in self.old) (names_in (value_view value.now))) }
        ensures held { OnOk result (map fields_of self.new.held.items ≡ map fields_of self.old.held.items ++ row_of (string_bytes self.old.null) (columns_in self.new) (value_view value.now) ∷ []) }
    {
        let row = self.names.add_row(self.alloc, self.null.as_str(), value)?;
        self.held.push(row)?;
        Ok(())
    }

    // Appends the row of a record on the line of this number, once the columns are known.
    fn push_late(
        &self,
        number: usize,
        value: &Value<'_>,
        rows: &mut Vec<TextRow>,
    ) -> Result<(), JsonFault>
        requires numbers { HasNumbers (value_view value.now) }
        ensures fault { Tells (if has_all (columns_in self.now) (value_view value.now) then None else Some (NoColumn (Line number))) result }
        ensures rows { (above : List Json)
            → OnOk result (AppendsRest (table_in (string_bytes self.now.null) (columns_in self.now) above)
            (table_in (string_bytes self.now.null) (columns_in self.now) (above ++ value_view value.now ∷ []))
            (map fields_of rows.old.items) (map fields_of rows.new.items)) }
        ensures sound { OnFault result (map fields_of rows.new.items ≡ map fields_of rows.old.items) }
    {
        if !self.names.has_all(value) {
            return Err(JsonFault::NoColumn(Place::Line(number)));
        }
        if self.names.is_empty() {
            return Ok(());
        }
        rows.push(self.names.row(self.alloc, self.null.as_str(), value)?)?;
        Ok(())
    }

    // Appends the row of a record on the line of this number, or holds it until all columns are known.
    fn take(
        &mut self,
        number: usize,
        value: &Value<'_>,
        rows: &mut Vec<TextRow>,
    ) -> Result<(), JsonFault>
        requires numbers { HasNumbers (value_view value.now) }
        ensures kept { (self.new.number ≡ self.old.number) × (self.new.is_flat ≡ self.old.is_flat) }
        ensures read { (rules : LineRules) (above : List Json) → HasRecords rules above self.old → OnOk result (HasRecords rules (above ++ value_view value.now ∷ []) self.new) }
        ensures rows { (rules : LineRules) (above : List Json) → HasRecords rules above self.old
            → OnOk result (AppendsRest (ended_table rules above) (ended_table rules (above ++ value_view value.now ∷ [])) (map fields_of rows.old.items) (map fields_of rows.new.items)) }
        ensures fault { (rules : LineRules) (above : List Json) → HasRecords rules above self.old → Tells (late_fault rules above number (value_view value.now)) result }
        ensures sound { (rules : LineRules) (above : List Json) → HasRecords rules above self.old
            → OnFault result (AppendsRest (ended_table rules above) (streamed_table rules above) (map fields_of rows.old.items) (map fields_of rows.new.items)) }
    {
        if self.left == 0 {
            return self.push_late(number, value, rows);
        }
        self.hold(value)?;
        self.left -= 1;
        if self.left == 0 {
            self.push_held(rows)?;
        }
        Ok(())
    }

    /// Reads a line, and appends the rows that are complete with it. If the line is bad, it appends
    /// the held rows above it.
    #[tactic(auto, using(crate::proofs::Flat::flat_numbers))]
    pub(crate) fn read(
        &mut self,
        scratch: &mut Scratch,
        line: &[u8],
        rows: &mut Vec<TextRow>,
    ) -> Result<(), JsonFault>
        ensures read { (rules : LineRules) (above : List (List ℕ)) → HasLines rules above self.old → OnOk result (HasLines rules (above ++ line.now ∷ []) self.new) }
        ensures rows { (rules : LineRules) (above : List (List ℕ)) → HasLines rules above self.old
            → OnOk result (AppendsRest (ended_table rules (records_on rules.members above)) (ended_table rules (records_on rules.members (above ++ line.now ∷ [])))
            (map fields_of rows.old.items) (map fields_of rows.new.items)) }
        ensures fault { (rules : LineRules) (above : List (List ℕ)) → HasLines rules above self.old → Tells (fault_behind rules above line.now) result }
        ensures sound { (rules : LineRules) (above : List (List ℕ)) → HasLines rules above self.old
            → OnFault result (AppendsRest (ended_table rules (records_on rules.members above)) (streamed_table rules (records_on rules.members above))
            (map fields_of rows.old.items) (map fields_of rows.new.items)) }
    {
        let number = self.number;
        self.number = line_after(number, line);
        match record_on(self.alloc, scratch, line, number) {
            Ok(Some(value)) => {
                if self.is_flat {
                    let texts = Bump::new(self.alloc);
                    let flat = flat_record(self.alloc, &texts, &value)?;
                    return self.take(number, &flat, rows);
                }
                self.take(number, &value, rows)
            }
            Ok(None) => Ok(()),
            Err(fault) => {
                self.finish(rows)?;
                Err(fault)
            }
        }
    }

    /// Appends the held rows when no line is left.
    pub(crate) fn finish(&mut self, rows: &mut Vec<TextRow>) -> Result<(), AllocError>
        ensures rest { (rules : LineRules) (above : List Json) → HasRecords rules above self.old
            → OnOk result (AppendsRest (ended_table rules above) (streamed_table rules above) (map fields_of rows.old.items) (map fields_of rows.new.items)) }
    {
        if self.left == 0 {
            return Ok(());
        }
        self.push_held(rows)
    }
}

/// The rows of lines of JSON: a header, and a row for each line with an object, as
/// [`read_rows`](crate::read_rows) gives them for an array of these objects. A blank line is no
/// row.
///
/// The fault is that of the first bad line. The only other fault is out of memory, which no bytes need.
pub fn read_line_rows(
    alloc: Global,
    rules: &MemberRules,
    bytes: &[u8],
) -> Result<Vec<TextRow>, JsonFault>
    ensures rows { IfOk result (λ rows. map fields_of rows.items ≡ line_rows_of (rules_of rules.now) bytes.now) }
    ensures fault { Tells (line_rows_fault bytes.now) result }
    ensures nothing { bytes.now ≡ [] → IsOk result }
{
    if bytes.is_empty() {
        return Ok(Vec::new(alloc));
    }
    let lines = lines_of(alloc, bytes)?;
    let count = lines.len();
    let mut table = LineTable::new(alloc, rules, count)?;
    let mut scratch = Scratch::new(alloc);
    let mut rows = Vec::new(alloc);
    for line in &lines {
        table.read(&mut scratch, line, &mut rows)?;
    }
    table.finish(&mut rows)?;
    Ok(rows)
}
