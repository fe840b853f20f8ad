//! Rows of bytes that come one piece after another, and of bytes that are all there.

ghost use Rattle.std.specs.Prelude.{◌≡◌, ◌≤◌, ◌++◌, ◌∷◌, [], ℕ, List, length, map, take, Some, IfOk, IsOk, OnErr, OnOk};
ghost use Rattle.csv.specs.Records.{fields_of};
ghost use Rattle.ruled_csv.specs.declared.dialect.Dialect.{Dialect};
ghost use Rattle.ruled_csv.specs.Faults.{Tells, has_length, number_of, row_fault, rows_fault, sound_rows};
ghost use Rattle.ruled_csv.specs.Inside.{Counts, Holds, Scan, fault_below, leaves_out, left_of, row_at, row_made, scan_after, with_row};
ghost use Rattle.ruled_csv.specs.Reading.{AppendsRest, AppendsSome, Foretells, HasRead, OnFault};
ghost use Rattle.ruled_csv.specs.Rows.{ended_rows, rows_of};

use crate::dialect::Dialect;
use crate::fault::RowsFault;
use crate::lines::ends_line;
use crate::scanner::Scanner;
use crate::words::words_in;
use ruled_row::{RowBuffer, TextRow};
use std::alloc::{AllocError, Global};

// Whether a row may have so many fields.
fn has_length(dialect: Dialect, columns: usize, fields: usize) -> bool
    ensures { result ≡ has_length dialect columns fields }
{
    dialect.rows.is_ragged || fields == columns
}

// The text of a row that begins on this line, or what is wrong with it.
#[tactic(auto, using(crate::proofs::TextFaults::row_right, crate::proofs::TextFaults::row_wrong))]
#[inline(always)]
fn text_of(
    fields: &RowBuffer,
    row: usize,
    line: usize,
    dialect: Dialect,
    columns: usize,
) -> Result<TextRow, RowsFault>
    ensures same { IfOk result (λ text. fields_of text ≡ fields_of fields.now) }
    ensures fault { (number : ℕ) → row ≡ number_of number → Tells (row_fault dialect columns number (fields_of fields.now)) result }
{
    let count = fields.len();
    if !has_length(dialect, columns, count) {
        return Err(RowsFault::Length {
            row,
            line,
            fields: count,
            columns,
        });
    }
    match fields.to_row()? {
        Some(text) => Ok(text),
        None => Err(RowsFault::Encoding { row, line }),
    }
}

/// A reader of rows whose bytes come in pieces of any length.
///
/// Each row comes with the bytes that end it. The byte `dialect.delimiter` separates fields, which
/// are quoted as in CSV, unless `dialect.rows.fields` says otherwise. LF, CRLF and a lone CR end a
/// row, and an empty line is no row, nor is one that `dialect.rows` leaves out.
///
/// A fault ends the reading. It is that of the first bad row, whatever follows: a row with another
/// number of fields than row 0, unless rows may be ragged, with a field that isn't UTF-8, with text
/// after a closing quote, or with a quote that isn't closed.
#[derive(Drop)]
pub struct RowReader {
    scanner: Scanner,
    // Whether the next byte is in a line that is left out, if it doesn't end the line.
    is_left_out: bool,
    // How many rows were read.
    rows: usize,
    // How many columns they have.
    columns: Option<usize>,
}

impl RowReader {
    /// A reader that has read nothing.
    pub fn new(alloc: Global, dialect: Dialect) -> RowReader
        ensures { HasRead dialect [] result }
    {
        RowReader {
            scanner: Scanner::new(alloc, dialect),
            is_left_out: false,
            rows: 0,
            columns: None,
        }
    }

    // Appends a row that ended.
    #[inline(always)]
    fn give(&mut self, fields: &RowBuffer, rows: &mut Vec<TextRow>) -> Result<(), RowsFault>
        ensures left { self.new.is_left_out ≡ self.old.is_left_out }
        ensures scanner { self.new.scanner ≡ self.old.scanner }
        ensures rows { OnOk result (map fields_of rows.new.items ≡ map fields_of rows.old.items ++ fields_of fields.now ∷ []) }
        ensures kept { OnErr result (rows.new.items ≡ rows.old.items) }
        ensures counted { (above : List (List (List ℕ))) → Counts above self.old.rows self.old.columns → OnOk result (Counts (above ++ fields_of fields.now ∷ []) self.new.rows self.new.columns) }
        ensures fault { (above : List (List (List ℕ))) → Counts above self.old.rows self.old.columns → Tells (fault_below self.old.scanner.dialect above (Some (fields_of fields.now))) result }
    {
        let columns = self.columns.unwrap_or(fields.len());
        let (line, dialect) = (self.scanner.begun(), self.scanner.dialect);
        let text = text_of(fields, self.rows, line, dialect, columns)?;
        rows.push(text)?;
        self.rows = self.rows.saturating_add(1);
        self.columns = Some(columns);
        Ok(())
    }

    // Appends the row that has these fields, or the words of their line, if it has any.
    #[inline(always)]
    fn give_row(&mut self, fields: &RowBuffer, rows: &mut Vec<TextRow>) -> Result<(), RowsFault>
        ensures left { self.new.is_left_out ≡ self.old.is_left_out }
        ensures scanner { self.new.scanner ≡ self.old.scanner }
        ensures rows { (above : List (List (List ℕ))) → Counts above self.old.rows self.old.columns
            → OnOk result (map fields_of rows.new.items ≡ with_row (map fields_of rows.old.items) (row_made self.old.scanner.dialect above (fields_of fields.now))) }
        ensures kept { OnErr result (rows.new.items ≡ rows.old.items) }
        ensures counted { (above : List (List (List ℕ))) → Counts above self.old.rows self.old.columns
            → OnOk result (Counts (with_row above (row_made self.old.scanner.dialect above (fields_of fields.now))) self.new.rows self.new.columns) }
        ensures fault { (above : List (List (List ℕ))) → Counts above self.old.rows self.old.columns
            → Tells (fault_below self.old.scanner.dialect above (row_made self.old.scanner.dialect above (fields_of fields.now))) result }
    {
        let dialect = self.scanner.dialect;
        if !dialect.rows.fields.are_words() {
            return self.give(fields, rows);
        }
        let alloc = *rows.allocator();
        match words_in(alloc, self.columns, fields)? {
            Some(words) => self.give(&words, rows),
            None => Ok(()),
        }
    }

    // Reads a byte of a line that isn't left out, or of its end.
    #[inline(always)]
    fn scan(&mut self, byte: u8, rows: &mut Vec<TextRow>) -> Result<(), RowsFault>
        ensures left { self.new.is_left_out ≡ self.old.is_left_out }
        ensures read { (dialect : Dialect) (scan : Scan) → Holds dialect scan self.old → OnOk result (Holds dialect (scan_after dialect scan byte) self.new) }
        ensures rows { (dialect : Dialect) (scan : Scan) → Holds dialect scan self.old
            → OnOk result (map fields_of rows.new.items ≡ with_row (map fields_of rows.old.items) (row_at dialect scan byte)) }
        ensures kept { OnErr result (rows.new.items ≡ rows.old.items) }
        ensures fault { (dialect : Dialect) (scan : Scan) → Holds dialect scan self.old → Foretells (scan_after dialect scan byte).fault result }
    {
        match self.scanner.read(byte)? {
            Some(fields) => {
                let given = self.give_row(&fields, rows);
                self.scanner.reuse(fields);
                given
            }
            None => Ok(()),
        }
    }

    // Whether a byte isn't read: it is in a line that is left out, and doesn't end it.
    fn leaves_out(&self, byte: u8) -> bool
        ensures { (dialect : Dialect) (before : List ℕ) → HasRead dialect before self.now → result ≡ leaves_out dialect (left_of dialect before) byte }
    {
        !ends_line(byte) && (self.is_left_out || self.scanner.leaves_out(byte))
    }

    // Reads a byte.
    fn read_byte(&mut self, byte: u8, rows: &mut Vec<TextRow>) -> Result<(), RowsFault>
        ensures read { (dialect : Dialect) (before : List ℕ) → HasRead dialect before self.old → OnOk result (HasRead dialect (before ++ byte ∷ []) self.new) }
        ensures rows { (dialect : Dialect) (before : List ℕ) → HasRead dialect before self.old
            → OnOk result (AppendsRest (ended_rows dialect before) (ended_rows dialect (before ++ byte ∷ [])) (map fields_of rows.old.items) (map fields_of rows.new.items)) }
        ensures fault { (dialect : Dialect) (before behind : List ℕ) → HasRead dialect before self.old → Foretells (rows_fault dialect ((before ++ byte ∷ []) ++ behind)) result }
        ensures sound { (dialect : Dialect) (before behind : List ℕ) → HasRead dialect before self.old → OnFault result
            (sound_rows dialect ((before ++ byte ∷ []) ++ behind) ≡ ended_rows dialect before) }
        ensures kept { OnErr result (rows.new.items ≡ rows.old.items) }
    {
        if self.leaves_out(byte) {
            self.is_left_out = true;
            return Ok(());
        }
        if self.is_left_out {
            self.is_left_out = false;
            self.scanner.end_line(byte);
            return Ok(());
        }
        self.scan(byte, rows)
    }

    // Reads the next bytes while no row ends and nothing is wrong, and returns how many: as many as
    // are found at once.
    fn read_run(&mut self, bytes: &[u8]) -> Result<usize, AllocError>
        ensures within { IfOk result (λ count. count ≤ length bytes.now) }
        ensures read { (dialect : Dialect) (before : List ℕ) → HasRead dialect before self.old → IfOk result (λ count. HasRead dialect (before ++ take count bytes.now) self.new) }
        ensures rows { (dialect : Dialect) (before : List ℕ) → HasRead dialect before self.old
            → IfOk result (λ count. ended_rows dialect (before ++ take count bytes.now) ≡ ended_rows dialect before) }
    {
        match bytes.first() {
            Some(byte) if !self.is_left_out && !self.leaves_out(*byte) => {
                self.scanner.read_run(bytes)
            }
            _ => Ok(0),
        }
    }

    /// Reads the next bytes, and appends the rows that end among them; after a fault, those above
    /// the first bad row.
    pub fn read(self, bytes: &[u8], rows: &mut Vec<TextRow>) -> Result<RowReader, RowsFault>
        ensures read { (dialect : Dialect) (before : List ℕ) → HasRead dialect before self → IfOk result (λ reader. HasRead dialect (before ++ bytes.now) reader) }
        ensures rows { (dialect : Dialect) (before : List ℕ) → HasRead dialect before self
            → OnOk result (AppendsRest (ended_rows dialect before) (ended_rows dialect (before ++ bytes.now)) (map fields_of rows.old.items) (map fields_of rows.new.items)) }
        ensures fault { (dialect : Dialect) (before behind : List ℕ) → HasRead dialect before self → Foretells (rows_fault dialect ((before ++ bytes.now) ++ behind)) result }
        ensures sound { (dialect : Dialect) (before behind : List ℕ) → HasRead dialect before self → OnFault result
            (AppendsRest (ended_rows dialect before) (sound_rows dialect ((before ++ bytes.now) ++ behind))
            (map fields_of rows.old.items) (map fields_of rows.new.items)) }
        ensures cut { (dialect : Dialect) (before behind : List ℕ) → HasRead dialect before self → OnErr result
            (AppendsSome (ended_rows dialect before) (sound_rows dialect ((before ++ bytes.now) ++ behind))
            (map fields_of rows.old.items) (map fields_of rows.new.items)) }
        ensures nothing { bytes.now ≡ [] → IsOk result }
    {
        let mut reader = self;
        let mut at = 0;
        while at < bytes.len() {
            reader.read_byte(bytes[at], rows)?;
            at += 1;
            let run = reader.read_run(&bytes[at..])?;
            at += run;
        }
        Ok(reader)
    }

    /// Ends the reading when no byte is left, and appends the row that ends with the input, unless
    /// it is bad.
    pub fn finish(self, rows: &mut Vec<TextRow>) -> Result<(), RowsFault>
        ensures rows { (dialect : Dialect) (bytes : List ℕ) → HasRead dialect bytes self
            → OnOk result (AppendsRest (ended_rows dialect bytes) (rows_of dialect bytes) (map fields_of rows.old.items) (map fields_of rows.new.items)) }
        ensures fault { (dialect : Dialect) (bytes : List ℕ) → HasRead dialect bytes self → Tells (rows_fault dialect bytes) result }
        ensures sound { (dialect : Dialect) (bytes : List ℕ) → HasRead dialect bytes self → OnFault result
            (AppendsRest (ended_rows dialect bytes) (sound_rows dialect bytes)
            (map fields_of rows.old.items) (map fields_of rows.new.items)) }
        ensures kept { OnErr result (rows.new.items ≡ rows.old.items) }
        ensures nothing { (dialect : Dialect) → HasRead dialect [] self → IsOk result }
    {
        let mut reader = self;
        match reader.scanner.end()? {
            Some(fields) => reader.give_row(&fields, rows),
            None => Ok(()),
        }
    }
}

/// The rows of separated values, each a record of its fields.
///
/// The byte `dialect.delimiter` separates fields, which are quoted as in CSV, unless
/// `dialect.rows.fields` says otherwise. LF, CRLF and a lone CR end a row, and an empty line is no
/// row, nor is one that `dialect.rows` leaves out. The fault is that of the first bad row: one with
/// another number of fields than row 0, unless rows may be ragged, one that isn't UTF-8, or one in
/// which a quote isn't closed or is followed by text. The only other fault is out of memory, which
/// no bytes need.
pub fn read_rows(alloc: Global, dialect: Dialect, bytes: &[u8]) -> Result<Vec<TextRow>, RowsFault>
    ensures rows { IfOk result (λ rows. map fields_of rows.items ≡ rows_of dialect bytes.now) }
    ensures fault { Tells (rows_fault dialect bytes.now) result }
    ensures nothing { bytes.now ≡ [] → IsOk result }
{
    let mut rows = Vec::new(alloc);
    let reader = RowReader::new(alloc, dialect).read(bytes, &mut rows)?;
    reader.finish(&mut rows)?;
    Ok(rows)
}
