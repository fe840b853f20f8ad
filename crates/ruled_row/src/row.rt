//! Rows of texts.

ghost use Rattle.std.specs.Prelude.{◌≡◌, ◌<◌, ◌≤◌, ◌+◌, ◌-◌, ◌^◌, ◌∷◌, ◌++◌, [], length, map, option_map, IfOk, IfSome, OnErr, OnOk};
ghost use Rattle.csv.specs.Records.{field_at, field_count, fields_of, text_of};

use crate::ends::Ends;
use std::alloc::{AllocError, Global};
use std::marker::Model;

/// A row of texts. Short rows take one allocation, for the text of all fields.
pub struct TextRow {
    pub(crate) text: String,
    pub(crate) ends: Ends,
}

// Written out, so that a caller's proof has one call when it drops a row.
impl Drop for TextRow {
    fn drop(self) {
        let TextRow { text, ends } = self;
        drop((text, ends));
    }
}

impl Model for TextRow {
    ghost use Rattle.csv.specs.Records.{AllText, Row, fields_of};

    ghost Value = { Row };

    ghost use Rattle.ruled_row.specs.Rows.{IsWhole, row_of};

    ghost view = { row_of };

    ghost invariant = { λ a. IsWhole (row_of a) × AllText (fields_of (row_of a)) };
}

impl TextRow {
    /// A row of no fields.
    #[tactic(auto, using(crate::proofs::RowFacts::fields_none))]
    pub fn new(alloc: Global) -> TextRow
        ensures fields { fields_of result ≡ [] }
    {
        TextRow {
            text: String::new(alloc),
            ends: Ends::new(),
        }
    }

    /// A row of no fields, with room for so many bytes.
    #[tactic(auto, using(crate::proofs::RowFacts::fields_none))]
    pub fn with_capacity(alloc: Global, bytes: usize) -> Result<TextRow, AllocError>
        ensures fields { IfOk result (λ row. fields_of row ≡ []) }
    {
        let text = String::with_capacity(alloc, bytes)?;
        let ends = Ends::new();
        Ok(TextRow { text, ends })
    }

    /// A row of these fields.
    pub fn from_fields(alloc: Global, fields: &[&str]) -> Result<TextRow, AllocError>
        ensures fields { IfOk result (λ row. fields_of row ≡ map (λ field. field.now) fields.now) }
    {
        let mut row = TextRow::new(alloc);
        for field in fields {
            row.push_field(field)?;
        }
        Ok(row)
    }

    /// How many fields it has.
    #[tactic(auto, using(crate::proofs::RowFacts::field_count))]
    pub fn len(&self) -> usize
        ensures { result ≡ length (fields_of self.now) }
    {
        self.ends.len()
    }

    /// The field at this place, if there is one.
    pub fn get(&self, place: usize) -> Option<&str>
        ensures place { IfSome result (λ _. (place < field_count self.now) × (place + 1 ≤ 2 ^ 64 - 1)) }
        ensures value { option_map (λ field. field.now) result ≡ field_at (fields_of self.now) place }
    {
        match self.ends.part(place) {
            Some((start, end)) => Some(&self.text[start..end]),
            None => None,
        }
    }

    /// The texts of all fields, one after the other.
    pub fn text(&self) -> &str
        ensures { result.now ≡ text_of self.now }
    {
        &self.text
    }

    /// Adds a field. Out of memory leaves the row as it was.
    pub fn push_field(&mut self, field: &str) -> Result<(), AllocError>
        ensures fields { OnOk result (fields_of self.new ≡ fields_of self.old ++ field.now ∷ []) }
        ensures err { OnErr result (self.new ≡ self.old) }
    {
        let alloc = *self.text.allocator();
        let start = self.text.len();
        self.text.push_str(field)?;
        match self.ends.push(alloc, self.text.len()) {
            Ok(()) => Ok(()),
            Err(error) => {
                self.text.truncate(start);
                Err(error)
            }
        }
    }
}

impl Clone for TextRow {
    ghost is_clone = { λ row copy. copy ≡ row };

    fn clone(&self) -> Result<TextRow, AllocError> {
        let ends = self.ends.clone()?;
        let text = String::from_str(*self.text.allocator(), &self.text)?;
        Ok(TextRow { text, ends })
    }
}
