//! Rows that are read field by field.

ghost use Rattle.std.specs.Prelude.{◌≡◌, ◌≢◌, ◌<◌, ◌≤◌, ◌+◌, ◌-◌, ◌^◌, ◌∷◌, ◌++◌, [], false, true, length, option_map, IfNone, IfOk, IfSome, OnErr, OnOk};
ghost use Rattle.csv.specs.Records.{AllText, field_at, field_count, fields_of, partial_of};
ghost use Rattle.ruled_row.specs.Cuts.{AreCuts};
ghost use Rattle.ruled_row.specs.Rows.{IsWhole, ended_of};

use crate::ends::{Ends, kept_place, part_of};
use crate::row::TextRow;
use std::alloc::{AllocError, Global};
use std::marker::Model;
use std::str;

// Adds a place.
fn push_end(ends: &mut Vec<u32>, end: usize) -> Result<(), AllocError>
    ensures ok { OnOk result (ends.new.items ≡ ends.old.items ++ end ∷ []) }
    ensures err { OnErr result (ends.new.items ≡ ends.old.items) }
{
    ends.push(kept_place(end)?)?;
    Ok(())
}

// Whether a text may be cut at each of these places.
fn are_cuts(text: &str, places: &[u32]) -> bool
    ensures cuts { result ≡ true → AreCuts text.now places.now }
    ensures not { result ≡ false → ¬ (AreCuts text.now places.now) }
{
    for place in places {
        if !text.is_char_boundary(*place as usize) {
            return false;
        }
    }
    true
}

/// The fields of a row that is being read, and behind them what was read of one that hasn't ended: any bytes. It is kept
/// for the next row, so that reading allocates for the rows alone.
pub struct RowBuffer {
    bytes: Vec<u8>,
    ends: Vec<u32>,
}

// Written out, like that of [`TextRow`].
impl Drop for RowBuffer {
    fn drop(self) {
        let RowBuffer { bytes, ends } = self;
        drop((bytes, ends));
    }
}

impl Model for RowBuffer {
    ghost use Rattle.csv.specs.Records.{IsRecord, Row};

    ghost Value = { Row };

    ghost use Rattle.ruled_row.specs.Rows.{buffer_of};

    ghost view = { buffer_of };

    ghost invariant = { λ a. IsRecord (buffer_of a) };
}

impl RowBuffer {
    /// No fields.
    #[tactic(auto, using(crate::proofs::RowFacts::fields_none, crate::proofs::RowFacts::partial_none, crate::proofs::RowFacts::record_none))]
    pub fn new(alloc: Global) -> RowBuffer
        ensures fields { fields_of result ≡ [] }
        ensures partial { partial_of result ≡ [] }
    {
        RowBuffer {
            bytes: Vec::new(alloc),
            ends: Vec::new(alloc),
        }
    }

    /// How many fields have ended.
    #[tactic(auto, using(crate::proofs::RowFacts::field_count))]
    pub fn len(&self) -> usize
        ensures count { result ≡ length (fields_of self.now) }
    {
        self.ends.len()
    }

    /// The field at this place, if there is one.
    pub fn get(&self, place: usize) -> Option<&[u8]>
        ensures place { IfSome result (λ _. (place < field_count self.now) × (place + 1 ≤ 2 ^ 64 - 1)) }
        ensures value { option_map (λ field. field.now) result ≡ field_at (fields_of self.now) place }
    {
        match part_of(&self.ends, place) {
            Some((start, end)) => Some(&self.bytes[start..end]),
            None => None,
        }
    }

    /// Whether it has no bytes and no fields.
    pub fn is_empty(&self) -> bool
        ensures fields { result ≡ true → fields_of self.now ≡ [] }
        ensures partial { result ≡ true → partial_of self.now ≡ [] }
        ensures some { result ≡ false → fields_of self.now ≡ [] → partial_of self.now ≢ [] }
    {
        self.bytes.is_empty() && self.ends.is_empty()
    }

    /// Takes all fields away.
    #[tactic(auto, using(crate::proofs::RowFacts::fields_none, crate::proofs::RowFacts::partial_none, crate::proofs::RowFacts::record_none))]
    pub fn clear(&mut self)
        ensures fields { fields_of self.new ≡ [] }
        ensures partial { partial_of self.new ≡ [] }
    {
        self.bytes.clear();
        self.ends.clear();
    }

    /// Adds bytes to the field that hasn't ended. Out of memory leaves it as it was.
    #[inline(always)]
    #[tactic(auto, using(crate::proofs::RowFacts::fields_stay, crate::proofs::RowFacts::partial_more, crate::proofs::RowFacts::record_more))]
    pub fn push_bytes(&mut self, bytes: &[u8]) -> Result<(), AllocError>
        ensures fields { fields_of self.new ≡ fields_of self.old }
        ensures partial { OnOk result (partial_of self.new ≡ partial_of self.old ++ bytes.now) }
        ensures err { OnErr result (self.new ≡ self.old) }
    {
        self.bytes.extend_from_slice(bytes)
    }

    /// Ends the field. Out of memory leaves it as it was.
    #[inline(always)]
    #[tactic(auto, using(crate::proofs::RowFacts::fields_end, crate::proofs::RowFacts::partial_end, crate::proofs::RowFacts::record_end))]
    pub fn end_field(&mut self) -> Result<(), AllocError>
        ensures fields { OnOk result (fields_of self.new ≡ fields_of self.old ++ (partial_of self.old ∷ [])) }
        ensures partial { OnOk result (partial_of self.new ≡ []) }
        ensures err { OnErr result (self.new ≡ self.old) }
    {
        push_end(&mut self.ends, self.bytes.len())
    }

    /// Adds bytes to the field, and ends it. Out of memory leaves it as it was.
    pub fn push_field(&mut self, field: &[u8]) -> Result<(), AllocError>
        ensures fields { OnOk result (fields_of self.new ≡ fields_of self.old ++ ((partial_of self.old ++ field.now) ∷ [])) }
        ensures partial { OnOk result (partial_of self.new ≡ []) }
        ensures err { OnErr result (self.new ≡ self.old) }
    {
        let start = self.bytes.len();
        self.bytes.extend_from_slice(field)?;
        match push_end(&mut self.ends, self.bytes.len()) {
            Ok(()) => Ok(()),
            Err(error) => {
                self.bytes.truncate(start);
                Err(error)
            }
        }
    }

    // The bytes of all fields that have ended.
    fn ended(&self) -> &[u8]
        ensures bytes { result.now ≡ (ended_of self.now).bytes }
        ensures whole { IsWhole (ended_of self.now) }
        ensures fields { fields_of (ended_of self.now) ≡ fields_of self.now }
    {
        match self.ends.last() {
            Some(end) => &self.bytes[..*end as usize],
            None => &[],
        }
    }

    // The text of all fields, if each is UTF-8. Most texts are ASCII, and a test for that costs less.
    fn text(&self) -> Option<&str>
        ensures some { IfSome result (λ text. text.now ≡ (ended_of self.now).bytes) }
        ensures fields { IfSome result (λ _. AllText (fields_of self.now)) }
        ensures none { IfNone result (¬ (AllText (fields_of self.now))) }
    {
        let bytes = self.ended();
        if bytes.is_ascii() {
            return Some(unsafe { str::from_utf8_unchecked(bytes) });
        }
        match str::from_utf8(bytes) {
            Ok(text) => {
                if are_cuts(text, &self.ends) {
                    return Some(text);
                }
                None
            }
            Err(_) => None,
        }
    }

    /// A row of these fields with no more memory than they need, if each is UTF-8.
    pub fn to_row(&self) -> Result<Option<TextRow>, AllocError>
        ensures same { IfOk result (λ found. IfSome found (λ row. fields_of row ≡ fields_of self.now)) }
        ensures text { IfOk result (λ found. IfSome found (λ row. AllText (fields_of row))) }
        ensures none { IfOk result (λ found. IfNone found (¬ (AllText (fields_of self.now)))) }
    {
        match self.text() {
            Some(text) => {
                let alloc = *self.bytes.allocator();
                let ends = Ends::at(alloc, &self.ends)?;
                let text = String::from_str(alloc, text)?;
                Ok(Some(TextRow { text, ends }))
            }
            None => Ok(None),
        }
    }
}
