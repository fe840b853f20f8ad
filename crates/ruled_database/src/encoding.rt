//! Texts of databases in UTF-16.

ghost use Rattle.std.specs.Prelude.{◌≡◌, [], ◌∷◌, ◌++◌, map, IfOk, OnOk};
ghost use Rattle.sqlite_value.specs.Value.{owned};
ghost use Rattle.ruled_database.specs.Tables as spec;

use sqlite_value::row::Row;
use sqlite_value::value::ValueRef;
use std::alloc::{AllocError, Global};

/// How a database writes its texts.
#[derive(Clone, Copy)]
pub(crate) enum Encoding {
    Utf8,
    /// In UTF-16, where the low byte of a unit comes first.
    Utf16Low,
    /// In UTF-16, where the high byte of a unit comes first.
    Utf16High,
}

// The units of a text in UTF-16. A last byte without another one is none.
fn units_of(alloc: Global, is_high: bool, mut bytes: &[u8]) -> Result<Vec<u16>, AllocError>
    ensures { IfOk result (λ units. units.items ≡ spec.units_of is_high bytes.entry.now) }
{
    let mut units = Vec::new(alloc);
    while let [first, second, rest @ ..] = bytes {
        let (high, low) = if is_high {
            (*first, *second)
        } else {
            (*second, *first)
        };
        units.push(u16::from(high) * 256 + u16::from(low))?;
        bytes = rest;
    }
    Ok(units)
}

#[tactic(auto, unfolding(crate::specs::Tables::text_of))]
// A text in UTF-8; one that isn't UTF-16 is none.
fn text_of(alloc: Global, is_high: bool, bytes: &[u8]) -> Result<Vec<u8>, AllocError>
    ensures { IfOk result (λ text. text.items ≡ spec.text_of is_high bytes.now) }
{
    let units = units_of(alloc, is_high, bytes)?;
    match String::from_utf16(alloc, &units)? {
        Ok(text) => Ok(text.into_bytes()),
        Err(_) => Vec::from_slice(alloc, &[0xff]),
    }
}

// Appends a value, of which a text is in UTF-16.
fn push_utf8(
    alloc: Global,
    is_high: bool,
    value: ValueRef<'_>,
    values: &mut Row,
) -> Result<(), AllocError>
    ensures { OnOk result (values.new ≡ values.old ++ spec.value_of is_high (owned value.entry) ∷ []) }
{
    match value {
        ValueRef::Text(bytes) => {
            let text = text_of(alloc, is_high, bytes)?;
            values.push(ValueRef::Text(&text))
        }
        other => values.push(other),
    }
}

// These values, with their texts in UTF-8.
fn utf8_of(alloc: Global, is_high: bool, values: &Row) -> Result<Row, AllocError>
    ensures { IfOk result (λ it. it ≡ map (spec.value_of is_high) values.now) }
{
    let mut row = Row::new(alloc);
    for place in 0..values.len() {
        push_utf8(alloc, is_high, values.get(place), &mut row)?;
    }
    Ok(row)
}

impl Encoding {
    /// Puts texts into UTF-8.
    pub(crate) fn to_utf8(self, alloc: Global, values: &mut Row) -> Result<(), AllocError>
        ensures { OnOk result (values.new ≡ spec.in_utf8 self values.old) }
    {
        match self {
            Encoding::Utf8 => {}
            Encoding::Utf16Low => *values = utf8_of(alloc, false, values)?,
            Encoding::Utf16High => *values = utf8_of(alloc, true, values)?,
        }
        Ok(())
    }
}
