//! Values as texts.

ghost use Rattle.std.specs.Prelude.{◌≡◌, ◌≢◌, ◌++◌, ◌∷◌, [], codes, string_bytes, IfErr, IfOk, OnOk};
ghost use Rattle.hex.specs.Hex.{encode_lower};
ghost use Rattle.csv.specs.Records.{AllText, fields_of, partial_of};
ghost use Rattle.sqlite_value.specs.Value.{owned};
ghost use Rattle.ruled_database.specs.Tables.{LacksTexts, shown_text};
ghost use Rattle.ruled_database.specs.declared.fault.TableFault.{TableFault};

use crate::fault::TableFault;
use crate::float::float_text;
use itoa::Buffer;
use ruled_row::{RowBuffer, TextRow};
use sqlite_value::value::ValueRef;
use std::alloc::{AllocError, Global};

// Bytes as a literal of SQL.
fn literal_of(alloc: Global, bytes: &[u8]) -> Result<String, AllocError>
    ensures { IfOk result (λ text. string_bytes text ≡ codes "x'" ++ (encode_lower bytes.now ++ codes "'")) }
{
    let mut text = String::from_str(alloc, "x'")?;
    let digits = hex::encode(alloc, bytes)?;
    text.push_str(&digits)?;
    text.push_str("'")?;
    Ok(text)
}

/// Appends a value as a text: a text as it is, a number as SQLite writes it (`12`, `1.0`, `1.5e+20`), NULL as `null`, and
/// a blob as `x'00ff'`.
pub fn push_value(
    alloc: Global,
    texts: &mut RowBuffer,
    null: &[u8],
    value: ValueRef<'_>,
) -> Result<(), AllocError>
    ensures fields { OnOk result (fields_of texts.new ≡ fields_of texts.old ++ ((partial_of texts.old ++ shown_text null.now (owned value.entry)) ∷ [])) }
    ensures partial { OnOk result (partial_of texts.new ≡ []) }
{
    match value {
        ValueRef::Null => texts.push_field(null),
        ValueRef::Int(number) => texts.push_field(Buffer::new().format(number).as_bytes()),
        ValueRef::Real(number) => {
            let text = float_text(alloc, number)?;
            texts.push_field(&text)
        }
        ValueRef::Text(bytes) => texts.push_field(bytes),
        ValueRef::Blob(bytes) => {
            let text = literal_of(alloc, bytes)?;
            texts.push_field(text.as_bytes())
        }
    }
}

/// The texts as a row of this number. One that isn't UTF-8 is a fault.
pub(crate) fn row_of(texts: &RowBuffer, row: usize) -> Result<TextRow, TableFault>
    ensures fields { IfOk result (λ fields. fields_of fields ≡ fields_of texts.now) }
    ensures text { IfOk result (λ fields. AllText (fields_of texts.now)) }
    ensures fault { IfErr result (LacksTexts row (fields_of texts.now)) }
{
    match texts.to_row()? {
        Some(fields) => Ok(fields),
        None => Err(TableFault::Encoding(row)),
    }
}
