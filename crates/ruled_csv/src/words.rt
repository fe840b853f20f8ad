//! The words of a line.

ghost use Rattle.std.specs.Prelude.{◌≡◌, ◌<◌, ◌≤◌, length, position, IfOk, IfSome, option_map};
ghost use Rattle.std.specs.Char.{is_ascii_whitespace};
ghost use Rattle.csv.specs.Records.{fields_of};
ghost use Rattle.ruled_csv.specs.Inside.{line_of};
ghost use Rattle.ruled_csv.specs.Rows as spec;

use ruled_row::RowBuffer;
use std::alloc::{AllocError, Global};

// Where the first white space is.
fn first_space(text: &[u8]) -> Option<usize>
    ensures place { result ≡ position is_ascii_whitespace text.now }
    ensures within { IfSome result (λ place. place < length text.now) }
{
    text.iter().position(|byte| byte.is_ascii_whitespace())
}

// How many bytes the first of so many words has.
fn word_len(count: usize, text: &[u8]) -> usize
    ensures len { result ≡ spec.word_len count text.now }
    ensures within { result ≤ length text.now }
{
    if count == 1 {
        return text.len();
    }
    first_space(text).unwrap_or(text.len())
}

// The words of a text that begins with one, at most so many.
#[tactic(auto, using(crate::proofs::Scans::words_enough, crate::proofs::Scans::words_all))]
fn words_of(alloc: Global, most: usize, text: &[u8]) -> Result<RowBuffer, AllocError>
    ensures { IfOk result (λ row. fields_of row ≡ spec.words_of most text.now) }
{
    let mut row = RowBuffer::new(alloc);
    let (mut rest, mut count) = (text, most);
    while count > 0 {
        if rest.is_empty() {
            return Ok(row);
        }
        let len = word_len(count, rest);
        row.push_field(&rest[..len])?;
        rest = rest[len..].trim_ascii_start();
        count -= 1;
    }
    Ok(row)
}

// The line that these fields are the parts of, between tabs.
#[tactic(auto, using(crate::proofs::Scans::line_all))]
fn line_of(alloc: Global, fields: &RowBuffer) -> Result<Vec<u8>, AllocError>
    ensures { IfOk result (λ line. line.items ≡ line_of (fields_of fields.now)) }
{
    let mut line = Vec::new(alloc);
    let mut place = 0;
    while let Some(field) = fields.get(place) {
        if place > 0 {
            line.push(b'\t')?;
        }
        line.extend_from_slice(field)?;
        place += 1;
    }
    Ok(line)
}

/// The words of the line that these fields are the parts of, between tabs, if it has any: at most as
/// many as there are columns, if that is known.
#[tactic(auto, using(crate::proofs::Scans::line_empty))]
pub(crate) fn words_in(
    alloc: Global,
    columns: Option<usize>,
    fields: &RowBuffer,
) -> Result<Option<RowBuffer>, AllocError>
    ensures words { IfOk result (λ words. option_map fields_of words ≡ spec.words_in columns (line_of (fields_of fields.now))) }
{
    let line = line_of(alloc, fields)?;
    let text = line.trim_ascii();
    if text.is_empty() {
        return Ok(None);
    }
    let words = words_of(alloc, columns.unwrap_or(text.len()), text)?;
    Ok(Some(words))
}
