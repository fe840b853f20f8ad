//! Lines, each of which may hold a record.

ghost use Rattle.std.specs.Prelude.{◌≡◌, ◌==◌, ◌∷◌, ◌++◌, All, count_by, false, map, IfNone, IfOk, IfSome, option_map};
ghost use Rattle.json.specs.Tree.{HasNumbers};
ghost use Rattle.json.specs.Value.{value_view};
ghost use Rattle.ruled_json.specs.Faults.{Tells, line_after, line_fault};
ghost use Rattle.ruled_json.specs.Streamed.{NoFeed};
ghost use Rattle.ruled_json.specs.Rows.{is_blank, lines_of, value_on};

use crate::fault::{JsonFault, Place};
use crate::value::{check_record, value_of};
use json::{Scratch, Value};
use memchr::memchr;
use std::alloc::{AllocError, Global};

/// The bytes before the first line feed and those after it, if there is one.
pub(crate) fn split_line(bytes: &[u8]) -> Option<(&[u8], &[u8])>
    ensures parts { IfSome result (λ parts. bytes.now ≡ parts.0.now ++ 10 ∷ parts.1.now) }
    ensures first { IfSome result (λ parts. NoFeed parts.0.now) }
    ensures none { IfNone result (NoFeed bytes.now) }
{
    let end = memchr(b'\n', bytes)?;
    Some((&bytes[..end], &bytes[end + 1..]))
}

/// What line feeds separate.
pub(crate) fn lines_of(alloc: Global, bytes: &[u8]) -> Result<Vec<&[u8]>, AllocError>
    ensures { IfOk result (λ lines. map (λ line. line.now) lines.items ≡ lines_of bytes.now) }
{
    let mut lines = Vec::new(alloc);
    let mut rest = bytes;
    while let Some((line, behind)) = split_line(rest) {
        lines.push(line)?;
        rest = behind;
    }
    lines.push(rest)?;
    Ok(lines)
}

// Whether a line is blank.
fn is_blank(line: &[u8]) -> bool
    ensures { result ≡ is_blank line.now }
{
    line.iter()
        .all(|byte| matches!(*byte, b' ' | b'\t' | b'\n' | b'\r'))
}

// The first carriage return.
fn first_return(bytes: &[u8]) -> Option<usize>
    ensures { IfNone result (All (λ byte. (byte == 13) ≡ false) bytes.now) }
{
    memchr(b'\r', bytes)
}

// How many carriage returns there are: none in most lines.
#[tactic(auto, using(crate::proofs::Tables::none_counted))]
fn returns_in(bytes: &[u8]) -> usize
    ensures { result ≡ count_by (λ byte. byte == 13) bytes.now }
{
    match first_return(bytes) {
        None => 0,
        Some(_) => bytes.iter().filter(|byte| **byte == b'\r').count(),
    }
}

/// The number of the line after this one, which has this number and ends with a line feed.
pub(crate) fn line_after(number: usize, line: &[u8]) -> usize
    ensures { result ≡ line_after number line.now }
{
    let front = &line[..line.len().saturating_sub(1)];
    let returns = returns_in(front);
    number.saturating_add(returns).saturating_add(1)
}

/// The record on the line of this number, unless the line is blank.
pub(crate) fn record_on<'a>(
    alloc: Global,
    scratch: &'a mut Scratch,
    line: &'a [u8],
    number: usize,
) -> Result<Option<Value<'a>>, JsonFault>
    ensures value { IfOk result (λ found. option_map value_view found ≡ value_on line.now) }
    ensures numbers { IfOk result (λ found. IfSome found (λ value. HasNumbers (value_view value))) }
    ensures fault { Tells (line_fault number line.now) result }
{
    if is_blank(line) {
        return Ok(None);
    }
    let value = value_of(alloc, scratch, line, Place::Line(number))?;
    check_record(&value, Place::Line(number))?;
    Ok(Some(value))
}
