//! The shown rows: a record whose fields are shown as they are is taken itself, any other one is
//! made anew.

ghost use Rattle.std.specs.Cow.{cow_str_bytes};
ghost use Rattle.std.specs.Prelude.{◌≡◌, ◌+◌, ◌*◌, ◌<◌, length, map, true, IfOk};
ghost use Rattle.std.specs.List.{list_all};
ghost use Rattle.csv.specs.Records.{fields_of};
ghost use Rattle.pg_layout.specs.Text.{is_plain_byte};
ghost use Rattle.ruled_table.specs.Arranged.{both_ends, ends_of, gap_of, tails};
ghost use Rattle.ruled_table.specs.Shown.{heads, seen_text, shown_text, limit_of};

use crate::columns::field_at;
use crate::escapes::{escaped, is_plain_text};
use crate::options::Options;
use crate::sides::GAP;
use pg_fit::{is_printable, is_visible, visible};
use ruled_row::TextRow;
use std::alloc::{AllocError, Global};
use std::borrow::CowStr;

// Whether a text is shown as it is: it is sent raw, or has no control characters.
#[tactic(auto, using(pg_fit::proofs::LawsOfControls::visible_texts_stay))]
fn is_seen(is_raw: bool, text: &str) -> bool
    ensures { result ≡ true → seen_text is_raw text.now ≡ text.now }
{
    if !is_raw {
        return is_visible(text);
    }
    true
}

// A text with visible control characters, unless it is sent raw.
#[tactic(auto, using(pg_fit::proofs::LawsOfControls::visible_texts_stay))]
fn seen_text(alloc: Global, is_raw: bool, text: &str) -> Result<CowStr<'_>, AllocError>
    ensures { IfOk result (λ seen. cow_str_bytes seen ≡ seen_text is_raw text.now) }
{
    if is_raw {
        return Ok(CowStr::Borrowed(text));
    }
    if is_visible(text) {
        return Ok(CowStr::Borrowed(text));
    }
    Ok(CowStr::Owned(visible(alloc, text)?))
}

/// A text as it is shown: lent if it is unchanged, else made.
pub fn shown_text<'a>(
    alloc: Global,
    options: &Options,
    text: &'a str,
) -> Result<CowStr<'a>, AllocError>
    ensures { IfOk result (λ shown. cow_str_bytes shown ≡ shown_text options.now text.now) }
{
    let seen = seen_text(alloc, options.is_raw, text)?;
    if !options.is_markdown {
        return Ok(seen);
    }
    if is_plain_text(seen.as_str()) {
        return Ok(seen);
    }
    Ok(CowStr::Owned(escaped(alloc, seen.as_str())?))
}

/// Whether a text is shown unchanged.
pub(crate) fn stands(options: &Options, text: &str) -> bool
    ensures { result ≡ true → shown_text options.now text.now ≡ text.now }
{
    if !is_seen(options.is_raw, text) {
        return false;
    }
    if !options.is_markdown {
        return true;
    }
    is_plain_text(text)
}

/// Whether each field of a record is a line of printable ASCII that is shown unchanged. All are tested at once, which
/// costs less than a test of each.
pub(crate) fn is_plain_record(options: &Options, fields: &TextRow) -> bool
    ensures unchanged { result ≡ true → map (shown_text options.now) (fields_of fields.now) ≡ fields_of fields.now }
    ensures plain { result ≡ true → list_all (list_all is_plain_byte) (fields_of fields.now) ≡ true }
{
    if options.is_markdown {
        return false;
    }
    is_printable(fields.text().as_bytes())
}

// Whether each field of a record is shown unchanged, one after another. Out of line, since most records are plain.
#[inline(never)]
fn each_stands(options: &Options, fields: &TextRow) -> bool
    ensures { result ≡ true → map (shown_text options.now) (fields_of fields.now) ≡ fields_of fields.now }
{
    for place in 0..fields.len() {
        if !stands(options, field_at(fields, place)) {
            return false;
        }
    }
    true
}

/// Whether each field of a record is shown unchanged.
pub(crate) fn all_stand(options: &Options, fields: &TextRow) -> bool
    ensures { result ≡ true → map (shown_text options.now) (fields_of fields.now) ≡ fields_of fields.now }
{
    is_plain_record(options, fields) || each_stands(options, fields)
}

/// A record of the texts that are shown of a record's fields.
pub(crate) fn made_record(
    alloc: Global,
    options: &Options,
    fields: &TextRow,
) -> Result<TextRow, AllocError>
    ensures { IfOk result (λ shown. fields_of shown ≡ map (shown_text options.now) (fields_of fields.now)) }
{
    let mut shown = TextRow::new(alloc);
    for place in 0..fields.len() {
        let text = shown_text(alloc, options, field_at(fields, place))?;
        shown.push_field(text.as_str())?;
    }
    Ok(shown)
}

// A record of the shown texts of a record's fields: itself, if each is unchanged.
fn shown_record(alloc: Global, options: &Options, fields: TextRow) -> Result<TextRow, AllocError>
    ensures { IfOk result (λ shown. fields_of shown ≡ map (shown_text options.now) (fields_of fields)) }
{
    if all_stand(options, &fields) {
        return Ok(fields);
    }
    made_record(alloc, options, &fields)
}

/// Records of the texts that are shown of these.
pub fn shown_records(
    alloc: Global,
    options: &Options,
    records: Vec<TextRow>,
) -> Result<Vec<TextRow>, AllocError>
    ensures { IfOk result (λ rows. map fields_of rows.items ≡ map (map (shown_text options.now)) (map fields_of records.items)) }
{
    let mut rows = Vec::with_capacity(alloc, records.len())?;
    for fields in records {
        let row = shown_record(alloc, options, fields)?;
        rows.push(row)?;
    }
    Ok(rows)
}

/// The most rows that [`Options::head`] allows, a header among them, if that is set.
pub fn limit_of(options: &Options) -> Option<usize>
    ensures { result ≡ limit_of options.now }
{
    let rows = options.head? as usize;
    Some(if options.has_header { rows + 1 } else { rows })
}

/// The rows that are shown.
pub(crate) fn heads(options: &Options, rows: Vec<TextRow>) -> Vec<TextRow>
    ensures { map fields_of result.items ≡ heads options.now (map fields_of rows.items) }
{
    let mut heads = rows;
    if let Some(limit) = limit_of(options) {
        heads.truncate(limit);
    }
    heads
}

/// Row 0, and the last rows below it that are shown.
pub(crate) fn tails(options: &Options, rows: Vec<TextRow>) -> Vec<TextRow>
    ensures { map fields_of result.items ≡ tails options.now (map fields_of rows.items) }
{
    let mut tails = rows;
    if let Some(count) = options.tail {
        let end = tails.len().saturating_sub(count as usize);
        if end > 1 {
            tails.drain(1..end);
        }
    }
    tails
}

// A row of `⋮`, as long as this one.
fn gap_of(alloc: Global, row: &TextRow) -> Result<TextRow, AllocError>
    ensures { IfOk result (λ gap. fields_of gap ≡ gap_of (fields_of row.now)) }
{
    let mut gap = TextRow::new(alloc);
    for place in 0..row.len() {
        gap.push_field(GAP)?;
    }
    Ok(gap)
}

// Row 0 and so many rows at both ends of those below it, with a row of `⋮` in place of the others.
fn both_ends(alloc: Global, count: usize, rows: Vec<TextRow>) -> Result<Vec<TextRow>, AllocError>
    requires more { 2 * count + 1 < length rows.items }
    ensures { IfOk result (λ ends. map fields_of ends.items ≡ both_ends count (map fields_of rows.items)) }
{
    let gap = gap_of(alloc, &rows[0])?;
    let mut ends = rows;
    let mut last = ends.split_off(ends.len() - count)?;
    ends.truncate(count + 1);
    ends.push(gap)?;
    ends.append(&mut last)?;
    Ok(ends)
}

/// Row 0, and the rows at both ends of those below it that are shown.
pub(crate) fn ends(
    alloc: Global,
    options: &Options,
    shown: Vec<TextRow>,
) -> Result<Vec<TextRow>, AllocError>
    ensures { IfOk result (λ ends. map fields_of ends.items ≡ ends_of options.now.ends (map fields_of shown.items)) }
{
    match options.ends {
        Some(count) if shown.len() > 2 * count as usize + 1 => {
            both_ends(alloc, count as usize, shown)
        }
        _ => Ok(shown),
    }
}
