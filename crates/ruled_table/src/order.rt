//! The values of numbers, and the order of rows.

ghost use Rattle.std.specs.Prelude.{◌≡◌, ◌+ℤ◌, ◌-ℤ◌, ◌<ℤ◌, ◌^◌, ◌==◌, ◌<◌, ◌≤◌, ◌++◌, ◌∷◌, [], IfOk, OnOk, length, map, neg_ℤ, pos, position, slice_index_or, true};
ghost use Rattle.std.specs.List.{list_all, suffix_len};
ghost use Rattle.std.specs.Ordering.{is_lt};
ghost use Rattle.csv.specs.Records.{fields_of};
ghost use Rattle.ruled_table.specs.Sides.{is_numeric_text};
ghost use Rattle.ruled_table.specs.Order as spec;

use crate::columns::field_at;
use crate::options::Options;
use crate::sides::{is_missing, is_numeric_text};
use pg_table::numbers::{is_number, mark_of, point_of, unsigned, without_percent};
use ruled_row::TextRow;
use std::alloc::{AllocError, Global};
use std::cmp::Ordering;

/// Whether a text begins with a minus.
pub(crate) fn is_negative(text: &[u8]) -> bool
    ensures { result ≡ spec.is_negative text.now }
{
    text.starts_with(b"-") || text.starts_with(&[0xe2, 0x88, 0x92])
}

// A number without its sign and its percent sign.
fn bare(text: &[u8]) -> &[u8]
    ensures { result.now ≡ spec.bare text.now }
{
    without_percent(unsigned(text))
}

// What a number has before an `e`.
fn mantissa_of(text: &[u8]) -> &[u8]
    ensures { result.now ≡ spec.mantissa text.now }
{
    let number = bare(text);
    match mark_of(number) {
        Some(mark) => &number[..mark],
        None => number,
    }
}

/// Whether a number has a digit that isn't 0, except in a power of ten.
pub(crate) fn has_value(text: &[u8]) -> bool
    ensures { result ≡ spec.has_value text.now }
{
    mantissa_of(text)
        .iter()
        .any(|byte| byte.is_ascii_digit() && *byte != b'0')
}

// The number that digits write, or the greatest one.
fn size_of(digits: &[u8]) -> u64
    ensures { result ≡ spec.size_of digits.now }
{
    digits.iter().fold(0, |size: u64, digit| {
        size.saturating_mul(10)
            .saturating_add(u64::from(digit.saturating_sub(b'0')))
    })
}

// A whole number with a sign.
fn signed_size(text: &[u8]) -> i128
    ensures value { result ≡ spec.signed_size text.now }
    ensures above { neg_ℤ (pos (2 ^ 64)) <ℤ result }
    ensures below { result <ℤ pos (2 ^ 64) }
{
    let size = i128::from(size_of(unsigned(text)));
    if is_negative(text) { -size } else { size }
}

// The power of ten behind an `e`.
fn exponent(text: &[u8]) -> i128
    ensures value { result ≡ spec.exponent text.now }
    ensures above { neg_ℤ (pos (2 ^ 64)) <ℤ result }
    ensures below { result <ℤ pos (2 ^ 64) }
{
    let number = bare(text);
    match mark_of(number) {
        Some(mark) => signed_size(&number[mark + 1..]),
        None => signed_size(&[]),
    }
}

// How many digits are behind a point.
fn fraction_len(text: &[u8]) -> usize
    ensures { result ≡ spec.behind_point (position (λ byte. byte == 46) text.now) text.now }
{
    match point_of(text) {
        Some(point) => text.len() - (point + 1),
        None => 0,
    }
}

// How many digits of a number are behind a point, where a percent sign is for two more.
fn scale(text: &[u8]) -> i128
    ensures value { result ≡ pos (spec.scale text.now) }
    ensures below { result <ℤ pos (2 ^ 65) }
{
    let hundredths = if text.ends_with(b"%") { 2 } else { 0 };
    fraction_len(mantissa_of(text)) as i128 + hundredths
}

// The digits of a text from the first one on that isn't 0.
fn digits_of(alloc: Global, text: &[u8]) -> Result<Vec<u8>, AllocError>
    ensures { IfOk result (λ digits. digits.items ≡ spec.digits_of text.now) }
{
    mantissa_of(text)
        .iter()
        .copied()
        .filter(|byte| byte.is_ascii_digit())
        .skip_while(|byte| *byte == b'0')
        .collect(alloc)
}

// How many zeros are at the end of digits.
fn zeros_behind(digits: &[u8]) -> usize
    ensures { result ≡ suffix_len spec.is_zero digits.now }
{
    digits
        .iter()
        .rev()
        .take_while(|byte| **byte == b'0')
        .count()
}

/// Where a text is in the order of a column.
#[derive(Drop)]
struct Rank {
    /// Whether it comes behind all others, whatever the direction.
    is_last: bool,
    /// The sign of a number: -1, 0 or 1.
    sign: i8,
    /// How many digits it has before its point, without zeros in front; the opposite if it is negative.
    power: i128,
    /// What is compared byte by byte.
    digits: Vec<u8>,
}

/// A row, and the rank of its text in a column.
#[derive(Drop)]
struct RankedRow {
    rank: Rank,
    fields: TextRow,
}

// How many of so many digits of a number are before its point.
fn power_of(text: &[u8], digits: usize) -> i128
    ensures value { result ≡ (pos digits +ℤ spec.exponent text.now) -ℤ pos (spec.scale text.now) }
    ensures above { neg_ℤ (pos (2 ^ 70)) <ℤ result }
{
    digits as i128 + exponent(text) - scale(text)
}

// Digits without zeros at the end.
fn without_zeros(digits: Vec<u8>) -> Vec<u8>
    ensures { result.items ≡ spec.without_zeros digits.items }
{
    let mut kept = digits;
    kept.truncate(kept.len().saturating_sub(zeros_behind(&kept)));
    kept
}

// The digits of a negative number: the greatest ones first.
fn falling(alloc: Global, digits: &[u8]) -> Result<Vec<u8>, AllocError>
    ensures { IfOk result (λ falling. falling.items ≡ spec.falling digits.now) }
{
    let mut falling: Vec<u8> = digits
        .iter()
        .map(|digit| 105u8.saturating_sub(*digit))
        .collect(alloc)?;
    falling.push(b':')?;
    Ok(falling)
}

// The rank of a number.
fn rank_of_number(alloc: Global, text: &[u8]) -> Result<Rank, AllocError>
    ensures { IfOk result (λ rank. spec.rank_in rank ≡ spec.rank_of_number text.now) }
{
    let digits = digits_of(alloc, text)?;
    let (is_last, count) = (false, digits.len());
    if count == 0 {
        return Ok(Rank {
            is_last,
            sign: 0,
            power: 0,
            digits: Vec::new(alloc),
        });
    }
    let (power, digits) = (power_of(text, count), without_zeros(digits));
    if is_negative(text) {
        let digits = falling(alloc, &digits)?;
        return Ok(Rank {
            is_last,
            sign: -1,
            power: -power,
            digits,
        });
    }
    Ok(Rank {
        is_last,
        sign: 1,
        power,
        digits,
    })
}

// The rank of a text in a column of numbers: that of a number, or the last one.
fn rank_among_numbers(alloc: Global, options: &Options, text: &str) -> Result<Rank, AllocError>
    ensures { IfOk result (λ rank. spec.rank_in rank ≡ spec.rank_of options.now true text.now) }
{
    if is_number(text) && !is_missing(options, text) {
        return rank_of_number(alloc, text.as_bytes());
    }
    Ok(Rank {
        is_last: true,
        sign: 0,
        power: 0,
        digits: Vec::new(alloc),
    })
}

// The rank of a text in a column.
fn rank_of(
    alloc: Global,
    options: &Options,
    is_numeric: bool,
    text: &str,
) -> Result<Rank, AllocError>
    ensures { IfOk result (λ rank. spec.rank_in rank ≡ spec.rank_of options.now is_numeric text.now) }
{
    if is_numeric {
        return rank_among_numbers(alloc, options, text);
    }
    let digits = Vec::from_slice(alloc, text.as_bytes())?;
    Ok(Rank {
        is_last: false,
        sign: 0,
        power: 0,
        digits,
    })
}

// How two ranks of numbers compare.
fn number_order(a: &Rank, b: &Rank) -> Ordering
    ensures { result ≡ spec.number_order (spec.rank_in a.now) (spec.rank_in b.now) }
{
    let size = a.sign.cmp(&b.sign).then(a.power.cmp(&b.power));
    size.then(a.digits.cmp(&b.digits))
}

// How two ranks compare.
fn order_of(is_descending: bool, a: &Rank, b: &Rank) -> Ordering
    ensures { result ≡ spec.order_of is_descending (spec.rank_in a.now) (spec.rank_in b.now) }
{
    let order = if is_descending {
        number_order(b, a)
    } else {
        number_order(a, b)
    };
    a.is_last.cmp(&b.is_last).then(order)
}

// Rows with the ranks of their texts in a column.
fn ranked(
    alloc: Global,
    options: &Options,
    is_numeric: bool,
    column: usize,
    rows: Vec<TextRow>,
) -> Result<Vec<RankedRow>, AllocError>
    ensures { IfOk result (λ ranked. map spec.row_in ranked.items ≡ map (spec.with_rank options.now is_numeric column) (map fields_of rows.items)) }
{
    let mut ranked = Vec::with_capacity(alloc, rows.len())?;
    for fields in rows {
        let rank = rank_of(alloc, options, is_numeric, field_at(&fields, column))?;
        ranked.push(RankedRow { rank, fields })?;
    }
    Ok(ranked)
}

// Sorts rows by their ranks.
fn sort_ranked(is_descending: bool, rows: &mut Vec<RankedRow>) -> Result<(), AllocError>
    ensures { OnOk result (rows.new.items ≡ spec.sorted_by (λ a b. is_lt (spec.order_of is_descending (spec.rank_in a.rank) (spec.rank_in b.rank))) rows.old.items) }
{
    rows.sort_by(|a, b| order_of(is_descending, &a.rank, &b.rank))?;
    Ok(())
}

// Rows without their ranks.
fn unranked(alloc: Global, rows: Vec<RankedRow>) -> Result<Vec<TextRow>, AllocError>
    ensures { IfOk result (λ unranked. unranked.items ≡ map (λ row. row.fields) rows.items) }
{
    rows.into_iter()
        .map(|RankedRow { rank: _, fields }| fields)
        .collect(alloc)
}

// Whether each row has a number in the column, or a text that counts as blank.
fn have_numbers(options: &Options, rows: &[TextRow], column: usize) -> bool
    ensures { result ≡ list_all (λ fields. is_numeric_text options.now (slice_index_or (fields_of fields) column [])) rows.now }
{
    rows.iter().all(|fields| is_numeric_text(options, field_at(fields, column)))
}

// Rows in the order of a column.
fn in_order(
    alloc: Global,
    options: &Options,
    is_descending: bool,
    column: usize,
    rows: Vec<TextRow>,
) -> Result<Vec<TextRow>, AllocError>
    ensures { IfOk result (λ ordered. map fields_of ordered.items ≡ spec.in_order options.now is_descending column (map fields_of rows.items)) }
{
    let is_numeric = have_numbers(options, &rows, column);
    let mut ranked = ranked(alloc, options, is_numeric, column, rows)?;
    sort_ranked(is_descending, &mut ranked)?;
    unranked(alloc, ranked)
}

/// Rows of which those below a header are in the order of a column.
pub(crate) fn sorted(
    alloc: Global,
    options: &Options,
    is_descending: bool,
    column: usize,
    rows: Vec<TextRow>,
) -> Result<Vec<TextRow>, AllocError>
    requires { 0 < length rows.items }
    ensures { IfOk result (λ sorted. map fields_of sorted.items ≡ spec.sorted options.now is_descending column (map fields_of rows.items)) }
{
    if !options.has_header {
        return in_order(alloc, options, is_descending, column, rows);
    }
    let mut sorted = rows;
    let below = sorted.split_off(1)?;
    let mut ordered = in_order(alloc, options, is_descending, column, below)?;
    sorted.append(&mut ordered)?;
    Ok(sorted)
}
