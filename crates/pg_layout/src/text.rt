//! The lines of a text, how many terminal columns they take, and which of them are blank.

ghost use Rattle.std.specs.Prelude.{◌≡◌, ◌==◌, ◌&&◌, ◌||◌, ◌+◌, ◌<◌, ◌≤◌, ◌-◌, ◌∷◌, [], ℕ, length, slice_index, slice_index_or, option_map};
ghost use Rattle.std.specs.Char.{is_ascii_graphic};
ghost use Rattle.std.specs.Str.{trim};
ghost use Rattle.std.specs.List.{list_all, position_or_len};
ghost use Rattle.std.specs.Iterator.{YieldsFirstRef, item_count};
ghost use Rattle.std.specs.Simd.Lanes.{chunk};
ghost use Rattle.pg_layout.specs.Text.{lines_of, lines_left, width_of, text_width_of, is_blank, first_line_of, is_plain_byte};

use std::marker::Model;
use std::simd::prelude::*;
use unicode_width::UnicodeWidthStr;

/// The remaining lines of a text, as slices of it. [`get_lines`] makes it.
#[derive(Debug, Drop)]
pub struct Lines<'a> {
    rest: Option<&'a str>,
}

impl<'a> Model for Lines<'a> {
    ghost use Rattle.std.specs.Prelude.{List, ℕ, option_map};
    ghost use Rattle.pg_layout.specs.Text.{lines_left};

    ghost Value = { List (List ℕ) };

    ghost view = { λ s. lines_left (option_map (λ x. x.now) s.rest) };
}

impl<'a> Iterator for Lines<'a> {
    type Item = &'a str;

    ghost next_gives = { YieldsFirstRef (λ lines. lines) };

    ghost remaining = { item_count (λ lines. lines) };

    fn next(&mut self) -> Option<&'a str> {
        let (line, rest) = split_first_line(self.rest?);
        self.rest = rest;
        Some(line)
    }
}

/// The lines of a text: it is cut at every line feed, so k line feeds make k + 1 lines, and the
/// empty text has one empty line.
pub fn get_lines(text: &str) -> Lines<'_>
    ensures { result ≡ lines_of text.now }
{
    Lines { rest: Some(text) }
}

/// A line of a text, counted from 0. Precondition: it is less than [`count_lines`] of the text.
pub fn get_line(text: &str, line: usize) -> &str
    requires { line < length (lines_of text.now) }
    ensures { result.now ≡ slice_index_or (lines_of text.now) line [] }
{
    get_lines(text).nth(line).unwrap()
}

/// How many bytes come before the first line feed, or are in the whole text if it has none.
#[inline(always)]
pub(crate) fn first_line_end(text: &str) -> usize
    ensures { result ≡ position_or_len (λ b. b == 10) text.now }
{
    let end = text.as_bytes().iter().position(|b| *b == b'\n');
    end.unwrap_or(text.len())
}

/// The first line of a text, and what follows its line feed if it has one.
#[inline(always)]
fn split_first_line(text: &str) -> (&str, Option<&str>)
    ensures { lines_of text.now ≡ result.0.now ∷ lines_left (option_map (λ x. x.now) result.1) }
{
    let end = first_line_end(text);
    let line = &text[..end];
    if end == text.len() {
        return (line, None);
    }
    (line, Some(&text[end + 1..]))
}

/// How many lines a text has: one more than line feeds.
#[tactic(auto, using(crate::proofs::TextLines::is_feed, crate::proofs::TextLines::numbers_of_lines, std::proofs::lemmas::Iterator::Consumers::count_from_yields_List))]
pub fn count_lines(text: &str) -> usize
    ensures { result ≡ length (lines_of text.now) }
{
    text.as_bytes().iter().filter(|b| **b == b'\n').count() + 1
}

/// Whether each byte is ASCII and no line feed: a text of such bytes is one line, and takes as many
/// columns as it has bytes.
#[inline(always)]
pub fn is_plain(bytes: &[u8]) -> bool
    ensures { result ≡ list_all is_plain_byte bytes.now }
{
    match bytes.len() {
        0..4 => bytes.is_empty() || are_plain_bytes(bytes),
        4..=8 => has_plain_ends::<4>(bytes),
        9..=16 => has_plain_ends::<8>(bytes),
        _ => has_plain_blocks(bytes),
    }
}

// Whether a byte is ASCII and no line feed, for each byte.
#[rattlefmt::skip]
static PLAIN: [bool; 256] = [
    true, true, true, true, true, true, true, true, true, true, false, true, true, true, true, true,
    true, true, true, true, true, true, true, true, true, true, true, true, true, true, true, true,
    true, true, true, true, true, true, true, true, true, true, true, true, true, true, true, true,
    true, true, true, true, true, true, true, true, true, true, true, true, true, true, true, true,
    true, true, true, true, true, true, true, true, true, true, true, true, true, true, true, true,
    true, true, true, true, true, true, true, true, true, true, true, true, true, true, true, true,
    true, true, true, true, true, true, true, true, true, true, true, true, true, true, true, true,
    true, true, true, true, true, true, true, true, true, true, true, true, true, true, true, true,
    false, false, false, false, false, false, false, false, false, false, false, false, false, false, false, false,
    false, false, false, false, false, false, false, false, false, false, false, false, false, false, false, false,
    false, false, false, false, false, false, false, false, false, false, false, false, false, false, false, false,
    false, false, false, false, false, false, false, false, false, false, false, false, false, false, false, false,
    false, false, false, false, false, false, false, false, false, false, false, false, false, false, false, false,
    false, false, false, false, false, false, false, false, false, false, false, false, false, false, false, false,
    false, false, false, false, false, false, false, false, false, false, false, false, false, false, false, false,
    false, false, false, false, false, false, false, false, false, false, false, false, false, false, false, false,
];

// In a short text a table look-up costs less than two comparisons.
#[inline(always)]
fn is_plain_byte(b: u8) -> bool
    ensures { result ≡ is_plain_byte b }
{
    PLAIN[usize::from(b)]
}

// The first, the middle and the last of at most three bytes are all of them.
#[inline(always)]
fn are_plain_bytes(bytes: &[u8]) -> bool
    requires some { 0 < length bytes.now }
    requires few { length bytes.now < 4 }
    ensures { result ≡ list_all is_plain_byte bytes.now }
{
    let ends = is_plain_byte(bytes[0]) & is_plain_byte(bytes[bytes.len() - 1]);
    ends & is_plain_byte(bytes[bytes.len() / 2])
}

// Two blocks, which may overlap, hold a text of at most twice their length.
// Both blocks are tested: a branch between them costs more than the second test.
#[inline(always)]
#[tactic(auto, using(crate::proofs::PlainBytes::all_by_ends, crate::proofs::PlainBytes::same_both))]
fn has_plain_ends<const N: usize>(bytes: &[u8]) -> bool
    requires lanes { N ≤ 64 }
    requires one_block { N ≤ length bytes.now }
    requires two_blocks { length bytes.now ≤ N + N }
    ensures { result ≡ list_all is_plain_byte bytes.now }
{
    is_block_plain::<N>(bytes, 0) & is_block_plain::<N>(bytes, bytes.len() - N)
}

// Out of line, since the texts of most cells are short.
#[inline(never)]
fn has_plain_blocks(bytes: &[u8]) -> bool
    requires { 16 ≤ length bytes.now }
    ensures { result ≡ list_all is_plain_byte bytes.now }
{
    for block in 0..bytes.len() / 16 {
        if !is_block_plain::<16>(bytes, 16 * block) {
            return false;
        }
    }
    is_block_plain::<16>(bytes, bytes.len() - 16)
}

#[inline(always)]
fn is_block_plain<const N: usize>(bytes: &[u8], from: usize) -> bool
    requires lanes { N ≤ 64 }
    requires room { from + N ≤ length bytes.now }
    ensures { result ≡ list_all is_plain_byte (chunk from N bytes.now) }
{
    let block = Simd::<u8, N>::from_slice(&bytes[from..]);
    let feeds = block.simd_eq(Simd::splat(b'\n')).to_bitmask();
    let above = block.simd_gt(Simd::splat(0x7f)).to_bitmask();
    (feeds == 0) & (above == 0)
}

/// How many terminal columns a line takes, by Unicode's rules of widths.
#[inline(always)]
#[tactic(auto, unfolding(crate::specs::Text::width_of), using(crate::proofs::TextLines::plain_widths))]
pub fn get_line_width(line: &str) -> usize
    ensures { result ≡ width_of line.now }
{
    if is_plain(line.as_bytes()) {
        return line.len();
    }
    line.width()
}

/// How many terminal columns the widest line of a text takes.
#[inline(always)]
pub fn get_text_width(text: &str) -> usize
    ensures { result ≡ text_width_of text.now }
{
    if is_plain(text.as_bytes()) {
        return text.len();
    }
    get_lines(text).fold(0, |width, line| width.max(get_line_width(line)))
}

// Whether there are no bytes, or the first and the last are visible ASCII.
#[inline(always)]
fn has_seen_ends(bytes: &[u8]) -> bool
    ensures { result ≡ (length bytes.now == 0 || (is_ascii_graphic (slice_index bytes.now 0) && is_ascii_graphic (slice_index bytes.now (length bytes.now - 1)))) }
{
    bytes.is_empty() || (bytes[0].is_ascii_graphic() && bytes[bytes.len() - 1].is_ascii_graphic())
}

/// A line without the (Unicode) white space at its start and at its end.
#[inline(always)]
#[tactic(auto, using(crate::proofs::TextLines::has_seen_ends, crate::proofs::TextLines::trimmed_lines))]
pub fn trim_line(line: &str) -> &str
    ensures { result.now ≡ trim line.now }
{
    let inner = line.trim_ascii();
    if has_seen_ends(inner.as_bytes()) {
        return inner;
    }
    line.trim()
}

/// Whether a line is empty or made of (Unicode) white space alone.
#[tactic(auto, unfolding(crate::specs::Text::is_blank))]
pub fn is_blank(line: &str) -> bool
    ensures { result ≡ is_blank line.now }
{
    trim_line(line).is_empty()
}

/// The text before the first line feed, less one carriage return directly before that line feed;
/// the whole text if it has no line feed.
pub fn first_line(text: &str) -> &str
    ensures { result.now ≡ first_line_of text.now }
{
    match split_first_line(text) {
        (line, Some(_)) => line.strip_suffix('\r').unwrap_or(line),
        (line, None) => line,
    }
}
