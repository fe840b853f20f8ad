//! Control characters, which a terminal obeys, as visible characters.

ghost use Rattle.std.specs.Prelude.{◌≡◌, ◌+◌, ◌≤◌, false, true, length, IfOk, string_bytes, not, chars};
ghost use Rattle.std.specs.Simd.Lanes.{chunk};
ghost use Rattle.std.specs.List.{list_all};
ghost use Rattle.pg_fit.specs.Controls.{is_hidden, is_control, sign_of, visible_text, is_printable};

use std::alloc::{AllocError, Allocator};
use std::simd::prelude::*;

// Whether a character isn't shown, and hides or turns what is beside it.
fn is_hidden(c: char) -> bool
    ensures { result ≡ is_hidden c }
{
    matches!(
        c,
        '\u{ad}'
            | '\u{61c}'
            | '\u{180e}'
            | '\u{200b}'
            | '\u{200e}'..='\u{200f}'
            | '\u{2028}'..='\u{202e}'
            | '\u{2060}'..='\u{206f}'
            | '\u{feff}'
            | '\u{fff9}'..='\u{fffb}'
            | '\u{e0000}'..='\u{e007f}'
    )
}

// Whether a character is in one of the ranges that have most letters, and nothing that a terminal
// obeys or hides. Fewer comparisons tell that.
fn is_common(c: char) -> bool
    ensures { result ≡ true → is_control c ≡ false }
{
    matches!(
        c,
        ' '..='~' | '\u{ae}'..='\u{61b}' | '\u{61d}'..='\u{180d}' | '\u{2070}'..='\u{fefe}'
    )
}

// Whether a terminal obeys or hides a character: those below a space except the line feed, DEL,
// those from U+0080 to U+009F, and hidden ones.
fn is_control(c: char) -> bool
    ensures { result ≡ is_control c }
{
    if is_common(c) {
        return false;
    }
    c != '\n' && (c < ' ' || ('\u{7f}'..='\u{9f}').contains(&c) || is_hidden(c))
}

/// The character for a character in a visible text (see [`visible`]).
pub fn sign_of(c: char) -> char
    ensures { result ≡ sign_of c }
{
    if !is_control(c) {
        return c;
    }
    let code = c as u32;
    if code < 0x20 {
        return char::from_u32(0x2400 + code).unwrap();
    }
    if code == 0x7f { '␡' } else { '�' }
}

/// Whether a text may be sent to a terminal as it is: it has no control character except line
/// feeds, and no hidden character (see [`visible`]).
#[tactic(auto, using(crate::proofs::LawsOfControls::printable_texts_are_seen))]
pub fn is_visible(text: &str) -> bool
    ensures { result ≡ list_all (λ c. not (is_control c)) (chars text.now) }
{
    is_printable(text.as_bytes()) || text.chars().all(|c| !is_control(c))
}

/// Whether each byte is a printable ASCII character, as in nearly all texts of tables: such a text
/// is visible and plain ([`is_visible`], [`pg_layout::is_plain`]).
// Comparing bytes in blocks costs less than comparing characters. Two blocks, which may overlap,
// hold a text of at most twice their length.
#[inline(always)]
pub fn is_printable(bytes: &[u8]) -> bool
    ensures { result ≡ list_all is_printable bytes.now }
{
    match bytes.len() {
        0..4 => bytes.iter().all(|b| *b >= b' ' && *b <= b'~'),
        4..=8 => has_printable_ends::<4>(bytes),
        9..=16 => has_printable_ends::<8>(bytes),
        _ => has_printable_blocks(bytes),
    }
}

// Both blocks are tested: a branch between them costs more than the second test.
#[inline(always)]
#[tactic(auto, using(pg_layout::proofs::PlainBytes::all_by_ends, pg_layout::proofs::PlainBytes::same_both))]
fn has_printable_ends<const N: usize>(bytes: &[u8]) -> bool
    requires lanes { N ≤ 64 }
    requires one_block { N ≤ length bytes.now }
    requires two_blocks { length bytes.now ≤ N + N }
    ensures { result ≡ list_all is_printable bytes.now }
{
    is_block_printable::<N>(bytes, 0) & is_block_printable::<N>(bytes, bytes.len() - N)
}

// Out of line, since the texts of most cells are short.
#[inline(never)]
fn has_printable_blocks(bytes: &[u8]) -> bool
    requires { 16 ≤ length bytes.now }
    ensures { result ≡ list_all is_printable bytes.now }
{
    for block in 0..bytes.len() / 16 {
        if !is_block_printable::<16>(bytes, 16 * block) {
            return false;
        }
    }
    is_block_printable::<16>(bytes, bytes.len() - 16)
}

#[inline(always)]
fn is_block_printable<const N: usize>(bytes: &[u8], from: usize) -> bool
    requires lanes { N ≤ 64 }
    requires room { from + N ≤ length bytes.now }
    ensures { result ≡ list_all is_printable (chunk from N bytes.now) }
{
    let block = Simd::<u8, N>::from_slice(&bytes[from..]);
    let below = block.simd_lt(Simd::splat(b' ')).to_bitmask();
    let above = block.simd_gt(Simd::splat(b'~')).to_bitmask();
    (below == 0) & (above == 0)
}

/// A text with visible control characters, each as a character that takes one column, so that a
/// terminal doesn't obey them: `␀` to `␟` for those below a space, such as a tab (`␉`), a carriage
/// return (`␍`) and an escape (`␛`), `␡` for DEL, and `�` for those from U+0080 to U+009F. `�` is
/// also shown for hidden characters, which turn or hide what is beside them: U+00AD, U+061C,
/// U+180E, U+200B, U+200E, U+200F, U+2028 to U+202E, U+2060 to U+206F, U+FEFF, U+FFF9 to U+FFFB,
/// and tags (U+E0000 to U+E007F). Joiners and variation selectors stay, since emoji and letters
/// need them. Lines stay lines. A text without these characters stays, byte for byte
/// ([`is_visible`] tests it).
///
/// ```text
/// visible(alloc, "\tred: \x1b[31m\r\n")? // "␉red: ␛[31m␍\n"
/// visible(alloc, "a\u{202e}b")?            // "a�b"
/// ```
pub fn visible<A: Allocator>(alloc: A, text: &str) -> Result<String<A>, AllocError>
    ensures { IfOk result (λ shown. string_bytes shown ≡ visible_text text.now) }
{
    if is_visible(text) {
        let same = String::from_str(alloc, text)?;
        return Ok(same);
    }
    let shown = text.chars().map(|c| sign_of(c)).collect(alloc)?;
    Ok(shown)
}
