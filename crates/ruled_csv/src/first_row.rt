//! What comes before the first row of a text.

ghost use Rattle.std.specs.Prelude.{◌≡◌, ◌≤◌, ◌∷◌, ◌||◌, [], drop, length, nat_le};
ghost use Rattle.csv.specs.Reading.{strip_bom};
ghost use Rattle.ruled_csv.specs.Quotes.{is_comment};
ghost use Rattle.ruled_csv.specs.Kept as spec;

use crate::dialect::RowRules;
use crate::lines::{Lines, ends_line};

// Whether this byte of a line that holds no row so far is in one that is left out.
fn is_out(rules: RowRules, line: usize, is_left_out: bool, byte: u8) -> bool
    ensures { result ≡ (is_left_out || (nat_le line rules.skipped || is_comment rules.comment (byte ∷ []))) }
{
    is_left_out || rules.leave_out(line, byte)
}

// Where the first line begins that holds a row; the end, if there is none.
fn first_row(rules: RowRules, text: &[u8]) -> usize
    ensures within { result ≤ length text.now }
    ensures rest { drop result text.now ≡ spec.from_first_row rules text.now }
{
    let (mut lines, mut is_left_out) = (Lines::new(), false);
    for (at, byte) in text.iter().enumerate() {
        if ends_line(*byte) {
            is_left_out = false;
        } else if is_out(rules, lines.line(), is_left_out, *byte) {
            is_left_out = true;
        } else {
            return at;
        }
        lines = lines.after(*byte);
    }
    text.len()
}

/// A text from its first line on that holds a row: that is neither empty nor left out.
pub fn from_first_row(rules: RowRules, text: &[u8]) -> &[u8]
    ensures { result.now ≡ spec.from_first_row rules text.now }
{
    &text[first_row(rules, text)..]
}

/// The bytes without a byte order mark at the front.
#[tactic(auto, using(crate::proofs::Scans::no_mark, crate::proofs::Scans::with_mark))]
pub fn without_mark(bytes: &[u8]) -> &[u8]
    ensures { result.now ≡ strip_bom bytes.now }
{
    match bytes.strip_prefix(&[0xef, 0xbb, 0xbf]) {
        Some(rest) => rest,
        None => bytes,
    }
}
