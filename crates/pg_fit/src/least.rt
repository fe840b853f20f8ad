//! How narrow a text can be made by wrapping it.

ghost use Rattle.std.specs.Prelude.{◌≡◌, ◌==◌, true, map};
ghost use Rattle.std.specs.List.{list_all};
ghost use Rattle.pg_layout.specs.Text.{greatest};
ghost use Rattle.pg_fit.specs.Controls.{is_printable};
ghost use Rattle.pg_fit.specs.Wrapping.{widest_character, least_line_width, least_width};

use crate::controls::is_printable;
use crate::filling::next_word;
use crate::wrapping::Breaking;
use pg_layout::{get_line_width, get_lines};
use unicode_segmentation::UnicodeSegmentation;

fn widest_character(text: &str) -> usize
    ensures { result ≡ widest_character text.now }
{
    if is_printable(text.as_bytes()) {
        return text.len().min(1);
    }
    let mut width = 0;
    let mut end = 0;
    for character in text.graphemes(true) {
        let next = end + character.len();
        width = get_line_width(&text[end..next]).max(width);
        end = next;
    }
    width
}

// The width of the widest character of a line's words.
#[tactic(auto, using(crate::proofs::LawsOfCuts::boundaries))]
fn widest_in_words(line: &str) -> usize
    ensures { result ≡ least_line_width Breaking.BetweenWords line.now }
{
    let mut width = 0;
    let mut end = 0;
    'words: while let Some(word) = next_word(line, end) {
        width = widest_character(&line[word.begin..word.end]).max(width);
        end = word.end;
    }
    width
}

fn least_line_width(line: &str, breaking: Breaking) -> usize
    ensures { result ≡ least_line_width breaking line.now }
{
    match breaking {
        Breaking::Anywhere => widest_character(line),
        Breaking::BetweenWords => widest_in_words(line),
    }
}

fn is_of_spaces(line: &[u8]) -> bool
    ensures { result ≡ list_all (λ b. b == 32) line.now }
{
    line.iter().all(|b| *b == b' ')
}

// Of a line of printable ASCII: each byte takes one column, so only a line on which nothing is left
// takes none.
fn least_printable_width(line: &[u8], breaking: Breaking) -> usize
    requires { list_all is_printable line.now ≡ true }
    ensures { result ≡ least_line_width breaking line.now }
{
    match breaking {
        Breaking::Anywhere => line.len().min(1),
        Breaking::BetweenWords => { if is_of_spaces(line) { 0 } else { 1 } }
    }
}

/// The least width, in terminal columns, at which no line of the wrapped text is wider: that of its
/// widest character, as a reader counts them. Between words the spaces that are left out don't count.
///
/// ```text
/// least_width("tea", Breaking::Anywhere)     // 1
/// least_width("tea 茶", Breaking::Anywhere)  // 2
/// ```
pub fn least_width(text: &str, breaking: Breaking) -> usize
    ensures { result ≡ least_width breaking text.now }
{
    if is_printable(text.as_bytes()) {
        return least_printable_width(text.as_bytes(), breaking);
    }
    get_lines(text).fold(0, |width, line| {
        least_line_width(line, breaking).max(width)
    })
}
