//! A line that is being filled with pieces of a text, and how many columns it takes.

ghost use Rattle.std.specs.Prelude.{◌≡◌, ◌<◌, ◌≤◌, true, chars, slice_range, MatchOption};
ghost use Rattle.std.specs.List.{list_all};
ghost use Rattle.std.specs.Str.{IsCharBoundary};
ghost use Rattle.pg_layout.specs.Text.{width_of};
ghost use Rattle.pg_fit.specs.Inside.{adds_up};
ghost use Rattle.pg_fit.specs.Controls.{is_printable, letter_columns, letters_width};

use crate::controls::is_printable;
use pg_layout::get_line_width;

/// A part of a text, from one byte up to another.
#[derive(Debug, Clone, Copy)]
pub(crate) struct Part {
    pub(crate) begin: usize,
    pub(crate) end: usize,
}

/// A part of a text that is a line, and how many columns it takes.
#[derive(Debug, Clone, Copy)]
pub(crate) struct Line {
    pub(crate) begin: usize,
    pub(crate) end: usize,
    pub(crate) columns: usize,
}

/// How many columns a part of a text takes: of a printable text as many as it has bytes.
#[inline(always)]
pub(crate) fn width_of_part(text: &str, printable: bool, part: Part) -> usize
    requires printable { printable ≡ true → list_all is_printable text.now ≡ true }
    requires order { part.begin ≤ part.end }
    requires begin { IsCharBoundary text.now part.begin }
    requires end { IsCharBoundary text.now part.end }
    ensures { result ≡ width_of (slice_range text.now part.begin part.end) }
{
    if printable {
        part.end - part.begin
    } else {
        get_line_width(&text[part.begin..part.end])
    }
}

/// The line of a piece alone.
pub(crate) fn line_of(text: &str, printable: bool, piece: Part) -> Line
    requires printable { printable ≡ true → list_all is_printable text.now ≡ true }
    requires order { piece.begin ≤ piece.end }
    requires begin { IsCharBoundary text.now piece.begin }
    requires end { IsCharBoundary text.now piece.end }
    ensures begin { result.begin ≡ piece.begin }
    ensures end { result.end ≡ piece.end }
    ensures columns { result.columns ≡ width_of (slice_range text.now piece.begin piece.end) }
{
    Line {
        begin: piece.begin,
        end: piece.end,
        columns: width_of_part(text, printable, piece),
    }
}

/// How many columns a line takes with what follows it up to a byte, if these are at most so many.
/// Only what follows the line is measured if its characters add up, so that a line of n pieces
/// isn't measured n times.
pub(crate) fn columns_within(
    text: &str,
    width: usize,
    printable: bool,
    line: Line,
    end: usize,
) -> Option<usize>
    requires printable { printable ≡ true → list_all is_printable text.now ≡ true }
    requires line { line.begin ≤ line.end }
    requires order { line.end ≤ end }
    requires line_begin { IsCharBoundary text.now line.begin }
    requires line_end { IsCharBoundary text.now line.end }
    requires end { IsCharBoundary text.now end }
    requires columns { line.columns ≡ width_of (slice_range text.now line.begin line.end) }
    ensures { MatchOption result (width < width_of (slice_range text.now line.begin end)) (λ n. (n ≡ width_of (slice_range text.now line.begin end)) × (n ≤ width)) }
{
    let more = &text[line.end..end];
    if printable || !adds_up(more) {
        let whole = Part {
            begin: line.begin,
            end,
        };
        let columns = width_of_part(text, printable, whole);
        return if columns <= width {
            Some(columns)
        } else {
            None
        };
    }
    let Some(room) = width.checked_sub(line.columns) else {
        return None;
    };
    let own = get_line_width(more);
    if own <= room {
        Some(line.columns + own)
    } else {
        None
    }
}

/// Whether each character of a text adds its own width to that of any text before it.
#[tactic(auto, using(crate::proofs::LawsOfControls::printable_texts_add_up))]
pub(crate) fn adds_up(text: &str) -> bool
    ensures { result ≡ list_all adds_up (chars text.now) }
{
    is_printable(text.as_bytes()) || text.chars().all(|c| is_additive(c))
}

fn is_additive(c: char) -> bool
    ensures { result ≡ adds_up c }
{
    matches!(
        c,
        ' '..='~'
            | '\u{a1}'..='\u{337}'
            | '\u{339}'..='\u{5db}'
            | '\u{883}'..='\u{177f}'
            | '\u{1a11}'..='\u{2319}'
            | '\u{2e80}'..='\u{a4cf}'
            | '\u{ac00}'..='\u{d7a3}'
            | '\u{f900}'..='\u{faff}'
            | '\u{ff00}'..='\u{ffef}'
    )
}

// How many columns a letter takes beside any others, or 0 for another character.
#[inline(always)]
fn letter_columns(c: char) -> usize
    ensures { result ≡ letter_columns c }
{
    match c {
        ' '..='~'
        | '\u{ae}'..='\u{2ff}'
        | '\u{370}'..='\u{482}'
        | '\u{48a}'..='\u{590}'
        | '\u{1e00}'..='\u{1eff}'
        | '\u{2010}'..='\u{2027}'
        | '\u{20a0}'..='\u{20bf}' => 1,
        '\u{3000}'..='\u{3029}'
        | '\u{3041}'..='\u{3096}'
        | '\u{309b}'..='\u{30ff}'
        | '\u{4e00}'..='\u{9fff}'
        | '\u{ac00}'..='\u{d7a3}'
        | '\u{ff01}'..='\u{ff60}' => 2,
        _ => 0,
    }
}

/// How many terminal columns a text takes, if it has nothing but letters, digits and signs that take
/// one or two columns each, whatever stands beside them: printable ASCII, Latin, Greek, Cyrillic and
/// Armenian, dashes and quotation marks, signs of currencies, and the characters of Chinese, Japanese
/// and Korean. Such a text is one line, and visible ([`crate::is_visible`]). One walk tells all that.
pub fn letters_width(text: &str) -> Option<usize>
    ensures { result ≡ letters_width text.now }
{
    if is_printable(text.as_bytes()) {
        return Some(text.len());
    }
    let mut width = 0usize;
    for c in text.chars() {
        let columns = letter_columns(c);
        if columns == 0 {
            return None;
        }
        width = width.saturating_add(columns);
    }
    Some(width)
}
