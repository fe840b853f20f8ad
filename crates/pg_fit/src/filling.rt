//! Lines that are filled with pieces of a text.

ghost use Rattle.std.specs.Prelude.{◌≡◌, ◌+◌, ◌<◌, ◌≤◌, ◌++◌, MatchOption, flat_map, not, ◌==◌, [], ◌∷◌, ℕ, List, IfOk, length, slice_range, true, string_bytes};
ghost use Rattle.std.specs.List.{list_all, position_or_len};
ghost use Rattle.std.specs.Str.{IsCharBoundary};
ghost use Rattle.pg_layout.specs.Text.{Text, width_of};
ghost use Rattle.unicode_segmentation.specs.Grapheme.{graphemes};
ghost use Rattle.std.specs.List.{join_with_byte};
ghost use Rattle.pg_fit.specs.Controls.{is_printable};
ghost use Rattle.pg_fit.specs.Wrapping.{Piece, filled, characters, words, indented, parted};
ghost use Rattle.pg_fit.specs.Inside.{IsNextWord, words_from};

use crate::controls::is_printable;
use crate::line::{Line, Part, columns_within, line_of, width_of_part};
use std::alloc::{AllocError, Allocator};
use unicode_segmentation::UnicodeSegmentation;

/// Puts a piece of the text on the current line. If the line then doesn't fit, ends and appends it
/// first, and begins the next one with the piece. Returns the current line afterwards.
pub(crate) fn take<W: Allocator>(
    text: &str,
    width: usize,
    printable: bool,
    line: Line,
    piece: Part,
    out: &mut String<W>,
) -> Result<Line, AllocError>
    requires printable { printable ≡ true → list_all is_printable text.now ≡ true }
    requires line { line.begin ≤ line.end }
    requires columns { line.columns ≡ width_of (slice_range text.now line.begin line.end) }
    requires gap { line.end ≤ piece.begin }
    requires piece { piece.begin ≤ piece.end }
    requires line_begin { IsCharBoundary text.now line.begin }
    requires line_end { IsCharBoundary text.now line.end }
    requires piece_begin { IsCharBoundary text.now piece.begin }
    requires piece_end { IsCharBoundary text.now piece.end }
    ensures at_end { IfOk result (λ r. r.end ≡ piece.end) }
    ensures order { IfOk result (λ r. r.begin ≤ piece.end) }
    ensures line_begin { IfOk result (λ r. IsCharBoundary text.now r.begin) }
    ensures line_end { IfOk result (λ r. IsCharBoundary text.now r.end) }
    ensures columns { IfOk result (λ r. r.columns ≡ width_of (slice_range text.now r.begin r.end)) }
    ensures filled { IfOk result (λ r. (ps : List Piece) →
        string_bytes out.new ++ join_with_byte 10 (filled width (slice_range text.now r.begin r.end) ps)
        ≡ string_bytes out.old
        ++ join_with_byte 10 (filled width (slice_range text.now line.begin line.end)
        (record { gap = slice_range text.now line.end piece.begin; text = slice_range text.now piece.begin piece.end } ∷ ps))) }
{
    if line.begin == piece.begin {
        return Ok(line_of(text, printable, piece));
    }
    if let Some(columns) = columns_within(text, width, printable, line, piece.end) {
        return Ok(Line {
            begin: line.begin,
            end: piece.end,
            columns,
        });
    }
    out.push_str(&text[line.begin..line.end])?;
    out.push('\n')?;
    Ok(line_of(text, printable, piece))
}

/// Puts the characters of a part of the text, one after another, on the current line and on further
/// ones.
pub(crate) fn take_characters<W: Allocator>(
    text: &str,
    width: usize,
    printable: bool,
    line: Line,
    piece: Part,
    out: &mut String<W>,
) -> Result<Line, AllocError>
    requires printable { printable ≡ true → list_all is_printable text.now ≡ true }
    requires line { line.begin ≤ line.end }
    requires columns { line.columns ≡ width_of (slice_range text.now line.begin line.end) }
    requires gap { line.end ≤ piece.begin }
    requires piece { piece.begin ≤ piece.end }
    requires line_begin { IsCharBoundary text.now line.begin }
    requires line_end { IsCharBoundary text.now line.end }
    requires piece_begin { IsCharBoundary text.now piece.begin }
    requires piece_end { IsCharBoundary text.now piece.end }
    ensures order { IfOk result (λ r. (r.begin ≤ r.end) × (r.end ≤ piece.end)) }
    ensures at_end { IfOk result (λ r. piece.begin < piece.end → r.end ≡ piece.end) }
    ensures line_begin { IfOk result (λ r. IsCharBoundary text.now r.begin) }
    ensures line_end { IfOk result (λ r. IsCharBoundary text.now r.end) }
    ensures columns { IfOk result (λ r. r.columns ≡ width_of (slice_range text.now r.begin r.end)) }
    ensures filled { IfOk result (λ r. (ps : List Piece) →
        string_bytes out.new ++ join_with_byte 10 (filled width (slice_range text.now r.begin r.end) ps)
        ≡ string_bytes out.old
        ++ join_with_byte 10 (filled width (slice_range text.now line.begin line.end)
        (characters (slice_range text.now line.end piece.begin) (graphemes true (slice_range text.now piece.begin piece.end)) ++ ps))) }
{
    let mut line = line;
    let mut end = piece.begin;
    for character in text[piece.begin..piece.end].graphemes(true) {
        let next = end + character.len();
        line = take(
            text,
            width,
            printable,
            line,
            Part {
                begin: end,
                end: next,
            },
            out,
        )?;
        end = next;
    }
    Ok(line)
}

// How many spaces a text begins with.
fn count_spaces(text: &str) -> usize
    ensures { result ≡ position_or_len (λ b. not (b == 32)) text.now }
{
    let word = text.as_bytes().iter().position(|b| *b != b' ');
    word.unwrap_or(text.len())
}

// How many bytes come before the first space, or how many there are, if there is none.
fn count_word(text: &str) -> usize
    ensures { result ≡ position_or_len (λ b. b == 32) text.now }
{
    let space = text.as_bytes().iter().position(|b| *b == b' ');
    space.unwrap_or(text.len())
}

/// The next word after the last one: what follows spaces, up to the next space. The first word
/// begins with the text.
pub(crate) fn next_word(text: &str, at: usize) -> Option<Part>
    requires { IsCharBoundary text.now at }
    ensures { MatchOption result (words_from text.now at ≡ []) (λ w. IsNextWord text.now at w.begin w.end) }
{
    let rest = &text[at..];
    let gap = count_spaces(rest);
    if gap == rest.len() {
        return None;
    }
    let begin = at + gap;
    let end = begin + count_word(&text[begin..]);
    if at == 0 {
        return Some(Part { begin: 0, end });
    }
    Some(Part { begin, end })
}

/// Puts the words of a text on lines, one after another, and the characters of a word that is wider
/// than a line. Returns the current line afterwards.
pub(crate) fn take_words<W: Allocator>(
    text: &str,
    width: usize,
    out: &mut String<W>,
) -> Result<Line, AllocError>
    ensures order { IfOk result (λ r. (r.begin ≤ r.end) × (r.end ≤ length text.now)) }
    ensures line_begin { IfOk result (λ r. IsCharBoundary text.now r.begin) }
    ensures line_end { IfOk result (λ r. IsCharBoundary text.now r.end) }
    ensures filled { IfOk result (λ r.
        string_bytes out.new ++ join_with_byte 10 (slice_range text.now r.begin r.end ∷ [])
        ≡ string_bytes out.old ++ join_with_byte 10 (filled width [] (flat_map (parted width) (indented (words text.now))))) }
{
    let printable = is_printable(text.as_bytes());
    let mut line = Line {
        begin: 0,
        end: 0,
        columns: 0,
    };
    'words: while let Some(word) = next_word(text, line.end) {
        line = take_word(text, width, printable, line, word, out)?;
    }
    Ok(line)
}

// Puts a word on the current line, or its characters, if it is wider than a line.
fn take_word<W: Allocator>(
    text: &str,
    width: usize,
    printable: bool,
    line: Line,
    word: Part,
    out: &mut String<W>,
) -> Result<Line, AllocError>
    requires printable { printable ≡ true → list_all is_printable text.now ≡ true }
    requires line { line.begin ≤ line.end }
    requires columns { line.columns ≡ width_of (slice_range text.now line.begin line.end) }
    requires gap { line.end ≤ word.begin }
    requires piece { word.begin < word.end }
    requires line_begin { IsCharBoundary text.now line.begin }
    requires line_end { IsCharBoundary text.now line.end }
    requires piece_begin { IsCharBoundary text.now word.begin }
    requires piece_end { IsCharBoundary text.now word.end }
    ensures at_end { IfOk result (λ r. r.end ≡ word.end) }
    ensures order { IfOk result (λ r. r.begin ≤ word.end) }
    ensures line_begin { IfOk result (λ r. IsCharBoundary text.now r.begin) }
    ensures columns { IfOk result (λ r. r.columns ≡ width_of (slice_range text.now r.begin r.end)) }
    ensures filled { IfOk result (λ r. (ps : List Piece) →
        string_bytes out.new ++ join_with_byte 10 (filled width (slice_range text.now r.begin r.end) ps)
        ≡ string_bytes out.old
        ++ join_with_byte 10 (filled width (slice_range text.now line.begin line.end)
        (parted width (record { gap = slice_range text.now line.end word.begin; text = slice_range text.now word.begin word.end }) ++ ps))) }
{
    if width_of_part(text, printable, word) <= width {
        take(text, width, printable, line, word, out)
    } else {
        take_characters(text, width, printable, line, word, out)
    }
}
