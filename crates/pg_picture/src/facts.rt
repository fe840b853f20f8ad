//! What is known of a text before it is placed: its kind, its blank lines, its shown lines and its width.

ghost use Rattle.std.specs.Prelude.{◌≡◌, ◌↔◌, ◌==◌, ◌&&◌, ◌+◌, ◌<◌, ◌∷◌, [], IfSome, length, map, not};
ghost use Rattle.std.specs.List.{list_all};
ghost use Rattle.pg_layout.specs.Text.{lines_of, width_of, greatest, is_blank, is_plain_byte};
ghost use Rattle.pg_layout.specs.Records.{text_at};
ghost use Rattle.pg_picture.specs.Pieces.{trimmed_if};
ghost use Rattle.pg_picture.specs.Inside.{IsOfKind, with_line, empty_lines_of, facts_of};

use pg_layout::{
    Formatting, PeekableRecords, Position, get_line_width, get_lines, get_text_width, is_blank,
    is_plain, trim_line,
};
use unicode_width::UnicodeWidthStr;

/// What is known of a text without reading it again.
#[derive(Debug, Clone, Copy, PartialEq, Eq)]
pub enum TextKind {
    /// It is ASCII without line feeds ([`pg_layout::is_plain`]).
    Plain,
    /// It may be any text.
    Any,
}

impl TextKind {
    /// What is known of both of two texts.
    #[inline(always)]
    pub fn and(self, other: TextKind) -> TextKind
        ensures { (result ≡ TextKind.Plain) ↔ (self ≡ TextKind.Plain) × (other ≡ TextKind.Plain) }
    {
        match self {
            TextKind::Plain => other,
            TextKind::Any => TextKind::Any,
        }
    }
}

/// How many of the lines read so far are blank at the start, are blank at the end, and lie between.
#[derive(Debug, Clone, Copy)]
struct BlankEnds {
    shown: usize,
    top: usize,
    bottom: usize,
}

impl BlankEnds {
    fn with_line(self, is_blank: bool) -> BlankEnds
        requires { self.shown + self.top + self.bottom < usize.MAX }
        ensures { result ≡ with_line self is_blank }
    {
        let BlankEnds { shown, top, bottom } = self;
        if !is_blank {
            return BlankEnds {
                shown: shown + bottom + 1,
                top,
                bottom: 0,
            };
        }
        if shown == 0 {
            return BlankEnds {
                shown,
                top: top + 1,
                bottom,
            };
        }
        BlankEnds {
            shown,
            top,
            bottom: bottom + 1,
        }
    }
}

/// How many lines a text has from the first to the last one that isn't blank, how many blank ones
/// before them, and how many after them. An all-blank text of k lines gives (0, k, 0).
pub fn count_empty_lines(text: &str) -> (usize, usize, usize)
    ensures { result ≡ empty_lines_of (lines_of text.now) }
{
    let mut ends = BlankEnds {
        shown: 0,
        top: 0,
        bottom: 0,
    };
    for line in get_lines(text) {
        ends = ends.with_line(is_blank(line));
    }
    (ends.shown, ends.top, ends.bottom)
}

/// A line, trimmed of (Unicode) white space at both ends if `trim` is set.
#[inline(always)]
#[tactic(auto, unfolding(crate::specs::Pieces::trimmed_if))]
pub(crate) fn trim_if(line: &str, trim: bool) -> &str
    ensures { result.now ≡ trimmed_if trim line.now }
{
    if trim { trim_line(line) } else { line }
}

// Whether a line is left out at the start and at the end of its text, and how many terminal columns
// it takes. It is trimmed once for both.
#[inline(always)]
#[tactic(auto, unfolding(crate::specs::Pieces::trimmed_if, pg_layout::specs::Text::is_blank))]
fn line_facts(line: &str, formatting: Formatting) -> (bool, usize)
    ensures left_out { result.0 ≡ (formatting.vertical_trim && is_blank line.now) }
    ensures width { result.1 ≡ width_of (trimmed_if formatting.horizontal_trim line.now) }
{
    if !formatting.horizontal_trim && !formatting.vertical_trim {
        return (false, get_line_width(line));
    }
    let trimmed = trim_line(line);
    let is_left_out = formatting.vertical_trim && trimmed.is_empty();
    let shown = if formatting.horizontal_trim {
        trimmed
    } else {
        line
    };
    (is_left_out, get_line_width(shown))
}

/// How many terminal columns a text of one line takes; nothing if it has more lines. A text that is
/// known to be plain isn't read.
#[inline(always)]
#[tactic(auto, using(crate::proofs::Rulesets::plain_texts))]
pub(crate) fn single_line_width(text: &str, kind: TextKind) -> Option<usize>
    requires { IsOfKind kind text.now }
    ensures one { IfSome result (λ _. lines_of text.now ≡ text.now ∷ []) }
    ensures width { IfSome result (λ width. width ≡ width_of text.now) }
{
    if is_plain_text(text, kind) {
        return Some(text.len());
    }
    width_if_single(text)
}

// The width of any text of one line. It is out of line, since most texts are plain: so the code
// round it keeps more in registers.
#[inline(never)]
fn width_if_single(text: &str) -> Option<usize>
    ensures one { IfSome result (λ _. lines_of text.now ≡ text.now ∷ []) }
    ensures width { IfSome result (λ width. width ≡ width_of text.now) }
{
    if has_no_feed(text.as_bytes()) {
        return Some(text.width());
    }
    None
}

#[inline(always)]
fn is_plain_text(text: &str, kind: TextKind) -> bool
    requires { IsOfKind kind text.now }
    ensures { result ≡ list_all is_plain_byte text.now }
{
    match kind {
        TextKind::Plain => true,
        TextKind::Any => is_plain(text.as_bytes()),
    }
}

#[inline(always)]
fn has_no_feed(bytes: &[u8]) -> bool
    ensures { result ≡ list_all (λ b. not (b == 10)) bytes.now }
{
    bytes.iter().all(|b| *b != b'\n')
}

/// How many terminal columns the widest line of a text takes, each line trimmed if `trim` is set.
pub fn text_width(text: &str, trim: bool) -> usize
    ensures { result ≡ greatest (map (λ line. width_of (trimmed_if trim line)) (lines_of text.now)) }
{
    if !trim {
        return get_text_width(text);
    }
    get_lines(text).fold(0, |width, line| width.max(get_line_width(trim_line(line))))
}

/// What is known of a text before it is placed in a cell.
#[derive(Debug, Clone, Copy, PartialEq, Eq)]
pub struct TextFacts {
    /// How many lines can be shown.
    pub shown: usize,
    /// How many blank lines at the start are left out.
    pub skip: usize,
    /// How many terminal columns the widest of all lines takes.
    pub widest: usize,
}

impl TextFacts {
    /// The facts of a text, whose lines are read once.
    #[inline(always)]
    #[tactic(auto, using(crate::proofs::Rulesets::single_texts))]
    pub fn of_text(text: &str, formatting: Formatting) -> TextFacts
        ensures { result ≡ facts_of formatting text.now }
    {
        let Formatting {
            horizontal_trim,
            vertical_trim,
            ..
        } = formatting;
        if !horizontal_trim && !vertical_trim {
            if let Some(widest) = single_line_width(text, TextKind::Any) {
                return TextFacts {
                    shown: 1,
                    skip: 0,
                    widest,
                };
            }
        }
        TextFacts::of_lines(text, formatting)
    }

    fn of_lines(text: &str, formatting: Formatting) -> TextFacts
        ensures { result ≡ facts_of formatting text.now }
    {
        let mut ends = BlankEnds {
            shown: 0,
            top: 0,
            bottom: 0,
        };
        let mut widest = 0;
        for line in get_lines(text) {
            let (is_left_out, width) = line_facts(line, formatting);
            ends = ends.with_line(is_left_out);
            widest = widest.max(width);
        }
        TextFacts {
            shown: ends.shown,
            skip: ends.top,
            widest,
        }
    }

    /// The facts of the text at a place of records. The row is below `count_rows` of the records, and
    /// the column below `count_columns`.
    #[inline(always)]
    pub fn of_records<R: PeekableRecords>(
        records: &R,
        pos: Position,
        formatting: Formatting,
    ) -> TextFacts
        requires row { pos.row < length (R.texts records.now) }
        requires column { pos.col < R.columns records.now }
        ensures { result ≡ facts_of formatting (text_at (R.texts records.now) pos) }
    {
        TextFacts::of_text(records.get_text(pos), formatting)
    }
}
