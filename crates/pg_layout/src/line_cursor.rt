//! A place in a text, from which its lines are read one by one.

ghost use Rattle.std.specs.Prelude.{◌≡◌, ◌+◌, ℕ, List, IsTrue, length, min, option_map, slice_get};
ghost use Rattle.pg_layout.specs.Text.{lines_of};
ghost use Rattle.pg_layout.specs.LineCursor.{StandsIn, stands_in, line_number};

use crate::text::first_line_end;
use std::marker::Model;

/// The place in a text where its next line begins, or past its last line. It holds no text: each
/// call takes the text again.
#[derive(Debug, Clone, Copy, PartialEq, Eq)]
pub struct LineCursor {
    place: usize,
}

impl Model for LineCursor {
    ghost use Rattle.std.specs.Prelude.{ℕ};

    ghost Value = { ℕ };

    ghost view = { λ cursor. cursor.place };

    ghost inverse = { λ place. record { place = place } };
}

impl LineCursor {
    /// A cursor at line 0 of every text.
    #[tactic(auto, using(crate::proofs::TextLines::places_of_lines))]
    pub fn new() -> LineCursor
        ensures stands { (text : List ℕ) → StandsIn result text }
        ensures first { (text : List ℕ) → line_number result text ≡ 0 }
    {
        LineCursor { place: 0 }
    }

    /// Whether the cursor is where a line of the text begins, or past the text's last line.
    #[tactic(auto, using(crate::proofs::TextLines::places_of_lines))]
    pub fn stands_in(&self, text: &str) -> bool
        ensures { result ≡ stands_in self.now text.now }
    {
        if self.place == 0 {
            return true;
        }
        let before = self.place - 1;
        if before < text.len() {
            return text.as_bytes()[before] == b'\n';
        }
        before == text.len()
    }

    /// The line at the cursor, as a slice of the text, and a step to the next one; past the last
    /// line `None`, and no step. Precondition: the cursor is in the text, as
    /// [`LineCursor::stands_in`] tests. A new cursor is in every text, and stays in a text that all
    /// its calls take.
    #[inline(always)]
    pub fn next_line<'a>(&mut self, text: &'a str) -> Option<&'a str>
        requires { StandsIn self.old text.now }
        ensures line { option_map (λ x. x.now) result ≡ slice_get (lines_of text.now) (line_number self.old text.now) }
        ensures stands { StandsIn self.new text.now }
        ensures number { line_number self.new text.now ≡ min (line_number self.old text.now + 1) (length (lines_of text.now)) }
    {
        if self.place > text.len() {
            return None;
        }
        let rest = &text[self.place..];
        let end = first_line_end(rest);
        self.place += end + 1;
        Some(&rest[..end])
    }
}
