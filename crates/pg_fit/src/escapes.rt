//! Texts without the escape sequences of terminals.

ghost use Rattle.std.specs.Prelude.{◌≡◌, ◌==◌, ◌&&◌, ◌∷◌, ◌-◌, List, ℕ, IfOk, if◌then◌else◌, not, string_bytes};
ghost use Rattle.pg_fit.specs.Escapes.{begins_string, sequence_length, unread, without_escapes};

use std::alloc::{AllocError, Allocator};

/// What a terminal makes of the next character of a text.
#[derive(Clone, Copy)]
pub(crate) enum Reading {
    /// Shows it.
    Shown,
    /// Reads it as what an escape begins.
    Escaped,
    /// Reads it as the rest of a short sequence, such as the choice of a character set.
    Short,
    /// Reads it as a part of a control sequence (CSI), such as a colour.
    ControlSequence,
    /// Reads it as a part of a control string, such as a command (OSC) for a link or a title.
    ControlString,
}

// Whether a character behind an escape begins a command or another control string, which ST ends.
fn begins_string(c: char) -> bool
    ensures { result ≡ begins_string c }
{
    matches!(c, ']' | 'P' | 'X' | '^' | '_')
}

impl Reading {
    // What a terminal makes of the character behind this one: an escape begins a sequence.
    #[tactic(auto, using(crate::proofs::LawsOfEscapes::left_behind))]
    fn after(self, c: char) -> Reading
        ensures { (rest : List ℕ) → unread result rest ≡ (if c == 27 then sequence_length rest else unread self (c ∷ rest) - 1) }
    {
        match (self, c) {
            (_, '\u{1b}') => Reading::Escaped,
            (_, '\n') => Reading::Shown,
            (Reading::Escaped, '[') => Reading::ControlSequence,
            (Reading::Escaped | Reading::Short, ' '..='/') => Reading::Short,
            (Reading::Escaped, _) if begins_string(c) => Reading::ControlString,
            (Reading::ControlSequence, ' '..='?') => Reading::ControlSequence,
            (Reading::ControlString, '\u{7}' | '\u{9c}') => Reading::Shown,
            (Reading::ControlString, _) => Reading::ControlString,
            _ => Reading::Shown,
        }
    }

    // Whether a character is no part of a sequence.
    #[tactic(auto, using(crate::proofs::LawsOfEscapes::shown_outside))]
    fn is_shown(self, c: char) -> bool
        ensures { (rest : List ℕ) → result ≡ not (c == 27) && (unread self (c ∷ rest) == 0) }
    {
        match (self, c) {
            (_, '\u{1b}') => false,
            (_, '\n') | (Reading::Shown, _) => true,
            (Reading::Escaped | Reading::Short | Reading::ControlSequence, _) =>
                !(' '..='~').contains(&c),
            (Reading::ControlString, _) => false,
        }
    }
}

/// A text without the escape sequences that a terminal obeys, so that it is measured, cut and wrapped
/// as what is seen: control sequences such as colours (CSI), commands such as links (OSC, which BEL or
/// ST ends) and other strings, and short ones such as `ESC c` and `ESC ( B`. A line feed ends a
/// sequence that isn't complete, and stays, as do other control characters ([`crate::visible`] shows
/// them).
///
/// ```text
/// without_escapes(alloc, "\x1b[31mred\x1b[0m")? // "red"
/// ```
pub fn without_escapes<A: Allocator>(alloc: A, text: &str) -> Result<String<A>, AllocError>
    ensures { IfOk result (λ shown. string_bytes shown ≡ without_escapes text.now) }
{
    let mut out = String::new(alloc);
    let mut reading = Reading::Shown;
    for c in text.chars() {
        if reading.is_shown(c) {
            out.push(c)?;
        }
        reading = reading.after(c);
    }
    Ok(out)
}
