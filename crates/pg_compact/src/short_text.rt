//! A short text inside its value, so that what many lines share is put together once.

ghost use Rattle.std.specs.Prelude.{◌≡◌, ◌≤◌, ◌++◌, [], List, ℕ, length, take, true, OnSome, Some, option_map};
ghost use Rattle.std.specs.Str.{is_utf8};
ghost use Rattle.pg_layout.specs.Colors.{str_color};
ghost use Rattle.pg_picture.specs.CompactLines.{colored_glyph, compact_indent};
ghost use Rattle.pg_picture.specs.Pieces.{in_color, repeated};

use pg_layout::{ANSIFmt, ANSIStr, Indent};
use std::marker::Model;
use std::str;

// How many bytes a short text has room for: those of a margin and a glyph in colours of three numbers.
const ROOM: usize = 128;

/// A text that is no longer than its room, inside the value itself.
#[derive(Debug, Drop)]
pub(crate) struct ShortText {
    bytes: [u8; ROOM],
    len: usize,
}

impl Model for ShortText {
    ghost Value = { List ℕ };

    ghost view = { λ text. take text.len text.bytes };

    ghost invariant = { λ text. (text.len ≤ length text.bytes) × (is_utf8 (take text.len text.bytes) ≡ true) };
}

impl ShortText {
    /// The empty text.
    #[tactic(auto, using(crate::proofs::Rulesets::short_texts))]
    pub(crate) fn new() -> ShortText
        ensures { result ≡ [] }
    {
        ShortText {
            bytes: [0; ROOM],
            len: 0,
        }
    }

    /// The text.
    #[inline(always)]
    #[tactic(auto, using(crate::proofs::Rulesets::short_texts))]
    pub(crate) fn as_str(&self) -> &str
        ensures { result.now ≡ self.now }
    {
        // The bytes are those of a text. Testing that again would cost more than copying them.
        unsafe { str::from_utf8_unchecked(&self.bytes[..self.len]) }
    }

    // Appends a text, if there is room.
    fn push_text(&mut self, text: &str) -> Option<()>
        ensures { OnSome result (self.new ≡ self.old ++ text.now) }
    {
        let from = self.len;
        if text.len() > ROOM - from {
            return None;
        }
        let to = from + text.len();
        self.bytes[from..to].copy_from_slice(text.as_bytes());
        self.len = to;
        Some(())
    }

    // Appends a character `count` times, if there is room.
    fn push_repeated(&mut self, c: char, count: usize) -> Option<()>
        ensures { OnSome result (self.new ≡ self.old ++ repeated c count) }
    {
        let mut bytes = [0; 4];
        let text = c.encode_utf8(&mut bytes);
        for _ in 0..count {
            self.push_text(text)?;
        }
        Some(())
    }

    /// Appends a character `count` times in a colour, if there is room.
    pub(crate) fn push_colored(&mut self, c: char, count: usize, color: ANSIStr<'_>) -> Option<()>
        ensures { OnSome result (self.new ≡ self.old ++ in_color (Some (str_color color.entry)) (repeated c count)) }
    {
        self.push_text(color.prefix())?;
        self.push_repeated(c, count)?;
        self.push_text(color.suffix())
    }

    /// Appends a glyph in its colour, if there is room.
    pub(crate) fn push_glyph(
        &mut self,
        glyph: Option<char>,
        color: Option<ANSIStr<'_>>,
    ) -> Option<()>
        ensures { OnSome result (self.new ≡ self.old ++ colored_glyph glyph (option_map str_color color.entry)) }
    {
        match (glyph, color) {
            (None, _) => Some(()),
            (Some(glyph), None) => self.push_repeated(glyph, 1),
            (Some(glyph), Some(color)) => self.push_colored(glyph, 1, color),
        }
    }

    /// Appends an indent in its colour, if there is room; an empty colour is none.
    pub(crate) fn push_indent(&mut self, indent: Indent, color: ANSIStr<'_>) -> Option<()>
        ensures { OnSome result (self.new ≡ self.old ++ compact_indent indent.fill indent.size (str_color color.entry)) }
    {
        if color.is_empty() {
            return self.push_repeated(indent.fill, indent.size);
        }
        self.push_colored(indent.fill, indent.size, color)
    }
}
