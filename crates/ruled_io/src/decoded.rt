//! Readers of text in any encoding.

ghost use Rattle.std.specs.Prelude.{◌≡◌, [], length, None, Some, Ok, IfOk, OnOk, option_map, if◌then◌else◌};
ghost use Rattle.std.specs.Io.{ReadsAtMost};
ghost use Rattle.std.specs.Io.KnownBytes.{ReadConsumes};
ghost use Rattle.ruled_io.specs.Formats.{ShowsFirst, decoding_of};

use crate::encoding::{Encoding, First, Scheme, first_in, scheme_of, shows_scheme};
use crate::window::Window;
use std::io;
use std::io::{ErrorKind, Read};

/// A reader of the text of an input, in UTF-8, whatever its encoding. Bytes that spell no character give `InvalidData`,
/// behind the text in front of them. A database is no text: its bytes stay as they are.
#[derive(Drop)]
pub struct Decoded<R: Drop> {
    input: R,
    encoding: Option<Encoding>,
    // Whether it was seen how the bytes spell characters, and how where they aren't UTF-8.
    is_seen: bool,
    scheme: Option<Scheme>,
    // The bytes that were read, and the text of those before them.
    bytes: Window,
    text: Window,
}

// The error of bytes that spell no character.
fn no_character() -> io::Error {
    ErrorKind::InvalidData.into()
}

impl<R: Read + Drop> Decoded<R> {
    ghost use Rattle.ruled_io.specs.Formats.{IsOver, IsSeen, KeepsDecoding, decoding_left, items, room, text_left};

    /// An input in this encoding; without one, a byte order mark of UTF-16 shows this encoding, and all else is UTF-8.
    pub fn new(input: R, encoding: Option<Encoding>) -> Decoded<R>
        ensures { decoding_left R.remaining result ≡ option_map (decoding_of encoding) (R.remaining input) }
    {
        Decoded {
            input,
            encoding,
            is_seen: false,
            scheme: None,
            bytes: Window::new(),
            text: Window::new(),
        }
    }

    // How the bytes spell characters where they aren't UTF-8, by as many of them as show it.
    fn seen(&mut self) -> io::Result<Option<Scheme>>
        ensures same { KeepsDecoding (decoding_left R.remaining self.old) (decoding_left R.remaining self.new) }
        ensures seen { IfOk result (λ scheme. IsSeen scheme self.new) }
        ensures text { self.new.text ≡ self.old.text }
    {
        if self.is_seen {
            return Ok(self.scheme);
        }
        for _ in 0..u64::MAX {
            if shows_scheme(self.bytes.as_slice()) || self.bytes.refill(&mut self.input)? == 0 {
                self.scheme = scheme_of(self.encoding, self.bytes.as_slice());
                self.is_seen = true;
                return Ok(self.scheme);
            }
        }
        Err(ErrorKind::Interrupted.into())
    }

    // Decodes bytes as far as they spell characters and there is room for these, and returns whether the next ones spell none.
    fn decode(&mut self, scheme: Scheme) -> bool
        requires seen { IsSeen (Some scheme) self.old }
        requires empty { items self.old.text ≡ [] }
        requires room { room self.old.text ≡ 8192 }
        ensures same { decoding_left R.remaining self.new ≡ decoding_left R.remaining self.old }
        ensures input { self.new.input ≡ self.old.input }
        ensures seen { IsSeen (Some scheme) self.new }
        ensures stop { items self.new.text ≡ [] → (room self.new.text ≡ 8192) × ShowsFirst scheme (items self.new.bytes) (if result then First.Nothing else First.Part) }
    {
        while self.text.room() >= 4 {
            match first_in(scheme, self.bytes.as_slice()) {
                First::Char(c, count) => {
                    self.text.push(c);
                    self.bytes.consume(count);
                }
                First::Part => return false,
                First::Nothing => return true,
            }
        }
        false
    }

    // Reads until some text is there, or to the end.
    fn fill(&mut self, scheme: Scheme) -> io::Result<()>
        requires seen { IsSeen (Some scheme) self.old }
        requires empty { items self.old.text ≡ [] }
        ensures same { KeepsDecoding (decoding_left R.remaining self.old) (decoding_left R.remaining self.new) }
        ensures end { OnOk result (items self.new.text ≡ [] → IsOver (decoding_left R.remaining self.new)) }
    {
        self.text.clear();
        for _ in 0..u64::MAX {
            let is_cut = self.decode(scheme);
            if !self.text.as_slice().is_empty() {
                return Ok(());
            }
            if is_cut {
                return Err(no_character());
            }
            if self.bytes.refill(&mut self.input)? == 0 {
                return self.end();
            }
        }
        Err(ErrorKind::Interrupted.into())
    }

    // Ends the text if no byte is left.
    fn end(&self) -> io::Result<()>
        ensures { OnOk result (items self.now.bytes ≡ []) }
    {
        if self.bytes.as_slice().is_empty() {
            Ok(())
        } else {
            Err(no_character())
        }
    }

    // Reads bytes that are UTF-8.
    fn read_as_is(&mut self, buf: &mut [u8]) -> io::Result<usize>
        requires seen { IsSeen None self.old }
        requires empty { items self.old.text ≡ [] }
        ensures bound { ReadsAtMost result buf.new }
        ensures bytes { ReadConsumes (text_left R.remaining self.old) (text_left R.remaining self.new) result buf.new }
    {
        if self.bytes.as_slice().is_empty() {
            self.input.read(buf)
        } else {
            Ok(self.bytes.give(buf))
        }
    }
}

impl<R: Read + Drop> Read for Decoded<R> {
    ghost use Rattle.ruled_io.specs.Formats.{IsCut, text_left};

    ghost remaining = { text_left R.remaining };

    fn read(&mut self, buf: &mut [u8]) -> io::Result<usize>
        ensures bound { ReadsAtMost result buf.new }
        ensures bytes { ReadConsumes (text_left R.remaining self.old) (text_left R.remaining self.new) result buf.new }
        // Bytes that spell no character never come to an end without an error.
        ensures cut { IsCut R.remaining self.old → IsCut R.remaining self.new × (result ≡ Ok 0 → length buf.new ≡ 0) }
    {
        if buf.is_empty() {
            return Ok(0);
        }
        if !self.text.as_slice().is_empty() {
            return Ok(self.text.give(buf));
        }
        match self.seen()? {
            None => self.read_as_is(buf),
            Some(scheme) => {
                self.fill(scheme)?;
                Ok(self.text.give(buf))
            }
        }
    }
}
