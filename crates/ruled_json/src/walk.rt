//! Where a text stops being JSON.

use json::{MAX_DEPTH, Reader, Scratch, Token};
use std::alloc::{AllocError, Global};

// How a token fits.
#[derive(Clone, Copy)]
enum Fit {
    // The text may continue after it.
    Fits,
    // It may not come here.
    Misfit,
    // Nothing may come after it.
    Last,
}

// The arrays and objects that are open.
#[derive(Drop)]
struct Nesting {
    // Whether each is an object.
    open: Vec<bool>,
    // Whether a key comes before.
    is_behind_key: bool,
}

impl Nesting {
    // Whether a key or the end of the object must come.
    fn wants_key(&self) -> bool {
        !self.is_behind_key && matches!(self.open.last(), Some(true))
    }

    fn begin(&mut self, is_object: bool) -> Result<Fit, AllocError> {
        if self.wants_key() || self.open.len() >= MAX_DEPTH {
            return Ok(Fit::Misfit);
        }
        self.open.push(is_object)?;
        self.is_behind_key = false;
        Ok(Fit::Fits)
    }

    // Ends a value; with the outermost one the text ends.
    fn end_value(&mut self) -> Fit {
        self.is_behind_key = false;
        if self.open.is_empty() {
            Fit::Last
        } else {
            Fit::Fits
        }
    }

    fn end(&mut self, is_object: bool) -> Fit {
        if self.is_behind_key || self.open.last().copied() != Some(is_object) {
            return Fit::Misfit;
        }
        self.open.pop();
        self.end_value()
    }

    // Takes the next token.
    fn take(&mut self, token: Token<'_>) -> Result<Fit, AllocError> {
        match token {
            Token::Bad => Ok(Fit::Misfit),
            Token::BeginObject => self.begin(true),
            Token::BeginArray => self.begin(false),
            Token::EndObject => Ok(self.end(true)),
            Token::EndArray => Ok(self.end(false)),
            Token::Key(_) if self.wants_key() => {
                self.is_behind_key = true;
                Ok(Fit::Fits)
            }
            Token::Key(_) => Ok(Fit::Last),
            Token::String(_) if self.wants_key() => Ok(Fit::Last),
            _ if self.wants_key() => Ok(Fit::Misfit),
            _ => Ok(self.end_value()),
        }
    }
}

fn is_space(byte: u8) -> bool {
    matches!(byte, b' ' | b'\t' | b'\n' | b'\r')
}

// The first byte from this one on that isn't white space.
fn next_sign(bytes: &[u8], from: usize) -> usize {
    let rest = bytes.get(from..).unwrap_or(&[]);
    let blank = rest.iter().take_while(|byte| is_space(**byte)).count();
    from.saturating_add(blank)
}

// The first byte after a token that isn't white space. The reader may be past a comma or a colon
// already.
fn behind_token(bytes: &[u8], start: usize, behind: usize) -> usize {
    let passed = bytes.get(start..behind).unwrap_or(&[]);
    let passed = passed.trim_ascii_end();
    match passed.last() {
        Some(b',' | b':') if passed.len() > 1 => start.saturating_add(passed.len() - 1),
        _ => next_sign(bytes, behind),
    }
}

/// The first byte at which a text can't continue as JSON: its end, or where a token begins that
/// can't come there.
pub(crate) fn offset_of_bad(alloc: Global, text: &str) -> usize {
    let mut scratch = Scratch::new(alloc);
    let Ok(mut reader) = Reader::new(text, &mut scratch) else {
        return 0;
    };
    let bytes = text.as_bytes();
    let mut nesting = Nesting {
        open: Vec::new(alloc),
        is_behind_key: false,
    };
    for _count in 0..usize::MAX {
        let start = next_sign(bytes, reader.offset());
        let Some(token) = reader.next() else {
            return start;
        };
        match nesting.take(token) {
            Ok(Fit::Fits) => {}
            Ok(Fit::Last) => return behind_token(bytes, start, reader.offset()),
            _ => return start,
        }
    }
    bytes.len()
}
