//! The tokens of a statement of SQL, and the parts that commas separate within its parentheses.

ghost use Rattle.std.specs.Prelude.{◌≡◌, IfOk, OnOk};
ghost use Rattle.ruled_database.specs.Definitions as spec;

use sqlite_items::Items;
use std::alloc::{AllocError, Global};

/// How a token is written.
#[derive(Clone, Copy)]
pub(crate) enum Form {
    /// As letters or digits.
    Word,
    /// In quotes.
    Quoted,
    /// As any other sign.
    Sign,
}

/// A token.
#[derive(Drop)]
pub(crate) struct Token {
    pub(crate) form: Form,
    /// How many parentheses are open around it.
    pub(crate) depth: usize,
    /// Its bytes, without quotes.
    pub(crate) text: Items<u8>,
}

impl Token {
    /// Whether it is this word.
    pub(crate) fn says(&self, word: &[u8]) -> bool
        ensures { result ≡ spec.says word.now self.now }
    {
        matches!(self.form, Form::Word) && self.text.as_slice().eq_ignore_ascii_case(word)
    }

    /// Whether it is this sign.
    pub(crate) fn is_sign(&self, sign: u8) -> bool
        ensures { result ≡ spec.is_sign sign self.now }
    {
        matches!(self.form, Form::Sign) && self.text.as_slice() == [sign].as_slice()
    }
}

/// What a byte is read as, after those before it.
#[derive(Clone, Copy)]
pub(crate) enum Mode {
    Between,
    Word,
    /// In quotes that this byte closes.
    Open(u8),
    /// Behind this byte, which closes the quotes unless it comes once more.
    Closed(u8),
    /// Behind a first `-`.
    Dash,
    /// In a comment that ends with its line.
    Line,
    /// Behind a first `/`.
    Slash,
    /// In a comment.
    Comment,
    /// Behind a `*` of a comment.
    Star,
}

/// What has been read of a statement.
#[derive(Drop)]
pub(crate) struct Statement {
    mode: Mode,
    /// How many parentheses are open.
    depth: usize,
    /// The bytes of the token so far.
    word: Items<u8>,
    /// The tokens of the part so far.
    part: Items<Token>,
    /// The parts within the outer parentheses.
    pub(crate) parts: Items<Items<Token>>,
    /// The tokens outside.
    pub(crate) outside: Items<Token>,
}

// Whether a byte is one of a word or a number.
fn is_word(byte: u8) -> bool
    ensures { result ≡ spec.is_word byte }
{
    byte.is_ascii_alphanumeric() || byte == b'_' || byte == b'$' || byte == b'.' || byte >= 128
}

impl Statement {
    #[tactic(auto, unfolding(crate::specs::Definitions::with_token))]
    // Ends a token.
    fn end_token(&mut self, alloc: Global, form: Form) -> Result<(), AllocError>
        ensures { OnOk result (self.new ≡ spec.with_token form self.old) }
    {
        let text = std::mem::replace(&mut self.word, Items::new(alloc));
        let depth = self.depth;
        let token = Token { form, depth, text };
        if depth == 0 {
            self.outside.push(token)
        } else {
            self.part.push(token)
        }
    }

    // Ends a part.
    fn end_part(&mut self, alloc: Global) -> Result<(), AllocError>
        ensures { OnOk result (self.new ≡ spec.with_ended_part self.old) }
    {
        let part = std::mem::replace(&mut self.part, Items::new(alloc));
        self.parts.push(part)
    }

    #[tactic(auto, unfolding(crate::specs::Definitions::with_sign))]
    // Adds a sign that is no parenthesis.
    fn push_sign(&mut self, alloc: Global, byte: u8) -> Result<(), AllocError>
        ensures { OnOk result (self.new ≡ spec.with_sign byte self.old) }
    {
        self.word.push(byte)?;
        self.end_token(alloc, Form::Sign)
    }

    #[tactic(auto, unfolding(crate::specs::Definitions::after_sign))]
    // Takes a byte that is a token.
    fn take_sign(&mut self, alloc: Global, byte: u8) -> Result<(), AllocError>
        ensures { OnOk result (self.new ≡ spec.after_sign byte self.old) }
    {
        match byte {
            b'(' => {
                self.push_sign(alloc, byte)?;
                self.depth = self.depth.saturating_add(1);
                Ok(())
            }
            b')' if self.depth <= 1 => {
                self.depth = 0;
                self.end_part(alloc)
            }
            b')' => {
                self.depth -= 1;
                self.push_sign(alloc, byte)
            }
            b',' if self.depth == 1 => self.end_part(alloc),
            _ => self.push_sign(alloc, byte),
        }
    }

    #[tactic(auto, unfolding(crate::specs::Definitions::begun_token))]
    // Takes a byte behind a token, or between two of them.
    fn begin(&mut self, alloc: Global, byte: u8) -> Result<(), AllocError>
        ensures { OnOk result (self.new ≡ spec.begun_token byte self.old) }
    {
        if is_word(byte) {
            self.mode = Mode::Word;
            return self.word.push(byte);
        }
        self.mode = match byte {
            b'"' | b'\'' | b'`' => Mode::Open(byte),
            b'[' => Mode::Open(b']'),
            b'-' => Mode::Dash,
            b'/' => Mode::Slash,
            _ => Mode::Between,
        };
        if matches!(self.mode, Mode::Between) && !byte.is_ascii_whitespace() {
            self.take_sign(alloc, byte)
        } else {
            Ok(())
        }
    }

    // Takes a byte behind a token of this form.
    fn begin_after(&mut self, alloc: Global, form: Form, byte: u8) -> Result<(), AllocError>
        ensures { OnOk result (self.new ≡ spec.begun_token byte (spec.with_token form self.old)) }
    {
        self.end_token(alloc, form)?;
        self.begin(alloc, byte)
    }

    // Takes a byte behind this sign, which begins no comment.
    fn begin_after_sign(&mut self, alloc: Global, sign: u8, byte: u8) -> Result<(), AllocError>
        ensures { OnOk result (self.new ≡ spec.begun_token byte (spec.with_sign sign self.old)) }
    {
        self.push_sign(alloc, sign)?;
        self.begin(alloc, byte)
    }

    #[tactic(auto, unfolding(crate::specs::Definitions::step))]
    // Takes the next byte.
    fn step(&mut self, alloc: Global, byte: u8) -> Result<(), AllocError>
        ensures { OnOk result (self.new ≡ spec.step self.old byte) }
    {
        match self.mode {
            Mode::Between => return self.begin(alloc, byte),
            Mode::Word if is_word(byte) => return self.word.push(byte),
            Mode::Word => return self.begin_after(alloc, Form::Word, byte),
            Mode::Open(close) if byte == close => self.mode = Mode::Closed(close),
            Mode::Open(_) => return self.word.push(byte),
            Mode::Closed(close) if byte == close && close != b']' => {
                self.mode = Mode::Open(close);
                return self.word.push(byte);
            }
            Mode::Closed(_) => return self.begin_after(alloc, Form::Quoted, byte),
            Mode::Dash if byte == b'-' => self.mode = Mode::Line,
            Mode::Dash => return self.begin_after_sign(alloc, b'-', byte),
            Mode::Line if byte == b'\n' => self.mode = Mode::Between,
            Mode::Slash if byte == b'*' => self.mode = Mode::Comment,
            Mode::Slash => return self.begin_after_sign(alloc, b'/', byte),
            Mode::Comment | Mode::Star if byte == b'*' => self.mode = Mode::Star,
            Mode::Star if byte == b'/' => self.mode = Mode::Between,
            Mode::Star => self.mode = Mode::Comment,
            Mode::Line | Mode::Comment => {}
        }
        Ok(())
    }
}

// Takes these bytes.
fn read_on(alloc: Global, statement: &mut Statement, mut text: &[u8]) -> Result<(), AllocError>
    ensures { OnOk result (statement.new ≡ spec.read_from statement.old text.entry.now) }
{
    while let [byte, rest @ ..] = text {
        statement.step(alloc, *byte)?;
        text = rest;
    }
    Ok(())
}

#[tactic(auto, unfolding(crate::specs::Definitions::read))]
/// The tokens of a statement, by parts.
pub(crate) fn read(alloc: Global, text: &[u8]) -> Result<Statement, AllocError>
    ensures { IfOk result (λ statement. statement ≡ spec.read text.now) }
{
    let mut statement = Statement {
        mode: Mode::Between,
        depth: 0,
        word: Items::new(alloc),
        part: Items::new(alloc),
        parts: Items::new(alloc),
        outside: Items::new(alloc),
    };
    read_on(alloc, &mut statement, text)?;
    statement.step(alloc, b' ')?;
    Ok(statement)
}
