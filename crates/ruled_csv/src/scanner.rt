//! Rows, read byte by byte.

ghost use Rattle.std.specs.Prelude.{◌≡◌, ◌<◌, ◌≤◌, ◌++◌, ◌∷◌, ℕ, [], false, true, not, None, Ok, IfOk, IsTrue, OnOk, length, fold, option_map, take};
ghost use Rattle.std.specs.List.{list_all};
ghost use Rattle.csv.specs.Machine.{ends_at_end, in_field, start_field, step};
ghost use Rattle.csv.specs.Records.{fields_of};
ghost use Rattle.csv.specs.declared.parser.State.TheVariants as st;
ghost use Rattle.ruled_csv.specs.declared.dialect.Dialect.{Dialect};
ghost use Rattle.ruled_csv.specs.Faults.{Tells};
ghost use Rattle.ruled_csv.specs.Inside.{Joins, begins_out, behind_fault, empty_hand, hand_after, hand_below, hand_cut, hand_of};
ghost use Rattle.ruled_csv.specs.Inside.{is_act_behind, is_bare, is_behind, is_calm, is_open, last_row, open_fault};
ghost use Rattle.ruled_csv.specs.Inside.{opens, row_ended, state_behind, state_of, step_of};
ghost use Rattle.ruled_csv.specs.Quotes.{is_closing, is_plain, is_quoted, config_of, separator};

use crate::dialect::Dialect;
use crate::fault::RowsFault;
use crate::lines::Lines;
use memchr::{memchr_iter, memchr3};
use ruled_row::RowBuffer;
use std::alloc::{AllocError, Global};
use std::mem;

/// What comes before a byte.
#[derive(Clone, Copy)]
pub(crate) enum Standing {
    /// No byte of its row.
    Row,
    /// A carriage return that ended a row, with which a line feed belongs.
    Return,
    /// A delimiter.
    Field,
    /// A field without quotes, or text after a closing one.
    Plain,
    /// An opening quote and the bytes after it so far.
    Quoted,
    /// A quote that closes the field, or is the first of two that mean one.
    Closing,
}

/// What a byte does.
#[derive(Clone, Copy)]
pub(crate) enum Act {
    /// Nothing more.
    Pass,
    /// It opens a quote.
    Open,
    /// It joins the current field.
    Join,
    /// It joins the current field, although its quote is closed.
    Behind,
    /// It ends the current field.
    EndField,
    /// It ends the current field and its row.
    EndRow,
}

/// What a byte does, and what comes before the next one.
#[derive(Clone, Copy)]
pub(crate) struct Step {
    next: Standing,
    act: Act,
}

// What a byte does that can't open a quote.
fn plain_step(dialect: Dialect, byte: u8) -> Step
    ensures step { step_of result ≡ in_field (config_of dialect) byte }
    ensures opens { is_open result.act ≡ false }
    ensures behind { is_act_behind result.act ≡ false }
    ensures bare { is_bare (state_of result.next) ≡ true }
{
    let (next, act) = match byte {
        _ if byte == dialect.separator() => (Standing::Field, Act::EndField),
        b'\r' => (Standing::Return, Act::EndRow),
        b'\n' => (Standing::Row, Act::EndRow),
        _ => (Standing::Plain, Act::Join),
    };
    Step { next, act }
}

// What a byte does after a closing quote.
fn behind_step(dialect: Dialect, byte: u8) -> Step
    ensures step { step_of result ≡ in_field (config_of dialect) byte }
    ensures opens { is_open result.act ≡ false }
    ensures behind { is_act_behind result.act ≡ is_plain (state_of result.next) }
    ensures bare { is_bare (state_of result.next) ≡ true }
{
    let step = plain_step(dialect, byte);
    match step.act {
        Act::Join => Step {
            next: step.next,
            act: Act::Behind,
        },
        _ => step,
    }
}

// What the first byte of a field does.
fn first_step(dialect: Dialect, byte: u8) -> Step
    ensures step { step_of result ≡ start_field (config_of dialect) byte }
    ensures opens { is_open result.act ≡ not (is_bare (state_of result.next)) }
    ensures behind { is_act_behind result.act ≡ false }
{
    if dialect.rows.is_quote(byte) {
        return Step {
            next: Standing::Quoted,
            act: Act::Open,
        };
    }
    plain_step(dialect, byte)
}

// What a byte does inside quotes.
fn quoted_step(dialect: Dialect, byte: u8) -> Step
    ensures step { step_of result ≡ step (config_of dialect) st.InQuoted byte }
    ensures opens { is_open result.act ≡ false }
    ensures behind { is_act_behind result.act ≡ false }
{
    let (next, act) = if dialect.rows.is_quote(byte) {
        (Standing::Closing, Act::Pass)
    } else {
        (Standing::Quoted, Act::Join)
    };
    Step { next, act }
}

// Whether the first of these bytes begins a run. It is tested before a search, which costs more.
fn begins_run(bytes: &[u8]) -> bool {
    !matches!(bytes.first(), None | Some(b'"' | b'\r' | b'\n'))
}

// How many bytes come before the first quote or end of a line.
#[tactic(auto, using(crate::proofs::KeptTexts::calm_found))]
fn run_of(bytes: &[u8]) -> usize
    ensures within { result ≤ length bytes.now }
    ensures calm { IsTrue (list_all is_calm (take result bytes.now)) }
{
    memchr3(b'"', b'\r', b'\n', bytes).unwrap_or(bytes.len())
}

impl Standing {
    // What the byte after this does.
    fn step(self, dialect: Dialect, byte: u8) -> Step
        ensures step { step_of result ≡ step (config_of dialect) (state_of self) byte }
        ensures opens { is_open result.act ≡ opens (state_of self) (state_of result.next) }
        ensures behind { is_act_behind result.act ≡ is_behind (state_of self) (state_of result.next) }
    {
        match self {
            Standing::Row | Standing::Return if byte == b'\r' || byte == b'\n' => Step {
                next: Standing::Row,
                act: Act::Pass,
            },
            Standing::Row | Standing::Return | Standing::Field => first_step(dialect, byte),
            Standing::Plain => plain_step(dialect, byte),
            Standing::Quoted => quoted_step(dialect, byte),
            Standing::Closing if dialect.rows.is_quote(byte) => Step {
                next: Standing::Quoted,
                act: Act::Join,
            },
            Standing::Closing => behind_step(dialect, byte),
        }
    }

    // What comes before the byte after a run outside quotes.
    fn behind_run(self, delimiter: u8, run: &[u8]) -> Standing
        ensures { (dialect : Dialect) → separator dialect ≡ delimiter → state_of result ≡ fold (state_behind dialect) (state_of self) run.now }
    {
        match run {
            [] => self,
            [.., last] if *last == delimiter => Standing::Field,
            _ => Standing::Plain,
        }
    }

    /// Whether a quote is open.
    pub(crate) fn is_quoted(self) -> bool
        ensures { result ≡ is_quoted (state_of self) }
    {
        matches!(self, Standing::Quoted)
    }

    // Whether a quote that may close its field comes before.
    fn is_closing(self) -> bool
        ensures { result ≡ is_closing (state_of self) }
    {
        matches!(self, Standing::Closing)
    }

    // Whether no row has begun.
    fn is_between(self) -> bool
        ensures { result ≡ not (ends_at_end (state_of self)) }
    {
        matches!(self, Standing::Row | Standing::Return)
    }
}

/// A scan over bytes, with the current row so far.
#[derive(Drop)]
pub(crate) struct Scanner {
    pub(crate) dialect: Dialect,
    standing: Standing,
    alloc: Global,
    // The current row, and what was read of its field.
    row: RowBuffer,
    lines: Lines,
    // The line of the quote opened last.
    opened: usize,
    // The line on which the current row begins, or the one that ended.
    begun: usize,
}

impl Scanner {
    /// A scan at the first byte.
    pub(crate) fn new(alloc: Global, dialect: Dialect) -> Scanner
        ensures dialect { result.dialect ≡ dialect }
        ensures hand { hand_of result ≡ empty_hand }
    {
        Scanner {
            dialect,
            standing: Standing::Row,
            alloc,
            row: RowBuffer::new(alloc),
            lines: Lines::new(),
            opened: 1,
            begun: 1,
        }
    }

    /// The line on which the last complete row begins.
    pub(crate) fn begun(&self) -> usize {
        self.begun
    }

    /// Whether this byte begins a line that is left out, if it ends none.
    pub(crate) fn leaves_out(&self, byte: u8) -> bool
        ensures { result ≡ begins_out self.now.dialect (hand_of self.now) byte }
    {
        let rules = self.dialect.rows;
        self.standing.is_between() && rules.leave_out(self.lines.line(), byte)
    }

    /// Reads the end of a line that is left out.
    pub(crate) fn end_line(&mut self, byte: u8)
        ensures hand { hand_of self.new ≡ hand_below (hand_of self.old) byte }
        ensures dialect { self.new.dialect ≡ self.old.dialect }
    {
        self.standing = Standing::Row;
        self.lines = self.lines.below(byte);
    }

    // Ends the current row, begins another one, and gives the buffer of the first away.
    #[inline(always)]
    fn end_row(&mut self) -> Result<RowBuffer, AllocError>
        ensures row { IfOk result (λ row. fields_of row ≡ (hand_of self.old).fields ++ ((hand_of self.old).field ∷ [])) }
        ensures hand { OnOk result (hand_of self.new ≡ record (hand_of self.old) { fields = []; field = [] }) }
        ensures dialect { self.new.dialect ≡ self.old.dialect }
    {
        self.row.end_field()?;
        Ok(mem::replace(&mut self.row, RowBuffer::new(self.alloc)))
    }

    /// Takes the buffer of a row that ended for the next one.
    pub(crate) fn reuse(&mut self, mut buffer: RowBuffer)
        ensures hand { hand_of self.new ≡ hand_of self.old }
        ensures dialect { self.new.dialect ≡ self.old.dialect }
    {
        if self.row.is_empty() {
            buffer.clear();
            self.row = buffer;
        }
    }

    // Reads a run outside quotes.
    fn cut_run(&mut self, run: &[u8]) -> Result<(), AllocError>
        ensures hand { OnOk result (hand_of self.new ≡ hand_cut self.old.dialect (hand_of self.old) run.now) }
        ensures dialect { self.new.dialect ≡ self.old.dialect }
    {
        let delimiter = self.dialect.separator();
        self.standing = self.standing.behind_run(delimiter, run);
        let mut start = 0;
        for at in memchr_iter(delimiter, run) {
            self.row.push_field(&run[start..at])?;
            start = at + 1;
        }
        self.row.push_bytes(&run[start..])
    }

    // Reads a run.
    fn join_run(&mut self, run: &[u8]) -> Result<(), AllocError>
        requires calm { IsTrue (list_all is_calm run.now) }
        requires some { 0 < length run.now }
        requires open { is_closing (state_of self.old.standing) ≡ false }
        ensures hand { OnOk result (Joins self.old.dialect run.now (hand_of self.old) (hand_of self.new)) }
        ensures dialect { self.new.dialect ≡ self.old.dialect }
    {
        self.begun = if self.standing.is_between() {
            self.lines.line()
        } else {
            self.begun
        };
        self.lines = self.lines.behind_text();
        if self.standing.is_quoted() {
            self.row.push_bytes(run)
        } else {
            self.cut_run(run)
        }
    }

    /// Reads the next bytes before the first quote or end of a line, and returns how many. After a
    /// quote that may close its field it reads none.
    pub(crate) fn read_run(&mut self, bytes: &[u8]) -> Result<usize, AllocError>
        ensures within { IfOk result (λ count. count ≤ length bytes.now) }
        ensures calm { IfOk result (λ count. IsTrue (list_all is_calm (take count bytes.now))) }
        ensures hand { IfOk result (λ count. Joins self.old.dialect (take count bytes.now) (hand_of self.old) (hand_of self.new)) }
        ensures dialect { self.new.dialect ≡ self.old.dialect }
    {
        if self.standing.is_closing() || !begins_run(bytes) {
            return Ok(0);
        }
        let count = run_of(bytes);
        if count == 0 {
            return Ok(0);
        }
        self.join_run(&bytes[..count])?;
        Ok(count)
    }

    /// Reads a byte, and returns the row that ends with it.
    pub(crate) fn read(&mut self, byte: u8) -> Result<Option<RowBuffer>, RowsFault>
        ensures row { IfOk result (λ found. option_map fields_of found ≡ row_ended self.old.dialect (hand_of self.old) byte) }
        ensures hand { OnOk result (hand_of self.new ≡ hand_after self.old.dialect (hand_of self.old) byte) }
        ensures fault { Tells (behind_fault self.old.dialect (hand_of self.old) byte) result }
        ensures dialect { self.new.dialect ≡ self.old.dialect }
    {
        let step = self.standing.step(self.dialect, byte);
        let line = self.lines.line();
        if self.standing.is_between() {
            self.begun = line;
        }
        self.standing = step.next;
        self.lines = self.lines.after(byte);
        match step.act {
            Act::Pass => Ok(None),
            Act::Open => {
                self.opened = line;
                Ok(None)
            }
            Act::Join => {
                self.row.push_bytes(&[byte])?;
                Ok(None)
            }
            Act::Behind => Err(RowsFault::BehindQuote { line }),
            Act::EndField => {
                self.row.end_field()?;
                Ok(None)
            }
            Act::EndRow => Ok(Some(self.end_row()?)),
        }
    }

    /// The row that ends with the input.
    pub(crate) fn end(&mut self) -> Result<Option<RowBuffer>, RowsFault>
        ensures row { IfOk result (λ found. option_map fields_of found ≡ last_row (hand_of self.old)) }
        ensures fault { Tells (open_fault (hand_of self.old)) result }
        ensures nothing { hand_of self.old ≡ empty_hand → result ≡ Ok None }
        ensures dialect { self.new.dialect ≡ self.old.dialect }
    {
        match self.standing {
            Standing::Row | Standing::Return => Ok(None),
            Standing::Quoted => Err(RowsFault::OpenQuote { line: self.opened }),
            _ => Ok(Some(self.end_row()?)),
        }
    }
}
