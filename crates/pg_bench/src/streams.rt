//! Tables whose rows come one at a time, beside what each row appends, which was drawn by hand. Each is printed by all
//! calls of the streams and of the printers of rows.
//!
//! ```text
//! : a row that has no room is named, and the table goes on
//! by live lent
//! widths 1 1
//! heights 1 1
//! |a|b|
//! = ab
//! |c|dd|
//! ! row 1 does not fit
//! |c|d|
//! =
//! = cd
//! end
//! ```
//!
//! The lines of a section, besides those of every part:
//!
//! - `widths 1 1` and `heights 1 0 3` are the sizes of its columns and rows.
//! - `by push lent` are the calls by which it is printed. `push`, `push_from`, `print_vec`, `print_all` and
//!   `print_results` are those of the stream that holds a row, `live` and `lent` those of the stream that
//!   shows each row at once, and `sized` is that whose rows bring their heights. By `printer` each call of a
//!   printer of rows tests itself, and by `tested` it stands behind the test. `whole_peekable`, `whole_iter`
//!   and `whole_compact` are the grids over all rows, which say whether each line is shown, and print where it is.
//! - `hints none 3`: it is printed without the number of its rows, and then with the number 3. Without this line
//!   the number isn't given.
//! - `|a|b|` is the next row: a bar before the first text, and one behind each. `error` stands in place of
//!   a row that can't be had.
//! - `end` ends the table behind its rows, and `close` ends that of a printer by a call of that name.
//! - `= LINE` is the next line of what the row above it appends, or the end; `=` alone is an empty one,
//!   so that a line feed stands before the next one. Without such a line nothing is appended.
//! - `! row 1 does not fit` are the words of the fault that is answered for the row above it, for the end, or,
//!   before the first row, in place of a stream.
//! - `height 3` is the height that the row above it brings, which is else 1; by `last` it is the last one, and by
//!   `pushed` it isn't lent, but pushed.
//! - `note 1 rows, 2 lines, ended false, 1 open, begun Some(0) None, drawn Some(1)` is what a printer says
//!   behind the row above it: its rows and lines, whether it is ended, how many cells are open, where those of
//!   the columns 0 and 1 begin, and how many lines of that of column 0 are drawn.
//! - `shown Err(Lines(1))` is what a printer answers before the row, when it is asked whether all of its lines
//!   are shown.
//! - `refused`: each request for memory is refused in turn.
//!
//! The text of a buffer stands before the table. A stream that holds a row appends it when the next one is
//! pushed, and stops at the first fault; calls that print all rows are looked at when they end. Each way, with
//! each number of rows, is one answer: the first call that answers or appends something else. Where memory is
//! refused, a call answers that and leaves a beginning of the text, and so do all calls behind it, which append
//! nothing; where none is, all is as expected; and one request comes at least, which is one more answer.
//!
//! Behind the sections comes what no section can say, in the modules `given` and `cells`.

use crate::case::{Case, CaseFault, set_numbers};
use crate::streams::printing::{Way, check_others};
use pg_config::SpannedConfig;
use pg_layout::ConstantDimension;
use pg_testing::report::Report;
use pg_testing::settings::{Words, apply};
use pg_testing::{Line, texts_of_row};
use std::alloc::{AllocError, Global};
use std::mem;

mod calls;
mod cells;
mod given;
mod printing;

/// What a step asks for.
#[derive(Clone, Copy)]
pub(crate) enum StepKind {
    /// A stream or a printer.
    Make,
    /// A row.
    Row,
    /// What is in place of a row that can't be had.
    Error,
    /// The end of the table.
    Finish,
    /// The end of a table by `close`.
    Close,
}

/// A call, and what is said of it.
#[derive(Drop)]
pub(crate) struct Step<'a> {
    pub(crate) kind: StepKind,
    /// The texts of a row.
    pub(crate) cells: Vec<&'a str>,
    /// The height that a row brings.
    pub(crate) height: usize,
    /// Whether a row is said to be the last.
    pub(crate) is_last: bool,
    /// Whether a row is pushed where others are lent.
    pub(crate) is_pushed: bool,
    /// The words of the fault that is returned.
    pub(crate) fault: Option<&'a str>,
    /// What a printer says after it.
    pub(crate) note: Option<&'a str>,
    /// What a printer returns before it, when it is asked whether all lines of the row are shown.
    pub(crate) shown: Option<&'a str>,
    /// Whether it appends a line, be it an empty one.
    has_line: bool,
    /// How long the text is behind it.
    pub(crate) bytes: usize,
}

/// A table as its lines describe it, and how its rows are passed.
#[derive(Drop)]
pub(crate) struct StreamCase<'a> {
    pub(crate) alloc: Global,
    /// The name of the section, or the empty text before the first one.
    pub(crate) section: &'a str,
    /// The number of the line at which it begins.
    pub(crate) line: usize,
    pub(crate) config: Box<SpannedConfig>,
    /// The sizes of columns and rows.
    pub(crate) dimension: ConstantDimension,
    /// The names of the ways in which it is printed, and these.
    pub(crate) ways: Vec<(&'a str, Way)>,
    /// The numbers of rows that are given, if there are any.
    pub(crate) hints: Vec<Option<usize>>,
    /// Whether memory is refused, too.
    pub(crate) is_refused: bool,
    /// What is called, one after the other.
    pub(crate) steps: Vec<Step<'a>>,
    /// What all calls append.
    pub(crate) text: String,
}

impl<'a> StreamCase<'a> {
    /// No lines of a section, which begins at this line.
    pub(crate) fn new(
        alloc: Global,
        section: &'a str,
        line: usize,
    ) -> Result<StreamCase<'a>, AllocError> {
        let config = Box::new(alloc, SpannedConfig::new(alloc))?;
        Ok(StreamCase {
            alloc,
            section,
            line,
            config,
            dimension: ConstantDimension(Vec::new(alloc), Vec::new(alloc)),
            ways: Vec::new(alloc),
            hints: Vec::new(alloc),
            is_refused: false,
            steps: Vec::new(alloc),
            text: String::new(alloc),
        })
    }

    // Takes the next step.
    fn push_step(&mut self, kind: StepKind, cells: Vec<&'a str>) -> Result<(), CaseFault> {
        let step = Step {
            kind,
            cells,
            height: 1,
            is_last: false,
            is_pushed: false,
            fault: None,
            note: None,
            shown: None,
            has_line: false,
            bytes: self.text.len(),
        };
        self.steps.push(step).map_err(CaseFault::from)
    }

    // Follows a line that begins with a word.
    fn push_word(&mut self, line: &'a str) -> Result<(), CaseFault> {
        let (word, rest) = line.split_once(' ').unwrap_or((line, ""));
        match word {
            "by" => self.push_ways(rest),
            "hints" => self.push_hints(rest),
            "widths" => set_numbers(&mut self.dimension.0, rest),
            "heights" => set_numbers(&mut self.dimension.1, rest),
            "refused" => {
                self.is_refused = true;
                Ok(())
            }
            "error" => self.push_step(StepKind::Error, Vec::new(self.alloc)),
            "end" => self.push_step(StepKind::Finish, Vec::new(self.alloc)),
            "close" => self.push_step(StepKind::Close, Vec::new(self.alloc)),
            "=" | "!" | "note" | "shown" | "height" | "last" | "pushed" => self.push_told(
                word, rest,
            ),
            _ => apply(&mut *self.config, self.alloc, line).map_err(CaseFault::from),
        }
    }

    // Takes what is said of the latest step.
    fn push_told(&mut self, word: &str, rest: &'a str) -> Result<(), CaseFault> {
        let Some(step) = self.steps.last_mut() else {
            return Err(CaseFault::Unknown);
        };
        match word {
            "=" => {
                push_line(&mut self.text, step.has_line, rest)?;
                step.has_line = true;
                step.bytes = self.text.len();
            }
            "!" => step.fault = Some(rest),
            "note" => step.note = Some(rest),
            "shown" => step.shown = Some(rest),
            "height" => step.height = Words::new(rest).last_number()?,
            "last" => step.is_last = true,
            _ => step.is_pushed = true,
        }
        Ok(())
    }

    // Takes the ways in which the table is printed.
    fn push_ways(&mut self, names: &'a str) -> Result<(), CaseFault> {
        for name in names.split(' ') {
            self.ways.push((name, Way::named(name)?))?;
        }
        Ok(())
    }

    // Takes the numbers of rows that are given.
    fn push_hints(&mut self, words: &str) -> Result<(), CaseFault> {
        for word in words.split(' ') {
            let hint = match word {
                "none" => None,
                _ => Some(Words::new(word).last_number()?),
            };
            self.hints.push(hint)?;
        }
        Ok(())
    }
}

impl<'a> Case<'a> for StreamCase<'a> {
    // A section is printed when the next one begins.
    fn follow(
        &mut self,
        number: usize,
        line: &'a str,
        report: &mut Report,
    ) -> Result<(), CaseFault> {
        match Line::of(line) {
            Line::Comment => Ok(()),
            Line::Section(section) => {
                self.print(report);
                let begun = StreamCase::new(self.alloc, section, number)?;
                drop(mem::replace(self, begun));
                self.push_step(StepKind::Make, Vec::new(self.alloc))
            }
            Line::Row(row) => {
                let cells = texts_of_row(self.alloc, row)?;
                self.push_step(StepKind::Row, cells)
            }
            Line::Words(words) => self.push_word(words),
            Line::Way => Err(CaseFault::Unknown),
        }
    }

    fn finish(&mut self, report: &mut Report) -> Result<(), CaseFault> {
        self.print(report);
        check_others(self.alloc, report);
        Ok(())
    }
}

// Appends a line to a text, which has one already or not.
fn push_line(text: &mut String, has_line: bool, line: &str) -> Result<(), AllocError> {
    if has_line {
        text.push('\n')?;
    }
    text.push_str(line)
}
