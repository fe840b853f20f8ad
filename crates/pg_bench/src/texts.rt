//! Texts within a width, beside what becomes of them, which was worked out by hand.
//!
//! ```text
//! : words stay whole
//! |one two three|
//! wrap 7 words
//! = one two
//! = three
//! cut 7 …
//! = one tw…
//! least words 1
//! ```
//!
//! The lines of a section, besides those of every part:
//!
//! - `|TEXT|` is the text that the lines below it are about.
//! - `wrap 7 words` and `wrap 7 anywhere` break its lines. `cut 7 …`, `cut_front 7 …` and `cut_middle 7 …` cut
//!   them, with this tail, or none. `visible` makes control characters visible, and `without_escapes` leaves out
//!   escape sequences.
//! - `= LINE` is the next line of what the call above it gives; `=` alone is an empty one.
//! - `least words 1` is its least width where it is broken so: one answer.
//!
//! What a call gives is compared, and then the call is made again and again, each time with another request for
//! memory refused, which it has to say: two answers.

use crate::case::{Case, CaseFault, push_line};
use pg_fit::{Breaking, cut, cut_front, cut_middle, least_width, visible, without_escapes, wrap};
use pg_testing::ledger::{Outcome, Trial};
use pg_testing::refusing::Refusing;
use pg_testing::report::Report;
use pg_testing::settings::Words;
use pg_testing::{Line, LineFault, texts_of_row};
use std::alloc::{AllocError, Allocator, Global};

/// A text, and a call that fits it.
#[derive(Drop)]
pub(crate) struct TextCase<'a> {
    alloc: Global,
    section: &'a str,
    text: &'a str,
    // The number of the line of the call, its name, and the call.
    call: Option<(usize, &'a str, FitCall<'a>)>,
    // The lines so far of what it is to give.
    made: Option<String>,
}

impl<'a> TextCase<'a> {
    /// No section.
    pub(crate) fn new(alloc: Global) -> TextCase<'a> {
        TextCase {
            alloc,
            section: "",
            text: "",
            call: None,
            made: None,
        }
    }

    // Follows a line that begins with a word.
    fn push_words(
        &mut self,
        number: usize,
        line: &'a str,
        report: &mut Report,
    ) -> Result<(), CaseFault> {
        let (word, rest) = line.split_once(' ').unwrap_or((line, ""));
        if word == "=" {
            return push_line(self.alloc, &mut self.made, rest).map_err(CaseFault::from);
        }
        self.make(report)?;
        if word == "least" {
            return self.ask_least(number, rest, report);
        }
        self.call = Some((number, word, FitCall::of(word, rest)?));
        Ok(())
    }

    // Compares the least width.
    fn ask_least(&self, number: usize, rest: &str, report: &mut Report) -> Result<(), CaseFault> {
        let mut words = Words::new(rest);
        let least = least_width(self.text, breaking_of(words.word())?);
        let expected = words.last_number()?;
        report.compare((number, self.section), "least_width", least, expected);
        Ok(())
    }

    // Makes the call of the latest line that has one.
    fn make(&mut self, report: &mut Report) -> Result<(), CaseFault> {
        let Some((number, name, call)) = self.call.take() else {
            return Ok(());
        };
        let expected = self.made.take().ok_or(CaseFault::Unknown)?;
        let place = (number, self.section);
        report.count_case();
        let made = call.made(self.alloc, self.text)?;
        report.compare(place, name, made.as_str(), expected.as_str());
        let mut refused = RefusedFit {
            alloc: self.alloc,
            call,
            text: self.text,
        };
        report.compare(place, name, refused.failures().err(), None);
        Ok(())
    }
}

impl<'a> Case<'a> for TextCase<'a> {
    // Where what a call gives ends above the line, the call is made.
    fn follow(
        &mut self,
        number: usize,
        line: &'a str,
        report: &mut Report,
    ) -> Result<(), CaseFault> {
        match Line::of(line) {
            Line::Comment => Ok(()),
            Line::Section(section) => {
                let made = self.make(report);
                self.section = section;
                made
            }
            Line::Row(row) => {
                let made = self.make(report);
                self.text = text_of(self.alloc, row)?;
                made
            }
            Line::Words(line) => self.push_words(number, line, report),
            Line::Way => Err(CaseFault::Unknown),
        }
    }

    fn finish(&mut self, report: &mut Report) -> Result<(), CaseFault> {
        self.make(report)
    }
}

// The one text of a row.
fn text_of(alloc: Global, row: &str) -> Result<&str, CaseFault> {
    match texts_of_row(alloc, row)?.as_slice() {
        [text] => Ok(*text),
        _ => Err(CaseFault::Unknown),
    }
}

/// A call that makes a text of another one.
#[derive(Clone, Copy)]
enum FitCall<'a> {
    /// `wrap` at a width.
    Wrap(usize, Breaking),
    /// `cut` at a width, with a tail.
    Cut(usize, &'a str),
    /// `cut_front` at a width, with a tail.
    CutFront(usize, &'a str),
    /// `cut_middle` at a width, with a tail.
    CutMiddle(usize, &'a str),
    /// `visible`.
    Visible,
    /// `without_escapes`.
    WithoutEscapes,
}

/// The modes of breaking by their names.
pub(crate) fn breaking_of(word: &str) -> Result<Breaking, LineFault> {
    match word {
        "anywhere" => Ok(Breaking::Anywhere),
        "words" => Ok(Breaking::BetweenWords),
        _ => Err(LineFault::Unknown),
    }
}

impl<'a> FitCall<'a> {
    // The call of a line, by its first word and the rest.
    fn of(word: &str, rest: &'a str) -> Result<FitCall<'a>, LineFault> {
        let mut words = Words::new(rest);
        let call = match word {
            "wrap" => FitCall::Wrap(words.number(), breaking_of(words.word())?),
            "cut" => FitCall::Cut(words.number(), words.text()),
            "cut_front" => FitCall::CutFront(words.number(), words.text()),
            "cut_middle" => FitCall::CutMiddle(words.number(), words.text()),
            "visible" => FitCall::Visible,
            "without_escapes" => FitCall::WithoutEscapes,
            _ => return Err(LineFault::Unknown),
        };
        words.end(call)
    }

    // What becomes of a text.
    fn made<A: Allocator + Copy>(self, alloc: A, text: &str) -> Result<String<A>, AllocError> {
        match self {
            FitCall::Wrap(width, breaking) => wrap(alloc, text, width, breaking),
            FitCall::Cut(width, tail) => cut(alloc, text, width, tail),
            FitCall::CutFront(width, tail) => cut_front(alloc, text, width, tail),
            FitCall::CutMiddle(width, tail) => cut_middle(alloc, text, width, tail),
            FitCall::Visible => visible(alloc, text),
            FitCall::WithoutEscapes => without_escapes(alloc, text),
        }
    }
}

/// A call whose requests for memory are refused in turn.
#[derive(Clone, Copy)]
struct RefusedFit<'t> {
    alloc: Global,
    call: FitCall<'t>,
    text: &'t str,
}

impl Trial for RefusedFit<'_> {
    fn outcome(&mut self, number: u64) -> Outcome {
        let memory = Refusing::only(self.alloc, number);
        let is_made = self.call.made(&memory, self.text).is_ok();
        match (is_made, memory.has_refused()) {
            (true, false) => Outcome::Whole,
            (false, true) => Outcome::Failed,
            _ => Outcome::Wrong,
        }
    }
}
