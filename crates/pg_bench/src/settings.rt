//! What configurations return: lines set something and ask for it, beside answers that were worked out by hand.
//!
//! ```text
//! : an override comes before the glyph of the borders
//! borders top=- left=|
//! ? get_horizontal 0 0 2 = -
//! border 0 0 top=t
//! ? get_horizontal 0 0 2; 0 1 2 = t -
//!
//! each 0 0; 2 2
//! * : a span is answered at its place
//! * column_span $1 3
//! * ? get_column_span $1 = 3
//! ```
//!
//! A section begins with a new configuration. Its lines, besides those of every part:
//!
//! - A setting is applied, and `color 0 0 <r>|</r>` gives a cell a colour. First each request for memory that this
//!   makes is refused in turn: a call that is refused one says so, and changes nothing that is watched.
//! - `watch QUESTION` has the answers to a question watched, from there to the end of the section.
//! - `again SETTING` takes no memory and changes nothing that is watched, and `never SETTING` is refused whatever
//!   memory there is: two answers, of which one is that of all that is watched.
//! - `refused 9`: no fewer requests were refused in this section: one answer.
//! - `? QUESTION = ANSWER` asks a getter. The question is its name and the numbers that it takes: a row
//!   and a column, or a line, and the rows, the columns or both of a table. It is asked once for each of
//!   several lists of numbers, which `; ` parts, and the answers stand behind one another.
//!
//! Answers are written as in settings:
//!
//! - a number, `yes` or `no`, the name of an alignment;
//! - a glyph, or `space`; a colour as its prefix, `|` and its suffix;
//! - four words for the sides left, right, top and bottom; `end 2` counts from the end;
//! - `on off on` for a formatting: each line is trimmed, blank lines aren't left out, and each line is
//!   aligned by its own width;
//! - `at 1 0 size 2 3` for the rectangle of a cell in row 1 that has two rows and three columns;
//! - `top=- left=|` for the borders that have a glyph.
//!
//! `none` stands for what isn't there. The spans themselves are asked by `next_from`, `last_before` and
//! `spans`, which are all of them, and the colour of a cell by `get_color`. Some questions are answered by several getters:
//!
//! - `cell 1 2`: padding and its colours, both alignments, the formatting, the justification and its
//!   colour;
//! - `glyphs_round 1 2 9`: the glyphs round a cell of a table of 9 rows and columns, above and below it,
//!   left and right of it, and at its corners from the top left one to the bottom right one, a point for
//!   none; `colors_round` likewise, by prefixes;
//! - `row_line 1 2 3`: the glyphs of row line 1 in a table of 2 rows and 3 columns, crossings and
//!   horizontals in turn;
//! - `lookup_vertical_char 1 2 8`: what was set for each of 8 glyphs, a point for none, and of colours the
//!   prefixes; `lookups 1 2 8`: these of the horizontal, its colours, the vertical and its colours.

use crate::case::{Case, CaseFault, Wrong};
use crate::settings::question::{Answer, write_answers};
use pg_config::SpannedConfig;
use pg_layout::{ANSIBuf, Colors, ColorsMap};
use pg_testing::refusing::Refusing;
use pg_testing::report::Report;
use pg_testing::settings::{Words, apply, set_cell_color};
use pg_testing::{Line, LineFault};
use std::alloc::{AllocError, Global};
use std::mem;

mod question;

/// The memory of configurations and of colours.
pub(crate) type Memory<'m> = &'m Refusing<Global>;

/// A configuration that takes it.
pub(crate) type Config<'m> = SpannedConfig<Memory<'m>>;

/// A colour that takes it.
pub(crate) type Color<'m> = ANSIBuf<Memory<'m>>;

/// More requests for memory than a setting makes.
const MANY: u64 = 1000;

/// A configuration as the lines of a section set it, with the colours of cells.
#[derive(Drop)]
pub(crate) struct SettingsCase<'a> {
    alloc: Global,
    memory: Memory<'a>,
    // The name of the section, or the empty text before the first one.
    section: &'a str,
    config: Box<Config<'a>>,
    colors: ColorsMap<Memory<'a>>,
    // The questions whose answers a refused setting must not change.
    watched: Vec<&'a str>,
    // How many requests for memory were refused in this section.
    refused: usize,
}

impl<'a> SettingsCase<'a> {
    /// No lines of a section.
    pub(crate) fn new(
        alloc: Global,
        memory: Memory<'a>,
        section: &'a str,
    ) -> Result<SettingsCase<'a>, AllocError> {
        let config = Box::new(alloc, SpannedConfig::new(memory))?;
        Ok(SettingsCase {
            alloc,
            memory,
            section,
            config,
            colors: ColorsMap::new(memory),
            watched: Vec::new(alloc),
            refused: 0,
        })
    }

    // Follows a line that sets or asks something.
    fn follow_words(
        &mut self,
        number: usize,
        line: &'a str,
        report: &mut Report,
    ) -> Result<(), CaseFault> {
        let (word, rest) = line.split_once(' ').unwrap_or((line, ""));
        match word {
            "?" => self.ask(number, rest, report),
            "watch" => self.watched.push(rest).map_err(CaseFault::from),
            "refused" => {
                let is_refused = self.refused >= Words::new(rest).last_number()?;
                report.compare((number, self.section), line, is_refused, true);
                Ok(())
            }
            "again" => self.apply_unchanging(number, rest, Ok(()), report),
            "never" => self.apply_unchanging(number, rest, Err(LineFault::Memory), report),
            _ => self.apply_refused(number, line, report),
        }
    }

    // Applies a setting, or the colour of a cell.
    fn apply(&mut self, line: &str) -> Result<(), LineFault> {
        match line.strip_prefix("color ") {
            Some(color) => set_cell_color(&mut self.colors, self.memory, color),
            None => apply(&mut *self.config, self.memory, line),
        }
    }

    // Applies a setting while each of its requests for memory is refused in turn, until none is.
    fn apply_refused(
        &mut self,
        number: usize,
        line: &str,
        report: &mut Report,
    ) -> Result<(), CaseFault> {
        let before = self.watched_answers();
        let before = before.words()?;
        for request in 0..MANY {
            self.memory.refuse_only(request);
            let applied = self.apply(line);
            if !self.memory.has_refused() {
                return applied.map_err(CaseFault::from);
            }
            self.refused = self.refused.saturating_add(1);
            if applied != Err(LineFault::Memory) || !self.still_answers(before) {
                report.refuse(number, line, (Wrong::Request, request));
                return Ok(());
            }
        }
        report.refuse(number, line, (Wrong::Requests, MANY));
        Ok(())
    }

    // Applies a setting that returns this without any request for memory, and changes nothing that is watched.
    fn apply_unchanging(
        &mut self,
        number: usize,
        line: &str,
        expected: Result<(), LineFault>,
        report: &mut Report,
    ) -> Result<(), CaseFault> {
        let before = self.watched_answers();
        let before = before.words()?;
        self.memory.refuse_only(0);
        let applied = self.apply(line);
        let is_refused = self.memory.has_refused();
        let place = (number, self.section);
        report.compare(place, line, (applied, is_refused), (expected, false));
        let after = self.watched_answers();
        report.compare(place, line, after.words().ok(), Some(before));
        Ok(())
    }

    // What the questions that are watched return.
    fn watched_answers(&self) -> Answer {
        let mut answer = Answer::new(self.alloc);
        for question in &self.watched {
            self.write_answers(question, &mut answer);
        }
        answer
    }

    // Whether the questions that are watched have these answers.
    fn still_answers(&self, before: &str) -> bool {
        let answers = self.watched_answers();
        match answers.words() {
            Ok(after) => after == before,
            Err(_) => false,
        }
    }

    // Writes what a question returns.
    fn write_answers(&self, question: &str, answer: &mut Answer) {
        match question.strip_prefix("get_color ") {
            Some(place) => {
                let mut words = Words::new(place);
                let pos = words.place();
                match words.end(pos) {
                    Ok(pos) => answer.push_color(self.colors.get_color(pos)),
                    Err(fault) => answer.fail(CaseFault::from(fault)),
                }
            }
            None => write_answers(&*self.config, self.alloc, question, answer),
        }
    }

    // Compares the answer to a question with the one that follows it.
    fn ask(&self, number: usize, text: &str, report: &mut Report) -> Result<(), CaseFault> {
        let Some((question, expected)) = text.split_once(" = ") else {
            return Err(CaseFault::Unknown);
        };
        let mut answer = Answer::new(self.alloc);
        self.write_answers(question, &mut answer);
        report.compare((number, self.section), question, answer.words()?, expected);
        Ok(())
    }
}

impl<'a> Case<'a> for SettingsCase<'a> {
    fn follow(
        &mut self,
        number: usize,
        line: &'a str,
        report: &mut Report,
    ) -> Result<(), CaseFault> {
        match Line::of(line) {
            Line::Comment => Ok(()),
            Line::Section(section) => {
                report.count_case();
                let begun = SettingsCase::new(self.alloc, self.memory, section)?;
                drop(mem::replace(self, begun));
                Ok(())
            }
            Line::Words(line) if !self.section.is_empty() => self.follow_words(
                number, line, report,
            ),
            _ => Err(CaseFault::Unknown),
        }
    }

    fn finish(&mut self, _report: &mut Report) -> Result<(), CaseFault> {
        Ok(())
    }
}
