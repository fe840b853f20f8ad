//! Scripts, and what the program `pgshow` answers to them: each is run by [`pg_show::run`], and some again and again
//! while memory is refused, or reads or writes fail.

use crate::case::{Case, CaseFault, owned_row};
use pg_testing::ledger::{Outcome, Rule, Trial};
use pg_testing::refusing::Refusing;
use pg_testing::report::Report;
use pg_testing::streams::{FailingReader, FailingWriter, PIECE};
use std::alloc::{AllocError, Global};

/// How a run ends: its exit status, and the text that it shows, or the line of its error.
#[derive(Drop)]
struct Answer {
    status: u8,
    text: String,
}

impl Answer {
    // The exit status, what is shown, and the line of the error.
    fn parts(&self) -> (u8, &str, &str) {
        if self.status == 0 {
            return (0, self.text.as_str(), "");
        }
        (self.status, "", self.text.as_str())
    }
}

/// A script, or what is common to the scripts of a section.
#[derive(Drop)]
struct Script<'a> {
    /// The number of the line at which it begins.
    number: usize,
    text: String,
    /// The words of the modes, where it has a line of them.
    modes: Option<&'a str>,
    /// Whether each run is also made while calls fail.
    is_failing: bool,
    answer: Option<Answer>,
}

impl<'a> Script<'a> {
    // No lines of a script, which begins at this line.
    fn new(alloc: Global, number: usize) -> Script<'a> {
        Script {
            number,
            text: String::new(alloc),
            modes: None,
            is_failing: false,
            answer: None,
        }
    }

    // Takes what follows a mark.
    fn take(&mut self, alloc: Global, mark: &str, text: &'a str) -> Result<(), CaseFault> {
        match mark {
            ">" => push_line(&mut self.text, text).map_err(CaseFault::from),
            "=" => self.take_answer(alloc, 0, text),
            "!" => {
                let (status, line) = text.split_once(' ').unwrap_or((text, ""));
                match status.parse::<u8>() {
                    Ok(status) => self.take_answer(alloc, status, line),
                    Err(_) => Err(CaseFault::Unknown),
                }
            }
            "~" if text.is_empty() => {
                self.is_failing = true;
                Ok(())
            }
            "@" if self.modes.is_none() => {
                self.modes = Some(text);
                Ok(())
            }
            _ => Err(CaseFault::Unknown),
        }
    }

    // Takes a line that is shown, or the line of an error.
    fn take_answer(&mut self, alloc: Global, status: u8, line: &str) -> Result<(), CaseFault> {
        match &mut self.answer {
            Some(answer) if answer.status == 0 && status == 0 => {
                push_line(&mut answer.text, line).map_err(CaseFault::from)
            }
            Some(_) => Err(CaseFault::Unknown),
            None => {
                let mut text = String::new(alloc);
                push_line(&mut text, line)?;
                self.answer = Some(Answer { status, text });
                Ok(())
            }
        }
    }
}

/// A section, and its script that is read.
#[derive(Drop)]
pub(crate) struct ScriptCase<'a> {
    alloc: Global,
    /// The name of the section, or the empty text before the first one.
    section: &'a str,
    common: Script<'a>,
    own: Option<Script<'a>>,
}

impl<'a> ScriptCase<'a> {
    /// No section.
    pub(crate) fn new(alloc: Global) -> ScriptCase<'a> {
        ScriptCase {
            alloc,
            section: "",
            common: Script::new(alloc, 0),
            own: None,
        }
    }

    // Runs the script that was read: that of the section, where it has no other. Before the first section there
    // is none.
    fn run(&mut self, report: &mut Report) -> Result<(), CaseFault> {
        if self.section.is_empty() {
            return Ok(());
        }
        let own = match self.own.take() {
            Some(own) => own,
            None => Script::new(self.alloc, self.common.number),
        };
        self.run_modes(&own, report)
    }

    // Runs a script in each of its modes.
    fn run_modes(&self, own: &Script<'a>, report: &mut Report) -> Result<(), CaseFault> {
        report.count_case();
        let modes = own.modes.or(self.common.modes).unwrap_or("");
        let answer = own.answer.as_ref().or(self.common.answer.as_ref());
        let answer = answer.ok_or(CaseFault::Unanswered)?;
        let text = format!(in self.alloc; "{}{}", self.common.text, own.text)?;
        let is_failing = own.is_failing || self.common.is_failing;
        for mode in modes.split(' ') {
            let words = owned_row(self.alloc, &[mode])?;
            let given = Given {
                alloc: self.alloc,
                words: &words,
                script: &text,
                answer: answer.parts(),
            };
            self.run_one((own.number, mode), given, is_failing, report);
        }
        Ok(())
    }

    // Makes a run, by itself and perhaps while calls fail.
    fn run_one(
        &self,
        (number, mode): (usize, &str),
        given: Given<'_>,
        is_failing: bool,
        report: &mut Report,
    ) {
        let run = Run::new(given, Kind::Memory, Rule::Never);
        let (status, shown, told) = given.answer;
        let answer = (
            run.status,
            str::from_utf8(&run.out).ok(),
            str::from_utf8(&run.err).ok(),
        );
        let expected = (status, Some(shown), Some(told));
        report.compare((number, self.section), mode, answer, expected);
        if is_failing {
            if let Some(slip) = slip_of(given) {
                report.refuse(number, mode, slip);
            }
        }
    }

    // The script that is read, or what is common to the scripts of the section.
    fn script(&mut self) -> &mut Script<'a> {
        match &mut self.own {
            Some(own) => own,
            None => &mut self.common,
        }
    }
}

impl<'a> Case<'a> for ScriptCase<'a> {
    // A script is run when the next one begins.
    fn follow(
        &mut self,
        number: usize,
        line: &'a str,
        report: &mut Report,
    ) -> Result<(), CaseFault> {
        let (mark, text) = line.split_once(' ').unwrap_or((line, ""));
        match mark {
            "" | "#" => Ok(()),
            ":" => {
                let run = self.run(report);
                self.section = text;
                self.common = Script::new(self.alloc, number);
                run
            }
            "-" | "+" => {
                if self.own.is_some() {
                    self.run(report)?;
                }
                let mut own = Script::new(self.alloc, number);
                if mark == "+" {
                    push_line(&mut own.text, text)?;
                }
                self.own = Some(own);
                Ok(())
            }
            _ => {
                let alloc = self.alloc;
                self.script().take(alloc, mark, text)
            }
        }
    }

    fn finish(&mut self, report: &mut Report) -> Result<(), CaseFault> {
        self.run(report)
    }
}

// Appends a line of a script or of an answer: its pictures as what they mean, and a line feed
// unless it says that there is none.
fn push_line(text: &mut String, line: &str) -> Result<(), AllocError> {
    let (line, end) = match line.strip_suffix('␃') {
        Some(line) => (line, ""),
        None => (line, "\n"),
    };
    for c in line.chars() {
        text.push(meaning(c))?;
    }
    text.push_str(end)
}

// What a character means.
fn meaning(c: char) -> char {
    match c {
        '␉' => '\t',
        '⍽' => '\u{a0}',
        '␂' => '\u{feff}',
        _ => c,
    }
}

/// Calls of a run that may fail.
#[derive(Debug, Clone, Copy)]
pub(crate) enum Kind {
    /// Requests for memory.
    Memory,
    /// Reads of the script.
    Read,
    /// Writes of the table, and its flush.
    Write,
    /// Writes of the error line, and its flush.
    Tell,
}

/// A script, and how its run ends where no call fails.
#[derive(Clone, Copy)]
pub(crate) struct Given<'c> {
    pub(crate) alloc: Global,
    /// The arguments.
    pub(crate) words: &'c [String],
    pub(crate) script: &'c str,
    /// The exit status, what is shown, and the line of the error.
    pub(crate) answer: (u8, &'c str, &'c str),
}

/// What a run leaves.
#[derive(Drop)]
pub(crate) struct Run {
    /// The exit status.
    pub(crate) status: u8,
    /// What was written of a table.
    pub(crate) out: Vec<u8>,
    /// What was written of an error.
    pub(crate) err: Vec<u8>,
    /// Whether a call failed by the rule.
    pub(crate) has_failed: bool,
    /// How many calls came of the kind that the rule is for.
    pub(crate) calls: u64,
}

impl Run {
    /// Runs a script while calls of a kind fail by a rule.
    pub(crate) fn new(given: Given<'_>, kind: Kind, rule: Rule) -> Run {
        let never = Rule::Never;
        let (requests, reads, writes, tells) = match kind {
            Kind::Memory => (rule, never, never, never),
            Kind::Read => (never, rule, never, never),
            Kind::Write => (never, never, rule, never),
            Kind::Tell => (never, never, never, rule),
        };
        let memory = Refusing::by_rule(given.alloc, requests);
        let (mut out, mut err) = (Vec::new(given.alloc), Vec::new(given.alloc));
        let mut input = FailingReader::new(given.script.as_bytes(), reads);
        let mut table = FailingWriter::new(&mut out, writes);
        let mut line = FailingWriter::new(&mut err, tells);
        let ending = pg_show::run(&memory, given.words, &mut input, &mut table, &mut line);
        let status = ending.status();
        let (has_failed, calls) = match kind {
            Kind::Memory => (memory.has_refused(), memory.requests()),
            Kind::Read => (input.has_failed(), input.reads()),
            Kind::Write => (table.has_failed(), table.writes()),
            Kind::Tell => (line.has_failed(), line.writes()),
        };
        Run {
            status,
            out,
            err,
            has_failed,
            calls,
        }
    }

    /// Whether it leaves this, and nothing else.
    pub(crate) fn leaves(&self, status: u8, shown: &[u8], told: &str) -> bool {
        self.status == status
            && self.out.as_slice() == shown
            && self.err.as_slice() == told.as_bytes()
    }

    // Whether it leaves this status, no table, and a beginning of this line, which is written in pieces.
    fn leaves_part(&self, status: u8, told: &str) -> bool {
        let is_begun = told.as_bytes().starts_with(self.err.as_slice());
        self.status == status && self.out.is_empty() && is_begun
    }
}

/// A run whose calls of a kind fail in turn.
#[derive(Clone, Copy)]
struct FailingRun<'c> {
    given: Given<'c>,
    kind: Kind,
}

/// Makes a run while each call of each kind fails in turn, alone and with all behind it. Returns the first failure for
/// which it doesn't end as expected: the kind of the calls that fail, and the number of the first of them.
pub(crate) fn slip_of(given: Given<'_>) -> Option<(Kind, u64)> {
    for kind in [Kind::Memory, Kind::Read, Kind::Write, Kind::Tell] {
        let mut failing = FailingRun { given, kind };
        match failing.failures() {
            Ok(calls) if failing.are_enough(calls) => {}
            Ok(number) | Err(number) => return Some((kind, number)),
        }
    }
    None
}

// The first bytes of a text, at most so many.
fn first_bytes(text: &str, count: usize) -> &[u8] {
    let bytes = text.as_bytes();
    &bytes[..bytes.len().min(count)]
}

impl Trial for FailingRun<'_> {
    fn outcome(&mut self, number: u64) -> Outcome {
        let one = self.ended(Rule::Only(number), number);
        let all = self.ended(Rule::FromOn(number), number);
        if one == all { one } else { Outcome::Wrong }
    }
}

impl FailingRun<'_> {
    // Whether a whole run needs no more calls than so many: one for each piece that is read or written, and
    // one for the end or a flush.
    fn are_enough(&self, calls: u64) -> bool {
        let (_, shown, told) = self.given.answer;
        let bytes = match self.kind {
            Kind::Memory => 0,
            Kind::Read => self.given.script.len(),
            Kind::Write => shown.len(),
            Kind::Tell => told.len(),
        };
        bytes == 0 || calls > bytes.div_ceil(PIECE) as u64
    }

    // How the run ends where calls fail, of which the first is that of this number. What writes
    // before it took is there, and no read or write of its kind follows it.
    fn ended(&self, rule: Rule, number: u64) -> Outcome {
        let run = Run::new(self.given, self.kind, rule);
        let (status, shown, told) = self.given.answer;
        let is_whole = run.leaves(status, shown.as_bytes(), told);
        if !run.has_failed {
            return if is_whole {
                Outcome::Whole
            } else {
                Outcome::Wrong
            };
        }
        let taken = PIECE.saturating_mul(number as usize);
        let is_last = run.calls == number.saturating_add(1);
        // Where natural sizes are refused memory, sums alone may say that the table doesn't fit.
        let is_right = match self.kind {
            Kind::Memory => run.leaves(4, b"", "out of memory\n") || status == 3 && is_whole,
            Kind::Read => is_last && run.leaves(5, b"", "read failed\n"),
            Kind::Write => is_last && run.leaves(5, first_bytes(shown, taken), "write failed\n"),
            Kind::Tell => is_last && run.leaves_part(status, told),
        };
        if is_right {
            Outcome::Failed
        } else {
            Outcome::Wrong
        }
    }
}
