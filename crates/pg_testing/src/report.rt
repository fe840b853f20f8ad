//! Counts, and a line for each result that isn't the expected one.

use std::alloc::Global;
use std::fmt::Debug;
use std::io::{self, Write};

/// Counts, and a line for each result that isn't the expected one.
#[derive(Drop)]
pub struct Report {
    // How many cases there were.
    cases: u64,
    // How many results were compared.
    answers: u64,
    // How many lines there are in `lines`.
    faults: u64,
    lines: String,
}

impl Report {
    /// Nothing was compared.
    pub fn new(alloc: Global) -> Report {
        Report {
            cases: 0,
            answers: 0,
            faults: 0,
            lines: String::new(alloc),
        }
    }

    /// Counts a case.
    pub fn count_case(&mut self) {
        self.cases = self.cases.saturating_add(1);
    }

    /// Compares the result of this call, of the case at this line in this section, with the
    /// expected one, which was worked out.
    ///
    /// A wrong result is counted even if there is no memory for its line.
    pub fn compare<T: PartialEq + Debug>(
        &mut self,
        (line, section): (usize, &str),
        call: &str,
        answer: T,
        expected: T,
    )
    where
        T: Drop,
    {
        self.answers = self.answers.saturating_add(1);
        if answer != expected {
            self.faults = self.faults.saturating_add(1);
            let _ = writeln!(
                self.lines,
                "line {line}, {section}: {call}: {answer:?} in place of {expected:?}"
            );
        }
    }

    /// Counts a line that isn't followed, or whose case isn't.
    pub fn refuse<F: Debug + Drop>(&mut self, line: usize, text: &str, fault: F) {
        self.faults = self.faults.saturating_add(1);
        let _ = writeln!(self.lines, "line {line}, {text}: {fault:?}");
    }

    /// Counts a line if it wasn't followed, or if its case wasn't.
    pub fn take<F: Debug + Drop>(&mut self, line: usize, text: &str, followed: Result<(), F>) {
        if let Err(fault) = followed {
            self.refuse(line, text, fault);
        }
    }

    /// Writes what was wrong, and the counts: of so many cases, which are `tables`, say, that were
    /// `drawn`. Returns whether nothing was wrong.
    pub fn write<W: Write>(&self, out: &mut W, (tables, drawn): (&str, &str)) -> io::Result<bool> {
        out.write_all(self.lines.as_bytes())?;
        let (cases, answers) = (self.cases, self.answers);
        let how = if self.faults == 0 {
            "as expected"
        } else {
            "with faults"
        };
        writeln!(
            out,
            "{cases} {tables} are {drawn} {how}, by {answers} answers"
        )?;
        out.flush()?;
        Ok(self.faults == 0)
    }
}
