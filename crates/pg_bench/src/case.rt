//! The lines of a case, what their words say, and why a line or a case isn't followed.

use crate::tables::refusal::Refusal;
use pg_layout::RecordsFault;
use pg_picture::PrintFault;
use pg_picture::fits::Misfit;
use pg_stream::{RowsFault, StreamFault};
use pg_table::TableFault;
use pg_testing::LineFault;
use pg_testing::lines::NumberedLine;
use pg_testing::report::Report;
use std::alloc::{AllocError, AllocFailed, Global};

/// What is wrong with a call.
#[derive(Debug, Clone, Copy, PartialEq, Eq)]
pub(crate) enum Wrong {
    /// What it returns.
    Answer,
    /// What the buffer holds.
    Text,
    /// What a printer says of itself.
    Note,
    /// What it returns or leaves, where a request for memory is refused.
    Request,
    /// How many requests come.
    Requests,
    /// What it returns or leaves, where the buffer has no more room.
    Room,
}

/// The first thing that is wrong, and the number of the step, of the request or of the bytes at which it is.
pub(crate) type Mismatch = (Wrong, u64);

/// What follows the lines of a subject, one after the other.
pub(crate) trait Case<'a> {
    /// Follows the line of this number.
    fn follow(
        &mut self,
        number: usize,
        line: &'a str,
        report: &mut Report,
    ) -> Result<(), CaseFault>;

    /// Ends the last section.
    fn finish(&mut self, report: &mut Report) -> Result<(), CaseFault>;
}

/// Follows all lines, if there is memory for what follows them.
pub(crate) fn follow_all<'a, C: Case<'a> + Drop>(
    begun: Result<C, AllocError>,
    lines: &'a [NumberedLine],
    report: &mut Report,
) {
    let mut case = match begun {
        Ok(case) => case,
        Err(fault) => return report.refuse(0, "the first section", fault),
    };
    for (number, line) in lines {
        let followed = case.follow(*number, line, report);
        report.take(*number, line, followed);
    }
    let finished = case.finish(report);
    report.take(0, "the last section", finished);
}

/// Why a line or a case isn't followed.
#[derive(Debug, Clone, Copy)]
pub(crate) enum CaseFault {
    /// The line isn't understood.
    Unknown,
    /// A table has neither a picture nor a refusal.
    Unanswered,
    /// A table whose rows come one at a time isn't ended.
    Unended,
    /// Records have rows of several lengths.
    Ragged,
    /// A table doesn't fit.
    Unfit,
    /// A table of natural sizes refuses the rows, a line below their header, or a title.
    Table(Refusal),
    /// Memory was refused.
    Memory,
}

impl From<AllocError> for CaseFault {
    fn from(_error: AllocError) -> CaseFault {
        CaseFault::Memory
    }
}

impl<T: Drop> From<AllocFailed<T>> for CaseFault {
    fn from(_error: AllocFailed<T>) -> CaseFault {
        CaseFault::Memory
    }
}

impl From<LineFault> for CaseFault {
    fn from(fault: LineFault) -> CaseFault {
        match fault {
            LineFault::Unknown => CaseFault::Unknown,
            LineFault::Memory => CaseFault::Memory,
        }
    }
}

impl From<TableFault> for CaseFault {
    fn from(fault: TableFault) -> CaseFault {
        CaseFault::Table(Refusal::from(fault))
    }
}

impl From<RecordsFault> for CaseFault {
    fn from(_fault: RecordsFault) -> CaseFault {
        CaseFault::Ragged
    }
}

impl From<Misfit> for CaseFault {
    fn from(_misfit: Misfit) -> CaseFault {
        CaseFault::Unfit
    }
}

impl From<PrintFault> for CaseFault {
    fn from(fault: PrintFault) -> CaseFault {
        CaseFault::Table(Refusal::from(fault))
    }
}

impl From<StreamFault> for CaseFault {
    fn from(_fault: StreamFault) -> CaseFault {
        CaseFault::Unfit
    }
}

impl From<RowsFault<AllocError>> for CaseFault {
    fn from(_fault: RowsFault<AllocError>) -> CaseFault {
        CaseFault::Unfit
    }
}

/// The number that a word writes.
pub(crate) fn number_of(word: &str) -> Result<usize, CaseFault> {
    word.parse::<usize>().ok().ok_or(CaseFault::Unknown)
}

/// Takes the numbers that words write, in place of those in the list.
pub(crate) fn set_numbers(numbers: &mut Vec<usize>, words: &str) -> Result<(), CaseFault> {
    numbers.clear();
    for word in words.split(' ') {
        numbers.push(number_of(word)?)?;
    }
    Ok(())
}

/// Texts of their own.
pub(crate) fn owned_row(alloc: Global, row: &[&str]) -> Result<Vec<String>, AllocError> {
    let mut texts = Vec::new(alloc);
    for text in row {
        texts.push(String::from_str(alloc, text)?)?;
    }
    Ok(texts)
}

/// Adds a line to the lines of a text, if there are any yet.
pub(crate) fn push_line(
    alloc: Global,
    lines: &mut Option<String>,
    line: &str,
) -> Result<(), AllocError> {
    match lines {
        Some(lines) => {
            lines.push('\n')?;
            lines.push_str(line)
        }
        None => {
            *lines = Some(String::from_str(alloc, line)?);
            Ok(())
        }
    }
}
