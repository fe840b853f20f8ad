//! Scripts that are read and printed while memory is refused, and how runs of `pgshow` end where the arguments, the
//! script or its reader are wrong, or where the line of an error can't be written.

use crate::case::{CaseFault, owned_row};
use crate::values::Fact;
use pg_show::{
    Ending, Fault, Mode, PrintFault, Script, ScriptFault, parse_script, print_script, run,
};
use pg_testing::ledger::{Outcome, Rule, Trial};
use pg_testing::refusing::Refusing;
use pg_testing::report::Report;
use pg_testing::streams::{EndlessReader, FailingWriter, PIECE};
use std::alloc::{AllocError, Global};
use std::io::{self, ErrorKind, Read};

/// Each kind of line that keeps something in memory, and a cell that goes on below its row.
const SCRIPT: &str = "\
size 2 2
widths 3 3
heights 1 2
borders ascii
cell 0 0 ab
cell 0 1 cd\\nef
cell 1 1 g
halign col 1 right
valign all bottom
pad cell 0 1 1 0 0 0
trim row 0 hv
lines all on
margin 1 0 0 0 #
color 0 0 31
span 0 0 2 1
";

const COMPACT: &str = "\
#+---+---+
#|\x1b[31mab\x1b[0m |cd |
#|---+---|
#|   |g  |
#+---+---+";

const SPANNED: &str = "\
#+---+---+
#|   | cd|
#+   +---+
#|   |   |
#|\x1b[31mab\x1b[0m |  g|
#+---+---+";

const NATURAL: &str = "\
+--+--+
|ab|cd|
|  |ef|
+--+--+
|  |g |
+--+--+";

/// What each mode prints of it.
const SHOWN: [(Mode, &str); 4] = [
    (Mode::Compact, COMPACT),
    (Mode::Iter, SPANNED),
    (Mode::Peek, SPANNED),
    (Mode::Table, NATURAL),
];

/// The script is too wide to be counted.
const TOO_WIDE: &str = "\
size 1 1
widths 18446744073709551615
borders ascii
pad all 18446744073709551615 0 0 0
";

/// A script that is read while each request for memory is refused in turn.
#[derive(Clone, Copy)]
struct RefusedReading {
    alloc: Global,
}

impl Trial for RefusedReading {
    fn outcome(&mut self, number: u64) -> Outcome {
        let one = read_outcome(&Refusing::only(self.alloc, number));
        let all = read_outcome(&Refusing::from_on(self.alloc, number));
        if one == all { one } else { Outcome::Wrong }
    }
}

// The script is read, or memory was refused.
fn read_outcome(memory: &Refusing<Global>) -> Outcome {
    let fault = parse_script(memory, SCRIPT.as_bytes()).err();
    match (fault, memory.has_refused()) {
        (None, false) => Outcome::Whole,
        (Some(ScriptFault::Memory), true) => Outcome::Failed,
        _ => Outcome::Wrong,
    }
}

// A request for the list of rows, for each row and each text, for two lists of sizes and the two that take
// their places, and for what is read.
fn each_refused_request_ends_the_reading(alloc: Global, report: &mut Report) {
    let mut fact = Fact::new(report, "each refused request ends the reading");
    let mut refused = RefusedReading { alloc };
    let are_enough = matches!(refused.failures(), Ok(10..));
    fact.holds(are_enough);
}

/// A script that is printed while each request for memory is refused in turn.
#[derive(Clone, Copy)]
struct RefusedPrinting<'s> {
    alloc: Global,
    script: &'s Script,
    mode: Mode,
    text: &'static str,
}

impl Trial for RefusedPrinting<'_> {
    fn outcome(&mut self, number: u64) -> Outcome {
        let one = self.printed(&Refusing::only(self.alloc, number));
        let all = self.printed(&Refusing::from_on(self.alloc, number));
        if one == all { one } else { Outcome::Wrong }
    }
}

impl RefusedPrinting<'_> {
    // The table is printed whole, or memory was refused and its beginning is there.
    fn printed(&self, memory: &Refusing<Global>) -> Outcome {
        let mut buf = String::new(memory);
        let fault = print_script(memory, self.script, self.mode, &mut buf).err();
        let is_whole = buf.as_str() == self.text;
        match (fault, memory.has_refused()) {
            (None, false) if is_whole => Outcome::Whole,
            (Some(PrintFault::Memory), true) if !is_whole && self.text.starts_with(buf.as_str()) =>
                Outcome::Failed,
            _ => Outcome::Wrong,
        }
    }
}

// One request comes at least.
fn each_refused_request_leaves_a_beginning(alloc: Global, script: &Script, report: &mut Report) {
    let mut fact = Fact::new(report, "each refused request leaves a beginning");
    for (mode, text) in SHOWN {
        let mut refused = RefusedPrinting {
            alloc,
            script,
            mode,
            text,
        };
        fact.same_at(text, matches!(refused.failures(), Ok(1..)), true);
    }
}

// Beside the memory of the buffer, the printers that read rows once and that work sizes out ask for
// some.
fn two_modes_ask_for_memory_of_their_own(alloc: Global, script: &Script, report: &mut Report) {
    let mut fact = Fact::new(report, "two modes ask for memory of their own");
    for (mode, text) in SHOWN {
        let memory = Refusing::from_on(alloc, 0);
        let mut buf = String::new(alloc);
        let is_printed = print_script(&memory, script, mode, &mut buf).is_ok();
        let asks = matches!(mode, Mode::Iter | Mode::Table);
        fact.same_at(text, (is_printed, memory.has_refused()), (!asks, asks));
        fact.same_at(text, text.starts_with(buf.as_str()), true);
    }
}

// The table of this script is printed, or doesn't fit, while all memory is refused, for which so many requests
// come.
fn check_asks(
    fact: &mut Fact<'_>,
    alloc: Global,
    (mode, requests): (Mode, u64),
    (script, is_printed): (&str, bool),
) -> Result<(), CaseFault> {
    let memory = Refusing::from_on(alloc, 0);
    let Ok(parsed) = parse_script(alloc, script.as_bytes()) else {
        return Err(CaseFault::Unknown);
    };
    let mut buf = String::new(&memory);
    let is_right = match print_script(&memory, &parsed, mode, &mut buf) {
        Ok(()) => is_printed,
        Err(PrintFault::Misfit(_)) => !is_printed,
        Err(PrintFault::Memory) => false,
    };
    fact.same_at(script, is_right, true);
    fact.same_at(script, (memory.requests(), buf.len()), (requests, 0));
    Ok(())
}

// A table with no rows or no columns takes no memory, and one that doesn't fit is refused before any is
// taken, but that natural sizes are asked for once.
fn tables_without_text_take_no_memory(alloc: Global, report: &mut Report) -> Result<(), CaseFault> {
    let mut fact = Fact::new(report, "tables without text take no memory");
    for (mode, _) in SHOWN {
        let sizes = u64::from(matches!(mode, Mode::Table));
        check_asks(&mut fact, alloc, (mode, sizes), (TOO_WIDE, false))?;
        for script in ["size 0 2", "size 2 0", "size 0 0"] {
            check_asks(&mut fact, alloc, (mode, 0), (script, true))?;
        }
    }
    Ok(())
}

/// All facts of this file.
pub(crate) fn check_scripts(alloc: Global, report: &mut Report) -> Result<(), CaseFault> {
    each_refused_request_ends_the_reading(alloc, report);
    let Ok(script) = parse_script(alloc, SCRIPT.as_bytes()) else {
        return Err(CaseFault::Unknown);
    };
    each_refused_request_leaves_a_beginning(alloc, &script, report);
    two_modes_ask_for_memory_of_their_own(alloc, &script, report);
    tables_without_text_take_no_memory(alloc, report)
}

/// The words that name a mode.
const MODES: [&str; 4] = ["compact", "iter", "peek", "table"];

/// The error line of wrong arguments.
const USAGE: &str = "usage: pgshow compact|iter|peek|table\n";

/// A script whose total width is no number of 64 bits.
const WITHOUT_TOTAL: &str = "size 1 2\nwidths 18446744073709551615 1\n";

/// Scripts with a line that is no UTF-8: without words, in a cell's text, and with a character that is cut off.
const NO_TEXTS: [(&[u8], &str); 6] = [
    (b"size 1 1\n\xff", "line 2: bad\n"),
    (b"size 1 1\n  \xff\n", "line 2: bad\n"),
    (b"size 1 1\ncell 0 0 \xff\n", "line 2: bad\n"),
    (b"size 1 1\ncell 0 0 \xe6\x97\n", "line 2: bad\n"),
    (b"size 1 1\nmargin 1 1 1 1 \xc0\x80\n", "line 2: bad\n"),
    (b"\xff\nsize 1 1\n", "line 1: bad\n"),
];

// A run with these arguments on this input shows nothing, and ends with this error line and this status.
fn check_refused<R: Read>(
    fact: &mut Fact<'_>,
    alloc: Global,
    words: &[&str],
    input: &mut R,
    (line, status): (&str, u8),
) {
    let Ok(arguments) = owned_row(alloc, words) else {
        return fact.holds(false);
    };
    let (mut out, mut err) = (Vec::new(alloc), Vec::new(alloc));
    let ending = run(alloc, &arguments, input, &mut out, &mut err);
    fact.same((ending.status(), out.len()), (status, 0));
    fact.same(err.as_slice(), line.as_bytes());
}

fn anything_but_one_mode_is_wrong(alloc: Global, report: &mut Report) {
    let mut fact = Fact::new(report, "anything but one mode is wrong");
    let wrong: [&[&str]; 4] = [&[], &["compact", "compact"], &["Compact"], &[""]];
    for words in wrong {
        let mut script = "size 1".as_bytes();
        check_refused(&mut fact, alloc, words, &mut script, (USAGE, 2));
    }
}

fn a_line_that_is_no_utf_8_is_bad(alloc: Global, report: &mut Report) {
    let mut fact = Fact::new(report, "a line that is no UTF-8 is bad");
    for (script, line) in NO_TEXTS {
        for mode in MODES {
            let mut script = script;
            check_refused(&mut fact, alloc, &[mode], &mut script, (line, 2));
        }
    }
}

// Without words a script is bad behind its last line.
fn short_reads_are_read_to_the_end(alloc: Global, report: &mut Report) {
    let mut fact = Fact::new(report, "short reads are read to the end");
    for mode in MODES {
        let input = &mut EndlessReader.take(10_000);
        check_refused(&mut fact, alloc, &[mode], input, ("line 10001: bad\n", 2));
    }
}

// An input that goes on after 16,777,216 reads is refused, whatever it is.
fn a_reader_without_an_end_is_refused(alloc: Global, report: &mut Report) {
    let mut fact = Fact::new(report, "a reader without an end is refused");
    let input = &mut EndlessReader;
    check_refused(&mut fact, alloc, &["peek"], input, ("read failed\n", 5));
}

// Arguments that can't be read for these errors end the run with this line and this status.
fn unread_arguments_end_the_run(alloc: Global, report: &mut Report) {
    let mut fact = Fact::new(report, "unread arguments end the run");
    for (error, line, status) in [
        (io::Error::from(AllocError), "out of memory\n", 4),
        (
            io::Error::from(ErrorKind::OutOfMemory),
            "out of memory\n",
            4,
        ),
        (io::Error::from(ErrorKind::InvalidData), USAGE, 2),
    ] {
        let mut err = Vec::new(alloc);
        let ending = Ending::with_fault(Fault::of_arguments(&error), &mut err);
        fact.same((ending.status(), ending.is_told), (status, true));
        fact.same(err.as_slice(), line.as_bytes());
    }
}

/// A fault whose error line is written while each write and flush fails in turn.
#[derive(Clone, Copy)]
struct UntoldFault {
    alloc: Global,
    fault: Fault,
    line: &'static str,
    status: u8,
}

impl Trial for UntoldFault {
    // A fault keeps its status, and says whether its line was written.
    fn outcome(&mut self, number: u64) -> Outcome {
        let mut told = Vec::new(self.alloc);
        let mut err = FailingWriter::new(&mut told, Rule::Only(number));
        let ending = Ending::with_fault(self.fault, &mut err);
        let is_told = !err.has_failed();
        let is_right = ending.status() == self.status && ending.is_told == is_told;
        let is_whole = told.as_slice() == self.line.as_bytes();
        match is_told {
            true if is_right && is_whole => Outcome::Whole,
            false if is_right && self.line.as_bytes().starts_with(&told) => Outcome::Failed,
            _ => Outcome::Wrong,
        }
    }
}

// The fault of a table that doesn't fit.
fn misfit(alloc: Global) -> Result<Fault, CaseFault> {
    let words = owned_row(alloc, &["peek"])?;
    let (mut out, mut err) = (Vec::new(alloc), Vec::new(alloc));
    let mut script = WITHOUT_TOTAL.as_bytes();
    let ending = run(alloc, &words, &mut script, &mut out, &mut err);
    ending.fault.ok_or(CaseFault::Unanswered)
}

// At least a write of each three bytes and a flush fail.
fn each_fault_keeps_its_status_where_it_is_not_told(
    alloc: Global,
    report: &mut Report,
) -> Result<(), CaseFault> {
    let mut fact = Fact::new(report, "each fault keeps its status where it is not told");
    for (fault, line, status) in [
        (Fault::Usage, USAGE, 2),
        (Fault::Bad(7), "line 7: bad\n", 2),
        (misfit(alloc)?, "does not fit: totals\n", 3),
        (Fault::Memory, "out of memory\n", 4),
        (Fault::Read, "read failed\n", 5),
        (Fault::Write, "write failed\n", 5),
    ] {
        let mut untold = UntoldFault {
            alloc,
            fault,
            line,
            status,
        };
        let are_enough = match untold.failures() {
            Ok(writes) => writes > line.len().div_ceil(PIECE) as u64,
            Err(_) => false,
        };
        fact.same_at(line, are_enough, true);
    }
    Ok(())
}

// A run on a script that is bad in line 2 says whether the writer of errors, which fails by this rule, took its
// line.
fn an_ending_says_whether_its_fault_is_told(
    alloc: Global,
    report: &mut Report,
) -> Result<(), AllocError> {
    let mut fact = Fact::new(report, "an ending says whether its fault is told");
    for mode in MODES {
        for (rule, line) in [(Rule::Never, "line 2: bad\n"), (Rule::FromOn(0), "")] {
            let words = owned_row(alloc, &[mode])?;
            let (mut out, mut told) = (Vec::new(alloc), Vec::new(alloc));
            let mut err = FailingWriter::new(&mut told, rule);
            let mut script = "size 1 1\nwidth 5\n".as_bytes();
            let ending = run(alloc, &words, &mut script, &mut out, &mut err);
            fact.holds(matches!(ending.fault, Some(Fault::Bad(2))));
            fact.same((ending.is_told, out.len()), (!line.is_empty(), 0));
            fact.same(told.as_slice(), line.as_bytes());
        }
    }
    Ok(())
}

/// All facts of this file.
pub(crate) fn check_endings(alloc: Global, report: &mut Report) -> Result<(), CaseFault> {
    anything_but_one_mode_is_wrong(alloc, report);
    a_line_that_is_no_utf_8_is_bad(alloc, report);
    short_reads_are_read_to_the_end(alloc, report);
    a_reader_without_an_end_is_refused(alloc, report);
    unread_arguments_end_the_run(alloc, report);
    each_fault_keeps_its_status_where_it_is_not_told(alloc, report)?;
    an_ending_says_whether_its_fault_is_told(alloc, report).map_err(CaseFault::from)
}
