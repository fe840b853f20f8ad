//! The program `pg_bench`: it follows cases from standard input, tables beside the pictures that were drawn of them
//! by hand among them, and reports each call that returns or appends something else.
//!
//! The input has a part for each subject, behind a line `== NAME`: `values`, which has no lines, `settings`, `texts`,
//! `tables`, `streams`, `scripts`, which has lines of its own ([`scripts`]), and `speed`, too ([`speed`]). The other
//! parts have sections:
//!
//! - `: NAME` begins a section.
//! - `|a|b|` is a row of texts: a bar before the first text, and one behind each. `|` is a row without cells, and
//!   `||` has one cell with an empty text.
//! - `= LINE` is the next line of what is expected; `=` alone is an empty one.
//! - A setting, as `borders ascii`, is applied to a configuration ([`pg_testing::settings`]).
//! - Empty lines and those that begin with `#` say nothing.
//!
//! The module of a subject has its other lines, and [`pg_testing::lines`] what stands for what can't be seen, and
//! blocks of lines that are followed several times. A line that isn't of these is reported. The last line of a part
//! counts its cases and the answers that were compared. The exit status is 1 where anything is wrong.
//!
//! With arguments it reads nothing: `pg_bench NAME N` builds a table of [`speed`] N times, so that it can be measured,
//! and `pg_bench --list` lists these tables.
#![tactic(auto)]

mod case;
mod scripts;
mod settings;
mod speed;
mod streams;
mod tables;
mod texts;
mod values;

use crate::case::{CaseFault, follow_all};
use crate::scripts::ScriptCase;
use crate::settings::SettingsCase;
use crate::speed::SpeedCase;
use crate::streams::StreamCase;
use crate::tables::TableCase;
use crate::texts::TextCase;
use crate::values::check_values;
use pg_testing::lines::{NumberedLine, read_lines};
use pg_testing::refusing::Refusing;
use pg_testing::report::Report;
use std::alloc::Global;
use std::env;
use std::io::{self, ErrorKind, Read, Write};
use std::process::ExitCode;
use std::rt::Env;

const USAGE: &str = "usage: pg_bench < CASES | pg_bench NAME N | pg_bench --list";

// Follows the lines of the part on a subject. Returns what its cases are, and what is done to them.
fn follow(
    alloc: Global,
    subject: &str,
    lines: &[NumberedLine],
    report: &mut Report,
) -> (&'static str, &'static str) {
    match subject {
        // Single values, which no section can write.
        "== values" => {
            check_values(alloc, report);
            ("facts", "found")
        }
        // What configurations return, whose memory is refused now and then.
        "== settings" => {
            let memory = Refusing::only(alloc, u64::MAX);
            follow_all(SettingsCase::new(alloc, &memory, ""), lines, report);
            ("sections", "answered")
        }
        // Texts within a width.
        "== texts" => {
            follow_all(Ok(TextCase::new(alloc)), lines, report);
            ("texts", "fitted")
        }
        // Tables that are in memory.
        "== tables" => {
            follow_all(TableCase::new(alloc, "", 0), lines, report);
            ("tables", "drawn")
        }
        // Tables whose rows come one at a time.
        "== streams" => {
            follow_all(StreamCase::new(alloc, "", 0), lines, report);
            ("tables", "printed")
        }
        // Scripts of `pgshow`.
        "== scripts" => {
            follow_all(Ok(ScriptCase::new(alloc)), lines, report);
            ("scripts", "answered")
        }
        // Tables that are built over and over where they are measured.
        "== speed" => {
            follow_all(Ok(SpeedCase { alloc }), lines, report);
            ("tables", "built")
        }
        _ => {
            report.refuse(0, subject, CaseFault::Unknown);
            ("lines", "followed")
        }
    }
}

// Follows the lines of a part, the first of which names its subject, and writes what isn't as expected, and how much
// was compared. Returns whether all is as expected.
fn check<W: Write>(alloc: Global, part: &[NumberedLine], out: &mut W) -> io::Result<bool> {
    let Some(((_, subject), lines)) = part.split_first() else {
        return Ok(true);
    };
    let mut report = Report::new(alloc);
    let words = follow(alloc, subject, lines, &mut report);
    report.write(out, words)
}

// The parts of a file, each with the line that names its subject. A line in front of the first one is an error.
fn parts_of(alloc: Global, lines: Vec<NumberedLine>) -> io::Result<Vec<Vec<NumberedLine>>> {
    let mut parts = Vec::new(alloc);
    for line in lines {
        if line.1.starts_with("== ") {
            parts.push(Vec::new(alloc))?;
        }
        match parts.last_mut() {
            Some(part) => part.push(line)?,
            None => return Err(io::Error::from(ErrorKind::InvalidData)),
        }
    }
    Ok(parts)
}

// Follows all cases of the input, and writes what isn't as expected, and for each subject how much was compared.
// Returns whether all is as expected.
fn follow_parts<R: Read + Drop, W: Write>(
    alloc: Global,
    input: R,
    out: &mut W,
) -> io::Result<bool> {
    let parts = parts_of(alloc, read_lines(alloc, input)?)?;
    let mut is_expected = true;
    for part in &parts {
        is_expected = check(alloc, part, out)? && is_expected;
    }
    Ok(is_expected)
}

// The arguments behind the program's name.
fn arguments(rt: &(impl Env + AllocGlobal)) -> io::Result<Vec<String>> {
    let words = env::args(rt)?.skip(1).collect(rt.alloc())?;
    Ok(words)
}

// Builds a table, or lists all of them. Returns whether the arguments are right.
fn measure(rt: &HostRuntime, words: &[String]) -> io::Result<bool> {
    let mut out = rt.stdout();
    let measured = match words {
        [word] if word.as_str() == "--list" => Ok(speed::list(&mut out)),
        [name, times] => speed::build_often(rt.alloc(), name, times, &mut out),
        _ => Err(CaseFault::Unknown),
    };
    match measured {
        Ok(written) => {
            written?;
            Ok(true)
        }
        Err(_) => {
            eprintln!(rt; "{USAGE}")?;
            Ok(false)
        }
    }
}

// Follows the cases of standard input, or does what the arguments say. Returns whether all is right.
fn run(rt: &HostRuntime) -> io::Result<bool> {
    let words = arguments(rt)?;
    if words.is_empty() {
        return follow_parts(rt.alloc(), rt.stdin(), &mut rt.stdout());
    }
    measure(rt, words.as_slice())
}

fn main(rt: HostRuntime) -> ExitCode {
    match run(&rt) {
        Ok(true) => ExitCode::SUCCESS,
        Ok(false) => ExitCode::FAILURE,
        Err(error) => {
            let _ = eprintln!(rt; "{error}");
            ExitCode::FAILURE
        }
    }
}
