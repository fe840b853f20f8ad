//! Tables of known sizes, built over and over, so that the printers can be measured.
//!
//! A line `NAME BYTES CHECKSUM` of the part `speed` builds the table of this name once, and compares how many bytes
//! its text has and their checksum. With arguments the program builds one table as often as they say.

use crate::case::{Case, CaseFault, number_of};
use crate::speed::case::{CASES, Case as Built};
use crate::speed::measure::text_of;
use pg_testing::Line;
use pg_testing::report::Report;
use std::alloc::Global;
use std::io::{self, Write};

pub(crate) mod case;
mod measure;
mod texts;

// Those of FNV-1a, a checksum of 64 bits.
const START: u64 = 0xcbf2_9ce4_8422_2325;

const PRIME: u64 = 0x0000_0100_0000_01b3;

/// The tables whose texts are compared.
#[derive(Clone, Copy)]
pub(crate) struct SpeedCase {
    pub(crate) alloc: Global,
}

impl SpeedCase {
    // Builds the table of this name once, and compares its text.
    fn build(
        &self,
        number: usize,
        name: &str,
        facts: &str,
        report: &mut Report,
    ) -> Result<(), CaseFault> {
        let (bytes, sum) = facts.split_once(' ').ok_or(CaseFault::Unknown)?;
        let text = text_of(self.alloc, named(name)?, 1)?;
        let written = format!(in self.alloc; "{:016x}", checksum(text.as_bytes()))?;
        let place = (number, name);
        report.count_case();
        report.compare(place, "bytes", text.len(), number_of(bytes)?);
        report.compare(place, "checksum", written.as_str(), sum);
        Ok(())
    }
}

impl<'a> Case<'a> for SpeedCase {
    fn follow(
        &mut self,
        number: usize,
        line: &'a str,
        report: &mut Report,
    ) -> Result<(), CaseFault> {
        match Line::of(line) {
            Line::Comment => Ok(()),
            Line::Words(line) => {
                let (name, facts) = line.split_once(' ').ok_or(CaseFault::Unknown)?;
                self.build(number, name, facts, report)
            }
            _ => Err(CaseFault::Unknown),
        }
    }

    fn finish(&mut self, _report: &mut Report) -> Result<(), CaseFault> {
        Ok(())
    }
}

// The table of this name.
fn named(name: &str) -> Result<&'static Built, CaseFault> {
    for built in &CASES {
        if built.0 == name {
            return Ok(built);
        }
    }
    Err(CaseFault::Unknown)
}

/// Builds the table of this name so many times, and writes how many bytes the last text has and their checksum.
pub(crate) fn build_often<W: Write>(
    alloc: Global,
    name: &str,
    times: &str,
    out: &mut W,
) -> Result<io::Result<()>, CaseFault> {
    let text = text_of(alloc, named(name)?, number_of(times)?)?;
    let sum = checksum(text.as_bytes());
    Ok(writeln!(out, "{} {sum:016x}", text.len()))
}

/// Writes the names of all tables.
pub(crate) fn list<W: Write>(out: &mut W) -> io::Result<()> {
    for built in &CASES {
        writeln!(out, "{}", built.0)?;
    }
    Ok(())
}

// The checksum of these bytes.
fn checksum(bytes: &[u8]) -> u64 {
    let mut sum = START;
    for byte in bytes {
        sum = (sum ^ u64::from(*byte)).wrapping_mul(PRIME);
    }
    sum
}
