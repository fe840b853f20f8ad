//! The program `ruled_cases`: it runs the cases of a file on standard input by [`ruled_io::run`], and prints those
//! whose output differs from what the file says.
//!
//! ```text
//! # The text is all that follows one space.
//! : a row is too short
//! @ look markdown
//! > a,b
//! > 1
//! ! 2 ruled: line 2: 1 field, but row 0 has 2; see --ragged
//! ```
//!
//! - `:` begins a case and names it. `@` has an option and its value.
//! - `>` has a line of the input. What can't be seen is written by pictures: `␍` is a carriage return,
//!   `␉` a tab, `␊` a line feed, `␛` an escape, `␀` a zero byte, `␂` a byte order mark and `⌧` a byte that is
//!   no UTF-8; so is it in the name of a column or a table. Behind a line with `␃` at its end there is no line feed.
//! - `=` has a line that is shown, with `␣` for a space at its end, and `=␛` one with pictures as in the input. `!` has the
//!   exit status and the line that is printed; without it the status is 0, and there is no such line.
//! - `>x` has bytes of the input, each as two hexadecimal digits, with spaces between some, and `*` and a number behind
//!   those that are repeated so many times. `>^` has the input of the case above, and `>@` a place and its new bytes.
//! - `>+` has the name of a further input, which ends with its format, and below it are lines of that input, which is a table
//!   of the query, if there is one. The first one is called `first.csv`, and its table `shop`.
//! - `>*` and `=*` have a number and a text that is repeated so many times, with no line feed after it.
//! - Empty lines and those with `#` are comments.
//!
//! A case that ends otherwise is printed with its output. The exit status is 0 if all end as the file
//! says, and 1 if one doesn't, or a line of the file isn't understood.
#![tactic(auto)]

mod case;

use crate::case::Case;
use std::io;
use std::process::ExitCode;

// Runs the cases of a text, and returns how many there are, or `None` if one was printed.
fn check(rt: &HostRuntime, text: &str) -> io::Result<Option<usize>> {
    let (mut count, mut is_right) = (0usize, true);
    let mut case = Case::new(rt.alloc(), "", Vec::new(rt.alloc()))?;
    for line in text.lines() {
        if let Some(name) = line.strip_prefix(": ") {
            is_right &= case.is_as_told(rt)?;
            case = Case::new(rt.alloc(), name, case.into_input())?;
            count = count.saturating_add(1);
        } else if !case.read(rt.alloc(), line)? {
            println!(rt; "not understood: {line}")?;
            is_right = false;
        }
    }
    is_right &= case.is_as_told(rt)?;
    Ok(if is_right { Some(count) } else { None })
}

// Runs the cases of the input, and returns whether all end as it says.
fn check_input(rt: &HostRuntime) -> io::Result<bool> {
    let text = io::read_to_string(rt.alloc(), rt.stdin())?;
    let count = check(rt, &text)?;
    if let Some(count) = count {
        println!(rt; "{count} cases answer as told")?;
    }
    Ok(count.is_some())
}

fn main(rt: HostRuntime) -> ExitCode {
    match check_input(&rt) {
        Ok(true) => ExitCode::SUCCESS,
        _ => ExitCode::FAILURE,
    }
}
