//! Texts whose lines are broken if they are too wide.

ghost use Rattle.std.specs.Prelude.{◌≡◌, ◌++◌, ◌≤◌, [], ◌∷◌, IfOk, OnOk, length, slice_range, string_bytes};
ghost use Rattle.std.specs.Str.{IsCharBoundary};
ghost use Rattle.std.specs.List.{join_with_byte};
ghost use Rattle.pg_fit.specs.Wrapping.{wrapped, wrapped_line, fits, filled, pieces};

use crate::controls::is_printable;
use crate::filling::{take_characters, take_words};
use crate::line::{Line, Part};
use pg_layout::{get_line_width, get_lines, is_plain};
use std::alloc::{AllocError, Allocator};

/// Where a line may be broken.
#[derive(Debug, Clone, Copy, PartialEq, Eq)]
pub enum Breaking {
    /// Between any two characters.
    Anywhere,
    /// At spaces, which are left out there; and between the characters of a word that is wider than
    /// a line.
    BetweenWords,
}

/// A text whose lines are broken if they are too wide. A line takes as much as fits, and at least
/// one character, as a reader counts them.
pub fn wrap<A: Allocator>(
    alloc: A,
    text: &str,
    width: usize,
    breaking: Breaking,
) -> Result<String<A>, AllocError>
    ensures { IfOk result (λ lines. string_bytes lines ≡ wrapped breaking width text.now) }
{
    let mut out = String::with_capacity(alloc, text.len())?;
    if is_plain(text.as_bytes()) {
        push_line(text, width, breaking, &mut out)?;
        return Ok(out);
    }
    let mut lines = get_lines(text);
    if let Some(line) = lines.next() {
        push_line(line, width, breaking, &mut out)?;
    }
    for line in lines {
        out.push('\n')?;
        push_line(line, width, breaking, &mut out)?;
    }
    Ok(out)
}

// Appends the lines of a line.
fn push_line<W: Allocator>(
    line: &str,
    width: usize,
    breaking: Breaking,
    out: &mut String<W>,
) -> Result<(), AllocError>
    ensures { OnOk result (string_bytes out.new ≡ string_bytes out.old ++ join_with_byte 10 (wrapped_line breaking width line.now)) }
{
    if get_line_width(line) <= width {
        out.push_str(line)?;
        return Ok(());
    }
    let last = take_line(line, width, breaking, out)?;
    out.push_str(&line[last.begin..last.end])?;
    Ok(())
}

// Puts the pieces of a line on lines. Returns the current line afterwards.
fn take_line<W: Allocator>(
    line: &str,
    width: usize,
    breaking: Breaking,
    out: &mut String<W>,
) -> Result<Line, AllocError>
    ensures order { IfOk result (λ r. (r.begin ≤ r.end) × (r.end ≤ length line.now)) }
    ensures line_begin { IfOk result (λ r. IsCharBoundary line.now r.begin) }
    ensures line_end { IfOk result (λ r. IsCharBoundary line.now r.end) }
    ensures filled { IfOk result (λ r. string_bytes out.new ++ join_with_byte 10 (slice_range line.now r.begin r.end ∷ []) ≡ string_bytes out.old
        ++ join_with_byte 10 (filled width [] (pieces breaking width line.now))) }
{
    match breaking {
        Breaking::Anywhere => {
            let begin = Line {
                begin: 0,
                end: 0,
                columns: 0,
            };
            let all = Part {
                begin: 0,
                end: line.len(),
            };
            let last = take_characters(
                line,
                width,
                is_printable(line.as_bytes()),
                begin,
                all,
                out,
            )?;
            Ok(last)
        }
        Breaking::BetweenWords => {
            let last = take_words(line, width, out)?;
            Ok(last)
        }
    }
}
