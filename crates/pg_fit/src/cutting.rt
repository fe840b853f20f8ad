//! Texts whose lines are cut if they are too wide.

ghost use Rattle.std.specs.Prelude.{◌≡◌, ◌++◌, IfOk, OnOk, string_bytes};
ghost use Rattle.pg_fit.specs.Cutting.{beginning, cut_line, cut_text};

use crate::line::{Line, columns_within};
use pg_layout::{get_line_width, get_lines};
use std::alloc::{AllocError, Allocator};
use unicode_segmentation::UnicodeSegmentation;

/// A text whose lines are cut if they are too wide, and then end with a tail, such as `…`. A tail
/// that is itself too wide is cut, too, and is then alone.
pub fn cut<A: Allocator>(
    alloc: A,
    text: &str,
    width: usize,
    tail: &str,
) -> Result<String<A>, AllocError>
    ensures { IfOk result (λ lines. string_bytes lines ≡ cut_text width tail.now text.now) }
{
    let mut out = String::new(alloc);
    let mut lines = get_lines(text);
    if let Some(line) = lines.next() {
        push_cut(line, width, tail, &mut out)?;
    }
    for line in lines {
        out.push('\n')?;
        push_cut(line, width, tail, &mut out)?;
    }
    Ok(out)
}

/// Appends a line, cut if it is too wide.
pub(crate) fn push_cut<W: Allocator>(
    line: &str,
    width: usize,
    tail: &str,
    out: &mut String<W>,
) -> Result<(), AllocError>
    ensures { OnOk result (string_bytes out.new ≡ string_bytes out.old ++ cut_line width tail.now line.now) }
{
    if get_line_width(line) <= width {
        out.push_str(line)?;
        return Ok(());
    }
    let tail_width = get_line_width(tail);
    if tail_width > width {
        out.push_str(begin_of(tail, width))?;
        return Ok(());
    }
    out.push_str(begin_of(line, width - tail_width))?;
    out.push_str(tail)?;
    Ok(())
}

/// The characters that a line begins with, as far as they fit.
pub(crate) fn begin_of(line: &str, width: usize) -> &str
    ensures { result.now ≡ beginning width line.now }
{
    let mut front = Line {
        begin: 0,
        end: 0,
        columns: 0,
    };
    for character in line.graphemes(true) {
        let end = front.end + character.len();
        let Some(columns) = columns_within(line, width, false, front, end) else {
            return &line[..front.end];
        };
        front = Line {
            begin: 0,
            end,
            columns,
        };
    }
    &line[..front.end]
}
