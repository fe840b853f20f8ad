//! Texts whose lines are cut in front or in the middle where they are too wide.

ghost use Rattle.std.specs.Prelude.{◌≡◌, ◌<◌, ◌≤◌, ◌++◌, true, Some, None, length, chars, drop, IsTrue, IfOk, OnOk, string_bytes};
ghost use Rattle.std.specs.List.{list_all};
ghost use Rattle.std.specs.Str.{IsCharBoundary};
ghost use Rattle.pg_layout.specs.Text.{width_of};
ghost use Rattle.pg_fit.specs.Cutting.{cut_away_line, cut_away_text, ending, kept_front};
ghost use Rattle.pg_fit.specs.Inside.{adds_up};

use crate::cutting::begin_of;
use crate::line::adds_up;
use pg_layout::{get_line_width, get_lines};
use std::alloc::{AllocError, Allocator};
use unicode_segmentation::UnicodeSegmentation;

/// What stays of a line that is cut.
#[derive(Debug, Clone, Copy, PartialEq, Eq)]
pub(crate) enum Kept {
    /// Its end.
    End,
    /// Its beginning and its end.
    BothEnds,
}

// The end of a line that is being lengthened to its front.
#[derive(Debug, Clone, Copy)]
struct End {
    // How many columns it may take with what stands before it.
    width: usize,
    // Where it begins in the line.
    begin: usize,
    // How many columns it takes with what stands before it.
    columns: usize,
    // Whether each of its characters adds its own width.
    adds_up: bool,
}

impl End {
    // The end from this byte on, if it takes at most so many columns.
    fn from(self, begin: usize, columns: usize, adds_up: bool) -> Option<End>
        ensures none { result ≡ None → self.width < columns }
        ensures some { (e : _) → result ≡ Some e → (columns ≤ self.width) × (e ≡ record { width = self.width; begin = begin; columns = columns; adds_up = adds_up }) }
    {
        if columns > self.width {
            return None;
        }
        Some(End {
            width: self.width,
            begin,
            columns,
            adds_up,
        })
    }
}

/// A text whose lines are cut in front where they are too wide, with a tail before what is left, as
/// `…`. A tail that is itself too wide is cut at its end, and stands alone.
///
/// ```text
/// cut_front(alloc, "src/table/lib/foo.rs", 11, "…")? // "…lib/foo.rs"
/// ```
pub fn cut_front<A: Allocator + Copy>(
    alloc: A,
    text: &str,
    width: usize,
    tail: &str,
) -> Result<String<A>, AllocError>
    ensures { IfOk result (λ lines. string_bytes lines ≡ cut_away_text Kept.End width tail.now text.now) }
{
    cut_away(alloc, text, width, tail, Kept::End)
}

/// A text whose lines are cut in the middle where they are too wide, with a tail between what is left,
/// as `…`: the beginning gets half of the columns, rounded up, and the end what is left. A tail that is
/// itself too wide is cut at its end, and stands alone.
///
/// ```text
/// cut_middle(alloc, "abcdefuvwxyz", 7, "…")? // "abc…xyz"
/// ```
pub fn cut_middle<A: Allocator + Copy>(
    alloc: A,
    text: &str,
    width: usize,
    tail: &str,
) -> Result<String<A>, AllocError>
    ensures { IfOk result (λ lines. string_bytes lines ≡ cut_away_text Kept.BothEnds width tail.now text.now) }
{
    cut_away(alloc, text, width, tail, Kept::BothEnds)
}

// A text whose lines are cut where they are too wide.
fn cut_away<A: Allocator + Copy>(
    alloc: A,
    text: &str,
    width: usize,
    tail: &str,
    kept: Kept,
) -> Result<String<A>, AllocError>
    ensures { IfOk result (λ lines. string_bytes lines ≡ cut_away_text kept width tail.now text.now) }
{
    let mut out = String::new(alloc);
    let mut lines = get_lines(text);
    if let Some(line) = lines.next() {
        let line = cut_line(alloc, line, width, tail, kept)?;
        out.push_str(line.as_str())?;
    }
    for line in lines {
        let line = cut_line(alloc, line, width, tail, kept)?;
        out.push('\n')?;
        out.push_str(line.as_str())?;
    }
    Ok(out)
}

// A line, cut where it is too wide.
fn cut_line<A: Allocator + Copy>(
    alloc: A,
    line: &str,
    width: usize,
    tail: &str,
    kept: Kept,
) -> Result<String<A>, AllocError>
    ensures { IfOk result (λ cut. string_bytes cut ≡ cut_away_line kept width tail.now line.now) }
{
    if get_line_width(line) <= width {
        let same = String::from_str(alloc, line)?;
        return Ok(same);
    }
    let tail_width = get_line_width(tail);
    if tail_width > width {
        let tail = String::from_str(alloc, begin_of(tail, width))?;
        return Ok(tail);
    }
    let front = front_of(line, width, tail, kept);
    let mut out = String::from_str(alloc, front)?;
    out.push_str(tail)?;
    let rest = &line[front.len()..];
    let begin = begin_of_end(alloc, out.as_str(), rest, width)?;
    out.push_str(&rest[begin..])?;
    Ok(out)
}

// What a line that is cut keeps before its tail.
#[tactic(auto, using(crate::proofs::LawsOfCuts::boundaries))]
fn front_of<'l>(line: &'l str, width: usize, tail: &str, kept: Kept) -> &'l str
    requires { width_of tail.now ≤ width }
    ensures front { result.now ≡ kept_front kept width tail.now line.now }
    ensures end { IsCharBoundary line.now (length result.now) }
{
    match kept {
        Kept::End => "",
        Kept::BothEnds => begin_of(line, (width - get_line_width(tail)).div_ceil(2)),
    }
}

// Where the characters begin that a line ends with, as far as they fit behind a front.
fn begin_of_end<A: Allocator + Copy>(
    alloc: A,
    front: &str,
    line: &str,
    width: usize,
) -> Result<usize, AllocError>
    ensures begin { IfOk result (λ begin. IsCharBoundary line.now begin) }
    ensures end { IfOk result (λ begin. drop begin line.now ≡ ending width front.now line.now) }
{
    let mut end = End {
        width,
        begin: line.len(),
        columns: get_line_width(front),
        adds_up: true,
    };
    for character in line.graphemes(true).rev() {
        let begin = end.begin - character.len();
        let longer = longer_end(alloc, front, line, end, begin)?;
        let Some(longer) = longer else {
            return Ok(end.begin);
        };
        end = longer;
    }
    Ok(end.begin)
}

// An end that begins further in front, if it takes at most so many columns behind a front.
//
// Only what is added is measured where its characters and those behind it add up, so that an end of n
// characters isn't measured n times.
fn longer_end<A: Allocator>(
    alloc: A,
    front: &str,
    line: &str,
    end: End,
    begin: usize,
) -> Result<Option<End>, AllocError>
    requires order { begin ≤ end.begin }
    requires begin { IsCharBoundary line.now begin }
    requires end { IsCharBoundary line.now end.begin }
    requires columns { end.columns ≡ width_of (front.now ++ drop end.begin line.now) }
    requires adds_up { IsTrue end.adds_up → list_all adds_up (chars (drop end.begin line.now)) ≡ true }
    ensures wide { IfOk result (λ longer. longer ≡ None → end.width < width_of (front.now ++ drop begin line.now)) }
    ensures fits { IfOk result (λ longer. (e : _) → longer ≡ Some e → (e.width ≡ end.width) × (e.begin ≡ begin) × (e.columns ≤ end.width)) }
    ensures columns { IfOk result (λ longer. (e : _) → longer ≡ Some e → e.columns ≡ width_of (front.now ++ drop begin line.now)) }
    ensures adds_up { IfOk result (λ longer. (e : _) → longer ≡ Some e → IsTrue e.adds_up → list_all adds_up (chars (drop begin line.now)) ≡ true) }
{
    let added = &line[begin..end.begin];
    if !(end.adds_up & adds_up(added)) {
        let mut joined = String::from_str(alloc, front)?;
        joined.push_str(&line[begin..])?;
        return Ok(end.from(begin, get_line_width(joined.as_str()), false));
    }
    let Some(columns) = end.columns.checked_add(get_line_width(added)) else {
        return Ok(None);
    };
    Ok(end.from(begin, columns, true))
}
