//! The crossings on the edges of merged cells, and their glyphs.

ghost use Rattle.std.specs.Prelude.{◌≡◌, ◌+◌, ◌<◌, ◌≤◌, [], Some, None, OnOk, IfOk, IsOk};
ghost use Rattle.pg_config.specs.Crossings.{arms, meeting, edge_glyph};
ghost use Rattle.pg_config.specs.Inside.{has_side, with_mark, on_line, with_line, count_inside, line_behind, with_span, with_spans, with_glyphs, sides_at};

use crate::spanned::{SpannedConfig, horizontal_glyph, vertical_glyph};
use crate::spans::{Span, Spans};
use pg_layout::{Borders, Places, Position, Sides};
use std::alloc::{AllocError, Allocator};

/// A side of a merged cell.
#[derive(Debug, Clone, Copy, PartialEq, Eq)]
pub enum Side {
    /// The side above it.
    Top,
    /// The side below it.
    Bottom,
    /// The side left of it.
    Left,
    /// The side right of it.
    Right,
}

/// The lines that meet at a crossing.
#[derive(Debug, Clone, Copy, PartialEq, Eq)]
pub struct Arms {
    /// A line goes up from it.
    pub up: bool,
    /// A line goes down from it.
    pub down: bool,
    /// A line goes left from it.
    pub left: bool,
    /// A line goes right from it.
    pub right: bool,
}

impl Arms {
    // Those of a crossing on these sides of merged cells.
    fn of(size: (usize, usize), pos: Position, sides: Sides<bool>) -> Arms
        ensures { result ≡ arms size.0 size.1 pos (has_side sides) }
    {
        let (rows, columns) = size;
        Arms {
            up: 0 < pos.row && !sides.bottom,
            down: pos.row < rows && !sides.top,
            left: 0 < pos.col && !sides.right,
            right: pos.col < columns && !sides.left,
        }
    }
}

// The marks of all merged cells in a table of `size` rows and columns.
pub(crate) fn marks_of<A: Allocator + Copy>(
    alloc: A,
    spans: &Spans<A>,
    size: (usize, usize),
) -> Result<Places<Position, Sides<bool>, A>, AllocError>
    ensures marks { IfOk result (λ m. m ≡ with_spans size.0 size.1 spans.now []) }
    ensures nothing { spans.now ≡ [] → IsOk result }
{
    let mut marks = Places::new(alloc);
    for (place, count) in spans.iter() {
        mark_span(&mut marks, (*place, *count), size)?;
    }
    Ok(marks)
}

// Marks the crossings on the edge of a merged cell, except for its corners.
fn mark_span<A: Allocator + Clone>(
    marks: &mut Places<Position, Sides<bool>, A>,
    span: Span,
    size: (usize, usize),
) -> Result<(), AllocError>
    ensures { OnOk result (marks.new ≡ with_span size.0 size.1 span marks.old) }
{
    let (place, count) = span;
    let (rows, columns) = size;
    let across = count_inside(place.col, count.columns, columns);
    let down = count_inside(place.row, count.rows, rows);
    let (top, bottom) = (
        line_behind(place.row, 0, rows),
        line_behind(place.row, count.rows, rows),
    );
    let (left, right) = (
        line_behind(place.col, 0, columns),
        line_behind(place.col, count.columns, columns),
    );
    mark_line(marks, Side::Top, top, place.col, across)?;
    mark_line(marks, Side::Bottom, bottom, place.col, across)?;
    mark_line(marks, Side::Left, left, place.row, down)?;
    mark_line(marks, Side::Right, right, place.row, down)
}

fn count_inside(first: usize, count: usize, lines: usize) -> usize
    ensures { result ≡ count_inside first count lines }
{
    let end = first.saturating_add(count).min(lines);
    end.saturating_sub(first).saturating_sub(1)
}

fn line_behind(first: usize, count: usize, lines: usize) -> Option<usize>
    ensures { result ≡ line_behind first count lines }
{
    let line = first.checked_add(count)?;
    if line <= lines { Some(line) } else { None }
}

// Marks so many crossings after a corner, if there is such a line.
fn mark_line<A: Allocator + Clone>(
    marks: &mut Places<Position, Sides<bool>, A>,
    side: Side,
    line: Option<usize>,
    first: usize,
    count: usize,
) -> Result<(), AllocError>
    requires { first + count ≤ usize.MAX }
    ensures { OnOk result (marks.new ≡ with_line side line first count marks.old) }
{
    let Some(at) = line else {
        return Ok(());
    };
    for step in 0..count {
        mark(marks, side, on_line(side, at, first + step + 1))?;
    }
    Ok(())
}

fn on_line(side: Side, line: usize, i: usize) -> Position
    ensures { result ≡ on_line side line i }
{
    match side {
        Side::Top | Side::Bottom => Position { row: line, col: i },
        Side::Left | Side::Right => Position { row: i, col: line },
    }
}

// Marks a crossing with a side.
fn mark<A: Allocator + Clone>(
    marks: &mut Places<Position, Sides<bool>, A>,
    side: Side,
    pos: Position,
) -> Result<(), AllocError>
    ensures { OnOk result (marks.new ≡ with_mark side pos marks.old) }
{
    let mut sides = match marks.get(pos) {
        Some(sides) => *sides,
        None => Sides::filled(false),
    };
    match side {
        Side::Top => sides.top = true,
        Side::Bottom => sides.bottom = true,
        Side::Left => sides.left = true,
        Side::Right => sides.right = true,
    }
    marks.set(pos, sides)
}

// The glyphs of the marked crossings in a table of `size` rows and columns.
pub(crate) fn glyphs_of<A: Allocator + Copy>(
    alloc: A,
    config: &SpannedConfig<A>,
    marks: &Places<Position, Sides<bool>, A>,
    borders: &Borders<char>,
    size: (usize, usize),
) -> Result<Places<Position, char, A>, AllocError>
    ensures glyphs { IfOk result (λ gs. gs ≡ with_glyphs config.now borders.now size.0 size.1 marks.now []) }
    ensures nothing { marks.now ≡ [] → IsOk result }
{
    let mut glyphs = Places::new(alloc);
    for (pos, sides) in marks.iter() {
        if let Some(glyph) = edge_glyph(config, borders, size, *pos, *sides) {
            glyphs.set(*pos, glyph)?;
        }
    }
    Ok(glyphs)
}

fn edge_glyph<A: Allocator>(
    config: &SpannedConfig<A>,
    borders: &Borders<char>,
    size: (usize, usize),
    pos: Position,
    sides: Sides<bool>,
) -> Option<char>
    ensures { result ≡ edge_glyph config.now borders.now size.0 size.1 pos (has_side sides) }
{
    let (rows, columns) = size;
    let is_on_edge = sides.top || sides.bottom || (sides.left || sides.right);
    if is_on_edge && config.has_horizontal(pos.row, rows) && config.has_vertical(pos.col, columns) {
        meeting(borders, size, pos, Arms::of(size, pos, sides))
    } else {
        None
    }
}

fn meeting(borders: &Borders<char>, size: (usize, usize), pos: Position, arms: Arms) -> Option<char>
    ensures { result ≡ meeting borders.now size.0 size.1 pos arms }
{
    let goes_across = arms.left && arms.right;
    let goes_down = arms.up && arms.down;
    match (goes_across, goes_down) {
        (true, true) => None,
        (true, false) if arms.up => borders.bottom_intersection,
        (true, false) if arms.down => borders.top_intersection,
        (true, false) => horizontal_glyph(borders, pos.row, size.0).copied(),
        (false, true) if arms.left => borders.right_intersection,
        (false, true) if arms.right => borders.left_intersection,
        (false, true) => vertical_glyph(borders, pos.col, size.1).copied(),
        (false, false) => None,
    }
}
