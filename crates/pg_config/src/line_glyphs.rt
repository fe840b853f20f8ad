//! Characters and colours over the glyphs of a row line, and their places.

ghost use Rattle.std.specs.Prelude.{◌≡◌, ◌+◌, ◌&&◌, nat_lt, OnOk, IfOk};
ghost use Rattle.pg_config.specs.Config.{has_vertical};
ghost use Rattle.pg_config.specs.LineGlyphs.{line_place, over_line, over_columns, with_glyph, with_crossing, with_glyphs, with_line_crossings};
ghost use Rattle.pg_config.specs.Overrides.{HasColumns};

use crate::lines::put_crossing;
use crate::noted_places::NotedPlaces;
use crate::offsets::GlyphPlace;
use crate::spanned::SpannedConfig;
use pg_layout::{ANSIBuf, ANSIFmt, Dimension, Position};
use std::alloc::{AllocError, Allocator};

/// What one column of a row line is.
#[derive(Debug, Clone, Copy, PartialEq, Eq)]
pub enum LinePlace {
    /// The glyph of the horizontal of this column with this number, counted from the left.
    Glyph(usize, usize),
    /// The crossing with this column line.
    Crossing(usize),
}

// What column `first + i` of a row line is, in a table of so many columns.
#[tactic(auto, unfolding(crate::specs::LineGlyphs::line_place))]
fn place_over<A: Allocator, D: Dimension>(
    config: &SpannedConfig<A>,
    columns: usize,
    dimension: &D,
    first: usize,
    i: usize,
) -> Option<LinePlace>
    ensures { result ≡ line_place config.now columns (D.width dimension.now) (first + i) }
{
    let k = first.checked_add(i)?;
    line_place(config, columns, dimension, k)
}

fn line_place<A: Allocator, D: Dimension>(
    config: &SpannedConfig<A>,
    columns: usize,
    dimension: &D,
    k: usize,
) -> Option<LinePlace>
    ensures { result ≡ line_place config.now columns (D.width dimension.now) k }
{
    let mut rest = k;
    for column in 0..columns {
        let line = usize::from(has_line_before(config, columns, column));
        if rest < line {
            return Some(LinePlace::Crossing(column));
        }
        let number = rest - line;
        let width = dimension.get_width(column);
        if number < width {
            return Some(LinePlace::Glyph(column, number));
        }
        rest = number - width;
    }
    None
}

// Whether there is a column line between this column and the one before it.
fn has_line_before<A: Allocator>(config: &SpannedConfig<A>, columns: usize, column: usize) -> bool
    ensures { result ≡ (nat_lt 0 column && has_vertical config.now column columns) }
{
    0 < column && config.has_vertical(column, columns)
}

// These characters, each with its place, the first one at column `first` of a row line.
pub(crate) fn over_line<A: Allocator + Copy, D: Dimension>(
    alloc: A,
    config: &SpannedConfig<A>,
    columns: usize,
    dimension: &D,
    first: usize,
    glyphs: &[char],
) -> Result<Vec<(Option<LinePlace>, char), A>, AllocError>
    ensures over { IfOk result (λ over. over.items ≡ over_line (line_place config.now columns (D.width dimension.now)) first glyphs.now) }
{
    let mut over = Vec::new(alloc);
    for glyph in glyphs {
        let place = place_over(config, columns, dimension, first, over.len());
        over.push((place, *glyph))?;
    }
    Ok(over)
}

// Copies of this colour, each with its place, for so many columns of a row line, the first of them
// column `first`, up to the end of the line.
pub(crate) fn over_columns<A: Allocator + Copy, D: Dimension>(
    alloc: A,
    config: &SpannedConfig<A>,
    columns: usize,
    dimension: &D,
    first: usize,
    count: usize,
    color: &ANSIBuf<A>,
) -> Result<Vec<(Option<LinePlace>, ANSIBuf<A>), A>, AllocError>
    ensures over { IfOk result (λ over. over.items ≡ over_columns (line_place config.now columns (D.width dimension.now)) first count color.now) }
{
    let mut over = Vec::new(alloc);
    for i in 0..count {
        let place = place_over(config, columns, dimension, first, i);
        if place.is_none() {
            return Ok(over);
        }
        let color = ANSIBuf::new(alloc, color.prefix(), color.suffix())?;
        over.push((place, color))?;
    }
    Ok(over)
}

// Puts the values at their places in a row line, or some of them if memory is refused.
//
// Each column of a crossing is listed, as in all `Overrides`.
pub(crate) fn put_over<G: Drop, A: Allocator + Clone>(
    glyphs: &mut NotedPlaces<GlyphPlace, G, A>,
    crossings: &mut NotedPlaces<Position, G, A>,
    columns: &mut NotedPlaces<usize, (), A>,
    row: usize,
    over: Vec<(Option<LinePlace>, G), A>,
) -> Result<(), AllocError>
    requires has_columns { HasColumns columns.old.now crossings.old.now }
    ensures glyphs { OnOk result (glyphs.new.now ≡ with_glyphs row over.items glyphs.old.now) }
    ensures crossings { OnOk result (crossings.new.now ≡ with_line_crossings row over.items crossings.old.now) }
    ensures has_columns { OnOk result (HasColumns columns.new.now crossings.new.now) }
    ensures before { glyphs.new.before ≡ glyphs.old.before }
    ensures before_crossings { crossings.new.before ≡ crossings.old.before }
    ensures before_columns { columns.new.before ≡ columns.old.before }
{
    for (place, value) in over {
        put_one(glyphs, crossings, columns, row, place, value)?;
    }
    Ok(())
}

// Puts a value at its place in a row line, if it has one.
fn put_one<G: Drop, A: Allocator + Clone>(
    glyphs: &mut NotedPlaces<GlyphPlace, G, A>,
    crossings: &mut NotedPlaces<Position, G, A>,
    columns: &mut NotedPlaces<usize, (), A>,
    row: usize,
    place: Option<LinePlace>,
    value: G,
) -> Result<(), AllocError>
    requires has_columns { HasColumns columns.old.now crossings.old.now }
    ensures glyphs { OnOk result (glyphs.new.now ≡ with_glyph row place value glyphs.old.now) }
    ensures crossings { OnOk result (crossings.new.now ≡ with_crossing row place value crossings.old.now) }
    ensures has_columns { OnOk result (HasColumns columns.new.now crossings.new.now) }
    ensures before { glyphs.new.before ≡ glyphs.old.before }
    ensures before_crossings { crossings.new.before ≡ crossings.old.before }
    ensures before_columns { columns.new.before ≡ columns.old.before }
{
    match place {
        Some(LinePlace::Glyph(col, number)) => {
            glyphs.put(GlyphPlace::new(Position { row, col }, number), Some(value))
        }
        Some(LinePlace::Crossing(col)) => {
            put_crossing(crossings, columns, Position { row, col }, Some(value))
        }
        None => Ok(()),
    }
}
