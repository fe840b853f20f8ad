//! The values of border lines, which change together or not at all.

ghost use Rattle.std.specs.Prelude.{◌≡◌, ◌+◌, ◌^◌, ◌<◌, [], Bool, None, OnOk, IsOk};
ghost use Rattle.pg_layout.specs.Borders.{no_border};
ghost use Rattle.pg_layout.specs.Keys.{by_place};
ghost use Rattle.pg_layout.specs.Places.{with_some};
ghost use Rattle.pg_config.specs.Inside.{with_all, settled, settled_at};
ghost use Rattle.pg_config.specs.LineGlyphs.{with_glyphs, with_line_crossings};
ghost use Rattle.pg_config.specs.Overrides.{HasColumns, no_lines, behind, on_lines, with_round, with_border, with_row, line_crossing, with_row_line};

use crate::line_glyphs::{LinePlace, put_over};
use crate::noted_places::NotedPlaces;
use crate::offsets::GlyphPlace;
use pg_layout::{Border, ColumnPlace, HorizontalLine, Key, Places, Position};
use std::alloc::{AllocError, Allocator, Global};
use std::marker::Model;

/// The values of single places: horizontals and crossings by row and column, verticals by column
/// and row.
#[derive(Debug, Drop)]
pub struct Lines<G, A: Allocator = Global> {
    pub horizontals: NotedPlaces<Position, G, A>,
    pub verticals: NotedPlaces<ColumnPlace, G, A>,
    pub crossings: NotedPlaces<Position, G, A>,
    /// An entry for each column of the crossings.
    pub columns: NotedPlaces<usize, (), A>,
}

impl<G, A: Allocator> Model for Lines<G, A> {
    ghost use Rattle.pg_config.specs.Inside.{Noted};
    ghost use Rattle.pg_config.specs.Overrides.{Lines as Parts};

    ghost Value = { Noted (Parts G) };

    ghost view = { λ l. record {
      now = record {
        overrides = record { horizontals = l.horizontals.now; verticals = l.verticals.now; crossings = l.crossings.now };
        columns = l.columns.now;
      };
      before = record {
        overrides = record { horizontals = l.horizontals.before; verticals = l.verticals.before; crossings = l.crossings.before };
        columns = l.columns.before;
      };
    } };
}

impl<G, A: Allocator + Copy> Lines<G, A> {
    /// No value. Allocates nothing.
    pub fn new(alloc: A) -> Lines<G, A>
        ensures { result ≡ settled_at no_lines }
    {
        Lines {
            horizontals: NotedPlaces::new(alloc),
            verticals: NotedPlaces::new(alloc),
            crossings: NotedPlaces::new(alloc),
            columns: NotedPlaces::new(alloc),
        }
    }
}

impl<G: Drop, A: Allocator + Clone> Lines<G, A> {
    /// Keeps the changes, or undoes them. Allocates nothing.
    pub fn settle(&mut self, stays: bool)
        ensures { self.new ≡ settled stays self.old }
    {
        self.horizontals.settle(stays);
        self.verticals.settle(stays);
        self.crossings.settle(stays);
        self.columns.settle(stays);
    }

    /// Sets the places round a cell to the values that this border has for them, or some of them if
    /// memory is refused.
    ///
    /// Each column of a crossing is listed, as in all `Overrides`.
    #[tactic(auto, unfolding(crate::specs::Overrides::with_border), using(crate::proofs::EqualLines::lines_behind))]
    pub fn put_border(&mut self, pos: Position, border: Border<G>) -> Result<(), AllocError>
        requires has_columns { HasColumns self.old.now.columns self.old.now.overrides.crossings }
        ensures ok { OnOk result (self.new.now.overrides ≡ with_border pos border self.old.now.overrides) }
        ensures has_columns { OnOk result (HasColumns self.new.now.columns self.new.now.overrides.crossings) }
        ensures before { self.new.before ≡ self.old.before }
        ensures nothing { on_lines pos border ≡ no_border → IsOk result }
    {
        // If a line is the last one, the border has nothing for the line after it.
        let (below, right) = (pos.row.saturating_add(1), pos.col.saturating_add(1));
        self.put_round(pos, below, right, on_lines(pos, border))
    }

    // Sets the glyphs of a border round a cell; the row line below and the column line at its right
    // have these numbers.
    fn put_round(
        &mut self,
        pos: Position,
        below: usize,
        right: usize,
        border: Border<G>,
    ) -> Result<(), AllocError>
        requires has_columns { HasColumns self.old.now.columns self.old.now.overrides.crossings }
        ensures ok { OnOk result (self.new.now.overrides ≡ with_round pos below right border self.old.now.overrides) }
        ensures has_columns { OnOk result (HasColumns self.new.now.columns self.new.now.overrides.crossings) }
        ensures before { self.new.before ≡ self.old.before }
        ensures nothing { border ≡ no_border → IsOk result }
    {
        let at_bottom_left = Position {
            row: below,
            col: pos.col,
        };
        let at_top_right = Position {
            row: pos.row,
            col: right,
        };
        let at_bottom_right = Position {
            row: below,
            col: right,
        };
        // By pairs: each `?` drops what is left of the border.
        let (at_left, at_right) = (ColumnPlace::of(pos), ColumnPlace::of(at_top_right));
        put_two(
            &mut self.horizontals,
            (pos, border.top),
            (at_bottom_left, border.bottom),
        )?;
        put_two(
            &mut self.verticals,
            (at_left, border.left),
            (at_right, border.right),
        )?;
        let (crossings, columns) = (&mut self.crossings, &mut self.columns);
        put_two_crossings(
            crossings,
            columns,
            (pos, border.top_left),
            (at_top_right, border.top_right),
        )?;
        put_two_crossings(
            crossings,
            columns,
            (at_bottom_left, border.bottom_left),
            (at_bottom_right, border.bottom_right),
        )
    }

    /// Puts values at their places in a row line, here those at crossings, or some of them if memory
    /// is refused.
    ///
    /// Each column of a crossing is listed, as in all `Overrides`.
    pub fn put_line_glyphs(
        &mut self,
        glyphs: &mut NotedPlaces<GlyphPlace, G, A>,
        row: usize,
        over: Vec<(Option<LinePlace>, G), A>,
    ) -> Result<(), AllocError>
        requires has_columns { HasColumns self.old.now.columns self.old.now.overrides.crossings }
        ensures glyphs { OnOk result (glyphs.new.now ≡ with_glyphs row over.items glyphs.old.now) }
        ensures before_glyphs { glyphs.new.before ≡ glyphs.old.before }
        ensures ok { OnOk result (self.new.now.overrides ≡ record self.old.now.overrides { crossings = with_line_crossings row over.items self.old.now.overrides.crossings }) }
        ensures has_columns { OnOk result (HasColumns self.new.now.columns self.new.now.overrides.crossings) }
        ensures before { self.new.before ≡ self.old.before }
    {
        put_over(glyphs, &mut self.crossings, &mut self.columns, row, over)
    }
}

// Sets two places to these values, if there are any, or only the first one if memory is refused.
fn put_two<K: Key, G: Drop, A: Allocator + Clone>(
    places: &mut NotedPlaces<K, G, A>,
    first: (K, Option<G>),
    second: (K, Option<G>),
) -> Result<(), AllocError>
    ensures ok { OnOk result (places.new.now ≡ with_some K.order second.0 second.1 (with_some K.order first.0 first.1 places.old.now)) }
    ensures before { places.new.before ≡ places.old.before }
    ensures nothing { first.1 ≡ None → second.1 ≡ None → IsOk result }
{
    places.put(first.0, first.1)?;
    places.put(second.0, second.1)
}

// Sets two crossings to these values, if there are any, and lists their columns, or does a part of that
// if memory is refused.
fn put_two_crossings<G: Drop, A: Allocator + Clone>(
    crossings: &mut NotedPlaces<Position, G, A>,
    columns: &mut NotedPlaces<usize, (), A>,
    first: (Position, Option<G>),
    second: (Position, Option<G>),
) -> Result<(), AllocError>
    requires has_columns { HasColumns columns.old.now crossings.old.now }
    ensures ok { OnOk result (crossings.new.now ≡ with_some by_place second.0 second.1 (with_some by_place first.0 first.1 crossings.old.now)) }
    ensures has_columns { OnOk result (HasColumns columns.new.now crossings.new.now) }
    ensures before { crossings.new.before ≡ crossings.old.before }
    ensures before_columns { columns.new.before ≡ columns.old.before }
    ensures nothing { first.1 ≡ None → second.1 ≡ None → IsOk result }
{
    put_crossing(crossings, columns, first.0, first.1)?;
    put_crossing(crossings, columns, second.0, second.1)
}

fn on_lines<G: Drop>(pos: Position, border: Border<G>) -> Border<G>
    ensures { result ≡ on_lines pos border }
{
    Border {
        bottom: behind(pos.row, border.bottom),
        right: behind(pos.col, border.right),
        top_right: behind(pos.col, border.top_right),
        bottom_left: behind(pos.row, border.bottom_left),
        bottom_right: behind(pos.row, behind(pos.col, border.bottom_right)),
        ..border
    }
}

fn behind<G: Drop>(line: usize, part: Option<G>) -> Option<G>
    ensures { result ≡ behind line part }
{
    if line < usize::MAX { part } else { None }
}

impl<A: Allocator + Clone> Lines<char, A> {
    /// Sets the glyphs of these crossings, or some of them if memory is refused.
    ///
    /// Each column of a crossing is listed, as in all `Overrides`.
    pub fn put_all_crossings(
        &mut self,
        glyphs: &Places<Position, char, A>,
    ) -> Result<(), AllocError>
        requires has_columns { HasColumns self.old.now.columns self.old.now.overrides.crossings }
        ensures ok { OnOk result (self.new.now.overrides ≡ record self.old.now.overrides { crossings = with_all glyphs.now self.old.now.overrides.crossings }) }
        ensures has_columns { OnOk result (HasColumns self.new.now.columns self.new.now.overrides.crossings) }
        ensures before { self.new.before ≡ self.old.before }
        ensures nothing { glyphs.now ≡ [] → IsOk result }
    {
        put_all(&mut self.crossings, &mut self.columns, glyphs)
    }

    /// Sets the horizontals and the crossings of a row line of so many columns to the glyphs of
    /// this line, or some of them if memory is refused.
    ///
    /// Reserves room for the notes first, so that a line with too many places for the memory is
    /// refused at once.
    ///
    /// Precondition: there is a column. Each column of a crossing is listed, as in all `Overrides`.
    #[tactic(auto, unfolding(crate::specs::Overrides::with_row_line))]
    pub fn put_row_line(
        &mut self,
        row: usize,
        columns: usize,
        line: HorizontalLine<char>,
    ) -> Result<(), AllocError>
        requires some { 0 < columns }
        requires has_columns { HasColumns self.old.now.columns self.old.now.overrides.crossings }
        ensures ok { OnOk result (self.new.now.overrides ≡ with_row_line row columns line self.old.now.overrides) }
        ensures has_columns { OnOk result (HasColumns self.new.now.columns self.new.now.overrides.crossings) }
        ensures before { self.new.before ≡ self.old.before }
    {
        self.horizontals.reserve(columns)?;
        self.crossings.reserve(columns)?;
        put_horizontals(&mut self.horizontals, row, columns, line.main)?;
        let (crossings, index) = (&mut self.crossings, &mut self.columns);
        put_crossings(crossings, index, row, columns, line)
    }
}

// Sets the glyphs of these crossings, and lists their columns, or does so for some of them.
fn put_all<A: Allocator + Clone>(
    crossings: &mut NotedPlaces<Position, char, A>,
    columns: &mut NotedPlaces<usize, (), A>,
    glyphs: &Places<Position, char, A>,
) -> Result<(), AllocError>
    requires has_columns { HasColumns columns.old.now crossings.old.now }
    ensures ok { OnOk result (crossings.new.now ≡ with_all glyphs.now crossings.old.now) }
    ensures has_columns { OnOk result (HasColumns columns.new.now crossings.new.now) }
    ensures before { crossings.new.before ≡ crossings.old.before }
    ensures before_columns { columns.new.before ≡ columns.old.before }
    ensures nothing { glyphs.now ≡ [] → IsOk result }
{
    for (pos, glyph) in glyphs.iter() {
        put_crossing(crossings, columns, *pos, Some(*glyph))?;
    }
    Ok(())
}

// Sets the glyph of the first horizontals of a row line, if there is one, or of some of them.
fn put_horizontals<A: Allocator + Clone>(
    horizontals: &mut NotedPlaces<Position, char, A>,
    row: usize,
    columns: usize,
    glyph: Option<char>,
) -> Result<(), AllocError>
    ensures ok { OnOk result (horizontals.new.now ≡ with_row row columns (λ c. glyph) horizontals.old.now) }
    ensures before { horizontals.new.before ≡ horizontals.old.before }
{
    for col in 0..columns {
        horizontals.put(Position { row, col }, glyph)?;
    }
    Ok(())
}

// Sets the crossings of a row line of so many columns to the glyphs of this line, and lists their
// columns, or does so for some of them.
fn put_crossings<A: Allocator + Clone>(
    crossings: &mut NotedPlaces<Position, char, A>,
    index: &mut NotedPlaces<usize, (), A>,
    row: usize,
    columns: usize,
    line: HorizontalLine<char>,
) -> Result<(), AllocError>
    requires has_columns { HasColumns index.old.now crossings.old.now }
    ensures ok { OnOk result (crossings.new.now ≡ with_row row (columns + 1) (λ c. line_crossing line columns c) crossings.old.now) }
    ensures has_columns { OnOk result (HasColumns index.new.now crossings.new.now) }
    ensures before { crossings.new.before ≡ crossings.old.before }
    ensures before_columns { index.new.before ≡ index.old.before }
{
    for col in 0..columns {
        let glyph = crossing_of(line, columns, col);
        put_crossing(crossings, index, Position { row, col }, glyph)?;
    }
    let glyph = crossing_of(line, columns, columns);
    let end = Position { row, col: columns };
    put_crossing(crossings, index, end, glyph)
}

// The glyph of a crossing of a line of so many columns.
fn crossing_of(line: HorizontalLine<char>, columns: usize, col: usize) -> Option<char>
    ensures { result ≡ line_crossing line columns col }
{
    if col == 0 {
        line.left
    } else if col == columns {
        line.right
    } else {
        line.intersection
    }
}

// Sets the value of a crossing, if there is one, and lists its column, or does one of the two if
// memory is refused.
pub(crate) fn put_crossing<G: Drop, A: Allocator + Clone>(
    crossings: &mut NotedPlaces<Position, G, A>,
    columns: &mut NotedPlaces<usize, (), A>,
    pos: Position,
    value: Option<G>,
) -> Result<(), AllocError>
    requires has_columns { HasColumns columns.old.now crossings.old.now }
    ensures ok { OnOk result (crossings.new.now ≡ with_some by_place pos value crossings.old.now) }
    ensures has_columns { OnOk result (HasColumns columns.new.now crossings.new.now) }
    ensures before { crossings.new.before ≡ crossings.old.before }
    ensures before_columns { columns.new.before ≡ columns.old.before }
    ensures nothing { value ≡ None → IsOk result }
{
    let Some(value) = value else {
        return Ok(());
    };
    crossings.put(pos, Some(value))?;
    columns.put(pos.col, Some(()))
}
