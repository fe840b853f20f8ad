//! What was set for single places of the border lines.

ghost use Rattle.std.specs.Prelude.{◌≡◌, false, [], option_map, OnOk, OnErr, IsOk};
ghost use Rattle.pg_layout.specs.Borders.{no_border};
ghost use Rattle.pg_layout.specs.Keys.{by_place, in_row, in_column};
ghost use Rattle.pg_layout.specs.Places.{IsAscending, has_key};
ghost use Rattle.pg_config.specs.Inside.{with_all};
ghost use Rattle.pg_config.specs.LineGlyphs.{with_glyphs, with_line_crossings};
ghost use Rattle.pg_config.specs.Overrides.{no_overrides, on_lines, with_border, has_glyph, with_row_line, horizontal_override};
ghost use Rattle.pg_config.specs.Settings.{has_some};
ghost use Rattle.pg_config.specs.Overrides.{vertical_override, crossing_override, overrides_row, overrides_column, sets_rows, sets_columns};

use crate::line_glyphs::LinePlace;
use crate::lines::Lines;
use crate::noted_places::NotedPlaces;
use crate::offsets::GlyphPlace;
use pg_layout::{Border, ColumnPlace, HorizontalLine, Places, Position};
use std::alloc::{AllocError, Allocator, Global};
use std::marker::Model;

/// Values for single places of the border lines.
#[derive(Debug, Drop)]
pub struct Overrides<G, A: Allocator = Global> {
    lines: Lines<G, A>,
}

impl<G, A: Allocator> Model for Overrides<G, A> {
    ghost use Rattle.std.specs.Prelude.{◌≡◌};
    ghost use Rattle.pg_config.specs.Overrides.{Overrides as Parts, HasColumns};

    ghost Value = { Parts G };

    ghost view = { λ o. o.lines.now.overrides };

    ghost invariant = { λ o. (o.lines.before ≡ o.lines.now) × HasColumns o.lines.now.columns o.lines.now.overrides.crossings };
}

impl<G, A: Allocator + Copy> Overrides<G, A> {
    /// No value. Allocates nothing.
    pub fn new(alloc: A) -> Overrides<G, A>
        ensures { result ≡ no_overrides }
    {
        Overrides {
            lines: Lines::new(alloc),
        }
    }
}

impl<G, A: Allocator> Overrides<G, A> {
    /// The value of a horizontal.
    #[tactic(auto, unfolding(crate::specs::Overrides::horizontal_override))]
    pub fn horizontal(&self, pos: Position) -> Option<&G>
        ensures { option_map (λ x. x.now) result ≡ horizontal_override self.now pos }
    {
        self.lines.horizontals.places().get(pos)
    }

    /// The value of a vertical.
    #[tactic(auto, unfolding(crate::specs::Overrides::vertical_override))]
    pub fn vertical(&self, pos: Position) -> Option<&G>
        ensures { option_map (λ x. x.now) result ≡ vertical_override self.now pos }
    {
        self.lines.verticals.places().get(ColumnPlace::of(pos))
    }

    /// The value of a crossing.
    #[tactic(auto, unfolding(crate::specs::Overrides::crossing_override))]
    pub fn crossing(&self, pos: Position) -> Option<&G>
        ensures { option_map (λ x. x.now) result ≡ crossing_override self.now pos }
    {
        self.lines.crossings.places().get(pos)
    }

    /// Whether a horizontal or a crossing has a value.
    pub fn sets_rows(&self) -> bool
        ensures { result ≡ sets_rows self.now }
    {
        let lines = &self.lines;
        !lines.horizontals.places().is_empty() || !lines.crossings.places().is_empty()
    }

    /// Whether a vertical has a value.
    pub fn sets_verticals(&self) -> bool
        ensures { result ≡ has_some self.now.verticals }
    {
        !self.lines.verticals.places().is_empty()
    }

    /// Whether a vertical or a crossing has a value.
    pub fn sets_columns(&self) -> bool
        ensures { result ≡ sets_columns self.now }
    {
        let lines = &self.lines;
        !lines.verticals.places().is_empty() || !lines.crossings.places().is_empty()
    }

    /// Whether a horizontal or a crossing of this row line has a value.
    #[tactic(auto, unfolding(crate::specs::Overrides::overrides_row))]
    pub fn has_row(&self, row: usize) -> bool
        ensures { result ≡ overrides_row self.now row }
    {
        let lines = &self.lines;
        has_row(lines.horizontals.places(), row) || has_row(lines.crossings.places(), row)
    }

    /// Whether a vertical or a crossing of this column line has a value.
    #[tactic(auto, unfolding(crate::specs::Overrides::overrides_column))]
    #[inline(always)]
    pub fn has_column(&self, column: usize) -> bool
        ensures { result ≡ overrides_column self.now column }
    {
        let lines = &self.lines;
        has_column(lines.verticals.places(), column) || lines.columns.places().get(column).is_some()
    }
}

impl<G: Drop, A: Allocator + Clone> Overrides<G, A> {
    /// Sets the places round a cell to the values that this border has for them. A value that it
    /// lacks leaves its place unchanged, and one for a place after line `usize::MAX` is left out.
    ///
    /// If memory is refused, nothing changes.
    pub fn set_border(&mut self, pos: Position, border: Border<G>) -> Result<(), AllocError>
        ensures ok { OnOk result (self.new ≡ with_border pos border self.old) }
        ensures err { OnErr result (self.new ≡ self.old) }
        ensures nothing { on_lines pos border ≡ no_border → IsOk result }
    {
        let done = self.lines.put_border(pos, border);
        self.lines.settle(done.is_ok());
        done
    }

    /// Puts values at their places in a row line: those at crossings here, the others among these
    /// values of horizontals, whose changes aren't settled then.
    ///
    /// If memory is refused, no crossing changes.
    pub fn set_over(
        &mut self,
        glyphs: &mut NotedPlaces<GlyphPlace, G, A>,
        row: usize,
        over: Vec<(Option<LinePlace>, G), A>,
    ) -> Result<(), AllocError>
        ensures glyphs { OnOk result (glyphs.new.now ≡ with_glyphs row over.items glyphs.old.now) }
        ensures before { glyphs.new.before ≡ glyphs.old.before }
        ensures ok { OnOk result (self.new ≡ record self.old { crossings = with_line_crossings row over.items self.old.crossings }) }
        ensures err { OnErr result (self.new ≡ self.old) }
    {
        let done = self.lines.put_line_glyphs(glyphs, row, over);
        self.lines.settle(done.is_ok());
        done
    }
}

impl<A: Allocator + Clone> Overrides<char, A> {
    /// Sets the glyphs of these crossings.
    ///
    /// If memory is refused, nothing changes. Without glyphs nothing is allocated.
    pub fn set_crossings(&mut self, glyphs: &Places<Position, char, A>) -> Result<(), AllocError>
        ensures ok { OnOk result (self.new ≡ record self.old { crossings = with_all glyphs.now self.old.crossings }) }
        ensures err { OnErr result (self.new ≡ self.old) }
        ensures ascending { IsAscending by_place self.old.crossings }
        ensures nothing { glyphs.now ≡ [] → IsOk result }
    {
        // Shows that they are in order.
        self.lines.crossings.places().stand_in_order();
        let done = self.lines.put_all_crossings(glyphs);
        self.lines.settle(done.is_ok());
        done
    }

    /// Sets the horizontals and the crossings of a row line of so many columns to the glyphs of
    /// this line. A glyph that it lacks leaves its places unchanged. With no columns nothing
    /// changes.
    ///
    /// If memory is refused, nothing changes. Nothing is allocated if no glyph has a place.
    #[tactic(auto, unfolding(crate::specs::Overrides::with_row_line), using(crate::proofs::EqualLines::without_glyphs))]
    pub fn set_row_line(
        &mut self,
        row: usize,
        columns: usize,
        line: HorizontalLine<char>,
    ) -> Result<(), AllocError>
        ensures ok { OnOk result (self.new ≡ with_row_line row columns line self.old) }
        ensures err { OnErr result (self.new ≡ self.old) }
        ensures nothing { has_glyph columns line ≡ false → IsOk result }
    {
        if !has_glyph(columns, line) {
            return Ok(());
        }
        let done = self.lines.put_row_line(row, columns, line);
        self.lines.settle(done.is_ok());
        done
    }
}

fn has_glyph(columns: usize, line: HorizontalLine<char>) -> bool
    ensures { result ≡ has_glyph columns line }
{
    let is_crossed = 1 < columns && line.intersection.is_some();
    let has_others = line.main.is_some() || line.left.is_some() || line.right.is_some();
    0 < columns && (has_others || is_crossed)
}

// Whether a place of this row has a value.
#[inline(always)]
#[tactic(auto, using(crate::proofs::Rulesets::first_keys))]
fn has_row<G, A: Allocator>(places: &Places<Position, G, A>, row: usize) -> bool
    ensures { result ≡ has_key (in_row row) places.now }
{
    // Shows that they are in order.
    places.stand_in_order();
    match places.first_key_from(Position { row, col: 0 }) {
        Some(key) => key.row == row,
        None => false,
    }
}

// Whether a place of this column has a value.
#[inline(always)]
#[tactic(auto, using(crate::proofs::Rulesets::first_keys))]
fn has_column<G, A: Allocator>(places: &Places<ColumnPlace, G, A>, col: usize) -> bool
    ensures { result ≡ has_key (in_column col) places.now }
{
    // Shows that they are in order.
    places.stand_in_order();
    match places.first_key_from(ColumnPlace { col, row: 0 }) {
        Some(key) => key.col == col,
        None => false,
    }
}
