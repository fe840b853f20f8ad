//! What a table is drawn by, whatever its cells come from.

ghost use Rattle.std.specs.Prelude.{◌≡◌, ◌&&◌, ◌||◌, ◌==◌, nat_lt};
ghost use Rattle.std.specs.Option.{ForSome};
ghost use Rattle.pg_picture.specs.Inside.{AreSidesOf, are_simple, has_plain_sides, may_have_row_lines, verticals_of};
ghost use Rattle.pg_config.specs.Cells.{style_of};
ghost use Rattle.pg_config.specs.Common.{IsStyleButAcross, inner_vertical};

use crate::cell::shows_texts_whole;
use crate::column_sides::ColumnSides;
use pg_config::{CellStyle, SpannedConfig};
use std::alloc::{Allocator, Global};

/// What verticals a table has.
#[derive(Debug, Clone, Copy, PartialEq, Eq)]
pub enum VerticalKind {
    /// None has a glyph.
    Absent,
    /// Each has one glyph and one colour on all lines of its row.
    Whole,
    /// A glyph or a colour was set for some of these lines.
    ByLine,
}

/// What a table is drawn by: its configuration, its sizes and its colours, and what of these is the same
/// for all of its lines.
///
/// For callers who draw pieces of a table themselves.
#[derive(Drop)]
pub struct Sheet<'a, D, C, B: Allocator = Global> {
    pub config: &'a SpannedConfig<B>,
    pub dimension: &'a D,
    pub colors: &'a C,
    pub columns: usize,
    /// How many terminal columns a line has, its side margins among them.
    pub width: usize,
    /// How many lines the body has, if that is known.
    pub height: Option<usize>,
    /// The style of all cells, if no setting is for only some of them.
    pub all: Option<CellStyle<'a, B>>,
    ghost is_of_all: { ForSome all (λ style. IsStyleButAcross config.now (style_of style)) },
    /// The horizontal alignments of the first columns.
    pub(crate) sides: ColumnSides,
    ghost are_sides: { AreSidesOf config.now sides },
    /// Whether all cells have a style that is simple to draw: a text of one line between columns of
    /// one character without colours.
    pub is_simple: bool,
    ghost is_of_simple: { is_simple ≡ are_simple all },
    pub verticals: VerticalKind,
    ghost is_lined: { verticals ≡ verticals_of config.now },
    /// The glyph of all verticals between two columns, if they have no colour and none of their
    /// places was set.
    pub inner: Option<char>,
    ghost is_inner: { inner ≡ inner_vertical config.now },
    /// Whether some row line may exist: else there is no separator.
    pub draws_separators: bool,
    ghost is_ruled: { draws_separators ≡ may_have_row_lines config.now },
    /// Whether there is a margin left or right of the lines.
    pub has_sides: bool,
    ghost is_sided: { has_sides ≡ (nat_lt 0 config.now.margin.left.size || nat_lt 0 config.now.margin.right.size) },
    /// Whether the picture's first line is one of the body: there is no top margin.
    pub begins_with_body: bool,
    ghost is_begun: { begins_with_body ≡ (config.now.margin.top.size == 0) },
}

impl<'a, D, C, B: Allocator> Sheet<'a, D, C, B> {
    /// A sheet of these parts, for a table of so many columns, whose lines have this width;
    /// `height` is the number of its body's lines, if that is known.
    pub fn new(
        config: &'a SpannedConfig<B>,
        dimension: &'a D,
        colors: &'a C,
        columns: usize,
        width: usize,
        height: Option<usize>,
    ) -> Sheet<'a, D, C, B>
        ensures config { result.config.now ≡ config.now }
        ensures dimension { result.dimension.now ≡ dimension.now }
        ensures colors { result.colors.now ≡ colors.now }
        ensures columns { result.columns ≡ columns }
        ensures width { result.width ≡ width }
        ensures height { result.height ≡ height }
    {
        let margin = config.get_margin();
        let all = CellStyle::of_all_but_across(config);
        Sheet {
            config,
            dimension,
            colors,
            columns,
            width,
            height,
            all,
            sides: ColumnSides::of(config, columns),
            is_simple: are_simple(&all),
            verticals: verticals_of(config),
            inner: config.inner_vertical(),
            draws_separators: may_have_row_lines(config),
            has_sides: margin.left.size > 0 || margin.right.size > 0,
            begins_with_body: margin.top.size == 0,
        }
    }

    /// The sheet with other sizes; the width of its lines and the number of its body's lines stay.
    pub fn with_dimension<'s, E>(&'s self, dimension: &'s E) -> Sheet<'s, E, C, B>
        ensures config { result.config.now ≡ self.now.config.now }
        ensures dimension { result.dimension.now ≡ dimension.now }
        ensures colors { result.colors.now ≡ self.now.colors.now }
        ensures columns { result.columns ≡ self.now.columns }
        ensures width { result.width ≡ self.now.width }
        ensures height { result.height ≡ self.now.height }
    {
        Sheet {
            config: self.config,
            dimension,
            colors: self.colors,
            columns: self.columns,
            width: self.width,
            height: self.height,
            all: self.all,
            sides: self.sides,
            is_simple: self.is_simple,
            verticals: self.verticals,
            inner: self.inner,
            draws_separators: self.draws_separators,
            has_sides: self.has_sides,
            begins_with_body: self.begins_with_body,
        }
    }
}

#[tactic(auto, unfolding(crate::specs::Inside::may_have_row_lines))]
fn may_have_row_lines<B: Allocator>(config: &SpannedConfig<B>) -> bool
    ensures { result ≡ may_have_row_lines config.now }
{
    let borders = config.get_borders();
    borders.has_top()
        || borders.has_bottom()
        || borders.has_horizontal()
        || !config.has_equal_row_lines()
}

#[tactic(auto, unfolding(crate::specs::Inside::verticals_of))]
fn verticals_of<B: Allocator>(config: &SpannedConfig<B>) -> VerticalKind
    ensures { result ≡ verticals_of config.now }
{
    if !config.has_column_lines() {
        return VerticalKind::Absent;
    }
    if config.has_offset_chars() {
        VerticalKind::ByLine
    } else {
        VerticalKind::Whole
    }
}

fn are_simple<B: Allocator>(all: &Option<CellStyle<'_, B>>) -> bool
    ensures { result ≡ are_simple all.now }
{
    match all {
        Some(style) => shows_texts_whole(style) && has_plain_sides(style),
        None => false,
    }
}

fn has_plain_sides<B: Allocator>(style: &CellStyle<'_, B>) -> bool
    ensures { result ≡ has_plain_sides (style_of style.now) }
{
    let sides = style.padding_color;
    style.padding.left.fill == style.justification
        && style.padding.right.fill == style.justification
        && (sides.left.is_none() && sides.right.is_none() && style.justification_color.is_none())
}
