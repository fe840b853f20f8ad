//! Laws of what the getters of a configuration return, and of what its setters change, each as `after`
//! says. The functions of the first do nothing: their contracts are the laws. Those of the second call
//! setters of one kind, one after another, and their contracts name the settings that result.

ghost use Rattle.pg_laws.specs.SettingLaws.{TheLatestCounts, ABorderHasItsParts, ABorderOverridesItsPlaces, ABorderIsAnswered, ABorderOfColorsIsAnswered, RowLineHorizontals};
ghost use Rattle.pg_laws.specs.SettingLaws.{RowLineCrossings, RowLineVerticals, RowLinesStay, ColumnLinesStay, AStartIsAnswered, AnEndIsAnswered, AnOffsetMarksItsPlace};
ghost use Rattle.pg_laws.specs.SettingLaws.{AColumnSpanIsAnswered, ARowSpanIsAnswered, WhatWasSetIsTold, NothingWasSetAtFirst};
ghost use Rattle.std.specs.Prelude.{◌≡◌, ◌∷◌, [], OnOk};
ghost use Rattle.std.specs.List.{fold};
ghost use Rattle.pg_laws.specs.SettingLaws.{after, set_padding, set_padding_color, set_alignment_horizontal, set_alignment_vertical, set_trim_horizontal, set_trim_vertical};
ghost use Rattle.pg_laws.specs.SettingLaws.{set_line_alignment, set_justification, set_justification_color, set_borders, set_borders_missing, set_border, set_row_line};
ghost use Rattle.pg_laws.specs.SettingLaws.{set_span_crossings, set_borders_color, set_border_color, set_horizontal_char, set_horizontal_color, set_vertical_char, set_vertical_color};
ghost use Rattle.pg_laws.specs.SettingLaws.{set_margin, set_margin_offset, set_margin_color, set_column_span, set_row_span};

use pg_config::SpannedConfig;
use pg_layout::{
    ANSIBuf, AlignmentHorizontal, AlignmentVertical, Border, Borders, Entity, HorizontalLine,
    Indent, Offset, Position, Sides,
};
use std::alloc::{AllocError, Allocator};

/// After a setter, the places that its entity holds have the new value, and all others keep theirs.
#[tactic(auto, using(crate::proofs::SettingLaws::latest))]
pub fn the_latest_setting_counts<V>()
    ensures { TheLatestCounts V }
{}

/// After the border of a cell is set, the eight places round the cell have the values that the
/// border has for them: all its parts, if the cell has a line below it and one at its right. All
/// other places, and those that the border lacks, keep their values.
pub fn a_border_overrides_its_places<G>()
    ensures places { ABorderOverridesItsPlaces G }
    ensures parts { ABorderHasItsParts G }
{}

/// So the getters of the lines and crossings round the cell return the glyphs and colours of its
/// border, and a line with one of its glyphs exists. For any other place they return what they did
/// before, except for the missing glyph where only the border makes the line.
pub fn a_border_is_answered()
    ensures glyphs { ABorderIsAnswered }
    ensures colors { ABorderOfColorsIsAnswered }
{}

/// After a row line is set across a table, its horizontals and its crossings have the glyphs of the
/// line, if it has them. All other places keep theirs.
#[tactic(auto, using(crate::proofs::SettingLaws::row_line_horizontals, crate::proofs::SettingLaws::row_line_crossings, crate::proofs::SettingLaws::row_line_verticals))]
pub fn a_row_line_overrides_its_places<G>()
    ensures horizontals { RowLineHorizontals G }
    ensures crossings { RowLineCrossings G }
    ensures verticals { RowLineVerticals G }
{}

/// Lines before the last one don't depend on how many there are: neither whether they exist, nor
/// their glyphs and colours.
pub fn lines_before_the_last_stay()
    ensures rows { RowLinesStay }
    ensures columns { ColumnLinesStay }
{}

/// A glyph or a colour set for one glyph of a line is returned at its number, one from the start
/// before one from the end. Nothing else changes.
#[tactic(auto, using(crate::proofs::SettingLaws::start_answers, crate::proofs::SettingLaws::end_answers, crate::proofs::SettingLaws::place_answers))]
pub fn an_offset_is_answered<V>()
    ensures start { AStartIsAnswered V }
    ensures end { AnEndIsAnswered V }
    ensures place { AnOffsetMarksItsPlace V }
{}

/// After a span is set, the cell's rectangle has that size, and those of all other cells keep
/// theirs. The cell owns and covers the places of its rectangle, except for those that a rectangle
/// before it holds. All other places are as without its span.
pub fn a_span_is_answered()
    ensures column { AColumnSpanIsAnswered }
    ensures row { ARowSpanIsAnswered }
{}

/// Whether a padding colour, a justification, an offset or a border colour was ever set is shown by
/// its test: it is true from then on, whatever is set later, and only by setters of its kind.
pub fn what_was_set_is_told()
    ensures told { WhatWasSetIsTold }
    ensures first { NothingWasSetAtFirst }
{}

/// Paddings and their colours.
pub fn paddings_are_told<A: Allocator + Clone>(
    config: &mut SpannedConfig<A>,
    entity: Entity,
    padding: Sides<Indent>,
    color: Sides<Option<ANSIBuf<A>>>,
) -> Result<(), AllocError>
    ensures { OnOk result (config.new ≡ fold after config.old (set_padding entity padding ∷ set_padding_color entity color ∷ [])) }
{
    config.set_padding(entity, padding)?;
    config.set_padding_color(entity, color)
}

/// Alignments of texts.
pub fn alignments_are_told<A: Allocator + Clone>(
    config: &mut SpannedConfig<A>,
    entity: Entity,
    across: AlignmentHorizontal,
    down: AlignmentVertical,
) -> Result<(), AllocError>
    ensures { OnOk result (config.new ≡ fold after config.old (set_alignment_horizontal entity across ∷ set_alignment_vertical entity down ∷ [])) }
{
    config.set_alignment_horizontal(entity, across)?;
    config.set_alignment_vertical(entity, down)
}

/// How lines of texts are trimmed, and whether each is aligned by itself.
pub fn trims_are_told<A: Allocator + Clone>(
    config: &mut SpannedConfig<A>,
    entity: Entity,
    across: bool,
    down: bool,
    lines: bool,
) -> Result<(), AllocError>
    ensures { OnOk result (config.new ≡ fold after config.old (set_trim_horizontal entity across ∷ set_trim_vertical entity down ∷ set_line_alignment entity lines ∷ [])) }
{
    config.set_trim_horizontal(entity, across)?;
    config.set_trim_vertical(entity, down)?;
    config.set_line_alignment(entity, lines)
}

/// Justifications and their colours.
pub fn justifications_are_told<A: Allocator + Clone>(
    config: &mut SpannedConfig<A>,
    entity: Entity,
    fill: char,
    color: Option<ANSIBuf<A>>,
) -> Result<(), AllocError>
    ensures { OnOk result (config.new ≡ fold after config.old (set_justification entity fill ∷ set_justification_color entity color ∷ [])) }
{
    config.set_justification(entity, fill)?;
    config.set_justification_color(entity, color)
}

/// The glyphs of all borders, and the missing glyph.
pub fn borders_are_told<A: Allocator>(
    config: &mut SpannedConfig<A>,
    borders: Borders<char>,
    missing: Option<char>,
)
    ensures { config.new ≡ fold after config.old (set_borders borders ∷ set_borders_missing missing ∷ []) }
{
    config.set_borders(borders);
    config.set_borders_missing(missing);
}

/// The glyphs round a cell and of a row line.
pub fn overrides_are_told<A: Allocator + Clone>(
    config: &mut SpannedConfig<A>,
    pos: Position,
    border: Border<char>,
    line: HorizontalLine<char>,
) -> Result<(), AllocError>
    ensures { OnOk result (config.new ≡ fold after config.old (set_border pos border ∷ set_row_line pos.row pos.col line ∷ [])) }
{
    config.set_border(pos, border)?;
    config.set_row_line(pos.row, pos.col, line)
}

/// The glyphs of the crossings on the edges of merged cells.
pub fn span_crossings_are_told<A: Allocator + Copy>(
    config: &mut SpannedConfig<A>,
    alloc: A,
    size: (usize, usize),
    borders: Borders<char>,
) -> Result<(), AllocError>
    ensures { OnOk result (config.new ≡ fold after config.old (set_span_crossings size.0 size.1 borders ∷ [])) }
{
    config.set_span_crossings(alloc, size, borders)
}

/// The colours of borders.
pub fn border_colors_are_told<A: Allocator + Clone>(
    config: &mut SpannedConfig<A>,
    colors: Borders<ANSIBuf<A>>,
    pos: Position,
    border: Border<ANSIBuf<A>>,
) -> Result<(), AllocError>
    ensures { OnOk result (config.new ≡ fold after config.old (set_borders_color colors ∷ set_border_color pos border ∷ [])) }
{
    config.set_borders_color(colors);
    config.set_border_color(pos, border)
}

/// Single glyphs of horizontals and their colours.
pub fn horizontal_offsets_are_told<A: Allocator + Clone>(
    config: &mut SpannedConfig<A>,
    pos: Position,
    offset: Offset,
    glyph: char,
    color: ANSIBuf<A>,
) -> Result<(), AllocError>
    ensures { OnOk result (config.new ≡ fold after config.old (set_horizontal_char pos offset glyph ∷ set_horizontal_color pos offset color ∷ [])) }
{
    config.set_horizontal_char(pos, offset, glyph)?;
    config.set_horizontal_color(pos, offset, color)
}

/// Single glyphs of verticals and their colours.
pub fn vertical_offsets_are_told<A: Allocator + Clone>(
    config: &mut SpannedConfig<A>,
    pos: Position,
    offset: Offset,
    glyph: char,
    color: ANSIBuf<A>,
) -> Result<(), AllocError>
    ensures { OnOk result (config.new ≡ fold after config.old (set_vertical_char pos offset glyph ∷ set_vertical_color pos offset color ∷ [])) }
{
    config.set_vertical_char(pos, offset, glyph)?;
    config.set_vertical_color(pos, offset, color)
}

/// Margins, where they begin, and their colours.
pub fn margins_are_told<A: Allocator>(
    config: &mut SpannedConfig<A>,
    margin: Sides<Indent>,
    offset: Sides<Offset>,
    color: Sides<Option<ANSIBuf<A>>>,
)
    ensures { config.new ≡ fold after config.old (set_margin margin ∷ set_margin_offset offset ∷ set_margin_color color ∷ []) }
{
    config.set_margin(margin);
    config.set_margin_offset(offset);
    config.set_margin_color(color);
}

/// Spans.
pub fn spans_are_told<A: Allocator + Clone>(
    config: &mut SpannedConfig<A>,
    pos: Position,
    columns: usize,
    rows: usize,
) -> Result<(), AllocError>
    ensures { OnOk result (config.new ≡ fold after config.old (set_column_span pos columns ∷ set_row_span pos rows ∷ [])) }
{
    config.set_column_span(pos, columns)?;
    config.set_row_span(pos, rows)
}
