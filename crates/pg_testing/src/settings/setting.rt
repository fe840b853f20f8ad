//! A setting of a configuration, as the words of a line say it.

use crate::lines::LineFault;
use crate::settings::borders::{border_at, borders_at, row_line_at};
use crate::settings::words::Words;
use pg_config::SpannedConfig;
use pg_layout::{
    ANSIBuf, AlignmentHorizontal, AlignmentVertical, Border, Borders, Entity, EvenDimension,
    HorizontalLine, Indent, Offset, Position, Sides,
};
use std::alloc::{AllocError, Allocator};

/// Characters over the glyphs of a row line.
#[derive(Drop)]
pub(crate) struct LineGlyphs<A: Allocator> {
    row: usize,
    // How many rows the table has.
    rows: usize,
    // The widths of its columns.
    dimension: EvenDimension<A>,
    // The first column of the line that has one.
    first: usize,
    glyphs: Vec<char, A>,
}

/// What is set: of the whole table, at a place, or of an entity.
#[derive(Drop)]
pub(crate) enum Setting<A: Allocator> {
    Borders(Borders<char>),
    BordersMissing(Option<char>),
    BordersColor(Borders<ANSIBuf<A>>),
    Margin(Sides<Indent>),
    MarginOffset(Sides<Offset>),
    MarginColor(Sides<Option<ANSIBuf<A>>>),
    SpanCrossings((usize, usize), Borders<char>),
    LineGlyphs(LineGlyphs<A>),
    RowLine((usize, usize), HorizontalLine<char>),
    Border(Position, Border<char>),
    BorderColor(Position, Border<ANSIBuf<A>>),
    ColumnSpan(Position, usize),
    RowSpan(Position, usize),
    HorizontalChar((Position, Offset), char),
    VerticalChar((Position, Offset), char),
    HorizontalColor((Position, Offset), ANSIBuf<A>),
    VerticalColor((Position, Offset), ANSIBuf<A>),
    Cells(Entity, CellSetting<A>),
}

/// What is set of cells.
#[derive(Drop)]
pub(crate) enum CellSetting<A: Allocator> {
    Padding(Sides<Indent>),
    PaddingColor(Sides<Option<ANSIBuf<A>>>),
    AlignmentHorizontal(AlignmentHorizontal),
    AlignmentVertical(AlignmentVertical),
    TrimHorizontal(bool),
    TrimVertical(bool),
    LineAlignment(bool),
    Justification(char),
    JustificationColor(Option<ANSIBuf<A>>),
}

impl<A: Allocator + Copy> Setting<A> {
    /// What a line sets.
    pub(crate) fn of(alloc: A, line: &str) -> Result<Setting<A>, LineFault> {
        let mut words = Words::new(line);
        let setting = match words.word() {
            "borders" => Setting::Borders(words.borders()),
            "borders_missing" => Setting::BordersMissing(words.value(())),
            "borders_color" => Setting::BordersColor(borders_at(alloc, &mut words)),
            "margin" => Setting::Margin(words.indents()),
            "margin_offset" => Setting::MarginOffset(words.offsets()),
            "margin_color" => Setting::MarginColor(words.colors(alloc)),
            "span_crossings" => Setting::SpanCrossings(words.numbers(), words.borders()),
            "line_glyphs" => Setting::LineGlyphs(line_glyphs_of(alloc, &mut words)?),
            "row_line" => Setting::RowLine(words.numbers(), row_line_at(&mut words)),
            "border" => Setting::Border(words.place(), border_at((), &mut words)),
            "border_color" => Setting::BorderColor(words.place(), border_at(alloc, &mut words)),
            "column_span" => Setting::ColumnSpan(words.place(), words.number()),
            "row_span" => Setting::RowSpan(words.place(), words.number()),
            "horizontal_char" => Setting::HorizontalChar(words.glyph_place(), words.fill()),
            "vertical_char" => Setting::VerticalChar(words.glyph_place(), words.fill()),
            "horizontal_color" => {
                Setting::HorizontalColor(words.glyph_place(), words.color_there(alloc)?)
            }
            "vertical_color" => {
                Setting::VerticalColor(words.glyph_place(), words.color_there(alloc)?)
            }
            name => Setting::Cells(words.entity(), CellSetting::of(alloc, name, &mut words)?),
        };
        words.end(setting)
    }

    /// Sets it. A configuration without memory for it is unchanged.
    pub(crate) fn apply(self, config: &mut SpannedConfig<A>, alloc: A) -> Result<(), AllocError> {
        match self {
            Setting::Borders(borders) => config.set_borders(borders),
            Setting::BordersMissing(glyph) => config.set_borders_missing(glyph),
            Setting::BordersColor(colors) => config.set_borders_color(colors),
            Setting::Margin(margin) => config.set_margin(margin),
            Setting::MarginOffset(offset) => config.set_margin_offset(offset),
            Setting::MarginColor(colors) => config.set_margin_color(colors),
            Setting::SpanCrossings(size, borders) => {
                return config.set_span_crossings(alloc, size, borders);
            }
            Setting::LineGlyphs(glyphs) => return glyphs.apply(config, alloc),
            Setting::RowLine((row, columns), line) => {
                return config.set_row_line(row, columns, line);
            }
            Setting::Border(pos, border) => return config.set_border(pos, border),
            Setting::BorderColor(pos, colors) => return config.set_border_color(pos, colors),
            Setting::ColumnSpan(pos, columns) => return config.set_column_span(pos, columns),
            Setting::RowSpan(pos, rows) => return config.set_row_span(pos, rows),
            Setting::HorizontalChar((pos, at), c) => return config.set_horizontal_char(pos, at, c),
            Setting::VerticalChar((pos, at), c) => return config.set_vertical_char(pos, at, c),
            Setting::HorizontalColor((pos, at), color) => {
                return config.set_horizontal_color(pos, at, color);
            }
            Setting::VerticalColor((pos, at), color) => {
                return config.set_vertical_color(pos, at, color);
            }
            Setting::Cells(entity, setting) => return setting.apply(config, entity),
        }
        Ok(())
    }
}

impl<A: Allocator + Copy> CellSetting<A> {
    // What the setter of this name takes, beside an entity.
    fn of(alloc: A, name: &str, words: &mut Words<'_>) -> Result<CellSetting<A>, LineFault> {
        Ok(match name {
            "padding" => CellSetting::Padding(words.indents()),
            "padding_color" => CellSetting::PaddingColor(words.colors(alloc)),
            "alignment_horizontal" => CellSetting::AlignmentHorizontal(words.horizontal()),
            "alignment_vertical" => CellSetting::AlignmentVertical(words.vertical()),
            "trim_horizontal" => CellSetting::TrimHorizontal(words.switch()),
            "trim_vertical" => CellSetting::TrimVertical(words.switch()),
            "line_alignment" => CellSetting::LineAlignment(words.switch()),
            "justification" => CellSetting::Justification(words.fill()),
            "justification_color" => CellSetting::JustificationColor(words.value(alloc)),
            _ => return Err(LineFault::Unknown),
        })
    }

    // Sets it for an entity.
    fn apply(self, config: &mut SpannedConfig<A>, entity: Entity) -> Result<(), AllocError> {
        match self {
            CellSetting::Padding(padding) => config.set_padding(entity, padding),
            CellSetting::PaddingColor(colors) => config.set_padding_color(entity, colors),
            CellSetting::AlignmentHorizontal(alignment) => {
                config.set_alignment_horizontal(entity, alignment)
            }
            CellSetting::AlignmentVertical(alignment) => {
                config.set_alignment_vertical(entity, alignment)
            }
            CellSetting::TrimHorizontal(trims) => config.set_trim_horizontal(entity, trims),
            CellSetting::TrimVertical(trims) => config.set_trim_vertical(entity, trims),
            CellSetting::LineAlignment(aligns) => config.set_line_alignment(entity, aligns),
            CellSetting::Justification(fill) => config.set_justification(entity, fill),
            CellSetting::JustificationColor(color) => {
                config.set_justification_color(entity, color)
            }
        }
    }
}

impl<A: Allocator + Copy> LineGlyphs<A> {
    // Sets them.
    fn apply(self, config: &mut SpannedConfig<A>, alloc: A) -> Result<(), AllocError> {
        let size = (self.rows, self.dimension.widths.len());
        config.set_line_glyphs(
            alloc,
            self.row,
            size,
            &self.dimension,
            self.first,
            &self.glyphs,
        )
    }
}

// Characters over a row line, by the row line, the rows of a table, the widths of its columns and the
// first column of the line that has one.
fn line_glyphs_of<A: Allocator + Copy>(
    alloc: A,
    words: &mut Words<'_>,
) -> Result<LineGlyphs<A>, AllocError> {
    let (row, rows) = words.numbers();
    let widths = widths_of(alloc, words)?;
    let first = words.number();
    let glyphs = glyphs_of(alloc, words.word())?;
    Ok(LineGlyphs {
        row,
        rows,
        dimension: EvenDimension { widths, height: 1 },
        first,
        glyphs,
    })
}

// The widths of columns, which commas separate.
fn widths_of<A: Allocator + Copy>(
    alloc: A,
    words: &mut Words<'_>,
) -> Result<Vec<usize, A>, AllocError> {
    let mut widths = Vec::new(alloc);
    for word in words.word().split(',') {
        widths.push(words.number_in(word))?;
    }
    Ok(widths)
}

// The characters of a text.
fn glyphs_of<A: Allocator + Copy>(alloc: A, text: &str) -> Result<Vec<char, A>, AllocError> {
    let mut glyphs = Vec::new(alloc);
    for glyph in text.chars() {
        glyphs.push(glyph)?;
    }
    Ok(glyphs)
}
