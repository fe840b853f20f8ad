//! Questions: which getter is asked, and of what, as of a border line or of a place; and its answer in the words of
//! the input.

ghost use Rattle.std.specs.Prelude.{◌<◌};

use crate::case::{CaseFault, set_numbers};
use crate::settings::{Color, Config, Memory};
use pg_config::{Span, Spans};
use pg_layout::{
    ANSIFmt, AlignmentHorizontal, AlignmentVertical, Borders, Formatting, Indent, Offset, Position,
    Sides,
};
use std::alloc::Global;

/// Writes what a getter returns, once for each list of numbers that the question has.
pub(crate) fn write_answers(
    config: &Config<'_>,
    alloc: Global,
    question: &str,
    answer: &mut Answer,
) {
    let Some((getter, lists)) = question.split_once(' ') else {
        return write_of_table(config, question, answer);
    };
    for list in lists.split("; ") {
        let mut numbers = Vec::new(alloc);
        match set_numbers(&mut numbers, list) {
            Ok(()) => write_answer(config, getter, &numbers, answer),
            Err(fault) => answer.fail(fault),
        }
    }
}

// Writes what a getter returns for these numbers.
fn write_answer(config: &Config<'_>, getter: &str, numbers: &[usize], answer: &mut Answer) {
    match numbers {
        [size] => write_count(config, getter, *size, answer),
        [row, col] => write_of_place(config, getter, (*row, *col), answer),
        [row, col, size] => write_of_side(config, getter, (*row, *col, *size), answer),
        [row, col, rows, columns] => {
            write_of_crossing(config, getter, (*row, *col), (*rows, *columns), answer)
        }
        _ => answer.fail(CaseFault::Unknown),
    }
}

// Writes what is returned of the whole table.
fn write_of_table(config: &Config<'_>, getter: &str, answer: &mut Answer) {
    match getter {
        "get_borders" => write_borders(config.get_borders(), answer),
        "get_borders_missing" => answer.push_glyph(config.get_borders_missing()),
        "get_margin" => answer.push_indents(config.get_margin()),
        "get_margin_offset" => answer.push_offsets(config.get_margin_offset()),
        "get_margin_color" => answer.push_colors(config.get_margin_color()),
        "spans" => write_spans(config.spans(), answer),
        _ => write_truth_of_table(config, getter, answer),
    }
}

// Writes whether this is so of the whole table.
fn write_truth_of_table(config: &Config<'_>, getter: &str, answer: &mut Answer) {
    let is_so = match getter {
        "has_column_lines" => config.has_column_lines(),
        "has_border_colors" => config.has_border_colors(),
        "has_padding_color" => config.has_padding_color(),
        "has_justification" => config.has_justification(),
        "has_offset_chars" => config.has_offset_chars(),
        "has_column_spans" => config.has_column_spans(),
        "has_row_spans" => config.has_row_spans(),
        _ => return answer.fail(CaseFault::Unknown),
    };
    answer.push_truth(is_so);
}

// Writes how many lines there are in a table of so many rows or columns.
fn write_count(config: &Config<'_>, getter: &str, size: usize, answer: &mut Answer) {
    if size == usize::MAX {
        return answer.fail(CaseFault::Unknown);
    }
    match getter {
        "count_horizontal" => answer.push_number(config.count_horizontal(size)),
        "count_vertical" => answer.push_number(config.count_vertical(size)),
        _ => answer.fail(CaseFault::Unknown),
    }
}

// Writes the places that have a glyph, as `top=-`.
fn write_borders(borders: &Borders<char>, answer: &mut Answer) {
    answer.push_named("top", borders.top);
    answer.push_named("top_left", borders.top_left);
    answer.push_named("top_right", borders.top_right);
    answer.push_named("top_intersection", borders.top_intersection);
    answer.push_named("bottom", borders.bottom);
    answer.push_named("bottom_left", borders.bottom_left);
    answer.push_named("bottom_right", borders.bottom_right);
    answer.push_named("bottom_intersection", borders.bottom_intersection);
    answer.push_named("horizontal", borders.horizontal);
    answer.push_named("left_intersection", borders.left_intersection);
    answer.push_named("right_intersection", borders.right_intersection);
    answer.push_named("intersection", borders.intersection);
    answer.push_named("left", borders.left);
    answer.push_named("right", borders.right);
    answer.push_named("vertical", borders.vertical);
}

// Writes what is returned of a crossing in a table of so many rows and columns.
fn write_of_crossing(
    config: &Config<'_>,
    getter: &str,
    (row, col): (usize, usize),
    size: (usize, usize),
    answer: &mut Answer,
) {
    let pos = Position::new(row, col);
    match getter {
        "get_intersection" => answer.push_glyph(config.get_intersection(pos, size)),
        "get_intersection_color" => answer.push_color(config.get_intersection_color(pos, size)),
        _ => answer.fail(CaseFault::Unknown),
    }
}

// Writes what is returned of a horizontal or a vertical, in a table of so many rows or columns, or of
// so many glyphs.
fn write_of_side(
    config: &Config<'_>,
    getter: &str,
    (row, col, size): (usize, usize, usize),
    answer: &mut Answer,
) {
    let pos = Position::new(row, col);
    match getter {
        "get_horizontal" => answer.push_glyph(config.get_horizontal(pos, size)),
        "get_vertical" => answer.push_glyph(config.get_vertical(pos, size)),
        "get_horizontal_color" => answer.push_color(config.get_horizontal_color(pos, size)),
        "get_vertical_color" => answer.push_color(config.get_vertical_color(pos, size)),
        "glyphs_round" => write_glyphs_round(config, pos, size, answer),
        "colors_round" => write_colors_round(config, pos, size, answer),
        "row_line" => write_row_line(config, row, (col, size), answer),
        "lookups" => write_lookups(config, pos, size, answer),
        _ => write_lookup(config, getter, (pos, size), answer),
    }
}

// The places below a place, right of it, and below and right of it.
fn places_beside(pos: Position) -> [Position; 3] {
    let (row, col) = (pos.row.saturating_add(1), pos.col.saturating_add(1));
    [
        Position::new(row, pos.col),
        Position::new(pos.row, col),
        Position::new(row, col),
    ]
}

// Writes the glyphs round a cell, in a table of as many rows as columns: above and below it, left and
// right of it, and at its corners, the two at its top first.
fn write_glyphs_round(config: &Config<'_>, pos: Position, size: usize, answer: &mut Answer) {
    let [below, right, across] = places_beside(pos);
    answer.begin_word();
    for glyph in [
        config.get_horizontal(pos, size),
        config.get_horizontal(below, size),
        config.get_vertical(pos, size),
        config.get_vertical(right, size),
        config.get_intersection(pos, (size, size)),
        config.get_intersection(right, (size, size)),
        config.get_intersection(below, (size, size)),
        config.get_intersection(across, (size, size)),
    ] {
        answer.push_mark(glyph);
    }
}

// Writes the prefixes of the colours round a cell, in the order of its glyphs.
fn write_colors_round(config: &Config<'_>, pos: Position, size: usize, answer: &mut Answer) {
    let [below, right, across] = places_beside(pos);
    answer.begin_word();
    for color in [
        config.get_horizontal_color(pos, size),
        config.get_horizontal_color(below, size),
        config.get_vertical_color(pos, size),
        config.get_vertical_color(right, size),
        config.get_intersection_color(pos, (size, size)),
        config.get_intersection_color(right, (size, size)),
        config.get_intersection_color(below, (size, size)),
        config.get_intersection_color(across, (size, size)),
    ] {
        answer.push_prefix(color);
    }
}

// Writes the glyphs of a row line in a table of so many rows and columns, from its left to its right
// end: of crossings and horizontals in turn.
fn write_row_line(
    config: &Config<'_>,
    row: usize,
    (rows, columns): (usize, usize),
    answer: &mut Answer,
) {
    answer.begin_word();
    for col in 0..columns {
        let pos = Position::new(row, col);
        answer.push_mark(config.get_intersection(pos, (rows, columns)));
        answer.push_mark(config.get_horizontal(pos, rows));
    }
    let end = Position::new(row, columns);
    answer.push_mark(config.get_intersection(end, (rows, columns)));
}

// Writes what is set for the glyphs of a horizontal and a vertical: glyphs and colours of the one, and
// then of the other.
fn write_lookups(config: &Config<'_>, pos: Position, length: usize, answer: &mut Answer) {
    for getter in [
        "lookup_horizontal_char",
        "lookup_horizontal_color",
        "lookup_vertical_char",
        "lookup_vertical_color",
    ] {
        write_lookup(config, getter, (pos, length), answer);
    }
}

// Writes what a getter returns of each of so many glyphs of a horizontal or a vertical, of which there is
// one at least.
fn write_lookup(
    config: &Config<'_>,
    getter: &str,
    (pos, length): (Position, usize),
    answer: &mut Answer,
) {
    if length == 0 {
        return answer.fail(CaseFault::Unknown);
    }
    answer.begin_word();
    for i in 0..length {
        write_single(config, getter, pos, i, length, answer);
    }
}

// Writes what it returns of glyph i.
fn write_single(
    config: &Config<'_>,
    getter: &str,
    pos: Position,
    i: usize,
    length: usize,
    answer: &mut Answer,
)
    requires { i < length }
{
    match getter {
        "lookup_horizontal_char" => answer.push_mark(config.lookup_horizontal_char(pos, i, length)),
        "lookup_horizontal_color" => {
            answer.push_prefix(config.lookup_horizontal_color(pos, i, length))
        }
        "lookup_vertical_char" => answer.push_mark(config.lookup_vertical_char(pos, i, length)),
        "lookup_vertical_color" => answer.push_prefix(config.lookup_vertical_color(pos, i, length)),
        _ => answer.fail(CaseFault::Unknown),
    }
}

// Writes what is returned of a place. Two getters that are asked of a line take its number and that of
// the rows or columns.
fn write_of_place(
    config: &Config<'_>,
    getter: &str,
    (row, col): (usize, usize),
    answer: &mut Answer,
) {
    let pos = Position::new(row, col);
    match getter {
        "has_horizontal" => answer.push_truth(config.has_horizontal(row, col)),
        "has_vertical" => answer.push_truth(config.has_vertical(row, col)),
        "cell" => write_cell(config, pos, answer),
        "get_padding" => answer.push_indents(config.get_padding(pos)),
        "get_padding_color" => write_padding_color(config, pos, answer),
        "get_alignment_horizontal" => answer.push_horizontal(config.get_alignment_horizontal(pos)),
        "get_alignment_vertical" => answer.push_vertical(config.get_alignment_vertical(pos)),
        "get_formatting" => answer.push_formatting(config.get_formatting(pos)),
        "get_justification" => answer.push_glyph(Some(config.get_justification(pos))),
        "get_justification_color" => answer.push_color(config.get_justification_color(pos)),
        _ => write_of_span(config, getter, pos, answer),
    }
}

// Writes the colours of a cell's padding.
fn write_padding_color(config: &Config<'_>, pos: Position, answer: &mut Answer) {
    let colors = config.get_padding_color(pos);
    answer.push_colors(Sides::new(
        colors.left.as_ref(),
        colors.right.as_ref(),
        colors.top.as_ref(),
        colors.bottom.as_ref(),
    ))
}

// Writes how a cell looks: what seven getters return, one after the other.
fn write_cell(config: &Config<'_>, pos: Position, answer: &mut Answer) {
    answer.push_indents(config.get_padding(pos));
    write_padding_color(config, pos, answer);
    answer.push_horizontal(config.get_alignment_horizontal(pos));
    answer.push_vertical(config.get_alignment_vertical(pos));
    answer.push_formatting(config.get_formatting(pos));
    answer.push_glyph(Some(config.get_justification(pos)));
    answer.push_color(config.get_justification_color(pos))
}

// Writes what is returned of the rectangle of a place, or of the spans from or before it.
fn write_of_span(config: &Config<'_>, getter: &str, pos: Position, answer: &mut Answer) {
    match getter {
        "get_column_span" => answer.push_size(config.get_column_span(pos)),
        "get_row_span" => answer.push_size(config.get_row_span(pos)),
        "rect_columns" => answer.push_number(config.rect_columns(pos)),
        "rect_rows" => answer.push_number(config.rect_rows(pos)),
        "left_span" => answer.push_span(config.left_span(pos)),
        "next_from" => answer.push_span(config.spans().next_from(pos)),
        "last_before" => answer.push_span(config.spans().last_before(pos)),
        _ => write_truth_of_place(config, getter, pos, answer),
    }
}

// Writes whether this is so of a place.
fn write_truth_of_place(config: &Config<'_>, getter: &str, pos: Position, answer: &mut Answer) {
    let is_so = match getter {
        "is_cell_visible" => config.is_cell_visible(pos),
        "is_cell_covered_by_column_span" => config.is_cell_covered_by_column_span(pos),
        "is_cell_covered_by_row_span" => config.is_cell_covered_by_row_span(pos),
        "is_cell_covered_by_both_spans" => config.is_cell_covered_by_both_spans(pos),
        "is_overridden_horizontal" => config.is_overridden_horizontal(pos),
        _ => return answer.fail(CaseFault::Unknown),
    };
    answer.push_truth(is_so);
}

// Writes all rectangles in their order.
fn write_spans(spans: &Spans<Memory<'_>>, answer: &mut Answer) {
    for (place, size) in spans.iter() {
        answer.push_span(Some((*place, *size)));
    }
}

/// What getters return, as words that are parted by spaces.
///
/// The first thing that goes wrong is kept to the end, so that a question is written without looking for it.
#[derive(Drop)]
pub(crate) struct Answer {
    text: String,
    // Why something isn't written.
    fault: Option<CaseFault>,
}

impl Answer {
    /// No words.
    pub(crate) fn new(alloc: Global) -> Answer {
        Answer {
            text: String::new(alloc),
            fault: None,
        }
    }

    /// The words, or `none` where there are none. An error if a question can't be asked, or out of memory.
    pub(crate) fn words(&self) -> Result<&str, CaseFault> {
        match self.fault {
            Some(fault) => Err(fault),
            None if self.text.is_empty() => Ok("none"),
            None => Ok(self.text.as_str()),
        }
    }

    /// The question has no answer.
    pub(crate) fn fail(&mut self, fault: CaseFault) {
        self.fault = Some(fault);
    }

    // Writes a part of a word.
    fn write(&mut self, part: &str) {
        if self.text.push_str(part).is_err() {
            self.fail(CaseFault::Memory);
        }
    }

    // Writes a character of a word.
    fn write_char(&mut self, c: char) {
        if self.text.push(c).is_err() {
            self.fail(CaseFault::Memory);
        }
    }

    /// Begins the next word, which what is written by itself is part of.
    pub(crate) fn begin_word(&mut self) {
        if !self.text.is_empty() {
            self.write_char(' ');
        }
    }

    /// Writes a word.
    pub(crate) fn push_word(&mut self, word: &str) {
        self.begin_word();
        self.write(word);
    }

    /// Writes whether something is so.
    pub(crate) fn push_truth(&mut self, is_so: bool) {
        self.push_word(if is_so { "yes" } else { "no" });
    }

    /// Writes a number.
    pub(crate) fn push_number(&mut self, number: usize) {
        self.begin_word();
        if write!(self.text, "{number}").is_err() {
            self.fail(CaseFault::Memory);
        }
    }

    /// Writes a number that may not be there.
    pub(crate) fn push_size(&mut self, size: Option<usize>) {
        match size {
            Some(size) => self.push_number(size),
            None => self.push_word("none"),
        }
    }

    // Writes a glyph that is part of a word.
    fn write_glyph(&mut self, glyph: char) {
        match glyph {
            ' ' => self.write("space"),
            _ => self.write_char(glyph),
        }
    }

    /// Writes a glyph that may not be there.
    pub(crate) fn push_glyph(&mut self, glyph: Option<char>) {
        match glyph {
            Some(glyph) => {
                self.begin_word();
                self.write_glyph(glyph);
            }
            None => self.push_word("none"),
        }
    }

    /// Writes the glyph of a place that has this name, if it has one.
    pub(crate) fn push_named(&mut self, name: &str, glyph: Option<char>) {
        if let Some(glyph) = glyph {
            self.push_word(name);
            self.write_char('=');
            self.write_glyph(glyph);
        }
    }

    /// Writes a glyph by itself, or a point where there is none.
    pub(crate) fn push_mark(&mut self, glyph: Option<char>) {
        self.write_char(glyph.unwrap_or('.'));
    }

    /// Writes both texts of a colour that may not be there.
    pub(crate) fn push_color(&mut self, color: Option<&Color<'_>>) {
        match color {
            Some(color) => {
                self.push_word(color.prefix());
                self.write_char('|');
                self.write(color.suffix());
            }
            None => self.push_word("none"),
        }
    }

    /// Writes the prefix of a colour by itself, or a point where there is none.
    pub(crate) fn push_prefix(&mut self, color: Option<&Color<'_>>) {
        self.write(match color {
            Some(color) => color.prefix(),
            None => ".",
        });
    }

    // Writes what is at a side.
    fn push_indent(&mut self, indent: Indent) {
        self.push_number(indent.size);
        if indent.fill != ' ' {
            self.write_char(':');
            self.write_char(indent.fill);
        }
    }

    /// Writes what is at each side.
    pub(crate) fn push_indents(&mut self, sides: Sides<Indent>) {
        self.push_indent(sides.left);
        self.push_indent(sides.right);
        self.push_indent(sides.top);
        self.push_indent(sides.bottom);
    }

    // Writes a place that is counted from the start or from the end.
    fn push_offset(&mut self, offset: Offset) {
        let (end, number) = match offset {
            Offset::Start(number) => ("start", number),
            Offset::End(number) => ("end", number),
        };
        self.push_word(end);
        self.push_number(number);
    }

    /// Writes such a place for each side.
    pub(crate) fn push_offsets(&mut self, sides: Sides<Offset>) {
        self.push_offset(sides.left);
        self.push_offset(sides.right);
        self.push_offset(sides.top);
        self.push_offset(sides.bottom);
    }

    /// Writes the colours of all sides.
    pub(crate) fn push_colors(&mut self, sides: Sides<Option<&Color<'_>>>) {
        self.push_color(sides.left);
        self.push_color(sides.right);
        self.push_color(sides.top);
        self.push_color(sides.bottom);
    }

    /// Writes where a text is between left and right.
    pub(crate) fn push_horizontal(&mut self, alignment: AlignmentHorizontal) {
        self.push_word(match alignment {
            AlignmentHorizontal::Left => "left",
            AlignmentHorizontal::Center => "center",
            AlignmentHorizontal::Right => "right",
        });
    }

    /// Writes where a text is between top and bottom.
    pub(crate) fn push_vertical(&mut self, alignment: AlignmentVertical) {
        self.push_word(match alignment {
            AlignmentVertical::Top => "top",
            AlignmentVertical::Center => "center",
            AlignmentVertical::Bottom => "bottom",
        });
    }

    // Writes whether something is on.
    fn push_switch(&mut self, is_on: bool) {
        self.push_word(if is_on { "on" } else { "off" });
    }

    /// Writes whether lines are trimmed, blank lines are left out, and lines are aligned one by one.
    pub(crate) fn push_formatting(&mut self, formatting: Formatting) {
        self.push_switch(formatting.horizontal_trim);
        self.push_switch(formatting.vertical_trim);
        self.push_switch(formatting.allow_lines_alignment);
    }

    /// Writes the place of a rectangle and its size, if there is one.
    pub(crate) fn push_span(&mut self, span: Option<Span>) {
        match span {
            Some((place, size)) => {
                self.push_word("at");
                self.push_number(place.row);
                self.push_number(place.col);
                self.push_word("size");
                self.push_number(size.rows);
                self.push_number(size.columns);
            }
            None => self.push_word("none"),
        }
    }
}
