//! The statements of a script, one a line.

ghost use Rattle.std.specs.Prelude.{◌≡◌, ◌≤◌, ◌<◌, ℕ, length, IfSome, IfOk, option_map};
ghost use Rattle.pg_script.specs.Statement.{FitsSize, change_of, size_said, widths_said, heights_said, cell_said, borders_said, halign_said, valign_said, pad_said, trim_said};
ghost use Rattle.pg_script.specs.Statement.{lines_said, margin_said, color_said, color_code_said, span_said, line_said, is_inside, borders_named, horizontal_named, vertical_named};
ghost use Rattle.pg_script.specs.Statement.{trims_named, switch_named};
ghost use Rattle.pg_script.specs.Told.{indents, terminal_color};
ghost use Rattle.pg_script.specs.Words.{words_of, first_numbers, first_place, first_number, read_on, end_of};
ghost use Rattle.pg_script.specs.declared.statement.Size.{Size};

use crate::words::{Words, char_of, text_of};
use pg_layout::{
    ANSIBuf, AlignmentHorizontal, AlignmentVertical, Borders, Entity, Indent, Position, Sides,
};
use std::alloc::{AllocError, Allocator};

/// The most rows, and the most columns, of a script's table.
const MOST: usize = 1000;

/// The greatest number of a colour.
const GREATEST_CODE: usize = 107;

/// How many rows and columns the table of a script has. Contracts name it.
#[derive(Debug, Clone, Copy)]
pub struct Size {
    /// The rows.
    pub rows: usize,
    /// The columns.
    pub columns: usize,
}

impl Size {
    /// The size that a script's first statement sets after the word `size`, or `None` if it sets
    /// none.
    pub(crate) fn read(mut words: Words<'_>) -> Option<Size>
        ensures { result ≡ size_said (words_of words.entry.rest.now) }
    {
        let rows = words.number()?;
        let columns = words.number()?;
        if rows > MOST || columns > MOST {
            return None;
        }
        words.end()?;
        Some(Size { rows, columns })
    }

    // Whether a place lies in the table.
    fn holds(self, place: Position) -> bool
        ensures { result ≡ is_inside self place }
    {
        place.row < self.rows && place.col < self.columns
    }
}

/// What a line after the first statement says.
#[derive(Drop)]
pub(crate) enum Statement<A: Allocator> {
    /// The widths of all columns.
    Widths(Vec<usize, A>),
    /// The heights of all rows.
    Heights(Vec<usize, A>),
    /// The text of a cell.
    Cell(Position, String<A>),
    /// The borders of the table.
    Borders(Borders<char>),
    /// How texts are aligned horizontally.
    HorizontalAlignment(Entity, AlignmentHorizontal),
    /// How texts are aligned vertically.
    VerticalAlignment(Entity, AlignmentVertical),
    /// The padding of cells.
    Padding(Entity, Sides<Indent>),
    /// The horizontal and the vertical trim.
    Trim(Entity, bool, bool),
    /// Whether the lines of a text are aligned one by one.
    Lines(Entity, bool),
    /// The margin of the table.
    Margin(Sides<Indent>),
    /// The colour of a cell.
    Color(Position, ANSIBuf<A>),
    /// How many rows and columns a cell spans, in the table or outside it.
    Span(Position, usize, usize),
}

impl<A: Allocator + Copy> Statement<A> {
    /// The statement of a line, from its first word and what follows it, for a table of this size;
    /// `None` if the line is bad.
    pub(crate) fn read(
        alloc: A,
        keyword: &str,
        words: Words<'_>,
        size: Size,
    ) -> Result<Option<Statement<A>>, AllocError>
        ensures fits { IfOk result (λ read. IfSome read (FitsSize size)) }
        ensures said { IfOk result (λ read. option_map change_of read ≡ line_said size keyword.now words.entry.rest.now) }
    {
        match keyword {
            "widths" => widths(alloc, words, size),
            "heights" => heights(alloc, words, size),
            "cell" => cell(alloc, words, size),
            "borders" => Ok(borders(words)),
            "halign" => Ok(horizontal_alignment(words)),
            "valign" => Ok(vertical_alignment(words)),
            "pad" => Ok(padding(words)),
            "trim" => Ok(trim(words)),
            "lines" => Ok(line_alignment(words)),
            "margin" => Ok(margin(words)),
            "color" => color(alloc, words, size),
            "span" => Ok(span(words)),
            _ => Ok(None),
        }
    }
}

// So many numbers, and nothing after them.
fn numbers<A: Allocator>(
    alloc: A,
    mut words: Words<'_>,
    count: usize,
) -> Result<Option<Vec<usize, A>>, AllocError>
    ensures counted { IfOk result (λ read. IfSome read (λ numbers. length numbers.items ≡ count)) }
    ensures read { IfOk result (λ read. option_map (λ numbers. numbers.items) read
        ≡ read_on (first_numbers count (words_of words.entry.rest.now)) (λ numbers rest. option_map (λ _. numbers) (end_of rest))) }
{
    let mut numbers = Vec::new(alloc);
    for _ in 0..count {
        let Some(number) = words.number() else {
            return Ok(None);
        };
        numbers.push(number)?;
    }
    match words.end() {
        Some(()) => Ok(Some(numbers)),
        None => Ok(None),
    }
}

fn widths<A: Allocator>(
    alloc: A,
    words: Words<'_>,
    size: Size,
) -> Result<Option<Statement<A>>, AllocError>
    ensures fits { IfOk result (λ read. IfSome read (FitsSize size)) }
    ensures said { IfOk result (λ read. option_map change_of read ≡ widths_said size (words_of words.entry.rest.now)) }
{
    match numbers(alloc, words, size.columns)? {
        Some(widths) => Ok(Some(Statement::Widths(widths))),
        None => Ok(None),
    }
}

fn heights<A: Allocator>(
    alloc: A,
    words: Words<'_>,
    size: Size,
) -> Result<Option<Statement<A>>, AllocError>
    ensures fits { IfOk result (λ read. IfSome read (FitsSize size)) }
    ensures said { IfOk result (λ read. option_map change_of read ≡ heights_said size (words_of words.entry.rest.now)) }
{
    match numbers(alloc, words, size.rows)? {
        Some(heights) => Ok(Some(Statement::Heights(heights))),
        None => Ok(None),
    }
}

// A place of the table and the text of its cell.
fn cell<A: Allocator>(
    alloc: A,
    mut words: Words<'_>,
    size: Size,
) -> Result<Option<Statement<A>>, AllocError>
    ensures fits { IfOk result (λ read. IfSome read (FitsSize size)) }
    ensures said { IfOk result (λ read. option_map change_of read ≡ cell_said size words.entry.rest.now) }
{
    let Some(place) = words.place() else {
        return Ok(None);
    };
    if !size.holds(place) {
        return Ok(None);
    }
    match text_of(alloc, words.text())? {
        Some(text) => Ok(Some(Statement::Cell(place, text))),
        None => Ok(None),
    }
}

fn borders<A: Allocator>(mut words: Words<'_>) -> Option<Statement<A>>
    ensures fits { (size : Size) → IfSome result (FitsSize size) }
    ensures said { option_map change_of result ≡ borders_said (words_of words.entry.rest.now) }
{
    let borders = words.next_word().and_then(borders_named)?;
    words.end()?;
    Some(Statement::Borders(borders))
}

fn horizontal_alignment<A: Allocator>(mut words: Words<'_>) -> Option<Statement<A>>
    ensures fits { (size : Size) → IfSome result (FitsSize size) }
    ensures said { option_map change_of result ≡ halign_said (words_of words.entry.rest.now) }
{
    let entity = words.entity()?;
    let alignment = words.next_word().and_then(horizontal_named)?;
    words.end()?;
    Some(Statement::HorizontalAlignment(entity, alignment))
}

fn vertical_alignment<A: Allocator>(mut words: Words<'_>) -> Option<Statement<A>>
    ensures fits { (size : Size) → IfSome result (FitsSize size) }
    ensures said { option_map change_of result ≡ valign_said (words_of words.entry.rest.now) }
{
    let entity = words.entity()?;
    let alignment = words.next_word().and_then(vertical_named)?;
    words.end()?;
    Some(Statement::VerticalAlignment(entity, alignment))
}

fn padding<A: Allocator>(mut words: Words<'_>) -> Option<Statement<A>>
    ensures fits { (size : Size) → IfSome result (FitsSize size) }
    ensures said { option_map change_of result ≡ pad_said (words_of words.entry.rest.now) }
{
    let entity = words.entity()?;
    let sizes = words.sizes()?;
    words.end()?;
    Some(Statement::Padding(entity, indents(sizes, ' ')))
}

fn trim<A: Allocator>(mut words: Words<'_>) -> Option<Statement<A>>
    ensures fits { (size : Size) → IfSome result (FitsSize size) }
    ensures said { option_map change_of result ≡ trim_said (words_of words.entry.rest.now) }
{
    let entity = words.entity()?;
    let (horizontal, vertical) = words.next_word().and_then(trims_named)?;
    words.end()?;
    Some(Statement::Trim(entity, horizontal, vertical))
}

fn line_alignment<A: Allocator>(mut words: Words<'_>) -> Option<Statement<A>>
    ensures fits { (size : Size) → IfSome result (FitsSize size) }
    ensures said { option_map change_of result ≡ lines_said (words_of words.entry.rest.now) }
{
    let entity = words.entity()?;
    let aligns = words.next_word().and_then(switch_named)?;
    words.end()?;
    Some(Statement::Lines(entity, aligns))
}

fn margin<A: Allocator>(mut words: Words<'_>) -> Option<Statement<A>>
    ensures fits { (size : Size) → IfSome result (FitsSize size) }
    ensures said { option_map change_of result ≡ margin_said (words_of words.entry.rest.now) }
{
    let sizes = words.sizes()?;
    let fill = words.next_word().and_then(char_of)?;
    words.end()?;
    Some(Statement::Margin(indents(sizes, fill)))
}

// A place of the table and the colour of its cell.
fn color<A: Allocator + Copy>(
    alloc: A,
    words: Words<'_>,
    size: Size,
) -> Result<Option<Statement<A>>, AllocError>
    ensures fits { IfOk result (λ read. IfSome read (FitsSize size)) }
    ensures said { IfOk result (λ read. option_map change_of read ≡ color_said size (words_of words.entry.rest.now)) }
{
    match color_code(words, size) {
        Some((place, code)) => Ok(Some(Statement::Color(place, terminal_color(alloc, code)?))),
        None => Ok(None),
    }
}

// A place of the table and the number of a colour, and nothing after them.
fn color_code(mut words: Words<'_>, size: Size) -> Option<(Position, usize)>
    ensures inside { IfSome result (λ read. (read.0.row < size.rows) × (read.0.col < size.columns) × (read.1 ≤ 107)) }
    ensures read { result ≡ color_code_said size (words_of words.entry.rest.now) }
{
    let place = words.place()?;
    let code = words.number()?;
    if !size.holds(place) || code > GREATEST_CODE {
        return None;
    }
    words.end()?;
    Some((place, code))
}

fn span<A: Allocator>(mut words: Words<'_>) -> Option<Statement<A>>
    ensures fits { (size : Size) → IfSome result (FitsSize size) }
    ensures said { option_map change_of result ≡ span_said (words_of words.entry.rest.now) }
{
    let place = words.place()?;
    let rows = words.number()?;
    let columns = words.number()?;
    words.end()?;
    Some(Statement::Span(place, rows, columns))
}

// The terminal's colour of this number.
fn terminal_color<A: Allocator + Copy>(alloc: A, code: usize) -> Result<ANSIBuf<A>, AllocError>
    ensures { IfOk result (λ color. color ≡ terminal_color code) }
{
    let prefix = format!(in alloc; "\u{1b}[{code}m")?;
    ANSIBuf::new(alloc, prefix.as_str(), "\u{1b}[0m")
}

fn indents(sizes: Sides<usize>, fill: char) -> Sides<Indent>
    ensures { result ≡ indents sizes fill }
{
    Sides::new(
        Indent::new(sizes.left, fill),
        Indent::new(sizes.right, fill),
        Indent::new(sizes.top, fill),
        Indent::new(sizes.bottom, fill),
    )
}

fn borders_named(word: &str) -> Option<Borders<char>>
    ensures { result ≡ borders_named word.now }
{
    match word {
        "ascii" => Some(Borders::ascii()),
        "none" => Some(Borders::empty()),
        _ => None,
    }
}

fn horizontal_named(word: &str) -> Option<AlignmentHorizontal>
    ensures { result ≡ horizontal_named word.now }
{
    match word {
        "left" => Some(AlignmentHorizontal::Left),
        "center" => Some(AlignmentHorizontal::Center),
        "right" => Some(AlignmentHorizontal::Right),
        _ => None,
    }
}

fn vertical_named(word: &str) -> Option<AlignmentVertical>
    ensures { result ≡ vertical_named word.now }
{
    match word {
        "top" => Some(AlignmentVertical::Top),
        "center" => Some(AlignmentVertical::Center),
        "bottom" => Some(AlignmentVertical::Bottom),
        _ => None,
    }
}

fn trims_named(word: &str) -> Option<(bool, bool)>
    ensures { result ≡ trims_named word.now }
{
    match word {
        "none" => Some((false, false)),
        "h" => Some((true, false)),
        "v" => Some((false, true)),
        "hv" => Some((true, true)),
        _ => None,
    }
}

fn switch_named(word: &str) -> Option<bool>
    ensures { result ≡ switch_named word.now }
{
    match word {
        "on" => Some(true),
        "off" => Some(false),
        _ => None,
    }
}
