//! A table as Markdown.

ghost use Rattle.std.specs.Prelude.{◌≡◌, ◌++◌, ◌<◌, length, string_bytes, IfOk, OnOk};
ghost use Rattle.pg_layout.specs.Records.{columns_of, text_at};
ghost use Rattle.pg_table.specs.Markup.{delimiter_of, delimiter_row, escape_of, escaped_text, markdown_cell, markdown_lines, markdown_row, markdown_table};
ghost use Rattle.pg_table.specs.OwnRows.{texts_of};

use crate::table::Table;
use pg_config::SpannedConfig;
use pg_layout::{AlignmentHorizontal, ExactRecords, PeekableRecords, Position};
use std::alloc::{AllocError, Allocator};
use std::convert::AsStr;

impl<T: AsStr + Drop, A: Allocator> Table<T, A> {
    /// The texts of the table as a table of Markdown: a line for each row, and below row 0, the
    /// header, the line that has the alignments of the columns, which are those of the cells of row
    /// 1. Each line ends with a line feed. Borders, paddings and colours aren't in it.
    ///
    /// A bar in a text is `\|`, a backslash `\\`, and a line feed `<br>`. A cell that another one
    /// covers is empty, since Markdown has no spans. The only error is out of memory.
    ///
    /// ```text
    /// table.with_column_alignment(1, AlignmentHorizontal::Right)?.to_markdown(alloc)?
    /// // | item | price |
    /// // | --- | ---: |
    /// // | tea | 12 |
    /// ```
    pub fn to_markdown<B: Allocator>(&self, alloc: B) -> Result<String<B>, AllocError>
        ensures { IfOk result (λ markdown. string_bytes markdown ≡ markdown_table self.now.config (texts_of T.text self.now) (columns_of self.now.rows)) }
    {
        let mut markdown = String::new(alloc);
        push_table(&self.records, &self.config, &mut markdown)?;
        Ok(markdown)
    }
}

// Appends the whole table.
#[tactic(auto, using(crate::proofs::Html::one_more))]
fn push_table<R: PeekableRecords + ExactRecords, A: Allocator, B: Allocator>(
    records: &R,
    config: &SpannedConfig<A>,
    markdown: &mut String<B>,
) -> Result<(), AllocError>
    ensures { OnOk result (string_bytes markdown.new ≡ string_bytes markdown.old ++ markdown_table config.now (R.texts records.now) (R.columns records.now)) }
{
    for row in 0..records.count_rows() {
        push_row(records, config, row, markdown)?;
    }
    Ok(())
}

// Appends a row, and behind row 0 the row of alignments.
fn push_row<R: PeekableRecords + ExactRecords, A: Allocator, B: Allocator>(
    records: &R,
    config: &SpannedConfig<A>,
    row: usize,
    markdown: &mut String<B>,
) -> Result<(), AllocError>
    requires { row < length (R.texts records.now) }
    ensures { OnOk result (string_bytes markdown.new ≡ string_bytes markdown.old ++ markdown_lines config.now (text_at (R.texts records.now)) (R.columns records.now) row) }
{
    push_cells(records, config, row, markdown)?;
    if row == 0 {
        push_delimiters(config, records.count_columns(), markdown)?;
    }
    Ok(())
}

#[tactic(auto, unfolding(crate::specs::Markup::markdown_row))]
fn push_cells<R: PeekableRecords + ExactRecords, A: Allocator, B: Allocator>(
    records: &R,
    config: &SpannedConfig<A>,
    row: usize,
    markdown: &mut String<B>,
) -> Result<(), AllocError>
    requires { row < length (R.texts records.now) }
    ensures { OnOk result (string_bytes markdown.new ≡ string_bytes markdown.old ++ markdown_row config.now (text_at (R.texts records.now)) (R.columns records.now) row) }
{
    markdown.push_str("|")?;
    for column in 0..records.count_columns() {
        push_cell(records, config, Position::new(row, column), markdown)?;
    }
    markdown.push_str("\n")
}

// Appends a cell, which is empty if another one covers it.
#[tactic(auto, unfolding(crate::specs::Markup::markdown_cell))]
fn push_cell<R: PeekableRecords + ExactRecords, A: Allocator, B: Allocator>(
    records: &R,
    config: &SpannedConfig<A>,
    pos: Position,
    markdown: &mut String<B>,
) -> Result<(), AllocError>
    requires row { pos.row < length (R.texts records.now) }
    requires column { pos.col < R.columns records.now }
    ensures { OnOk result (string_bytes markdown.new ≡ string_bytes markdown.old ++ markdown_cell config.now (text_at (R.texts records.now)) pos) }
{
    if !config.is_cell_visible(pos) {
        return markdown.push_str("  |");
    }
    markdown.push_str(" ")?;
    push_text(records.get_text(pos), markdown)?;
    markdown.push_str(" |")
}

// Appends the row of the alignments of so many columns.
#[tactic(auto, unfolding(crate::specs::Markup::delimiter_row))]
fn push_delimiters<A: Allocator, B: Allocator>(
    config: &SpannedConfig<A>,
    columns: usize,
    markdown: &mut String<B>,
) -> Result<(), AllocError>
    ensures { OnOk result (string_bytes markdown.new ≡ string_bytes markdown.old ++ delimiter_row config.now columns) }
{
    markdown.push_str("|")?;
    for column in 0..columns {
        let alignment = config.get_alignment_horizontal(Position::new(1, column));
        markdown.push_str(delimiter_of(alignment))?;
    }
    markdown.push_str("\n")
}

// What a column that is aligned like this has below its header.
fn delimiter_of(alignment: AlignmentHorizontal) -> &'static str
    ensures { result.now ≡ delimiter_of alignment }
{
    match alignment {
        AlignmentHorizontal::Left => " --- |",
        AlignmentHorizontal::Center => " :---: |",
        AlignmentHorizontal::Right => " ---: |",
    }
}

// Appends a text that is read as one cell.
fn push_text<B: Allocator>(text: &str, markdown: &mut String<B>) -> Result<(), AllocError>
    ensures { OnOk result (string_bytes markdown.new ≡ string_bytes markdown.old ++ escaped_text text.now) }
{
    for c in text.chars() {
        push_character(c, markdown)?;
    }
    Ok(())
}

fn push_character<B: Allocator>(c: char, markdown: &mut String<B>) -> Result<(), AllocError>
    ensures { OnOk result (string_bytes markdown.new ≡ string_bytes markdown.old ++ escape_of c) }
{
    match c {
        '|' => markdown.push_str("\\|"),
        '\\' => markdown.push_str("\\\\"),
        '\n' => markdown.push_str("<br>"),
        _ => markdown.push(c),
    }
}
