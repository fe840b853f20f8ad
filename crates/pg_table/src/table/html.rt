//! A table as HTML.

ghost use Rattle.std.specs.Prelude.{◌≡◌, ◌++◌, ◌<◌, length, string_bytes, IfOk, OnOk};
ghost use Rattle.pg_layout.specs.Records.{columns_of, text_at};
ghost use Rattle.pg_table.specs.Markup.{class_of, html_cell, html_row, html_table, html_text, reference_of, span_attribute};
ghost use Rattle.pg_table.specs.OwnRows.{texts_of};

use crate::table::Table;
use pg_config::SpannedConfig;
use pg_layout::{AlignmentHorizontal, ExactRecords, PeekableRecords, Position};
use std::alloc::{AllocError, Allocator};
use std::convert::AsStr;

impl<T: AsStr + Drop, A: Allocator> Table<T, A> {
    /// The texts of the table as an HTML element `table`: a line `<tr>..</tr>` for each row, and a
    /// `<td>` for each cell that isn't covered, with its `rowspan` and `colspan`, and the class
    /// `center` or `right` by its alignment. Borders, paddings and colours aren't in it.
    ///
    /// No text can begin a tag: `&`, `<`, `>` and `"` are `&amp;`, `&lt;`, `&gt;` and `&quot;`
    /// ([`crate::texts_open_no_tag`]). A line feed stays one, which the style `white-space: pre-line`
    /// shows. Any spans are written; the only error is out of memory.
    pub fn to_html<B: Allocator>(&self, alloc: B) -> Result<String<B>, AllocError>
        ensures { IfOk result (λ html. string_bytes html ≡ html_table self.now.config (texts_of T.text self.now) (columns_of self.now.rows)) }
    {
        let mut html = String::new(alloc);
        push_table(&self.records, &self.config, &mut html)?;
        Ok(html)
    }
}

// Appends the whole table.

#[tactic(auto, using(crate::proofs::Html::one_more))]
fn push_table<R: PeekableRecords + ExactRecords, A: Allocator, B: Allocator>(
    records: &R,
    config: &SpannedConfig<A>,
    html: &mut String<B>,
) -> Result<(), AllocError>
    ensures { OnOk result (string_bytes html.new ≡ string_bytes html.old ++ html_table config.now (R.texts records.now) (R.columns records.now)) }
{
    html.push_str("<table>\n")?;
    for row in 0..records.count_rows() {
        push_row(records, config, row, html)?;
    }
    html.push_str("</table>")
}

#[tactic(auto, unfolding(crate::specs::Markup::html_row))]
fn push_row<R: PeekableRecords + ExactRecords, A: Allocator, B: Allocator>(
    records: &R,
    config: &SpannedConfig<A>,
    row: usize,
    html: &mut String<B>,
) -> Result<(), AllocError>
    requires { row < length (R.texts records.now) }
    ensures { OnOk result (string_bytes html.new ≡ string_bytes html.old ++ html_row config.now (text_at (R.texts records.now)) (R.columns records.now) row) }
{
    html.push_str("<tr>")?;
    for column in 0..records.count_columns() {
        push_cell(records, config, Position::new(row, column), html)?;
    }
    html.push_str("</tr>\n")
}

// Appends a cell, unless another one covers it.
#[tactic(auto, unfolding(crate::specs::Markup::html_cell))]
fn push_cell<R: PeekableRecords + ExactRecords, A: Allocator, B: Allocator>(
    records: &R,
    config: &SpannedConfig<A>,
    pos: Position,
    html: &mut String<B>,
) -> Result<(), AllocError>
    requires row { pos.row < length (R.texts records.now) }
    requires column { pos.col < R.columns records.now }
    ensures { OnOk result (string_bytes html.new ≡ string_bytes html.old ++ html_cell config.now (text_at (R.texts records.now)) pos) }
{
    if !config.is_cell_visible(pos) {
        return Ok(());
    }
    let (rows, columns) = config.rect_size(pos);
    html.push_str("<td")?;
    html.push_str(class_of(config.get_alignment_horizontal(pos)))?;
    push_span(" rowspan=\"", rows, html)?;
    push_span(" colspan=\"", columns, html)?;
    html.push_str(">")?;
    push_text(records.get_text(pos), html)?;
    html.push_str("</td>")
}

// The class of a cell whose texts are aligned like this.
fn class_of(alignment: AlignmentHorizontal) -> &'static str
    ensures { result.now ≡ class_of alignment }
{
    match alignment {
        AlignmentHorizontal::Left => "",
        AlignmentHorizontal::Center => " class=\"center\"",
        AlignmentHorizontal::Right => " class=\"right\"",
    }
}

// Appends an attribute with a number of rows or columns, unless it is 1.
fn push_span<B: Allocator>(name: &str, count: usize, html: &mut String<B>) -> Result<(), AllocError>
    ensures { OnOk result (string_bytes html.new ≡ string_bytes html.old ++ span_attribute name.now count) }
{
    if count == 1 {
        return Ok(());
    }
    match write!(html, "{name}{count}\"") {
        Ok(()) => Ok(()),
        Err(_) => Err(AllocError),
    }
}

// Appends a text in which nothing is markup.
fn push_text<B: Allocator>(text: &str, html: &mut String<B>) -> Result<(), AllocError>
    ensures { OnOk result (string_bytes html.new ≡ string_bytes html.old ++ html_text text.now) }
{
    for c in text.chars() {
        push_character(c, html)?;
    }
    Ok(())
}

fn push_character<B: Allocator>(c: char, html: &mut String<B>) -> Result<(), AllocError>
    ensures { OnOk result (string_bytes html.new ≡ string_bytes html.old ++ reference_of c) }
{
    match c {
        '&' => html.push_str("&amp;"),
        '<' => html.push_str("&lt;"),
        '>' => html.push_str("&gt;"),
        '"' => html.push_str("&quot;"),
        _ => html.push(c),
    }
}
