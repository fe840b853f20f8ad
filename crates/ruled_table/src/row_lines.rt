//! The lines of a table's rows, one row after another.

ghost use Rattle.std.specs.Cow.{cow_str_bytes};
ghost use Rattle.std.specs.Prelude.{◌≡◌, ◌++◌, ◌∷◌, [], ℕ, List, map, string_bytes, false, true, Err, IfOk, OnErr, OnOk};
ghost use Rattle.pg_layout.specs.Text.{Text};
ghost use Rattle.pg_fit.specs.Rows.{row_height};
ghost use Rattle.pg_stream.specs.Conditions.{RowFits};
ghost use Rattle.pg_stream.specs.LiveStreams.{MayEnd};
ghost use Rattle.pg_stream.specs.Printing.{after_row, finish_text, row_text};
ghost use Rattle.pg_stream.specs.SizedStreams.{CountsLines, IsNextHeight};
ghost use Rattle.ruled_table.specs.RowLines.{AreEven, HasDrawn, held_text, GrowsTo, HasNoRoomBelow, TellsRoom, begun_of, but_feed, ended, ended_by, note_below, state_of};
ghost use Rattle.ruled_table.specs.Tables.{Tells};
ghost use Rattle.ruled_table.specs.Layouts.{start_fault, whole_of, Plan, plan_in, with_colors};
ghost use Rattle.ruled_table.specs.Shown.{color_in};
ghost use Rattle.ruled_table.specs.declared.view.ViewFault.{ViewFault};
ghost use Rattle.ruled_table.specs.declared.view.ViewFault.TheVariants.{Memory};

use crate::colors::TextColors;
use crate::layout::Layout;
use crate::view::ViewFault;
use arrayvec::ArrayString;
use pg_fit::{Fitted, row_height};
use pg_layout::ConstantDimension;
use pg_stream::SizedStream;
use std::alloc::{AllocError, Global};
use std::borrow::CowStr;
use std::convert::AsStr;

/// A text of a row of several lines: a short one lies in its cell, and takes no memory of its own.
type HeldText = Fitted<ArrayString<SHORT>>;

/// The printer of rows whose widths are known.
pub(crate) type Sheet<'a> = SizedStream<'a, HeldText, ConstantDimension, TextColors<'a>>;

/// The rows of a table, whose lines are appended to a buffer, one row after another, and then its end.
///
/// A call that fails appends nothing. What a further call then appends isn't defined.
#[derive(Drop)]
pub(crate) struct RowLines<'a> {
    alloc: Global,
    sheet: Sheet<'a>,
    /// The line below the table, or nothing.
    note: &'a str,
    /// The lines of the latest row.
    lines: String,
    /// Whether there was a row.
    is_begun: bool,
}

// How many bytes a short text has at most.
const SHORT: usize = 24;

// A cell as a text of its own.
fn held(alloc: Global, cell: CowStr<'_>) -> Result<HeldText, AllocError>
    ensures { IfOk result (λ text. held_text text ≡ cow_str_bytes cell.entry) }
{
    match cell {
        CowStr::Borrowed(text) if text.len() <= SHORT => {
            let mut short = ArrayString::new();
            short.push_str(text);
            Ok(Fitted::Kept(short))
        }
        cell => Ok(Fitted::Made(cell.into_owned(alloc)?)),
    }
}

// Cells as texts of their own: a printer that holds cells takes them of one type as long as it
// lives, and no row lives as long.
fn owned(alloc: Global, cells: Vec<CowStr<'_>>) -> Result<Vec<HeldText>, AllocError>
    ensures { IfOk result (λ texts. map held_text texts.items ≡ map cow_str_bytes cells.entry.items) }
{
    let mut texts = Vec::with_capacity(alloc, cells.len())?;
    for cell in cells {
        let text = held(alloc, cell)?;
        texts.push(text)?;
    }
    Ok(texts)
}

// Appends a row of one line, whose cells are lent.
fn print_lent<X: AsStr>(
    sheet: &mut Sheet<'_>,
    cells: &[X],
    lines: &mut String,
) -> Result<(), ViewFault>
    ensures lines { (heights : ℕ → ℕ) → IsNextHeight (state_of heights sheet.old).printed 1
        → OnOk result (string_bytes lines.new ≡ string_bytes lines.old ++ row_text (state_of heights sheet.old).printed (map X.text cells.now) false) }
    ensures after { (heights : ℕ → ℕ) → IsNextHeight (state_of heights sheet.old).printed 1
        → OnOk result (state_of heights sheet.new ≡ record { printed = after_row (state_of heights sheet.old).printed (map X.text cells.now) false; is_lost = false }) }
    ensures room { (heights : ℕ → ℕ) → IsNextHeight (state_of heights sheet.old).printed 1 → (state_of heights sheet.old).is_lost ≡ false
        → (state_of heights sheet.old).printed.table.config.spans ≡ []
        → TellsRoom (¬ (RowFits (state_of heights sheet.old).printed (map X.text cells.now) false)) result }
{
    sheet.push_lent(cells, lines)?;
    Ok(())
}

// Appends a row of so many lines.
fn print_owned(
    sheet: &mut Sheet<'_>,
    height: usize,
    cells: Vec<HeldText>,
    lines: &mut String,
) -> Result<(), ViewFault>
    ensures lines { (heights : ℕ → ℕ) → IsNextHeight (state_of heights sheet.old).printed height
        → OnOk result (string_bytes lines.new ≡ string_bytes lines.old ++ row_text (state_of heights sheet.old).printed (map held_text cells.items) false) }
    ensures after { (heights : ℕ → ℕ) → IsNextHeight (state_of heights sheet.old).printed height
        → OnOk result (state_of heights sheet.new ≡ record { printed = after_row (state_of heights sheet.old).printed (map held_text cells.items) false; is_lost = false }) }
    ensures room { (heights : ℕ → ℕ) → IsNextHeight (state_of heights sheet.old).printed height → (state_of heights sheet.old).is_lost ≡ false
        → TellsRoom (¬ (RowFits (state_of heights sheet.old).printed (map held_text cells.items) false)) result }
{
    sheet.push(height, cells, lines)?;
    Ok(())
}

// Prints a row into a buffer of its own.
fn print_row(
    alloc: Global,
    sheet: &mut Sheet<'_>,
    cells: Vec<CowStr<'_>>,
    lines: &mut String,
) -> Result<(), ViewFault>
    ensures lines { (heights : ℕ → ℕ) → IsNextHeight (state_of heights sheet.old).printed (row_height (map cow_str_bytes cells.entry.items))
        → OnOk result (string_bytes lines.new ≡ row_text (state_of heights sheet.old).printed (map cow_str_bytes cells.entry.items) false) }
    ensures after { (heights : ℕ → ℕ) → IsNextHeight (state_of heights sheet.old).printed (row_height (map cow_str_bytes cells.entry.items))
        → OnOk result (state_of heights sheet.new ≡ record { printed = after_row (state_of heights sheet.old).printed (map cow_str_bytes cells.entry.items) false; is_lost = false }) }
    ensures room { (heights : ℕ → ℕ) → IsNextHeight (state_of heights sheet.old).printed (row_height (map cow_str_bytes cells.entry.items))
        → (state_of heights sheet.old).is_lost ≡ false → (state_of heights sheet.old).printed.table.config.spans ≡ []
        → TellsRoom (¬ (RowFits (state_of heights sheet.old).printed (map cow_str_bytes cells.entry.items) false)) result }
{
    lines.clear();
    let height = row_height(&cells);
    if height == 1 {
        return print_lent(sheet, &cells, lines);
    }
    let texts = owned(alloc, cells)?;
    print_owned(sheet, height, texts, lines)
}

// Prints the end into a buffer of its own.
fn print_end(sheet: Sheet<'_>, lines: &mut String) -> Result<(), ViewFault>
    ensures lines { (heights : ℕ → ℕ) → CountsLines (state_of heights sheet.entry).printed → (state_of heights sheet.entry).is_lost ≡ false
        → MayEnd (state_of heights sheet.entry).printed → OnOk result (string_bytes lines.new ≡ finish_text (state_of heights sheet.entry).printed) }
    ensures fault { (heights : ℕ → ℕ) → CountsLines (state_of heights sheet.entry).printed → (state_of heights sheet.entry).is_lost ≡ false
        → MayEnd (state_of heights sheet.entry).printed → (fault : ViewFault) → result ≡ Err fault → fault ≡ Memory }
{
    lines.clear();
    sheet.finish(lines)?;
    Ok(())
}

// Lines without the line feed before them, if there is one.
fn but_feed(is_begun: bool, lines: &str) -> &str
    ensures { result.now ≡ but_feed is_begun lines.now }
{
    if !is_begun {
        return lines;
    }
    match lines.strip_prefix('\n') {
        Some(lines) => lines,
        None => lines,
    }
}

// Appends lines with a line feed after them, in place of the one before them, except for the first
// ones.
#[inline(always)]
fn append_lines(is_begun: bool, lines: &mut String, buf: &mut String) -> Result<(), AllocError>
    ensures appended { OnOk result (string_bytes buf.new ≡ string_bytes buf.old ++ ended_by is_begun (string_bytes lines.old)) }
    ensures failed { OnErr result (string_bytes buf.new ≡ string_bytes buf.old) }
{
    if is_begun && lines.is_empty() {
        return Ok(());
    }
    lines.push('\n')?;
    buf.push_str(but_feed(is_begun, lines.as_str()))
}

// The line below a table: without rows nothing.
fn note_below(is_begun: bool, note: &str) -> &str
    ensures { result.now ≡ note_below is_begun note.now }
{
    if is_begun { note } else { "" }
}

// Appends the last lines of a table, without the line feed before them, and a text below them.
fn append_end(lines: &mut String, below: &str, buf: &mut String) -> Result<(), AllocError>
    ensures appended { OnOk result (string_bytes buf.new ≡ string_bytes buf.old ++ (ended (string_bytes lines.old) ++ below.now)) }
    ensures failed { OnErr result (string_bytes buf.new ≡ string_bytes buf.old) }
{
    if lines.is_empty() {
        return buf.push_str(below);
    }
    lines.push('\n')?;
    lines.push_str(below)?;
    buf.push_str(but_feed(true, lines.as_str()))
}

impl<'a> RowLines<'a> {
    /// A table of this layout and these colours before its first row.
    pub(crate) fn new(
        alloc: Global,
        layout: &'a Layout,
        colors: &'a TextColors<'a>,
    ) -> Result<RowLines<'a>, ViewFault>
        ensures begun { IfOk result (λ rows. HasDrawn (with_colors (color_in colors.now) (plan_in layout.now)) [] rows) }
        ensures fault { Tells (start_fault (plan_in layout.now)) result }
    {
        let Layout {
            places,
            config,
            widths,
            note,
            ..
        } = layout;
        let sheet = SizedStream::new(alloc, config, widths, colors, places.len())?;
        Ok(RowLines {
            alloc,
            sheet,
            note: note.as_str(),
            lines: String::new(alloc),
            is_begun: false,
        })
    }

    /// Appends the lines of a row of these cells, each with a line feed after it.
    pub(crate) fn push(&mut self, cells: Vec<CowStr<'_>>, buf: &mut String) -> Result<(), ViewFault>
        ensures lines { (plan : Plan) (above : List (List Text)) → HasDrawn plan above self.old
            → OnOk result (GrowsTo (begun_of plan above) (begun_of plan (above ++ map cow_str_bytes cells.entry.items ∷ [])) (string_bytes buf.old) (string_bytes buf.new)) }
        ensures after { (plan : Plan) (above : List (List Text)) → HasDrawn plan above self.old → OnOk result (HasDrawn plan (above ++ map cow_str_bytes cells.entry.items ∷ []) self.new) }
        ensures room { (plan : Plan) (above : List (List Text)) → HasDrawn plan above self.old → TellsRoom (HasNoRoomBelow plan above (map cow_str_bytes cells.entry.items)) result }
        ensures failed { OnErr result (string_bytes buf.new ≡ string_bytes buf.old) }
    {
        print_row(self.alloc, &mut self.sheet, cells, &mut self.lines)?;
        append_lines(self.is_begun, &mut self.lines, buf)?;
        self.is_begun = true;
        Ok(())
    }

    /// Appends the line of a row of these cells, each of one line, with a line feed after it.
    pub(crate) fn push_lent<X: AsStr>(
        &mut self,
        cells: &[X],
        buf: &mut String,
    ) -> Result<(), ViewFault>
        requires single { row_height (map X.text cells.now) ≡ 1 }
        ensures lines { (plan : Plan) (above : List (List Text)) → HasDrawn plan above self.old
            → OnOk result (GrowsTo (begun_of plan above) (begun_of plan (above ++ map X.text cells.now ∷ [])) (string_bytes buf.old) (string_bytes buf.new)) }
        ensures after { (plan : Plan) (above : List (List Text)) → HasDrawn plan above self.old → OnOk result (HasDrawn plan (above ++ map X.text cells.now ∷ []) self.new) }
        ensures room { (plan : Plan) (above : List (List Text)) → HasDrawn plan above self.old → TellsRoom (HasNoRoomBelow plan above (map X.text cells.now)) result }
        ensures failed { OnErr result (string_bytes buf.new ≡ string_bytes buf.old) }
    {
        self.lines.clear();
        print_lent(&mut self.sheet, cells, &mut self.lines)?;
        append_lines(self.is_begun, &mut self.lines, buf)?;
        self.is_begun = true;
        Ok(())
    }

    /// Appends the end of the table, and the line below it; without rows nothing.
    pub(crate) fn finish(self, buf: &mut String) -> Result<(), ViewFault>
        ensures end { (plan : Plan) (cells : List (List Text)) → HasDrawn plan cells self.entry → AreEven plan cells
            → OnOk result (GrowsTo (begun_of plan cells) (whole_of plan cells) (string_bytes buf.old) (string_bytes buf.new)) }
        ensures fault { (plan : Plan) (cells : List (List Text)) → HasDrawn plan cells self.entry → (fault : ViewFault) → result ≡ Err fault → fault ≡ Memory }
        ensures failed { OnErr result (string_bytes buf.new ≡ string_bytes buf.old) }
    {
        let RowLines {
            sheet,
            note,
            mut lines,
            is_begun,
            ..
        } = self;
        print_end(sheet, &mut lines)?;
        Ok(append_end(&mut lines, note_below(is_begun, note), buf)?)
    }
}
