//! The rows of a table, each of which may come after others are drawn.

ghost use Rattle.std.specs.Cow.{cow_str_bytes};
ghost use Rattle.std.specs.Prelude.{◌≡◌, ◌<◌, ◌≤◌, ◌++◌, ◌∷◌, [], List, length, map, take, string_bytes, false, true, Err, IfOk, IfSome, OnErr, OnOk};
ghost use Rattle.std.specs.List.{list_all};
ghost use Rattle.csv.specs.Records.{fields_of};
ghost use Rattle.pg_layout.specs.Text.{Text, is_plain_byte, lines_of};
ghost use Rattle.pg_fit.specs.Rows.{row_height};
ghost use Rattle.ruled_table.specs.RowLines.{HasAppended, IsOver, GrowsTo, HasNoRoom, TellsRoom, begun_text};
ghost use Rattle.ruled_table.specs.Columns.{drawn_at};
ghost use Rattle.ruled_table.specs.Tables.{Tells};
ghost use Rattle.ruled_table.specs.Layouts.{start_fault, whole_text, Plan, plan_in, with_colors};
ghost use Rattle.ruled_table.specs.Sides.{pointed_row};
ghost use Rattle.ruled_table.specs.Shown.{color_in, shown_row, shown_text};
ghost use Rattle.ruled_table.specs.Widths as spec;
ghost use Rattle.ruled_table.specs.declared.view.ViewFault.{ViewFault};
ghost use Rattle.ruled_table.specs.declared.view.ViewFault.TheVariants.{Memory};
ghost use Rattle.ruled_table.specs.declared.options.Options.{Options};

use crate::colors::TextColors;
use crate::columns::{drawn_at, field_at};
use crate::layout::Layout;
use crate::options::Options;
use crate::points::pointed_record;
use crate::row_lines::RowLines;
use crate::rows::{is_plain_record, shown_text, stands};
use crate::view::ViewFault;
use crate::widths::{lent_within, room_of};
use pg_fit::letters_width;
use pg_layout::{ConstantDimension, get_text_width};
use ruled_row::TextRow;
use std::alloc::{AllocError, Global};
use std::borrow::CowStr;

/// The rows of a table of this layout, whose lines are appended to a buffer, one row after another, and then its end.
///
/// A call that fails appends nothing, and after it each further one fails as out of memory.
#[derive(Drop)]
pub struct TableRows<'a> {
    alloc: Global,
    options: &'a Options,
    layout: &'a Layout,
    rows: RowLines<'a>,
    /// Whether a call has failed.
    is_over: bool,
}

// The text that is shown of a record in a column, unless it is for Markdown: if it is a line, shown unchanged, and has
// room there. Of a plain record only the room is tested, and of any other one whether the text has letters alone.
fn lent_cell<'a>(
    options: &Options,
    is_plain: bool,
    room: usize,
    fields: &'a TextRow,
    place: Option<usize>,
) -> Option<&'a str>
    requires others { options.now.is_markdown ≡ false }
    requires unchanged { is_plain ≡ true → map (shown_text options.now) (fields_of fields.now) ≡ fields_of fields.now }
    requires plain { is_plain ≡ true → list_all (list_all is_plain_byte) (fields_of fields.now) ≡ true }
    ensures cell { IfSome result (λ cell. cell.now ≡ spec.text_within options.now.bounds.overflow room (shown_text options.now (drawn_at (fields_of fields.now) place))) }
    ensures single { IfSome result (λ cell. length (lines_of cell.now) ≡ 1) }
{
    let text = field_at(fields, place?);
    if is_plain {
        return if text.len() <= room { Some(text) } else { None };
    }
    let width = letters_width(text)?;
    if width <= room { Some(text) } else { None }
}

// The text that is shown of a record in a column, within so many columns: as it is, in another form, wrapped or cut. Out
// of line, since most texts are shown as they are and have room.
#[inline(never)]
fn made_cell<'a>(
    alloc: Global,
    options: &Options,
    is_plain: bool,
    room: usize,
    fields: &'a TextRow,
    place: Option<usize>,
) -> Result<CowStr<'a>, AllocError>
    requires { is_plain ≡ true → map (shown_text options.now) (fields_of fields.now) ≡ fields_of fields.now }
    ensures { IfOk result (λ cell. cow_str_bytes cell ≡ spec.text_within options.now.bounds.overflow room (shown_text options.now (drawn_at (fields_of fields.now) place))) }
{
    let field = drawn_at(fields, place);
    if is_plain && place.is_some() {
        return lent_within(
            alloc,
            options.bounds.overflow,
            room,
            CowStr::Borrowed(field),
        );
    }
    if get_text_width(field) <= room && stands(options, field) {
        return Ok(CowStr::Borrowed(field));
    }
    let text = shown_text(alloc, options, field)?;
    lent_within(alloc, options.bounds.overflow, room, text)
}

// The text that is shown of a record in a column, within so many columns. Most are shown as they are, so that is tested
// first.
fn cell_shown<'a>(
    alloc: Global,
    options: &Options,
    is_plain: bool,
    room: usize,
    fields: &'a TextRow,
    place: Option<usize>,
) -> Result<CowStr<'a>, AllocError>
    requires unchanged { is_plain ≡ true → map (shown_text options.now) (fields_of fields.now) ≡ fields_of fields.now }
    requires plain { is_plain ≡ true → list_all (list_all is_plain_byte) (fields_of fields.now) ≡ true }
    ensures { IfOk result (λ cell. cow_str_bytes cell ≡ spec.text_within options.now.bounds.overflow room (shown_text options.now (drawn_at (fields_of fields.now) place))) }
{
    if !options.is_markdown {
        if let Some(cell) = lent_cell(options, is_plain, room, fields, place) {
            return Ok(CowStr::Borrowed(cell));
        }
    }
    made_cell(alloc, options, is_plain, room, fields, place)
}

// Adds the text that is shown of a record in a column within its width, the next one.
fn push_shown<'a>(
    alloc: Global,
    options: &Options,
    is_plain: bool,
    widths: &ConstantDimension,
    fields: &'a TextRow,
    place: Option<usize>,
    cells: &mut Vec<CowStr<'a>>,
) -> Result<(), AllocError>
    requires unchanged { is_plain ≡ true → map (shown_text options.now) (fields_of fields.now) ≡ fields_of fields.now }
    requires plain { is_plain ≡ true → list_all (list_all is_plain_byte) (fields_of fields.now) ≡ true }
    ensures { OnOk result (map cow_str_bytes cells.new.items ≡ map cow_str_bytes cells.old.items
        ++ spec.text_within options.now.bounds.overflow (spec.room_of (spec.widths_in widths.now) (length cells.old.items)) (shown_text options.now (drawn_at (fields_of fields.now) place)) ∷ []) }
{
    let room = room_of(widths, cells.len());
    let cell = cell_shown(alloc, options, is_plain, room, fields, place)?;
    Ok(cells.push(cell)?)
}

// The texts that are shown of a row, within their columns: lent where they are unchanged.
fn cells_shown<'a>(
    alloc: Global,
    options: &Options,
    is_plain: bool,
    places: &[Option<usize>],
    widths: &ConstantDimension,
    fields: &'a TextRow,
) -> Result<Vec<CowStr<'a>>, AllocError>
    requires unchanged { is_plain ≡ true → map (shown_text options.now) (fields_of fields.now) ≡ fields_of fields.now }
    requires plain { is_plain ≡ true → list_all (list_all is_plain_byte) (fields_of fields.now) ≡ true }
    ensures { IfOk result (λ cells. map cow_str_bytes cells.items ≡ spec.row_within options.now.bounds.overflow (spec.widths_in widths.now) (shown_row options.now places.now (fields_of fields.now))) }
{
    let mut cells = Vec::with_capacity(alloc, places.len())?;
    for place in places {
        push_shown(alloc, options, is_plain, widths, fields, *place, &mut cells)?;
    }
    Ok(cells)
}

// The most columns of a table of which rows that are shown unchanged take no memory.
const FEW: usize = 16;

// Writes the texts that are shown of a row to the first of these cells, and says whether each is a line that is shown
// unchanged and has room. Plain rows have a shorter loop of their own.
fn fill_cells<'a, const IS_PLAIN: bool>(
    options: &Options,
    places: &[Option<usize>],
    widths: &ConstantDimension,
    fields: &'a TextRow,
    cells: &mut [&'a str],
) -> bool
    requires unchanged { IS_PLAIN ≡ true → map (shown_text options.now) (fields_of fields.now) ≡ fields_of fields.now }
    requires plain { IS_PLAIN ≡ true → list_all (list_all is_plain_byte) (fields_of fields.now) ≡ true }
    ensures few { result ≡ true → length places.now ≤ length cells.new }
    ensures cells { result ≡ true → map (λ cell. cell.now) (take (length places.now) cells.new)
        ≡ spec.row_within options.now.bounds.overflow (spec.widths_in widths.now) (shown_row options.now places.now (fields_of fields.now)) }
    ensures single { result ≡ true → row_height (map (λ cell. cell.now) (take (length places.now) cells.new)) ≡ 1 }
{
    if options.is_markdown || places.is_empty() || places.len() > cells.len() {
        return false;
    }
    for (column, place) in places.iter().enumerate() {
        match lent_cell(options, IS_PLAIN, room_of(widths, column), fields, *place) {
            Some(cell) => cells[column] = cell,
            None => return false,
        }
    }
    true
}

// The same for plain rows and others.
fn fill_lent<'a>(
    options: &Options,
    is_plain: bool,
    places: &[Option<usize>],
    widths: &ConstantDimension,
    fields: &'a TextRow,
    cells: &mut [&'a str],
) -> bool
    requires unchanged { is_plain ≡ true → map (shown_text options.now) (fields_of fields.now) ≡ fields_of fields.now }
    requires plain { is_plain ≡ true → list_all (list_all is_plain_byte) (fields_of fields.now) ≡ true }
    ensures few { result ≡ true → length places.now ≤ length cells.new }
    ensures cells { result ≡ true → map (λ cell. cell.now) (take (length places.now) cells.new)
        ≡ spec.row_within options.now.bounds.overflow (spec.widths_in widths.now) (shown_row options.now places.now (fields_of fields.now)) }
    ensures single { result ≡ true → row_height (map (λ cell. cell.now) (take (length places.now) cells.new)) ≡ 1 }
{
    if is_plain {
        fill_cells::<true>(options, places, widths, fields, cells)
    } else {
        fill_cells::<false>(options, places, widths, fields, cells)
    }
}

impl<'a> TableRows<'a> {
    /// A table with these colours of its texts, before its first row.
    ///
    /// `ViewFault::Totals` says that the layout has no columns, or that their total width is too large.
    pub fn new(
        alloc: Global,
        options: &'a Options,
        layout: &'a Layout,
        colors: &'a TextColors<'a>,
    ) -> Result<TableRows<'a>, ViewFault>
        ensures begun { IfOk result (λ table. HasAppended options.now (with_colors (color_in colors.now) (plan_in layout.now)) [] table) }
        ensures fault { Tells (start_fault (plan_in layout.now)) result }
    {
        let rows = RowLines::new(alloc, layout, colors)?;
        Ok(TableRows {
            alloc,
            options,
            layout,
            rows,
            is_over: false,
        })
    }

    // Appends the lines of a row, of which these are the fields with spaces behind numbers.
    fn push_pointed(&mut self, fields: &TextRow, buf: &mut String) -> Result<(), ViewFault>
        ensures lines { (options : Options) (plan : Plan) (rows : List (List Text)) (row : List Text) → HasAppended options plan rows self.old → fields_of fields.now ≡ pointed_row plan.extents row
            → OnOk result (GrowsTo (begun_text options plan rows) (begun_text options plan (rows ++ row ∷ [])) (string_bytes buf.old) (string_bytes buf.new)) }
        ensures after { (options : Options) (plan : Plan) (rows : List (List Text)) (row : List Text) → HasAppended options plan rows self.old → fields_of fields.now ≡ pointed_row plan.extents row
            → OnOk result (HasAppended options plan (rows ++ row ∷ []) self.new) }
        ensures room { (options : Options) (plan : Plan) (rows : List (List Text)) (row : List Text) → HasAppended options plan rows self.old → fields_of fields.now ≡ pointed_row plan.extents row
            → TellsRoom (HasNoRoom options plan rows row) result }
        ensures failed { OnErr result (string_bytes buf.new ≡ string_bytes buf.old) }
        ensures over { self.new.is_over ≡ self.old.is_over }
    {
        let layout = self.layout;
        let (places, widths) = (&layout.places, &layout.widths);
        let is_plain = is_plain_record(self.options, fields);
        let mut lent = [""; FEW];
        if fill_lent(self.options, is_plain, places, widths, fields, &mut lent) {
            return self.rows.push_lent(&lent[..places.len()], buf);
        }
        let cells = cells_shown(self.alloc, self.options, is_plain, places, widths, fields)?;
        self.rows.push(cells, buf)
    }

    // Appends the lines of a row.
    fn push_row(&mut self, fields: &TextRow, buf: &mut String) -> Result<(), ViewFault>
        ensures lines { (options : Options) (plan : Plan) (rows : List (List Text)) → HasAppended options plan rows self.old
            → OnOk result (GrowsTo (begun_text options plan rows) (begun_text options plan (rows ++ fields_of fields.now ∷ [])) (string_bytes buf.old) (string_bytes buf.new)) }
        ensures after { (options : Options) (plan : Plan) (rows : List (List Text)) → HasAppended options plan rows self.old
            → OnOk result (HasAppended options plan (rows ++ fields_of fields.now ∷ []) self.new) }
        ensures room { (options : Options) (plan : Plan) (rows : List (List Text)) → HasAppended options plan rows self.old → TellsRoom (HasNoRoom options plan rows (fields_of fields.now)) result }
        ensures failed { OnErr result (string_bytes buf.new ≡ string_bytes buf.old) }
        ensures over { self.new.is_over ≡ self.old.is_over }
    {
        let layout = self.layout;
        if layout.extents.is_empty() {
            return self.push_pointed(fields, buf);
        }
        let pointed = pointed_record(self.alloc, &layout.extents, fields)?;
        self.push_pointed(&pointed, buf)
    }

    /// Appends the lines of a row, each with a line feed after it.
    ///
    /// `ViewFault::Totals` means that its lines can't be counted below those above it.
    pub fn push(&mut self, fields: &TextRow, buf: &mut String) -> Result<(), ViewFault>
        ensures lines { (options : Options) (plan : Plan) (rows : List (List Text)) → HasAppended options plan rows self.old
            → OnOk result (GrowsTo (begun_text options plan rows) (begun_text options plan (rows ++ fields_of fields.now ∷ [])) (string_bytes buf.old) (string_bytes buf.new)) }
        ensures after { (options : Options) (plan : Plan) (rows : List (List Text)) → HasAppended options plan rows self.old
            → OnOk result (HasAppended options plan (rows ++ fields_of fields.now ∷ []) self.new) }
        ensures room { (options : Options) (plan : Plan) (rows : List (List Text)) → HasAppended options plan rows self.old → TellsRoom (HasNoRoom options plan rows (fields_of fields.now)) result }
        ensures failed { OnErr result (string_bytes buf.new ≡ string_bytes buf.old) }
        ensures over { OnErr result (IsOver self.new) }
        ensures lost { IsOver self.old → result ≡ Err Memory }
    {
        if self.is_over {
            return Err(ViewFault::Memory);
        }
        self.is_over = true;
        self.push_row(fields, buf)?;
        self.is_over = false;
        Ok(())
    }

    /// Appends the end of the table; without rows nothing.
    pub fn finish(self, buf: &mut String) -> Result<(), ViewFault>
        ensures end { (options : Options) (plan : Plan) (rows : List (List Text)) → HasAppended options plan rows self.entry
            → OnOk result (GrowsTo (begun_text options plan rows) (whole_text options plan rows) (string_bytes buf.old) (string_bytes buf.new)) }
        ensures fault { (options : Options) (plan : Plan) (rows : List (List Text)) → HasAppended options plan rows self.entry → (fault : ViewFault) → result ≡ Err fault → fault ≡ Memory }
        ensures failed { OnErr result (string_bytes buf.new ≡ string_bytes buf.old) }
        ensures lost { IsOver self.entry → result ≡ Err Memory }
    {
        let TableRows { rows, is_over, .. } = self;
        if is_over {
            return Err(ViewFault::Memory);
        }
        rows.finish(buf)
    }
}
