//! What the first rows of a table determine for all its rows.

ghost use Rattle.std.specs.Prelude.{◌≡◌, map, string_bytes, take, true, IfOk};
ghost use Rattle.csv.specs.Records.{fields_of};
ghost use Rattle.ruled_table.specs.Tables.{Tells};
ghost use Rattle.ruled_table.specs.Layouts as spec;
ghost use Rattle.ruled_table.specs.Columns.{texts_at};
ghost use Rattle.ruled_table.specs.Layouts.{is_in_blocks, leaves_columns_out, plan_in};
ghost use Rattle.ruled_table.specs.Shown.{shown_text};
ghost use Rattle.ruled_table.specs.View.{excess_of};

use crate::columns::places_of;
use crate::lent_rows::LentRows;
use crate::omission::{abridge, note_of, shown_columns};
use crate::options::{Options, Vertical};
use crate::points::{extents_of, fields_in, ruler_of};
use crate::rows::{all_stand, shown_records};
use crate::view::ViewFault;
use crate::widths::{first_config, sizes_of_rows};
use pg_config::SpannedConfig;
use pg_layout::ConstantDimension;
use pg_picture::fits::full_width;
use pg_table::numbers::Extent;
use ruled_row::TextRow;
use std::alloc::Global;
use std::marker::Model;

/// What the first rows of a table determine for all its rows: the shown columns, their look and
/// their widths, and which columns are left out. Each column has room for at least one character.
#[derive(Drop)]
pub struct Layout {
    pub(crate) places: Vec<Option<usize>>,
    pub(crate) config: SpannedConfig,
    pub(crate) widths: ConstantDimension,
    /// The line below the table, with its line feed: how many columns there are, and how many are
    /// shown. It is empty if all are.
    pub(crate) note: String,
    /// The extents of the fields if points are below one another in some of their columns, else none.
    pub(crate) extents: Vec<Extent>,
}

impl Model for Layout {
    ghost use Rattle.std.specs.Prelude.{◌≡◌, [], string_bytes};
    ghost use Rattle.ruled_table.specs.Layouts.{Measures};

    ghost Value = { Measures };

    ghost view = { λ l. record { places = l.places.items; config = l.config; widths = l.widths.0.items; note = string_bytes l.note; extents = l.extents.items } };

    ghost invariant = { λ l. l.config.spans ≡ [] };
}

/// The first rows of a table.
#[derive(Drop)]
struct FirstRows<'a> {
    /// Their fields.
    fields: &'a [TextRow],
    /// The texts that are shown of them, and a ruler below them.
    measured: &'a [TextRow],
}

// Whether each field of each of these rows is shown as it stands.
fn rows_stand(options: &Options, rows: &[TextRow]) -> bool
    ensures { result ≡ true → map (map (shown_text options.now)) (map fields_of rows.now) ≡ map fields_of rows.now }
{
    for fields in rows {
        if !all_stand(options, fields) {
            return false;
        }
    }
    true
}

// So many first rows, or all.
fn first_of(rows: &[TextRow], count: usize) -> &[TextRow]
    ensures { result.now ≡ take count rows.now }
{
    match rows.get(..count) {
        Some(first) => first,
        None => rows,
    }
}

impl Layout {
    /// The layout of a table of which so many first rows are these, a header among them, or all if
    /// there are fewer. The rows stay as they are.
    ///
    /// The fault is that of the names of columns, or of the sizes of the first rows, in this order,
    /// or out of memory. No row is copied if the first ones have no text that is shown in another
    /// form.
    pub fn of_rows(
        alloc: Global,
        options: &Options,
        count: usize,
        rows: &mut Vec<TextRow>,
    ) -> Result<Layout, ViewFault>
        ensures layout { IfOk result (λ layout. plan_in layout ≡ spec.layout_of options.now (take count (map fields_of rows.old.items))) }
        ensures rows { map fields_of rows.new.items ≡ map fields_of rows.old.items }
        ensures fault { Tells (spec.layout_fault options.now (take count (map fields_of rows.old.items))) result }
    {
        if rows_stand(options, first_of(rows, count)) {
            return Layout::of_standing(alloc, options, count, rows);
        }
        Layout::of_copies(alloc, options, first_of(rows, count))
    }

    // Whether columns are left out.
    fn leaves_columns_out(&self) -> bool
        ensures { result ≡ leaves_columns_out (plan_in self.now) }
    {
        self.places.iter().any(|place| place.is_none())
    }

    /// Whether rows of this layout are shown as blocks in place of their table.
    pub fn is_in_blocks(&self, vertical: Vertical) -> bool
        ensures { result ≡ is_in_blocks vertical (plan_in self.now) }
    {
        match vertical {
            Vertical::Never => false,
            Vertical::IfOmitting => self.leaves_columns_out(),
            Vertical::Always => true,
        }
    }

    /// How many terminal columns a line of the table takes, if these are more than the width that is set.
    ///
    /// It is also `None` if they exceed `usize::MAX`, of which there is no table.
    #[tactic(auto, unfolding(pg_picture::specs::Table::full_width, pg_picture::specs::Table::total_width))]
    pub fn excess(&self, width: Option<u32>) -> Option<usize>
        ensures { result ≡ excess_of width (plan_in self.now) }
    {
        let width = width? as usize;
        let line = full_width(&self.config, &self.widths, self.places.len())?;
        if line > width { Some(line) } else { None }
    }

    // The layout of so many first rows, each text of which is shown as it stands. Meanwhile a ruler
    // is below them.
    fn of_standing(
        alloc: Global,
        options: &Options,
        count: usize,
        rows: &mut Vec<TextRow>,
    ) -> Result<Layout, ViewFault>
        requires { map (map (shown_text options.now)) (map fields_of (take count rows.old.items)) ≡ map fields_of (take count rows.old.items) }
        ensures layout { IfOk result (λ layout. plan_in layout ≡ spec.layout_of options.now (map fields_of (take count rows.old.items))) }
        ensures rows { map fields_of rows.new.items ≡ map fields_of rows.old.items }
        ensures fault { Tells (spec.layout_fault options.now (map fields_of (take count rows.old.items))) result }
    {
        let first = first_of(rows, count);
        let places = places_of(alloc, &options.columns, first)?;
        let lent = LentRows {
            records: first,
            places: &places,
        };
        let extents = extents_of(alloc, options, lent)?;
        let ruler = ruler_of(alloc, &extents, fields_in(first))?;
        let end = first.len();
        rows.insert(end, ruler)?;
        let measured = FirstRows {
            fields: first_of(rows, end),
            measured: first_of(rows, end + 1),
        };
        let layout = Layout::of_measured(alloc, options, places, extents, measured);
        rows.remove(end);
        layout
    }

    // The layout of these rows, by copies of them.
    fn of_copies(alloc: Global, options: &Options, first: &[TextRow]) -> Result<Layout, ViewFault>
        ensures layout { IfOk result (λ layout. plan_in layout ≡ spec.layout_of options.now (map fields_of first.now)) }
        ensures fault { Tells (spec.layout_fault options.now (map fields_of first.now)) result }
    {
        let places = places_of(alloc, &options.columns, first)?;
        let lent = LentRows {
            records: first,
            places: &places,
        };
        let extents = extents_of(alloc, options, lent)?;
        let ruler = ruler_of(alloc, &extents, fields_in(first))?;
        let copies = Vec::from_clones(alloc, first)?;
        let mut measured = shown_records(alloc, options, copies)?;
        measured.push(ruler)?;
        let rows = FirstRows {
            fields: first,
            measured: &measured,
        };
        Layout::of_measured(alloc, options, places, extents, rows)
    }

    // The layout of these rows, by the places of their columns, some of which may be left out, and
    // the extents of their fields.
    fn of_measured(
        alloc: Global,
        options: &Options,
        mut places: Vec<Option<usize>>,
        extents: Vec<Extent>,
        rows: FirstRows<'_>,
    ) -> Result<Layout, ViewFault>
        ensures layout { IfOk result (λ layout. plan_in layout
            ≡ spec.layout_by options.now places.items (texts_at places.items rows.entry.fields.now) (texts_at places.items rows.entry.measured.now) extents.items) }
        ensures fault { Tells (spec.sizes_fault_by options.now places.items (texts_at places.items rows.entry.fields.now) (texts_at places.items rows.entry.measured.now)) result }
    {
        let columns = places.len();
        let measured = LentRows {
            records: rows.measured,
            places: &places,
        };
        let shown = shown_columns(alloc, options, measured)?;
        if shown >= columns {
            let note = String::new(alloc);
            return Layout::of_columns(alloc, options, places, extents, note, rows);
        }
        let note = note_of(alloc, columns, shown)?;
        abridge(&mut places, shown);
        Layout::of_columns(alloc, options, places, extents, note, rows)
    }

    // The layout of these rows, by the places of the columns that are drawn, with the extents of
    // their fields and this line below them.
    fn of_columns(
        alloc: Global,
        options: &Options,
        places: Vec<Option<usize>>,
        extents: Vec<Extent>,
        note: String,
        rows: FirstRows<'_>,
    ) -> Result<Layout, ViewFault>
        ensures layout { IfOk result (λ layout. plan_in layout
            ≡ spec.plan_by options.now extents.items places.items (string_bytes note) (texts_at places.items rows.entry.fields.now) (texts_at places.items rows.entry.measured.now)) }
        ensures fault { Tells (spec.plan_fault options.now (texts_at places.items rows.entry.fields.now) (texts_at places.items rows.entry.measured.now)) result }
    {
        let fields = LentRows {
            records: rows.fields,
            places: &places,
        };
        let config = first_config(alloc, options, fields)?;
        let measured = LentRows {
            records: rows.measured,
            places: &places,
        };
        let widths = sizes_of_rows(alloc, options, &config, fields, measured)?;
        Ok(Layout {
            places,
            config,
            widths,
            note,
            extents,
        })
    }
}
