//! Records as blocks: a table for each record, with a row for each field.

ghost use Rattle.std.specs.Prelude.{◌≡◌, ◌++◌, [], List, map, slice_index_or, string_bytes, IfOk, OnErr, OnOk};
ghost use Rattle.csv.specs.Records.{fields_of};
ghost use Rattle.pg_layout.specs.Text.{Text};
ghost use Rattle.pg_picture.specs.Appending.{GainedBeginning};
ghost use Rattle.ruled_table.specs.View as spec;
ghost use Rattle.ruled_table.specs.Columns.{column_fault, fields_at};
ghost use Rattle.ruled_table.specs.Tables.{Tells};
ghost use Rattle.ruled_table.specs.View.{HasNames};
ghost use Rattle.ruled_table.specs.Shown.{shown_text};
ghost use Rattle.ruled_table.specs.declared.options.Options.{Options};

use crate::colors::TextColors;
use crate::columns::places_of;
use crate::options::Options;
use crate::paired_rows::PairedRows;
use crate::rows::{all_stand, made_record};
use crate::table::{look_config, push_text};
use crate::view::ViewFault;
use pg_config::SpannedConfig;
use ruled_row::TextRow;
use std::alloc::{AllocError, Global};
use std::slice;

/// Records as blocks: a table for each, with a row for each field, of its name and its text.
#[derive(Drop)]
pub struct Blocks<'a> {
    alloc: Global,
    options: &'a Options,
    /// What each block looks like.
    config: SpannedConfig,
    /// The names of the fields, as they are shown.
    names: TextRow,
    /// The places of the shown fields in a record.
    places: Vec<Option<usize>>,
}

// The names in the first of these rows, as they are shown.
fn names_of(alloc: Global, options: &Options, rows: &[TextRow]) -> Result<TextRow, AllocError>
    ensures { IfOk result (λ names. fields_of names ≡ map (shown_text options.now) (slice_index_or (map fields_of rows.now) 0 [])) }
{
    match rows {
        [names, ..] => made_record(alloc, options, names),
        [] => Ok(TextRow::new(alloc)),
    }
}

impl<'a> Blocks<'a> {
    /// The blocks of records, of which the first of these rows has the names.
    ///
    /// The fault is the first name of a column that it lacks, or out of memory.
    pub fn new(
        alloc: Global,
        options: &'a Options,
        rows: &[TextRow],
    ) -> Result<Blocks<'a>, ViewFault>
        ensures names { IfOk result (HasNames options.now (map fields_of rows.now)) }
        ensures fault { Tells (column_fault options.now.columns.items (map fields_of rows.now)) result }
    {
        let places = places_of(alloc, &options.columns, rows)?;
        let config = look_config(alloc, options.look)?;
        let names = names_of(alloc, options, rows)?;
        Ok(Blocks {
            alloc,
            options,
            config,
            names,
            places,
        })
    }

    // Appends the block of a record, of which the other one has the texts that are shown.
    fn push_shown(
        &self,
        fields: &TextRow,
        shown: &TextRow,
        buf: &mut String,
    ) -> Result<(), ViewFault>
        ensures text { (options : Options) (rows : List (List Text)) → HasNames options rows self.now → fields_of shown.now ≡ map (shown_text options) (fields_of fields.now)
            → OnOk result (string_bytes buf.new ≡ string_bytes buf.old ++ spec.record_block options rows (fields_of fields.now)) }
        ensures begun { (options : Options) (rows : List (List Text)) → HasNames options rows self.now → fields_of shown.now ≡ map (shown_text options) (fields_of fields.now)
            → OnErr result (GainedBeginning buf.old buf.new (spec.record_block options rows (fields_of fields.now))) }
        ensures fault { (options : Options) (rows : List (List Text)) → HasNames options rows self.now → fields_of shown.now ≡ map (shown_text options) (fields_of fields.now)
            → Tells (spec.record_fault options rows (fields_of fields.now)) result }
    {
        let rows = PairedRows {
            names: &self.names,
            fields: shown,
            places: &self.places,
        };
        let colors = TextColors {
            options: self.options,
            places: &self.places,
            rows: slice::from_ref(fields),
            is_block: true,
        };
        let (bounds, config) = (&self.options.bounds, &self.config);
        push_text(self.alloc, bounds, config, &colors, rows, buf)?;
        buf.push('\n')?;
        Ok(())
    }

    /// Appends the block of a record, and an empty line. If it fails, a beginning of them is appended.
    pub fn push(&self, fields: &TextRow, buf: &mut String) -> Result<(), ViewFault>
        ensures text { (options : Options) (rows : List (List Text)) → HasNames options rows self.now
            → OnOk result (string_bytes buf.new ≡ string_bytes buf.old ++ spec.record_block options rows (fields_of fields.now)) }
        ensures begun { (options : Options) (rows : List (List Text)) → HasNames options rows self.now
            → OnErr result (GainedBeginning buf.old buf.new (spec.record_block options rows (fields_of fields.now))) }
        ensures fault { (options : Options) (rows : List (List Text)) → HasNames options rows self.now → Tells (spec.record_fault options rows (fields_of fields.now)) result }
    {
        if all_stand(self.options, fields) {
            return self.push_shown(fields, fields, buf);
        }
        let shown = made_record(self.alloc, self.options, fields)?;
        self.push_shown(fields, &shown, buf)
    }
}
