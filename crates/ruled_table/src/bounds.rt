//! The greatest widths of a table and its columns.

ghost use Rattle.std.specs.Prelude.{◌≡◌, ◌≢◌, ◌++◌, string_bytes, Err, IfOk, IsOk, None, OnErr, OnOk, is_none, false};
ghost use Rattle.pg_picture.specs.Appending.{GainedBeginning};
ghost use Rattle.pg_picture.specs.Picture.{picture};
ghost use Rattle.pg_picture.specs.Table.{Known};
ghost use Rattle.pg_table.specs.declared.fault.TableFault.{TableFault};
ghost use Rattle.pg_layout.specs.Records.{columns_of};
ghost use Rattle.ruled_table.specs.Bounds as spec;
ghost use Rattle.ruled_table.specs.Columns.{pairs_in};
ghost use Rattle.ruled_table.specs.Shown.{color_in};

use crate::colors::TextColors;
use crate::columns::told_of;
use crate::paired_rows::PairedRows;
use pg_config::SpannedConfig;
use pg_layout::Records;
use pg_table::{NaturalTable, Overflow, TableFault};
use std::alloc::{AllocError, Global};

/// The greatest widths of a table and its columns, and what happens to texts that are wider than
/// their columns.
///
/// If a table is too wide, its columns are narrowed, the widest first, and those of numbers last. A column stays at least as
/// wide as its widest character if texts are wrapped, and as the `…` if they are cut; so a table of
/// many columns may still be too wide.
#[derive(Drop)]
pub struct Bounds {
    /// The most terminal columns of a line; without it there is no limit.
    pub width: Option<u32>,
    /// The most terminal columns that the texts of each shown column take; one limit alone is for
    /// all. A column without one, or with `None`, has no limit.
    pub limits: Vec<Option<u32>>,
    /// What happens to texts that are wider than their columns.
    pub overflow: Overflow<'static>,
}

/// The greatest width of a column whose texts may take so many columns: a space is at each side.
pub(crate) fn limit_of(columns: Option<u32>) -> usize
    ensures { result ≡ spec.limit_of columns }
{
    match columns {
        Some(columns) => columns as usize + 2,
        None => usize::MAX,
    }
}

impl Bounds {
    /// Whether there are any.
    pub(crate) fn are_told(&self) -> bool
        ensures { result ≡ spec.are_told self.now }
    {
        self.width.is_some() || !self.limits.is_empty()
    }

    /// The greatest width of a line.
    pub(crate) fn width(&self) -> usize
        ensures { result ≡ spec.width_of self.now.width }
    {
        match self.width {
            Some(width) => width as usize,
            None => usize::MAX,
        }
    }

    /// The greatest width of each of so many columns.
    pub(crate) fn limits(&self, alloc: Global, columns: usize) -> Result<Vec<usize>, AllocError>
        ensures { IfOk result (λ limits. limits.items ≡ spec.limits_of self.now.limits.items columns) }
    {
        let mut limits = Vec::with_capacity(alloc, columns)?;
        for column in 0..columns {
            limits.push(limit_of(told_of(&self.limits, column)))?;
        }
        Ok(limits)
    }

    /// Appends the picture of the table of these rows within the bounds, if there are any, else at
    /// its natural sizes. If it fails, a beginning of the picture is appended.
    pub(crate) fn print(
        &self,
        alloc: Global,
        config: &SpannedConfig,
        colors: &TextColors<'_>,
        rows: PairedRows<'_>,
        buf: &mut String,
    ) -> Result<(), TableFault>
        ensures text { OnOk result (string_bytes buf.new ≡ string_bytes buf.old ++ picture Known (spec.bounded_table self.now config.now (color_in colors.now) (pairs_in rows.entry))) }
        ensures begun { OnErr result (GainedBeginning buf.old buf.new (picture Known (spec.bounded_table self.now config.now (color_in colors.now) (pairs_in rows.entry)))) }
        ensures ok { IsOk result → spec.bounded_fault self.now config.now (color_in colors.now) (pairs_in rows.entry) ≡ None }
        ensures fault { (fault : TableFault) → result ≡ Err fault → fault ≢ TableFault.Memory → is_none (spec.bounded_fault self.now config.now (color_in colors.now) (pairs_in rows.entry)) ≡ false }
    {
        let table = NaturalTable::new(rows, config, colors);
        if !self.are_told() {
            return table.print(alloc, buf);
        }
        let limits = self.limits(alloc, rows.count_columns())?;
        let fitted = table.within_limits(alloc, self.width(), &limits, self.overflow)?;
        fitted.print(alloc, buf)
    }
}
