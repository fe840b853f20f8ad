//! Whether a printer of rows can be made.

ghost use Rattle.std.specs.Prelude.{◌≡◌, ◌↔◌, IsOk};
ghost use Rattle.pg_picture.specs.Sizes.{unless_misfit};
ghost use Rattle.pg_stream.specs.Conditions.{PrinterFits, printer_misfit};
ghost use Rattle.pg_stream.specs.Printing.{printer};

use pg_config::SpannedConfig;
use pg_layout::{Colors, Dimension};
use pg_picture::fits::{Misfit, full_width, spans_fit, spans_fit_columns, totals_fit};
use std::alloc::Allocator;

/// Whether a printer can be made of these parts: the precondition of [`RowPrinter::new`], as a
/// test.
///
/// `Totals` means that there is no column, or that the columns, their total width or, if the number
/// of rows is known, a total of the whole table can't be counted; `Spans` that a rectangle is
/// empty, shares a place with another, or leaves the columns or the known rows. The first of these
/// is returned: the columns, their spans, their width, the spans of the whole table, its totals.
/// Colours don't matter. Allocates nothing.
///
/// [`RowPrinter::new`]: crate::RowPrinter::new
pub fn printer_fits<B: Allocator, D: Dimension, C: Colors>(
    config: &SpannedConfig<B>,
    dimension: &D,
    colors: &C,
    columns: usize,
    hint: Option<usize>,
) -> Result<(), Misfit>
    ensures exact { result ≡ unless_misfit (printer_misfit (printer config.now columns (D.width dimension.now) (D.height dimension.now) (C.color colors.now) hint)) }
    ensures fits { IsOk result ↔ PrinterFits (printer config.now columns (D.width dimension.now) (D.height dimension.now) (C.color colors.now) hint) }
{
    if columns == 0 || columns == usize::MAX {
        return Err(Misfit::Totals);
    }
    if !spans_fit_columns(config, columns) {
        return Err(Misfit::Spans);
    }
    let Some(_) = full_width(config, dimension, columns) else {
        return Err(Misfit::Totals);
    };
    let Some(rows) = hint else {
        return Ok(());
    };
    if !spans_fit(config, rows, columns) {
        return Err(Misfit::Spans);
    }
    if !totals_fit(config, dimension, rows, columns) {
        return Err(Misfit::Totals);
    }
    Ok(())
}
