//! A printer and its rows, which the calls test themselves.

ghost use Rattle.std.specs.Prelude.{◌≡◌, ◌≢◌, ◌++◌, ◌↔◌, map, Some, Err, IfOk, string_bytes};
ghost use Rattle.pg_picture.specs.Appending.{Appends, GainedBeginning};
ghost use Rattle.pg_picture.specs.declared.fits.Misfit.{Misfit};
ghost use Rattle.pg_stream.specs.Conditions.{PrinterFits, RowFits, printer_misfit};
ghost use Rattle.pg_stream.specs.Printers.{printing};
ghost use Rattle.pg_stream.specs.Printing.{printer, row_text, after_row};
ghost use Rattle.pg_stream.specs.declared.fault.RowFault.{RowFault};
ghost use Rattle.pg_stream.specs.declared.fault.StreamFault.{StreamFault};

use crate::fault::{RowFault, StreamFault};
use crate::printer::{RowPrinter, printer_fits};
use pg_config::SpannedConfig;
use pg_layout::{Colors, Dimension};
use std::alloc::{AllocError, Allocator};
use std::convert::AsStr;

impl<'a, S: AsStr + Drop, D: Dimension, C: Colors, B: Allocator, A: Allocator> RowPrinter<
    'a,
    S,
    D,
    C,
    B,
    A,
> {
    /// A printer before its first row, like that of [`RowPrinter::new`], if its precondition holds
    /// ([`printer_fits`]); else `StreamFault::Misfit` with what doesn't fit.
    ///
    /// [`printer_fits`]: crate::printer_fits
    #[tactic(auto, unfolding(crate::specs::Printing::printer))]
    pub fn try_new(
        alloc: A,
        config: &'a SpannedConfig<B>,
        dimension: &'a D,
        colors: &'a C,
        columns: usize,
        hint: Option<usize>,
    ) -> Result<RowPrinter<'a, S, D, C, B, A>, StreamFault>
        ensures made { IfOk result (λ p. printing D.width D.height C.color p ≡ printer config.now columns (D.width dimension.now) (D.height dimension.now) (C.color colors.now) hint) }
        ensures empty { IfOk result (λ p. (printing D.width D.height C.color p).rows ≡ 0) }
        ensures whole { PrinterFits (printer config.now columns (D.width dimension.now) (D.height dimension.now) (C.color colors.now) hint)
            → (fault : StreamFault) → result ≡ Err fault → fault ≡ StreamFault.Memory }
        ensures misfit { (misfit : Misfit)
            → (result ≡ Err (StreamFault.Misfit misfit)) ↔ (printer_misfit (printer config.now columns (D.width dimension.now) (D.height dimension.now) (C.color colors.now) hint) ≡ Some misfit) }
    {
        printer_fits(config, dimension, colors, columns, hint)?;
        Ok(RowPrinter::new(alloc, config, dimension, colors, columns, hint)?)
    }

    /// Prints the next row, of these cells, like [`RowPrinter::row`], under the precondition that
    /// [`RowPrinter::fits`] tests.
    ///
    /// ```rust
    /// if printer.fits(&cells, is_last) {
    ///     printer = printer.row_of(cells, is_last, buf)?;
    /// }
    /// ```
    #[inline(always)]
    pub fn row_of<V: Allocator, W: Allocator>(
        self,
        cells: Vec<S, V>,
        is_last: bool,
        buf: &mut String<W>,
    ) -> Result<RowPrinter<'a, S, D, C, B, A>, AllocError>
        requires fits { RowFits (printing D.width D.height C.color self) (map S.text cells.items) is_last }
        ensures appends { Appends buf.old buf.new result (row_text (printing D.width D.height C.color self.entry) (map S.text cells.items) is_last) }
        ensures after { IfOk result (λ p. printing D.width D.height C.color p ≡ after_row (printing D.width D.height C.color self.entry) (map S.text cells.items) is_last) }
        ensures ended { IfOk result (λ p. (printing D.width D.height C.color p).is_ended ≡ is_last) }
    {
        self.row(cells.into_iter(), is_last, buf)
    }

    /// Prints the next row, if it fits ([`RowPrinter::fits`]). Else it returns the unchanged
    /// printer, and appends nothing; then call it with another `is_last` or other cells.
    ///
    /// If memory is refused, the printer is gone, and the buffer has gained a beginning of the
    /// row's text.
    pub fn try_row<V: Allocator, W: Allocator>(
        self,
        cells: Vec<S, V>,
        is_last: bool,
        buf: &mut String<W>,
    ) -> Result<RowPrinter<'a, S, D, C, B, A>, RowFault<RowPrinter<'a, S, D, C, B, A>>>
        ensures fits { IfOk result (λ p. RowFits (printing D.width D.height C.color self.entry) (map S.text cells.items) is_last) }
        ensures appends { IfOk result (λ p. string_bytes buf.new ≡ string_bytes buf.old ++ row_text (printing D.width D.height C.color self.entry) (map S.text cells.items) is_last) }
        ensures after { IfOk result (λ p. printing D.width D.height C.color p ≡ after_row (printing D.width D.height C.color self.entry) (map S.text cells.items) is_last) }
        ensures ended { IfOk result (λ p. (printing D.width D.height C.color p).is_ended ≡ is_last) }
        ensures misfit { (p : _) → result ≡ Err (RowFault.Misfit p)
            → (p ≡ self.entry) × (buf.new ≡ buf.old) × ¬ (RowFits (printing D.width D.height C.color self.entry) (map S.text cells.items) is_last) }
        ensures memory { result ≡ Err RowFault.Memory
            → RowFits (printing D.width D.height C.color self.entry) (map S.text cells.items) is_last
            × GainedBeginning buf.old buf.new (row_text (printing D.width D.height C.color self.entry) (map S.text cells.items) is_last) }
        ensures whole { RowFits (printing D.width D.height C.color self.entry) (map S.text cells.items) is_last
            → Appends buf.old buf.new result (row_text (printing D.width D.height C.color self.entry) (map S.text cells.items) is_last) × ((p : _) → result ≢ Err (RowFault.Misfit p)) }
        ensures refused { ¬ (RowFits (printing D.width D.height C.color self.entry) (map S.text cells.items) is_last) → (result ≡ Err (RowFault.Misfit self.entry)) × (buf.new ≡ buf.old) }
    {
        if !self.fits(&cells, is_last) {
            return Err(RowFault::Misfit(self));
        }
        match self.row_of(cells, is_last, buf) {
            Ok(printer) => Ok(printer),
            Err(_) => Err(RowFault::Memory),
        }
    }
}
