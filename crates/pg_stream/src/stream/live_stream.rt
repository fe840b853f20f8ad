//! A table whose rows are shown at once, and whose end comes after the last one.

ghost use Rattle.std.specs.Prelude.{◌≡◌, ◌↔◌, ◌++◌, ℕ, true, false, map, Some, None, IfOk, IsOk, OnOk, Err, string_bytes};
ghost use Rattle.pg_picture.specs.declared.fits.Misfit.{Misfit};
ghost use Rattle.pg_stream.specs.Conditions.{PrinterFits, RowFits, printer_misfit};
ghost use Rattle.pg_stream.specs.LiveStreams.{living, AppendsEnd};
ghost use Rattle.pg_stream.specs.Printing.{printer, row_text, after_row};
ghost use Rattle.pg_stream.specs.Streams.{AppendsIf};
ghost use Rattle.pg_stream.specs.declared.fault.StreamFault.{StreamFault};

use crate::fault::StreamFault;
use crate::printer::{Frame, Progress, RowPrinter};
use pg_config::SpannedConfig;
use pg_layout::{Colors, Dimension};
use std::alloc::{Allocator, Global};
use std::convert::AsStr;
use std::marker::{Brand, Model};

/// Prints a table whose rows come one at a time, each when it is pushed: none is held until the
/// next one comes.
///
/// The number of rows isn't known, so side margins with an offset from the end are whole, and a row
/// looks the same whether or not it is the last. The last separator and the bottom margin are drawn
/// when the stream is finished, after any row with which all rectangles end.
///
/// None of its calls requires that a row fits. A row that doesn't fit below those above it is named
/// by its number (`StreamFault::Row`); then nothing is appended, and the stream is unchanged. After
/// out of memory a beginning of a row is appended, and each further call returns
/// `StreamFault::Memory` and appends nothing.
///
/// ```rust
/// let mut stream = LiveStream::new(alloc, &config, &dimension, &NoColors, 2)?;
/// for line in reader.lines(alloc) {
///     stream.push(cells_of(alloc, line?)?, &mut buf)?;
/// }
/// stream.finish(&mut buf)?;
/// ```
pub struct LiveStream<
    'a,
    S: AsStr,
    D: Dimension,
    C: Colors,
    B: Allocator = Global,
    A: Allocator = Global,
> {
    pub(crate) frame: Frame<'a, D, C, B>,
    pub(crate) progress: Progress<'a, S, A>,
    /// Whether memory was refused in the middle of a row.
    pub(crate) is_lost: bool,
}

// Written out, so that a caller's proof has one call when it drops a stream, at each `?` after
// `new`.
impl<'a, S: AsStr + Drop, D: Dimension, C: Colors, B: Allocator, A: Allocator> Drop
    for LiveStream<'a, S, D, C, B, A> {
    fn drop(self) {
        let LiveStream {
            frame,
            progress,
            is_lost: _,
        } = self;
        drop((frame, progress));
    }
}

impl<'a, S: AsStr, D: Dimension, C: Colors, B: Allocator, A: Allocator> Model
    for LiveStream<'a, S, D, C, B, A> {
    ghost use Rattle.std.specs.Prelude.{◌≡◌, false};
    ghost use Rattle.pg_stream.specs.Inside.{IsSoundAt};
    ghost use Rattle.pg_picture.specs.Grids.{bare_table};
    ghost use Rattle.pg_stream.specs.LiveStreams.{Live};
    ghost use Rattle.pg_stream.specs.Printers.{printer_of};

    ghost Value = { Live D C };

    ghost view = { λ s. record { printer = printer_of s.frame s.progress; is_lost = s.is_lost } };

    ghost invariant = { λ s. s.is_lost ≡ false → IsSoundAt (bare_table D.width D.height C.color s.frame.sheet) s.frame s.progress };
}

impl<'a, S: AsStr + Drop, D: Dimension, C: Colors, B: Allocator, A: Allocator> LiveStream<
    'a,
    S,
    D,
    C,
    B,
    A,
> {
    /// A stream of rows of so many columns, before its first row.
    ///
    /// `StreamFault::Misfit` says which of these parts don't fit ([`printer_fits`]).
    ///
    /// [`printer_fits`]: crate::printer_fits
    pub fn new(
        alloc: A,
        config: &'a SpannedConfig<B>,
        dimension: &'a D,
        colors: &'a C,
        columns: usize,
    ) -> Result<LiveStream<'a, S, D, C, B, A>, StreamFault>
        ensures made { IfOk result (λ s. (living D.width D.height C.color s).printed ≡ printer config.now columns (D.width dimension.now) (D.height dimension.now) (C.color colors.now) None) }
        ensures lives { IfOk result (λ s. (living D.width D.height C.color s).is_lost ≡ false) }
        ensures whole { PrinterFits (printer config.now columns (D.width dimension.now) (D.height dimension.now) (C.color colors.now) None)
            → (fault : StreamFault) → result ≡ Err fault → fault ≡ StreamFault.Memory }
        ensures misfit { (misfit : Misfit)
            → (result ≡ Err (StreamFault.Misfit misfit)) ↔ (printer_misfit (printer config.now columns (D.width dimension.now) (D.height dimension.now) (C.color colors.now) None) ≡ Some misfit) }
    {
        match RowPrinter::try_new(alloc, config, dimension, colors, columns, None) {
            Ok(printer) => {
                let (frame, progress) = printer.into_parts();
                Ok(LiveStream {
                    frame,
                    progress,
                    is_lost: false,
                })
            }
            Err(fault) => Err(fault),
        }
    }

    /// Prints a row.
    ///
    /// The error is `StreamFault::Row` with its number if it doesn't fit; then nothing is appended.
    /// If memory is refused, a beginning of its text is appended, and the stream is lost.
    #[inline(always)]
    pub fn push<V: Allocator, W: Allocator>(
        &mut self,
        cells: Vec<S, V>,
        buf: &mut String<W>,
    ) -> Result<(), StreamFault>
        ensures appends { OnOk result (string_bytes buf.new ≡ string_bytes buf.old ++ row_text (living D.width D.height C.color self.old).printed (map S.text cells.items) false) }
        ensures after { OnOk result (living D.width D.height C.color self.new
            ≡ record { printed = after_row (living D.width D.height C.color self.old).printed (map S.text cells.items) false; is_lost = false }) }
        ensures prints { (living D.width D.height C.color self.old).is_lost ≡ false
            → AppendsIf (RowFits (living D.width D.height C.color self.old).printed (map S.text cells.items) false) (living D.width D.height C.color self.old).printed.rows
            (row_text (living D.width D.height C.color self.old).printed (map S.text cells.items) false) buf.old buf.new result }
        ensures misfit { (row : ℕ) → result ≡ Err (StreamFault.Row row) → self.new ≡ self.old }
        ensures memory { result ≡ Err StreamFault.Memory → (living D.width D.height C.color self.new).is_lost ≡ true }
        ensures lost { (living D.width D.height C.color self.old).is_lost ≡ true → (result ≡ Err StreamFault.Memory) × (buf.new ≡ buf.old) }
    {
        if self.is_lost {
            return Err(StreamFault::Memory);
        }
        let Some(kind) = self.progress.kind_if_fits(&self.frame, &cells, false) else {
            return Err(StreamFault::Row(self.progress.rows));
        };
        self.is_lost = true;
        self.progress
            .push_cells::<Brand, D, C, B, V, W>(&self.frame, cells, kind, false, buf)?;
        self.is_lost = false;
        Ok(())
    }

    /// Ends the table after the rows so far: the separator below the last one, if it exists, and
    /// the bottom margin. If no row was printed, the buffer is unchanged.
    ///
    /// `StreamFault::Open` means that a rectangle continues below them; then nothing is appended.
    /// If memory is refused, a beginning of the table's end is appended, or nothing if the stream
    /// was lost before.
    pub fn finish<W: Allocator>(self, buf: &mut String<W>) -> Result<(), StreamFault>
        ensures ends { (living D.width D.height C.color self.entry).is_lost ≡ false → AppendsEnd (living D.width D.height C.color self.entry).printed buf.old buf.new result }
        ensures lost { (living D.width D.height C.color self.entry).is_lost ≡ true → (result ≡ Err StreamFault.Memory) × (buf.new ≡ buf.old) }
        ensures empty { (living D.width D.height C.color self.entry).is_lost ≡ false → (living D.width D.height C.color self.entry).printed.rows ≡ 0 → IsOk result × (buf.new ≡ buf.old) }
    {
        let LiveStream {
            frame,
            mut progress,
            is_lost,
        } = self;
        if is_lost {
            return Err(StreamFault::Memory);
        }
        progress.close::<Brand, D, C, B, W>(&frame, buf)
    }
}
