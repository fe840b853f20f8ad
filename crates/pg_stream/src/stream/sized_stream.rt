//! A table whose rows bring their heights, each shown at once.

ghost use Rattle.std.specs.Prelude.{◌≡◌, ◌↔◌, ◌++◌, ℕ, true, false, map, Some, None, IfOk, IsOk, OnOk, Err, string_bytes};
ghost use Rattle.pg_picture.specs.declared.fits.Misfit.{Misfit};
ghost use Rattle.pg_stream.specs.Conditions.{RowFits};
ghost use Rattle.pg_stream.specs.LiveStreams.{living, AppendsEnd, LentFits};
ghost use Rattle.pg_stream.specs.Printing.{printer, row_text, after_row};
ghost use Rattle.pg_stream.specs.SizedStreams.{sized_misfit, CountsLines, IsNextHeight};
ghost use Rattle.pg_stream.specs.Streams.{AppendsIf};
ghost use Rattle.pg_stream.specs.declared.fault.StreamFault.{StreamFault};

use crate::fault::StreamFault;
use crate::printer::{Frame, Progress, RowPrinter};
use crate::stream::RowSizes;
use pg_config::SpannedConfig;
use pg_layout::{Colors, Dimension};
use pg_picture::fits::Misfit;
use std::alloc::{Allocator, Global};
use std::convert::AsStr;
use std::marker::{Brand, Model};
use std::slice::Iter;

/// Prints a table whose rows come one at a time, each with its height, and each when it is pushed.
///
/// It is a [`LiveStream`] whose rows may have any heights: its dimension gives only the widths of
/// the columns. No cell spans rows: the height of its rectangle wouldn't be known when it begins.
///
/// A row that doesn't fit is named by its number (`StreamFault::Row`); then nothing is appended,
/// and the stream is unchanged. After out of memory a beginning of a row is appended, and each
/// further call returns `StreamFault::Memory` and appends nothing. No memory is kept for the rows
/// above.
///
/// ```rust
/// let mut stream = SizedStream::new(alloc, &config, &widths, &NoColors, 2)?;
/// for line in reader.lines(alloc) {
///     let (height, cells) = row_of(alloc, line?)?;
///     stream.push(height, cells, &mut buf)?;
/// }
/// stream.finish(&mut buf)?;
/// ```
///
/// [`LiveStream`]: crate::LiveStream
pub struct SizedStream<
    'a,
    S: AsStr,
    D: Dimension,
    C: Colors,
    B: Allocator = Global,
    A: Allocator = Global,
> {
    frame: Frame<'a, D, C, B>,
    progress: Progress<'a, S, A>,
    /// The height of the rows so far together, without separators.
    above: usize,
    /// Whether memory was refused in the middle of a row.
    is_lost: bool,
}

// Written out, like that of a `LiveStream`.
impl<'a, S: AsStr + Drop, D: Dimension, C: Colors, B: Allocator, A: Allocator> Drop
    for SizedStream<'a, S, D, C, B, A> {
    fn drop(self) {
        let SizedStream {
            frame,
            progress,
            above: _,
            is_lost: _,
        } = self;
        drop((frame, progress));
    }
}

impl<'a, S: AsStr, D: Dimension, C: Colors, B: Allocator, A: Allocator> Model
    for SizedStream<'a, S, D, C, B, A> {
    ghost use Rattle.std.specs.Prelude.{◌≡◌, false};
    ghost use Rattle.pg_stream.specs.Inside.{IsSizedAt};
    ghost use Rattle.pg_picture.specs.Grids.{bare_table};
    ghost use Rattle.pg_stream.specs.LiveStreams.{Live};
    ghost use Rattle.pg_stream.specs.Printers.{printer_of};

    ghost Value = { Live D C };

    ghost view = { λ s. record { printer = printer_of s.frame s.progress; is_lost = s.is_lost } };

    ghost invariant = { λ s. s.is_lost ≡ false → IsSizedAt (bare_table D.width D.height C.color s.frame.sheet) s.above s.frame s.progress };
}

impl<'a, S: AsStr + Drop, D: Dimension, C: Colors, B: Allocator, A: Allocator> SizedStream<
    'a,
    S,
    D,
    C,
    B,
    A,
> {
    /// A stream of rows of so many columns, before its first row.
    ///
    /// `StreamFault::Misfit` says which of these parts don't fit: spans, if a cell spans rows, else
    /// what [`printer_fits`] returns. The heights of the dimension don't matter.
    ///
    /// [`printer_fits`]: crate::printer_fits
    pub fn new(
        alloc: A,
        config: &'a SpannedConfig<B>,
        widths: &'a D,
        colors: &'a C,
        columns: usize,
    ) -> Result<SizedStream<'a, S, D, C, B, A>, StreamFault>
        ensures made { IfOk result (λ s. (heights : ℕ → ℕ)
            → living D.width (λ _. heights) C.color s ≡ record { printed = printer config.now columns (D.width widths.now) heights (C.color colors.now) None; is_lost = false }) }
        ensures whole { sized_misfit (printer config.now columns (D.width widths.now) (D.height widths.now) (C.color colors.now) None) ≡ None
            → (fault : StreamFault) → result ≡ Err fault → fault ≡ StreamFault.Memory }
        ensures misfit { (misfit : Misfit)
            → (result ≡ Err (StreamFault.Misfit misfit)) ↔ (sized_misfit (printer config.now columns (D.width widths.now) (D.height widths.now) (C.color colors.now) None) ≡ Some misfit) }
    {
        if config.has_row_spans() {
            return Err(StreamFault::Misfit(Misfit::Spans));
        }
        match RowPrinter::try_new(alloc, config, widths, colors, columns, None) {
            Ok(printer) => {
                let (frame, progress) = printer.into_parts();
                Ok(SizedStream {
                    frame,
                    progress,
                    above: 0,
                    is_lost: false,
                })
            }
            Err(fault) => Err(fault),
        }
    }

    /// Prints a row of so many lines.
    ///
    /// The error is `StreamFault::Row` with its number if it doesn't fit; then nothing is appended.
    /// If memory is refused, a beginning of its text is appended, and the stream is lost.
    #[inline(always)]
    pub fn push<V: Allocator, W: Allocator>(
        &mut self,
        height: usize,
        cells: Vec<S, V>,
        buf: &mut String<W>,
    ) -> Result<(), StreamFault>
        ensures appends { (heights : ℕ → ℕ) → IsNextHeight (living D.width (λ _. heights) C.color self.old).printed height
            → OnOk result (string_bytes buf.new ≡ string_bytes buf.old ++ row_text (living D.width (λ _. heights) C.color self.old).printed (map S.text cells.items) false) }
        ensures after { (heights : ℕ → ℕ) → IsNextHeight (living D.width (λ _. heights) C.color self.old).printed height
            → OnOk result (living D.width (λ _. heights) C.color self.new ≡ record {
              printed = after_row (living D.width (λ _. heights) C.color self.old).printed
                  (map S.text cells.items) false;
              is_lost = false;
            }) }
        ensures prints { (heights : ℕ → ℕ) → IsNextHeight (living D.width (λ _. heights) C.color self.old).printed height
            → (living D.width (λ _. heights) C.color self.old).is_lost ≡ false
            → AppendsIf (RowFits (living D.width (λ _. heights) C.color self.old).printed (map S.text cells.items) false)
            (living D.width (λ _. heights) C.color self.old).printed.rows (row_text (living D.width (λ _. heights) C.color self.old).printed
            (map S.text cells.items) false) buf.old buf.new result }
        ensures misfit { (row : ℕ) → result ≡ Err (StreamFault.Row row) → self.new ≡ self.old }
        ensures memory { result ≡ Err StreamFault.Memory → (living D.width D.height C.color self.new).is_lost ≡ true }
        ensures lost { (living D.width D.height C.color self.old).is_lost ≡ true → (result ≡ Err StreamFault.Memory) × (buf.new ≡ buf.old) }
    {
        if self.is_lost {
            return Err(StreamFault::Memory);
        }
        let sizes = RowSizes {
            widths: self.frame.sheet.dimension,
            row: self.progress.rows,
            height,
            above: self.above,
        };
        let frame = self.frame.with_sizes(&sizes);
        let Some(kind) = self.progress.kind_if_fits(&frame, &cells, false) else {
            return Err(StreamFault::Row(self.progress.rows));
        };
        self.is_lost = true;
        self.progress
            .push_cells::<Brand, RowSizes<'_, D>, C, B, V, W>(&frame, cells, kind, false, buf)?;
        self.above += height;
        self.is_lost = false;
        Ok(())
    }

    /// Prints a row of one line whose cells are lent for this call: they need no vector, and
    /// needn't live as long as the stream.
    ///
    /// A row can be lent if no cell of the table spans others. For a row that can't, or doesn't
    /// fit, the error is `StreamFault::Row` with its number; then nothing is appended. Otherwise it
    /// is like [`SizedStream::push`] with a height of 1.
    #[inline(always)]
    pub fn push_lent<X: AsStr, W: Allocator>(
        &mut self,
        cells: &[X],
        buf: &mut String<W>,
    ) -> Result<(), StreamFault>
        ensures appends { (heights : ℕ → ℕ) → IsNextHeight (living D.width (λ _. heights) C.color self.old).printed 1
            → OnOk result (string_bytes buf.new ≡ string_bytes buf.old ++ row_text (living D.width (λ _. heights) C.color self.old).printed (map X.text cells.now) false) }
        ensures after { (heights : ℕ → ℕ) → IsNextHeight (living D.width (λ _. heights) C.color self.old).printed 1
            → OnOk result (living D.width (λ _. heights) C.color self.new ≡ record {
              printed = after_row (living D.width (λ _. heights) C.color self.old).printed
                  (map X.text cells.now) false;
              is_lost = false;
            }) }
        ensures prints { (heights : ℕ → ℕ) → IsNextHeight (living D.width (λ _. heights) C.color self.old).printed 1
            → (living D.width (λ _. heights) C.color self.old).is_lost ≡ false
            → AppendsIf (LentFits (living D.width (λ _. heights) C.color self.old).printed (map X.text cells.now)) (living D.width (λ _. heights) C.color self.old).printed.rows
            (row_text (living D.width (λ _. heights) C.color self.old).printed (map X.text cells.now) false) buf.old buf.new result }
        ensures misfit { (row : ℕ) → result ≡ Err (StreamFault.Row row) → self.new ≡ self.old }
        ensures memory { result ≡ Err StreamFault.Memory → (living D.width D.height C.color self.new).is_lost ≡ true }
        ensures lost { (living D.width D.height C.color self.old).is_lost ≡ true → (result ≡ Err StreamFault.Memory) × (buf.new ≡ buf.old) }
    {
        if self.is_lost {
            return Err(StreamFault::Memory);
        }
        let row = self.progress.rows;
        let sizes = RowSizes {
            widths: self.frame.sheet.dimension,
            row,
            height: 1,
            above: self.above,
        };
        let frame = self.frame.with_sizes(&sizes);
        let Some(kind) = self.progress.kind_if_lent(&frame, cells) else {
            return Err(StreamFault::Row(row));
        };
        self.is_lost = true;
        self.progress
            .push_single::<Brand, RowSizes<'_, D>, C, B, &X, Iter<'_, X>, W>(
                &frame,
                cells.iter(),
                kind,
                false,
                buf,
            )?;
        self.above += 1;
        self.is_lost = false;
        Ok(())
    }

    /// Ends the table after the rows so far, like [`LiveStream::finish`].
    ///
    /// `StreamFault::Open` means that a rectangle continues below them; then nothing is appended.
    /// If memory is refused, a beginning of the table's end is appended, or nothing if the stream
    /// was lost before.
    ///
    /// [`LiveStream::finish`]: crate::LiveStream::finish
    pub fn finish<W: Allocator>(self, buf: &mut String<W>) -> Result<(), StreamFault>
        ensures ends { (heights : ℕ → ℕ) → CountsLines (living D.width (λ _. heights) C.color self.entry).printed
            → (living D.width (λ _. heights) C.color self.entry).is_lost ≡ false
            → AppendsEnd (living D.width (λ _. heights) C.color self.entry).printed buf.old buf.new result }
        ensures lost { (living D.width D.height C.color self.entry).is_lost ≡ true → (result ≡ Err StreamFault.Memory) × (buf.new ≡ buf.old) }
        ensures empty { (living D.width D.height C.color self.entry).is_lost ≡ false → (living D.width D.height C.color self.entry).printed.rows ≡ 0 → IsOk result × (buf.new ≡ buf.old) }
    {
        let SizedStream {
            frame,
            mut progress,
            above,
            is_lost,
        } = self;
        if is_lost {
            return Err(StreamFault::Memory);
        }
        let sizes = RowSizes {
            widths: frame.sheet.dimension,
            row: progress.rows,
            height: 0,
            above,
        };
        let frame = frame.with_sizes(&sizes);
        progress.close::<Brand, RowSizes<'_, D>, C, B, W>(&frame, buf)
    }
}

impl<'a, D: Dimension, C: Colors, B: Allocator> Frame<'a, D, C, B> {
    ghost use Rattle.pg_picture.specs.Grids.{bare_table};

    fn with_sizes<'s, E: Dimension>(&'s self, sizes: &'s E) -> Frame<'s, E, C, B>
        ensures table { bare_table E.width E.height C.color result.sheet ≡ record (bare_table D.width D.height C.color self.now.sheet) { width = E.width sizes.now; height = E.height sizes.now } }
        ensures hint { result.hint ≡ self.now.hint }
        ensures width { result.sheet.width ≡ self.now.sheet.width }
        ensures height { result.sheet.height ≡ self.now.sheet.height }
    {
        Frame {
            sheet: self.sheet.with_dimension(sizes),
            hint: self.hint,
        }
    }
}
