//! A table whose rows come one at a time, and whose last row isn't known before its end.

ghost use Rattle.std.specs.Prelude.{◌≡◌, ◌≢◌, ◌++◌, ◌↔◌, ℕ, [], List, false, map, Some, None, IfOk, IsOk, OnOk, Result, Err, string_bytes};
ghost use Rattle.std.specs.Iterator.{IsFinite};
ghost use Rattle.std.specs.Iterator.Runs.{SomeRun};
ghost use Rattle.std.specs.Result.{result_map_both};
ghost use Rattle.pg_layout.specs.Records.{AlwaysGives, Becomes};
ghost use Rattle.pg_layout.specs.Text.{Text};
ghost use Rattle.pg_picture.specs.Appending.{AppendsOrNothing};
ghost use Rattle.pg_picture.specs.declared.fits.Misfit.{Misfit};
ghost use Rattle.pg_stream.specs.Conditions.{PrinterFits, printer_misfit};
ghost use Rattle.pg_stream.specs.Printing.{printer, rows_text};
ghost use Rattle.pg_stream.specs.Streams.{streaming, held_text, HeldFits, after_push, rows_left, AppendsIf, PrintsRows, PrintsResults, PrintsRun, PrintsResultsRun, IsLeftAt};
ghost use Rattle.pg_stream.specs.declared.fault.StreamFault.{StreamFault};

use crate::fault::{RowsFault, StreamFault};
use crate::printer::{Frame, RowPrinter};
use crate::stream::HeldRows;
use pg_config::SpannedConfig;
use pg_layout::{Colors, Dimension};
use std::alloc::{AllocError, Allocator, Global};
use std::convert::AsStr;
use std::iter::IntoIterator;
use std::marker::{Brand, Model};

/// Prints a table whose rows come one at a time: it holds each row until the next one comes, which
/// shows that it isn't the last.
///
/// None of its calls requires that a row fits. A row that doesn't fit below those above it is named
/// by its number (`StreamFault::Row`); the rows above it are complete, and nothing of it is
/// appended. It is found when the row is printed, so when the next one is pushed, or at the end.
///
/// Each call takes the stream, and `push` returns it; after a fault there is none.
///
/// ```rust
/// let mut stream = RowStream::new(alloc, &config, &dimension, &NoColors, 2, None)?;
/// for line in reader.lines(alloc) {
///     stream = stream.push(cells_of(alloc, line?)?, &mut buf)?;
/// }
/// stream.finish(&mut buf)?;
/// ```
pub struct RowStream<
    'a,
    S: AsStr,
    D: Dimension,
    C: Colors,
    B: Allocator = Global,
    A: Allocator = Global,
    V: Allocator = Global,
> {
    frame: Frame<'a, D, C, B>,
    rows: HeldRows<'a, S, A, V>,
}

// Written out, like that of a `LiveStream`.
impl<'a, S: AsStr + Drop, D: Dimension, C: Colors, B: Allocator, A: Allocator, V: Allocator> Drop
    for RowStream<'a, S, D, C, B, A, V> {
    fn drop(self) {
        let RowStream { frame, rows } = self;
        drop((frame, rows));
    }
}

impl<'a, S: AsStr, D: Dimension, C: Colors, B: Allocator, A: Allocator, V: Allocator> Model
    for RowStream<'a, S, D, C, B, A, V> {
    ghost use Rattle.std.specs.Prelude.{map, option_map};
    ghost use Rattle.pg_stream.specs.Inside.{AreSoundAt};
    ghost use Rattle.pg_picture.specs.Grids.{bare_table};
    ghost use Rattle.pg_stream.specs.Printers.{printer_of};
    ghost use Rattle.pg_stream.specs.Streams.{Stream};

    ghost Value = { Stream D C };

    ghost view = { λ s. record { printer = printer_of s.frame s.rows.progress; held = option_map (λ row. map S.text row.items) s.rows.held } };

    ghost invariant = { λ s. AreSoundAt (bare_table D.width D.height C.color s.frame.sheet) s.frame s.rows };
}

fn collect_cells<S: AsStr + Drop, R: IntoIterator<Item = S>, V: Allocator>(
    alloc: V,
    row: R,
) -> Result<Vec<S, V>, AllocError>
where
    R::IntoIter: Drop,
    requires may { (cells : _) → R.into_iter_gives row cells → R.IntoIter.can_next cells × IsFinite (R.IntoIter.remaining cells) }
    ensures { (texts : List Text) → Becomes R.into_iter_gives (AlwaysGives (λ x y. S.text x ≡ y) R.IntoIter.next_gives) row texts → IfOk result (λ cells. map S.text cells.items ≡ texts) }
{
    let mut cells = Vec::new(alloc);
    for cell in row {
        cells.push(cell)?;
    }
    Ok(cells)
}

impl<
    'a,
    S: AsStr + Drop,
    D: Dimension,
    C: Colors,
    B: Allocator,
    A: Allocator,
    V: Allocator,
> RowStream<'a, S, D, C, B, A, V> {
    /// A stream of rows of so many columns, before its first row. `hint` is the number of rows, if
    /// that is known: then side margins with an offset from the end have it, and another number of
    /// rows doesn't fit.
    ///
    /// `StreamFault::Misfit` says which of these parts don't fit ([`printer_fits`]).
    ///
    /// [`printer_fits`]: crate::printer_fits
    pub fn new(
        alloc: A,
        config: &'a SpannedConfig<B>,
        dimension: &'a D,
        colors: &'a C,
        columns: usize,
        hint: Option<usize>,
    ) -> Result<RowStream<'a, S, D, C, B, A, V>, StreamFault>
        ensures made { IfOk result (λ s. (streaming D.width D.height C.color s).before ≡ printer config.now columns (D.width dimension.now) (D.height dimension.now) (C.color colors.now) hint) }
        ensures empty { IfOk result (λ s. (streaming D.width D.height C.color s).held ≡ None) }
        ensures whole { PrinterFits (printer config.now columns (D.width dimension.now) (D.height dimension.now) (C.color colors.now) hint)
            → (fault : StreamFault) → result ≡ Err fault → fault ≡ StreamFault.Memory }
        ensures misfit { (misfit : Misfit)
            → (result ≡ Err (StreamFault.Misfit misfit)) ↔ (printer_misfit (printer config.now columns (D.width dimension.now) (D.height dimension.now) (C.color colors.now) hint) ≡ Some misfit) }
    {
        match RowPrinter::try_new(alloc, config, dimension, colors, columns, hint) {
            Ok(printer) => {
                let (frame, progress) = printer.into_parts();
                Ok(RowStream {
                    frame,
                    rows: HeldRows {
                        progress,
                        held: None,
                    },
                })
            }
            Err(fault) => Err(fault),
        }
    }

    /// Holds a row, and prints the one that was held until now. At the first row there was none,
    /// and the buffer is unchanged.
    ///
    /// `StreamFault::Row` names the row that was held, if that doesn't fit; then nothing is
    /// appended. If memory is refused, a beginning of its text is appended.
    #[inline(always)]
    pub fn push<W: Allocator>(
        self,
        cells: Vec<S, V>,
        buf: &mut String<W>,
    ) -> Result<RowStream<'a, S, D, C, B, A, V>, StreamFault>
        ensures appends { OnOk result (string_bytes buf.new ≡ string_bytes buf.old ++ held_text (streaming D.width D.height C.color self.entry)) }
        ensures after { IfOk result (λ s. streaming D.width D.height C.color s ≡ after_push (streaming D.width D.height C.color self.entry) (map S.text cells.items)) }
        ensures prints { AppendsIf (HeldFits (streaming D.width D.height C.color self.entry))
            (streaming D.width D.height C.color self.entry).before.rows
            (held_text (streaming D.width D.height C.color self.entry)) buf.old buf.new result }
        ensures first { (streaming D.width D.height C.color self.entry).held ≡ None → IsOk result × (buf.new ≡ buf.old) }
    {
        let RowStream { frame, mut rows } = self;
        rows.push::<Brand, D, C, B, W>(&frame, cells, buf)?;
        Ok(RowStream { frame, rows })
    }

    /// Holds a row whose cells anything gives that can be iterated over, such as an array or the
    /// parts of a line, and prints the one that was held until now.
    ///
    /// The cells are put in a vector of this allocator. If memory for that is refused, nothing is
    /// appended, and the row that was held isn't tested. Otherwise it is like [`RowStream::push`].
    ///
    /// Precondition: the iterator of the cells can be run to its end. Those over arrays, vectors
    /// and parts of a text can. [`RowStream::push`] has no precondition.
    ///
    /// ```rust
    /// stream = stream.push_from(alloc, line.split(','), &mut buf)?;
    /// ```
    pub fn push_from<R: IntoIterator<Item = S>, W: Allocator>(
        self,
        alloc: V,
        row: R,
        buf: &mut String<W>,
    ) -> Result<RowStream<'a, S, D, C, B, A, V>, StreamFault>
    where
        R::IntoIter: Drop,
        requires may { (cells : _) → R.into_iter_gives row cells → R.IntoIter.can_next cells × IsFinite (R.IntoIter.remaining cells) }
        ensures fits { OnOk result (HeldFits (streaming D.width D.height C.color self.entry)) }
        ensures appends { OnOk result (string_bytes buf.new ≡ string_bytes buf.old ++ held_text (streaming D.width D.height C.color self.entry)) }
        ensures after { (texts : List Text) → Becomes R.into_iter_gives (AlwaysGives (λ x y. S.text x ≡ y) R.IntoIter.next_gives) row texts
            → IfOk result (λ s. streaming D.width D.height C.color s ≡ after_push (streaming D.width D.height C.color self.entry) texts) }
        ensures misfit { (row : ℕ) → result ≡ Err (StreamFault.Row row)
            → (row ≡ (streaming D.width D.height C.color self.entry).before.rows) × (buf.new ≡ buf.old) × ¬ (HeldFits (streaming D.width D.height C.color self.entry)) }
        ensures memory { result ≡ Err StreamFault.Memory → AppendsOrNothing buf.old buf.new result (held_text (streaming D.width D.height C.color self.entry)) }
        ensures untouched { ¬ (HeldFits (streaming D.width D.height C.color self.entry)) → buf.new ≡ buf.old }
        ensures first { (streaming D.width D.height C.color self.entry).held ≡ None → buf.new ≡ buf.old }
        ensures told { (misfit : Misfit) → result ≢ Err (StreamFault.Misfit misfit) }
        ensures goes_on { result ≢ Err StreamFault.Open }
    {
        let cells = collect_cells(alloc, row)?;
        self.push(cells, buf)
    }

    /// Prints the held row as the last one, and ends the table. If no row was pushed, the buffer is
    /// unchanged.
    ///
    /// `StreamFault::Row` names the held row, if it doesn't fit as the last one; then nothing is
    /// appended. If memory is refused, a beginning of its text and the table's end is appended.
    pub fn finish<W: Allocator>(self, buf: &mut String<W>) -> Result<(), StreamFault>
        ensures appends { OnOk result (string_bytes buf.new ≡ string_bytes buf.old
            ++ rows_text (streaming D.width D.height C.color self.entry).before (rows_left (streaming D.width D.height C.color self.entry) [])) }
        ensures prints { PrintsRows (streaming D.width D.height C.color self.entry).before (rows_left (streaming D.width D.height C.color self.entry) []) buf.old buf.new result }
        ensures empty { (streaming D.width D.height C.color self.entry).held ≡ None → IsOk result × (buf.new ≡ buf.old) }
    {
        let RowStream { frame, rows } = self;
        rows.finish::<Brand, D, C, B, W>(&frame, buf)
    }

    /// Pushes all rows that an iterator gives, and ends the table.
    ///
    /// It stops at the first row that doesn't fit: the rows above it are complete, and it is named
    /// by its number (`StreamFault::Row`). If memory is refused, a beginning of their text is
    /// appended, or of that of all rows if all fit. That holds whatever the iterator gives, even if
    /// it isn't known beforehand. Without rows the buffer is unchanged.
    ///
    /// Precondition: the iterator can be run to its end. Those over arrays and vectors can.
    /// [`RowStream::print_vec`] has no precondition.
    ///
    /// ```rust
    /// stream.print_all(rows.into_iter().filter(|row| row.len() == 2), &mut buf)?;
    /// ```
    pub fn print_all<I: Iterator<Item = Vec<S, V>> + Drop, W: Allocator>(
        self,
        rows: I,
        buf: &mut String<W>,
    ) -> Result<(), StreamFault>
        requires can { I.can_next rows }
        requires ends { IsFinite (I.remaining rows) }
        ensures prints { (texts : List (List Text)) → AlwaysGives (λ x y. map S.text x.items ≡ y) I.next_gives rows texts
            → PrintsRows (streaming D.width D.height C.color self.entry).before (rows_left (streaming D.width D.height C.color self.entry) texts) buf.old buf.new result }
        ensures runs { SomeRun I.next_gives rows
            (λ run. PrintsRun run.whole (streaming D.width D.height C.color self.entry).before
            (rows_left (streaming D.width D.height C.color self.entry) (map (λ row. map S.text row.items) run.items)) buf.old buf.new result) }
        ensures empty { (streaming D.width D.height C.color self.entry).held ≡ None → AlwaysGives (λ x y. map S.text x.items ≡ y) I.next_gives rows [] → IsOk result × (buf.new ≡ buf.old) }
    {
        let RowStream {
            frame,
            rows: pushed,
        } = self;
        pushed.push_all::<Brand, D, C, B, I, W>(&frame, rows, buf)
    }

    /// Pushes all rows of a vector, and ends the table, like [`RowStream::print_all`].
    pub fn print_vec<U: Allocator, W: Allocator>(
        self,
        rows: Vec<Vec<S, V>, U>,
        buf: &mut String<W>,
    ) -> Result<(), StreamFault>
        ensures appends { OnOk result (string_bytes buf.new ≡ string_bytes buf.old
            ++ rows_text (streaming D.width D.height C.color self.entry).before (rows_left (streaming D.width D.height C.color self.entry) (map (λ row. map S.text row.items) rows.items))) }
        ensures prints { PrintsRows (streaming D.width D.height C.color self.entry).before
            (rows_left (streaming D.width D.height C.color self.entry) (map (λ row. map S.text row.items) rows.items)) buf.old buf.new result }
        ensures empty { (streaming D.width D.height C.color self.entry).held ≡ None → rows.items ≡ [] → IsOk result × (buf.new ≡ buf.old) }
    {
        self.print_all(rows.into_iter(), buf)
    }

    /// Pushes the rows before the first error that an iterator gives, and ends the table if there
    /// is none. It stops at a row that doesn't fit, like [`RowStream::print_all`]
    /// (`RowsFault::Stream`).
    ///
    /// At an error it returns `RowsFault::Source`, and takes no item behind it. The rows before it are
    /// complete, except for the latest: it isn't known whether that is the last, so it is neither
    /// tested nor printed.
    ///
    /// Precondition: the iterator can be run to its end. Those over arrays, vectors and the lines
    /// of a reader can. [`RowStream::print_vec`] takes rows that are no errors, and has no
    /// precondition.
    ///
    /// ```rust
    /// let mut rows = reader.lines(alloc).map(|line| cells_of(alloc, line));
    /// stream.print_results(&mut rows, &mut buf)?;
    /// ```
    pub fn print_results<E: Drop, I: Iterator<Item = Result<Vec<S, V>, E>>, W: Allocator>(
        self,
        rows: &mut I,
        buf: &mut String<W>,
    ) -> Result<(), RowsFault<E>>
        requires can { I.can_next rows.old }
        requires ends { IsFinite (I.remaining rows.old) }
        ensures prints { (items : List (Result (List Text) E))
            → AlwaysGives (λ x y. result_map_both (λ row. map S.text row.items) (λ error. error) x ≡ y) I.next_gives rows.old items
            → PrintsResults (streaming D.width D.height C.color self.entry) items buf.old buf.new result }
        ensures runs { SomeRun I.next_gives rows.old
            (λ run. PrintsResultsRun run.whole (streaming D.width D.height C.color self.entry)
            (map (λ item. result_map_both (λ row. map S.text row.items) (λ error. error) item) run.items) buf.old buf.new result
            × IsLeftAt I.next_gives rows.old run.items run.whole rows.new) }
        ensures empty { (streaming D.width D.height C.color self.entry).held ≡ None
            → AlwaysGives (λ x y. result_map_both (λ row. map S.text row.items) (λ error. error) x ≡ y) I.next_gives rows.old []
            → IsOk result × (buf.new ≡ buf.old) }
    {
        let RowStream {
            frame,
            rows: pushed,
        } = self;
        pushed.push_results::<Brand, D, C, B, E, I, W>(&frame, rows, buf)
    }
}
