//! A table that is printed row by row.

ghost use Rattle.std.specs.Prelude.{◌≡◌, ◌⊎◌, ◌<◌, ◌^◌, ◌-◌, List, true, None, IfOk, IfSome, IsOk, option_map};
ghost use Rattle.pg_picture.specs.Fits.{body_height};
ghost use Rattle.pg_picture.specs.Sizes.{sized};
ghost use Rattle.std.specs.Iterator.{IsFinite};
ghost use Rattle.pg_layout.specs.Records.{AlwaysGives};
ghost use Rattle.pg_layout.specs.Text.{Text};
ghost use Rattle.pg_picture.specs.Appending.{Appends};
ghost use Rattle.pg_picture.specs.Grids.{bare_table};
ghost use Rattle.pg_stream.specs.Conditions.{PrinterFits, RowFits};
ghost use Rattle.pg_stream.specs.Inside.{IsSoundAt};
ghost use Rattle.pg_stream.specs.Placed.{slots_of};
ghost use Rattle.pg_stream.specs.Printers.{printer_of, printing};
ghost use Rattle.pg_stream.specs.Printing.{printer, row_text, finish_text, after_row};

use crate::draw::OpenCells;
use crate::printer::{Frame, Progress};
use pg_config::SpannedConfig;
use pg_layout::{Colors, Dimension};
use pg_picture::fits::{body_height, full_width};
use pg_picture::{SeparatorKeeper, Sheet, TextKind};
use std::alloc::{AllocError, Allocator, Global};
use std::convert::AsStr;
use std::marker::{Brand, Model};

/// Prints a table row by row, and keeps the cells that continue below the last printed row.
///
/// Each call takes the printer and returns it. After an error there is no printer, and the buffer
/// has gained a beginning of what the call appends.
///
/// Three rows of heights 1, 0 and 1 between ASCII borders. The first cell, `x`, spans all of them,
/// beside the cells `a`, `b` and `c`:
///
/// ```text
/// +-+-+    row 0: it appends two lines, and one of `x` is drawn
/// |x|a|
/// + +-+    row 1: its separator alone, and two of `x` are drawn
/// + +-+    row 2: two lines, and no cell is open
/// | |c|
/// +-+-+    the end
/// ```
pub struct RowPrinter<
    'a,
    S: AsStr,
    D: Dimension,
    C: Colors,
    B: Allocator = Global,
    A: Allocator = Global,
> {
    pub(crate) frame: Frame<'a, D, C, B>,
    pub(crate) progress: Progress<'a, S, A>,
}

// Written out, so that a caller's proof has one call when it drops a printer.
impl<'a, S: AsStr + Drop, D: Dimension, C: Colors, B: Allocator, A: Allocator> Drop
    for RowPrinter<'a, S, D, C, B, A> {
    fn drop(self) {
        let RowPrinter { frame, progress } = self;
        drop((frame, progress));
    }
}

impl<'a, S: AsStr, D: Dimension, C: Colors, B: Allocator, A: Allocator> Model
    for RowPrinter<'a, S, D, C, B, A> {
    ghost use Rattle.pg_stream.specs.Inside.{IsSoundAt};
    ghost use Rattle.pg_stream.specs.Printers.{Printer, printer_of};
    ghost use Rattle.pg_picture.specs.Grids.{bare_table};

    ghost Value = { Printer D C };

    ghost view = { λ p. printer_of p.frame p.progress };

    ghost invariant = { λ p. IsSoundAt (bare_table D.width D.height C.color p.frame.sheet) p.frame p.progress };
}

impl<'a, S: AsStr + Drop, D: Dimension, C: Colors, B: Allocator, A: Allocator> RowPrinter<
    'a,
    S,
    D,
    C,
    B,
    A,
> {
    /// A printer of a table of so many columns, before its first row. `hint` is the number of its
    /// rows, if that is known: then side margins with an offset from the end have it.
    ///
    /// Preconditions: the table has a column; its rectangles have a size, end inside the columns
    /// and share no place (`pg_picture::fits::spans_fit_columns`); its total width is below 2^64;
    /// and if the number of rows is known, its rectangles and totals fit it
    /// (`pg_picture::fits::spans_fit`, `pg_picture::fits::totals_fit`). [`crate::printer_fits`]
    /// tests them, and [`RowPrinter::try_new`] needs no test before it. The only error is out of
    /// memory.
    pub fn new(
        alloc: A,
        config: &'a SpannedConfig<B>,
        dimension: &'a D,
        colors: &'a C,
        columns: usize,
        hint: Option<usize>,
    ) -> Result<RowPrinter<'a, S, D, C, B, A>, AllocError>
        requires { PrinterFits (printer config.now columns (D.width dimension.now) (D.height dimension.now) (C.color colors.now) hint) }
        ensures made { IfOk result (λ p. printing D.width D.height C.color p ≡ printer config.now columns (D.width dimension.now) (D.height dimension.now) (C.color colors.now) hint) }
        ensures empty { IfOk result (λ p. (printing D.width D.height C.color p).rows ≡ 0) }
    {
        let width = full_width(config, dimension, columns).unwrap();
        let height = height_of_body(config, dimension, hint);
        let sheet = Sheet::new(config, dimension, colors, columns, width, height);
        let cells = OpenCells::new(alloc, columns)?;
        Ok(RowPrinter {
            frame: Frame { sheet, hint },
            progress: Progress {
                cells,
                kept: SeparatorKeeper::new(&mut []),
                rows: 0,
                lines: 0,
                is_ended: false,
            },
        })
    }

    #[inline(always)]
    pub(crate) fn into_parts(self) -> (Frame<'a, D, C, B>, Progress<'a, S, A>)
        ensures is { printer_of result.0 result.1 ≡ self.entry }
        ensures sound { IsSoundAt (bare_table D.width D.height C.color result.0.sheet) result.0 result.1 }
    {
        let RowPrinter { frame, progress } = self;
        (frame, progress)
    }

    /// How many rows are printed.
    pub fn rows(&self) -> usize
        ensures { result ≡ (printing D.width D.height C.color self.now).rows }
    {
        self.progress.rows
    }

    /// How many lines of the body are printed, without margins.
    pub fn lines(&self) -> usize
        ensures { result ≡ (printing D.width D.height C.color self.now).lines }
    {
        self.progress.lines
    }

    /// Whether the last row is printed.
    pub fn is_ended(&self) -> bool
        ensures { result ≡ (printing D.width D.height C.color self.now).is_ended }
    {
        self.progress.is_ended
    }

    /// The cells that continue below the printed rows.
    pub fn open_cells(&self) -> &OpenCells<S, A>
        ensures { slots_of result.now ≡ (printing D.width D.height C.color self.now).slots }
    {
        &self.progress.cells
    }

    /// Prints the next row: the top margin above the first row, the separator above this one, if it
    /// exists, and its lines, each after a line feed unless it is the picture's first line.
    ///
    /// `cells` gives the cells of the row, one for each column; those that cells from above or left
    /// cover are dropped. `is_last` is whether it is the last row. The lines are those of the table
    /// with as many rows as are known: at a last row those so far; else those of the hint; else
    /// those that the open cells need, and at least one more row.
    ///
    /// Precondition: the row fits (`RowFits`, which [`RowPrinter::fits`] tests). It has as many
    /// cells as there are columns; there is no last row before it, and fewer than `usize::MAX - 1`
    /// rows; if the number of rows is known, fewer than that are before it, and `is_last` holds
    /// exactly at the last; at a last row the rectangles fit the rows so far
    /// (`pg_picture::fits::spans_fit`); each rectangle that begins in the row has sizes below 2^64
    /// (`rect_width`, `rect_height`) and room for its text (`cell_fits`); and the lines so far,
    /// with those of this row, are below 2^64.
    ///
    /// Allocates only for the buffer.
    #[inline(always)]
    pub fn row<I: Iterator<Item = S>, W: Allocator>(
        self,
        cells: I,
        is_last: bool,
        buf: &mut String<W>,
    ) -> Result<RowPrinter<'a, S, D, C, B, A>, AllocError>
        requires can { I.can_next cells × IsFinite (I.remaining cells) }
        requires fits { (texts : List Text) × AlwaysGives (λ x y. S.text x ≡ y) I.next_gives cells texts × RowFits (printing D.width D.height C.color self) texts is_last }
        ensures appends { (texts : List Text) → AlwaysGives (λ x y. S.text x ≡ y) I.next_gives cells texts
            → Appends buf.old buf.new result (row_text (printing D.width D.height C.color self.entry) texts is_last) }
        ensures after { (texts : List Text) → AlwaysGives (λ x y. S.text x ≡ y) I.next_gives cells texts
            → IfOk result (λ p. printing D.width D.height C.color p ≡ after_row (printing D.width D.height C.color self.entry) texts is_last) }
        ensures ended { IfOk result (λ p. (printing D.width D.height C.color p).is_ended ≡ is_last) }
    {
        let RowPrinter {
            frame,
            mut progress,
        } = self;
        progress.push_row::<Brand, D, C, B, I, W>(&frame, cells, TextKind::Any, is_last, buf)?;
        Ok(RowPrinter { frame, progress })
    }

    /// Ends the table: the separator below the last row, if it exists, and the bottom margin, each
    /// line after a line feed unless it is the picture's first line. If no row was printed, the
    /// buffer is unchanged.
    ///
    /// Precondition: no row was printed, or the last one was. [`RowPrinter::rows`] and
    /// [`RowPrinter::is_ended`] test it; [`RowStream::finish`] has no precondition.
    ///
    /// Allocates only for the buffer.
    ///
    /// [`RowStream::finish`]: crate::RowStream::finish
    pub fn finish<W: Allocator>(self, buf: &mut String<W>) -> Result<(), AllocError>
        requires { ((printing D.width D.height C.color self).rows ≡ 0) ⊎ ((printing D.width D.height C.color self).is_ended ≡ true) }
        ensures appends { Appends buf.old buf.new result (finish_text (printing D.width D.height C.color self.entry)) }
        ensures empty { (printing D.width D.height C.color self.entry).rows ≡ 0 → IsOk result × (buf.new ≡ buf.old) }
    {
        let RowPrinter { frame, progress } = self;
        progress.push_end::<Brand, D, C, B, W>(&frame, buf)
    }
}

fn height_of_body<B: Allocator, D: Dimension>(
    config: &SpannedConfig<B>,
    dimension: &D,
    rows: Option<usize>,
) -> Option<usize>
    requires { IfSome rows (λ m. (m < 2 ^ 64 - 1) × (body_height (sized config.now (D.width dimension.now) (D.height dimension.now) m 0) < 2 ^ 64)) }
    ensures { result ≡ option_map (λ m. body_height (sized config.now (D.width dimension.now) (D.height dimension.now) m 0)) rows }
{
    match rows {
        Some(rows) => body_height(config, dimension, rows),
        None => None,
    }
}
