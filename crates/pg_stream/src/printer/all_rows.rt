//! All rows of a table, one after the other.

ghost use Rattle.std.specs.Prelude.{◌≡◌, ◌∷◌, List};
ghost use Rattle.std.specs.Iterator.{IsFinite};
ghost use Rattle.pg_layout.specs.Records.{Gives};
ghost use Rattle.pg_layout.specs.Text.{Text};
ghost use Rattle.pg_picture.specs.Appending.{Appends};
ghost use Rattle.pg_stream.specs.Conditions.{AreRowsFrom, RowsFit};
ghost use Rattle.pg_stream.specs.Printers.{printing};
ghost use Rattle.pg_stream.specs.Printing.{rows_text};

use crate::printer::RowPrinter;
use pg_layout::{Colors, Dimension};
use std::alloc::{AllocError, Allocator};
use std::convert::AsStr;
use std::marker::Brand;

impl<'a, S: AsStr + Drop, D: Dimension, C: Colors, B: Allocator, A: Allocator> RowPrinter<
    'a,
    S,
    D,
    C,
    B,
    A,
> {
    /// Prints a row and all rows after it, and ends the table: what `row` and `finish` append, one
    /// after another. A row is printed after the next one was requested, which shows whether it is
    /// the last.
    ///
    /// Preconditions: each row fits below those before it (`RowsFit`), and the iterators of the
    /// rows and of their cells can be run to their ends. [`RowStream::print_all`] tests each row,
    /// and [`RowStream::print_vec`] has no precondition. Equal separators between rows are drawn
    /// once and copied. Allocates only for the buffer.
    ///
    /// [`RowStream::print_all`]: crate::RowStream::print_all
    /// [`RowStream::print_vec`]: crate::RowStream::print_vec
    pub fn print_rows<Cells: Iterator<Item = S>, Rows: Iterator<Item = Cells>, W: Allocator>(
        self,
        first: Cells,
        rows: Rows,
        buf: &mut String<W>,
    ) -> Result<(), AllocError>
        requires rows { Rows.can_next rows × IsFinite (Rows.remaining rows) }
        requires given { (cells : List Text) × (texts : List (List Text))
            × AreRowsFrom (Gives (λ x y. S.text x ≡ y) Cells.can_next Cells.next_gives Cells.remaining) Rows.next_gives first rows cells texts
            × RowsFit (printing D.width D.height C.color self) (cells ∷ texts) }
        ensures { (cells : List Text) (texts : List (List Text))
            → AreRowsFrom (Gives (λ x y. S.text x ≡ y) Cells.can_next Cells.next_gives Cells.remaining) Rows.next_gives first rows cells texts
            → Appends buf.old buf.new result (rows_text (printing D.width D.height C.color self.entry) (cells ∷ texts)) }
    {
        let (frame, progress) = self.into_parts();
        progress.push_rows::<Brand, D, C, B, Cells, Rows, W>(&frame, first, rows, buf)
    }
}
