//! The end of a table none of whose rows was declared the last.

ghost use Rattle.std.specs.Prelude.{◌≡◌, ◌↔◌, ◌<◌, true, IfSome, IsOk, IsTrue};
ghost use Rattle.pg_picture.specs.Fits.{spans_fit};
ghost use Rattle.pg_stream.specs.Inside.{IsSoundAt};
ghost use Rattle.pg_picture.specs.Grids.{bare_table};
ghost use Rattle.pg_stream.specs.LiveStreams.{MayEnd, AppendsEnd};
ghost use Rattle.pg_stream.specs.Printers.{printing, now_of};

use crate::fault::StreamFault;
use crate::printer::{Frame, Progress, RowPrinter};
use pg_layout::{Colors, Dimension};
use pg_picture::TableMarker;
use pg_picture::fits::spans_fit;
use std::alloc::Allocator;
use std::convert::AsStr;
use std::marker::Brand;

impl<'a, S: AsStr + Drop, D: Dimension, C: Colors, B: Allocator, A: Allocator> RowPrinter<
    'a,
    S,
    D,
    C,
    B,
    A,
> {
    /// Ends the table after the rows so far, like [`RowPrinter::finish`], even if none of them was
    /// declared the last.
    ///
    /// `StreamFault::Open` means that a rectangle continues below them, or that more rows are
    /// known; then nothing is appended. If memory is refused, a beginning of the table's end is
    /// appended. If no row was printed, the buffer is unchanged.
    pub fn close<W: Allocator>(self, buf: &mut String<W>) -> Result<(), StreamFault>
        ensures ends { AppendsEnd (printing D.width D.height C.color self.entry) buf.old buf.new result }
        ensures empty { (printing D.width D.height C.color self.entry).rows ≡ 0 → IsOk result × (buf.new ≡ buf.old) }
    {
        let (frame, mut progress) = self.into_parts();
        progress.close::<Brand, D, C, B, W>(&frame, buf)
    }
}

impl<S: AsStr + Drop, A: Allocator> Progress<'_, S, A> {
    pub(crate) fn close<'f, T, D, C, B, W>(
        &mut self,
        frame: &'f Frame<'f, D, C, B>,
        buf: &mut String<W>,
    ) -> Result<(), StreamFault>
    where
        T: TableMarker,
        D: Dimension,
        C: Colors,
        B: Allocator,
        W: Allocator,
        requires is { bare_table D.width D.height C.color frame.now.sheet ≡ T.table }
        requires sound { IsSoundAt T.table frame.now self.old }
        ensures ends { AppendsEnd (now_of T.table frame.now.hint self.old) buf.old buf.new result }
        ensures empty { self.old.rows ≡ 0 → IsOk result × (buf.new ≡ buf.old) }
    {
        if self.rows == 0 {
            return Ok(());
        }
        if !self.may_end(frame) {
            return Err(StreamFault::Open);
        }
        self.is_ended = true;
        Ok(self.push_end::<T, D, C, B, W>(frame, buf)?)
    }

    fn may_end<D, C, B: Allocator>(&self, frame: &Frame<'_, D, C, B>) -> bool
        requires { 0 < self.now.rows }
        ensures { IsTrue result ↔ IfSome frame.now.hint (λ rows. self.now.rows ≡ rows) × (spans_fit frame.now.sheet.config.now.spans self.now.rows frame.now.sheet.columns ≡ true) }
    {
        let are_all = match frame.hint {
            Some(rows) => self.rows == rows,
            None => true,
        };
        are_all && spans_fit(frame.sheet.config, self.rows, frame.sheet.columns)
    }
}
