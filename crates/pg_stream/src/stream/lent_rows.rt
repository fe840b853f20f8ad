//! Rows of one line in a table without spans: none of their cells continues below, so their texts
//! can be lent.

ghost use Rattle.std.specs.Prelude.{◌≡◌, ◌↔◌, ◌++◌, ℕ, List, true, false, map, IfSome, IsSome, OnOk, Err, string_bytes};
ghost use Rattle.std.specs.Iterator.{IsFinite};
ghost use Rattle.pg_layout.specs.Records.{AlwaysGives};
ghost use Rattle.pg_layout.specs.Text.{Text};
ghost use Rattle.pg_picture.specs.Appending.{Appends};
ghost use Rattle.pg_stream.specs.Conditions.{RowFits};
ghost use Rattle.pg_stream.specs.Inside.{IsSoundAt, AreOfKind, IsSingle};
ghost use Rattle.pg_picture.specs.Grids.{bare_table};
ghost use Rattle.pg_stream.specs.LiveStreams.{living, LentFits};
ghost use Rattle.pg_stream.specs.Printers.{now_of};
ghost use Rattle.pg_stream.specs.Printing.{row_text, after_row};
ghost use Rattle.pg_stream.specs.Streams.{AppendsIf};
ghost use Rattle.pg_stream.specs.declared.fault.StreamFault.{StreamFault};

use crate::draw::StreamedTable;
use crate::fault::StreamFault;
use crate::printer::{Frame, Progress};
use crate::stream::LiveStream;
use pg_layout::{Colors, Dimension};
use pg_picture::{Pen, TableMarker, TextKind};
use std::alloc::{AllocError, Allocator};
use std::convert::AsStr;
use std::marker::{Brand, PhantomData};
use std::slice::Iter;

impl<'a, S: AsStr + Drop, D: Dimension, C: Colors, B: Allocator, A: Allocator> LiveStream<
    'a,
    S,
    D,
    C,
    B,
    A,
> {
    /// Prints a row whose cells are lent for this call: they need no vector, and needn't live as
    /// long as the stream.
    ///
    /// A row can be lent if no cell of the table spans others, and the row has one line. For any
    /// other row the error is also `StreamFault::Row` with its number. Otherwise it is like
    /// [`LiveStream::push`].
    #[inline(always)]
    pub fn push_lent<X: AsStr, W: Allocator>(
        &mut self,
        cells: &[X],
        buf: &mut String<W>,
    ) -> Result<(), StreamFault>
        ensures appends { OnOk result (string_bytes buf.new ≡ string_bytes buf.old ++ row_text (living D.width D.height C.color self.old).printed (map X.text cells.now) false) }
        ensures after { OnOk result (living D.width D.height C.color self.new
            ≡ record { printed = after_row (living D.width D.height C.color self.old).printed (map X.text cells.now) false; is_lost = false }) }
        ensures prints { (living D.width D.height C.color self.old).is_lost ≡ false
            → AppendsIf (LentFits (living D.width D.height C.color self.old).printed (map X.text cells.now)) (living D.width D.height C.color self.old).printed.rows
            (row_text (living D.width D.height C.color self.old).printed (map X.text cells.now) false) buf.old buf.new result }
        ensures misfit { (row : ℕ) → result ≡ Err (StreamFault.Row row) → self.new ≡ self.old }
        ensures memory { result ≡ Err StreamFault.Memory → (living D.width D.height C.color self.new).is_lost ≡ true }
        ensures lost { (living D.width D.height C.color self.old).is_lost ≡ true → (result ≡ Err StreamFault.Memory) × (buf.new ≡ buf.old) }
    {
        if self.is_lost {
            return Err(StreamFault::Memory);
        }
        let Some(kind) = self.progress.kind_if_lent(&self.frame, cells) else {
            return Err(StreamFault::Row(self.progress.rows));
        };
        self.is_lost = true;
        self.progress
            .push_single::<Brand, D, C, B, &X, Iter<'_, X>, W>(
                &self.frame,
                cells.iter(),
                kind,
                false,
                buf,
            )?;
        self.is_lost = false;
        Ok(())
    }
}

impl<S: AsStr + Drop, A: Allocator> Progress<'_, S, A> {
    // The cells of such a row are never open, so they needn't be of the type of other rows' cells.
    #[inline(always)]
    pub(crate) fn push_single<'f, T, D, C, B, X, I, W>(
        &mut self,
        frame: &'f Frame<'f, D, C, B>,
        cells: I,
        kind: TextKind,
        is_last: bool,
        buf: &mut String<W>,
    ) -> Result<(), AllocError>
    where
        T: TableMarker,
        D: Dimension,
        C: Colors,
        B: Allocator,
        X: AsStr + Drop,
        I: Iterator<Item = X>,
        W: Allocator,
        requires is { bare_table D.width D.height C.color frame.now.sheet ≡ T.table }
        requires single { IsSingle T.table self.old.rows }
        requires can { I.can_next cells × IsFinite (I.remaining cells) }
        requires sound { IsSoundAt T.table frame.now self.old }
        requires fits { (texts : List Text) × AlwaysGives (λ x y. X.text x ≡ y) I.next_gives cells texts
            × RowFits (now_of T.table frame.now.hint self.old) texts is_last × AreOfKind kind T.table.columns texts }
        ensures sound { OnOk result (IsSoundAt T.table frame.now self.new) }
        ensures appends { (texts : List Text) → AlwaysGives (λ x y. X.text x ≡ y) I.next_gives cells texts
            → Appends buf.old buf.new result (row_text (now_of T.table frame.now.hint self.old) texts is_last) }
        ensures after { (texts : List Text) → AlwaysGives (λ x y. X.text x ≡ y) I.next_gives cells texts
            → OnOk result (now_of T.table frame.now.hint self.new ≡ after_row (now_of T.table frame.now.hint self.old) texts is_last) }
    {
        let table: StreamedTable<'_, T, D, C, B> = StreamedTable {
            pen: Pen {
                sheet: &frame.sheet,
                is_colored: true,
                of: PhantomData,
            },
        };
        table.push_top(buf, self.rows)?;
        let next = table.push_above(&mut self.cells, &mut self.kept, buf, self.lines, self.rows)?;
        let height = table.pen.height_of(self.rows);
        let below = next + height;
        table.push_single_row(buf, next, self.rows, cells, kind)?;
        self.end_row(below, is_last);
        Ok(())
    }

    #[inline(always)]
    pub(crate) fn kind_if_lent<X, D, C, B>(
        &self,
        frame: &Frame<'_, D, C, B>,
        cells: &[X],
    ) -> Option<TextKind>
    where
        X: AsStr,
        D: Dimension,
        C: Colors,
        B: Allocator,
        requires sound { IsSoundAt (bare_table D.width D.height C.color frame.now.sheet) frame.now self.now }
        ensures fits { IsSome result ↔ LentFits (now_of (bare_table D.width D.height C.color frame.now.sheet) frame.now.hint self.now) (map X.text cells.now) }
        ensures kind { IfSome result (λ kind. AreOfKind kind frame.now.sheet.columns (map X.text cells.now)) }
    {
        if frame.is_single(self.rows) {
            return self.kind_if_fits(frame, cells, false);
        }
        None
    }
}
