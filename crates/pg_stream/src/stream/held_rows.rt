//! The rows of a stream: how far they are printed, and the latest one, which is held.

ghost use Rattle.std.specs.Prelude.{◌≡◌, [], List, None, Result, length, map, IsOk, OnOk};
ghost use Rattle.std.specs.Iterator.{IsFinite};
ghost use Rattle.std.specs.Iterator.Runs.{SomeRun};
ghost use Rattle.std.specs.Result.{result_map_both};
ghost use Rattle.pg_layout.specs.Records.{AlwaysGives};
ghost use Rattle.pg_layout.specs.Text.{Text};
ghost use Rattle.pg_stream.specs.Inside.{streamed, AreSoundAt};
ghost use Rattle.pg_picture.specs.Grids.{bare_table};
ghost use Rattle.pg_stream.specs.Streams.{held_text, HeldFits, after_push, rows_left, AppendsIf, PrintsRows, PrintsResults, PrintsRun, PrintsResultsRun, IsLeftAt};

use crate::fault::{RowsFault, StreamFault};
use crate::printer::{Frame, Progress};
use pg_layout::{Colors, Dimension};
use pg_picture::{SEPARATOR_ROOM, SeparatorKeeper, TableMarker};
use std::alloc::{Allocator, Global};
use std::convert::AsStr;

/// What a row changes of a stream: how far it has printed, and the row that is held until the next
/// one comes.
pub(crate) struct HeldRows<'k, S: AsStr, A: Allocator = Global, V: Allocator = Global> {
    pub(crate) progress: Progress<'k, S, A>,
    pub(crate) held: Option<Vec<S, V>>,
}

impl<'k, S: AsStr + Drop, A: Allocator, V: Allocator> Drop for HeldRows<'k, S, A, V> {
    fn drop(self) {
        let HeldRows { progress, held } = self;
        drop((progress, held));
    }
}

impl<S: AsStr + Drop, A: Allocator, V: Allocator> HeldRows<'_, S, A, V> {
    #[inline(always)]
    pub(crate) fn push<'f, T, D, C, B, W>(
        &mut self,
        frame: &'f Frame<'f, D, C, B>,
        cells: Vec<S, V>,
        buf: &mut String<W>,
    ) -> Result<(), StreamFault>
    where
        T: TableMarker,
        D: Dimension,
        C: Colors,
        B: Allocator,
        W: Allocator,
        requires is { bare_table D.width D.height C.color frame.now.sheet ≡ T.table }
        requires sound { AreSoundAt T.table frame.now self.old }
        ensures sound { OnOk result (AreSoundAt T.table frame.now self.new) }
        ensures prints { AppendsIf (HeldFits (streamed S.text T.table frame.now.hint self.old))
            (streamed S.text T.table frame.now.hint self.old).before.rows
            (held_text (streamed S.text T.table frame.now.hint self.old)) buf.old buf.new result }
        ensures after { OnOk result (streamed S.text T.table frame.now.hint self.new ≡ after_push (streamed S.text T.table frame.now.hint self.old) (map S.text cells.items)) }
        ensures first { self.old.held ≡ None → IsOk result × (buf.new ≡ buf.old) }
    {
        let Some(row) = self.held.replace(cells) else {
            return Ok(());
        };
        self.progress
            .try_row::<T, D, C, B, V, W>(frame, row, false, buf)
    }

    pub(crate) fn finish<'f, T, D, C, B, W>(
        self,
        frame: &'f Frame<'f, D, C, B>,
        buf: &mut String<W>,
    ) -> Result<(), StreamFault>
    where
        T: TableMarker,
        D: Dimension,
        C: Colors,
        B: Allocator,
        W: Allocator,
        requires is { bare_table D.width D.height C.color frame.now.sheet ≡ T.table }
        requires sound { AreSoundAt T.table frame.now self }
        ensures prints { PrintsRows (streamed S.text T.table frame.now.hint self.entry).before (rows_left (streamed S.text T.table frame.now.hint self.entry) []) buf.old buf.new result }
        ensures empty { self.entry.held ≡ None → IsOk result × (buf.new ≡ buf.old) }
    {
        let HeldRows { mut progress, held } = self;
        let Some(row) = held else {
            return Ok(());
        };
        progress.try_row::<T, D, C, B, V, W>(frame, row, true, buf)?;
        Ok(progress.push_end::<T, D, C, B, W>(frame, buf)?)
    }

    fn with_room<'r>(self, room: &'r mut [u8]) -> HeldRows<'r, S, A, V>
        ensures { result ≡ record self.entry { progress = record self.entry.progress { kept = record { text = None; room = length room.old } } } }
    {
        let HeldRows { progress, held } = self;
        HeldRows {
            progress: progress.with_room(room),
            held,
        }
    }

    pub(crate) fn push_all<'f, T, D, C, B, I, W>(
        self,
        frame: &'f Frame<'f, D, C, B>,
        rows: I,
        buf: &mut String<W>,
    ) -> Result<(), StreamFault>
    where
        T: TableMarker,
        D: Dimension,
        C: Colors,
        B: Allocator,
        I: Iterator<Item = Vec<S, V>> + Drop,
        W: Allocator,
        requires is { bare_table D.width D.height C.color frame.now.sheet ≡ T.table }
        requires sound { AreSoundAt T.table frame.now self }
        requires can { I.can_next rows }
        requires ends { IsFinite (I.remaining rows) }
        ensures prints { (texts : List (List Text)) → AlwaysGives (λ x y. map S.text x.items ≡ y) I.next_gives rows texts
            → PrintsRows (streamed S.text T.table frame.now.hint self.entry).before (rows_left (streamed S.text T.table frame.now.hint self.entry) texts) buf.old buf.new result }
        ensures runs { SomeRun I.next_gives rows
            (λ run. PrintsRun run.whole (streamed S.text T.table frame.now.hint self.entry).before
            (rows_left (streamed S.text T.table frame.now.hint self.entry) (map (λ row. map S.text row.items) run.items)) buf.old buf.new result) }
        ensures empty { self.entry.held ≡ None → AlwaysGives (λ x y. map S.text x.items ≡ y) I.next_gives rows [] → IsOk result × (buf.new ≡ buf.old) }
    {
        let mut room = [0; SEPARATOR_ROOM];
        let mut pushed = self.with_room(&mut room);
        for row in rows {
            pushed.push::<T, D, C, B, W>(frame, row, buf)?;
        }
        pushed.finish::<T, D, C, B, W>(frame, buf)
    }

    pub(crate) fn push_results<'f, T, D, C, B, E, I, W>(
        self,
        frame: &'f Frame<'f, D, C, B>,
        rows: &mut I,
        buf: &mut String<W>,
    ) -> Result<(), RowsFault<E>>
    where
        T: TableMarker,
        D: Dimension,
        C: Colors,
        B: Allocator,
        E: Drop,
        I: Iterator<Item = Result<Vec<S, V>, E>>,
        W: Allocator,
        requires is { bare_table D.width D.height C.color frame.now.sheet ≡ T.table }
        requires sound { AreSoundAt T.table frame.now self }
        requires can { I.can_next rows.old }
        requires ends { IsFinite (I.remaining rows.old) }
        ensures prints { (items : List (Result (List Text) E))
            → AlwaysGives (λ x y. result_map_both (λ row. map S.text row.items) (λ error. error) x ≡ y) I.next_gives rows.old items
            → PrintsResults (streamed S.text T.table frame.now.hint self.entry) items buf.old buf.new result }
        ensures runs { SomeRun I.next_gives rows.old
            (λ run. PrintsResultsRun run.whole (streamed S.text T.table frame.now.hint self.entry)
            (map (λ item. result_map_both (λ row. map S.text row.items) (λ error. error) item) run.items) buf.old buf.new result
            × IsLeftAt I.next_gives rows.old run.items run.whole rows.new) }
        ensures empty { self.entry.held ≡ None
            → AlwaysGives (λ x y. result_map_both (λ row. map S.text row.items) (λ error. error) x ≡ y) I.next_gives rows.old []
            → IsOk result × (buf.new ≡ buf.old) }
    {
        let mut room = [0; SEPARATOR_ROOM];
        let mut pushed = self.with_room(&mut room);
        while let Some(row) = rows.next() {
            let cells = match row {
                Ok(cells) => cells,
                Err(error) => return Err(RowsFault::Source(error)),
            };
            pushed.push::<T, D, C, B, W>(frame, cells, buf)?;
        }
        Ok(pushed.finish::<T, D, C, B, W>(frame, buf)?)
    }
}
