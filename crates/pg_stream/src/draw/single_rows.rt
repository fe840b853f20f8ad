//! Rows of one line in a table without spans: their cells are drawn as they come.

ghost use Rattle.std.specs.Prelude.{◌≡◌, List};
ghost use Rattle.pg_layout.specs.Records.{AlwaysGives, Gives};
ghost use Rattle.pg_layout.specs.Text.{Text};
ghost use Rattle.pg_picture.specs.Appending.{Appends};
ghost use Rattle.pg_picture.specs.Inside.{IsOfKind};
ghost use Rattle.pg_picture.specs.Pieces.{written};
ghost use Rattle.pg_stream.specs.Conditions.{HasRoom};
ghost use Rattle.pg_stream.specs.Inside.{line_at, IsSingle, IsSingleRow, single_part, single_line};

use crate::draw::StreamedTable;
use pg_layout::{Colors, Dimension, Position};
use pg_picture::{SingleCell, TableMarker, TextKind};
use std::alloc::{AllocError, Allocator};
use std::convert::AsStr;
use std::marker::PhantomData;

impl<'f, T, D, C, B> StreamedTable<'f, T, D, C, B>
where
    T: TableMarker,
    D: Dimension,
    C: Colors,
    B: Allocator,
{
    // Plain texts aren't read for their line.
    #[inline(always)]
    pub(crate) fn push_single_row<S: AsStr + Drop, I: Iterator<Item = S>, W: Allocator>(
        self,
        buf: &mut String<W>,
        index: usize,
        row: usize,
        cells: I,
        kind: TextKind,
    ) -> Result<(), AllocError>
        requires single { (texts : List Text) × Gives (λ x y. S.text x ≡ y) I.can_next I.next_gives I.remaining cells texts × IsSingleRow T.table row kind texts }
        ensures { (texts : List Text) → AlwaysGives (λ x y. S.text x ≡ y) I.next_gives cells texts
            → Appends buf.old buf.new result (line_at T.table.config self.entry.pen.sheet.now.height index (written (single_line T.table row texts))) }
    {
        self.pen.push_line_start(buf, index)?;
        self.push_single_cells(buf, row, cells, kind)?;
        self.pen.push_line_end(buf, index)
    }

    // Out of line, so that what is round the cells is in the loop over the rows.
    #[inline(never)]
    fn push_single_cells<S: AsStr + Drop, I: Iterator<Item = S>, W: Allocator>(
        self,
        buf: &mut String<W>,
        row: usize,
        mut cells: I,
        kind: TextKind,
    ) -> Result<(), AllocError>
        requires { (texts : List Text) × Gives (λ x y. S.text x ≡ y) I.can_next I.next_gives I.remaining cells texts × IsSingleRow T.table row kind texts }
        ensures { (texts : List Text) → AlwaysGives (λ x y. S.text x ≡ y) I.next_gives cells texts → Appends buf.old buf.new result (written (single_line T.table row texts)) }
    {
        for column in 0..self.pen.columns() {
            let Some(value) = cells.next() else {
                return Ok(());
            };
            self.push_single_cell(buf, Position::new(row, column), value.as_str(), kind)?;
        }
        self.pen
            .push_vertical(buf, Position::new(row, self.pen.columns()), 0)
    }

    #[inline(always)]
    fn push_single_cell<W: Allocator>(
        self,
        buf: &mut String<W>,
        pos: Position,
        text: &str,
        kind: TextKind,
    ) -> Result<(), AllocError>
        requires single { IsSingle T.table pos.row }
        requires kind { IsOfKind kind text.now }
        requires room { HasRoom T.table pos text.now }
        ensures { Appends buf.old buf.new result (written (single_part T.table pos.row text.now pos.col)) }
    {
        self.pen.push_vertical(buf, pos, 0)?;
        let cell = SingleCell {
            pos,
            width: self.pen.width_of(pos.col),
            text,
            kind,
            of: PhantomData,
        };
        self.pen.push_single(buf, cell)
    }
}
