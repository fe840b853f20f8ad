//! A table that is drawn: what all functions take that draw a part of it.

ghost use Rattle.std.specs.Prelude.{◌≡◌, ◌<◌, false, None};
ghost use Rattle.pg_config.specs.Config.{has_horizontal};
ghost use Rattle.pg_config.specs.Spans.{left_span, span_above};
ghost use Rattle.pg_layout.specs.declared.position.Position.{Position};
ghost use Rattle.pg_picture.specs.Grids.{table_of_parts};
ghost use Rattle.pg_peekable.specs.Inside.{IsShapeOf, CanDraw, HasNoSpans, IsAscending-prop};
ghost use Rattle.std.proofs.Props.{props};

use pg_config::Span;
use pg_layout::{Colors, Dimension, PeekableRecords, Position};
use pg_picture::{Pen, Sheet, TableMarker};
use std::alloc::Allocator;
use std::marker::PhantomData;

/// A table that is drawn: its sheet and its records, how many rows it has, whether some of its cells may
/// have a colour, and whether some span others.
#[derive(Drop)]
pub(crate) struct LookedUpTable<
    'g,
    T: TableMarker,
    R: PeekableRecords,
    D: Dimension,
    C: Colors,
    B: Allocator,
> {
    pub(crate) sheet: Sheet<'g, D, C, B>,
    pub(crate) records: &'g R,
    pub(crate) rows: usize,
    pub(crate) is_colored: bool,
    pub(crate) is_spanned: bool,
    pub(crate) of: PhantomData<T>,
    ghost is: { table_of_parts R.texts R.columns D.width D.height C.color records.now sheet.config.now sheet.dimension.now sheet.colors.now ≡ T.table } by { Prim.hlevel props },
    ghost shape: { IsShapeOf T.table rows sheet.columns sheet.height } by { Prim.hlevel props },
    ghost is_plain: { is_colored ≡ false → (pos : Position) → T.table.color pos ≡ None } by { Prim.hlevel props },
    ghost is_alone: { is_spanned ≡ false → HasNoSpans T.table } by { Prim.hlevel props },
    ghost can: { CanDraw T.table } by { Prim.hlevel (IsAscending-prop, props) },
}

impl<'g, T, R, D, C, B> LookedUpTable<'g, T, R, D, C, B>
where
    T: TableMarker,
    R: PeekableRecords,
    D: Dimension,
    C: Colors,
    B: Allocator,
{
    // What draws the pieces of its lines.
    #[inline(always)]
    pub(super) fn pen(&self) -> Pen<'_, T, D, C, B>
        ensures { result.sheet.now ≡ self.now.sheet }
    {
        Pen {
            sheet: &self.sheet,
            is_colored: self.is_colored,
            of: PhantomData,
        }
    }

    #[inline(always)]
    pub(super) fn text_of(&self, pos: Position) -> &str
        requires row { pos.row < T.table.rows }
        requires column { pos.col < T.table.columns }
        ensures { result.now ≡ T.table.text pos }
    {
        self.records.get_text(pos)
    }

    #[inline(always)]
    pub(super) fn has_separator(&self, row: usize) -> bool
        ensures { result ≡ has_horizontal T.table.config row T.table.rows }
    {
        self.pen().has_horizontal(row, self.rows)
    }

    #[inline(always)]
    pub(super) fn left_span(&self, pos: Position) -> Option<Span>
        ensures { result ≡ left_span T.table.config.spans pos.row pos.col }
    {
        self.sheet.config.left_span(pos)
    }

    #[inline(always)]
    pub(super) fn span_above(&self, pos: Position) -> Option<Span>
        ensures { result ≡ span_above T.table.config.spans pos.row pos.col }
    {
        self.sheet.config.span_above(pos)
    }
}
