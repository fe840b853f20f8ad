//! The lines that are drawn: those of rows, and separators.

ghost use Rattle.pg_peekable.specs.Inside.{IsLine, IsSeparatorLine};
ghost use Rattle.std.proofs.Props.{props};

use pg_picture::TableMarker;
use std::marker::PhantomData;

/// A line of a row: the row, how many lines it has, and the line's number in it.
#[derive(Drop)]
pub(crate) struct LineOfRow<T: TableMarker> {
    pub(crate) row: usize,
    pub(crate) height: usize,
    pub(crate) number: usize,
    pub(crate) of: PhantomData<T>,
    ghost is: { IsLine T.table row height number } by { Prim.hlevel props },
}

/// A separator that exists: the row below it, or the number of rows for the last one.
#[derive(Drop)]
pub(crate) struct Separator<T: TableMarker> {
    pub(crate) row: usize,
    pub(crate) of: PhantomData<T>,
    ghost is: { IsSeparatorLine T.table row } by { Prim.hlevel props },
}
