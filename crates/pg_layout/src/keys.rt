//! The keys of values, and their order.

ghost use Rattle.pg_layout.specs.Keys.{Order, IsOrderOf, by_number, by_place, by_columns};
ghost use Rattle.pg_layout.specs.KeyOrders.{number-order, place-order, columns-order};

use crate::position::{ColumnPlace, Position};

/// The key of a value in [`Places`](crate::Places). Its order is that of its comparison.
pub trait Key: Ord + Copy {
    /// Which of two keys comes before the other, and which are equal.
    ghost order: { Order Self };

    ghost orders: { IsOrderOf Self.cmp order };
}

/// A row, or a column.
impl Key for usize {
    ghost order = { by_number };

    ghost orders = { number-order };
}

/// Row by row.
impl Key for Position {
    ghost order = { by_place };

    ghost orders = { place-order };
}

/// Column by column.
impl Key for ColumnPlace {
    ghost order = { by_columns };

    ghost orders = { columns-order };
}
