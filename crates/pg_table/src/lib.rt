//! A table builder: rows of texts, drawn as wide and as high as they are.
#![tactic(auto)]

mod fault;
mod fitted;
mod laws;
mod measured;
mod narrowing;
mod natural;
mod needs;
pub mod numbers;
mod overflow;
mod sizes;
mod spanning;
mod table;

pub use crate::fault::TableFault;
pub use crate::fitted::{FilledTable, FittedTable};
pub use crate::laws::{
    columns_are_widened_as_needed, looks_are_narrow, natural_heights_show_all,
    natural_tables_have_room, texts_open_no_tag,
};
pub use crate::natural::{NaturalTable, heights_for};
pub use crate::overflow::Overflow;
pub use crate::sizes::Axis;
pub use crate::table::Table;
pub use pg_fit::{Breaking, ColumnRange};
