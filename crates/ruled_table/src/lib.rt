//! Rows as a table: texts and options in, the picture of their table out. Nothing is read or written.
#![tactic(auto)]

mod arrangement;
mod blocks;
mod bounds;
mod colors;
mod columns;
mod escapes;
mod layout;
mod lent_rows;
mod omission;
mod options;
mod order;
mod paired_rows;
mod points;
mod ranges;
mod row_lines;
mod rows;
mod sides;
mod table;
mod table_rows;
mod view;
mod widths;

pub use crate::arrangement::{named, padded, padded_rows};
pub use crate::blocks::Blocks;
pub use crate::bounds::Bounds;
pub use crate::colors::TextColors;
pub use crate::columns::field_at;
pub use crate::layout::Layout;
pub use crate::options::{Options, Side, Sort, Vertical};
pub use crate::points::points_look_alike;
pub use crate::rows::limit_of;
pub use crate::table_rows::TableRows;
pub use crate::view::{Chosen, ViewFault, chosen_rows};
pub use pg_table::{Breaking, Overflow};
