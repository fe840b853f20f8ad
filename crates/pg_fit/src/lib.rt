//! Texts within widths: lines that are too wide are wrapped or cut, columns are narrowed to a
//! total, and some texts of records are replaced.
#![tactic(auto)]

mod controls;
mod cutting;
mod cutting_away;
mod escapes;
mod filling;
mod laws;
mod least;
mod line;
mod narrowing;
mod overlaid;
mod row;
mod wrapped_row;
mod wrapping;

pub use crate::controls::{is_printable, is_visible, sign_of, visible};
pub use crate::cutting::cut;
pub use crate::cutting_away::{cut_front, cut_middle};
pub use crate::escapes::without_escapes;
pub use crate::laws::{
    cut_texts_fit, ends_by_example, escapes_are_left_out, front_and_middle_cuts_fit,
    narrowed_widths_fill_the_room, visible_texts_are_seen, wrapped_lines_fit, wrapped_texts_fit,
};
pub use crate::least::least_width;
pub use crate::line::letters_width;
pub use crate::narrowing::{ColumnRange, narrow};
pub use crate::overlaid::{OverlaidColumns, OverlaidRecords, OverlaidRows};
pub use crate::row::{Fitted, fit_row};
pub use crate::wrapped_row::{row_height, wrap_row};
pub use crate::wrapping::{Breaking, wrap};
