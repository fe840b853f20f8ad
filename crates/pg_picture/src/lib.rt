//! The pieces of a table's picture, each appended exactly, and the conditions of a table.
#![tactic(auto)]

mod border;
mod cell;
mod column_sides;
mod compact_cell;
mod compact_margin;
mod compact_run;
mod cut;
mod facts;
mod fault;
mod fill;
pub mod fits;
mod margin;
mod pen;
mod piece;
mod place;
mod placed_cell;
mod run;
mod separator_keeper;
mod share;
mod sheet;
pub mod shown;
mod single_cell;
mod sized_table;
mod table_margins;
mod table_printer;
mod vertical;
mod whole_fault;
mod whole_printer;

pub use crate::cell::{push_single_line, push_text_line};
pub use crate::compact_cell::{push_border_glyph, push_compact_cell, push_compact_indent};
pub use crate::compact_margin::push_compact_margin;
pub use crate::compact_run::CompactRun;
pub use crate::facts::{TextFacts, TextKind, count_empty_lines, text_width};
pub use crate::fault::PrintFault;
pub use crate::fill::{push_char, push_text};
pub use crate::margin::{push_feed, push_margin_lines, push_side_margin};
pub use crate::pen::{Pen, TableMarker};
pub use crate::piece::push_fill;
pub use crate::place::CellPlace;
pub use crate::placed_cell::PlacedLine;
pub use crate::run::Run;
pub use crate::separator_keeper::{SEPARATOR_ROOM, SeparatorKeeper};
pub use crate::share::{calculate_indent, indent_from_top};
pub use crate::sheet::{Sheet, VerticalKind};
pub use crate::single_cell::SingleCell;
pub use crate::table_margins::{
    push_bottom_margin, push_left_margin, push_right_margin, push_top_margin,
};
pub use crate::table_printer::TablePrinter;
pub use crate::vertical::{push_vertical, push_vertical_at};
pub use crate::whole_fault::WholeFault;
pub use crate::whole_printer::WholePrinter;
pub use pg_config::CellStyle;
