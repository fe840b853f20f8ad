//! The settings of a table: borders, paddings, alignments, spans, margins and colours.
#![tactic(auto)]

mod compact;
mod crossings;
mod entity_colors;
mod extent;
mod line_glyphs;
mod lines;
mod noted_places;
mod offsets;
mod overrides;
mod settings;
mod spanned;
mod spans;

pub use crate::compact::CompactConfig;
pub use crate::crossings::{Arms, Side};
pub use crate::entity_colors::EntityColors;
pub use crate::line_glyphs::LinePlace;
pub use crate::spanned::{CellStyle, SpannedConfig};
pub use crate::spans::{Span, SpanSize, Spans};
