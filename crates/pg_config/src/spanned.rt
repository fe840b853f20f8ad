//! The settings of a table.

ghost use Rattle.std.specs.Prelude.{◌≡◌, [], None};
ghost use Rattle.pg_config.specs.Config.{filled, default_config};

use crate::offsets::Offsets;
use crate::overrides::Overrides;
use crate::spanned::cells::Cells;
use crate::spans::Spans;
use pg_layout::{ANSIBuf, Borders, Indent, Offset, Sides};
use std::alloc::{Allocator, Global};
use std::marker::Model;

mod borders;
mod cells;
mod colors;
mod crossings;
mod line_glyphs;
mod margins;
mod offsets;
mod spans;

pub(crate) use self::borders::{horizontal_glyph, vertical_glyph};
pub use self::cells::CellStyle;

/// The settings of a table: borders, paddings, alignments, spans, margins and colours.
///
/// A setter's only error is out of memory, after which nothing has changed. A setting for all cells
/// allocates nothing, nor does one for a row, a column or a cell that has one, nor a glyph or a
/// colour at a place that has one. After 2^64 - 1 settings of one kind for rows, columns and cells,
/// the next one returns that error, too, until one of that kind is set for all cells.
#[derive(Debug)]
pub struct SpannedConfig<A: Allocator = Global> {
    borders: Borders<char>,
    overrides: Overrides<char, A>,
    missing: Option<char>,
    border_colors: Borders<ANSIBuf<A>>,
    color_overrides: Overrides<ANSIBuf<A>, A>,
    border_colored: bool,
    horizontal_chars: Offsets<char, A>,
    vertical_chars: Offsets<char, A>,
    horizontal_colors: Offsets<ANSIBuf<A>, A>,
    vertical_colors: Offsets<ANSIBuf<A>, A>,
    margin: Sides<Indent>,
    margin_offset: Sides<Offset>,
    margin_color: Sides<Option<ANSIBuf<A>>>,
    pub(crate) cells: Cells<A>,
    spans: Spans<A>,
    // Lent if no padding colour was set.
    no_colors: Sides<Option<ANSIBuf<A>>>,
}

// Written out, so that a caller's proof has one call when it drops a configuration. A derived drop
// is unfolded there to the last colour, at each `?`.
impl<A: Allocator> Drop for SpannedConfig<A> {
    fn drop(self) {
        let SpannedConfig {
            borders: _,
            overrides,
            missing: _,
            border_colors,
            color_overrides,
            border_colored: _,
            horizontal_chars,
            vertical_chars,
            horizontal_colors,
            vertical_colors,
            margin: _,
            margin_offset: _,
            margin_color,
            cells,
            spans,
            no_colors,
        } = self;
        drop((overrides, border_colors, color_overrides));
        drop((horizontal_chars, vertical_chars));
        drop((horizontal_colors, vertical_colors));
        drop((margin_color, no_colors));
        drop((cells, spans));
    }
}

impl<A: Allocator> Model for SpannedConfig<A> {
    ghost use Rattle.std.specs.Prelude.{◌≡◌, None};
    ghost use Rattle.pg_config.specs.Config.{Config, filled};

    ghost Value = { Config };

    ghost view = { λ c. record {
      borders = c.borders;
      overrides = c.overrides;
      missing = c.missing;
      border_colors = c.border_colors;
      color_overrides = c.color_overrides;
      border_colored = c.border_colored;
      horizontal_chars = c.horizontal_chars;
      vertical_chars = c.vertical_chars;
      horizontal_colors = c.horizontal_colors;
      vertical_colors = c.vertical_colors;
      margin = c.margin;
      margin_offset = c.margin_offset;
      margin_color = c.margin_color;
      padding = c.cells.padding;
      padding_color = c.cells.padding_color;
      alignment_horizontal = c.cells.alignment_horizontal;
      alignment_vertical = c.cells.alignment_vertical;
      trim_horizontal = c.cells.trim_horizontal;
      trim_vertical = c.cells.trim_vertical;
      line_alignment = c.cells.line_alignment;
      justification = c.cells.justification;
      justification_color = c.cells.justification_color;
      spans = c.spans;
    } };

    ghost invariant = { λ c. c.no_colors ≡ filled None };
}

// No colour at any side.
pub(crate) fn no_colors<A: Allocator>() -> Sides<Option<ANSIBuf<A>>>
    ensures { result ≡ filled None }
{
    Sides::new(None, None, None, None)
}

impl<A: Allocator + Copy> SpannedConfig<A> {
    /// A configuration with the default settings: no borders, the missing glyph a space, alignments
    /// left and top, no trims, justification by spaces, paddings and margins of size 0 filled by
    /// spaces, offsets of 0 from the start, no spans and no colours.
    ///
    /// Allocates nothing.
    #[tactic(auto, unfolding(crate::specs::Config::default_config))]
    pub fn new(alloc: A) -> SpannedConfig<A>
        ensures told { result ≡ default_config }
        ensures spans { result.spans ≡ [] }
    {
        SpannedConfig {
            borders: Borders::empty(),
            overrides: Overrides::new(alloc),
            missing: Some(' '),
            border_colors: Borders::empty(),
            color_overrides: Overrides::new(alloc),
            border_colored: false,
            horizontal_chars: Offsets::new(alloc),
            vertical_chars: Offsets::new(alloc),
            horizontal_colors: Offsets::new(alloc),
            vertical_colors: Offsets::new(alloc),
            margin: Sides::filled(Indent::zero()),
            margin_offset: Sides::filled(Offset::Start(0)),
            margin_color: no_colors(),
            cells: Cells::new(alloc),
            spans: Spans::new(alloc),
            no_colors: no_colors(),
        }
    }
}
