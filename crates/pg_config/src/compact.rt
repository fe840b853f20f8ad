//! The settings of a compact table.

ghost use Rattle.std.specs.Prelude.{◌≡◌};
ghost use Rattle.pg_config.specs.CompactConfig.{settings_of, border_colors, side_colors, default_compact, compact_of};

use crate::spanned::SpannedConfig;
use pg_layout::{ANSIStr, AlignmentHorizontal, Borders, Indent, Sides};
use std::alloc::Allocator;

/// The settings of a compact table: borders, margins, one padding and one alignment for all cells,
/// and their colours.
///
/// It is a plain value: it allocates nothing, and each setter returns the changed configuration.
///
/// ```text
/// let config = CompactConfig::new()
///     .set_padding(Sides::new(Indent::spaced(1), Indent::spaced(1), Indent::zero(), Indent::zero()))
///     .set_alignment_horizontal(AlignmentHorizontal::Right);
/// ```
#[derive(Debug, Clone, Copy, PartialEq, Eq)]
pub struct CompactConfig {
    borders: Borders<char>,
    borders_color: Borders<ANSIStr<'static>>,
    margin: Sides<Indent>,
    margin_color: Sides<ANSIStr<'static>>,
    padding: Sides<Indent>,
    padding_color: Sides<ANSIStr<'static>>,
    alignment: AlignmentHorizontal,
}

impl CompactConfig {
    /// A configuration with the default settings: no borders, paddings and margins of size 0 filled
    /// by spaces, alignment left, and empty colours.
    #[tactic(auto, unfolding(crate::specs::CompactConfig::default_compact))]
    pub fn new() -> CompactConfig
        ensures { settings_of result ≡ default_compact }
    {
        CompactConfig {
            borders: Borders::empty(),
            borders_color: Borders::empty(),
            margin: Sides::filled(Indent::zero()),
            margin_color: Sides::filled(ANSIStr::default()),
            padding: Sides::filled(Indent::zero()),
            padding_color: Sides::filled(ANSIStr::default()),
            alignment: AlignmentHorizontal::Left,
        }
    }

    /// The settings of a compact table in a configuration: its borders and its margin, and the
    /// padding and the alignment last set for all cells, whatever was set for some of them. Colours
    /// aren't taken along, since a compact table borrows them.
    #[tactic(auto, unfolding(crate::specs::CompactConfig::default_compact))]
    pub fn of<A: Allocator>(config: &SpannedConfig<A>) -> CompactConfig
        ensures { settings_of result ≡ compact_of config.now }
    {
        let padding = config.cells.padding.base();
        let alignment = config.cells.alignment_horizontal.base();
        CompactConfig {
            borders: *config.get_borders(),
            margin: config.get_margin(),
            padding: padding.unwrap_or(Sides::filled(Indent::zero())),
            alignment: alignment.unwrap_or(AlignmentHorizontal::Left),
            ..CompactConfig::new()
        }
    }

    /// Sets the glyphs of the borders.
    pub fn set_borders(mut self, borders: Borders<char>) -> CompactConfig
        ensures { settings_of result ≡ record (settings_of self) { borders = borders } }
    {
        self.borders = borders;
        self
    }

    /// The glyphs of the borders.
    pub fn get_borders(&self) -> &Borders<char>
        ensures { result.now ≡ (settings_of self.now).borders }
    {
        &self.borders
    }

    /// Sets the colours of the borders' glyphs. An empty colour that is set is a colour:
    /// on a separator it closes the one that is open.
    pub fn set_borders_color(mut self, borders_color: Borders<ANSIStr<'static>>) -> CompactConfig
        ensures { settings_of result ≡ record (settings_of self) { borders_color = border_colors borders_color.entry } }
    {
        self.borders_color = borders_color;
        self
    }

    /// The colours of the borders' glyphs.
    pub fn get_borders_color(&self) -> &Borders<ANSIStr<'static>>
        ensures { border_colors result.now ≡ (settings_of self.now).borders_color }
    {
        &self.borders_color
    }

    /// Sets the margin: columns left and right of the table, lines above and below it.
    pub fn set_margin(mut self, margin: Sides<Indent>) -> CompactConfig
        ensures { settings_of result ≡ record (settings_of self) { margin = margin } }
    {
        self.margin = margin;
        self
    }

    /// The margin of the table.
    pub fn get_margin(&self) -> Sides<Indent>
        ensures { result ≡ (settings_of self.now).margin }
    {
        self.margin
    }

    /// Sets the colours of the margin; an empty colour is none.
    pub fn set_margin_color(mut self, margin_color: Sides<ANSIStr<'static>>) -> CompactConfig
        ensures { settings_of result ≡ record (settings_of self) { margin_color = side_colors margin_color.entry } }
    {
        self.margin_color = margin_color;
        self
    }

    /// The colours of the margin.
    pub fn get_margin_color(&self) -> Sides<ANSIStr<'static>>
        ensures { side_colors result ≡ (settings_of self.now).margin_color }
    {
        self.margin_color
    }

    /// Sets the padding of every cell: columns left and right of its text, and lines of
    /// spaces above and below it.
    pub fn set_padding(mut self, padding: Sides<Indent>) -> CompactConfig
        ensures { settings_of result ≡ record (settings_of self) { padding = padding } }
    {
        self.padding = padding;
        self
    }

    /// The padding of each cell.
    pub fn get_padding(&self) -> Sides<Indent>
        ensures { result ≡ (settings_of self.now).padding }
    {
        self.padding
    }

    /// Sets the colours of the padding; an empty colour is none.
    pub fn set_padding_color(mut self, padding_color: Sides<ANSIStr<'static>>) -> CompactConfig
        ensures { settings_of result ≡ record (settings_of self) { padding_color = side_colors padding_color.entry } }
    {
        self.padding_color = padding_color;
        self
    }

    /// The colours of the padding.
    pub fn get_padding_color(&self) -> Sides<ANSIStr<'static>>
        ensures { side_colors result ≡ (settings_of self.now).padding_color }
    {
        self.padding_color
    }

    /// Sets the alignment of every text.
    pub fn set_alignment_horizontal(mut self, alignment: AlignmentHorizontal) -> CompactConfig
        ensures { settings_of result ≡ record (settings_of self) { alignment = alignment } }
    {
        self.alignment = alignment;
        self
    }

    /// The alignment of every text.
    pub fn get_alignment_horizontal(&self) -> AlignmentHorizontal
        ensures { result ≡ (settings_of self.now).alignment }
    {
        self.alignment
    }
}
