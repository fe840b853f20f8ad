//! What is round the cells of all rows, put together once for a table.

ghost use Rattle.std.specs.Prelude.{◌≡◌};
ghost use Rattle.std.specs.Option.{ForSome};
ghost use Rattle.pg_config.specs.CompactConfig.{settings_of};
ghost use Rattle.pg_compact.specs.RowEdges.{AreEdges, row_start, row_end, between_cells};

use crate::short_text::ShortText;
use pg_config::CompactConfig;

/// The texts left of a row's cells, between two of them and right of them, if they are short.
#[derive(Debug, Drop)]
pub(crate) struct RowEdges {
    pub(crate) start: Option<ShortText>,
    /// Nothing if the glyph has no colour: it is appended faster as a character.
    pub(crate) between: Option<ShortText>,
    pub(crate) end: Option<ShortText>,
}

impl RowEdges {
    /// The texts of a configuration.
    pub(crate) fn of(config: &CompactConfig) -> RowEdges
        ensures { AreEdges (settings_of config.now) result }
    {
        RowEdges {
            start: start_text(config),
            between: text_between(config),
            end: end_text(config),
        }
    }
}

// What is left of a row's cells: the left margin and the left glyph.
fn start_text(config: &CompactConfig) -> Option<ShortText>
    ensures { ForSome result (λ text. text ≡ row_start (settings_of config.now)) }
{
    let mut text = ShortText::new();
    text.push_indent(config.get_margin().left, config.get_margin_color().left)?;
    text.push_glyph(config.get_borders().left, config.get_borders_color().left)?;
    Some(text)
}

// What is between two cells: a glyph in its colour.
fn text_between(config: &CompactConfig) -> Option<ShortText>
    ensures { ForSome result (λ text. text ≡ between_cells (settings_of config.now)) }
{
    let glyph = config.get_borders().vertical?;
    let color = config.get_borders_color().vertical?;
    let mut text = ShortText::new();
    text.push_colored(glyph, 1, color)?;
    Some(text)
}

// What is right of a row's cells: the right glyph and the right margin.
fn end_text(config: &CompactConfig) -> Option<ShortText>
    ensures { ForSome result (λ text. text ≡ row_end (settings_of config.now)) }
{
    let mut text = ShortText::new();
    text.push_glyph(config.get_borders().right, config.get_borders_color().right)?;
    text.push_indent(config.get_margin().right, config.get_margin_color().right)?;
    Some(text)
}
