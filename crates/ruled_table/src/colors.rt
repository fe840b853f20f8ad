//! Colours of the texts of a table, and of a block.

ghost use Rattle.std.specs.Prelude.{◌≡◌, not, option_map, map};
ghost use Rattle.csv.specs.Records.{fields_of};
ghost use Rattle.pg_layout.specs.Colors.{lent_color};
ghost use Rattle.ruled_table.specs.Layouts.{plan_in};
ghost use Rattle.ruled_table.specs.Shown as spec;

use crate::columns::drawn_at;
use crate::layout::Layout;
use crate::options::Options;
use crate::order::{has_value, is_negative};
use crate::sides::is_missing;
use pg_layout::{ANSIFmt, Colors, Position};
use pg_table::numbers::is_number;
use ruled_row::TextRow;

/// A colour of a text.
#[derive(Clone, Copy)]
pub enum Tint {
    /// In bold.
    Bold,
    /// Dim.
    Dim,
    /// Red.
    Red,
    /// Green.
    Green,
}

impl ANSIFmt for Tint {
    ghost color_of = { spec.color_of };

    fn prefix(&self) -> &str {
        match self {
            Tint::Bold => "\x1b[1m",
            Tint::Dim => "\x1b[2m",
            Tint::Red => "\x1b[31m",
            Tint::Green => "\x1b[32m",
        }
    }

    fn suffix(&self) -> &str {
        match self {
            Tint::Bold | Tint::Dim => "\x1b[22m",
            Tint::Red | Tint::Green => "\x1b[39m",
        }
    }
}

// Whether a text is a number below or above zero.
fn has_sign(text: &str) -> bool
    ensures { result ≡ spec.has_sign text.now }
{
    is_number(text) && has_value(text.as_bytes())
}

// The colour of a field that has this place in its row, in front of which its number may be.
fn field_tint(options: &Options, place: Option<usize>, text: &str) -> Option<&'static Tint>
    ensures { lent_color spec.color_of result ≡ option_map spec.color_of (spec.field_tint options.now place text.now) }
{
    if !options.is_tinted {
        return None;
    }
    if is_missing(options, text) {
        return Some(&Tint::Dim);
    }
    let is_label = options.is_numbered && place.unwrap_or(1) == 0;
    if is_label || !has_sign(text) {
        return None;
    }
    if is_negative(text.as_bytes()) {
        return Some(&Tint::Red);
    }
    Some(&Tint::Green)
}

/// The colours of the texts of a table, or of a block. In a table those of rows that aren't known have none, except in
/// a header.
#[derive(Drop)]
pub struct TextColors<'a> {
    pub(crate) options: &'a Options,
    /// The place of each column's field in its row; of a block those of its rows.
    pub(crate) places: &'a [Option<usize>],
    /// The known rows of the table, or the record of the block.
    pub(crate) rows: &'a [TextRow],
    pub(crate) is_block: bool,
}

impl<'a> TextColors<'a> {
    /// The colours of a table of this layout, of which these rows are known.
    pub fn new(options: &'a Options, layout: &'a Layout, rows: &'a [TextRow]) -> TextColors<'a>
        ensures { spec.color_in result ≡ spec.color_at options.now (plan_in layout.now).places (map fields_of rows.now) }
    {
        TextColors {
            options,
            places: &layout.places,
            rows,
            is_block: false,
        }
    }

    // The colour of a field in a column of a row, or of a name there.
    fn tint_at(&self, is_name: bool, row: usize, column: usize) -> Option<&'static Tint>
        ensures { lent_color spec.color_of result ≡ option_map spec.color_of (spec.tint_in self.now is_name row column) }
    {
        if !self.options.is_colored {
            return None;
        }
        if is_name {
            return Some(&Tint::Bold);
        }
        let fields = self.rows.get(row)?;
        let place = self.places.get(column).copied().unwrap_or(None);
        field_tint(self.options, place, drawn_at(fields, place))
    }
}

impl Colors for TextColors<'_> {
    type Color = Tint;

    ghost color = { spec.color_in };

    ghost is_colorless = { λ colors. not colors.options.now.is_colored };

    fn get_color(&self, pos: Position) -> Option<&Tint> {
        // It is asked for each cell.
        if !self.options.is_colored {
            return None;
        }
        if self.is_block {
            return self.tint_at(pos.col == 0, 0, pos.row);
        }
        self.tint_at(self.options.has_header && pos.row == 0, pos.row, pos.col)
    }

    fn is_empty(&self) -> bool {
        !self.options.is_colored
    }
}
