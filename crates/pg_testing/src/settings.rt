//! Settings of configurations as lines of words.
//!
//! ```text
//! borders ascii
//! padding row 1 1 1 0 0
//! alignment_horizontal col 2 right
//! border 0 1 top=* bottom_left=none
//! border_color 0 1 top=<red>|</red>
//! horizontal_char 0 1 start 2 space
//! margin 1 1:. 0 0
//! column_span 0 1 3
//! ```
//!
//! A line has the name of a setter of [`SpannedConfig`] without `set_`, and what the setter takes, with single spaces
//! between the words.
//!
//! - A place is its row and its column. `all`, `row 1`, `col 2` and `cell 1 2` are entities.
//! - A glyph is a character, `space` a space, and `none` is no glyph.
//! - A colour is its prefix, `|` and its suffix, of which either may be empty. `none` is no colour.
//! - A side of a padding or a margin is a number of spaces, or a number, `:` and the glyph that fills it.
//!   The sides are in the order left, right, top, bottom.
//! - `borders`, `border` and `row_line`, and those for colours, name the places that have a value, as
//!   `left=|`. The others have none. `borders` may name a look instead, and so may `span_crossings`,
//!   which has the rows and the columns of a table before it.
//! - `line_glyphs 1 2 3,5 0 ab` has the row line, the rows of a table, the widths of its columns, the
//!   first column of the line, and the characters.

mod borders;
mod setting;
mod words;

use crate::lines::LineFault;
pub use crate::settings::borders::{PlaceValue, borders_at, header_line_named};
use crate::settings::setting::Setting;
pub use crate::settings::words::Words;
use pg_config::SpannedConfig;
use pg_layout::ColorsMap;
use std::alloc::Allocator;

/// Applies the setting of a line, as `padding row 1 2 0 0 0`.
///
/// A line with too few, too many or unknown words is an error. After an error, also out of memory,
/// the configuration is unchanged.
pub fn apply<A: Allocator + Copy>(
    config: &mut SpannedConfig<A>,
    alloc: A,
    line: &str,
) -> Result<(), LineFault> {
    let setting = Setting::of(alloc, line)?;
    setting.apply(config, alloc).map_err(LineFault::from)
}

/// Applies the settings of these lines, one after the other, up to the first that is an error.
pub fn apply_all<A: Allocator + Copy>(
    config: &mut SpannedConfig<A>,
    alloc: A,
    lines: &[&str],
) -> Result<(), LineFault> {
    for line in lines {
        apply(config, alloc, line)?;
    }
    Ok(())
}

/// Sets the colour of a cell: its place and what comes before and after its text, as `0 1
/// <red>|</red>`. The colour can't be none.
pub fn set_cell_color<A: Allocator + Copy>(
    colors: &mut ColorsMap<A>,
    alloc: A,
    text: &str,
) -> Result<(), LineFault> {
    let mut words = Words::new(text);
    let pos = words.place();
    let color = words.color_there(alloc)?;
    colors.set(pos, words.end(color)?).map_err(LineFault::from)
}
