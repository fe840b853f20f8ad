//! The text of the table of rows.

ghost use Rattle.std.specs.Prelude.{◌≡◌, ◌∷◌, ◌++◌, [], string_bytes, IfOk, OnErr, OnOk};
ghost use Rattle.pg_picture.specs.Appending.{GainedBeginning};
ghost use Rattle.pg_picture.specs.Picture.{picture};
ghost use Rattle.pg_picture.specs.Table.{Known};
ghost use Rattle.ruled_table.specs.Bounds.{bounded_fault, bounded_table};
ghost use Rattle.ruled_table.specs.Tables.{Tells, totals_of, fault_with, text_with, with_line};
ghost use Rattle.ruled_table.specs.Columns.{texts_of, pairs_in};
ghost use Rattle.ruled_table.specs.Shown.{color_in, line_in, look_config, sided_config};

use crate::bounds::Bounds;
use crate::colors::TextColors;
use crate::lent_rows::LentRows;
use crate::options::Options;
use crate::paired_rows::PairedRows;
use crate::sides::set_sides;
use crate::view::{ViewFault, fault_in};
use pg_config::SpannedConfig;
use pg_layout::{Entity, ExactRecords, HorizontalLine, Indent, Look, Records, Sides};
use std::alloc::{AllocError, Global};

/// The look of a table, without the line below its header.
pub(crate) fn look_config(alloc: Global, look: Look) -> Result<SpannedConfig, AllocError>
    ensures { IfOk result (λ config. config ≡ look_config look) }
{
    let (beside, none) = (Indent::spaced(1), Indent::zero());
    let mut config = SpannedConfig::new(alloc);
    config.set_borders(look.borders());
    config.set_padding(Entity::Global, Sides::new(beside, beside, none, none))?;
    Ok(config)
}

/// The line below a header, if the table has one.
pub(crate) fn line_in(options: &Options) -> Option<HorizontalLine<char>>
    ensures { result ≡ line_in options.now }
{
    if options.has_header {
        options.look.header_line()
    } else {
        None
    }
}

/// The look of the table of these rows, without that line.
pub(crate) fn sided_config(
    alloc: Global,
    options: &Options,
    rows: LentRows<'_>,
) -> Result<SpannedConfig, AllocError>
    ensures { IfOk result (λ config. config ≡ sided_config options.now (texts_of rows.entry)) }
{
    let mut config = look_config(alloc, options.look)?;
    set_sides(&mut config, options, rows)?;
    Ok(config)
}

/// Sets the line below a header, if the table has one, and rows below it.
pub(crate) fn set_line_below(
    config: &mut SpannedConfig,
    line: Option<HorizontalLine<char>>,
    rows: usize,
    columns: usize,
) -> Result<(), AllocError>
    ensures { OnOk result (config.new ≡ with_line line rows columns config.old) }
{
    match line {
        Some(line) if rows > 1 => config.set_row_line(1, columns, line),
        _ => Ok(()),
    }
}

// Appends the picture of the table of these rows within its bounds, and a line feed.
fn push_picture(
    alloc: Global,
    bounds: &Bounds,
    config: &SpannedConfig,
    colors: &TextColors<'_>,
    rows: PairedRows<'_>,
    buf: &mut String,
) -> Result<(), ViewFault>
    ensures text { OnOk result (string_bytes buf.new ≡ string_bytes buf.old ++ (picture Known (bounded_table bounds.now config.now (color_in colors.now) (pairs_in rows.entry)) ++ 10 ∷ [])) }
    ensures begun { OnErr result (GainedBeginning buf.old buf.new (picture Known (bounded_table bounds.now config.now (color_in colors.now) (pairs_in rows.entry)) ++ 10 ∷ [])) }
    ensures fault { Tells (totals_of (bounded_fault bounds.now config.now (color_in colors.now) (pairs_in rows.entry))) result }
{
    match bounds.print(alloc, config, colors, rows, buf) {
        Ok(()) => Ok(buf.push('\n')?),
        Err(fault) => Err(fault_in(fault)),
    }
}

/// Appends the text of the table of these rows within its bounds. If it fails, a beginning of the text
/// is appended.
pub(crate) fn push_text(
    alloc: Global,
    bounds: &Bounds,
    config: &SpannedConfig,
    colors: &TextColors<'_>,
    rows: PairedRows<'_>,
    buf: &mut String,
) -> Result<(), ViewFault>
    ensures text { OnOk result (string_bytes buf.new ≡ string_bytes buf.old ++ text_with bounds.now config.now (color_in colors.now) (pairs_in rows.entry)) }
    ensures begun { OnErr result (GainedBeginning buf.old buf.new (text_with bounds.now config.now (color_in colors.now) (pairs_in rows.entry))) }
    ensures fault { Tells (fault_with bounds.now config.now (color_in colors.now) (pairs_in rows.entry)) result }
{
    if rows.count_rows() == 0 {
        return Ok(());
    }
    push_picture(alloc, bounds, config, colors, rows, buf)
}
