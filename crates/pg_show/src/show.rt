//! The table of a script, printed.

ghost use Rattle.std.specs.Prelude.{◌≡◌, ◌↔◌, true, Some, None, Err, IsOk};
ghost use Rattle.pg_picture.specs.Table.{is_empty};
ghost use Rattle.pg_script.specs.Script.{told_of_script};
ghost use Rattle.pg_picture.specs.declared.fault.PrintFault.{PrintFault};
ghost use Rattle.pg_show.specs.Show.{fault_of_table, misfit_in, natural_config, table_of_told, text_in, Prints, Shows};
ghost use Rattle.pg_show.specs.declared.mode.Mode.TheVariants as mode;

use crate::mode::Mode;
use pg_config::{CompactConfig, SpannedConfig};
use pg_grid::{CompactGrid, IterGrid, PeekableGrid, TablePrinter};
use pg_layout::{Borders, Entity, NoColors};
use pg_picture::PrintFault;
use pg_picture::fits::Misfit;
use pg_script::Script;
use pg_table::{NaturalTable, TableFault};
use std::alloc::Allocator;

/// Appends the table of a script, as the mode's printer draws it.
///
/// A table that doesn't fit is refused, even if memory is refused too, and the buffer is unchanged.
/// After out of memory the buffer has gained a beginning of the table's text. `alloc` provides the
/// memory for the cells that a printer keeps, or for the sizes of columns and rows; only
/// [`Mode::Iter`] and [`Mode::Table`] use it. A table with no rows or no columns is never refused,
/// and leaves the buffer unchanged.
pub fn print_script<C: Allocator + Copy, A: Allocator, B: Allocator>(
    alloc: C,
    script: &Script<A>,
    mode: Mode,
    buf: &mut String<B>,
) -> Result<(), PrintFault>
    ensures misfit { (m : _) → (result ≡ Err (PrintFault.Misfit m)) ↔ (misfit_in mode (told_of_script script.now) ≡ Some m) }
    ensures kept { (m : _) → result ≡ Err (PrintFault.Misfit m) → buf.new ≡ buf.old }
    ensures printed { misfit_in mode (told_of_script script.now) ≡ None → Prints mode buf.old buf.new result (text_in mode (told_of_script script.now)) }
    ensures empty { is_empty (table_of_told (told_of_script script.now)) ≡ true → IsOk result × (buf.new ≡ buf.old) }
{
    match mode {
        Mode::Compact => print_compact(script, buf),
        Mode::Iter => print_streamed(alloc, script, buf),
        Mode::Peek => print_peekable(script, buf),
        Mode::Table => print_natural(alloc, script, buf),
    }
}

// Appends the table of a script as a compact one, if it fits.
fn print_compact<A: Allocator, B: Allocator>(
    script: &Script<A>,
    buf: &mut String<B>,
) -> Result<(), PrintFault>
    ensures shows { Shows mode.Compact (told_of_script script.now) buf.old buf.new result }
    ensures empty { is_empty (table_of_told (told_of_script script.now)) ≡ true → IsOk result × (buf.new ≡ buf.old) }
{
    let (dimension, colors) = (&script.dimension, &script.colors);
    let config = CompactConfig::of(&script.config);
    CompactGrid::new(&script.records, &config, dimension, colors).print(buf)
}

// Appends the table of a script, its rows read once, if it fits.
fn print_streamed<C: Allocator, A: Allocator, B: Allocator>(
    alloc: C,
    script: &Script<A>,
    buf: &mut String<B>,
) -> Result<(), PrintFault>
    ensures shows { Shows mode.Iter (told_of_script script.now) buf.old buf.new result }
    ensures empty { is_empty (table_of_told (told_of_script script.now)) ≡ true → IsOk result × (buf.new ≡ buf.old) }
{
    let (dimension, colors) = (&script.dimension, &script.colors);
    let grid = IterGrid::new(&script.records, &script.config, dimension, colors);
    grid.with_memory(alloc).print(buf)
}

// Appends the table of a script, its texts looked up, if it fits.
fn print_peekable<A: Allocator, B: Allocator>(
    script: &Script<A>,
    buf: &mut String<B>,
) -> Result<(), PrintFault>
    ensures shows { Shows mode.Peek (told_of_script script.now) buf.old buf.new result }
    ensures empty { is_empty (table_of_told (told_of_script script.now)) ≡ true → IsOk result × (buf.new ≡ buf.old) }
{
    let (dimension, colors) = (&script.dimension, &script.colors);
    PeekableGrid::new(&script.records, &script.config, dimension, colors).print(buf)
}

// Appends the texts of a script at their natural sizes, if these fit.
fn print_natural<C: Allocator + Copy, A: Allocator, B: Allocator>(
    alloc: C,
    script: &Script<A>,
    buf: &mut String<B>,
) -> Result<(), PrintFault>
    ensures shows { Shows mode.Table (told_of_script script.now) buf.old buf.new result }
    ensures empty { is_empty (table_of_told (told_of_script script.now)) ≡ true → IsOk result × (buf.new ≡ buf.old) }
{
    let config = natural_config(alloc, &script.config);
    match NaturalTable::new(&script.records, &config, &NoColors).print(alloc, buf) {
        Ok(()) => Ok(()),
        Err(fault) => Err(fault_of_table(fault)),
    }
}

// The fault of a script's table at its natural sizes. All rows of a script have one length.
fn fault_of_table(fault: TableFault) -> PrintFault
    ensures { result ≡ fault_of_table fault }
{
    match fault {
        TableFault::Memory => PrintFault::Memory,
        TableFault::Spans => PrintFault::Misfit(Misfit::Spans),
        TableFault::Totals | TableFault::Ragged(_) => PrintFault::Misfit(Misfit::Totals),
    }
}

// The settings of a table at its natural sizes. Allocates nothing.
fn natural_config<C: Allocator + Copy, A: Allocator>(
    alloc: C,
    told: &SpannedConfig<A>,
) -> SpannedConfig<C>
    ensures { result ≡ natural_config told.now }
{
    let of_all = CompactConfig::of(told);
    let (padding, alignment) = (of_all.get_padding(), of_all.get_alignment_horizontal());
    let mut config = SpannedConfig::new(alloc);
    config.set_borders(Borders::ascii());
    config.set_padding(Entity::Global, padding).unwrap();
    config
        .set_alignment_horizontal(Entity::Global, alignment)
        .unwrap();
    config
}
