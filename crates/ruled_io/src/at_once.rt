//! Rows that are shown when all of them are there.

ghost use Rattle.std.specs.Prelude.{◌≡◌, [], Err, List, None, drop, map, true, false, IfErr, IfOk, IfSome, OnErr, OnOk};
ghost use Rattle.std.specs.Io.KnownBytes.{Appends, Keeps};
ghost use Rattle.std.specs.List.{flat_map};
ghost use Rattle.csv.specs.Records.{fields_of};
ghost use Rattle.pg_layout.specs.Text.{Text};
ghost use Rattle.ruled_table.specs.RowLines.{HasAppended};
ghost use Rattle.ruled_table.specs.View.{blocks_fault, blocks_text, record_block, record_fault, records_fault, HasNames};
ghost use Rattle.ruled_table.specs.Columns.{column_fault};
ghost use Rattle.ruled_table.specs.Layouts.{layout_of, start_fault, whole_text, Plan, is_always, plan_in};
ghost use Rattle.ruled_table.specs.View.{all_excess, all_fault, all_text, table_excess, table_fault, table_text, whole_table};
ghost use Rattle.ruled_io.specs.Faults.{is_early, is_of_write, is_read, TellsWrite, failure_in, failure_of, write_part, Begins};
ghost use Rattle.ruled_io.specs.Reading.{ReportsRead, read_failure};
ghost use Rattle.ruled_io.specs.Runs.{AreJoined, CausedAtOnce, LacksInputs, RemarksAll, ShowsAll};
ghost use Rattle.ruled_io.specs.Stream.{Draws, DrawsInMemory};
ghost use Rattle.ruled_io.specs.declared.fault.RunFault.{RunFault};
ghost use Rattle.ruled_table.specs.declared.options.Options.{Options};

use crate::fault::{InputFault, RunFault};
use crate::further::joined;
use crate::heads::{read_heads, rows_needed};
use crate::lines::{write_end, write_rows};
use crate::output::Output;
use crate::pieces::Pieces;
use crate::program::Remarks;
use crate::request::Request;
use ruled_row::TextRow;
use ruled_table::{Blocks, Layout, Options, TableRows, TextColors, chosen_rows, padded_rows};
use std::alloc::Global;
use std::io::{Read, Write};
use std::mem::forget;

// The rows of all inputs: of the first one as many as are needed, and all of those below them. Nothing else is kept of
// rows of separated values, and of a table no row is made that isn't needed.
fn read_rows<R: Read + Drop>(
    alloc: Global,
    request: &Request,
    pieces: &mut Pieces<R>,
) -> Result<Vec<TextRow>, RunFault>
    ensures rows { IfOk result (λ rows. IfSome (R.remaining pieces.old.input) (λ bytes. AreJoined request.now bytes (map fields_of rows.items))) }
    ensures cause { IfErr result (λ fault. IfSome (R.remaining pieces.old.input) (λ bytes. LacksInputs request.now bytes fault)) }
    ensures unwritten { IfErr result (λ fault. write_part fault ≡ None) }
    ensures noted { ReportsRead (read_failure pieces.new) result }
{
    let rows = read_heads(alloc, &request.source, rows_needed(request), pieces)?;
    Ok(joined(alloc, &request.view, &request.further, rows)?)
}

// Writes the lines of all rows of a table, and its end.
fn write_lines<W: Write + Drop>(
    alloc: Global,
    mut table: TableRows<'_>,
    rows: &[TextRow],
    out: &mut Output<W>,
) -> Result<(), RunFault>
    ensures lines { (options : Options) (plan : Plan) → HasAppended options plan [] table.entry
        → OnOk result (Appends (W.contents out.old.writer) (W.contents out.new.writer) (whole_text options plan (map fields_of rows.now))) }
    ensures begun { (options : Options) (plan : Plan) → HasAppended options plan [] table.entry
        → OnErr result (Begins (W.contents out.old.writer) (W.contents out.new.writer) (whole_text options plan (map fields_of rows.now))) }
    ensures told { TellsWrite (failure_of out.old) (failure_of out.new) result }
    ensures writes { IfErr result (λ fault. is_read fault ≡ false) }
{
    let mut buf = String::new(alloc);
    write_rows(&mut table, rows, &mut buf, out)?;
    write_end(table, None, &mut buf, out)
}

// Why rows in memory aren't written. Where their lines can't be counted, they have no room there for their table.
fn fault_in_memory(fault: RunFault) -> RunFault
    ensures part { write_part result ≡ write_part fault }
    ensures read { is_read result ≡ is_read fault }
    ensures late { is_read fault ≡ false → is_early result ≡ false }
{
    match fault {
        RunFault::Input(_) => RunFault::Input(InputFault::Memory),
        _ => fault,
    }
}

// Writes a table of these rows.
fn write_whole<W: Write + Drop>(
    alloc: Global,
    table: TableRows<'_>,
    rows: &[TextRow],
    out: &mut Output<W>,
) -> Result<(), RunFault>
    ensures draws { (options : Options) (plan : Plan) → HasAppended options plan [] table.entry
        → DrawsInMemory (whole_text options plan (map fields_of rows.now)) None (W.contents out.old.writer) (W.contents out.new.writer) result }
    ensures told { TellsWrite (failure_of out.old) (failure_of out.new) result }
{
    match write_lines(alloc, table, rows, out) {
        Ok(()) => Ok(()),
        Err(fault) => Err(fault_in_memory(fault)),
    }
}

// Shows the table of this layout.
fn show_table<W: Write + Drop>(
    alloc: Global,
    options: &Options,
    layout: &Layout,
    rows: &[TextRow],
    out: &mut Output<W>,
) -> Result<(), RunFault>
    ensures draws { plan_in layout.now ≡ layout_of options.now (map fields_of rows.now)
        → Draws (whole_table options.now (map fields_of rows.now)) (start_fault (layout_of options.now (map fields_of rows.now))) (W.contents out.old.writer) (W.contents out.new.writer) result }
    ensures told { TellsWrite (failure_of out.old) (failure_of out.new) result }
{
    let colors = TextColors::new(options, layout, rows);
    let table = TableRows::new(alloc, options, layout, &colors)?;
    write_whole(alloc, table, rows, out)
}

// Writes the block of a record, which is put into the buffer in place of the one before. Texts in memory whose sizes can't
// be counted have no room there for a block.
fn write_block<W: Write + Drop>(
    blocks: &Blocks<'_>,
    fields: &TextRow,
    buf: &mut String,
    out: &mut Output<W>,
) -> Result<(), RunFault>
    ensures draws { (options : Options) (rows : List (List Text)) → HasNames options rows blocks.now
        → DrawsInMemory (record_block options rows (fields_of fields.now)) (record_fault options rows (fields_of fields.now)) (W.contents out.old.writer) (W.contents out.new.writer) result }
    ensures told { TellsWrite (failure_of out.old) (failure_of out.new) result }
{
    buf.clear();
    match blocks.push(fields, buf) {
        Ok(()) => out.write(buf.as_bytes()),
        Err(_) => Err(RunFault::Input(InputFault::Memory)),
    }
}

// Writes the blocks of records.
fn write_blocks<W: Write + Drop>(
    alloc: Global,
    blocks: &Blocks<'_>,
    records: &[TextRow],
    out: &mut Output<W>,
) -> Result<(), RunFault>
    ensures draws { (options : Options) (rows : List (List Text)) → HasNames options rows blocks.now
        → DrawsInMemory (flat_map (record_block options rows) (map fields_of records.now)) (records_fault options rows (map fields_of records.now)) (W.contents out.old.writer)
        (W.contents out.new.writer) result }
    ensures told { TellsWrite (failure_of out.old) (failure_of out.new) result }
{
    let mut buf = String::new(alloc);
    for fields in records {
        write_block(blocks, fields, &mut buf, out)?;
    }
    Ok(())
}

// The records below the row of their names.
fn below_names(rows: &[TextRow]) -> &[TextRow]
    ensures { result.now ≡ drop 1 rows.now }
{
    match rows {
        [_, records @ ..] => records,
        [] => rows,
    }
}

// Shows rows as blocks.
fn show_blocks<W: Write + Drop>(
    alloc: Global,
    options: &Options,
    rows: &[TextRow],
    out: &mut Output<W>,
) -> Result<(), RunFault>
    ensures draws { column_fault options.now.columns.items (map fields_of rows.now) ≡ None
        → Draws (blocks_text options.now (map fields_of rows.now)) (blocks_fault options.now (map fields_of rows.now)) (W.contents out.old.writer) (W.contents out.new.writer) result }
    ensures told { TellsWrite (failure_of out.old) (failure_of out.new) result }
{
    let blocks = Blocks::new(alloc, options, rows)?;
    write_blocks(alloc, &blocks, below_names(rows), out)
}

// Shows rows as one table, unless columns would be left out of it and blocks are asked for then, and returns how wide
// its lines are, if that is more than the width that is set.
fn show_measured<W: Write + Drop>(
    alloc: Global,
    options: &Options,
    mut rows: Vec<TextRow>,
    out: &mut Output<W>,
) -> Result<Option<usize>, RunFault>
    ensures draws { column_fault options.now.columns.items (map fields_of rows.items) ≡ None → is_always options.now.vertical ≡ false
        → Draws (all_text options.now (map fields_of rows.items)) (all_fault options.now (map fields_of rows.items)) (W.contents out.old.writer) (W.contents out.new.writer) result }
    ensures told { TellsWrite (failure_of out.old) (failure_of out.new) result }
    ensures wide { IfOk result (λ wide. wide ≡ all_excess options.now (map fields_of rows.items)) }
{
    if rows.is_empty() {
        return Ok(None);
    }
    let layout = Layout::of_rows(alloc, options, usize::MAX, &mut rows)?;
    if layout.is_in_blocks(options.vertical) {
        return show_blocks(alloc, options, &rows, out).and(Ok(None));
    }
    let wide = layout.excess(options.bounds.width);
    let shown = show_table(alloc, options, &layout, &rows, out).and(Ok(wide));
    // A run ends with its table: to free row after row would take time, and nothing needs their memory.
    forget(rows);
    shown
}

// Shows these rows as one table, or as blocks, and returns how wide the lines of the table are, if that is more than
// the width that is set.
fn show_chosen<W: Write + Drop>(
    alloc: Global,
    options: &Options,
    rows: Vec<TextRow>,
    out: &mut Output<W>,
) -> Result<Option<usize>, RunFault>
    ensures draws { column_fault options.now.columns.items (map fields_of rows.items) ≡ None
        → Draws (all_text options.now (map fields_of rows.items)) (all_fault options.now (map fields_of rows.items)) (W.contents out.old.writer) (W.contents out.new.writer) result }
    ensures told { TellsWrite (failure_of out.old) (failure_of out.new) result }
    ensures wide { IfOk result (λ wide. wide ≡ all_excess options.now (map fields_of rows.items)) }
{
    if options.vertical.is_always() {
        return show_blocks(alloc, options, &rows, out).and(Ok(None));
    }
    show_measured(alloc, options, rows, out)
}

// Shows those of all rows that are asked, and the line below them, and returns how wide the lines of their table are,
// if that is more than the width that is set.
fn show_rows<W: Write + Drop>(
    alloc: Global,
    options: &Options,
    rows: Vec<TextRow>,
    out: &mut Output<W>,
) -> Result<Option<usize>, RunFault>
    ensures draws { Draws (table_text options.now (map fields_of rows.items)) (table_fault options.now (map fields_of rows.items)) (W.contents out.old.writer) (W.contents out.new.writer) result }
    ensures told { TellsWrite (failure_of out.old) (failure_of out.new) result }
    ensures wide { IfOk result (λ wide. wide ≡ table_excess options.now (map fields_of rows.items)) }
{
    let chosen = chosen_rows(alloc, options, rows)?;
    let wide = show_chosen(alloc, options, chosen.rows, out)?;
    out.write(chosen.count.as_bytes()).and(Ok(wide))
}

// Shows what was written, and returns what is remarked on it.
fn flush_remarked<W: Write + Drop>(
    out: &mut Output<W>,
    remarks: Remarks,
) -> Result<Remarks, RunFault>
    ensures kept { Keeps (W.contents out.old.writer) (W.contents out.new.writer) }
    ensures told { failure_of out.new ≡ failure_in result }
    ensures fine { OnOk result (failure_of out.old ≡ None) }
    ensures failed { (fault : RunFault) → result ≡ Err fault → is_of_write fault ≡ true }
    ensures remarks { IfOk result (λ told. told ≡ remarks) }
{
    match out.flush() {
        Ok(()) => Ok(remarks),
        Err(fault) => Err(fault),
    }
}

/// Shows the rows that are asked of an input when all of them are there, and returns what is remarked on them.
pub(crate) fn show_at_once<R: Read + Drop, W: Write + Drop>(
    alloc: Global,
    request: &Request,
    pieces: &mut Pieces<R>,
    out: &mut Output<W>,
) -> Result<Remarks, RunFault>
    ensures shown { OnOk result (IfSome (R.remaining pieces.old.input) (λ bytes. (text : _) × ShowsAll request.now bytes text × Appends (W.contents out.old.writer) (W.contents out.new.writer) text)) }
    ensures cause { IfErr result (λ fault. IfSome (R.remaining pieces.old.input) (λ bytes. CausedAtOnce request.now bytes fault (W.contents out.old.writer) (W.contents out.new.writer))) }
    ensures unwritten { IfErr result (λ fault. is_early fault ≡ true → Keeps (W.contents out.old.writer) (W.contents out.new.writer)) }
    ensures told { TellsWrite (failure_of out.old) (failure_of out.new) result }
    ensures noted { ReportsRead (read_failure pieces.new) result }
    ensures remarks { IfOk result (λ remarks. IfSome (R.remaining pieces.old.input) (λ bytes. RemarksAll request.now bytes remarks)) }
{
    let rows = read_rows(alloc, request, pieces)?;
    let padded = padded_rows(&request.view, &rows);
    let inner = request.source.inner_place(&rows);
    let wide = show_rows(alloc, &request.view, rows, out)?;
    let remarks = Remarks {
        padded,
        wide,
        inner,
    };
    flush_remarked(out, remarks)
}
