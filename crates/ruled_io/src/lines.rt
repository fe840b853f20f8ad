//! The lines of a table that are written one row after another.

ghost use Rattle.std.specs.Prelude.{◌≡◌, ◌++◌, ◌∷◌, [], ℕ, List, Option, map, option_map, string_bytes, false, IfErr, OnOk};
ghost use Rattle.csv.specs.Records.{fields_of};
ghost use Rattle.ruled_table.specs.RowLines.{HasAppended};
ghost use Rattle.ruled_table.specs.Layouts.{Plan};
ghost use Rattle.ruled_io.specs.Faults.{but_line_in, is_read, TellsWrite, failure_of};
ghost use Rattle.ruled_io.specs.Stream.{EndsBelow, FailsIn, WritesBut, WritesRows};
ghost use Rattle.ruled_table.specs.declared.options.Options.{Options};

use crate::fault::{InputFault, RunFault};
use crate::output::Output;
use ruled_row::TextRow;
use ruled_table::TableRows;
use std::io::Write;

// How many bytes of lines are written at once. A write of each row would take longer.
const MANY: usize = 16_384;

// Appends the lines of a row to those that wait to be written, and writes all of them once they are many, or if no room
// is left for the row.
fn write_row<W: Write + Drop>(
    table: &mut TableRows<'_>,
    fields: &TextRow,
    buf: &mut String,
    out: &mut Output<W>,
) -> Result<(), RunFault>
    ensures after { (options : Options) (plan : Plan) (above : List (List (List ℕ))) → HasAppended options plan above table.old
        → OnOk result (HasAppended options plan (above ++ fields_of fields.now ∷ []) table.new) }
    ensures written { (options : Options) (plan : Plan) (above rows : List (List (List ℕ))) (old : Option (List ℕ)) → HasAppended options plan (above ++ rows) table.old
        → WritesBut options plan above rows old (W.contents out.old.writer) (string_bytes buf.old)
        → OnOk result (WritesBut options plan above (rows ++ fields_of fields.now ∷ []) old (W.contents out.new.writer) (string_bytes buf.new)) }
    ensures failed { (options : Options) (plan : Plan) (above rows : List (List (List ℕ))) (old : Option (List ℕ)) → HasAppended options plan (above ++ rows) table.old
        → WritesBut options plan above rows old (W.contents out.old.writer) (string_bytes buf.old)
        → IfErr result (FailsIn options plan above (rows ++ fields_of fields.now ∷ []) old (W.contents out.new.writer)) }
    ensures told { TellsWrite (failure_of out.old) (failure_of out.new) result }
    ensures writes { IfErr result (λ fault. is_read fault ≡ false) }
{
    let pushed = table.push(fields, buf);
    if pushed.is_ok() && buf.len() < MANY {
        return Ok(());
    }
    out.write(buf.as_bytes())?;
    buf.clear();
    Ok(pushed?)
}

/// Writes the lines of rows.
pub(crate) fn write_rows<W: Write + Drop>(
    table: &mut TableRows<'_>,
    rows: &[TextRow],
    buf: &mut String,
    out: &mut Output<W>,
) -> Result<(), RunFault>
    ensures after { (options : Options) (plan : Plan) (above : List (List (List ℕ))) → HasAppended options plan above table.old
        → OnOk result (HasAppended options plan (above ++ map fields_of rows.now) table.new) }
    ensures written { (options : Options) (plan : Plan) (above : List (List (List ℕ))) → HasAppended options plan above table.old
        → OnOk result (WritesRows options plan above (map fields_of rows.now) (W.contents out.old.writer) (W.contents out.new.writer)) }
    ensures failed { (options : Options) (plan : Plan) (above : List (List (List ℕ))) → HasAppended options plan above table.old
        → IfErr result (FailsIn options plan above (map fields_of rows.now) (W.contents out.old.writer) (W.contents out.new.writer)) }
    ensures told { TellsWrite (failure_of out.old) (failure_of out.new) result }
    ensures writes { IfErr result (λ fault. is_read fault ≡ false) }
{
    buf.clear();
    for fields in rows {
        write_row(table, fields, buf, out)?;
    }
    out.write(buf.as_bytes())
}

/// Writes the end of a table whose rows are all there are, or tells what is wrong behind them.
pub(crate) fn write_end<W: Write + Drop>(
    table: TableRows<'_>,
    wrong: Option<InputFault>,
    buf: &mut String,
    out: &mut Output<W>,
) -> Result<(), RunFault>
    ensures ends { (options : Options) (plan : Plan) (rows : List (List (List ℕ))) → HasAppended options plan rows table.entry
        → EndsBelow options plan rows (option_map but_line_in wrong) rows (W.contents out.old.writer) (W.contents out.new.writer) result }
    ensures told { TellsWrite (failure_of out.old) (failure_of out.new) result }
    ensures writes { IfErr result (λ fault. is_read fault ≡ false) }
{
    if let Some(fault) = wrong {
        return Err(RunFault::Input(fault));
    }
    buf.clear();
    table.finish(buf)?;
    out.write(buf.as_bytes())
}
