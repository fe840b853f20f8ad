//! A run over a reader and two writers.

ghost use Rattle.std.specs.Prelude.{◌≡◌, true, Ok, Some, None, IfErr, IfOk, IfSome, OnOk};
ghost use Rattle.std.specs.Io.KnownBytes.{Appends, Keeps};
ghost use Rattle.std.specs.Result.{result_err};
ghost use Rattle.ruled_io.specs.Faults.{is_early, is_read, read_part, status_after, TellsWrite, failure_of, fault_written, written};
ghost use Rattle.ruled_io.specs.Reading.{ReportsRead, read_failure, left_in};
ghost use Rattle.ruled_io.specs.Runs.{AreRemarks, Caused, Shows};
ghost use Rattle.ruled_io.specs.declared.fault.RunFault.{RunFault};
ghost use Rattle.ruled_io.specs.declared.request.Rows.{Rows};

use crate::at_once::show_at_once;
use crate::fault::RunFault;
use crate::output::Output;
use crate::pieces::Pieces;
use crate::request::{Request, Rows};
use crate::stream::stream;
use ruled_table::Options;
use std::alloc::Global;
use std::io;
use std::io::{Read, Write};

/// What a run remarks on a table that it has shown.
#[derive(Clone, Copy)]
pub struct Remarks {
    /// How many rows had fewer fields than there are columns, and were padded.
    pub padded: usize,
    /// How many terminal columns a line takes, if these are more than the width that is set. `None` for blocks.
    pub wide: Option<usize>,
    /// The first place at which the only record of one JSON value has an array of objects.
    pub inner: Option<usize>,
}

impl Remarks {
    /// There is nothing to remark.
    pub(crate) const NONE: Remarks = Remarks {
        padded: 0,
        wide: None,
        inner: None,
    };
}

/// How a run ended.
#[derive(Clone, Copy)]
pub struct Ending {
    /// Why no table was shown, or not all of it; `None` if all was.
    pub fault: Option<RunFault>,
    /// What was remarked on it, if all was.
    pub remarks: Remarks,
}

impl Ending {
    /// The exit status: 0 if a table was shown, or nobody reads it.
    pub fn status(&self) -> u8
        ensures { result ≡ status_after self.now.fault }
    {
        match self.fault {
            Some(fault) => fault.status(),
            None => 0,
        }
    }
}

// Shows the table of the input, at once or row by row, and returns what is remarked on it.
fn show<R: Read + Drop, W: Write + Drop>(
    alloc: Global,
    request: &Request,
    pieces: &mut Pieces<R>,
    out: &mut Output<W>,
) -> Result<Remarks, RunFault>
    ensures shown { OnOk result (IfSome (R.remaining pieces.old.input) (λ bytes. (text : _) × Shows request.now bytes text × Appends (W.contents out.old.writer) (W.contents out.new.writer) text)) }
    ensures cause { IfErr result (λ fault. IfSome (R.remaining pieces.old.input) (λ bytes. Caused request.now bytes fault (W.contents out.old.writer) (W.contents out.new.writer))) }
    ensures unwritten { request.now.rows ≡ Rows.AtOnce → IfErr result (λ fault. is_early fault ≡ true → Keeps (W.contents out.old.writer) (W.contents out.new.writer)) }
    ensures told { TellsWrite (failure_of out.old) (failure_of out.new) result }
    ensures noted { ReportsRead (read_failure pieces.new) result }
    ensures remarks { IfOk result (λ remarks. IfSome (R.remaining pieces.old.input) (λ bytes. AreRemarks request.now bytes remarks)) }
{
    match request.rows {
        Rows::AtOnce => show_at_once(alloc, request, pieces, out),
        Rows::FromFirst(count) => stream(alloc, request, count, pieces, out),
    }
}

// Writes how many rows were padded, if any were. An error is the writer's.
fn tell_padded<W: Write>(padded: usize, err: &mut W) -> io::Result<()>
    ensures { padded ≡ 0 → Keeps (W.contents err.old) (W.contents err.new) }
{
    if padded == 0 {
        return Ok(());
    }
    let rows = if padded == 1 { "row was" } else { "rows were" };
    writeln!(err, "ruled: {padded} {rows} padded")?;
    err.flush()
}

// Writes how wide a table is, if that is more than the width that is set. An error is the writer's.
fn tell_wide<W: Write>(wide: Option<usize>, options: &Options, err: &mut W) -> io::Result<()>
    ensures { wide ≡ None → Keeps (W.contents err.old) (W.contents err.new) }
{
    let Some(wide) = wide else {
        return Ok(());
    };
    let Some(width) = options.bounds.width else {
        return Ok(());
    };
    writeln!(
        err,
        "ruled: the table is {wide} columns wide, not {width}; see --omit and --vertical"
    )?;
    err.flush()
}

// Writes that a column is an array of objects, if there is one at this place. An error is the writer's.
fn tell_inner<W: Write>(inner: Option<usize>, err: &mut W) -> io::Result<()>
    ensures { inner ≡ None → Keeps (W.contents err.old) (W.contents err.new) }
{
    let Some(place) = inner else {
        return Ok(());
    };
    let column = place.saturating_add(1);
    writeln!(
        err,
        "ruled: column {column} is an array of objects; see --at"
    )?;
    err.flush()
}

// Writes what is remarked on a table, if anything is. An error is the writer's.
fn tell<W: Write>(remarks: Remarks, options: &Options, err: &mut W) -> io::Result<()>
    ensures { remarks.padded ≡ 0 → remarks.wide ≡ None → remarks.inner ≡ None → Keeps (W.contents err.old) (W.contents err.new) }
{
    tell_padded(remarks.padded, err)?;
    tell_wide(remarks.wide, options, err)?;
    tell_inner(remarks.inner, err)
}

// The ending of a run with this result. Its fault is reported, unless nobody reads the output, and so are remarks.
fn ending_of<W: Write>(answer: Result<Remarks, RunFault>, request: &Request, err: &mut W) -> Ending
    ensures fault { result.fault ≡ result_err answer }
    ensures remarks { IfOk answer (λ remarks. result.remarks ≡ remarks) }
    ensures silent { result.fault ≡ None → result.remarks.padded ≡ 0 → result.remarks.wide ≡ None → result.remarks.inner ≡ None → Keeps (W.contents err.old) (W.contents err.new) }
    ensures closed { result.fault ≡ Some RunFault.Closed → Keeps (W.contents err.old) (W.contents err.new) }
{
    match answer {
        Ok(remarks) => {
            let _ = tell(remarks, &request.view, err);
            Ending {
                fault: None,
                remarks,
            }
        }
        Err(RunFault::Closed) => Ending {
            fault: Some(RunFault::Closed),
            remarks: Remarks::NONE,
        },
        Err(fault) => {
            let _ = fault.tell(request, err);
            Ending {
                fault: Some(fault),
                remarks: Remarks::NONE,
            }
        }
    }
}

/// Shows the table of the rows that are requested of `input`, or reports why there is none: for a
/// database the rows of its query, else those that the bytes hold. At once, rows of further inputs are below them.
///
/// At once, `input` is read to its end, to its first bad row, or as far as the first rows need, and what is wrong with
/// the rows or their table is reported, before anything is written.
/// Then each row is written to `out` when it is drawn, so no text of the table is kept. If memory is refused or a
/// write fails meanwhile, a beginning of the text has been written.
///
/// Row by row, the first so many rows, at least one, and the header determine widths and sides, or
/// all rows if there are fewer; nothing is written before these have come. Then each row is written
/// to `out` when its line has come, with texts wider than their column wrapped or cut, and `out` is
/// flushed. Memory is that of the first rows, of one row and of buffers, whatever the input. A
/// fault of the first rows, `Totals` included, is reported before anything is written. A later one
/// ends the table after the rows above it, and so does `Totals` of a row without room below them,
/// whose lines can't be counted.
///
/// Each fault is one line on `err`, except that nothing is reported where nobody reads what is written. If rows were
/// padded, one line says how many, if a table is wider than the width that is set, one says how wide it is, and if the
/// only record of a JSON value has an array of objects, one names its column. A failed write to `err` changes no result. `Closed` and `Write` are returned if a
/// write to `out` has failed so, and only then; `Read` only if a read of `input` has failed.
pub fn run<R: Read + Drop, W1: Write + Drop, W2: Write>(
    alloc: Global,
    request: &Request,
    input: &mut Pieces<R>,
    out: &mut Output<W1>,
    err: &mut W2,
) -> Ending
    ensures shown { result.fault ≡ None → IfSome (left_in R.remaining input.old)
        (λ bytes. (text : _) × Shows request.now bytes text × Appends (written W1.contents out.old) (written W1.contents out.new) text) }
    ensures cause { IfSome result.fault (λ fault. IfSome (left_in R.remaining input.old) (λ bytes. Caused request.now bytes fault (written W1.contents out.old) (written W1.contents out.new))) }
    ensures unwritten { request.now.rows ≡ Rows.AtOnce → IfSome result.fault (λ fault. is_early fault ≡ true → Keeps (written W1.contents out.old) (written W1.contents out.new)) }
    ensures failed { failure_of out.old ≡ None → failure_of out.new ≡ fault_written result.fault }
    ensures read { IfSome result.fault (λ fault. is_read fault ≡ true → read_failure input.new ≡ read_part fault) }
    ensures remarks { result.fault ≡ None → IfSome (left_in R.remaining input.old) (λ bytes. AreRemarks request.now bytes result.remarks) }
    ensures silent { result.fault ≡ None → result.remarks.padded ≡ 0 → result.remarks.wide ≡ None → result.remarks.inner ≡ None → Keeps (W2.contents err.old) (W2.contents err.new) }
    ensures closed { result.fault ≡ Some RunFault.Closed → Keeps (W2.contents err.old) (W2.contents err.new) }
{
    ending_of(show(alloc, request, input, out), request, err)
}
