//! Rows that are shown one after another, each when it comes.

ghost use Rattle.std.specs.Prelude.{◌≡◌, ◌<◌, ◌++◌, ◌∷◌, [], ℕ, List, None, Option, Some, map, option_map, take, string_bytes, false, true, Err, IfErr, IfOk, IfSome, OnOk};
ghost use Rattle.std.specs.Io.KnownBytes.{Keeps};
ghost use Rattle.csv.specs.Records.{fields_of};
ghost use Rattle.ruled_json.specs.Rows.{rules_of};
ghost use Rattle.ruled_json.specs.Streamed.{LineRules};
ghost use Rattle.ruled_table.specs.RowLines.{HasAppended};
ghost use Rattle.ruled_table.specs.Layouts.{Plan};
ghost use Rattle.ruled_io.specs.Faults.{IsOfRead, but_line_in, is_failure, is_of_write, TellsWrite, failure_in, failure_of};
ghost use Rattle.ruled_io.specs.Reading.{IsHeld, Origin, of_table, ReportsRead, StandsIn, read_failure, sound_rows, wrong_in};
ghost use Rattle.ruled_io.specs.Stream.{EndsSo, IsEnough, wrong_within};
ghost use Rattle.ruled_io.specs.Stream.{Ends, EndsOf, StreamsAll, first_count, has_names, line_rules, named_count, record_count};
ghost use Rattle.ruled_io.specs.Requests.{holds_database};
ghost use Rattle.ruled_io.specs.declared.fault.ReadFault.{ReadFault};
ghost use Rattle.ruled_io.specs.declared.fault.RunFault.{RunFault};
ghost use Rattle.ruled_io.specs.declared.formats.Format.{Format};
ghost use Rattle.ruled_table.specs.declared.options.Options.{Options};

use crate::fault::{InputFault, RunFault, StreamedFault};
use crate::formats::{Format, content_of, format_streamed};
use crate::lines::{write_end, write_rows};
use crate::output::Output;
use crate::pieces::Pieces;
use crate::program::Remarks;
use crate::reader::Reading;
use crate::request::{Request, Selection};
use ruled_database::open_table;
use ruled_json::MemberRules;
use ruled_row::TextRow;
use ruled_table::{Layout, Options, TableRows, TextColors};
use std::alloc::Global;
use std::io::{Read, Write};

// Writes the lines of rows that were given and of those that follow them, and the end of the table.
fn write_table<R: Read + Drop, W: Write + Drop>(
    alloc: Global,
    mut table: TableRows<'_>,
    mut reading: Reading<'_>,
    mut rows: Vec<TextRow>,
    pieces: &mut Pieces<R>,
    out: &mut Output<W>,
) -> Result<(), RunFault>
    ensures ends { (options : Options) (plan : Plan) (origin : Origin) (above : List (List (List ℕ)))
        → StandsIn origin (R.remaining pieces.old.input) (above ++ map fields_of rows.items) reading.entry
        → HasAppended options plan above table.entry
        → EndsSo options plan origin (above ++ map fields_of rows.items) reading.entry above (W.contents out.old.writer) (W.contents out.new.writer) result }
    ensures told { TellsWrite (failure_of out.old) (failure_of out.new) result }
    ensures noted { ReportsRead (read_failure pieces.new) result }
{
    let mut buf = String::new(alloc);
    for _ in 0..usize::MAX {
        write_rows(&mut table, &rows, &mut buf, out)?;
        rows.clear();
        match reading {
            Reading::Done(wrong) => return write_end(table, wrong, &mut buf, out),
            more => {
                out.flush()?;
                reading = pieces.read_on(more, &mut rows)?;
            }
        }
    }
    Err(RunFault::Input(InputFault::Memory))
}

/// Reads on until so many rows are there, or all.
pub(crate) fn read_first<'d, R: Read + Drop>(
    mut reading: Reading<'d>,
    count: usize,
    pieces: &mut Pieces<R>,
    rows: &mut Vec<TextRow>,
) -> Result<Reading<'d>, RunFault>
    ensures given { (origin : Origin) → StandsIn origin (R.remaining pieces.old.input) (map fields_of rows.old.items) reading.entry
        → IfOk result (StandsIn origin (R.remaining pieces.new.input) (map fields_of rows.new.items)) }
    ensures enough { IfOk result (IsEnough count (map fields_of rows.new.items)) }
    ensures failed { IfErr result IsOfRead }
    ensures noted { ReportsRead (read_failure pieces.new) result }
{
    for _ in 0..usize::MAX {
        match reading {
            Reading::Done(wrong) => return Ok(Reading::Done(wrong)),
            more => {
                if rows.len() >= count {
                    return Ok(more);
                }
                reading = pieces.read_on(more, rows)?;
            }
        }
    }
    Err(RunFault::Input(InputFault::Memory))
}

/// What keeps the first rows from being shown: they end at a bad one.
pub(crate) fn wrong_within(reading: &Reading<'_>, count: usize, rows: usize) -> Option<InputFault>
    ensures { result ≡ wrong_within count rows reading.now }
{
    match reading {
        Reading::Done(wrong) if rows < count => *wrong,
        _ => None,
    }
}

// Shows the table whose first rows are there, and returns what is remarked on it.
fn show_table<R: Read + Drop, W: Write + Drop>(
    alloc: Global,
    options: &Options,
    count: usize,
    reading: Reading<'_>,
    mut rows: Vec<TextRow>,
    pieces: &mut Pieces<R>,
    out: &mut Output<W>,
) -> Result<Remarks, RunFault>
    ensures ends { (origin : Origin) → 0 < count → IsEnough count (map fields_of rows.items) reading.entry
        → StandsIn origin (R.remaining pieces.old.input) (map fields_of rows.items) reading.entry
        → EndsOf options.now count (IsHeld origin) (W.contents out.old.writer) (W.contents out.new.writer) result }
    ensures told { TellsWrite (failure_of out.old) (failure_of out.new) result }
    ensures noted { ReportsRead (read_failure pieces.new) result }
{
    if let Some(fault) = wrong_within(&reading, count, rows.len()) {
        return Err(RunFault::Input(fault));
    }
    if rows.is_empty() {
        return Ok(Remarks::NONE);
    }
    let layout = Layout::of_rows(alloc, options, count, &mut rows)?;
    let colors = TextColors::new(options, &layout, &[]);
    let table = TableRows::new(alloc, options, &layout, &colors)?;
    let wide = layout.excess(options.bounds.width);
    let answer = write_table(alloc, table, reading, rows, pieces, out);
    let remarks = Remarks {
        padded: 0,
        wide,
        inner: None,
    };
    answer.and(Ok(remarks))
}

// How many records are first, at least one.
fn record_count(count: usize) -> usize
    ensures { result ≡ record_count count }
{
    if count == 0 { 1 } else { count }
}

// Whether row 0 is no record.
fn has_names(options: &Options, format: Format) -> bool
    ensures { result ≡ has_names options.now format }
{
    match format {
        Format::Separated(_) => options.has_header,
        Format::Json | Format::JsonLines => true,
    }
}

// How many rows are first.
fn first_count(options: &Options, format: Format, count: usize) -> usize
    ensures same { result ≡ first_count options.now format count }
    ensures some { 0 < result }
{
    let records = record_count(count);
    if has_names(options, format) {
        records.saturating_add(1)
    } else {
        records
    }
}

// Shows the rows of an input in this format, of which these are the first bytes. The rules say how JSON is read.
fn show_rows<R: Read + Drop, W: Write + Drop>(
    alloc: Global,
    options: &Options,
    format: Format,
    members: &MemberRules,
    count: usize,
    front: &[u8],
    pieces: &mut Pieces<R>,
    out: &mut Output<W>,
) -> Result<Remarks, RunFault>
    ensures ends { (rest : List ℕ) → R.remaining pieces.old.input ≡ Some rest
        → Ends options.now (first_count options.now format count) (sound_rows format (line_rules count (rules_of members.now)) (front.now ++ rest))
        (wrong_in format (line_rules count (rules_of members.now)) (front.now ++ rest)) (W.contents out.old.writer) (W.contents out.new.writer) result }
    ensures told { TellsWrite (failure_of out.old) (failure_of out.new) result }
    ensures noted { ReportsRead (read_failure pieces.new) result }
{
    let mut rows = Vec::new(alloc);
    let reading = Reading::of_front(
        alloc,
        format,
        members,
        record_count(count),
        front,
        &mut rows,
    )?;
    let first = first_count(options, format, count);
    let reading = read_first(reading, first, pieces, &mut rows)?;
    show_table(alloc, options, first, reading, rows, pieces, out)
}

// Shows the rows of the table of this name of the database that has these bytes, with this text for NULL.
fn show_stored<R: Read + Drop, W: Write + Drop>(
    alloc: Global,
    options: &Options,
    bytes: &[u8],
    name: &str,
    null: &str,
    count: usize,
    pieces: &mut Pieces<R>,
    out: &mut Output<W>,
) -> Result<Remarks, RunFault>
    ensures ends { EndsOf options.now (named_count count) (IsHeld (of_table bytes.now name.now null.now)) (W.contents out.old.writer) (W.contents out.new.writer) result }
    ensures told { TellsWrite (failure_of out.old) (failure_of out.new) result }
    ensures noted { ReportsRead (read_failure pieces.new) result }
{
    match open_table(alloc, bytes, name, null) {
        Ok((names, table)) => {
            let mut rows = Vec::new(alloc);
            rows.push(names)?;
            let first = record_count(count).saturating_add(1);
            let reading = read_first(Reading::Stored(table), first, pieces, &mut rows)?;
            show_table(alloc, options, first, reading, rows, pieces, out)
        }
        Err(fault) => Err(RunFault::Input(fault.into())),
    }
}

// Shows what is asked of a database of which these are the first bytes. Only a table is shown row by row.
fn show_database<R: Read + Drop, W: Write + Drop>(
    alloc: Global,
    request: &Request,
    count: usize,
    front: Vec<u8>,
    pieces: &mut Pieces<R>,
    out: &mut Output<W>,
) -> Result<Remarks, RunFault>
    ensures ends { (rest : List ℕ) → R.remaining pieces.old.input ≡ Some rest → holds_database request.now.source (front.items ++ rest) ≡ true
        → StreamsAll request.now count (front.items ++ rest) (W.contents out.old.writer) (W.contents out.new.writer) result }
    ensures told { TellsWrite (failure_of out.old) (failure_of out.new) result }
    ensures noted { ReportsRead (read_failure pieces.new) result }
{
    match request.source.selection() {
        Some(Selection::Table { name, null }) => {
            let mut bytes = front;
            pieces.read_rest(&mut bytes)?;
            if request.source.log().hides_rows(&bytes) {
                return Err(RunFault::Input(InputFault::Log));
            }
            let (name, null) = (name.as_str(), null.as_str());
            show_stored(alloc, &request.view, &bytes, name, null, count, pieces, out)
        }
        Some(Selection::Query(_) | Selection::Tables) | None => {
            Err(RunFault::Input(InputFault::Stream(StreamedFault::Database)))
        }
    }
}

// Shows the rows of an input.
fn show_input<R: Read + Drop, W: Write + Drop>(
    alloc: Global,
    request: &Request,
    count: usize,
    pieces: &mut Pieces<R>,
    out: &mut Output<W>,
) -> Result<Remarks, RunFault>
    ensures ends { IfSome (R.remaining pieces.old.input) (λ bytes. StreamsAll request.now count bytes (W.contents out.old.writer) (W.contents out.new.writer) result) }
    ensures told { TellsWrite (failure_of out.old) (failure_of out.new) result }
    ensures noted { ReportsRead (read_failure pieces.new) result }
{
    let front = pieces.read_front(alloc, &request.source)?;
    if request.source.is_database(&front) {
        return show_database(alloc, request, count, front, pieces, out);
    }
    let format = format_streamed(request.source.known(), &front);
    let plain = MemberRules::new(alloc);
    let members = request.source.members_or(&plain);
    let content = content_of(format, &front);
    show_rows(
        alloc,
        &request.view,
        format,
        members,
        count,
        content,
        pieces,
        out,
    )
}

// Flushes the output after its end, whatever the result is.
fn show_to_end<W: Write + Drop>(
    answer: Result<Remarks, RunFault>,
    out: &mut Output<W>,
) -> Result<Remarks, RunFault>
    ensures kept { Keeps (W.contents out.old.writer) (W.contents out.new.writer) }
    ensures fine { OnOk result (answer ≡ result) }
    ensures early { (fault : RunFault) → result ≡ Err fault → is_failure fault ≡ false → answer ≡ result }
    ensures noted { (failure : Option ReadFault) → ReportsRead failure answer → ReportsRead failure result }
    ensures told { failure_of out.old ≡ failure_in answer → failure_of out.new ≡ failure_in result }
{
    out.flush()?;
    answer
}

/// Shows the rows that the bytes of an input hold one after another, each when it comes, in the layout of the first so
/// many, and returns what is remarked on their table.
pub(crate) fn stream<R: Read + Drop, W: Write + Drop>(
    alloc: Global,
    request: &Request,
    count: usize,
    pieces: &mut Pieces<R>,
    out: &mut Output<W>,
) -> Result<Remarks, RunFault>
    ensures ends { IfSome (R.remaining pieces.old.input) (λ bytes. StreamsAll request.now count bytes (W.contents out.old.writer) (W.contents out.new.writer) result) }
    ensures told { TellsWrite (failure_of out.old) (failure_of out.new) result }
    ensures noted { ReportsRead (read_failure pieces.new) result }
{
    let answer = show_input(alloc, request, count, pieces, out);
    show_to_end(answer, out)
}
