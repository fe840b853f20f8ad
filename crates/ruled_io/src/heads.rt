//! The first rows of an input, of which no more is read than they need.

ghost use Rattle.std.specs.Prelude.{◌≡◌, ◌++◌, ℕ, List, None, Some, map, IfErr, IfOk, IfSome};
ghost use Rattle.csv.specs.Records.{fields_of};
ghost use Rattle.ruled_io.specs.Faults.{write_part};
ghost use Rattle.ruled_io.specs.Reading.{ReportsRead, read_failure};
ghost use Rattle.ruled_io.specs.Requests.{holds_database, rows_needed};
ghost use Rattle.ruled_io.specs.Runs.{AreRows, LacksInput};
ghost use Rattle.ruled_io.specs.Stream.{AreFirst, LacksFirst, limit_of_whole};

use crate::fault::{InputFault, RunFault};
use crate::formats::{Format, content_of, format_streamed};
use crate::input::all_rows;
use crate::pieces::Pieces;
use crate::reader::Reading;
use crate::request::{Request, Source};
use crate::stream::{read_first, wrong_within};
use ruled_json::MemberRules;
use ruled_row::TextRow;
use ruled_table::limit_of;
use std::alloc::Global;
use std::io::Read;

/// How many rows are needed of the first input, if not all.
pub(crate) fn rows_needed(request: &Request) -> Option<usize>
    ensures { result ≡ rows_needed request.now }
{
    let options = &request.view;
    if !request.further.is_empty() || options.is_padded || options.sort.is_some() {
        return None;
    }
    let limit = limit_of(options)?;
    Some(if options.names.is_empty() {
        limit.max(1)
    } else {
        limit.saturating_sub(1)
    })
}

// The first rows of separated values, of which these are the first bytes.
fn first_rows<R: Read + Drop>(
    alloc: Global,
    format: Format,
    limit: usize,
    front: &[u8],
    pieces: &mut Pieces<R>,
) -> Result<Vec<TextRow>, RunFault>
    ensures rows { (rest : List ℕ) → R.remaining pieces.old.input ≡ Some rest → IfOk result (λ rows. AreFirst format limit (front.now ++ rest) (map fields_of rows.items)) }
    ensures cause { (rest : List ℕ) → R.remaining pieces.old.input ≡ Some rest → IfErr result (LacksFirst format limit (front.now ++ rest)) }
    ensures unwritten { IfErr result (λ fault. write_part fault ≡ None) }
    ensures noted { ReportsRead (read_failure pieces.new) result }
{
    let mut rows = Vec::new(alloc);
    let plain = MemberRules::new(alloc);
    let reading = Reading::of_front(alloc, format, &plain, 1, front, &mut rows)?;
    let reading = read_first(reading, limit, pieces, &mut rows)?;
    if let Some(fault) = wrong_within(&reading, limit, rows.len()) {
        return Err(RunFault::Input(fault));
    }
    rows.truncate(limit);
    Ok(rows)
}

// The rows of an input that is read to its end, of which these are the first bytes. Of a table of a database, so many are
// needed, if not all.
fn whole_rows<R: Read + Drop>(
    alloc: Global,
    source: &Source,
    needed: Option<usize>,
    front: Vec<u8>,
    pieces: &mut Pieces<R>,
) -> Result<Vec<TextRow>, RunFault>
    ensures rows { IfOk result (λ rows. IfSome (R.remaining pieces.old.input) (λ rest. AreRows (limit_of_whole (holds_database source.now (front.items ++ rest)) needed) source.now (front.items ++ rest) (map fields_of rows.items))) }
    ensures cause { IfErr result (λ fault. IfSome (R.remaining pieces.old.input) (λ rest. LacksInput (limit_of_whole (holds_database source.now (front.items ++ rest)) needed) source.now (front.items ++ rest) fault)) }
    ensures unwritten { IfErr result (λ fault. write_part fault ≡ None) }
    ensures noted { ReportsRead (read_failure pieces.new) result }
{
    let mut bytes = front;
    pieces.read_rest(&mut bytes)?;
    Ok(all_rows(alloc, source, needed, &bytes)?)
}

/// The rows of an input, of which so many are needed, if not all.
pub(crate) fn read_heads<R: Read + Drop>(
    alloc: Global,
    source: &Source,
    needed: Option<usize>,
    pieces: &mut Pieces<R>,
) -> Result<Vec<TextRow>, RunFault>
    ensures rows { IfOk result (λ rows. IfSome (R.remaining pieces.old.input) (λ bytes. AreRows needed source.now bytes (map fields_of rows.items))) }
    ensures cause { IfErr result (λ fault. IfSome (R.remaining pieces.old.input) (λ bytes. LacksInput needed source.now bytes fault)) }
    ensures unwritten { IfErr result (λ fault. write_part fault ≡ None) }
    ensures noted { ReportsRead (read_failure pieces.new) result }
{
    let front = pieces.read_front(alloc, source)?;
    if source.is_database(&front) {
        return whole_rows(alloc, source, needed, front, pieces);
    }
    let format = format_streamed(source.known(), &front);
    if !format.is_separated() {
        return whole_rows(alloc, source, needed, front, pieces);
    }
    let limit = needed.unwrap_or(usize::MAX);
    let rows = first_rows(alloc, format, limit, content_of(format, &front), pieces)?;
    if rows.len() == usize::MAX {
        return Err(RunFault::Input(InputFault::Memory));
    }
    Ok(rows)
}
