//! The rows that an input holds, or that are asked of it.

ghost use Rattle.std.specs.Prelude.{◌≡◌, None, map, IfErr, IfOk};
ghost use Rattle.csv.specs.Records.{fields_of};
ghost use Rattle.ruled_json.specs.Rows.{rules_of};
ghost use Rattle.ruled_io.specs.Faults.{Tells};
ghost use Rattle.ruled_io.specs.Input.{format_fault, input_fault, rows_in, rows_of};
ghost use Rattle.ruled_io.specs.Requests.{holds_database};
ghost use Rattle.ruled_io.specs.Runs.{AreRows, LacksRows};
ghost use Rattle.ruled_io.specs.Stream.{limit_of_whole};

use crate::database::asked_rows;
use crate::fault::InputFault;
use crate::formats::{Format, Known, content_of, format_in};
use crate::request::Source;
use ruled_csv::{read_rows, without_mark};
use ruled_json::{MemberRules, read_line_rows};
use ruled_row::TextRow;
use std::alloc::Global;

// The rows that bytes of this format hold, of JSON as these rules say.
fn rows_of(
    alloc: Global,
    format: Format,
    members: &MemberRules,
    bytes: &[u8],
) -> Result<Vec<TextRow>, InputFault>
    ensures rows { IfOk result (λ rows. map fields_of rows.items ≡ rows_of (rules_of members.now) format bytes.now) }
    ensures fault { Tells (format_fault (rules_of members.now) format bytes.now) result }
{
    match format {
        Format::Separated(dialect) => Ok(read_rows(alloc, dialect, bytes)?),
        Format::Json => Ok(ruled_json::read_rows(alloc, members, without_mark(bytes))?),
        Format::JsonLines => Ok(read_line_rows(alloc, members, without_mark(bytes))?),
    }
}

/// The rows that bytes hold, of which the first is row 0, or why there are none. JSON has them as these rules say.
pub(crate) fn rows_in(
    alloc: Global,
    known: Known,
    members: &MemberRules,
    bytes: &[u8],
) -> Result<Vec<TextRow>, InputFault>
    ensures rows { IfOk result (λ rows. map fields_of rows.items ≡ rows_in None (rules_of members.now) known bytes.now) }
    ensures fault { Tells (input_fault None (rules_of members.now) known bytes.now) result }
{
    let format = format_in(alloc, known, bytes)?;
    rows_of(alloc, format, members, content_of(format, bytes))
}

/// The rows of an input of these bytes, of which the first is row 0, or why there are none. Of a table of a database, so
/// many are needed, if not all.
pub(crate) fn all_rows(
    alloc: Global,
    source: &Source,
    needed: Option<usize>,
    bytes: &[u8],
) -> Result<Vec<TextRow>, InputFault>
    ensures rows { IfOk result (λ rows. AreRows (limit_of_whole (holds_database source.now bytes.now) needed) source.now bytes.now (map fields_of rows.items)) }
    ensures cause { IfErr result (LacksRows (limit_of_whole (holds_database source.now bytes.now) needed) source.now bytes.now) }
{
    if source.is_database(bytes) {
        return asked_rows(alloc, source, needed, bytes);
    }
    let plain = MemberRules::new(alloc);
    rows_in(alloc, source.known(), source.members_or(&plain), bytes)
}
