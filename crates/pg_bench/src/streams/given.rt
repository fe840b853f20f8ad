//! Tables of rows that an iterator gives, which doesn't know how many are left.

ghost use Rattle.std.specs.Prelude.{◌≡◌, [], ◌∷◌, map, replicate, IfOk, IfSome};

use crate::case::CaseFault;
use pg_config::{CompactConfig, SpannedConfig};
use pg_grid::{CompactGrid, IterGrid};
use pg_layout::{Borders, ConstantDimension, Indent, IterRecords, NoColors, Sides, VecRecords};
use pg_picture::fits::table_fits;
use pg_testing::refusing::Refusing;
use pg_testing::report::Report;
use pg_testing::settings::apply_all;
use pg_testing::unhinted::Repeated;
use std::alloc::{AllocError, Allocator, Global};

/// The line and the section of a mismatch.
const PLACE: (usize, &str) = (0, "rows that are given");

/// How many rows a long table has.
const ROWS: usize = 1000;

/// Their heights.
const HEIGHTS: &[usize] = &[1; ROWS];

// The text of the long table, whose second line is this.
fn long_text(alloc: Global, second: &str) -> Result<String, AllocError> {
    let mut text = String::from_str(alloc, "abcabcabc\n")?;
    text.push_str(second)?;
    for _ in 2..ROWS {
        text.push_str("\nabcabcabc")?;
    }
    Ok(text)
}

/// So many rows of the same cell three times, and the number of rows that is given beforehand.
#[derive(Clone, Copy)]
struct Alike {
    cell: &'static str,
    count: usize,
    hint: Option<usize>,
}

/// So many rows in memory, each of this cell three times.
pub(crate) fn rows_of(
    alloc: Global,
    cell: &'static str,
    count: usize,
) -> Result<VecRecords<&'static str>, CaseFault>
    ensures { IfOk result (λ records. map (λ row. map (λ x. x.now) row) records ≡ replicate count (cell.now ∷ cell.now ∷ cell.now ∷ [])) }
{
    let mut rows = Vec::new(alloc);
    for _done in 0..count {
        rows.push(vec![in alloc; cell, cell, cell]?)?;
    }
    Ok(VecRecords::new(rows)?)
}

// Draws rows as an iterator gives them, and returns whether there was memory for all of them. These rows in memory
// show that they fit.
fn draw_given<A: Allocator, B: Allocator>(
    memory: A,
    alike: Alike,
    rows: &VecRecords<&'static str>,
    config: &SpannedConfig,
    dimension: &ConstantDimension,
    buf: &mut String<B>,
) -> Result<bool, CaseFault>
    requires rows { map (λ row. map (λ x. x.now) row) rows.now ≡ replicate alike.count (alike.cell.now ∷ alike.cell.now ∷ alike.cell.now ∷ []) }
    requires hint { IfSome alike.hint (λ n. n ≡ alike.count) }
{
    table_fits(&rows, config, dimension)?;
    let row = [alike.cell, alike.cell, alike.cell];
    let records = IterRecords::new(Repeated::new(row, alike.count), 3, alike.hint);
    let grid = IterGrid::new(records, config, dimension, NoColors);
    Ok(grid.build(memory, buf).is_ok())
}

// The sizes of the long table.
fn long_dimension(alloc: Global) -> Result<ConstantDimension, AllocError> {
    let widths = [3, 3, 3].as_slice().to_vec(alloc)?;
    Ok(ConstantDimension(widths, HEIGHTS.to_vec(alloc)?))
}

// The long table, whose second line is this, is drawn where all requests for memory but that for the
// buffer and one of the grid are refused.
fn check_long(
    alloc: Global,
    is_hinted: bool,
    (second, settings): (&str, &[&str]),
    report: &mut Report,
) -> Result<(), CaseFault> {
    let mut config = SpannedConfig::new(alloc);
    apply_all(&mut config, alloc, settings)?;
    let cell = "abc";
    let alike = Alike {
        cell,
        count: ROWS,
        hint: if is_hinted { Some(ROWS) } else { None },
    };
    let rows = rows_of(alloc, cell, ROWS)?;
    let memory = Refusing::from_on(alloc, 2);
    let mut buf = String::with_capacity(&memory, 9999)?;
    let dimension = long_dimension(alloc)?;
    let is_drawn = draw_given(&memory, alike, &rows, &config, &dimension, &mut buf)?;
    report.compare(PLACE, second, is_drawn, true);
    report.compare(PLACE, second, memory.requests(), 2);
    let text = long_text(alloc, second).ok();
    report.compare(PLACE, second, Some(buf.as_str()), text.as_deref());
    Ok(())
}

// Draws what an iterator gives that gives no rows, and returns whether there was memory for it.
fn draw_no_rows<A: Allocator, B: Allocator>(
    memory: A,
    config: &SpannedConfig,
    dimension: &ConstantDimension,
    buf: &mut String<B>,
) -> bool {
    let records = IterRecords::new(Repeated::new(["", ""], 0), 2, None);
    let grid = IterGrid::new(records, config, dimension, NoColors);
    grid.build(memory, buf).is_ok()
}

// Rows that never come have no margins.
fn check_none(alloc: Global, report: &mut Report) -> Result<(), CaseFault> {
    let settings = ["borders ascii", "margin 1:# 1:# 1:# 1:#"];
    let dimension = ConstantDimension(Vec::new(alloc), Vec::new(alloc));
    let memory = Refusing::from_on(alloc, 1);
    let mut buf = String::from_str(&memory, "log:")?;
    let mut config = SpannedConfig::new(alloc);
    apply_all(&mut config, alloc, &settings)?;
    let is_whole = draw_no_rows(&memory, &config, &dimension, &mut buf);
    report.compare(PLACE, "none", is_whole, true);
    report.compare(PLACE, "none", memory.requests(), 1);
    report.compare(PLACE, "none", buf.as_str(), "log:");
    Ok(())
}

// Draws rows that never come by the compact grid.
fn draw_no_compact_rows<A: Allocator>(
    config: &CompactConfig,
    dimension: &ConstantDimension,
    buf: &mut String<A>,
) -> bool {
    let records = IterRecords::new(Repeated::new(["", ""], 0), 2, None);
    let grid = CompactGrid::new(records, config, dimension, NoColors);
    grid.build(buf).is_ok()
}

// They have no compact picture.
fn check_none_compact(alloc: Global, report: &mut Report) -> Result<(), CaseFault> {
    let margin = Sides::filled(Indent::new(1, '#'));
    let config = CompactConfig::new()
        .set_borders(Borders::ascii())
        .set_margin(margin);
    let dimension = ConstantDimension(Vec::new(alloc), Vec::new(alloc));
    let mut buf = String::from_str(alloc, "log:")?;
    let is_whole = draw_no_compact_rows(&config, &dimension, &mut buf);
    report.compare(PLACE, "none, compact", is_whole, true);
    report.compare(PLACE, "none, compact", buf.as_str(), "log:");
    Ok(())
}

/// Rows are drawn as an iterator gives them, with the number of rows and without it, and a cell goes on
/// below such a row.
pub(crate) fn check_given(alloc: Global, report: &mut Report) -> Result<(), CaseFault> {
    report.count_case();
    for is_hinted in [true, false] {
        check_long(alloc, is_hinted, ("abcabcabc", &[]), report)?;
        check_long(alloc, is_hinted, ("   abcabc", &["row_span 0 0 2"]), report)?;
    }
    check_none(alloc, report)?;
    check_none_compact(alloc, report)
}
