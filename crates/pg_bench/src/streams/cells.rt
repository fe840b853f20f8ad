//! What no section can say of cells: those of a row that are counted as they are asked for, or taken one after the
//! other, those that span others in large tables, and the indents and blank lines of one.

ghost use Rattle.std.specs.Prelude.{None, Some, MatchOption};

use crate::case::CaseFault;
use crate::speed::case::span_cell;
use crate::streams::given::rows_of;
use pg_config::{CompactConfig, SpannedConfig};
use pg_grid::IterGrid;
use pg_layout::{AlignmentVertical, ConstantDimension, NoColors, Position, Records, VecRecords};
use pg_picture::fits::{Misfit, compact_fits, spans_fit, spans_fit_columns, table_fits};
use pg_picture::{count_empty_lines, indent_from_top};
use pg_stream::{RowPrinter, StreamFault};
use pg_testing::refusing::Refusing;
use pg_testing::report::Report;
use pg_testing::unhinted::Repeated;
use std::alloc::{AllocError, Global};
use std::cell::Cell;

/// The cells of a row, which are counted as they are asked for.
#[derive(Drop)]
struct CountedCells<'a, I> {
    cells: I,
    asked: &'a Cell<usize>,
}

impl<I: Iterator> Iterator for CountedCells<'_, I> {
    type Item = I::Item;

    ghost can_next = { λ s. I.can_next s.cells };

    ghost next_gives = { λ s r t. I.next_gives s.cells r t.cells };

    ghost remaining = { λ s. I.remaining s.cells };

    fn next(&mut self) -> Option<I::Item> {
        self.asked.set(self.asked.get().saturating_add(1));
        self.cells.next()
    }
}

/// Rows whose cells are counted as they are asked for.
#[derive(Drop)]
struct CountedRows<'a, I> {
    rows: I,
    asked: &'a Cell<usize>,
}

impl<'a, I: Iterator> Iterator for CountedRows<'a, I>
where
    I::Item: Iterator,
{
    type Item = CountedCells<'a, I::Item>;

    ghost can_next = { λ s. I.can_next s.rows };

    ghost next_gives = { λ s r t. MatchOption r (I.next_gives s.rows None t.rows) (λ row. I.next_gives s.rows (Some row.cells) t.rows) };

    ghost remaining = { λ s. I.remaining s.rows };

    fn next(&mut self) -> Option<CountedCells<'a, I::Item>> {
        match self.rows.next() {
            Some(cells) => Some(CountedCells {
                cells,
                asked: self.asked,
            }),
            None => None,
        }
    }
}

/// Records whose cells are counted as they are asked for.
#[derive(Drop)]
struct Counted<'a, R> {
    records: R,
    asked: &'a Cell<usize>,
}

impl<'a, R: Records> Records for Counted<'a, R> {
    type Cell = R::Cell;

    type Columns = CountedCells<'a, R::Columns>;

    type Rows = CountedRows<'a, R::Rows>;

    ghost texts = { λ r. R.texts r.records };

    ghost columns = { λ r. R.columns r.records };

    ghost hint = { λ r. R.hint r.records };

    ghost is_readable = { λ r. R.is_readable r.records };

    fn iter_rows(self) -> CountedRows<'a, R::Rows> {
        CountedRows {
            rows: self.records.iter_rows(),
            asked: self.asked,
        }
    }

    fn count_columns(&self) -> usize {
        self.records.count_columns()
    }

    fn hint_count_rows(&self) -> Option<usize> {
        self.records.hint_count_rows()
    }
}

// Draws records into a buffer without room, which gets no memory; returns whether it was drawn whole.
fn is_drawn(
    alloc: Global,
    records: Counted<'_, &VecRecords<&str>>,
    config: &SpannedConfig,
    dimension: &ConstantDimension,
) -> Result<bool, CaseFault> {
    table_fits(&records.records, config, dimension)?;
    let memory = Refusing::from_on(alloc, 0);
    let mut buf = String::new(&memory);
    let grid = IterGrid::new(records, config, dimension, NoColors);
    Ok(grid.build(alloc, &mut buf).is_ok())
}

/// Cells of a row are drawn as they come: the buffer finds no memory for the first one of a row without
/// spans, and the others aren't asked for.
pub(crate) fn check_counted(alloc: Global, report: &mut Report) -> Result<(), CaseFault> {
    report.count_case();
    let records = rows_of(alloc, "ab", 1)?;
    let dimension = narrow_row(alloc)?;
    let config = SpannedConfig::new(alloc);
    let asked = Cell::new(0);
    let counted = Counted {
        records: &records,
        asked: &asked,
    };
    let is_drawn = is_drawn(alloc, counted, &config, &dimension)?;
    let place = (0, "cells that are counted");
    report.compare(place, "build", is_drawn, false);
    report.compare(place, "build", asked.get(), 1);
    Ok(())
}

/// A printer of rows of texts.
type Printer<'a> = RowPrinter<'a, &'static str, ConstantDimension, NoColors>;

// Prints a row of three cells `ab` as the last one. Answers how many of them were not taken, and whether the
// row was printed, or none where it doesn't fit.
fn print_only_row(
    printer: Printer<'_>,
    buf: &mut String<&Refusing<Global>>,
) -> Option<(usize, bool)> {
    let cell = "ab";
    if !printer.fits(&[cell, cell, cell], true) {
        return None;
    }
    let mut cells = Repeated::new(cell, 3);
    let is_printed = printer.row(&mut cells, true, buf).is_ok();
    Some((cells.left, is_printed))
}

// Columns of width 2, and a row of one line.
fn narrow_row(alloc: Global) -> Result<ConstantDimension, AllocError> {
    let widths = vec![in alloc; 2; 3]?;
    Ok(ConstantDimension(widths, vec![in alloc; 1; 1]?))
}

// Prints that row in these columns.
fn print_narrow_row(
    alloc: Global,
    buf: &mut String<&Refusing<Global>>,
) -> Result<Option<(usize, bool)>, AllocError> {
    let dimension = narrow_row(alloc)?;
    let config = SpannedConfig::new(alloc);
    let made: Result<Printer<'_>, StreamFault> = RowPrinter::try_new(
        alloc, &config, &dimension, &NoColors, 3, None,
    );
    match made {
        Ok(printer) => Ok(print_only_row(printer, buf)),
        Err(_) => Ok(None),
    }
}

/// All cells of a row that is printed are taken. Where the buffer finds no memory for the first one, those
/// behind it aren't.
pub(crate) fn check_taken(alloc: Global, report: &mut Report) -> Result<(), CaseFault> {
    report.count_case();
    let place = (0, "cells that are taken");
    let memory = Refusing::only(alloc, u64::MAX);
    let mut buf = String::new(&memory);
    let taken = print_narrow_row(alloc, &mut buf)?;
    report.compare(place, "all", taken, Some((0, true)));
    report.compare(place, "all", buf.as_str(), "ababab");
    let memory = Refusing::only(alloc, 0);
    let mut buf = String::new(&memory);
    let taken = print_narrow_row(alloc, &mut buf)?;
    report.compare(place, "refused", memory.has_refused(), true);
    report.compare(
        place,
        "refused",
        matches!(taken, Some((2 | 3, false))),
        true,
    );
    report.compare(place, "refused", "ababab".starts_with(buf.as_str()), true);
    Ok(())
}

/// The line and the section of a mismatch.
const PLACE: (usize, &str) = (0, "single values");

/// Where a text is, the height of its cell, its lines, and the lines above it.
const INDENTS: [(AlignmentVertical, usize, usize, usize); 7] = [
    (AlignmentVertical::Bottom, 1, 1, 0),
    (AlignmentVertical::Top, 1, 1, 0),
    (AlignmentVertical::Center, 1, 1, 0),
    (AlignmentVertical::Bottom, 3, 1, 2),
    (AlignmentVertical::Top, 3, 1, 0),
    (AlignmentVertical::Center, 3, 1, 1),
    (AlignmentVertical::Center, 4, 1, 1),
];

/// Texts, and their blank lines before the others, their other lines, and the blank ones behind them.
const BLANK: [(&str, (usize, usize, usize)); 4] = [
    (" \n\na\n \nb\n", (3, 2, 1)),
    ("a", (1, 0, 0)),
    ("\n \n", (0, 3, 0)),
    ("", (0, 1, 0)),
];

// A table of four hundred rows and columns is full of rectangles of two rows and two columns.
fn check_full(alloc: Global, report: &mut Report) -> Result<(), AllocError> {
    let mut config = SpannedConfig::new(alloc);
    for row in 0..200usize {
        for col in 0..200usize {
            span_cell(&mut config, Position::new(row * 2, col * 2), 2, 2)?;
        }
    }
    let place = Position::new(396, 396);
    report.compare(PLACE, "spans_fit", spans_fit(&config, 400, 400), true);
    report.compare(
        PLACE,
        "spans_fit_columns",
        spans_fit_columns(&config, 400),
        true,
    );
    // Its last row has two places of the rectangle below it.
    span_cell(&mut config, place, 3, 2)?;
    report.compare(PLACE, "spans_fit", spans_fit(&config, 400, 400), false);
    span_cell(&mut config, place, 2, 3)?;
    report.compare(PLACE, "spans_fit", spans_fit(&config, 400, 400), false);
    Ok(())
}

// The columns of a compact table are too many to count.
fn check_totals(alloc: Global, report: &mut Report) -> Result<(), AllocError> {
    let widths = [usize::MAX, 0].as_slice().to_vec(alloc)?;
    let dimension = ConstantDimension(widths, Vec::new(alloc));
    let answer = compact_fits(&CompactConfig::new(), &dimension, usize::MAX);
    report.compare(PLACE, "compact_fits", answer, Err(Misfit::Totals));
    Ok(())
}

/// Lines are placed by the vertical alignment, blank ones are counted before and behind the others, and some
/// tables don't fit in a file of sections.
pub(crate) fn check_values(alloc: Global, report: &mut Report) -> Result<(), CaseFault> {
    report.count_case();
    for (alignment, height, lines, above) in INDENTS {
        let indent = indent_from_top(alignment, height, lines);
        report.compare(PLACE, "indent_from_top", indent, above);
    }
    for (text, counts) in BLANK {
        report.compare(PLACE, "count_empty_lines", count_empty_lines(text), counts);
    }
    check_totals(alloc, report)?;
    check_full(alloc, report).map_err(CaseFault::from)
}
