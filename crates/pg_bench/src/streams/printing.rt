//! Printers of rows, and how a table is printed in each of the ways in which its rows are handed over, also by grids
//! that say whether each line of it is shown.

use crate::case::{CaseFault, Mismatch, Wrong, owned_row};
use crate::streams::calls::{Buffer, Memory, OLD, Watch};
use crate::streams::cells::{check_counted, check_taken, check_values};
use crate::streams::given::check_given;
use crate::streams::{Step, StepKind, StreamCase};
use crate::tables::drawing::{Grid, GridCall, SizedTable};
use pg_config::CompactConfig;
use pg_grid::{Unshown, WholeFault, WholePrinter};
use pg_layout::{ConstantDimension, NoColors, VecRecords};
use pg_stream::{RowFault, RowPrinter, StreamFault, printer_fits};
use pg_testing::ledger::{Outcome, Trial};
use pg_testing::refusing::Refusing;
use pg_testing::report::Report;
use std::alloc::{AllocError, Allocator, Global};

/// How the rows of a table are handed over.
#[derive(Clone, Copy)]
pub(crate) enum Way {
    /// One after the other, to a stream that holds a row.
    Push,
    /// One after the other, each as an iterator of its cells.
    PushFrom,
    /// All at once, as a vector.
    PrintVec,
    /// All at once, as an iterator.
    PrintAll,
    /// All at once, as an iterator any of whose items may be an error.
    PrintResults,
    /// To a stream that shows each of them at once.
    Live,
    /// To a stream that shows each of them at once, each as a list that is lent.
    Lent,
    /// To a stream whose rows bring their heights.
    Sized,
    /// To a printer whose calls test themselves.
    Printer,
    /// To a printer, behind the test of each call.
    Tested,
    /// As records, to a grid, which prints them where each line is shown.
    Whole(Grid),
}

impl Way {
    /// The way of this name.
    pub(crate) fn named(name: &str) -> Result<Way, CaseFault> {
        match name {
            "push" => Ok(Way::Push),
            "push_from" => Ok(Way::PushFrom),
            "print_vec" => Ok(Way::PrintVec),
            "print_all" => Ok(Way::PrintAll),
            "print_results" => Ok(Way::PrintResults),
            "live" => Ok(Way::Live),
            "lent" => Ok(Way::Lent),
            "sized" => Ok(Way::Sized),
            "printer" => Ok(Way::Printer),
            "tested" => Ok(Way::Tested),
            "whole_peekable" => Ok(Way::Whole(Grid::Peekable)),
            "whole_iter" => Ok(Way::Whole(Grid::Hinted)),
            "whole_compact" => Ok(Way::Whole(Grid::Compact)),
            _ => Err(CaseFault::Unknown),
        }
    }
}

/// A table that is printed in a way while each request for memory is refused in turn.
#[derive(Clone, Copy)]
struct RefusedWay<'c, 'a> {
    case: &'c StreamCase<'a>,
    way: Way,
    hint: Option<usize>,
    // What is wrong, once something is.
    mismatch: Option<Mismatch>,
}

impl Trial for RefusedWay<'_, '_> {
    fn outcome(&mut self, number: u64) -> Outcome {
        let memory = Refusing::only(self.case.alloc, u64::MAX);
        self.mismatch = self.case.mismatch(self.way, self.hint, &memory, number);
        match self.mismatch {
            None if memory.has_refused() => Outcome::Failed,
            None => Outcome::Whole,
            Some(_) => Outcome::Wrong,
        }
    }
}

impl StreamCase<'_> {
    /// How many columns the table has.
    pub(crate) fn columns(&self) -> usize {
        self.dimension.0.len()
    }

    /// The step of the end.
    pub(crate) fn last(&self) -> usize {
        self.steps.len().saturating_sub(1)
    }

    /// Prints the table in all ways. Before the first section there is none.
    pub(crate) fn print(&self, report: &mut Report) {
        let Some(last) = self.steps.last() else {
            return;
        };
        report.count_case();
        if !matches!(last.kind, StepKind::Finish | StepKind::Close) {
            return report.refuse(self.line, self.section, CaseFault::Unended);
        }
        let hints = match self.hints.as_slice() {
            [] => &[None],
            hints => hints,
        };
        for (name, way) in &self.ways {
            for hint in hints {
                self.print_by(name, *way, *hint, report);
            }
        }
    }

    // Prints the table in this way, with memory, and where a line says so without it.
    fn print_by(&self, name: &str, way: Way, hint: Option<usize>, report: &mut Report) {
        let place = (self.line, self.section);
        let memory = Refusing::only(self.alloc, u64::MAX);
        let mismatch = (&*self).mismatch(way, hint, &memory, u64::MAX);
        report.compare(place, name, mismatch, None);
        if self.is_refused {
            report.compare(place, name, self.refused_mismatch(way, hint), None);
        }
    }

    // Refuses each request for memory in turn, until none is: there is one at least.
    fn refused_mismatch(&self, way: Way, hint: Option<usize>) -> Option<Mismatch> {
        let mut refused = RefusedWay {
            case: self,
            way,
            hint,
            mismatch: None,
        };
        match refused.failures() {
            Ok(0) => Some((Wrong::Requests, 0)),
            Ok(_) => None,
            Err(number) => refused.mismatch.or(Some((Wrong::Request, number))),
        }
    }

    // Prints the table in this way, while the request for memory with this number is refused: what is wrong.
    fn mismatch<'m>(
        &'m self,
        way: Way,
        hint: Option<usize>,
        memory: &'m Refusing<Global>,
        number: u64,
    ) -> Option<Mismatch> {
        let Ok(mut buf) = String::from_str(memory, OLD) else {
            return Some((Wrong::Request, 0));
        };
        memory.refuse_only(number);
        let mut watch = Watch::new(self.alloc, memory, &self.steps, &self.text);
        match way {
            Way::Push | Way::PushFrom => self.push_rows(way, hint, &mut watch, &mut buf),
            Way::PrintVec | Way::PrintAll | Way::PrintResults => {
                self.print_rows(way, hint, &mut watch, &mut buf)
            }
            Way::Live | Way::Lent | Way::Sized => self.show_rows(way, &mut watch, &mut buf),
            Way::Printer | Way::Tested => self.try_rows(way, hint, &mut watch, &mut buf),
            Way::Whole(grid) => self.print_whole(grid, &mut watch, &mut buf),
        }
        watch.mismatch()
    }
}

/// Checks what no section can say.
pub(crate) fn check_others(alloc: Global, report: &mut Report) {
    let checked = check_values(alloc, report);
    report.take(0, "single values", checked);
    let checked = check_given(alloc, report);
    report.take(0, "rows that are given", checked);
    let checked = check_counted(alloc, report);
    report.take(0, "cells that are counted", checked);
    let checked = check_taken(alloc, report);
    report.take(0, "cells that are taken", checked);
}

/// The test whether each line is shown, and printing where it is.
struct PrintWhole<'b, B: Allocator>(&'b mut String<B>);

impl<B: Allocator> GridCall for PrintWhole<'_, B> {
    type Answer = (Result<(), Unshown>, Result<(), WholeFault>);

    fn made<P: WholePrinter>(self, grid: P) -> (Result<(), Unshown>, Result<(), WholeFault>) {
        let PrintWhole(buf) = self;
        (grid.shows_all(), grid.print_whole(buf))
    }
}

impl StreamCase<'_> {
    /// Prints the table by this grid, the compact one without a setting, if each line of its texts is shown.
    pub(crate) fn print_whole<'m>(
        &'m self,
        grid: Grid,
        watch: &mut Watch<'m>,
        buf: &mut Buffer<'m>,
    ) {
        let Some(records) = self.records() else {
            return watch.goes(0, buf);
        };
        let (shown, printed) = self.whole_by(grid, &records, watch.memory, buf);
        watch.hears(0, shown.err());
        match printed {
            Ok(()) => watch.goes(self.stop(), buf),
            Err(fault) => watch.stops(0, &fault, buf),
        }
    }

    // Whether each line of these rows is shown, and whether the grid prints them.
    fn whole_by<A: Allocator, B: Allocator>(
        &self,
        grid: Grid,
        records: &VecRecords<String>,
        memory: A,
        buf: &mut String<B>,
    ) -> (Result<(), Unshown>, Result<(), WholeFault>) {
        let compact = CompactConfig::new();
        let table = SizedTable {
            records,
            config: &*self.config,
            compact: &compact,
            dimension: &self.dimension,
            colors: &NoColors,
        };
        table.by(grid, memory, PrintWhole(buf))
    }

    // The rows as records with texts of their own, if they are of one length and there is memory for them.
    fn records(&self) -> Option<VecRecords<String>> {
        let mut rows = Vec::new(self.alloc);
        for step in &self.steps {
            if matches!(step.kind, StepKind::Row) {
                rows.push(owned_row(self.alloc, &step.cells).ok()?).ok()?;
            }
        }
        VecRecords::new(rows).ok()
    }
}

/// A printer of rows of texts.
type Printer<'a> = RowPrinter<'a, &'a str, ConstantDimension, NoColors, Global, Memory<'a>>;

impl<'a> StreamCase<'a> {
    /// Prints the rows one after the other. A printer comes back from a row that doesn't fit.
    pub(crate) fn try_rows<'m>(
        &'m self,
        way: Way,
        hint: Option<usize>,
        watch: &mut Watch<'m>,
        buf: &mut Buffer<'m>,
    ) {
        let made = self.printer(way, hint, watch.memory);
        let requests = watch.memory.requests();
        if requests != 1 && (made.is_ok() || watch.memory.has_refused()) {
            watch.take(Wrong::Requests, requests as usize);
        }
        let mut printer = match made {
            Ok(printer) => printer,
            Err(fault) => return watch.stops(0, &fault, buf),
        };
        watch.goes(0, buf);
        self.see_note(0, &printer, watch);
        for (number, step) in self.steps.iter().enumerate() {
            if matches!(step.kind, StepKind::Row) {
                self.see_shown((number, step), &printer, watch);
                printer = match self.try_row(way, printer, step, buf) {
                    Ok(printer) => {
                        watch.goes(number, buf);
                        printer
                    }
                    Err(refused) => {
                        watch.stops(number, &refused, buf);
                        match refused {
                            RowFault::Misfit(printer) => printer,
                            RowFault::Memory => return,
                        }
                    }
                };
                self.see_note(number, &printer, watch);
            }
        }
        watch.ends(self.last(), self.end(printer, buf), buf);
    }

    // A printer before its first row: one memory is asked for, that of its open cells.
    fn printer<'m>(
        &'m self,
        way: Way,
        hint: Option<usize>,
        memory: Memory<'m>,
    ) -> Result<Printer<'m>, StreamFault> {
        let (config, dimension, columns) = (&*self.config, &self.dimension, self.columns());
        if matches!(way, Way::Printer) {
            return RowPrinter::try_new(memory, config, dimension, &NoColors, columns, hint);
        }
        printer_fits(config, dimension, &NoColors, columns, hint)?;
        RowPrinter::new(memory, config, dimension, &NoColors, columns, hint).map_err(
            StreamFault::from,
        )
    }

    // Prints a row, if it fits.
    fn try_row<'m>(
        &'m self,
        way: Way,
        printer: Printer<'m>,
        step: &Step<'m>,
        buf: &mut Buffer<'m>,
    ) -> Result<Printer<'m>, RowFault<Printer<'m>>> {
        let Ok(cells) = step.cells.as_slice().to_vec(self.alloc) else {
            return Err(RowFault::Memory);
        };
        if matches!(way, Way::Printer) {
            return printer.try_row(cells, step.is_last, buf);
        }
        if !printer.fits(&cells, step.is_last) {
            return Err(RowFault::Misfit(printer));
        }
        match printer.row_of(cells, step.is_last, buf) {
            Ok(printer) => Ok(printer),
            Err(_) => Err(RowFault::Memory),
        }
    }

    // Ends the table: behind its last row, or as the last step says.
    fn end<'m>(&'m self, printer: Printer<'m>, buf: &mut Buffer<'m>) -> Result<(), StreamFault> {
        if let Some(step) = self.steps.last() {
            if matches!(step.kind, StepKind::Close) {
                return printer.close(buf);
            }
        }
        if printer.rows() == 0 {
            return printer.finish(buf).map_err(StreamFault::from);
        }
        if printer.is_ended() {
            return printer.finish(buf).map_err(StreamFault::from);
        }
        printer.close(buf)
    }

    // Asks whether each line of the row is shown, where the step has an answer.
    fn see_shown<'m>(
        &'m self,
        (number, step): (usize, &Step<'m>),
        printer: &Printer<'m>,
        watch: &mut Watch<'m>,
    ) {
        let Some(expected) = step.shown else {
            return;
        };
        let shown = printer.shows_all(&step.cells, step.is_last);
        match format!(in self.alloc; "{shown:?}") {
            Ok(words) if words.as_str() == expected => {}
            _ => watch.take(Wrong::Answer, number),
        }
    }

    // Looks at what the printer says of itself.
    fn see_note<'m>(&'m self, number: usize, printer: &Printer<'m>, watch: &mut Watch<'m>) {
        match note_of(self.alloc, printer) {
            Ok(note) => watch.note(number, &note),
            Err(_) => watch.take(Wrong::Note, number),
        }
    }
}

// What the printer says of itself.
fn note_of(alloc: Global, printer: &Printer<'_>) -> Result<String, AllocError> {
    let cells = printer.open_cells();
    let (rows, lines, is_ended) = (printer.rows(), printer.lines(), printer.is_ended());
    let (open, first, second) = (cells.len(), cells.begun_at(0), cells.begun_at(1));
    let drawn = cells.drawn(0);
    format!(in alloc;
        "{rows} rows, {lines} lines, ended {is_ended}, {open} open, begun {first:?} {second:?}, drawn {drawn:?}"
    )
}
