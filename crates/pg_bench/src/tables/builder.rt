//! Calls of a builder with rows and settings of its own, and those that are made while memory is refused.

use crate::case::{CaseFault, Mismatch, Wrong};
use crate::tables::TableCase;
use crate::tables::refusal::Refusal;
use pg_config::SpannedConfig;
use pg_layout::{AlignmentHorizontal, Borders, ColorsMap, HorizontalLine, Indent, Sides};
use pg_table::{Table, TableFault};
use pg_testing::LineFault;
use pg_testing::ledger::{Outcome, Trial};
use pg_testing::refusing::Refusing;
use pg_testing::report::Report;
use pg_testing::settings::{Words, header_line_named};
use std::alloc::{Allocator, Global};
use std::convert::AsStr;
use std::mem;

impl<'a> TableCase<'a> {
    /// Calls a builder of a table at its natural sizes.
    pub(crate) fn call(&mut self, text: &str, report: &mut Report) -> Result<(), CaseFault> {
        if self.natural.is_none() {
            return Err(CaseFault::Unknown);
        }
        let (name, rest) = text.split_once(' ').unwrap_or((text, ""));
        let call = BuilderCall::of(name, rest)?;
        self.refuse(call, report)?;
        let table = match self.way.settings.table.take() {
            Some(table) => table,
            None => self.new_table()?,
        };
        let called = if name.starts_with("set_") {
            self.set(table, call)
        } else {
            self.with(table, call)
        };
        self.way.settings.table = Some(called?);
        Ok(())
    }

    // What a builder gives when it is called by reference.
    fn set(
        &self,
        mut table: Table<String>,
        call: BuilderCall<'_>,
    ) -> Result<Table<String>, TableFault> {
        call.set(self.alloc, &mut table)?;
        Ok(table)
    }

    // What it gives when it is called by value.
    fn with(
        &mut self,
        table: Table<String>,
        call: BuilderCall<'_>,
    ) -> Result<Table<String>, TableFault> {
        match call {
            BuilderCall::Config => Ok(table.with_config(self.take_config())),
            BuilderCall::Colors => Ok(table.with_colors(self.take_colors())),
            _ => call.with(self.alloc, table),
        }
    }

    /// The settings of the lines since the last call.
    pub(crate) fn take_config(&mut self) -> SpannedConfig {
        mem::replace(
            &mut self.way.settings.config,
            SpannedConfig::new(self.alloc),
        )
    }

    /// The colours of the lines since the last call.
    pub(crate) fn take_colors(&mut self) -> ColorsMap {
        mem::replace(&mut self.way.settings.colors, ColorsMap::new(self.alloc))
    }

    /// A table of the rows without a call, which owns its texts.
    pub(crate) fn new_table(&self) -> Result<Table<String>, CaseFault> {
        Table::new(self.alloc, self.copied_rows()?).map_err(CaseFault::from)
    }
}

/// A title over a row line.
#[derive(Clone, Copy)]
struct Title<'t> {
    /// The number of the row line.
    row: usize,
    /// Where it is between the outer column lines.
    side: AlignmentHorizontal,
    /// Its characters.
    text: &'t str,
}

/// What a call of a builder sets.
#[derive(Clone, Copy)]
enum BuilderCall<'t> {
    /// Nothing: the table stays as it is.
    Nothing,
    /// Its borders.
    Borders(Borders<char>),
    /// Its paddings.
    Padding(Sides<Indent>),
    /// Where its texts are.
    Alignment(AlignmentHorizontal),
    /// The line below its header.
    HeaderLine(HorizontalLine<char>),
    /// Its crossings round cells with a span.
    SpanCrossings(Borders<char>),
    /// A title.
    Title(Title<'t>),
    /// All settings.
    Config,
    /// The colours of its cells.
    Colors,
}

impl<'t> BuilderCall<'t> {
    // What the call of this name sets, by what follows the name.
    fn of(name: &str, rest: &'t str) -> Result<BuilderCall<'t>, LineFault> {
        let mut words = Words::new(rest);
        let call = match name {
            "with_borders" => BuilderCall::Borders(words.borders()),
            "with_padding" => BuilderCall::Padding(words.indents()),
            "with_alignment" => BuilderCall::Alignment(words.horizontal()),
            "with_header_line" | "set_header_line" => {
                BuilderCall::HeaderLine(line_of(words.text())?)
            }
            "with_span_crossings" | "set_span_crossings" => {
                BuilderCall::SpanCrossings(words.borders())
            }
            "with_title" | "set_title" => BuilderCall::Title(title_of(&mut words)),
            "" => BuilderCall::Nothing,
            "with_config" => BuilderCall::Config,
            "with_colors" => BuilderCall::Colors,
            _ => return Err(LineFault::Unknown),
        };
        words.end(call)
    }

    // Makes the call by value. Settings and colours aren't set.
    fn with<T: AsStr + Drop, A: Allocator + Copy>(
        self,
        alloc: A,
        table: Table<T, A>,
    ) -> Result<Table<T, A>, TableFault> {
        match self {
            BuilderCall::Borders(borders) => Ok(table.with_borders(borders)),
            BuilderCall::Padding(padding) => Ok(table.with_padding(padding)),
            BuilderCall::Alignment(alignment) => Ok(table.with_alignment(alignment)),
            BuilderCall::HeaderLine(line) => table.with_header_line(line),
            BuilderCall::SpanCrossings(borders) => table.with_span_crossings(alloc, borders),
            BuilderCall::Title(Title { row, side, text }) => {
                table.with_title(alloc, row, text, side)
            }
            BuilderCall::Nothing | BuilderCall::Config | BuilderCall::Colors => Ok(table),
        }
    }

    // Makes the call by reference: a line, crossings or a title.
    fn set<T: AsStr + Drop, A: Allocator + Copy>(
        self,
        alloc: A,
        table: &mut Table<T, A>,
    ) -> Result<(), TableFault> {
        let set = match self {
            BuilderCall::HeaderLine(line) => table.set_header_line(line),
            BuilderCall::SpanCrossings(borders) => table.set_span_crossings(alloc, borders),
            BuilderCall::Title(Title { row, side, text }) => {
                return table.set_title(alloc, row, text, side);
            }
            _ => Ok(()),
        };
        set.map_err(TableFault::from)
    }
}

// The title of a row line, a side and all that is left: of nothing more it has no characters.
fn title_of<'t>(words: &mut Words<'t>) -> Title<'t> {
    Title {
        row: words.number(),
        side: words.horizontal(),
        text: words.text(),
    }
}

// The line below a header of this name, or of this glyph, with crossings and ends as they were.
fn line_of(word: &str) -> Result<HorizontalLine<char>, LineFault> {
    match word.parse::<char>() {
        Ok(glyph) => Ok(HorizontalLine::new(Some(glyph), None, None, None)),
        Err(_) => header_line_named(word),
    }
}

/// A call of a builder by reference whose requests for memory are refused in turn.
#[derive(Clone, Copy)]
struct RefusedBuilder<'c, 'a> {
    case: &'c TableCase<'a>,
    call: BuilderCall<'c>,
    // How many requests the table makes before the call.
    requests: u64,
    // Its picture before the call.
    before: &'c str,
}

impl Trial for RefusedBuilder<'_, '_> {
    fn outcome(&mut self, number: u64) -> Outcome {
        match self.outcome_from_on(number) {
            Ok(outcome) => outcome,
            Err(_) => Outcome::Wrong,
        }
    }
}

impl RefusedBuilder<'_, '_> {
    // How the call ends whose requests from this number on are refused. A table that is refused one is as it was.
    fn outcome_from_on(&self, number: u64) -> Result<Outcome, CaseFault> {
        let memory = Refusing::from_on(self.case.alloc, self.requests.saturating_add(number));
        let mut table = self.case.table_in(&memory)?;
        let is_set = self.call.set(&memory, &mut table).is_ok();
        let has_refused = memory.has_refused();
        let text = table.to_string(self.case.alloc)?;
        Ok(match (is_set, has_refused) {
            (true, false) => Outcome::Whole,
            (false, true) if text.as_str() == self.before => Outcome::Failed,
            _ => Outcome::Wrong,
        })
    }
}

impl<'a> TableCase<'a> {
    // Sets a line below the header of a table of these rows, or a title, while memory is refused, by reference and
    // by value. A line takes memory where there are two rows or more, and columns; a title with
    // characters does over a row line that is there. Other calls aren't made.
    fn refuse(&self, call: BuilderCall<'_>, report: &mut Report) -> Result<(), CaseFault> {
        let (set, with, takes_memory) = match call {
            BuilderCall::HeaderLine(_) => {
                let takes_memory = self.rows.len() > 1 && self.has_cells();
                ("set_header_line", "with_header_line", takes_memory)
            }
            BuilderCall::Title(title) => {
                let takes_memory = !title.text.is_empty() && self.has_line(title.row)?;
                ("set_title", "with_title", takes_memory)
            }
            _ => return Ok(()),
        };
        let place = (self.way.line, self.section);
        let memory = Refusing::from_on(self.alloc, u64::MAX);
        drop(self.table_in(&memory)?);
        let requests = memory.requests();
        let expected = (!takes_memory).then_some((Wrong::Requests, 0));
        report.compare(place, set, self.mismatch_of_call(call, requests)?, expected);
        let expected = takes_memory.then_some(Refusal::Memory);
        report.compare(place, with, self.refusal_of_call(call, requests)?, expected);
        Ok(())
    }

    // Whether a title over this row line may be seen: a table without rows has no lines to look for.
    fn has_line(&self, row: usize) -> Result<bool, CaseFault> {
        let table = self.new_table()?;
        Ok(self.rows.is_empty() || table.config().has_horizontal(row, self.rows.len()))
    }

    // Refuses each request that this call makes by reference, and all behind it, of a table that makes so many
    // before. `(Wrong::Requests, 0)` is for a call that makes none.
    fn mismatch_of_call(
        &self,
        call: BuilderCall<'_>,
        requests: u64,
    ) -> Result<Option<Mismatch>, CaseFault> {
        let before = self.new_table()?.to_string(self.alloc)?;
        let mut refused = RefusedBuilder {
            case: self,
            call,
            requests,
            before: before.as_str(),
        };
        Ok(match refused.failures() {
            Ok(0) => Some((Wrong::Requests, 0)),
            Ok(_) => None,
            Err(number) => Some((Wrong::Request, number)),
        })
    }

    // Why this call by value fails whose requests are all refused, of a table that makes so many before.
    fn refusal_of_call(
        &self,
        call: BuilderCall<'_>,
        requests: u64,
    ) -> Result<Option<Refusal>, CaseFault> {
        let memory = Refusing::from_on(self.alloc, requests);
        let table = self.table_in(&memory)?;
        Ok(call.with(&memory, table).err().map(Refusal::from))
    }

    // A table of the rows without a call, which is lent its texts and has this memory.
    fn table_in<'m>(
        &self,
        memory: &'m Refusing<Global>,
    ) -> Result<Table<&'a str, &'m Refusing<Global>>, CaseFault> {
        let mut rows = Vec::new(memory);
        for row in &self.rows {
            rows.push(row.as_slice().to_vec(memory)?)?;
        }
        Table::new(memory, rows).map_err(CaseFault::from)
    }
}
