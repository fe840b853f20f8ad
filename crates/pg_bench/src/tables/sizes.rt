//! Natural sizes, and tables within a width.

use crate::case::{CaseFault, Mismatch, Wrong};
use crate::tables::TableCase;
use crate::tables::drawing::Builder;
use crate::tables::refusal::Refusal;
use crate::texts::breaking_of;
use pg_layout::{ColorsMap, ConstantDimension, VecRecords};
use pg_table::{FittedTable, NaturalTable, Overflow, TableFault};
use pg_testing::LineFault;
use pg_testing::refusing::Refusing;
use pg_testing::report::Report;
use pg_testing::settings::Words;
use std::alloc::{AllocError, Allocator, Global};

/// What a line `natural` says where sizes pass.
const NONE: &str = "none";

/// What it says where spans don't fit.
const SPANS: &str = "spans";

impl TableCase<'_> {
    /// Lists the natural sizes, where the case has them, with no more requests for memory than there are
    /// lists: one for each that isn't empty, and none where there are no sizes. With spans or within a
    /// width there may be more. Then refuses each.
    pub(crate) fn list_sizes(
        &self,
        place: (usize, &str),
        builder: Builder<'_>,
        report: &mut Report,
    ) -> Result<(), AllocError> {
        let sizes = self.natural.unwrap_or("");
        if sizes.is_empty() {
            return Ok(());
        }
        let memory = Refusing::from_on(self.alloc, self.requests_of_sizes(builder));
        let text = sizes_text(self.alloc, &self.sizes(&memory, builder))?;
        report.compare(place, "natural_dimension", text.as_str(), sizes);
        let mismatch = self.mismatch_of_sizes(builder);
        report.compare(place, "natural_dimension", mismatch, None);
        Ok(())
    }

    // How many lists of natural sizes there are that aren't empty.
    fn lists(&self) -> u64 {
        match self.natural {
            Some(NONE | SPANS) => 0,
            _ => u64::from(!self.rows.is_empty()).saturating_add(u64::from(self.has_cells())),
        }
    }

    /// How many requests the listing of natural sizes makes. They are counted within a width, and with spans if
    /// there are such sizes; else there is one for each list.
    pub(crate) fn requests_of_sizes(&self, builder: Builder<'_>) -> u64 {
        let is_counted = self.way.is_spanned && self.lists() > 0;
        if self.way.within.is_none() && !is_counted {
            return self.lists();
        }
        let memory = Refusing::from_on(self.alloc, u64::MAX);
        drop(self.sizes(&memory, builder));
        memory.requests()
    }

    // Refuses each request for the memory of sizes in turn, alone. A table without natural sizes shows so before
    // some of these requests, so none is refused there.
    fn mismatch_of_sizes(&self, builder: Builder<'_>) -> Option<Mismatch> {
        if self.lists() == 0 {
            return None;
        }
        for number in 0..self.requests_of_sizes(builder) {
            let memory = Refusing::only(self.alloc, number);
            if self.sizes(&memory, builder).err() != Some(TableFault::Memory) {
                return Some((Wrong::Request, number));
            }
        }
        None
    }
}

// What a line `natural` says of these sizes.
fn sizes_text<A: Allocator>(
    alloc: Global,
    listed: &Result<ConstantDimension<A>, TableFault>,
) -> Result<String, AllocError> {
    match listed {
        Ok(ConstantDimension(widths, heights)) => {
            let (widths, heights) = (widths.as_slice(), heights.as_slice());
            format!(in alloc; "{widths:?} {heights:?}")
        }
        Err(TableFault::Totals) => String::from_str(alloc, NONE),
        Err(TableFault::Spans) => String::from_str(alloc, SPANS),
        Err(fault) => format!(in alloc; "{fault:?}"),
    }
}

/// What means no limit.
const ANY: &str = "any";

/// What a line `within` says.
#[derive(Clone, Copy)]
pub(crate) struct Within<'a> {
    width: usize,
    how: Overflow<'a>,
}

impl<'a> Within<'a> {
    /// What a line says, as `44 words`.
    pub(crate) fn of(line: &'a str) -> Result<Within<'a>, LineFault> {
        let mut words = Words::new(line);
        let width = limit_of(words.word())?;
        let how = match words.word() {
            "cut" => Overflow::Cut(words.text()),
            word => Overflow::Wrap(breaking_of(word)?),
        };
        words.end(Within { width, how })
    }
}

// How many columns a word says, or that any number will do.
fn limit_of(word: &str) -> Result<usize, LineFault> {
    if word == ANY {
        return Ok(usize::MAX);
    }
    Words::new(word).last_number()
}

// The limits of columns that words write.
fn limits_of(alloc: Global, words: &str) -> Result<Vec<usize>, LineFault> {
    let mut limits = Vec::new(alloc);
    for word in words.split(' ') {
        limits.push(limit_of(word)?)?;
    }
    Ok(limits)
}

impl<'a> TableCase<'a> {
    /// The builder that is lent the rows.
    pub(crate) fn lent<'c>(
        &'c self,
        records: &'c VecRecords<String>,
    ) -> NaturalTable<'c, &'c VecRecords<String>, ColorsMap> {
        let settings = &*self.way.settings;
        NaturalTable::new(records, &settings.config, &settings.colors)
    }

    // The table within a width.
    fn fitted<'c, A: Allocator + Copy>(
        &'c self,
        memory: A,
        builder: Builder<'c>,
        Within { width, how }: Within<'a>,
    ) -> Result<FittedTable<'c, &'c VecRecords<String>, ColorsMap, Global, A>, TableFault> {
        let limits = self.way.limits.as_slice();
        match builder {
            Builder::Owned(table) => table.within_limits(memory, width, limits, how),
            Builder::Lent(records) => self.lent(records).within_limits(memory, width, limits, how),
        }
    }

    /// What the test of the table at its natural sizes returns, or of that within a width. A builder with rows of
    /// its own has no test at natural sizes.
    pub(crate) fn fits_naturally(&self, builder: Builder<'_>) -> Option<Result<(), Refusal>> {
        let fits = match (self.way.within, builder) {
            (Some(within), _) => self.fits_within(builder, within),
            (None, Builder::Lent(records)) => self.lent(records).fits(self.alloc),
            (None, Builder::Owned(_)) => return None,
        };
        Some(fits.map_err(Refusal::from))
    }

    // What the test of the table within a width returns.
    fn fits_within(&self, builder: Builder<'_>, within: Within<'a>) -> Result<(), TableFault> {
        self.fitted(self.alloc, builder, within)?.fits(self.alloc)
    }

    /// Appends such a table, with `memory` for all but the buffer.
    pub(crate) fn print_naturally<A: Allocator + Copy, B: Allocator>(
        &self,
        memory: A,
        builder: Builder<'_>,
        buf: &mut String<B>,
    ) -> Result<(), TableFault> {
        match (self.way.within, builder) {
            (Some(within), _) => self.fitted(memory, builder, within)?.print(memory, buf),
            (None, Builder::Lent(records)) => self.lent(records).print(memory, buf),
            (None, Builder::Owned(table)) => table.print(memory, buf),
        }
    }

    /// The text of such a table, whose memory, and all other, is `memory`.
    pub(crate) fn text_naturally<A: Allocator + Copy>(
        &self,
        memory: A,
        builder: Builder<'_>,
    ) -> Result<String<A>, TableFault> {
        match (self.way.within, builder) {
            (Some(within), _) => self.fitted(memory, builder, within)?.to_string(memory),
            (None, Builder::Lent(records)) => self.lent(records).to_string(memory),
            (None, Builder::Owned(table)) => table.to_string(memory),
        }
    }

    /// The sizes of such a table.
    pub(crate) fn sizes<A: Allocator + Copy>(
        &self,
        memory: A,
        builder: Builder<'_>,
    ) -> Result<ConstantDimension<A>, TableFault> {
        match (self.way.within, builder) {
            (Some(within), _) => self
                .fitted(memory, builder, within)?
                .natural_dimension(memory),
            (None, Builder::Lent(records)) => self.lent(records).natural_dimension(memory),
            (None, Builder::Owned(table)) => table.natural_dimension(memory),
        }
    }

    // The least width of a line.
    fn least_width(&self, builder: Builder<'_>, how: Overflow<'a>) -> Result<usize, TableFault> {
        match builder {
            Builder::Lent(records) => self.lent(records).least_width(self.alloc, how),
            Builder::Owned(table) => table.least_width(self.alloc, how),
        }
    }

    /// Asks for the least width of a line, where the case has it, and where nothing changes for the table
    /// while all memory is refused.
    pub(crate) fn look_within(
        &self,
        place: (usize, &str),
        builder: Builder<'_>,
        report: &mut Report,
    ) {
        let Some(within) = self.way.within else {
            return;
        };
        if let Some(expected) = self.way.least {
            let least = self.least_width(builder, within.how).ok();
            report.compare(place, "least_width", least, expected);
        }
        if self.way.is_unchanged {
            let memory = Refusing::from_on(self.alloc, 0);
            let refused = self.fitted(&memory, builder, within).err();
            let refused = refused.map(Refusal::from);
            report.compare(place, "within", refused, None);
        }
    }

    /// Takes what a line says of a table within a width: `within`, `limits`, `least` or `unchanged`.
    pub(crate) fn push_within(&mut self, word: &str, rest: &'a str) -> Result<(), CaseFault> {
        if self.natural.is_none() {
            return Err(CaseFault::Unknown);
        }
        match word {
            "within" => self.way.within = Some(Within::of(rest)?),
            "limits" => self.way.limits = limits_of(self.alloc, rest)?,
            "least" => self.way.least = Some(rest.parse::<usize>().ok()),
            _ => self.way.is_unchanged = true,
        }
        Ok(())
    }
}
