//! The ways to call a table printer, each tried on one table.
//!
//! A printer requires that its table fits. Some calls test that themselves: they have no precondition, and refuse a
//! table that doesn't fit. Others come after a test of the caller's, and the contract of
//! [`push_stated`] says what it appends. None of these functions needs a proof of its own.

ghost use Rattle.std.specs.Prelude.{◌≡◌, ◌++◌, OnOk, string_bytes};
ghost use Rattle.pg_picture.specs.Table.{Known};
ghost use Rattle.pg_picture.specs.Picture.{picture};
ghost use Rattle.pg_picture.specs.Grids.{table_of_parts};

use crate::fault::Fault;
use pg_config::{CompactConfig, SpannedConfig};
use pg_grid::{CompactGrid, IterGrid, PeekableGrid, PrintFault, TablePrinter};
use pg_layout::{
    Borders, Colors, ConstantDimension, Dimension, ExactRecords, NoColors, PeekableRecords,
    VecRecords,
};
use pg_table::TableFault;
use std::alloc::{AllocError, Global};

/// The parts of the table, sizes that it fits in and sizes that it doesn't, and looks.
#[derive(Drop)]
struct Given {
    alloc: Global,
    records: VecRecords<String>,
    wide: ConstantDimension,
    narrow: ConstantDimension,
    config: SpannedConfig,
    compact: CompactConfig,
}

/// The tables of all these calls.
pub(crate) fn tables(alloc: Global) -> Result<String, Fault> {
    let mut config = SpannedConfig::new(alloc);
    config.set_borders(Borders::ascii());
    let given = Given {
        alloc,
        records: records(alloc)?,
        wide: sizes(alloc, 9)?,
        narrow: sizes(alloc, 6)?,
        config,
        compact: CompactConfig::new().set_borders(Borders::ascii()),
    };
    let mut text = String::new(alloc);
    given.push_checked(&mut text)?;
    given.push_tested(&mut text)?;
    text.push_str("\nstated:\n")?;
    push_stated(
        &given.records,
        &given.config,
        &given.wide,
        NoColors,
        &mut text,
    )?;
    Ok(text)
}

// The texts: two rows of a name and a number.
fn records(alloc: Global) -> Result<VecRecords<String>, TableFault> {
    let mut rows = Vec::new(alloc);
    for (name, number) in [("apples", "12"), ("rye bread\n(sliced)", "1")] {
        let name = name.to_string(alloc)?;
        let number = number.to_string(alloc)?;
        rows.push(vec![in alloc; name, number]?)?;
    }
    Ok(VecRecords::new(rows)?)
}

// This width for the texts and 2 for the numbers; the second row has two lines.
fn sizes(alloc: Global, width: usize) -> Result<ConstantDimension, AllocError> {
    Ok(ConstantDimension(vec![in alloc; width, 2]?, vec![in alloc; 1, 2]?))
}

impl Given {
    // The tables of calls that test them, and the fault of such a call if the table is too narrow.
    fn push_checked(&self, text: &mut String) -> Result<(), Fault> {
        text.push_str("checked:\n")?;
        self.push_looked_up(&self.wide, text)?;
        text.push('\n')?;
        self.push_streamed(records(self.alloc)?, text)?;
        text.push('\n')?;
        text.push_str(&self.compact_text()?)?;
        if let Err(fault) = self.push_looked_up(&self.narrow, text) {
            text.push_str(&format!(in self.alloc; "\n{fault}")?)?;
        }
        Ok(())
    }

    // Appends the table, as the looked-up grid prints it.
    fn push_looked_up(
        &self,
        dimension: &ConstantDimension,
        buf: &mut String,
    ) -> Result<(), PrintFault> {
        PeekableGrid::new(&self.records, &self.config, dimension, &NoColors).print(buf)
    }

    // Appends the table, as the streaming grid prints it, which owns its records and drops each cell
    // once it is drawn.
    fn push_streamed(
        &self,
        records: VecRecords<String>,
        buf: &mut String,
    ) -> Result<(), PrintFault> {
        let grid = IterGrid::new(records, &self.config, &self.wide, &NoColors);
        grid.with_memory(self.alloc).print(buf)
    }

    // The text of the table, as the compact grid gives it.
    fn compact_text(&self) -> Result<String, PrintFault> {
        CompactGrid::new(&self.records, &self.compact, &self.wide, &NoColors).text(self.alloc)
    }

    // The tables of calls after a test.
    fn push_tested(&self, text: &mut String) -> Result<(), Fault> {
        text.push_str("\ntested:\n")?;
        self.push_twice(text)?;
        text.push('\n')?;
        text.push_str(&self.tested_streamed_text(records(self.alloc)?)?)?;
        text.push('\n')?;
        text.push_str(&self.tested_compact_text()?)?;
        if let Some(found) = self.text_of_first_fit(&[&self.narrow, &self.wide])? {
            text.push('\n')?;
            text.push_str(&found)?;
        }
        Ok(())
    }

    // Appends the table twice, as the looked-up grid builds it: one test serves both.
    fn push_twice(&self, buf: &mut String) -> Result<(), PrintFault> {
        let grid = PeekableGrid::new(&self.records, &self.config, &self.wide, &NoColors);
        grid.fits()?;
        grid.build(buf)?;
        buf.push('\n')?;
        grid.build(buf).map_err(PrintFault::from)
    }

    // The text of the table, as the streaming grid gives it.
    fn tested_streamed_text(&self, records: VecRecords<String>) -> Result<String, PrintFault> {
        let grid = IterGrid::new(records, &self.config, &self.wide, &NoColors);
        grid.fits()?;
        grid.to_string(self.alloc).map_err(PrintFault::from)
    }

    // The text of the table, as the compact grid gives it.
    fn tested_compact_text(&self) -> Result<String, PrintFault> {
        let grid = CompactGrid::new(&self.records, &self.compact, &self.wide, &NoColors);
        grid.fits()?;
        grid.to_string(self.alloc).map_err(PrintFault::from)
    }

    // The text of the table in the first of these sizes that it fits in, if there is one.
    fn text_of_first_fit(
        &self,
        dimensions: &[&ConstantDimension],
    ) -> Result<Option<String>, AllocError> {
        for dimension in dimensions {
            let grid = PeekableGrid::new(&self.records, &self.config, dimension, &NoColors);
            if grid.fits().is_ok() {
                return Ok(Some(grid.to_string(self.alloc)?));
            }
        }
        Ok(None)
    }
}

// Appends the picture of the table of these parts.
fn push_stated<R, D, C>(
    records: R,
    config: &SpannedConfig,
    dimension: D,
    colors: C,
    buf: &mut String,
) -> Result<(), PrintFault>
where
    R: PeekableRecords + ExactRecords + Drop,
    D: Dimension + Drop,
    C: Colors + Drop,
    ensures { OnOk result (string_bytes buf.new ≡ string_bytes buf.old ++ picture Known (table_of_parts R.texts R.columns D.width D.height C.color records config.now dimension colors)) }
{
    PeekableGrid::new(records, config, dimension, colors).print(buf)
}
