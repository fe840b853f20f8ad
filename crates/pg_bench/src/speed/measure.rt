//! Tables, built over and over into one buffer, some of rows that are made anew in each build.

use crate::case::CaseFault;
use crate::speed::case::{Case, Grid, Table, colors, compact_settings, set, tell};
use crate::speed::texts::{MadeRecords, SAME, records, sizes};
use pg_config::{CompactConfig, SpannedConfig};
use pg_grid::{CompactGrid, IterGrid, PeekableGrid, TablePrinter};
use pg_layout::{
    Colors, ColorsMap, ConstantDimension, ExactRecords, NoColors, Records, VecRecords,
};
use pg_picture::fits::compact_fits;
use pg_stream::{LiveStream, RowStream, SizedStream, StreamFault};
use pg_table::NaturalTable;
use std::alloc::{AllocError, Global};

/// A table that each build prints by a call of its own.
trait Append {
    /// Appends the text of the table.
    fn append(&self, text: &mut String) -> Result<(), CaseFault>;
}

/// A table whose texts and sizes are in memory.
#[derive(Drop)]
struct KeptTable<'t> {
    alloc: Global,
    grid: &'t Grid,
    table: &'t Table,
    config: &'t SpannedConfig,
    records: VecRecords<String>,
    dimension: ConstantDimension,
    // The colours of cells, for grids that print them.
    colors: ColorsMap,
}

/// The text of the table of a case, built so many times.
pub(crate) fn text_of(alloc: Global, case: &Case, times: usize) -> Result<String, CaseFault> {
    let Case(_, grid, table) = case;
    let mut config = SpannedConfig::new(alloc);
    set(alloc, table, &mut config)?;
    match grid {
        Grid::IterMade => {
            let records = MadeRecords {
                text: SAME,
                rows: table.rows,
                columns: table.columns,
            };
            let grid = IterGrid::new(records, &config, table, NoColors);
            built(alloc, grid.with_memory(alloc), times)
        }
        Grid::Rows
        | Grid::Results
        | Grid::Live
        | Grid::Lent
        | Grid::Sized
        | Grid::Vectors
        | Grid::VectorsStreamed
        | Grid::VectorsTested
        | Grid::VectorsPrinted => {
            let rows = NewRows {
                alloc,
                grid,
                table,
                config: &config,
            };
            appended(alloc, &rows, times)
        }
        _ => kept_table(alloc, grid, table, &config)?.text(times),
    }
}

// The text of a table as a grid prints it, built so many times after one test.
fn built<P: TablePrinter + Copy>(alloc: Global, grid: P, times: usize) -> Result<String, CaseFault>
    requires readable { P.is_readable grid }
{
    grid.fits()?;
    let mut text = String::new(alloc);
    for _ in 0..times {
        text.clear();
        grid.build(&mut text)?;
    }
    Ok(text)
}

// Appends the text of a table behind its test, or makes the test alone.
fn checked<P: TablePrinter>(grid: P, is_printed: bool, text: &mut String) -> Result<(), CaseFault>
    requires readable { P.is_readable grid }
{
    if is_printed {
        return grid.print(text).map_err(CaseFault::from);
    }
    grid.fits().map_err(CaseFault::from)
}

// The text of a table, appended so many times to an empty buffer.
fn appended<T: Append>(alloc: Global, table: &T, times: usize) -> Result<String, CaseFault> {
    let mut text = String::new(alloc);
    for _ in 0..times {
        text.clear();
        table.append(&mut text)?;
    }
    Ok(text)
}

// A table with its texts and sizes.
fn kept_table<'t>(
    alloc: Global,
    grid: &'t Grid,
    table: &'t Table,
    config: &'t SpannedConfig,
) -> Result<KeptTable<'t>, CaseFault> {
    let records = records(alloc, table)?;
    let dimension = sizes(alloc, table)?;
    let colors = colors(alloc, table)?;
    Ok(KeptTable {
        alloc,
        grid,
        table,
        config,
        records,
        dimension,
        colors,
    })
}

impl KeptTable<'_> {
    // Its text, built so many times.
    fn text(&self, times: usize) -> Result<String, CaseFault> {
        let (records, dimension) = (&self.records, &self.dimension);
        match self.grid {
            Grid::Peekable => {
                let grid = PeekableGrid::new(records, self.config, dimension, NoColors);
                built(self.alloc, &grid, times)
            }
            Grid::Colored => {
                let grid = PeekableGrid::new(records, self.config, dimension, &self.colors);
                built(self.alloc, &grid, times)
            }
            Grid::Iter => {
                let grid = IterGrid::new(records, self.config, dimension, NoColors);
                built(self.alloc, grid.with_memory(self.alloc), times)
            }
            Grid::Compact => self.compact(&compact_settings(false), &NoColors, times),
            Grid::CompactColored => self.compact(&compact_settings(true), &self.colors, times),
            _ => appended(self.alloc, self, times),
        }
    }

    // Its text as the compact grid prints it, built so many times after one test.
    fn compact<C: Colors>(
        &self,
        config: &CompactConfig,
        colors: &C,
        times: usize,
    ) -> Result<String, CaseFault> {
        let records = &self.records;
        compact_fits(config, &self.dimension, records.count_columns())?;
        // Shows that there are no more rows than can be counted.
        let _rows = records.count_rows();
        let mut text = String::new(self.alloc);
        for _ in 0..times {
            text.clear();
            CompactGrid::new(records, config, &self.dimension, colors).build(&mut text)?;
        }
        Ok(text)
    }

    // Appends the table by settings and colours that are set and dropped again.
    fn append_told(&self, text: &mut String) -> Result<(), CaseFault> {
        let mut config = SpannedConfig::new(self.alloc);
        let mut colors = ColorsMap::new(self.alloc);
        set(self.alloc, self.table, &mut config)?;
        tell(self.alloc, self.table, &mut config, &mut colors)?;
        let grid = PeekableGrid::new(&self.records, &config, &self.dimension, &colors);
        checked(&grid, true, text)
    }

    // Appends the table at its natural sizes.
    fn append_natural(&self, text: &mut String) -> Result<(), CaseFault> {
        let table = NaturalTable::new(&self.records, self.config, &NoColors);
        table.print(self.alloc, text).map_err(CaseFault::from)
    }
}

impl Append for KeptTable<'_> {
    // By the calls that test the table each time; the test alone appends nothing.
    fn append(&self, text: &mut String) -> Result<(), CaseFault> {
        match self.grid {
            Grid::Natural => self.append_natural(text),
            Grid::Told => self.append_told(text),
            _ => {
                let is_printed = !matches!(self.grid, Grid::Tested);
                let records = &self.records;
                let grid = PeekableGrid::new(records, self.config, &self.dimension, NoColors);
                checked(&grid, is_printed, text)
            }
        }
    }
}

/// A table whose rows are made anew in each build, and what prints it.
#[derive(Clone, Copy)]
struct NewRows<'t> {
    alloc: Global,
    grid: &'t Grid,
    table: &'t Table,
    config: &'t SpannedConfig,
}

impl Append for NewRows<'_> {
    fn append(&self, text: &mut String) -> Result<(), CaseFault> {
        let pushed = match self.grid {
            Grid::Rows => self.push_rows(text),
            Grid::Live => self.push_live(text),
            Grid::Lent => self.push_lent(text),
            Grid::Sized => self.push_sized(text),
            Grid::Results => return self.print_results(text),
            _ => return self.print_vectors(text),
        };
        pushed.map_err(CaseFault::from)
    }
}

impl NewRows<'_> {
    // A row.
    fn row(&self) -> Result<Vec<&'static str>, AllocError> {
        Ok(vec![in self.alloc; SAME; self.table.columns]?)
    }

    // Appends all rows, each of which is pushed.
    fn push_rows(&self, text: &mut String) -> Result<(), StreamFault> {
        let (table, columns) = (self.table, self.table.columns);
        let mut stream = RowStream::new(self.alloc, self.config, table, &NoColors, columns, None)?;
        for _ in 0..table.rows {
            stream = stream.push(self.row()?, text)?;
        }
        stream.finish(text)
    }

    // Appends all rows, each of which is shown at once.
    fn push_live(&self, text: &mut String) -> Result<(), StreamFault> {
        let (table, columns) = (self.table, self.table.columns);
        let mut stream = LiveStream::new(self.alloc, self.config, table, &NoColors, columns)?;
        for _ in 0..table.rows {
            stream.push(self.row()?, text)?;
        }
        stream.finish(text)
    }

    // Appends all rows, each of which is one row that is lent each time.
    fn push_lent(&self, text: &mut String) -> Result<(), StreamFault> {
        let (table, columns) = (self.table, self.table.columns);
        let row = self.row()?;
        let mut stream: LiveStream<'_, &str, Table, NoColors> = LiveStream::new(
            self.alloc,
            self.config,
            table,
            &NoColors,
            columns,
        )?;
        for _ in 0..table.rows {
            stream.push_lent(&row, text)?;
        }
        stream.finish(text)
    }

    // Appends all rows, each of which brings its height.
    fn push_sized(&self, text: &mut String) -> Result<(), StreamFault> {
        let (table, columns) = (self.table, self.table.columns);
        let mut stream = SizedStream::new(self.alloc, self.config, table, &NoColors, columns)?;
        for _ in 0..table.rows {
            stream.push(table.height, self.row()?, text)?;
        }
        stream.finish(text)
    }

    // Appends all rows, which an iterator gives.
    fn print_results(&self, text: &mut String) -> Result<(), CaseFault> {
        let (table, columns) = (self.table, self.table.columns);
        let stream = RowStream::new(self.alloc, self.config, table, &NoColors, columns, None)?;
        let mut rows = (0..table.rows).map(|_| self.row());
        stream
            .print_results(&mut rows, text)
            .map_err(CaseFault::from)
    }

    // All rows.
    fn rows(&self) -> Result<Vec<Vec<&'static str>>, AllocError> {
        let mut rows = Vec::new(self.alloc);
        for _ in 0..self.table.rows {
            rows.push(self.row()?)?;
        }
        Ok(rows)
    }

    // Makes all rows, and does with them what the grid says.
    fn print_vectors(&self, text: &mut String) -> Result<(), CaseFault> {
        let (table, columns) = (self.table, self.table.columns);
        let rows = self.rows()?;
        match self.grid {
            Grid::Vectors => Ok(()),
            Grid::VectorsStreamed => {
                let stream = RowStream::new(
                    self.alloc,
                    self.config,
                    table,
                    &NoColors,
                    columns,
                    None,
                )?;
                stream.print_vec(rows, text).map_err(CaseFault::from)
            }
            _ => {
                let records = VecRecords::new(rows)?;
                let grid = IterGrid::new(records, self.config, table, NoColors);
                let is_printed = !matches!(self.grid, Grid::VectorsTested);
                checked(grid.with_memory(self.alloc), is_printed, text)
            }
        }
    }
}
