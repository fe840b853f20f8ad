//! How a table is drawn, by which calls of what draws it, and the grids that draw tables of given sizes.

use crate::case::CaseFault;
use crate::tables::TableCase;
use crate::tables::refusal::Refusal;
use pg_config::{CompactConfig, SpannedConfig};
use pg_grid::{CompactGrid, IterGrid, Misfit, PeekableGrid, PrintFault, WholePrinter};
use pg_layout::{ANSIStr, Colors, ColorsMap, ConstantDimension, Sides, VecRecords};
use pg_table::{Table, TableFault};
use pg_testing::LineFault;
use pg_testing::report::Report;
use pg_testing::settings::{Words, borders_at};
use pg_testing::unhinted::Unhinted;
use std::alloc::{AllocError, Allocator};

/// What a buffer holds before.
pub(crate) const OLD: &str = "log:";

/// What draws a table, with its rows.
#[derive(Clone, Copy)]
pub(crate) enum Drawer<'r> {
    /// A grid, at given sizes.
    Grid(Grid, &'r VecRecords<String>),
    /// A builder, at the natural sizes of the rows.
    Natural(Builder<'r>),
}

/// A builder of a table at its natural sizes.
#[derive(Clone, Copy)]
pub(crate) enum Builder<'r> {
    /// It is lent the rows.
    Lent(&'r VecRecords<String>),
    /// It has rows and settings of its own. Its box keeps its parts out of the proofs of calls that only pass it on.
    Owned(&'r Box<Table<String>>),
}

impl Drawer<'_> {
    /// Its name.
    pub(crate) fn name(self) -> &'static str {
        match self {
            Drawer::Grid(Grid::Peekable, _) => "by peekable",
            Drawer::Grid(Grid::Hinted, _) => "by hinted",
            Drawer::Grid(Grid::Unhinted, _) => "by unhinted",
            Drawer::Grid(Grid::Compact, _) => "by compact",
            Drawer::Natural(Builder::Lent(_)) => "lent",
            Drawer::Natural(Builder::Owned(_)) => "owned",
        }
    }
}

/// The test whether a table fits.
struct Fits;

impl GridCall for Fits {
    type Answer = Result<(), Misfit>;

    fn made<P: WholePrinter>(self, grid: P) -> Result<(), Misfit> {
        let Fits = self;
        grid.fits()
    }
}

/// Printing behind the text of a buffer.
struct Print<'b, B: Allocator>(&'b mut String<B>);

impl<B: Allocator> GridCall for Print<'_, B> {
    type Answer = Result<(), PrintFault>;

    fn made<P: WholePrinter>(self, grid: P) -> Result<(), PrintFault> {
        let Print(buf) = self;
        grid.print(buf)
    }
}

/// A text of its own, which has this memory.
struct Text<A>(A);

impl<A: Allocator> GridCall for Text<A> {
    type Answer = Result<String<A>, PrintFault>;

    fn made<P: WholePrinter>(self, grid: P) -> Result<String<A>, PrintFault> {
        let Text(memory) = self;
        grid.text(memory)
    }
}

impl TableCase<'_> {
    // The table at the sizes that the lines give.
    fn sized<'c>(&'c self, records: &'c VecRecords<String>) -> SizedTable<'c, ColorsMap> {
        let settings = &*self.way.settings;
        SizedTable {
            records,
            config: &settings.config,
            compact: &settings.compact,
            dimension: &self.dimension,
            colors: &settings.colors,
        }
    }

    /// What the test of the table returns. A builder with rows of its own has none, but within a width.
    pub(crate) fn fits(&self, drawer: Drawer<'_>) -> Option<Result<(), Refusal>> {
        match drawer {
            Drawer::Grid(grid, records) => {
                let fits = self.sized(records).by(grid, self.alloc, Fits);
                Some(fits.map_err(Refusal::from))
            }
            Drawer::Natural(builder) => self.fits_naturally(builder),
        }
    }

    /// Appends the table, with `memory` for all but the buffer.
    pub(crate) fn print<A: Allocator + Copy, B: Allocator>(
        &self,
        memory: A,
        drawer: Drawer<'_>,
        buf: &mut String<B>,
    ) -> Result<(), Refusal> {
        match drawer {
            Drawer::Grid(grid, records) => {
                let printed = self.sized(records).by(grid, memory, Print(buf));
                printed.map_err(Refusal::from)
            }
            Drawer::Natural(builder) => {
                let printed = self.print_naturally(memory, builder, buf);
                printed.map_err(Refusal::from)
            }
        }
    }

    /// The text of the table, whose memory, and all other, is `memory`.
    pub(crate) fn text<A: Allocator + Copy>(
        &self,
        memory: A,
        drawer: Drawer<'_>,
    ) -> Result<String<A>, Refusal> {
        match drawer {
            Drawer::Grid(grid, records) => {
                let text = self.sized(records).by(grid, memory, Text(memory));
                text.map_err(Refusal::from)
            }
            Drawer::Natural(builder) => {
                let text = self.text_naturally(memory, builder);
                text.map_err(Refusal::from)
            }
        }
    }

    /// How many requests for memory printing makes beside those of the buffer: the streaming grid makes
    /// one for its open cells, and a table at its natural sizes those for them. Where there are no rows
    /// or no columns nothing is asked for.
    pub(crate) fn own_requests(&self, drawer: Drawer<'_>) -> u64 {
        match drawer {
            _ if !self.has_cells() => 0,
            Drawer::Grid(Grid::Peekable | Grid::Compact, _) => 0,
            Drawer::Grid(Grid::Hinted | Grid::Unhinted, _) => 1,
            Drawer::Natural(builder) => self.requests_of_sizes(builder),
        }
    }
}

impl TableCase<'_> {
    /// Draws the table of the case. Before the first section there is none.
    pub(crate) fn draw(&mut self, report: &mut Report) {
        if !self.section.is_empty() {
            report.count_case();
            let drawn = self.draw_by_all(report);
            report.take(self.way.line, self.section, drawn);
        }
    }

    // Draws the table by all that its lines name, unless its rows have several lengths.
    fn draw_by_all(&mut self, report: &mut Report) -> Result<(), CaseFault> {
        match VecRecords::new(self.copied_rows()?) {
            Err(fault) => self.refuse_rows(TableFault::from(fault), report),
            Ok(records) => match self.natural {
                Some(_) => self.draw_naturally(&records, report),
                None => self.draw_by_grids(&records, report),
            },
        }
    }

    // The rows are refused by the records with this fault, and by a builder.
    fn refuse_rows(&self, fault: TableFault, report: &mut Report) -> Result<(), CaseFault> {
        let place = (self.way.line, self.section);
        let made = Some(Refusal::from(fault));
        report.compare(place, "VecRecords::new", made, self.refusal);
        let made = Table::new(self.alloc, self.copied_rows()?).err();
        let made = made.map(Refusal::from);
        report.compare(place, "Table::new", made, self.refusal);
        Ok(())
    }

    // Draws the table by each grid.
    fn draw_by_grids(
        &self,
        records: &VecRecords<String>,
        report: &mut Report,
    ) -> Result<(), CaseFault> {
        for grid in self.chosen_grids() {
            self.draw_by(Drawer::Grid(*grid, records), report)?;
        }
        Ok(())
    }

    // The grids that draw the table.
    fn chosen_grids(&self) -> &[Grid] {
        if self.way.grids.is_empty() {
            return &SPANNED;
        }
        self.way.grids.as_slice()
    }

    // Draws the table at its natural sizes: as its builder was called, or by both builders.
    fn draw_naturally(
        &mut self,
        records: &VecRecords<String>,
        report: &mut Report,
    ) -> Result<(), CaseFault> {
        let table = match self.way.settings.table.take() {
            Some(table) => table,
            None => {
                self.draw_by(Drawer::Natural(Builder::Lent(records)), report)?;
                let (config, colors) = (self.take_config(), self.take_colors());
                self.new_table()?.with_config(config).with_colors(colors)
            }
        };
        let table = Box::new(self.alloc, table)?;
        self.draw_by(Drawer::Natural(Builder::Owned(&table)), report)
    }

    // Draws the table and compares what that gives.
    fn draw_by(&self, drawer: Drawer<'_>, report: &mut Report) -> Result<(), CaseFault> {
        match (&self.picture, self.again, self.refusal) {
            (Some(picture), None, None) => self.draw_whole(drawer, picture, report)?,
            (Some(picture), Some(again), None) => {
                self.draw_beginnings(drawer, (picture, again), report)?
            }
            (None, None, Some(refusal)) => self.draw_refusal(drawer, refusal, report)?,
            _ => return Err(CaseFault::Unanswered),
        }
        let Drawer::Natural(builder) = drawer else {
            return Ok(());
        };
        let place = self.place(drawer);
        self.list_sizes(place, builder, report)?;
        self.look_within(place, builder, report);
        Ok(())
    }

    /// The number of the line and the name of what draws the table that lines on mismatches have.
    pub(crate) fn place(&self, drawer: Drawer<'_>) -> (usize, &'static str) {
        (self.way.line, drawer.name())
    }

    // Draws the table, which fits, behind the text of a buffer, as a text of its own, and while memory is
    // refused.
    fn draw_whole(
        &self,
        drawer: Drawer<'_>,
        picture: &str,
        report: &mut Report,
    ) -> Result<(), AllocError> {
        let place = self.place(drawer);
        if let Some(fits) = self.fits(drawer) {
            report.compare(place, "fits", fits, Ok(()));
        }
        let mut buf = String::from_str(self.alloc, OLD)?;
        let printed = self.print(self.alloc, drawer, &mut buf);
        report.compare(place, "print", printed, Ok(()));
        let gained = buf.as_str().strip_prefix(OLD);
        report.compare(place, "print", gained, Some(picture));
        let given = self.text(self.alloc, drawer).ok();
        report.compare(place, "text", given.as_deref(), Some(picture));
        self.draw_refused(drawer, picture, report);
        Ok(())
    }
}

/// The grids that draw a table where no line names one.
pub(crate) const SPANNED: [Grid; 3] = [Grid::Peekable, Grid::Hinted, Grid::Unhinted];

/// A grid that draws a table.
#[derive(Clone, Copy)]
pub(crate) enum Grid {
    /// The looked-up grid.
    Peekable,
    /// The streaming grid, which knows how many rows there are.
    Hinted,
    /// The streaming grid, which doesn't know it.
    Unhinted,
    /// The compact grid.
    Compact,
}

impl Grid {
    /// The grid of this name.
    pub(crate) fn named(name: &str) -> Result<Grid, CaseFault> {
        match name {
            "peekable" => Ok(Grid::Peekable),
            "hinted" => Ok(Grid::Hinted),
            "unhinted" => Ok(Grid::Unhinted),
            "compact" => Ok(Grid::Compact),
            _ => Err(CaseFault::Unknown),
        }
    }
}

/// A call that every grid has.
pub(crate) trait GridCall {
    /// What it returns.
    type Answer;

    /// Makes the call.
    fn made<P: WholePrinter>(self, grid: P) -> Self::Answer
        requires readable { P.is_readable grid };
}

/// A table of given sizes, and the settings of the compact grid beside those of the others.
pub(crate) struct SizedTable<'t, C> {
    pub(crate) records: &'t VecRecords<String>,
    pub(crate) config: &'t SpannedConfig,
    pub(crate) compact: &'t CompactConfig,
    pub(crate) dimension: &'t ConstantDimension,
    pub(crate) colors: &'t C,
}

impl<C: Colors> SizedTable<'_, C> {
    /// Makes a call of a grid, with `memory` for its open cells.
    pub(crate) fn by<A: Allocator, G: GridCall>(self, grid: Grid, memory: A, call: G) -> G::Answer {
        let SizedTable {
            records,
            config,
            compact,
            dimension,
            colors,
        } = self;
        match grid {
            Grid::Peekable => call.made(&PeekableGrid::new(records, config, dimension, colors)),
            Grid::Hinted => {
                let grid = IterGrid::new(records, config, dimension, colors);
                call.made(grid.with_memory(memory))
            }
            Grid::Unhinted => {
                let grid = IterGrid::new(Unhinted::new(records), config, dimension, colors);
                call.made(grid.with_memory(memory))
            }
            Grid::Compact => call.made(CompactGrid::new(records, compact, dimension, colors)),
        }
    }
}

/// The configuration with the setting of a line, as `margin 1 1 0 0`.
pub(crate) fn with_compact_setting(
    config: CompactConfig,
    line: &str,
) -> Result<CompactConfig, LineFault> {
    let mut words = Words::new(line);
    let config = match words.word() {
        "borders" => config.set_borders(words.borders()),
        "borders_color" => config.set_borders_color(borders_at((), &mut words)),
        "margin" => config.set_margin(words.indents()),
        "margin_color" => config.set_margin_color(colors_of(&mut words)),
        "padding" => config.set_padding(words.indents()),
        "padding_color" => config.set_padding_color(colors_of(&mut words)),
        "alignment_horizontal" => config.set_alignment_horizontal(words.horizontal()),
        _ => return Err(LineFault::Unknown),
    };
    words.end(config)
}

// The colours of the four sides. Each of them is there.
fn colors_of(words: &mut Words<'_>) -> Sides<ANSIStr<'static>> {
    let left = words.value(()).unwrap_or_default();
    let right = words.value(()).unwrap_or_default();
    let top = words.value(()).unwrap_or_default();
    Sides::new(left, right, top, words.value(()).unwrap_or_default())
}
