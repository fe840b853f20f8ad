//! The tables that are built, by name, what they consist of, and what is set for them and for their cells and rows.

use crate::case::CaseFault;
use pg_config::{CompactConfig, SpannedConfig};
use pg_layout::{
    ANSIBuf, ANSIStr, AlignmentHorizontal, AlignmentVertical, Border, Borders, ColorsMap,
    Dimension, Entity, Indent, Position, Sides,
};
use pg_testing::settings::apply_all;
use std::alloc::{AllocError, Global};

/// A name, what prints, and the table.
pub(crate) struct Case(pub(crate) &'static str, pub(crate) Grid, pub(crate) Table);

/// Which grid prints a table, and from what.
pub(crate) enum Grid {
    /// The looked-up grid, from texts in memory.
    Peekable,
    /// The looked-up grid, from texts in memory, with colours of cells.
    Colored,
    /// The streaming grid, from texts in memory; it knows how many rows there are.
    Iter,
    /// The streaming grid, from texts that are made as it asks for them; it doesn't know how many rows
    /// there are.
    IterMade,
    /// The compact grid, from texts in memory.
    Compact,
    /// The compact grid, from texts in memory, with colours of cells, borders and margins.
    CompactColored,
    /// The looked-up grid by its checked call, which tests the table in each build, from texts in
    /// memory.
    Checked,
    /// The test of that call alone, which prints nothing.
    Tested,
    /// A stream of rows, each of which is made when it is pushed.
    Rows,
    /// A stream of rows that is handed an iterator, which makes them.
    Results,
    /// A stream that shows each row at once, which is made when it is pushed.
    Live,
    /// A stream that shows each row at once, to which one row is lent each time.
    Lent,
    /// A stream of rows that bring their heights, each of which is made when it is pushed.
    Sized,
    /// Rows that are made as vectors in each build, and are let go.
    Vectors,
    /// Rows that are made as vectors in each build; a stream prints them, each behind its test.
    VectorsStreamed,
    /// Rows that are made as vectors in each build; the streaming grid tests the table.
    VectorsTested,
    /// Rows that are made as vectors in each build; the streaming grid tests the table and prints it.
    VectorsPrinted,
    /// The looked-up grid at the table's natural sizes, which are worked out in each build, from
    /// texts in memory.
    Natural,
    /// The looked-up grid by its checked call, from texts in memory; in each build all settings and
    /// colours are set anew.
    Told,
}

/// ASCII borders, and one space left and right of each text.
const PLAIN: &[&str] = &["borders ascii", "padding all 1 1 0 0"];

/// Lines of a box as borders, and one space left and right of each text.
const BOXED: &[&str] = &["borders modern", "padding all 1 1 0 0"];

/// `PLAIN` with blue borders and gray margins of dots.
const FRAMED: &[&str] = &[
    "borders ascii",
    "padding all 1 1 0 0",
    "borders_color \
        top=\u{1b}[34m|\u{1b}[39m top_left=\u{1b}[34m|\u{1b}[39m \
        top_right=\u{1b}[34m|\u{1b}[39m top_intersection=\u{1b}[34m|\u{1b}[39m \
        bottom=\u{1b}[34m|\u{1b}[39m bottom_left=\u{1b}[34m|\u{1b}[39m \
        bottom_right=\u{1b}[34m|\u{1b}[39m bottom_intersection=\u{1b}[34m|\u{1b}[39m \
        horizontal=\u{1b}[34m|\u{1b}[39m left_intersection=\u{1b}[34m|\u{1b}[39m \
        right_intersection=\u{1b}[34m|\u{1b}[39m intersection=\u{1b}[34m|\u{1b}[39m \
        left=\u{1b}[34m|\u{1b}[39m right=\u{1b}[34m|\u{1b}[39m vertical=\u{1b}[34m|\u{1b}[39m",
    "margin 2:. 2:. 1:. 1:.",
    "margin_color \u{1b}[90m|\u{1b}[39m \u{1b}[90m|\u{1b}[39m \u{1b}[90m|\u{1b}[39m \u{1b}[90m|\u{1b}[39m",
];

/// `PLAIN` with texts that are trimmed and centred in their cells.
const TRIMMED: &[&str] = &[
    "borders ascii",
    "padding all 1 1 0 0",
    "trim_horizontal all on",
    "trim_vertical all on",
    "alignment_horizontal all center",
    "alignment_vertical all center",
];

/// No cell spans others.
const NO_SPANS: Spans = Spans {
    size: (1, 1),
    apart: (0, 0),
    is_shifted: false,
    is_layered: false,
};

/// A cell of two rows and three columns in each fourth row, its text in the middle.
const BLOCKS: Spans = Spans {
    size: (2, 3),
    apart: (4, usize::MAX),
    is_shifted: true,
    is_layered: false,
};

/// A cell of two rows and three columns in each tenth column of each tenth row.
const TILES: Spans = Spans {
    size: (2, 3),
    apart: (10, 10),
    is_shifted: false,
    is_layered: false,
};

/// A cell of two rows and two columns in each second column of each second row, so that no cell is
/// left that spans nothing.
const SQUARES: Spans = Spans {
    size: (2, 2),
    apart: (2, 2),
    is_shifted: false,
    is_layered: false,
};

/// Cells of one column in row 0, of two in row 1, and so on, the last one of a row of what is left.
const LAYERS: Spans = Spans {
    size: (1, 1),
    apart: (1, 1),
    is_shifted: false,
    is_layered: true,
};

/// The first cell, down to the last of 1,000 rows.
const TALL: Spans = Spans {
    size: (1000, 1),
    apart: (usize::MAX, usize::MAX),
    is_shifted: false,
    is_layered: false,
};

const BASIC: Table = Table {
    rows: 100,
    columns: 10,
    width: 12,
    height: 1,
    words: Words::Letters,
    look: PLAIN,
    spans: NO_SPANS,
    telling: Telling::Nothing,
};

const SPANS: Table = Table {
    spans: BLOCKS,
    ..BASIC
};

const COLORED: Table = Table {
    look: FRAMED,
    ..BASIC
};

const MULTILINE: Table = Table {
    height: 3,
    words: Words::Lines,
    look: TRIMMED,
    ..BASIC
};

const UNICODE: Table = Table {
    words: Words::Wide,
    ..BASIC
};

const BOX: Table = Table {
    look: BOXED,
    ..UNICODE
};

const SPANS1000: Table = Table {
    rows: 1000,
    ..SPANS
};

const TALL_SPAN: Table = Table {
    rows: 1000,
    columns: 2,
    spans: TALL,
    ..BASIC
};

const LONG_CELL: Table = Table {
    rows: 1,
    columns: 1,
    height: 1000,
    words: Words::Long,
    look: TRIMMED,
    ..BASIC
};

const TALL_TABLE: Table = Table {
    rows: 10_000,
    columns: 3,
    width: 3,
    words: Words::Same,
    look: &[],
    ..BASIC
};

const TALL10: Table = Table {
    rows: 10,
    ..TALL_TABLE
};

const TALL1000000: Table = Table {
    rows: 1_000_000,
    ..TALL_TABLE
};

const CELLS100: Table = Table {
    columns: 100,
    spans: TILES,
    ..BASIC
};

const CELLS1000: Table = Table {
    rows: 1000,
    columns: 1000,
    ..CELLS100
};

const ORDERED: Table = Table {
    columns: 100,
    telling: Telling::Ordered,
    ..BASIC
};

const REVERSED: Table = Table {
    telling: Telling::Reversed,
    ..ORDERED
};

const SCATTERED: Table = Table {
    telling: Telling::Scattered,
    ..ORDERED
};

const BORDERS: Table = Table {
    telling: Telling::Borders,
    ..ORDERED
};

const ROWS: Table = Table {
    telling: Telling::RowsAfterCells,
    ..ORDERED
};

const SQUARES100: Table = Table {
    columns: 100,
    spans: SQUARES,
    ..BASIC
};

const TALL_CELLS: Table = Table {
    rows: 4,
    columns: 64,
    height: 40,
    words: Words::Long,
    ..BASIC
};

const BOX40: Table = Table { columns: 40, ..BOX };

const ORDERED1000: Table = Table {
    rows: 1000,
    ..ORDERED
};

const REVERSED1000: Table = Table {
    rows: 1000,
    ..REVERSED
};

const SCATTERED1000: Table = Table {
    rows: 1000,
    ..SCATTERED
};

const BORDERS1000: Table = Table {
    rows: 1000,
    ..BORDERS
};

const ROWS1000: Table = Table { rows: 1000, ..ROWS };

const SQUARES400: Table = Table {
    rows: 400,
    columns: 400,
    ..SQUARES100
};

const SQUARES1000: Table = Table {
    rows: 1000,
    columns: 1000,
    ..SQUARES100
};

const LAYERS100: Table = Table {
    columns: 100,
    spans: LAYERS,
    ..BASIC
};

const LAYERS400: Table = Table {
    rows: 400,
    columns: 400,
    ..LAYERS100
};

const CROSSED100: Table = Table {
    telling: Telling::Crossings,
    ..SQUARES100
};

const CROSSED400: Table = Table {
    telling: Telling::Crossings,
    ..SQUARES400
};

const TALL_CELLS160: Table = Table {
    height: 160,
    ..TALL_CELLS
};

// Its separators have 8,154 bytes.
const BOX209: Table = Table {
    columns: 209,
    ..BOX
};

/// All tables, as they are listed. Some of them take long.
pub(crate) static CASES: [Case; 67] = [
    Case("peek_basic", Grid::Peekable, BASIC),
    Case("peek_spans", Grid::Peekable, SPANS),
    Case("peek_colored", Grid::Colored, COLORED),
    Case("peek_multiline", Grid::Peekable, MULTILINE),
    Case("peek_unicode", Grid::Peekable, UNICODE),
    Case("peek_box", Grid::Peekable, BOX),
    Case("peek_spans1000", Grid::Peekable, SPANS1000),
    Case("peek_tallspan", Grid::Peekable, TALL_SPAN),
    Case("peek_longcell", Grid::Peekable, LONG_CELL),
    Case("iter_basic", Grid::Iter, BASIC),
    Case("iter_spans", Grid::Iter, SPANS),
    Case("iter_multiline", Grid::Iter, MULTILINE),
    Case("iter_tall", Grid::IterMade, TALL_TABLE),
    Case("iter_spans1000", Grid::Iter, SPANS1000),
    Case("iter_tallspan", Grid::Iter, TALL_SPAN),
    Case("iter_longcell", Grid::Iter, LONG_CELL),
    Case("compact_basic", Grid::Compact, BASIC),
    Case("compact_colored", Grid::CompactColored, COLORED),
    Case("table_basic", Grid::Natural, BASIC),
    Case("told_ordered10000", Grid::Told, ORDERED),
    Case("told_reversed10000", Grid::Told, REVERSED),
    Case("told_scattered10000", Grid::Told, SCATTERED),
    Case("told_borders10000", Grid::Told, BORDERS),
    Case("told_rows10000", Grid::Told, ROWS),
    Case("told_spans10000", Grid::Told, SQUARES100),
    Case("peek_tallcells40", Grid::Peekable, TALL_CELLS),
    Case("iter_tallcells40", Grid::Iter, TALL_CELLS),
    Case("peek_box40", Grid::Peekable, BOX40),
    Case("iter_box40", Grid::Iter, BOX40),
    Case("iter_tall10", Grid::IterMade, TALL10),
    Case("iter_tall1000000", Grid::IterMade, TALL1000000),
    Case("peek_cells100", Grid::Peekable, CELLS100),
    Case("peek_cells1000", Grid::Peekable, CELLS1000),
    Case("peek_checked", Grid::Checked, BASIC),
    Case("rows_tall", Grid::Rows, TALL_TABLE),
    Case("rows_tall1000000", Grid::Rows, TALL1000000),
    Case("results_tall", Grid::Results, TALL_TABLE),
    Case("results_tall1000000", Grid::Results, TALL1000000),
    Case("live_tall", Grid::Live, TALL_TABLE),
    Case("lent_tall", Grid::Lent, TALL_TABLE),
    Case("sized_tall", Grid::Sized, TALL_TABLE),
    Case("peek_tested", Grid::Tested, BASIC),
    Case("vectors_tall", Grid::Vectors, TALL_TABLE),
    Case("vectors_tall_streamed", Grid::VectorsStreamed, TALL_TABLE),
    Case("vectors_tall_tested", Grid::VectorsTested, TALL_TABLE),
    Case("vectors_tall_printed", Grid::VectorsPrinted, TALL_TABLE),
    Case("vectors_tall1000000", Grid::Vectors, TALL1000000),
    Case(
        "vectors_tall1000000_streamed",
        Grid::VectorsStreamed,
        TALL1000000,
    ),
    Case(
        "vectors_tall1000000_tested",
        Grid::VectorsTested,
        TALL1000000,
    ),
    Case(
        "vectors_tall1000000_printed",
        Grid::VectorsPrinted,
        TALL1000000,
    ),
    Case("told_ordered100000", Grid::Told, ORDERED1000),
    Case("told_reversed100000", Grid::Told, REVERSED1000),
    Case("told_scattered100000", Grid::Told, SCATTERED1000),
    Case("told_borders100000", Grid::Told, BORDERS1000),
    Case("told_rows100000", Grid::Told, ROWS1000),
    Case("told_spans160000", Grid::Told, SQUARES400),
    Case("told_crossings10000", Grid::Told, CROSSED100),
    Case("told_crossings160000", Grid::Told, CROSSED400),
    Case("table_spans10000", Grid::Natural, SQUARES100),
    Case("table_spans160000", Grid::Natural, SQUARES400),
    Case("table_spans1000000", Grid::Natural, SQUARES1000),
    Case("table_layers10000", Grid::Natural, LAYERS100),
    Case("table_layers160000", Grid::Natural, LAYERS400),
    Case("peek_tallcells160", Grid::Peekable, TALL_CELLS160),
    Case("iter_tallcells160", Grid::Iter, TALL_CELLS160),
    Case("peek_box209", Grid::Peekable, BOX209),
    Case("iter_box209", Grid::Iter, BOX209),
];

/// What a table consists of.
///
/// As a dimension it has columns of one width and rows of one height, which take no memory.
pub(crate) struct Table {
    pub(crate) rows: usize,
    pub(crate) columns: usize,
    /// How many terminal columns each column has.
    pub(crate) width: usize,
    /// How many lines each row has.
    pub(crate) height: usize,
    pub(crate) words: Words,
    /// What is drawn round texts, and how they are placed in their cells: lines for `pg_testing::settings::apply`.
    pub(crate) look: &'static [&'static str],
    pub(crate) spans: Spans,
    pub(crate) telling: Telling,
}

/// What the cells of a table say.
pub(crate) enum Words {
    /// A few letters.
    Letters,
    /// Three lines, with spaces round the words.
    Lines,
    /// A few wide characters.
    Wide,
    /// One line, as many times as the row has lines.
    Long,
    /// Three letters, which are equal in all cells.
    Same,
}

/// Which cells span others.
pub(crate) struct Spans {
    /// How many rows and columns each has.
    pub(crate) size: (usize, usize),
    /// How many rows and columns below and right of one the next one is; no row: none spans others.
    pub(crate) apart: (usize, usize),
    /// Whether the first one of a row is in column 0, 3 and 6 by turns, and the texts of all in the
    /// middle.
    pub(crate) is_shifted: bool,
    /// Whether cells take all columns of a row instead, each one more than those of the row above.
    pub(crate) is_layered: bool,
}

/// What is set for single cells and rows of a table that is set anew.
pub(crate) enum Telling {
    /// Nothing.
    Nothing,
    /// A colour, a padding and an alignment of each cell, row by row.
    Ordered,
    /// A colour, a padding and an alignment of each cell, from the last cell to the first.
    Reversed,
    /// A colour, a padding and an alignment of each cell, each cell far from the one before.
    Scattered,
    /// A border of each cell, row by row.
    Borders,
    /// An alignment of each cell, row by row, and then one of each row.
    RowsAfterCells,
    /// The crossings on the edges of cells that span others, in ASCII.
    Crossings,
}

impl Dimension for Table {
    ghost width = { λ table _. table.width };

    ghost height = { λ table _. table.height };

    fn get_width(&self, _column: usize) -> usize {
        self.width
    }

    fn get_height(&self, _row: usize) -> usize {
        self.height
    }
}

/// The colour of the terminal.
const NO_COLOR: &str = "\u{1b}[39m";

/// Tells a configuration all that a table sets.
pub(crate) fn set(
    alloc: Global,
    table: &Table,
    config: &mut SpannedConfig,
) -> Result<(), CaseFault> {
    apply_all(config, alloc, table.look)?;
    span(config, table).map_err(CaseFault::from)
}

// Lets cells span others.
fn span(config: &mut SpannedConfig, table: &Table) -> Result<(), AllocError> {
    let (below, _) = table.spans.apart;
    if below == 0 {
        return Ok(());
    }
    for row in (0..table.rows).step_by(below) {
        if table.spans.is_layered {
            layer_row(config, table.columns, row)?;
        } else {
            span_in_row(config, table, row)?;
        }
    }
    Ok(())
}

// Sets the spans of a row.
fn span_in_row(config: &mut SpannedConfig, table: &Table, row: usize) -> Result<(), AllocError> {
    let ((_, beside), (rows, columns)) = (table.spans.apart, table.spans.size);
    if beside == 0 {
        return Ok(());
    }
    let is_shifted = table.spans.is_shifted;
    let first = if is_shifted { 3 * ((row / 4) % 3) } else { 0 };
    for column in (first..table.columns).step_by(beside) {
        span_cell(config, Position::new(row, column), rows, columns)?;
        if is_shifted {
            center_cell(config, Entity::Cell(row, column))?;
        }
    }
    Ok(())
}

/// Lets a cell span so many rows and columns.
pub(crate) fn span_cell(
    config: &mut SpannedConfig,
    place: Position,
    rows: usize,
    columns: usize,
) -> Result<(), AllocError> {
    config.set_row_span(place, rows)?;
    config.set_column_span(place, columns)
}

// The text in the middle.
fn center_cell(config: &mut SpannedConfig, cell: Entity) -> Result<(), AllocError> {
    config.set_alignment_horizontal(cell, AlignmentHorizontal::Center)?;
    config.set_alignment_vertical(cell, AlignmentVertical::Center)
}

// Lets each cell of a row take one column more than those of the row above, and the last one what is left.
fn layer_row(config: &mut SpannedConfig, columns: usize, row: usize) -> Result<(), AllocError> {
    let taken = row.saturating_add(1);
    for column in (0..columns).step_by(taken) {
        let left = columns.saturating_sub(column);
        config.set_column_span(Position::new(row, column), taken.min(left))?;
    }
    Ok(())
}

/// The configuration of a table that the compact grid prints. Its colours are those of the other
/// grids, and it has no margin above or below.
pub(crate) fn compact_settings(is_colored: bool) -> CompactConfig {
    let config = CompactConfig::new()
        .set_borders(Borders::ascii())
        .set_padding(Sides::horizontal(1));
    if !is_colored {
        return config;
    }
    let (dots, none) = (Indent::new(2, '.'), Indent::zero());
    config
        .set_borders_color(everywhere(ANSIStr::new("\u{1b}[34m", NO_COLOR)))
        .set_margin(Sides::new(dots, dots, none, none))
        .set_margin_color(Sides::filled(ANSIStr::new("\u{1b}[90m", NO_COLOR)))
}

// One colour at all fifteen places.
fn everywhere(color: ANSIStr<'static>) -> Borders<ANSIStr<'static>> {
    Borders {
        top: Some(color),
        top_left: Some(color),
        top_right: Some(color),
        top_intersection: Some(color),
        bottom: Some(color),
        bottom_left: Some(color),
        bottom_right: Some(color),
        bottom_intersection: Some(color),
        horizontal: Some(color),
        left_intersection: Some(color),
        right_intersection: Some(color),
        intersection: Some(color),
        left: Some(color),
        right: Some(color),
        vertical: Some(color),
    }
}

/// The colours of the cells: each third cell has one of seven.
pub(crate) fn colors(alloc: Global, table: &Table) -> Result<ColorsMap, AllocError> {
    let mut colors = ColorsMap::new(alloc);
    for number in 0..table.rows.saturating_mul(table.columns) {
        let pos = position(number, table.columns);
        if (pos.row % 3 + pos.col % 3) % 3 == 0 {
            color_cell(alloc, &mut colors, pos)?;
        }
    }
    Ok(colors)
}

// Gives a cell one of seven colours.
fn color_cell(alloc: Global, colors: &mut ColorsMap, pos: Position) -> Result<(), AllocError> {
    let prefix = PREFIXES[(pos.row % 7 + pos.col % 7) % 7];
    colors.set(pos, ANSIBuf::new(alloc, prefix, NO_COLOR)?)
}

const PREFIXES: [&str; 7] = [
    "\u{1b}[31m",
    "\u{1b}[32m",
    "\u{1b}[33m",
    "\u{1b}[34m",
    "\u{1b}[35m",
    "\u{1b}[36m",
    "\u{1b}[37m",
];

/// How many cells on the next one is that is set, where they are scattered. It has no divisor in
/// common with the numbers of cells, so that each is set once.
const STRIDE: usize = 61_803;

/// Tells a configuration and colours what a table says of single cells and rows.
pub(crate) fn tell(
    alloc: Global,
    table: &Table,
    config: &mut SpannedConfig,
    colors: &mut ColorsMap,
) -> Result<(), AllocError> {
    match table.telling {
        Telling::Nothing => Ok(()),
        Telling::RowsAfterCells => {
            tell_cells(alloc, table, config, colors)?;
            align_rows(config, table.rows)
        }
        Telling::Crossings => {
            let size = (table.rows, table.columns);
            config.set_span_crossings(alloc, size, Borders::ascii())
        }
        _ => tell_cells(alloc, table, config, colors),
    }
}

// The place of the cell of this number, row by row.
fn position(number: usize, columns: usize) -> Position {
    if columns == 0 {
        return Position::new(0, 0);
    }
    Position::new(number / columns, number % columns)
}

// The number of the cell that is set after so many others, of so many cells.
fn number(telling: &Telling, told: usize, cells: usize) -> usize {
    if cells == 0 {
        return 0;
    }
    match telling {
        Telling::Reversed => cells - 1 - told % cells,
        Telling::Scattered => told.wrapping_mul(STRIDE) % cells,
        _ => told,
    }
}

// Sets what a table says of each cell.
fn tell_cells(
    alloc: Global,
    table: &Table,
    config: &mut SpannedConfig,
    colors: &mut ColorsMap,
) -> Result<(), AllocError> {
    let cells = table.rows.saturating_mul(table.columns);
    for told in 0..cells {
        let pos = position(number(&table.telling, told, cells), table.columns);
        match table.telling {
            Telling::Borders => frame_cell(config, pos),
            Telling::RowsAfterCells => {
                let cell = Entity::Cell(pos.row, pos.col);
                config.set_alignment_horizontal(cell, AlignmentHorizontal::Right)
            }
            _ => style_cell(alloc, config, colors, pos),
        }?;
    }
    Ok(())
}

// One glyph all round a cell.
fn frame_cell(config: &mut SpannedConfig, pos: Position) -> Result<(), AllocError> {
    let c = ['#', '*', '%'][(pos.row % 3 + pos.col % 3) % 3];
    config.set_border(pos, Border::full(c, c, c, c, c, c, c, c))
}

// A colour, two spaces beside a text, and the text left, in the middle or right.
fn style_cell(
    alloc: Global,
    config: &mut SpannedConfig,
    colors: &mut ColorsMap,
    pos: Position,
) -> Result<(), AllocError> {
    color_cell(alloc, colors, pos)?;
    let cell = Entity::Cell(pos.row, pos.col);
    let (left, right) = [(1, 1), (0, 2), (2, 0)][(pos.row % 3 + pos.col % 3) % 3];
    let none = Indent::spaced(0);
    config.set_padding(
        cell,
        Sides::new(Indent::spaced(left), Indent::spaced(right), none, none),
    )?;
    config.set_alignment_horizontal(cell, ALIGNMENTS[(pos.row % 3 + 2 * (pos.col % 3)) % 3])
}

const ALIGNMENTS: [AlignmentHorizontal; 3] = [
    AlignmentHorizontal::Left,
    AlignmentHorizontal::Center,
    AlignmentHorizontal::Right,
];

// All texts in the middle, row by row.
fn align_rows(config: &mut SpannedConfig, rows: usize) -> Result<(), AllocError> {
    for row in 0..rows {
        config.set_alignment_horizontal(Entity::Row(row), AlignmentHorizontal::Center)?;
    }
    Ok(())
}
