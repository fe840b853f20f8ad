//! What becomes of tables by calls that merge, fill, rearrange or export them, as it was worked out by hand.

use crate::case::CaseFault;
use crate::values::Fact;
use pg_fit::ColumnRange;
use pg_layout::{
    AlignmentHorizontal, Border, Borders, Color, Entity, ExactRecords, Position, Sides,
};
use pg_table::{Overflow, Table, TableFault};
use pg_testing::ledger::{Outcome, Trial};
use pg_testing::refusing::Refusing;
use pg_testing::report::Report;
use std::alloc::{Allocator, Global};

/// Calls that change a table.
#[derive(Clone, Copy)]
enum Call {
    /// None: the table stays as it is.
    Nothing,
    /// Runs of equal texts in a column become one cell.
    Merged(usize),
    /// A panel above centred texts and others at the right.
    Panel,
    /// A column in red, then row 1 in green, and then its cell in column 1 bold.
    Colors,
    /// Paddings, and every second row from row 1 on filled with red.
    Stripes,
    /// A new panel in a modern look, and crossings round it.
    PanelRow,
    /// The same, a row and another panel, and crossings round both.
    PanelRows,
    /// Columns of numbers at the right.
    Numbers,
    /// Points below one another, from a row on, in a column.
    Points(usize, usize),
    /// A caption at the right.
    Caption(&'static str),
    /// A red title at the right of the first line.
    ColoredTitle(&'static str),
    /// A frame round the cells from one to another, in a table with these lines between its outer ones.
    Framed(Inner, [usize; 4]),
    /// A double line left of column 1.
    ColumnLine,
    /// A double line left of column 1, in a table without other lines.
    OnlyColumnLine,
}

/// The lines between the outer ones of a table.
#[derive(Clone, Copy)]
enum Inner {
    /// Those between rows and those between columns.
    All,
    /// Those between rows.
    Rows,
    /// Those between columns.
    Columns,
}

/// Calls that make a text of a table.
#[derive(Clone, Copy)]
enum Export {
    /// Its picture.
    Picture,
    /// The picture whose lines are so wide: a column takes what they lack, and longer texts are cut.
    Filled(usize, usize),
    /// The picture within a width, if column 0 is at least and column 1 at most so wide: longer texts are cut.
    Ranged(usize, usize, usize),
    /// The picture within so many columns, whose title is at the right of the first line.
    Titled(usize, &'static str),
    /// The picture of its columns as rows.
    Transposed,
    /// The picture, an `x` and the picture again beside each other, with so many spaces between two.
    Beside(usize),
    /// HTML.
    Html,
}

/// Rows, the calls of their table, and the text that they make.
struct Case {
    name: &'static str,
    rows: &'static [&'static [&'static str]],
    call: Call,
    export: Export,
    text: &'static str,
}

const CASES: &[Case] = &[
    Case {
        name: "a run of equal texts becomes one cell",
        rows: &[&["a", "1"], &["a", "2"], &["b", "3"]],
        call: Call::Merged(0),
        export: Export::Picture,
        text: "+-+-+\n|a|1|\n+ +-+\n| |2|\n+-+-+\n|b|3|\n+-+-+",
    },
    Case {
        name: "empty texts are no run and the last row ends one",
        rows: &[&[""], &[""], &["x"], &["x"], &["y"], &["y"], &["y"]],
        call: Call::Merged(0),
        export: Export::Picture,
        // Rows without a cell of their own have no height, so merged texts are on the lines between them.
        text: "+-+\n| |\n+-+\n| |\n+-+\n+x+\n+-+\n+y+\n+ +\n+-+",
    },
    Case {
        name: "a column that is not there has no run",
        rows: &[&["a"], &["a"]],
        call: Call::Merged(1),
        export: Export::Picture,
        text: "+-+\n|a|\n+-+\n|a|\n+-+",
    },
    Case {
        name: "the last column takes what lines lack",
        rows: &[&["ab", "c"], &["d", "e"]],
        call: Call::Nothing,
        export: Export::Filled(10, 1),
        text: "+--+-----+\n|ab|c    |\n+--+-----+\n|d |e    |\n+--+-----+",
    },
    Case {
        name: "the first column takes what lines lack",
        rows: &[&["ab", "c"], &["d", "e"]],
        call: Call::Nothing,
        export: Export::Filled(10, 0),
        text: "+------+-+\n|ab    |c|\n+------+-+\n|d     |e|\n+------+-+",
    },
    Case {
        name: "lines that lack nothing are narrowed",
        rows: &[&["ab", "c"], &["d", "e"]],
        call: Call::Nothing,
        export: Export::Filled(5, 0),
        text: "+-+-+\n|…|c|\n+-+-+\n|d|e|\n+-+-+",
    },
    Case {
        name: "a column that is not there takes nothing",
        rows: &[&["ab", "c"], &["d", "e"]],
        call: Call::Nothing,
        export: Export::Filled(10, 2),
        text: "+--+-+\n|ab|c|\n+--+-+\n|d |e|\n+--+-+",
    },
    Case {
        name: "a column is not narrowed below its range",
        rows: &[&["abcdef", "ghijkl"]],
        call: Call::Nothing,
        export: Export::Ranged(11, 6, usize::MAX),
        text: "+------+--+\n|abcdef|g…|\n+------+--+",
    },
    Case {
        name: "a column is not wider than its range and one without a range stays",
        rows: &[&["abcdef", "ghijkl", "mnop"]],
        call: Call::Nothing,
        export: Export::Ranged(80, 9, 3),
        text: "+------+---+----+\n|abcdef|gh…|mnop|\n+------+---+----+",
    },
    Case {
        name: "ranges hold where their least widths are wider than the line",
        rows: &[&["abcdef", "ghijkl"]],
        call: Call::Nothing,
        export: Export::Ranged(4, 5, 3),
        text: "+-----+-+\n|abcd…|…|\n+-----+-+",
    },
    Case {
        name: "a panel is over a column that takes what lines lack",
        rows: &[&["Bill", ""], &["tea", "3"]],
        call: Call::Panel,
        export: Export::Filled(11, 1),
        text: "+---+-----+\n|  Bill   |\n+---+-----+\n|tea|    3|\n+---+-----+",
    },
    Case {
        name: "a table without rows is not filled",
        rows: &[],
        call: Call::Nothing,
        export: Export::Filled(10, 0),
        text: "",
    },
    Case {
        name: "columns become rows",
        rows: &[&["a", "b"], &["c", "d"], &["e", "f"]],
        call: Call::Nothing,
        export: Export::Transposed,
        text: "+-+-+-+\n|a|c|e|\n+-+-+-+\n|b|d|f|\n+-+-+-+",
    },
    Case {
        name: "the latest colour of a cell counts",
        rows: &[&["a", "b"], &["c", "d"]],
        call: Call::Colors,
        export: Export::Picture,
        text: "+-+-+\n|\u{1b}[31ma\u{1b}[39m|b|\n+-+-+\n|\u{1b}[32mc\u{1b}[39m|\u{1b}[1md\u{1b}[22m|\n+-+-+",
    },
    Case {
        name: "a stripe fills a text and the paddings and the room beside it",
        rows: &[&["a"], &["bb"], &["c"], &["d"]],
        call: Call::Stripes,
        export: Export::Picture,
        text: "+----+\n| a  |\n+----+\n|\u{1b}[41m \u{1b}[49m\u{1b}[41mbb\u{1b}[49m\u{1b}[41m \u{1b}[49m|\n+----+\n\
            | c  |\n+----+\n|\u{1b}[41m \u{1b}[49m\u{1b}[41md\u{1b}[49m\u{1b}[41m \u{1b}[49m\u{1b}[41m \u{1b}[49m|\n+----+",
    },
    Case {
        name: "a new panel in a table without rows has one cell",
        rows: &[],
        call: Call::PanelRow,
        export: Export::Picture,
        text: "┌───┐\n│one│\n└───┘",
    },
    Case {
        name: "lines round new panels follow them and so does the frame",
        rows: &[&["a", "b"]],
        call: Call::PanelRows,
        export: Export::Picture,
        text: "┌─┬─┐\n│a│b│\n├─┴─┤\n│one│\n├─┬─┤\n│c│d│\n├─┴─┤\n│two│\n└───┘",
    },
    Case {
        name: "columns of numbers are at the right",
        rows: &[
            &["item", "price", "left"],
            &["tea", "3.5", " "],
            &["1 cup", "", "-7%"],
        ],
        call: Call::Numbers,
        export: Export::Picture,
        text: "+-----+-----+----+\n|item |price|left|\n+-----+-----+----+\n|tea  |  3.5|    |\n\
            +-----+-----+----+\n|1 cup|     | -7%|\n+-----+-----+----+",
    },
    Case {
        name: "points are below one another",
        rows: &[
            &["item", "price"],
            &["tea", "3.5"],
            &["milk", "12"],
            &["salt", "0.25"],
            &["cups", "-"],
        ],
        call: Call::Points(1, 1),
        export: Export::Picture,
        text: "+----+-----+\n|item|price|\n+----+-----+\n|tea | 3.5 |\n+----+-----+\n|milk|12   |\n\
            +----+-----+\n|salt| 0.25|\n+----+-----+\n|cups|    -|\n+----+-----+",
    },
    Case {
        name: "a number above the first row keeps its padding",
        rows: &[&["2024"], &["1.5"], &["20"]],
        call: Call::Points(1, 0),
        export: Export::Picture,
        text: "+----+\n|2024|\n+----+\n| 1.5|\n+----+\n|20  |\n+----+",
    },
    Case {
        name: "a column that is not there has no points",
        rows: &[&["1.5"], &["20"]],
        call: Call::Points(0, 1),
        export: Export::Picture,
        text: "+---+\n|1.5|\n+---+\n|20 |\n+---+",
    },
    Case {
        name: "a caption is over the last line",
        rows: &[&["ab", "c"]],
        call: Call::Caption("end"),
        export: Export::Picture,
        text: "+--+-+\n|ab|c|\n+-end+",
    },
    Case {
        name: "a caption without characters changes nothing",
        rows: &[&["ab", "c"]],
        call: Call::Caption(""),
        export: Export::Picture,
        text: "+--+-+\n|ab|c|\n+--+-+",
    },
    Case {
        name: "a red title crosses a column line",
        rows: &[&["ab", "c"]],
        call: Call::ColoredTitle("end"),
        export: Export::Picture,
        text: "+-\u{1b}[31me\u{1b}[39m\u{1b}[31mn\u{1b}[39m\u{1b}[31md\u{1b}[39m+\n|ab|c|\n+--+-+",
    },
    Case {
        name: "a title is placed by narrowed widths",
        rows: &[&["abcdef", "g"]],
        call: Call::Nothing,
        export: Export::Titled(7, "T"),
        text: "+---+T+\n|ab…|g|\n+---+-+",
    },
    Case {
        name: "a frame goes on where it crosses lines and ends with the table",
        rows: &[&["a", "b", "c"], &["d", "e", "f"]],
        call: Call::Framed(Inner::All, [0, 1, 9, 9]),
        export: Export::Picture,
        text: "+-┏━━━┓\n|a┃b|c┃\n+-┃-+-┃\n|d┃e|f┃\n+-┗━━━┛",
    },
    Case {
        name: "row lines that a frame adds leave column lines closed",
        rows: &[&["a", "b", "c"], &["d", "e", "f"], &["g", "h", "i"]],
        call: Call::Framed(Inner::Columns, [1, 1, 1, 1]),
        export: Export::Picture,
        text: "+-+-+-+\n|a|b|c|\n| ┏━┓ |\n|d┃e┃f|\n| ┗━┛ |\n|g|h|i|\n+-+-+-+",
    },
    Case {
        name: "column lines that a frame adds leave row lines closed",
        rows: &[&["a", "b", "c"], &["d", "e", "f"]],
        call: Call::Framed(Inner::Rows, [0, 1, 0, 1]),
        export: Export::Picture,
        text: "+-┏━┓-+\n|a┃b┃c|\n+-┗━┛-+\n|d e f|\n+-----+",
    },
    Case {
        name: "a frame adds no line between its rows",
        rows: &[&["a", "b"], &["c", "d"], &["e", "f"]],
        call: Call::Framed(Inner::Columns, [0, 0, 1, 0]),
        export: Export::Picture,
        text: "┏━┓-+\n┃a┃b|\n┃c┃d|\n┗━┛ |\n|e|f|\n+-+-+",
    },
    Case {
        name: "a frame round no cell changes nothing",
        rows: &[&["a"], &["b"]],
        call: Call::Framed(Inner::All, [1, 0, 0, 0]),
        export: Export::Picture,
        text: "+-+\n|a|\n+-+\n|b|\n+-+",
    },
    Case {
        name: "a line between two columns",
        rows: &[&["a", "b"], &["c", "d"]],
        call: Call::ColumnLine,
        export: Export::Picture,
        text: "+-╦-+\n|a║b|\n+-╬-+\n|c║d|\n+-╩-+",
    },
    Case {
        name: "a line between two columns adds no row line",
        rows: &[&["a", "b"], &["c", "d"]],
        call: Call::OnlyColumnLine,
        export: Export::Picture,
        text: "a║b\nc║d",
    },
    Case {
        name: "texts are beside each other",
        rows: &[&["a"], &["b"]],
        call: Call::Nothing,
        export: Export::Beside(2),
        text: "+-+  x  +-+\n|a|     |a|\n+-+     +-+\n|b|     |b|\n+-+     +-+",
    },
    Case {
        name: "no text of a cell is markup",
        rows: &[&["<b>", "\"q\""], &["a & b", "é"]],
        call: Call::Nothing,
        export: Export::Html,
        text: "<table>\n<tr><td>&lt;b&gt;</td><td>&quot;q&quot;</td></tr>\n<tr><td>a &amp; b</td><td>é</td></tr>\n</table>",
    },
    Case {
        name: "a merged cell has its rows",
        rows: &[&["a", "1"], &["a", "2"]],
        call: Call::Merged(0),
        export: Export::Html,
        text: "<table>\n<tr><td rowspan=\"2\">a</td><td>1</td></tr>\n<tr><td>2</td></tr>\n</table>",
    },
    Case {
        name: "a panel has its columns and texts have their sides",
        rows: &[&["Bill", ""], &["tea", "3"]],
        call: Call::Panel,
        export: Export::Html,
        text: "<table>\n<tr><td class=\"center\" colspan=\"2\">Bill</td></tr>\n<tr><td class=\"center\">tea</td><td class=\"right\">3</td></tr>\n</table>",
    },
];

// A table of these rows.
fn table_of<A: Allocator + Copy>(
    alloc: A,
    texts: &[&[&'static str]],
) -> Result<Table<&'static str, A>, TableFault> {
    let mut rows = Vec::new(alloc);
    for row in texts {
        rows.push(row.to_vec(alloc)?)?;
    }
    Table::new(alloc, rows)
}

// The table with two panels, and a row between them.
fn panel_rows<A: Allocator + Copy>(
    alloc: A,
    table: Table<&'static str, A>,
) -> Result<Table<&'static str, A>, TableFault> {
    let mut table = table
        .with_borders(Borders::modern())
        .with_panel_row(alloc, "one")?
        .with_span_crossings(alloc, Borders::modern())?;
    table.push_row(vec![in alloc; "c", "d"]?)?;
    table
        .with_panel_row(alloc, "two")?
        .with_span_crossings(alloc, Borders::modern())
}

// The table with these inner lines, and with a frame from one cell to another.
fn framed<A: Allocator + Copy>(
    table: Table<&'static str, A>,
    inner: Inner,
    corners: [usize; 4],
) -> Result<Table<&'static str, A>, TableFault> {
    let border = Border::full('━', '━', '┃', '┃', '┏', '┓', '┗', '┛');
    let (from, to) = (
        Position::new(corners[0], corners[1]),
        Position::new(corners[2], corners[3]),
    );
    table
        .with_borders(borders_with(inner))
        .with_frame(from, to, border)
}

// The table behind the call that changes it.
fn changed<A: Allocator + Copy>(
    alloc: A,
    table: Table<&'static str, A>,
    call: Call,
) -> Result<Table<&'static str, A>, TableFault> {
    match call {
        Call::Nothing => Ok(table),
        Call::Merged(column) => table.with_merged_column(column),
        Call::Panel => table
            .with_alignment(AlignmentHorizontal::Center)
            .with_column_alignment(1, AlignmentHorizontal::Right)?
            .with_panel(0),
        Call::Colors => table
            .with_color(alloc, Entity::Column(0), Color::red())?
            .with_color(alloc, Entity::Row(1), Color::green())?
            .with_color(alloc, Entity::Cell(1, 1), Color::plain().bold()),
        Call::Stripes => table
            .with_padding(Sides::spaces(1, 0))
            .with_stripes(alloc, 1, 2, Color::plain().on_red()),
        Call::PanelRow => table
            .with_borders(Borders::modern())
            .with_panel_row(alloc, "one")?
            .with_span_crossings(alloc, Borders::modern()),
        Call::PanelRows => panel_rows(alloc, table),
        Call::Numbers => table.with_numbers_right(),
        Call::Points(from, column) => table.with_points_aligned(from, column),
        Call::Caption(caption) => table.with_caption(alloc, caption, AlignmentHorizontal::Right),
        Call::ColoredTitle(title) => {
            table.with_colored_title(alloc, 0, title, AlignmentHorizontal::Right, Color::red())
        }
        Call::Framed(inner, corners) => framed(table, inner, corners),
        Call::ColumnLine => table.with_column_line(1, Borders::extended()),
        Call::OnlyColumnLine => table
            .with_borders(Borders::empty())
            .with_column_line(1, Borders::extended()),
    }
}

// ASCII borders with these lines between the outer ones.
fn borders_with(inner: Inner) -> Borders<char> {
    let all = Borders::ascii();
    match inner {
        Inner::All => all,
        Inner::Rows => Borders {
            vertical: None,
            top_intersection: None,
            bottom_intersection: None,
            intersection: None,
            ..all
        },
        Inner::Columns => Borders {
            horizontal: None,
            left_intersection: None,
            right_intersection: None,
            intersection: None,
            ..all
        },
    }
}

// The picture of a table within a width, with a title at the right of its first line.
fn titled<'m>(
    alloc: &'m Refusing<Global>,
    mut table: Table<&'static str, &'m Refusing<Global>>,
    width: usize,
    title: &str,
) -> Result<String<&'m Refusing<Global>>, TableFault> {
    let how = Overflow::Cut("…");
    let sizes = table.within(alloc, width, how)?.natural_dimension(alloc)?;
    table.set_title_at(alloc, 0, title, AlignmentHorizontal::Right, &sizes)?;
    table.within(alloc, width, how)?.to_string(alloc)
}

// The picture of a table within a width, with ranges of its columns.
fn ranged<'m>(
    alloc: &'m Refusing<Global>,
    table: &Table<&'static str, &'m Refusing<Global>>,
    width: usize,
    least: usize,
    most: usize,
) -> Result<String<&'m Refusing<Global>>, TableFault> {
    let first = ColumnRange {
        least,
        natural: usize::MAX,
    };
    let second = ColumnRange {
        least: 0,
        natural: most,
    };
    table
        .within_columns(alloc, width, &[first, second], Overflow::Cut("…"))?
        .to_string(alloc)
}

// The picture of a table, a text and the picture again.
fn beside<'m>(
    alloc: &'m Refusing<Global>,
    picture: &str,
    gap: usize,
) -> Result<String<&'m Refusing<Global>>, TableFault> {
    let texts = vec![in alloc; picture, "x", picture]?;
    Table::beside(alloc, texts, gap)?.to_string(alloc)
}

// The text of what the calls make.
fn text_of<'m>(
    alloc: &'m Refusing<Global>,
    case: &Case,
) -> Result<String<&'m Refusing<Global>>, TableFault> {
    let table = changed(alloc, table_of(alloc, case.rows)?, case.call)?;
    match case.export {
        Export::Picture => table.to_string(alloc),
        Export::Filled(width, column) => table
            .filled(alloc, width, column, Overflow::Cut("…"))?
            .to_string(alloc),
        Export::Ranged(width, least, most) => ranged(alloc, &table, width, least, most),
        Export::Titled(width, title) => titled(alloc, table, width, title),
        Export::Transposed => table.transposed(alloc)?.to_string(alloc),
        Export::Beside(gap) => beside(alloc, &table.to_string(alloc)?, gap),
        Export::Html => table.to_html(alloc).map_err(TableFault::from),
    }
}

/// Calls whose requests for memory are refused in turn.
#[derive(Clone, Copy)]
struct Refused<'c> {
    case: &'c Case,
    alloc: Global,
}

impl Trial for Refused<'_> {
    fn outcome(&mut self, number: u64) -> Outcome {
        self.made(&Refusing::from_on(self.alloc, number))
    }
}

impl Refused<'_> {
    // The calls make their text, or memory was refused.
    fn made(&self, memory: &Refusing<Global>) -> Outcome {
        let made = text_of(memory, self.case);
        let has_refused = memory.has_refused();
        match made {
            Ok(text) if text.as_str() == self.case.text && !has_refused => Outcome::Whole,
            Err(TableFault::Memory) if has_refused => Outcome::Failed,
            _ => Outcome::Wrong,
        }
    }
}

// What the calls make, and that they report each request for memory that is refused.
fn check_case(alloc: Global, case: &Case, report: &mut Report) {
    let mut fact = Fact::new(report, case.name);
    let memory = Refusing::from_on(alloc, u64::MAX);
    let text = text_of(&memory, case).ok();
    fact.same(text.as_deref(), Some(case.text));
    fact.holds(Refused { case, alloc }.failures().is_ok());
}

fn a_table_gives_and_takes_texts(alloc: Global, report: &mut Report) -> Result<(), CaseFault> {
    let mut fact = Fact::new(report, "a table gives and takes texts");
    let mut table = Table::new(alloc, vec![in alloc; vec![in alloc; "a", "b"]?]?)?;
    fact.same(table.text(Position::new(0, 1)), Some("b"));
    fact.same(table.text(Position::new(0, 2)), None);
    fact.same(table.text(Position::new(1, 0)), None);
    fact.same(table.records().count_rows(), 1);
    fact.same(table.set_text(Position::new(0, 1), "c"), Some("b"));
    fact.same(table.set_text(Position::new(1, 0), "d"), None);
    fact.same(table.text(Position::new(0, 1)), Some("c"));
    Ok(())
}

/// All facts of this file.
pub(crate) fn check_calls(alloc: Global, report: &mut Report) -> Result<(), CaseFault> {
    for case in CASES {
        check_case(alloc, case, report);
    }
    a_table_gives_and_takes_texts(alloc, report)
}
