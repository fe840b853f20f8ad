//! Looks of tables: borders, the lines below a header that belong to them, and their names.

ghost use Rattle.std.specs.Prelude.{◌≡◌, ◌∷◌, [], Some, IfSome};
ghost use Rattle.pg_layout.specs.Looks.{drawn_line, ascii, modern, sharp, rounded, extended, dots, blank, psql, markdown, sharp_line, psql_line, markdown_line};
ghost use Rattle.pg_layout.specs.Looks.{borders_of, first_named, header_line_of, name_of};
ghost use Rattle.pg_layout.specs.declared.looks.Look.{Look};

use crate::borders::{Borders, HorizontalLine};

// A line without glyphs.
const NO_LINE: HorizontalLine<char> = HorizontalLine {
    main: None,
    intersection: None,
    left: None,
    right: None,
};

// A line of a drawing: its left end, its glyph in a column, that between two columns, and its right
// end.
fn line(left: char, main: char, intersection: char, right: char) -> HorizontalLine<char>
    ensures { result ≡ drawn_line (left ∷ main ∷ intersection ∷ right ∷ []) }
{
    HorizontalLine::new(Some(main), Some(intersection), Some(left), Some(right))
}

/// Looks of whole tables. Each drawing shows two rows and two columns. A look without lines between rows takes
/// a line below a header from [`HorizontalLine`].
impl Borders<char> {
    /// ASCII glyphs at all fifteen places.
    ///
    /// ```text
    /// +---+---+
    /// |0-0|0-1|
    /// +---+---+
    /// |1-0|1-1|
    /// +---+---+
    /// ```
    pub fn ascii() -> Borders<char>
        ensures { result ≡ ascii }
    {
        let ruled = line('+', '-', '+', '+');
        Borders::of_lines(ruled, line('|', ' ', '|', '|'), ruled, ruled)
    }

    /// Single lines at all fifteen places.
    ///
    /// ```text
    /// ┌───┬───┐
    /// │0-0│0-1│
    /// ├───┼───┤
    /// │1-0│1-1│
    /// └───┴───┘
    /// ```
    pub fn modern() -> Borders<char>
        ensures { result ≡ modern }
    {
        Borders::of_lines(
            line('┌', '─', '┬', '┐'),
            line('│', ' ', '│', '│'),
            line('├', '─', '┼', '┤'),
            line('└', '─', '┴', '┘'),
        )
    }

    /// Single lines round the table and between columns, and none between rows. The line below its header is
    /// [`HorizontalLine::sharp`].
    ///
    /// ```text
    /// ┌───┬───┐
    /// │0-0│0-1│
    /// │1-0│1-1│
    /// └───┴───┘
    /// ```
    pub fn sharp() -> Borders<char>
        ensures { result ≡ sharp }
    {
        Borders {
            horizontal: None,
            left_intersection: None,
            right_intersection: None,
            intersection: None,
            ..Borders::modern()
        }
    }

    /// The look [`Borders::sharp`] with round corners. The line below its header is [`HorizontalLine::sharp`].
    ///
    /// ```text
    /// ╭───┬───╮
    /// │0-0│0-1│
    /// │1-0│1-1│
    /// ╰───┴───╯
    /// ```
    pub fn rounded() -> Borders<char>
        ensures { result ≡ rounded }
    {
        Borders::of_lines(
            line('╭', '─', '┬', '╮'),
            line('│', ' ', '│', '│'),
            NO_LINE,
            line('╰', '─', '┴', '╯'),
        )
    }

    /// Double lines at all fifteen places.
    ///
    /// ```text
    /// ╔═══╦═══╗
    /// ║0-0║0-1║
    /// ╠═══╬═══╣
    /// ║1-0║1-1║
    /// ╚═══╩═══╝
    /// ```
    pub fn extended() -> Borders<char>
        ensures { result ≡ extended }
    {
        Borders::of_lines(
            line('╔', '═', '╦', '╗'),
            line('║', ' ', '║', '║'),
            line('╠', '═', '╬', '╣'),
            line('╚', '═', '╩', '╝'),
        )
    }

    /// Dots at all fifteen places.
    ///
    /// ```text
    /// .........
    /// :0-0:0-1:
    /// :...:...:
    /// :1-0:1-1:
    /// :...:...:
    /// ```
    pub fn dots() -> Borders<char>
        ensures { result ≡ dots }
    {
        let ruled = line(':', '.', ':', ':');
        Borders::of_lines(
            line('.', '.', '.', '.'),
            line(':', ' ', ':', ':'),
            ruled,
            ruled,
        )
    }

    /// One space between columns, and no further line.
    ///
    /// ```text
    /// 0-0 0-1
    /// 1-0 1-1
    /// ```
    pub fn blank() -> Borders<char>
        ensures { result ≡ blank }
    {
        Borders {
            vertical: Some(' '),
            ..Borders::empty()
        }
    }

    /// Lines between columns alone. The line below its header is [`HorizontalLine::psql`].
    ///
    /// ```text
    /// 0-0|0-1
    /// 1-0|1-1
    /// ```
    pub fn psql() -> Borders<char>
        ensures { result ≡ psql }
    {
        Borders {
            vertical: Some('|'),
            ..Borders::empty()
        }
    }

    /// Lines between columns and at both sides. The line below its header is [`HorizontalLine::markdown`].
    ///
    /// ```text
    /// |0-0|0-1|
    /// |1-0|1-1|
    /// ```
    pub fn markdown() -> Borders<char>
        ensures { result ≡ markdown }
    {
        Borders::of_lines(NO_LINE, line('|', ' ', '|', '|'), NO_LINE, NO_LINE)
    }
}

/// Lines below a header, one for each look that has none between rows.
impl HorizontalLine<char> {
    /// The line below a header in the looks [`Borders::sharp`] and [`Borders::rounded`]: `├───┼───┤`.
    pub fn sharp() -> HorizontalLine<char>
        ensures { result ≡ sharp_line }
    {
        HorizontalLine::new(Some('─'), Some('┼'), Some('├'), Some('┤'))
    }

    /// The line below a header in the look [`Borders::psql`]: `---+---`.
    pub fn psql() -> HorizontalLine<char>
        ensures { result ≡ psql_line }
    {
        HorizontalLine::new(Some('-'), Some('+'), None, None)
    }

    /// The line below a header in the look [`Borders::markdown`]: `|---|---|`.
    pub fn markdown() -> HorizontalLine<char>
        ensures { result ≡ markdown_line }
    {
        HorizontalLine::new(Some('-'), Some('|'), Some('|'), Some('|'))
    }
}

/// A look of whole tables by its name.
#[derive(Clone, Copy)]
pub enum Look {
    Sharp,
    Rounded,
    Modern,
    Extended,
    Ascii,
    Dots,
    Psql,
    Markdown,
    Blank,
}

impl Look {
    /// All looks, in the order in which they are listed.
    pub const ALL: [Look; 9] = [
        Look::Sharp,
        Look::Rounded,
        Look::Modern,
        Look::Extended,
        Look::Ascii,
        Look::Dots,
        Look::Psql,
        Look::Markdown,
        Look::Blank,
    ];

    /// Its name.
    pub fn name(self) -> &'static str
        ensures { result.now ≡ name_of self }
    {
        match self {
            Look::Sharp => "sharp",
            Look::Rounded => "rounded",
            Look::Modern => "modern",
            Look::Extended => "extended",
            Look::Ascii => "ascii",
            Look::Dots => "dots",
            Look::Psql => "psql",
            Look::Markdown => "markdown",
            Look::Blank => "blank",
        }
    }

    // The first look of this name, in the order in which they are listed.
    fn first_named(name: &str) -> Option<Look>
        ensures first { result ≡ first_named name.now }
        ensures named { IfSome result (λ look. name_of look ≡ name.now) }
    {
        Look::ALL.iter().copied().find(|look| look.name() == name)
    }

    /// The look of this name, if there is one, as in `Look::by_name("rounded")`.
    #[tactic(auto, using(crate::specs::Looks::first_of_name))]
    pub fn by_name(name: &str) -> Option<Look>
        ensures named { IfSome result (λ look. name_of look ≡ name.now) }
        ensures every { (look : Look) → name_of look ≡ name.now → result ≡ Some look }
    {
        Look::first_named(name)
    }

    /// Its borders: those of [`Borders`] of this name.
    pub fn borders(self) -> Borders<char>
        ensures { result ≡ borders_of self }
    {
        match self {
            Look::Sharp => Borders::sharp(),
            Look::Rounded => Borders::rounded(),
            Look::Modern => Borders::modern(),
            Look::Extended => Borders::extended(),
            Look::Ascii => Borders::ascii(),
            Look::Dots => Borders::dots(),
            Look::Psql => Borders::psql(),
            Look::Markdown => Borders::markdown(),
            Look::Blank => Borders::blank(),
        }
    }

    /// The line below a header, if it has no lines between rows; `Blank` has none.
    pub fn header_line(self) -> Option<HorizontalLine<char>>
        ensures { result ≡ header_line_of self }
    {
        match self {
            Look::Sharp | Look::Rounded => Some(HorizontalLine::sharp()),
            Look::Psql => Some(HorizontalLine::psql()),
            Look::Markdown => Some(HorizontalLine::markdown()),
            Look::Modern | Look::Extended | Look::Ascii | Look::Dots | Look::Blank => None,
        }
    }
}
