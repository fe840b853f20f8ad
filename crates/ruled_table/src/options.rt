//! How rows are shown.

ghost use Rattle.std.specs.Prelude.{◌≡◌};
ghost use Rattle.ruled_table.specs.Layouts.{is_always};

use crate::bounds::Bounds;
use pg_layout::{AlignmentHorizontal, Look};

/// When rows below row 0 are shown as blocks: each a table of its own with a row for each field, of
/// its name in row 0 and its text, both left-aligned, and an empty line below it.
#[derive(Clone, Copy)]
pub enum Vertical {
    /// Never.
    Never,
    /// If columns would be left out of their table.
    IfOmitting,
    /// Always.
    Always,
}

impl Vertical {
    /// Whether rows are shown as blocks, however wide their table is.
    pub fn is_always(self) -> bool
        ensures { result ≡ is_always self }
    {
        matches!(self, Vertical::Always)
    }
}

/// How the texts of a column are aligned.
#[derive(Clone, Copy)]
pub enum Side {
    /// At this side.
    To(AlignmentHorizontal),
    /// As without a side, but with the points of numbers below one another if the column has numbers: each has
    /// spaces behind it if others have more characters behind their whole parts, as far as there is room.
    Point,
}

/// A column by which rows are sorted.
#[derive(Drop)]
pub struct Sort {
    /// A word for the column, as one of [`Options::columns`]. Of several columns that it means, the first one counts.
    pub column: String,
    /// Whether the greatest texts come first.
    pub is_descending: bool,
}

/// How rows are shown.
#[derive(Drop)]
pub struct Options {
    /// The look of the table.
    pub look: Look,
    /// Whether row 0 is a header, with a line below it.
    pub has_header: bool,
    /// Words for the shown columns, in this order: a name in row 0, or else a number, from 1 on, or a range, as `2-4`.
    /// A word with a `!` in front leaves columns out. If no word asks for columns, all others are shown.
    pub columns: Vec<String>,
    /// The alignment of each shown column; one alone is for all. A column without one, or with
    /// `None`, is right-aligned if each text below the header is a number, blank, `⋮` or one of `missing`, else
    /// left-aligned.
    pub sides: Vec<Option<Side>>,
    /// Texts that count as blank. Fields are compared with them as the input has them, however they are shown.
    pub missing: Vec<String>,
    /// Row 0, which is in front of all rows of the input, with an empty name for each further column of their first one.
    /// If no name is listed, row 0 is the first row of the input.
    pub names: Vec<String>,
    /// The column by which rows below a header are sorted, if they are: by numbers if each of its texts is a number,
    /// blank, `⋮` or one of `missing`, and those without a number come last; else by their bytes. Rows that tie stay
    /// in their order. Rows are sorted before they are numbered, and before some of them are chosen.
    pub sort: Option<Sort>,
    /// Whether each row has its number in a column in front, in which a header has `#`.
    pub is_numbered: bool,
    /// Whether row 0 gets an empty name for each further column of the longest row. Else the fields of a row
    /// beyond those of row 0 are left out. Missing fields are empty.
    pub is_padded: bool,
    /// The most rows that are shown, not counting a header.
    pub head: Option<u32>,
    /// The most rows below row 0 that are shown, the last ones of those that `head` allows.
    pub tail: Option<u32>,
    /// How many rows are shown at both ends of those below row 0, if there are more. A row of `⋮` is in
    /// place of the others.
    pub ends: Option<u32>,
    /// Whether a line below the table, with a line feed, says how many rows below a header `head` allows, and how many
    /// columns are asked for.
    pub is_counting: bool,
    /// When rows are shown as blocks.
    pub vertical: Vertical,
    /// The greatest widths of the table, or of each block, and of columns.
    pub bounds: Bounds,
    /// Whether columns in the middle of a table are left out if its width has no room for all, each
    /// with at most 12 columns of its texts. One column of `…` is in their place, and a line below
    /// the table says how many columns there are and how many are shown. If `sides` or the limits of
    /// `bounds` have several words, each for a column of its own, none is left out.
    pub is_omitting: bool,
    /// Whether names have colours, by escapes of terminals: those of a header, and of blocks, are bold.
    pub is_colored: bool,
    /// Whether, where names have colours, other texts have some, too: those of `missing` are dim, numbers below zero red,
    /// and those above it green. Numbers of rows have none, nor have the rows of a stream.
    pub is_tinted: bool,
    /// Whether control characters are sent as they are.
    pub is_raw: bool,
    /// Whether texts are escaped, so that Markdown reads each as one cell: a bar is `\|`, a backslash
    /// `\\`, and a line feed `<br>`.
    pub is_markdown: bool,
}
