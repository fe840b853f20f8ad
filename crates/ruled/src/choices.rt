//! The arguments that the command takes, with their help.

pub(crate) static QUOTES: [&str; 1] = ["none"];

pub(crate) static RAGGED: [&str; 2] = ["pad", "cut"];

pub(crate) static WHEN: [&str; 2] = ["always", "auto"];

pub(crate) static COLORED: [&str; 3] = ["auto", "always", "never"];

pub(crate) static SIDES: [&str; 6] = ["auto", "left", "right", "centre", "center", "point"];

/// What an argument takes.
pub(crate) enum Takes {
    /// No value: a flag.
    Nothing,
    /// Names of files, by their places.
    Files,
    /// A text.
    Text,
    /// A number.
    Number,
    /// A number of rows behind `=`, or none.
    Rows,
    /// The name of a format.
    Format,
    /// The name of an encoding.
    Encoding,
    /// The name of a look.
    Look,
    /// The name of a side.
    Side,
    /// What quotes mean.
    Quote,
    /// What happens to ragged rows.
    Ragged,
    /// When something is done, behind `=`, or nothing.
    When,
    /// When there is colour.
    Color,
}

/// An argument of the command.
pub(crate) struct Choice {
    pub(crate) name: &'static str,
    /// Its letter, if it has one.
    pub(crate) short: Option<char>,
    /// What the help calls its value.
    pub(crate) value: &'static str,
    pub(crate) takes: Takes,
    /// Whether commas part several values.
    pub(crate) is_list: bool,
    /// The options that it can't be used with.
    pub(crate) conflicts: &'static [&'static str],
    pub(crate) help: &'static str,
}

/// An option without a value, which goes with all others.
const FLAG: Choice = Choice {
    name: "",
    short: None,
    value: "",
    takes: Takes::Nothing,
    is_list: false,
    conflicts: &[],
    help: "",
};

/// All arguments, in the order of the help.
pub(crate) const CHOICES: [Choice; 39] = [
    Choice {
        name: "file",
        value: "FILE",
        takes: Takes::Files,
        help: "Files to print as one table, all with the same header, or to query; standard input if there is none, or for -",
        ..FLAG
    },
    Choice {
        name: "format",
        short: Some('f'),
        value: "FORMAT",
        takes: Takes::Format,
        help: "Read the input in this format; the default is that of the file's extension, or else of its first bytes",
        ..FLAG
    },
    Choice {
        name: "encoding",
        value: "NAME",
        takes: Takes::Encoding,
        help: "Read text in this encoding; the default is UTF-16 if a byte order mark shows it, else UTF-8",
        ..FLAG
    },
    Choice {
        name: "query",
        short: Some('q'),
        value: "SQL",
        takes: Takes::Text,
        help: "Print the result of this SQL query of a database, or of other files; each is a table of its name, the first also input",
        ..FLAG
    },
    Choice {
        name: "limit-steps",
        value: "N",
        takes: Takes::Number,
        help: "Stop a query that reads and returns more than N rows in all; the default is 100 million",
        ..FLAG
    },
    Choice {
        name: "table",
        value: "NAME",
        takes: Takes::Text,
        help: "Print all rows of this table of an SQLite database; the default is a list of the tables",
        ..FLAG
    },
    Choice {
        name: "at",
        value: "PATH",
        takes: Takes::Text,
        help: "Print the rows of this member of a JSON value; a.b is member b of member a",
        ..FLAG
    },
    Choice {
        name: "flatten",
        help: "Print the members of nested JSON objects in columns of their own, named a.b",
        ..FLAG
    },
    Choice {
        name: "delimiter",
        short: Some('d'),
        value: "C",
        takes: Takes::Text,
        help: "Separate fields by this character, by tabs (tab), or by runs of blanks as ps prints them (blanks); by default the first line decides",
        ..FLAG
    },
    Choice {
        name: "quote",
        value: "HOW",
        takes: Takes::Quote,
        help: "Read quotes as ordinary characters (none), so that every delimiter ends a field and every line end a row",
        ..FLAG
    },
    Choice {
        name: "skip",
        value: "N",
        takes: Takes::Number,
        help: "Skip the first N lines of the input",
        ..FLAG
    },
    Choice {
        name: "comment",
        value: "C",
        takes: Takes::Text,
        help: "Skip lines that begin with this character, except within a quoted field",
        ..FLAG
    },
    Choice {
        name: "names",
        value: "NAMES",
        takes: Takes::Text,
        conflicts: &["no-header", "stream"],
        help: "Add a header with these names above the first row",
        ..FLAG
    },
    Choice {
        name: "number",
        conflicts: &["stream"],
        help: "Number the rows in a first column",
        ..FLAG
    },
    Choice {
        name: "no-header",
        help: "Print row 0 as an ordinary row, not as a header",
        ..FLAG
    },
    Choice {
        name: "ragged",
        value: "HOW",
        takes: Takes::Ragged,
        help: "Accept rows with more or fewer fields than row 0: missing fields are empty, and extra fields get columns without a name (pad) or are dropped (cut)",
        ..FLAG
    },
    Choice {
        name: "columns",
        short: Some('c'),
        value: "NAMES",
        takes: Takes::Text,
        help: "Print only these columns, in this order, by name, by number (1-3), or by a part of the name (/pop/); a word with ! in front leaves its columns out",
        ..FLAG
    },
    Choice {
        name: "sort",
        value: "COLUMN",
        takes: Takes::Text,
        conflicts: &["no-header", "stream"],
        help: "Sort the rows below the header by this column, as numbers if all its texts are numbers; NAME:desc sorts in descending order",
        ..FLAG
    },
    Choice {
        name: "head",
        short: Some('n'),
        value: "N",
        takes: Takes::Number,
        help: "Print only the first N rows below the header",
        ..FLAG
    },
    Choice {
        name: "tail",
        value: "N",
        takes: Takes::Number,
        conflicts: &["no-header"],
        help: "Print only the last N rows below the header",
        ..FLAG
    },
    Choice {
        name: "ends",
        value: "N",
        takes: Takes::Number,
        conflicts: &["no-header", "vertical"],
        help: "Print only the first N and the last N rows below the header, with a row of ⋮ for any others",
        ..FLAG
    },
    Choice {
        name: "count",
        conflicts: &["stream", "markdown"],
        help: "Count rows and columns in a line below the table",
        ..FLAG
    },
    Choice {
        name: "no-count",
        conflicts: &["count"],
        help: "Don't count rows and columns in the look psql, which does so by default",
        ..FLAG
    },
    Choice {
        name: "look",
        short: Some('l'),
        value: "LOOK",
        takes: Takes::Look,
        help: "Draw the table in this look",
        ..FLAG
    },
    Choice {
        name: "align",
        short: Some('a'),
        value: "SIDES",
        takes: Takes::Side,
        is_list: true,
        help: "Align columns left, right, centre, auto (right if all texts below the header are numbers) or point (auto, with decimal points below one another); one word applies to all columns",
        ..FLAG
    },
    Choice {
        name: "missing",
        value: "TEXTS",
        takes: Takes::Text,
        help: "Treat these texts, such as NA,NULL, as blank in columns of numbers",
        ..FLAG
    },
    Choice {
        name: "color",
        value: "WHEN",
        takes: Takes::Color,
        help: "Print the header in bold; auto, the default, does so at a terminal, unless NO_COLOR is set or TERM is dumb",
        ..FLAG
    },
    Choice {
        name: "tint",
        conflicts: &["stream"],
        help: "Where there is colour, print negative numbers in red, positive ones in green, and the texts of --missing and --null dim",
        ..FLAG
    },
    Choice {
        name: "null",
        value: "TEXT",
        takes: Takes::Text,
        help: "Print this text for null in JSON and NULL in databases, and treat it as blank, as with --missing",
        ..FLAG
    },
    Choice {
        name: "markdown",
        help: "Print a Markdown table, with bars, backslashes and line feeds in fields escaped",
        ..FLAG
    },
    Choice {
        name: "raw",
        help: "Print control characters as they are, instead of making them visible",
        ..FLAG
    },
    Choice {
        name: "width",
        short: Some('w'),
        value: "N",
        takes: Takes::Number,
        conflicts: &["markdown"],
        help: "Limit lines to N terminal columns; 0 means no limit; the default is the variable COLUMNS",
        ..FLAG
    },
    Choice {
        name: "max-column-width",
        short: None,
        value: "N",
        takes: Takes::Number,
        is_list: true,
        conflicts: &["markdown"],
        help: "Limit the texts of each column to N terminal columns; 0 means no limit; one number applies to all columns",
    },
    Choice {
        name: "wrap",
        help: "Wrap texts that are too wide; this is the default",
        ..FLAG
    },
    Choice {
        name: "cut",
        conflicts: &["wrap"],
        help: "Cut texts that are too wide, and end them with …",
        ..FLAG
    },
    Choice {
        name: "omit",
        conflicts: &["markdown", "vertical"],
        help: "Leave out columns in the middle that don't fit; this is the default at a terminal",
        ..FLAG
    },
    Choice {
        name: "no-omit",
        conflicts: &["omit"],
        help: "Print all columns, even if the table is too wide",
        ..FLAG
    },
    Choice {
        name: "vertical",
        value: "WHEN",
        takes: Takes::When,
        conflicts: &["no-header", "markdown"],
        help: "Print each record as a block with a row for each field; auto does so only if columns would be left out",
        ..FLAG
    },
    Choice {
        name: "stream",
        value: "ROWS",
        takes: Takes::Rows,
        conflicts: &["head", "tail", "ends", "vertical", "markdown"],
        help: "Print each row as it arrives, at the widths of the header and the first ROWS rows below it; the default is 1000",
        ..FLAG
    },
];
