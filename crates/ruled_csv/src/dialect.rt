//! How rows are written.

ghost use Rattle.std.specs.Prelude.{◌≡◌, ◌∷◌, [], ◌||◌, nat_le};
ghost use Rattle.ruled_csv.specs.Quotes.{is_comment, are_words, has_quotes, is_quote, separator};

/// How rows are written.
#[derive(Clone, Copy)]
pub struct Dialect {
    /// The byte between two fields that aren't words.
    pub delimiter: u8,
    /// Which lines hold rows, how long these may be, and how their fields are written.
    pub rows: RowRules,
}

impl Dialect {
    /// The byte between the fields that a scan finds; those of a line of words are cut anew.
    pub(crate) fn separator(self) -> u8
        ensures { result ≡ separator self }
    {
        if self.rows.fields.are_words() {
            b'\t'
        } else {
            self.delimiter
        }
    }
}

/// How the fields of a row are written, with the delimiter between two of them.
#[derive(Clone, Copy)]
pub enum Fields {
    /// In quotes, or without.
    Quoted,
    /// Without: a quote is a byte like any other.
    Plain,
    /// As words of a line, whatever the delimiter, with spaces, tabs and form feeds between them. A
    /// quote is a byte like any other, and a line without a word is no row. Row 0 has all its words;
    /// each row below it has at most as many, and the last of these is the rest of its line.
    Words,
}

impl Fields {
    /// Whether fields are words.
    pub(crate) fn are_words(self) -> bool
        ensures { result ≡ are_words self }
    {
        matches!(self, Fields::Words)
    }

    // Whether a field may be in quotes.
    fn has_quotes(self) -> bool
        ensures { result ≡ has_quotes self }
    {
        match self {
            Fields::Quoted => true,
            Fields::Plain | Fields::Words => false,
        }
    }
}

/// Which lines of separated values hold rows, how long these may be, and how their fields are written.
#[derive(Clone, Copy)]
pub struct RowRules {
    /// Whether a row may have more or fewer fields than row 0.
    pub is_ragged: bool,
    /// How fields are written.
    pub fields: Fields,
    /// How many lines at the front are left out: they are read as empty ones.
    pub skipped: usize,
    /// A line that begins with this byte is left out, unless it begins within a row.
    pub comment: Option<u8>,
}

impl RowRules {
    /// Each line that isn't empty is in a row, rows have one length, and fields may be in quotes.
    pub const PLAIN: RowRules = RowRules {
        is_ragged: false,
        fields: Fields::Quoted,
        skipped: 0,
        comment: None,
    };

    /// Whether this byte may open or close a quote.
    pub fn is_quote(self, byte: u8) -> bool
        ensures { result ≡ is_quote self.fields byte }
    {
        self.fields.has_quotes() && byte == b'"'
    }

    /// Whether this line is left out, if it begins with this byte, but not within a row.
    pub(crate) fn leave_out(self, line: usize, byte: u8) -> bool
        ensures { result ≡ (nat_le line self.skipped || is_comment self.comment (byte ∷ [])) }
    {
        match self.comment {
            Some(sign) if byte == sign => true,
            _ => line <= self.skipped,
        }
    }
}
