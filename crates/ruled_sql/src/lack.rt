//! What a query has and `sqlite`, or the database, lacks.

ghost use Rattle.std.specs.Prelude.{◌≡◌, ◌<◌, length, map, not, is_some, option_map, position, IfSome};
ghost use Rattle.std.specs.List.{list_any};
ghost use Rattle.std.specs.Str.{str_eq_ignore_ascii_case};
ghost use Rattle.sqlite_schema.specs.Names.{column_named};
ghost use Rattle.ruled_sql.specs.Lacks as spec;

use sqlite_resolve::CompileError;
use sqlite_schema::schema::{Schema, Table};

/// How a byte of a statement is read.
#[derive(Clone, Copy)]
enum Mode {
    Between,
    Word,
    /// In quotes that this byte closes.
    Quotes(u8),
    /// Behind a first `-`.
    Dash,
    /// In a comment that ends with its line.
    Line,
    /// Behind a first `/`.
    Slash,
    /// In a comment.
    Comment,
    /// Behind a `*` of a comment.
    Star,
}

/// A word, and what it is, or what does the same.
pub(crate) type Lack = (&'static str, &'static str);

/// Words that `sqlite` doesn't know.
const WORDS: [Lack; 15] = [
    ("over", "window functions"),
    ("analyze", "a query only reads"),
    ("attach", "a query reads one database"),
    ("blob", "casts to BLOB"),
    ("current_date", "dates"),
    ("current_time", "dates"),
    ("current_timestamp", "dates"),
    ("detach", "a query reads one database"),
    ("explain", "plans"),
    ("indexed", "hints of indexes"),
    ("materialized", "try with .. as (..)"),
    ("numeric", "casts to NUMERIC; try real"),
    ("pragma", "ruled lists columns without --query"),
    ("reindex", "a query only reads"),
    ("vacuum", "a query only reads"),
];

/// Words whose calls `sqlite` doesn't know.
const CALLS: [Lack; 113] = [
    ("filter", "try case when"),
    ("values", "try select .. union all select"),
    ("date", "dates"),
    ("time", "dates"),
    ("datetime", "dates"),
    ("julianday", "dates"),
    ("strftime", "dates; try substr(day, 1, 7)"),
    ("timediff", "dates"),
    ("unixepoch", "dates"),
    ("format", "formats"),
    ("printf", "formats"),
    ("json", "JSON"),
    ("json_array", "JSON"),
    ("json_array_length", "JSON"),
    ("json_each", "JSON"),
    ("json_error_position", "JSON"),
    ("json_extract", "JSON"),
    ("json_group_array", "JSON"),
    ("json_group_object", "JSON"),
    ("json_insert", "JSON"),
    ("json_object", "JSON"),
    ("json_patch", "JSON"),
    ("json_pretty", "JSON"),
    ("json_quote", "JSON"),
    ("json_remove", "JSON"),
    ("json_replace", "JSON"),
    ("json_set", "JSON"),
    ("json_tree", "JSON"),
    ("json_type", "JSON"),
    ("json_valid", "JSON"),
    ("jsonb", "JSON"),
    ("jsonb_array", "JSON"),
    ("jsonb_each", "JSON"),
    ("jsonb_extract", "JSON"),
    ("jsonb_group_array", "JSON"),
    ("jsonb_group_object", "JSON"),
    ("jsonb_insert", "JSON"),
    ("jsonb_object", "JSON"),
    ("jsonb_patch", "JSON"),
    ("jsonb_remove", "JSON"),
    ("jsonb_replace", "JSON"),
    ("jsonb_set", "JSON"),
    ("jsonb_tree", "JSON"),
    ("concat", "try ||"),
    ("concat_ws", "try ||"),
    ("string_agg", "try group_concat"),
    ("like", "try the operator"),
    ("mod", "try %"),
    ("sign", "try case when"),
    ("trunc", "try cast(x as integer)"),
    ("pragma_table_info", "ruled lists columns without --query"),
    ("generate_series", "try with recursive"),
    ("changes", "a function"),
    ("char", "a function"),
    ("glob", "try the operator like"),
    ("last_insert_rowid", "a function"),
    ("likelihood", "a function"),
    ("likely", "a function"),
    ("load_extension", "a function"),
    ("octet_length", "a function"),
    ("quote", "a function"),
    ("random", "a function"),
    ("randomblob", "a function"),
    ("soundex", "a function"),
    ("sqlite_source_id", "a function"),
    ("sqlite_version", "a function"),
    ("total_changes", "a function"),
    ("unhex", "a function"),
    ("unicode", "a function"),
    ("unistr", "a function"),
    ("unistr_quote", "a function"),
    ("unlikely", "a function"),
    ("zeroblob", "a function"),
    ("acos", "a function of numbers"),
    ("acosh", "a function of numbers"),
    ("asin", "a function of numbers"),
    ("asinh", "a function of numbers"),
    ("atan", "a function of numbers"),
    ("atan2", "a function of numbers"),
    ("atanh", "a function of numbers"),
    ("ceil", "a function of numbers"),
    ("ceiling", "a function of numbers"),
    ("cos", "a function of numbers"),
    ("cosh", "a function of numbers"),
    ("degrees", "a function of numbers"),
    ("exp", "a function of numbers"),
    ("floor", "a function of numbers"),
    ("ln", "a function of numbers"),
    ("log", "a function of numbers"),
    ("log10", "a function of numbers"),
    ("log2", "a function of numbers"),
    ("pi", "a function of numbers"),
    ("pow", "a function of numbers"),
    ("power", "a function of numbers"),
    ("radians", "a function of numbers"),
    ("sin", "a function of numbers"),
    ("sinh", "a function of numbers"),
    ("sqrt", "a function of numbers"),
    ("tan", "a function of numbers"),
    ("tanh", "a function of numbers"),
    ("median", "a function of numbers"),
    ("percentile", "a function of numbers"),
    ("cume_dist", "window functions"),
    ("dense_rank", "window functions"),
    ("first_value", "window functions"),
    ("lag", "window functions"),
    ("last_value", "window functions"),
    ("lead", "window functions"),
    ("nth_value", "window functions"),
    ("ntile", "window functions"),
    ("percent_rank", "window functions"),
    ("rank", "window functions"),
    ("row_number", "window functions"),
];

/// Words whose calls `sqlite` knows with one argument only.
const LONG_CALLS: [Lack; 6] = [
    ("count", "of several columns"),
    ("group_concat", "with a separator"),
    ("round", "with digits; try round(100 * x) / 100"),
    ("ltrim", "with characters to remove"),
    ("rtrim", "with characters to remove"),
    ("trim", "with characters to remove"),
];

/// The operators `->` and `->>`.
const ARROW: Lack = ("->", "JSON");

/// Values of a row, as in `(x, y) in ..`.
const ROW: Lack = ("(x, y)", "row values; try x = .. and y = ..");

/// What a word at a place of a query means, if it has no other meaning.
#[derive(Clone, Copy)]
pub enum Meaning {
    /// A table.
    Table,
    /// A column.
    Column,
    /// A function.
    Function,
    /// Something else, as a name that the query gives.
    Other,
}

/// Functions that `sqlite` has.
const FUNCTIONS: [&str; 26] = [
    "abs",
    "avg",
    "coalesce",
    "count",
    "group_concat",
    "hex",
    "if",
    "ifnull",
    "iif",
    "instr",
    "length",
    "lower",
    "ltrim",
    "max",
    "min",
    "nullif",
    "replace",
    "round",
    "rtrim",
    "substr",
    "substring",
    "sum",
    "total",
    "trim",
    "typeof",
    "upper",
];

/// Words that are before a value.
const LEADS: [&str; 21] = [
    "all",
    "and",
    "between",
    "by",
    "case",
    "distinct",
    "else",
    "having",
    "is",
    "like",
    "limit",
    "not",
    "offset",
    "on",
    "or",
    "returning",
    "select",
    "set",
    "then",
    "when",
    "where",
];

/// Other words that are no names of tables, columns and functions.
const OTHERS: [&str; 20] = [
    "_rowid_",
    "cast",
    "check",
    "conflict",
    "default",
    "exists",
    "false",
    "from",
    "glob",
    "in",
    "match",
    "null",
    "oid",
    "regexp",
    "rowid",
    "sqlite_master",
    "sqlite_schema",
    "true",
    "unique",
    "values",
];

// Whether a byte is one of a word.
fn is_word(byte: u8) -> bool
    ensures { result ≡ spec.is_word byte }
{
    byte.is_ascii_alphanumeric() || byte == b'_' || byte >= 128
}

// How a byte is read that is in no quotes and no comment.
fn begun(byte: u8) -> Mode
    ensures { result ≡ spec.begun byte }
{
    if is_word(byte) {
        return Mode::Word;
    }
    match byte {
        b'"' | b'\'' | b'`' => Mode::Quotes(byte),
        b'[' => Mode::Quotes(b']'),
        b'-' => Mode::Dash,
        b'/' => Mode::Slash,
        _ => Mode::Between,
    }
}

impl Mode {
    // How the next byte is read.
    fn after(self, byte: u8) -> Mode
        ensures { result ≡ spec.after self byte }
    {
        match self {
            Mode::Quotes(close) if byte == close => Mode::Between,
            Mode::Quotes(_) => self,
            Mode::Dash if byte == b'-' => Mode::Line,
            Mode::Line if byte == b'\n' => Mode::Between,
            Mode::Slash if byte == b'*' => Mode::Comment,
            Mode::Comment | Mode::Star if byte == b'*' => Mode::Star,
            Mode::Star if byte == b'/' => Mode::Between,
            Mode::Line | Mode::Comment => self,
            Mode::Star => Mode::Comment,
            Mode::Between | Mode::Word | Mode::Dash | Mode::Slash => begun(byte),
        }
    }

    // Whether the next byte is in no quotes and no comment.
    fn is_outside(self) -> bool
        ensures { result ≡ spec.is_outside self }
    {
        matches!(self, Mode::Between | Mode::Word | Mode::Dash | Mode::Slash)
    }

    // Whether the next byte is in a comment.
    fn is_comment(self) -> bool
        ensures { result ≡ spec.is_comment self }
    {
        matches!(self, Mode::Line | Mode::Comment | Mode::Star)
    }

    // Whether a word may begin.
    fn may_begin(self) -> bool
        ensures { result ≡ spec.may_begin self }
    {
        matches!(self, Mode::Between | Mode::Dash | Mode::Slash)
    }
}

// The place of the first byte that is none of a word.
fn word_end(text: &[u8]) -> Option<usize>
    ensures place { result ≡ position (λ byte. not (spec.is_word byte)) text.now }
    ensures within { IfSome result (λ end. end < length text.now) }
{
    text.iter().position(|byte| !is_word(*byte))
}

// The word that a text begins with.
fn word_of(text: &[u8]) -> &[u8]
    ensures { result.now ≡ spec.word_of text.now }
{
    match word_end(text) {
        Some(end) => &text[..end],
        None => text,
    }
}

// A text without the blanks at its front.
fn without_blanks(text: &[u8]) -> &[u8]
    ensures { result.now ≡ spec.without_blanks text.now }
{
    text.trim_ascii_start()
}

// The text behind the word that a text begins with, and behind blanks.
fn behind_word(text: &[u8]) -> &[u8]
    ensures { result.now ≡ spec.behind_word text.now }
{
    let Some(end) = word_end(text) else {
        return &[];
    };
    without_blanks(&text[end..])
}

// Whether arguments follow.
fn is_call(behind: &[u8]) -> bool
    ensures { result ≡ spec.is_call behind.now }
{
    !behind.is_empty() && behind[0] == b'('
}

// Whether two words are equal, in any case.
fn is_same(known: &str, word: &[u8]) -> bool
    ensures { result ≡ str_eq_ignore_ascii_case known.now word.now }
{
    known.as_bytes().eq_ignore_ascii_case(word)
}

// What these words say of one, in any case.
fn lack_named(mut lacks: &[Lack], word: &[u8]) -> Option<Lack>
    ensures { option_map (λ it. (it.0.now, it.1.now)) result ≡ spec.lack_named (map (λ it. (it.0.now, it.1.now)) lacks.entry.now) word.now }
{
    while let [lack, others @ ..] = lacks {
        if is_same(lack.0, word) {
            return Some(*lack);
        }
        lacks = others;
    }
    None
}

// How many parentheses are open behind a byte.
fn depth_after(depth: usize, byte: u8) -> usize
    ensures { result ≡ spec.depth_after depth byte }
{
    match byte {
        b'(' => depth.saturating_add(1),
        b')' => depth.saturating_sub(1),
        _ => depth,
    }
}

// Whether a comma is in the parentheses that a text begins with, outside inner ones.
fn has_comma(mut text: &[u8]) -> bool
    ensures { result ≡ spec.has_comma text.entry.now }
{
    let (mut mode, mut depth) = (Mode::Between, 0_usize);
    while let [byte, rest @ ..] = text {
        if mode.is_outside() {
            match byte {
                b',' if depth == 1 => return true,
                b')' if depth <= 1 => return false,
                _ => depth = depth_after(depth, *byte),
            }
        }
        mode = mode.after(*byte);
        text = rest;
    }
    false
}

// Whether these parentheses have a query.
fn is_query(behind: &[u8]) -> bool
    ensures { result ≡ spec.is_query behind.now }
{
    is_same(
        "select",
        word_of(without_blanks(behind.get(1..).unwrap_or(&[]))),
    )
}

#[tactic(auto, unfolding(crate::specs::Lacks::lack_called))]
// What `sqlite` lacks of a call of this word, or of the values of a row behind it.
fn lack_called(word: &[u8], behind: &[u8]) -> Option<Lack>
    ensures { option_map (λ it. (it.0.now, it.1.now)) result ≡ spec.lack_called word.now behind.now }
{
    let lack = lack_named(&CALLS, word);
    if lack.is_some() || !has_comma(behind) {
        return lack;
    }
    let lack = lack_named(&LONG_CALLS, word);
    if lack.is_some() {
        return lack;
    }
    if is_among(&LEADS, word) && !is_query(behind) {
        return Some(ROW);
    }
    None
}

#[tactic(auto, unfolding(crate::specs::Lacks::is_arrow))]
// Whether this byte, which is read so, is behind the first one of `->`.
fn is_arrow(mode: Mode, byte: u8) -> bool
    ensures { result ≡ spec.is_arrow mode byte }
{
    match mode {
        Mode::Dash => byte == b'>',
        _ => false,
    }
}

#[tactic(auto, unfolding(crate::specs::Lacks::lack_at))]
// What `sqlite` lacks of the operator that a byte ends, which is read so, of the word that a text begins with, or of its call.
fn lack_at(mode: Mode, byte: u8, text: &[u8]) -> Option<Lack>
    ensures { option_map (λ it. (it.0.now, it.1.now)) result ≡ spec.lack_at mode byte text.now }
{
    if is_arrow(mode, byte) {
        return Some(ARROW);
    }
    let word = word_of(text);
    let lack = lack_named(&WORDS, word);
    if lack.is_some() {
        return lack;
    }
    let behind = behind_word(text);
    if is_call(behind) {
        return lack_called(word, behind);
    }
    None
}

#[tactic(auto, unfolding(crate::specs::Lacks::lack_in))]
/// What `sqlite` lacks of the first such operator or word of a statement.
pub(crate) fn lack_in(mut text: &[u8]) -> Option<Lack>
    ensures { option_map (λ it. (it.0.now, it.1.now)) result ≡ spec.lack_in text.entry.now }
{
    let mut mode = Mode::Between;
    while let [byte, rest @ ..] = text {
        if mode.may_begin() {
            if let Some(lack) = lack_at(mode, *byte, text) {
                return Some(lack);
            }
        }
        mode = mode.after(*byte);
        text = rest;
    }
    None
}

// Whether a word is one of these, in any case.
fn is_among(mut words: &[&str], word: &[u8]) -> bool
    ensures { result ≡ spec.is_among (map (λ it. it.now) words.entry.now) word.now }
{
    while let [first, others @ ..] = words {
        if is_same(*first, word) {
            return true;
        }
        words = others;
    }
    false
}

// Whether a column has this name.
fn has_column(tables: &[Table], name: &[u8]) -> bool
    ensures { result ≡ list_any (λ table. is_some (column_named table name.now)) tables.now }
{
    tables
        .iter()
        .any(|table| table.column_named(name).is_some())
}

// Whether a table or a column has this name, or may have it: the columns of views aren't known.
fn is_known(schema: &Schema, name: &[u8]) -> bool
    ensures { result ≡ spec.is_known schema.now name.now }
{
    if schema.views.len() > 0 {
        return true;
    }
    if schema.table_named(name).is_some() {
        return true;
    }
    has_column(schema.tables.as_slice(), name)
}

// What a word means behind this one.
fn meaning_behind(schema: &Schema, word: &[u8]) -> Meaning
    ensures { result ≡ spec.meaning_behind schema.now word.now }
{
    if is_among(&["from", "join"], word) {
        return Meaning::Table;
    }
    if is_among(&LEADS, word) && !is_known(schema, word) {
        return Meaning::Column;
    }
    Meaning::Other
}

// Whether a byte opens quotes.
fn is_quotation(byte: u8) -> bool
    ensures { result ≡ spec.is_quotation byte }
{
    matches!(byte, b'"' | b'\'' | b'`' | b'[')
}

// What a word means behind a byte of no word and no blank: after a value, or the mark of a parameter, no column.
fn meaning_beyond(byte: u8) -> Meaning
    ensures { result ≡ spec.meaning_beyond byte }
{
    match byte {
        b')' | b'"' | b'\'' | b'`' | b'[' | b'$' | b':' | b'?' | b'@' => Meaning::Other,
        _ => Meaning::Column,
    }
}

impl Meaning {
    #[tactic(auto, unfolding(crate::specs::Lacks::meaning_after))]
    // What a word means behind the first byte of a text, which is read so.
    fn after(self, schema: &Schema, mode: Mode, byte: u8, text: &[u8]) -> Meaning
        ensures { result ≡ spec.meaning_after schema.now self mode byte text.now }
    {
        if !mode.is_outside() || byte.is_ascii_whitespace() {
            return self;
        }
        if !is_word(byte) {
            return meaning_beyond(byte);
        }
        if !mode.may_begin() {
            return self;
        }
        meaning_behind(schema, word_of(text))
    }

    // Whether a word of this meaning may give this name.
    fn may_give(self, word: &[u8], name: &[u8]) -> bool
        ensures { result ≡ spec.may_give self word.now name.now }
    {
        let is_given = matches!(self, Meaning::Other) && word.eq_ignore_ascii_case(name);
        is_given || word.eq_ignore_ascii_case(b"with")
    }

    // Whether a byte that is read so may be the first of a name that isn't searched: one in a comment, or in quotes behind a
    // value.
    fn hides_name(self, mode: Mode, byte: u8) -> bool
        ensures { result ≡ spec.hides_name self mode byte }
    {
        if mode.is_comment() {
            return true;
        }
        matches!(self, Meaning::Other) && mode.is_outside() && is_quotation(byte)
    }

    #[tactic(auto, unfolding(crate::specs::Lacks::gives_at))]
    // Whether a text that is read so may begin with what gives this name.
    fn gives_at(self, mode: Mode, byte: u8, text: &[u8], name: &[u8]) -> bool
        ensures { result ≡ spec.gives_at self mode byte text.now name.now }
    {
        if self.hides_name(mode, byte) {
            return true;
        }
        if !mode.may_begin() {
            return false;
        }
        self.may_give(word_of(text), name)
    }

    #[tactic(auto, unfolding(crate::specs::Lacks::may_name))]
    // Whether a text that is read so may begin with a word of this meaning that names what is wanted.
    fn may_name(self, wanted: Meaning, mode: Mode, byte: u8, text: &[u8]) -> bool
        ensures { result ≡ spec.may_name self wanted mode byte text.now }
    {
        let is_wanted = matches!(
            (self, wanted),
            (Meaning::Table, Meaning::Table)
                | (Meaning::Column, Meaning::Column | Meaning::Function)
        );
        mode.may_begin() && is_wanted && begins_name(wanted, byte, text)
    }
}

#[tactic(auto, unfolding(crate::specs::Lacks::gives))]
// Whether a query gives this name, or may give it.
fn gives(schema: &Schema, mut text: &[u8], name: &[u8]) -> bool
    ensures { result ≡ spec.gives schema.now text.entry.now name.now }
{
    let (mut mode, mut meaning) = (Mode::Between, Meaning::Other);
    while let [byte, rest @ ..] = text {
        if meaning.gives_at(mode, *byte, text, name) {
            return true;
        }
        meaning = meaning.after(schema, mode, *byte, text);
        mode = mode.after(*byte);
        text = rest;
    }
    false
}

// Whether the byte after a word shows that the word names no table or column: it is called, before a point, or begins bytes.
fn says_otherwise(next: u8) -> bool
    ensures { result ≡ spec.says_otherwise next }
{
    matches!(next, b'(' | b'.' | b'\'' | b'$')
}

#[tactic(auto, unfolding(crate::specs::Lacks::may_follow))]
// Whether this text may be behind a name of what is wanted: a function is called.
fn may_follow(wanted: Meaning, behind: &[u8]) -> bool
    ensures { result ≡ spec.may_follow wanted behind.now }
{
    match wanted {
        Meaning::Function => is_call(behind),
        _ => !says_otherwise(behind.get(0).copied().unwrap_or(0)),
    }
}

// Whether a text begins with what may be a name of what is wanted.
fn begins_name(wanted: Meaning, byte: u8, text: &[u8]) -> bool
    ensures { result ≡ spec.begins_name wanted byte text.now }
{
    if !is_word(byte) || byte.is_ascii_digit() {
        return false;
    }
    let word = word_of(text);
    if is_among(&LEADS, word) {
        return false;
    }
    if is_among(&OTHERS, word) {
        return false;
    }
    may_follow(wanted, behind_word(text))
}

// Whether there is something of this name that is wanted, or the query may give it.
fn is_taken(schema: &Schema, table: &[u8], query: &[u8], wanted: Meaning, name: &[u8]) -> bool
    ensures { result ≡ spec.is_taken schema.now table.now query.now wanted name.now }
{
    match wanted {
        Meaning::Function => is_among(&FUNCTIONS, name) || gives(schema, query, b"with"),
        _ => {
            is_known(schema, name) || name.eq_ignore_ascii_case(table) || gives(schema, query, name)
        }
    }
}

#[tactic(auto, unfolding(crate::specs::Lacks::stray_at))]
// How many bytes a text of a query has that begins with a name of what is wanted, unless it is taken.
fn stray_at(
    schema: &Schema,
    table: &[u8],
    query: &[u8],
    wanted: Meaning,
    text: &[u8],
) -> Option<usize>
    ensures { result ≡ spec.stray_at schema.now table.now query.now wanted text.now }
{
    if is_taken(schema, table, query, wanted, word_of(text)) {
        return None;
    }
    Some(text.len())
}

#[tactic(auto, unfolding(crate::specs::Lacks::stray_in))]
/// How many bytes of a query are left from the first name of what is wanted on that isn't taken.
pub(crate) fn stray_in(
    schema: &Schema,
    table: &[u8],
    query: &[u8],
    wanted: Meaning,
) -> Option<usize>
    ensures { result ≡ spec.stray_in schema.now table.now query.now wanted }
{
    let (mut mode, mut meaning) = (Mode::Between, Meaning::Other);
    let mut text = query;
    while let [byte, rest @ ..] = text {
        if meaning.may_name(wanted, mode, *byte, text) {
            if let Some(left) = stray_at(schema, table, query, wanted, text) {
                return Some(left);
            }
        }
        meaning = meaning.after(schema, mode, *byte, text);
        mode = mode.after(*byte);
        text = rest;
    }
    None
}

/// What is missing by an error of `sqlite`.
pub(crate) fn missing_by(error: CompileError) -> Meaning
    ensures { result ≡ spec.missing_by error }
{
    match error {
        CompileError::NoSuchTable => Meaning::Table,
        CompileError::NoSuchColumn => Meaning::Column,
        CompileError::NoSuchFunction => Meaning::Function,
        _ => Meaning::Other,
    }
}
