//! Cases of a file, and what their lines say.

use pg_layout::{AlignmentHorizontal, Look};
use ruled_io::{
    Decoded, Encoding, Fields, Format, FurtherInput, Kind, Known, Log, MemberRules, Output, Pieces,
    Query, QueryTable, Request, RowRules, Rows, Selection, Source, run,
};
use ruled_table::{Bounds, Breaking, Options, Overflow, Side, Sort, Vertical};
use std::alloc::{AllocError, Global};
use std::{io, mem};

// The source that a word names: that of a format, or the one that the input shows.
fn source_of(alloc: Global, word: &str) -> Option<Source> {
    match word {
        "seen" => {
            return Some(Source::Seen {
                log: Log::Empty,
                rules: RowRules::PLAIN,
                members: MemberRules::new(alloc),
            });
        }
        "values" => {
            return Some(Source::Values {
                rules: RowRules::PLAIN,
            });
        }
        _ => {}
    }
    match Kind::by_name(word)? {
        Kind::Rows(format) => Some(Source::Rows(format)),
        Kind::Database => Some(Source::Database {
            selection: Selection::Tables,
            log: Log::Empty,
        }),
    }
}

// What is known of a log, as a word says it.
fn log_of(word: &str) -> Option<Log> {
    match word {
        "empty" => Some(Log::Empty),
        "filled" => Some(Log::Filled),
        "unknown" => Some(Log::Unknown),
        _ => None,
    }
}

// The byte between two fields that a word names.
fn delimiter_of(word: &str) -> u8 {
    match word {
        "tab" => b'\t',
        _ => word.as_bytes().first().copied().unwrap_or(b','),
    }
}

// The side that a word names.
fn side_of(word: &str) -> Option<Option<Side>> {
    match word {
        "auto" => Some(None),
        "left" => Some(Some(Side::To(AlignmentHorizontal::Left))),
        "right" => Some(Some(Side::To(AlignmentHorizontal::Right))),
        "centre" => Some(Some(Side::To(AlignmentHorizontal::Center))),
        "point" => Some(Some(Side::Point)),
        _ => None,
    }
}

// A query without names, of a database, or of rows of whose format this is known. These are the table `shop`.
fn query_of(alloc: Global, text: String, known: Option<Known>) -> Result<Query, AllocError> {
    Ok(Query {
        text,
        known,
        members: MemberRules::new(alloc),
        table: "shop".to_string(alloc)?,
        tables: Vec::new(alloc),
        names: Vec::new(alloc),
        is_padded: false,
        steps: 1_000_000,
        null: String::new(alloc),
    })
}

// The query of a source, if there is one.
fn query_in(source: &mut Source) -> Option<&mut Query> {
    match source {
        Source::Database {
            selection: Selection::Query(query),
            ..
        } => Some(query),
        _ => None,
    }
}

// Has a query of the rows of a request below its names, which the answer doesn't get.
fn select(alloc: Global, request: &mut Request, value: &str) -> Result<(), AllocError> {
    let text = format!(in alloc; "select {value}")?;
    let mut query = query_of(alloc, text, request.source.known_rows())?;
    query.names = mem::replace(&mut request.view.names, Vec::new(alloc));
    query.is_padded = mem::replace(&mut request.view.is_padded, false);
    if let Source::Members { members, .. } = &mut request.source {
        query.members = mem::replace(members, MemberRules::new(alloc));
    }
    request.source = Source::Database {
        selection: Selection::Query(query),
        log: request.source.log(),
    };
    Ok(())
}

// The source that an option sets, if it sets one.
fn source_set(
    alloc: Global,
    log: Log,
    name: &str,
    value: &str,
) -> Result<Option<Source>, AllocError> {
    let selection = match name {
        "format" => return Ok(source_of(alloc, value)),
        "delimiter" => {
            let format = Format::separated(delimiter_of(value), RowRules::PLAIN);
            return Ok(Some(Source::Rows(format)));
        }
        "query" => Selection::Query(query_of(alloc, value.to_string(alloc)?, None)?),
        "table" => Selection::Table {
            name: meant(alloc, value)?,
            null: String::new(alloc),
        },
        _ => return Ok(None),
    };
    Ok(Some(Source::Database { selection, log }))
}

// Adds to a list of how rows are shown, and returns whether an option of this name with this value does so.
fn add(alloc: Global, view: &mut Options, name: &str, value: &str) -> Result<bool, AllocError> {
    match name {
        "limit" => view.bounds.limits.push(value.parse().ok())?,
        "column" => view.columns.push(meant(alloc, value)?)?,
        "name" => view.names.push(meant(alloc, value)?)?,
        "missing" => view.missing.push(meant(alloc, value)?)?,
        "sort" | "sort-desc" => {
            view.sort = Some(Sort {
                column: meant(alloc, value)?,
                is_descending: name == "sort-desc",
            });
        }
        "align" => {
            let Some(side) = side_of(value) else {
                return Ok(false);
            };
            view.sides.push(side)?;
        }
        _ => return Ok(false),
    }
    Ok(true)
}

// How fields are written, as a word says it.
fn fields_of(word: &str) -> Option<Fields> {
    match word {
        "plain" => Some(Fields::Plain),
        "words" => Some(Fields::Words),
        _ => None,
    }
}

// Sets which lines are rows, or how their fields are written, where an option of this name with this value does so.
fn set_rule(rules: &mut RowRules, name: &str, value: &str) -> Option<()> {
    match name {
        "ragged" => rules.is_ragged = true,
        "fields" => rules.fields = fields_of(value)?,
        "skip" => rules.skipped = value.parse().ok()?,
        "comment" => rules.comment = value.as_bytes().first().copied(),
        _ => return None,
    }
    Some(())
}

// When rows are shown as blocks: always, or if columns would be left out of their table.
fn vertical_of(value: &str) -> Option<Vertical> {
    match value {
        "" => Some(Vertical::Always),
        "auto" => Some(Vertical::IfOmitting),
        _ => None,
    }
}

// Sets one value, where there is an option of this name with this value.
fn set_value(request: &mut Request, name: &str, value: &str) -> Option<()> {
    let view = &mut request.view;
    match name {
        "stream" => request.rows = Rows::FromFirst(value.parse().ok()?),
        "log" => request.source.set_log(log_of(value)?),
        "steps" => match &mut request.source {
            Source::Database {
                selection: Selection::Query(query),
                ..
            } => query.steps = value.parse().ok()?,
            _ => return None,
        },
        "no-header" => view.has_header = false,
        "number" => view.is_numbered = true,
        "omit" => view.is_omitting = true,
        "count" => view.is_counting = true,
        "color" => view.is_colored = true,
        "tint" => view.is_tinted = true,
        "raw" => view.is_raw = true,
        "vertical" => view.vertical = vertical_of(value)?,
        "markdown" => {
            view.look = Look::Markdown;
            view.is_markdown = true;
        }
        "look" => view.look = Look::by_name(value)?,
        "head" => view.head = value.parse().ok(),
        "tail" => view.tail = value.parse().ok(),
        "ends" => view.ends = value.parse().ok(),
        "width" => view.bounds.width = value.parse().ok(),
        "cut" => view.bounds.overflow = Overflow::Cut("…"),
        _ => return None,
    }
    Some(())
}

// Adds a name to the path of the member of JSON that has the rows.
fn push_name(alloc: Global, source: &mut Source, name: String) -> Result<(), AllocError> {
    match source {
        Source::Members { members, .. } => Ok(members.path.push(name)?),
        _ => {
            *source = Source::Members {
                format: Format::Json,
                members: MemberRules {
                    path: vec![in alloc; name]?,
                    null: String::new(alloc),
                    is_flat: false,
                },
            };
            Ok(())
        }
    }
}

// Makes the records of JSON flat.
fn set_flat(alloc: Global, source: &mut Source) {
    if let Source::Rows(format) = source {
        *source = Source::Members {
            format: *format,
            members: MemberRules::new(alloc),
        };
    }
    if let Source::Members { members, .. } | Source::Seen { members, .. } = source {
        members.is_flat = true;
    }
}

// Sets the text for null in JSON, or for NULL in what is asked of a database.
fn set_null(alloc: Global, source: &mut Source, text: String) {
    match source {
        Source::Rows(format) => {
            let mut members = MemberRules::new(alloc);
            members.null = text;
            *source = Source::Members {
                format: *format,
                members,
            };
        }
        Source::Members { members, .. } | Source::Seen { members, .. } => members.null = text,
        Source::Database {
            selection: Selection::Query(query),
            ..
        } => query.null = text,
        Source::Database {
            selection: Selection::Table { null, .. },
            ..
        } => *null = text,
        _ => {}
    }
}

// The source of the last input.
fn last_source(request: &mut Request) -> &mut Source {
    match request.further.last_mut() {
        Some(further) => &mut further.source,
        None => &mut request.source,
    }
}

// Sets an option, and returns whether there is one of this name with this value. Options of JSON are those of the last input.
fn set_option(
    alloc: Global,
    request: &mut Request,
    rules: &mut RowRules,
    text: &str,
) -> Result<bool, AllocError> {
    let (name, value) = text.split_once(' ').unwrap_or((text, ""));
    if set_rule(rules, name, value).is_some() {
        request.source.set_rules(*rules);
        request.view.is_padded |= name == "ragged" && value == "pad";
        return Ok(true);
    }
    if name == "select" {
        select(alloc, request, value)?;
        return Ok(true);
    }
    if name == "at" {
        push_name(alloc, last_source(request), meant(alloc, value)?)?;
        return Ok(true);
    }
    if name == "flatten" {
        set_flat(alloc, last_source(request));
        return Ok(true);
    }
    if name == "null" {
        set_null(alloc, last_source(request), meant(alloc, value)?);
        return Ok(true);
    }
    if let Some(source) = source_set(alloc, request.source.log(), name, value)? {
        request.source = source;
        return Ok(true);
    }
    if add(alloc, &mut request.view, name, value)? {
        return Ok(true);
    }
    Ok(set_value(request, name, value).is_some())
}

// The number and the text of a line that has both.
fn split_times(line: &str) -> Option<(usize, &str)> {
    let (times, text) = line.split_once(' ')?;
    Some((times.parse().ok()?, text))
}

// What a picture means.
fn meaning(c: char) -> char {
    match c {
        '␍' => '\r',
        '␉' => '\t',
        '␛' => '\x1b',
        '␀' => '\0',
        '␂' => '\u{feff}',
        '␊' => '\n',
        _ => c,
    }
}

// A text with its pictures as what they mean.
fn meant(alloc: Global, text: &str) -> Result<String, AllocError> {
    text.chars().map(meaning).collect(alloc)
}

// Appends a line of an input: its pictures as what they mean, and a line feed unless it says that
// there is none.
fn push_input(input: &mut Vec<u8>, line: &str) -> Result<(), AllocError> {
    let (line, end) = match line.strip_suffix('␃') {
        Some(line) => (line, ""),
        None => (line, "\n"),
    };
    for c in line.chars() {
        match c {
            '⌧' => input.push(0xff)?,
            _ => {
                let mut bytes = [0u8; 4];
                input.extend_from_slice(meaning(c).encode_utf8(&mut bytes).as_bytes())?;
            }
        }
    }
    input.extend_from_slice(end.as_bytes())
}

// The byte that a pair of hexadecimal digits means, if this is such a pair.
fn byte_of(pair: &[u8]) -> Option<u8> {
    u8::from_str_radix(str::from_utf8(pair).ok()?, 16).ok()
}

// The bytes that pairs of hexadecimal digits mean, if these are such pairs.
fn push_digits(bytes: &mut Vec<u8>, digits: &str) -> Result<bool, AllocError> {
    for pair in digits.as_bytes().chunks(2) {
        let Some(byte) = byte_of(pair) else {
            return Ok(false);
        };
        bytes.push(byte)?;
    }
    Ok(true)
}

// Appends bytes, and returns whether the words of the line mean some: each has two hexadecimal digits for each
// byte, and may be followed by a star and a number, which says how often they are repeated.
fn push_bytes(input: &mut Vec<u8>, line: &str) -> Result<bool, AllocError> {
    for word in line.split(' ') {
        let (digits, times) = word.split_once('*').unwrap_or((word, "1"));
        let Ok(times) = times.parse::<usize>() else {
            return Ok(false);
        };
        for _ in 0..times {
            if !push_digits(input, digits)? {
                return Ok(false);
            }
        }
    }
    Ok(true)
}

// Sets the bytes from a place on, and returns whether the line has a number, pairs of digits, and room for them.
fn set_bytes(alloc: Global, input: &mut [u8], line: &str) -> Result<bool, AllocError> {
    let Some((place, digits)) = split_times(line) else {
        return Ok(false);
    };
    let mut bytes = Vec::new(alloc);
    if !push_digits(&mut bytes, digits)? {
        return Ok(false);
    }
    for (offset, byte) in bytes.iter().enumerate() {
        match place.checked_add(offset).and_then(|at| input.get_mut(at)) {
            Some(old) => *old = *byte,
            None => return Ok(false),
        }
    }
    Ok(true)
}

/// An input, and how its run ends.
pub(crate) struct Case {
    name: String,
    request: Request,
    rules: RowRules,
    encoding: Option<Encoding>,
    // The input of the case above.
    above: Vec<u8>,
    input: Vec<u8>,
    // What is shown of a table.
    shown: String,
    status: u8,
    // The line of its fault.
    told: String,
}

// Written out, so that a proof has one call wherever a case is dropped, as at each `?`.
impl Drop for Case {
    fn drop(self) {
        let Case {
            name: _,
            request: _,
            rules: _,
            encoding: _,
            above: _,
            input: _,
            shown: _,
            status: _,
            told: _,
        } = self;
    }
}

impl Case {
    /// A case of this name without an input, below a case with this one.
    pub(crate) fn new(alloc: Global, name: &str, above: Vec<u8>) -> Result<Case, AllocError> {
        let name = name.to_string(alloc)?;
        let view = Options {
            look: Look::Sharp,
            has_header: true,
            columns: Vec::new(alloc),
            sides: Vec::new(alloc),
            missing: Vec::new(alloc),
            names: Vec::new(alloc),
            sort: None,
            is_numbered: false,
            is_padded: false,
            head: None,
            tail: None,
            ends: None,
            is_counting: false,
            vertical: Vertical::Never,
            bounds: Bounds {
                width: None,
                limits: Vec::new(alloc),
                overflow: Overflow::Wrap(Breaking::BetweenWords),
            },
            is_omitting: false,
            is_colored: false,
            is_tinted: false,
            is_raw: false,
            is_markdown: false,
        };
        Ok(Case {
            name,
            request: Request {
                name: "first.csv".to_string(alloc)?,
                source: Source::Rows(Format::separated(b',', RowRules::PLAIN)),
                further: Vec::new(alloc),
                rows: Rows::AtOnce,
                view,
            },
            rules: RowRules::PLAIN,
            encoding: None,
            above,
            input: Vec::new(alloc),
            shown: String::new(alloc),
            status: 0,
            told: String::new(alloc),
        })
    }

    /// Its input.
    pub(crate) fn into_input(self) -> Vec<u8> {
        let Case {
            name: _,
            request: _,
            rules: _,
            encoding: _,
            above: _,
            input,
            shown: _,
            status: _,
            told: _,
        } = self;
        input
    }

    /// Reads a line of the file, and returns whether it is understood.
    pub(crate) fn read(&mut self, alloc: Global, line: &str) -> Result<bool, AllocError> {
        let (mark, text) = line.split_once(' ').unwrap_or((line, ""));
        match mark {
            "" | "#" => Ok(true),
            "@" => match text.strip_prefix("encoding ") {
                Some(name) => {
                    self.encoding = Encoding::by_name(name);
                    Ok(self.encoding.is_some())
                }
                None => set_option(alloc, &mut self.request, &mut self.rules, text),
            },
            ">" => {
                push_input(self.bytes(), text)?;
                Ok(true)
            }
            ">+" => self.add_input(alloc, text),
            ">x" => push_bytes(self.bytes(), text),
            ">@" => set_bytes(alloc, &mut self.input, text),
            ">^" => {
                self.input.extend_from_slice(&self.above)?;
                Ok(true)
            }
            "=" => self.push_line(text),
            "=␛" => self.push_line(&meant(alloc, text)?),
            "!" => self.set_told(text),
            ">*" | "=*" => self.push_times(mark, text),
            _ => Ok(false),
        }
    }

    // Appends a line that is shown.
    fn push_line(&mut self, text: &str) -> Result<bool, AllocError> {
        self.push_shown(text)?;
        self.shown.push('\n')?;
        Ok(true)
    }

    // Adds a further input of this name, whose ending is the word for its source: a table of the query, if there is one.
    fn add_input(&mut self, alloc: Global, name: &str) -> Result<bool, AllocError> {
        let (table, word) = name.rsplit_once('.').unwrap_or((name, ""));
        let Some(mut source) = source_of(alloc, word) else {
            return Ok(false);
        };
        source.set_rules(self.rules);
        let (name, bytes) = (meant(alloc, name)?, Vec::new(alloc));
        if let Some(query) = query_in(&mut self.request.source) {
            query.tables.push(QueryTable {
                input: name,
                name: table.to_string(alloc)?,
                known: source
                    .known_rows()
                    .unwrap_or(Known::Nothing { rules: self.rules }),
                bytes,
            })?;
            return Ok(true);
        }
        self.request.further.push(FurtherInput {
            name,
            source,
            bytes,
        })?;
        Ok(true)
    }

    // The bytes that lines are of: those of the last further input, if there is one.
    fn bytes(&mut self) -> &mut Vec<u8> {
        if let Some(query) = query_in(&mut self.request.source) {
            if let Some(table) = query.tables.last_mut() {
                return &mut table.bytes;
            }
        }
        match self.request.further.last_mut() {
            Some(further) => &mut further.bytes,
            None => &mut self.input,
        }
    }

    // Appends a text so many times, to the input or to what is shown.
    fn push_times(&mut self, mark: &str, text: &str) -> Result<bool, AllocError> {
        let Some((times, text)) = split_times(text) else {
            return Ok(false);
        };
        for _ in 0..times {
            if mark == ">*" {
                self.input.extend_from_slice(text.as_bytes())?;
            } else {
                self.push_shown(text)?;
            }
        }
        Ok(true)
    }

    // Appends a text that is shown.
    fn push_shown(&mut self, text: &str) -> Result<(), AllocError> {
        match text.strip_suffix('␣') {
            Some(text) => {
                self.shown.push_str(text)?;
                self.shown.push(' ')
            }
            None => self.shown.push_str(text),
        }
    }

    // Takes the exit status and the error line.
    fn set_told(&mut self, text: &str) -> Result<bool, AllocError> {
        let (status, told) = text.split_once(' ').unwrap_or((text, ""));
        let Ok(status) = status.parse() else {
            return Ok(false);
        };
        self.status = status;
        self.told.push_str(told)?;
        self.told.push('\n')?;
        Ok(true)
    }

    /// Runs the case, and returns whether it ends as the file says. Other output is printed.
    pub(crate) fn is_as_told(&self, rt: &HostRuntime) -> io::Result<bool> {
        let (mut out, mut err) = (Output::new(Vec::new(rt.alloc())), Vec::new(rt.alloc()));
        let mut input = Pieces::new(Decoded::new(self.input.as_slice(), self.encoding));
        let status = run(rt.alloc(), &self.request, &mut input, &mut out, &mut err).status();
        let out = out.into_writer();
        let is_right = status == self.status
            && out.as_slice() == self.shown.as_bytes()
            && err.as_slice() == self.told.as_bytes();
        if !is_right {
            let shown = str::from_utf8(&out).unwrap_or("no UTF-8");
            let told = str::from_utf8(&err).unwrap_or("no UTF-8");
            println!(rt; "{}: {status}\n{shown}{told}", self.name)?;
        }
        Ok(is_right)
    }
}
