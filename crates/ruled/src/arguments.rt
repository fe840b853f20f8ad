//! The arguments of the program.

use crate::choices::{CHOICES, COLORED, Choice, QUOTES, RAGGED, SIDES, Takes, WHEN};
use crate::source::{
    files_in, first_name, is_padded, second_of_name, selected, source_asked, tables_in, unstreamed,
    with_members,
};
use clap::error::ErrorKind;
use clap::{Arg, ArgAction, ArgMatches, Command};
use pg_layout::{AlignmentHorizontal, Look};
use ruled_io::{Encoding, FurtherInput, Kind, MemberRules, OneLine, Quoted, Request, Rows, Source};
use ruled_table::{Bounds, Breaking, Options, Overflow, Side, Sort, Vertical};
use std::alloc::{AllocError, Global};
use std::env::VarError;
use std::io::IsTerminal;
use std::{env, io, mem};

/// What is to be shown.
#[derive(Drop)]
pub(crate) struct Wanted {
    /// The encoding of the files, if one is asked for.
    pub(crate) encoding: Option<Encoding>,
    /// What is shown of which files. Standard input is `-`, and no further file is read yet.
    pub(crate) request: Request,
}

/// What the arguments ask for.
#[derive(Drop)]
pub(crate) enum Asked {
    /// A table.
    Table(Wanted),
    /// Nothing more than was printed, and this exit status.
    Told(u8),
}

/// What is known of the terminal.
#[derive(Clone, Copy)]
struct Screen {
    /// How many columns it has, if a variable says that.
    columns: Option<u32>,
    /// Whether the output goes to it.
    is_output: bool,
    /// Whether the variables let it show colours.
    allows_color: bool,
}

// An option that takes a value.
fn option<'a>(alloc: Global, choice: &Choice) -> Arg<'a> {
    let option = Arg::new(alloc, choice.name)
        .long(choice.name)
        .value_name(choice.value)
        .help(choice.help)
        .action(ArgAction::Set);
    match choice.short {
        Some(letter) => option.short(letter),
        None => option,
    }
}

// An argument, but for what it can't be used with.
fn argument<'a>(alloc: Global, choice: &Choice, looks: &'a [&'a str]) -> Arg<'a> {
    match choice.takes {
        Takes::Nothing => Arg::new(alloc, choice.name)
            .long(choice.name)
            .help(choice.help)
            .action(ArgAction::SetTrue),
        Takes::Files => Arg::new(alloc, choice.name)
            .value_name(choice.value)
            .num_args(0..)
            .help(choice.help),
        Takes::Text => option(alloc, choice),
        Takes::Number => option(alloc, choice).value_parser(clap::value_parser!(u32)),
        Takes::Rows => option(alloc, choice)
            .num_args(0..=1)
            .require_equals(true)
            .default_missing_value("1000")
            .value_parser(clap::value_parser!(u32)),
        Takes::Format => option(alloc, choice).value_parser(Kind::NAMES.as_slice()),
        Takes::Encoding => option(alloc, choice).value_parser(Encoding::NAMES.as_slice()),
        Takes::Look => option(alloc, choice)
            .value_parser(looks)
            .default_value("sharp"),
        Takes::Side => option(alloc, choice).value_parser(SIDES.as_slice()),
        Takes::Quote => option(alloc, choice).value_parser(QUOTES.as_slice()),
        Takes::Ragged => option(alloc, choice).value_parser(RAGGED.as_slice()),
        Takes::When => option(alloc, choice)
            .num_args(0..=1)
            .require_equals(true)
            .default_missing_value("always")
            .value_parser(WHEN.as_slice()),
        Takes::Color => option(alloc, choice).value_parser(COLORED.as_slice()),
    }
}

// All arguments.
fn arguments<'a>(alloc: Global, looks: &'a [&'a str]) -> Result<Vec<Arg<'a>>, AllocError> {
    let mut arguments = Vec::new(alloc);
    for choice in &CHOICES {
        let mut made = argument(alloc, choice, looks);
        if choice.is_list {
            made = made.value_delimiter(',');
        }
        arguments.push(made.conflicts_with_all(choice.conflicts)?)?;
    }
    Ok(arguments)
}

fn command<'a>(alloc: Global, looks: &'a [&'a str]) -> Result<Command<'a>, AllocError> {
    Command::new(alloc, "ruled")
        .about("Prints CSV, TSV, JSON, or rows of an SQLite database as a table")
        .version("0.1.0 (logic dac8208d650f15bf)")
        .args(arguments(alloc, looks)?)
}

// What the table looks like.
fn look_asked(found: &ArgMatches) -> Result<Look, &'static str> {
    if found.get_flag("markdown") {
        return Ok(Look::Markdown);
    }
    Look::by_name(found.get_str("look").unwrap_or("sharp")).ok_or("no such look")
}

// How a list is read.
#[derive(Clone, Copy)]
enum Reading {
    /// Outside quotes, or at the front of a name.
    Plain,
    /// Within quotes.
    Quoted,
    /// Behind a quote that ends them, unless a second one follows.
    Closing,
}

// The names of a list, with a comma or another sign between two. A name that begins with a quote extends to the next one that
// isn't doubled.
fn names_in(alloc: Global, list: &str, sign: char) -> Result<Vec<String>, AllocError> {
    let mut names = Vec::new(alloc);
    let (mut name, mut reading) = (String::new(alloc), Reading::Plain);
    for c in list.chars() {
        match (reading, c) {
            (Reading::Plain, '"') if name.is_empty() => reading = Reading::Quoted,
            (Reading::Quoted, '"') => reading = Reading::Closing,
            (Reading::Plain | Reading::Closing, c) if c == sign => {
                names.push(mem::replace(&mut name, String::new(alloc)))?;
                reading = Reading::Plain;
            }
            (Reading::Closing, '"') => {
                name.push(c)?;
                reading = Reading::Quoted;
            }
            _ => name.push(c)?,
        }
    }
    names.push(name)?;
    Ok(names)
}

// The names that an option lists, with this sign between two.
fn names_of(alloc: Global, list: Option<&str>, sign: char) -> Result<Vec<String>, AllocError> {
    match list {
        Some(list) => names_in(alloc, list, sign),
        None => Ok(Vec::new(alloc)),
    }
}

// Whether words ask for columns, but not for that of the numbers of rows.
fn lacks_numbers(words: &[String]) -> bool {
    let mut is_asking = false;
    for word in words {
        let word = word.as_str();
        if word == "#" || word == "1" || word.starts_with("1-") {
            return false;
        }
        is_asking |= !word.starts_with('!');
    }
    is_asking
}

// The words for the columns that are shown. If some ask for columns, that of the numbers is in front, unless one of them
// asks for it.
fn columns_of(alloc: Global, found: &ArgMatches) -> Result<Vec<String>, AllocError> {
    let mut words = names_of(alloc, found.get_str("columns"), ',')?;
    if found.get_flag("number") && lacks_numbers(&words) {
        words.insert(0, String::from_str(alloc, "#")?)?;
    }
    Ok(words)
}

// The texts that count as blank: those that are listed, and that for null.
fn missing_of(alloc: Global, found: &ArgMatches) -> Result<Vec<String>, AllocError> {
    let mut texts = names_of(alloc, found.get_str("missing"), ',')?;
    if let Some(null) = found.get_str("null") {
        texts.push(String::from_str(alloc, null)?)?;
    }
    Ok(texts)
}

// The column that sorts rows, behind which `:desc` means that the greatest comes first.
fn sort_of(alloc: Global, word: Option<&str>) -> Result<Option<Sort>, AllocError> {
    let Some(word) = word else {
        return Ok(None);
    };
    let column = word.strip_suffix(":desc");
    Ok(Some(Sort {
        column: String::from_str(alloc, column.unwrap_or(word))?,
        is_descending: column.is_some(),
    }))
}

// The side that a word names, where it names one.
fn side_of(word: &str) -> Option<Side> {
    match word {
        "left" => Some(Side::To(AlignmentHorizontal::Left)),
        "right" => Some(Side::To(AlignmentHorizontal::Right)),
        "centre" | "center" => Some(Side::To(AlignmentHorizontal::Center)),
        "point" => Some(Side::Point),
        _ => None,
    }
}

// The sides that were listed.
fn sides_of(alloc: Global, words: Option<&[&str]>) -> Result<Vec<Option<Side>>, AllocError> {
    let mut sides = Vec::new(alloc);
    for word in words.unwrap_or(&[]) {
        sides.push(side_of(word))?;
    }
    Ok(sides)
}

// The limit that a number means: 0 is none.
fn limit_of(number: u32) -> Option<u32> {
    if number == 0 { None } else { Some(number) }
}

// How wide the table may be. A table of Markdown has a line for each row, and so no bounds.
fn bounds_of(
    alloc: Global,
    found: &ArgMatches,
    columns: Option<u32>,
) -> Result<Bounds, AllocError> {
    let mut bounds = Bounds {
        width: found.get_one::<u32>("width").or(columns).and_then(limit_of),
        limits: Vec::new(alloc),
        overflow: Overflow::Wrap(Breaking::BetweenWords),
    };
    if found.get_flag("markdown") {
        bounds.width = None;
    }
    if found.get_flag("cut") {
        bounds.overflow = Overflow::Cut("…");
    }
    if let Some(limits) = found.get_many::<u32>("max-column-width") {
        for limit in limits {
            bounds.limits.push(limit.ok().and_then(limit_of))?;
        }
    }
    Ok(bounds)
}

// Whether columns that have no room are left out: where that is asked for, or the output is a terminal.
fn is_omitting(found: &ArgMatches, screen: Screen) -> bool {
    let is_asked = found.get_flag("omit") || matches!(vertical_of(found), Vertical::IfOmitting);
    is_asked || (screen.is_output && !found.get_flag("no-omit"))
}

// Whether there is colour: as is asked for, and else at a terminal that shows it. Markdown has none.
fn is_colored(found: &ArgMatches, screen: Screen) -> bool {
    let is_shown = match found.get_str("color") {
        Some("always") => true,
        Some("never") => false,
        _ => screen.is_output && screen.allows_color,
    };
    is_shown && !found.get_flag("markdown")
}

// When rows are shown as blocks.
fn vertical_of(found: &ArgMatches) -> Vertical {
    match found.get_str("vertical") {
        Some("auto") => Vertical::IfOmitting,
        Some(_) => Vertical::Always,
        None => Vertical::Never,
    }
}

// Whether a line counts the rows: where that is asked for, and below the look of psql, which does so.
fn is_counting(found: &ArgMatches, look: Look) -> bool {
    let is_silent = found.get_flag("no-count") || found.get_one::<u32>("stream").is_some();
    found.get_flag("count") || (matches!(look, Look::Psql) && !is_silent)
}

// How rows are shown.
fn view_of(
    alloc: Global,
    found: &ArgMatches,
    look: Look,
    screen: Screen,
) -> Result<Options, AllocError> {
    Ok(Options {
        look,
        has_header: !found.get_flag("no-header"),
        columns: columns_of(alloc, found)?,
        sides: sides_of(alloc, found.get_strs("align"))?,
        missing: missing_of(alloc, found)?,
        names: names_of(alloc, found.get_str("names"), ',')?,
        sort: sort_of(alloc, found.get_str("sort"))?,
        is_numbered: found.get_flag("number"),
        is_padded: is_padded(found),
        head: found.get_one::<u32>("head"),
        tail: found.get_one::<u32>("tail"),
        ends: found.get_one::<u32>("ends"),
        is_counting: is_counting(found, look),
        vertical: vertical_of(found),
        bounds: bounds_of(alloc, found, screen.columns)?,
        is_omitting: is_omitting(found, screen),
        is_colored: is_colored(found, screen),
        is_tinted: found.get_flag("tint"),
        is_raw: found.get_flag("raw"),
        is_markdown: found.get_flag("markdown"),
    })
}

// When rows are shown.
fn rows_of(found: &ArgMatches) -> Rows {
    match found.get_one::<u32>("stream") {
        Some(count) => Rows::FromFirst(count.max(1) as usize),
        None => Rows::AtOnce,
    }
}

// How JSON is read.
fn members_asked(alloc: Global, found: &ArgMatches) -> Result<MemberRules, AllocError> {
    Ok(MemberRules {
        path: names_of(alloc, found.get_str("at"), '.')?,
        null: String::from_str(alloc, found.get_str("null").unwrap_or(""))?,
        is_flat: found.get_flag("flatten"),
    })
}

// The files behind the first one, of which nothing is read yet, or why they can't be with it.
fn further_files(
    alloc: Global,
    found: &ArgMatches,
) -> Result<Result<Vec<FurtherInput>, &'static str>, AllocError> {
    let mut files = Vec::new(alloc);
    for name in files_in(found).iter().skip(1) {
        let source = match source_asked(alloc, found, name) {
            Ok(source) => source,
            Err(told) => return Ok(Err(told)),
        };
        files.push(FurtherInput {
            name: String::from_str(alloc, name)?,
            source: with_members(source, members_asked(alloc, found)?),
            bytes: Vec::new(alloc),
        })?;
    }
    Ok(Ok(files))
}

// What was asked for, of a first file that is this source and of further ones, in this look.
fn table_of(
    alloc: Global,
    found: &ArgMatches,
    source: Source,
    further: Vec<FurtherInput>,
    look: Look,
    screen: Screen,
) -> Result<Wanted, AllocError> {
    let encoding = found.get_str("encoding").and_then(Encoding::by_name);
    let mut view = view_of(alloc, found, look, screen)?;
    let members = members_asked(alloc, found)?;
    let (mut further, mut tables) = (further, Vec::new(alloc));
    if found.get_str("query").is_some() {
        tables = tables_in(alloc, mem::replace(&mut further, Vec::new(alloc)))?;
    }
    let source = selected(alloc, found, source, tables, members, &mut view)?;
    Ok(Wanted {
        encoding,
        request: Request {
            name: String::from_str(alloc, first_name(found))?,
            source,
            further,
            rows: rows_of(found),
            view,
        },
    })
}

// The value of a variable, or an empty text if it isn't set. One that isn't Unicode is `�`.
fn variable(rt: &HostRuntime, name: &str) -> io::Result<String> {
    match env::var(rt, name) {
        Ok(value) => Ok(value),
        Err(VarError::OutOfMemory) => Err(io::ErrorKind::OutOfMemory.into()),
        Err(VarError::NotPresent) => Ok(String::new(rt.alloc())),
        Err(VarError::NotUnicode) => Ok(String::from_str(rt.alloc(), "�")?),
    }
}

// What the variables and the output say of the terminal.
fn screen_of(rt: &HostRuntime) -> io::Result<Screen> {
    let columns = variable(rt, "COLUMNS")?;
    let (no_color, term) = (variable(rt, "NO_COLOR")?, variable(rt, "TERM")?);
    Ok(Screen {
        columns: columns.parse::<u32>().ok(),
        is_output: rt.stdout().is_terminal(),
        allows_color: no_color.is_empty() && term.as_str() != "dumb",
    })
}

// The names of all looks.
fn looks(alloc: Global) -> Result<Vec<&'static str>, AllocError> {
    let mut names = Vec::new(alloc);
    for look in Look::ALL {
        names.push(look.name())?;
    }
    Ok(names)
}

// Prints what clap says of the arguments, its help among it, and returns the exit status.
fn tell(rt: &HostRuntime, said: &clap::Error) -> io::Result<u8> {
    let status = said.exit_code() as u8;
    match said.print(rt) {
        Err(error) if error.kind() == io::ErrorKind::OutOfMemory => Err(error),
        Err(error) if status == 0 && error.kind() != io::ErrorKind::BrokenPipe => {
            let _ = eprintln!(rt; "ruled: write failed");
            Ok(5)
        }
        _ => Ok(status),
    }
}

// The words with each on one line, as the lines of clap may repeat them.
fn shown_words(alloc: Global, words: &[String]) -> Result<Vec<String>, AllocError> {
    let mut shown = Vec::new(alloc);
    for word in words {
        shown.push(format!(in alloc; "{}", OneLine(word.as_str()))?)?;
    }
    Ok(shown)
}

// Prints what clap says of words that it refuses, and returns the exit status. The words are read once more, with
// each on one line: what is refused stays refused, since no value that an option takes has a character that is shown
// for another one.
fn tell_of(rt: &HostRuntime, words: &[String]) -> io::Result<u8> {
    let shown = shown_words(rt.alloc(), words)?;
    let looks = looks(rt.alloc())?;
    let command = command(rt.alloc(), &looks)?;
    let said = match command.try_get_matches_from(shown.as_slice()) {
        Ok(_found) => return Err(io::ErrorKind::InvalidInput.into()),
        Err(said) => said,
    };
    if matches!(said.kind(), ErrorKind::OutOfMemory) {
        return Err(io::ErrorKind::OutOfMemory.into());
    }
    tell(rt, &said)
}

// What the input is, and what its table looks like, or why they can't be.
fn input_and_look(alloc: Global, found: &ArgMatches) -> Result<(Source, Look), &'static str> {
    let source = source_asked(alloc, found, first_name(found))?;
    if let Some(told) = unstreamed(found, &source) {
        return Err(told);
    }
    Ok((source, look_asked(found)?))
}

// Prints why there can't be a table.
fn refuse(rt: &HostRuntime, told: &str) -> io::Result<Asked> {
    eprintln!(rt; "ruled: {told}")?;
    Ok(Asked::Told(2))
}

// What the arguments ask for that clap has read.
fn asked_of(rt: &HostRuntime, found: &ArgMatches) -> io::Result<Asked> {
    if let Some(file) = second_of_name(found) {
        let file = Quoted(file);
        eprintln!(rt; "ruled: {file}: its table has the name of an earlier one")?;
        return Ok(Asked::Told(2));
    }
    let screen = screen_of(rt)?;
    let further = match further_files(rt.alloc(), found)? {
        Ok(further) => further,
        Err(told) => return refuse(rt, told),
    };
    match input_and_look(rt.alloc(), found) {
        Ok((source, look)) => {
            let wanted = table_of(rt.alloc(), found, source, further, look, screen)?;
            Ok(Asked::Table(wanted))
        }
        Err(told) => refuse(rt, told),
    }
}

/// Reads the arguments, and prints what clap has to say of them.
pub(crate) fn read_arguments(rt: &HostRuntime) -> io::Result<Asked> {
    let words: Vec<String> = env::args(rt)?.collect(rt.alloc())?;
    let looks = looks(rt.alloc())?;
    let command = command(rt.alloc(), &looks)?;
    let found = match command.try_get_matches_from(words.as_slice()) {
        Ok(found) => found,
        Err(error) if matches!(error.kind(), ErrorKind::OutOfMemory) => {
            return Err(io::ErrorKind::OutOfMemory.into());
        }
        Err(_error) => return Ok(Asked::Told(tell_of(rt, &words)?)),
    };
    asked_of(rt, &found)
}
