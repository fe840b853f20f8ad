//! The program `ruled`: it shows rows of separated values, JSON or a database of SQLite, from a file or from
//! standard input, as a table. `docs/use/RULED.md` is its manual.
#![tactic(auto)]

mod arguments;
mod choices;
mod source;

use crate::arguments::{Asked, Wanted, read_arguments};
use crate::source::{Content, Waiting, content_named, content_of, log_beside};
use ruled_io::{
    Decoded, Encoding, Known, Output, Pieces, Query, Quoted, Request, Selection, Source, run,
};
use std::fs::File;
use std::io::{BufWriter, ErrorKind, Read, Write};
use std::process::ExitCode;
use std::{fs, io};

// Why a file can't be read, in a few words.
fn words_of(error: &io::Error) -> &'static str {
    match error.kind() {
        ErrorKind::InvalidData => "not UTF-16: a lone surrogate or an odd byte",
        ErrorKind::NotFound => "no such file",
        ErrorKind::PermissionDenied => "permission denied",
        ErrorKind::IsADirectory => "is a folder",
        _ => "can't be read",
    }
}

// Whether an input may be a database.
fn may_be_database(source: &Source) -> bool {
    match source {
        Source::Rows(_) | Source::Members { .. } | Source::Values { .. } => false,
        Source::Database {
            selection: Selection::Query(query),
            ..
        } => matches!(query.known, None | Some(Known::Nothing { .. })),
        Source::Seen { .. } | Source::Database { .. } => true,
    }
}

// Opens the file of this name. A folder can be opened, too: only a read of it fails, when its name is no longer known.
fn open(rt: &HostRuntime, name: &str) -> io::Result<File> {
    if fs::metadata(rt, name)?.is_dir() {
        return Err(ErrorKind::IsADirectory.into());
    }
    fs::open(rt, name)
}

// Opens the first file, once it is known what the logs beside it may have, where it may be a database.
fn open_first(rt: &HostRuntime, request: &mut Request) -> io::Result<File> {
    let name = request.name.as_str();
    if may_be_database(&request.source) {
        request.source.set_log(log_beside(rt, name)?);
    }
    open(rt, name)
}

// Reports that the file of this name can't be read, and returns the exit status. The only error is out of memory.
fn tell_unread(rt: &HostRuntime, name: &str, error: io::Error) -> io::Result<u8> {
    if error.kind() == ErrorKind::OutOfMemory {
        return Err(error);
    }
    let name = Quoted(name);
    let _ = writeln!(rt.stderr(), "ruled: {name}: {}", words_of(&error));
    let is_bad_text = error.kind() == ErrorKind::InvalidData;
    Ok(if is_bad_text { 2 } else { 5 })
}

// Reports an input of this name that has no rows of text, and returns the exit status.
fn tell_content(rt: &HostRuntime, name: &str, content: Content) -> u8 {
    let name = Quoted(name);
    let _ = match content {
        Content::Packed(unpacker) => writeln!(
            rt.stderr(),
            "ruled: {name}: compressed; try {unpacker} {name} | ruled"
        ),
        Content::Other(kind) => writeln!(rt.stderr(), "ruled: {name}: is {kind}"),
    };
    2
}

// Reads all of an input in this encoding.
fn read_all<R: Read + Drop>(
    rt: &HostRuntime,
    encoding: Option<Encoding>,
    input: R,
    bytes: &mut Vec<u8>,
) -> io::Result<()> {
    Decoded::new(Waiting::new(*rt, input), encoding).read_to_end(bytes)?;
    Ok(())
}

// Reads all of the further file of this name in this encoding.
fn read_further(
    rt: &HostRuntime,
    encoding: Option<Encoding>,
    name: &str,
    bytes: &mut Vec<u8>,
) -> io::Result<()> {
    match name {
        "-" => read_all(rt, encoding, rt.stdin(), bytes),
        name => read_all(rt, encoding, open(rt, name)?, bytes),
    }
}

// What the further file of this name is, of which these bytes were read, if it has no rows of text. The only error is out
// of memory.
fn content_further(rt: &HostRuntime, name: &str, bytes: &[u8]) -> io::Result<Option<Content>> {
    match name {
        "-" => Ok(content_of(bytes)),
        name => content_named(rt, name),
    }
}

// Reads the further file of this name, and returns the exit status if it can't be read or has no rows of text, or `None`.
// The only error is out of memory.
fn try_further(
    rt: &HostRuntime,
    encoding: Option<Encoding>,
    name: &str,
    bytes: &mut Vec<u8>,
) -> io::Result<Option<u8>> {
    let read = read_further(rt, encoding, name, bytes);
    if let Some(content) = content_further(rt, name, bytes.as_slice())? {
        return Ok(Some(tell_content(rt, name, content)));
    }
    match read {
        Ok(()) => Ok(None),
        Err(error) => Ok(Some(tell_unread(rt, name, error)?)),
    }
}

// Reads the files of a query's further tables, and returns the exit status of one that can't be read, or `None`. The only
// error is out of memory.
fn read_tables(
    rt: &HostRuntime,
    encoding: Option<Encoding>,
    query: &mut Query,
) -> io::Result<Option<u8>> {
    for table in &mut query.tables {
        let status = try_further(rt, encoding, table.input.as_str(), &mut table.bytes)?;
        if status.is_some() {
            return Ok(status);
        }
    }
    Ok(None)
}

// Reads all further files, and returns the exit status of one that can't be read, or `None`. The only error is out of
// memory.
fn read_all_further(rt: &HostRuntime, wanted: &mut Wanted) -> io::Result<Option<u8>> {
    let encoding = wanted.encoding;
    if let Source::Database {
        selection: Selection::Query(query),
        ..
    } = &mut wanted.request.source
    {
        return read_tables(rt, encoding, query);
    }
    for further in &mut wanted.request.further {
        let status = try_further(rt, encoding, further.name.as_str(), &mut further.bytes)?;
        if status.is_some() {
            return Ok(status);
        }
    }
    Ok(None)
}

// Shows the table of the first file, which is this input, and of the further files, and returns the exit status.
fn show_input<R: Read + Drop>(rt: &HostRuntime, mut wanted: Wanted, input: R) -> io::Result<u8> {
    if let Some(status) = read_all_further(rt, &mut wanted)? {
        return Ok(status);
    }
    let mut out = Output::new(BufWriter::new(rt.alloc(), rt.stdout())?);
    let mut input = Pieces::new(Decoded::new(Waiting::new(*rt, input), wanted.encoding));
    let request = &wanted.request;
    let status = run(rt.alloc(), request, &mut input, &mut out, &mut rt.stderr()).status();
    // What a write that failed has left isn't written once more.
    let _parts = out.into_writer().into_parts();
    Ok(status)
}

// Shows the requested table of standard input, and returns the exit status. The only error is out of memory.
fn show_stdin(rt: &HostRuntime, wanted: Wanted) -> io::Result<u8> {
    let mut bytes = [0u8; 10];
    // If this read fails, the next one reports why.
    let count = Waiting::new(*rt, rt.stdin()).read(&mut bytes).unwrap_or(0);
    let first = &bytes[..count];
    match content_of(first) {
        Some(content) => Ok(tell_content(rt, "-", content)),
        None => show_input(rt, wanted, first.chain(rt.stdin())),
    }
}

// Shows the requested table, and returns the exit status. The only error is out of memory.
fn show(rt: &HostRuntime, mut wanted: Wanted) -> io::Result<u8> {
    let name = wanted.request.name.as_str();
    if name == "-" {
        return show_stdin(rt, wanted);
    }
    if let Some(content) = content_named(rt, name)? {
        return Ok(tell_content(rt, name, content));
    }
    match open_first(rt, &mut wanted.request) {
        Ok(file) => show_input(rt, wanted, file),
        Err(error) => tell_unread(rt, wanted.request.name.as_str(), error),
    }
}

// Does what the arguments ask for, and returns the exit status.
fn answer(rt: &HostRuntime) -> io::Result<u8> {
    match read_arguments(rt)? {
        Asked::Table(wanted) => show(rt, wanted),
        Asked::Told(status) => Ok(status),
    }
}

fn main(rt: HostRuntime) -> ExitCode {
    let status = match answer(&rt) {
        Ok(status) => status,
        Err(error) if error.kind() == ErrorKind::OutOfMemory => {
            let _ = eprintln!(rt; "ruled: out of memory");
            4
        }
        Err(_) => {
            let _ = eprintln!(rt; "ruled: the arguments can't be read");
            2
        }
    };
    ExitCode::from(status)
}
