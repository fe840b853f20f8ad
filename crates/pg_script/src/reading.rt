//! How a script is read, line by line.

ghost use Rattle.std.specs.Prelude.{◌≡◌, ◌+◌, ◌<◌, ◌^◌, ℕ, length, Some, None, Ok, Err, true, false, MatchOption, IfOk, OnOk, if◌then◌else◌, option_map};
ghost use Rattle.std.specs.Str.{is_utf8};
ghost use Rattle.std.specs.Str.Lines.{lines};
ghost use Rattle.pg_script.specs.Draft.{told_of_draft};
ghost use Rattle.pg_script.specs.Script.{after_line, read_lines, told_by, told_of_script};
ghost use Rattle.pg_script.specs.Told.{told_nothing};

use crate::draft::Draft;
use crate::lines::Lines;
use crate::script::{Script, ScriptFault};
use crate::statement::{Size, Statement};
use crate::words::Words;
use std::alloc::{AllocError, Allocator};

// The line as a text, or `None` if it isn't UTF-8.
#[tactic(auto, using(crate::proofs::LineWords::texts_of_lines))]
fn text_of_line(line: &[u8]) -> Option<&str>
    ensures { MatchOption result (is_utf8 line.now ≡ false) (λ text. (is_utf8 line.now ≡ true) × (text.now ≡ line.now)) }
{
    match str::from_utf8(line) {
        Ok(text) => Some(text),
        Err(_) => None,
    }
}

// The size that a line sets before any other line with words; no size if it has no words, and
// `None` if it is bad.
fn size_of_line(line: &[u8]) -> Option<Option<Size>>
    ensures { after_line None line.now ≡ option_map (λ told. option_map (λ size. (size, told_nothing size)) told) result }
{
    let line = text_of_line(line)?;
    let mut words = Words::new(line);
    match words.next_word() {
        Some("size") => Some(Some(Size::read(words)?)),
        Some(_) => None,
        None => Some(None),
    }
}

// Reads lines until one sets the size of the table, or is bad: then it returns that line's number.
// The first line has the number `number`, which becomes that of the next line.
fn read_size(rest: &mut Lines<'_>, number: &mut usize) -> Result<Size, usize>
    requires { number.old + length (lines rest.old.rest.now) < 2 ^ 64 }
    ensures counted { number.new + length (lines rest.new.rest.now) ≡ number.old + length (lines rest.old.rest.now) }
    ensures told { IfOk result (λ size. read_lines number.old None (lines rest.old.rest.now) ≡ read_lines number.new (Some (size, told_nothing size)) (lines rest.new.rest.now)) }
    ensures bad { (n : ℕ) → result ≡ Err n → read_lines number.old None (lines rest.old.rest.now) ≡ Err n }
{
    while let Some(line) = rest.next() {
        let bad = *number;
        *number += 1;
        if let Some(size) = size_of_line(line).ok_or(bad)? {
            return Ok(size);
        }
    }
    Err(*number)
}

// Changes the table as a line after the size says, and returns whether the line is good.
fn follow_line<A: Allocator + Copy>(
    alloc: A,
    draft: &mut Draft<A>,
    line: &[u8],
) -> Result<bool, AllocError>
    ensures size { draft.new.size ≡ draft.old.size }
    ensures told { IfOk result (λ good. after_line (Some (draft.old.size, told_of_draft draft.old)) line.now ≡ (if good then Some (Some (draft.old.size, told_of_draft draft.new)) else None)) }
{
    let Some(line) = text_of_line(line) else {
        return Ok(false);
    };
    let mut words = Words::new(line);
    let Some(keyword) = words.next_word() else {
        return Ok(true);
    };
    match Statement::read(alloc, keyword, words, draft.size)? {
        Some(statement) => {
            draft.follow(statement)?;
            Ok(true)
        }
        None => Ok(false),
    }
}

// Changes the table as the lines after the size say. The first of them has the number `number`.
fn follow_lines<A: Allocator + Copy>(
    alloc: A,
    draft: &mut Draft<A>,
    rest: Lines<'_>,
    mut number: usize,
) -> Result<(), ScriptFault>
    requires { number + length (lines rest.rest.now) < 2 ^ 64 }
    ensures told { OnOk result (read_lines number (Some (draft.old.size, told_of_draft draft.old)) (lines rest.entry.rest.now) ≡ Ok (told_of_draft draft.new)) }
    ensures bad { (n : ℕ) → result ≡ Err (ScriptFault.Bad n) → read_lines number (Some (draft.old.size, told_of_draft draft.old)) (lines rest.entry.rest.now) ≡ Err n }
{
    for line in rest {
        if !follow_line(alloc, draft, line)? {
            return Err(ScriptFault::Bad(number));
        }
        number += 1;
    }
    Ok(())
}

/// Reads a script.
///
/// The first bad line is reported, counted from 1; if no line has words, that is the line after the
/// last one.
pub fn parse_script<A: Allocator + Copy>(alloc: A, script: &[u8]) -> Result<Script<A>, ScriptFault>
    ensures told { IfOk result (λ read. told_by script.now ≡ Ok (told_of_script read)) }
    ensures bad { (n : ℕ) → result ≡ Err (ScriptFault.Bad n) → told_by script.now ≡ Err n }
{
    let mut rest = Lines::new(script);
    let mut number = 1;
    let size = match read_size(&mut rest, &mut number) {
        Ok(size) => size,
        Err(line) => return Err(ScriptFault::Bad(line)),
    };
    let mut draft = Draft::new(alloc, size)?;
    match follow_lines(alloc, &mut draft, rest, number) {
        Ok(()) => Ok(draft.finish()),
        Err(fault) => {
            drop(draft);
            Err(fault)
        }
    }
}
