//! Texts, characters and fills, by which each longer piece is appended.

ghost use Rattle.std.specs.Prelude.{◌≡◌, ◌≤◌, encode_utf8};
ghost use Rattle.pg_picture.specs.Appending.{Appends};
ghost use Rattle.pg_picture.specs.Pieces.{repeated};

use std::alloc::{AllocError, Allocator};

/// How many characters a block has.
const BLOCK: usize = 64;

const SPACES: &str = "                                                                ";

const DASHES: &str = "----------------------------------------------------------------";

const LINES: &str = "────────────────────────────────────────────────────────────────";

/// Appends a text.
///
/// The only error is out of memory.
#[inline(always)]
pub fn push_text<A: Allocator>(buf: &mut String<A>, text: &str) -> Result<(), AllocError>
    ensures { Appends buf.old buf.new result text.now }
{
    buf.push_str(text)
}

/// Appends a text. One of at most three bytes is copied without a call, since each arm knows how many it copies.
///
/// The only error is out of memory.
#[inline(always)]
pub(crate) fn push_short_text<A: Allocator>(
    buf: &mut String<A>,
    text: &str,
) -> Result<(), AllocError>
    ensures { Appends buf.old buf.new result text.now }
{
    match text.len() {
        1 => push_text(buf, text),
        2 => push_text(buf, text),
        3 => push_text(buf, text),
        _ => push_text(buf, text),
    }
}

/// Appends a character.
///
/// The only error is out of memory.
#[inline(always)]
pub fn push_char<A: Allocator>(buf: &mut String<A>, c: char) -> Result<(), AllocError>
    ensures { Appends buf.old buf.new result (encode_utf8 c) }
{
    if c.is_ascii() {
        return buf.push(c);
    }
    push_wide(buf, c)
}

// Most glyphs that are pushed one by one are this vertical, whose bytes needn't be computed. It is out of
// line, so that the code of tables without glyphs keeps more in registers.
#[inline(never)]
#[tactic(auto, using(crate::proofs::Rulesets::bytes_of_glyphs))]
fn push_wide<A: Allocator>(buf: &mut String<A>, c: char) -> Result<(), AllocError>
    ensures { Appends buf.old buf.new result (encode_utf8 c) }
{
    if c == '│' {
        return push_text(buf, "│");
    }
    buf.push(c)
}

/// Appends a character `count` times.
///
/// The only error is out of memory; then some of the bytes may have been appended.
#[inline(always)]
pub(crate) fn push_repeated<A: Allocator>(
    buf: &mut String<A>,
    c: char,
    count: usize,
) -> Result<(), AllocError>
    ensures { Appends buf.old buf.new result (repeated c count) }
{
    if count == 1 {
        return push_char(buf, c);
    }
    let is_short = c == ' ' && count <= BLOCK;
    if is_short {
        return push_text(buf, front_of(SPACES, ' ', count));
    }
    push_run(buf, c, count)
}

/// The first `count` characters of a block, which is one character repeated.
#[inline(always)]
fn front_of(block: &str, c: char, count: usize) -> &str
    requires block { block.now ≡ repeated c BLOCK }
    requires few { count ≤ BLOCK }
    ensures { result.now ≡ repeated c count }
{
    &block[..count * c.len_utf8()]
}

// The rare case of `push_repeated`, kept out of line so that the usual one stays short.
#[inline(never)]
fn push_run<A: Allocator>(buf: &mut String<A>, c: char, count: usize) -> Result<(), AllocError>
    ensures { Appends buf.old buf.new result (repeated c count) }
{
    match c {
        ' ' => push_blocks(buf, SPACES, ' ', count),
        '-' => push_blocks(buf, DASHES, '-', count),
        '─' => push_blocks(buf, LINES, '─', count),
        _ => push_each(buf, c, count),
    }
}

fn push_blocks<A: Allocator>(
    buf: &mut String<A>,
    block: &str,
    c: char,
    count: usize,
) -> Result<(), AllocError>
    requires { block.now ≡ repeated c BLOCK }
    ensures { Appends buf.old buf.new result (repeated c count) }
{
    for _ in 0..count / BLOCK {
        push_text(buf, block)?;
    }
    push_text(buf, front_of(block, c, count % BLOCK))
}

// A character that has no block.
fn push_each<A: Allocator>(buf: &mut String<A>, c: char, count: usize) -> Result<(), AllocError>
    ensures { Appends buf.old buf.new result (repeated c count) }
{
    for _ in 0..count {
        push_char(buf, c)?;
    }
    Ok(())
}
