//! Readers and a writer that fail on purpose, and count their calls.

ghost use Rattle.std.specs.Prelude.{◌≡◌, ◌≤◌, ◌↔◌, true, min, Some, None, Ok, IsErr, IfOk, IfErr, ◌++◌, length, take, drop, codes, if◌then◌else◌};
ghost use Rattle.std.specs.Io.{ReadsAtMost, WritesAtMost};
ghost use Rattle.std.specs.Io.KnownBytes.{Keeps, ReadConsumes, WriteAppends};
ghost use Rattle.std.specs.IoError.{error_kind};
ghost use Rattle.pg_testing.specs.Ledger.{fails_next, before_calls, after_call};
ghost use Rattle.pg_testing.specs.Streams.{Reading, Writing};
ghost use Rattle.pg_testing.specs.declared.streams.TheConstants.{PIECE};

use crate::ledger::{Ledger, Rule};
use std::alloc::{Allocator, Global};
use std::io;
use std::io::{ErrorKind, Read, Write};
use std::marker::Model;

/// The most bytes that one read gives, or one write takes.
pub const PIECE: usize = 3;

// Counts a call, and fails it if the rule says so. No caller tries again after an error of this
// kind.
fn count(calls: &mut Ledger) -> io::Result<()>
    ensures fails { IsErr result ↔ (fails_next calls.old ≡ true) }
    ensures kind { IfErr result (λ e. error_kind e ≡ ErrorKind.Other) }
    ensures counted { calls.new ≡ after_call calls.old }
{
    let fails = calls.fails_next();
    *calls = calls.after_call();
    if fails {
        return Err(io::Error::from(ErrorKind::Other));
    }
    Ok(())
}

/// A reader of lent bytes, in pieces of at most [`PIECE`] bytes, whose reads fail by a rule.
///
/// A failed read takes no bytes, so a reader that goes on after it gives all of them.
///
/// Lend it, as `&mut reader`, to count its reads afterwards.
#[derive(Drop)]
pub struct FailingReader<'a> {
    left: &'a [u8],
    reads: Ledger,
}

impl<'a> Model for FailingReader<'a> {
    ghost Value = { Reading };

    ghost view = { λ r. record { left = r.left.now; reads = r.reads } };
}

impl<'a> FailingReader<'a> {
    /// A reader of these bytes. With [`Rule::Never`] it counts its reads, and none fails.
    pub fn new(bytes: &'a [u8], rule: Rule) -> FailingReader<'a>
        ensures { result ≡ record { left = bytes.now; reads = before_calls rule } }
    {
        FailingReader {
            left: bytes,
            reads: Ledger::new(rule),
        }
    }

    /// How many reads were made so far, failed ones included. The count stops at `u64::MAX`.
    pub fn reads(&self) -> u64
        ensures { result ≡ self.now.reads.calls }
    {
        self.reads.calls
    }

    /// Whether a read failed so far.
    pub fn has_failed(&self) -> bool
        ensures { result ≡ self.now.reads.has_failed }
    {
        self.reads.has_failed
    }
}

impl Read for FailingReader<'_> {
    ghost remaining = { λ r. Some r.left };

    fn read(&mut self, buf: &mut [u8]) -> io::Result<usize>
        ensures bound { ReadsAtMost result buf.new }
        ensures bytes { ReadConsumes (Some self.old.left) (Some self.new.left) result buf.new }
        ensures count { IfOk result (λ n. n ≡ min (length self.old.left) (min (length buf.old) PIECE)) }
        ensures fails { IsErr result ↔ (fails_next self.old.reads ≡ true) }
        ensures kind { IfErr result (λ e. error_kind e ≡ ErrorKind.Other) }
        ensures counted { self.new.reads ≡ after_call self.old.reads }
    {
        count(&mut self.reads)?;
        let room = buf.len().min(PIECE);
        self.left.read(&mut buf[..room])
    }
}

/// A reader without an end, which gives one line feed at each read.
#[derive(Clone, Copy)]
pub struct EndlessReader;

impl Read for EndlessReader {
    fn read(&mut self, buf: &mut [u8]) -> io::Result<usize>
        ensures bound { ReadsAtMost result buf.new }
        ensures bytes { ReadConsumes None None result buf.new }
        ensures count { result ≡ Ok (min 1 (length buf.old)) }
        ensures filled { IfOk result (λ n. buf.new ≡ take n (codes "\n") ++ drop n buf.old) }
    {
        match buf.first_mut() {
            Some(first) => {
                *first = b'\n';
                Ok(1)
            }
            None => Ok(0),
        }
    }
}

/// A writer that keeps what it takes at the end of a lent `Vec`, at most [`PIECE`] bytes a write,
/// and whose writes fail by a rule.
///
/// A flush counts as a write. A failed call keeps nothing. A write also fails if the `Vec` gets no
/// memory, whatever the rule.
///
/// Lend it, as `&mut writer`, to count its writes afterwards.
#[derive(Drop)]
pub struct FailingWriter<'a, A: Allocator = Global> {
    held: &'a mut Vec<u8, A>,
    writes: Ledger,
}

impl<'a, A: Allocator> Model for FailingWriter<'a, A> {
    ghost Value = { Writing };

    ghost view = { λ w. record { held = w.held.now.items; writes = w.writes } };
}

impl<'a, A: Allocator> FailingWriter<'a, A> {
    /// A writer that appends to `held`. With [`Rule::Never`] it counts its writes, and none fails.
    pub fn new(held: &'a mut Vec<u8, A>, rule: Rule) -> FailingWriter<'a, A>
        ensures { result ≡ record { held = held.old.items; writes = before_calls rule } }
    {
        FailingWriter {
            held,
            writes: Ledger::new(rule),
        }
    }

    /// How many writes and flushes were made so far, failed ones included. The count stops at
    /// `u64::MAX`.
    pub fn writes(&self) -> u64
        ensures { result ≡ self.now.writes.calls }
    {
        self.writes.calls
    }

    /// Whether a write or a flush failed by the rule so far.
    pub fn has_failed(&self) -> bool
        ensures { result ≡ self.now.writes.has_failed }
    {
        self.writes.has_failed
    }
}

impl<A: Allocator> Write for FailingWriter<'_, A> {
    ghost contents = { λ w. Some w.held };

    fn write(&mut self, buf: &[u8]) -> io::Result<usize>
        ensures bound { WritesAtMost result buf.now }
        ensures bytes { WriteAppends (Some self.old.held) (Some self.new.held) result buf.now }
        ensures count { IfOk result (λ n. n ≡ min (length buf.now) PIECE) }
        ensures fails { fails_next self.old.writes ≡ true → IsErr result }
        ensures kind { IfErr result (λ e. error_kind e ≡ (if fails_next self.old.writes then ErrorKind.Other else ErrorKind.OutOfMemory)) }
        ensures counted { self.new.writes ≡ after_call self.old.writes }
    {
        count(&mut self.writes)?;
        let n = buf.len().min(PIECE);
        self.held.extend_from_slice(&buf[..n])?;
        Ok(n)
    }

    fn flush(&mut self) -> io::Result<()>
        ensures bytes { Keeps (Some self.old.held) (Some self.new.held) }
        ensures fails { IsErr result ↔ (fails_next self.old.writes ≡ true) }
        ensures kind { IfErr result (λ e. error_kind e ≡ ErrorKind.Other) }
        ensures counted { self.new.writes ≡ after_call self.old.writes }
    {
        count(&mut self.writes)
    }
}
