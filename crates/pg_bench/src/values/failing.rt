//! What the cases are made with (`pg_testing`): memory that is refused, streams that fail, an iterator that
//! knows little of itself.

use crate::values::Fact;
use pg_testing::ledger::Rule;
use pg_testing::refusing::Refusing;
use pg_testing::report::Report;
use pg_testing::streams::{EndlessReader, FailingReader, FailingWriter};
use pg_testing::unhinted::Repeated;
use std::alloc::{Allocator, Global};
use std::io::{Read, Write};

// Whether a request for memory is granted.
fn is_granted<A: Allocator>(memory: &Refusing<A>) -> bool {
    Vec::<u8, &Refusing<A>>::with_capacity(memory, 1).is_ok()
}

// Asks three times for memory, and returns which requests were granted.
fn asked<A: Allocator>(memory: &Refusing<A>) -> [bool; 3] {
    let first = is_granted(memory);
    let second = is_granted(memory);
    let third = is_granted(memory);
    [first, second, third]
}

fn memory_is_refused_where_it_is_to(alloc: Global, report: &mut Report) {
    let mut fact = Fact::new(report, "memory is refused where it is to");
    let later = Refusing::from_on(alloc, 1);
    fact.same(asked(&later), [true, false, false]);
    fact.same((later.requests(), later.has_refused()), (3, true));
    let one = Refusing::only(alloc, 1);
    fact.same(asked(&one), [true, false, true]);
    fact.same((one.requests(), one.has_refused()), (3, true));
    let fourth = Refusing::only(alloc, 3);
    fact.same(asked(&fourth), [true, true, true]);
    fact.same((fourth.requests(), fourth.has_refused()), (3, false));
}

fn a_reader_fails_where_it_is_to(alloc: Global, report: &mut Report) {
    let mut fact = Fact::new(report, "a reader fails where it is to");
    let mut reader = FailingReader::new(b"hello\n", Rule::Only(1));
    let mut bytes = Vec::new(alloc);
    fact.holds(reader.read_to_end(&mut bytes).is_err());
    fact.same(bytes.as_slice(), b"hel".as_slice());
    fact.same((reader.reads(), reader.has_failed()), (2, true));
    fact.holds(reader.read_to_end(&mut bytes).is_ok());
    fact.same(bytes.as_slice(), b"hello\n".as_slice());
}

fn a_writer_fails_where_it_is_to(alloc: Global, report: &mut Report) {
    let mut fact = Fact::new(report, "a writer fails where it is to");
    let mut held = Vec::new(alloc);
    let mut writer = FailingWriter::new(&mut held, Rule::FromOn(2));
    fact.holds(writer.write_all(b"hello\n").is_ok());
    fact.holds(writer.flush().is_err());
    fact.same((writer.writes(), writer.has_failed()), (3, true));
    fact.same(held.as_slice(), b"hello\n".as_slice());
}

fn a_reader_without_an_end_gives_line_feeds(alloc: Global, report: &mut Report) {
    let mut fact = Fact::new(report, "a reader without an end gives line feeds");
    let mut block = [0u8; 2];
    fact.same(EndlessReader.read(&mut block).ok(), Some(1));
    fact.same(block, *b"\n\0");
}

fn an_item_is_repeated_without_a_hint(alloc: Global, report: &mut Report) {
    let mut fact = Fact::new(report, "an item is repeated without a hint");
    let mut twice = Repeated::new('x', 2);
    fact.same(twice.size_hint(), (0, None));
    fact.same(
        [twice.next(), twice.next(), twice.next()],
        [Some('x'), Some('x'), None],
    );
}

/// All facts of this file.
pub(crate) fn check_failing(alloc: Global, report: &mut Report) {
    memory_is_refused_where_it_is_to(alloc, report);
    a_reader_fails_where_it_is_to(alloc, report);
    a_writer_fails_where_it_is_to(alloc, report);
    a_reader_without_an_end_gives_line_feeds(alloc, report);
    an_item_is_repeated_without_a_hint(alloc, report);
}
