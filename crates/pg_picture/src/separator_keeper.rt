//! A separator that is kept in lent room, so that equal ones are copied.

ghost use Rattle.std.specs.Prelude.{◌≡◌, ◌≤◌, ◌+◌, Option, None, IfSome, IsSome, option_map, drop, length, string_bytes, take, true};
ghost use Rattle.std.specs.Str.{IsCharBoundary, is_utf8};
ghost use Rattle.pg_picture.specs.Inside.{Keeping};

use std::alloc::Allocator;
use std::marker::Model;
use std::str;

/// The room that the printers lend for the separator that they keep, in bytes.
pub const SEPARATOR_ROOM: usize = 8192;

/// Keeps the text of a separator, if it is no longer than the lent room.
#[derive(Debug, Drop)]
pub struct SeparatorKeeper<'k> {
    room: &'k mut [u8],
    len: Option<usize>,
}

impl<'k> Model for SeparatorKeeper<'k> {
    ghost Value = { Keeping };

    ghost view = { λ k. record { text = option_map (λ len. take len k.room.now) k.len; room = length k.room.now } };

    ghost invariant = { λ k. IfSome k.len (λ len. (len ≤ length k.room.now) × (is_utf8 (take len k.room.now) ≡ true)) };
}

impl<'k> SeparatorKeeper<'k> {
    /// Nothing is kept, and there is this room.
    #[inline(always)]
    pub fn new(room: &'k mut [u8]) -> SeparatorKeeper<'k>
        ensures text { result.text ≡ None }
        ensures room { result.room ≡ length room.old }
    {
        SeparatorKeeper { room, len: None }
    }

    /// The text that is kept.
    #[inline(always)]
    #[tactic(auto, using(crate::proofs::Rulesets::kept_texts))]
    pub fn text(&self) -> Option<&str>
        ensures { option_map (λ text. text.now) result ≡ self.now.text }
    {
        match self.len {
            // The bytes are those of a text. Testing that again would cost more than copying them.
            Some(len) => Some(unsafe { str::from_utf8_unchecked(&self.room[..len]) }),
            None => None,
        }
    }

    /// Keeps what a buffer has from a place on, which is the beginning of a character or the
    /// buffer's end. Nothing is kept if the room is too small for that, or the place is another
    /// one.
    pub fn keep<A: Allocator>(&mut self, buf: &String<A>, from: usize)
        ensures is { IfSome self.new.text (λ text. text ≡ drop from (string_bytes buf.now)) }
        ensures kept { IsCharBoundary (string_bytes buf.now) from → length (string_bytes buf.now) ≤ from + self.old.room → IsSome self.new.text }
        ensures room { self.new.room ≡ self.old.room }
    {
        self.len = match buf.as_str().get(from..) {
            Some(text) if text.len() <= self.room.len() => Some(copy_to_front(self.room, text)),
            _ => None,
        };
    }
}

fn copy_to_front(room: &mut [u8], text: &str) -> usize
    requires { length text.now ≤ length room.old }
    ensures len { result ≡ length text.now }
    ensures room { length room.new ≡ length room.old }
    ensures text { (take result room.new ≡ text.now) × (is_utf8 (take result room.new) ≡ true) }
{
    let len = text.len();
    room[..len].copy_from_slice(text.as_bytes());
    len
}
