//! Buffers of bytes.

ghost use Rattle.std.specs.Prelude.{◌≡◌, ◌≤◌, ◌<◌, ◌+◌, ◌++◌, ℕ, List, [], drop, encode_utf8, length, min, take, IfOk, OnErr};
ghost use Rattle.std.specs.Io.KnownBytes.{Consumes, IsAtEnd, Keeps};

use std::io;
use std::io::Read;

const SIZE: usize = 8192;

/// A buffer: the bytes from `start` to `end`, and room behind them.
#[derive(Drop)]
pub(crate) struct Window {
    bytes: [u8; SIZE],
    start: usize,
    end: usize,
    ghost ordered: { start ≤ end },
    ghost within: { end ≤ 8192 },
}

impl Window {
    ghost use Rattle.ruled_io.specs.Formats.{items, room};

    pub(crate) fn new() -> Window
        ensures { items result ≡ [] }
    {
        Window {
            bytes: [0; SIZE],
            start: 0,
            end: 0,
        }
    }

    pub(crate) fn as_slice(&self) -> &[u8]
        ensures value { result.now ≡ items self.now }
        ensures fits { length result.now ≤ 8192 }
    {
        &self.bytes[self.start..self.end]
    }

    /// How many bytes find room behind those that it holds.
    pub(crate) fn room(&self) -> usize
        ensures { result ≡ room self.now }
    {
        SIZE - self.end
    }

    /// Makes it empty.
    pub(crate) fn clear(&mut self)
        ensures items { items self.new ≡ [] }
        ensures room { room self.new ≡ 8192 }
    {
        self.start = 0;
        self.end = 0;
    }

    /// Takes so many bytes off its front.
    pub(crate) fn consume(&mut self, count: usize)
        requires { count ≤ length (items self.old) }
        ensures { items self.new ≡ drop count (items self.old) }
    {
        self.start += count;
    }

    /// Moves bytes off its front into a slice, as many as it has room for, and returns how many.
    pub(crate) fn give(&mut self, buf: &mut [u8]) -> usize
        ensures count { result ≡ min (length buf.new) (length (items self.old)) }
        ensures bytes { items self.old ≡ take result buf.new ++ items self.new }
    {
        let held = self.as_slice();
        let count = buf.len().min(held.len());
        buf[..count].copy_from_slice(&held[..count]);
        self.consume(count);
        count
    }

    /// Appends a character in UTF-8.
    pub(crate) fn push(&mut self, c: char)
        requires { 4 ≤ room self.old }
        ensures items { items self.new ≡ items self.old ++ encode_utf8 c }
        ensures room { room self.new + length (encode_utf8 c) ≡ room self.old }
    {
        let mut bytes = [0u8; 4];
        let bytes = c.encode_utf8(&mut bytes).as_bytes();
        let end = self.end + bytes.len();
        self.bytes[self.end..end].copy_from_slice(bytes);
        self.end = end;
    }

    // Moves its bytes to the front of the buffer.
    fn move_to_front(&mut self)
        ensures items { items self.new ≡ items self.old }
        ensures room { room self.new + length (items self.new) ≡ 8192 }
    {
        let (start, end) = (self.start, self.end);
        self.bytes.copy_within(start..end, 0);
        self.start = 0;
        self.end = end - start;
    }

    /// Reads once behind its bytes, which are fewer than find room, and returns how many came.
    pub(crate) fn refill<R: Read>(&mut self, input: &mut R) -> io::Result<usize>
        requires { length (items self.old) < 8192 }
        ensures ok { IfOk result (λ n. (more : List ℕ) × (length more ≡ n) × (items self.new ≡ items self.old ++ more) × Consumes (R.remaining input.old) (R.remaining input.new) more) }
        ensures end { IfOk result (λ n. n ≡ 0 → IsAtEnd (R.remaining input.new)) }
        ensures err { OnErr result ((items self.new ≡ items self.old) × Keeps (R.remaining input.old) (R.remaining input.new)) }
    {
        self.move_to_front();
        let end = self.end;
        let count = input.read(&mut self.bytes[end..])?;
        self.end = end + count;
        Ok(count)
    }
}
