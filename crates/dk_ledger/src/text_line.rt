ghost use Rattle.std.specs.Prelude.{ℕ, List, ◌≡◌, ◌+◌, ◌<◌, ◌≤◌, ◌++◌, ◌∷◌, [], length, take, decimal};
ghost use Rattle.std.specs.Bool.{Decides};
ghost use Rattle.dk_outside.specs.Written.{Writes};

mod counting;

use crate::Name;
use dk_config::MAX_NAME_BYTES;
use dk_outside::{Sink, SinkError, write_all_to};
use itoa::write_digits;
use std::marker::Model;

/// A line of output in a buffer of its own, of at most 200 bytes, seen as its bytes so far.
#[derive(Drop)]
pub struct TextLine {
    bytes: [u8; 200],
    len: usize,
}

impl Model for TextLine {
    ghost use Rattle.std.specs.Prelude.{ℕ, List, take, ◌≤◌};

    ghost Value = { List ℕ };

    ghost view = { λ l. take l.len l.bytes };

    ghost invariant = { λ l. l.len ≤ 200 };
}

/// How many digits a number has in decimal.
#[inline(always)]
fn digits_of(n: u32) -> usize
    ensures { result ≡ length (decimal n) }
{
    if n < 10_000 {
        if n < 100 {
            if n < 10 { 1 } else { 2 }
        } else if n < 1_000 {
            3
        } else {
            4
        }
    } else if n < 1_000_000 {
        if n < 100_000 { 5 } else { 6 }
    } else if n < 10_000_000 {
        7
    } else if n < 100_000_000 {
        8
    } else if n < 1_000_000_000 {
        9
    } else {
        10
    }
}

impl TextLine {
    pub fn new() -> TextLine
        ensures { result ≡ [] }
    {
        TextLine {
            bytes: [0; 200],
            len: 0,
        }
    }

    /// How many bytes it has.
    #[inline(always)]
    pub(crate) fn len(&self) -> usize
        ensures { result ≡ length self.now }
    {
        self.len
    }

    /// Keeps so many bytes.
    #[inline(always)]
    pub(crate) fn truncate(&mut self, len: usize)
        requires { len ≤ length self.old }
        ensures { self.new ≡ take len self.old }
    {
        self.len = len;
    }

    /// Appends a text.
    #[inline(always)]
    pub fn word(&mut self, text: &str)
        requires { length self.old + length text.now ≤ 200 }
        ensures bytes { self.new ≡ self.old ++ text.now }
        ensures len { length self.new ≡ length self.old + length text.now }
    {
        let end = self.len + text.len();
        self.bytes[self.len..end].copy_from_slice(text.as_bytes());
        self.len = end;
    }

    /// Appends a name that isn't too long. Its whole block is copied, so there is room for that.
    #[inline(always)]
    pub(crate) fn name(&mut self, name: &Name)
        requires short { length name.now ≤ MAX_NAME_BYTES }
        requires room { length self.old + MAX_NAME_BYTES ≤ 200 }
        ensures bytes { self.new ≡ self.old ++ name.now }
        ensures len { length self.new ≡ length self.old + length name.now }
    {
        self.part(name.block(), name.len());
    }

    /// Appends the first bytes of these, so many.
    #[inline(always)]
    fn part(&mut self, bytes: &[u8], len: usize)
        requires part { len ≤ length bytes.now }
        requires room { length self.old + length bytes.now ≤ 200 }
        ensures bytes { self.new ≡ self.old ++ take len bytes.now }
        ensures len { length self.new ≡ length self.old + len }
    {
        let end = self.len + bytes.len();
        self.bytes[self.len..end].copy_from_slice(bytes);
        self.len += len;
    }

    /// Appends a number in decimal, which takes up to 10 bytes.
    #[inline(always)]
    pub fn number(&mut self, n: u32)
        requires { length self.old + 10 ≤ 200 }
        ensures bytes { self.new ≡ self.old ++ decimal n }
        ensures len { length self.new ≤ length self.old + 10 }
    {
        if n < 10 {
            self.digit(n)
        } else if n < 100 {
            self.two_digits(n)
        } else {
            self.digits(n)
        }
    }

    /// Appends a number of one digit.
    #[inline(always)]
    fn digit(&mut self, n: u32)
        requires room { length self.old + 1 ≤ 200 }
        requires small { n < 10 }
        ensures bytes { self.new ≡ self.old ++ decimal n }
        ensures len { length self.new ≡ length self.old + 1 }
    {
        let end = self.len;
        self.bytes[end] = b'0' + n as u8;
        self.len = end + 1;
    }

    /// Appends a number of two digits.
    #[inline(never)]
    fn two_digits(&mut self, n: u32)
        requires room { length self.old + 2 ≤ 200 }
        requires long { 10 ≤ n }
        requires short { n < 100 }
        ensures bytes { self.new ≡ self.old ++ decimal n }
        ensures len { length self.new ≡ length self.old + 2 }
    {
        self.digit(n / 10);
        self.digit(n % 10);
    }

    /// Appends a number, written into its place in the buffer.
    #[inline(never)]
    fn digits(&mut self, n: u32)
        requires { length self.old + 10 ≤ 200 }
        ensures bytes { self.new ≡ self.old ++ decimal n }
        ensures len { length self.new ≤ length self.old + 10 }
    {
        let end = self.len + digits_of(n);
        write_digits(n as u64, &mut self.bytes, end);
        self.len = end;
    }

    /// Appends a number in decimal, which takes up to 20 bytes.
    pub fn long_number(&mut self, n: u64)
        requires { length self.old + 20 ≤ 200 }
        ensures bytes { self.new ≡ self.old ++ decimal n }
        ensures len { length self.new ≤ length self.old + 20 }
    {
        let mut digits = itoa::Buffer::new();
        self.word(digits.format(n));
    }

    /// Its bytes so far.
    #[inline(always)]
    pub(crate) fn as_bytes(&self) -> &[u8]
        ensures { result.now ≡ self.now }
    {
        &self.bytes[..self.len]
    }

    /// Whether these are its bytes.
    pub fn is(&self, bytes: &[u8]) -> bool
        ensures { Decides result (bytes.now ≡ self.now) }
    {
        self.as_bytes() == bytes
    }

    /// Ends the line and writes it in one piece.
    pub fn write_to<S: Sink>(mut self, sink: &mut S) -> Result<(), SinkError>
        requires { length self < 200 }
        ensures { Writes (S.seen sink.old) (S.seen sink.new) result (self ++ 10 ∷ []) }
    {
        self.word("\n");
        write_all_to(sink, self.as_bytes())
    }
}
