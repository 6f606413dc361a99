ghost use Rattle.std.specs.Prelude.{◌≡◌, ◌+◌, ◌≤◌, ◌++◌, [], length, decimal};
ghost use Rattle.dk_outside.specs.Written.{Writes};

use dk_outside::{Sink, SinkError, write_all_to};
use std::marker::Model;

/// Text in a buffer of its own, of at most 600 bytes, seen as its bytes so far.
#[derive(Drop)]
pub(crate) struct Line {
    bytes: [u8; 600],
    len: usize,
}

impl Model for Line {
    ghost use Rattle.std.specs.Prelude.{ℕ, List, take, ◌≤◌};

    ghost Value = { List ℕ };

    ghost view = { λ l. take l.len l.bytes };

    ghost invariant = { λ l. l.len ≤ 600 };
}

impl Line {
    pub(crate) fn new() -> Line
        ensures { result ≡ [] }
    {
        Line {
            bytes: [0; 600],
            len: 0,
        }
    }

    /// Appends a text.
    pub(crate) fn word(&mut self, text: &str)
        requires { length self.old + length text.now ≤ 600 }
        ensures bytes { self.new ≡ self.old ++ text.now }
        ensures len { length self.new ≡ length self.old + length text.now }
    {
        let end = self.len + text.len();
        self.bytes[self.len..end].copy_from_slice(text.as_bytes());
        self.len = end;
    }

    /// Appends a number in decimal, which takes up to 20 bytes.
    pub(crate) fn number(&mut self, n: u64)
        requires { length self.old + 20 ≤ 600 }
        ensures bytes { self.new ≡ self.old ++ decimal n }
        ensures len { length self.new ≤ length self.old + 20 }
    {
        let mut digits = itoa::Buffer::new();
        self.word(digits.format(n));
    }

    /// Writes it in one piece.
    pub(crate) fn write_to<S: Sink>(&self, sink: &mut S) -> Result<(), SinkError>
        ensures { Writes (S.seen sink.old) (S.seen sink.new) result self.now }
    {
        write_all_to(sink, &self.bytes[..self.len])
    }
}
