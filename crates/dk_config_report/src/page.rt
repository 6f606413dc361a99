//! A text that is ready to be written.
ghost use Rattle.std.specs.Prelude.{ℕ, List, ◌≡◌, ◌++◌, OnOk, string_bytes};
ghost use Rattle.dk_outside.specs.Written.{Writes};

use dk_outside::{Sink, SinkError, write_all_to};
use std::alloc::AllocError;
use std::marker::Model;

/// Adds a line to a text.
pub fn push_line(text: &mut String, line: String) -> Result<(), AllocError>
    ensures { OnOk result (string_bytes text.new ≡ string_bytes text.old ++ string_bytes line) }
{
    text.push_str(line.as_str())
}

/// A whole text, ready to be written. It is seen as its bytes.
#[derive(Drop)]
pub struct Page {
    text: String,
}

impl Model for Page {
    ghost use Rattle.std.specs.Prelude.{ℕ, List, string_bytes};

    ghost Value = { List ℕ };

    ghost view = { λ p. string_bytes p.text };
}

impl Page {
    /// A page of this text.
    pub fn new(text: String) -> Page
        ensures { result ≡ string_bytes text }
    {
        Page { text }
    }

    /// Its bytes.
    pub fn as_bytes(&self) -> &[u8]
        ensures { result.now ≡ self.now }
    {
        self.text.as_str().as_bytes()
    }

    /// Writes it in one piece. It needs no memory. The refusal comes only where the sink failed, and then a prefix was
    /// written.
    pub fn write<S: Sink>(&self, sink: &mut S) -> Result<(), SinkError>
        ensures { Writes (S.seen sink.old) (S.seen sink.new) result self.now }
    {
        write_all_to(sink, self.as_bytes())
    }
}
