//! The bytes of a program.
ghost use Rattle.std.specs.Prelude.{◌≡◌, ℕ, List};

use std::marker::Model;

/// The bytes of a program. It is seen as their list. No call needs memory.
#[derive(Drop)]
pub struct Code {
    bytes: Vec<u8>,
}

impl Model for Code {
    ghost Value = { List ℕ };

    ghost view = { λ c. c.bytes.items };
}

impl Code {
    /// Needs no memory.
    pub fn new(bytes: Vec<u8>) -> Code
        ensures { result ≡ bytes.items }
    {
        Code { bytes }
    }

    /// The bytes, lent.
    pub fn bytes(&self) -> &[u8]
        ensures { result.now ≡ self.now }
    {
        self.bytes.as_slice()
    }

    /// The bytes themselves.
    pub fn into_bytes(self) -> Vec<u8>
        ensures { result.items ≡ self }
    {
        self.bytes
    }
}
