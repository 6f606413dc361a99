//! The name of a process, of which a line copies a block of one length.
ghost use Rattle.std.specs.Prelude.{◌≡◌, ◌≤◌, length, take};

use dk_config::{MAX_NAME_BYTES, Text};
use std::marker::Model;

/// The name of a process. It is seen as the list of its bytes.
#[derive(Drop)]
pub struct Name {
    text: Text,
    /// The bytes of a name that isn't too long, and zeros behind them.
    block: [u8; MAX_NAME_BYTES],
}

impl Model for Name {
    ghost use Rattle.std.specs.Prelude.{ℕ, List, ◌≡◌, ◌≤◌, length, take};
    ghost use Rattle.dk_config.specs.declared.TheConstants.{MAX_NAME_BYTES};

    ghost Value = { List ℕ };

    ghost view = { λ n. n.text };

    ghost invariant = { λ n. length n.text ≤ MAX_NAME_BYTES → take (length n.text) n.block ≡ n.text };
}

/// The bytes with zeros behind them, where they aren't too many.
fn block_of(bytes: &[u8]) -> [u8; MAX_NAME_BYTES]
    ensures { length bytes.now ≤ MAX_NAME_BYTES → take (length bytes.now) result ≡ bytes.now }
{
    let mut block = [0; MAX_NAME_BYTES];
    if bytes.len() <= MAX_NAME_BYTES {
        block[..bytes.len()].copy_from_slice(bytes);
    }
    block
}

impl Name {
    /// Needs no memory.
    pub fn new(text: Text) -> Name
        ensures { result ≡ text }
    {
        let block = block_of(text.as_str().as_bytes());
        Name { text, block }
    }

    /// The name, lent.
    pub fn as_str(&self) -> &str
        ensures { result.now ≡ self.now }
    {
        self.text.as_str()
    }

    /// How many bytes it has.
    #[inline(always)]
    pub(crate) fn len(&self) -> usize
        ensures { result ≡ length self.now }
    {
        self.text.as_str().len()
    }

    /// What begins with the bytes of a name that isn't too long.
    #[inline(always)]
    pub(crate) fn block(&self) -> &[u8; MAX_NAME_BYTES]
        ensures { length self.now ≤ MAX_NAME_BYTES → take (length self.now) result.now ≡ self.now }
    {
        &self.block
    }
}
