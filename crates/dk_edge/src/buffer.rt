//! Bytes that wait to be handed on.
ghost use Rattle.std.specs.Prelude.{◌≡◌, ◌+◌, ◌<◌, ◌≤◌, ◌++◌, [], false, true, IfOk, drop, length, take, vec_len};

use std::alloc::{AllocError, Global};

/// The most bytes that wait.
const ROOM: usize = 65_536;

/// Bytes that wait to be handed on, in a block that is taken once: those from `start` up to before `end`.
#[derive(Drop)]
pub(crate) struct Buffer {
    bytes: Vec<u8>,
    start: usize,
    end: usize,
    ghost whole: { vec_len bytes ≡ 65536 },
    ghost within: { end ≤ 65536 },
    ghost begun: { start ≤ end },
}

impl Buffer {
    ghost use Rattle.dk_edge.specs.Buffer.{HasRoom, waiting_in};

    pub(crate) fn reserve(alloc: Global) -> Result<Buffer, AllocError>
        ensures { IfOk result (λ b. waiting_in b ≡ []) }
    {
        let mut bytes = Vec::with_capacity(alloc, ROOM)?;
        bytes.resize(ROOM, 0)?;
        Ok(Buffer {
            bytes,
            start: 0,
            end: 0,
        })
    }

    /// What waits.
    pub(crate) fn waiting(&self) -> &[u8]
        ensures { result.now ≡ waiting_in self.now }
    {
        &self.bytes[self.start..self.end]
    }

    pub(crate) fn is_full(&self) -> bool
        ensures { result ≡ false → HasRoom self.now }
    {
        self.end == ROOM
    }

    /// Takes a piece for which there is room.
    #[inline(always)]
    fn put(&mut self, piece: &[u8])
        requires { self.old.end + length piece.now ≤ 65536 }
        ensures { waiting_in self.new ≡ waiting_in self.old ++ piece.now }
    {
        let end = self.end + piece.len();
        self.bytes[self.end..end].copy_from_slice(piece);
        self.end = end;
    }

    /// Takes a piece whole, where there is room for it.
    #[inline(always)]
    pub(crate) fn take_whole(&mut self, piece: &[u8]) -> bool
        ensures taken { result ≡ true → waiting_in self.new ≡ waiting_in self.old ++ piece.now }
        ensures left { result ≡ false → self.new ≡ self.old }
    {
        if piece.len() > ROOM - self.end {
            return false;
        }
        self.put(piece);
        true
    }

    /// Takes the first bytes of a piece, as many as there is room for.
    pub(crate) fn take(&mut self, piece: &[u8]) -> usize
        ensures part { result ≤ length piece.now }
        ensures some { HasRoom self.old → 0 < length piece.now → 0 < result }
        ensures taken { waiting_in self.new ≡ waiting_in self.old ++ take result piece.now }
    {
        let n = piece.len().min(ROOM - self.end);
        self.put(&piece[..n]);
        n
    }

    /// The first bytes wait no more.
    pub(crate) fn drop_first(&mut self, n: usize)
        requires { n ≤ length (waiting_in self.old) }
        ensures { waiting_in self.new ≡ drop n (waiting_in self.old) }
    {
        self.start += n;
    }

    /// Nothing waits any more, and there is all room.
    pub(crate) fn clear(&mut self)
        ensures rest { waiting_in self.new ≡ [] }
        ensures room { HasRoom self.new }
    {
        self.start = 0;
        self.end = 0;
    }
}
