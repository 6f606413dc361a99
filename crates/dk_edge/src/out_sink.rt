//! Output that is gathered.
ghost use Rattle.std.specs.Prelude.{◌≡◌, ◌<◌, ◌≤◌, Ok, [], length, take, IfErr, IfOk, IsErr, IsOk, OnOk, OnErr};
ghost use Rattle.dk_outside.specs.Counts.{Rises};
ghost use Rattle.dk_outside.specs.Written.{Appends};
ghost use Rattle.dk_edge.specs.Buffer.{HasRoom};
ghost use Rattle.dk_edge.specs.OutSink.{IsFrontOf, handed_to, held_back, out_view};

use crate::buffer::Buffer;
use dk_outside::{Sink, SinkError};
use std::alloc::Global;

/// Output that is gathered, and handed on in pieces of up to 65,536 bytes.
///
/// What is held back at the end is handed on by `finish`. It counts no fault of its own: its count is the output's.
#[derive(Drop)]
pub struct OutSink<S: Sink + Drop> {
    out: S,
    held: Buffer,
}

impl<S: Sink + Drop> OutSink<S> {
    /// A sink in front of `out`, which is given back where memory runs out. No later call has an answer for want of
    /// memory.
    pub fn reserve(alloc: Global, out: S) -> Result<Self, S>
        ensures out { IfOk result (λ s. handed_to s ≡ out) }
        ensures empty { IfOk result (λ s. held_back s ≡ []) }
        ensures back { IfErr result (λ given_back. given_back ≡ out) }
    {
        match Buffer::reserve(alloc) {
            Ok(held) => Ok(OutSink { out, held }),
            Err(_) => Err(out),
        }
    }

    /// Hands on all that is held back. What the output didn't take stays held back.
    fn hand_on(&mut self) -> Result<(), SinkError>
        ensures all { OnOk result (held_back self.new ≡ []) }
        ensures room { OnOk result (HasRoom self.new.held) }
        ensures written { (out_view S.seen self.new).written ≡ (out_view S.seen self.old).written }
        ensures cause { IsErr result → Rises (out_view S.seen self.old).faults (out_view S.seen self.new).faults }
        ensures stays { OnOk result ((out_view S.seen self.new).faults ≡ (out_view S.seen self.old).faults) }
        ensures faults { (out_view S.seen self.old).faults ≤ (out_view S.seen self.new).faults }
        ensures same { (out_view S.seen self.new).capacity ≡ (out_view S.seen self.old).capacity }
        ensures nothing { held_back self.old ≡ [] → handed_to self.new ≡ handed_to self.old }
        ensures nothing_fails { held_back self.old ≡ [] → IsOk result }
    {
        while !self.held.waiting().is_empty() {
            let n = self.out.write(self.held.waiting())?;
            if n == 0 {
                return Err(SinkError::Failed);
            }
            self.held.drop_first(n);
        }
        self.held.clear();
        Ok(())
    }

    /// Takes the first bytes of a piece, once what is held back was handed on where there is no room. Apart, so that a write
    /// that has room is short.
    #[inline(never)]
    fn write_part(&mut self, piece: &[u8]) -> Result<usize, SinkError>
        ensures fails { OnOk result ((out_view S.seen self.new).faults ≡ (out_view S.seen self.old).faults) }
        ensures part { IfOk result (λ n. n ≤ length piece.now) }
        ensures appended { IfOk result (λ n. Appends (out_view S.seen self.old).written (out_view S.seen self.new).written
            (take n piece.now)) }
        ensures err { OnErr result ((out_view S.seen self.new).written ≡ (out_view S.seen self.old).written) }
        ensures cause { IsErr result → Rises (out_view S.seen self.old).faults (out_view S.seen self.new).faults }
        ensures none_taken { result ≡ Ok 0 → 0 < length piece.now
            → Rises (out_view S.seen self.old).faults (out_view S.seen self.new).faults }
        ensures faults { (out_view S.seen self.old).faults ≤ (out_view S.seen self.new).faults }
        ensures same { (out_view S.seen self.new).capacity ≡ (out_view S.seen self.old).capacity }
    {
        if self.held.is_full() {
            self.hand_on()?;
        }
        Ok(self.held.take(piece))
    }

    /// Hands on what is still held back, and gives the output back. A failure may show only here.
    pub fn finish(self) -> (S, Result<(), SinkError>)
        // The output took all that was written, or the front of it where it failed.
        ensures all { OnOk result.1 ((S.seen result.0).written ≡ (out_view S.seen self).written) }
        ensures front { IsFrontOf (S.seen result.0).written (out_view S.seen self).written }
        ensures cause { IsErr result.1 → Rises (out_view S.seen self).faults (S.seen result.0).faults }
        ensures stays { OnOk result.1 ((S.seen result.0).faults ≡ (out_view S.seen self).faults) }
        ensures faults { (out_view S.seen self).faults ≤ (S.seen result.0).faults }
        ensures same { (S.seen result.0).capacity ≡ (out_view S.seen self).capacity }
        ensures nothing { held_back self ≡ [] → result.0 ≡ handed_to self }
        ensures nothing_fails { held_back self ≡ [] → IsOk result.1 }
    {
        let mut sink = self;
        let last = sink.hand_on();
        let OutSink { out, held: _ } = sink;
        (out, last)
    }
}

// Bytes for which there is no room are left for the next call.
impl<S: Sink + Drop> Sink for OutSink<S> {
    ghost seen = { out_view S.seen };

    #[inline(always)]
    fn write(&mut self, piece: &[u8]) -> Result<usize, SinkError>
        // A failure of the output is answered as one.
        ensures fails { OnOk result ((out_view S.seen self.new).faults ≡ (out_view S.seen self.old).faults) }

        ensures part { IfOk result (λ n. n ≤ length piece.now) }
        ensures appended { IfOk result (λ n. Appends (out_view S.seen self.old).written (out_view S.seen self.new).written
            (take n piece.now)) }
        ensures err { OnErr result ((out_view S.seen self.new).written ≡ (out_view S.seen self.old).written) }
        ensures cause { IsErr result → Rises (out_view S.seen self.old).faults (out_view S.seen self.new).faults }
        ensures none_taken { result ≡ Ok 0 → 0 < length piece.now
            → Rises (out_view S.seen self.old).faults (out_view S.seen self.new).faults }
        ensures stays { IfOk result (λ n. 0 < n → (out_view S.seen self.new).faults ≡ (out_view S.seen self.old).faults) }
        ensures faults { (out_view S.seen self.old).faults ≤ (out_view S.seen self.new).faults }
        ensures same { (out_view S.seen self.new).capacity ≡ (out_view S.seen self.old).capacity }
    {
        // Mostly there is room for the whole piece.
        if self.held.take_whole(piece) {
            return Ok(piece.len());
        }
        self.write_part(piece)
    }
}
