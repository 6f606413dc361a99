ghost use Rattle.std.specs.Prelude.{◌≡◌, ◌↔◌, ◌<◌, ◌≤◌, [], Ok, IfOk, OnErr, IsErr, Some, length, take, min, vec_len, vec_capacity};
ghost use Rattle.dk_outside.specs.Counts.{Rises, CountsFailure};
ghost use Rattle.dk_outside.specs.Written.{Appends};

use crate::{NoMemory, Sink, SinkError};
use std::alloc::Global;

/// A sink in memory, with room for a fixed number of bytes, that tells what was written.
///
/// Its count of faults is above 0 only where it is full.
#[derive(Drop)]
pub struct MemSink {
    bytes: Vec<u8>,
    capacity: usize,
    faults: u64,
    ghost reserved: { capacity ≤ vec_capacity bytes },
    ghost within: { vec_len bytes ≤ capacity },
    ghost full: { 0 < faults → vec_len bytes ≡ capacity },
}

impl MemSink {
    ghost use Rattle.dk_outside.specs.MemSink.{mem_bytes, mem_capacity, sink_faults};

    /// An empty sink with room for `capacity` bytes.
    pub fn reserve(alloc: Global, capacity: usize) -> Result<MemSink, NoMemory>
        ensures bytes { IfOk result (λ s. mem_bytes s ≡ []) }
        ensures capacity { IfOk result (λ s. mem_capacity s ≡ capacity) }
        ensures faults { IfOk result (λ s. sink_faults s ≡ 0) }
    {
        let bytes = Vec::with_capacity(alloc, capacity)?;
        Ok(MemSink {
            bytes,
            capacity,
            faults: 0,
        })
    }

    /// What was written so far.
    pub fn bytes(&self) -> &[u8]
        ensures value { result.now ≡ mem_bytes self.now }
        ensures within { length (mem_bytes self.now) ≤ mem_capacity self.now }
        ensures full { 0 < sink_faults self.now → length (mem_bytes self.now) ≡ mem_capacity self.now }
    {
        &self.bytes
    }
}

impl Sink for MemSink {
    ghost use Rattle.dk_outside.specs.MemSink.{IsFull, mem_bytes, mem_capacity, mem_sink_view, room_left, sink_faults};

    ghost seen = { mem_sink_view };

    fn write(&mut self, piece: &[u8]) -> Result<usize, SinkError>
        // It fails exactly where there is no room, and else takes as much as there is room for.
        ensures full { IsErr result ↔ IsFull self.old }
        ensures taken { IfOk result (λ n. n ≡ min (length piece.now) (room_left self.old)) }
        ensures counted { CountsFailure result (sink_faults self.old) (sink_faults self.new) }

        ensures part { IfOk result (λ n. n ≤ length piece.now) }
        ensures appended { IfOk result
            (λ n. Appends (Some (mem_bytes self.old)) (Some (mem_bytes self.new)) (take n piece.now)) }
        ensures err { OnErr result (Some (mem_bytes self.new) ≡ Some (mem_bytes self.old)) }
        ensures cause { IsErr result → Rises (sink_faults self.old) (sink_faults self.new) }
        ensures none_taken { result ≡ Ok 0 → 0 < length piece.now
            → Rises (sink_faults self.old) (sink_faults self.new) }
        ensures stays { IfOk result (λ n. 0 < n → sink_faults self.new ≡ sink_faults self.old) }
        ensures faults { sink_faults self.old ≤ sink_faults self.new }
        ensures same { Some (mem_capacity self.new) ≡ Some (mem_capacity self.old) }
    {
        let room = self.capacity - self.bytes.len();
        if room == 0 {
            self.faults = self.faults.saturating_add(1);
            return Err(SinkError::Failed);
        }
        let n = piece.len().min(room);
        match self.bytes.extend_from_slice(&piece[..n]) {
            Ok(()) => Ok(n),
            Err(_) => unreachable!(),
        }
    }
}
