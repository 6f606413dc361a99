ghost use Rattle.std.specs.Prelude.{◌≡◌, ◌↔◌, ◌⊎◌, ◌<◌, ◌≤◌, Ok, Some, IfOk, OnErr, IsErr, length, take, min};
ghost use Rattle.dk_outside.specs.Counts.{Rises, CountsFailure, raised};
ghost use Rattle.dk_outside.specs.Written.{Appends};

use crate::failing::is_to_fail;
use crate::{MemSink, Sink, SinkError};

/// A sink in memory, of which some writes fail by their number. It has counts of its own.
#[derive(Drop)]
pub struct FailingSink {
    inner: MemSink,
    fails: Vec<u32>,
    writes: u64,
    faults: u64,
}

impl FailingSink {
    ghost use Rattle.dk_outside.specs.FailingSink.{inner_sink, failing_writes, writes_so_far, failing_faults};

    /// The sink `inner`, of which the writes with the numbers `fails`, counted from 1, fail.
    pub fn new(inner: MemSink, fails: Vec<u32>) -> FailingSink
        ensures inner { inner_sink result ≡ inner }
        ensures fails { failing_writes result ≡ fails.items }
        ensures writes { writes_so_far result ≡ 0 }
        ensures faults { failing_faults result ≡ 0 }
    {
        FailingSink {
            inner,
            fails,
            writes: 0,
            faults: 0,
        }
    }

    /// What takes the writes that don't fail.
    pub fn inner(&self) -> &MemSink
        ensures { result.now ≡ inner_sink self.now }
    {
        &self.inner
    }
}

impl Sink for FailingSink {
    ghost use Rattle.dk_outside.specs.MemSink.{IsFull, mem_capacity, room_left};
    ghost use Rattle.dk_outside.specs.FailingSink.{IsToFail, inner_bytes, inner_sink, failing_writes, writes_so_far, failing_faults, failing_sink_view};

    ghost seen = { failing_sink_view };

    fn write(&mut self, piece: &[u8]) -> Result<usize, SinkError>
        // It fails exactly where its number is in the list or the inner sink has no room.
        ensures failed { IsErr result ↔ (IsToFail self.old ⊎ IsFull (inner_sink self.old)) }
        ensures taken { IfOk result (λ n. n ≡ min (length piece.now) (room_left (inner_sink self.old))) }
        ensures writes { writes_so_far self.new ≡ raised (writes_so_far self.old) }
        ensures fails { failing_writes self.new ≡ failing_writes self.old }
        ensures counted { CountsFailure result (failing_faults self.old) (failing_faults self.new) }

        ensures part { IfOk result (λ n. n ≤ length piece.now) }
        ensures appended { IfOk result
            (λ n. Appends (Some (inner_bytes self.old)) (Some (inner_bytes self.new)) (take n piece.now)) }
        ensures err { OnErr result (Some (inner_bytes self.new) ≡ Some (inner_bytes self.old)) }
        ensures cause { IsErr result → Rises (failing_faults self.old) (failing_faults self.new) }
        ensures none_taken { result ≡ Ok 0 → 0 < length piece.now
            → Rises (failing_faults self.old) (failing_faults self.new) }
        ensures stays { IfOk result (λ n. 0 < n → failing_faults self.new ≡ failing_faults self.old) }
        ensures faults { failing_faults self.old ≤ failing_faults self.new }
        ensures same { Some (mem_capacity (inner_sink self.new)) ≡ Some (mem_capacity (inner_sink self.old)) }
    {
        self.writes = self.writes.saturating_add(1);
        if is_to_fail(&self.fails, self.writes) {
            self.faults = self.faults.saturating_add(1);
            return Err(SinkError::Failed);
        }
        match self.inner.write(piece) {
            Ok(taken) => Ok(taken),
            Err(error) => {
                self.faults = self.faults.saturating_add(1);
                Err(error)
            }
        }
    }
}
