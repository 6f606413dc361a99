//! Nodes: the numbers by which the queues know threads. Nine stand together for each process, by slot.
ghost use Rattle.std.specs.Prelude.{◌≡◌, ◌+◌, ◌*◌, ◌%◌};
ghost use Rattle.dk_recount.specs.Stopping.{node_on};

use dk_config::MAX_THREADS;
use dk_threads::ThreadRow;

/// The node of a slot of a process.
#[inline(always)]
pub fn node_at(process: u8, slot: u8) -> u32
    ensures { result ≡ MAX_THREADS * process + slot }
{
    MAX_THREADS as u32 * process as u32 + slot as u32
}

/// The node of a row.
#[inline(always)]
pub fn node_on(row: ThreadRow) -> u32
    ensures { result ≡ node_on row }
{
    node_at(row.id.process, row.slot)
}

/// The slot of a node. Nine is a constant, so the machine multiplies where this divides.
#[inline(always)]
pub fn slot_of(node: u32) -> u8
    ensures { result ≡ node % MAX_THREADS }
{
    (node % MAX_THREADS as u32) as u8
}
