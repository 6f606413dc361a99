//! The top call over a depot and a sink in memory.
ghost use Rattle.std.specs.Prelude.{◌≡◌, ◌≢◌, ◌^◌, ◌<◌, Some, Err, map, string_bytes};
ghost use Rattle.dk_outside.specs.MemDepot.{mem_depot_view, mem_files, mem_faults, mem_given};
ghost use Rattle.dk_outside.specs.MemSink.{mem_sink_view, sink_faults};
ghost use Rattle.dk_outside.specs.Counts.{Rises};
ghost use Rattle.dk_inputs.specs.Follows.{Goes};
ghost use Rattle.dk_inputs.specs.Jobs.{job_for_words};
ghost use Rattle.dk_session.specs.Leaves.{Leaves};
ghost use Rattle.dk_session.specs.Headline.{GivesExactly, StandsInOutput};
ghost use Rattle.dk_session.specs.Complete.{HasDoneOutput, HasRoom, IsDoneOrNoMemory};

use crate::{Status, deosk};
use dk_command::Refusal;
use dk_outside::{MAX_COUNT, MemDepot, MemSink};
use std::alloc::Global;

/// `deosk` over files and output in memory.
pub fn deosk_in_memory(
    alloc: Global,
    words: &[String],
    depot: &mut MemDepot,
    sink: &mut MemSink,
) -> Status
    requires { mem_given depot.old < 2 ^ 62 }

    ensures output { Leaves mem_sink_view (StandsInOutput (Some (mem_files depot.old)) (map string_bytes words.now))
        sink.old sink.new result }
    // A read is answered as failed only where the count of faults rose, and with any other answer none failed.
    ensures depot_fault { result ≡ Status.DepotFault → Rises (mem_faults depot.old) (mem_faults depot.new) }
    ensures no_read_failed { result ≢ Status.DepotFault → mem_faults depot.new ≡ mem_faults depot.old }
    // What the caller goes on with.
    ensures goes_on { Goes (mem_depot_view depot.old) (mem_depot_view depot.new) }
    ensures given { GivesExactly (Some (mem_files depot.old)) (map string_bytes words.now) result
        (mem_given depot.old) (mem_given depot.new) }
    // Where the files that are asked for are there, no read fails.
    ensures held { (job_for_words (map string_bytes words.now) (mem_files depot.old)).found ≢ Err Refusal.Depot
        → mem_faults depot.new ≡ mem_faults depot.old }
    // Where the sink is empty and has more room than the output has bytes, no write fails.
    ensures room { HasRoom (map string_bytes words.now) (mem_files depot.old) sink.old
        → sink_faults sink.new ≡ sink_faults sink.old }
    // So a command whose output is done is done, or memory runs out.
    ensures complete { mem_faults depot.old < MAX_COUNT
        → HasDoneOutput (map string_bytes words.now) (mem_files depot.old)
        → HasRoom (map string_bytes words.now) (mem_files depot.old) sink.old → IsDoneOrNoMemory result }
{
    // What a sink in memory tells of its bytes: it fails only where it is full.
    let _before = sink.bytes();
    let status = deosk(alloc, words, depot, sink);
    let _after = sink.bytes();
    status
}
