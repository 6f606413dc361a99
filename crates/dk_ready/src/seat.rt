ghost use Rattle.std.specs.Prelude.{◌≡◌};
ghost use Rattle.dk_ready.specs.Roster.{vacant};

use dk_overhead::Job;
use dk_trace::ThreadId;

/// Who sits on a node, at which level, and its job in the present window of that level.
#[derive(Clone, Copy)]
pub struct Seat {
    pub thread: ThreadId,
    pub level: u8,
    pub job: Job,
}

/// Nobody's seat.
#[inline(always)]
pub fn vacant() -> Seat
    ensures { result ≡ vacant }
{
    Seat {
        thread: ThreadId {
            process: 0,
            serial: 0,
        },
        level: 0,
        job: Job::released(0),
    }
}
