//! How soon what repeats is found.
ghost use Rattle.dk_cycle.specs.Seeking.{LooksLater, LooksLaterAtRun, LooksPast, LooksPastProcess, LooksPastRun, OwnIsFound, RunIsFound};

use dk_alone::{again_law, own_stand_law};
use dk_repeat::{forever_law, stand_on_law};

/// Where no cycle was found of a run, or of a process that keeps to itself, by a search that looked at each window up to a tick,
/// it stands at no tick s + k as at tick s where both 2 s + k and 3 k are at most that tick. Where no window begins, or what is
/// kept is young and isn't what is now, a search needn't look.
pub fn found_law()
    ensures run { RunIsFound }
    ensures own { OwnIsFound }
    ensures past { LooksPast }
    ensures later { LooksLater }
    ensures run_past { LooksPastRun }
    ensures process_past { LooksPastProcess }
    ensures run_later { LooksLaterAtRun }
{
    forever_law();
    stand_on_law();
    again_law();
    own_stand_law();
}
