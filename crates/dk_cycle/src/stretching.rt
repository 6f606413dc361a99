//! Ticks that change no search of a run.
ghost use Rattle.dk_cycle.specs.Stretching.{SearchesStay, StartsStay};

use dk_repeat::{kept_law, reads_law};

/// Where nobody is at a kernel call in some ticks and nothing happens in them, no thread is made or stopped and the tick isn't
/// read: a search before them is one after them.
pub fn stretch_law()
    ensures run { SearchesStay }
    ensures start { StartsStay }
{
    kept_law();
    reads_law();
}
