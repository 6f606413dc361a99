//! The search for the least start of a cycle of a run.
ghost use Rattle.std.specs.Prelude.{ℕ, List, ◌≡◌, ◌+◌, ◌<◌, ◌≤◌, true, false};
ghost use Rattle.dk_config.specs.Configuration.{Configuration};
ghost use Rattle.dk_config.specs.declared.TheConstants.{MAX_TICKS};
ghost use Rattle.dk_cycle.specs.Run.{GoesOn, IsRunSearch};

use crate::run::{RunSearch, goes_on};
use dk_config::MAX_TICKS;
use dk_repeat::{forever_law, kept_law, reads_law};
use dk_trace::Entry;

/// The search for the least start of a cycle of a run: over each tick, and the one that is as much later as the cycle is long.
#[derive(Clone, Copy)]
pub struct StartSearch {
    /// The longest period.
    pub longest: u32,
    /// From this tick on no thread was made or stopped up to the later tick, and the tick wasn't read.
    pub quiet: u32,
}

impl StartSearch {
    ghost use Rattle.std.specs.Prelude.{ℕ, List};
    ghost use Rattle.dk_config.specs.Configuration.{Configuration};
    ghost use Rattle.dk_cycle.specs.Run.{IsRunSearch};
    ghost use Rattle.dk_cycle.specs.Start.{FollowsStart, IsStartSearch, Opens, Shuts};

    /// Before the first tick of the run of this search.
    pub fn new(search: &RunSearch) -> StartSearch
        ensures { (c : Configuration) (programs : List (List ℕ)) (tick : ℕ) → IsRunSearch c programs tick search.now
            → IsStartSearch c programs 0 result }
    {
        StartSearch {
            longest: search.longest,
            quiet: 0,
        }
    }

    /// Looks at the entry of the later tick, in which a thread of this process read the tick, or nobody did.
    pub fn follow(&mut self, tick: u32, entry: &Entry, reader: Option<u8>)
        requires { tick < MAX_TICKS }
        ensures { FollowsStart self.old tick entry.now reader self.new }
    {
        kept_law();
        reads_law();
        if !goes_on(true, entry, reader) {
            self.quiet = tick + 1;
        }
    }

    /// Whether all windows begin at both ticks, no thread was made or stopped between, and the tick wasn't read.
    pub fn is_open(&self, early: u32, late: u32) -> bool
        requires { 0 < self.now.longest }
        ensures opens { result ≡ true → Opens self.now early late }
        ensures shuts { result ≡ false → Shuts self.now early late }
    {
        forever_law();
        if early < self.quiet {
            return false;
        }
        if early % self.longest != 0 {
            return false;
        }
        late % self.longest == 0
    }
}
