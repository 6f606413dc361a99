//! What is told of needs of all ticks.
ghost use Rattle.std.specs.Prelude.{ℕ};
ghost use Rattle.dk_loader.specs.Workload.{Workload};
ghost use Rattle.dk_repeat_search.specs.Always.{IsAlways};
ghost use Rattle.dk_repeat_search.specs.declared.always.Always.{Always};
ghost use Rattle.dk_needs_always.specs.Lending.{FirstTicksTell, HadWhereKept};
ghost use Rattle.dk_needs_always.specs.Sound.{IsSound};

use dk_allotment::allotted_in_law;
use dk_repeat::span_law;
use dk_slack_promise::allotted_lends_law;
use dk_world::audited_law;

/// A row that asks whether a process waits in each of its windows is told met only where its main does, in every run in
/// which the process has this program, whatever programs the others have; and missed only where in none of these runs it
/// waits in the window that begins at the tick that is told, and in each of them in each window before. A row that asks
/// whether the run repeats is told met only where the run of these programs does, for ever, from the tick on and after so
/// many ticks as are told.
pub fn always_law()
    ensures { (w : Workload) (ticks : ℕ) (a : Always) → IsAlways w ticks a → IsSound w a }
{}

/// A run that stands again keeps to allotments of slack for ever, where no process takes more in a window until it stands
/// again.
pub fn first_ticks_law()
    ensures { FirstTicksTell }
{
    span_law();
}

/// Where no process ever takes more, and the allotments hold together, each that goes on asking gets its own in each window,
/// and has had it once so many ticks of the window are over as are enough.
pub fn had_law()
    ensures { HadWhereKept }
{
    audited_law();
    allotted_lends_law();
    allotted_in_law();
}
