ghost use Rattle.dk_bound.specs.Laws.{Always};
ghost use Rattle.dk_bound.specs.Moves.{AtEachEntry};
ghost use Rattle.dk_bound.specs.Callers.{CallersRun, CallersStand, HoldsNest};

/// A thread that is in a call has a row, isn't closed, and has something left of its share or asks for slack.
/// Whoever has an event hasn't been stopped.
pub fn callers_law()
    ensures stand { Always CallersStand }
    ensures run { AtEachEntry CallersRun }
{}

/// A thread has less time left of an inner hold than of an outer one, and a tick of the innermost.
#[tactic(auto, using(crate::proofs::Callers::holds_nest))]
pub fn nesting_law()
    ensures { Always HoldsNest }
{}
