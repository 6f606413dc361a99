ghost use Rattle.dk_bound.specs.Lasting.{AskersLast};
ghost use Rattle.dk_bound.specs.Moves.{AtEachEntry};

/// Who asks for slack at the end of a tick has not been stopped.
#[tactic(auto, using(crate::proofs::LastingAskers::askers_last))]
pub fn lasting_law()
    ensures { AtEachEntry AskersLast }
{}
