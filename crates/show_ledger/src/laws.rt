//! What is told of the counts and of the holds.
ghost use Rattle.show_ledger.specs.Laws.{AreAllWindows, IsEachExtreme};

/// All tenths of a main together are its windows that have ended, as `WindowReport` tells them.
pub fn tenths_law()
    ensures { AreAllWindows }
{}

/// The extreme one of some holds is among them, none is more extreme, and those before it are less so; and there is none
/// only where there are no holds.
pub fn extreme_law()
    ensures { IsEachExtreme }
{}
