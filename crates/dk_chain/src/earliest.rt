//! How soon in its window a main can have its ticks.
ghost use Rattle.dk_bound.specs.Laws.{Always};
ghost use Rattle.dk_chain.specs.Least.{ReactsNoSooner, TakesAtLeast};
ghost use Rattle.dk_chain.specs.NotBefore.{NoSooner, NotBefore, SoonestIsHad, SoonestIsMet};
ghost use Rattle.dk_config.specs.Checked.{IsAccepted, IsChecked};
ghost use Rattle.dk_config.specs.Configuration.{Configuration};

/// Whatever the programs do, a main has had k ticks of its window only when so many ticks of the window are over as have
/// room for them and for the kernel's own work that always comes before them.
pub fn not_before_law()
    ensures { Always NotBefore }
{}

/// The bound is met: where no thread of the process may hold a mutex of a faster level than its main, there is a list of
/// entries that follows the rules, in which the main has had k ticks of a window of its as soon as there is room for them.
pub fn not_before_met_law()
    ensures { (c : Configuration) → IsChecked c → IsAccepted c → SoonestIsMet c }
{}

/// A chain of jobs that each have their whole budget, each begun only when the one before has it, takes at least the sum of
/// their budgets.
pub fn chain_takes_law()
    ensures { Always TakesAtLeast }
{}

/// The least number of ticks of its window with which a main may have k ticks, as `begins_from` and `done_from` of dk_when
/// tell it, is the greatest that can be promised: no run has them sooner, and where no thread of the process may hold a
/// mutex of a faster level than its main, a run has them then.
pub fn no_sooner_law()
    ensures never { Always NoSooner }
    ensures met { (c : Configuration) → IsChecked c → IsAccepted c → SoonestIsHad c }
{}

/// A chain whose jobs each have their whole budget answers no event in a shorter time than its shortest reaction time.
pub fn no_shorter_law()
    ensures { Always ReactsNoSooner }
{}
