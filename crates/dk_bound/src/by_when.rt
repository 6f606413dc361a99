ghost use Rattle.dk_bound.specs.ByWhen.{AllByWhen, BoundIsMet, ByWhen};
ghost use Rattle.dk_bound.specs.Laws.{Always};
ghost use Rattle.dk_config.specs.Checked.{IsAccepted, IsChecked};
ghost use Rattle.dk_config.specs.Configuration.{Configuration};

/// By when in its window a main has had k ticks of its share: after f ticks, where what may come before it in f ticks
/// leaves room for k, and no process of a faster level has the right to slack. Else its share is less than k, or it is
/// closed.
pub fn by_when_law()
    ensures { Always ByWhen }
{}

/// And by when each thread of a level, children too, has had its whole share: its share is less than k, for each k of
/// which it hasn't had k ticks, or it is closed.
pub fn all_by_when_law()
    ensures { Always AllByWhen }
{}

/// The bound is met: where nothing but the kernel and the budgets of mains can come before a main, and no number of
/// ticks up to t is enough for k ticks of it, there is a list of t entries that follows the rules, in which it has had
/// fewer than k.
pub fn by_when_met_law()
    ensures { (c : Configuration) → IsChecked c → IsAccepted c → BoundIsMet c }
{}
