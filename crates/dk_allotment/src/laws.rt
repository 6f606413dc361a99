ghost use Rattle.dk_config.specs.Checked.{IsAccepted, IsChecked};
ghost use Rattle.dk_config.specs.Configuration.{Configuration};
ghost use Rattle.dk_bound.specs.Laws.{Always};
ghost use Rattle.dk_allotment.specs.Planned.{AloneIsPlanned};
ghost use Rattle.dk_allotment.specs.Soon.{AllottedIn};

/// An allotment can be promised to one process alone exactly where the configuration is accepted with its budget greater
/// by it. So the greatest one is what plan gives the process above its budget.
pub fn planned_law()
    ensures { (c : Configuration) → IsChecked c → IsAccepted c → AloneIsPlanned c }
{}

/// A process that goes on asking has had its allotment once so many ticks of its window are over as are enough.
pub fn allotted_in_law()
    ensures { Always AllottedIn }
{}
