//! How soon a chain can have answered an event, and by how much that may vary.
ghost use Rattle.std.specs.Prelude.{◌≡◌, ◌∷◌, ◌*◌, ◌<◌, ◌≤◌, length, sum_by};
ghost use Rattle.dk_config.specs.Checked.{IsChecked, IsWithinLimits};
ghost use Rattle.dk_config.specs.Windows.{budget};
ghost use Rattle.dk_chain.specs.Chain.{AreThere};
ghost use Rattle.dk_chain.specs.Least.{IsJitter, IsShortest};

use crate::reacting::reaction;
use dk_config::{Config, MAX_PROCESSES, MAX_SPAN};
use dk_when::done_from;

fn budget_of(config: &Config, process: u32) -> u32
    requires limits { IsWithinLimits config.now }
    requires exists { process < length config.now.processes }
    ensures ticks { result ≡ budget config.now process }
    ensures few { result ≤ MAX_SPAN }
{
    config.processes.as_slice()[process as usize].budget
}

/// The budgets of these processes, added up.
fn budgets_of(config: &Config, processes: &[u32]) -> u64
    requires limits { IsWithinLimits config.now }
    requires there { AreThere config.now processes.now }
    requires few { length processes.now < MAX_PROCESSES }
    ensures sum { result ≡ sum_by (budget config.now) processes.now }
    ensures few { result ≤ MAX_PROCESSES * MAX_SPAN }
{
    let mut ticks = 0;
    for process in processes {
        ticks += budget_of(config, *process) as u64;
    }
    ticks
}

/// The shortest reaction time of the chain that begins with this process and goes on with the others: where each job has
/// its whole budget, it has answered no event in fewer ticks, whatever the programs do. It needs no memory.
pub fn shortest_reaction(config: &Config, first: u32, rest: &[u32]) -> u64
    requires checked { IsChecked config.now }
    requires limits { IsWithinLimits config.now }
    requires there { AreThere config.now (first ∷ rest.now) }
    requires few { length rest.now < MAX_PROCESSES }
    ensures { IsShortest config.now first rest.now result }
{
    done_from(config, first) as u64 + budgets_of(config, rest)
}

/// By how many ticks the reaction time of the chain may vary: the longest less the shortest. It needs no memory.
pub fn reaction_jitter(config: &Config, first: u32, rest: &[u32]) -> u64
    requires checked { IsChecked config.now }
    requires limits { IsWithinLimits config.now }
    requires there { AreThere config.now (first ∷ rest.now) }
    requires few { length rest.now < MAX_PROCESSES }
    ensures { IsJitter config.now first rest.now result }
{
    reaction(config, first, rest).saturating_sub(shortest_reaction(config, first, rest))
}
