//! What one change of a row would gain: the change is made, the chain is asked, and the change is taken back.
ghost use Rattle.std.specs.Prelude.{◌≡◌, ◌∷◌, ◌<◌, true, false, length};
ghost use Rattle.dk_config.specs.Checked.{IsChecked, IsWithinLimits};
ghost use Rattle.dk_config.specs.declared.TheConstants.{MAX_PROCESSES};
ghost use Rattle.dk_margins.specs.Margins.{Stands};
ghost use Rattle.dk_chain.specs.Chain.{AreThere};
ghost use Rattle.dk_certify.specs.Verdicts.{verdict_of};
ghost use Rattle.dk_chain_report.specs.Changes.{IsGain, is_certified, swapped, with_level};

use crate::latency::{Latency, latency_of};
use dk_certify::{Verdict, certify};
use dk_config::{Config, check};

/// Whether no level can miss its window.
fn is_certified(config: &Config) -> bool
    requires checked { IsChecked config.now }
    requires limits { IsWithinLimits config.now }
    ensures { result ≡ is_certified (verdict_of config.now) }
{
    match certify(config) {
        Verdict::Accepted(_) => true,
        Verdict::Fails { .. } => false,
    }
}

/// Whether the configuration breaks no rule and is certified.
fn stands(config: &Config) -> bool
    ensures stands { result ≡ true → Stands config.now }
    ensures fails { result ≡ false → ¬ Stands config.now }
    ensures checked { result ≡ true → IsChecked config.now }
    ensures limits { result ≡ true → IsWithinLimits config.now }
{
    match check(config) {
        Some(_) => false,
        None => is_certified(config),
    }
}

/// How long the chain takes under this configuration, where it stands and the chain reacts sooner.
fn gain_of(config: &Config, first: u32, rest: &[u32], reaction: u64) -> Option<Latency>
    requires there { AreThere config.now (first ∷ rest.now) }
    requires few { length rest.now < MAX_PROCESSES }
    ensures { IsGain config.now first rest.now reaction result }
{
    if !stands(config) {
        return None;
    }
    let latency = latency_of(config, first, rest);
    if latency.reaction < reaction {
        Some(latency)
    } else {
        None
    }
}

/// The same with the rows of two processes in each other's place, and with the numbers that they have then in the chain.
pub(crate) fn swapped_gain(
    config: &mut Config,
    earlier: usize,
    later: usize,
    first: u32,
    rest: &[u32],
    reaction: u64,
) -> Option<Latency>
    requires earlier { earlier < length config.old.processes }
    requires later { later < length config.old.processes }
    requires there { AreThere config.old (first ∷ rest.now) }
    requires few { length rest.now < MAX_PROCESSES }
    ensures gain { IsGain (swapped config.old earlier later) first rest.now reaction result }
    ensures same { config.new ≡ config.old }
{
    config.processes.swap(earlier, later);
    let gain = gain_of(config, first, rest, reaction);
    config.processes.swap(earlier, later);
    gain
}

fn set_level(config: &mut Config, process: usize, level: u32)
    requires { process < length config.old.processes }
    ensures level { config.new ≡ with_level config.old process level }
    ensures rows { length config.new.processes ≡ length config.old.processes }
{
    config.processes[process].level = level;
}

/// The same with another level for a process.
pub(crate) fn level_gain(
    config: &mut Config,
    process: usize,
    level: u32,
    first: u32,
    rest: &[u32],
    reaction: u64,
) -> Option<Latency>
    requires process { process < length config.old.processes }
    requires there { AreThere config.old (first ∷ rest.now) }
    requires few { length rest.now < MAX_PROCESSES }
    ensures gain { IsGain (with_level config.old process level) first rest.now reaction result }
    ensures same { config.new ≡ config.old }
{
    let own = config.processes.as_slice()[process].level;
    set_level(config, process, level);
    let gain = gain_of(config, first, rest, reaction);
    set_level(config, process, own);
    gain
}
