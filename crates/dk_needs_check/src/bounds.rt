//! The numbers of a configuration, beside what is asked of them.
ghost use Rattle.std.specs.Prelude.{ℕ, ◌≡◌, ◌∷◌, ◌<◌, Some, length};
ghost use Rattle.dk_config.specs.Certification.{spare};
ghost use Rattle.dk_config.specs.Checked.{BreaksNoRule, IsChecked, IsWithinLimits};
ghost use Rattle.dk_config.specs.declared.TheConstants.{MAX_PROCESSES};
ghost use Rattle.dk_chain.specs.Chain.{AreDone, AreThere};
ghost use Rattle.dk_config_report.specs.Pages.{IsLeast};
ghost use Rattle.dk_needs_check.specs.Bounds.{IsAtLeast, IsAtMost};
ghost use Rattle.dk_needs_check.specs.Meaning.{AreOfChain, AreOfChainJitter, AreOfJitter, HasBudget, HasGrowth, HasHold, HasRelease, HasSpare, IsDone, ReactsWithin, tested_where};

use crate::{Answer, Answers, Bound, Measure};
use dk_certify::{demand_of, level_row, longest_delay};
use dk_chain::{data_age, reaction, shortest_reaction};
use dk_config::Config;
use dk_growth::greatest_growth;
use dk_margins::{greatest_hold, greatest_release};
use dk_plan::greatest_budget;
use dk_when::{begins_by, begins_from, done_by, done_from};

pub(crate) fn bound(measure: Measure, number: Option<u32>, asked: u32) -> Bound
    ensures { result ≡ record { measure = measure; number = number; asked = asked } }
{
    Bound {
        measure,
        number,
        asked,
    }
}

/// After how many ticks of its windows the main has had its whole budget.
pub(crate) fn done_bound(config: &Config, process: u32, within: u32) -> Bound
    requires checked { IsChecked config.now }
    requires limits { IsWithinLimits config.now }
    requires process { process < length config.now.processes }
    ensures { IsAtMost (IsDone config.now process) Measure.Done within result }
{
    bound(Measure::Done, Some(done_by(config, process)), within)
}

/// What is asked of a number, if anything is.
fn bound_where(measure: Measure, number: u32, asked: Option<u32>) -> Option<Answer>
    ensures { result ≡ tested_where measure number asked }
{
    match asked {
        Some(asked) => Some(Answer::Tested(bound(measure, Some(number), asked))),
        None => None,
    }
}

/// A chain's reaction time and the age of its data, as far as they are asked for.
pub(crate) fn chain_bounds(
    config: &Config,
    first: u32,
    rest: &[u32],
    reaction_asked: Option<u32>,
    age_asked: Option<u32>,
) -> Answers
    requires checked { IsChecked config.now }
    requires limits { IsWithinLimits config.now }
    requires there { AreThere config.now (first ∷ rest.now) }
    requires few { length rest.now < MAX_PROCESSES }
    ensures { AreOfChain config.now reaction_asked age_asked (Some (first ∷ rest.now)) result }
{
    Answers {
        first: bound_where(
            Measure::Reaction,
            reaction(config, first, rest) as u32,
            reaction_asked,
        ),
        second: bound_where(
            Measure::Age,
            data_age(config, first, rest) as u32,
            age_asked,
        ),
    }
}

/// By how much the begin and the end of a main vary, as far as they are asked for.
pub(crate) fn jitter_bounds(
    config: &Config,
    process: u32,
    begins_asked: Option<u32>,
    done_asked: Option<u32>,
) -> Answers
    requires checked { IsChecked config.now }
    requires limits { IsWithinLimits config.now }
    requires process { process < length config.now.processes }
    ensures { AreOfJitter config.now begins_asked done_asked (Some process) result }
{
    let begins = begins_by(config, process) - begins_from(config, process);
    let done = done_by(config, process) - done_from(config, process);
    Answers {
        first: bound_where(Measure::BeginsJitter, begins, begins_asked),
        second: bound_where(Measure::DoneJitter, done, done_asked),
    }
}

/// By how much a chain's reaction time varies.
fn reaction_jitter(config: &Config, first: u32, rest: &[u32]) -> u32
    requires checked { IsChecked config.now }
    requires limits { IsWithinLimits config.now }
    requires there { AreThere config.now (first ∷ rest.now) }
    requires few { length rest.now < MAX_PROCESSES }
    ensures { (done : ℕ → ℕ) → AreDone config.now done → IsLeast (ReactsWithin config.now done first rest.now) result }
{
    let longest = reaction(config, first, rest);
    let shortest = shortest_reaction(config, first, rest);
    longest.saturating_sub(shortest) as u32
}

/// That, as far as it is asked for.
pub(crate) fn chain_jitter_bounds(
    config: &Config,
    first: u32,
    rest: &[u32],
    asked: Option<u32>,
) -> Answers
    requires checked { IsChecked config.now }
    requires limits { IsWithinLimits config.now }
    requires there { AreThere config.now (first ∷ rest.now) }
    requires few { length rest.now < MAX_PROCESSES }
    ensures { AreOfChainJitter config.now asked (Some (first ∷ rest.now)) result }
{
    let jitter = reaction_jitter(config, first, rest);
    Answers {
        first: bound_where(Measure::ReactionJitter, jitter, asked),
        second: None,
    }
}

pub(crate) fn budget_bound(config: &Config, process: u32, wanted: u32) -> Bound
    requires unbroken { BreaksNoRule config.now }
    requires checked { IsChecked config.now }
    requires limits { IsWithinLimits config.now }
    requires process { process < length config.now.processes }
    ensures { IsAtLeast (HasBudget config.now process) Measure.Budget wanted result }
{
    bound(Measure::Budget, greatest_budget(config, process), wanted)
}

pub(crate) fn hold_bound(config: &Config, mutex: u32, wanted: u32) -> Bound
    requires unbroken { BreaksNoRule config.now }
    requires checked { IsChecked config.now }
    requires limits { IsWithinLimits config.now }
    requires mutex { mutex < length config.now.mutexes }
    ensures { IsAtLeast (HasHold config.now mutex) Measure.Hold wanted result }
{
    bound(Measure::Hold, greatest_hold(config, mutex), wanted)
}

pub(crate) fn release_bound(config: &Config, level: u32, wanted: u32) -> Bound
    requires unbroken { BreaksNoRule config.now }
    requires checked { IsChecked config.now }
    requires limits { IsWithinLimits config.now }
    requires level { level < length config.now.levels }
    ensures { IsAtLeast (HasRelease config.now level) Measure.Release wanted result }
{
    bound(Measure::Release, greatest_release(config, level), wanted)
}

/// By how many percent all budgets can grow at once.
pub(crate) fn growth_bound(config: &Config, wanted: u32) -> Bound
    requires unbroken { BreaksNoRule config.now }
    requires checked { IsChecked config.now }
    requires limits { IsWithinLimits config.now }
    ensures { IsAtLeast (HasGrowth config.now) Measure.Growth wanted result }
{
    bound(Measure::Growth, greatest_growth(config), wanted)
}

/// The ticks of a window of the level that nobody can claim.
fn spare(config: &Config, level: u32) -> u32
    requires checked { IsChecked config.now }
    requires limits { IsWithinLimits config.now }
    requires level { level < length config.now.levels }
    ensures { result ≡ spare config.now level }
{
    let window = level_row(config, level as usize).period as u64;
    let demand = demand_of(config, level as usize);
    let blocking = longest_delay(config, level, config.mutexes.as_slice());
    window
        .saturating_sub(demand)
        .saturating_sub(blocking as u64) as u32
}

pub(crate) fn spare_bound(config: &Config, level: u32, wanted: u32) -> Bound
    requires checked { IsChecked config.now }
    requires limits { IsWithinLimits config.now }
    requires level { level < length config.now.levels }
    ensures { IsAtLeast (HasSpare config.now level) Measure.Spare wanted result }
{
    bound(Measure::Spare, Some(spare(config, level)), wanted)
}
