//! What is told of a need.
ghost use Rattle.std.specs.Prelude.{◌≡◌, ◌≤◌, length, IfOk, None, Some};
ghost use Rattle.dk_config.specs.Checked.{BreaksNoRule, IsChecked, IsWithinLimits};
ghost use Rattle.dk_config.specs.declared.TheConstants.{MAX_PROCESSES};
ghost use Rattle.dk_chain_report.specs.Finding.{process_named, processes_named};
ghost use Rattle.dk_needs.specs.Fit.{HasNames};
ghost use Rattle.dk_needs_check.specs.declared.row.Measure.{Measure};
ghost use Rattle.dk_needs_check.specs.Bounds.{IsAtLeast, IsAtMost};
ghost use Rattle.dk_needs_check.specs.Meaning.{AreAnswers, AreOfChain, AreOfChainJitter, AreOfJitter, AreOfRun, AreOfSlack, HasBudget, HasHold, HasRelease, HasSpare, IfThere, IsDone, asks_ledger, level_numbered, mutex_named, open_where};

use crate::bounds::{
    budget_bound, chain_bounds, chain_jitter_bounds, done_bound, growth_bound, hold_bound,
    jitter_bounds, release_bound, spare_bound,
};
use crate::finding::{level_numbered, mutex_named, process_named};
use crate::slack::slack_answers;
use crate::{Answer, Answers, Reason};
use dk_chain_report::find_chain;
use dk_config::{Config, NoMemory, Text};
use dk_needs::What;
use std::alloc::Global;

fn deadline(config: &Config, name: &str, within: u32) -> Option<Answer>
    requires checked { IsChecked config.now }
    requires limits { IsWithinLimits config.now }
    ensures { IfThere (λ p. IsAtMost (IsDone config.now p) Measure.Done within)
        (process_named config.now name.now) result }
{
    match process_named(config, name) {
        Some(process) => Some(Answer::Tested(done_bound(config, process, within))),
        None => None,
    }
}

fn budget(config: &Config, name: &str, wanted: u32) -> Option<Answer>
    requires unbroken { BreaksNoRule config.now }
    requires checked { IsChecked config.now }
    requires limits { IsWithinLimits config.now }
    ensures { IfThere (λ p. IsAtLeast (HasBudget config.now p) Measure.Budget wanted)
        (process_named config.now name.now) result }
{
    match process_named(config, name) {
        Some(process) => Some(Answer::Tested(budget_bound(config, process, wanted))),
        None => None,
    }
}

fn hold(config: &Config, name: &str, wanted: u32) -> Option<Answer>
    requires unbroken { BreaksNoRule config.now }
    requires checked { IsChecked config.now }
    requires limits { IsWithinLimits config.now }
    ensures { IfThere (λ m. IsAtLeast (HasHold config.now m) Measure.Hold wanted)
        (mutex_named config.now name.now) result }
{
    match mutex_named(config, name) {
        Some(mutex) => Some(Answer::Tested(hold_bound(config, mutex, wanted))),
        None => None,
    }
}

fn release(config: &Config, level: u32, wanted: u32) -> Option<Answer>
    requires unbroken { BreaksNoRule config.now }
    requires checked { IsChecked config.now }
    requires limits { IsWithinLimits config.now }
    ensures { IfThere (λ j. IsAtLeast (HasRelease config.now j) Measure.Release wanted)
        (level_numbered config.now level) result }
{
    match level_numbered(config, level) {
        Some(level) => Some(Answer::Tested(release_bound(config, level, wanted))),
        None => None,
    }
}

fn spare(config: &Config, level: u32, wanted: u32) -> Option<Answer>
    requires checked { IsChecked config.now }
    requires limits { IsWithinLimits config.now }
    ensures { IfThere (λ j. IsAtLeast (HasSpare config.now j) Measure.Spare wanted)
        (level_numbered config.now level) result }
{
    match level_numbered(config, level) {
        Some(level) => Some(Answer::Tested(spare_bound(config, level, wanted))),
        None => None,
    }
}

fn one(answer: Option<Answer>) -> Answers
    ensures first { result.first ≡ answer }
    ensures second { result.second ≡ None }
{
    Answers {
        first: answer,
        second: None,
    }
}

/// Whether more is asked than that the run repeats.
fn asks_ledger(
    overruns: Option<u32>,
    refused: Option<u32>,
    faults: Option<u32>,
    forever: bool,
) -> bool
    ensures { result ≡ asks_ledger overruns refused faults forever }
{
    !forever || overruns.is_some() || refused.is_some() || faults.is_some()
}

fn open_where(asked: bool, reason: Reason) -> Option<Answer>
    ensures { result ≡ open_where asked reason }
{
    if asked {
        Some(Answer::Open(reason))
    } else {
        None
    }
}

/// Of a run: what a ledger says, and whether it repeats, as far as they are asked for.
fn run(overruns: Option<u32>, refused: Option<u32>, faults: Option<u32>, forever: bool) -> Answers
    ensures { AreOfRun overruns refused faults forever result }
{
    Answers {
        first: open_where(
            asks_ledger(overruns, refused, faults, forever),
            Reason::NoLedger,
        ),
        second: open_where(forever, Reason::NotTested),
    }
}

/// Of a chain: its reaction time and the age of its data, as far as they are asked for.
fn chain(
    alloc: Global,
    config: &Config,
    names: &[Text],
    reaction_asked: Option<u32>,
    age_asked: Option<u32>,
) -> Result<Answers, NoMemory>
    requires checked { IsChecked config.now }
    requires limits { IsWithinLimits config.now }
    requires few { length names.now ≤ MAX_PROCESSES }
    ensures { IfOk result (AreOfChain config.now reaction_asked age_asked (processes_named config.now names.now)) }
{
    match names {
        [] => Ok(one(None)),
        [first, rest @ ..] => match find_chain(alloc, config, first.as_str(), rest)? {
            Some(chain) => Ok(chain_bounds(
                config,
                chain.first,
                &chain.rest,
                reaction_asked,
                age_asked,
            )),
            None => Ok(one(None)),
        },
    }
}

/// Of a process: by how much its begin and its end vary, as far as they are asked for.
fn jitter(config: &Config, name: &str, begins: Option<u32>, done: Option<u32>) -> Answers
    requires checked { IsChecked config.now }
    requires limits { IsWithinLimits config.now }
    ensures { AreOfJitter config.now begins done (process_named config.now name.now) result }
{
    match process_named(config, name) {
        Some(process) => jitter_bounds(config, process, begins, done),
        None => one(None),
    }
}

/// Of a chain: by how much its reaction time varies, as far as that is asked for.
fn chain_jitter(
    alloc: Global,
    config: &Config,
    names: &[Text],
    asked: Option<u32>,
) -> Result<Answers, NoMemory>
    requires checked { IsChecked config.now }
    requires limits { IsWithinLimits config.now }
    requires few { length names.now ≤ MAX_PROCESSES }
    ensures { IfOk result (AreOfChainJitter config.now asked (processes_named config.now names.now)) }
{
    match names {
        [] => Ok(one(None)),
        [first, rest @ ..] => match find_chain(alloc, config, first.as_str(), rest)? {
            Some(chain) => Ok(chain_jitter_bounds(config, chain.first, &chain.rest, asked)),
            None => Ok(one(None)),
        },
    }
}

/// Of a process: how much slack it can be allotted, and by when it has it, as far as that is asked for.
fn slack(config: &Config, allotments: &[u32], name: &str, each: u32, within: Option<u32>) -> Answers
    requires checked { IsChecked config.now }
    requires limits { IsWithinLimits config.now }
    requires one_each { length allotments.now ≡ length config.now.processes }
    ensures { AreOfSlack config.now allotments.now each within (process_named config.now name.now) result }
{
    match process_named(config, name) {
        Some(process) => slack_answers(config, allotments, process, each, within),
        None => one(None),
    }
}

/// What is told of a need, where needs ask for these allotments of slack.
pub(crate) fn answers_of(
    alloc: Global,
    config: &Config,
    allotments: &[u32],
    what: &What,
) -> Result<Answers, NoMemory>
    requires unbroken { BreaksNoRule config.now }
    requires checked { IsChecked config.now }
    requires limits { IsWithinLimits config.now }
    requires one_each { length allotments.now ≡ length config.now.processes }
    requires fit { HasNames what.now }
    ensures { IfOk result (AreAnswers config.now allotments.now what.now) }
{
    match what {
        What::Deadline { process, within } => {
            Ok(one(deadline(config, process.as_str(), *within)))
        }
        What::Chain {
            processes,
            reaction,
            age,
        } => chain(alloc, config, processes.as_slice(), *reaction, *age),
        What::Jitter {
            process,
            begins,
            done,
        } => Ok(jitter(config, process.as_str(), *begins, *done)),
        What::ChainJitter {
            processes,
            reaction: within,
        } => chain_jitter(alloc, config, processes.as_slice(), Some(*within)),
        What::Budget {
            process,
            budget: wanted,
        } => Ok(one(budget(config, process.as_str(), *wanted))),
        What::Hold {
            mutex,
            hold: wanted,
        } => Ok(one(hold(config, mutex.as_str(), *wanted))),
        What::Release {
            level,
            release: wanted,
        } => Ok(one(release(config, *level, *wanted))),
        What::Growth { percent } => {
            Ok(one(Some(Answer::Tested(growth_bound(config, *percent)))))
        }
        What::Spare { level, ticks } => Ok(one(spare(config, *level, *ticks))),
        What::Slack {
            process,
            each,
            within,
        } => Ok(slack(config, allotments, process.as_str(), *each, *within)),
        What::Always { .. } => Ok(one(Some(Answer::Open(Reason::NotTested)))),
        What::Run {
            overruns,
            refused,
            faults,
            forever,
        } => Ok(run(*overruns, *refused, *faults, *forever)),
    }
}
