//! The slack of a process, beside what is asked of it.
ghost use Rattle.std.specs.Prelude.{◌≡◌, ◌<◌, length};
ghost use Rattle.dk_config.specs.Checked.{IsChecked, IsWithinLimits};
ghost use Rattle.dk_config.specs.Windows.{may_ask};
ghost use Rattle.dk_needs_check.specs.declared.row.Measure.{Measure};
ghost use Rattle.dk_needs_check.specs.Bounds.{IsAtLeast, IsAtMostIfAny, IsLeastIfAny};
ghost use Rattle.dk_needs_check.specs.Meaning.{AreOfRight, HasSlack, HasSlackBy, IsIfKept, IsIfKeptWhere};

use crate::bounds::bound;
use crate::{Answer, Answers, Bound, Measure};
use dk_allotment::{given_slack_by, most_beside, overdrawn_level};
use dk_config::Config;

fn may_ask(config: &Config, process: u32) -> bool
    requires process { process < length config.now.processes }
    ensures { result ≡ may_ask config.now process }
{
    config.processes.as_slice()[process as usize].slack
}

/// How much slack the process can be allotted beside the others.
fn slack_bound(config: &Config, allotments: &[u32], process: u32, each: u32) -> Bound
    requires checked { IsChecked config.now }
    requires limits { IsWithinLimits config.now }
    requires one_each { length allotments.now ≡ length config.now.processes }
    requires process { process < length config.now.processes }
    ensures { IsAtLeast (HasSlack config.now allotments.now process) Measure.Slack each result }
{
    bound(
        Measure::Slack,
        most_beside(config, allotments, process),
        each,
    )
}

/// After how many ticks of its windows the process has had its allotment, where they hold together.
fn slack_by(config: &Config, allotments: &[u32], process: u32) -> Option<u32>
    requires checked { IsChecked config.now }
    requires limits { IsWithinLimits config.now }
    requires one_each { length allotments.now ≡ length config.now.processes }
    requires process { process < length config.now.processes }
    ensures { IsLeastIfAny (HasSlackBy config.now allotments.now process) result }
{
    match overdrawn_level(config, allotments) {
        Some(_) => None,
        None => Some(given_slack_by(config, allotments, process)),
    }
}

fn by_bound(config: &Config, allotments: &[u32], process: u32, within: u32) -> Bound
    requires checked { IsChecked config.now }
    requires limits { IsWithinLimits config.now }
    requires one_each { length allotments.now ≡ length config.now.processes }
    requires process { process < length config.now.processes }
    ensures { IsAtMostIfAny (HasSlackBy config.now allotments.now process) Measure.SlackBy within result }
{
    bound(
        Measure::SlackBy,
        slack_by(config, allotments, process),
        within,
    )
}

/// The same, as far as it is asked for.
fn by_answer(
    config: &Config,
    allotments: &[u32],
    process: u32,
    within: Option<u32>,
) -> Option<Answer>
    requires checked { IsChecked config.now }
    requires limits { IsWithinLimits config.now }
    requires one_each { length allotments.now ≡ length config.now.processes }
    requires process { process < length config.now.processes }
    ensures { IsIfKeptWhere (IsAtMostIfAny (HasSlackBy config.now allotments.now process) Measure.SlackBy) within result }
{
    match within {
        Some(within) => Some(Answer::IfKept(by_bound(config, allotments, process, within))),
        None => None,
    }
}

/// Of a process: how much slack it can be allotted in each of its windows, and by when it has it, as far as that is asked
/// for; or that it may not ask for any.
pub(crate) fn slack_answers(
    config: &Config,
    allotments: &[u32],
    process: u32,
    each: u32,
    within: Option<u32>,
) -> Answers
    requires checked { IsChecked config.now }
    requires limits { IsWithinLimits config.now }
    requires one_each { length allotments.now ≡ length config.now.processes }
    requires process { process < length config.now.processes }
    ensures { AreOfRight config.now allotments.now process each within (may_ask config.now process) result }
{
    if may_ask(config, process) {
        Answers {
            first: Some(Answer::IfKept(slack_bound(config, allotments, process, each))),
            second: by_answer(config, allotments, process, within),
        }
    } else {
        Answers {
            first: Some(Answer::NoRight),
            second: None,
        }
    }
}
