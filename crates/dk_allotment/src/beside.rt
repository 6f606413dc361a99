//! How much slack a process can be promised beside what others are, and by when.
ghost use Rattle.std.specs.Prelude.{ℕ, ◌≡◌, ◌*◌, ◌/◌, ◌<◌, ◌≤◌, ◌↔◌, length};
ghost use Rattle.dk_config.specs.Ahead.{windows_begun};
ghost use Rattle.dk_config.specs.Checked.{IsChecked, IsWithinLimits};
ghost use Rattle.dk_config.specs.Windows.{main_level, period};
ghost use Rattle.dk_slack_promise.specs.Soon.{allotted_begun};
ghost use Rattle.dk_allotment.specs.Beside.{IsMostBeside, IsRoomBeside, most_begun, part_begun};
ghost use Rattle.dk_allotment.specs.Given.{given};
ghost use Rattle.dk_allotment.specs.Soon.{IsEnoughSlack};

use crate::given::{allotted_at, part_of};
use crate::own::{level_of, spare_of};
use dk_certify::level_row;
use dk_config::{Config, MAX_SPAN};
use dk_plan::windows_in;
use dk_when::level_ahead;

/// What the others leave of the spare of the level, unless they pass it.
fn room_at(config: &Config, allotments: &[u32], process: u32, level: u32) -> Option<u32>
    requires checked { IsChecked config.now }
    requires limits { IsWithinLimits config.now }
    requires one_each { length allotments.now ≡ length config.now.processes }
    requires process { process < length config.now.processes }
    requires level { level < length config.now.levels }
    ensures { IsRoomBeside config.now (given allotments.now) process level result }
{
    let others = allotted_at(config, allotments, level)
        - part_of(config, allotments, level, process);
    let spare = spare_of(config, level) as u64;
    if others > spare {
        return None;
    }
    Some((spare - others) as u32)
}

/// Of so many ticks as many as the room of the level holds for each window of the faster one, or of its own.
fn most_within(config: &Config, level: u32, own: u32, room: u32, most: u32) -> u32
    requires checked { IsChecked config.now }
    requires limits { IsWithinLimits config.now }
    requires level { level < length config.now.levels }
    requires own { own < length config.now.levels }
    ensures within { (n : ℕ) → (n ≤ result)
        ↔ ((n ≤ most) × (own ≤ level → n * (period config.now level / period config.now own) ≤ room)) }
    ensures few { result ≤ most }
{
    if own > level {
        return most;
    }
    most.min(room / windows_in(config, level, own))
}

/// The slack that the process can be promised in each window of its level, where each other process has its allotment, a
/// number for each: the greatest number of ticks. `None` where the others' don't hold together by themselves.
pub fn most_beside(config: &Config, allotments: &[u32], process: u32) -> Option<u32>
    requires checked { IsChecked config.now }
    requires limits { IsWithinLimits config.now }
    requires one_each { length allotments.now ≡ length config.now.processes }
    requires process { process < length config.now.processes }
    ensures { IsMostBeside config.now (given allotments.now) process result }
{
    let own = level_of(config, process);
    let mut most = spare_of(config, own);
    for level in 0..config.levels.len() as u32 {
        match room_at(config, allotments, process, level) {
            None => return None,
            Some(room) => most = most_within(config, level, own, room, most),
        }
    }
    Some(most)
}

/// How many windows of the level begin in so many ticks.
fn windows_begun(config: &Config, level: u32, ticks: u32) -> u32
    requires checked { IsChecked config.now }
    requires limits { IsWithinLimits config.now }
    requires level { level < length config.now.levels }
    requires ticks { ticks ≤ MAX_SPAN }
    ensures windows { result ≡ windows_begun config.now level ticks }
    ensures few { result ≤ 2 * MAX_SPAN }
{
    let period = level_row(config, level as usize).period;
    (ticks + (period - 1)) / period
}

/// What the process is allotted in its windows that begin in so many ticks of one of the level.
fn part_begun(config: &Config, allotments: &[u32], level: u32, ticks: u32, process: u32) -> u64
    requires checked { IsChecked config.now }
    requires limits { IsWithinLimits config.now }
    requires one_each { length allotments.now ≡ length config.now.processes }
    requires process { process < length config.now.processes }
    requires ticks { ticks ≤ MAX_SPAN }
    ensures part { result ≡ part_begun config.now allotments.now level ticks process }
    ensures bounded { result ≤ most_begun }
{
    let own = level_of(config, process);
    if own > level {
        return 0;
    }
    allotments[process as usize] as u64 * windows_begun(config, own, ticks) as u64
}

/// What the processes of the levels up to this one are allotted in their windows that begin in so many ticks of one of it.
fn allotted_begun(config: &Config, allotments: &[u32], level: u32, ticks: u32) -> u64
    requires checked { IsChecked config.now }
    requires limits { IsWithinLimits config.now }
    requires one_each { length allotments.now ≡ length config.now.processes }
    requires ticks { ticks ≤ MAX_SPAN }
    ensures sum { result ≡ allotted_begun config.now (given allotments.now) level ticks }
    ensures bounded { result ≤ 32 * most_begun }
{
    let mut sum = 0;
    for process in 0..config.processes.len() as u32 {
        sum += part_begun(config, allotments, level, ticks, process);
    }
    sum
}

/// After how many ticks of each window of its level a process has had its allotment, where each has his, a number for each:
/// the least number that is enough for all that may come before, and for the allotments.
///
/// The search is that of response times (Joseph and Pandya, 1986), from below to the first number that is enough.
pub fn given_slack_by(config: &Config, allotments: &[u32], process: u32) -> u32
    requires checked { IsChecked config.now }
    requires limits { IsWithinLimits config.now }
    requires one_each { length allotments.now ≡ length config.now.processes }
    requires process { process < length config.now.processes }
    ensures reached { IsEnoughSlack config.now (given allotments.now) (main_level config.now process) result }
    ensures least { (f : ℕ) → IsEnoughSlack config.now (given allotments.now) (main_level config.now process) f → result ≤ f }
    ensures within { result ≤ period config.now (main_level config.now process) }
{
    let own = level_of(config, process);
    let window = level_row(config, own as usize).period;
    let mut least = 1;
    while least < window {
        let needs = level_ahead(config, own, least)
            + allotted_begun(config, allotments, own, least);
        if needs <= least as u64 {
            return least;
        }
        least = needs.min(window as u64) as u32;
    }
    window
}
