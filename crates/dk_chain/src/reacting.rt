//! The reaction time of a chain.
ghost use Rattle.std.specs.Prelude.{ℕ, ◌≡◌, ◌+◌, ◌*◌, ◌<◌, ◌≤◌, ◌∷◌, length};
ghost use Rattle.dk_config.specs.Checked.{IsChecked, IsWithinLimits};
ghost use Rattle.dk_config.specs.Ahead.{comes_before};
ghost use Rattle.dk_config.specs.Windows.{main_level};
ghost use Rattle.dk_chain.specs.Age.{IsAge, IsMet};
ghost use Rattle.dk_chain.specs.Chain.{AreDone, AreThere, IsReaction, answered, free_from, next_start};
ghost use Rattle.dk_chain.specs.Pace.{most_wait, start_by, IsCourse};
ghost use Rattle.dk_chain.specs.Rounding.{round_up};

use dk_certify::level_row;
use dk_config::{Config, MAX_PROCESSES, MAX_SPAN};
use dk_when::done_by;

/// When the window of a chain's process starts, seen from an event: `lag` ticks after a window of the level, the first
/// that starts `before` ticks after the event or later.
#[derive(Clone, Copy)]
pub(crate) struct Pace {
    /// The slowest level of the chain so far.
    pub(crate) level: u32,
    pub(crate) before: u64,
    pub(crate) lag: u64,
}

/// The least multiple of the period that is so many ticks or more.
fn round_up(ticks: u64, period: u32) -> u64
    requires positive { 0 < period }
    requires short { period ≤ MAX_SPAN }
    requires few { ticks ≤ 2 * most_wait }
    ensures up { result ≡ round_up ticks period }
    ensures above { ticks ≤ result }
    ensures near { result ≤ ticks + MAX_SPAN }
{
    (ticks + (period as u64 - 1)) / period as u64 * period as u64
}

/// The level of the process's main.
pub(crate) fn level_of(config: &Config, process: u32) -> u32
    requires checked { IsChecked config.now }
    requires limits { IsWithinLimits config.now }
    requires process { process < length config.now.processes }
    ensures level { result ≡ main_level config.now process }
    ensures known { result < length config.now.levels }
{
    config.processes.as_slice()[process as usize].level
}

/// Whether p comes before q where windows of both start.
fn comes_before(config: &Config, p: u32, q: u32) -> bool
    requires checked { IsChecked config.now }
    requires limits { IsWithinLimits config.now }
    requires first { p < length config.now.processes }
    requires second { q < length config.now.processes }
    ensures { result ≡ comes_before config.now p q }
{
    let own = level_of(config, p);
    let other = level_of(config, q);
    (own < other || (other == own && p <= q)) && !(p == q)
}

/// How long after the start of p's window one of q may start, so that its job begins only when that of p is over.
fn gap(config: &Config, p: u32, q: u32) -> u32
    requires checked { IsChecked config.now }
    requires limits { IsWithinLimits config.now }
    requires first { p < length config.now.processes }
    requires second { q < length config.now.processes }
    ensures gap { (done : ℕ → ℕ) → AreDone config.now done → (s : ℕ)
        → free_from config.now done p q s ≡ s + result }
    ensures short { result ≤ MAX_SPAN }
{
    if comes_before(config, p, q) {
        0
    } else {
        done_by(config, p)
    }
}

/// The same for the next process q of the chain after p.
fn step(config: &Config, pace: Pace, p: u32, q: u32) -> Pace
    requires checked { IsChecked config.now }
    requires limits { IsWithinLimits config.now }
    requires first { p < length config.now.processes }
    requires second { q < length config.now.processes }
    requires level { pace.level < length config.now.levels }
    requires few { pace.before + pace.lag ≤ most_wait }
    ensures level { result.level < length config.now.levels }
    ensures within { main_level config.now q ≤ result.level }
    ensures few { result.before + result.lag ≤ pace.before + pace.lag + 2 * MAX_SPAN }
    ensures starts { (done : ℕ → ℕ) → AreDone config.now done → (t : ℕ)
        → next_start config.now q (free_from config.now done p q (start_by config.now pace t))
        ≡ start_by config.now result t }
{
    let level = level_of(config, q);
    let wait = pace.lag + gap(config, p, q) as u64;
    if level <= pace.level {
        let period = level_row(config, level as usize).period;
        Pace {
            level: pace.level,
            before: pace.before,
            lag: round_up(wait, period),
        }
    } else {
        let period = level_row(config, pace.level as usize).period;
        Pace {
            level,
            before: pace.before + round_up(wait, period),
            lag: 0,
        }
    }
}

/// The pace of a whole chain, and its last process.
#[derive(Clone, Copy)]
pub(crate) struct Course {
    pub(crate) pace: Pace,
    pub(crate) last: u32,
}

fn course_of(config: &Config, first: u32, rest: &[u32]) -> Course
    requires checked { IsChecked config.now }
    requires limits { IsWithinLimits config.now }
    requires there { AreThere config.now (first ∷ rest.now) }
    requires few { length rest.now < MAX_PROCESSES }
    ensures there { result.last < length config.now.processes }
    ensures course { IsCourse config.now first rest.now result }
{
    let mut pace = Pace {
        level: level_of(config, first),
        before: 0,
        lag: 0,
    };
    let mut last = first;
    for next in rest {
        pace = step(config, pace, last, *next);
        last = *next;
    }
    Course { pace, last }
}

/// The reaction time of the chain that begins with this process and goes on with the others: within so many ticks it has
/// answered each event, whatever the programs do, and no smaller number will do for the windows that each job surely
/// has. A process may stand in the chain more than once. It needs no memory.
///
/// The chain keeps the pace of its slowest level: its windows before the first one there are counted back from it, and
/// those after it on from it. The name is that of Feiertag and others (2008).
pub fn reaction(config: &Config, first: u32, rest: &[u32]) -> u64
    requires checked { IsChecked config.now }
    requires limits { IsWithinLimits config.now }
    requires there { AreThere config.now (first ∷ rest.now) }
    requires few { length rest.now < MAX_PROCESSES }
    ensures reaction { (done : ℕ → ℕ) → AreDone config.now done
        → IsReaction config.now done (first ∷ rest.now) result }
    ensures few { result ≤ most_wait + 2 * MAX_SPAN }
{
    let whole = course_of(config, first, rest);
    let pace = whole.pace;
    let period = level_row(config, pace.level as usize).period;
    pace.before + pace.lag + (period as u64 - 1) + done_by(config, whole.last) as u64
}

/// The age of the data that the last process of the chain works with: from the start of the window in which the first made
/// it to the tick by which the last one's job is done, at most, and no smaller number will do for the windows that each
/// job surely has. It is the reaction time and one tick, less a window of the last process. It needs no memory.
pub fn data_age(config: &Config, first: u32, rest: &[u32]) -> u64
    requires checked { IsChecked config.now }
    requires limits { IsWithinLimits config.now }
    requires there { AreThere config.now (first ∷ rest.now) }
    requires few { length rest.now < MAX_PROCESSES }
    ensures age { (done : ℕ → ℕ) (reaction : ℕ) → AreDone config.now done
        → IsReaction config.now done (first ∷ rest.now) reaction → IsAge config.now first rest.now reaction result }
    ensures met { (done : ℕ → ℕ) (reaction : ℕ) → AreDone config.now done
        → IsReaction config.now done (first ∷ rest.now) reaction → IsMet config.now done first rest.now result }
    ensures few { result ≤ most_wait + 2 * MAX_SPAN }
{
    let whole = course_of(config, first, rest);
    let pace = whole.pace;
    let slowest = level_row(config, pace.level as usize).period;
    let own = level_row(config, level_of(config, whole.last) as usize).period;
    pace.before + pace.lag + (slowest - own) as u64 + done_by(config, whole.last) as u64
}

/// A tick at which an event has to wait longest: the chain has answered it only after its whole reaction time.
pub fn worst_event(config: &Config, first: u32, rest: &[u32]) -> u64
    requires checked { IsChecked config.now }
    requires limits { IsWithinLimits config.now }
    requires there { AreThere config.now (first ∷ rest.now) }
    requires few { length rest.now < MAX_PROCESSES }
    ensures worst { (done : ℕ → ℕ) (reaction : ℕ) → AreDone config.now done
        → IsReaction config.now done (first ∷ rest.now) reaction
        → answered config.now done (first ∷ rest.now) result ≡ result + reaction }
    ensures few { result ≤ most_wait + MAX_SPAN }
{
    let pace = course_of(config, first, rest).pace;
    let period = level_row(config, pace.level as usize).period;
    round_up(pace.before, period) + 1 - pace.before
}

/// The start of the first window of the process at this tick or after.
pub fn next_window(config: &Config, process: u32, tick: u64) -> u64
    requires checked { IsChecked config.now }
    requires limits { IsWithinLimits config.now }
    requires exists { process < length config.now.processes }
    requires few { tick ≤ 2 * most_wait }
    ensures start { result ≡ next_start config.now process tick }
    ensures after { tick ≤ result }
    ensures few { result ≤ tick + MAX_SPAN }
{
    round_up(
        tick,
        level_row(config, level_of(config, process) as usize).period,
    )
}

/// From which tick a window of q has to start, so that its job begins only when that of p in the window from this start is
/// over.
pub fn free_from(config: &Config, p: u32, q: u32, start: u64) -> u64
    requires checked { IsChecked config.now }
    requires limits { IsWithinLimits config.now }
    requires first { p < length config.now.processes }
    requires second { q < length config.now.processes }
    requires few { start ≤ 2 * most_wait }
    ensures from { (done : ℕ → ℕ) → AreDone config.now done → result ≡ free_from config.now done p q start }
    ensures after { start ≤ result }
    ensures few { result ≤ start + MAX_SPAN }
{
    start + gap(config, p, q) as u64
}
