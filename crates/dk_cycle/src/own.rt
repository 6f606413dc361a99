//! The search for a cycle of one process by itself.
ghost use Rattle.std.specs.Prelude.{ℕ, List, [], ◌≡◌, ◌-◌, ◌<◌, ◌≤◌, ◌%◌, length, slice_index_or, true, false, IfSome, is_some};
ghost use Rattle.dk_config.specs.Configuration.{Configuration};
ghost use Rattle.dk_config.specs.Checked.{IsChecked};
ghost use Rattle.dk_config.specs.Windows.{main_level, period};
ghost use Rattle.dk_cycle.specs.Own.{IsOwnSearch, IsSameMain};
ghost use Rattle.dk_cycle.specs.Seeking.{HasLooked};

use crate::Cycle;
use crate::keeping::{Keeping, keeping_of};
use dk_alone::{again_law, own_stand_law};
use dk_config::Config;
use dk_cpu::Context;

/// What a process is at a tick: whether its main was stopped, that main's context, and its memory.
#[derive(Drop)]
pub struct MainState {
    pub tick: u32,
    pub stopped: bool,
    pub context: Context,
    pub words: Vec<u32>,
}

/// The search for a cycle of one process by itself.
#[derive(Drop)]
pub struct OwnSearch {
    pub process: u8,
    /// The period of its main's level.
    pub period: u32,
    pub keeping: Keeping,
    /// What it was at a tick at which a window of its main began.
    pub saved: Option<MainState>,
    /// What was found.
    pub cycle: Option<Cycle>,
}

pub(crate) fn period_of(config: &Config, level: usize) -> u32
    ensures { result ≡ period config.now level }
{
    match config.levels.get(level) {
        Some(row) => row.period,
        None => 0,
    }
}

pub(crate) fn level_of(config: &Config, process: u8) -> u32
    ensures { result ≡ main_level config.now process }
{
    match config.processes.get(process as usize) {
        Some(row) => row.level,
        None => 0,
    }
}

/// Whether two contexts are equal.
pub fn same_context(one: &Context, other: &Context) -> bool
    ensures same { result ≡ true → one.now ≡ other.now }
    ensures only { one.now ≡ other.now → result ≡ true }
{
    one.pc == other.pc && one.left == other.left && one.regs == other.regs
}

/// Whether the process is the same, but for the tick.
fn same_main(one: &MainState, other: &MainState) -> bool
    ensures same { result ≡ true → IsSameMain one.now other.now }
    ensures only { IsSameMain one.now other.now → result ≡ true }
{
    one.stopped == other.stopped
        && same_context(&one.context, &other.context)
        && one.words.as_slice() == other.words.as_slice()
}

impl OwnSearch {
    ghost use Rattle.std.specs.Prelude.{[], slice_index_or, ℕ, List, ◌-◌, ◌%◌};
    ghost use Rattle.dk_config.specs.Configuration.{Configuration};
    ghost use Rattle.dk_cycle.specs.Own.{Finds, IsBack, IsFound, IsGone, IsMainState, IsOwnSearch, Looks};
    ghost use Rattle.dk_cycle.specs.Seeking.{HasLooked, IsDone, IsOld, IsYoung, LooksOn};

    /// Before the first tick, of the process with this program.
    pub fn new(config: &Config, process: u8, program: &[u8]) -> OwnSearch
        requires checked { IsChecked config.now }
        requires known { process < length config.now.processes }
        ensures own { (programs : List (List ℕ)) → slice_index_or programs process [] ≡ program.now
            → IsOwnSearch config.now programs 0 result }
        ensures looked { (programs : List (List ℕ)) → HasLooked config.now programs 0 result }
        ensures process { result.process ≡ process }
    {
        OwnSearch {
            process,
            period: period_of(config, level_of(config, process) as usize),
            keeping: keeping_of(config, process, program),
            saved: None,
            cycle: None,
        }
    }

    /// Whether nothing is looked for any more: a cycle was found, or none would tell of other runs.
    pub fn is_done(&self) -> bool
        ensures { result ≡ true → IsDone self.now }
    {
        !matches!(self.keeping, Keeping::Keeps) || self.cycle.is_some()
    }

    /// In how many ticks the next window of the main begins: in a whole period where one begins at the tick.
    pub fn wait(&self, tick: u32) -> u32
        requires { 0 < self.now.period }
        ensures some { 1 ≤ result }
        ensures begins { result ≡ self.now.period → tick % self.now.period ≡ 0 }
        ensures is { result ≡ self.now.period - tick % self.now.period }
    {
        self.period - tick % self.period
    }

    /// Whether the process had this memory, and its main this context, at the tick that is kept.
    pub fn had(&self, context: &Context, words: &[u32]) -> bool
        ensures { result ≡ false → IsGone self.now.saved context.now words.now }
    {
        match &self.saved {
            None => false,
            Some(saved) => {
                same_context(&saved.context, context) && saved.words.as_slice() == words
            }
        }
    }

    /// The cycle that ends now, where the process is what it was at the tick that is kept.
    fn ends(&self, now: &MainState) -> Option<Cycle>
        ensures found { IfSome result (IsFound self.now.saved now.now) }
        ensures finds { IsBack self.now.saved now.now → is_some result ≡ true }
    {
        match &self.saved {
            None => None,
            Some(saved) => {
                if saved.tick < now.tick && same_main(saved, now) {
                    Some(Cycle {
                        start: saved.tick,
                        length: now.tick - saved.tick,
                    })
                } else {
                    None
                }
            }
        }
    }

    /// Whether what is kept is as old as the run was then, so that the search goes on from now (after Brent 1980).
    pub fn is_due(&self, tick: u32) -> bool
        ensures old { result ≡ true → IsOld self.now.saved tick }
        ensures young { result ≡ false → IsYoung self.now.saved tick }
    {
        match &self.saved {
            None => true,
            Some(saved) => saved.tick <= tick / 2,
        }
    }

    /// Looks at what the process is now, where a window of its main begins.
    pub fn look(&mut self, now: MainState)
        ensures own { Looks self.old now self.new }
        ensures finds { Finds self.old now self.new }
        ensures looked { LooksOn self.old now self.new }
        ensures process { self.new.process ≡ self.old.process }
    {
        again_law();
        own_stand_law();
        if let Some(cycle) = self.ends(&now) {
            self.cycle = Some(cycle);
            return;
        }
        if self.is_due(now.tick) {
            self.saved = Some(now);
        }
    }
}
