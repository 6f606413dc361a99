//! The search for a cycle of a whole run.
ghost use Rattle.std.specs.Prelude.{ℕ, List, ◌≡◌, ◌-◌, ◌<◌, ◌≤◌, ◌%◌, length, true, false, option_map, is_some, IfSome};
ghost use Rattle.std.specs.Option.{option_map_or};
ghost use Rattle.dk_config.specs.Checked.{IsChecked, IsWithinLimits};
ghost use Rattle.dk_repeat.specs.Repeat.{keeps_threads};
ghost use Rattle.dk_cycle.specs.Start.{with_start};
ghost use Rattle.dk_cycle.specs.Run.{AreAllProcesses, AreAllThreads, GoesOn, IsLongest, IsSameProcess, last_reader};

use crate::Cycle;
use crate::made::{Made, last_made};
use crate::own::{period_of, same_context};
use dk_config::Config;
use dk_cpu::Context;
use dk_repeat::{forever_law, kept_law, reads_law, stand_on_law};
use dk_trace::{Entry, Event};

/// A thread, by its serial, and its context.
#[derive(Clone, Copy)]
pub struct ThreadState {
    pub serial: u32,
    pub context: Context,
}

/// What a process is at a tick: its memory, and its threads that may run on.
#[derive(Drop)]
pub struct ProcessState {
    pub words: Vec<u32>,
    pub threads: Vec<ThreadState>,
}

/// What a run is at a tick, process by process.
#[derive(Drop)]
pub struct RunState {
    pub tick: u32,
    pub processes: Vec<ProcessState>,
}

/// The search for a cycle of a whole run.
#[derive(Drop)]
pub struct RunSearch {
    /// A multiple of all periods.
    pub longest: u32,
    /// The process whose thread read the tick last.
    pub reader: Option<u8>,
    /// The child that was made last.
    pub made: Option<Made>,
    /// What the run was at a tick at which the windows of all levels began.
    pub saved: Option<RunState>,
    /// No thread was made or stopped since, and the tick wasn't read.
    pub kept: bool,
    /// What was found.
    pub cycle: Option<Cycle>,
}

fn same_thread(one: &ThreadState, other: &ThreadState) -> bool
    ensures same { result ≡ true → one.now ≡ other.now }
    ensures only { one.now ≡ other.now → result ≡ true }
{
    one.serial == other.serial && same_context(&one.context, &other.context)
}

/// Whether the threads of the one list are at their places in the other, and no more are there.
fn same_threads(one: &[ThreadState], other: &[ThreadState]) -> bool
    ensures same { result ≡ true → AreAllThreads one.now other.now }
    ensures only { AreAllThreads one.now other.now → result ≡ true }
{
    if one.len() != other.len() {
        return false;
    }
    for place in 0..one.len() {
        if !same_thread(&one[place], &other[place]) {
            return false;
        }
    }
    true
}

fn same_process(one: &ProcessState, other: &ProcessState) -> bool
    ensures same { result ≡ true → IsSameProcess one.now other.now }
    ensures only { IsSameProcess one.now other.now → result ≡ true }
{
    one.words.as_slice() == other.words.as_slice()
        && same_threads(one.threads.as_slice(), other.threads.as_slice())
}

impl ProcessState {
    ghost use Rattle.dk_cycle.specs.Run.{IsOtherProcess};

    /// Whether the process had this memory, and its main, where it ran on, this context.
    pub fn had(&self, context: &Context, words: &[u32]) -> bool
        ensures { result ≡ false → IsOtherProcess self.now context.now words.now }
    {
        if self.words.as_slice() != words {
            return false;
        }
        match self.threads.get(0) {
            Some(main) => main.serial != 0 || same_context(&main.context, context),
            None => true,
        }
    }
}

/// Whether the processes are the same.
fn same_processes(one: &[ProcessState], other: &[ProcessState]) -> bool
    ensures same { result ≡ true → AreAllProcesses one.now other.now }
    ensures only { AreAllProcesses one.now other.now → result ≡ true }
{
    if one.len() != other.len() {
        return false;
    }
    for process in 0..one.len() {
        if !same_process(&one[process], &other[process]) {
            return false;
        }
    }
    true
}

/// Whether the entry neither makes nor stops a thread.
#[inline(always)]
fn keeps_threads(entry: &Entry) -> bool
    ensures { result ≡ option_map_or keeps_threads entry.now.event true }
{
    match entry.event {
        None => true,
        Some(Event::Create { .. }) => false,
        Some(Event::Delete(_)) => false,
        Some(Event::Exit) => false,
        Some(Event::Fault(_)) => false,
        Some(_) => true,
    }
}

/// Whether a search goes on to keep what it keeps: no thread was made or stopped so far, nor is one in this entry, and nobody
/// read the tick in it.
#[inline(always)]
pub(crate) fn goes_on(kept: bool, entry: &Entry, reader: Option<u8>) -> bool
    ensures same { result ≡ true → GoesOn kept entry.now reader }
    ensures only { GoesOn kept entry.now reader → result ≡ true }
{
    kept && keeps_threads(entry) && reader.is_none()
}

/// Who read the tick last, where it was read by this process before, and then by that one.
#[inline(always)]
fn last_reader(before: Option<u8>, now: Option<u8>) -> Option<u8>
    ensures { result ≡ last_reader before now }
{
    match now {
        Some(process) => Some(process),
        None => before,
    }
}

/// The longest period, a multiple of all.
fn longest_of(config: &Config) -> u32
    requires checked { IsChecked config.now }
    requires limits { IsWithinLimits config.now }
    ensures { IsLongest config.now result }
{
    period_of(config, config.levels.len() - 1)
}

impl RunSearch {
    ghost use Rattle.dk_config.specs.Checked.{IsWithinLimits};
    ghost use Rattle.dk_cycle.specs.Run.{FindsRun, Follows, IsBackRun, IsFoundRun, IsRunSearch, LooksAtRun};
    ghost use Rattle.dk_cycle.specs.Seeking.{FollowsOn, HasLookedAtRun, IsOldRun, IsYoungRun, LooksOnRun};
    ghost use Rattle.dk_cycle.specs.Start.{StartsAt};

    /// Before the first tick.
    pub fn new(config: &Config) -> RunSearch
        requires checked { IsChecked config.now }
        requires limits { IsWithinLimits config.now }
        ensures run { (programs : List (List ℕ)) → IsRunSearch config.now programs 0 result }
        ensures looked { (programs : List (List ℕ)) → HasLookedAtRun config.now programs 0 0 result }
    {
        RunSearch {
            longest: longest_of(config),
            reader: None,
            made: None,
            saved: None,
            kept: true,
            cycle: None,
        }
    }

    /// Whether nothing is looked for any more.
    pub fn is_done(&self) -> bool
        ensures { result ≡ is_some self.now.cycle }
    {
        self.cycle.is_some()
    }

    /// In how many ticks the windows of all levels begin next: in a whole longest period where they begin at the tick.
    pub fn wait(&self, tick: u32) -> u32
        requires { 0 < self.now.longest }
        ensures some { 1 ≤ result }
        ensures begins { result ≡ self.now.longest → tick % self.now.longest ≡ 0 }
        ensures is { result ≡ self.now.longest - tick % self.now.longest }
    {
        self.longest - tick % self.longest
    }

    /// Looks at the entry of the next tick, in which a thread of this process read the tick, or nobody did.
    #[inline(always)]
    pub fn follow(&mut self, tick: u32, entry: &Entry, reader: Option<u8>)
        ensures run { Follows self.old tick entry.now reader self.new }
        ensures looked { FollowsOn self.old tick entry.now reader self.new }
    {
        kept_law();
        reads_law();
        self.made = last_made(self.made, tick, entry);
        self.kept = goes_on(self.kept, entry, reader);
        self.reader = last_reader(self.reader, reader);
    }

    /// The cycle that ends now, where no thread was made or stopped, the tick wasn't read, and the run is what it was at the
    /// tick that is kept.
    fn ends(&self, now: &RunState) -> Option<Cycle>
        ensures found { IfSome result (IsFoundRun self.now.saved self.now.kept now.now) }
        ensures finds { IsBackRun self.now.saved self.now.kept now.now → is_some result ≡ true }
    {
        match &self.saved {
            None => None,
            Some(saved) => {
                if self.kept
                    && saved.tick < now.tick
                    && same_processes(saved.processes.as_slice(), now.processes.as_slice())
                {
                    Some(Cycle {
                        start: saved.tick,
                        length: now.tick - saved.tick,
                    })
                } else {
                    None
                }
            }
        }
    }

    /// Whether what is kept is as old as the run was then, so that the search goes on from now (after Brent 1980). Where a
    /// thread was made or stopped since, or the tick was read, it does so an eighth of the run later: so a run in which
    /// that goes on isn't kept each time.
    pub fn is_due(&self, tick: u32) -> bool
        ensures old { result ≡ true → self.now.kept ≡ true → IsOldRun self.now.saved tick }
        ensures young { result ≡ false → IsYoungRun self.now.saved tick }
    {
        match &self.saved {
            None => true,
            Some(saved) => {
                let late = if self.kept { tick / 2 } else { tick - tick / 8 };
                saved.tick <= late
            }
        }
    }

    /// Looks at what the run is now, where the windows of all levels begin.
    pub fn look(&mut self, now: RunState)
        ensures run { LooksAtRun self.old now self.new }
        ensures finds { FindsRun self.old now self.new }
        ensures looked { LooksOnRun self.old now self.new }
    {
        forever_law();
        stand_on_law();
        if let Some(cycle) = self.ends(&now) {
            self.cycle = Some(cycle);
            return;
        }
        if self.is_due(now.tick) {
            self.saved = Some(now);
            self.kept = true;
        }
    }

    /// Lets the cycle start at an earlier tick, at which the run stands again as much later.
    pub fn start_at(&mut self, start: u32)
        ensures run { StartsAt self.old start self.new }
        ensures cycle { self.new.cycle ≡ option_map (with_start start) self.old.cycle }
    {
        forever_law();
        if let Some(cycle) = self.cycle {
            self.cycle = Some(Cycle {
                start,
                length: cycle.length,
            });
        }
    }
}
