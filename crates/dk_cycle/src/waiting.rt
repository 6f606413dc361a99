//! Whether the main of a process waits in each of its windows, for ever.
ghost use Rattle.std.specs.Prelude.{ℕ, List, [], ◌≡◌, ◌+◌, ◌<◌, length};
ghost use Rattle.dk_config.specs.declared.TheConstants.{MAX_TICKS};
ghost use Rattle.dk_config.specs.Checked.{IsChecked};
ghost use Rattle.dk_cycle.specs.Waiting.{WaitsAreTold, main_waits, waits_of, waits_told};

use crate::Cycle;
use crate::keeping::Keeping;
use crate::own::{OwnSearch, level_of, period_of};
use dk_alone::{first_windows_law, windows_law};
use dk_config::{Config, MAX_TICKS};
use dk_trace::{Entry, Event, ThreadId};

/// Whether the main of a process waits in each window of its level.
#[derive(Clone, Copy)]
pub enum Waits {
    /// In each window, for ever, in every run in which the process has this program.
    Always,
    /// Not in the window that begins at this tick, in any such run.
    NotFrom(u32),
    /// That isn't known: it did so far, and no cycle of the process was found.
    NotWithin,
    /// That isn't known: the process doesn't keep to itself, for this reason.
    Unknown(Keeping),
}

/// What is seen of the windows of a process's main, tick by tick.
#[derive(Clone, Copy)]
pub struct WaitWatch {
    pub process: u8,
    /// The period of its main's level.
    pub period: u32,
    /// The tick at which the present window began.
    pub begins: u32,
    /// The ticks of this window so far.
    pub passed: u32,
    /// The main waited in one of them.
    pub waited: bool,
    /// The tick at which the first window began that is over and in which the main didn't wait.
    pub missed: Option<u32>,
}

/// Whether the main of the process waits in the entry.
fn main_waits(process: u8, entry: &Entry) -> bool
    ensures { result ≡ main_waits process entry.now }
{
    let main = ThreadId { process, serial: 0 };
    match entry.event {
        Some(Event::Wait) => entry.label.is_of(main),
        _ => false,
    }
}

impl WaitWatch {
    ghost use Rattle.std.specs.Prelude.{[], ℕ, List};
    ghost use Rattle.dk_config.specs.Checked.{IsChecked};
    ghost use Rattle.dk_cycle.specs.Waiting.{IsWaitWatch, Watches, first_missed};

    /// Before the first tick.
    pub fn new(config: &Config, process: u8) -> WaitWatch
        requires checked { IsChecked config.now }
        requires known { process < length config.now.processes }
        ensures watch { (programs : List (List ℕ)) → IsWaitWatch config.now programs 0 result }
        ensures process { result.process ≡ process }
    {
        WaitWatch {
            process,
            period: period_of(config, level_of(config, process) as usize),
            begins: 0,
            passed: 0,
            waited: false,
            missed: None,
        }
    }

    /// The first window without a wait, with the present one, which is over.
    fn missed_with(&self, waited: bool) -> Option<u32>
        ensures { result ≡ first_missed self.now.missed waited self.now.begins }
    {
        match self.missed {
            Some(tick) => Some(tick),
            None => { if waited { None } else { Some(self.begins) } }
        }
    }

    /// Sees the entry of the next tick.
    pub fn follow(&mut self, entry: &Entry)
        requires within { self.old.passed < self.old.period }
        requires room { self.old.begins + self.old.passed < MAX_TICKS }
        ensures watches { Watches self.old entry.now self.new }
        ensures process { self.new.process ≡ self.old.process }
    {
        let waited = main_waits(self.process, entry) || self.waited;
        let passed = self.passed + 1;
        if passed < self.period {
            self.passed = passed;
            self.waited = waited;
        } else {
            self.missed = self.missed_with(waited);
            self.begins += passed;
            self.passed = 0;
            self.waited = false;
        }
    }
}

/// What is told of a process that keeps to itself.
fn waits_of(missed: Option<u32>, cycle: Option<Cycle>) -> Waits
    ensures { result ≡ waits_of missed cycle }
{
    match missed {
        Some(tick) => Waits::NotFrom(tick),
        None => match cycle {
            Some(_) => Waits::Always,
            None => Waits::NotWithin,
        },
    }
}

/// What a search and a watch of a process tell, that have seen the same ticks.
pub fn waits_told(search: &OwnSearch, watch: &WaitWatch) -> Waits
    ensures { result ≡ waits_told search.now watch.now }
{
    match search.keeping {
        Keeping::Keeps => waits_of(watch.missed, search.cycle),
        Keeping::ReadsTick => Waits::Unknown(Keeping::ReadsTick),
        Keeping::HasThreads => Waits::Unknown(Keeping::HasThreads),
        Keeping::HasSlack => Waits::Unknown(Keeping::HasSlack),
    }
}

/// What is told of a process holds in every run in which it has this program, whatever programs the others have.
pub fn waits_law()
    ensures { WaitsAreTold }
{
    windows_law();
    first_windows_law();
}
