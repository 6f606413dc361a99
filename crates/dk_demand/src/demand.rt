mod waiting;

use crate::cells::{adjust_between, ahead, run_up_to};
use arrayvec::ArrayVec;
use dk_config::{Config, MAX_LEVELS, MAX_TICKS};
use dk_steps::Steps;
use dk_windows::Windows;
use std::marker::Model;
use std::ops::Range;
use std::sync::ledger::Ledger;

/// What each level needs before its window ends. It is seen as three lists of ticks with an item for
/// each level, `own`, `remaining` and `blocking`, and the windows at the present tick. Each write of an
/// item is one step.
///
/// A tick of work lowers `remaining` of its level and of all slower ones. So that it writes one number
/// whatever the levels, each level has a counter that is never set back, and `own` and `remaining` are
/// kept as marks ahead of the counters: what is seen is how far it is yet to the mark. Counters and
/// marks begin anew after 2^64, and their differences hold all the same.
///
/// Up to which tick each level can wait is kept in mind as long as no cell changes, since slack mostly comes in many
/// ticks one after the other.
#[derive(Drop)]
pub struct Demand {
    windows: Windows,
    // The ticks of each level's own work that were done or dropped since the start.
    gone: ArrayVec<u64, MAX_LEVELS>,
    // The count of `gone` of each level with which its own work ends.
    own: ArrayVec<u64, MAX_LEVELS>,
    // The sum of `gone` of the levels up to each one with which all that they need ends.
    remaining: ArrayVec<u64, MAX_LEVELS>,
    // How long slower holders can keep each level waiting.
    blocking: ArrayVec<u32, MAX_LEVELS>,
    // At each tick before this one no level is unfit, as long as no cell changes. 0 where that isn't known.
    fit_before: u32,
}

impl Model for Demand {
    ghost use Rattle.dk_demand.specs.Cells.{Cells, HasEachLevel};
    ghost use Rattle.dk_demand.specs.Counters.{own_by, remaining_by};
    ghost use Rattle.dk_demand.specs.Waiting.{FitBefore};

    ghost Value = { Cells };

    ghost view = { λ d. record {
      own = own_by d.gone.items d.own.items;
      remaining = remaining_by d.gone.items d.remaining.items;
      blocking = d.blocking.items;
      windows = d.windows;
    } };

    ghost invariant = { λ d. HasEachLevel d.windows d.gone.items
        × HasEachLevel d.windows d.own.items
        × HasEachLevel d.windows d.remaining.items
        × HasEachLevel d.windows d.blocking.items
        × FitBefore d.fit_before (record {
          own = own_by d.gone.items d.own.items;
          remaining = remaining_by d.gone.items d.remaining.items;
          blocking = d.blocking.items;
          windows = d.windows;
        }) };
}

impl Demand {
    ghost use Rattle.std.specs.Prelude.{ℕ, ◌≡◌, ◌+◌, ◌-◌, ◌<◌, ◌≤◌, ◌^◌, length, slice_index};
    ghost use Rattle.dk_config.specs.Checked.{IsChecked, IsWithinLimits};
    ghost use Rattle.dk_demand.specs.Cells.{cells_at_start, dropped_cells, first_unfit, future_cells, held_cells, is_unfit, next_tick, released_cells};
    ghost use Rattle.dk_windows.specs.Clock.{end_at, passed};
    ghost use Rattle.dk_demand.specs.Levels.{adjusted};

    /// Tick 0, with all cells 0.
    pub fn at_start(config: &Config) -> Demand
        requires checked { IsChecked config.now }
        requires limits { IsWithinLimits config.now }
        ensures { result ≡ cells_at_start config.now }
    {
        let mut gone = ArrayVec::new();
        let mut own = ArrayVec::new();
        let mut remaining = ArrayVec::new();
        let mut blocking = ArrayVec::new();
        for _level in &config.levels {
            gone.push(0);
            own.push(0);
            remaining.push(0);
            blocking.push(0);
        }
        Demand {
            windows: Windows::at_start(config),
            gone,
            own,
            remaining,
            blocking,
            fit_before: 0,
        }
    }

    /// A window of the level begins: sets its three cells, in ticks. Three steps.
    pub fn released<L: Ledger>(
        &mut self,
        level: u8,
        own: u64,
        remaining: u64,
        blocking: u32,
        steps: &mut Steps<L>,
    )
        requires { level < length self.old.windows.periods }
        ensures cells { self.new ≡ released_cells level own remaining blocking self.old }
        ensures steps { steps.new ≡ steps.old + 3 }
    {
        self.fit_before = 0;
        self.own[level as usize] = own.wrapping_add(self.gone[level as usize]);
        steps.tick();
        self.remaining[level as usize] = remaining.wrapping_add(run_up_to(&self.gone, level));
        steps.tick();
        self.blocking[level as usize] = blocking;
        steps.tick();
    }

    /// One tick of work at the level was done: lowers its own demand, and the remaining demand of the level
    /// and of all slower ones. One step.
    #[inline(always)]
    pub fn spent<L: Ledger>(&mut self, level: u8, steps: &mut Steps<L>)
        requires known { level < length self.old.windows.periods }
        requires own { 0 < slice_index self.old.own level }
        requires remaining { (j : ℕ) → level ≤ j → j < length self.old.windows.periods
            → 0 < slice_index self.old.remaining j }
        ensures cells { self.new ≡ dropped_cells level 1 self.old }
        ensures steps { steps.new ≡ steps.old + 1 }
    {
        self.dropped(level, 1, steps);
    }

    /// As much work of the level as `own` says, in ticks, is no longer to be done: lowers by that amount what
    /// `spent` lowers by one. One step.
    #[inline(always)]
    pub fn dropped<L: Ledger>(&mut self, level: u8, own: u64, steps: &mut Steps<L>)
        requires known { level < length self.old.windows.periods }
        requires own { own ≤ slice_index self.old.own level }
        requires remaining { (j : ℕ) → level ≤ j → j < length self.old.windows.periods
            → own ≤ slice_index self.old.remaining j }
        ensures cells { self.new ≡ dropped_cells level own self.old }
        ensures steps { steps.new ≡ steps.old + 1 }
    {
        self.fit_before = 0;
        self.gone[level as usize] = self.gone[level as usize].wrapping_add(own);
        steps.tick();
    }

    /// The level needs so many ticks less before its window ends: shares of windows to come are lost. One step.
    pub fn lower_remaining<L: Ledger>(&mut self, level: u8, ticks: u64, steps: &mut Steps<L>)
        requires known { level < length self.old.windows.periods }
        requires low { ticks ≤ slice_index self.old.remaining level }
        ensures cells { self.new ≡ future_cells level ticks 0 self.old }
        ensures steps { steps.new ≡ steps.old + 1 }
    {
        self.fit_before = 0;
        let mark = self.remaining[level as usize];
        self.remaining[level as usize] = mark.wrapping_sub(ticks);
        steps.tick();
    }

    /// A thread can keep each of these levels waiting for so many ticks more: those from its mutex's ceiling up to
    /// but without the one at which it ran before it took the mutex. A step for each of these levels.
    #[inline(always)]
    pub fn raise_blocking<L: Ledger>(&mut self, levels: Range<u8>, ticks: u32, steps: &mut Steps<L>)
        requires known { levels.end ≤ length self.old.windows.periods }
        requires high { (j : ℕ) → levels.start ≤ j → j < levels.end
            → slice_index self.old.blocking j + ticks < 2 ^ 32 }
        ensures cells { self.new ≡ held_cells levels.end levels.start 0 ticks self.old }
        ensures steps { steps.new ≡ steps.old + (levels.end - levels.start) }
    {
        self.adjust_blocking(levels, 0, ticks, steps);
    }

    /// It can keep each of these levels waiting for so many ticks less. A step for each of these levels.
    #[inline(always)]
    pub fn lower_blocking<L: Ledger>(&mut self, levels: Range<u8>, ticks: u32, steps: &mut Steps<L>)
        requires known { levels.end ≤ length self.old.windows.periods }
        requires low { (j : ℕ) → levels.start ≤ j → j < levels.end → ticks ≤ slice_index self.old.blocking j }
        ensures cells { self.new ≡ held_cells levels.end levels.start ticks 0 self.old }
        ensures steps { steps.new ≡ steps.old + (levels.end - levels.start) }
    {
        self.adjust_blocking(levels, ticks, 0, steps);
    }

    /// Takes `less` off the blocking of these levels, and adds `more`. A step for each of them.
    fn adjust_blocking<L: Ledger>(
        &mut self,
        levels: Range<u8>,
        less: u32,
        more: u32,
        steps: &mut Steps<L>,
    )
        requires known { levels.end ≤ length self.old.windows.periods }
        requires low { (j : ℕ) → levels.start ≤ j → j < levels.end
            → less ≤ slice_index self.old.blocking j + more }
        requires high { 0 < more → (j : ℕ) → levels.start ≤ j → j < levels.end
            → adjusted less more (slice_index self.old.blocking j) < 2 ^ 32 }
        ensures cells { self.new ≡ held_cells levels.end levels.start less more self.old }
        ensures steps { steps.new ≡ steps.old + (levels.end - levels.start) }
    {
        self.fit_before = 0;
        adjust_between(&mut self.blocking, levels, less, more, steps);
    }

    /// Goes to the next tick. No cell changes.
    pub fn tick(&mut self)
        requires { self.old.windows.tick < MAX_TICKS }
        ensures { self.new ≡ record self.old { windows = next_tick self.old.windows } }
    {
        self.windows.advance();
    }

    /// Goes on by so many ticks, up to before the end of the first level's window. No cell changes.
    pub fn pass(&mut self, count: u32)
        requires room { self.old.windows.tick + count ≤ MAX_TICKS }
        requires known { 0 < length self.old.windows.periods }
        requires within { self.old.windows.tick + count < end_at self.old.windows 0 }
        ensures { self.new ≡ record self.old { windows = passed count self.old.windows } }
    {
        self.windows.pass(count);
    }

    /// The windows at the present tick.
    pub fn windows(&self) -> &Windows
        ensures { result.now ≡ self.now.windows }
    {
        &self.windows
    }

    /// What the levels up to this one need before its window ends, in ticks.
    pub fn remaining(&self, level: u8) -> u64
        requires { level < length self.now.windows.periods }
        ensures { result ≡ slice_index self.now.remaining level }
    {
        ahead(self.remaining[level as usize], run_up_to(&self.gone, level))
    }

    /// The unfinished work of the level itself, in ticks.
    pub fn own(&self, level: u8) -> u64
        requires { level < length self.now.windows.periods }
        ensures { result ≡ slice_index self.now.own level }
    {
        ahead(self.own[level as usize], self.gone[level as usize])
    }

    /// How long slower holders can keep the level waiting, in ticks.
    pub fn blocking(&self, level: u8) -> u32
        requires { level < length self.now.windows.periods }
        ensures { result ≡ slice_index self.now.blocking level }
    {
        self.blocking[level as usize]
    }
}
