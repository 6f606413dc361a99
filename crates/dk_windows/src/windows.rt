//! The present windows of all levels.
use crate::period::Period;
use crate::row::{Window, move_on};
use arrayvec::ArrayVec;
use dk_config::{Config, MAX_LEVELS, MAX_TICKS};
use std::marker::Model;

/// The present tick, and the window of each level that it lies in. It is seen as the tick and the
/// levels' periods, which no call changes.
#[derive(Drop)]
pub struct Windows {
    tick: u32,
    rows: ArrayVec<Window, MAX_LEVELS>,
}

impl Model for Windows {
    ghost use Rattle.std.specs.Prelude.{◌≤◌};
    ghost use Rattle.dk_config.specs.declared.TheConstants.{MAX_TICKS};
    ghost use Rattle.dk_windows.specs.Clock.{Clock};
    ghost use Rattle.dk_windows.specs.Rows.{AreNested, AreWindowsAt, periods_in};

    ghost Value = { Clock };

    ghost view = { λ w. record { tick = w.tick; periods = periods_in w.rows.items } };

    ghost invariant = { λ w. AreWindowsAt w.tick w.rows.items × AreNested w.rows.items × (w.tick ≤ MAX_TICKS) };
}

impl Windows {
    ghost use Rattle.std.specs.Prelude.{◌≡◌, ◌+◌, ◌<◌, ◌≤◌, length};
    ghost use Rattle.dk_config.specs.Checked.{IsChecked, IsWithinLimits};
    ghost use Rattle.dk_windows.specs.Clock.{clock_at, start_at, end_at, begins_at, passed, period_at};

    /// The windows at tick 0. This divides, once for each level; the other calls don't.
    pub fn at_start(config: &Config) -> Windows
        requires checked { IsChecked config.now }
        requires limits { IsWithinLimits config.now }
        ensures { result ≡ clock_at config.now 0 }
    {
        let mut rows = ArrayVec::new();
        for level in &config.levels {
            rows.push(Window {
                period: Period::of(level.period),
                start: 0,
            });
        }
        Windows { tick: 0, rows }
    }

    /// Goes to the next tick.
    pub fn advance(&mut self)
        requires { self.old.tick < MAX_TICKS }
        ensures { self.new ≡ record self.old { tick = self.old.tick + 1 } }
    {
        let next = self.tick + 1;
        move_on(self.rows.as_mut_slice(), next);
        self.tick = next;
    }

    /// Goes on by so many ticks, up to before the end of the first level's window: no window begins.
    pub fn pass(&mut self, count: u32)
        requires room { self.old.tick + count ≤ MAX_TICKS }
        requires known { 0 < length self.old.periods }
        requires within { self.old.tick + count < end_at self.old 0 }
        ensures { self.new ≡ passed count self.old }
    {
        self.tick += count;
    }

    /// The present tick, at most 4,000,000,000.
    pub fn now(&self) -> u32
        ensures { result ≡ self.now.tick }
    {
        self.tick
    }

    /// Where the window of the level starts that the present tick lies in.
    pub fn start(&self, level: u8) -> u32
        requires { level < length self.now.periods }
        ensures { result ≡ start_at self.now level }
    {
        self.rows[level as usize].start
    }

    /// Where that window ends, which is where the next one starts.
    pub fn end(&self, level: u8) -> u32
        requires { level < length self.now.periods }
        ensures { result ≡ end_at self.now level }
    {
        let row = &self.rows[level as usize];
        row.start + row.period.ticks()
    }

    /// The length of the level's windows.
    pub fn period(&self, level: u8) -> Period
        requires { level < length self.now.periods }
        ensures { result ≡ period_at self.now level }
    {
        self.rows[level as usize].period
    }

    /// Whether a window of the level begins at the present tick.
    pub fn begins(&self, level: u8) -> bool
        requires { level < length self.now.periods }
        ensures { result ≡ begins_at self.now level }
    {
        self.start(level) == self.tick
    }
}
