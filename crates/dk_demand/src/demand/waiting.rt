//! Whether a tick of slack fits, and up to when one does.
use super::Demand;
use crate::cells::ahead;

impl Demand {
    ghost use Rattle.std.specs.Prelude.{ℕ, ◌≡◌, ◌+◌, ◌<◌, None, length, slice_index};
    ghost use Rattle.dk_demand.specs.Cells.{first_unfit, is_unfit};
    ghost use Rattle.dk_demand.specs.Waiting.{CanWaitBefore, FitBefore, at_tick};

    /// The first level that has work and could not wait one tick longer. None where there is no such
    /// level, and one tick of slack fits.
    pub fn first_unfit(&self) -> Option<u8>
        ensures { result ≡ first_unfit self.now }
    {
        if self.windows.now() < self.fit_before {
            return None;
        }
        let mut run: u64 = 0;
        for level in 0..self.own.len() as u8 {
            run = run.wrapping_add(self.gone[level as usize]);
            let remaining = ahead(self.remaining[level as usize], run);
            if self.is_unfit(level, remaining) {
                return Some(level);
            }
        }
        None
    }

    /// Whether the level is unfit, of which it is known what remains.
    fn is_unfit(&self, level: u8, remaining: u64) -> bool
        requires known { level < length self.now.windows.periods }
        requires remaining { remaining ≡ slice_index self.now.remaining level }
        ensures { result ≡ is_unfit self.now level }
    {
        if self.own(level) == 0 {
            return false;
        }
        // The window of the present tick ends after it.
        let left = self.windows.end(level).saturating_sub(self.windows.now());
        match (left as u64).checked_sub(remaining) {
            Some(room) => room <= self.blocking(level) as u64,
            None => true,
        }
    }

    /// Works out, where it isn't known, up to which tick no level is unfit as long as no cell changes, so that
    /// `first_unfit` need not ask each level. Nothing that is seen changes.
    pub fn foresee(&mut self)
        ensures { self.new ≡ self.old }
    {
        if self.windows.now() >= self.fit_before {
            self.fit_before = self.first_late();
        }
    }

    /// For how many ticks from the present one on no level is unfit as long as no cell changes, as far as it is known.
    #[inline(always)]
    pub fn fit_for(&self) -> u32
        ensures { (i : ℕ) → i < result → first_unfit (at_tick self.now (self.now.windows.tick + i)) ≡ None }
    {
        self.fit_before.saturating_sub(self.windows.now())
    }

    /// A tick before which no level is unfit from the present one on.
    fn first_late(&self) -> u32
        ensures { FitBefore result self.now }
    {
        let mut run: u64 = 0;
        let mut first = u32::MAX;
        for level in 0..self.own.len() as u8 {
            run = run.wrapping_add(self.gone[level as usize]);
            let remaining = ahead(self.remaining[level as usize], run);
            first = first.min(self.late_at(level, remaining));
        }
        first
    }

    /// A tick before which the level isn't unfit from the present one on, where it is known what remains.
    fn late_at(&self, level: u8, remaining: u64) -> u32
        requires known { level < length self.now.windows.periods }
        requires remaining { remaining ≡ slice_index self.now.remaining level }
        ensures { CanWaitBefore result self.now level }
    {
        if self.own(level) == 0 {
            return u32::MAX;
        }
        let end = self.windows.end(level);
        match (end as u64).checked_sub(remaining) {
            Some(last) => (last as u32).saturating_sub(self.blocking(level)),
            None => 0,
        }
    }
}
