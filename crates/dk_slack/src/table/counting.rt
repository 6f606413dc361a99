//! The ticks of each level's window that no level up to it claimed, as they are counted.
use super::SlackTable;
use crate::unclaimed::{foreseen, run_of_slower, source};
use dk_trace::Source;

impl SlackTable {
    ghost use Rattle.std.specs.Prelude.{◌≡◌, ◌+◌, ◌<◌, ◌^◌, All, length, slice_set};
    ghost use Rattle.dk_slack.specs.Unclaimed.{raised, counted, counted_for, source as source_of};

    /// Counts a tick of a level, the kernel's own or on budget, as unclaimed for each level before it;
    /// one of nobody, or of slack, for all levels.
    #[inline(always)]
    pub fn count(&mut self, budget_level: Option<u8>)
        requires { All (λ ticks. ticks + 1 < 2 ^ 32) (raised budget_level self.old.unclaimed) }
        ensures { self.new ≡ record self.old { unclaimed = counted budget_level self.old.unclaimed } }
    {
        self.count_for(budget_level, 1);
    }

    /// Counts so many ticks of a level, or of nobody, at once.
    #[inline(always)]
    pub fn count_for(&mut self, budget_level: Option<u8>, ticks: u32)
        requires { All (λ unclaimed. unclaimed + ticks < 2 ^ 32) (raised budget_level self.old.unclaimed) }
        ensures { self.new ≡ record self.old { unclaimed = counted_for ticks budget_level self.old.unclaimed } }
    {
        match budget_level {
            Some(level) if (level as usize) < self.counters.len() => {
                self.counters[level as usize] = self.counters[level as usize].wrapping_add(ticks);
                self.lasting.ticks = 0;
            }
            _ => {
                self.nobodys = self.nobodys.wrapping_add(ticks);
                self.lasting.ticks = self.lasting.ticks.saturating_sub(ticks);
            }
        }
    }

    /// A window of the level begins: no tick of it is unclaimed yet.
    pub fn window(&mut self, level: u8)
        requires { level < length self.old.unclaimed }
        ensures { self.new ≡ record self.old { unclaimed = slice_set self.old.unclaimed level 0 } }
    {
        self.marks[level as usize] = run_of_slower(level, self.nobodys, &self.counters);
        self.lasting.ticks = 0;
    }

    /// Where a tick of slack comes from: the timeline as long as each level has a tick of its spare
    /// left, else the first level that has none.
    pub fn source(&self) -> Source
        ensures { result ≡ source_of self.now.unclaimed self.now.spares }
    {
        if self.lasting.ticks > 0 {
            return self.lasting.source;
        }
        source(self.nobodys, &self.counters, &self.marks, &self.spares)
    }

    /// Works out where the next ticks of slack come from, where it isn't known. Nothing that is seen changes.
    pub(super) fn foresee(&mut self)
        ensures { self.new ≡ self.old }
    {
        if self.lasting.ticks == 0 {
            self.lasting = foreseen(self.nobodys, &self.counters, &self.marks, &self.spares);
        }
    }
}
