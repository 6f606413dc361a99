//! Nobody's ticks at once, before a window begins, by the tables.
use super::AllTables;
use dk_recount::resting_makes_the_recount;

impl AllTables {
    ghost use Rattle.std.specs.Prelude.{◌≡◌, ◌+◌, ◌<◌, ◌≤◌, IfSome, None, length};
    ghost use Rattle.dk_config.specs.declared.TheConstants.{MAX_TICKS};
    ghost use Rattle.dk_trace.specs.declared.Choice.{Choice};
    ghost use Rattle.dk_recount.specs.Stretching.{EndsAfter, HasRoomFor, MayCountFor, Passes, Rests, rested};

    /// Ticks go by, all at once and at most so many, in which nobody has work or asks for slack and no window
    /// begins. Answers how many: 0 also where it is only not known that nobody has. They are below
    /// 4,000,000,000.
    pub fn rest(&mut self, most: u32) -> u32
        requires { HasRoomFor most self.old }
        ensures few { result ≤ most }
        ensures passes { Passes Choice.Idle result self.old self.new }
    {
        resting_makes_the_recount();
        self.threads.rows_are_in_order();
        match self.idle_ahead(most) {
            Some(count) => {
                self.pass_idle(count);
                count
            }
            None => 0,
        }
    }

    /// For how many ticks, at most so many, nobody will have anything to do and no window begins, where it is
    /// known that nobody has.
    fn idle_ahead(&self, most: u32) -> Option<u32>
        requires { 0 < length self.now.demand.windows.periods }
        ensures rests { IfSome result (λ count. Rests self.now) }
        ensures within { IfSome result (λ count. EndsAfter count self.now) }
        ensures few { IfSome result (λ count. count ≤ most) }
    {
        let levels = self.kernel.len();
        if self.quiet() < levels || (self.slack.quiet() as usize) < levels {
            return None;
        }
        self.before_window(most)
    }

    /// How many ticks, at most so many, go by before a window begins.
    #[inline(always)]
    pub(super) fn before_window(&self, most: u32) -> Option<u32>
        requires { 0 < length self.now.demand.windows.periods }
        ensures within { IfSome result (λ count. EndsAfter count self.now) }
        ensures few { IfSome result (λ count. count ≤ most) }
    {
        let windows = self.demand.windows();
        let left = windows.end(0).checked_sub(windows.now())?;
        let ahead = left.checked_sub(1)?;
        Some(most.min(ahead))
    }

    /// So many ticks of nobody go by.
    fn pass_idle(&mut self, count: u32)
        requires room { self.old.demand.windows.tick + count ≤ MAX_TICKS }
        requires known { 0 < length self.old.demand.windows.periods }
        requires within { EndsAfter count self.old }
        requires counts { MayCountFor count None self.old.slack }
        ensures { self.new ≡ rested count self.old }
    {
        self.demand.pass(count);
        self.slack.count_for(None, count);
    }
}
