//! Many ticks of slack at once of a thread that computes while nobody holds a mutex, by the tables.
use super::AllTables;
use crate::node::node_at;
use dk_trace::{Source, ThreadId};

/// A thread that has so many ticks of slack from the source, past its switch in, while nobody holds a mutex.
#[derive(Clone, Copy)]
pub struct Borrower {
    pub thread: ThreadId,
    pub source: Source,
    /// Its slot in its process.
    pub slot: u8,
    pub ticks: u32,
}

impl AllTables {
    ghost use Rattle.std.specs.Prelude.{◌≡◌, ◌+◌, ◌<◌, ◌≤◌, IfSome, None, length};
    ghost use Rattle.dk_config.specs.declared.TheConstants.{MAX_TICKS};
    ghost use Rattle.dk_slack.specs.Wishes.{want};
    ghost use Rattle.dk_recount.specs.Tables.{node_in};
    ghost use Rattle.dk_recount.specs.Stretching.{EndsAfter, HasRoomFor, MayCountFor, lent};
    ghost use Rattle.dk_dispatch.specs.Leading.{Borrows};

    /// Who has the next ticks as slack, at most so many, before a window begins, where it is known that nobody comes
    /// before it in any of them, and nobody holds a mutex. None also where it is only not known.
    #[inline(always)]
    pub fn lend_ahead(&self, most: u32) -> Option<Borrower>
        requires { HasRoomFor most self.now }
        ensures borrows { IfSome result (λ borrower. Borrows borrower self.now) }
        ensures few { IfSome result (λ borrower. borrower.ticks ≤ most) }
    {
        self.threads.rows_are_in_order();
        if !self.mutexes.are_free() {
            return None;
        }
        let ahead = self.slack.first_ahead()?;
        if self.quiet() <= ahead.level as usize {
            return None;
        }
        let fit = self.demand.fit_for();
        let most = self.before_window(most.min(ahead.ticks).min(fit))?;
        let thread = self.jobs.thread(ahead.node);
        let row = self.find(thread)?;
        if node_at(thread.process, row.slot) != ahead.node {
            return None;
        }
        Some(Borrower {
            thread,
            source: ahead.source,
            slot: row.slot,
            ticks: most,
        })
    }

    /// So many ticks of slack of the thread go by at once, after which it asks for more.
    pub fn lend(&mut self, thread: ThreadId, ticks: u32)
        requires wish { ticks < want (node_in self.old.threads thread) self.old.slack.wishes }
        requires counts { MayCountFor ticks None self.old.slack }
        requires room { self.old.demand.windows.tick + ticks ≤ MAX_TICKS }
        requires known { 0 < length self.old.demand.windows.periods }
        requires within { EndsAfter ticks self.old }
        ensures { self.new ≡ lent thread ticks self.old }
    {
        let node = self.node_of(thread);
        self.slack.spend_for(node, ticks);
        self.slack.count_for(None, ticks);
        self.demand.pass(ticks);
    }
}
