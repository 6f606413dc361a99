//! Who has the next tick where nobody has to be searched for. It holds of every past that the tables are the recount of.
use super::AllTables;
use crate::node::slot_of;
use dk_recount::{
    callers_have_rows, choice_is_the_pasts, holds_are_the_pasts, workers_are_the_pasts,
};
use dk_trace::ThreadId;

/// The thread that has the next tick, where nobody has to be searched for: it stands first of all ready queues and
/// computes, at the level at which it runs and before it neither the kernel nor another holder has work, and before it
/// nobody asks for slack, or slack is denied.
#[derive(Clone, Copy)]
pub struct Lead {
    pub thread: ThreadId,
    /// Its slot in its process.
    pub slot: u8,
    /// For how many ticks more it may hold the mutex that it locked last; 0 where it holds none.
    pub left: u32,
}

impl AllTables {
    ghost use Rattle.std.specs.Prelude.{◌≡◌, IfSome, true};
    ghost use Rattle.dk_mutex.specs.Table.{hold_left};
    ghost use Rattle.dk_recount.specs.Choosing.{HasNoWish, fits_in};
    ghost use Rattle.dk_dispatch.specs.Leading.{Leads};

    /// Who has the next tick, where it is known without a search. None also where it is only not known.
    #[inline(always)]
    pub fn lead(&self) -> Option<Lead>
        ensures leads { IfSome result (λ lead. Leads lead self.now) }
    {
        callers_have_rows();
        choice_is_the_pasts();
        holds_are_the_pasts();
        workers_are_the_pasts();
        self.threads.rows_are_in_order();
        let first = self.jobs.first()?;
        let level = self.mutexes.lead_level(first.thread, first.level)?;
        if self.kernel.quiet() <= level as usize || !self.lends_nothing(level) {
            return None;
        }
        Some(Lead {
            thread: first.thread,
            slot: slot_of(first.node),
            left: self.innermost_left(first.thread),
        })
    }

    /// For how many ticks more the thread may hold its innermost mutex, and 0 where it holds none. Mostly nobody does.
    #[inline(always)]
    fn innermost_left(&self, id: ThreadId) -> u32
        ensures { result ≡ hold_left id self.now.mutexes }
    {
        if self.mutexes.are_free() {
            return 0;
        }
        self.mutexes.hold_left(id)
    }

    /// Whether it is known that no wish before the level gets the next tick: there is none, or slack is denied. Mostly
    /// there is none, and no level is asked whether it can wait.
    #[inline(always)]
    fn lends_nothing(&self, level: u8) -> bool
        ensures { result ≡ true → fits_in self.now ≡ true → HasNoWish self.now level }
    {
        if self.slack.quiet() >= level as u32 {
            return true;
        }
        self.demand.first_unfit().is_some()
    }
}
