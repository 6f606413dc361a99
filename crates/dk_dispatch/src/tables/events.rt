//! The kernel calls wait, slack, lock and unlock by the tables: each is refused, or makes of them what dk_recount says.
use super::AllTables;
use dk_config::MAX_SPAN;
use dk_steps::Steps;
use dk_trace::{Refusal, ThreadId};
use std::sync::ledger::Ledger;

impl AllTables {
    ghost use Rattle.std.specs.Prelude.{◌≡◌, ◌+◌, ◌-◌, ◌<◌, ◌≤◌, length, None, IfOk};
    ghost use Rattle.dk_recount.specs.Jobs.{MayClose, job_closed};
    ghost use Rattle.dk_recount.specs.Events.{wait_refusal_in, waited, MayWait, has_right, slack_refusal_in, asked, MayAsk, lock_refusal_in, locked, MayLock, unlock_refusal_in, unlocked, MayUnlock};
    ghost use Rattle.dk_dispatch.specs.Calls.{Makes};

    /// The wait by the tables. At most as many steps as there are levels, and five more.
    pub(crate) fn wait<L: Ledger>(
        &mut self,
        id: ThreadId,
        steps: &mut Steps<L>,
    ) -> Result<(), Refusal>
        requires { wait_refusal_in self.old id ≡ None → MayWait id self.old }
        ensures answer { Makes result (wait_refusal_in self.old id) self.old (waited id self.old) self.new }
        ensures steps { steps.new ≤ steps.old + length self.old.kernel + 5 }
    {
        if self.mutexes.held_by(id).is_some() {
            return Err(Refusal::HoldsWait);
        }
        let node = self.node_of(id);
        let level = self.jobs.level(node);
        self.close_job(node, level, steps);
        Ok(())
    }

    /// Closes the job on the node, whose thread is of that level; its level has so much less to do, and its
    /// wish is gone. Five steps at most, and one for each level from there on.
    pub(crate) fn close_job<L: Ledger>(&mut self, node: u32, level: u8, steps: &mut Steps<L>)
        requires { MayClose node level self.old }
        ensures tables { self.new ≡ job_closed node level self.old }
        ensures steps { steps.new ≤ steps.old + 5 + (length self.old.kernel - level) }
    {
        let dropped = self.jobs.close(node, steps);
        self.demand.dropped(level, dropped as u64, steps);
        self.slack.drop_request(node, steps);
    }

    fn has_right(&self, process: u8) -> bool
        ensures { result ≡ has_right self.now process }
    {
        match self.rights.get(process as usize) {
            Some(right) => *right,
            None => false,
        }
    }

    /// Why the thread may not ask for so many ticks of slack, if it may not.
    fn slack_refusal(&self, id: ThreadId, amount: u32) -> Option<Refusal>
        ensures { result ≡ slack_refusal_in self.now id amount }
    {
        if !self.has_right(id.process) {
            Some(Refusal::NoRight)
        } else if amount == 0 || amount > MAX_SPAN {
            Some(Refusal::Amount)
        } else {
            None
        }
    }

    /// The ask by the tables. At most two steps.
    pub(crate) fn ask<L: Ledger>(
        &mut self,
        id: ThreadId,
        amount: u32,
        steps: &mut Steps<L>,
    ) -> Result<(), Refusal>
        requires { slack_refusal_in self.old id amount ≡ None → MayAsk id self.old }
        ensures answer { Makes result (slack_refusal_in self.old id amount) self.old (asked id amount self.old) self.new }
        ensures steps { steps.new ≤ steps.old + 2 }
    {
        match self.slack_refusal(id, amount) {
            Some(refusal) => Err(refusal),
            None => {
                self.wish(id, amount, steps);
                Ok(())
            },
        }
    }

    /// The thread has a wish for so many ticks. At most two steps.
    fn wish<L: Ledger>(&mut self, id: ThreadId, amount: u32, steps: &mut Steps<L>)
        requires may { MayAsk id self.old }
        requires some { 0 < amount }
        ensures tables { self.new ≡ asked id amount self.old }
        ensures steps { steps.new ≤ steps.old + 2 }
    {
        let node = self.node_of(id);
        let level = self.jobs.level(node);
        self.slack.ask(node, level, amount, steps);
    }

    /// The lock by the tables, with the mutex's number. At most as many steps as there are levels, and one more.
    pub(crate) fn lock<L: Ledger>(
        &mut self,
        id: ThreadId,
        mutex: u32,
        steps: &mut Steps<L>,
    ) -> Result<u8, Refusal>
        requires { lock_refusal_in self.old id mutex ≡ None → MayLock id mutex self.old }
        ensures answer { Makes result (lock_refusal_in self.old id mutex) self.old (locked id mutex self.old) self.new }
        ensures number { IfOk result (λ number. number ≡ mutex) }
        ensures steps { steps.new ≤ steps.old + length self.old.kernel + 1 }
    {
        let node = self.node_of(id);
        let level = self.jobs.level(node);
        let body_left = self.jobs.body_left(node, steps);
        let before = self.mutexes.effective_level(id, level);
        let number = self.mutexes.lock(id, level, mutex, body_left)?;
        let after = self.mutexes.effective_level(id, level);
        self.demand
            .raise_blocking(after..before, self.mutexes.hold_left(id), steps);
        Ok(number)
    }

    /// The unlock by the tables, with the mutex's number. At most as many steps as there are levels.
    pub(crate) fn unlock<L: Ledger>(
        &mut self,
        id: ThreadId,
        mutex: u32,
        steps: &mut Steps<L>,
    ) -> Result<u8, Refusal>
        requires { unlock_refusal_in self.old id mutex ≡ None → MayUnlock id mutex self.old }
        ensures answer { Makes result (unlock_refusal_in self.old id mutex) self.old (unlocked id mutex self.old) self.new }
        ensures number { IfOk result (λ number. number ≡ mutex) }
        ensures steps { steps.new ≤ steps.old + length self.old.kernel }
    {
        let level = self.jobs.level(self.node_of(id));
        let before = self.mutexes.effective_level(id, level);
        let left = self.mutexes.hold_left(id);
        let number = self.mutexes.unlock(id, mutex)?;
        let after = self.mutexes.effective_level(id, level);
        self.demand.lower_blocking(before..after, left, steps);
        Ok(number)
    }
}
