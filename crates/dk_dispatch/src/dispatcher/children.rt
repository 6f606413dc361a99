//! Threads come and go: exits, faults and creates, as the charged tick's past has them.
use super::Dispatcher;
use dk_past::Note;
use dk_recount::{
    creates_are_refused_by_the_loans, creating_a_child_is_booked, ending_threads_run,
    stopping_a_child_is_booked, stopping_a_main_is_booked,
};
use dk_steps::Steps;
use dk_threads::ThreadRow;
use dk_trace::{Entry, Refusal, ThreadId};
use std::sync::ledger::Ledger;

impl Dispatcher {
    ghost use Rattle.std.specs.Prelude.{◌≡◌, ◌+◌, ◌*◌, ◌≤◌, ◌∷◌, length, MatchResult};
    ghost use Rattle.dk_trace.specs.declared.Event.{Event};
    ghost use Rattle.dk_recount.specs.Counts.{stopped};
    ghost use Rattle.dk_recount.specs.Facing.{Keeps};
    ghost use Rattle.dk_trace.specs.declared.Entry.{Entry};
    ghost use Rattle.dk_past.specs.Noted.{noted};
    ghost use Rattle.dk_past.specs.Past.{call_entry, with_entry, with_event};
    ghost use Rattle.dk_dispatch.specs.Standing.{slots};
    ghost use Rattle.dk_dispatch.specs.Calls.{EndsAs, IsCreated, IsEnding, IsInCall, IsNotCreated};

    /// The thread, which has the tick, exits or faults, as the tick's entry says. A main stops its whole process.
    ///
    /// At most as many steps as there are levels, and six more, for each thread that stops, and once more.
    pub fn stop<L: Ledger>(&mut self, id: ThreadId, entry: &Entry, steps: &mut Steps<L>)
        requires { IsEnding id entry.now self.old.past }
        ensures past { self.new.past ≡ with_entry entry.now self.old.past }
        ensures rows { Keeps (slots self.old) (slots self.new) }
        ensures steps { steps.new ≤ steps.old + (length self.old.past.config.levels + 6)
            * (stopped self.old.past.config (entry.now ∷ self.old.past.entries) + 1) }
    {
        self.end(id, &Note::Entry(*entry), steps);
    }

    /// The thread, which has the tick and is in a call, exits. A main stops its whole process.
    ///
    /// At most as many steps as there are levels, and six more, for each thread that stops, and once more.
    pub fn exit<L: Ledger>(&mut self, id: ThreadId, steps: &mut Steps<L>)
        requires { IsEnding id (call_entry self.old.past Event.Exit) self.old.past }
        ensures past { self.new.past ≡ with_event Event.Exit self.old.past }
        ensures rows { Keeps (slots self.old) (slots self.new) }
        ensures steps { steps.new ≤ steps.old + (length self.old.past.config.levels + 6)
            * (stopped self.old.past.config (call_entry self.old.past Event.Exit ∷ self.old.past.entries) + 1) }
    {
        self.end(id, &Note::Exit, steps);
    }

    /// The thread stops, and its end is noted.
    fn end<L: Ledger>(&mut self, id: ThreadId, note: &Note, steps: &mut Steps<L>)
        requires ends { EndsAs id note.now self.old.past }
        ensures past { self.new.past ≡ noted self.old.past note.now }
        ensures rows { Keeps (slots self.old) (slots self.new) }
        ensures steps { (e : Entry) → IsEnding id e self.old.past
            → steps.new ≤ steps.old + (length self.old.past.config.levels + 6)
            * (stopped self.old.past.config (e ∷ self.old.past.entries) + 1) }
    {
        stopping_a_child_is_booked();
        stopping_a_main_is_booked();
        ending_threads_run();
        self.tables.are_sound();
        self.tables.stop(id, steps);
        self.history = self.history.then(note);
    }

    /// The caller, a main, makes a child of that level and quota, and gets its row: the next serial of its
    /// process, the lowest slot that no child of it has, waiting for its start, which is where the present window
    /// of its level ends, and without an end. `entry` is its first instruction, of so many. Refused is, in this order: a caller that isn't a main, a level that its
    /// process may not have, an entry that isn't an instruction, a child more than the process may have, a
    /// quota that gives the child too small a share, and one that leaves the main too small a share.
    ///
    /// The thread was chosen for the present tick and executes in it. No step.
    pub fn create<L: Ledger>(
        &mut self,
        id: ThreadId,
        level: u32,
        quota: u32,
        entry: u32,
        instructions: u32,
        steps: &mut Steps<L>,
    ) -> Result<ThreadRow, Refusal>
        requires { IsInCall id self.old.past }
        ensures answer { MatchResult result (IsCreated id level quota entry instructions self.old self.new)
            (IsNotCreated id level quota entry instructions self.old self.new) }
        ensures steps { steps.new ≡ steps.old }
    {
        creating_a_child_is_booked();
        creates_are_refused_by_the_loans();
        self.tables.are_sound();
        match self
            .tables
            .create(id, level, quota, entry, instructions, steps)
        {
            Ok(row) => {
                self.history = self.history.then(&Note::Create {
                    serial: row.id.serial,
                    level,
                    quota,
                });
                Ok(row)
            }
            Err(refusal) => Err(refusal),
        }
    }
}
