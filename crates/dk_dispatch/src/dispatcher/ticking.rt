//! One tick from stage to stage of its past: ready, charged, booked by a call, closed, and ready again.
use super::Dispatcher;
use crate::tables::Lead;
use dk_past::Note;
use dk_recount::{
    charging_makes_the_recount, choice_is_the_pasts, denial_is_the_pasts,
    opening_makes_the_next_tick, untold_event_is_booked,
};
use dk_steps::Steps;
use dk_trace::{Choice, Entry};
use std::sync::ledger::Ledger;

impl Dispatcher {
    ghost use Rattle.std.specs.Prelude.{◌≡◌, ◌+◌, ◌*◌, ◌<◌, ◌≤◌, length, IfSome};
    ghost use Rattle.dk_config.specs.declared.TheConstants.{MAX_TICKS};
    ghost use Rattle.dk_trace.specs.Choices.{denied};
    ghost use Rattle.dk_recount.specs.Counts.{moved};
    ghost use Rattle.dk_recount.specs.Facing.{Keeps};
    ghost use Rattle.dk_past.specs.Past.{Ready, charged, choice_at, closed, opened};
    ghost use Rattle.dk_dispatch.specs.Standing.{slots};
    ghost use Rattle.dk_dispatch.specs.Ticks.{IsShut, IsWhole, Leads};

    /// Who has the next tick. At most four steps for each level.
    #[inline(always)]
    pub fn choose<L: Ledger>(&self, steps: &mut Steps<L>) -> Choice
        requires { self.now.past.tick ≡ Ready }
        ensures chosen { result ≡ choice_at self.now.past }
        ensures steps { steps.new ≤ steps.old + 4 * length self.now.past.config.levels }
    {
        choice_is_the_pasts();
        self.tables.are_sound();
        self.tables.choose(steps)
    }

    /// Who has the next tick, where it is known without a search. None also where it is only not known.
    #[inline(always)]
    pub fn lead(&self) -> Option<Lead>
        requires { self.now.past.tick ≡ Ready }
        ensures leads { IfSome result (λ lead. Leads lead self.now) }
    {
        self.tables.lead()
    }

    /// The level that slack is denied for, where it is denied. At most four steps for each level.
    pub fn denial<L: Ledger>(&self, steps: &mut Steps<L>) -> Option<u8>
        requires { self.now.past.tick ≡ Ready }
        ensures denied { result ≡ denied self.now.past.config self.now.past.entries }
        ensures steps { steps.new ≤ steps.old + 4 * length self.now.past.config.levels }
    {
        denial_is_the_pasts();
        self.tables.are_sound();
        self.tables.denial(steps)
    }

    /// Books the tick to the choice, with its event open. The tick is below 4,000,000,000. At most three steps,
    /// and two for each level.
    #[inline(always)]
    pub fn charge<L: Ledger>(&mut self, choice: Choice, steps: &mut Steps<L>)
        requires ready { self.old.past.tick ≡ Ready }
        requires chosen { choice ≡ choice_at self.old.past }
        requires room { length self.old.past.entries < MAX_TICKS }
        ensures past { self.new.past ≡ charged self.old.past }
        ensures rows { self.new.threads ≡ self.old.threads }
        ensures steps { steps.new ≤ steps.old + 3 + 2 * length self.old.past.config.levels }
    {
        charging_makes_the_recount();
        self.tables.are_sound();
        self.tables.charge(choice, steps);
        self.history = self.history.then(&Note::Charge);
    }

    /// Goes to the next tick. The entry is the open tick's, which follows the rules: it is booked, or it has no
    /// event that the tables are told of. The next tick's ends, starts and releases are left to `open`. The tick is
    /// below 4,000,000,000.
    pub fn close(&mut self, entry: &Entry)
        requires whole { IsWhole entry.now self.old.past }
        requires room { length self.old.past.entries < MAX_TICKS }
        ensures past { self.new.past ≡ closed entry.now self.old.past }
        ensures rows { self.new.threads ≡ self.old.threads }
    {
        untold_event_is_booked();
        self.tables.close();
        self.history = self.history.then(&Note::Close(*entry));
    }

    /// The ends, starts and releases of the present tick, which the close left. At most three steps, three for
    /// each level, and two for each thread that the tick moves.
    #[inline(always)]
    pub fn open<L: Ledger>(&mut self, steps: &mut Steps<L>)
        requires { IsShut self.old.past }
        ensures past { self.new.past ≡ opened self.old.past }
        ensures rows { Keeps (slots self.old) (slots self.new) }
        ensures steps { steps.new ≤ steps.old + 3 + 3 * length self.new.past.config.levels
            + 2 * moved self.new.past.config self.new.past.entries }
    {
        opening_makes_the_next_tick();
        self.tables.open(steps);
        self.history = self.history.then(&Note::Open);
    }
}
