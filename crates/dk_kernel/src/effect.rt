//! What an instruction does in a tick, with the tick's entry.
ghost use Rattle.std.specs.Prelude.{◌≡◌, ◌≤◌, Option, None};
ghost use Rattle.dk_past.specs.Past.{choice_at};
ghost use Rattle.dk_kernel.specs.Snapshots.{snapshot};
ghost use Rattle.dk_kernel.specs.Effects.{HasDone, MayEffect, label_at, outcome_at, stepped};

use crate::calls::call;
use crate::executor::Turn;
use dk_config::MAX_CHILDREN;
use dk_cpu::{Image, Outcome};
use dk_dispatch::Dispatcher;
use dk_steps::Steps;
use dk_trace::{Entry, Event, Work};
use std::sync::ledger::Ledger;

/// The tick has no event. Most ticks have none, nor had the one before, so that nothing is written.
#[inline(always)]
fn no_event(event: &mut Option<Event>)
    ensures { event.new ≡ None }
{
    if let Some(_) = event {
        *event = None;
    }
}

/// What a turn with the outcome does, once the image was stepped. Each branch knows the label.
#[inline(always)]
fn effect<L: Ledger>(
    tables: &mut Dispatcher,
    image: &mut Image,
    turn: Turn,
    outcome: Outcome,
    entry: &mut Entry,
    steps: &mut Steps<L>,
)
    requires chosen { turn.choice ≡ choice_at tables.old.past }
    requires may { MayEffect turn.executor outcome tables.old.past image.old }
    requires slot { turn.executor.slot ≤ MAX_CHILDREN }
    ensures label { entry.new.label ≡ label_at tables.old.past outcome }
    ensures did { HasDone outcome turn.executor (snapshot tables.old image.old steps.old)
        (snapshot tables.new image.new steps.new) entry.new.event }
{
    let Turn { choice, executor } = turn;
    match outcome {
        Outcome::Ran => {
            entry.label = choice.label(Work::Run);
            no_event(&mut entry.event);
        }
        Outcome::InCall => {
            entry.label = choice.label(Work::Call);
            no_event(&mut entry.event);
        }
        Outcome::Fault(kind) => {
            entry.label = choice.label(Work::Run);
            entry.event = Some(Event::Fault(kind));
            tables.stop(executor.thread, entry, steps);
        }
        Outcome::CallDone(asked) => {
            entry.label = choice.label(Work::Call);
            call(tables, image, executor, asked, &mut entry.event, steps);
        }
    }
}

/// The turn of a thread that isn't replaced by a fault.
#[inline(always)]
pub fn execute<L: Ledger>(
    tables: &mut Dispatcher,
    image: &mut Image,
    turn: Turn,
    entry: &mut Entry,
    steps: &mut Steps<L>,
)
    requires chosen { turn.choice ≡ choice_at tables.old.past }
    requires may { MayEffect turn.executor (outcome_at turn.executor image.old) tables.old.past
        (stepped turn.executor image.old) }
    requires cost { 1 ≤ turn.executor.cost }
    requires slot { turn.executor.slot ≤ MAX_CHILDREN }
    ensures label { entry.new.label ≡ label_at tables.old.past (outcome_at turn.executor image.old) }
    ensures did { HasDone (outcome_at turn.executor image.old) turn.executor
        (snapshot tables.old (stepped turn.executor image.old) steps.old)
        (snapshot tables.new image.new steps.new) entry.new.event }
{
    let outcome = image.step(turn.executor.slot, turn.executor.cost);
    effect(tables, image, turn, outcome, entry, steps);
}
