//! The turn of the thread that leads, for which nobody has to be searched.
ghost use Rattle.std.specs.Prelude.{◌≡◌, ◌≤◌};
ghost use Rattle.dk_trace.specs.declared.Phase.{Phase as Part};
ghost use Rattle.dk_trace.specs.declared.Choice.{Choice as Chosen};
ghost use Rattle.dk_trace.specs.Holds.{held_by, innermost_left};
ghost use Rattle.dk_past.specs.Past.{choice_at};
ghost use Rattle.dk_kernel.specs.Snapshots.{snapshot};
ghost use Rattle.dk_kernel.specs.Turns.{HasTurned, MayTurn};

use crate::executor::{Executor, Turn};
use crate::turn::{breaks_hold, take_turn};
use dk_cpu::Image;
use dk_dispatch::Dispatcher;
use dk_steps::Steps;
use dk_trace::{Choice, Entry, Phase, ThreadId};
use std::sync::ledger::Ledger;

/// The turn of a thread that leads where its innermost hold has its last tick, and so may break. It stands apart, so
/// that its calls take no registers from the other turns. Thread, slot and cost come apart, and so in registers: an
/// `Executor` is passed in memory where a call isn't inlined.
#[inline(never)]
fn run_last<L: Ledger>(
    tables: &mut Dispatcher,
    image: &mut Image,
    thread: ThreadId,
    slot: u8,
    cost: u8,
    entry: &mut Entry,
    steps: &mut Steps<L>,
)
    requires chosen { Chosen.Budget thread Part.Body ≡ choice_at tables.old.past }
    requires may { MayTurn (record { thread = thread; slot = slot; cost = cost }) tables.old.past image.old }
    ensures { HasTurned (record { thread = thread; slot = slot; cost = cost })
        (snapshot tables.old image.old steps.old) (snapshot tables.new image.new steps.new) entry.new }
{
    let executor = Executor { thread, slot, cost };
    let breaks = breaks_hold(tables, image, executor);
    let turn = Turn {
        choice: Choice::Budget {
            thread,
            phase: Phase::Body,
        },
        executor,
    };
    take_turn(tables, image, turn, breaks, entry, steps)
}

/// The turn of the thread that leads, which may hold the mutex that it locked last for `left` ticks more. Its hold can
/// break where that is one tick alone. The charge follows `Dispatcher::lead` at once: what was found there isn't looked
/// for again.
#[inline(always)]
pub fn run_lead<L: Ledger>(
    tables: &mut Dispatcher,
    image: &mut Image,
    executor: Executor,
    left: u32,
    entry: &mut Entry,
    steps: &mut Steps<L>,
)
    requires chosen { Chosen.Budget executor.thread Part.Body ≡ choice_at tables.old.past }
    requires may { MayTurn executor tables.old.past image.old }
    requires left { left ≡ innermost_left tables.old.past.config (held_by executor.thread tables.old.past.entries) }
    ensures { HasTurned executor (snapshot tables.old image.old steps.old)
        (snapshot tables.new image.new steps.new) entry.new }
{
    if left == 1 {
        run_last(
            tables,
            image,
            executor.thread,
            executor.slot,
            executor.cost,
            entry,
            steps,
        )
    } else {
        let turn = Turn {
            choice: Choice::Budget {
                thread: executor.thread,
                phase: Phase::Body,
            },
            executor,
        };
        take_turn(tables, image, turn, false, entry, steps)
    }
}
