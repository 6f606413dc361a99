//! The call that creates a child.
ghost use Rattle.std.specs.Prelude.{◌≡◌, ◌≤◌, ◌/◌, length};
ghost use Rattle.dk_trace.specs.Refusals.{create_refusal};
ghost use Rattle.dk_trace.specs.Audit.{next_serial};
ghost use Rattle.dk_cpu.specs.Machine.{reg};
ghost use Rattle.dk_cpu.specs.State.{context_at};
ghost use Rattle.dk_dispatch.specs.Calls.{IsInCall};
ghost use Rattle.dk_world.specs.Calls as calls;
ghost use Rattle.dk_kernel.specs.Done.{child_made};
ghost use Rattle.dk_kernel.specs.Snapshots.{snapshot};
ghost use Rattle.dk_kernel.specs.Effects.{Calls, at_call, caller, finished};

use crate::answers::refused;
use crate::executor::Executor;
use dk_config::MAX_CHILDREN;
use dk_cpu::{Context, Image};
use dk_dispatch::Dispatcher;
use dk_steps::Steps;
use dk_threads::ThreadRow;
use dk_trace::Event;
use std::sync::ledger::Ledger;

fn child_context(entry: u32, argument: u32) -> Context
    ensures { result ≡ calls.child_context entry argument }
{
    Context {
        regs: [0, argument, 0, 0, 0, 0, 0, 0],
        pc: entry,
        left: 0,
    }
}

/// A create is done by a thread with this context, and the child has its first context.
fn created(
    image: &mut Image,
    slot: u8,
    event: &mut Option<Event>,
    row: ThreadRow,
    context: &Context,
)
    requires slot { slot ≤ MAX_CHILDREN }
    requires seat { row.slot ≤ MAX_CHILDREN }
    ensures image { image.new ≡ finished image.old slot (child_made row context.now) }
    ensures event { event.new ≡ (child_made row context.now).event }
{
    let [_, _, quota, entry, argument, ..] = context.regs;
    image.reply(slot, 0, Some(row.id.serial));
    image.set_context(row.slot, child_context(entry, argument));
    *event = Some(Event::Create {
        serial: row.id.serial,
        level: row.level,
        quota,
    });
}

/// The call that creates a child, with what its registers ask for.
pub fn create<L: Ledger>(
    tables: &mut Dispatcher,
    image: &mut Image,
    executor: Executor,
    event: &mut Option<Event>,
    steps: &mut Steps<L>,
)
    requires call { IsInCall executor.thread tables.old.past }
    requires slot { executor.slot ≤ MAX_CHILDREN }
    ensures { Calls (λ p. calls.or_refused (create_refusal p.config (length p.entries) (at_call p)
        (caller p executor.thread) (reg (context_at image.old executor.slot) 1)
        (reg (context_at image.old executor.slot) 2) (reg (context_at image.old executor.slot) 3)
        (length image.old.code / 4))
        (calls.creates (next_serial p.config (at_call p) (caller p executor.thread).id.process)
        (context_at image.old executor.slot)))
        executor (snapshot tables.old image.old steps.old) (snapshot tables.new image.new steps.new) event.new }
{
    tables.callers_are_there();
    let context = image.context(executor.slot);
    let [_, level, quota, entry, ..] = context.regs;
    let instructions = image.instructions();
    match tables.create(executor.thread, level, quota, entry, instructions, steps) {
        Ok(row) => created(image, executor.slot, event, row, &context),
        Err(refusal) => refused(image, executor.slot, event, refusal),
    }
}
