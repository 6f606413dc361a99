//! The run: the ticks of a kernel, one stretch after another, each handed to whoever records it.
ghost use Rattle.std.specs.Prelude.{◌≡◌, ◌+◌, ◌≤◌, Ok, OnOk};
ghost use Rattle.dk_trace.specs.Ranges.{size_of};
ghost use Rattle.dk_kernel.specs.Laws.{HasOwnTime, InEveryRun, KeepsLaws};
ghost use Rattle.dk_kernel.specs.Recording.{NewestIsKnown};
ghost use Rattle.dk_kernel.specs.Running.{trace_of};
ghost use Rattle.dk_kernel.specs.Steps.{run_steps};

use super::Kernel;
use crate::recorder::Recorder;
use dk_alone::own_time_law;
use dk_bound::{chosen_law, threads_law};
use dk_config::MAX_TICKS;
use dk_steps::Steps;
use dk_world::{audited_law, length_law};
use std::sync::ledger::Ledger;

/// Each entry names a level and a process that there are.
#[tactic(auto, using(crate::proofs::Known::known_in_every_run))]
fn known_law()
    ensures { InEveryRun NewestIsKnown }
{
    audited_law();
    chosen_law();
    threads_law();
}

/// Goes on for so many ticks: some at once where the kernel can, or else one. The entry of a single tick is handed on from
/// here: so it is read where the kernel keeps it, and not copied.
#[inline(always)]
fn go_on<R: Recorder, L: Ledger>(
    kernel: &mut Kernel,
    ticks: u32,
    recorder: &mut R,
    steps: &mut Steps<L>,
) -> Result<(), R::Error>
    requires room { kernel.old.ticks + ticks ≤ MAX_TICKS }
    requires begun { (start : R.Start) × (R.size start ≡ size_of kernel.old.config)
        × R.HasTaken start recorder.old (Ok tt) (trace_of kernel.old) }
    ensures next { kernel.new ≡ record kernel.old { ticks = kernel.new.ticks } }
    ensures few { kernel.new.ticks ≤ kernel.old.ticks + ticks }
    ensures all { OnOk result (kernel.new.ticks ≡ kernel.old.ticks + ticks) }
    ensures kept { R.kept recorder.new ≡ R.kept recorder.old }
    ensures taken { (start : R.Start) → R.HasTaken start recorder.old (Ok tt) (trace_of kernel.old)
        → R.HasTaken start recorder.new result (trace_of kernel.new) }
    ensures steps { steps.new + run_steps kernel.old.config (trace_of kernel.old)
        ≤ steps.old + run_steps kernel.new.config (trace_of kernel.new) }
{
    known_law();
    length_law();
    let mut left = ticks;
    while left > 0 {
        if let Some(stretch) = kernel.at_once(left, steps) {
            recorder.take(stretch.count, stretch.last())?;
            left -= stretch.count;
            continue;
        }
        recorder.take(1, kernel.tick(steps))?;
        left -= 1;
    }
    Ok(())
}

impl Kernel {
    /// Does so many ticks, and hands the entries of each stretch of them to the recorder as they come. Needs no memory.
    ///
    /// Where the recorder takes no more, the run stops behind the stretch that it was handed last, and its error is
    /// answered. After the ticks at most 4,000,000,000 were done. It takes at most as many steps as `tick` may take for
    /// each of them.
    #[inline(always)]
    pub fn run<R: Recorder, L: Ledger>(
        &mut self,
        ticks: u32,
        recorder: &mut R,
        steps: &mut Steps<L>,
    ) -> Result<(), R::Error>
        requires room { self.old.ticks + ticks ≤ MAX_TICKS }
        requires begun { (start : R.Start) × (R.size start ≡ size_of self.old.config)
            × R.HasTaken start recorder.old (Ok tt) (trace_of self.old) }
        ensures next { self.new ≡ record self.old { ticks = self.new.ticks } }
        ensures few { self.new.ticks ≤ self.old.ticks + ticks }
        ensures all { OnOk result (self.new.ticks ≡ self.old.ticks + ticks) }
        ensures kept { R.kept recorder.new ≡ R.kept recorder.old }
        ensures taken { (start : R.Start) → R.HasTaken start recorder.old (Ok tt) (trace_of self.old)
            → R.HasTaken start recorder.new result (trace_of self.new) }
        ensures laws { KeepsLaws self.new.config (trace_of self.new) }
        ensures alone { HasOwnTime self.new }
        ensures steps { steps.new + run_steps self.old.config (trace_of self.old)
            ≤ steps.old + run_steps self.new.config (trace_of self.new) }
    {
        own_time_law();
        let outcome = go_on(self, ticks, recorder, steps);
        self.keeps_laws();
        outcome
    }
}
