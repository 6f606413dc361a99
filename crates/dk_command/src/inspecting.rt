//! What the inspector comes to.
ghost use Rattle.std.specs.Prelude.{◌≡◌, ◌<◌, ◌≤◌, IfOk};
ghost use Rattle.dk_command.specs.Runs.{workload_of};
ghost use Rattle.dk_inputs.specs.Inputs.{CanBoot, IsCertified};
ghost use Rattle.dk_inputs.specs.Jobs.{state};
ghost use Rattle.dk_command.specs.Output.{Fails};
ghost use Rattle.dk_inputs.specs.Follows.{Makes};
ghost use Rattle.dk_command.specs.Work.{Does, IsReady};

use crate::Refusal;
use crate::prepare::booted;
use crate::work::Work;
use dk_config::MAX_RUN_TICKS;
use dk_kernel::Kernel;
use dk_ledger::Header;
use dk_loader::Loaded;
use dk_steps::Steps;
use std::alloc::Global;
use std::marker::Brand;
use std::sync::ledger::{Blank, Ledger};

/// Runs so many ticks. Nobody reads how many steps they take.
fn run_ticks<L: Ledger>(kernel: &mut Kernel, ticks: u32, blank: Blank)
    requires start { kernel.old.ticks ≡ 0 }
    requires certified { IsCertified kernel.old.config }
    requires few { ticks ≤ MAX_RUN_TICKS }
    requires name { blank.name ≡ L.name }
    requires parts { blank.parts ≡ L.parts }
    requires some { 0 < L.parts }
    ensures now { kernel.new.ticks ≡ ticks }
    ensures same { workload_of kernel.new ≡ workload_of kernel.old }
{
    let mut steps = Steps::<L>::new(blank);
    let _ = kernel.run(ticks, &mut (), &mut steps);
}

/// The state after so many ticks.
pub fn state_work(
    alloc: Global,
    header: Header,
    loaded: Loaded,
    ticks: u32,
) -> Result<Work, Refusal>
    requires few { ticks ≤ MAX_RUN_TICKS }
    requires bootable { CanBoot header loaded }
    ensures does { Makes Does Fails result (state loaded ticks) }
    ensures ready { IfOk result IsReady }
{
    let mut kernel = booted(alloc, loaded)?;
    run_ticks::<Brand>(&mut kernel, ticks, Blank::new(1));
    Ok(Work::State { kernel, header })
}
