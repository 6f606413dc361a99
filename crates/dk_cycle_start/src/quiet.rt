//! Ticks that are done at once.
ghost use Rattle.std.specs.Prelude.{◌≡◌, ◌+◌, ◌≤◌};
ghost use Rattle.dk_config.specs.declared.TheConstants.{MAX_TICKS};
ghost use Rattle.dk_config.specs.Checked.{IsAccepted, IsChecked};
ghost use Rattle.dk_cycle.specs.Stretching.{GoQuietly};

use dk_config::MAX_TICKS;
use dk_kernel::Kernel;
use dk_steps::Steps;
use std::sync::ledger::Ledger;

/// Does some ticks at once, at most so many, in which nobody is at a kernel call and nothing happens. Answers how many: 0 where
/// that can't be, or it is only not known, and then the next one is a `tick`.
#[inline(always)]
pub fn go_quietly<L: Ledger>(kernel: &mut Kernel, most: u32, steps: &mut Steps<L>) -> u32
    requires { kernel.old.ticks + most ≤ MAX_TICKS }
    ensures few { result ≤ most }
    ensures next { kernel.new ≡ record kernel.old { ticks = kernel.old.ticks + result } }
    ensures quiet { GoQuietly kernel.old.config kernel.old.programs kernel.old.ticks result }
    ensures checked { IsChecked kernel.old.config }
    ensures accepted { IsAccepted kernel.old.config }
{
    match kernel.at_once(most, steps) {
        Some(stretch) => stretch.count,
        None => 0,
    }
}

/// Does so many ticks.
pub fn go_on<L: Ledger>(kernel: &mut Kernel, ticks: u32, steps: &mut Steps<L>)
    requires { kernel.old.ticks + ticks ≤ MAX_TICKS }
    ensures { kernel.new ≡ record kernel.old { ticks = kernel.old.ticks + ticks } }
{
    let _ = kernel.run(ticks, &mut (), steps);
}
