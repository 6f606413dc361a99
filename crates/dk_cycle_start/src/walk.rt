//! Two kernels of one run, one of which is later by the length of a cycle, go over its ticks.
ghost use Rattle.std.specs.Prelude.{◌≡◌, ◌+◌, ◌<◌, ◌≤◌, length};
ghost use Rattle.dk_config.specs.declared.TheConstants.{MAX_TICKS};
ghost use Rattle.dk_cycle_start.specs.Passes.{Answers, HasPrograms, IsCycleOf, IsFirst, IsLater, IsSearch};

use crate::alike::are_alike;
use crate::quiet::{go_on, go_quietly};
use crate::reading::reader_of;
use dk_config::MAX_TICKS;
use dk_cycle::{Cycle, StartSearch, stretch_law};
use dk_kernel::Kernel;
use dk_loader::Code;
use dk_steps::Steps;
use std::sync::ledger::Ledger;

/// Does one tick of the later kernel, and looks at it.
fn follow<L: Ledger>(
    search: &mut StartSearch,
    late: &mut Kernel,
    programs: &[Code],
    steps: &mut Steps<L>,
)
    requires room { late.old.ticks < MAX_TICKS }
    requires programs { programs.now ≡ late.old.programs }
    requires is { IsSearch late.old search.old }
    ensures next { late.new ≡ record late.old { ticks = late.old.ticks + 1 } }
    ensures is { IsSearch late.new search.new }
{
    let tick = late.now();
    let entry = late.tick(steps);
    late.dispatcher();
    let reader = reader_of(programs, late, &entry);
    search.follow(tick, &entry, reader);
}

/// Does some ticks of the later kernel, at least one and at most so many, and looks at them: at once where nobody is at a kernel
/// call in them.
fn advance<L: Ledger>(
    search: &mut StartSearch,
    late: &mut Kernel,
    programs: &[Code],
    most: u32,
    steps: &mut Steps<L>,
) -> u32
    requires some { 1 ≤ most }
    requires room { late.old.ticks + most ≤ MAX_TICKS }
    requires programs { programs.now ≡ late.old.programs }
    requires is { IsSearch late.old search.old }
    ensures some { 1 ≤ result }
    ensures few { result ≤ most }
    ensures next { IsLater late.old result late.new }
    ensures is { IsSearch late.new search.new }
{
    stretch_law();
    let quiet = go_quietly(late, most, steps);
    if quiet > 0 {
        return quiet;
    }
    follow(search, late, programs, steps);
    1
}

/// Lets the later kernel do so many ticks.
pub(crate) fn lead<L: Ledger>(
    search: &mut StartSearch,
    late: &mut Kernel,
    programs: &[Code],
    ticks: u32,
    steps: &mut Steps<L>,
)
    requires room { late.old.ticks + ticks ≤ MAX_TICKS }
    requires programs { programs.now ≡ late.old.programs }
    requires is { IsSearch late.old search.old }
    ensures next { IsLater late.old ticks late.new }
    ensures is { IsSearch late.new search.new }
{
    let mut left = ticks;
    while left > 0 {
        left -= advance(search, late, programs, left, steps);
    }
}

/// Whether the run stands at the later tick as it stands at the earlier one, as far apart as the cycle is long.
fn stands_again(
    search: &StartSearch,
    early: &Kernel,
    late: &Kernel,
    processes: u8,
    cycle: Cycle,
) -> bool
    requires all { processes ≡ length early.now.config.processes }
    requires has { HasPrograms early.now }
    requires later { IsLater early.now cycle.length late.now }
    requires is { IsSearch late.now search.now }
    requires cycle { IsCycleOf early.now cycle }
    ensures { Answers early.now cycle early.now.ticks result }
{
    early.dispatcher();
    if !search.is_open(early.now(), late.now()) {
        return false;
    }
    are_alike(early, late, processes)
}

/// The least tick at which the run stands again as much later as the cycle is long: all windows begin there.
pub(crate) fn first_start<L: Ledger>(
    search: &mut StartSearch,
    early: &mut Kernel,
    late: &mut Kernel,
    programs: &[Code],
    processes: u8,
    cycle: Cycle,
    steps: &mut Steps<L>,
) -> u32
    requires all { processes ≡ length early.old.config.processes }
    requires has { HasPrograms early.old }
    requires begun { early.old.ticks ≡ 0 }
    requires later { IsLater early.old cycle.length late.old }
    requires room { cycle.start + cycle.length ≤ MAX_TICKS }
    requires programs { programs.now ≡ early.old.programs }
    requires is { IsSearch late.old search.old }
    requires cycle { IsCycleOf early.old cycle }
    ensures { IsFirst early.old cycle result }
{
    let longest = search.longest;
    let mut start = 0;
    while start < cycle.start {
        if stands_again(search, early, late, processes, cycle) {
            return start;
        }
        go_on(early, longest, steps);
        lead(search, late, programs, longest, steps);
        start += longest;
    }
    cycle.start
}
