//! What a cycle of a run that repeats for ever tells of every other.
ghost use Rattle.dk_repeat_report.specs.Cycles.{CyclesAreAlike, CyclesAreWindows, WindowsRepeat};
ghost use Rattle.dk_repeat_report.specs.OwnUses.{OwnCyclesAreAlike};

use dk_world::length_law;

/// What is counted of one cycle is what is counted of each, for ever.
pub fn cycles_law()
    ensures { CyclesAreAlike }
{}

/// Each window has the entries of the window a cycle before.
pub fn windows_law()
    ensures { WindowsRepeat }
{}

/// What is counted of a cycle by windows is counted of these windows of the run.
pub fn cycle_windows_law()
    ensures { CyclesAreWindows }
{
    length_law();
}

/// What is told of one cycle of a process by itself is told of each, for ever, in every run.
pub fn own_cycles_law()
    ensures { OwnCyclesAreAlike }
{
    length_law();
}
