//! A process whose program is that of a profile, in every run.
//!
//! Each function carries one law in its contract, and does nothing but call the laws that it stands on. The laws speak of
//! every run of every configuration that `check` passes and certification accepts, whatever the programs of the others are.
//! All rules are this project's own.
#![tactic(auto)]

ghost use Rattle.dk_replay_run.specs.Laws.{JobsAlone, JobsInTurn, LocksInTheirTicks, PartsAlone, PartsAreWhole, ProfilesReadNoTick, Replays, ReplaysJobs, ReplaysParts, ReplaysProfiles, UsesItsJobs, UsesItsTable, UsesItsTimes, UsesWholeJobs, WindowsAreParts};

use dk_alone::windows_law;

/// The program of a profile never reads the tick.
pub fn clock_law()
    ensures { ProfilesReadNoTick }
{}

/// With the processor to itself a process stands at job k where window k begins, and was never stopped.
pub fn turn_law()
    ensures { JobsInTurn }
{}

/// And in window k it has the entries of job k, and no others.
pub fn jobs_law()
    ensures { JobsAlone }
{}

/// With the processor to itself a process whose jobs may work, put, lock and unlock has in each window of a job the part of it
/// that comes next.
pub fn parts_law()
    ensures { PartsAlone }
{}

/// So in every run: in each window of job k it has both switches, the part of the job that comes next, and nothing else.
pub fn windows_of_jobs_law()
    ensures { ReplaysParts }
{
    clock_law();
    parts_law();
    windows_law();
}

/// So where no job is longer than the body, window k has the whole of job k.
pub fn whole_jobs_law()
    ensures { ReplaysJobs }
{
    windows_of_jobs_law();
}

/// And so of the bytes of a profile with which nothing is wrong: with the program that is made of it.
pub fn profiles_law()
    ensures { ReplaysProfiles }
{
    windows_of_jobs_law();
}

/// Each window of the main is one of those of a job, and the parts of a job in its windows, joined, are its entries. In these a
/// lock and an unlock are granted in the tick of the job up to which its steps take.
pub fn parts_are_jobs_law()
    ensures windows { WindowsAreParts }
    ensures whole { PartsAreWhole }
    ensures locks { LocksInTheirTicks }
{}

/// Where no job is longer than the body, the main uses in window k exactly the ticks of job k and both switches, and it waits.
pub fn used_jobs_law()
    ensures { UsesWholeJobs }
{
    whole_jobs_law();
}

/// So where each job is some ticks of work and a wait, or a wait alone, window k has the switch in, the work of job k, its wait and
/// the switch out, and nothing else.
pub fn replays_law()
    ensures { Replays }
{
    whole_jobs_law();
}

/// And in window k it uses of its budget exactly the ticks of job k and both switches, and it waits.
pub fn uses_law()
    ensures { UsesItsJobs }
{
    used_jobs_law();
}

/// So of a table of times: in window k it uses exactly the time of row k and both switches, and it waits.
pub fn times_law()
    ensures { UsesItsTimes }
{
    uses_law();
}

/// And so of the bytes of a table, in which the column of a name tells these times: with the program of this table.
pub fn tables_law()
    ensures { UsesItsTable }
{
    times_law();
}
