//! A run that stands as it stood before goes on as it did, for ever.
//!
//! Processes take no input, so a run is a closed system. Where all windows begin, little of its past matters: which threads
//! there are and which of them were stopped, their contexts, and the memories. Where these are as they were at an earlier
//! such tick, and no tick is read between the two, the ledger repeats from there on. So one finite run tells of all time.
//!
//! Each function carries one law in its contract, and does nothing but call the laws that it stands on. All rules are this
//! project's own.
#![tactic(auto)]

ghost use Rattle.dk_repeat.specs.Laws.{EntriesKeepThreads, MemoriesRepeat, ProgramsReadNoTick, RunsRepeat, RunsRepeatForEver, RunsStandOn, SpansRepeat};
ghost use Rattle.dk_repeat.specs.Reading.{EntriesShowReads};

use dk_bound::{begin_law, cause_law, chosen_law, known_holders_law, standing_law, threads_law};
use dk_world::{audited_law, length_law};

/// A run that stands at a tick as it stood before goes on with the entries that it had from the earlier tick on.
pub fn repeat_law()
    ensures { RunsRepeat }
{
    audited_law();
    length_law();
    cause_law();
    chosen_law();
    threads_law();
    standing_law();
    begin_law();
    known_holders_law();
}

/// So it repeats the entries between the two ticks for ever.
pub fn forever_law()
    ensures { RunsRepeatForEver }
{
    repeat_law();
}

/// So each span of ticks, as a window, has the entries of the same span of the first cycle.
pub fn span_law()
    ensures { SpansRepeat }
{
    forever_law();
}

/// And its memories.
pub fn memory_law()
    ensures { MemoriesRepeat }
{
    audited_law();
    length_law();
    cause_law();
    chosen_law();
    threads_law();
    standing_law();
    begin_law();
    known_holders_law();
}

/// And it stands again, as many ticks later, at each tick from there on at which all windows begin.
pub fn stand_on_law()
    ensures { RunsStandOn }
{
    audited_law();
    length_law();
    cause_law();
    chosen_law();
    threads_law();
    standing_law();
    begin_law();
    known_holders_law();
}

/// Where no program holds the call that reads the tick, no tick is read.
pub fn clock_law()
    ensures { ProgramsReadNoTick }
{
    audited_law();
    cause_law();
    chosen_law();
    threads_law();
    standing_law();
}

/// An entry that neither makes nor stops a thread leaves all threads standing as they stood.
pub fn kept_law()
    ensures { EntriesKeepThreads }
{}

/// The entry of a tick, and the context behind it of the thread at a kernel call, show whether the tick was read in it, and by
/// whom.
pub fn reads_law()
    ensures { EntriesShowReads }
{
    audited_law();
    cause_law();
    chosen_law();
    threads_law();
    standing_law();
}
