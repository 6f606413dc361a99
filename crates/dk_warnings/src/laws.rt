//! What holds of every list of entries that follows the rules.
ghost use Rattle.dk_bound.specs.Laws.{Always};
ghost use Rattle.dk_warnings.specs.Fitting.{FittingLocked};
ghost use Rattle.dk_warnings.specs.Told.{WarningsHold};
ghost use Rattle.dk_warnings.specs.Warnings.{LocksRefused, NeverLocked};

use dk_bound::{cause_law, chosen_law, received_law, threads_law};

/// Where a hold never fits a process, each lock of the mutex by a thread of it is refused, by 8, 9 or 10; so none of its
/// threads ever locks it.
pub fn hold_never_fits_law()
    ensures refused { Always LocksRefused }
    ensures never { Always NeverLocked }
{
    cause_law();
    chosen_law();
    threads_law();
}

/// And else some list that follows the rules has the lock: a hold never fits a user exactly where none of its threads
/// can ever lock the mutex.
pub fn hold_fits_law()
    ensures { FittingLocked }
{
    cause_law();
    received_law();
}

/// Each warning of a certified configuration holds, of every list of entries that follows the rules: no child is ever
/// made, no call begins and ends in one body, no slack comes from the timeline, the main alone locks the mutex, nobody
/// of the process locks it. Where a ceiling is too fast, the configuration with the slower one is certified too.
pub fn warnings_law()
    ensures { WarningsHold }
{
    cause_law();
    chosen_law();
    threads_law();
    hold_never_fits_law();
}
