//! Holds that are added to a list.
ghost use Rattle.std.specs.Prelude.{ℕ, List, ◌≡◌, ◌+◌, ◌<◌, ◌^◌, ◌++◌, IfSome, OnOk, flat_map};
ghost use Rattle.dk_config.specs.Sums.{below};
ghost use Rattle.dk_config.specs.declared.TheConstants.{MAX_MUTEXES as MUTEXES};
ghost use Rattle.dk_trace.specs.declared.Entry.{Entry};
ghost use Rattle.dk_holds.specs.Holds.{AreHolders, ended, holding, last_entry};
ghost use Rattle.dk_hold_spans.specs.HoldLists.{part_from};

use crate::hold::Hold;
use dk_config::{MAX_MUTEXES, NoMemory};
use dk_holds::{Holders, Holding};
use dk_ledger::LedgerLine;

/// Adds the ticks of the hold from tick `from` on up to before tick `end`, where there are some.
fn push_part(
    holds: &mut Vec<Hold>,
    from: u32,
    mutex: u8,
    end: u32,
    held: Option<Holding>,
) -> Result<(), NoMemory>
    ensures { OnOk result (holds.new.items ≡ holds.old.items ++ part_from from mutex end held) }
{
    if let Some(holding) = held {
        let start = holding.since.max(from);
        if start < end {
            holds.push(Hold {
                mutex,
                thread: holding.thread,
                start,
                end,
            })?;
        }
    }
    Ok(())
}

/// Adds the holds that the line ends, of which its last tick is the last.
pub(crate) fn push_ended(
    holds: &mut Vec<Hold>,
    from: u32,
    holders: &Holders,
    line: &LedgerLine,
) -> Result<(), NoMemory>
    requires { line.now.start + line.now.count < 2 ^ 32 }
    ensures { OnOk result ((past : List Entry) → AreHolders past holders.now → holds.new.items
        ≡ holds.old.items ++ flat_map (λ m. part_from from m (line.now.start + line.now.count)
        (ended m (last_entry line.now) (holding m past))) (below MUTEXES)) }
{
    let end = line.start + line.count;
    for mutex in 0..MAX_MUTEXES as u8 {
        push_part(holds, from, mutex, end, holders.ended(mutex, line))?;
    }
    Ok(())
}

/// Adds the holds that go on behind the last line, up to before tick `end`.
pub(crate) fn push_open(
    holds: &mut Vec<Hold>,
    from: u32,
    holders: &Holders,
    end: u32,
) -> Result<(), NoMemory>
    ensures { OnOk result ((past : List Entry) → AreHolders past holders.now → holds.new.items
        ≡ holds.old.items ++ flat_map (λ m. part_from from m end (holding m past)) (below MUTEXES)) }
{
    for mutex in 0..MAX_MUTEXES as u8 {
        push_part(holds, from, mutex, end, holders.of(mutex))?;
    }
    Ok(())
}
