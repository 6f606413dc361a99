//! What a process sees change: the first of it, and all.
ghost use Rattle.std.specs.Prelude.{ℕ, ◌≡◌, ◌++◌, ◌↔◌, IfOk, IsTrue, OnOk};
ghost use Rattle.std.specs.Option.{option_or};
ghost use Rattle.dk_impact.specs.declared.change.Change.{Change};
ghost use Rattle.dk_impact.specs.Greater.{GivesNoLess};
ghost use Rattle.dk_impact.specs.Impact.{SeesTheSameButPeriod, SeesTheSameButTime};
ghost use Rattle.dk_config.specs.Checked.{IsWithinLimits};
ghost use Rattle.dk_config.specs.Windows.{budget, longest_hold, main_level, max_level, memory, period};
ghost use Rattle.dk_impact.specs.Changes.{AreAll, IsFirst, IsSight, Tells, TellsOf, but_time_change, cost_change, cost_changes, differs, first_change, level_change, listed, mutex_change, mutexes_below, mutexes_change, own_change, row_change, row_changes, seen, seen_all, size_change, use_change};

use crate::{Change, Sight};
use dk_config::{Config, MAX_MUTEXES, NoMemory};
use dk_isa::holds_call;
use std::alloc::{AllocError, Global};

/// The number of the call that makes a thread.
const CREATE: u8 = 3;

/// The number of the call that reads what is left of the budget.
const LEFT: u8 = 10;

/// The number of the call that locks a mutex.
const LOCK: u8 = 5;

/// The change, where the numbers differ.
fn differs(change: Change, old: u32, new: u32) -> Option<Change>
    ensures { result ≡ differs change old new }
{
    if old == new { None } else { Some(change) }
}

fn level_of(config: &Config, process: u32) -> u32
    ensures { result ≡ main_level config.now process }
{
    match config.processes.get(process as usize) {
        Some(row) => row.level,
        None => 0,
    }
}

fn slowest_of(config: &Config, process: u32) -> u32
    ensures { result ≡ max_level config.now process }
{
    match config.processes.get(process as usize) {
        Some(row) => row.max_level,
        None => 0,
    }
}

fn budget_of(config: &Config, process: u32) -> u32
    ensures { result ≡ budget config.now process }
{
    match config.processes.get(process as usize) {
        Some(row) => row.budget,
        None => 0,
    }
}

fn memory_of(config: &Config, process: u32) -> u32
    ensures { result ≡ memory config.now process }
{
    match config.processes.get(process as usize) {
        Some(row) => row.memory,
        None => 0,
    }
}

fn period_at(config: &Config, level: u32) -> u32
    ensures { result ≡ period config.now level }
{
    match config.levels.get(level as usize) {
        Some(row) => row.period,
        None => 0,
    }
}

fn hold_of(config: &Config, mutex: u32) -> u32
    ensures { result ≡ longest_hold config.now mutex }
{
    match config.mutexes.get(mutex as usize) {
        Some(row) => row.hold,
        None => 0,
    }
}

fn cost_change(old: &Config, new: &Config) -> Option<Change>
    ensures { result ≡ cost_change old.now new.now }
{
    match differs(Change::Switch, old.costs.switch, new.costs.switch) {
        Some(change) => Some(change),
        None => differs(Change::Call, old.costs.call, new.costs.call),
    }
}

fn size_change(old: &Config, process: u32, new: &Config, same: u32) -> Option<Change>
    ensures { result ≡ size_change old.now process new.now same }
{
    match differs(
        Change::Budget,
        budget_of(old, process),
        budget_of(new, same),
    ) {
        Some(change) => Some(change),
        None => differs(
            Change::Memory,
            memory_of(old, process),
            memory_of(new, same),
        ),
    }
}

fn row_change(old: &Config, process: u32, new: &Config, same: u32) -> Option<Change>
    ensures { result ≡ row_change old.now process new.now same }
{
    let before = period_at(old, level_of(old, process));
    let after = period_at(new, level_of(new, same));
    match differs(Change::Period, before, after) {
        Some(change) => Some(change),
        None => size_change(old, process, new, same),
    }
}

fn mutex_change(old: &Config, process: u32, new: &Config, same: u32, mutex: u32) -> Option<Change>
    ensures { result ≡ mutex_change old.now process new.now same mutex }
{
    match (old.is_user(mutex, process), new.is_user(mutex, same)) {
        (true, true) => differs(
            Change::Hold(mutex),
            hold_of(old, mutex),
            hold_of(new, mutex),
        ),
        (false, false) => None,
        _ => Some(Change::User(mutex)),
    }
}

fn mutexes_change(old: &Config, process: u32, new: &Config, same: u32) -> Option<Change>
    ensures { result ≡ mutexes_change old.now process new.now same }
{
    for mutex in 0..MAX_MUTEXES {
        if let Some(change) = mutex_change(old, process, new, same, mutex as u32) {
            return Some(change);
        }
    }
    None
}

fn level_change(old: &Config, process: u32, new: &Config, same: u32) -> Option<Change>
    ensures { result ≡ level_change old.now process new.now same }
{
    match differs(Change::Levels, level_of(old, process), level_of(new, same)) {
        Some(change) => Some(change),
        None => differs(
            Change::Levels,
            slowest_of(old, process),
            slowest_of(new, same),
        ),
    }
}

fn seen(sees: bool, change: Option<Change>) -> Option<Change>
    ensures { result ≡ seen sees change }
{
    if sees { change } else { None }
}

fn use_change(old: &Config, process: u32, new: &Config, same: u32, sight: Sight) -> Option<Change>
    ensures { result ≡ use_change sight old.now process new.now same }
{
    match seen(sight.locks, mutexes_change(old, process, new, same)) {
        Some(change) => Some(change),
        None => seen(sight.creates, level_change(old, process, new, same)),
    }
}

fn own_change(old: &Config, process: u32, new: &Config, same: u32, sight: Sight) -> Option<Change>
    ensures { result ≡ own_change sight old.now process new.now same }
{
    match row_change(old, process, new, same) {
        Some(change) => Some(change),
        None => use_change(old, process, new, same, sight),
    }
}

fn any_change(old: &Config, process: u32, new: &Config, same: u32, sight: Sight) -> Option<Change>
    ensures { result ≡ first_change sight old.now process new.now same }
{
    match cost_change(old, new) {
        Some(change) => Some(change),
        None => own_change(old, process, new, same, sight),
    }
}

fn memory_and_use_change(
    old: &Config,
    process: u32,
    new: &Config,
    same: u32,
    sight: Sight,
) -> Option<Change>
    ensures { result ≡ option_or (differs Change.Memory (memory old.now process) (memory new.now same)) (use_change sight old.now process new.now same) }
{
    match differs(
        Change::Memory,
        memory_of(old, process),
        memory_of(new, same),
    ) {
        Some(change) => Some(change),
        None => use_change(old, process, new, same, sight),
    }
}

fn but_time_change(
    old: &Config,
    process: u32,
    new: &Config,
    same: u32,
    sight: Sight,
) -> Option<Change>
    ensures { result ≡ but_time_change sight old.now process new.now same }
{
    match cost_change(old, new) {
        Some(change) => Some(change),
        None => memory_and_use_change(old, process, new, same, sight),
    }
}

fn sight_of(program: &[u8]) -> Sight
    ensures { IsSight result program.now }
{
    Sight {
        locks: holds_call(program, LOCK),
        creates: holds_call(program, CREATE),
    }
}

/// The first thing that the process sees change from the old configuration to the new, where it is the process `same`, and
/// has this program in both.
///
/// None: it sees the same. Any: it doesn't.
pub fn first_change(
    old: &Config,
    process: u32,
    new: &Config,
    same: u32,
    program: &[u8],
) -> Option<Change>
    requires old_limits { IsWithinLimits old.now }
    requires new_limits { IsWithinLimits new.now }
    ensures first { IsFirst old.now process new.now same program.now result }
    ensures tells { Tells old.now process new.now same program.now result }
{
    let sight = sight_of(program);
    any_change(old, process, new, same, sight)
}

fn add(changes: &mut Vec<Change>, change: Option<Change>) -> Result<(), AllocError>
    ensures { OnOk result (changes.new.items ≡ changes.old.items ++ listed change) }
{
    if let Some(change) = change {
        changes.push(change)?;
    }
    Ok(())
}

fn add_costs(changes: &mut Vec<Change>, old: &Config, new: &Config) -> Result<(), AllocError>
    ensures { OnOk result (changes.new.items ≡ changes.old.items ++ cost_changes old.now new.now) }
{
    add(
        changes,
        differs(Change::Switch, old.costs.switch, new.costs.switch),
    )?;
    add(
        changes,
        differs(Change::Call, old.costs.call, new.costs.call),
    )
}

fn add_row(
    changes: &mut Vec<Change>,
    old: &Config,
    process: u32,
    new: &Config,
    same: u32,
) -> Result<(), AllocError>
    ensures { OnOk result (changes.new.items ≡ changes.old.items ++ row_changes old.now process new.now same) }
{
    let before = period_at(old, level_of(old, process));
    let after = period_at(new, level_of(new, same));
    add(changes, differs(Change::Period, before, after))?;
    add(
        changes,
        differs(
            Change::Budget,
            budget_of(old, process),
            budget_of(new, same),
        ),
    )?;
    add(
        changes,
        differs(
            Change::Memory,
            memory_of(old, process),
            memory_of(new, same),
        ),
    )
}

#[tactic(auto, using(crate::proofs::Listing::one_more))]
fn add_mutexes(
    changes: &mut Vec<Change>,
    old: &Config,
    process: u32,
    new: &Config,
    same: u32,
) -> Result<(), AllocError>
    ensures { OnOk result (changes.new.items ≡ changes.old.items ++ mutexes_below old.now process new.now same MAX_MUTEXES) }
{
    for mutex in 0..MAX_MUTEXES {
        add(changes, mutex_change(old, process, new, same, mutex as u32))?;
    }
    Ok(())
}

fn add_mutexes_if(
    sees: bool,
    changes: &mut Vec<Change>,
    old: &Config,
    process: u32,
    new: &Config,
    same: u32,
) -> Result<(), AllocError>
    ensures { OnOk result (changes.new.items ≡ changes.old.items ++ seen_all sees (mutexes_below old.now process new.now same MAX_MUTEXES)) }
{
    if sees {
        add_mutexes(changes, old, process, new, same)
    } else {
        Ok(())
    }
}

/// All that the process sees change from the old configuration to the new, in the order of `first_change`, where it is the
/// process `same`, and has this program in both. `Err` is want of memory.
pub fn all_changes(
    alloc: Global,
    old: &Config,
    process: u32,
    new: &Config,
    same: u32,
    program: &[u8],
) -> Result<Vec<Change>, NoMemory>
    ensures { IfOk result (λ changes. AreAll old.now process new.now same program.now changes.items) }
{
    let sight = sight_of(program);
    let mut changes = Vec::new(alloc);
    add_costs(&mut changes, old, new)?;
    add_row(&mut changes, old, process, new, same)?;
    add_mutexes_if(sight.locks, &mut changes, old, process, new, same)?;
    add(
        &mut changes,
        seen(sight.creates, level_change(old, process, new, same)),
    )?;
    Ok(changes)
}

/// Whether nothing is seen to change but the budget and the period, by a process with this program in both.
fn sees_the_same_but_time(
    old: &Config,
    process: u32,
    new: &Config,
    same: u32,
    program: &[u8],
) -> bool
    requires old_limits { IsWithinLimits old.now }
    requires new_limits { IsWithinLimits new.now }
    ensures { IsTrue result ↔ SeesTheSameButTime old.now process new.now same program.now }
{
    let sight = sight_of(program);
    match but_time_change(old, process, new, same, sight) {
        Some(_) => false,
        None => true,
    }
}

/// Whether the process, which is the process `same` of the new configuration and has this program in both, sees nothing
/// change but maybe the period of its level.
///
/// Then what was seen of its windows holds of them in the new configuration too (`first_windows_any_period_law`).
pub fn sees_the_same_but_period(
    old: &Config,
    process: u32,
    new: &Config,
    same: u32,
    program: &[u8],
) -> bool
    requires old_limits { IsWithinLimits old.now }
    requires new_limits { IsWithinLimits new.now }
    ensures { IsTrue result ↔ SeesTheSameButPeriod old.now process new.now same program.now }
{
    if budget_of(old, process) != budget_of(new, same) {
        return false;
    }
    sees_the_same_but_time(old, process, new, same, program)
}

/// Whether the process, which is the process `same` of the new configuration and has this program in both, is given no less
/// there: it sees nothing change but its budget and its period, its budget is no smaller, and its program doesn't read what is
/// left of it.
///
/// Then what was seen of its windows holds of them in the new configuration too, where each of them had enough
/// (`first_windows_with_more_law`).
pub fn gives_no_less(old: &Config, process: u32, new: &Config, same: u32, program: &[u8]) -> bool
    requires old_limits { IsWithinLimits old.now }
    requires new_limits { IsWithinLimits new.now }
    ensures { IsTrue result ↔ GivesNoLess old.now process new.now same program.now }
{
    if holds_call(program, LEFT) || budget_of(old, process) > budget_of(new, same) {
        return false;
    }
    sees_the_same_but_time(old, process, new, same, program)
}
