//! What a change does to each process.
ghost use Rattle.std.specs.Prelude.{ℕ, ◌≡◌, ◌↔◌, ◌<◌, IfOk, IfSome, IsTrue, length, position};
ghost use Rattle.std.specs.Str.{bytes_eq};
ghost use Rattle.dk_config.specs.declared.rows.ProcessRow.{ProcessRow as Process};
ghost use Rattle.dk_config.specs.Windows.{main_level, period, process_name};
ghost use Rattle.dk_impact.specs.Changes.{AreAll, Tells};
ghost use Rattle.dk_impact.specs.Greater.{GivesNoLess};
ghost use Rattle.dk_impact.specs.Impact.{SeesTheSame, SeesTheSameButPeriod};
ghost use Rattle.show_impact.specs.Evidence.{EvidenceOutlives, EvidenceStands, WindowsStand};
ghost use Rattle.show_impact.specs.Impacts.{AreApart, AreChanges, AreRows, IsCause, IsDone, IsFound, IsGivenNoLess, IsPeriodAlone, IsRow, IsRowThere, IsSame, IsSameAsItWaits, IsTheSame, Keeps, place_of, program_of};

use crate::waiting::waiting_of;
use crate::{Cause, CertifiedLoad, Impact, Row, Waiting};
use dk_config::{Config, NoMemory, ProcessRow};
use dk_impact::{
    Change, all_changes, first_change, first_windows_across_law, first_windows_any_period_law,
    first_windows_with_more_law, for_ever_law, gives_no_less, impact_law, sees_the_same_but_period,
};
use dk_isa::holds_call;
use dk_when::done_by;
use std::alloc::Global;

/// The number of the call that reads the tick.
const TIME: u8 = 9;

/// The first cause for which nothing is promised of the process.
fn cause_of(load: &CertifiedLoad, process: u32) -> Option<Cause>
    requires { process < length load.now.config.processes }
    ensures { IsCause load.now process result }
{
    let row = &load.config().processes.as_slice()[process as usize];
    if row.threads > 0 {
        return Some(Cause::Threads);
    }
    if row.slack {
        return Some(Cause::Slack);
    }
    if holds_call(load.program(process), TIME) {
        return Some(Cause::Clock);
    }
    None
}

/// The first thing that the process sees change, where it has the same program in both.
fn change_of(old: &CertifiedLoad, process: u32, new: &CertifiedLoad, same: u32) -> Option<Change>
    ensures { Tells old.now.config process new.now.config same (program_of old.now process) result }
{
    first_change(
        old.config(),
        process,
        new.config(),
        same,
        old.program(process),
    )
}

fn sees_the_same(old: &CertifiedLoad, process: u32, new: &CertifiedLoad, same: u32) -> bool
    ensures { IsTrue result ↔ SeesTheSame old.now.config process new.now.config same (program_of old.now process) }
{
    match change_of(old, process, new, same) {
        None => true,
        Some(_) => false,
    }
}

fn sees_a_period_alone(old: &CertifiedLoad, process: u32, new: &CertifiedLoad, same: u32) -> bool
    ensures { IsTrue result ↔ SeesTheSameButPeriod old.now.config process new.now.config same (program_of old.now process) }
{
    sees_the_same_but_period(
        old.config(),
        process,
        new.config(),
        same,
        old.program(process),
    )
}

fn has_no_less(old: &CertifiedLoad, process: u32, new: &CertifiedLoad, same: u32) -> bool
    ensures { IsTrue result ↔ GivesNoLess old.now.config process new.now.config same (program_of old.now process) }
{
    gives_no_less(
        old.config(),
        process,
        new.config(),
        same,
        old.program(process),
    )
}

fn level_of(config: &Config, process: u32) -> u32
    ensures { result ≡ main_level config.now process }
{
    match config.processes.get(process as usize) {
        Some(row) => row.level,
        None => 0,
    }
}

fn period_at(config: &Config, level: u32) -> u32
    ensures { result ≡ period config.now level }
{
    match config.levels.get(level as usize) {
        Some(row) => row.period,
        None => 0,
    }
}

/// The length of the windows of the process's main.
pub(crate) fn period_of(config: &Config, process: u32) -> u32
    ensures { result ≡ period config.now (main_level config.now process) }
{
    period_at(config, level_of(config, process))
}

/// What becomes of a process that is given no less.
fn given_impact(
    alloc: Global,
    old: &CertifiedLoad,
    process: u32,
    new: &CertifiedLoad,
    same: u32,
) -> Result<Impact, NoMemory>
    requires known { process < length old.now.config.processes }
    requires given { IsGivenNoLess old.now process new.now same }
    ensures { IfOk result (IsFound old.now process new.now same) }
{
    match waiting_of(alloc, old, process)? {
        Waiting::Always => {
            if period_of(old.config(), process) == period_of(new.config(), same) {
                Ok(Impact::Waits)
            } else {
                Ok(Impact::IfItWaits(Waiting::Always))
            }
        }
        waiting => Ok(Impact::IfItWaits(waiting)),
    }
}

/// What a process with one program sees change, which keeps to itself before and now.
fn seen_change(
    alloc: Global,
    old: &CertifiedLoad,
    process: u32,
    new: &CertifiedLoad,
    same: u32,
) -> Result<Impact, NoMemory>
    requires known { process < length old.now.config.processes }
    requires before { Keeps old.now process }
    requires now { Keeps new.now same }
    requires program { program_of old.now process ≡ program_of new.now same }
    ensures { IfOk result (IsFound old.now process new.now same) }
{
    if sees_the_same(old, process, new, same) {
        return Ok(Impact::Same);
    }
    if sees_a_period_alone(old, process, new, same) {
        return Ok(Impact::PeriodAlone);
    }
    if has_no_less(old, process, new, same) {
        return given_impact(alloc, old, process, new, same);
    }
    Ok(Impact::Changed)
}

/// What becomes of the process of the old configuration, which is the process `same` of the new.
fn found(
    alloc: Global,
    old: &CertifiedLoad,
    process: u32,
    new: &CertifiedLoad,
    same: u32,
) -> Result<Impact, NoMemory>
    requires old_known { process < length old.now.config.processes }
    requires new_known { same < length new.now.config.processes }
    ensures { IfOk result (IsFound old.now process new.now same) }
{
    if let Some(cause) = cause_of(old, process) {
        return Ok(Impact::Open(cause));
    }
    if let Some(cause) = cause_of(new, same) {
        return Ok(Impact::Open(cause));
    }
    if old.program(process) != new.program(same) {
        return Ok(Impact::Program);
    }
    seen_change(alloc, old, process, new, same)
}

fn row_named(rows: &[ProcessRow], name: &str) -> Option<usize>
    ensures found { result ≡ position (λ (row : Process). bytes_eq row.name name.now) rows.now }
    ensures exists { IfSome result (λ p. p < length rows.now) }
{
    rows.iter().position(|row| row.name.as_str() == name)
}

/// The process of this name.
pub(crate) fn place_of(load: &CertifiedLoad, name: &str) -> Option<u32>
    ensures found { result ≡ place_of load.now.config name.now }
    ensures exists { IfSome result (λ p. p < length load.now.config.processes) }
{
    match row_named(load.config().processes.as_slice(), name) {
        Some(process) => Some(process as u32),
        None => None,
    }
}

/// After how many ticks of its window the main of the process has its budget.
fn done_in(load: &CertifiedLoad, process: u32) -> u32
    requires { process < length load.now.config.processes }
    ensures { IsDone load.now.config process result }
{
    done_by(load.config(), process)
}

/// The name of the process.
pub(crate) fn name_of(load: &CertifiedLoad, process: u32) -> &str
    ensures { result.now ≡ process_name load.now.config process }
{
    match load.config().processes.get(process as usize) {
        Some(row) => row.name.as_str(),
        None => "",
    }
}

/// All that the process sees change, where it has the same program in both.
fn changes_between(
    alloc: Global,
    old: &CertifiedLoad,
    process: u32,
    new: &CertifiedLoad,
    same: u32,
) -> Result<Vec<Change>, NoMemory>
    ensures { IfOk result (λ changes. AreAll old.now.config process new.now.config same (program_of old.now process) changes.items) }
{
    all_changes(
        alloc,
        old.config(),
        process,
        new.config(),
        same,
        old.program(process),
    )
}

/// What it sees change, by what becomes of it.
fn changes_of(
    alloc: Global,
    impact: Impact,
    old: &CertifiedLoad,
    process: u32,
    new: &CertifiedLoad,
    same: u32,
) -> Result<Vec<Change>, NoMemory>
    ensures { IfOk result (λ changes. AreChanges impact old.now process new.now same changes.items) }
{
    match impact {
        Impact::PeriodAlone | Impact::Waits | Impact::IfItWaits(_) | Impact::Changed => {
            changes_between(alloc, old, process, new, same)
        }
        Impact::Same | Impact::Program | Impact::Open(_) | Impact::New => Ok(Vec::new(alloc)),
    }
}

/// What is found of the process of the old configuration, which is the process `same` of the new.
fn row_there(
    alloc: Global,
    old: &CertifiedLoad,
    process: u32,
    new: &CertifiedLoad,
    same: u32,
) -> Result<Row, NoMemory>
    requires old_known { process < length old.now.config.processes }
    requires new_known { same < length new.now.config.processes }
    ensures { IfOk result (IsRowThere old.now process new.now same) }
{
    let impact = found(alloc, old, process, new, same)?;
    let changes = changes_of(alloc, impact, old, process, new, same)?;
    Ok(Row {
        impact,
        changes,
        before: done_in(old, process),
        after: done_in(new, same),
    })
}

/// What is found of a process of the new configuration.
fn row_of(
    alloc: Global,
    old: &CertifiedLoad,
    new: &CertifiedLoad,
    process: u32,
) -> Result<Row, NoMemory>
    requires { process < length new.now.config.processes }
    ensures { IfOk result (IsRow old.now new.now process) }
{
    match place_of(old, name_of(new, process)) {
        Some(place) => row_there(alloc, old, place, new, process),
        None => {
            let done = done_in(new, process);
            Ok(Row {
                impact: Impact::New,
                changes: Vec::new(alloc),
                before: done,
                after: done,
            })
        }
    }
}

/// How many processes the configuration has.
pub(crate) fn how_many(load: &CertifiedLoad) -> u32
    ensures { result ≡ length load.now.config.processes }
{
    load.config().processes.len() as u32
}

/// The rows of all processes, one by one.
#[tactic(auto, using(crate::proofs::Rows::one_row))]
fn rows_of(alloc: Global, old: &CertifiedLoad, new: &CertifiedLoad) -> Result<Vec<Row>, NoMemory>
    ensures { IfOk result (λ rows. AreRows old.now new.now (length new.now.config.processes) rows.items) }
{
    let mut rows = Vec::new(alloc);
    for process in 0..how_many(new) {
        let row = row_of(alloc, old, new, process)?;
        rows.push(row)?;
    }
    Ok(rows)
}

/// The evidence of what is told to be the same stands.
fn evidence_stands(old: &CertifiedLoad, new: &CertifiedLoad)
    ensures { (p q : ℕ) → IsSame old.now p new.now q → EvidenceStands old.now p new.now q }
{
    let _before = old.config();
    let _after = new.config();
    impact_law();
    first_windows_across_law();
}

/// And window by window that of what sees a period alone change.
fn windows_stand(old: &CertifiedLoad, new: &CertifiedLoad)
    ensures { (p q : ℕ) → IsPeriodAlone old.now p new.now q → WindowsStand old.now p new.now q }
{
    let _before = old.config();
    let _after = new.config();
    first_windows_any_period_law();
}

/// And that of what is given no less, as long as each window has enough.
fn evidence_outlives(old: &CertifiedLoad, new: &CertifiedLoad)
    ensures { (p q : ℕ) → IsGivenNoLess old.now p new.now q → EvidenceOutlives old.now p new.now q }
{
    let _before = old.config();
    let _after = new.config();
    first_windows_with_more_law();
}

/// What is given more in windows of the same length, and waits in each, is the same for ever: its evidence stands too.
fn evidence_stays(old: &CertifiedLoad, new: &CertifiedLoad)
    ensures { (p q : ℕ) → IsSameAsItWaits old.now p new.now q → EvidenceStands old.now p new.now q }
{
    let _before = old.config();
    let _after = new.config();
    for_ever_law();
    first_windows_with_more_law();
}

/// What a change of the configuration, and of programs, does to each process of the new configuration, in the order of its
/// rows. `Err` is want of memory.
pub fn impacts(
    alloc: Global,
    old: &CertifiedLoad,
    new: &CertifiedLoad,
) -> Result<Vec<Row>, NoMemory>
    ensures rows { IfOk result (λ rows. AreRows old.now new.now (length new.now.config.processes) rows.items) }
    // What is told to be the same is: its evidence stands.
    ensures stands { (p q : ℕ) → IsTheSame old.now p new.now q → EvidenceStands old.now p new.now q }
    // Of what sees a period alone change, it stands window by window.
    ensures windows { (p q : ℕ) → IsPeriodAlone old.now p new.now q → WindowsStand old.now p new.now q }
    // Of what is given no less, it does as long as each window has enough.
    ensures outlives { (p q : ℕ) → IsGivenNoLess old.now p new.now q → EvidenceOutlives old.now p new.now q }
    // What is the same as it waits isn't told to be so only if it waits in each window.
    ensures apart { AreApart old.now new.now }
{
    evidence_stands(old, new);
    evidence_stays(old, new);
    windows_stand(old, new);
    evidence_outlives(old, new);
    rows_of(alloc, old, new)
}
