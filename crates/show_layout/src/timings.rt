//! A row for each process, and one for each level that may have children.
ghost use Rattle.std.specs.Prelude.{◌≡◌, ◌<◌, ◌≤◌, ◌&&◌, nat_lt, nat_le, length, IfOk, OnOk};
ghost use Rattle.std.specs.List.{list_any};
ghost use Rattle.dk_config.specs.Checked.{IsChecked, IsWithinLimits};
ghost use Rattle.dk_config.specs.Windows.{budget, main_level, period, process_name};
ghost use Rattle.show_rows.specs.Lines.{AddsLine, AddsLines};
ghost use Rattle.show_layout.specs.When.{IsBetween, IsLevelLine, IsProcessLine, IsWhen};

use dk_certify::level_row;
use dk_config::{Config, Layout, NoMemory, ProcessRow};
use dk_when::{begins_by, begins_from, done_by, done_from, level_done_by};
use show_rows::Cell::{Gap, Number, Word};
use show_rows::{Form, add_columns, add_end, add_row};
use std::alloc::Global;

const COLUMNS: &str =
    "kind,name,level,period,budget,begins_from,begins_by,done_from,done_by,begins_jitter,done_jitter,margin";

const PROCESS: &str =
    "process {name} level {level} period {period} budget {budget} begins from {begins_from} by {begins_by} done from {done_from} by {done_by} jitter {begins_jitter} {done_jitter} margin {margin}\n";

const LEVEL: &str = "level {level} all by {done_by}\n";

/// What of a process's row is told here.
#[derive(Clone, Copy)]
struct Place {
    level: u32,
    period: u32,
    budget: u32,
}

fn place_of(config: &Config, process: u32) -> Place
    requires checked { IsChecked config.now }
    requires limits { IsWithinLimits config.now }
    requires process { process < length config.now.processes }
    ensures level { result.level ≡ main_level config.now process }
    ensures window { result.period ≡ period config.now (main_level config.now process) }
    ensures ticks { result.budget ≡ budget config.now process }
{
    let row = &config.processes.as_slice()[process as usize];
    Place {
        level: row.level,
        period: level_row(config, row.level as usize).period,
        budget: row.budget,
    }
}

fn name_of(config: &Config, process: u32) -> &str
    requires { process < length config.now.processes }
    ensures { result.now ≡ process_name config.now process }
{
    config.processes.as_slice()[process as usize].name.as_str()
}

/// Between which ticks of its window a main has had so many of its share.
#[derive(Clone, Copy)]
struct Between {
    from: u32,
    by: u32,
}

fn first_tick(config: &Config, process: u32) -> Between
    requires checked { IsChecked config.now }
    requires limits { IsWithinLimits config.now }
    requires process { process < length config.now.processes }
    ensures between { IsBetween config.now process 1 result.from result.by }
    ensures within { result.by ≤ period config.now (main_level config.now process) }
{
    Between {
        from: begins_from(config, process),
        by: begins_by(config, process),
    }
}

fn whole_budget(config: &Config, process: u32) -> Between
    requires checked { IsChecked config.now }
    requires limits { IsWithinLimits config.now }
    requires process { process < length config.now.processes }
    ensures between { IsBetween config.now process (budget config.now process) result.from result.by }
    ensures within { result.by ≤ period config.now (main_level config.now process) }
{
    Between {
        from: done_from(config, process),
        by: done_by(config, process),
    }
}

fn add_process(
    alloc: Global,
    out: &mut Vec<u8>,
    form: Form,
    config: &Config,
    process: u32,
) -> Result<(), NoMemory>
    requires checked { IsChecked config.now }
    requires limits { IsWithinLimits config.now }
    requires process { process < length config.now.processes }
    ensures { OnOk result (AddsLine (IsProcessLine form config.now process) out.old.items out.new.items) }
{
    let place = place_of(config, process);
    let begins = first_tick(config, process);
    let done = whole_budget(config, process);
    let cells = [
        Word("process"),
        Word(name_of(config, process)),
        Number(place.level as u64),
        Number(place.period as u64),
        Number(place.budget as u64),
        Number(begins.from as u64),
        Number(begins.by as u64),
        Number(done.from as u64),
        Number(done.by as u64),
        Number((begins.by - begins.from) as u64),
        Number((done.by - done.from) as u64),
        Number((place.period - done.by) as u64),
    ];
    add_row(alloc, out, form, COLUMNS, PROCESS, &cells)?;
    Ok(())
}

fn may_have_children(processes: &[ProcessRow], level: u32) -> bool
    ensures { result ≡ list_any (λ row. nat_lt 0 row.threads && (nat_le row.level level && nat_le level row.max_level))
        processes.now }
{
    processes.iter().any(|row| row.threads > 0 && row.level <= level && level <= row.max_level)
}

fn add_level(
    alloc: Global,
    out: &mut Vec<u8>,
    form: Form,
    config: &Config,
    level: u32,
) -> Result<(), NoMemory>
    requires checked { IsChecked config.now }
    requires limits { IsWithinLimits config.now }
    requires level { level < length config.now.levels }
    ensures { OnOk result (AddsLine (IsLevelLine form config.now level) out.old.items out.new.items) }
{
    if !may_have_children(config.processes.as_slice(), level) {
        return Ok(());
    }
    let done = Number(level_done_by(config, level) as u64);
    let cells = [
        Word("level"),
        Gap,
        Number(level as u64),
        Gap,
        Gap,
        Gap,
        Gap,
        Gap,
        done,
        Gap,
        Gap,
        Gap,
    ];
    add_row(alloc, out, form, COLUMNS, LEVEL, &cells)?;
    Ok(())
}

#[tactic(auto, using(show_rows::proofs::Adding::one_more))]
fn add_processes(
    alloc: Global,
    out: &mut Vec<u8>,
    form: Form,
    config: &Config,
) -> Result<(), NoMemory>
    requires checked { IsChecked config.now }
    requires limits { IsWithinLimits config.now }
    ensures { OnOk result (AddsLines (IsProcessLine form config.now) (length config.now.processes) out.old.items out.new.items) }
{
    for process in 0..config.processes.len() as u32 {
        add_process(alloc, out, form, config, process)?;
    }
    Ok(())
}

#[tactic(auto, using(show_rows::proofs::Adding::one_more))]
fn add_levels(alloc: Global, out: &mut Vec<u8>, form: Form, config: &Config) -> Result<(), NoMemory>
    requires checked { IsChecked config.now }
    requires limits { IsWithinLimits config.now }
    ensures { OnOk result (AddsLines (IsLevelLine form config.now) (length config.now.levels) out.old.items out.new.items) }
{
    for level in 0..config.levels.len() as u32 {
        add_level(alloc, out, form, config, level)?;
    }
    Ok(())
}

/// From when and by when in its window each main has its first tick and its whole budget, by how much either may vary
/// from window to window, and by when all threads of each level that may have children are through, a row each. `Err` is
/// want of memory.
pub fn when_of(alloc: Global, form: Form, config: &Config) -> Result<Vec<u8>, NoMemory>
    requires checked { IsChecked config.now }
    requires limits { IsWithinLimits config.now }
    ensures { IfOk result (λ v. IsWhen form config.now v.items) }
{
    let mut out = Vec::new(alloc);
    add_columns(&mut out, form, COLUMNS)?;
    add_processes(alloc, &mut out, form, config)?;
    add_levels(alloc, &mut out, form, config)?;
    add_end(&mut out, form)?;
    Ok(out)
}

/// The same of a layout.
pub fn when(alloc: Global, form: Form, layout: &Layout) -> Result<Vec<u8>, NoMemory>
    ensures { IfOk result (λ v. IsWhen form layout.now v.items) }
{
    when_of(alloc, form, layout.config())
}
