//! A row for each number of a layout, with how far it can go.
ghost use Rattle.std.specs.Prelude.{◌≡◌, ◌≤◌, ◌<◌, ◌++◌, length, map, IfOk, IfSome, OnOk};
ghost use Rattle.show_rows.specs.Lines.{AddsLine, AddsLines};
ghost use Rattle.show_rows.specs.Rows.{cell_text};
ghost use Rattle.show_layout.specs.Margins.{AreMargins, IsBudgetLine, IsGrowthLine, IsHoldLine, IsReleaseLine, IsSwitchLine, end_of, limit_word, process_by, reach_told, ticks_row};

use crate::reaches::{Reach, budget_reach, growth_reach, hold_reach, release_reach, switch_reach};
use dk_certify::level_row;
use dk_config::{Layout, NoMemory};
use show_rows::Cell::{Gap, Number, Word};
use show_rows::{Cell, Form, add_columns, add_end, add_note, add_row, number_cell};
use std::alloc::{AllocError, Global};

const COLUMNS: &str =
    "kind,name,limit,limit_process,level,ticks,body,up_to,up_to_percent,limit_level";

const BUDGET: &str = "process {name} budget {ticks} body {body}";

const HOLD: &str = "mutex {name} hold {ticks}";

const RELEASE: &str = "level {level} release {ticks}";

const SWITCH: &str = "switch {ticks}";

const GROWTH: &str = "growth percent";

const NONE: &str = " up to none\n";

const RANGE: &str = " up to {up_to}{up_to_percent} limit {limit}\n";

const LIMITED: &str = " up to {up_to}{up_to_percent} limit {limit} {limit_process}{limit_level}\n";

/// How the line ends.
fn end_of(reach: Reach) -> &'static str
    ensures { result.now ≡ end_of reach.most reach.limit }
{
    match reach.most {
        None => NONE,
        Some(_) => match reach.limit {
            Some(_) => LIMITED,
            None => RANGE,
        },
    }
}

/// What stands in the way of one more: a row of this kind, or the range.
fn limit_word(reach: Reach, kind: &'static str) -> &'static str
    ensures { result.now ≡ limit_word reach.most reach.limit kind.now }
{
    match reach.most {
        None => "",
        Some(_) => match reach.limit {
            Some(_) => kind,
            None => "range",
        },
    }
}

fn add_reach(
    alloc: Global,
    out: &mut Vec<u8>,
    form: Form,
    start: &str,
    reach: Reach,
    cells: &[Cell],
) -> Result<(), AllocError>
    requires { 2 ≤ length cells.now }
    ensures { OnOk result (out.new.items ≡ out.old.items ++ reach_told form start.now reach (map cell_text cells.now)) }
{
    add_note(alloc, out, form, COLUMNS, start, cells)?;
    add_row(alloc, out, form, COLUMNS, end_of(reach), cells)
}

/// A number of ticks that a level limits.
#[derive(Clone, Copy)]
struct Ticks<'a> {
    kind: &'static str,
    name: &'a str,
    level: Option<u32>,
    ticks: u32,
    body: Option<u32>,
}

fn add_ticks(
    alloc: Global,
    out: &mut Vec<u8>,
    form: Form,
    start: &str,
    of: Ticks,
    reach: Reach,
) -> Result<(), AllocError>
    ensures { OnOk result (out.new.items
        ≡ out.old.items ++ reach_told form start.now reach
        (ticks_row of.entry.kind.now of.entry.name.now of.entry.level of.entry.ticks of.entry.body reach)) }
{
    let cells = [
        Word(of.kind),
        Word(of.name),
        Word(limit_word(reach, "level")),
        Gap,
        number_cell(of.level),
        Number(of.ticks as u64),
        number_cell(of.body),
        number_cell(reach.most),
        Gap,
        number_cell(reach.limit),
    ];
    add_reach(alloc, out, form, start, reach, &cells)
}

fn add_budget(
    alloc: Global,
    out: &mut Vec<u8>,
    form: Form,
    layout: &Layout,
    process: u32,
) -> Result<(), NoMemory>
    requires exists { process < length layout.now.processes }
    ensures { OnOk result (AddsLine (IsBudgetLine form layout.now process) out.old.items out.new.items) }
{
    let reach = budget_reach(layout, process);
    let config = layout.config();
    let row = &config.processes.as_slice()[process as usize];
    let budget = Ticks {
        kind: "budget",
        name: row.name.as_str(),
        level: None,
        ticks: row.budget,
        body: Some(row.budget - 2 * config.costs.switch),
    };
    add_ticks(alloc, out, form, BUDGET, budget, reach)?;
    Ok(())
}

#[tactic(auto, using(show_rows::proofs::Adding::one_more))]
fn add_budgets(
    alloc: Global,
    out: &mut Vec<u8>,
    form: Form,
    layout: &Layout,
) -> Result<(), NoMemory>
    ensures { OnOk result (AddsLines (IsBudgetLine form layout.now) (length layout.now.processes) out.old.items out.new.items) }
{
    for process in 0..layout.config().processes.len() as u32 {
        add_budget(alloc, out, form, layout, process)?;
    }
    Ok(())
}

fn add_hold(
    alloc: Global,
    out: &mut Vec<u8>,
    form: Form,
    layout: &Layout,
    mutex: u32,
) -> Result<(), NoMemory>
    requires exists { mutex < length layout.now.mutexes }
    ensures { OnOk result (AddsLine (IsHoldLine form layout.now mutex) out.old.items out.new.items) }
{
    let reach = hold_reach(layout, mutex);
    let row = &layout.config().mutexes.as_slice()[mutex as usize];
    let hold = Ticks {
        kind: "hold",
        name: row.name.as_str(),
        level: None,
        ticks: row.hold,
        body: None,
    };
    add_ticks(alloc, out, form, HOLD, hold, reach)?;
    Ok(())
}

#[tactic(auto, using(show_rows::proofs::Adding::one_more))]
fn add_holds(alloc: Global, out: &mut Vec<u8>, form: Form, layout: &Layout) -> Result<(), NoMemory>
    ensures { OnOk result (AddsLines (IsHoldLine form layout.now) (length layout.now.mutexes) out.old.items out.new.items) }
{
    for mutex in 0..layout.config().mutexes.len() as u32 {
        add_hold(alloc, out, form, layout, mutex)?;
    }
    Ok(())
}

fn add_release(
    alloc: Global,
    out: &mut Vec<u8>,
    form: Form,
    layout: &Layout,
    level: u32,
) -> Result<(), NoMemory>
    requires exists { level < length layout.now.levels }
    ensures { OnOk result (AddsLine (IsReleaseLine form layout.now level) out.old.items out.new.items) }
{
    let reach = release_reach(layout, level);
    let release = Ticks {
        kind: "release",
        name: "",
        level: Some(level),
        ticks: level_row(layout.config(), level as usize).release,
        body: None,
    };
    add_ticks(alloc, out, form, RELEASE, release, reach)?;
    Ok(())
}

#[tactic(auto, using(show_rows::proofs::Adding::one_more))]
fn add_releases(
    alloc: Global,
    out: &mut Vec<u8>,
    form: Form,
    layout: &Layout,
) -> Result<(), NoMemory>
    ensures { OnOk result (AddsLines (IsReleaseLine form layout.now) (length layout.now.levels) out.old.items out.new.items) }
{
    for level in 0..layout.config().levels.len() as u32 {
        add_release(alloc, out, form, layout, level)?;
    }
    Ok(())
}

/// The name of the process that stands in the way.
fn process_by(layout: &Layout, limit: Option<u32>) -> &str
    requires { IfSome limit (λ p. p < length layout.now.processes) }
    ensures { result.now ≡ process_by layout.now limit }
{
    match limit {
        Some(process) => layout.config().processes.as_slice()[process as usize]
            .name
            .as_str(),
        None => "",
    }
}

fn add_switch(alloc: Global, out: &mut Vec<u8>, form: Form, layout: &Layout) -> Result<(), NoMemory>
    ensures { OnOk result (AddsLine (IsSwitchLine form layout.now) out.old.items out.new.items) }
{
    let reach = switch_reach(layout);
    let cells = [
        Word("switch"),
        Gap,
        Word(limit_word(reach, "process")),
        Word(process_by(layout, reach.limit)),
        Gap,
        Number(layout.config().costs.switch as u64),
        Gap,
        number_cell(reach.most),
        Gap,
        Gap,
    ];
    add_reach(alloc, out, form, SWITCH, reach, &cells)?;
    Ok(())
}

fn add_growth(alloc: Global, out: &mut Vec<u8>, form: Form, layout: &Layout) -> Result<(), NoMemory>
    ensures { OnOk result (AddsLine (IsGrowthLine form layout.now) out.old.items out.new.items) }
{
    let reach = growth_reach(layout);
    let cells = [
        Word("growth"),
        Gap,
        Word(limit_word(reach, "level")),
        Gap,
        Gap,
        Gap,
        Gap,
        Gap,
        number_cell(reach.most),
        number_cell(reach.limit),
    ];
    add_reach(alloc, out, form, GROWTH, reach, &cells)?;
    Ok(())
}

/// For each process its budget, what is left of it for the body, how far it can go, and the first level that fails with
/// one more; the same of each mutex's hold, of each level's release, and of the cost of a switch, which budgets limit;
/// and last by how many percent all budgets can grow at once. The layout needn't be certified. `Err` is want of memory.
pub fn margins(alloc: Global, form: Form, layout: &Layout) -> Result<Vec<u8>, NoMemory>
    ensures { IfOk result (λ v. AreMargins form layout.now v.items) }
{
    let mut out = Vec::new(alloc);
    add_columns(&mut out, form, COLUMNS)?;
    add_budgets(alloc, &mut out, form, layout)?;
    add_holds(alloc, &mut out, form, layout)?;
    add_releases(alloc, &mut out, form, layout)?;
    add_switch(alloc, &mut out, form, layout)?;
    add_growth(alloc, &mut out, form, layout)?;
    add_end(&mut out, form)?;
    Ok(out)
}
