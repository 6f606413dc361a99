//! What the certification test finds at each level, a row for each part of it, and its verdict.
ghost use Rattle.std.specs.Prelude.{◌≡◌, ◌<◌, ◌++◌, [], length, IfOk, OnOk};
ghost use Rattle.dk_certify.specs.Verdicts.{verdict_of};
ghost use Rattle.dk_certify.specs.declared.certifying.Verdict.TheVariants.{Accepted};
ghost use Rattle.show_rows.specs.Lines.{AddsLine, AddsLines};
ghost use Rattle.show_rows.specs.Rows.{told};
ghost use Rattle.show_layout.specs.Certificate.{IsCertificate, IsLevel, IsProcessLine, IsReleaseLine, blocking_told, overload_told, sums_told, ticks_row, verdict_told};

use crate::blocking::{longest, user_name};
use crate::takes::{Part, blocking_of, takes, ticks_cell, window_of};
use dk_certify::{Overload, Verdict, certify, demand_of};
use dk_config::{Layout, NoMemory};
use show_rows::Cell::{Gap, Number, Word};
use show_rows::{Form, add_columns, add_row, number_cell};
use std::alloc::{AllocError, Global};

const COLUMNS: &str = "kind,name,user,level,release,ticks,period,demand,blocking,spare,over";

const LEVEL: &str =
    "level {level} period {period} demand {demand} blocking {blocking} spare {spare}\n";

const LONG: &str =
    "level {level} period {period} demand {demand} blocking {blocking} over {over}\n";

const RELEASE: &str = "level {level} release {release} ticks {ticks}\n";

const PROCESS: &str = "level {level} process {name} ticks {ticks}\n";

const MUTEX: &str = "level {level} mutex {name} user {user} ticks {ticks}\n";

const CERTIFIED: &str = "certified\n";

const FAILING: &str = "not certified: level {level} needs {ticks} of {period}\n";

fn add_sums(
    alloc: Global,
    out: &mut Vec<u8>,
    form: Form,
    layout: &Layout,
    level: u32,
) -> Result<(), AllocError>
    requires { level < length layout.now.levels }
    ensures { OnOk result (out.new.items ≡ out.old.items ++ sums_told form layout.now level) }
{
    let over = takes(layout, Part::Over, level);
    let cells = [
        Word("level"),
        Gap,
        Gap,
        Number(level as u64),
        Gap,
        Gap,
        Number(window_of(layout, level)),
        Number(demand_of(layout.config(), level as usize)),
        Number(blocking_of(layout, level) as u64),
        ticks_cell(takes(layout, Part::Spare, level)),
        ticks_cell(over),
    ];
    let pattern = if over.is_some() { LONG } else { LEVEL };
    add_row(alloc, out, form, COLUMNS, pattern, &cells)
}

/// What takes so many ticks of a window of a level.
#[derive(Clone, Copy)]
struct Taken<'a> {
    kind: &'static str,
    name: &'a str,
    user: &'a str,
    level: u32,
    release: Option<u32>,
    ticks: u64,
}

fn add_taken(
    alloc: Global,
    out: &mut Vec<u8>,
    form: Form,
    pattern: &str,
    of: Taken,
) -> Result<(), AllocError>
    ensures { OnOk result (out.new.items
        ≡ out.old.items ++ told form COLUMNS.now pattern.now
        (ticks_row of.entry.kind.now of.entry.name.now of.entry.user.now of.entry.level of.entry.release of.entry.ticks)) }
{
    let cells = [
        Word(of.kind),
        Word(of.name),
        Word(of.user),
        Number(of.level as u64),
        number_cell(of.release),
        Number(of.ticks),
        Gap,
        Gap,
        Gap,
        Gap,
        Gap,
    ];
    add_row(alloc, out, form, COLUMNS, pattern, &cells)
}

/// What the kernel's own work of a level takes, where it takes something.
fn add_release(
    alloc: Global,
    out: &mut Vec<u8>,
    form: Form,
    layout: &Layout,
    level: u32,
    of: u32,
) -> Result<(), AllocError>
    requires level { level < length layout.now.levels }
    requires exists { of < length layout.now.levels }
    ensures { OnOk result (AddsLine (IsReleaseLine form layout.now level of) out.old.items out.new.items) }
{
    let Some(ticks) = takes(layout, Part::Release(of), level) else {
        return Ok(());
    };
    let taken = Taken {
        kind: "release",
        name: "",
        user: "",
        level,
        release: Some(of),
        ticks,
    };
    add_taken(alloc, out, form, RELEASE, taken)
}

#[tactic(auto, using(show_rows::proofs::Adding::one_more))]
fn add_releases(
    alloc: Global,
    out: &mut Vec<u8>,
    form: Form,
    layout: &Layout,
    level: u32,
) -> Result<(), AllocError>
    requires { level < length layout.now.levels }
    ensures { OnOk result (AddsLines (IsReleaseLine form layout.now level) (length layout.now.levels) out.old.items out.new.items) }
{
    for of in 0..layout.config().levels.len() as u32 {
        add_release(alloc, out, form, layout, level, of)?;
    }
    Ok(())
}

/// What the budget of a process takes, where it takes something.
fn add_process(
    alloc: Global,
    out: &mut Vec<u8>,
    form: Form,
    layout: &Layout,
    level: u32,
    process: u32,
) -> Result<(), AllocError>
    requires level { level < length layout.now.levels }
    requires exists { process < length layout.now.processes }
    ensures { OnOk result (AddsLine (IsProcessLine form layout.now level process) out.old.items out.new.items) }
{
    let Some(ticks) = takes(layout, Part::Process(process), level) else {
        return Ok(());
    };
    let taken = Taken {
        kind: "process",
        name: layout.config().processes.as_slice()[process as usize]
            .name
            .as_str(),
        user: "",
        level,
        release: None,
        ticks,
    };
    add_taken(alloc, out, form, PROCESS, taken)
}

#[tactic(auto, using(show_rows::proofs::Adding::one_more))]
fn add_processes(
    alloc: Global,
    out: &mut Vec<u8>,
    form: Form,
    layout: &Layout,
    level: u32,
) -> Result<(), AllocError>
    requires { level < length layout.now.levels }
    ensures { OnOk result (AddsLines (IsProcessLine form layout.now level) (length layout.now.processes) out.old.items out.new.items) }
{
    for process in 0..layout.config().processes.len() as u32 {
        add_process(alloc, out, form, layout, level, process)?;
    }
    Ok(())
}

/// The mutex that keeps the level waiting longest, and nothing where none does.
fn add_blocking(
    alloc: Global,
    out: &mut Vec<u8>,
    form: Form,
    layout: &Layout,
    level: u32,
) -> Result<(), AllocError>
    ensures { OnOk result (out.new.items ≡ out.old.items ++ blocking_told form layout.now level) }
{
    let Some(mutex) = longest(layout, level) else {
        return Ok(());
    };
    let taken = Taken {
        kind: "mutex",
        name: mutex.name.as_str(),
        user: user_name(layout, level, mutex),
        level,
        release: None,
        ticks: mutex.hold as u64,
    };
    add_taken(alloc, out, form, MUTEX, taken)
}

/// The level with all its parts.
fn add_level(
    alloc: Global,
    out: &mut Vec<u8>,
    form: Form,
    layout: &Layout,
    level: u32,
) -> Result<(), AllocError>
    requires { level < length layout.now.levels }
    ensures { OnOk result (AddsLine (IsLevel form layout.now level) out.old.items out.new.items) }
{
    add_sums(alloc, out, form, layout, level)?;
    add_releases(alloc, out, form, layout, level)?;
    add_processes(alloc, out, form, layout, level)?;
    add_blocking(alloc, out, form, layout, level)
}

#[tactic(auto, using(show_rows::proofs::Adding::one_more))]
fn add_levels(
    alloc: Global,
    out: &mut Vec<u8>,
    form: Form,
    layout: &Layout,
) -> Result<(), AllocError>
    ensures { OnOk result (AddsLines (IsLevel form layout.now) (length layout.now.levels) out.old.items out.new.items) }
{
    for level in 0..layout.config().levels.len() as u32 {
        add_level(alloc, out, form, layout, level)?;
    }
    Ok(())
}

fn add_certified(alloc: Global, out: &mut Vec<u8>, form: Form) -> Result<(), AllocError>
    ensures { OnOk result (out.new.items ≡ out.old.items ++ verdict_told form (Accepted [])) }
{
    let cells = [
        Word("certified"),
        Gap,
        Gap,
        Gap,
        Gap,
        Gap,
        Gap,
        Gap,
        Gap,
        Gap,
        Gap,
    ];
    add_row(alloc, out, form, COLUMNS, CERTIFIED, &cells)
}

/// The first level that may miss its window.
fn add_overload(
    alloc: Global,
    out: &mut Vec<u8>,
    form: Form,
    overload: Overload,
) -> Result<(), AllocError>
    ensures { OnOk result (out.new.items
        ≡ out.old.items ++ overload_told form overload.level overload.needs overload.window) }
{
    let cells = [
        Word("failing"),
        Gap,
        Gap,
        Number(overload.level as u64),
        Gap,
        Number(overload.needs),
        Number(overload.window as u64),
        Gap,
        Gap,
        Gap,
        Gap,
    ];
    add_row(alloc, out, form, COLUMNS, FAILING, &cells)
}

fn add_verdict(
    alloc: Global,
    out: &mut Vec<u8>,
    form: Form,
    layout: &Layout,
) -> Result<(), AllocError>
    ensures { OnOk result (out.new.items ≡ out.old.items ++ verdict_told form (verdict_of layout.now)) }
{
    match certify(layout.config()) {
        Verdict::Accepted(_) => add_certified(alloc, out, form),
        Verdict::Fails {
            level,
            needs,
            window,
        } => {
            let overload = Overload {
                level,
                needs,
                window,
            };
            add_overload(alloc, out, form, overload)
        }
    }
}

/// For each level what it can need and wait for in a window, also where that is too much, then what each release and each
/// budget takes of it, and which mutex and which of its users keep it waiting; and last the verdict. The layout needn't be
/// certified. `Err` is want of memory.
pub fn certificate(alloc: Global, form: Form, layout: &Layout) -> Result<Vec<u8>, NoMemory>
    ensures { IfOk result (λ v. IsCertificate form layout.now v.items) }
{
    let mut out = Vec::new(alloc);
    add_columns(&mut out, form, COLUMNS)?;
    add_levels(alloc, &mut out, form, layout)?;
    add_verdict(alloc, &mut out, form, layout)?;
    Ok(out)
}

/// That a layout isn't certified, as its certificate tells it. `Err` is want of memory.
pub fn uncertified(alloc: Global, form: Form, overload: Overload) -> Result<Vec<u8>, NoMemory>
    ensures { IfOk result (λ v. v.items ≡ overload_told form overload.level overload.needs overload.window) }
{
    let mut out = Vec::new(alloc);
    add_overload(alloc, &mut out, form, overload)?;
    Ok(out)
}
