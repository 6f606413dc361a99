//! A row for each thing that a layout allows and can't be meant.
ghost use Rattle.std.specs.Prelude.{◌≡◌, ◌++◌, decimal, flat_map, map, IfOk, OnOk};
ghost use Rattle.dk_config.specs.Windows.{budget, ceiling, longest_hold, process_name, slots};
ghost use Rattle.show_rows.specs.Rows.{cell_text};
ghost use Rattle.show_layout.specs.Margins.{mutex_name};
ghost use Rattle.show_layout.specs.Warnings.{row_of, sentence_of, warning_told, warnings_of};

use dk_config::{Layout, NoMemory};
use dk_warnings::Warning;
use show_rows::Cell::{Gap, Number, Word};
use show_rows::{Cell, Form, add_columns, add_note, add_row};
use std::alloc::{AllocError, Global};

const COLUMNS: &str = "kind,process,mutex,level,threads,budget,body,call,ceiling,hold,room";

const NO_CHILD: &str =
    "process {process} threads {threads}: no child fits its budget of {budget}\n";

const SHORT_BODY: &str =
    "process {process} budget {budget}: its body of {body} is shorter than a call of {call}\n";

const NO_SPARE: &str =
    "process {process} slack: level {level} has no spare, so it gets only what budgets leave\n";

const FAST_CEILING: &str = "mutex {mutex} ceiling {ceiling}: its fastest user has level {level}\n";

const OWN_MUTEX: &str = "mutex {mutex} users: no thread but the main of {process} can lock it\n";

const LONG_HOLD: &str =
    "mutex {mutex} hold {hold}: {process} has room for {room}, each of its locks is refused\n";

const COUNT: &str = "count";

const COUNTED: &str = "warnings {count}\n";

/// The row by its name, the number that can't be meant, and why.
fn sentence_of(warning: Warning) -> &'static str
    ensures { result.now ≡ sentence_of warning }
{
    match warning {
        Warning::NoChild { .. } => NO_CHILD,
        Warning::ShortBody { .. } => SHORT_BODY,
        Warning::NoSpare { .. } => NO_SPARE,
        Warning::FastCeiling { .. } => FAST_CEILING,
        Warning::OwnMutex { .. } => OWN_MUTEX,
        Warning::LongHold { .. } => LONG_HOLD,
    }
}

fn name_of(layout: &Layout, process: u32) -> Cell<'_>
    ensures { cell_text result ≡ process_name layout.now process }
{
    match layout.config().processes.get(process as usize) {
        Some(row) => Word(row.name.as_str()),
        None => Gap,
    }
}

fn mutex_of(layout: &Layout, mutex: u32) -> Cell<'_>
    ensures { cell_text result ≡ mutex_name layout.now mutex }
{
    match layout.config().mutexes.get(mutex as usize) {
        Some(row) => Word(row.name.as_str()),
        None => Gap,
    }
}

fn budget_of(layout: &Layout, process: u32) -> Cell<'static>
    ensures { cell_text result ≡ decimal (budget layout.now process) }
{
    match layout.config().processes.get(process as usize) {
        Some(row) => Number(row.budget as u64),
        None => Number(0),
    }
}

fn threads_of(layout: &Layout, process: u32) -> Cell<'static>
    ensures { cell_text result ≡ decimal (slots layout.now process) }
{
    match layout.config().processes.get(process as usize) {
        Some(row) => Number(row.threads as u64),
        None => Number(0),
    }
}

fn ceiling_of(layout: &Layout, mutex: u32) -> Cell<'static>
    ensures { cell_text result ≡ decimal (ceiling layout.now mutex) }
{
    match layout.config().mutexes.get(mutex as usize) {
        Some(row) => Number(row.ceiling as u64),
        None => Number(0),
    }
}

fn hold_of(layout: &Layout, mutex: u32) -> Cell<'static>
    ensures { cell_text result ≡ decimal (longest_hold layout.now mutex) }
{
    match layout.config().mutexes.get(mutex as usize) {
        Some(row) => Number(row.hold as u64),
        None => Number(0),
    }
}

fn row_of(layout: &Layout, warning: Warning) -> [Cell<'_>; 11]
    ensures { map cell_text result ≡ row_of layout.now warning }
{
    match warning {
        Warning::NoChild { process } => {
            let (kind, name) = (Word("no_child"), name_of(layout, process));
            let (most, budget) = (threads_of(layout, process), budget_of(layout, process));
            [kind, name, Gap, Gap, most, budget, Gap, Gap, Gap, Gap, Gap]
        }
        Warning::ShortBody { process, body } => {
            let (kind, name) = (Word("short_body"), name_of(layout, process));
            let (budget, body) = (budget_of(layout, process), Number(body as u64));
            let call = Number(layout.config().costs.call as u64);
            [kind, name, Gap, Gap, Gap, budget, body, call, Gap, Gap, Gap]
        }
        Warning::NoSpare { process, level } => {
            let (kind, name) = (Word("no_spare"), name_of(layout, process));
            let level = Number(level as u64);
            [kind, name, Gap, level, Gap, Gap, Gap, Gap, Gap, Gap, Gap]
        }
        Warning::FastCeiling { mutex, level } => {
            let (kind, of) = (Word("fast_ceiling"), mutex_of(layout, mutex));
            let (level, ceiling) = (Number(level as u64), ceiling_of(layout, mutex));
            [kind, Gap, of, level, Gap, Gap, Gap, Gap, ceiling, Gap, Gap]
        }
        Warning::OwnMutex { mutex, user } => {
            let (kind, of) = (Word("own_mutex"), mutex_of(layout, mutex));
            let name = name_of(layout, user);
            [kind, name, of, Gap, Gap, Gap, Gap, Gap, Gap, Gap, Gap]
        }
        Warning::LongHold { mutex, user, room } => {
            let (kind, of) = (Word("long_hold"), mutex_of(layout, mutex));
            let (name, hold) = (name_of(layout, user), hold_of(layout, mutex));
            let room = Number(room);
            [kind, name, of, Gap, Gap, Gap, Gap, Gap, Gap, hold, room]
        }
    }
}

fn add_warning(
    alloc: Global,
    out: &mut Vec<u8>,
    form: Form,
    layout: &Layout,
    warning: Warning,
) -> Result<(), AllocError>
    ensures { OnOk result (out.new.items ≡ out.old.items ++ warning_told form layout.now warning) }
{
    let sentence = sentence_of(warning);
    add_row(
        alloc,
        out,
        form,
        COLUMNS,
        sentence,
        &row_of(layout, warning),
    )
}

fn add_warnings(
    alloc: Global,
    out: &mut Vec<u8>,
    form: Form,
    layout: &Layout,
    found: &[Warning],
) -> Result<(), AllocError>
    ensures { OnOk result (out.new.items ≡ out.old.items ++ flat_map (warning_told form layout.now) found.now) }
{
    for warning in found {
        add_warning(alloc, out, form, layout, *warning)?;
    }
    Ok(())
}

/// All that the layout allows and can't be meant, a row each, and last of a text how many these are. The layout needn't be
/// certified. `Err` is want of memory.
pub fn warnings(alloc: Global, form: Form, layout: &Layout) -> Result<Vec<u8>, NoMemory>
    ensures { IfOk result (λ v. v.items ≡ warnings_of form layout.now) }
{
    let found = dk_warnings::warnings(alloc, layout.config())?;
    let mut out = Vec::new(alloc);
    add_columns(&mut out, form, COLUMNS)?;
    add_warnings(alloc, &mut out, form, layout, &found)?;
    let count = [Number(found.len() as u64)];
    add_note(alloc, &mut out, form, COUNT, COUNTED, &count)?;
    Ok(out)
}
