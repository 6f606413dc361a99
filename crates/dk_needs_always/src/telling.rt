//! What is told of a row by what is so for ever.
ghost use Rattle.std.specs.Prelude.{◌≡◌, map, IfOk};
ghost use Rattle.dk_needs_always.specs.Telling.{answer_for, cycle_told, decided_row, has_if_kept, is_if_kept, kept_answer, kept_row, repeating_of, waiting_of, waiting_unless, waits_answer};

use crate::ALWAYS_TICKS;
use crate::asking::{Asked, AskedRow};
use dk_config::NoMemory;
use dk_cycle::{Cycle, Keeping, RunTold, Waits};
use dk_needs_check::{Answer, Repeating, Row, Waiting};
use dk_repeat_search::Always;
use std::alloc::Global;

/// Of a process that doesn't keep to itself, for this reason.
fn waiting_unless(keeping: Keeping) -> Waiting
    ensures { result ≡ waiting_unless keeping }
{
    match keeping {
        Keeping::Keeps => Waiting::NotWithin(ALWAYS_TICKS),
        Keeping::ReadsTick => Waiting::ReadsTick,
        Keeping::HasThreads => Waiting::HasThreads,
        Keeping::HasSlack => Waiting::HasSlack,
    }
}

fn waiting_of(waits: Waits) -> Waiting
    ensures { result ≡ waiting_of waits }
{
    match waits {
        Waits::Always => Waiting::Always,
        Waits::NotFrom(tick) => Waiting::NotFrom(tick),
        Waits::NotWithin => Waiting::NotWithin(ALWAYS_TICKS),
        Waits::Unknown(keeping) => waiting_unless(keeping),
    }
}

/// Whether the main of the process of this number waits in each of its windows.
fn waits_answer(waits: &[Waits], process: u32, before: Answer) -> Answer
    ensures { result ≡ waits_answer waits.now process before }
{
    match waits.get(process as usize) {
        Some(waits) => Answer::Waits(waiting_of(*waits)),
        None => before,
    }
}

/// The cycle, where one was found.
fn cycle_told(cycle: Option<Cycle>) -> Repeating
    ensures { result ≡ cycle_told cycle }
{
    match cycle {
        Some(cycle) => Repeating::Every {
            start: cycle.start,
            length: cycle.length,
        },
        None => Repeating::NotWithin(ALWAYS_TICKS),
    }
}

/// Whether the run repeats. Where no cycle was found, who read the tick last, if anybody did.
fn repeating_of(told: RunTold) -> Repeating
    ensures { result ≡ repeating_of told }
{
    match told.reader {
        Some(process) => Repeating::ReadsTick(process),
        None => cycle_told(told.cycle),
    }
}

fn answer_for(always: &Always, asked: Asked, before: Answer) -> Answer
    ensures { result ≡ answer_for always.now asked before }
{
    match asked {
        Asked::Nothing => before,
        Asked::Waits(process) => waits_answer(&always.waits, process, before),
        Asked::Repeats => Answer::Repeats(repeating_of(always.run)),
    }
}

fn decided_row(always: &Always, asked: AskedRow) -> Row
    ensures { result ≡ decided_row always.now asked }
{
    Row {
        need: asked.row.need,
        answer: answer_for(always, asked.asked, asked.row.answer),
    }
}

/// These rows, decided.
pub(crate) fn decided_rows(
    alloc: Global,
    always: &Always,
    asked: &[AskedRow],
) -> Result<Vec<Row>, NoMemory>
    ensures { IfOk result (λ rows. rows.items ≡ map (decided_row always.now) asked.now) }
{
    let mut rows = Vec::new(alloc);
    for row in asked {
        rows.push(decided_row(always, *row))?;
    }
    Ok(rows)
}

/// Where each process keeps to its slack, a bound that holds under that condition is tested.
fn kept_answer(kept: bool, answer: Answer) -> Answer
    ensures { result ≡ kept_answer kept answer }
{
    match answer {
        Answer::IfKept(bound) if kept => Answer::Tested(bound),
        _ => answer,
    }
}

fn kept_row(kept: bool, row: Row) -> Row
    ensures { result ≡ kept_row kept row }
{
    Row {
        need: row.need,
        answer: kept_answer(kept, row.answer),
    }
}

/// The same of these rows.
pub(crate) fn kept_rows(alloc: Global, kept: bool, before: &[Row]) -> Result<Vec<Row>, NoMemory>
    ensures { IfOk result (λ rows. rows.items ≡ map (kept_row kept) before.now) }
{
    let mut rows = Vec::new(alloc);
    for row in before {
        rows.push(kept_row(kept, *row))?;
    }
    Ok(rows)
}

fn is_if_kept(row: &Row) -> bool
    ensures { result ≡ is_if_kept row.now }
{
    matches!(row.answer, Answer::IfKept(_))
}

/// Whether a row is of a bound that holds where each process keeps to its slack.
pub(crate) fn has_if_kept(rows: &[Row]) -> bool
    ensures { result ≡ has_if_kept rows.now }
{
    rows.iter().any(is_if_kept)
}
