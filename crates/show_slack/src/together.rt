//! Whether allotments of slack hold together.
ghost use Rattle.std.specs.Prelude.{◌≡◌, ◌++◌, ◌<◌, length, map, IfOk, OnOk};
ghost use Rattle.dk_allotment.specs.Given.{IsOverdrawn};
ghost use Rattle.show_rows.specs.Lines.{AddsLine, AddsLines};
ghost use Rattle.show_rows.specs.Rows.{cell_text};
ghost use Rattle.show_slack.specs.Allotted.{AreAllotments, IsPlaceLine, lacks_field, place_row, verdict_told};

use crate::shares::config_of;
use dk_allotment::{allotted_at, overdrawn_level, spare_of};
use dk_certify::{Certified, level_row};
use dk_config::NoMemory;
use show_rows::Cell::{Gap, Number, Word};
use show_rows::{Cell, Form, add_columns, add_end, add_note, add_row};
use std::alloc::Global;

const COLUMNS: &str = "kind,level,period,spare,allotted,lacks";

const PLACE: &str = "level {level} period {period} spare {spare} allotted {allotted}\n";

const HOLD: &str = "allotted\n";

const LACK: &str = "not allotted: level {level} lacks {lacks}\n";

/// What is told of allotments, and whether they hold together.
#[derive(Drop)]
pub struct Allotments {
    pub text: Vec<u8>,
    pub hold: bool,
}

/// How many ticks a level lacks for what is allotted.
fn lacking(spare: u64, allotted: u64) -> Cell<'static>
    ensures { cell_text result ≡ lacks_field spare allotted }
{
    if allotted > spare {
        Number(allotted - spare)
    } else {
        Gap
    }
}

fn cells_of(certified: &Certified, allotments: &[u32], level: u32) -> [Cell<'static>; 6]
    requires one_each { length allotments.now ≡ length certified.now.processes }
    requires level { level < length certified.now.levels }
    ensures { map cell_text result ≡ place_row certified.now allotments.now level }
{
    let config = config_of(certified);
    let spare = spare_of(config, level) as u64;
    let allotted = allotted_at(config, allotments, level);
    [
        Word("level"),
        Number(level as u64),
        Number(level_row(config, level as usize).period as u64),
        Number(spare),
        Number(allotted),
        lacking(spare, allotted),
    ]
}

fn add_place(
    alloc: Global,
    out: &mut Vec<u8>,
    form: Form,
    certified: &Certified,
    allotments: &[u32],
    level: u32,
) -> Result<(), NoMemory>
    requires one_each { length allotments.now ≡ length certified.now.processes }
    requires level { level < length certified.now.levels }
    ensures { OnOk result (AddsLine (IsPlaceLine form certified.now allotments.now level) out.old.items out.new.items) }
{
    let cells = cells_of(certified, allotments, level);
    add_row(alloc, out, form, COLUMNS, PLACE, &cells)?;
    Ok(())
}

#[tactic(auto, using(show_rows::proofs::Adding::one_more))]
fn add_places(
    alloc: Global,
    out: &mut Vec<u8>,
    form: Form,
    certified: &Certified,
    allotments: &[u32],
) -> Result<(), NoMemory>
    requires one_each { length allotments.now ≡ length certified.now.processes }
    ensures { OnOk result (AddsLines (IsPlaceLine form certified.now allotments.now) (length certified.now.levels)
        out.old.items out.new.items) }
{
    for level in 0..config_of(certified).levels.len() as u32 {
        add_place(alloc, out, form, certified, allotments, level)?;
    }
    Ok(())
}

fn overdrawn(certified: &Certified, allotments: &[u32]) -> Option<u32>
    requires one_each { length allotments.now ≡ length certified.now.processes }
    ensures { IsOverdrawn certified.now allotments.now result }
{
    overdrawn_level(config_of(certified), allotments)
}

/// Whether they hold, and else the first level where they don't, with how many ticks it lacks.
fn add_verdict(
    alloc: Global,
    out: &mut Vec<u8>,
    form: Form,
    certified: &Certified,
    allotments: &[u32],
    passed: Option<u32>,
) -> Result<(), NoMemory>
    requires one_each { length allotments.now ≡ length certified.now.processes }
    requires found { IsOverdrawn certified.now allotments.now passed }
    ensures { OnOk result (out.new.items ≡ out.old.items ++ verdict_told form certified.now allotments.now passed) }
{
    match passed {
        Some(level) => {
            let cells = cells_of(certified, allotments, level);
            add_note(alloc, out, form, COLUMNS, LACK, &cells)?;
        }
        None => add_note(alloc, out, form, COLUMNS, HOLD, &[])?,
    }
    Ok(())
}

/// What is allotted in a window of each level, a row each, and whether these allotments, a number of ticks for each
/// process in each of its windows, can be promised together. `Err` is want of memory.
pub fn allotted(
    alloc: Global,
    form: Form,
    certified: &Certified,
    allotments: &[u32],
) -> Result<Allotments, NoMemory>
    requires one_each { length allotments.now ≡ length certified.now.processes }
    ensures { IfOk result (AreAllotments form certified.now allotments.now) }
{
    let mut text = Vec::new(alloc);
    let passed = overdrawn(certified, allotments);
    add_columns(&mut text, form, COLUMNS)?;
    add_places(alloc, &mut text, form, certified, allotments)?;
    add_verdict(alloc, &mut text, form, certified, allotments, passed)?;
    add_end(&mut text, form)?;
    Ok(Allotments {
        text,
        hold: passed.is_none(),
    })
}
