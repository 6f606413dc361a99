//! What each part of a layout takes of a window of each level, as one matrix.
ghost use Rattle.std.specs.Prelude.{◌≡◌, ◌≤◌, ◌<◌, ◌++◌, length, map, IfOk, OnOk};
ghost use Rattle.dk_config.specs.Sums.{below};
ghost use Rattle.show_rows.specs.Lines.{AddsLine, AddsLines};
ghost use Rattle.show_rows.specs.Rows.{cell_text};
ghost use Rattle.show_layout.specs.Matrix.{IsLevelColumn, IsMatrix, IsProcessRow, IsReleaseRow, part_name, part_told, part_word, taken};
ghost use Rattle.show_layout.specs.Takes.{IsPart};

use crate::takes::{Part, takes, ticks_cell};
use dk_config::{Layout, NoMemory};
use show_rows::Cell::{Gap, Number, Word};
use show_rows::{Cell, Form, add_row};
use std::alloc::{AllocError, Global};

fn part_word(part: Part) -> &'static str
    ensures { result.now ≡ part_word part }
{
    match part {
        Part::Period => "period",
        Part::Release(_) => "release",
        Part::Process(_) => "process",
        Part::Demand => "demand",
        Part::Blocking => "blocking",
        Part::Spare => "spare",
        Part::Over => "over",
    }
}

fn part_name(layout: &Layout, part: Part) -> Cell<'_>
    requires { IsPart layout.now part }
    ensures { cell_text result ≡ part_name layout.now part }
{
    match part {
        Part::Release(level) => Number(level as u64),
        Part::Process(process) => {
            Word(
                layout.config().processes.as_slice()[process as usize]
                    .name
                    .as_str(),
            )
        }
        _ => Gap,
    }
}

/// What the part takes of each level.
#[tactic(auto, using(crate::proofs::Taken::one_more))]
fn add_taken(cells: &mut Vec<Cell>, layout: &Layout, part: Part) -> Result<(), AllocError>
    requires { IsPart layout.now part }
    ensures cells { OnOk result (map cell_text cells.new.items ≡ map cell_text cells.old.items
        ++ map (taken layout.now part) (below (length layout.now.levels))) }
    ensures more { OnOk result (length cells.old.items ≤ length cells.new.items) }
{
    for level in 0..layout.config().levels.len() as u32 {
        cells.push(ticks_cell(takes(layout, part, level)))?;
    }
    Ok(())
}

#[tactic(auto, unfolding(crate::specs::Matrix::part_told))]
fn add_part(alloc: Global, out: &mut Vec<u8>, layout: &Layout, part: Part) -> Result<(), AllocError>
    requires { IsPart layout.now part }
    ensures { OnOk result (out.new.items ≡ out.old.items ++ part_told layout.now part) }
{
    let mut cells = Vec::new(alloc);
    cells.push(Word(part_word(part)))?;
    cells.push(part_name(layout, part))?;
    add_taken(&mut cells, layout, part)?;
    add_row(alloc, out, Form::Record, "", "", cells.as_slice())
}

fn add_release(alloc: Global, out: &mut Vec<u8>, layout: &Layout, of: u32) -> Result<(), AllocError>
    requires { of < length layout.now.levels }
    ensures { OnOk result (AddsLine (IsReleaseRow layout.now of) out.old.items out.new.items) }
{
    add_part(alloc, out, layout, Part::Release(of))
}

#[tactic(auto, using(show_rows::proofs::Adding::one_more))]
fn add_releases(alloc: Global, out: &mut Vec<u8>, layout: &Layout) -> Result<(), AllocError>
    ensures { OnOk result (AddsLines (IsReleaseRow layout.now) (length layout.now.levels) out.old.items out.new.items) }
{
    for of in 0..layout.config().levels.len() as u32 {
        add_release(alloc, out, layout, of)?;
    }
    Ok(())
}

fn add_process(
    alloc: Global,
    out: &mut Vec<u8>,
    layout: &Layout,
    process: u32,
) -> Result<(), AllocError>
    requires { process < length layout.now.processes }
    ensures { OnOk result (AddsLine (IsProcessRow layout.now process) out.old.items out.new.items) }
{
    add_part(alloc, out, layout, Part::Process(process))
}

#[tactic(auto, using(show_rows::proofs::Adding::one_more))]
fn add_processes(alloc: Global, out: &mut Vec<u8>, layout: &Layout) -> Result<(), AllocError>
    ensures { OnOk result (AddsLines (IsProcessRow layout.now) (length layout.now.processes) out.old.items out.new.items) }
{
    for process in 0..layout.config().processes.len() as u32 {
        add_process(alloc, out, layout, process)?;
    }
    Ok(())
}

fn add_column(alloc: Global, out: &mut Vec<u8>, level: u32) -> Result<(), AllocError>
    ensures { OnOk result (AddsLine (IsLevelColumn level) out.old.items out.new.items) }
{
    let name = format!(in alloc; ",level_{level}")?;
    out.extend_from_slice(name.as_str().as_bytes())
}

#[tactic(auto, using(show_rows::proofs::Adding::one_more))]
fn add_level_columns(alloc: Global, out: &mut Vec<u8>, layout: &Layout) -> Result<(), AllocError>
    ensures { OnOk result (AddsLines IsLevelColumn (length layout.now.levels) out.old.items out.new.items) }
{
    for level in 0..layout.config().levels.len() as u32 {
        add_column(alloc, out, level)?;
    }
    Ok(())
}

/// Of each part what it takes of a window of each level, as a table with a column for each level: the period, the kernel's
/// own work of each level and the budget of each process, and then what they come to, the longest wait for a mutex, and what
/// is left of the window, or by how much it is too short. A field is empty where there is no such number. The layout needn't
/// be certified. `Err` is want of memory.
pub fn matrix(alloc: Global, layout: &Layout) -> Result<Vec<u8>, NoMemory>
    ensures { IfOk result (λ v. IsMatrix layout.now v.items) }
{
    let mut out = Vec::new(alloc);
    out.extend_from_slice(b"part,name")?;
    add_level_columns(alloc, &mut out, layout)?;
    out.extend_from_slice(b"\n")?;
    add_part(alloc, &mut out, layout, Part::Period)?;
    add_releases(alloc, &mut out, layout)?;
    add_processes(alloc, &mut out, layout)?;
    add_part(alloc, &mut out, layout, Part::Demand)?;
    add_part(alloc, &mut out, layout, Part::Blocking)?;
    add_part(alloc, &mut out, layout, Part::Spare)?;
    add_part(alloc, &mut out, layout, Part::Over)?;
    Ok(out)
}
