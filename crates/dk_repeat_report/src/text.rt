//! The text of what was found.
ghost use Rattle.std.specs.Prelude.{◌≡◌, ◌++◌, flat_map, string_bytes, IfOk, OnOk};
ghost use Rattle.dk_repeat_report.specs.Lines.{process_lines};
ghost use Rattle.dk_repeat_report.specs.Found.{Tells, found_text};

use crate::laws::{cycles_law, own_cycles_law};
use crate::lines::{cycle_totals_line, process_lines, run_lines};
use crate::own::OwnFound;
use dk_config::{NoMemory, Text};
use dk_cycle::{RunSearch, run_told, told_law};
use dk_cycle_counts::CycleCounts;
use std::alloc::{AllocError, Global};

/// Adds the lines of each process.
fn add_lines(
    alloc: Global,
    text: &mut String,
    names: &[Text],
    ticks: u32,
    counts: &Option<CycleCounts>,
    own: &[OwnFound],
) -> Result<(), AllocError>
    ensures { OnOk result (string_bytes text.new
        ≡ string_bytes text.old ++ flat_map (process_lines names.now ticks counts.now) own.now) }
{
    for found in own {
        let lines = process_lines(alloc, names, ticks, counts, found)?;
        text.push_str(lines.as_str())?;
    }
    Ok(())
}

/// The lines of what was found.
fn text_of(
    alloc: Global,
    names: &[Text],
    ticks: u32,
    run: &RunSearch,
    counts: &Option<CycleCounts>,
    own: &[OwnFound],
) -> Result<String, AllocError>
    ensures { IfOk result (λ s. string_bytes s ≡ found_text names.now ticks run.now counts.now own.now) }
{
    let mut text = run_lines(alloc, names, ticks, run_told(run))?;
    let totals = cycle_totals_line(alloc, counts)?;
    text.push_str(totals.as_str())?;
    add_lines(alloc, &mut text, names, ticks, counts, own)?;
    text.push_str("end\n")?;
    Ok(text)
}

/// The lines of the run, those of each process, and the last. The searches went on for so many ticks, the names are those of
/// the processes, and what is counted is that of a cycle of the run. `Err` is want of memory.
pub fn repeats_text(
    alloc: Global,
    names: &[Text],
    ticks: u32,
    run: &RunSearch,
    counts: &Option<CycleCounts>,
    own: &[OwnFound],
) -> Result<String, NoMemory>
    ensures text { IfOk result (λ s. string_bytes s ≡ found_text names.now ticks run.now counts.now own.now) }
    ensures tells { IfOk result (λ s. Tells names.now ticks run.now counts.now own.now (string_bytes s)) }
{
    told_law();
    cycles_law();
    own_cycles_law();
    match text_of(alloc, names, ticks, run, counts, own) {
        Ok(text) => Ok(text),
        Err(_) => Err(NoMemory),
    }
}
