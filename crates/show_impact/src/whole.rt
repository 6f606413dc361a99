//! The whole, in the form that is wanted.
ghost use Rattle.std.specs.Prelude.{◌≡◌, ◌++◌, IfOk, OnOk, Some, flat_map, length};
ghost use Rattle.show_rows.specs.Lines.{AddsLine, AddsLines};
ghost use Rattle.show_impact.specs.ImpactText.{IsGoneLine, IsImpactText, IsProcessLine, count_told, name_text, one_text, row_text};

use crate::comparing::{how_many, name_of};
use crate::counts::{
    how_many_alone, how_many_changed, how_many_gone, how_many_if_it_waits, how_many_later,
    how_many_new, how_many_open, how_many_same, how_many_sooner, how_many_unknown, is_unknown,
};
use crate::forms::{COLUMNS, add_told};
use crate::told::{Fate, key_text, told_name, told_of, waits_text};
use crate::touching::is_there_in;
use crate::{CertifiedLoad, Row};
use dk_config::{NoMemory, Text};
use dk_impact::Change;
use show_rows::Cell::Number;
use show_rows::{Form, add_columns, add_end, add_note};
use std::alloc::{AllocError, Global};

const COUNTED: &str = "same,changed,open,new,gone,alone,waits,unknown,later,sooner";

const COUNTS: &str =
    "same {same} changed {changed} open {open} new {new} gone {gone} period alone {alone} same if it waits {waits} unknown {unknown} later {later} sooner {sooner}\n";

/// Adds a process of the new configuration, by its row, and a change that it sees, if it sees one.
fn add_one(
    alloc: Global,
    out: &mut Vec<u8>,
    form: Form,
    old: &CertifiedLoad,
    new: &CertifiedLoad,
    row: &Row,
    process: u32,
    change: Option<Change>,
) -> Result<(), AllocError>
    ensures { OnOk result (out.new.items ≡ out.old.items ++ one_text form old.now.config new.now.config row.now process change) }
{
    let waits = waits_text(alloc, row.impact)?;
    let key = key_text(alloc, old.config(), new.config(), row.impact, change)?;
    add_told(
        alloc,
        out,
        form,
        name_of(new, process),
        waits.as_str(),
        key.as_str(),
        told_of(old, new, row, process, change),
    )
}

fn add_each(
    alloc: Global,
    out: &mut Vec<u8>,
    form: Form,
    old: &CertifiedLoad,
    new: &CertifiedLoad,
    row: &Row,
    process: u32,
    changes: &[Change],
) -> Result<(), AllocError>
    ensures { OnOk result (out.new.items
        ≡ out.old.items ++ flat_map (λ one. one_text form old.now.config new.now.config row.now process (Some one)) changes.now) }
{
    for change in changes {
        add_one(alloc, out, form, old, new, row, process, Some(*change))?;
    }
    Ok(())
}

/// Adds it once for each of these changes, and where there is none once.
fn add_row_of(
    alloc: Global,
    out: &mut Vec<u8>,
    form: Form,
    old: &CertifiedLoad,
    new: &CertifiedLoad,
    row: &Row,
    process: u32,
    changes: &[Change],
) -> Result<(), AllocError>
    ensures { OnOk result (out.new.items ≡ out.old.items ++ row_text form old.now.config new.now.config row.now process changes.now) }
{
    match changes {
        [] => add_one(alloc, out, form, old, new, row, process, None),
        changes => add_each(alloc, out, form, old, new, row, process, changes),
    }
}

/// Adds a process of the new configuration.
fn add_process(
    alloc: Global,
    out: &mut Vec<u8>,
    form: Form,
    old: &CertifiedLoad,
    new: &CertifiedLoad,
    rows: &[Row],
    process: u32,
) -> Result<(), AllocError>
    ensures { OnOk result (AddsLine (IsProcessLine form old.now.config new.now.config rows.now process) out.old.items out.new.items) }
{
    match rows.get(process as usize) {
        Some(row) => add_row_of(
            alloc,
            out,
            form,
            old,
            new,
            row,
            process,
            row.changes.as_slice(),
        ),
        None => Ok(()),
    }
}

/// Adds a process of the old configuration, if it is gone.
fn add_if_gone(
    alloc: Global,
    out: &mut Vec<u8>,
    form: Form,
    old: &CertifiedLoad,
    new: &CertifiedLoad,
    process: u32,
) -> Result<(), AllocError>
    ensures { OnOk result (AddsLine (IsGoneLine form old.now.config new.now.config process) out.old.items out.new.items) }
{
    let name = name_of(old, process);
    if is_there_in(new, name) {
        return Ok(());
    }
    add_told(alloc, out, form, name, "", "", told_name(Fate::Gone))
}

#[tactic(auto, using(show_rows::proofs::Adding::one_more))]
fn add_processes(
    alloc: Global,
    out: &mut Vec<u8>,
    form: Form,
    old: &CertifiedLoad,
    new: &CertifiedLoad,
    rows: &[Row],
) -> Result<(), AllocError>
    ensures { OnOk result (AddsLines (IsProcessLine form old.now.config new.now.config rows.now) (length new.now.config.processes)
        out.old.items out.new.items) }
{
    for process in 0..how_many(new) {
        add_process(alloc, out, form, old, new, rows, process)?;
    }
    Ok(())
}

#[tactic(auto, using(show_rows::proofs::Adding::one_more))]
fn add_gone(
    alloc: Global,
    out: &mut Vec<u8>,
    form: Form,
    old: &CertifiedLoad,
    new: &CertifiedLoad,
) -> Result<(), AllocError>
    ensures { OnOk result (AddsLines (IsGoneLine form old.now.config new.now.config) (length old.now.config.processes)
        out.old.items out.new.items) }
{
    for process in 0..how_many(old) {
        add_if_gone(alloc, out, form, old, new, process)?;
    }
    Ok(())
}

/// Adds a name, if it is that of no process.
fn add_if_unknown(
    alloc: Global,
    out: &mut Vec<u8>,
    form: Form,
    old: &CertifiedLoad,
    new: &CertifiedLoad,
    name: &str,
) -> Result<(), AllocError>
    ensures { OnOk result (out.new.items ≡ out.old.items ++ name_text form old.now.config new.now.config name.now) }
{
    if is_unknown(old.config(), new.config(), name) {
        add_told(alloc, out, form, name, "", "", told_name(Fate::Unknown))
    } else {
        Ok(())
    }
}

fn add_names(
    alloc: Global,
    out: &mut Vec<u8>,
    form: Form,
    old: &CertifiedLoad,
    new: &CertifiedLoad,
    names: &[Text],
) -> Result<(), AllocError>
    ensures { OnOk result (out.new.items ≡ out.old.items ++ flat_map (name_text form old.now.config new.now.config) names.now) }
{
    for name in names {
        add_if_unknown(alloc, out, form, old, new, name.as_str())?;
    }
    Ok(())
}

/// Adds how many are told what, to a text.
fn add_counts(
    alloc: Global,
    out: &mut Vec<u8>,
    form: Form,
    old: &CertifiedLoad,
    new: &CertifiedLoad,
    rows: &[Row],
    names: &[Text],
) -> Result<(), AllocError>
    ensures { OnOk result (out.new.items ≡ out.old.items ++ count_told form old.now.config new.now.config rows.now names.now) }
{
    let cells = [
        Number(how_many_same(rows) as u64),
        Number(how_many_changed(rows) as u64),
        Number(how_many_open(rows) as u64),
        Number(how_many_new(rows) as u64),
        Number(how_many_gone(old, new) as u64),
        Number(how_many_alone(rows) as u64),
        Number(how_many_if_it_waits(rows) as u64),
        Number(how_many_unknown(old.config(), new.config(), names) as u64),
        Number(how_many_later(rows) as u64),
        Number(how_many_sooner(rows) as u64),
    ];
    add_note(alloc, out, form, COUNTED, COUNTS, &cells)
}

/// A row for each process of the new configuration, in the order of its rows, or for each change that it sees; then one for each
/// of the old that is gone, in the order of those, and one for each of these names that is that of no process; and in a text how
/// many are told what. `Err` is want of memory.
pub fn impact_text(
    alloc: Global,
    form: Form,
    old: &CertifiedLoad,
    new: &CertifiedLoad,
    rows: &[Row],
    names: &[Text],
) -> Result<Vec<u8>, NoMemory>
    ensures { IfOk result (λ v. IsImpactText form old.now.config new.now.config rows.now names.now v.items) }
{
    let mut out = Vec::new(alloc);
    add_columns(&mut out, form, COLUMNS)?;
    add_processes(alloc, &mut out, form, old, new, rows)?;
    add_gone(alloc, &mut out, form, old, new)?;
    add_names(alloc, &mut out, form, old, new, names)?;
    add_counts(alloc, &mut out, form, old, new, rows, names)?;
    add_end(&mut out, form)?;
    Ok(out)
}
