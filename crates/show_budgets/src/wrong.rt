//! All that is wrong with a table.
ghost use Rattle.std.specs.Prelude.{◌≡◌, ◌≤◌, ◌++◌, flat_map, length, string_bytes, IfOk, OnOk};
ghost use Rattle.std.specs.List.{filter_map};
ghost use Rattle.dk_profile.specs.declared.TheConstants.{MAX_PROFILE_BYTES};
ghost use Rattle.show_budgets.specs.Wrong.{column_told, faults_told, fault_in, table_told};

use crate::strangers::strangers_told;
use dk_config::{Config, NoMemory, ProcessRow};
use dk_profile::{ProfileFault, Why, faults_text};
use dk_times::{Cell, read_cells};
use std::alloc::{AllocError, Global};

/// What is wrong in a cell. That there is no column is nothing wrong.
fn fault_in(cell: Cell) -> Option<ProfileFault>
    ensures { result ≡ fault_in cell }
{
    match cell.says {
        Ok(_) => None,
        Err(Why::NoColumn) => None,
        Err(why) => Some(ProfileFault {
            line: cell.line,
            why,
        }),
    }
}

fn faults_in(alloc: Global, cells: &[Cell]) -> Result<Vec<ProfileFault>, AllocError>
    ensures { IfOk result (λ v. v.items ≡ filter_map fault_in cells.now) }
{
    let mut faults = Vec::new(alloc);
    for cell in cells {
        if let Some(fault) = fault_in(*cell) {
            faults.push(fault)?;
        }
    }
    Ok(faults)
}

/// What is wrong with a column, where something is.
fn add_faults(
    alloc: Global,
    out: &mut Vec<u8>,
    config: &Config,
    name: &str,
    faults: &[ProfileFault],
) -> Result<(), NoMemory>
    ensures { OnOk result (out.new.items ≡ out.old.items ++ faults_told config.now name.now faults.now) }
{
    if faults.is_empty() {
        return Ok(());
    }
    let head = format!(in alloc; "times of {name}\n")?;
    let text = faults_text(alloc, config, faults)?;
    out.extend_from_slice(head.as_str().as_bytes())?;
    out.extend_from_slice(text.as_str().as_bytes())?;
    Ok(())
}

fn add_column(
    alloc: Global,
    out: &mut Vec<u8>,
    config: &Config,
    table: &[u8],
    row: &ProcessRow,
) -> Result<(), NoMemory>
    requires { length table.now ≤ MAX_PROFILE_BYTES }
    ensures { OnOk result (out.new.items ≡ out.old.items ++ column_told config.now table.now row.now) }
{
    let name = row.name.as_str();
    let cells = read_cells(alloc, config.costs.call, name.as_bytes(), table)?;
    let faults = faults_in(alloc, &cells)?;
    add_faults(alloc, out, config, name, faults.as_slice())
}

/// All that is wrong with the table, and nothing where nothing is.
pub(crate) fn table_told(alloc: Global, config: &Config, table: &[u8]) -> Result<Vec<u8>, NoMemory>
    requires { length table.now ≤ MAX_PROFILE_BYTES }
    ensures { IfOk result (λ v. v.items ≡ table_told config.now table.now) }
{
    let mut out = Vec::new(alloc);
    strangers_told(alloc, &mut out, config.processes.as_slice(), table)?;
    for row in config.processes.as_slice() {
        add_column(alloc, &mut out, config, table, row)?;
    }
    Ok(out)
}
