//! The children of a process that have groups.
ghost use Rattle.std.specs.Prelude.{◌≡◌, ◌==◌, IfOk, OnOk};
ghost use Rattle.std.specs.List.{list_any};
ghost use Rattle.dk_picture.specs.Rows.{child_of, children, with_child};

use dk_config::NoMemory;
use dk_ledger::LedgerLine;
use dk_trace::Label;
use std::alloc::Global;

/// The serial of a child of the process that had the group.
fn child_of(process: u8, label: Label) -> Option<u32>
    ensures { result ≡ child_of process label }
{
    match label.thread() {
        Some(thread) => {
            if thread.process == process && thread.serial != 0 {
                Some(thread.serial)
            } else {
                None
            }
        }
        None => None,
    }
}

fn is_among(serials: &[u32], serial: u32) -> bool
    ensures { result ≡ list_any (λ s. s == serial) serials.now }
{
    for made in serials {
        if *made == serial {
            return true;
        }
    }
    false
}

/// Adds the child where it isn't there.
fn add_child(serials: &mut Vec<u32>, child: Option<u32>) -> Result<(), NoMemory>
    ensures { OnOk result (serials.new.items ≡ with_child serials.old.items child) }
{
    if let Some(serial) = child {
        if !is_among(serials.as_slice(), serial) {
            serials.push(serial)?;
        }
    }
    Ok(())
}

/// The serials of the process's children that have groups, each once, in the order of their first ticks.
pub(crate) fn children(
    alloc: Global,
    groups: &[LedgerLine],
    process: u8,
) -> Result<Vec<u32>, NoMemory>
    ensures { IfOk result (λ serials. serials.items ≡ children groups.now process) }
{
    let mut serials = Vec::new(alloc);
    for group in groups {
        add_child(&mut serials, child_of(process, group.label))?;
    }
    Ok(serials)
}
