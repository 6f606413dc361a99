//! Names that two needs have.
ghost use Rattle.std.specs.Prelude.{◌≡◌, ◌++◌, ◌<◌, length, option_to_list, take, IfOk, OnOk};
ghost use Rattle.std.specs.List.{list_any};
ghost use Rattle.std.specs.Str.{bytes_eq};
ghost use Rattle.dk_needs.specs.declared.needs.Need.{Need as Row};
ghost use Rattle.dk_needs.specs.Reading.{again_fault, again_faults};

use crate::fault::{Fault, Key, Why};
use crate::needs::Need;
use crate::shape::{add, fault_at};
use std::alloc::{AllocError, Global};

/// Whether one of these needs has the name.
fn is_taken(rows: &[Need], id: &str) -> bool
    ensures { result ≡ list_any (λ (n : Row). bytes_eq n.id id.now) rows.now }
{
    rows.iter().any(|need| need.id.as_str() == id)
}

fn again_fault(before: &[Need], need: &Need) -> Option<Fault>
    ensures { result ≡ again_fault before.now need.now }
{
    if is_taken(before, need.id.as_str()) {
        Some(fault_at(Some(need.place), Key::Id, Why::Again))
    } else {
        None
    }
}

/// A fault for each need of which an earlier one has the name.
pub(crate) fn again_faults(alloc: Global, rows: &[Need]) -> Result<Vec<Fault>, AllocError>
    ensures { IfOk result (λ found. found.items ≡ again_faults rows.now) }
{
    let mut found = Vec::new(alloc);
    for (i, need) in rows.iter().enumerate() {
        add(&mut found, again_fault(&rows[..i], need))?;
    }
    Ok(found)
}
