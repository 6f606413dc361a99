//! Whether a change touches none but some processes.
ghost use Rattle.std.specs.Prelude.{ℕ, ◌≡◌, ◌<◌, ◌↔◌, false, IsTrue, length};
ghost use Rattle.show_impact.specs.Impacts.{AreRows, TouchesOnly, is_there};
ghost use Rattle.show_impact.specs.Touching.{is_lost, is_same_at, is_touched};

use crate::comparing::{how_many, name_of};
use crate::counts::{is_same, is_there};
use crate::{CertifiedLoad, Row};
use dk_config::{Text, has_text};

/// Whether a process of the configuration has the name.
pub(crate) fn is_there_in(load: &CertifiedLoad, name: &str) -> bool
    ensures { result ≡ is_there load.now.config name.now }
{
    is_there(load.config(), name)
}

fn is_same_at(rows: &[Row], process: u32) -> bool
    ensures { result ≡ is_same_at rows.now process }
{
    match rows.get(process as usize) {
        Some(row) => is_same(row),
        None => false,
    }
}

/// Whether the process of the new configuration is neither named nor the same.
fn is_touched(new: &CertifiedLoad, rows: &[Row], names: &[Text], process: u32) -> bool
    ensures { result ≡ is_touched new.now.config rows.now names.now process }
{
    !has_text(names, name_of(new, process)) && !is_same_at(rows, process)
}

/// Whether the process of the old configuration is neither named nor there still.
fn is_lost(old: &CertifiedLoad, new: &CertifiedLoad, names: &[Text], process: u32) -> bool
    ensures { result ≡ is_lost old.now.config new.now.config names.now process }
{
    !has_text(names, name_of(old, process)) && !is_there_in(new, name_of(old, process))
}

fn touches_none(new: &CertifiedLoad, rows: &[Row], names: &[Text]) -> bool
    ensures { IsTrue result ↔ ((q : ℕ) → q < length new.now.config.processes → is_touched new.now.config rows.now names.now q ≡ false) }
{
    for process in 0..how_many(new) {
        if is_touched(new, rows, names, process) {
            return false;
        }
    }
    true
}

fn loses_none(old: &CertifiedLoad, new: &CertifiedLoad, names: &[Text]) -> bool
    ensures { IsTrue result ↔ ((p : ℕ) → p < length old.now.config.processes → is_lost old.now.config new.now.config names.now p ≡ false) }
{
    for process in 0..how_many(old) {
        if is_lost(old, new, names, process) {
            return false;
        }
    }
    true
}

/// Whether the change touches none but the processes of these names: every other one of the new configuration was there and
/// sees the same, and every other one of the old is there still. One that is given more is touched, though it waits in each of
/// its windows. The rows are those that `impacts` finds.
pub fn touches_only(old: &CertifiedLoad, new: &CertifiedLoad, rows: &[Row], names: &[Text]) -> bool
    requires { AreRows old.now new.now (length new.now.config.processes) rows.now }
    ensures { IsTrue result ↔ TouchesOnly names.now old.now new.now }
{
    if touches_none(new, rows, names) {
        loses_none(old, new, names)
    } else {
        false
    }
}
