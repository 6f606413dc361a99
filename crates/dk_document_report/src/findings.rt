//! Each thing that is wrong with the keys and kinds of a document.
ghost use Rattle.std.specs.Prelude.{◌≡◌, ◌++◌, [], ◌∷◌, flat_map, map, string_bytes, IfOk, OnOk};
ghost use Rattle.std.specs.BTreeMap.{keys};
ghost use Rattle.toml.specs.View.{table_view};
ghost use Rattle.dk_loader.specs.Look.{keys_of};
ghost use Rattle.dk_document_report.specs.Found.{if_unknown, keys_told, told_all, told_of, told_unknown};

use crate::looks::{is_key, is_second, table_in};
use dk_config::{ConfigFault, NoMemory};
use std::alloc::{AllocError, Global};
use std::marker::Model;
use toml::Table;

/// One thing that is wrong: the test that fails, and of an unknown key its name.
#[derive(Drop)]
pub struct Finding {
    pub fault: ConfigFault,
    pub key: String,
}

impl Model for Finding {
    ghost use Rattle.std.specs.Prelude.{string_bytes};
    ghost use Rattle.dk_document_report.specs.Found.{Told};

    ghost Value = { Told };

    ghost view = { λ f. record { fault = f.fault; key = string_bytes f.key } };
}

/// The keys of a table, in the order of their bytes.
pub fn keys_in(alloc: Global, table: &Table) -> Result<Vec<&String>, AllocError>
    ensures { IfOk result (λ v. map (λ k. k.now) v.items ≡ keys table.now) }
{
    table.keys().collect(alloc)
}

fn add(
    alloc: Global,
    found: &mut Vec<Finding>,
    fault: ConfigFault,
    key: &str,
) -> Result<(), NoMemory>
    ensures { OnOk result (found.new.items ≡ found.old.items ++ told_unknown fault key.now ∷ []) }
{
    let key = String::from_str(alloc, key)?;
    found.push(Finding { fault, key })?;
    Ok(())
}

fn add_if_unknown(
    alloc: Global,
    found: &mut Vec<Finding>,
    fault: ConfigFault,
    second: bool,
    key: &str,
) -> Result<(), NoMemory>
    ensures { OnOk result (found.new.items ≡ found.old.items ++ if_unknown fault second key.now) }
{
    if is_key(fault.section, second, key) {
        return Ok(());
    }
    add(alloc, found, fault, key)
}

fn add_unknown_keys(
    alloc: Global,
    found: &mut Vec<Finding>,
    fault: ConfigFault,
    second: bool,
    keys: &[&String],
) -> Result<(), NoMemory>
    ensures { OnOk result (found.new.items
        ≡ found.old.items ++ flat_map (λ k. if_unknown fault second (string_bytes k.now)) keys.now) }
{
    for key in keys {
        add_if_unknown(alloc, found, fault, second, key.as_str())?;
    }
    Ok(())
}

fn add_unknown(
    alloc: Global,
    found: &mut Vec<Finding>,
    fault: ConfigFault,
    second: bool,
    table: &Table,
) -> Result<(), NoMemory>
    ensures { OnOk result (found.new.items
        ≡ found.old.items ++ flat_map (if_unknown fault second) (keys_of (table_view table.now))) }
{
    let keys = keys_in(alloc, table)?;
    add_unknown_keys(alloc, found, fault, second, &keys)?;
    Ok(())
}

/// The keys that are unknown, of a test for these.
fn add_keys(
    alloc: Global,
    found: &mut Vec<Finding>,
    table: &Table,
    fault: ConfigFault,
) -> Result<(), NoMemory>
    ensures { OnOk result (found.new.items ≡ found.old.items ++ keys_told (table_view table.now) fault) }
{
    if fault.number != 1 {
        return Ok(());
    }
    match table_in(table, fault.section, fault.row) {
        Some(section) => add_unknown(alloc, found, fault, is_second(table), section),
        None => Ok(()),
    }
}

/// What a test that fails has found.
fn add_finding(
    alloc: Global,
    found: &mut Vec<Finding>,
    table: &Table,
    fault: ConfigFault,
) -> Result<(), NoMemory>
    ensures { OnOk result (found.new.items ≡ found.old.items ++ told_of (table_view table.now) fault) }
{
    let before = found.len();
    add_keys(alloc, found, table, fault)?;
    if found.len() == before {
        add(alloc, found, fault, "")?;
    }
    Ok(())
}

/// Each thing that is wrong, of the tests that fail: of keys that are unknown each by itself.
pub(crate) fn findings(
    alloc: Global,
    table: &Table,
    faults: &[ConfigFault],
) -> Result<Vec<Finding>, NoMemory>
    ensures { IfOk result (λ found. found.items ≡ told_all (table_view table.now) faults.now) }
{
    let mut found = Vec::new(alloc);
    for fault in faults {
        add_finding(alloc, &mut found, table, *fault)?;
    }
    Ok(found)
}
