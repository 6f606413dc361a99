//! Each thing that is wrong at a row and a key.
ghost use Rattle.std.specs.Prelude.{◌≡◌, ◌++◌, [], ◌∷◌, flat_map, map, option_and_then, option_map, slice_get, string_bytes, IfOk, OnOk};
ghost use Rattle.toml.specs.Data.{as_table};
ghost use Rattle.toml.specs.View.{table_view, view};
ghost use Rattle.dk_loader.specs.Look.{keys_of};
ghost use Rattle.dk_needs_report.specs.Found.{if_unknown, keys_told, needed_at, others_at, row_at, table_at, told_all, told_by, told_key, told_of, unknown_in};

use dk_config::NoMemory;
use dk_document_report::keys_in;
use dk_needs::{
    Fault, Key, Place, Why, form_of, is_known, needed_keys, other_keys, rows_at, section_key,
    top_keys,
};
use std::alloc::Global;
use std::marker::Model;
use toml::{Table, Value};

/// One thing that is wrong: the fault, and of an unknown key its name.
#[derive(Drop)]
pub struct Finding {
    pub fault: Fault,
    pub key: String,
}

impl Model for Finding {
    ghost use Rattle.std.specs.Prelude.{string_bytes};
    ghost use Rattle.dk_needs_report.specs.Found.{Told};

    ghost Value = { Told };

    ghost view = { λ f. record { fault = f.fault; key = string_bytes f.key } };
}

fn row_of(rows: &[Value], row: usize) -> Option<&Value>
    ensures { option_map (λ v. view v.now) result ≡ slice_get (map view rows.now) row }
{
    rows.get(row)
}

/// What stands in a row; the document itself is none.
pub(crate) fn row_at(table: &Table, place: Option<Place>) -> Option<&Value>
    ensures { option_map (λ v. view v.now) result ≡ row_at place (table_view table.now) }
{
    match place {
        Some(Place { section, row }) => row_of(rows_at(table, section_key(section)), row),
        None => None,
    }
}

fn table_of(value: Option<&Value>) -> Option<&Table>
    ensures { option_map (λ t. table_view t.now) result
        ≡ option_and_then as_table (option_map (λ v. view v.now) value.entry) }
{
    match value {
        Some(value) => value.as_table(),
        None => None,
    }
}

/// The document itself, or a row that is a table.
pub(crate) fn table_at(table: &Table, place: Option<Place>) -> Option<&Table>
    ensures { option_map (λ t. table_view t.now) result ≡ table_at place (table_view table.now) }
{
    match place {
        Some(_) => table_of(row_at(table, place)),
        None => Some(table),
    }
}

/// The keys that the table there must have.
pub(crate) fn needed_at(place: Option<Place>, table: &Table) -> &'static [Key]
    ensures { result.now ≡ needed_at place (table_view table.now) }
{
    match place {
        Some(Place { section, .. }) => needed_keys(form_of(section, table)),
        None => &[Key::Version],
    }
}

/// Those that it may have beside these.
pub(crate) fn others_at(place: Option<Place>, table: &Table) -> &'static [Key]
    ensures { result.now ≡ others_at place (table_view table.now) }
{
    match place {
        Some(Place { section, .. }) => other_keys(form_of(section, table)),
        None => top_keys(),
    }
}

fn add(alloc: Global, found: &mut Vec<Finding>, fault: Fault, key: &str) -> Result<(), NoMemory>
    ensures { OnOk result (found.new.items ≡ found.old.items ++ told_key fault key.now ∷ []) }
{
    let key = String::from_str(alloc, key)?;
    found.push(Finding { fault, key })?;
    Ok(())
}

fn add_if_unknown(
    alloc: Global,
    found: &mut Vec<Finding>,
    fault: Fault,
    table: &Table,
    key: &str,
) -> Result<(), NoMemory>
    ensures { OnOk result (found.new.items ≡ found.old.items ++ if_unknown fault (table_view table.now) key.now) }
{
    if is_known(
        needed_at(fault.place, table),
        others_at(fault.place, table),
        key,
    ) {
        return Ok(());
    }
    add(alloc, found, fault, key)
}

fn add_unknown_keys(
    alloc: Global,
    found: &mut Vec<Finding>,
    fault: Fault,
    table: &Table,
    keys: &[&String],
) -> Result<(), NoMemory>
    ensures { OnOk result (found.new.items
        ≡ found.old.items ++ flat_map (λ k. if_unknown fault (table_view table.now) (string_bytes k.now)) keys.now) }
{
    for key in keys {
        add_if_unknown(alloc, found, fault, table, key.as_str())?;
    }
    Ok(())
}

/// The keys that the table doesn't take.
fn add_unknown(
    alloc: Global,
    found: &mut Vec<Finding>,
    fault: Fault,
    table: &Table,
) -> Result<(), NoMemory>
    ensures { OnOk result (found.new.items ≡ found.old.items ++ unknown_in fault (table_view table.now)) }
{
    let keys = keys_in(alloc, table)?;
    add_unknown_keys(alloc, found, fault, table, &keys)?;
    Ok(())
}

fn add_keys(
    alloc: Global,
    found: &mut Vec<Finding>,
    table: &Table,
    fault: Fault,
) -> Result<(), NoMemory>
    ensures { OnOk result (found.new.items ≡ found.old.items ++ keys_told (table_view table.now) fault) }
{
    match table_at(table, fault.place) {
        Some(row) => add_unknown(alloc, found, fault, row),
        None => Ok(()),
    }
}

fn add_strangers(
    alloc: Global,
    found: &mut Vec<Finding>,
    table: &Table,
    fault: Fault,
) -> Result<(), NoMemory>
    ensures { OnOk result (found.new.items ≡ found.old.items ++ told_by Why.Unknown (table_view table.now) fault) }
{
    let before = found.len();
    add_keys(alloc, found, table, fault)?;
    if found.len() == before {
        add(alloc, found, fault, "")?;
    }
    Ok(())
}

/// What a fault has found.
fn add_finding(
    alloc: Global,
    found: &mut Vec<Finding>,
    table: &Table,
    fault: Fault,
) -> Result<(), NoMemory>
    ensures { OnOk result (found.new.items ≡ found.old.items ++ told_of (table_view table.now) fault) }
{
    match fault.why {
        Why::Unknown => add_strangers(alloc, found, table, fault),
        _ => add(alloc, found, fault, ""),
    }
}

/// Each thing that is wrong, of these faults: of keys that are unknown each by itself.
pub(crate) fn findings(
    alloc: Global,
    table: &Table,
    faults: &[Fault],
) -> Result<Vec<Finding>, NoMemory>
    ensures { IfOk result (λ found. found.items ≡ told_all (table_view table.now) faults.now) }
{
    let mut found = Vec::new(alloc);
    for fault in faults {
        add_finding(alloc, &mut found, table, *fault)?;
    }
    Ok(found)
}
