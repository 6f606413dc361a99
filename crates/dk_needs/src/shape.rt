//! All that is wrong with the tables of a document: keys that are unknown or missing, and values that don't fit.
ghost use Rattle.std.specs.Prelude.{◌≡◌, ◌++◌, flat_map, map, option_to_list, IfOk, OnOk};
ghost use Rattle.toml.specs.View.{view, table_view};
ghost use Rattle.dk_needs.specs.Keys.{form_of, sections};
ghost use Rattle.dk_needs.specs.Shape.{fault_at, from_row, key_fault, keys_faults, row_faults, section_faults, shape_faults, stranger_fault, table_faults};

use crate::fault::{Fault, Key, Place, Section, Why};
use crate::fitting::value_fault;
use crate::keys::{Form, needed_keys, other_keys, section_key, sections, shape_of, top_keys};
use crate::look::{find, has_stranger, is_missing, rows_at};
use std::alloc::{AllocError, Global};
use toml::{Table, Value};

/// What a row of the section asks for, by its keys.
pub fn form_of(section: Section, table: &Table) -> Form
    ensures { result ≡ form_of section (table_view table.now) }
{
    match section {
        Section::Deadline => Form::Deadline,
        Section::Chain if is_missing(table, Key::Reaction) => Form::Age,
        Section::Chain => Form::Chain,
        Section::Jitter if !is_missing(table, Key::Processes) => Form::ChainJitter,
        Section::Jitter if is_missing(table, Key::Begins) => Form::DoneJitter,
        Section::Jitter => Form::Jitter,
        Section::Room if !is_missing(table, Key::Process) => Form::Budget,
        Section::Room if !is_missing(table, Key::Mutex) => Form::Hold,
        Section::Room => Form::Release,
        Section::Growth => Form::Growth,
        Section::Spare => Form::Spare,
        Section::Slack => Form::Slack,
        Section::Always => Form::Always,
        Section::Run => Form::Run,
    }
}

pub(crate) fn fault_at(place: Option<Place>, key: Key, why: Why) -> Fault
    ensures { result ≡ fault_at place key why }
{
    Fault { place, key, why }
}

pub(crate) fn add(found: &mut Vec<Fault>, fault: Option<Fault>) -> Result<(), AllocError>
    ensures { OnOk result (found.new.items ≡ found.old.items ++ option_to_list fault) }
{
    if let Some(fault) = fault {
        found.push(fault)?;
    }
    Ok(())
}

/// What is wrong at one key of a table.
fn key_fault(place: Option<Place>, needed: bool, table: &Table, key: Key) -> Option<Fault>
    ensures { result ≡ key_fault place needed (table_view table.now) key }
{
    match find(table, key) {
        Some(value) => match value_fault(shape_of(key), value) {
            Some(why) => Some(fault_at(place, key, why)),
            None => None,
        },
        None => if needed {
            Some(fault_at(place, key, Why::Missing))
        } else {
            None
        },
    }
}

fn add_keys(
    found: &mut Vec<Fault>,
    place: Option<Place>,
    needed: bool,
    table: &Table,
    keys: &[Key],
) -> Result<(), AllocError>
    ensures { OnOk result (found.new.items
        ≡ found.old.items ++ keys_faults place needed (table_view table.now) keys.now) }
{
    for key in keys {
        add(found, key_fault(place, needed, table, *key))?;
    }
    Ok(())
}

fn stranger_fault(
    place: Option<Place>,
    needed: &[Key],
    others: &[Key],
    table: &Table,
) -> Option<Fault>
    ensures { result ≡ stranger_fault place needed.now others.now (table_view table.now) }
{
    if has_stranger(table, needed, others) {
        Some(fault_at(place, Key::Unknown, Why::Unknown))
    } else {
        None
    }
}

/// What is wrong with a table that must have some keys and may have others.
fn add_table(
    found: &mut Vec<Fault>,
    place: Option<Place>,
    needed: &[Key],
    others: &[Key],
    table: &Table,
) -> Result<(), AllocError>
    ensures { OnOk result (found.new.items
        ≡ found.old.items ++ table_faults place needed.now others.now (table_view table.now)) }
{
    add(found, stranger_fault(place, needed, others, table))?;
    add_keys(found, place, true, table, needed)?;
    add_keys(found, place, false, table, others)
}

fn add_row(
    found: &mut Vec<Fault>,
    section: Section,
    row: usize,
    value: &Value,
) -> Result<(), AllocError>
    ensures { OnOk result (found.new.items ≡ found.old.items ++ row_faults section row (view value.now)) }
{
    let place = Some(Place { section, row });
    match value.as_table() {
        Some(table) => {
            let form = form_of(section, table);
            add_table(found, place, needed_keys(form), other_keys(form), table)
        }
        None => add(found, Some(fault_at(place, Key::Id, Why::Kind))),
    }
}

fn add_rows(found: &mut Vec<Fault>, section: Section, rows: &[Value]) -> Result<(), AllocError>
    ensures { OnOk result (found.new.items
        ≡ found.old.items ++ from_row (row_faults section) 0 (map view rows.now)) }
{
    for (row, value) in rows.iter().enumerate() {
        add_row(found, section, row, value)?;
    }
    Ok(())
}

fn add_section(found: &mut Vec<Fault>, table: &Table, section: Section) -> Result<(), AllocError>
    ensures { OnOk result (found.new.items ≡ found.old.items ++ section_faults (table_view table.now) section) }
{
    add_rows(found, section, rows_at(table, section_key(section)))
}

fn add_sections(
    found: &mut Vec<Fault>,
    table: &Table,
    sections: &[Section],
) -> Result<(), AllocError>
    ensures { OnOk result (found.new.items
        ≡ found.old.items ++ flat_map (section_faults (table_view table.now)) sections.now) }
{
    for section in sections {
        add_section(found, table, *section)?;
    }
    Ok(())
}

/// All that is wrong with the tables of a document: first the keys of the whole, then each row.
#[tactic(auto, unfolding(crate::specs::Shape::shape_faults))]
pub(crate) fn shape_faults(alloc: Global, table: &Table) -> Result<Vec<Fault>, AllocError>
    ensures { IfOk result (λ found. found.items ≡ shape_faults (table_view table.now)) }
{
    let mut found = Vec::new(alloc);
    add_table(&mut found, None, &[Key::Version], top_keys(), table)?;
    add_sections(&mut found, table, sections())?;
    Ok(found)
}
