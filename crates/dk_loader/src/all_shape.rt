//! All of the rules C1 to C3 that a document breaks, where `shape_fault` tells the first.
ghost use Rattle.std.specs.Prelude.{◌≡◌, ◌≢◌, ◌++◌, ◌<◌, ◌≤◌, ◌^◌, length, map, option_to_list, Err, IfErr, IfOk, IsErrOf, None, OnOk};
ghost use Rattle.toml.specs.View.{view, table_view};
ghost use Rattle.dk_config.specs.Tests.{each_row};
ghost use Rattle.dk_faults.specs.Faults.{broken};
ghost use Rattle.dk_loader.specs.Reading.{document};
ghost use Rattle.dk_loader.specs.Keys.{HasFewRows, field_tests, no_table_tests, row_tests, rule_tests, section_tests, table_tests};
ghost use Rattle.dk_loader.specs.Shape.{shape_tests};
ghost use Rattle.dk_loader.specs.ShapeFaults.{shape_faults};

use crate::fault::LoadFault;
use crate::keys::Version;
use crate::look::{find, rows_at, version_of};
use crate::reading::table_of;
use crate::shape::{Rule, field_fault, no_table_fault, tested_fields};
use dk_config::{ConfigFault, Field, MAX_CONFIG_BYTES, NoMemory, Section};
use std::alloc::Global;
use toml::{Table, Value};

fn add(found: &mut Vec<ConfigFault>, fault: Option<ConfigFault>) -> Result<(), NoMemory>
    ensures { OnOk result (found.new.items ≡ found.old.items ++ option_to_list fault) }
{
    if let Some(fault) = fault {
        found.push(fault)?;
    }
    Ok(())
}

/// What these keys of a table report.
fn add_fields(
    found: &mut Vec<ConfigFault>,
    rule: Rule,
    section: Section,
    version: Version,
    i: u32,
    table: &Table,
    fields: &[Field],
) -> Result<(), NoMemory>
    ensures { OnOk result (found.new.items ≡ found.old.items
        ++ broken (each_row (λ _ f. field_tests rule section version i (table_view table.now) f) 0 fields.now)) }
{
    for field in fields {
        add(found, field_fault(rule, section, version, i, table, *field))?;
    }
    Ok(())
}

/// What the keys of a table report.
fn add_table(
    found: &mut Vec<ConfigFault>,
    rule: Rule,
    section: Section,
    version: Version,
    i: u32,
    table: &Table,
) -> Result<(), NoMemory>
    ensures { OnOk result (found.new.items
        ≡ found.old.items ++ broken (table_tests rule section version i (table_view table.now))) }
{
    add_fields(
        found,
        rule,
        section,
        version,
        i,
        table,
        tested_fields(rule, section),
    )
}

fn add_no_table(
    found: &mut Vec<ConfigFault>,
    rule: Rule,
    section: Section,
    i: u32,
) -> Result<(), NoMemory>
    ensures { OnOk result (found.new.items ≡ found.old.items ++ broken (no_table_tests rule section i)) }
{
    add(found, no_table_fault(rule, section, i))
}

fn add_row(
    found: &mut Vec<ConfigFault>,
    rule: Rule,
    section: Section,
    version: Version,
    i: u32,
    row: &Value,
) -> Result<(), NoMemory>
    ensures { OnOk result (found.new.items ≡ found.old.items ++ broken (row_tests rule section version i (view row.now))) }
{
    match row.as_table() {
        Some(table) => add_table(found, rule, section, version, i, table),
        None => add_no_table(found, rule, section, i),
    }
}

fn add_rows(
    found: &mut Vec<ConfigFault>,
    rule: Rule,
    section: Section,
    version: Version,
    rows: &[Value],
) -> Result<(), NoMemory>
    requires { length rows.now < 2 ^ 32 }
    ensures { OnOk result (found.new.items
        ≡ found.old.items ++ broken (each_row (row_tests rule section version) 0 (map view rows.now))) }
{
    for (i, row) in rows.iter().enumerate() {
        add_row(found, rule, section, version, i as u32, row)?;
    }
    Ok(())
}

fn add_costs(
    found: &mut Vec<ConfigFault>,
    rule: Rule,
    version: Version,
    table: &Table,
) -> Result<(), NoMemory>
    ensures { OnOk result (found.new.items
        ≡ found.old.items ++ broken (section_tests rule Section.Costs version (table_view table.now))) }
{
    match find(table, Field::Costs) {
        Some(value) => match value.as_table() {
            Some(costs) => add_table(found, rule, Section::Costs, version, 0, costs),
            None => Ok(()),
        },
        None => Ok(()),
    }
}

fn add_section(
    found: &mut Vec<ConfigFault>,
    rule: Rule,
    section: Section,
    version: Version,
    table: &Table,
) -> Result<(), NoMemory>
    requires { HasFewRows (table_view table.now) }
    ensures { OnOk result (found.new.items
        ≡ found.old.items ++ broken (section_tests rule section version (table_view table.now))) }
{
    match section {
        Section::Top => add_table(found, rule, section, version, 0, table),
        Section::Costs => add_costs(found, rule, version, table),
        Section::Level => add_rows(found, rule, section, version, rows_at(table, Field::Level)),
        Section::Process => add_rows(
            found,
            rule,
            section,
            version,
            rows_at(table, Field::Process),
        ),
        Section::Mutex => add_rows(found, rule, section, version, rows_at(table, Field::Mutex)),
    }
}

/// What the sections report by one rule.
fn add_rule(
    found: &mut Vec<ConfigFault>,
    rule: Rule,
    version: Version,
    table: &Table,
) -> Result<(), NoMemory>
    requires { HasFewRows (table_view table.now) }
    ensures { OnOk result (found.new.items ≡ found.old.items ++ broken (rule_tests rule version (table_view table.now))) }
{
    add_section(found, rule, Section::Top, version, table)?;
    add_section(found, rule, Section::Costs, version, table)?;
    add_section(found, rule, Section::Level, version, table)?;
    add_section(found, rule, Section::Process, version, table)?;
    add_section(found, rule, Section::Mutex, version, table)?;
    Ok(())
}

fn add_rules(found: &mut Vec<ConfigFault>, table: &Table) -> Result<(), NoMemory>
    requires { HasFewRows (table_view table.now) }
    ensures { OnOk result (found.new.items ≡ found.old.items ++ broken (shape_tests (table_view table.now))) }
{
    let version = version_of(table);
    add_rule(found, Rule::Unknown, version, table)?;
    add_rule(found, Rule::Missing, version, table)?;
    add_rule(found, Rule::Wrong, version, table)?;
    Ok(())
}

fn faults_of(alloc: Global, table: &Table) -> Result<Vec<ConfigFault>, NoMemory>
    requires { HasFewRows (table_view table.now) }
    ensures { IfOk result (λ found. found.items ≡ broken (shape_tests (table_view table.now))) }
{
    let mut found = Vec::new(alloc);
    add_rules(&mut found, table)?;
    Ok(found)
}

/// All of the rules C1 to C3 that a document of TOML breaks: one fault for each test that fails, by rule, then by section,
/// row and key.
///
/// - `NotToml`: the bytes are no document by the definition of `toml`.
/// - `NoMemory`: want of memory.
pub fn shape_faults(alloc: Global, bytes: &[u8]) -> Result<Vec<ConfigFault>, LoadFault>
    requires { length bytes.now ≤ MAX_CONFIG_BYTES }
    ensures all { IfOk result (λ found. found.items ≡ shape_faults bytes.now) }
    ensures not_toml { IsErrOf result LoadFault.NotToml → document bytes.now ≡ None }
    ensures only { IfErr result (λ e. e ≢ LoadFault.NotToml → e ≡ LoadFault.NoMemory) }
{
    let table = table_of(alloc, bytes)?;
    Ok(faults_of(alloc, &table)?)
}
