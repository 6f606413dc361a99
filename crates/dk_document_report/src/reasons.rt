//! Why a test of C1 to C3 fails, in words.
ghost use Rattle.std.specs.Prelude.{◌≡◌, ◌++◌, codes, option_map, string_bytes, IfOk};
ghost use Rattle.std.specs.List.{list_any};
ghost use Rattle.std.specs.Option.{option_map_or};
ghost use Rattle.toml.specs.View.{table_view, view};
ghost use Rattle.dk_document_report.specs.Reasons.{is_control, kind_at, missing_text, reason_text, shown_key, told_text, unknown_text, value_at, wrong_text};

use crate::findings::Finding;
use crate::kinds::{keys_text, kind_at, wanted, wanted_at};
use crate::looks::{find, is_second, key_name, row_in, table_in};
use dk_config::{ConfigFault, Field, Section};
use dk_fault_words::fault_head;
use std::alloc::{AllocError, Global};
use toml::{Table, Value};

fn is_control(byte: u8) -> bool
    ensures { result ≡ is_control byte }
{
    byte < 32 || byte == 127
}

pub(crate) fn has_control(bytes: &[u8]) -> bool
    ensures { result ≡ list_any is_control bytes.now }
{
    bytes.iter().any(|b| is_control(*b))
}

/// The key, or words in its place where it would break the line.
pub fn shown_key(key: &str) -> &str
    ensures { result.now ≡ shown_key key.now }
{
    if has_control(key.as_bytes()) {
        "a key with a control character"
    } else {
        key
    }
}

fn unknown_line(alloc: Global, shown: &str, keys: &str) -> Result<String, AllocError>
    ensures { IfOk result (λ s. string_bytes s
        ≡ shown.now ++ (codes " is unknown, the keys here are " ++ keys.now)) }
{
    format!(in alloc; "{shown} is unknown, the keys here are {keys}")
}

fn unknown_text(alloc: Global, table: &Table, told: &Finding) -> Result<String, AllocError>
    ensures { IfOk result (λ s. string_bytes s ≡ unknown_text (table_view table.now) told.now) }
{
    let keys = keys_text(told.fault.section, is_second(table));
    unknown_line(alloc, shown_key(told.key.as_str()), keys)
}

fn missing_text(alloc: Global, told: &Finding) -> Result<String, AllocError>
    ensures { IfOk result (λ s. string_bytes s ≡ missing_text told.now) }
{
    let wanted = wanted(told.fault.section, told.fault.field);
    format!(in alloc; "it is missing, {wanted} is wanted")
}

/// The value that is of the wrong kind.
fn value_at(table: &Table, section: Section, row: u32, field: Field) -> Option<&Value>
    ensures { option_map (λ v. view v.now) result ≡ value_at section row field (table_view table.now) }
{
    match table_in(table, section, row) {
        Some(section) => find(section, key_name(field)),
        None => row_in(table, section, row),
    }
}

fn found_text(alloc: Global, field: Field, value: Option<&Value>) -> Result<String, AllocError>
    ensures { IfOk result (λ s. string_bytes s
        ≡ option_map_or (kind_at field) (option_map (λ v. view v.now) value.entry) (codes "none")) }
{
    match value {
        Some(value) => kind_at(alloc, field, value),
        None => String::from_str(alloc, "none"),
    }
}

fn wrong_line(alloc: Global, wanted: &str, found: &str) -> Result<String, AllocError>
    ensures { IfOk result (λ s. string_bytes s
        ≡ wanted.now ++ (codes " is wanted, this is " ++ found.now)) }
{
    format!(in alloc; "{wanted} is wanted, this is {found}")
}

fn wrong_text(alloc: Global, table: &Table, fault: ConfigFault) -> Result<String, AllocError>
    ensures { IfOk result (λ s. string_bytes s ≡ wrong_text (table_view table.now) fault) }
{
    let wanted = wanted_at(table, fault.section, fault.row, fault.field);
    let value = value_at(table, fault.section, fault.row, fault.field);
    let found = found_text(alloc, fault.field, value)?;
    let text = wrong_line(alloc, wanted, found.as_str())?;
    Ok(text)
}

fn reason_text(alloc: Global, table: &Table, told: &Finding) -> Result<String, AllocError>
    ensures { IfOk result (λ s. string_bytes s ≡ reason_text (table_view table.now) told.now) }
{
    if told.fault.number == 1 {
        unknown_text(alloc, table, told)
    } else if told.fault.number == 2 {
        missing_text(alloc, told)
    } else {
        wrong_text(alloc, table, told.fault)
    }
}

/// The line of what is wrong, with its place.
pub(crate) fn told_text(
    alloc: Global,
    table: &Table,
    told: &Finding,
    place: &str,
) -> Result<String, AllocError>
    ensures { IfOk result (λ s. string_bytes s ≡ told_text (table_view table.now) told.now place.now) }
{
    let head = fault_head(alloc, told.fault)?;
    let head = head.as_str();
    let reason = reason_text(alloc, table, told)?;
    let reason = reason.as_str();
    format!(in alloc; "{head}: {place}{reason}\n")
}
