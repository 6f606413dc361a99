//! Where in a document of needs a thing stands.
ghost use Rattle.std.specs.Prelude.{◌≡◌, ◌≤◌, ◌&&◌, length, option_map, string_bytes, false, true, IfOk, Some};
ghost use Rattle.std.specs.Option.{option_map_or};
ghost use Rattle.toml.specs.View.{table_view, view};
ghost use Rattle.dk_config.specs.declared.TheConstants.{MAX_CONFIG_BYTES};
ghost use Rattle.dk_loader.specs.Reading.{document};
ghost use Rattle.dk_document_report.specs.Expressions.{AreEnds};
ghost use Rattle.dk_document_report.specs.Standing.{IsPlaced, row_has};
ghost use Rattle.dk_needs_report.specs.Placing.{IsPlaceText, key_stands, stands, stands_in};

use crate::found::{Finding, row_at};
use dk_config::NoMemory;
use dk_document_report::{find, find_place, row_has, table_of};
use dk_needs::{Place, Why, key_name};
use std::alloc::Global;
use toml::{Table, Value};

fn row_stands(row: Option<&Value>, key: &str) -> bool
    ensures { result ≡ option_map_or (row_has key.now) (option_map (λ v. view v.now) row.entry) false }
{
    match row {
        Some(row) => row_has(key, row),
        None => false,
    }
}

fn key_stands(table: &Table, place: Option<Place>, key: &str) -> bool
    ensures { result ≡ key_stands place key.now (table_view table.now) }
{
    match place {
        Some(_) => row_stands(row_at(table, place), key),
        None => find(table, key).is_some(),
    }
}

/// Whether what a line is about stands in the document.
fn stands(table: &Table, told: &Finding) -> bool
    ensures { result ≡ stands told.now (table_view table.now) }
{
    match told.fault.why {
        Why::Missing => row_at(table, told.fault.place).is_some(),
        Why::Unknown => key_stands(table, told.fault.place, told.key.as_str()),
        _ => key_stands(table, told.fault.place, key_name(told.fault.key)),
    }
}

/// Whether the bytes are a document in which it stands.
fn stands_in(alloc: Global, bytes: &[u8], told: &Finding) -> Result<bool, NoMemory>
    ensures { IfOk result (λ found. found ≡ stands_in told.now bytes.now) }
{
    match table_of(alloc, bytes)? {
        Some(table) => Ok(stands(&table, told)),
        None => Ok(false),
    }
}

fn found_place(
    alloc: Global,
    bytes: &[u8],
    ends: &[usize],
    told: &Finding,
) -> Result<String, NoMemory>
    requires few { length bytes.now ≤ MAX_CONFIG_BYTES }
    requires ends { AreEnds bytes.now ends.now }
    requires stands { stands_in told.now bytes.now ≡ true }
    ensures { IfOk result (λ s. IsPlaced bytes.now (stands_in told.now) (string_bytes s)) }
{
    find_place(alloc, bytes, ends, |part| stands_in(alloc, part, told))
}

fn has_place(table: &Table, asked: bool, told: &Finding) -> bool
    ensures { result ≡ (asked && stands told.now (table_view table.now)) }
{
    asked && stands(table, told)
}

/// The place of what a line is about, where it is asked for and there is one.
pub(crate) fn place_of(
    alloc: Global,
    bytes: &[u8],
    table: &Table,
    ends: &[usize],
    asked: bool,
    told: &Finding,
) -> Result<String, NoMemory>
    requires few { length bytes.now ≤ MAX_CONFIG_BYTES }
    requires read { document bytes.now ≡ Some (table_view table.now) }
    requires ends { AreEnds bytes.now ends.now }
    ensures { IfOk result (λ s. IsPlaceText bytes.now (table_view table.now) asked told.now (string_bytes s)) }
{
    if !has_place(table, asked, told) {
        return Ok(String::new(alloc));
    }
    let text = found_place(alloc, bytes, ends, told)?;
    Ok(text)
}
