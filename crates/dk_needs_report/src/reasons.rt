//! What is wrong at a key, in words.
ghost use Rattle.std.specs.Prelude.{◌≡◌, ◌++◌, codes, string_bytes, IfOk};
ghost use Rattle.toml.specs.View.{table_view};
ghost use Rattle.dk_needs_report.specs.Reasons.{fault_head, missing_text, reason_text, row_text, told_text, unknown_text, wrong_text};

use crate::found::Finding;
use crate::keys::keys_at;
use crate::words::{found_at, value_at, wanted_at, wanted_text};
use dk_document_report::shown_key;
use dk_needs::{Fault, Place, Why, key_name, section_key, shape_of};
use std::alloc::{AllocError, Global};
use toml::Table;

fn row_text(alloc: Global, place: Option<Place>) -> Result<String, AllocError>
    ensures { IfOk result (λ s. string_bytes s ≡ row_text place) }
{
    match place {
        Some(Place { section, row }) => {
            let section = key_name(section_key(section));
            format!(in alloc; "{section} {row} ")
        }
        None => String::from_str(alloc, ""),
    }
}

fn head_text(alloc: Global, row: &str, key: &str) -> Result<String, AllocError>
    ensures { IfOk result (λ s. string_bytes s ≡ codes "needs: " ++ (row.now ++ key.now)) }
{
    format!(in alloc; "needs: {row}{key}")
}

/// The row and the key.
fn fault_head(alloc: Global, fault: Fault) -> Result<String, AllocError>
    ensures { IfOk result (λ s. string_bytes s ≡ fault_head fault) }
{
    let row = row_text(alloc, fault.place)?;
    head_text(alloc, row.as_str(), key_name(fault.key))
}

fn unknown_line(alloc: Global, shown: &str, keys: &str) -> Result<String, AllocError>
    ensures { IfOk result (λ s. string_bytes s
        ≡ shown.now ++ (codes " is unknown, the keys here are " ++ keys.now)) }
{
    format!(in alloc; "{shown} is unknown, the keys here are {keys}")
}

fn unknown_text(alloc: Global, table: &Table, told: &Finding) -> Result<String, AllocError>
    ensures { IfOk result (λ s. string_bytes s ≡ unknown_text (table_view table.now) told.now) }
{
    let keys = keys_at(alloc, table, told.fault.place)?;
    unknown_line(alloc, shown_key(told.key.as_str()), keys.as_str())
}

fn missing_line(alloc: Global, wanted: &str) -> Result<String, AllocError>
    ensures { IfOk result (λ s. string_bytes s ≡ codes "it is missing, " ++ wanted.now) }
{
    format!(in alloc; "it is missing, {wanted}")
}

fn missing_text(alloc: Global, fault: Fault) -> Result<String, AllocError>
    ensures { IfOk result (λ s. string_bytes s ≡ missing_text fault) }
{
    let wanted = wanted_text(alloc, shape_of(fault.key))?;
    missing_line(alloc, wanted.as_str())
}

fn wrong_line(alloc: Global, wanted: &str, found: &str) -> Result<String, AllocError>
    ensures { IfOk result (λ s. string_bytes s ≡ wanted.now ++ found.now) }
{
    format!(in alloc; "{wanted}{found}")
}

fn wrong_text(alloc: Global, table: &Table, fault: Fault) -> Result<String, AllocError>
    ensures { IfOk result (λ s. string_bytes s ≡ wrong_text (table_view table.now) fault) }
{
    let wanted = wanted_at(alloc, table, fault.place, fault.key)?;
    let value = value_at(table, fault.place, fault.key);
    let found = found_at(alloc, fault.why, shape_of(fault.key), value)?;
    let text = wrong_line(alloc, wanted.as_str(), found.as_str())?;
    Ok(text)
}

fn reason_text(alloc: Global, table: &Table, told: &Finding) -> Result<String, AllocError>
    ensures { IfOk result (λ s. string_bytes s ≡ reason_text (table_view table.now) told.now) }
{
    match told.fault.why {
        Why::Unknown => unknown_text(alloc, table, told),
        Why::Missing => missing_text(alloc, told.fault),
        Why::Again => String::from_str(alloc, "an earlier need has this id"),
        _ => wrong_text(alloc, table, told.fault),
    }
}

/// The line of what is wrong, with its place.
pub(crate) fn told_text(
    alloc: Global,
    table: &Table,
    told: &Finding,
    place: &str,
) -> Result<String, AllocError>
    ensures { IfOk result (λ s. string_bytes s ≡ told_text (table_view table.now) told.now place.now) }
{
    let head = fault_head(alloc, told.fault)?;
    let head = head.as_str();
    let reason = reason_text(alloc, table, told)?;
    let reason = reason.as_str();
    format!(in alloc; "{head}: {place}{reason}\n")
}
