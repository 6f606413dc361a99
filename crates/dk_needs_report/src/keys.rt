//! The keys that a table takes, in words.
ghost use Rattle.std.specs.Prelude.{◌≡◌, ◌++◌, flat_map, string_bytes, IfOk, OnOk};
ghost use Rattle.toml.specs.View.{table_view};
ghost use Rattle.dk_needs_report.specs.Reasons.{after_comma, keys_at, keys_text, names_text};

use crate::found::{needed_at, others_at, table_at};
use dk_config_report::push_line;
use dk_needs::{Key, Place, key_name};
use std::alloc::{AllocError, Global};
use toml::Table;

fn after_comma(alloc: Global, key: Key) -> Result<String, AllocError>
    ensures { IfOk result (λ s. string_bytes s ≡ after_comma key) }
{
    let name = key_name(key);
    format!(in alloc; ", {name}")
}

fn add_names(alloc: Global, text: &mut String, keys: &[Key]) -> Result<(), AllocError>
    ensures { OnOk result (string_bytes text.new ≡ string_bytes text.old ++ flat_map after_comma keys.now) }
{
    for key in keys {
        let word = after_comma(alloc, *key)?;
        push_line(text, word)?;
    }
    Ok(())
}

fn names_text(alloc: Global, keys: &[Key]) -> Result<String, AllocError>
    ensures { IfOk result (λ s. string_bytes s ≡ names_text keys.now) }
{
    match keys.split_first() {
        Some((first, rest)) => {
            let mut text = String::from_str(alloc, key_name(*first))?;
            add_names(alloc, &mut text, rest)?;
            Ok(text)
        }
        None => String::from_str(alloc, ""),
    }
}

fn keys_text(alloc: Global, needed: &[Key], others: &[Key]) -> Result<String, AllocError>
    ensures { IfOk result (λ s. string_bytes s ≡ keys_text needed.now others.now) }
{
    let mut text = names_text(alloc, needed)?;
    add_names(alloc, &mut text, others)?;
    Ok(text)
}

/// All keys that the table there takes.
pub(crate) fn keys_at(
    alloc: Global,
    table: &Table,
    place: Option<Place>,
) -> Result<String, AllocError>
    ensures { IfOk result (λ s. string_bytes s ≡ keys_at place (table_view table.now)) }
{
    match table_at(table, place) {
        Some(row) => keys_text(alloc, needed_at(place, row), others_at(place, row)),
        None => String::from_str(alloc, ""),
    }
}
