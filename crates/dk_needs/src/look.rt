//! What stands at a key of a table.
ghost use Rattle.std.specs.Prelude.{◌≡◌, ◌||◌, option_map, option_and_then, string_bytes, map, not, length, false};
ghost use Rattle.std.specs.List.{list_any};
ghost use Rattle.std.specs.Str.{bytes_eq};
ghost use Rattle.std.specs.BTreeMap.{keys};
ghost use Rattle.toml.specs.View.{view, table_view};
ghost use Rattle.toml.specs.Data.{get_member};
ghost use Rattle.dk_loader.specs.Look.{as_number, is_missing, number_at, rows_at};
ghost use Rattle.dk_needs.specs.Keys.{key_name};
ghost use Rattle.dk_needs.specs.Shape.{has_stranger, is_known};
ghost use Rattle.dk_needs.specs.Reading.{optional_at};

use crate::fault::Key;
use crate::keys::key_name;
use toml::{Table, Value};

/// The value at a key.
pub(crate) fn find<'a>(table: &'a Table, key: Key) -> Option<&'a Value>
    ensures { option_map (λ v. view v.now) result ≡ get_member (key_name key) (table_view table.now) }
{
    table.get(key_name(key))
}

/// Whether there is no value at the key.
pub(crate) fn is_missing(table: &Table, key: Key) -> bool
    ensures { result ≡ is_missing (key_name key) (table_view table.now) }
{
    find(table, key).is_none()
}

/// The number that a value is, where it is one from 0 to 2^32 - 1.
pub(crate) fn number(value: &Value) -> Option<u32>
    ensures { result ≡ as_number (view value.now) }
{
    match value.as_integer() {
        Some(n) if n >= 0 && n <= 4294967295 => Some(n as u32),
        _ => None,
    }
}

/// The number at a key, where there is one.
pub(crate) fn optional_at(table: &Table, key: Key) -> Option<u32>
    ensures { result ≡ optional_at (key_name key) (table_view table.now) }
{
    match find(table, key) {
        Some(value) => number(value),
        None => None,
    }
}

/// The number at a key, and 0 where there is none.
pub(crate) fn number_at(table: &Table, key: Key) -> u32
    ensures { result ≡ number_at (key_name key) 0 (table_view table.now) }
{
    match find(table, key) {
        Some(value) => number(value).unwrap_or(0),
        None => 0,
    }
}

/// The elements of the array at a key.
pub fn rows_at<'a>(table: &'a Table, key: Key) -> &'a [Value]
    ensures { map view result.now ≡ rows_at (key_name key) (table_view table.now) }
{
    match find(table, key) {
        Some(value) => match value.as_array() {
            Some(values) => values.as_slice(),
            None => &[],
        },
        None => &[],
    }
}

fn is_among(keys: &[Key], name: &str) -> bool
    ensures { result ≡ list_any (λ k. bytes_eq (key_name k) name.now) keys.now }
{
    keys.iter().any(|k| key_name(*k) == name)
}

/// Whether one of these keys is spelled so.
pub fn is_known(needed: &[Key], others: &[Key], name: &str) -> bool
    ensures { result ≡ is_known needed.now others.now name.now }
{
    is_among(needed, name) || is_among(others, name)
}

fn any_stranger(table: &Table, needed: &[Key], others: &[Key]) -> bool
    ensures { result ≡ list_any (λ k. not (is_known needed.now others.now (string_bytes k))) (keys table.now) }
{
    table.keys().any(|k| !is_known(needed, others, k.as_str()))
}

/// Whether the table has a key that isn't among these.
pub(crate) fn has_stranger(table: &Table, needed: &[Key], others: &[Key]) -> bool
    ensures { result ≡ has_stranger needed.now others.now (table_view table.now) }
{
    any_stranger(table, needed, others)
}
