//! What a key takes and what stands there, in words.
ghost use Rattle.std.specs.Prelude.{◌≡◌, ◌++◌, codes, option_map, string_bytes, IfOk};
ghost use Rattle.toml.specs.View.{table_view, view};
ghost use Rattle.dk_needs_report.specs.Reasons.{flag_text, found_at, found_text, this_is, value_at, wanted_at, wanted_text};

use crate::found::{row_at, table_at};
use dk_config::Field;
use dk_document_report::{find, kind_at, kind_text};
use dk_needs::{Key, Place, Shape, Why, key_name, shape_of};
use std::alloc::{AllocError, Global};
use toml::{Table, Value};

fn range_text(alloc: Global, least: u32, most: u32) -> Result<String, AllocError>
    ensures { IfOk result (λ s. string_bytes s ≡ wanted_text (Shape.Number least most)) }
{
    format!(in alloc; "a number from {least} to {most} is wanted")
}

/// What a key takes.
pub(crate) fn wanted_text(alloc: Global, shape: Shape) -> Result<String, AllocError>
    ensures { IfOk result (λ s. string_bytes s ≡ wanted_text shape) }
{
    match shape {
        Shape::Number { least, most } => range_text(alloc, least, most),
        Shape::Id => {
            String::from_str(alloc, "1 to 32 letters, digits, dots, _ and - are wanted")
        }
        Shape::Name => String::from_str(
            alloc,
            "a name is wanted, 1 to 16 of a to z, 0 to 9 and _ from a letter on",
        ),
        Shape::Names => String::from_str(alloc, "1 to 32 names of processes are wanted"),
        Shape::True => String::from_str(alloc, "true is wanted"),
        Shape::Tick => String::from_str(
            alloc,
            "a number from 1 to 999999 with ns, us, ms or s is wanted",
        ),
        Shape::Rows => String::from_str(alloc, "up to 256 rows are wanted, each a table"),
    }
}

/// The same, where a row that is no table is to be one.
pub(crate) fn wanted_at(
    alloc: Global,
    table: &Table,
    place: Option<Place>,
    key: Key,
) -> Result<String, AllocError>
    ensures { IfOk result (λ s. string_bytes s ≡ wanted_at place key (table_view table.now)) }
{
    match table_at(table, place) {
        Some(_) => wanted_text(alloc, shape_of(key)),
        None => String::from_str(alloc, "a table is wanted"),
    }
}

/// The value that isn't taken.
pub(crate) fn value_at(table: &Table, place: Option<Place>, key: Key) -> Option<&Value>
    ensures { option_map (λ v. view v.now) result ≡ value_at place key (table_view table.now) }
{
    match table_at(table, place) {
        Some(row) => find(row, key_name(key)),
        None => row_at(table, place),
    }
}

fn flag_text(flag: bool) -> &'static str
    ensures { result.now ≡ flag_text flag }
{
    if flag { "true" } else { "false" }
}

fn true_text(alloc: Global, value: &Value) -> Result<String, AllocError>
    ensures { IfOk result (λ s. string_bytes s ≡ found_text Shape.True (view value.now)) }
{
    match value.as_bool() {
        Some(flag) => String::from_str(alloc, flag_text(flag)),
        None => kind_text(alloc, value),
    }
}

/// What stands where such values are wanted.
fn found_text(alloc: Global, shape: Shape, value: &Value) -> Result<String, AllocError>
    ensures { IfOk result (λ s. string_bytes s ≡ found_text shape (view value.now)) }
{
    match shape {
        Shape::Names => kind_at(alloc, Field::Users, value),
        Shape::True => true_text(alloc, value),
        _ => kind_text(alloc, value),
    }
}

fn this_text(alloc: Global, found: &str) -> Result<String, AllocError>
    ensures { IfOk result (λ s. string_bytes s ≡ codes ", this is " ++ found.now) }
{
    format!(in alloc; ", this is {found}")
}

fn this_is(alloc: Global, shape: Shape, value: Option<&Value>) -> Result<String, AllocError>
    ensures { IfOk result (λ s. string_bytes s ≡ this_is shape (option_map (λ v. view v.now) value.entry)) }
{
    match value {
        Some(value) => {
            let found = found_text(alloc, shape, value)?;
            this_text(alloc, found.as_str())
        }
        None => String::from_str(alloc, ""),
    }
}

/// What stands there, of a value of another kind and of a number that is out of its range.
pub(crate) fn found_at(
    alloc: Global,
    why: Why,
    shape: Shape,
    value: Option<&Value>,
) -> Result<String, AllocError>
    ensures { IfOk result (λ s. string_bytes s
        ≡ found_at why shape (option_map (λ v. view v.now) value.entry)) }
{
    match why {
        Why::Kind | Why::Range => this_is(alloc, shape, value),
        _ => String::from_str(alloc, ""),
    }
}
