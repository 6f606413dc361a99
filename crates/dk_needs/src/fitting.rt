//! Whether a value is one of those that a key takes.
ghost use Rattle.std.specs.Prelude.{◌≡◌, map, option_map, is_some};
ghost use Rattle.std.specs.List.{list_all};
ghost use Rattle.toml.specs.View.{view};
ghost use Rattle.toml.specs.Data.{as_str};
ghost use Rattle.dk_needs.specs.Fitting.{array_fault, elements_of, id_fault, is_id, is_id_byte, is_name_text, name_fault, names_fault, number_fault, rows_fault, tick_fault, true_fault, value_fault};

use crate::fault::Why;
use crate::keys::Shape;
use crate::look::number;
use crate::tick::tick_of;
use crate::{MAX_ID_BYTES, MAX_ROWS};
use dk_config::{MAX_PROCESSES, is_name};
use toml::Value;

fn is_id_byte(b: &u8) -> bool
    ensures { result ≡ is_id_byte b.now }
{
    b.is_ascii_alphanumeric() || *b == b'.' || *b == b'_' || *b == b'-'
}

fn are_id_bytes(id: &[u8]) -> bool
    ensures { result ≡ list_all is_id_byte id.now }
{
    id.iter().all(is_id_byte)
}

/// Whether the bytes are the name of a need.
fn is_id(id: &[u8]) -> bool
    ensures { result ≡ is_id id.now }
{
    !id.is_empty() && id.len() <= MAX_ID_BYTES && are_id_bytes(id)
}

fn number_fault(least: u32, most: u32, value: &Value) -> Option<Why>
    ensures { result ≡ number_fault least most (view value.now) }
{
    match number(value) {
        Some(n) if least <= n && n <= most => None,
        Some(_) => Some(Why::Range),
        None => Some(Why::Kind),
    }
}

fn id_fault(value: &Value) -> Option<Why>
    ensures { result ≡ id_fault (view value.now) }
{
    match value.as_str() {
        Some(text) if is_id(text.as_bytes()) => None,
        Some(_) => Some(Why::Spelling),
        None => Some(Why::Kind),
    }
}

fn name_fault(value: &Value) -> Option<Why>
    ensures { result ≡ name_fault (view value.now) }
{
    match value.as_str() {
        Some(text) if is_name(text.as_bytes()) => None,
        Some(_) => Some(Why::Spelling),
        None => Some(Why::Kind),
    }
}

fn tick_fault(value: &Value) -> Option<Why>
    ensures { result ≡ tick_fault (view value.now) }
{
    match value.as_str() {
        Some(text) if tick_of(text.as_bytes()).is_some() => None,
        Some(_) => Some(Why::Spelling),
        None => Some(Why::Kind),
    }
}

fn true_fault(value: &Value) -> Option<Why>
    ensures { result ≡ true_fault (view value.now) }
{
    match value.as_bool() {
        Some(true) => None,
        Some(false) => Some(Why::Range),
        None => Some(Why::Kind),
    }
}

fn are_texts(values: &[Value]) -> bool
    ensures { result ≡ list_all (λ v. is_some (as_str (view v))) values.now }
{
    values.iter().all(|value| value.is_str())
}

fn is_name_text(value: &Value) -> bool
    ensures { result ≡ is_name_text (view value.now) }
{
    match value.as_str() {
        Some(text) => is_name(text.as_bytes()),
        None => false,
    }
}

fn are_names(values: &[Value]) -> bool
    ensures { result ≡ list_all (λ v. is_name_text (view v)) values.now }
{
    values.iter().all(is_name_text)
}

/// What is wrong with the names of a chain.
#[tactic(auto, using(crate::proofs::Lists::mapped))]
fn names_fault(values: &[Value]) -> Option<Why>
    ensures { result ≡ names_fault (map view values.now) }
{
    if !are_texts(values) {
        return Some(Why::Kind);
    }
    if values.is_empty() || values.len() > MAX_PROCESSES {
        return Some(Why::Count);
    }
    if are_names(values) {
        None
    } else {
        Some(Why::Spelling)
    }
}

#[tactic(auto, using(crate::proofs::Lists::mapped))]
fn rows_fault(values: &[Value]) -> Option<Why>
    ensures { result ≡ rows_fault (map view values.now) }
{
    if values.len() > MAX_ROWS {
        Some(Why::Count)
    } else {
        None
    }
}

/// The elements of a value, where it is an array.
fn elements_of(value: &Value) -> Option<&[Value]>
    ensures { option_map (λ vs. map view vs.now) result ≡ elements_of (view value.now) }
{
    match value.as_array() {
        Some(values) => Some(values.as_slice()),
        None => None,
    }
}

fn array_fault(are_names: bool, value: &Value) -> Option<Why>
    ensures { result ≡ array_fault are_names (view value.now) }
{
    match elements_of(value) {
        Some(values) => if are_names {
            names_fault(values)
        } else {
            rows_fault(values)
        },
        None => Some(Why::Kind),
    }
}

/// What is wrong with a value, and `None` where it is one of these.
pub(crate) fn value_fault(shape: Shape, value: &Value) -> Option<Why>
    ensures { result ≡ value_fault shape (view value.now) }
{
    match shape {
        Shape::Number { least, most } => number_fault(least, most, value),
        Shape::Id => id_fault(value),
        Shape::Name => name_fault(value),
        Shape::Names => array_fault(true, value),
        Shape::True => true_fault(value),
        Shape::Tick => tick_fault(value),
        Shape::Rows => array_fault(false, value),
    }
}
