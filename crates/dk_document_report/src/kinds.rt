//! Kinds of values, in words.
ghost use Rattle.std.specs.Prelude.{◌≡◌, ◌++◌, string_bytes, IfOk};
ghost use Rattle.toml.specs.View.{table_view, view};
ghost use Rattle.dk_document_report.specs.Reasons.{article, keys_text, kind_at, kind_text, wanted, wanted_at};

use crate::looks::table_in;
use dk_config::{Field, Section};
use std::alloc::{AllocError, Global};
use toml::{Table, Value};

fn wanted_level(section: Section) -> &'static str
    ensures { result.now ≡ wanted section Field.Level }
{
    match section {
        Section::Top => "an array of tables",
        _ => "a whole number from 0 to 4294967295",
    }
}

/// The kind that is wanted at a key.
pub(crate) fn wanted(section: Section, field: Field) -> &'static str
    ensures { result.now ≡ wanted section field }
{
    match field {
        Field::Name | Field::Program => "a string",
        Field::Slack => "true or false",
        Field::Users => "an array of strings",
        Field::Costs => "a table",
        Field::Process | Field::Mutex => "an array of tables",
        Field::Level => wanted_level(section),
        _ => "a whole number from 0 to 4294967295",
    }
}

/// The kind that is wanted of a value: a row has to be a table.
pub(crate) fn wanted_at(table: &Table, section: Section, row: u32, field: Field) -> &'static str
    ensures { result.now ≡ wanted_at section row field (table_view table.now) }
{
    match table_in(table, section, row) {
        Some(_) => wanted(section, field),
        None => "a table",
    }
}

fn article(name: &str) -> &'static str
    ensures { result.now ≡ article name.now }
{
    if name == "array" { "an " } else { "a " }
}

fn with_article(alloc: Global, name: &str) -> Result<String, AllocError>
    ensures { IfOk result (λ s. string_bytes s ≡ article name.now ++ name.now) }
{
    let article = article(name);
    format!(in alloc; "{article}{name}")
}

/// What a value is: a whole number by itself, any other by its kind.
pub fn kind_text(alloc: Global, value: &Value) -> Result<String, AllocError>
    ensures { IfOk result (λ s. string_bytes s ≡ kind_text (view value.now)) }
{
    match value.as_integer() {
        Some(n) => format!(in alloc; "{n}"),
        None => with_article(alloc, value.type_str()),
    }
}

fn kind_of_users(alloc: Global, value: &Value) -> Result<String, AllocError>
    ensures { IfOk result (λ s. string_bytes s ≡ kind_at Field.Users (view value.now)) }
{
    match value.as_array() {
        Some(_) => String::from_str(alloc, "an array with an element that is no string"),
        None => kind_text(alloc, value),
    }
}

/// What a value of the wrong kind is.
pub fn kind_at(alloc: Global, field: Field, value: &Value) -> Result<String, AllocError>
    ensures { IfOk result (λ s. string_bytes s ≡ kind_at field (view value.now)) }
{
    match field {
        Field::Users => kind_of_users(alloc, value),
        _ => kind_text(alloc, value),
    }
}

fn process_keys_text(second: bool) -> &'static str
    ensures { result.now ≡ keys_text Section.Process second }
{
    if second {
        "name, program, level, budget, memory, threads, slack, max_level"
    } else {
        "name, program, level, budget, memory, threads, slack"
    }
}

/// The keys that a section takes.
pub(crate) fn keys_text(section: Section, second: bool) -> &'static str
    ensures { result.now ≡ keys_text section second }
{
    match section {
        Section::Top => "version, costs, level, process, mutex",
        Section::Costs => "switch, call",
        Section::Level => "period, release",
        Section::Process => process_keys_text(second),
        Section::Mutex => "name, ceiling, hold, users",
    }
}
