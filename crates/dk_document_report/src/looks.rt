//! What stands in a document at a section, a row and a key.
ghost use Rattle.std.specs.Prelude.{◌≡◌, map, option_and_then, option_map, slice_get};
ghost use Rattle.std.specs.List.{list_any};
ghost use Rattle.std.specs.Str.{bytes_eq};
ghost use Rattle.toml.specs.Data.{as_table, get_member};
ghost use Rattle.toml.specs.View.{table_view, view};
ghost use Rattle.dk_loader.specs.Keys.{key_fields, key_name};
ghost use Rattle.dk_loader.specs.Look.{as_number, number_at, rows_at};
ghost use Rattle.dk_document_report.specs.Found.{is_key, is_second, is_top, row_in, table_in, version_by};

use dk_config::{Field, Section};
use toml::{Table, Value};

/// The key as it stands in a document.
pub(crate) fn key_name(field: Field) -> &'static str
    ensures { result.now ≡ key_name field }
{
    match field {
        Field::Version => "version",
        Field::Costs => "costs",
        Field::Level => "level",
        Field::Process => "process",
        Field::Mutex => "mutex",
        Field::Switch => "switch",
        Field::Call => "call",
        Field::Period => "period",
        Field::Release => "release",
        Field::Name => "name",
        Field::Program => "program",
        Field::Budget => "budget",
        Field::Memory => "memory",
        Field::Threads => "threads",
        Field::Slack => "slack",
        Field::MaxLevel => "max_level",
        Field::Ceiling => "ceiling",
        Field::Hold => "hold",
        Field::Users => "users",
        Field::Unknown => "",
    }
}

/// The value at a key.
pub fn find<'a>(table: &'a Table, key: &str) -> Option<&'a Value>
    ensures { option_map (λ v. view v.now) result ≡ get_member key.now (table_view table.now) }
{
    table.get(key)
}

fn number(value: &Value) -> Option<u32>
    ensures { result ≡ as_number (view value.now) }
{
    match value.as_integer() {
        Some(n) if n >= 0 && n <= 4294967295 => Some(n as u32),
        _ => None,
    }
}

fn number_at(table: &Table, key: &str, default: u32) -> u32
    ensures { result ≡ number_at key.now default (table_view table.now) }
{
    match find(table, key) {
        Some(value) => number(value).unwrap_or(default),
        None => default,
    }
}

/// Whether the document is read by the keys of version 2.
pub(crate) fn is_second(table: &Table) -> bool
    ensures { result ≡ is_second (table_view table.now) }
{
    number_at(table, "version", 0) == 2
}

fn rows_at<'a>(table: &'a Table, key: &str) -> &'a [Value]
    ensures { map view result.now ≡ rows_at key.now (table_view table.now) }
{
    match find(table, key) {
        Some(value) => match value.as_array() {
            Some(values) => values.as_slice(),
            None => &[],
        },
        None => &[],
    }
}

fn row_of(rows: &[Value], row: u32) -> Option<&Value>
    ensures { option_map (λ v. view v.now) result ≡ slice_get (map view rows.now) row }
{
    rows.get(row as usize)
}

/// What stands in a row, or as the costs.
pub(crate) fn row_in(table: &Table, section: Section, row: u32) -> Option<&Value>
    ensures { option_map (λ v. view v.now) result ≡ row_in section row (table_view table.now) }
{
    match section {
        Section::Top => None,
        Section::Costs => find(table, "costs"),
        Section::Level => row_of(rows_at(table, "level"), row),
        Section::Process => row_of(rows_at(table, "process"), row),
        Section::Mutex => row_of(rows_at(table, "mutex"), row),
    }
}

pub(crate) fn is_top(section: Section) -> bool
    ensures { result ≡ is_top section }
{
    match section {
        Section::Top => true,
        _ => false,
    }
}

fn table_of(value: Option<&Value>) -> Option<&Table>
    ensures { option_map (λ t. table_view t.now) result
        ≡ option_and_then as_table (option_map (λ v. view v.now) value.entry) }
{
    match value {
        Some(value) => value.as_table(),
        None => None,
    }
}

/// The table of a section, where there is one.
pub(crate) fn table_in(table: &Table, section: Section, row: u32) -> Option<&Table>
    ensures { option_map (λ t. table_view t.now) result ≡ table_in section row (table_view table.now) }
{
    if is_top(section) {
        Some(table)
    } else {
        table_of(row_in(table, section, row))
    }
}

fn process_fields(second: bool) -> &'static [Field]
    ensures { result.now ≡ key_fields Section.Process (version_by second) }
{
    if second {
        &[
            Field::Name,
            Field::Program,
            Field::Level,
            Field::Budget,
            Field::Memory,
            Field::Threads,
            Field::Slack,
            Field::MaxLevel,
        ]
    } else {
        &[
            Field::Name,
            Field::Program,
            Field::Level,
            Field::Budget,
            Field::Memory,
            Field::Threads,
            Field::Slack,
        ]
    }
}

fn key_fields(section: Section, second: bool) -> &'static [Field]
    ensures { result.now ≡ key_fields section (version_by second) }
{
    match section {
        Section::Top => &[
            Field::Version,
            Field::Costs,
            Field::Level,
            Field::Process,
            Field::Mutex,
        ],
        Section::Costs => &[Field::Switch, Field::Call],
        Section::Level => &[Field::Period, Field::Release],
        Section::Process => process_fields(second),
        Section::Mutex => &[Field::Name, Field::Ceiling, Field::Hold, Field::Users],
    }
}

fn is_among(fields: &[Field], name: &str) -> bool
    ensures { result ≡ list_any (λ f. bytes_eq (key_name f) name.now) fields.now }
{
    fields.iter().any(|f| key_name(*f) == name)
}

/// Whether the section takes a key of this name.
pub(crate) fn is_key(section: Section, second: bool, name: &str) -> bool
    ensures { result ≡ is_key section second name.now }
{
    is_among(key_fields(section, second), name)
}
