//! Which fault a fault follows from.
ghost use Rattle.std.specs.Prelude.{◌≡◌, string_bytes, IfOk};
ghost use Rattle.std.specs.Option.{option_copied};
ghost use Rattle.dk_config_report.specs.Following.{bounds, bounds_slowest, follows_from, is_ceiling, is_level, is_level_key, is_levels, is_period, is_switch, is_version, mark_text};

use dk_config::{ConfigFault, Field, Section};
use dk_fault_words::fault_name;
use std::alloc::{AllocError, Global};

fn is_version(section: Section, field: Field) -> bool
    ensures { result ≡ is_version section field }
{
    match (section, field) {
        (Section::Top, Field::Version) => true,
        _ => false,
    }
}

fn is_levels(section: Section, field: Field) -> bool
    ensures { result ≡ is_levels section field }
{
    match (section, field) {
        (Section::Top, Field::Level) => true,
        _ => false,
    }
}

fn is_level_key(field: Field) -> bool
    ensures { result ≡ is_level_key field }
{
    match field {
        Field::Level => true,
        _ => false,
    }
}

fn is_switch(section: Section, field: Field) -> bool
    ensures { result ≡ is_switch section field }
{
    match (section, field) {
        (Section::Costs, Field::Switch) => true,
        _ => false,
    }
}

fn is_period(section: Section, field: Field) -> bool
    ensures { result ≡ is_period section field }
{
    match (section, field) {
        (Section::Level, Field::Period) => true,
        _ => false,
    }
}

fn is_level(section: Section, field: Field) -> bool
    ensures { result ≡ is_level section field }
{
    match (section, field) {
        (Section::Process, Field::Level) => true,
        _ => false,
    }
}

fn is_ceiling(section: Section, field: Field) -> bool
    ensures { result ≡ is_ceiling section field }
{
    match (section, field) {
        (Section::Mutex, Field::Ceiling) => true,
        _ => false,
    }
}

fn bounds_slowest(fault: ConfigFault, other: ConfigFault) -> bool
    ensures { result ≡ bounds_slowest fault other }
{
    is_version(other.section, other.field)
        || is_levels(other.section, other.field)
        || (is_level(other.section, other.field) && other.row == fault.row)
}

/// Whether what is allowed at the place of a fault is made of the number at the place of another.
fn bounds(fault: ConfigFault, other: ConfigFault) -> bool
    ensures { result ≡ bounds fault other }
{
    match fault.number {
        4 | 6 | 8 | 9 => false,
        5 => is_level_key(fault.field) && is_version(other.section, other.field),
        7 => is_period(other.section, other.field) && other.row == fault.row.saturating_sub(1),
        10 => is_levels(other.section, other.field),
        11 => is_switch(other.section, other.field),
        12 => is_ceiling(other.section, other.field) && other.row == fault.row,
        _ => bounds_slowest(fault, other),
    }
}

/// The first of the faults found at whose place a number stands of which what is allowed at the place of this one is made.
pub(crate) fn follows_from(found: &[ConfigFault], fault: ConfigFault) -> Option<ConfigFault>
    ensures { result ≡ follows_from found.now fault }
{
    found.iter().copied().find(|other| bounds(fault, *other))
}

/// The mark of a line that follows from another.
pub(crate) fn mark_text(alloc: Global, follows: Option<ConfigFault>) -> Result<String, AllocError>
    ensures { IfOk result (λ s. string_bytes s ≡ mark_text follows) }
{
    let Some(other) = follows else {
        return Ok(String::new(alloc));
    };
    let name = fault_name(alloc, other)?;
    let name = name.as_str();
    format!(in alloc; " (follows from {name})")
}
