//! The words of the line of a fault.
ghost use Rattle.std.specs.Prelude.{◌≡◌, string_bytes, IfOk};
ghost use Rattle.dk_fault_words.specs.FaultWords.{fault_head, fault_name, fault_text, field_word, place_text};

use dk_config::{ConfigFault, Field, Section};
use std::alloc::{AllocError, Global};

fn field_word(field: Field) -> &'static str
    ensures { result.now ≡ field_word field }
{
    match field {
        Field::Version => "version",
        Field::Costs => "costs",
        Field::Level => "level",
        Field::Process => "process",
        Field::Mutex => "mutex",
        Field::Switch => "switch",
        Field::Call => "call",
        Field::Period => "period",
        Field::Release => "release",
        Field::Name => "name",
        Field::Program => "program",
        Field::Budget => "budget",
        Field::Memory => "memory",
        Field::Threads => "threads",
        Field::Slack => "slack",
        Field::MaxLevel => "max_level",
        Field::Ceiling => "ceiling",
        Field::Hold => "hold",
        Field::Users => "users",
        Field::Unknown => "unknown",
    }
}

fn place_text(alloc: Global, section: Section, row: u32) -> Result<String, AllocError>
    ensures { IfOk result (λ s. string_bytes s ≡ place_text section row) }
{
    match section {
        Section::Top => String::from_str(alloc, "top "),
        Section::Costs => String::from_str(alloc, "costs "),
        Section::Level => format!(in alloc; "level {row} "),
        Section::Process => format!(in alloc; "process {row} "),
        Section::Mutex => format!(in alloc; "mutex {row} "),
    }
}

/// The line of the refusal by the fault, without its line feed.
pub fn fault_head(alloc: Global, fault: ConfigFault) -> Result<String, AllocError>
    ensures { IfOk result (λ s. string_bytes s ≡ fault_head fault) }
{
    let number = fault.number;
    let place = place_text(alloc, fault.section, fault.row)?;
    let place = place.as_str();
    let word = field_word(fault.field);
    format!(in alloc; "config: C{number} {place}{word}")
}

/// The rule and the place of the fault, as `C6 level 1 period`.
pub fn fault_name(alloc: Global, fault: ConfigFault) -> Result<String, AllocError>
    ensures { IfOk result (λ s. string_bytes s ≡ fault_name fault) }
{
    let number = fault.number;
    let place = place_text(alloc, fault.section, fault.row)?;
    let place = place.as_str();
    let word = field_word(fault.field);
    format!(in alloc; "C{number} {place}{word}")
}

/// The line of the refusal by the fault.
pub fn fault_text(alloc: Global, fault: ConfigFault) -> Result<String, AllocError>
    ensures { IfOk result (λ s. string_bytes s ≡ fault_text fault) }
{
    let mut text = fault_head(alloc, fault)?;
    text.push_str("\n")?;
    Ok(text)
}
