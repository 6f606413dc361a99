//! The keys that the sections of a document have.

// The keys of a section.
ghost use Rattle.std.specs.Prelude.{◌≡◌};
ghost use Rattle.dk_loader.specs.Keys.{key_name, key_fields, needed_fields};

use dk_config::{Field, Section};

/// The key as it stands in a document.
pub fn key_name(field: Field) -> &'static str
    ensures { result.now ≡ key_name field }
{
    match field {
        Field::Version => "version",
        Field::Costs => "costs",
        Field::Level => "level",
        Field::Process => "process",
        Field::Mutex => "mutex",
        Field::Switch => "switch",
        Field::Call => "call",
        Field::Period => "period",
        Field::Release => "release",
        Field::Name => "name",
        Field::Program => "program",
        Field::Budget => "budget",
        Field::Memory => "memory",
        Field::Threads => "threads",
        Field::Slack => "slack",
        Field::MaxLevel => "max_level",
        Field::Ceiling => "ceiling",
        Field::Hold => "hold",
        Field::Users => "users",
        Field::Unknown => "",
    }
}

/// By whose keys a document is read: those of version 2 where that is its version, else those of version 1.
#[derive(Clone, Copy)]
pub enum Version {
    One,
    Two,
}

/// The keys that a section may have.
pub fn key_fields(section: Section, version: Version) -> &'static [Field]
    ensures { result.now ≡ key_fields section version }
{
    match section {
        Section::Top => &[
            Field::Version,
            Field::Costs,
            Field::Level,
            Field::Process,
            Field::Mutex,
        ],
        Section::Costs => &[Field::Switch, Field::Call],
        Section::Level => &[Field::Period, Field::Release],
        Section::Process => process_fields(version),
        Section::Mutex => &[Field::Name, Field::Ceiling, Field::Hold, Field::Users],
    }
}

fn process_fields(version: Version) -> &'static [Field]
    ensures { result.now ≡ key_fields Section.Process version }
{
    match version {
        Version::One => &[
            Field::Name,
            Field::Program,
            Field::Level,
            Field::Budget,
            Field::Memory,
            Field::Threads,
            Field::Slack,
        ],
        Version::Two => &[
            Field::Name,
            Field::Program,
            Field::Level,
            Field::Budget,
            Field::Memory,
            Field::Threads,
            Field::Slack,
            Field::MaxLevel,
        ],
    }
}

/// The keys that a section must have.
pub fn needed_fields(section: Section) -> &'static [Field]
    ensures { result.now ≡ needed_fields section }
{
    match section {
        Section::Top => &[Field::Version, Field::Level, Field::Process],
        Section::Costs => &[],
        Section::Level => &[Field::Period],
        Section::Process => &[Field::Name, Field::Program, Field::Level, Field::Budget],
        Section::Mutex => &[Field::Name, Field::Ceiling, Field::Hold, Field::Users],
    }
}
