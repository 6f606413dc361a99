//! The keys of a document of needs: how each is spelled, which values it takes, and which tables have it.
ghost use Rattle.std.specs.Prelude.{◌≡◌};
ghost use Rattle.dk_needs.specs.Keys.{key_name, needed_keys, other_keys, section_key, sections, shape_of, top_keys};

use crate::MAX_PERCENT;
use crate::fault::{Key, Section};
use dk_config::{MAX_SPAN, MAX_TICKS};

/// The keys of a row, by what it asks for.
#[derive(Clone, Copy)]
pub enum Form {
    Deadline,
    /// A chain with a reaction time, and maybe an age.
    Chain,
    /// A chain with an age alone.
    Age,
    /// The jitter of a process's begin, and maybe of its end.
    Jitter,
    /// The jitter of a process's end alone.
    DoneJitter,
    /// The jitter of a chain.
    ChainJitter,
    /// Room for a budget.
    Budget,
    /// Room for a hold.
    Hold,
    /// Room for a release.
    Release,
    Growth,
    Spare,
    Slack,
    Always,
    Run,
}

/// The values that a key takes.
#[derive(Clone, Copy)]
pub enum Shape {
    /// A number from the first to the second.
    Number { least: u32, most: u32 },
    /// The name of a need.
    Id,
    /// A name as a configuration has them.
    Name,
    /// 1 to 32 such names.
    Names,
    /// `true`.
    True,
    /// How long a tick is.
    Tick,
    /// At most 256 rows.
    Rows,
}

/// The sections in the order in which they are read.
pub(crate) fn sections() -> &'static [Section]
    ensures { result.now ≡ sections }
{
    &[
        Section::Deadline,
        Section::Chain,
        Section::Jitter,
        Section::Room,
        Section::Growth,
        Section::Spare,
        Section::Slack,
        Section::Always,
        Section::Run,
    ]
}

/// The key as it stands in a document.
pub fn key_name(key: Key) -> &'static str
    ensures { result.now ≡ key_name key }
{
    match key {
        Key::Version => "version",
        Key::Tick => "tick",
        Key::Deadline => "deadline",
        Key::Chain => "chain",
        Key::Jitter => "jitter",
        Key::Room => "room",
        Key::Growth => "growth",
        Key::Spare => "spare",
        Key::Slack => "slack",
        Key::Always => "always",
        Key::Run => "run",
        Key::Id => "id",
        Key::Process => "process",
        Key::Within => "within",
        Key::Each => "each",
        Key::Processes => "processes",
        Key::Reaction => "reaction",
        Key::Age => "age",
        Key::Begins => "begins",
        Key::Done => "done",
        Key::Budget => "budget",
        Key::Mutex => "mutex",
        Key::Hold => "hold",
        Key::Level => "level",
        Key::Release => "release",
        Key::Percent => "percent",
        Key::Ticks => "ticks",
        Key::Waits => "waits",
        Key::Overruns => "overruns",
        Key::Refused => "refused",
        Key::Faults => "faults",
        Key::Forever => "forever",
        Key::Unknown => "unknown",
    }
}

/// The values that the key takes.
pub fn shape_of(key: Key) -> Shape
    ensures { result ≡ shape_of key }
{
    match key {
        Key::Version => Shape::Number { least: 1, most: 1 },
        Key::Tick => Shape::Tick,
        Key::Id => Shape::Id,
        Key::Process | Key::Mutex => Shape::Name,
        Key::Processes => Shape::Names,
        Key::Within | Key::Each | Key::Budget | Key::Hold | Key::Ticks => Shape::Number {
            least: 1,
            most: MAX_SPAN,
        },
        Key::Reaction | Key::Age => Shape::Number {
            least: 1,
            most: MAX_TICKS,
        },
        Key::Level => Shape::Number { least: 0, most: 11 },
        Key::Begins | Key::Done | Key::Release => Shape::Number {
            least: 0,
            most: MAX_SPAN,
        },
        Key::Percent => Shape::Number {
            least: 1,
            most: MAX_PERCENT,
        },
        Key::Waits | Key::Forever => Shape::True,
        Key::Overruns | Key::Refused | Key::Faults => Shape::Number {
            least: 0,
            most: MAX_TICKS,
        },
        _ => Shape::Rows,
    }
}

/// The key of the section's rows.
pub fn section_key(section: Section) -> Key
    ensures { result ≡ section_key section }
{
    match section {
        Section::Deadline => Key::Deadline,
        Section::Chain => Key::Chain,
        Section::Jitter => Key::Jitter,
        Section::Room => Key::Room,
        Section::Growth => Key::Growth,
        Section::Spare => Key::Spare,
        Section::Slack => Key::Slack,
        Section::Always => Key::Always,
        Section::Run => Key::Run,
    }
}

/// The keys that a document may have beside its version.
pub fn top_keys() -> &'static [Key]
    ensures { result.now ≡ top_keys }
{
    &[
        Key::Tick,
        Key::Deadline,
        Key::Chain,
        Key::Jitter,
        Key::Room,
        Key::Growth,
        Key::Spare,
        Key::Slack,
        Key::Always,
        Key::Run,
    ]
}

/// The keys that a row must have.
pub fn needed_keys(form: Form) -> &'static [Key]
    ensures { result.now ≡ needed_keys form }
{
    match form {
        Form::Deadline => &[Key::Id, Key::Process, Key::Within],
        Form::Chain => &[Key::Id, Key::Processes, Key::Reaction],
        Form::Age => &[Key::Id, Key::Processes, Key::Age],
        Form::Jitter => &[Key::Id, Key::Process, Key::Begins],
        Form::DoneJitter => &[Key::Id, Key::Process, Key::Done],
        Form::ChainJitter => &[Key::Id, Key::Processes, Key::Reaction],
        Form::Budget => &[Key::Id, Key::Process, Key::Budget],
        Form::Hold => &[Key::Id, Key::Mutex, Key::Hold],
        Form::Release => &[Key::Id, Key::Level, Key::Release],
        Form::Growth => &[Key::Id, Key::Percent],
        Form::Spare => &[Key::Id, Key::Level, Key::Ticks],
        Form::Slack => &[Key::Id, Key::Process, Key::Each],
        Form::Always => &[Key::Id, Key::Process, Key::Waits],
        Form::Run => &[Key::Id],
    }
}

/// The keys that it may have beside these.
pub fn other_keys(form: Form) -> &'static [Key]
    ensures { result.now ≡ other_keys form }
{
    match form {
        Form::Chain => &[Key::Age],
        Form::Jitter => &[Key::Done],
        Form::Slack => &[Key::Within],
        Form::Run => &[Key::Overruns, Key::Refused, Key::Faults, Key::Forever],
        _ => &[],
    }
}
