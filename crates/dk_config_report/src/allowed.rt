//! What is allowed at the place of a fault.
ghost use Rattle.std.specs.Prelude.{◌≡◌, string_bytes, IfOk};
ghost use Rattle.dk_config.specs.Windows.{ceiling, main_level, period};
ghost use Rattle.dk_faults.specs.Faults.{HasFewRows};
ghost use Rattle.dk_config_report.specs.Allowed.{allowed_at, allowed_from_levels, allowed_from_periods, allowed_text, range_of, rows_of, slowest_of};

use dk_config::{
    Config, ConfigFault, Field, MAX_CHILDREN, MAX_COST, MAX_MEMORY, MAX_MUTEXES, MAX_PROCESSES,
    MAX_SPAN, most_levels,
};
use std::alloc::{AllocError, Global};

/// What is allowed.
#[derive(Clone, Copy)]
pub enum Allowed {
    /// The numbers from the one to the other.
    Range(u32, u32),
    /// Multiples of the period before, from its double on.
    Multiples(u32),
    /// A name or a file name.
    Spelling,
    /// A name that no earlier row has.
    OwnName,
    /// The numbers below this one.
    Below(u32),
    /// This number and greater ones.
    AtLeast(u64),
    /// Processes of this level and slower ones.
    Users(u32),
    /// The numbers from the one on that are below the other.
    Levels(u32, u32),
    /// The last of so many levels.
    Last(u32),
}

fn range_of(field: Field) -> Allowed
    ensures { result ≡ range_of field }
{
    match field {
        Field::Switch => Allowed::Range(0, MAX_COST),
        Field::Call => Allowed::Range(1, MAX_COST),
        Field::Release => Allowed::Range(0, MAX_SPAN),
        Field::Memory => Allowed::Range(0, MAX_MEMORY),
        Field::Threads => Allowed::Range(0, MAX_CHILDREN as u32),
        _ => Allowed::Range(1, MAX_SPAN),
    }
}

fn rows_of(version: u32, field: Field) -> Allowed
    ensures { result ≡ rows_of version field }
{
    match field {
        Field::Level => Allowed::Range(1, most_levels(version) as u32),
        Field::Process => Allowed::Range(1, MAX_PROCESSES as u32),
        _ => Allowed::Range(0, MAX_MUTEXES as u32),
    }
}

fn level_of(config: &Config, process: u32) -> u32
    ensures { result ≡ main_level config.now process }
{
    match config.processes.get(process as usize) {
        Some(row) => row.level,
        None => 0,
    }
}

fn ceiling_of(config: &Config, mutex: u32) -> u32
    ensures { result ≡ ceiling config.now mutex }
{
    match config.mutexes.get(mutex as usize) {
        Some(row) => row.ceiling,
        None => 0,
    }
}

fn period_of(config: &Config, level: u32) -> u32
    ensures { result ≡ period config.now level }
{
    match config.levels.get(level as usize) {
        Some(row) => row.period,
        None => 0,
    }
}

fn slowest_of(config: &Config, process: u32) -> Allowed
    requires few { HasFewRows config.now }
    ensures { result ≡ slowest_of config.now process }
{
    let low = level_of(config, process);
    let levels = config.levels.len() as u32;
    if config.version == 1 && low < levels {
        Allowed::Last(levels)
    } else {
        Allowed::Levels(low, levels)
    }
}

fn allowed_from_levels(config: &Config, fault: ConfigFault) -> Allowed
    requires few { HasFewRows config.now }
    ensures { result ≡ allowed_from_levels config.now fault }
{
    if fault.number == 10 {
        Allowed::Below(config.levels.len() as u32)
    } else if fault.number == 11 {
        Allowed::AtLeast(2 * config.costs.switch as u64 + 1)
    } else if fault.number == 12 {
        Allowed::Users(ceiling_of(config, fault.row))
    } else {
        slowest_of(config, fault.row)
    }
}

fn allowed_from_periods(config: &Config, fault: ConfigFault) -> Allowed
    requires few { HasFewRows config.now }
    ensures { result ≡ allowed_from_periods config.now fault }
{
    if fault.number == 7 {
        Allowed::Multiples(period_of(config, fault.row.saturating_sub(1)))
    } else if fault.number == 8 {
        Allowed::Spelling
    } else if fault.number == 9 {
        Allowed::OwnName
    } else {
        allowed_from_levels(config, fault)
    }
}

/// What is allowed at the place of a fault of C4 to C13.
pub(crate) fn allowed_at(config: &Config, fault: ConfigFault) -> Allowed
    requires few { HasFewRows config.now }
    ensures { result ≡ allowed_at config.now fault }
{
    if fault.number == 4 {
        Allowed::Range(1, 2)
    } else if fault.number == 5 {
        rows_of(config.version, fault.field)
    } else if fault.number == 6 {
        range_of(fault.field)
    } else {
        allowed_from_periods(config, fault)
    }
}

fn multiples_text(alloc: Global, period: u32) -> Result<String, AllocError>
    ensures { IfOk result (λ s. string_bytes s ≡ allowed_text (Allowed.Multiples period)) }
{
    let double = 2 * period as u64;
    format!(in alloc; "multiples of {period} from {double} on are allowed")
}

/// What is allowed, in words.
pub(crate) fn allowed_text(alloc: Global, allowed: Allowed) -> Result<String, AllocError>
    ensures { IfOk result (λ s. string_bytes s ≡ allowed_text allowed) }
{
    match allowed {
        Allowed::Range(low, high) => format!(in alloc; "{low} to {high} are allowed"),
        Allowed::Multiples(period) => multiples_text(alloc, period),
        Allowed::Spelling => String::from_str(
            alloc,
            "a name is 1 to 16 of a to z, 0 to 9 and _ from a letter on, a file 1 to 64 letters, digits and . _ - /",
        ),
        Allowed::OwnName => String::from_str(alloc, "no two rows of a section have one name"),
        Allowed::Below(levels) => format!(in alloc; "numbers below {levels} are allowed"),
        Allowed::AtLeast(least) => format!(in alloc; "{least} or more are allowed"),
        Allowed::Users(level) => {
            format!(in alloc;
                "one or more processes of level {level} or slower are allowed, each once"
            )
        }
        Allowed::Levels(low, levels) => {
            format!(in alloc; "from {low} on numbers below {levels} are allowed")
        }
        Allowed::Last(_) => String::from_str(alloc, "in version 1 the last level alone is allowed"),
    }
}
