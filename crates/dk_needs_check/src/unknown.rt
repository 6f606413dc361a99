//! What needs tell of that the configuration hasn't got.
ghost use Rattle.std.specs.Prelude.{◌≡◌, ◌++◌, is_some, IfOk, OnOk};
ghost use Rattle.dk_config.specs.Checked.{IsWithinLimits};
ghost use Rattle.dk_chain_report.specs.Finding.{is_known};
ghost use Rattle.dk_needs_check.specs.Meaning.{level_numbered, mutex_named};
ghost use Rattle.dk_needs_check.specs.Unknown.{unknown_in, unknown_in_chain, unknown_of, unless};

use crate::Row;
use crate::finding::{level_numbered, mutex_named, process_named};
use dk_config::{Config, NoMemory, Text};
use dk_needs::{Key, Need, What};
use std::alloc::{AllocError, Global};

/// A name, or a number of a level, that the configuration hasn't got.
#[derive(Clone, Copy)]
pub struct Unknown {
    /// The number of the need in the order in which needs are read.
    pub need: usize,
    pub key: Key,
    /// Of a chain the place of the name in it; else 0.
    pub place: usize,
}

/// What comes of needs.
#[derive(Drop)]
pub enum Checking {
    /// All that the configuration hasn't got. Nothing was decided.
    Unknown(Vec<Unknown>),
    Decided(Vec<Row>),
}

fn add_unless(
    found: &mut Vec<Unknown>,
    known: bool,
    need: usize,
    key: Key,
    place: usize,
) -> Result<(), AllocError>
    ensures { OnOk result (found.new.items ≡ found.old.items ++ unless known need key place) }
{
    if !known {
        found.push(Unknown { need, key, place })?;
    }
    Ok(())
}

fn is_process(config: &Config, name: &str) -> bool
    requires { IsWithinLimits config.now }
    ensures { result ≡ is_known config.now name.now }
{
    process_named(config, name).is_some()
}

fn is_mutex(config: &Config, name: &str) -> bool
    requires { IsWithinLimits config.now }
    ensures { result ≡ is_some (mutex_named config.now name.now) }
{
    mutex_named(config, name).is_some()
}

fn is_level(config: &Config, level: u32) -> bool
    ensures { result ≡ is_some (level_numbered config.now level) }
{
    level_numbered(config, level).is_some()
}

fn add_chain(
    found: &mut Vec<Unknown>,
    config: &Config,
    need: usize,
    names: &[Text],
) -> Result<(), AllocError>
    requires { IsWithinLimits config.now }
    ensures { OnOk result (found.new.items ≡ found.old.items ++ unknown_in_chain config.now need names.now) }
{
    for (place, name) in names.iter().enumerate() {
        add_unless(
            found,
            is_process(config, name.as_str()),
            need,
            Key::Processes,
            place,
        )?;
    }
    Ok(())
}

fn add_process(
    found: &mut Vec<Unknown>,
    config: &Config,
    need: usize,
    name: &str,
) -> Result<(), AllocError>
    requires { IsWithinLimits config.now }
    ensures { OnOk result (found.new.items ≡ found.old.items ++ unless (is_known config.now name.now) need Key.Process 0) }
{
    add_unless(found, is_process(config, name), need, Key::Process, 0)
}

fn add_level(
    found: &mut Vec<Unknown>,
    config: &Config,
    need: usize,
    level: u32,
) -> Result<(), AllocError>
    ensures { OnOk result (found.new.items
        ≡ found.old.items ++ unless (is_some (level_numbered config.now level)) need Key.Level 0) }
{
    add_unless(found, is_level(config, level), need, Key::Level, 0)
}

fn add_unknown(
    found: &mut Vec<Unknown>,
    config: &Config,
    need: usize,
    what: &What,
) -> Result<(), AllocError>
    requires { IsWithinLimits config.now }
    ensures { OnOk result (found.new.items ≡ found.old.items ++ unknown_in config.now need what.now) }
{
    match what {
        What::Deadline { process, .. } => add_process(found, config, need, process.as_str()),
        What::Chain { processes, .. } => add_chain(found, config, need, processes.as_slice()),
        What::Jitter { process, .. } => add_process(found, config, need, process.as_str()),
        What::ChainJitter { processes, .. } => add_chain(found, config, need, processes.as_slice()),
        What::Budget { process, .. } => add_process(found, config, need, process.as_str()),
        What::Hold { mutex, .. } => {
            add_unless(found, is_mutex(config, mutex.as_str()), need, Key::Mutex, 0)
        }
        What::Release { level, .. } => add_level(found, config, need, *level),
        What::Spare { level, .. } => add_level(found, config, need, *level),
        What::Slack { process, .. } => add_process(found, config, need, process.as_str()),
        What::Always { process } => add_process(found, config, need, process.as_str()),
        _ => Ok(()),
    }
}

/// All that the configuration hasn't got.
pub(crate) fn unknown_of(
    alloc: Global,
    config: &Config,
    needs: &[Need],
) -> Result<Vec<Unknown>, AllocError>
    requires { IsWithinLimits config.now }
    ensures { IfOk result (λ found. found.items ≡ unknown_of config.now needs.now) }
{
    let mut found = Vec::new(alloc);
    for (i, need) in needs.iter().enumerate() {
        add_unknown(&mut found, config, i, &need.what)?;
    }
    Ok(found)
}
