//! Which processes the names of a chain are.
ghost use Rattle.std.specs.Prelude.{◌≡◌, ◌∷◌, ◌<◌, length, map, option_map, position, IfOk, IfSome};
ghost use Rattle.std.specs.List.{list_all};
ghost use Rattle.std.specs.Str.{bytes_eq};
ghost use Rattle.dk_config.specs.Checked.{IsWithinLimits};
ghost use Rattle.dk_config.specs.declared.rows.ProcessRow.{ProcessRow as Process};
ghost use Rattle.dk_chain.specs.Chain.{AreThere};
ghost use Rattle.dk_chain_report.specs.Finding.{is_known, number_of, processes_named};

use dk_config::{Config, NoMemory, ProcessRow, Text};
use std::alloc::{AllocError, Global};

/// A chain: its first process, and those that follow, by their numbers.
#[derive(Drop)]
pub struct Chain {
    pub first: u32,
    pub rest: Vec<u32>,
}

/// The number of the first row with the name.
fn row_named(rows: &[ProcessRow], name: &str) -> Option<usize>
    ensures found { result ≡ position (λ (row : Process). bytes_eq row.name name.now) rows.now }
    ensures exists { IfSome result (λ p. p < length rows.now) }
{
    rows.iter().position(|row| row.name.as_str() == name)
}

/// Whether the name is that of a process.
fn is_known(config: &Config, name: &str) -> bool
    ensures { result ≡ is_known config.now name.now }
{
    row_named(config.processes.as_slice(), name).is_some()
}

fn all_known(config: &Config, names: &[Text]) -> bool
    ensures { result ≡ list_all (is_known config.now) names.now }
{
    names.iter().all(|name| is_known(config, name.as_str()))
}

/// The number of the process of this name, and 0 where it is that of none.
fn number_of(config: &Config, name: &str) -> u32
    requires limits { IsWithinLimits config.now }
    ensures { result ≡ number_of config.now name.now }
{
    match row_named(config.processes.as_slice(), name) {
        Some(process) => process as u32,
        None => 0,
    }
}

fn numbers_of(alloc: Global, config: &Config, names: &[Text]) -> Result<Vec<u32>, AllocError>
    requires limits { IsWithinLimits config.now }
    ensures { IfOk result (λ chain. chain.items ≡ map (number_of config.now) names.now) }
{
    let mut chain = Vec::new(alloc);
    for name in names {
        chain.push(number_of(config, name.as_str()))?;
    }
    Ok(chain)
}

/// The chain of the processes of these names, where each of them is that of one. `Err` is want of memory.
pub fn find_chain(
    alloc: Global,
    config: &Config,
    first: &str,
    rest: &[Text],
) -> Result<Option<Chain>, NoMemory>
    requires limits { IsWithinLimits config.now }
    ensures found { IfOk result (λ found. option_map (λ chain. chain.first ∷ chain.rest.items) found
        ≡ processes_named config.now (first.now ∷ rest.now)) }
    ensures exist { IfOk result (λ found. IfSome found (λ chain. AreThere config.now (chain.first ∷ chain.rest.items))) }
    ensures all { IfOk result (λ found. IfSome found (λ chain. length chain.rest.items ≡ length rest.now)) }
{
    if !(is_known(config, first) && all_known(config, rest)) {
        return Ok(None);
    }
    Ok(Some(Chain {
        first: number_of(config, first),
        rest: numbers_of(alloc, config, rest)?,
    }))
}
