//! The needs that a document of TOML stands for, or all that is wrong with it.
ghost use Rattle.std.specs.Prelude.{◌≡◌, ◌≢◌, All, Err, IfOk, IfErr, IsErrOf, None, Some};
ghost use Rattle.toml.specs.View.{table_view};
ghost use Rattle.dk_loader.specs.Reading.{document};
ghost use Rattle.dk_needs.specs.Fit.{IsFit};
ghost use Rattle.dk_needs.specs.Reading.{again_faults, answer_of, named_apart, needs_of, reading, reading_of, refusal};

use crate::again::again_faults;
use crate::build::needs_of;
use crate::fault::{Fault, Faults, NeedsError};
use crate::needs::Needs;
use crate::shape::shape_faults;
use std::alloc::{AllocError, Global};
use toml::Table;

/// The table of a document.
#[tactic(auto, unfolding(dk_loader::specs::Reading::document))]
fn table_of(alloc: Global, bytes: &[u8]) -> Result<Table, NeedsError>
    ensures ok { IfOk result (λ t. document bytes.now ≡ Some (table_view t)) }
    ensures not_toml { IsErrOf result NeedsError.NotToml → document bytes.now ≡ None }
    ensures only { IfErr result (λ e. e ≢ NeedsError.NotToml → e ≡ NeedsError.NoMemory) }
{
    match toml::de::table_from_slice(alloc, bytes) {
        Ok(table) => Ok(table),
        Err(e) if e.is_memory() => Err(NeedsError::NoMemory),
        Err(_) => Err(NeedsError::NotToml),
    }
}

/// What was found, if anything was.
fn refusal(found: Vec<Fault>) -> Option<Faults>
    ensures { result ≡ refusal found.items }
{
    if found.as_slice().is_empty() {
        None
    } else {
        Some(Faults::new(found))
    }
}

/// The needs, where nothing was found.
fn answer_of(needs: Needs, found: Vec<Fault>) -> Result<Needs, NeedsError>
    ensures { result ≡ answer_of needs (refusal found.items) }
{
    match refusal(found) {
        Some(faults) => Err(NeedsError::Refused(faults)),
        None => Ok(needs),
    }
}

fn named_again(alloc: Global, needs: &Needs) -> Result<Vec<Fault>, AllocError>
    ensures { IfOk result (λ found. found.items ≡ again_faults needs.now.rows) }
{
    again_faults(alloc, &needs.rows)
}

/// The needs of a document whose tables are as they must be.
fn well_shaped(alloc: Global, table: &Table) -> Result<Needs, NeedsError>
    ensures { result ≢ Err NeedsError.NoMemory
        → result ≡ named_apart (needs_of (table_view table.now)) }
{
    let needs = needs_of(alloc, table)?;
    let found = named_again(alloc, &needs)?;
    answer_of(needs, found)
}

fn read_table(alloc: Global, table: &Table) -> Result<Needs, NeedsError>
    ensures { result ≢ Err NeedsError.NoMemory → result ≡ reading_of (table_view table.now) }
{
    let found = shape_faults(alloc, table)?;
    match refusal(found) {
        Some(faults) => Err(NeedsError::Refused(faults)),
        None => well_shaped(alloc, table),
    }
}

/// The needs that a document of TOML stands for.
///
/// - `NotToml`: the bytes are no document by the definition of `toml`.
/// - `Refused(faults)`: all that is wrong with the document's tables, by section, row and key; and where nothing is, each
///   row of which an earlier one has the name.
/// - `NoMemory`: want of memory.
///
/// The rows come by section, in the order deadline, chain, jitter, room, growth, spare, slack, always and run, and in a
/// section in the order of the document: a document of TOML is read as a table, which has no order of its sections.
#[tactic(auto, unfolding(crate::specs::Reading::reading))]
pub fn read_needs(alloc: Global, bytes: &[u8]) -> Result<Needs, NeedsError>
    ensures reading { result ≢ Err NeedsError.NoMemory → result ≡ reading bytes.now }
    ensures fit { IfOk result (λ needs. All IsFit needs.rows) }
{
    let table = table_of(alloc, bytes)?;
    read_table(alloc, &table)
}
