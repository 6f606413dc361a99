//! What is told of a document of needs, and of the chains that they name.
ghost use Rattle.std.specs.Prelude.{◌≡◌, ◌≤◌, [], All, Err, IfOk, IfSome, length, option_map};
ghost use Rattle.dk_config.specs.Checked.{BreaksNoRule, IsChecked, IsWithinLimits};
ghost use Rattle.dk_config.specs.declared.TheConstants.{MAX_CONFIG_BYTES};
ghost use Rattle.dk_needs.specs.Fit.{IsFit};
ghost use Rattle.dk_needs.specs.Reading.{reading};
ghost use Rattle.dk_needs.specs.declared.fault.NeedsError.{NeedsError as Why};
ghost use Rattle.dk_needs_text.specs.Unknown.{unknown_page};
ghost use Rattle.dk_review.specs.Chains.{AreChains};
ghost use Rattle.dk_review.specs.Files.{file_of};
ghost use Rattle.dk_review.specs.Needs.{AddsNeeds, AreNeeded, AreNeedsTold, AreRowsTold, IsAlone, IsDecided, IsNoDocument, IsNotDecided, IsRefusedFor, IsTold, asks_programs, is_for_ever, standing_of};

use crate::chains::chains_of;
use crate::file::NamedFile;
use crate::telling::bytes_of;
use dk_config::{Config, NoMemory};
use dk_config_report::Page;
use dk_needs::{Faults, Need, Needs, NeedsError, What, read_needs};
use dk_needs_check::{Checking, Row, Unknown, are_met, check_needs};
use dk_needs_report::{needs_faults_page, needs_not_toml_page};
use dk_needs_text::{needs_csv, needs_text, process_names, unknown_page};
use dk_page::{Additions, ChainTold, Standing, Wants, chains_additions, needs_additions};
use std::alloc::Global;

fn standing_of(met: bool) -> Standing
    ensures { result ≡ standing_of met }
{
    if met { Standing::Met } else { Standing::Unmet }
}

/// Whether it asks what the programs do for ever.
fn is_for_ever(need: &Need) -> bool
    ensures { result ≡ is_for_ever need.now }
{
    match &need.what {
        What::Always { .. } | What::Slack { .. } => true,
        What::Run { forever, .. } => *forever,
        _ => false,
    }
}

fn asks_programs(needs: &[Need]) -> bool
    ensures { result ≡ asks_programs needs.now }
{
    needs.iter().any(is_for_ever)
}

/// What is told of needs that are decided by these rows.
fn of_rows(alloc: Global, config: &Config, needs: &Needs, rows: &[Row]) -> Result<Wants, NoMemory>
    requires limits { IsWithinLimits config.now }
    requires fit { All IsFit needs.now.rows }
    ensures { IfOk result (AreRowsTold config.now needs.now rows.now) }
{
    let names = process_names(alloc, config)?;
    let text = needs_text(alloc, names.as_slice(), needs, rows)?;
    let csv = needs_csv(alloc, names.as_slice(), needs, rows)?;
    let check = bytes_of(alloc, &text)?;
    let table = bytes_of(alloc, &csv)?;
    Ok(Wants {
        check,
        table,
        standing: standing_of(are_met(rows)),
        asks_programs: asks_programs(needs.rows.as_slice()),
    })
}

/// What is told where nothing is decided.
fn not_decided(alloc: Global, page: &Page) -> Result<Wants, NoMemory>
    ensures { IfOk result (IsNotDecided page.now) }
{
    let check = bytes_of(alloc, page)?;
    Ok(Wants {
        check,
        table: Vec::new(alloc),
        standing: Standing::Refused,
        asks_programs: false,
    })
}

/// What is told of a document of needs.
#[derive(Drop)]
pub(crate) struct NeedsTold {
    /// What it comes to.
    pub wants: Wants,
    /// What is told of each chain that the needs name, where they are decided.
    pub chains: Vec<ChainTold>,
}

/// This, without a chain.
fn alone(alloc: Global, wants: Wants) -> NeedsTold
    ensures wants { result.wants ≡ wants }
    ensures chains { result.chains.items ≡ [] }
{
    NeedsTold {
        wants,
        chains: Vec::new(alloc),
    }
}

/// What is told where the configuration hasn't got all that is named.
fn of_unknown(alloc: Global, needs: &Needs, unknown: &[Unknown]) -> Result<NeedsTold, NoMemory>
    ensures { IfOk result (IsAlone (IsNotDecided (unknown_page needs.now.rows unknown.now))) }
{
    let page = unknown_page(alloc, needs, unknown)?;
    let wants = not_decided(alloc, &page)?;
    Ok(alone(alloc, wants))
}

/// What is told of needs that are decided by these rows, and of the chains that they name.
fn of_decided(
    alloc: Global,
    config: &mut Config,
    needs: &Needs,
    rows: &[Row],
) -> Result<NeedsTold, NoMemory>
    requires checked { IsChecked config.old }
    requires limits { IsWithinLimits config.old }
    requires fit { All IsFit needs.now.rows }
    ensures wants { IfOk result (λ t. AreRowsTold config.old needs.now rows.now t.wants) }
    ensures chains { IfOk result (λ t. AreChains config.old needs.now.rows 0 needs.now.rows t.chains.items) }
{
    let wants = of_rows(alloc, config, needs, rows)?;
    let chains = chains_of(alloc, config, needs.rows.as_slice())?;
    Ok(NeedsTold { wants, chains })
}

/// What is told of what was found.
fn of_found(
    alloc: Global,
    config: &mut Config,
    needs: &Needs,
    found: &Checking,
) -> Result<NeedsTold, NoMemory>
    requires checked { IsChecked config.old }
    requires limits { IsWithinLimits config.old }
    requires fit { All IsFit needs.now.rows }
    ensures { IfOk result (IsTold config.old needs.now found.now) }
{
    match found {
        Checking::Unknown(unknown) => of_unknown(alloc, needs, unknown.as_slice()),
        Checking::Decided(rows) => of_decided(alloc, config, needs, rows.as_slice()),
    }
}

/// What is told of needs that were read.
fn of_needs(alloc: Global, config: &mut Config, needs: &Needs) -> Result<NeedsTold, NoMemory>
    requires unbroken { BreaksNoRule config.old }
    requires checked { IsChecked config.old }
    requires limits { IsWithinLimits config.old }
    requires fit { All IsFit needs.now.rows }
    ensures { IfOk result (IsDecided config.old needs.now) }
{
    let found = check_needs(alloc, config, needs)?;
    of_found(alloc, config, needs, &found)
}

/// All that is wrong with the document of needs in these bytes.
fn of_faults(alloc: Global, bytes: &[u8], faults: &Faults) -> Result<NeedsTold, NoMemory>
    requires few { length bytes.now ≤ MAX_CONFIG_BYTES }
    requires refused { reading bytes.now ≡ Err (Why.Refused faults.now) }
    ensures { IfOk result (IsAlone (IsRefusedFor bytes.now faults.now)) }
{
    let page = needs_faults_page(alloc, bytes, faults.as_slice())?;
    let wants = not_decided(alloc, &page)?;
    Ok(alone(alloc, wants))
}

/// Why these bytes are no document.
fn of_no_document(alloc: Global, bytes: &[u8]) -> Result<NeedsTold, NoMemory>
    requires few { length bytes.now ≤ MAX_CONFIG_BYTES }
    requires refused { reading bytes.now ≡ Err Why.NotToml }
    ensures { IfOk result (IsAlone (IsNoDocument bytes.now)) }
{
    let page = needs_not_toml_page(alloc, bytes)?;
    let wants = not_decided(alloc, &page)?;
    Ok(alone(alloc, wants))
}

/// What is told of the needs in these bytes, of which there are at most 65,536. `Err` is want of memory.
pub(crate) fn needs_told(
    alloc: Global,
    config: &mut Config,
    bytes: &[u8],
) -> Result<NeedsTold, NoMemory>
    requires unbroken { BreaksNoRule config.old }
    requires checked { IsChecked config.old }
    requires limits { IsWithinLimits config.old }
    requires few { length bytes.now ≤ MAX_CONFIG_BYTES }
    ensures { IfOk result (AreNeedsTold config.old bytes.now) }
{
    match read_needs(alloc, bytes) {
        Ok(needs) => of_needs(alloc, config, &needs),
        Err(NeedsError::NotToml) => of_no_document(alloc, bytes),
        Err(NeedsError::Refused(faults)) => of_faults(alloc, bytes, &faults),
        Err(NeedsError::NoMemory) => Err(NoMemory),
    }
}

/// What needs add to a page, and how they stand.
#[derive(Drop)]
pub(crate) struct Needed {
    pub added: Additions,
    pub standing: Standing,
}

fn with_needs(
    alloc: Global,
    config: &mut Config,
    name: &str,
    needs: NamedFile,
) -> Result<Needed, NoMemory>
    requires unbroken { BreaksNoRule config.old }
    requires checked { IsChecked config.old }
    requires limits { IsWithinLimits config.old }
    requires few { length needs.bytes.now ≤ MAX_CONFIG_BYTES }
    ensures { IfOk result (λ n. AreNeeded name.now config.old (file_of needs.entry) n.standing n.added) }
{
    let told = needs_told(alloc, config, needs.bytes)?;
    let first = needs_additions(alloc, name, needs.name, needs.bytes, &told.wants)?;
    let chains = chains_additions(alloc, name, told.chains.as_slice())?;
    let added = first.with(&chains)?;
    let standing = told.wants.standing;
    Ok(Needed { added, standing })
}

/// What the needs in that file add to the page of the file of this name; where there is none, nothing.
pub(crate) fn needed_of(
    alloc: Global,
    config: &mut Config,
    name: &str,
    needs: Option<NamedFile>,
) -> Result<Needed, NoMemory>
    requires unbroken { BreaksNoRule config.old }
    requires checked { IsChecked config.old }
    requires limits { IsWithinLimits config.old }
    requires few { IfSome needs (λ n. length n.bytes.now ≤ MAX_CONFIG_BYTES) }
    ensures { IfOk result (λ n. AddsNeeds name.now config.old (option_map file_of needs.entry) n.standing n.added) }
{
    match needs {
        Some(needs) => with_needs(alloc, config, name, needs),
        None => Ok(Needed {
            added: Additions::none(alloc),
            standing: Standing::Met,
        }),
    }
}
