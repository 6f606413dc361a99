//! The page of a document, of what is needed of it, and of a ledger.
ghost use Rattle.std.specs.Prelude.{◌≡◌, ◌≤◌, IfErr, IfOk, IfSome, Ok, length, option_map};
ghost use Rattle.dk_audit.specs.Lines.{IsFoundIn};
ghost use Rattle.dk_audit.specs.declared.finding.Finding.{Finding as Found};
ghost use Rattle.dk_config.specs.declared.TheConstants.{MAX_CONFIG_BYTES};
ghost use Rattle.dk_config.specs.Checked.{BreaksNoRule, IsAccepted, IsChecked, IsWithinLimits};
ghost use Rattle.dk_loader.specs.Reading.{reading};
ghost use Rattle.dk_review.specs.declared.fault.RunFault.{RunFault as Why};
ghost use Rattle.dk_review.specs.Files.{file_of};
ghost use Rattle.dk_review.specs.Reviews.{IsOfOther, IsRefused, IsReview, IsReviewWith, IsReviewed, IsReviewedAlone, IsReviewedLedger, IsReviewedRun, IsReviewedWith, IsUncertified, needs_ending, run_ending};
ghost use Rattle.dk_review.specs.Runs.{IsFaultOf};

use crate::drawing::Range;
use crate::fault::RunFault;
use crate::file::NamedFile;
use crate::needing::needed_of;
use crate::running::run_of;
use crate::telling::told_of;
use dk_certify::{Verdict, certify};
use dk_config::{Config, MAX_CONFIG_BYTES, NoMemory};
use dk_document_report::document_faults;
use dk_loader::{LoadFault, read_config};
use dk_page::{Additions, Run, Standing, additions, faults_page, page};
use std::alloc::Global;

/// What the review comes to.
#[derive(Clone, Copy)]
pub enum Ending {
    /// And all needs are met, where there are any, and the ledger, where there is one, follows the rules.
    Certified,
    /// A need of a certified configuration isn't met, or the ledger breaks a rule.
    Failing,
    Uncertified,
    /// The document isn't that of a configuration, or that of the needs isn't one of needs of it.
    Refused,
}

/// A whole page, and what the review comes to.
#[derive(Drop)]
pub struct Review {
    pub bytes: Vec<u8>,
    pub ending: Ending,
}

fn needs_ending(standing: Standing) -> Ending
    ensures { result ≡ needs_ending standing }
{
    match standing {
        Standing::Met => Ending::Certified,
        Standing::Unmet => Ending::Failing,
        Standing::Refused => Ending::Refused,
    }
}

fn run_ending(standing: Standing, passed: bool) -> Ending
    ensures { result ≡ run_ending standing passed }
{
    if passed {
        return needs_ending(standing);
    }
    match standing {
        Standing::Met | Standing::Unmet => Ending::Failing,
        Standing::Refused => Ending::Refused,
    }
}

fn of_uncertified(alloc: Global, file: NamedFile, config: &Config) -> Result<Review, NoMemory>
    requires unbroken { BreaksNoRule config.now }
    requires checked { IsChecked config.now }
    requires limits { IsWithinLimits config.now }
    requires short { length file.bytes.now ≤ MAX_CONFIG_BYTES }
    requires read { reading file.bytes.now ≡ Ok config.now }
    ensures { IfOk result (IsUncertified (file_of file.entry) config.now) }
{
    let told = told_of(alloc, config, file.bytes)?;
    let none = Additions::none(alloc);
    let bytes = page(alloc, file.name, file.bytes, &told, &none)?;
    let ending = Ending::Uncertified;
    Ok(Review { bytes, ending })
}

fn of_certified(
    alloc: Global,
    file: NamedFile,
    config: &mut Config,
    needs: Option<NamedFile>,
    more: &Additions,
) -> Result<Review, NoMemory>
    requires unbroken { BreaksNoRule config.old }
    requires checked { IsChecked config.old }
    requires limits { IsWithinLimits config.old }
    requires few { IfSome needs (λ n. length n.bytes.now ≤ MAX_CONFIG_BYTES) }
    requires short { length file.bytes.now ≤ MAX_CONFIG_BYTES }
    requires read { reading file.bytes.now ≡ Ok config.old }
    ensures { IfOk result (IsReviewed (file_of file.entry) (option_map file_of needs.entry) more.now config.old) }
{
    let told = told_of(alloc, config, file.bytes)?;
    let needed = needed_of(alloc, config, file.name, needs)?;
    let ending = needs_ending(needed.standing);
    let added = needed.added.with(more)?;
    let bytes = page(alloc, file.name, file.bytes, &told, &added)?;
    Ok(Review { bytes, ending })
}

fn of_config(
    alloc: Global,
    file: NamedFile,
    config: &mut Config,
    needs: Option<NamedFile>,
    more: &Additions,
) -> Result<Review, NoMemory>
    requires unbroken { BreaksNoRule config.old }
    requires checked { IsChecked config.old }
    requires limits { IsWithinLimits config.old }
    requires few { IfSome needs (λ n. length n.bytes.now ≤ MAX_CONFIG_BYTES) }
    requires short { length file.bytes.now ≤ MAX_CONFIG_BYTES }
    requires read { reading file.bytes.now ≡ Ok config.old }
    ensures { IfOk result (IsReviewedAlone (file_of file.entry) (option_map file_of needs.entry) more.now config.old) }
{
    match certify(config) {
        Verdict::Accepted(_) => of_certified(alloc, file, config, needs, more),
        Verdict::Fails { .. } => of_uncertified(alloc, file, config),
    }
}

fn of_faults(alloc: Global, file: NamedFile) -> Result<Review, NoMemory>
    requires { length file.bytes.now ≤ MAX_CONFIG_BYTES }
    ensures { IfOk result (IsRefused (file_of file.entry)) }
{
    let faults = document_faults(alloc, file.bytes)?;
    let bytes = faults_page(alloc, file.name, file.bytes, faults.as_bytes())?;
    let ending = Ending::Refused;
    Ok(Review { bytes, ending })
}

/// The page of a document of at most 65,536 bytes: of the configuration that it is, certified or not, or of its faults. Of a
/// certified one it has what the needs come to that are in the other file, which holds at most as many bytes, where there
/// is one, and `more` behind that. `Err` is want of memory.
#[tactic(auto, using(crate::proofs::Verdicts::of_config, crate::proofs::Verdicts::of_none))]
pub fn review_of(
    alloc: Global,
    file: NamedFile,
    needs: Option<NamedFile>,
    more: &Additions,
) -> Result<Review, NoMemory>
    requires few { length file.bytes.now ≤ MAX_CONFIG_BYTES }
    requires short { IfSome needs (λ n. length n.bytes.now ≤ MAX_CONFIG_BYTES) }
    ensures { IfOk result (IsReview (file_of file.entry) (option_map file_of needs.entry) more.now) }
{
    match read_config(alloc, file.bytes) {
        Ok(mut config) => of_config(alloc, file, &mut config, needs, more),
        Err(LoadFault::NoMemory) => Err(NoMemory),
        Err(_) => of_faults(alloc, file),
    }
}

/// The page of a certified configuration, of what is needed of it, and of a ledger, of which this is told.
fn page_of(
    alloc: Global,
    file: NamedFile,
    config: &mut Config,
    needs: Option<NamedFile>,
    ledger: NamedFile,
    run: &Run,
    more: &Additions,
) -> Result<Review, NoMemory>
    requires unbroken { BreaksNoRule config.old }
    requires checked { IsChecked config.old }
    requires limits { IsWithinLimits config.old }
    requires few { IfSome needs (λ n. length n.bytes.now ≤ MAX_CONFIG_BYTES) }
    requires short { length file.bytes.now ≤ MAX_CONFIG_BYTES }
    requires read { reading file.bytes.now ≡ Ok config.old }
    ensures { IfOk result (IsReviewedRun (file_of file.entry) (option_map file_of needs.entry) (file_of ledger.entry) run.now more.now
        config.old) }
{
    let told = told_of(alloc, config, file.bytes)?;
    let needed = needed_of(alloc, config, file.name, needs)?;
    let ending = run_ending(needed.standing, run.passed);
    let before = needed.added.with(more)?;
    let last = additions(alloc, file.name, ledger.name, ledger.bytes, run)?;
    let added = before.with(&last)?;
    let bytes = page(alloc, file.name, file.bytes, &told, &added)?;
    Ok(Review { bytes, ending })
}

fn of_run(
    alloc: Global,
    file: NamedFile,
    config: &mut Config,
    needs: Option<NamedFile>,
    ledger: NamedFile,
    range: Option<Range>,
    more: &Additions,
) -> Result<Review, RunFault>
    requires unbroken { BreaksNoRule config.old }
    requires checked { IsChecked config.old }
    requires limits { IsWithinLimits config.old }
    requires accepted { IsAccepted config.old }
    requires few { IfSome needs (λ n. length n.bytes.now ≤ MAX_CONFIG_BYTES) }
    requires short { length file.bytes.now ≤ MAX_CONFIG_BYTES }
    requires read { reading file.bytes.now ≡ Ok config.old }
    ensures is { IfOk result (IsReviewedLedger (file_of file.entry) (option_map file_of needs.entry) (file_of ledger.entry) range more.now
        config.old) }
    ensures fault { IfErr result (IsFaultOf (IsFoundIn config.old ledger.entry.bytes.now Found.Header) range ledger.entry.bytes.now) }
{
    match run_of(alloc, config, ledger.bytes, range) {
        Ok(run) => match page_of(alloc, file, config, needs, ledger, &run, more) {
            Ok(review) => Ok(review),
            Err(_) => Err(RunFault::NoMemory),
        },
        Err(fault) => Err(fault),
    }
}

fn of_both(
    alloc: Global,
    file: NamedFile,
    config: &mut Config,
    needs: Option<NamedFile>,
    ledger: NamedFile,
    range: Option<Range>,
    more: &Additions,
) -> Result<Review, RunFault>
    requires unbroken { BreaksNoRule config.old }
    requires checked { IsChecked config.old }
    requires limits { IsWithinLimits config.old }
    requires few { IfSome needs (λ n. length n.bytes.now ≤ MAX_CONFIG_BYTES) }
    requires short { length file.bytes.now ≤ MAX_CONFIG_BYTES }
    requires read { reading file.bytes.now ≡ Ok config.old }
    ensures is { IfOk result (IsReviewedWith (file_of file.entry) (option_map file_of needs.entry) (file_of ledger.entry) range more.now
        config.old) }
    ensures fault { IfErr result (IsFaultOf (IsFoundIn config.old ledger.entry.bytes.now Found.Header) range ledger.entry.bytes.now) }
{
    match certify(config) {
        Verdict::Accepted(_) => of_run(alloc, file, config, needs, ledger, range, more),
        Verdict::Fails { .. } => match of_uncertified(alloc, file, config) {
            Ok(review) => Ok(review),
            Err(_) => Err(RunFault::NoMemory),
        },
    }
}

fn with_faults(alloc: Global, file: NamedFile) -> Result<Review, RunFault>
    requires { length file.bytes.now ≤ MAX_CONFIG_BYTES }
    ensures is { IfOk result (IsRefused (file_of file.entry)) }
    ensures memory { IfErr result (λ e. e ≡ Why.NoMemory) }
{
    match of_faults(alloc, file) {
        Ok(review) => Ok(review),
        Err(_) => Err(RunFault::NoMemory),
    }
}

/// The page of `review_of`, where the configuration is certified with what is told of the ledger in the last file behind
/// `more`, and the picture of this range, and without one of all of its ticks.
#[tactic(auto, using(crate::proofs::Verdicts::of_config, crate::proofs::Verdicts::of_none, crate::proofs::Faults::of_other, crate::proofs::Faults::of_memory))]
pub fn review_with(
    alloc: Global,
    file: NamedFile,
    needs: Option<NamedFile>,
    ledger: NamedFile,
    range: Option<Range>,
    more: &Additions,
) -> Result<Review, RunFault>
    requires few { length file.bytes.now ≤ MAX_CONFIG_BYTES }
    requires short { IfSome needs (λ n. length n.bytes.now ≤ MAX_CONFIG_BYTES) }
    ensures is { IfOk result (IsReviewWith (file_of file.entry) (option_map file_of needs.entry) (file_of ledger.entry) range more.now) }
    ensures fault { IfErr result (IsFaultOf (IsOfOther file.entry.bytes.now ledger.entry.bytes.now) range ledger.entry.bytes.now) }
{
    match read_config(alloc, file.bytes) {
        Ok(mut config) => of_both(alloc, file, &mut config, needs, ledger, range, more),
        Err(LoadFault::NoMemory) => Err(RunFault::NoMemory),
        Err(_) => with_faults(alloc, file),
    }
}
