//! Which needs a configuration meets.
ghost use Rattle.std.specs.Prelude.{◌≡◌, ◌≢◌, ◌≤◌, All, Err, false, IfErr, IfOk, length, option_map, Some};
ghost use Rattle.dk_config.specs.declared.TheConstants.{MAX_CONFIG_BYTES};
ghost use Rattle.dk_needs.specs.Reading.{reading};
ghost use Rattle.dk_needs.specs.Fit.{IsFit};
ghost use Rattle.dk_needs_text.specs.Names.{AreNamed};
ghost use Rattle.dk_show.specs.Answers.{IsEnd, is_silent, refusal_status, refusal_text};
ghost use Rattle.dk_show.specs.Needed.{AreRowsTold, AreUnknownTold, IsCertified, IsFound, IsLaidOut, IsNoDocument, IsOfAll, IsOfBadLedger, IsOfNeeds, IsPageOf, IsReadyOf, IsRefused, IsTold, check_end, needs_told};
ghost use Rattle.dk_show.specs.Works.{ComesTo, IsMade, IsWhole};

use crate::checks::{Layout, Ready};
use crate::work::Work;
use crate::{Refusal, Status};
use dk_config::{Config, NoMemory, Text};
use dk_config_report::Page;
use dk_needs::{Faults, Needs, NeedsError, read_needs};
use dk_needs_always::decide_always;
use dk_needs_check::{Checking, Row, Unknown, are_met, check_needs};
use dk_needs_report::{needs_faults_page, needs_not_toml_page};
use dk_needs_run::{RunFault, check_needs_of_run};
use dk_needs_text::{needs_csv, needs_junit, needs_text, process_names, unknown_page};
use dk_show_request::CheckForm;
use std::alloc::Global;

/// How the call ends.
fn check_end(met: bool) -> Status
    ensures is { result ≡ check_end met }
    ensures ends { IsEnd result }
{
    if met { Status::Done } else { Status::Refused }
}

/// The rows in this form.
fn page_of(
    alloc: Global,
    form: CheckForm,
    names: &[Text],
    needs: &Needs,
    rows: &[Row],
) -> Result<Page, NoMemory>
    requires fit { All IsFit needs.now.rows }
    requires named { AreNamed names.now }
    ensures { IfOk result (λ page. page ≡ needs_told form names.now needs.now rows.now) }
{
    match form {
        CheckForm::Plain => needs_text(alloc, names, needs, rows),
        CheckForm::Csv => needs_csv(alloc, names, needs, rows),
        CheckForm::Junit => needs_junit(alloc, names, needs, rows),
    }
}

/// What is told of rows.
fn of_rows(
    alloc: Global,
    form: CheckForm,
    names: &[Text],
    needs: &Needs,
    rows: &[Row],
) -> Result<Work, Refusal>
    requires fit { All IsFit needs.now.rows }
    requires named { AreNamed names.now }
    ensures comes { ComesTo (IsPageOf form names.now needs.now rows.now) result }
    ensures made { IsMade IsWhole result }
{
    let page = page_of(alloc, form, names, needs, rows)?;
    Ok(Work::Page(page, check_end(are_met(rows))))
}

/// What is told of rows, with those of all time decided where the programs are there.
fn of_decided(
    alloc: Global,
    form: CheckForm,
    layout: Layout,
    needs: &Needs,
    before: &[Row],
) -> Result<Work, Refusal>
    requires laid { IsLaidOut layout }
    requires fit { All IsFit needs.now.rows }
    ensures comes { ComesTo (AreRowsTold form layout needs.now before.now) result }
    ensures made { IsMade IsWhole result }
{
    match layout {
        Layout::Alone(config) => {
            let names = process_names(alloc, &config)?;
            of_rows(alloc, form, names.as_slice(), needs, before)
        }
        Layout::Running(loaded) => {
            let names = process_names(alloc, &loaded.config)?;
            let rows = decide_always(alloc, loaded, needs, before)?;
            of_rows(alloc, form, names.as_slice(), needs, rows.as_slice())
        }
    }
}

/// All that the configuration hasn't got.
fn of_unknown(alloc: Global, needs: &Needs, found: &[Unknown]) -> Result<Work, Refusal>
    ensures comes { ComesTo (AreUnknownTold needs.now found.now) result }
    ensures made { IsMade IsWhole result }
{
    let page = unknown_page(alloc, needs, found)?;
    Ok(Work::Page(page, Status::Config))
}

/// What was found.
fn of_found(
    alloc: Global,
    form: CheckForm,
    layout: Layout,
    needs: &Needs,
    found: &Checking,
) -> Result<Work, Refusal>
    requires laid { IsLaidOut layout }
    requires fit { All IsFit needs.now.rows }
    ensures comes { ComesTo (IsTold form layout needs.now found.now) result }
    ensures made { IsMade IsWhole result }
{
    match found {
        Checking::Unknown(unknown) => of_unknown(alloc, needs, unknown.as_slice()),
        Checking::Decided(rows) => of_decided(alloc, form, layout, needs, rows.as_slice()),
    }
}

/// What a ledger in these bytes has found.
fn found_in(
    alloc: Global,
    config: &Config,
    needs: &Needs,
    ledger: &[u8],
) -> Result<Checking, Refusal>
    requires certified { IsCertified config.now }
    requires fit { All IsFit needs.now.rows }
    ensures found { IfOk result (IsFound config.now (Some ledger.now) needs.now.rows) }
    ensures bad { IfErr result (λ e. is_silent e ≡ false
        → IsOfBadLedger config.now (Some ledger.now) (refusal_text e) (refusal_status e)) }
    ensures read { IfErr result (λ e. e ≢ Refusal.Depot) }
{
    match check_needs_of_run(alloc, config, needs, ledger) {
        Ok(found) => Ok(found),
        Err(RunFault::Line(line)) => Err(Refusal::LedgerLine(line)),
        Err(RunFault::Other) => Err(Refusal::OtherLedger),
        Err(RunFault::NoMemory) => Err(Refusal::NoMemory),
    }
}

/// What is found with the ledger in these bytes, or without one.
fn found_of(
    alloc: Global,
    config: &Config,
    needs: &Needs,
    ledger: Option<&[u8]>,
) -> Result<Checking, Refusal>
    requires certified { IsCertified config.now }
    requires fit { All IsFit needs.now.rows }
    ensures found { IfOk result (IsFound config.now (option_map (λ l. l.now) ledger.entry) needs.now.rows) }
    ensures bad { IfErr result (λ e. is_silent e ≡ false
        → IsOfBadLedger config.now (option_map (λ l. l.now) ledger.entry) (refusal_text e) (refusal_status e)) }
    ensures read { IfErr result (λ e. e ≢ Refusal.Depot) }
{
    match ledger {
        Some(bytes) => found_in(alloc, config, needs, bytes),
        None => Ok(check_needs(alloc, config, needs)?),
    }
}

impl Layout {
    ghost use Rattle.dk_show.specs.Needed.{IsCertified, IsLaidOut, config_of};

    /// The configuration.
    fn config(&self) -> &Config
        requires { IsLaidOut self.now }
        ensures is { result.now ≡ config_of self.now }
        ensures certified { IsCertified result.now }
    {
        match self {
            Layout::Alone(config) => config,
            Layout::Running(loaded) => &loaded.config,
        }
    }
}

/// Which of these needs are met, and by a ledger where there is one.
fn of_needs(
    alloc: Global,
    form: CheckForm,
    layout: Layout,
    needs: &Needs,
    ledger: Option<&[u8]>,
) -> Result<Work, Refusal>
    requires laid { IsLaidOut layout }
    requires fit { All IsFit needs.now.rows }
    ensures comes { ComesTo (IsOfAll form layout (option_map (λ l. l.now) ledger.entry) needs.now) result }
    ensures made { IsMade IsWhole result }
{
    let found = found_of(alloc, layout.config(), needs, ledger)?;
    of_found(alloc, form, layout, needs, &found)
}

/// All that is wrong with the document of needs in these bytes.
fn of_faults(alloc: Global, bytes: &[u8], faults: &Faults) -> Result<Work, Refusal>
    requires few { length bytes.now ≤ MAX_CONFIG_BYTES }
    requires refused { reading bytes.now ≡ Err (NeedsError.Refused faults.now) }
    ensures comes { ComesTo (IsRefused bytes.now faults.now) result }
    ensures made { IsMade IsWhole result }
{
    let page = needs_faults_page(alloc, bytes, faults.as_slice())?;
    Ok(Work::Page(page, Status::Config))
}

/// Why these bytes are no document.
fn of_no_document(alloc: Global, bytes: &[u8]) -> Result<Work, Refusal>
    requires few { length bytes.now ≤ MAX_CONFIG_BYTES }
    requires refused { reading bytes.now ≡ Err NeedsError.NotToml }
    ensures comes { ComesTo (IsNoDocument bytes.now) result }
    ensures made { IsMade IsWhole result }
{
    let page = needs_not_toml_page(alloc, bytes)?;
    Ok(Work::Page(page, Status::Config))
}

/// Which needs in these bytes are met, and by a ledger where there is one.
fn of_bytes(
    alloc: Global,
    form: CheckForm,
    layout: Layout,
    bytes: &[u8],
    ledger: Option<&[u8]>,
) -> Result<Work, Refusal>
    requires laid { IsLaidOut layout }
    requires few { length bytes.now ≤ MAX_CONFIG_BYTES }
    ensures comes { ComesTo (IsOfNeeds form layout (option_map (λ l. l.now) ledger.entry) bytes.now) result }
    ensures made { IsMade IsWhole result }
{
    match read_needs(alloc, bytes) {
        Ok(needs) => of_needs(alloc, form, layout, &needs, ledger),
        Err(NeedsError::NotToml) => of_no_document(alloc, bytes),
        Err(NeedsError::Refused(faults)) => of_faults(alloc, bytes, &faults),
        Err(NeedsError::NoMemory) => Err(Refusal::NoMemory),
    }
}

/// Which needs are met, and by the ledger in these bytes where there is one.
pub(crate) fn of_ready(
    alloc: Global,
    form: CheckForm,
    ready: Ready,
    ledger: Option<&[u8]>,
) -> Result<Work, Refusal>
    requires { IsReadyOf ready }
    ensures comes { ComesTo (IsOfNeeds form ready.layout (option_map (λ l. l.now) ledger.entry) ready.needs) result }
    ensures made { IsMade IsWhole result }
{
    let Ready { layout, needs } = ready;
    of_bytes(alloc, form, layout, needs.as_slice(), ledger)
}
