//! The lines of all that is wrong.
ghost use Rattle.std.specs.Prelude.{◌≡◌, ◌≤◌, codes, Err, IfOk, OnOk, Some, length, string_bytes};
ghost use Rattle.toml.specs.View.{table_view};
ghost use Rattle.dk_config.specs.declared.TheConstants.{MAX_CONFIG_BYTES};
ghost use Rattle.dk_config_report.specs.FaultLines.{count_line};
ghost use Rattle.dk_config_report.specs.Pages.{AddsLines};
ghost use Rattle.dk_loader.specs.Reading.{document};
ghost use Rattle.dk_document_report.specs.Expressions.{AreEnds};
ghost use Rattle.dk_document_report.specs.Telling.{IsNotTomlText};
ghost use Rattle.dk_needs.specs.Reading.{reading};
ghost use Rattle.dk_needs.specs.declared.fault.NeedsError.TheVariants.{NotToml, Refused};
ghost use Rattle.dk_needs_report.specs.Telling.{IsFaultsText, IsLineAt, IsTextOf, IsToldLine};

use crate::found::{Finding, findings};
use crate::placing::place_of;
use crate::reasons::told_text;
use dk_config::NoMemory;
use dk_config_report::{Page, push_line};
use dk_document_report::{ends_of_expressions, not_toml, table_of};
use dk_needs::Fault;
use std::alloc::{AllocError, Global};
use toml::Table;

/// Of so many things that are wrong the place is told.
const MOST_PLACES: usize = 100;

fn told_line(
    alloc: Global,
    bytes: &[u8],
    table: &Table,
    ends: &[usize],
    asked: bool,
    told: &Finding,
) -> Result<String, NoMemory>
    requires few { length bytes.now ≤ MAX_CONFIG_BYTES }
    requires read { document bytes.now ≡ Some (table_view table.now) }
    requires ends { AreEnds bytes.now ends.now }
    ensures { IfOk result (λ s. IsToldLine bytes.now (table_view table.now) asked told.now (string_bytes s)) }
{
    let place = place_of(alloc, bytes, table, ends, asked, told)?;
    Ok(told_text(alloc, table, told, place.as_str())?)
}

fn add_lines(
    alloc: Global,
    text: &mut String,
    bytes: &[u8],
    table: &Table,
    ends: &[usize],
    found: &[Finding],
) -> Result<(), NoMemory>
    requires few { length bytes.now ≤ MAX_CONFIG_BYTES }
    requires read { document bytes.now ≡ Some (table_view table.now) }
    requires ends { AreEnds bytes.now ends.now }
    ensures { OnOk result (AddsLines (IsLineAt bytes.now (table_view table.now) found.now) (length found.now) (string_bytes text.old) (string_bytes text.new)) }
{
    for (i, told) in found.iter().enumerate() {
        let line = told_line(alloc, bytes, table, ends, i < MOST_PLACES, told)?;
        push_line(text, line)?;
    }
    Ok(())
}

fn count_line(alloc: Global, count: usize) -> Result<String, AllocError>
    ensures { IfOk result (λ s. string_bytes s ≡ count_line count) }
{
    format!(in alloc; "faults {count}\n")
}

/// The text of these things that are wrong.
fn lines_of(alloc: Global, bytes: &[u8], table: &Table, found: &[Finding]) -> Result<Page, NoMemory>
    requires few { length bytes.now ≤ MAX_CONFIG_BYTES }
    requires read { document bytes.now ≡ Some (table_view table.now) }
    ensures { IfOk result (λ page. IsTextOf bytes.now (table_view table.now) found.now page) }
{
    let ends = ends_of_expressions(alloc, bytes)?;
    let mut text = String::new(alloc);
    add_lines(alloc, &mut text, bytes, table, ends.as_slice(), found)?;
    push_line(&mut text, count_line(alloc, found.len())?)?;
    Ok(Page::new(text))
}

fn faults_text(
    alloc: Global,
    bytes: &[u8],
    table: &Table,
    faults: &[Fault],
) -> Result<Page, NoMemory>
    requires few { length bytes.now ≤ MAX_CONFIG_BYTES }
    requires read { document bytes.now ≡ Some (table_view table.now) }
    ensures { IfOk result (λ page. IsFaultsText bytes.now faults.now page) }
{
    let found = findings(alloc, table, faults)?;
    let page = lines_of(alloc, bytes, table, found.as_slice())?;
    Ok(page)
}

/// What is told of a document of needs of at most 65,536 bytes that is refused for these faults: a line for each thing that
/// is wrong, with its section, the number of its row from 0, its key, the line and the column from 1, and what is wanted
/// there; of keys that are unknown one for each, by its name. Last is how many they are. `Err` is want of memory.
pub fn needs_faults_page(alloc: Global, bytes: &[u8], faults: &[Fault]) -> Result<Page, NoMemory>
    requires few { length bytes.now ≤ MAX_CONFIG_BYTES }
    requires refused { reading bytes.now ≡ Err (Refused faults.now) }
    ensures { IfOk result (λ page. IsFaultsText bytes.now faults.now page) }
{
    match table_of(alloc, bytes)? {
        Some(table) => faults_text(alloc, bytes, &table, faults),
        // The reader has just taken it.
        None => Err(NoMemory),
    }
}

/// What is told of bytes, at most 65,536, that are no document of TOML: the line, the column and the reader's message.
/// `Err` is want of memory.
pub fn needs_not_toml_page(alloc: Global, bytes: &[u8]) -> Result<Page, NoMemory>
    requires few { length bytes.now ≤ MAX_CONFIG_BYTES }
    requires refused { reading bytes.now ≡ Err NotToml }
    ensures { IfOk result (λ page. IsNotTomlText (codes "needs") bytes.now page) }
{
    not_toml(alloc, "needs", bytes)
}
