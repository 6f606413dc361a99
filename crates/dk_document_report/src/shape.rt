//! The lines of C1 to C3.
ghost use Rattle.std.specs.Prelude.{◌≡◌, ◌≤◌, ◌++◌, IfOk, OnOk, Some, length, nat_lt, string_bytes};
ghost use Rattle.toml.specs.View.{table_view};
ghost use Rattle.dk_config.specs.declared.TheConstants.{MAX_CONFIG_BYTES};
ghost use Rattle.dk_config_report.specs.FaultLines.{count_line};
ghost use Rattle.dk_config_report.specs.Pages.{AddsLines};
ghost use Rattle.dk_loader.specs.Reading.{document};
ghost use Rattle.dk_loader.specs.ShapeFaults.{shape_faults};
ghost use Rattle.dk_document_report.specs.Expressions.{AreEnds};
ghost use Rattle.dk_document_report.specs.Telling.{IsLineAt, IsShapeText, IsTextOf, IsToldLine};

use crate::findings::{Finding, findings};
use crate::marks::ends_of_expressions;
use crate::places::place_of;
use crate::reading::table_of;
use crate::reasons::told_text;
use dk_config::{ConfigFault, NoMemory};
use dk_config_report::{Page, push_line};
use dk_loader::shape_faults;
use std::alloc::{AllocError, Global};
use toml::Table;

/// Of so many things that are wrong the place is told.
const MOST_PLACES: usize = 100;

fn told_line(
    alloc: Global,
    bytes: &[u8],
    table: &Table,
    ends: &[usize],
    asked: bool,
    told: &Finding,
) -> Result<String, NoMemory>
    requires few { length bytes.now ≤ MAX_CONFIG_BYTES }
    requires read { document bytes.now ≡ Some (table_view table.now) }
    requires ends { AreEnds bytes.now ends.now }
    ensures { IfOk result (λ s. IsToldLine bytes.now (table_view table.now) asked told.now (string_bytes s)) }
{
    let place = place_of(alloc, bytes, table, ends, asked, told)?;
    Ok(told_text(alloc, table, told, place.as_str())?)
}

fn add_lines(
    alloc: Global,
    text: &mut String,
    bytes: &[u8],
    table: &Table,
    ends: &[usize],
    found: &[Finding],
) -> Result<(), NoMemory>
    requires few { length bytes.now ≤ MAX_CONFIG_BYTES }
    requires read { document bytes.now ≡ Some (table_view table.now) }
    requires ends { AreEnds bytes.now ends.now }
    ensures { OnOk result (AddsLines (IsLineAt bytes.now (table_view table.now) found.now) (length found.now) (string_bytes text.old) (string_bytes text.new)) }
{
    for (i, told) in found.iter().enumerate() {
        let line = told_line(alloc, bytes, table, ends, i < MOST_PLACES, told)?;
        push_line(text, line)?;
    }
    Ok(())
}

fn count_line(alloc: Global, count: usize) -> Result<String, AllocError>
    ensures { IfOk result (λ s. string_bytes s ≡ count_line count) }
{
    format!(in alloc; "faults {count}\n")
}

/// The text of these things that are wrong.
fn lines_of(alloc: Global, bytes: &[u8], table: &Table, found: &[Finding]) -> Result<Page, NoMemory>
    requires few { length bytes.now ≤ MAX_CONFIG_BYTES }
    requires read { document bytes.now ≡ Some (table_view table.now) }
    ensures { IfOk result (λ page. IsTextOf bytes.now (table_view table.now) found.now page) }
{
    let ends = ends_of_expressions(alloc, bytes)?;
    let mut text = String::new(alloc);
    add_lines(alloc, &mut text, bytes, table, ends.as_slice(), found)?;
    push_line(&mut text, count_line(alloc, found.len())?)?;
    Ok(Page::new(text))
}

fn shape_text(
    alloc: Global,
    bytes: &[u8],
    table: &Table,
    faults: &[ConfigFault],
) -> Result<Page, NoMemory>
    requires few { length bytes.now ≤ MAX_CONFIG_BYTES }
    requires read { document bytes.now ≡ Some (table_view table.now) }
    requires faults { faults.now ≡ shape_faults bytes.now }
    ensures { IfOk result (λ page. IsShapeText bytes.now page) }
{
    let found = findings(alloc, table, faults)?;
    let page = lines_of(alloc, bytes, table, found.as_slice())?;
    Ok(page)
}

/// A line for each thing that is wrong with the keys and kinds of the document, in the order of the tests, and how many
/// they are.
pub(crate) fn shape_page(alloc: Global, bytes: &[u8]) -> Result<Page, NoMemory>
    requires few { length bytes.now ≤ MAX_CONFIG_BYTES }
    ensures { IfOk result (λ page. IsShapeText bytes.now page) }
{
    let Ok(faults) = shape_faults(alloc, bytes) else {
        return Err(NoMemory);
    };
    match table_of(alloc, bytes)? {
        Some(table) => shape_text(alloc, bytes, &table, faults.as_slice()),
        // The reader has just taken it.
        None => Err(NoMemory),
    }
}
