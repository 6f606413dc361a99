//! The whole page.
ghost use Rattle.std.specs.Prelude.{◌≡◌, ◌++◌, IfOk, OnOk};
ghost use Rattle.dk_page.specs.Pages.{faults_text, faulty, page_text};

use crate::findings::add_findings;
use crate::outputs::add_bottom;
use crate::template::{ENDING, FAULTS, FAULTS_TILE, INPUTS, OUTPUTS, TABLE_END, TEXT_END};
use crate::told::{Additions, Told};
use crate::top::{add_title, add_top};
use dk_html::{Part, add_parts};
use std::alloc::{AllocError, Global};

fn add_page(
    alloc: Global,
    out: &mut Vec<u8>,
    name: &[u8],
    document: &[u8],
    told: &Told,
    added: &Additions,
) -> Result<(), AllocError>
    ensures { OnOk result (out.new.items ≡ out.old.items ++ page_text name.now document.now told.now added.now) }
{
    add_top(alloc, out, name, document, told, added)?;
    add_findings(alloc, out, document, told, added)?;
    add_bottom(alloc, out, name, told, added)?;
    Ok(())
}

/// The page of a configuration, certified or not, with what a ledger adds. The name is that of its file as it was given, and
/// the document what the file holds. `Err` is want of memory.
pub fn page(
    alloc: Global,
    name: &str,
    document: &[u8],
    told: &Told,
    added: &Additions,
) -> Result<Vec<u8>, AllocError>
    ensures { IfOk result (λ v. v.items ≡ page_text name.now document.now told.now added.now) }
{
    let mut out = Vec::new(alloc);
    add_page(alloc, &mut out, name.as_bytes(), document, told, added)?;
    Ok(out)
}

fn add_faults<'x>(
    alloc: Global,
    out: &mut Vec<u8>,
    name: &'x [u8],
    document: &'x [u8],
    faults: &'x [u8],
) -> Result<(), AllocError>
    ensures { OnOk result (out.new.items ≡ out.old.items ++ faulty name.now document.now faults.now) }
{
    let parts = [
        Part::Words(FAULTS_TILE),
        Part::Words(INPUTS),
        Part::File {
            what: "configuration",
            name,
            bytes: document,
        },
        Part::Words(TABLE_END),
        Part::Words(FAULTS),
        Part::Text(faults),
        Part::Words(TEXT_END),
        Part::Words(OUTPUTS),
        Part::Output {
            command: "deosk-show faults ",
            name,
            text: faults,
        },
        Part::Words(ENDING),
    ];
    add_parts(alloc, out, &parts)
}

/// The page of a document that isn't that of a configuration: what `faults` tells of it in place of all else. `Err` is want
/// of memory.
pub fn faults_page(
    alloc: Global,
    name: &str,
    document: &[u8],
    faults: &[u8],
) -> Result<Vec<u8>, AllocError>
    ensures { IfOk result (λ v. v.items ≡ faults_text name.now document.now faults.now) }
{
    let mut out = Vec::new(alloc);
    add_title(alloc, &mut out, name.as_bytes())?;
    add_faults(alloc, &mut out, name.as_bytes(), document, faults)?;
    Ok(out)
}
