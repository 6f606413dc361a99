//! The sections of what is found of a configuration.
ghost use Rattle.std.specs.Prelude.{◌≡◌, ◌++◌, OnOk};
ghost use Rattle.dk_page.specs.Pages.{by_when, certification, certification_head, configuration, findings_text, room, timings};

use crate::template::{
    BY_WHEN, BY_WHEN_END, CERTIFIED, COLUMNS_END, DOCUMENT, LEVELS_END, NOT_BY_WHEN, ROOM,
    ROOM_END, TABLE_END, TEXT_END, UNCERTIFIED, WARNINGS,
};
use crate::told::{Additions, Certification, Told};
use crate::top::{add_made, add_words};
use dk_html::{Part, add_parts};
use std::alloc::{AllocError, Global};

fn add_configuration(alloc: Global, out: &mut Vec<u8>, document: &[u8]) -> Result<(), AllocError>
    ensures { OnOk result (out.new.items ≡ out.old.items ++ configuration document.now) }
{
    let parts = [
        Part::Words(DOCUMENT),
        Part::Text(document),
        Part::Words(TEXT_END),
    ];
    add_parts(alloc, out, &parts)
}

fn certification_head(certification: &Certification) -> &'static str
    ensures { result.now ≡ certification_head certification.now }
{
    match certification {
        Certification::Certified { .. } => CERTIFIED,
        Certification::Failing { .. } => UNCERTIFIED,
    }
}

fn add_certification<'x>(
    alloc: Global,
    out: &mut Vec<u8>,
    head: &'x str,
    table: &'x [u8],
    matrix: &'x [u8],
) -> Result<(), AllocError>
    ensures { OnOk result (out.new.items ≡ out.old.items ++ certification head.now table.now matrix.now) }
{
    let parts = [
        Part::Words(head),
        Part::Rows(table),
        Part::Words(LEVELS_END),
        Part::Columns(matrix),
        Part::Words(COLUMNS_END),
        Part::Rows(matrix),
        Part::Words(TABLE_END),
    ];
    add_parts(alloc, out, &parts)
}

fn add_timings(alloc: Global, out: &mut Vec<u8>, table: &[u8]) -> Result<(), AllocError>
    ensures { OnOk result (out.new.items ≡ out.old.items ++ timings table.now) }
{
    let parts = [
        Part::Words(BY_WHEN),
        Part::Rows(table),
        Part::Words(BY_WHEN_END),
    ];
    add_parts(alloc, out, &parts)
}

fn add_by_when(
    alloc: Global,
    out: &mut Vec<u8>,
    certification: &Certification,
) -> Result<(), AllocError>
    ensures { OnOk result (out.new.items ≡ out.old.items ++ by_when certification.now) }
{
    match certification {
        Certification::Certified { table, .. } => add_timings(alloc, out, table.as_slice()),
        Certification::Failing { .. } => add_words(out, NOT_BY_WHEN),
    }
}

fn add_room<'x>(
    alloc: Global,
    out: &mut Vec<u8>,
    table: &'x [u8],
    warnings: &'x [u8],
) -> Result<(), AllocError>
    ensures { OnOk result (out.new.items ≡ out.old.items ++ room table.now warnings.now) }
{
    let parts = [
        Part::Words(ROOM),
        Part::Rows(table),
        Part::Words(ROOM_END),
        Part::Words(WARNINGS),
        Part::Text(warnings),
        Part::Words(TEXT_END),
    ];
    add_parts(alloc, out, &parts)
}

/// Adds the sections, and those of a ledger behind them.
pub(crate) fn add_findings(
    alloc: Global,
    out: &mut Vec<u8>,
    document: &[u8],
    told: &Told,
    added: &Additions,
) -> Result<(), AllocError>
    ensures { OnOk result (out.new.items ≡ out.old.items ++ findings_text document.now told.now added.now) }
{
    add_configuration(alloc, out, document)?;
    let head = certification_head(&told.certification);
    add_certification(
        alloc,
        out,
        head,
        told.certificate_table.as_slice(),
        told.matrix.as_slice(),
    )?;
    add_by_when(alloc, out, &told.certification)?;
    add_room(
        alloc,
        out,
        told.margins_table.as_slice(),
        told.warnings.as_slice(),
    )?;
    add_made(out, added.sections.as_slice())?;
    Ok(())
}
