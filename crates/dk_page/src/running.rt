//! What a ledger adds.
ghost use Rattle.std.specs.Prelude.{◌≡◌, ◌++◌, [], ◌∷◌, IfOk, OnOk, codes};
ghost use Rattle.dk_html.specs.Checksums.{file_row};
ghost use Rattle.dk_html.specs.Parts.{joined};
ghost use Rattle.dk_page.specs.Runs.{IsAddedBy, audit_sections, audit_tile, both_names, drawing_text, run_outputs, run_sections, totals_section, undrawn, windows_section};

use crate::template::{
    AUDIT, COLUMNS_END, FAILED_TILE, PASSED_TILE, PICTURE, PICTURE_END, RUN, RUN_END, TENTHS_END,
    TEXT_END, TOTALS, TOTALS_END,
};
use crate::told::Additions;
use dk_html::{Part, add_parts};
use std::alloc::{AllocError, Global};

/// The picture of a ledger.
#[derive(Drop)]
pub enum Drawing {
    /// As `svg` draws it, an element that stands by itself.
    Drawn(Vec<u8>),
    /// There are too many lines; a range up to this tick has as many as fit.
    TooMany(u32),
}

/// What the commands tell of a ledger.
#[derive(Drop)]
pub struct Run {
    /// What `deosk audit` writes of it.
    pub audit: Vec<u8>,
    pub passed: bool,
    pub drawing: Drawing,
    /// What `windows` writes of it as a table.
    pub windows: Vec<u8>,
    /// What `windows --tenths` writes of it.
    pub tenths: Vec<u8>,
    /// What `deosk ledger --report` writes of it: the lines of its header, and its totals.
    pub report: Vec<u8>,
    /// The totals alone.
    pub totals: Vec<u8>,
}

fn tile_of(alloc: Global, passed: bool) -> Result<Vec<u8>, AllocError>
    ensures { IfOk result (λ v. v.items ≡ audit_tile passed) }
{
    let words = if passed { PASSED_TILE } else { FAILED_TILE };
    words.as_bytes().to_vec(alloc)
}

fn add_file<'x>(
    alloc: Global,
    out: &mut Vec<u8>,
    name: &'x [u8],
    bytes: &'x [u8],
) -> Result<(), AllocError>
    ensures { OnOk result (out.new.items ≡ out.old.items ++ joined (file_row (codes "ledger") name.now bytes.now ∷ [])) }
{
    let parts = [Part::File {
        what: "ledger",
        name,
        bytes,
    }];
    add_parts(alloc, out, &parts)
}

fn file_of(alloc: Global, name: &[u8], bytes: &[u8]) -> Result<Vec<u8>, AllocError>
    ensures { IfOk result (λ v. v.items ≡ joined (file_row (codes "ledger") name.now bytes.now ∷ [])) }
{
    let mut out = Vec::new(alloc);
    add_file(alloc, &mut out, name, bytes)?;
    Ok(out)
}

fn add_undrawn(alloc: Global, out: &mut Vec<u8>, tick: u32) -> Result<(), AllocError>
    ensures { OnOk result (out.new.items ≡ out.old.items ++ undrawn tick) }
{
    let parts = [
        Part::Words(
            "<p class=\"note\">There are too many lines for a picture: a range that ends by tick ",
        ),
        Part::Number(tick as u64),
        Part::Words(
            " fits. Choose one for this page, FROM and TO behind the name of the ledger.</p>\n",
        ),
    ];
    add_parts(alloc, out, &parts)
}

fn drawing_of(alloc: Global, drawing: &Drawing) -> Result<Vec<u8>, AllocError>
    ensures { IfOk result (λ v. v.items ≡ drawing_text drawing.now) }
{
    match drawing {
        Drawing::Drawn(picture) => picture.as_slice().to_vec(alloc),
        Drawing::TooMany(tick) => {
            let mut out = Vec::new(alloc);
            add_undrawn(alloc, &mut out, *tick)?;
            Ok(out)
        }
    }
}

fn add_audit<'x>(
    alloc: Global,
    out: &mut Vec<u8>,
    audit: &'x [u8],
    drawing: &'x [u8],
) -> Result<(), AllocError>
    ensures { OnOk result (out.new.items ≡ out.old.items ++ audit_sections audit.now drawing.now) }
{
    let parts = [
        Part::Words(AUDIT),
        Part::Text(audit),
        Part::Words(TEXT_END),
        Part::Words(PICTURE),
        Part::Made(drawing),
        Part::Words(PICTURE_END),
    ];
    add_parts(alloc, out, &parts)
}

fn add_windows<'x>(
    alloc: Global,
    out: &mut Vec<u8>,
    windows: &'x [u8],
    tenths: &'x [u8],
) -> Result<(), AllocError>
    ensures { OnOk result (out.new.items ≡ out.old.items ++ windows_section windows.now tenths.now) }
{
    let parts = [
        Part::Words(RUN),
        Part::Rows(windows),
        Part::Words(RUN_END),
        Part::Columns(tenths),
        Part::Words(COLUMNS_END),
        Part::Rows(tenths),
        Part::Words(TENTHS_END),
    ];
    add_parts(alloc, out, &parts)
}

fn add_totals(alloc: Global, out: &mut Vec<u8>, totals: &[u8]) -> Result<(), AllocError>
    ensures { OnOk result (out.new.items ≡ out.old.items ++ totals_section totals.now) }
{
    let parts = [
        Part::Words(TOTALS),
        Part::Lines(totals),
        Part::Words(TOTALS_END),
    ];
    add_parts(alloc, out, &parts)
}

fn add_sections(
    alloc: Global,
    out: &mut Vec<u8>,
    drawing: &[u8],
    run: &Run,
) -> Result<(), AllocError>
    ensures { OnOk result (out.new.items ≡ out.old.items ++ run_sections run.now.audit.items drawing.now run.now.windows.items
        run.now.tenths.items run.now.totals.items) }
{
    add_audit(alloc, out, run.audit.as_slice(), drawing)?;
    add_windows(alloc, out, run.windows.as_slice(), run.tenths.as_slice())?;
    add_totals(alloc, out, run.totals.as_slice())?;
    Ok(())
}

fn sections_of(alloc: Global, run: &Run) -> Result<Vec<u8>, AllocError>
    ensures { IfOk result (λ v. v.items ≡ run_sections run.now.audit.items (drawing_text run.now.drawing) run.now.windows.items
        run.now.tenths.items run.now.totals.items) }
{
    let drawing = drawing_of(alloc, &run.drawing)?;
    let mut out = Vec::new(alloc);
    add_sections(alloc, &mut out, drawing.as_slice(), run)?;
    Ok(out)
}

pub(crate) fn add_both<'x>(
    alloc: Global,
    out: &mut Vec<u8>,
    file: &'x [u8],
    ledger: &'x [u8],
) -> Result<(), AllocError>
    ensures { OnOk result (out.new.items ≡ out.old.items ++ both_names file.now ledger.now) }
{
    let parts = [Part::Made(file), Part::Words(" "), Part::Made(ledger)];
    add_parts(alloc, out, &parts)
}

fn add_outputs<'x>(
    alloc: Global,
    out: &mut Vec<u8>,
    both: &'x [u8],
    ledger: &'x [u8],
    audit: &'x [u8],
    windows: &'x [u8],
    tenths: &'x [u8],
    report: &'x [u8],
) -> Result<(), AllocError>
    ensures { OnOk result (out.new.items
        ≡ out.old.items ++ run_outputs both.now ledger.now audit.now windows.now tenths.now report.now) }
{
    let parts = [
        Part::Output {
            command: "deosk audit ",
            name: both,
            text: audit,
        },
        Part::Output {
            command: "deosk-show windows --csv ",
            name: ledger,
            text: windows,
        },
        Part::Output {
            command: "deosk-show windows --tenths ",
            name: ledger,
            text: tenths,
        },
        Part::Output {
            command: "deosk ledger --report ",
            name: ledger,
            text: report,
        },
    ];
    add_parts(alloc, out, &parts)
}

fn outputs_of(alloc: Global, file: &[u8], ledger: &[u8], run: &Run) -> Result<Vec<u8>, AllocError>
    ensures { IfOk result (λ v. v.items ≡ run_outputs (both_names file.now ledger.now) ledger.now
        run.now.audit.items run.now.windows.items run.now.tenths.items run.now.report.items) }
{
    let mut both = Vec::new(alloc);
    add_both(alloc, &mut both, file, ledger)?;
    let mut out = Vec::new(alloc);
    add_outputs(
        alloc,
        &mut out,
        both.as_slice(),
        ledger,
        run.audit.as_slice(),
        run.windows.as_slice(),
        run.tenths.as_slice(),
        run.report.as_slice(),
    )?;
    Ok(out)
}

/// What the ledger of this name in these bytes adds to the page of the configuration in that file. `Err` is want of memory.
pub fn additions(
    alloc: Global,
    file: &str,
    ledger: &str,
    bytes: &[u8],
    run: &Run,
) -> Result<Additions, AllocError>
    ensures { IfOk result (IsAddedBy file.now ledger.now bytes.now run.now) }
{
    let tile = tile_of(alloc, run.passed)?;
    let row = file_of(alloc, ledger.as_bytes(), bytes)?;
    let sections = sections_of(alloc, run)?;
    let outputs = outputs_of(alloc, file.as_bytes(), ledger.as_bytes(), run)?;
    Ok(Additions {
        tile,
        file: row,
        sections,
        outputs,
    })
}
