//! What the commands write, word for word, and the end of the page.
ghost use Rattle.std.specs.Prelude.{◌≡◌, ◌++◌, IfOk, OnOk};
ghost use Rattle.dk_page.specs.Pages.{bottom_text, ending, outputs, when_output, when_shown};

use crate::template::{ENDING, OUTPUTS};
use crate::told::{Additions, Certification, Told};
use dk_html::{Part, add_parts};
use std::alloc::{AllocError, Global};

fn add_when<'x>(
    alloc: Global,
    out: &mut Vec<u8>,
    name: &'x [u8],
    text: &'x [u8],
) -> Result<(), AllocError>
    ensures { OnOk result (out.new.items ≡ out.old.items ++ when_shown name.now text.now) }
{
    let parts = [Part::Output {
        command: "deosk-show when ",
        name,
        text,
    }];
    add_parts(alloc, out, &parts)
}

fn when_output(
    alloc: Global,
    name: &[u8],
    certification: &Certification,
) -> Result<Vec<u8>, AllocError>
    ensures { IfOk result (λ v. v.items ≡ when_output name.now certification.now) }
{
    let mut out = Vec::new(alloc);
    if let Certification::Certified { when, .. } = certification {
        add_when(alloc, &mut out, name, when.as_slice())?;
    }
    Ok(out)
}

fn add_outputs<'x>(
    alloc: Global,
    out: &mut Vec<u8>,
    name: &'x [u8],
    certificate: &'x [u8],
    when: &'x [u8],
    margins: &'x [u8],
    warnings: &'x [u8],
) -> Result<(), AllocError>
    ensures { OnOk result (out.new.items
        ≡ out.old.items ++ outputs name.now certificate.now when.now margins.now warnings.now) }
{
    let parts = [
        Part::Words(OUTPUTS),
        Part::Output {
            command: "deosk-show certify ",
            name,
            text: certificate,
        },
        Part::Made(when),
        Part::Output {
            command: "deosk-show margins ",
            name,
            text: margins,
        },
        Part::Output {
            command: "deosk-show warnings ",
            name,
            text: warnings,
        },
    ];
    add_parts(alloc, out, &parts)
}

fn add_ending(alloc: Global, out: &mut Vec<u8>, added: &[u8]) -> Result<(), AllocError>
    ensures { OnOk result (out.new.items ≡ out.old.items ++ ending added.now) }
{
    let parts = [Part::Made(added), Part::Words(ENDING)];
    add_parts(alloc, out, &parts)
}

/// Adds the outputs, those of a ledger behind them, and the end.
pub(crate) fn add_bottom(
    alloc: Global,
    out: &mut Vec<u8>,
    name: &[u8],
    told: &Told,
    added: &Additions,
) -> Result<(), AllocError>
    ensures { OnOk result (out.new.items ≡ out.old.items ++ bottom_text name.now told.now added.now) }
{
    let when = when_output(alloc, name, &told.certification)?;
    add_outputs(
        alloc,
        out,
        name,
        told.certificate.as_slice(),
        when.as_slice(),
        told.margins.as_slice(),
        told.warnings.as_slice(),
    )?;
    add_ending(alloc, out, added.outputs.as_slice())?;
    Ok(())
}
