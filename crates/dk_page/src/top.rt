//! The title, the verdicts and the files.
ghost use Rattle.std.specs.Prelude.{◌≡◌, ◌++◌, OnOk};
ghost use Rattle.dk_page.specs.Pages.{certification_tile, failing_tile, inputs, title, tone, top_text, warnings_tile};

use crate::template::{CERTIFIED_TILE, HEAD, INPUTS, STYLE, TABLE_END, TILES};
use crate::told::{Additions, Certification, Told};
use dk_html::{Part, add_parts};
use std::alloc::{AllocError, Global};

/// Adds bytes that were made for the page.
pub(crate) fn add_made(out: &mut Vec<u8>, bytes: &[u8]) -> Result<(), AllocError>
    ensures { OnOk result (out.new.items ≡ out.old.items ++ bytes.now) }
{
    out.extend_from_slice(bytes)
}

/// Adds words of the page.
pub(crate) fn add_words(out: &mut Vec<u8>, words: &str) -> Result<(), AllocError>
    ensures { OnOk result (out.new.items ≡ out.old.items ++ words.now) }
{
    out.extend_from_slice(words.as_bytes())
}

pub(crate) fn add_title(alloc: Global, out: &mut Vec<u8>, name: &[u8]) -> Result<(), AllocError>
    ensures { OnOk result (out.new.items ≡ out.old.items ++ title name.now) }
{
    let parts = [
        Part::Words(HEAD),
        Part::Text(name),
        Part::Words(STYLE),
        Part::Text(name),
        Part::Words(TILES),
    ];
    add_parts(alloc, out, &parts)
}

fn add_failing(
    alloc: Global,
    out: &mut Vec<u8>,
    level: u8,
    needs: u64,
    window: u32,
) -> Result<(), AllocError>
    ensures { OnOk result (out.new.items ≡ out.old.items ++ failing_tile level needs window) }
{
    let parts = [
        Part::Words(
            "<li class=\"tile bad\"><span class=\"what\">Certification</span><b>not certified</b><span>level ",
        ),
        Part::Number(level as u64),
        Part::Words(" needs "),
        Part::Number(needs),
        Part::Words(" of "),
        Part::Number(window as u64),
        Part::Words("</span></li>\n"),
    ];
    add_parts(alloc, out, &parts)
}

fn add_certification_tile(
    alloc: Global,
    out: &mut Vec<u8>,
    certification: &Certification,
) -> Result<(), AllocError>
    ensures { OnOk result (out.new.items ≡ out.old.items ++ certification_tile certification.now) }
{
    match certification {
        Certification::Certified { .. } => add_words(out, CERTIFIED_TILE),
        Certification::Failing {
            level,
            needs,
            window,
        } => add_failing(alloc, out, *level, *needs, *window),
    }
}

fn tone(count: usize) -> &'static str
    ensures { result.now ≡ tone count }
{
    if count == 0 { "good" } else { "look" }
}

fn add_warnings_tile(
    alloc: Global,
    out: &mut Vec<u8>,
    tone: &str,
    count: usize,
) -> Result<(), AllocError>
    ensures { OnOk result (out.new.items ≡ out.old.items ++ warnings_tile tone.now count) }
{
    let parts = [
        Part::Words("<li class=\"tile "),
        Part::Words(tone),
        Part::Words("\"><span class=\"what\">Warnings</span><b>"),
        Part::Number(count as u64),
        Part::Words("</b><span>what is allowed and cannot be meant</span></li>\n"),
    ];
    add_parts(alloc, out, &parts)
}

fn add_inputs<'x>(
    alloc: Global,
    out: &mut Vec<u8>,
    name: &'x [u8],
    document: &'x [u8],
    files: &'x [u8],
) -> Result<(), AllocError>
    ensures { OnOk result (out.new.items ≡ out.old.items ++ inputs name.now document.now files.now) }
{
    let parts = [
        Part::Words(INPUTS),
        Part::File {
            what: "configuration",
            name,
            bytes: document,
        },
        Part::Made(files),
        Part::Words(TABLE_END),
    ];
    add_parts(alloc, out, &parts)
}

/// Adds the title, the verdicts and the files.
pub(crate) fn add_top(
    alloc: Global,
    out: &mut Vec<u8>,
    name: &[u8],
    document: &[u8],
    told: &Told,
    added: &Additions,
) -> Result<(), AllocError>
    ensures { OnOk result (out.new.items ≡ out.old.items ++ top_text name.now document.now told.now added.now) }
{
    add_title(alloc, out, name)?;
    add_certification_tile(alloc, out, &told.certification)?;
    add_warnings_tile(alloc, out, tone(told.count), told.count)?;
    add_made(out, added.tile.as_slice())?;
    add_inputs(alloc, out, name, document, added.file.as_slice())?;
    Ok(())
}
