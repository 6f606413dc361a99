//! What repeats in a run, and what it adds.
ghost use Rattle.std.specs.Prelude.{◌≡◌, ◌++◌, ◌∷◌, [], IfOk, OnOk, codes};
ghost use Rattle.dk_html.specs.Checksums.{file_row};
ghost use Rattle.dk_html.specs.Parts.{joined};
ghost use Rattle.dk_page.specs.More.{IsAddedByProgram, IsAddedByRepeats, name_and_ticks, not_repeating_tile, repeats_output, repeats_section, repeats_tile};

use crate::template::{REPEATING_TILE, REPEATS, TEXT_END};
use crate::told::Additions;
use crate::top::add_words;
use dk_html::{Part, add_parts};
use std::alloc::{AllocError, Global};

/// What `repeats` tells of the run of a configuration with its programs.
#[derive(Drop)]
pub struct RepeatsTold {
    /// The ticks of it that were looked at.
    pub ticks: u32,
    /// What `repeats` writes.
    pub text: Vec<u8>,
    /// The run as a whole is told to repeat.
    pub whole: bool,
}

fn add_not_repeating(alloc: Global, out: &mut Vec<u8>, ticks: u32) -> Result<(), AllocError>
    ensures { OnOk result (out.new.items ≡ out.old.items ++ not_repeating_tile ticks) }
{
    let parts = [
        Part::Words(
            "<li class=\"tile look\"><span class=\"what\">The run</span><b>not told to repeat</b><span>in ",
        ),
        Part::Number(ticks as u64),
        Part::Words(" ticks of these programs</span></li>\n"),
    ];
    add_parts(alloc, out, &parts)
}

fn tile_of(alloc: Global, whole: bool, ticks: u32) -> Result<Vec<u8>, AllocError>
    ensures { IfOk result (λ v. v.items ≡ repeats_tile whole ticks) }
{
    let mut out = Vec::new(alloc);
    if whole {
        add_words(&mut out, REPEATING_TILE)?;
    } else {
        add_not_repeating(alloc, &mut out, ticks)?;
    }
    Ok(out)
}

fn add_section(alloc: Global, out: &mut Vec<u8>, text: &[u8]) -> Result<(), AllocError>
    ensures { OnOk result (out.new.items ≡ out.old.items ++ repeats_section text.now) }
{
    let parts = [
        Part::Words(REPEATS),
        Part::Text(text),
        Part::Words(TEXT_END),
    ];
    add_parts(alloc, out, &parts)
}

fn section_of(alloc: Global, text: &[u8]) -> Result<Vec<u8>, AllocError>
    ensures { IfOk result (λ v. v.items ≡ repeats_section text.now) }
{
    let mut out = Vec::new(alloc);
    add_section(alloc, &mut out, text)?;
    Ok(out)
}

fn add_name_and_ticks(
    alloc: Global,
    out: &mut Vec<u8>,
    file: &[u8],
    ticks: u32,
) -> Result<(), AllocError>
    ensures { OnOk result (out.new.items ≡ out.old.items ++ name_and_ticks file.now ticks) }
{
    let parts = [
        Part::Made(file),
        Part::Words(" "),
        Part::Number(ticks as u64),
    ];
    add_parts(alloc, out, &parts)
}

fn add_output<'x>(
    alloc: Global,
    out: &mut Vec<u8>,
    both: &'x [u8],
    text: &'x [u8],
) -> Result<(), AllocError>
    ensures { OnOk result (out.new.items ≡ out.old.items ++ repeats_output both.now text.now) }
{
    let parts = [Part::Output {
        command: "deosk-show repeats ",
        name: both,
        text,
    }];
    add_parts(alloc, out, &parts)
}

fn output_of(alloc: Global, file: &[u8], ticks: u32, text: &[u8]) -> Result<Vec<u8>, AllocError>
    ensures { IfOk result (λ v. v.items ≡ repeats_output (name_and_ticks file.now ticks) text.now) }
{
    let mut both = Vec::new(alloc);
    add_name_and_ticks(alloc, &mut both, file, ticks)?;
    let mut out = Vec::new(alloc);
    add_output(alloc, &mut out, both.as_slice(), text)?;
    Ok(out)
}

/// What that adds to the page of the configuration in this file. `Err` is want of memory.
pub fn repeats_additions(
    alloc: Global,
    file: &str,
    repeats: &RepeatsTold,
) -> Result<Additions, AllocError>
    ensures { IfOk result (IsAddedByRepeats file.now repeats.now) }
{
    let tile = tile_of(alloc, repeats.whole, repeats.ticks)?;
    let sections = section_of(alloc, repeats.text.as_slice())?;
    let outputs = output_of(
        alloc,
        file.as_bytes(),
        repeats.ticks,
        repeats.text.as_slice(),
    )?;
    Ok(Additions {
        tile,
        file: Vec::new(alloc),
        sections,
        outputs,
    })
}

fn add_program<'x>(
    alloc: Global,
    out: &mut Vec<u8>,
    name: &'x [u8],
    bytes: &'x [u8],
) -> Result<(), AllocError>
    ensures { OnOk result (out.new.items ≡ out.old.items ++ joined (file_row (codes "program") name.now bytes.now ∷ [])) }
{
    let parts = [Part::File {
        what: "program",
        name,
        bytes,
    }];
    add_parts(alloc, out, &parts)
}

/// What the file of a program of this name adds, which holds these bytes: its row among the files. `Err` is want of memory.
pub fn program_additions(alloc: Global, name: &str, bytes: &[u8]) -> Result<Additions, AllocError>
    ensures { IfOk result (IsAddedByProgram name.now bytes.now) }
{
    let mut file = Vec::new(alloc);
    add_program(alloc, &mut file, name.as_bytes(), bytes)?;
    Ok(Additions {
        tile: Vec::new(alloc),
        file,
        sections: Vec::new(alloc),
        outputs: Vec::new(alloc),
    })
}
