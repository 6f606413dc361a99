//! What a document of needs adds.
ghost use Rattle.std.specs.Prelude.{◌≡◌, ◌++◌, ◌∷◌, [], IfOk, OnOk, codes};
ghost use Rattle.dk_html.specs.Checksums.{file_row};
ghost use Rattle.dk_html.specs.Parts.{joined};
ghost use Rattle.dk_page.specs.Needs.{IsAddedByNeeds, check_words, decided_section, needs_output, needs_sections, needs_tile, refused_section};
ghost use Rattle.dk_page.specs.Runs.{both_names};

use crate::running::add_both;
use crate::template::{
    MET_TILE, NEEDS, NEEDS_REFUSED, REFUSED_TILE, TABLE_END, TEXT_END, UNMET_TILE,
};
use crate::told::Additions;
use dk_html::{Part, add_parts};
use std::alloc::{AllocError, Global};

/// How a document of needs stands.
#[derive(Clone, Copy)]
pub enum Standing {
    Met,
    /// Some need is missed, or open.
    Unmet,
    /// It isn't one of needs of the configuration.
    Refused,
}

/// What the commands tell of a document of needs.
#[derive(Drop)]
pub struct Wants {
    /// What `check` writes of it, where the programs and a ledger aren't looked at.
    pub check: Vec<u8>,
    /// That as a table, which nobody reads where the document is refused.
    pub table: Vec<u8>,
    pub standing: Standing,
    /// A need asks what the programs do for ever.
    pub asks_programs: bool,
}

fn tile_of(alloc: Global, standing: Standing) -> Result<Vec<u8>, AllocError>
    ensures { IfOk result (λ v. v.items ≡ needs_tile standing) }
{
    let words = match standing {
        Standing::Met => MET_TILE,
        Standing::Unmet => UNMET_TILE,
        Standing::Refused => REFUSED_TILE,
    };
    words.as_bytes().to_vec(alloc)
}

fn add_file<'x>(
    alloc: Global,
    out: &mut Vec<u8>,
    name: &'x [u8],
    bytes: &'x [u8],
) -> Result<(), AllocError>
    ensures { OnOk result (out.new.items ≡ out.old.items ++ joined (file_row (codes "needs") name.now bytes.now ∷ [])) }
{
    let parts = [Part::File {
        what: "needs",
        name,
        bytes,
    }];
    add_parts(alloc, out, &parts)
}

fn file_of(alloc: Global, name: &[u8], bytes: &[u8]) -> Result<Vec<u8>, AllocError>
    ensures { IfOk result (λ v. v.items ≡ joined (file_row (codes "needs") name.now bytes.now ∷ [])) }
{
    let mut out = Vec::new(alloc);
    add_file(alloc, &mut out, name, bytes)?;
    Ok(out)
}

fn add_decided(alloc: Global, out: &mut Vec<u8>, table: &[u8]) -> Result<(), AllocError>
    ensures { OnOk result (out.new.items ≡ out.old.items ++ decided_section table.now) }
{
    let parts = [
        Part::Words(NEEDS),
        Part::Rows(table),
        Part::Words(TABLE_END),
    ];
    add_parts(alloc, out, &parts)
}

fn add_refused(alloc: Global, out: &mut Vec<u8>, check: &[u8]) -> Result<(), AllocError>
    ensures { OnOk result (out.new.items ≡ out.old.items ++ refused_section check.now) }
{
    let parts = [
        Part::Words(NEEDS_REFUSED),
        Part::Text(check),
        Part::Words(TEXT_END),
    ];
    add_parts(alloc, out, &parts)
}

fn add_sections(
    alloc: Global,
    out: &mut Vec<u8>,
    standing: Standing,
    check: &[u8],
    table: &[u8],
) -> Result<(), AllocError>
    ensures { OnOk result (out.new.items ≡ out.old.items ++ needs_sections standing check.now table.now) }
{
    match standing {
        Standing::Met | Standing::Unmet => add_decided(alloc, out, table),
        Standing::Refused => add_refused(alloc, out, check),
    }
}

fn sections_of(alloc: Global, wants: &Wants) -> Result<Vec<u8>, AllocError>
    ensures { IfOk result (λ v. v.items ≡ needs_sections wants.now.standing wants.now.check.items wants.now.table.items) }
{
    let mut out = Vec::new(alloc);
    add_sections(
        alloc,
        &mut out,
        wants.standing,
        wants.check.as_slice(),
        wants.table.as_slice(),
    )?;
    Ok(out)
}

fn check_words(asks_programs: bool) -> &'static str
    ensures { result.now ≡ check_words asks_programs }
{
    if asks_programs {
        "without the programs: deosk-show check "
    } else {
        "deosk-show check "
    }
}

fn add_output<'x>(
    alloc: Global,
    out: &mut Vec<u8>,
    words: &'x str,
    both: &'x [u8],
    check: &'x [u8],
) -> Result<(), AllocError>
    ensures { OnOk result (out.new.items ≡ out.old.items ++ needs_output words.now both.now check.now) }
{
    let parts = [Part::Output {
        command: words,
        name: both,
        text: check,
    }];
    add_parts(alloc, out, &parts)
}

fn output_of(alloc: Global, file: &[u8], needs: &[u8], wants: &Wants) -> Result<Vec<u8>, AllocError>
    ensures { IfOk result (λ v. v.items ≡ needs_output (check_words wants.now.asks_programs) (both_names file.now needs.now)
        wants.now.check.items) }
{
    let mut both = Vec::new(alloc);
    add_both(alloc, &mut both, file, needs)?;
    let words = check_words(wants.asks_programs);
    let mut out = Vec::new(alloc);
    add_output(
        alloc,
        &mut out,
        words,
        both.as_slice(),
        wants.check.as_slice(),
    )?;
    Ok(out)
}

/// What the needs of this name in these bytes add to the page of the configuration in that file. `Err` is want of memory.
pub fn needs_additions(
    alloc: Global,
    file: &str,
    needs: &str,
    bytes: &[u8],
    wants: &Wants,
) -> Result<Additions, AllocError>
    ensures { IfOk result (IsAddedByNeeds file.now needs.now bytes.now wants.now) }
{
    let tile = tile_of(alloc, wants.standing)?;
    let row = file_of(alloc, needs.as_bytes(), bytes)?;
    let sections = sections_of(alloc, wants)?;
    let outputs = output_of(alloc, file.as_bytes(), needs.as_bytes(), wants)?;
    Ok(Additions {
        tile,
        file: row,
        sections,
        outputs,
    })
}
