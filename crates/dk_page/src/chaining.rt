//! What chains of processes add.
ghost use Rattle.std.specs.Prelude.{◌≡◌, ◌++◌, flat_map, IfOk, OnOk};
ghost use Rattle.dk_page.specs.More.{IsAddedByChains, chain_output, chain_shown, chain_table, chain_told, chains_outputs, chains_section, chains_sections};

use crate::running::add_both;
use crate::template::{CHAIN, CHAIN_END, CHAIN_LINES, CHAIN_NAMED, CHAINS, CHAINS_END};
use crate::told::Additions;
use dk_html::{Part, add_parts};
use std::alloc::{AllocError, Global};

/// What `chain` tells of a chain of processes.
#[derive(Drop)]
pub struct ChainTold {
    /// The names of the processes, with a blank between each two.
    pub names: Vec<u8>,
    /// What `chain` writes.
    pub text: Vec<u8>,
    /// Within how many ticks the chain answers each event.
    pub reaction: u64,
}

fn add_table<'x>(
    alloc: Global,
    out: &mut Vec<u8>,
    names: &'x [u8],
    reaction: u64,
    text: &'x [u8],
) -> Result<(), AllocError>
    ensures { OnOk result (out.new.items ≡ out.old.items ++ chain_table names.now reaction text.now) }
{
    let parts = [
        Part::Words(CHAIN),
        Part::Text(names),
        Part::Words(CHAIN_NAMED),
        Part::Number(reaction),
        Part::Words(CHAIN_LINES),
        Part::Lines(text),
        Part::Words(CHAIN_END),
    ];
    add_parts(alloc, out, &parts)
}

fn add_tables(alloc: Global, out: &mut Vec<u8>, chains: &[ChainTold]) -> Result<(), AllocError>
    ensures { OnOk result (out.new.items ≡ out.old.items ++ flat_map chain_told chains.now) }
{
    for chain in chains {
        add_table(
            alloc,
            out,
            chain.names.as_slice(),
            chain.reaction,
            chain.text.as_slice(),
        )?;
    }
    Ok(())
}

fn add_section(alloc: Global, out: &mut Vec<u8>, tables: &[u8]) -> Result<(), AllocError>
    ensures { OnOk result (out.new.items ≡ out.old.items ++ chains_section tables.now) }
{
    let parts = [
        Part::Words(CHAINS),
        Part::Made(tables),
        Part::Words(CHAINS_END),
    ];
    add_parts(alloc, out, &parts)
}

fn sections_of(alloc: Global, chains: &[ChainTold]) -> Result<Vec<u8>, AllocError>
    ensures { IfOk result (λ v. v.items ≡ chains_sections chains.now) }
{
    let mut out = Vec::new(alloc);
    if !chains.is_empty() {
        let mut tables = Vec::new(alloc);
        add_tables(alloc, &mut tables, chains)?;
        add_section(alloc, &mut out, tables.as_slice())?;
    }
    Ok(out)
}

fn add_shown<'x>(
    alloc: Global,
    out: &mut Vec<u8>,
    both: &'x [u8],
    text: &'x [u8],
) -> Result<(), AllocError>
    ensures { OnOk result (out.new.items ≡ out.old.items ++ chain_shown both.now text.now) }
{
    let parts = [Part::Output {
        command: "deosk-show chain ",
        name: both,
        text,
    }];
    add_parts(alloc, out, &parts)
}

fn add_output(
    alloc: Global,
    out: &mut Vec<u8>,
    file: &[u8],
    chain: &ChainTold,
) -> Result<(), AllocError>
    ensures { OnOk result (out.new.items ≡ out.old.items ++ chain_output file.now chain.now) }
{
    let mut both = Vec::new(alloc);
    add_both(alloc, &mut both, file, chain.names.as_slice())?;
    add_shown(alloc, out, both.as_slice(), chain.text.as_slice())
}

fn outputs_of(alloc: Global, file: &[u8], chains: &[ChainTold]) -> Result<Vec<u8>, AllocError>
    ensures { IfOk result (λ v. v.items ≡ chains_outputs file.now chains.now) }
{
    let mut out = Vec::new(alloc);
    for chain in chains {
        add_output(alloc, &mut out, file, chain)?;
    }
    Ok(out)
}

/// What these chains add to the page of the configuration in that file: nothing at all where there is none. `Err` is want of
/// memory.
pub fn chains_additions(
    alloc: Global,
    file: &str,
    chains: &[ChainTold],
) -> Result<Additions, AllocError>
    ensures { IfOk result (IsAddedByChains file.now chains.now) }
{
    let sections = sections_of(alloc, chains)?;
    let outputs = outputs_of(alloc, file.as_bytes(), chains)?;
    Ok(Additions {
        tile: Vec::new(alloc),
        file: Vec::new(alloc),
        sections,
        outputs,
    })
}
