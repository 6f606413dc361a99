//! The chains of processes that needs name.
ghost use Rattle.std.specs.Prelude.{◌≡◌, ◌∷◌, ◌++◌, ◌<◌, ◌≤◌, All, IfOk, OnOk, length, option_map, option_to_list};
ghost use Rattle.std.specs.Cmp.Lexicographic.{pointwise};
ghost use Rattle.std.specs.List.{join_with_byte};
ghost use Rattle.std.specs.Str.{bytes_eq};
ghost use Rattle.dk_chain.specs.Chain.{AreThere};
ghost use Rattle.dk_config.specs.Checked.{IsChecked, IsWithinLimits};
ghost use Rattle.dk_config.specs.declared.TheConstants.{MAX_PROCESSES};
ghost use Rattle.dk_needs.specs.Fit.{HasNames, IsFit};
ghost use Rattle.dk_review.specs.Chains.{AreChains, IsChainOfNames, IsChainOfNeed, IsChainTold, chain_in, is_named, names_same, new_chain};

use crate::telling::bytes_of;
use dk_chain::reaction;
use dk_chain_report::{chain_report, find_chain};
use dk_config::{Config, NoMemory, Text};
use dk_needs::{Need, What};
use dk_page::ChainTold;
use std::alloc::{AllocError, Global};

fn are_same(names: &[Text], others: &[Text]) -> bool
    ensures { result ≡ pointwise bytes_eq names.now others.now }
{
    match names {
        [] => others.is_empty(),
        [name, names @ ..] => match others {
            [] => false,
            [other, others @ ..] => { name.as_str() == other.as_str() && are_same(names, others) }
        },
    }
}

/// The names of the chain that is asked about.
fn chain_in(what: &What) -> Option<&[Text]>
    ensures { option_map (λ n. n.now) result ≡ chain_in what.now }
{
    match what {
        What::Chain { processes, .. } => Some(processes.as_slice()),
        What::ChainJitter { processes, .. } => Some(processes.as_slice()),
        _ => None,
    }
}

fn names_same(need: &Need, names: &[Text]) -> bool
    ensures { result ≡ names_same names.now need.now }
{
    match chain_in(&need.what) {
        Some(others) => are_same(others, names),
        None => false,
    }
}

/// Whether one of these needs names the chain.
fn is_named(needs: &[Need], names: &[Text]) -> bool
    ensures { result ≡ is_named needs.now names.now }
{
    needs.iter().any(|need| names_same(need, names))
}

/// The names of the chain that is asked about, unless one of the needs before names it.
fn new_chain<'a>(before: &[Need], what: &'a What) -> Option<&'a [Text]>
    ensures { option_map (λ n. n.now) result ≡ new_chain before.now what.now }
{
    match chain_in(what) {
        Some(names) => {
            if is_named(before, names) {
                None
            } else {
                Some(names)
            }
        }
        None => None,
    }
}

fn add_names(out: &mut Vec<u8>, names: &[Text]) -> Result<(), AllocError>
    ensures { OnOk result (out.new.items ≡ out.old.items ++ join_with_byte 32 names.now) }
{
    match names {
        [] => Ok(()),
        [name] => out.extend_from_slice(name.as_str().as_bytes()),
        [name, rest @ ..] => {
            out.extend_from_slice(name.as_str().as_bytes())?;
            out.push(b' ')?;
            add_names(out, rest)
        }
    }
}

/// The names with a blank between each two.
fn names_text(alloc: Global, names: &[Text]) -> Result<Vec<u8>, AllocError>
    ensures { IfOk result (λ v. v.items ≡ join_with_byte 32 names.now) }
{
    let mut out = Vec::new(alloc);
    add_names(&mut out, names)?;
    Ok(out)
}

/// What `chain` tells of the chain of these names, which are those of these processes.
fn tell(
    alloc: Global,
    config: &mut Config,
    names: &[Text],
    first: u32,
    rest: &[u32],
) -> Result<ChainTold, NoMemory>
    requires checked { IsChecked config.old }
    requires limits { IsWithinLimits config.old }
    requires there { AreThere config.old (first ∷ rest.now) }
    requires few { length rest.now < MAX_PROCESSES }
    ensures told { IfOk result (IsChainTold config.old names.now first rest.now) }
    ensures same { config.new ≡ config.old }
{
    let names = names_text(alloc, names)?;
    let reaction = reaction(config, first, rest);
    let page = chain_report(alloc, config, first, rest, "")?;
    let text = bytes_of(alloc, &page)?;
    Ok(ChainTold {
        names,
        text,
        reaction,
    })
}

/// What is told of the chain of these names, where each is that of a process.
fn of_names(
    alloc: Global,
    config: &mut Config,
    names: &[Text],
) -> Result<Option<ChainTold>, NoMemory>
    requires checked { IsChecked config.old }
    requires limits { IsWithinLimits config.old }
    requires few { length names.now ≤ MAX_PROCESSES }
    ensures told { IfOk result (IsChainOfNames config.old names.now) }
    ensures same { config.new ≡ config.old }
{
    match names {
        [] => Ok(None),
        [first, rest @ ..] => match find_chain(alloc, config, first.as_str(), rest)? {
            Some(chain) => {
                let told = tell(alloc, config, names, chain.first, chain.rest.as_slice())?;
                Ok(Some(told))
            }
            None => Ok(None),
        },
    }
}

/// What is told of the chain that a need names, unless one before it does.
fn of_need(
    alloc: Global,
    config: &mut Config,
    before: &[Need],
    what: &What,
) -> Result<Option<ChainTold>, NoMemory>
    requires checked { IsChecked config.old }
    requires limits { IsWithinLimits config.old }
    requires fit { HasNames what.now }
    ensures told { IfOk result (IsChainOfNeed config.old before.now what.now) }
    ensures same { config.new ≡ config.old }
{
    match new_chain(before, what) {
        Some(names) => of_names(alloc, config, names),
        None => Ok(None),
    }
}

fn add(told: &mut Vec<ChainTold>, chain: Option<ChainTold>) -> Result<(), AllocError>
    ensures { OnOk result (told.new.items ≡ told.old.items ++ option_to_list chain) }
{
    if let Some(chain) = chain {
        told.push(chain)?;
    }
    Ok(())
}

/// What is told of each chain that the needs name, in their order, and of each once. `Err` is want of memory.
pub(crate) fn chains_of(
    alloc: Global,
    config: &mut Config,
    needs: &[Need],
) -> Result<Vec<ChainTold>, NoMemory>
    requires checked { IsChecked config.old }
    requires limits { IsWithinLimits config.old }
    requires fit { All IsFit needs.now }
    ensures { IfOk result (λ chains. AreChains config.old needs.now 0 needs.now chains.items) }
{
    let mut told = Vec::new(alloc);
    for (i, need) in needs.iter().enumerate() {
        let chain = of_need(alloc, config, &needs[..i], &need.what)?;
        add(&mut told, chain)?;
    }
    Ok(told)
}
