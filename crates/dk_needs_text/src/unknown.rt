//! What needs tell of that the configuration hasn't got, as text.
ghost use Rattle.std.specs.Prelude.{◌≡◌, ◌++◌, [], codes, decimal, flat_map, slice_index_or, string_bytes, IfOk, OnOk};
ghost use Rattle.dk_needs_text.specs.Unknown.{count_line, thing_text, unknown_line, unknown_of_need, unknown_page, unknown_text};

use dk_config::{NoMemory, Text};
use dk_config_report::{Page, push_line};
use dk_needs::{Need, Needs, What, key_name};
use dk_needs_check::Unknown;
use std::alloc::{AllocError, Global};

fn process_text(alloc: Global, name: &str) -> Result<String, AllocError>
    ensures { IfOk result (λ s. string_bytes s ≡ codes "process " ++ name.now) }
{
    format!(in alloc; "process {name}")
}

fn mutex_text(alloc: Global, name: &str) -> Result<String, AllocError>
    ensures { IfOk result (λ s. string_bytes s ≡ codes "mutex " ++ name.now) }
{
    format!(in alloc; "mutex {name}")
}

fn level_text(alloc: Global, level: u32) -> Result<String, AllocError>
    ensures { IfOk result (λ s. string_bytes s ≡ codes "level " ++ decimal level) }
{
    format!(in alloc; "level {level}")
}

fn name_at(names: &[Text], place: usize) -> &str
    ensures { result.now ≡ slice_index_or names.now place [] }
{
    match names.get(place) {
        Some(name) => name.as_str(),
        None => "",
    }
}

fn thing_text(alloc: Global, what: &What, place: usize) -> Result<String, AllocError>
    ensures { IfOk result (λ s. string_bytes s ≡ thing_text what.now place) }
{
    match what {
        What::Deadline { process, .. } => process_text(alloc, process.as_str()),
        What::Chain { processes, .. } => process_text(alloc, name_at(processes.as_slice(), place)),
        What::Jitter { process, .. } => process_text(alloc, process.as_str()),
        What::ChainJitter { processes, .. } => {
            process_text(alloc, name_at(processes.as_slice(), place))
        }
        What::Budget { process, .. } => process_text(alloc, process.as_str()),
        What::Hold { mutex, .. } => mutex_text(alloc, mutex.as_str()),
        What::Release { level, .. } => level_text(alloc, *level),
        What::Spare { level, .. } => level_text(alloc, *level),
        What::Slack { process, .. } => process_text(alloc, process.as_str()),
        What::Always { process } => process_text(alloc, process.as_str()),
        _ => String::from_str(alloc, ""),
    }
}

fn unknown_text(alloc: Global, id: &str, key: &str, thing: &str) -> Result<String, AllocError>
    ensures { IfOk result (λ s. string_bytes s ≡ unknown_text id.now key.now thing.now) }
{
    format!(in alloc; "needs: {id} {key}: there is no {thing}\n")
}

#[tactic(auto, unfolding(crate::specs::Unknown::unknown_of_need))]
fn unknown_of_need(alloc: Global, need: &Need, unknown: Unknown) -> Result<String, AllocError>
    ensures { IfOk result (λ s. string_bytes s ≡ unknown_of_need need.now unknown) }
{
    let thing = thing_text(alloc, &need.what, unknown.place)?;
    unknown_text(
        alloc,
        need.id.as_str(),
        key_name(unknown.key),
        thing.as_str(),
    )
}

fn unknown_line(alloc: Global, needs: &[Need], unknown: Unknown) -> Result<String, AllocError>
    ensures { IfOk result (λ s. string_bytes s ≡ unknown_line needs.now unknown) }
{
    match needs.get(unknown.need) {
        Some(need) => unknown_of_need(alloc, need, unknown),
        None => String::from_str(alloc, ""),
    }
}

fn add_lines(
    alloc: Global,
    text: &mut String,
    needs: &[Need],
    found: &[Unknown],
) -> Result<(), AllocError>
    ensures { OnOk result (string_bytes text.new ≡ string_bytes text.old ++ flat_map (unknown_line needs.now) found.now) }
{
    for unknown in found {
        let line = unknown_line(alloc, needs, *unknown)?;
        push_line(text, line)?;
    }
    Ok(())
}

fn count_line(alloc: Global, count: usize) -> Result<String, AllocError>
    ensures { IfOk result (λ s. string_bytes s ≡ count_line count) }
{
    format!(in alloc; "faults {count}\n")
}

/// A line for each name, or number of a level, that the configuration hasn't got, and last how many they are. `Err` is want
/// of memory.
pub fn unknown_page(alloc: Global, needs: &Needs, found: &[Unknown]) -> Result<Page, NoMemory>
    ensures { IfOk result (λ page. page ≡ unknown_page needs.now.rows found.now) }
{
    let mut text = String::new(alloc);
    add_lines(alloc, &mut text, &needs.rows, found)?;
    push_line(&mut text, count_line(alloc, found.len())?)?;
    Ok(Page::new(text))
}
