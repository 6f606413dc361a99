//! The longest and the shortest reaction of a chain in a ledger.
ghost use Rattle.std.specs.Prelude.{ℕ, ◌-◌, ◌*◌, ◌≡◌, ◌<◌, ◌≤◌, ◌∷◌, All, length, IfOk, Some};
ghost use Rattle.std.specs.Option.{option_map_or};
ghost use Rattle.dk_config.specs.Checked.{IsChecked, IsWithinLimits};
ghost use Rattle.dk_config.specs.declared.TheConstants.{MAX_RUN_TICKS};
ghost use Rattle.dk_chain_ledger.specs.Reactions.{TellsReactions, first_event, joined, of_window, reaction_by, reaction_in};
ghost use Rattle.dk_chain_ledger.specs.Tables.{told};

use crate::tables::{end_at, track_of};
use dk_config::{Config, NoMemory};
use dk_trace::Entry;
use std::alloc::Global;

/// The reactions of a chain that a ledger has, in ticks.
#[derive(Clone, Copy)]
pub struct Reactions {
    pub shortest: u32,
    pub longest: u32,
    /// The first event that was answered only after the longest.
    pub event: u32,
}

/// The first event for which a window of this number is the first that starts then or after.
fn first_event(ticks: u32, window: u32) -> u32
    requires few { window * ticks ≤ MAX_RUN_TICKS }
    ensures { result ≡ first_event ticks window }
{
    if window == 0 {
        0
    } else {
        (window - 1) * ticks + 1
    }
}

/// The reactions to the events for which this window is the first, where it ends the chain by this tick.
fn of_window(ticks: u32, window: u32, end: u32) -> Reactions
    requires few { window * ticks ≤ MAX_RUN_TICKS }
    ensures { result ≡ of_window ticks window end }
{
    let event = first_event(ticks, window);
    Reactions {
        shortest: end.saturating_sub(window * ticks),
        longest: end.saturating_sub(event),
        event,
    }
}

/// Those before, and those of later events.
fn joined(before: Option<Reactions>, later: Reactions) -> Reactions
    ensures { result ≡ joined before later }
{
    match before {
        None => later,
        Some(seen) => Reactions {
            shortest: seen.shortest.min(later.shortest),
            longest: seen.longest.max(later.longest),
            event: if later.longest > seen.longest {
                later.event
            } else {
                seen.event
            },
        },
    }
}

/// Those before, and those of this window, if it ends a chain.
fn with_window(
    seen: Option<Reactions>,
    ticks: u32,
    window: u32,
    end: Option<u32>,
) -> Option<Reactions>
    requires few { window * ticks ≤ MAX_RUN_TICKS }
    ensures { result ≡ option_map_or (λ k. Some (joined seen (of_window ticks window k))) end seen }
{
    match end {
        Some(end) => Some(joined(seen, of_window(ticks, window, end))),
        None => seen,
    }
}

/// The reactions to all events, where the window of each number ends a chain by this tick.
fn of_ends(ticks: u32, ends: &[Option<u32>]) -> Option<Reactions>
    requires some { 0 < ticks }
    requires few { length ends.now * ticks ≤ MAX_RUN_TICKS }
    ensures { TellsReactions (reaction_by (told ends.now) ticks) result }
{
    let mut seen = None;
    for window in 0..ends.len() {
        let end = end_at(ends, window);
        let next = with_window(seen, ticks, window as u32, end);
        seen = next;
    }
    seen
}

/// The longest and the shortest reaction that the ledger of these entries has of the chain that begins with this process
/// and goes on with the others, exactly; and None where no event is answered in it. A process may stand in the chain more
/// than once.
///
/// A job of a main is what it has of its budget in one window of its level: it begins with the first such tick, and is
/// over with the last, or when the main waits or is stopped. An event is answered by the first window of the first
/// process that starts then or after; the job of each next process is the first that has not begun before the one before
/// it is over. Windows that the ledger hasn't got whole count for nothing.
pub fn ledger_reactions(
    alloc: Global,
    config: &Config,
    entries: &[Entry],
    first: u32,
    rest: &[u32],
) -> Result<Option<Reactions>, NoMemory>
    requires checked { IsChecked config.now }
    requires limits { IsWithinLimits config.now }
    requires there { All (λ p. p < length config.now.processes) (first ∷ rest.now) }
    requires few { length entries.now ≤ MAX_RUN_TICKS }
    ensures { IfOk result (TellsReactions (reaction_in config.now entries.now first rest.now)) }
{
    let track = track_of(alloc, config, entries, first, rest)?;
    Ok(of_ends(track.ticks, track.ends.as_slice()))
}
