//! The tick of an entry.
ghost use Rattle.std.specs.Prelude.{◌≡◌, ◌<◌, length};
ghost use Rattle.dk_config.specs.declared.TheConstants.{MAX_TICKS};
ghost use Rattle.dk_past.specs.Past.{Ready};
ghost use Rattle.dk_audit.specs.Booking.{IsJudged};

use crate::booking::book;
use crate::finding::Breach;
use crate::rules::{is_chosen, obeys};
use dk_dispatch::Dispatcher;
use dk_steps::Steps;
use dk_trace::Entry;
use std::sync::ledger::Ledger;

/// Judges the entry of the present tick. One that follows the rules is booked, and the next tick is open.
pub fn judge<L: Ledger>(
    tables: &mut Dispatcher,
    entry: Entry,
    steps: &mut Steps<L>,
) -> Option<Breach>
    requires ready { tables.old.past.tick ≡ Ready }
    requires room { length tables.old.past.entries < MAX_TICKS }
    ensures { IsJudged entry tables.old.past result tables.new.past }
{
    tables.entries_follow();
    let choice = tables.choose(steps);
    if !is_chosen(choice, entry.label) {
        return Some(Breach::Label);
    }
    if !obeys(tables, entry) {
        return Some(Breach::Event);
    }
    tables.charge(choice, steps);
    if !book(tables, entry, steps) {
        return Some(Breach::Event);
    }
    tables.close(&entry);
    tables.open(steps);
    None
}
