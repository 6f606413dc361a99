//! The laws that tie the table to the entries of a run.
ghost use Rattle.std.specs.Prelude.{[]};
ghost use Rattle.dk_config.specs.Configuration.{Configuration};
ghost use Rattle.dk_threads.specs.Recount.{IsOpen};
ghost use Rattle.dk_threads.specs.Table.{table_at_start};
ghost use Rattle.dk_threads.specs.Laws.{TickKeepsRows, CreateAddsRow, OthersKeepRows, MainsEndStopsRows, ChildsEndStopsRow, DeleteStopsRow, OpeningMovesRows, TellsWhoIsThere, TellsRows, TellsChildren, FreesSlots};

use dk_windows::windows_are_the_configurations;

/// At the start the table is the recount of no entries.
pub fn start_is_the_recount()
    ensures { (c : Configuration) → IsOpen c [] (table_at_start c) }
{}

/// The table stays as it is where a tick is charged.
pub fn tick_keeps_the_recount()
    ensures { TickKeepsRows }
{}

/// The table of a charged tick in which a main made a child is that of the booked one once the child has
/// begun, and it stays as it is after an event that makes no thread and stops none.
pub fn call_keeps_the_recount()
    ensures create { CreateAddsRow }
    ensures others { OthersKeepRows }
{}

/// The table of a charged tick in which a main exits or faults is that of the booked one once the process
/// is stopped, and where a child exits or faults, or is deleted by its main, once the child is stopped.
pub fn stops_keep_the_recount()
    ensures process { MainsEndStopsRows }
    ensures exit { ChildsEndStopsRow }
    ensures delete { DeleteStopsRow }
{
    windows_are_the_configurations();
}

/// The table of a closed tick is that of the next one once the children have ended and started that are
/// due at it.
pub fn opening_keeps_the_recount()
    ensures { OpeningMovesRows }
{}

/// A table that is the recount of a past finds a row exactly of each thread that is there by the past, and
/// finds it, and each child's by its place, as the past counts them, but for the slot.
pub fn rows_are_the_pasts()
    ensures there { TellsWhoIsThere }
    ensures found { TellsRows }
    ensures child { TellsChildren }
{}

/// With fewer than eight children one of the slots from 1 to 8 is free, and the next child gets it.
#[tactic(auto, using(crate::proofs::Slots::free))]
pub fn a_slot_is_free()
    ensures { FreesSlots }
{}
