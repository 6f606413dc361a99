ghost use Rattle.std.specs.Prelude.{ℕ, ◌≡◌, ◌==◌, List, None, true};
ghost use Rattle.dk_config.specs.Configuration.{Configuration};
ghost use Rattle.dk_trace.specs.declared.ThreadId.{ThreadId};
ghost use Rattle.dk_trace.specs.declared.Label.{Label};
ghost use Rattle.dk_trace.specs.declared.Entry.{Entry};
ghost use Rattle.dk_recount.specs.Creating.{MayCreate, child_row, create_refusal_in, with_child};
ghost use Rattle.dk_recount.specs.Events.{IsCalling};
ghost use Rattle.dk_recount.specs.Facing.{Creates, IsNewRow, create_refusal_of};
ghost use Rattle.dk_recount.specs.Premises.{WhereCreates};
ghost use Rattle.dk_recount.specs.Tables.{Tables};

use dk_bound::{
    callers_law, chosen_law, event_closes_law, known_holders_law, ready_law, rows_law,
    standing_law, threads_law, tick_spends_law,
};
use dk_budget::refusals_are_the_pasts;
use dk_threads::a_slot_is_free;
use dk_windows::windows_are_the_configurations;

/// The loans refuse a create as the past does.
pub fn creates_are_refused_by_the_loans()
    ensures { (x : ThreadId) (c : Configuration) (label : Label) (past : List Entry) (d : Tables)
        (level quota entry instructions : ℕ) → IsCalling x c label past d
        → create_refusal_in d x level quota entry instructions
        ≡ create_refusal_of c label past x level quota entry instructions }
{
    callers_law();
    rows_law();
    refusals_are_the_pasts();
}

/// The tables of whoever is in a call have what a create needs, where it is a main. Once a child is made that the
/// tables don't refuse, it has a slot of its own, and they are the recount of the past with that create, where its
/// entry follows the rules.
pub fn creating_a_child_is_booked()
    ensures may { WhereCreates (λ x c label past d level quota entry instructions.
        (x.serial == 0) ≡ true → MayCreate x.process level quota entry instructions d) }
    ensures row { WhereCreates (λ x c label past d level quota entry instructions.
        create_refusal_in d x level quota entry instructions ≡ None
        → IsNewRow x level d (with_child x.process level quota d) (child_row x.process level d)) }
    ensures done { WhereCreates (λ x c label past d level quota entry instructions.
        create_refusal_in d x level quota entry instructions ≡ None
        → Creates x level quota entry instructions d
        (with_child x.process level quota d) (child_row x.process level d) c label past) }
{
    creates_are_refused_by_the_loans();
    callers_law();
    chosen_law();
    event_closes_law();
    known_holders_law();
    ready_law();
    rows_law();
    standing_law();
    threads_law();
    tick_spends_law();
    refusals_are_the_pasts();
    dk_threads::call_keeps_the_recount();
    dk_budget::call_keeps_the_recount();
    dk_demand::call_keeps_the_recount();
    dk_ready::call_keeps_the_recount();
    dk_budget::tick_keeps_the_recount();
    dk_slack::tick_keeps_the_recount();
    dk_mutex::stops_keep_the_recount();
    a_slot_is_free();
    windows_are_the_configurations();
}
