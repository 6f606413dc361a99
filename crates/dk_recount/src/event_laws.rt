ghost use Rattle.std.specs.Prelude.{ℕ, ◌≡◌, false, List, Option, None};
ghost use Rattle.dk_config.specs.Configuration.{Configuration};
ghost use Rattle.dk_trace.specs.declared.ThreadId.{ThreadId};
ghost use Rattle.dk_trace.specs.declared.Event.{Event};
ghost use Rattle.dk_trace.specs.declared.Label.{Label};
ghost use Rattle.dk_trace.specs.declared.Entry.{Entry};
ghost use Rattle.dk_trace.specs.Holds.{held_by, is_held};
ghost use Rattle.dk_recount.specs.Tables.{Tables};
ghost use Rattle.dk_recount.specs.Recount.{IsBooked, IsCharged};
ghost use Rattle.dk_recount.specs.Events.{Always, CallIsRight, IsUntold, MayAsk, MayLock, MayUnlock, MayWait, asked, entry_of, lock_refusal_in, locked, slack_refusal_in, unlock_refusal_in, unlocked, wait_refusal_in, waited};

use crate::needed::{caller_laws, hold_laws, stopping_laws};
use dk_bound::{event_cases_law, nesting_law};
use dk_mutex::holds_are_the_pasts;

/// A tick that ends without an event, or with one that the tables aren't told of, is booked as it stands.
pub fn untold_event_is_booked()
    ensures { (c : Configuration) (label : Label) (past : List Entry) (event : Option Event) (d : Tables)
        → IsUntold event → IsCharged c label past d → IsBooked c (entry_of label event) past d }
{}

/// A wait of the tables is one of the past.
pub fn waiting_makes_the_recount()
    ensures { Always (λ x c label past d.
        CallIsRight x Event.Wait (wait_refusal_in d x) (MayWait x d) (waited x d) c label past d) }
{
    caller_laws();
    stopping_laws();
    nesting_law();
    event_cases_law();
    holds_are_the_pasts();
    dk_demand::call_keeps_the_recount();
}

/// A call for slack of the tables is one of the past.
pub fn asking_makes_the_recount()
    ensures { (amount : ℕ) → Always (λ x c label past d.
        CallIsRight x (Event.Slack amount) (slack_refusal_in d x amount) (MayAsk x d) (asked x amount d)
        c label past d) }
{
    caller_laws();
    dk_slack::call_keeps_the_recount();
}

/// A lock of the tables is one of the past, and one that they don't refuse finds its mutex free.
pub fn locking_makes_the_recount()
    ensures free { (m : ℕ) → Always (λ x c label past d.
        lock_refusal_in d x m ≡ None → (y : ThreadId) → is_held m (held_by y past) ≡ false) }
    ensures booked { (m : ℕ) → Always (λ x c label past d.
        CallIsRight x (Event.Lock m) (lock_refusal_in d x m) (MayLock x m d) (locked x m d) c label past d) }
{
    hold_laws();
}

/// An unlock of the tables is one of the past.
pub fn unlocking_makes_the_recount()
    ensures { (m : ℕ) → Always (λ x c label past d.
        CallIsRight x (Event.Unlock m) (unlock_refusal_in d x m) (MayUnlock x m d) (unlocked x m d) c label past d) }
{
    hold_laws();
}
