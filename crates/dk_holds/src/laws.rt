ghost use Rattle.std.specs.Prelude.{ℕ, List, Some, true, ◌≡◌};
ghost use Rattle.dk_trace.specs.declared.Entry.{Entry};
ghost use Rattle.dk_trace.specs.Holds.{held_by, is_held};
ghost use Rattle.dk_holds.specs.declared.holding.Holding.{Holding};
ghost use Rattle.dk_holds.specs.Holds.{holding};
ghost use Rattle.dk_holds.specs.Told.{IsHeld};

/// A mutex is held exactly by the thread of an entry that locked it, where no entry since has ended that hold.
pub fn held_since_its_lock()
    ensures held { (m : ℕ) (past : List Entry) (h : Holding) → holding m past ≡ Some h → IsHeld m past h }
    ensures all { (m : ℕ) (past : List Entry) (h : Holding) → IsHeld m past h → holding m past ≡ Some h }
{}

/// Whoever holds a mutex has it among the holds that dk_trace counts of that thread.
pub fn holder_in_trace()
    ensures { (m : ℕ) (past : List Entry) (h : Holding) → holding m past ≡ Some h
        → is_held m (held_by h.thread past) ≡ true }
{}
