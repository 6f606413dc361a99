//! What holds of every configuration and of all asks: the laws of the answers.
ghost use Rattle.std.specs.Prelude.{ℕ, List, Option, ◌≡◌, ◌<◌, ◌≤◌, ◌↔◌, length, IfSome};
ghost use Rattle.dk_config.specs.Checked.{BreaksNoRule, IsAccepted};
ghost use Rattle.dk_config.specs.Configuration.{Configuration};
ghost use Rattle.dk_plan.specs.declared.harmonising.Ask.{Ask};
ghost use Rattle.dk_plan.specs.Base.{GreaterTakeMore, NoneLess};
ghost use Rattle.dk_plan.specs.Budget.{CanHave, IsCertified, NoGreater};

/// The verdict on a configuration is that it is accepted exactly where each level fits its windows.
pub fn certified_is_accepted()
    ensures { (c : Configuration) → IsCertified c ↔ IsAccepted c }
{}

/// The budgets that a process can have are an interval: with a lesser and a greater one it can have
/// each between them.
pub fn budgets_are_an_interval()
    ensures { (c : Configuration) → BreaksNoRule c → (p : ℕ) → p < length c.processes
        → (low high : ℕ) → CanHave c p low → CanHave c p high
        → (b : ℕ) → low ≤ b → b ≤ high → CanHave c p b }
{}

/// A process has one greatest budget at most.
pub fn one_greatest_budget()
    ensures { (c : Configuration) (p : ℕ) → p < length c.processes → (a b : Option ℕ)
        → IfSome a (CanHave c p) → NoGreater c p a
        → IfSome b (CanHave c p) → NoGreater c p b
        → a ≡ b }
{}

/// A range has one best base at most.
pub fn one_best_base()
    ensures { (lo hi : ℕ) (asks : List Ask) (a b : ℕ)
        → lo ≤ a → a ≤ hi → NoneLess lo hi asks a → GreaterTakeMore hi asks a
        → lo ≤ b → b ≤ hi → NoneLess lo hi asks b → GreaterTakeMore hi asks b
        → a ≡ b }
{}
