//! What holds of the texts.
ghost use Rattle.std.specs.Prelude.{ℕ, List, Option};
ghost use Rattle.dk_needs.specs.declared.needs.Need.{Need};
ghost use Rattle.dk_needs.specs.declared.needs.Tick.{Tick};
ghost use Rattle.dk_needs.specs.Fit.{IsFit};
ghost use Rattle.dk_needs_check.specs.declared.row.Answer.{Answer};
ghost use Rattle.dk_needs_text.specs.Escapes.{NeedNoEscapes};
ghost use Rattle.dk_needs_text.specs.Names.{AreNamed};

/// No attribute of a test case of a need that was read, with any id, any name and any number, has a byte that XML escapes
/// in one: none of & < > ' and ".
pub fn cases_need_no_escapes()
    ensures { (names : List (List ℕ)) (tick : Option Tick) (need : Need) (a : Answer) → AreNamed names → IsFit need
        → NeedNoEscapes names tick need a }
{}
