//! How what the test finds for two configurations compares.
ghost use Rattle.std.specs.Prelude.{ℕ, ◌≡◌, ◌≤◌};
ghost use Rattle.dk_config.specs.Configuration.{Configuration};
ghost use Rattle.dk_config.specs.Certification.{level_blocking};
ghost use Rattle.dk_certify.specs.Verdicts.{verdict_of};
ghost use Rattle.dk_certify.specs.Laws.{migrated, ReachesNoFurther};

/// A configuration that is written in version 2 has the verdict that it had before.
pub fn verdict_ignores_version()
    ensures { (c : Configuration) → verdict_of (migrated c) ≡ verdict_of c }
{}

/// Of two configurations that differ in `max_level` alone, the one whose numbers are nowhere
/// greater blocks nowhere longer.
pub fn lower_reach_blocks_no_longer()
    ensures { (c d : Configuration) → ReachesNoFurther c d → (j : ℕ) → level_blocking c j ≤ level_blocking d j }
{}
