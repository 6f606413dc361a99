//! The windows depend on the configuration and the tick alone.
ghost use Rattle.std.specs.Prelude.{ℕ, ◌≡◌};
ghost use Rattle.dk_config.specs.Configuration.{Configuration};
ghost use Rattle.dk_config.specs.Windows.{window_end, window_start};
ghost use Rattle.dk_windows.specs.Clock.{clock_at, end_at, start_at};

/// The windows that are kept are those of the configuration, at each tick and for each level.
pub fn windows_are_the_configurations()
    ensures starts { (c : Configuration) (tick level : ℕ)
        → start_at (clock_at c tick) level ≡ window_start c level tick }
    ensures ends { (c : Configuration) (tick level : ℕ) → end_at (clock_at c tick) level ≡ window_end c level tick }
{}
