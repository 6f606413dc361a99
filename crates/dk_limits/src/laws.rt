//! What a run writes can be read back, and the limits.
ghost use Rattle.std.specs.Prelude.{ℕ, List, ◌<◌, ◌≤◌, All, reverse};
ghost use Rattle.dk_config.specs.Configuration.{Configuration};
ghost use Rattle.dk_config.specs.Checked.{IsChecked, IsWithinLimits, IsAccepted};
ghost use Rattle.dk_world.specs.Run.{trace};
ghost use Rattle.dk_ledger.specs.Readable.{IsReadable};
ghost use Rattle.dk_inputs.specs.Inputs.{heading};
ghost use Rattle.dk_limits.specs.Limits.{LimitsAreThese};
ghost use Rattle.dk_limits.specs.Sizes.{LinesAreShort, TextsFit};

use dk_config::MAX_RUN_TICKS;

/// The ledger of every accepted run of at most 10,000,000 ticks can be read, whatever the bytes of
/// its programs are.
pub fn run_can_be_read()
    ensures { (c : Configuration) (programs : List (List ℕ)) (n : ℕ) → IsChecked c → IsWithinLimits c → IsAccepted c
        → All (λ program. All (λ byte. byte < 256) program) programs → n ≤ MAX_RUN_TICKS
        → IsReadable (record { heading = heading c; entries = reverse (trace c programs n) }) }
{}

/// What can be read fits what is read: no line of its entries is longer than 100 bytes, and its text isn't longer than
/// 1,073,741,824 bytes. So the ledger of every run that `run_can_be_read` speaks of is read whole.
pub fn readable_ledgers_fit()
    ensures lines { LinesAreShort }
    ensures text { TextsFit }
{}

/// Each limit that docs/FORMATS.md gives, and the last values of ticks and of counts, with its number. Contracts cite the
/// constants.
pub fn limits_are_these()
    ensures { LimitsAreThese }
{}
