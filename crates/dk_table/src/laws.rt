ghost use Rattle.std.specs.Prelude.{ℕ};
ghost use Rattle.dk_config.specs.Checked.{BreaksNoRule, IsWithinLimits};
ghost use Rattle.dk_config.specs.Configuration.{Configuration};
ghost use Rattle.dk_config.specs.Windows.{process_name};
ghost use Rattle.dk_table.specs.Names.{HasPlainNames};
ghost use Rattle.dk_table.specs.Records.{IsPlain};

/// No name of a process or of a mutex calls for quotes where the configuration breaks none of the rules C4 to C13; and
/// no name of a process where it is within the limits.
pub fn plain_names_law()
    ensures names { (c : Configuration) → BreaksNoRule c → HasPlainNames c }
    ensures processes { (c : Configuration) (p : ℕ) → IsWithinLimits c → IsPlain (process_name c p) }
{}
