//! The workload of every number can be run.
ghost use Rattle.std.specs.Prelude.{ℕ};
ghost use Rattle.dk_gen.specs.Generated.{generated};
ghost use Rattle.dk_gen.specs.Runnable.{IsRunnable};

/// The workload of every number can be run: its configuration is checked and certified, and each
/// process has a program.
pub fn every_number_is_runnable()
    ensures { (number : ℕ) → IsRunnable (generated number) }
{}
