//! A configuration that was checked, as a type: whoever has one needs no condition on it.
ghost use Rattle.std.specs.Prelude.{◌≡◌, MatchResult, Some};
ghost use Rattle.dk_config.specs.Rules.{all_tests};
ghost use Rattle.dk_config.specs.Tests.{first_broken};
ghost use Rattle.dk_config.specs.Checked.{BreaksNoRule, IsChecked, IsWithinLimits};

use crate::{Config, ConfigFault, check};
use std::marker::Model;

/// A configuration that breaks none of the rules C4 to C13. It is seen as the configuration.
#[derive(Drop)]
pub struct Layout {
    config: Config,
}

impl Model for Layout {
    ghost use Rattle.dk_config.specs.Checked.{BreaksNoRule, IsChecked, IsWithinLimits};
    ghost use Rattle.dk_config.specs.Configuration.{Configuration};

    ghost Value = { Configuration };

    ghost view = { λ l. l.config };

    ghost invariant = { λ l. BreaksNoRule l.config × IsChecked l.config × IsWithinLimits l.config };
}

impl Layout {
    /// The layout of the configuration, or the first rule that it breaks. Needs no memory.
    pub fn of(config: Config) -> Result<Layout, ConfigFault>
        ensures { MatchResult result (λ layout. layout ≡ config) (λ fault. first_broken (all_tests config) ≡ Some fault) }
    {
        match check(&config) {
            None => Ok(Layout { config }),
            Some(fault) => Err(fault),
        }
    }

    /// Its configuration.
    pub fn config(&self) -> &Config
        ensures same { result.now ≡ self.now }
        ensures unbroken { BreaksNoRule result.now }
        ensures checked { IsChecked result.now }
        ensures limits { IsWithinLimits result.now }
    {
        &self.config
    }
}
