//! The limits of what deosk-show reads beside a configuration, and of what it searches, as numbers.
#![tactic(auto)]

ghost use Rattle.show_limits.specs.Limits.{LimitsAreThese};

/// Each limit of needs and of profiles that docs/FORMATS.md gives, and how many ticks are searched for what is needed for
/// ever, with its number. Contracts cite the constants.
pub fn limits_are_these()
    ensures { LimitsAreThese }
{}
