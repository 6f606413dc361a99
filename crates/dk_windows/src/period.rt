//! The length of a level's windows, and how many of them so many ticks are.
use dk_config::MAX_SPAN;
use std::marker::Model;

/// A reciprocal has so many bits after the point. Up to `MAX_SPAN * 2^32` ticks, times a length, stay
/// below 2^72, which is what makes their product with the reciprocal exact.
const FRACTION_BITS: u32 = 72;

const SCALE: u128 = 1 << FRACTION_BITS;

/// The length of a level's windows, which is 1 to 1,000,000 ticks, beside its reciprocal. It is seen
/// as the length.
#[derive(Clone, Copy, PartialEq, Eq)]
pub struct Period {
    ticks: u32,
    /// 2^72 over the length, rounded up. It is worked out once, so that nothing is divided later.
    reciprocal: u128,
}

impl Model for Period {
    ghost use Rattle.std.specs.Prelude.{ℕ};
    ghost use Rattle.dk_windows.specs.Periods.{IsPeriod, reciprocal_of};
    ghost use Rattle.std.proofs.Common.{ap, sym};

    ghost Value = { ℕ };

    ghost view = { λ p. p.ticks };

    ghost invariant = { λ p. IsPeriod p.ticks p.reciprocal };

    ghost inverse = { λ n. record { ticks = n; reciprocal = reciprocal_of n } };

    ghost inverse_ok = { λ p is. ap (λ (r : ℕ). record { ticks = p.ticks; reciprocal = r }) (sym is.reciprocal) };
}

impl Default for Period {
    ghost use Rattle.std.specs.Prelude.{◌≡◌};

    /// One tick, which the free places of a list have.
    fn default() -> Period
        ensures { result ≡ 1 }
    {
        Period {
            ticks: 1,
            reciprocal: SCALE,
        }
    }
}

impl Period {
    ghost use Rattle.std.specs.Prelude.{◌≡◌, ◌<◌, ◌≤◌, ◌*◌, ◌/◌, ◌^◌};

    /// The period of so many ticks. This divides; the other calls don't.
    pub fn of(ticks: u32) -> Period
        requires some { 0 < ticks }
        requires short { ticks ≤ MAX_SPAN }
        ensures { result ≡ ticks }
    {
        Period {
            ticks,
            reciprocal: SCALE.div_ceil(ticks as u128),
        }
    }

    /// The length in ticks.
    pub fn ticks(&self) -> u32
        ensures length { result ≡ self.now }
        ensures some { 0 < result }
        ensures short { result ≤ MAX_SPAN }
    {
        self.ticks
    }

    /// How many whole windows so many ticks are, which may be up to 1,000,000 times 2^32. Nothing is
    /// divided: it is the whole part of the product with the reciprocal.
    pub fn windows_in(&self, ticks: u64) -> u64
        requires { ticks ≤ MAX_SPAN * 2 ^ 32 }
        ensures { result ≡ ticks / self.now }
    {
        ((ticks as u128 * self.reciprocal) >> FRACTION_BITS) as u64
    }
}
