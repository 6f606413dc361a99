//! Which ticks are drawn, and where they stand.
ghost use Rattle.std.specs.Prelude.{◌≡◌, ◌<◌, ◌≤◌, ◌^◌};
ghost use Rattle.dk_picture.specs.Places.{before, has_pixels, middle_of, place_of, room_for, ticks_in};

/// The plot's left edge, in pixels.
pub(crate) const LEFT: u64 = 200;

/// The plot's width, in pixels.
pub(crate) const PLOT: u64 = 960;

/// The ticks from `from` up to before `to`.
#[derive(Clone, Copy)]
pub(crate) struct Span {
    pub(crate) from: u32,
    pub(crate) to: u32,
}

impl Span {
    /// How many ticks the plot is wide: as many as there are, and 1 where there is none.
    pub(crate) fn ticks(self) -> u64
        ensures value { result ≡ ticks_in self }
        ensures some { 1 ≤ result }
        ensures few { result < 2 ^ 32 }
    {
        (self.to as u64).saturating_sub(self.from as u64).max(1)
    }

    /// How many ticks lie before the tick, of which no more are drawn than there are.
    fn before(self, tick: u64) -> u64
        ensures value { result ≡ before self tick }
        ensures few { result < 2 ^ 32 }
    {
        tick.min(self.to as u64).saturating_sub(self.from as u64)
    }

    /// Where the tick begins, in pixels from the left.
    pub(crate) fn place(self, tick: u64) -> u64
        ensures value { result ≡ place_of self tick }
        ensures small { result < 2 ^ 48 }
    {
        LEFT + self.before(tick) * PLOT / self.ticks()
    }

    /// Where the middle of the tick is, in pixels from the left.
    pub(crate) fn middle(self, tick: u64) -> u64
        ensures value { result ≡ middle_of self tick }
        ensures small { result < 2 ^ 48 }
    {
        LEFT + (2 * self.before(tick) + 1) * PLOT / (2 * self.ticks())
    }

    /// Whether so many ticks are so many pixels wide or wider.
    pub(crate) fn has_pixels(self, ticks: u64, pixels: u64) -> bool
        requires few { ticks < 2 ^ 40 }
        requires small { pixels < 2 ^ 16 }
        ensures { result ≡ has_pixels self ticks pixels }
    {
        ticks * PLOT >= pixels * self.ticks()
    }
}

/// The pixels that the number of a tick takes, with some room.
pub(crate) fn room_for(tick: u64) -> u64
    ensures value { result ≡ room_for tick }
    ensures small { result ≤ 62 }
{
    if tick < 1_000 {
        27
    } else if tick < 100_000 {
        41
    } else {
        62
    }
}
