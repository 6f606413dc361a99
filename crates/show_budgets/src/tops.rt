//! The greatest and the second greatest of some times.
ghost use Rattle.std.specs.Prelude.{◌≡◌, max, min};
ghost use Rattle.dk_config.specs.Sums.{greatest};
ghost use Rattle.show_budgets.specs.Least.{second};

/// The two greatest of some times, 0 where there are not so many.
#[derive(Clone, Copy)]
pub(crate) struct Tops {
    pub(crate) greatest: u32,
    pub(crate) second: u32,
}

/// With one time more.
fn with_one(tops: Tops, ticks: u32) -> Tops
    ensures greatest { result.greatest ≡ max tops.greatest ticks }
    ensures second { result.second ≡ max tops.second (min tops.greatest ticks) }
{
    Tops {
        greatest: tops.greatest.max(ticks),
        second: tops.second.max(tops.greatest.min(ticks)),
    }
}

/// The two greatest of the times.
pub(crate) fn tops_of(times: &[u32]) -> Tops
    ensures greatest { result.greatest ≡ greatest times.now }
    ensures second { result.second ≡ second times.now }
{
    let mut tops = Tops {
        greatest: 0,
        second: 0,
    };
    for ticks in times {
        tops = with_one(tops, *ticks);
    }
    tops
}
