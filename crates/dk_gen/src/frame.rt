//! What is drawn first: the levels, the costs, and how many processes there are.
ghost use Rattle.std.specs.Prelude.{◌≡◌, ◌∷◌, []};
ghost use Rattle.dk_gen.specs.Draws.{draw, state};
ghost use Rattle.dk_gen.specs.Generated.{costs_of, levels_of, period_at, process_count};

use crate::draws::Draws;
use dk_config::{Costs, LevelRow};

/// What is drawn before the processes.
#[derive(Clone, Copy)]
pub struct Frame {
    pub levels: [LevelRow; 3],
    pub costs: Costs,
    /// The number of processes: 3 to 8.
    pub processes: u32,
}

/// The periods of the three levels: at least 100 ticks, and each two to four times the one before.
#[tactic(auto, using(crate::proofs::Stream::state_later, crate::proofs::Stream::draw_later))]
fn draw_periods(draws: &mut Draws) -> [u32; 3]
    ensures periods { result ≡ period_at draws.old 0 ∷ period_at draws.old 1 ∷ period_at draws.old 2 ∷ [] }
    ensures next { draws.new ≡ state draws.old 3 }
{
    let first = 100 * (1 + draws.draw(9));
    let second = first * (2 + draws.draw(3));
    let third = second * (2 + draws.draw(3));
    [first, second, third]
}

fn draw_level(draws: &mut Draws, period: u32) -> LevelRow
    ensures row { result ≡ record { period = period; release = draw draws.old 0 4 } }
    ensures next { draws.new ≡ state draws.old 1 }
{
    LevelRow {
        period,
        release: draws.draw(4),
    }
}

#[tactic(auto, using(crate::proofs::Stream::state_later, crate::proofs::Stream::draw_later))]
fn draw_levels(draws: &mut Draws) -> [LevelRow; 3]
    ensures rows { result ≡ levels_of draws.old }
    ensures next { draws.new ≡ state draws.old 6 }
{
    let [first, second, third] = draw_periods(draws);
    let first = draw_level(draws, first);
    let second = draw_level(draws, second);
    let third = draw_level(draws, third);
    [first, second, third]
}

/// The frame of the number that the draws begin at. It takes nine draws.
#[tactic(auto, using(crate::proofs::Stream::state_later, crate::proofs::Stream::draw_later))]
pub fn draw_frame(draws: &mut Draws) -> Frame
    ensures levels { result.levels ≡ levels_of draws.old }
    ensures costs { result.costs ≡ costs_of draws.old }
    ensures processes { result.processes ≡ process_count draws.old }
    ensures next { draws.new ≡ state draws.old 9 }
{
    let levels = draw_levels(draws);
    let switch = draws.draw(3);
    let call = 1 + draws.draw(2);
    let processes = 3 + draws.draw(6);
    Frame {
        levels,
        costs: Costs { switch, call },
        processes,
    }
}
