//! What was found, and what it says of every tick.
ghost use Rattle.std.specs.Prelude.{◌≡◌};
ghost use Rattle.dk_cycle.specs.Told.{OwnIsTold, RunIsTold, made_by, own_told, reader_by, run_told};

use crate::Cycle;
use crate::keeping::Keeping;
use crate::made::Made;
use crate::own::OwnSearch;
use crate::run::RunSearch;
use dk_alone::{again_law, own_repeat_law};
use dk_repeat::forever_law;
use dk_world::audited_law;

/// The cycle of the run; where none was found, the process whose thread read the tick last, and the child that was made last.
#[derive(Clone, Copy)]
pub struct RunTold {
    pub reader: Option<u8>,
    pub made: Option<Made>,
    pub cycle: Option<Cycle>,
}

/// Whether the process keeps to itself, and its cycle.
#[derive(Clone, Copy)]
pub struct OwnTold {
    pub process: u8,
    pub keeping: Keeping,
    pub cycle: Option<Cycle>,
}

/// Who reads the tick, where no cycle was found.
fn reader_by(cycle: Option<Cycle>, reader: Option<u8>) -> Option<u8>
    ensures { result ≡ reader_by cycle reader }
{
    match cycle {
        Some(_) => None,
        None => reader,
    }
}

/// Which child was made last, where no cycle was found.
fn made_by(cycle: Option<Cycle>, made: Option<Made>) -> Option<Made>
    ensures { result ≡ made_by cycle made }
{
    match cycle {
        Some(_) => None,
        None => made,
    }
}

/// What was found of the run.
pub fn run_told(search: &RunSearch) -> RunTold
    ensures { result ≡ run_told search.now }
{
    RunTold {
        reader: reader_by(search.cycle, search.reader),
        made: made_by(search.cycle, search.made),
        cycle: search.cycle,
    }
}

/// What was found of a process.
pub fn own_told(search: &OwnSearch) -> OwnTold
    ensures { result ≡ own_told search.now }
{
    OwnTold {
        process: search.process,
        keeping: search.keeping,
        cycle: search.cycle,
    }
}

/// The cycle that was found of a run is one for ever, and that of a process that keeps to itself is one in every run,
/// whatever programs the others have.
pub fn told_law()
    ensures run { RunIsTold }
    ensures own { OwnIsTold }
{
    audited_law();
    forever_law();
    again_law();
    own_repeat_law();
}
