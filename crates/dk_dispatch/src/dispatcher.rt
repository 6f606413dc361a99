//! All tables with where the run stands, as other crates call them. Each call here is the tables' call and a note
//! to the history, and says the past after it.
mod children;
mod events;
mod questions;
mod stretching;
mod ticking;

use crate::tables::AllTables;
use dk_config::{Config, NoMemory};
use dk_past::History;
use std::alloc::Global;
use std::marker::Model;

/// All tables of a run, with where it stands. That takes no memory.
#[derive(Drop)]
pub struct Dispatcher {
    pub(crate) tables: AllTables,
    pub(crate) history: History,
}

impl Model for Dispatcher {
    ghost use Rattle.dk_dispatch.specs.Standing.{Dispatched, Stands};

    ghost Value = { Dispatched };

    ghost view = { λ d. record { past = d.history.past; threads = d.tables.threads } };

    ghost invariant = { λ d. Stands d.history.past d.tables };
}

impl Dispatcher {
    ghost use Rattle.std.specs.Prelude.{◌≡◌, IfOk};
    ghost use Rattle.dk_config.specs.Checked.{IsAccepted, IsChecked, IsWithinLimits};
    ghost use Rattle.dk_past.specs.Past.{start};

    /// The tables at tick 0. The configuration is certified.
    ///
    /// The refusal is for want of memory alone.
    pub fn reserve(alloc: Global, config: &Config) -> Result<Dispatcher, NoMemory>
        requires checked { IsChecked config.now }
        requires limits { IsWithinLimits config.now }
        requires accepted { IsAccepted config.now }
        ensures { IfOk result (λ dispatcher. dispatcher.past ≡ start config.now) }
    {
        Ok(Dispatcher {
            tables: AllTables::reserve(alloc, config)?,
            history: History::new(config),
        })
    }
}
