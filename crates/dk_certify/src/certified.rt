//! A layout that the certification test accepts, as a type.
ghost use Rattle.std.specs.Prelude.{◌≡◌, MatchResult};
ghost use Rattle.dk_config.specs.Checked.{IsAccepted};
ghost use Rattle.dk_certify.specs.Verdicts.{verdict_of, rows_of};
ghost use Rattle.dk_certify.specs.declared.certifying.Verdict.TheVariants.{Fails};

use crate::{Table, Verdict, certify};
use dk_config::Layout;
use std::marker::Model;

/// A layout of which no level can miss a window. It is seen as its configuration.
#[derive(Drop)]
pub struct Certified {
    layout: Layout,
    table: Table,
}

impl Model for Certified {
    ghost use Rattle.std.specs.Prelude.{◌≡◌};
    ghost use Rattle.dk_config.specs.Checked.{IsAccepted};
    ghost use Rattle.dk_config.specs.Configuration.{Configuration};
    ghost use Rattle.dk_certify.specs.Verdicts.{rows_of};

    ghost Value = { Configuration };

    ghost view = { λ c. c.layout };

    ghost invariant = { λ c. IsAccepted c.layout × (c.table ≡ rows_of c.layout) };
}

/// The first level that may miss its window: it can need `needs` ticks, and a window has `window`.
#[derive(Clone, Copy)]
pub struct Overload {
    pub level: u8,
    pub needs: u64,
    pub window: u32,
}

impl Certified {
    /// The layout, certified, or the first level that may miss its window. Needs no memory.
    pub fn of(layout: Layout) -> Result<Certified, Overload>
        ensures { MatchResult result (λ certified. certified ≡ layout)
            (λ overload. verdict_of layout ≡ Fails overload.level overload.needs overload.window) }
    {
        match certify(layout.config()) {
            Verdict::Accepted(table) => Ok(Certified { layout, table }),
            Verdict::Fails {
                level,
                needs,
                window,
            } => Err(Overload {
                level,
                needs,
                window,
            }),
        }
    }

    /// The layout.
    pub fn layout(&self) -> &Layout
        ensures same { result.now ≡ self.now }
        ensures accepted { IsAccepted result.now }
    {
        &self.layout
    }

    /// What was found at each level.
    pub fn table(&self) -> &Table
        ensures { result.now ≡ rows_of self.now }
    {
        &self.table
    }
}
