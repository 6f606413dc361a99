//! All tables side by side. What is called on them says what becomes of them, as plain values of dk_recount, and which
//! past they are the recount of is `Dispatcher`'s to say.
mod charging;
mod choosing;
mod events;
mod leading;
mod lending;
mod questions;
mod resting;
mod running;
mod ticking;

use crate::node::node_at;
use crate::reserving::{
    first_cells, first_jobs, first_parts, releases_of, rights_of, slack_of, table_of,
};
use arrayvec::ArrayVec;
use dk_budget::Loans;
use dk_certify::Table;
use dk_config::{Config, MAX_LEVELS, MAX_PROCESSES, NoMemory};
use dk_demand::Demand;
use dk_mutex::Mutexes;
use dk_overhead::Job;
use dk_ready::{Jobs, Parts};
use dk_recount::start_is_the_recount;
use dk_slack::SlackTable;
use dk_steps::Steps;
use dk_threads::Threads;
use dk_trace::ThreadId;
pub use leading::Lead;
pub use lending::Borrower;
pub use running::Runner;
use std::alloc::Global;
use std::marker::{Brand, Model};
use std::sync::ledger::{Blank, Ledger};

/// All tables of a run.
#[derive(Drop)]
pub struct AllTables {
    pub(crate) threads: Threads,
    pub(crate) loans: Loans,
    pub(crate) mutexes: Mutexes,
    pub(crate) demand: Demand,
    pub(crate) slack: SlackTable,
    pub(crate) jobs: Jobs,
    pub(crate) kernel: Parts,
    pub(crate) releases: ArrayVec<u32, MAX_LEVELS>,
    pub(crate) rights: ArrayVec<bool, MAX_PROCESSES>,
}

impl Model for AllTables {
    ghost use Rattle.dk_recount.specs.Tables.{Tables, IsSound};

    ghost Value = { Tables };

    ghost use Rattle.dk_dispatch.specs.Fields.{tables_of};

    ghost view = { tables_of };

    ghost invariant = { λ d. IsSound (tables_of d) };
}

impl AllTables {
    ghost use Rattle.std.specs.Prelude.{◌≡◌, ◌<◌, [], IfOk, length};
    ghost use Rattle.dk_config.specs.Checked.{IsAccepted, IsChecked, IsWithinLimits};
    ghost use Rattle.dk_certify.specs.Verdicts.{rows_of};
    ghost use Rattle.dk_threads.specs.Table.{table_at_start};
    ghost use Rattle.dk_slack.specs.Slack.{at_start as no_wishes};
    ghost use Rattle.dk_slack.specs.Recount.{spares_of};
    ghost use Rattle.dk_recount.specs.Start.{first_parts, seated, tables_at_start};
    ghost use Rattle.dk_recount.specs.Tables.{node_in};
    ghost use Rattle.dk_recount.specs.Recount.{IsReady};

    /// The tables at tick 0, of which the recount is that of no entries. The configuration is certified.
    ///
    /// The refusal is for want of memory alone.
    pub fn reserve(alloc: Global, config: &Config) -> Result<AllTables, NoMemory>
        requires checked { IsChecked config.now }
        requires limits { IsWithinLimits config.now }
        requires accepted { IsAccepted config.now }
        ensures { IfOk result (λ tables. IsReady config.now [] tables) }
    {
        start_is_the_recount();
        AllTables::reserve_counted::<Brand>(alloc, config, Blank::new(1))
    }

    /// The tables at the start, counted on a counter of its own.
    fn reserve_counted<L: Ledger>(
        alloc: Global,
        config: &Config,
        blank: Blank,
    ) -> Result<AllTables, NoMemory>
        requires checked { IsChecked config.now }
        requires limits { IsWithinLimits config.now }
        requires accepted { IsAccepted config.now }
        requires name { blank.name ≡ L.name }
        requires parts { blank.parts ≡ L.parts }
        requires some { 0 < L.parts }
        ensures { IfOk result (λ tables. tables ≡ tables_at_start config.now) }
    {
        let mut steps = Steps::<L>::new(blank);
        let table = table_of(config);
        let threads = Threads::reserve(alloc, config)?;
        let slack = slack_of(alloc, config, &table)?;
        let jobs = first_jobs(alloc, config, &mut steps)?;
        let kernel = first_parts(alloc, config)?;
        Ok(AllTables::at_start(config, &table, threads, slack, jobs, kernel, &mut steps))
    }

    /// What takes memory, with what takes none.
    fn at_start<L: Ledger>(
        config: &Config,
        table: &Table,
        threads: Threads,
        slack: SlackTable,
        jobs: Jobs,
        kernel: Vec<Job>,
        steps: &mut Steps<L>,
    ) -> AllTables
        requires checked { IsChecked config.now }
        requires limits { IsWithinLimits config.now }
        requires accepted { IsAccepted config.now }
        requires rows { table.now ≡ rows_of config.now }
        requires threads { threads ≡ table_at_start config.now }
        requires slack { slack ≡ no_wishes config.now (spares_of config.now) }
        requires jobs { jobs ≡ seated config.now (length config.now.processes) }
        requires kernel { kernel.items ≡ first_parts config.now }
        ensures { result ≡ tables_at_start config.now }
    {
        AllTables {
            threads,
            loans: Loans::at_start(config),
            mutexes: Mutexes::at_start(config),
            demand: first_cells(config, table, steps),
            slack,
            jobs,
            kernel: Parts::new(kernel),
            releases: releases_of(config),
            rights: rights_of(config),
        }
    }

    /// The node of a thread that has a row.
    fn node_of(&self, id: ThreadId) -> u32
        ensures { result ≡ node_in self.now.threads id }
    {
        let slot = match self.threads.find(id) {
            Some(row) => row.slot,
            None => 0,
        };
        node_at(id.process, slot)
    }
}
