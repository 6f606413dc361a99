//! The audit of a ledger.
ghost use Rattle.std.specs.Prelude.{◌≡◌, ◌<◌, length, IfOk};
ghost use Rattle.dk_config.specs.Checked.{IsAccepted, IsChecked, IsWithinLimits};
ghost use Rattle.dk_trace.specs.Guarantees.{Received, Bounded, Granted};
ghost use Rattle.dk_bound.specs.ByWhen.{AllByWhen, ByWhen};
ghost use Rattle.dk_past.specs.Past.{start};
ghost use Rattle.dk_audit.specs.Findings.{IfPassed, IsFinding, IsFoundOf, found_at};

use crate::finding::{Breach, Finding};
use crate::heading::is_own_heading;
use crate::ticking::judge;
use dk_bound::{all_by_when_law, bounded_law, by_when_law, granted_law, received_law};
use dk_config::{Config, MAX_TICKS, NoMemory};
use dk_dispatch::Dispatcher;
use dk_ledger::Ledger;
use dk_steps::Steps;
use dk_trace::Entry;
use std::alloc::Global;
use std::marker::Brand;
use std::sync::ledger::{Blank, Ledger as Counter};

/// Tells whether the ledger follows the rules for the configuration, and else the first tick that doesn't. The
/// configuration is certified, and the ledger has fewer than 4,000,000,000 entries.
///
/// The rules ask nothing of the programs: neither of the number of a refusal, nor of the value of a put, nor of how
/// many ticks a call takes. Where all entries passed, each thread received its whole budget, ran past it on slack
/// alone, and had slack exactly where it was due. The refusal is for want of memory alone.
pub fn audit(alloc: Global, config: &Config, ledger: &Ledger) -> Result<Finding, NoMemory>
    requires checked { IsChecked config.now }
    requires limits { IsWithinLimits config.now }
    requires accepted { IsAccepted config.now }
    requires room { length ledger.now.entries < MAX_TICKS }
    ensures finding { IfOk result (λ finding. IsFinding config.now ledger.now finding) }
    ensures received { IfOk result (λ finding. IfPassed finding (Received config.now) ledger.now) }
    ensures bounded { IfOk result (λ finding. IfPassed finding (Bounded config.now) ledger.now) }
    ensures by_when { IfOk result (λ finding. IfPassed finding (ByWhen config.now) ledger.now) }
    ensures all_by_when { IfOk result (λ finding. IfPassed finding (AllByWhen config.now) ledger.now) }
    ensures granted { IfOk result (λ finding. IfPassed finding (Granted config.now) ledger.now) }
{
    received_law();
    bounded_law();
    by_when_law();
    all_by_when_law();
    granted_law();
    if !is_own_heading(config, &ledger.header) {
        return Ok(Finding::Header);
    }
    let mut tables = Dispatcher::reserve(alloc, config)?;
    let entries = ledger.entries.as_slice();
    Ok(first_breach::<Brand>(config, &mut tables, entries, Blank::new(1)))
}

/// What is found of the entries, from tables at tick 0. The steps are counted on a counter of their own.
fn first_breach<L: Counter>(
    config: &Config,
    tables: &mut Dispatcher,
    entries: &[Entry],
    blank: Blank,
) -> Finding
    requires start { tables.old.past ≡ start config.now }
    requires room { length entries.now < MAX_TICKS }
    requires name { blank.name ≡ L.name }
    requires parts { blank.parts ≡ L.parts }
    requires some { 0 < L.parts }
    ensures { IsFoundOf config.now entries.now result }
{
    let mut steps = Steps::<L>::new(blank);
    for (tick, entry) in entries.iter().enumerate() {
        if let Some(breach) = judge(tables, *entry, &mut steps) {
            return found_at(breach, tick as u32);
        }
    }
    Finding::Passed(entries.len() as u32)
}

/// The finding of a first breach, which is in this tick.
pub(crate) fn found_at(breach: Breach, tick: u32) -> Finding
    ensures { result ≡ found_at breach tick }
{
    match breach {
        Breach::Label => Finding::Label(tick),
        Breach::Event => Finding::Event(tick),
    }
}
