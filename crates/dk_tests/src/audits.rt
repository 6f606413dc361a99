//! A test of dk_audit: of a ledger as a list.
ghost use Rattle.dk_config.specs.Checked.{IsAccepted, IsChecked, IsWithinLimits};

use crate::given::config_of;
use dk_audit::{Finding, audit};
use dk_config::{Config, MAX_TICKS, NoMemory};
use dk_ledger::{Ledger, read_ledger};
use dk_trace::{Entry, Event, Label};
use std::alloc::Global;
use std::test::Fail;

/// One process of 3 ticks in 5, without children, slack or mutexes.
const ONE_PROCESS: &str = "
version = 1
[[level]]
period = 5
[[process]]
name = \"alpha\"
program = \"calls.bin\"
level = 0
budget = 3
";

/// A ledger of it that follows the rules.
const PASSED: &str =
    "level 0 period 5 demand 3 blocking 0 spare 2\nprocess alpha level 0 budget 3\n0 1 run alpha.0\n1 1 call alpha.0 put 7\n2 1 run alpha.0\n3 1 idle\nend 4\n";

/// Its ledgers, and what is found of each: nothing, nobody's tick where it has one more, and another budget.
static LEDGERS: [(&str, Finding); 3] = [
    (PASSED, Finding::Passed(4)),
    (
        "level 0 period 5 demand 3 blocking 0 spare 2\nprocess alpha level 0 budget 3\n0 1 call alpha.0 put 7\n1 1 run alpha.0\n2 1 idle\nend 3\n",
        Finding::Label(2),
    ),
    (
        "level 0 period 5 demand 3 blocking 0 spare 2\nprocess alpha level 0 budget 2\n0 1 run alpha.0\nend 1\n",
        Finding::Header,
    ),
];

/// An event in a tick in which nobody executes. No text of a ledger has one.
const IDLE_WAIT: Entry = Entry {
    label: Label::Idle,
    event: Some(Event::Wait),
};

// What reading says of the text would be in the way where the ledger is used.
fn ledger_of(alloc: Global, text: &str) -> Result<Ledger, Fail> {
    Ok(read_ledger(alloc, text.as_bytes())?)
}

// What the audit says of the ledger would be in the way where its finding is compared.
fn found_in(alloc: Global, config: &Config, ledger: &Ledger) -> Result<Option<Finding>, NoMemory>
    requires checked { IsChecked config.now }
    requires limits { IsWithinLimits config.now }
    requires accepted { IsAccepted config.now }
{
    if ledger.entries.len() >= MAX_TICKS as usize {
        return Ok(None);
    }
    Ok(Some(audit(alloc, config, ledger)?))
}

/// Fails where something else is found.
fn finds(alloc: Global, config: &Config, ledger: &Ledger, expected: Finding) -> Result<(), Fail>
    requires checked { IsChecked config.now }
    requires limits { IsWithinLimits config.now }
    requires accepted { IsAccepted config.now }
{
    let found = found_in(alloc, config, ledger)?;
    if found == Some(expected) {
        return Ok(());
    }
    Err(Fail::new(format_args!("{found:?} in place of {expected:?}")))
}

/// Fails where something else is found of the ledger of this text.
fn finds_of(alloc: Global, config: &Config, text: &str, expected: Finding) -> Result<(), Fail>
    requires checked { IsChecked config.now }
    requires limits { IsWithinLimits config.now }
    requires accepted { IsAccepted config.now }
{
    let ledger = ledger_of(alloc, text)?;
    finds(alloc, config, &ledger, expected)
}

/// The ledger that follows the rules, with a call behind it in nobody's tick.
fn with_idle_wait(alloc: Global) -> Result<Ledger, Fail> {
    let mut ledger = ledger_of(alloc, PASSED)?;
    ledger.entries.push(IDLE_WAIT)?;
    Ok(ledger)
}

#[test]
fn finds_the_first_breach(rt: HostRuntime) -> Result<(), Fail> {
    let config = config_of(rt.alloc(), ONE_PROCESS)?;
    for (text, expected) in LEDGERS {
        finds_of(rt.alloc(), &config, text, expected)?;
    }
    let ledger = with_idle_wait(rt.alloc())?;
    finds(rt.alloc(), &config, &ledger, Finding::Event(4))
}
