//! The audit of a ledger that is read line by line.
ghost use Rattle.std.specs.Prelude.{ℕ, ◌≡◌, ◌<◌, [], IfOk, IsErrOf};
ghost use Rattle.dk_config.specs.Checked.{IsAccepted, IsChecked, IsWithinLimits};
ghost use Rattle.dk_trace.specs.Guarantees.{Received, Bounded, Granted};
ghost use Rattle.dk_bound.specs.ByWhen.{AllByWhen, ByWhen};
ghost use Rattle.dk_ledger.specs.declared.ledger.LedgerFault.{LedgerFault};
ghost use Rattle.dk_ledger.specs.Readable.{IsNoText, IsWrongLine};
ghost use Rattle.dk_ledger.specs.ReadSoFar.{ComesNext};
ghost use Rattle.dk_past.specs.Past.{start};
ghost use Rattle.dk_audit.specs.Lines.{CanGoFurther, FollowsLine, GoesFurther, HasRoomForLine, IfPassedIn, IsFoundIn, IsFoundSoFar};

use crate::auditing::found_at;
use crate::finding::Finding;
use crate::heading::is_own_heading;
use crate::ticking::judge;
use dk_bound::{all_by_when_law, bounded_law, by_when_law, granted_law, received_law};
use dk_config::Config;
use dk_dispatch::Dispatcher;
use dk_ledger::{Header, LedgerFault, LedgerLine, LedgerReader, one_to_one};
use dk_steps::Steps;
use dk_trace::Entry;
use std::alloc::Global;
use std::marker::Brand;
use std::sync::ledger::{Blank, Ledger as Counter};

/// Judges the entries of a line, from tables at its first tick.
fn judge_line<L: Counter>(
    tables: &mut Dispatcher,
    line: LedgerLine,
    steps: &mut Steps<L>,
) -> Option<Finding>
    requires { HasRoomForLine line tables.old }
    ensures { FollowsLine line tables.old result tables.new }
{
    let quiet = Entry {
        label: line.label,
        event: None,
    };
    let last = Entry {
        label: line.label,
        event: line.event,
    };
    let end = line.start + (line.count - 1);
    for tick in line.start..end {
        if let Some(breach) = judge(tables, quiet, steps) {
            return Some(found_at(breach, tick));
        }
    }
    let breach = judge(tables, last, steps)?;
    Some(found_at(breach, end))
}

/// What is found of the entries of this line, and of all lines behind it, where this was found of those before.
fn judge_lines<L: Counter>(
    reader: &mut LedgerReader,
    alloc: Global,
    config: &Config,
    bytes: &[u8],
    first: Option<LedgerLine>,
    tables: &mut Dispatcher,
    found: Option<Finding>,
    blank: Blank,
) -> Result<Finding, LedgerFault>
    requires next { ComesNext bytes.now [] first reader.old }
    requires found { IsFoundSoFar config.now (record { heading = reader.old.kept.heading; entries = [] }) found tables.old }
    requires name { blank.name ≡ L.name }
    requires parts { blank.parts ≡ L.parts }
    requires some { 0 < L.parts }
    ensures finding { IfOk result (IsFoundIn config.now bytes.now) }
    ensures line { (n : ℕ) → IsErrOf result (LedgerFault.Line n) → IsWrongLine n bytes.now × IsNoText bytes.now }
{
    let _config = config;
    let _bytes = bytes;
    let mut steps = Steps::<L>::new(blank);
    let mut found = found;
    let mut ticks = 0;
    let mut next = first;
    while let Some(line) = next {
        found = further(found, tables, line, &mut steps);
        ticks += line.count;
        next = reader.next(alloc)?;
    }
    Ok(found.unwrap_or(Finding::Passed(ticks)))
}

/// What is found with the entries of one line more.
fn further<L: Counter>(
    found: Option<Finding>,
    tables: &mut Dispatcher,
    line: LedgerLine,
    steps: &mut Steps<L>,
) -> Option<Finding>
    requires { CanGoFurther line found tables.old }
    ensures { GoesFurther line found tables.old result tables.new }
{
    match found {
        Some(finding) => Some(finding),
        None => judge_line(tables, line, steps),
    }
}

/// Tells whether the bytes are a ledger that follows the rules for the configuration, and else the first tick that
/// doesn't. Its code goes over the bytes once, line by line, and keeps no entry; no clause says so.
///
/// What `audit` finds of the ledger that `read_ledger` reads of them is found, and `Line` is that of `read_ledger`.
pub fn audit_bytes(alloc: Global, config: &Config, bytes: &[u8]) -> Result<Finding, LedgerFault>
    requires checked { IsChecked config.now }
    requires limits { IsWithinLimits config.now }
    requires accepted { IsAccepted config.now }
    ensures finding { IfOk result (IsFoundIn config.now bytes.now) }
    ensures line { (n : ℕ) → IsErrOf result (LedgerFault.Line n) → IsWrongLine n bytes.now × IsNoText bytes.now }
    ensures received { IfOk result (λ finding. IfPassedIn finding (Received config.now) bytes.now) }
    ensures bounded { IfOk result (λ finding. IfPassedIn finding (Bounded config.now) bytes.now) }
    ensures by_when { IfOk result (λ finding. IfPassedIn finding (ByWhen config.now) bytes.now) }
    ensures all_by_when { IfOk result (λ finding. IfPassedIn finding (AllByWhen config.now) bytes.now) }
    ensures granted { IfOk result (λ finding. IfPassedIn finding (Granted config.now) bytes.now) }
{
    received_law();
    bounded_law();
    by_when_law();
    all_by_when_law();
    granted_law();
    one_to_one();
    let mut reader = LedgerReader::new(alloc, bytes);
    let first = reader.next(alloc)?;
    let mut tables = Dispatcher::reserve(alloc, config)?;
    let found = header_found(config, reader.header(), &tables);
    judge_lines::<Brand>(
        &mut reader,
        alloc,
        config,
        bytes,
        first,
        &mut tables,
        found,
        Blank::new(1),
    )
}

/// What is found of the header alone.
fn header_found(config: &Config, header: &Header, tables: &Dispatcher) -> Option<Finding>
    requires checked { IsChecked config.now }
    requires limits { IsWithinLimits config.now }
    requires accepted { IsAccepted config.now }
    requires start { tables.now.past ≡ start config.now }
    ensures { IsFoundSoFar config.now (record { heading = header.now; entries = [] }) result tables.now }
{
    let _tables = tables;
    if is_own_heading(config, header) {
        None
    } else {
        Some(Finding::Header)
    }
}
