//! What a ledger comes to.
ghost use Rattle.std.specs.Prelude.{ℕ, ◌≡◌, [], IfOk, IsErrOf, OnOk, length};
ghost use Rattle.dk_ledger.specs.declared.ledger.LedgerFault.{LedgerFault};
ghost use Rattle.dk_ledger.specs.Readable.{IsNoText, IsWrongLine};
ghost use Rattle.dk_ledger.specs.ReadSoFar.{ComesNext};
ghost use Rattle.dk_report.specs.Counts.{StandsFor};
ghost use Rattle.dk_inputs.specs.Jobs.{ledger};
ghost use Rattle.dk_command.specs.Output.{Fails};
ghost use Rattle.dk_inputs.specs.Follows.{Makes};
ghost use Rattle.dk_command.specs.LedgerLines.{HasCounted};
ghost use Rattle.dk_command.specs.Work.{Does, IsReady, WritesFor};

use crate::Refusal;
use crate::prepare::totals_for;
use crate::work::Work;
use dk_ledger::{LedgerFault, LedgerLine, LedgerReader, check_ledger};
use dk_report::Totals;
use dk_request::Output;
use std::alloc::Global;

/// Counts the entries of this line, and of all lines behind it.
fn count_lines(
    reader: &mut LedgerReader,
    alloc: Global,
    bytes: &[u8],
    first: Option<LedgerLine>,
    totals: &mut Totals,
) -> Result<(), LedgerFault>
    requires next { ComesNext bytes.now [] first reader.old }
    requires none { StandsFor totals.old [] }
    requires levels { length totals.old.levels ≡ length reader.old.kept.heading.levels }
    requires processes { length totals.old.processes ≡ length reader.old.kept.heading.processes }
    ensures counted { OnOk result (HasCounted bytes.now reader.new.kept.heading totals.new) }
    ensures heading { OnOk result (reader.new.kept.heading ≡ reader.old.kept.heading) }
    ensures levels { OnOk result (length totals.new.levels ≡ length totals.old.levels) }
    ensures processes { OnOk result (length totals.new.processes ≡ length totals.old.processes) }
    ensures line { (n : ℕ) → IsErrOf result (LedgerFault.Line n) → IsWrongLine n bytes.now × IsNoText bytes.now }
{
    let _bytes = bytes;
    let mut next = first;
    while let Some(line) = next {
        totals.add_stretch(line.count, line.last());
        next = reader.next(alloc)?;
    }
    Ok(())
}

/// The report of the ledger in these bytes. It needs no memory but the header's and the totals'.
fn report_of_ledger(alloc: Global, bytes: &[u8]) -> Result<Work, LedgerFault>
    ensures does { IfOk result (λ w. WritesFor w (ledger bytes.now Output.Report)) }
    ensures ready { IfOk result IsReady }
    ensures line { (n : ℕ) → IsErrOf result (LedgerFault.Line n) → IsWrongLine n bytes.now × IsNoText bytes.now }
{
    let mut reader = LedgerReader::new(alloc, bytes);
    let first = reader.next(alloc)?;
    let mut totals = totals_for(alloc, reader.header())?;
    count_lines(&mut reader, alloc, bytes, first, &mut totals)?;
    Ok(Work::Report {
        header: reader.into_header(),
        totals,
    })
}

/// The bytes of a ledger, which are checked.
fn lines_of_ledger(alloc: Global, bytes: Vec<u8>) -> Result<Work, LedgerFault>
    ensures does { IfOk result (λ w. WritesFor w (ledger bytes.items Output.Ledger)) }
    ensures ready { IfOk result IsReady }
    ensures line { (n : ℕ) → IsErrOf result (LedgerFault.Line n) → IsWrongLine n bytes.items × IsNoText bytes.items }
{
    check_ledger(alloc, bytes.as_slice())?;
    Ok(Work::Lines(bytes))
}

/// The bytes of a ledger, or its report.
fn text_of_ledger(alloc: Global, bytes: Vec<u8>, output: Output) -> Result<Work, LedgerFault>
    ensures does { IfOk result (λ w. WritesFor w (ledger bytes.items output)) }
    ensures ready { IfOk result IsReady }
    ensures line { (n : ℕ) → IsErrOf result (LedgerFault.Line n) → IsWrongLine n bytes.items × IsNoText bytes.items }
{
    match output {
        Output::Report => report_of_ledger(alloc, bytes.as_slice()),
        Output::Ledger => lines_of_ledger(alloc, bytes),
    }
}

/// The bytes of a ledger, or its report.
pub fn ledger_work(alloc: Global, bytes: Vec<u8>, output: Output) -> Result<Work, Refusal>
    ensures does { Makes Does Fails result (ledger bytes.items output) }
    ensures ready { IfOk result IsReady }
{
    match text_of_ledger(alloc, bytes, output) {
        Ok(work) => Ok(work),
        Err(LedgerFault::Line(line)) => Err(Refusal::LedgerLine(line)),
        Err(LedgerFault::NoMemory) => Err(Refusal::NoMemory),
    }
}
