//! The header and the report as text.
ghost use Rattle.std.specs.Prelude.{ℕ, ◌≡◌, ◌++◌, IfOk, IsErrOf, length};
ghost use Rattle.dk_ledger.specs.Heading.{IsPrintable, header_text};
ghost use Rattle.dk_ledger.specs.declared.ledger.LedgerFault.{LedgerFault as Fault};
ghost use Rattle.dk_ledger.specs.Readable.{IsNoText, IsWrongLine};
ghost use Rattle.dk_report.specs.Report.{numbers_text};
ghost use Rattle.show_ledger.specs.Reports.{IsReport};

use crate::counting::counted_of;
use dk_config::NoMemory;
use dk_ledger::{Header, LedgerFault, write_header};
use dk_outside::MemSink;
use dk_report::Totals;
use std::alloc::Global;

/// The bytes that such a text has at most: fewer than a hundred lines of up to 200 bytes.
const ROOM: usize = 20_000;

/// The report of a ledger.
#[derive(Drop)]
pub struct ReportTexts {
    /// As `deosk ledger --report` writes it: the lines of the header, and the totals behind them.
    pub report: Vec<u8>,
    /// The totals alone: a line for all ticks, for each level and for each process, and the end.
    pub totals: Vec<u8>,
}

fn header_bytes(alloc: Global, header: &Header) -> Result<Vec<u8>, NoMemory>
    requires { IsPrintable header.now }
    ensures { IfOk result (λ v. v.items ≡ header_text header.now) }
{
    let mut sink = MemSink::reserve(alloc, ROOM)?;
    match write_header(header, &mut sink) {
        Ok(()) => Ok(sink.bytes().to_vec(alloc)?),
        Err(_) => Err(NoMemory),
    }
}

fn totals_bytes(alloc: Global, header: &Header, totals: &Totals) -> Result<Vec<u8>, NoMemory>
    requires printable { IsPrintable header.now }
    requires levels { length header.now.levels ≡ length totals.now.levels }
    requires processes { length header.now.processes ≡ length totals.now.processes }
    ensures { IfOk result (λ v. v.items ≡ numbers_text header.now totals.now) }
{
    let mut sink = MemSink::reserve(alloc, ROOM)?;
    match totals.print(header, &mut sink) {
        Ok(()) => Ok(sink.bytes().to_vec(alloc)?),
        Err(_) => Err(NoMemory),
    }
}

/// The totals behind the header.
fn behind(header: Vec<u8>, totals: &[u8]) -> Result<Vec<u8>, NoMemory>
    ensures { IfOk result (λ v. v.items ≡ header.items ++ totals.now) }
{
    let mut report = header;
    report.extend_from_slice(totals)?;
    Ok(report)
}

/// The report of the ledger in these bytes.
///
/// `Line` names the first line, counted from 1, by which the bytes are the text of no ledger that can be read, as
/// `read_ledger` does. Else it is want of memory.
pub fn report_texts(alloc: Global, bytes: &[u8]) -> Result<ReportTexts, LedgerFault>
    ensures told { IfOk result (λ r. IsReport bytes.now r.report.items r.totals.items) }
    ensures line { (n : ℕ) → IsErrOf result (Fault.Line n) → IsWrongLine n bytes.now × IsNoText bytes.now }
{
    let counted = counted_of(alloc, bytes)?;
    let header = header_bytes(alloc, &counted.header)?;
    let totals = totals_bytes(alloc, &counted.header, &counted.totals)?;
    let report = behind(header, totals.as_slice())?;
    Ok(ReportTexts { report, totals })
}
