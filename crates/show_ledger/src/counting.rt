//! What is counted of a ledger, line by line.
ghost use Rattle.std.specs.Prelude.{ℕ, ◌≡◌, [], IfOk, IsErrOf, OnOk, length};
ghost use Rattle.dk_ledger.specs.Heading.{IsPrintable};
ghost use Rattle.dk_ledger.specs.declared.ledger.LedgerFault.{LedgerFault as Fault};
ghost use Rattle.dk_ledger.specs.Readable.{IsNoText, IsWrongLine};
ghost use Rattle.dk_ledger.specs.ReadSoFar.{ComesNext};
ghost use Rattle.dk_report.specs.Counts.{StandsFor};
ghost use Rattle.show_ledger.specs.Reports.{HasCounted, IsCounted};

use dk_config::NoMemory;
use dk_ledger::{Header, LedgerFault, LedgerLine, LedgerReader};
use dk_report::Totals;
use std::alloc::Global;

/// The header of a ledger, and its totals.
#[derive(Drop)]
pub(crate) struct Counted {
    pub header: Header,
    pub totals: Totals,
}

/// Counts the entries of this line, and of all lines behind it.
fn count_lines(
    reader: &mut LedgerReader,
    alloc: Global,
    bytes: &[u8],
    first: Option<LedgerLine>,
    totals: &mut Totals,
) -> Result<(), LedgerFault>
    requires next { ComesNext bytes.now [] first reader.old }
    requires none { StandsFor totals.old [] }
    requires levels { length totals.old.levels ≡ length reader.old.kept.heading.levels }
    requires processes { length totals.old.processes ≡ length reader.old.kept.heading.processes }
    ensures counted { OnOk result (HasCounted bytes.now reader.new.kept.heading totals.new) }
    ensures heading { OnOk result (reader.new.kept.heading ≡ reader.old.kept.heading) }
    ensures levels { OnOk result (length totals.new.levels ≡ length totals.old.levels) }
    ensures processes { OnOk result (length totals.new.processes ≡ length totals.old.processes) }
    ensures line { (n : ℕ) → IsErrOf result (Fault.Line n) → IsWrongLine n bytes.now × IsNoText bytes.now }
{
    let _bytes = bytes;
    let mut next = first;
    while let Some(line) = next {
        totals.add_stretch(line.count, line.last());
        next = reader.next(alloc)?;
    }
    Ok(())
}

/// The totals of no entry, for as many levels and processes as the header has.
fn totals_for(alloc: Global, header: &Header) -> Result<Totals, NoMemory>
    requires { IsPrintable header.now }
    ensures none { IfOk result (λ t. StandsFor t []) }
    ensures levels { IfOk result (λ t. length header.now.levels ≡ length t.levels) }
    ensures processes { IfOk result (λ t. length header.now.processes ≡ length t.processes) }
{
    let levels = header.levels.len() as u8;
    let processes = header.processes.len() as u8;
    Totals::reserve(alloc, levels, processes)
}

/// The header and the totals of the ledger in these bytes. They need no memory but their own.
pub(crate) fn counted_of(alloc: Global, bytes: &[u8]) -> Result<Counted, LedgerFault>
    ensures counted { IfOk result (IsCounted bytes.now) }
    ensures line { (n : ℕ) → IsErrOf result (Fault.Line n) → IsWrongLine n bytes.now × IsNoText bytes.now }
{
    let mut reader = LedgerReader::new(alloc, bytes);
    let first = reader.next(alloc)?;
    let mut totals = totals_for(alloc, reader.header())?;
    count_lines(&mut reader, alloc, bytes, first, &mut totals)?;
    Ok(Counted {
        header: reader.into_header(),
        totals,
    })
}
