//! The report of a ledger's windows.
ghost use Rattle.std.specs.Prelude.{ℕ, List, [], ◌≡◌, IfOk, IsErrOf, OnOk};
ghost use Rattle.dk_trace.specs.declared.Entry.{Entry};
ghost use Rattle.dk_ledger.specs.declared.ledger.LedgerFault.{LedgerFault as Fault};
ghost use Rattle.dk_ledger.specs.Heading.{IsPrintable};
ghost use Rattle.dk_ledger.specs.Readable.{IsNoText, IsWrongLine};
ghost use Rattle.dk_window_report.specs.Rows.{IsKeptOf};
ghost use Rattle.dk_window_report.specs.Touched.{IsPlaced};
ghost use Rattle.dk_window_report.specs.Clean.{is_clean, is_strictly_clean};
ghost use Rattle.dk_window_report.specs.Report.{ComesNext, IsKeptIn, overruns_in, is_kept_clean, is_kept_strictly_clean};

use crate::account::Account;
use crate::clean::{any_counts, overruns_in};
use crate::kept::Table;
use crate::late::rows_before;
use crate::row::Row;
use dk_config::NoMemory;
use dk_ledger::{Header, LedgerFault, LedgerLine, LedgerReader};
use std::alloc::Global;
use std::marker::Model;

/// What each thread of a ledger did in its windows that have ended.
#[derive(Drop)]
pub struct WindowReport {
    header: Header,
    table: Table,
}

impl Model for WindowReport {
    ghost use Rattle.dk_window_report.specs.Report.{Reported};

    ghost Value = { Reported };

    ghost view = { λ r. record { heading = r.header; kept = r.table.kept } };
}

/// Takes the entries of this line, and of all lines behind it.
fn take_lines(
    reader: &mut LedgerReader,
    alloc: Global,
    bytes: &[u8],
    first: Option<LedgerLine>,
    table: &mut Table,
) -> Result<(), LedgerFault>
    requires next { ComesNext bytes.now [] first reader.old }
    requires none { IsKeptOf reader.old.kept.heading [] table.old.kept }
    requires placed { IsPlaced table.old }
    ensures kept { OnOk result (IsKeptIn bytes.now reader.new.kept.heading table.new.kept) }
    ensures heading { OnOk result (reader.new.kept.heading ≡ reader.old.kept.heading) }
    ensures line { (n : ℕ) → IsErrOf result (Fault.Line n) → IsWrongLine n bytes.now × IsNoText bytes.now }
{
    let _bytes = bytes;
    let mut next = first;
    while let Some(line) = next {
        table.add_line(reader.header(), line)?;
        next = reader.next(alloc)?;
    }
    Ok(())
}

impl WindowReport {
    /// The report of the ledger in these bytes, which are read once, line by line. It takes a row for each thread,
    /// and all of its memory.
    ///
    /// `Line` names the first line, counted from 1, by which the bytes are the text of no ledger, as `read_ledger` does.
    pub fn of(alloc: Global, bytes: &[u8]) -> Result<WindowReport, LedgerFault>
        ensures kept { IfOk result (λ r. IsKeptIn bytes.now r.heading r.kept) }
        ensures printable { IfOk result (λ r. IsPrintable r.heading) }
        ensures line { (n : ℕ) → IsErrOf result (Fault.Line n) → IsWrongLine n bytes.now × IsNoText bytes.now }
    {
        let mut reader = LedgerReader::new(alloc, bytes);
        let first = reader.next(alloc)?;
        let mut table = Table::new(alloc, reader.header())?;
        take_lines(&mut reader, alloc, bytes, first, &mut table)?;
        Ok(WindowReport {
            header: reader.into_header(),
            table,
        })
    }

    /// In how many windows a thread overran, over all threads, up to the last value.
    pub fn overruns(&self) -> u32
        ensures { result ≡ overruns_in self.now.kept.rows }
    {
        overruns_in(self.table.ticks(), self.table.lates())
    }

    /// What befell each process, in the header's order.
    pub fn accounts(&self) -> &[Account]
        ensures { result.now ≡ self.now.kept.accounts }
    {
        self.table.accounts()
    }

    /// The ledger's header.
    pub fn header(&self) -> &Header
        ensures { result.now ≡ self.now.heading }
    {
        &self.header
    }

    /// What each thread did: the mains in the header's order, and then the children in the order in which they were made.
    pub fn rows(&self, alloc: Global) -> Result<Vec<Row>, NoMemory>
        ensures { IfOk result (λ v. v.items ≡ self.now.kept.rows) }
    {
        rows_before(alloc, self.table.ticks(), self.table.lates())
    }

    /// Whether nothing overran, no call was refused, and no thread faulted.
    pub fn is_clean(&self) -> bool
        ensures kept { result ≡ is_kept_clean self.now.kept }
        ensures clean { (past : List Entry) → IsKeptOf self.now.heading past self.now.kept
            → result ≡ is_clean self.now.heading past }
    {
        self.overruns() == 0 && !self.table.is_troubled()
    }

    /// Whether no call was refused, no thread faulted, and nothing overran; with `sparing` a thread that lives on slack
    /// may overrun: one that never waits, of a process that had slack.
    pub fn is_strictly_clean(&self, sparing: bool) -> bool
        ensures kept { result ≡ is_kept_strictly_clean sparing self.now.kept }
        ensures clean { (past : List Entry) → IsKeptOf self.now.heading past self.now.kept
            → result ≡ is_strictly_clean sparing self.now.heading past }
    {
        let table = &self.table;
        !any_counts(sparing, table.accounts(), table.ticks(), table.lates()) && !table.is_troubled()
    }
}
