//! Each window that each thread overran.
ghost use Rattle.std.specs.Prelude.{ℕ, ◌≡◌, ◌/◌, ◌++◌, flat_map, reverse, IfOk, IsErrOf, OnOk};
ghost use Rattle.dk_ledger.specs.declared.ledger.LedgerFault.{LedgerFault as Fault};
ghost use Rattle.dk_ledger.specs.Heading.{IsPrintable};
ghost use Rattle.dk_ledger.specs.Readable.{Journal, IsNoText, IsReadable, IsWrongLine, text_of};
ghost use Rattle.show_ledger.specs.Overruns.{all_windows, overrun_told};

use crate::cells::name_at;
use crate::lines::{Strictness, windows_lines};
use dk_config::NoMemory;
use dk_ledger::{Header, LedgerFault};
use dk_overrun_spans::{Overrun, overruns_in};
use dk_window_report::WindowReport;
use show_rows::Cell::{Number, Word};
use show_rows::{Form, add_note};
use std::alloc::{AllocError, Global};

const COLUMNS: &str = "process,serial,window,tick";

const OVERRUN: &str = "{process}.{serial} overran in window {window} tick {tick}\n";

/// The number of the window of so many ticks that begins with the tick.
fn window_of(period: u32, tick: u32) -> u32
    ensures { result ≡ tick / period }
{
    if period == 0 { 0 } else { tick / period }
}

fn add_overrun(
    alloc: Global,
    out: &mut Vec<u8>,
    header: &Header,
    overrun: &Overrun,
) -> Result<(), AllocError>
    requires { IsPrintable header.now }
    ensures { OnOk result (out.new.items ≡ out.old.items ++ overrun_told header.now overrun.now) }
{
    let cells = [
        Word(name_at(header, overrun.thread.process)),
        Number(overrun.thread.serial as u64),
        Number(window_of(overrun.period, overrun.start) as u64),
        Number(overrun.start as u64),
    ];
    add_note(alloc, out, Form::Line, COLUMNS, OVERRUN, &cells)
}

fn add_overruns(
    alloc: Global,
    out: &mut Vec<u8>,
    header: &Header,
    overruns: &[Overrun],
) -> Result<(), NoMemory>
    requires { IsPrintable header.now }
    ensures { OnOk result (out.new.items ≡ out.old.items ++ flat_map (overrun_told header.now) overruns.now) }
{
    for overrun in overruns {
        add_overrun(alloc, out, header, overrun)?;
    }
    Ok(())
}

/// What the threads of the ledger in these bytes did in their windows, and each window that they overran. `Line` names the
/// first line, counted from 1, by which the bytes are the text of no ledger, as `read_ledger` does.
pub fn all_windows(alloc: Global, bytes: &[u8]) -> Result<Vec<u8>, LedgerFault>
    ensures text { IfOk result (λ v. (j : Journal) × IsReadable j × (text_of j ≡ bytes.now)
        × (v.items ≡ all_windows j.heading (reverse j.entries))) }
    ensures line { (n : ℕ) → IsErrOf result (Fault.Line n) → IsWrongLine n bytes.now × IsNoText bytes.now }
{
    let report = WindowReport::of(alloc, bytes)?;
    let mut out = windows_lines(alloc, &report, Strictness::Free)?;
    let found = overruns_in(alloc, bytes, &report)?;
    add_overruns(alloc, &mut out, report.header(), found.as_slice())?;
    Ok(out)
}
