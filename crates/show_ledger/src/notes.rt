//! Lines that the table hasn't: what befell each process, which window each thread overran first, and why a ledger isn't
//! clean.
ghost use Rattle.std.specs.Prelude.{◌≡◌, ◌++◌, flat_map, OnOk};
ghost use Rattle.dk_ledger.specs.Heading.{IsPrintable};
ghost use Rattle.show_rows.specs.Rows.{cell_text};
ghost use Rattle.show_ledger.specs.Notes.{first_word, overran_told, process_told, total_told, trouble_told, troubles_told};

use crate::cells::name_at;
use dk_ledger::Header;
use dk_window_report::{Account, Row, Tally, budget_at, counts, first_tick, first_window};
use show_rows::Cell::{Number, Word};
use show_rows::{Cell, Form, add_note};
use std::alloc::{AllocError, Global};

const TOTAL_COLUMNS: &str = "overruns";

const TOTAL: &str = "overruns {overruns}\n";

const PROCESS_COLUMNS: &str =
    "process,budget,refused,refused_first,faults,faults_first,slack,slack_first";

const PROCESS: &str =
    "process {process} budget {budget} refused {refused} first {refused_first} faults {faults} first {faults_first} slack {slack} first {slack_first}\n";

const OVERRAN_COLUMNS: &str = "process,serial,window,tick";

pub(crate) const OVERRAN: &str =
    "{process}.{serial} overran first in window {window} tick {tick}\n";

pub(crate) const STRICT_OVERRAN: &str =
    "strict: {process}.{serial} overran first in window {window} tick {tick}\n";

const TROUBLE_COLUMNS: &str = "process,count,first";

const REFUSED: &str = "strict: {process} refused {count} first {first}\n";

const FAULTS: &str = "strict: {process} faults {count} first {first}\n";

/// In how many windows all threads overran.
pub(crate) fn add_total(alloc: Global, out: &mut Vec<u8>, overruns: u32) -> Result<(), AllocError>
    ensures { OnOk result (out.new.items ≡ out.old.items ++ total_told overruns) }
{
    let cells = [Number(overruns as u64)];
    add_note(alloc, out, Form::Line, TOTAL_COLUMNS, TOTAL, &cells)
}

/// The tick of the first, and a dash where there is none.
fn first_word(tally: Tally) -> Cell<'static>
    ensures { cell_text result ≡ first_word tally }
{
    if tally.count == 0 {
        Word("-")
    } else {
        Number(tally.first as u64)
    }
}

fn add_process(
    alloc: Global,
    out: &mut Vec<u8>,
    header: &Header,
    account: &Account,
) -> Result<(), AllocError>
    requires { IsPrintable header.now }
    ensures { OnOk result (out.new.items ≡ out.old.items ++ process_told header.now account.now) }
{
    let cells = [
        Word(name_at(header, account.process)),
        Number(budget_at(header, account.process) as u64),
        Number(account.refused.count as u64),
        first_word(account.refused),
        Number(account.faults.count as u64),
        first_word(account.faults),
        Number(account.slack.count as u64),
        first_word(account.slack),
    ];
    add_note(alloc, out, Form::Line, PROCESS_COLUMNS, PROCESS, &cells)
}

/// What befell each process.
pub(crate) fn add_processes(
    alloc: Global,
    out: &mut Vec<u8>,
    header: &Header,
    accounts: &[Account],
) -> Result<(), AllocError>
    requires { IsPrintable header.now }
    ensures { OnOk result (out.new.items ≡ out.old.items ++ flat_map (process_told header.now) accounts.now) }
{
    for account in accounts {
        add_process(alloc, out, header, account)?;
    }
    Ok(())
}

/// Which window the thread overran first, where it counts.
fn add_overran(
    alloc: Global,
    out: &mut Vec<u8>,
    sentence: &str,
    sparing: bool,
    header: &Header,
    accounts: &[Account],
    row: &Row,
) -> Result<(), AllocError>
    requires { IsPrintable header.now }
    ensures { OnOk result (out.new.items ≡ out.old.items ++ overran_told sentence.now sparing header.now accounts.now row.now) }
{
    if !counts(sparing, accounts, row) {
        return Ok(());
    }
    let cells = [
        Word(name_at(header, row.thread.process)),
        Number(row.thread.serial as u64),
        Number(first_window(row) as u64),
        Number(first_tick(row) as u64),
    ];
    add_note(alloc, out, Form::Line, OVERRAN_COLUMNS, sentence, &cells)
}

/// Which window each thread overran first that counts.
pub(crate) fn add_overrans(
    alloc: Global,
    out: &mut Vec<u8>,
    sentence: &str,
    sparing: bool,
    header: &Header,
    accounts: &[Account],
    rows: &[Row],
) -> Result<(), AllocError>
    requires { IsPrintable header.now }
    ensures { OnOk result (out.new.items
        ≡ out.old.items ++ flat_map (overran_told sentence.now sparing header.now accounts.now) rows.now) }
{
    for row in rows {
        add_overran(alloc, out, sentence, sparing, header, accounts, row)?;
    }
    Ok(())
}

fn add_trouble(
    alloc: Global,
    out: &mut Vec<u8>,
    sentence: &str,
    header: &Header,
    process: u8,
    tally: Tally,
) -> Result<(), AllocError>
    requires { IsPrintable header.now }
    ensures { OnOk result (out.new.items ≡ out.old.items ++ trouble_told sentence.now header.now process tally) }
{
    if tally.count == 0 {
        return Ok(());
    }
    let cells = [
        Word(name_at(header, process)),
        Number(tally.count as u64),
        Number(tally.first as u64),
    ];
    add_note(alloc, out, Form::Line, TROUBLE_COLUMNS, sentence, &cells)
}

fn add_both(
    alloc: Global,
    out: &mut Vec<u8>,
    header: &Header,
    account: &Account,
) -> Result<(), AllocError>
    requires { IsPrintable header.now }
    ensures { OnOk result (out.new.items ≡ out.old.items ++ troubles_told header.now account.now) }
{
    let process = account.process;
    add_trouble(alloc, out, REFUSED, header, process, account.refused)?;
    add_trouble(alloc, out, FAULTS, header, process, account.faults)
}

/// The refused calls of each process, and its faults.
pub(crate) fn add_troubles(
    alloc: Global,
    out: &mut Vec<u8>,
    header: &Header,
    accounts: &[Account],
) -> Result<(), AllocError>
    requires { IsPrintable header.now }
    ensures { OnOk result (out.new.items ≡ out.old.items ++ flat_map (troubles_told header.now) accounts.now) }
{
    for account in accounts {
        add_both(alloc, out, header, account)?;
    }
    Ok(())
}
