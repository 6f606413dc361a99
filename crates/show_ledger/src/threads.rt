//! A row for each thread: what it did in its windows, and in that of a main what befell its process.
ghost use Rattle.std.specs.Prelude.{List, ◌≡◌, ◌++◌, flat_map, map, IfOk, OnOk};
ghost use Rattle.dk_trace.specs.declared.Entry.{Entry};
ghost use Rattle.dk_ledger.specs.Heading.{IsPrintable};
ghost use Rattle.dk_window_report.specs.Rows.{IsKeptOf};
ghost use Rattle.show_rows.specs.Rows.{cell_text};
ghost use Rattle.show_ledger.specs.Threads.{account_of_row, befallen_row, first_of, kind_word, own_row, thread_told, windows_csv};

use crate::cells::{name_at, told_if};
use dk_config::NoMemory;
use dk_ledger::Header;
use dk_window_report::{Account, Row, Tally, WindowReport, budget_at, first_tick, first_window};
use show_rows::Cell::{Gap, Number, Word};
use show_rows::{Cell, Form, add_columns, add_row};
use std::alloc::{AllocError, Global};

const COLUMNS: &str =
    "process,kind,serial,windows,waited,stopped,overran,first_window,first_tick,used_least,used_most,done_first,done_last,budget,refused,refused_first,faults,faults_first,slack,slack_first";

const THREAD: &str =
    "{process}.{serial} windows {windows} waited {waited} stopped {stopped} overran {overran} used {used_least} to {used_most} done {done_first} to {done_last}\n";

/// A main or a child.
fn kind_word(row: &Row) -> &'static str
    ensures { result.now ≡ kind_word row.now }
{
    if row.thread.serial == 0 {
        "main"
    } else {
        "child"
    }
}

fn own_cells<'a>(header: &'a Header, row: &Row) -> [Cell<'a>; 13]
    requires { IsPrintable header.now }
    ensures { map cell_text result ≡ own_row header.now row.now }
{
    let counts = row.counts;
    [
        Word(name_at(header, row.thread.process)),
        Word(kind_word(row)),
        Number(row.thread.serial as u64),
        Number(counts.windows as u64),
        Number(counts.waited as u64),
        Number(counts.stopped as u64),
        Number(counts.overran as u64),
        told_if(counts.overran, first_window(row)),
        told_if(counts.overran, first_tick(row)),
        Number(counts.least_used as u64),
        Number(counts.most_used as u64),
        Number(counts.first_done as u64),
        Number(counts.last_done as u64),
    ]
}

fn first_of(tally: Tally) -> Cell<'static>
    ensures { cell_text result ≡ first_of tally }
{
    told_if(tally.count, tally.first)
}

fn befallen_cells(header: &Header, account: Option<Account>) -> [Cell<'static>; 7]
    ensures { map cell_text result ≡ befallen_row header.now account }
{
    match account {
        Some(account) => [
            Number(budget_at(header, account.process) as u64),
            Number(account.refused.count as u64),
            first_of(account.refused),
            Number(account.faults.count as u64),
            first_of(account.faults),
            Number(account.slack.count as u64),
            first_of(account.slack),
        ],
        None => [Gap, Gap, Gap, Gap, Gap, Gap, Gap],
    }
}

/// The account of the process, where the row is that of its main.
fn account_of_row(accounts: &[Account], row: &Row) -> Option<Account>
    ensures { result ≡ account_of_row accounts.now row.now }
{
    if row.thread.serial != 0 {
        return None;
    }
    match accounts.get(row.thread.process as usize) {
        Some(account) => Some(*account),
        None => None,
    }
}

fn add_thread(
    alloc: Global,
    out: &mut Vec<u8>,
    form: Form,
    header: &Header,
    accounts: &[Account],
    row: &Row,
) -> Result<(), AllocError>
    requires { IsPrintable header.now }
    ensures { OnOk result (out.new.items ≡ out.old.items ++ thread_told form header.now accounts.now row.now) }
{
    let befallen = befallen_cells(header, account_of_row(accounts, row));
    let mut cells = Vec::from_array(alloc, own_cells(header, row))?;
    cells.extend_from_slice(&befallen)?;
    add_row(alloc, out, form, COLUMNS, THREAD, cells.as_slice())
}

pub(crate) fn add_threads(
    alloc: Global,
    out: &mut Vec<u8>,
    form: Form,
    header: &Header,
    accounts: &[Account],
    rows: &[Row],
) -> Result<(), AllocError>
    requires { IsPrintable header.now }
    ensures { OnOk result (out.new.items ≡ out.old.items ++ flat_map (thread_told form header.now accounts.now) rows.now) }
{
    for row in rows {
        add_thread(alloc, out, form, header, accounts, row)?;
    }
    Ok(())
}

/// What each thread did in its windows and what befell each process, as a table: a record for each thread. What befell a
/// process stands in the record of its main. A field is empty where there is nothing that it could tell. `Err` is want of
/// memory.
pub fn windows_csv(alloc: Global, report: &WindowReport) -> Result<Vec<u8>, NoMemory>
    requires { IsPrintable report.now.heading }
    ensures { IfOk result (λ v. (past : List Entry) → IsKeptOf report.now.heading past report.now.kept
        → v.items ≡ windows_csv report.now.heading past) }
{
    let rows = report.rows(alloc)?;
    let mut out = Vec::new(alloc);
    add_columns(&mut out, Form::Record, COLUMNS)?;
    add_threads(
        alloc,
        &mut out,
        Form::Record,
        report.header(),
        report.accounts(),
        rows.as_slice(),
    )?;
    Ok(out)
}
