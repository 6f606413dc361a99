//! What befell each process: refused calls, faults and slack.
ghost use Rattle.std.specs.Prelude.{[], ◌≡◌, IfOk};
ghost use Rattle.dk_ledger.specs.Heading.{IsPrintable};
ghost use Rattle.dk_window_report.specs.Accounts.{account_of, account_with, accounts_of, accounts_with, faults, is_slack, refuses, tally_with};

use dk_config::NoMemory;
use dk_ledger::Header;
use dk_trace::{Entry, Event, Label};
use std::alloc::Global;

/// How many entries are of a kind, and the tick of the first (0 where none is).
#[derive(Clone, Copy)]
pub struct Tally {
    pub count: u32,
    pub first: u32,
}

/// What befell the threads of a process.
#[derive(Clone, Copy)]
pub struct Account {
    pub process: u8,
    pub refused: Tally,
    pub faults: Tally,
    pub slack: Tally,
}

fn refuses(entry: Entry) -> bool
    ensures { result ≡ refuses entry }
{
    match entry.event {
        Some(Event::Refused(_)) => true,
        _ => false,
    }
}

fn faults(entry: Entry) -> bool
    ensures { result ≡ faults entry }
{
    match entry.event {
        Some(Event::Fault(_)) => true,
        _ => false,
    }
}

fn is_slack(entry: Entry) -> bool
    ensures { result ≡ is_slack entry }
{
    match entry.label {
        Label::Slack { .. } => true,
        _ => false,
    }
}

fn tally_with(more: bool, now: u32, tally: Tally) -> Tally
    ensures { result ≡ tally_with more now tally }
{
    if !more {
        return tally;
    }
    Tally {
        count: tally.count.saturating_add(1),
        first: if tally.count == 0 { now } else { tally.first },
    }
}

/// The account of the process whose entry of tick `now` it is.
fn account_with(now: u32, entry: Entry, account: Account) -> Account
    ensures { result ≡ account_with now entry account }
{
    Account {
        process: account.process,
        refused: tally_with(refuses(entry), now, account.refused),
        faults: tally_with(faults(entry), now, account.faults),
        slack: tally_with(is_slack(entry), now, account.slack),
    }
}

/// Takes the entry of tick `now`.
pub fn take_entry(accounts: &mut Vec<Account>, now: u32, entry: Entry)
    ensures { accounts.new.items ≡ accounts_with now entry accounts.old.items }
{
    if let Some(thread) = entry.label.thread() {
        let place = thread.process as usize;
        if place < accounts.len() {
            accounts[place] = account_with(now, entry, accounts[place]);
        }
    }
}

/// The account of a process to which nothing happened yet.
fn new_account(process: u8) -> Account
    ensures { result ≡ account_of [] process }
{
    let none = Tally { count: 0, first: 0 };
    Account {
        process,
        refused: none,
        faults: none,
        slack: none,
    }
}

/// The accounts of the processes before tick 0.
pub fn new_accounts(alloc: Global, header: &Header) -> Result<Vec<Account>, NoMemory>
    requires { IsPrintable header.now }
    ensures { IfOk result (λ v. v.items ≡ accounts_of header.now []) }
{
    let mut accounts = Vec::new(alloc);
    for process in 0..header.processes.len() {
        accounts.push(new_account(process as u8))?;
    }
    Ok(accounts)
}
