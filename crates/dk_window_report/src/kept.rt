//! What is kept of all threads while a ledger is read.
ghost use Rattle.std.specs.Prelude.{suc, List, [], ◌≡◌, ◌+◌, ◌<◌, ◌≤◌, ◌++◌, length, map, reverse, option_to_list, IfOk, OnOk};
ghost use Rattle.dk_trace.specs.declared.Entry.{Entry};
ghost use Rattle.dk_trace.specs.Entries.{has_event};
ghost use Rattle.dk_ledger.specs.Cuts.{entries_of};
ghost use Rattle.dk_ledger.specs.Heading.{IsPrintable};
ghost use Rattle.dk_window_report.specs.Owners.{period_at, level_at, main_owner, mains, ticks_left, made_in};
ghost use Rattle.dk_window_report.specs.Rows.{fresh, new_row, is_trouble, kept_with, IsKeptOf};
ghost use Rattle.dk_window_report.specs.Late.{rows_at};
ghost use Rattle.dk_window_report.specs.Touched.{ArePlaced, IsPlaced};

use crate::account::{Account, new_accounts, take_entry};
use crate::late::Late;
use crate::row::{Did, Row, WindowCounts};
use crate::rows::Rows;
use dk_config::{MAX_RUN_TICKS, NoMemory};
use dk_ledger::{Header, LedgerLine};
use dk_trace::{Entry, Event, ThreadId};
use std::alloc::Global;
use std::marker::Model;

/// The row of a thread of which no window has begun.
pub fn fresh(thread: ThreadId, period: u32, since: u32) -> Row
    ensures { result ≡ fresh thread period since }
{
    Row {
        thread,
        period,
        since,
        did: Did::default(),
        counts: WindowCounts::default(),
        gone: false,
    }
}

/// The period of the level, and 0 where the header has no such line.
fn period_at(header: &Header, level: u8) -> u32
    ensures { result ≡ period_at header.now level }
{
    match header.levels.as_slice().get(level as usize) {
        Some(row) => row.period,
        None => 0,
    }
}

/// The level of the process, and 0 where the header has no such line.
fn level_at(header: &Header, process: u8) -> u8
    ensures { result ≡ level_at header.now process }
{
    match header.processes.as_slice().get(process as usize) {
        Some(line) => line.level,
        None => 0,
    }
}

/// The row of the main of the process, before tick 0.
pub fn main_row(header: &Header, process: u8) -> Row
    ensures { result ≡ new_row (main_owner header.now process) }
{
    let thread = ThreadId { process, serial: 0 };
    fresh(thread, period_at(header, level_at(header, process)), 0)
}

/// The ticks of the window that come after this one.
fn ticks_left(period: u32, now: u32) -> u32
    ensures { result ≡ ticks_left period now }
{
    if period == 0 {
        0
    } else {
        period - 1 - now % period
    }
}

/// The first tick of the window that comes next.
fn next_window(period: u32, now: u32) -> u32
    requires { now < MAX_RUN_TICKS }
    ensures { result ≡ suc now + ticks_left period now }
{
    now + 1 + ticks_left(period, now)
}

/// The row of the child that the entry of this tick makes, if it does.
fn child_row(header: &Header, now: u32, entry: Entry) -> Option<Row>
    requires { now < MAX_RUN_TICKS }
    ensures { option_to_list result ≡ map new_row (made_in header.now now entry) }
{
    let thread = entry.label.thread()?;
    match entry.event {
        Some(Event::Create { serial, level, .. }) => {
            if thread.serial != 0 {
                return None;
            }
            let period = period_at(header, level);
            let child = ThreadId {
                process: thread.process,
                serial,
            };
            Some(fresh(child, period, next_window(period, now)))
        }
        _ => None,
    }
}

/// Whether a call was refused in the entry, or a thread faulted.
fn is_trouble(entry: Entry) -> bool
    ensures { result ≡ has_event is_trouble entry }
{
    match entry.event {
        Some(Event::Refused(_)) => true,
        Some(Event::Fault(_)) => true,
        _ => false,
    }
}

/// What is kept: a row for each thread, an account of each process, how many entries there were, and whether a call was refused or a thread
/// faulted in one.
#[derive(Drop)]
pub struct Table {
    rows: Rows,
    accounts: Vec<Account>,
    ticks: u32,
    troubled: bool,
}

impl Model for Table {
    ghost use Rattle.dk_window_report.specs.Late.{rows_at};
    ghost use Rattle.dk_window_report.specs.Touched.{Tabled};

    ghost Value = { Tabled };

    ghost view = { λ t. record {
      kept = record { rows = rows_at t.ticks t.rows.lates.items; accounts = t.accounts.items; ticks = t.ticks; troubled = t.troubled };
      rows = t.rows;
    } };
}

/// The rows of the mains, before tick 0.
fn main_rows(alloc: Global, header: &Header) -> Result<Rows, NoMemory>
    requires { IsPrintable header.now }
    ensures rows { IfOk result (λ r. rows_at 0 r.lates.items ≡ map new_row (mains header.now (length header.now.processes))) }
    ensures placed { IfOk result (ArePlaced 0) }
{
    let mut rows = Rows::new(alloc, header.processes.len())?;
    for process in 0..header.processes.len() {
        rows.push(main_row(header, process as u8), 0)?;
    }
    Ok(rows)
}

impl Table {
    /// What is kept before the first entry: a row for each main.
    pub fn new(alloc: Global, header: &Header) -> Result<Table, NoMemory>
        requires { IsPrintable header.now }
        ensures start { IfOk result (λ t. IsKeptOf header.now [] t.kept) }
        ensures placed { IfOk result IsPlaced }
        ensures ticks { IfOk result (λ t. t.kept.ticks ≡ 0) }
    {
        Ok(Table {
            rows: main_rows(alloc, header)?,
            accounts: new_accounts(alloc, header)?,
            ticks: 0,
            troubled: false,
        })
    }

    /// The rows, as they were when something last happened to their threads.
    pub fn lates(&self) -> &[Late]
        ensures { rows_at self.now.kept.ticks result.now ≡ self.now.kept.rows }
    {
        self.rows.lates.as_slice()
    }

    /// What befell each process.
    pub fn accounts(&self) -> &[Account]
        ensures { result.now ≡ self.now.kept.accounts }
    {
        self.accounts.as_slice()
    }

    /// How many entries there were.
    pub fn ticks(&self) -> u32
        ensures { result ≡ self.now.kept.ticks }
    {
        self.ticks
    }

    /// Whether a call was refused or a thread faulted.
    pub fn is_troubled(&self) -> bool
        ensures { result ≡ self.now.kept.troubled }
    {
        self.troubled
    }

    /// Takes one entry more.
    fn add(&mut self, header: &Header, entry: Entry) -> Result<(), NoMemory>
        requires placed { IsPlaced self.old }
        requires few { self.old.kept.ticks < MAX_RUN_TICKS }
        ensures kept { OnOk result (self.new.kept ≡ kept_with header.now entry self.old.kept) }
        ensures placed { OnOk result (IsPlaced self.new) }
    {
        let now = self.ticks;
        self.rows.step(now, entry);
        if let Some(row) = child_row(header, now, entry) {
            self.rows.push(row, now + 1)?;
        }
        take_entry(&mut self.accounts, now, entry);
        self.ticks = now + 1;
        self.troubled = is_trouble(entry) || self.troubled;
        Ok(())
    }

    /// Takes the entries of a line.
    pub fn add_line(&mut self, header: &Header, line: LedgerLine) -> Result<(), NoMemory>
        requires placed { IsPlaced self.old }
        requires some { 0 < line.count }
        requires few { self.old.kept.ticks + line.count ≤ MAX_RUN_TICKS }
        ensures after { OnOk result ((es : List Entry) → IsKeptOf header.now (reverse es) self.old.kept
            → IsKeptOf header.now (reverse (es ++ entries_of line)) self.new.kept) }
        ensures placed { OnOk result (IsPlaced self.new) }
        ensures ticks { OnOk result (self.new.kept.ticks ≡ self.old.kept.ticks + line.count) }
    {
        let quiet = Entry {
            label: line.label,
            event: None,
        };
        for _turn in 1..line.count {
            self.add(header, quiet)?;
        }
        self.add(
            header,
            Entry {
                label: line.label,
                event: line.event,
            },
        )
    }
}
