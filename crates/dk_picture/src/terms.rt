//! What the thread of a row may use.
ghost use Rattle.std.specs.Prelude.{◌≡◌, find};
ghost use Rattle.dk_picture.specs.Terms.{budget_of, child_terms, creates, is_of_process, makes, period_of, terms_of, thread_terms};

use crate::row_list::level_of;
use crate::rows::Row;
use dk_ledger::{Header, LedgerLine};
use dk_trace::{Event, ThreadId};

/// So many ticks of each window of its process's level, which has so many, in windows of its own level.
#[derive(Clone, Copy)]
pub(crate) struct Terms {
    pub(crate) budget: u32,
    pub(crate) period: u32,
    pub(crate) level: u8,
}

pub(crate) fn budget_of(header: &Header, process: u8) -> u32
    ensures { result ≡ budget_of header.now process }
{
    match header.processes.as_slice().get(process as usize) {
        Some(line) => line.budget,
        None => 0,
    }
}

pub(crate) fn period_of(header: &Header, level: u8) -> u32
    ensures { result ≡ period_of header.now level }
{
    match header.levels.as_slice().get(level as usize) {
        Some(row) => row.period,
        None => 0,
    }
}

fn creates(serial: u32, event: Option<Event>) -> bool
    ensures { result ≡ creates serial event }
{
    match event {
        Some(Event::Create { serial: made, .. }) => made == serial,
        _ => false,
    }
}

fn is_of_process(process: u8, thread: Option<ThreadId>) -> bool
    ensures { result ≡ is_of_process process thread }
{
    match thread {
        Some(thread) => thread.process == process,
        None => false,
    }
}

/// Whether it is the line that makes the child.
fn makes(child: ThreadId, line: &LedgerLine) -> bool
    ensures { result ≡ makes child line.now }
{
    is_of_process(child.process, line.label.thread()) && creates(child.serial, line.event)
}

fn making_of(makings: &[LedgerLine], child: ThreadId) -> Option<LedgerLine>
    ensures { result ≡ find (makes child) makings.now }
{
    for line in makings {
        if makes(child, line) {
            return Some(*line);
        }
    }
    None
}

/// The terms with which the line makes a child.
fn child_terms(period: u32, line: Option<LedgerLine>) -> Option<Terms>
    ensures { result ≡ child_terms period line }
{
    match line {
        Some(line) => match line.event {
            Some(Event::Create { level, quota, .. }) => Some(Terms {
                budget: quota,
                period,
                level,
            }),
            _ => None,
        },
        None => None,
    }
}

fn thread_terms(header: &Header, makings: &[LedgerLine], thread: ThreadId) -> Option<Terms>
    ensures { result ≡ thread_terms header.now makings.now thread }
{
    let level = level_of(header, thread.process);
    let period = period_of(header, level);
    if thread.serial == 0 {
        let budget = budget_of(header, thread.process);
        Some(Terms {
            budget,
            period,
            level,
        })
    } else {
        child_terms(period, making_of(makings, thread))
    }
}

/// The terms of a row's thread, where it has one and they are known.
pub(crate) fn terms_of(header: &Header, makings: &[LedgerLine], row: Row) -> Option<Terms>
    ensures { result ≡ terms_of header.now makings.now row }
{
    match row {
        Row::Thread(thread) => thread_terms(header, makings, thread),
        _ => None,
    }
}
