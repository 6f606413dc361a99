//! What each main used of its budget in a window, and whether it overran it.
ghost use Rattle.std.specs.Prelude.{◌≡◌, ◌<◌, ◌^◌, false, length};
ghost use Rattle.std.specs.List.{list_any};
ghost use Rattle.std.specs.Option.{option_map_or};
ghost use Rattle.dk_picture.specs.Shares.{done_by, done_weight, is_done_in, is_last, is_whole, main_of, share_in, ticks_within, used_in, used_weight};

use crate::drawing::Drawing;
use crate::makings::has_made;
use crate::span::Span;
use crate::terms::budget_of;
use crate::windows::Window;
use dk_ledger::{Header, LedgerLine};
use dk_trace::{Event, Label, ThreadId};

/// What the main of a process used of its budget in the window from tick `first` up to before tick `end`, and the number of
/// its row.
#[derive(Clone, Copy)]
pub(crate) struct Share {
    pub(crate) process: u8,
    pub(crate) row: u16,
    pub(crate) first: u64,
    pub(crate) end: u64,
    pub(crate) used: u64,
    /// Behind the last tick that the budget paid for.
    pub(crate) done: u64,
    pub(crate) overran: bool,
    pub(crate) budget: u32,
    /// Whether children may have a part of the budget.
    pub(crate) shared: bool,
}

pub(crate) fn main_of(process: u8) -> ThreadId
    ensures { result ≡ main_of process }
{
    ThreadId { process, serial: 0 }
}

/// The ticks of the group in the window.
fn ticks_within(first: u64, end: u64, group: &LedgerLine) -> u64
    ensures value { result ≡ ticks_within first end group.now }
    ensures small { result < 2 ^ 32 }
{
    let behind = (group.start as u64 + group.count as u64).min(end);
    behind.saturating_sub((group.start as u64).max(first))
}

fn used_weight(thread: ThreadId, first: u64, end: u64, group: &LedgerLine) -> u64
    ensures value { result ≡ used_weight thread first end group.now }
    ensures small { result < 2 ^ 32 }
{
    if group.label.is_paid_by(thread) {
        ticks_within(first, end, group)
    } else {
        0
    }
}

/// The ticks of its budget that the thread used in the window.
fn used_in(groups: &[LedgerLine], thread: ThreadId, first: u64, end: u64) -> u64
    requires { length groups.now < 2 ^ 16 }
    ensures { result ≡ used_in groups.now thread first end }
{
    let mut sum = 0;
    for group in groups {
        sum += used_weight(thread, first, end, group);
    }
    sum
}

/// The tick behind the group's last one in the window that the thread's budget paid for.
fn done_weight(thread: ThreadId, first: u64, end: u64, group: &LedgerLine) -> u64
    ensures { result ≡ done_weight thread first end group.now }
{
    if used_weight(thread, first, end, group) > 0 {
        (group.start as u64 + group.count as u64).min(end)
    } else {
        0
    }
}

/// The tick behind the last one in the window that the thread's budget paid for, or 0.
fn done_by(groups: &[LedgerLine], thread: ThreadId, first: u64, end: u64) -> u64
    ensures { result ≡ done_by groups.now thread first end }
{
    let mut done = 0;
    for group in groups {
        done = done.max(done_weight(thread, first, end, group));
    }
    done
}

fn is_last(event: Option<Event>) -> bool
    ensures { result ≡ option_map_or is_last event false }
{
    matches!(event, Some(Event::Wait | Event::Exit | Event::Fault(_)))
}

/// Whether the thread's group ends in the window, with a call that ends its job or an event that ends it.
fn is_done_in(thread: ThreadId, first: u64, end: u64, group: &LedgerLine) -> bool
    ensures { result ≡ is_done_in thread first end group.now }
{
    let behind = group.start as u64 + group.count as u64;
    (group.label.is_of(thread) && is_last(group.event)) && (first < behind && behind <= end)
}

fn has_done(groups: &[LedgerLine], thread: ThreadId, first: u64, end: u64) -> bool
    ensures { result ≡ list_any (is_done_in thread first end) groups.now }
{
    for group in groups {
        if is_done_in(thread, first, end, group) {
            return true;
        }
    }
    false
}

/// What the main of the process used in the window.
pub(crate) fn share_in(header: &Header, drawing: &Drawing, process: u8, window: Window) -> Share
    ensures { result ≡ share_in header.now drawing.now process window }
{
    let main = main_of(process);
    let groups = drawing.groups();
    let used = used_in(groups, main, window.first, window.end);
    let done = has_done(groups, main, window.first, window.end);
    Share {
        process,
        row: drawing.rows().at(Label::Run(main)),
        first: window.first,
        end: window.end,
        used,
        done: done_by(groups, main, window.first, window.end),
        overran: used > 0 && !done,
        budget: budget_of(header, process),
        shared: has_made(drawing.makings(), main, window.first),
    }
}

/// Whether the window lies in the range.
pub(crate) fn is_whole(span: Span, window: Window) -> bool
    ensures { result ≡ is_whole span window }
{
    span.from as u64 <= window.first && window.end <= span.to as u64
}
