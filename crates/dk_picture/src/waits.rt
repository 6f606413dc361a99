//! Who kept a main waiting in a window: a thread of a slower level that held a mutex meanwhile.
ghost use Rattle.std.specs.Prelude.{◌≡◌, ◌++◌, IfOk, OnOk, string_bytes};
ghost use Rattle.std.specs.List.{list_any};
ghost use Rattle.dk_picture.specs.Waits.{holds_at, is_in_front, thread_level, wait_in, wait_of, wait_rect, wait_text, wait_words, waits_text};

use crate::drawing::Drawing;
use crate::elements::{Place, push_line, titled_rect};
use crate::frame::Frame;
use crate::lines::thread_words;
use crate::row_list::level_of;
use crate::rows::Row;
use crate::shares::{Share, main_of};
use crate::span::Span;
use crate::terms::terms_of;
use dk_hold_spans::Hold;
use dk_ledger::{Header, LedgerLine};
use dk_trace::ThreadId;
use std::alloc::{AllocError, Global};

/// The ticks from `start` up to before `end`, in which the thread has the processor.
#[derive(Clone, Copy)]
pub(crate) struct Wait {
    pub(crate) start: u64,
    pub(crate) end: u64,
    pub(crate) holder: ThreadId,
}

/// The level of the thread's windows.
fn thread_level(header: &Header, makings: &[LedgerLine], thread: ThreadId) -> u8
    ensures { result ≡ thread_level header.now makings.now thread }
{
    match terms_of(header, makings, Row::Thread(thread)) {
        Some(terms) => terms.level,
        None => 0,
    }
}

fn holds_at(thread: ThreadId, tick: u64, hold: &Hold) -> bool
    ensures { result ≡ holds_at thread tick hold.now }
{
    thread.is_same(hold.thread) && (hold.start as u64 <= tick && tick < hold.end as u64)
}

fn is_holder(holds: &[Hold], thread: ThreadId, tick: u64) -> bool
    ensures { result ≡ list_any (holds_at thread tick) holds.now }
{
    for hold in holds {
        if holds_at(thread, tick, hold) {
            return true;
        }
    }
    false
}

/// Whether the thread comes before a main of this level by a hold alone.
fn is_in_front(header: &Header, drawing: &Drawing, level: u8, wait: Wait) -> bool
    ensures { result ≡ is_in_front header.now drawing.now level wait }
{
    level < thread_level(header, drawing.makings(), wait.holder)
        && is_holder(drawing.holds(), wait.holder, wait.start)
}

/// The part of a group in the window before the main is done, and whose ticks they are.
fn wait_in(share: Share, group: &LedgerLine, owner: ThreadId) -> Wait
    ensures { result ≡ wait_in share group.now owner }
{
    Wait {
        start: (group.start as u64).max(share.first),
        end: (group.start as u64 + group.count as u64).min(share.done),
        holder: owner,
    }
}

#[tactic(auto, unfolding(crate::specs::Waits::wait_words))]
fn wait_words(
    alloc: Global,
    start: u64,
    count: u64,
    main: &str,
    holder: &str,
) -> Result<String, AllocError>
    ensures { IfOk result (λ s. string_bytes s ≡ wait_words start count main.now holder.now) }
{
    format!(in alloc; "{start} {count} {main} waits for {holder}")
}

fn wait_rect(
    alloc: Global,
    header: &Header,
    frame: Frame,
    span: Span,
    share: Share,
    wait: Wait,
) -> Result<String, AllocError>
    ensures { IfOk result (λ s. string_bytes s ≡ wait_rect header.now frame span share wait) }
{
    let main = thread_words(alloc, header, main_of(share.process))?;
    let holder = thread_words(alloc, header, wait.holder)?;
    let count = wait.end.saturating_sub(wait.start);
    let words = wait_words(alloc, wait.start, count, main.as_str(), holder.as_str())?;
    let x = span.place(wait.start);
    let place = Place {
        x,
        y: frame.top(share.row) + 8,
        width: span.place(wait.end).saturating_sub(x).max(1),
        height: 4,
    };
    titled_rect(alloc, "h", place, words.as_str())
}

fn wait_of(
    alloc: Global,
    header: &Header,
    frame: Frame,
    span: Span,
    drawing: &Drawing,
    share: Share,
    wait: Wait,
) -> Result<String, AllocError>
    ensures { IfOk result (λ s. string_bytes s ≡ wait_of header.now frame span drawing.now share wait) }
{
    let level = level_of(header, share.process);
    if wait.start < wait.end && is_in_front(header, drawing, level, wait) {
        wait_rect(alloc, header, frame, span, share, wait)
    } else {
        Ok(String::new(alloc))
    }
}

/// What stands where the group kept the main waiting.
fn wait_text(
    alloc: Global,
    header: &Header,
    frame: Frame,
    span: Span,
    drawing: &Drawing,
    share: Share,
    group: &LedgerLine,
) -> Result<String, AllocError>
    ensures { IfOk result (λ s. string_bytes s ≡ wait_text header.now frame span drawing.now share group.now) }
{
    match group.label.thread() {
        Some(owner) => {
            let wait = wait_in(share, group, owner);
            wait_of(alloc, header, frame, span, drawing, share, wait)
        }
        None => Ok(String::new(alloc)),
    }
}

/// Adds where groups kept the main waiting in the window.
pub(crate) fn add_waits(
    alloc: Global,
    text: &mut String,
    header: &Header,
    frame: Frame,
    span: Span,
    drawing: &Drawing,
    share: Share,
) -> Result<(), AllocError>
    ensures { OnOk result (string_bytes text.new
        ≡ string_bytes text.old ++ waits_text header.now frame span drawing.now share) }
{
    for group in drawing.groups() {
        let line = wait_text(alloc, header, frame, span, drawing, share, group)?;
        push_line(text, line)?;
    }
    Ok(())
}
