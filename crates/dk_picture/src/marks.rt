//! The marks of events.
ghost use Rattle.std.specs.Prelude.{◌≡◌, ◌<◌, ◌≤◌, ◌^◌, ◌++◌, IfOk, OnOk, flat_map, length, string_bytes, sum_by};
ghost use Rattle.std.specs.List.{list_any};
ghost use Rattle.dk_picture.specs.Marks.{is_before, is_crowded, is_in_strip, is_in_way, is_on_side, is_urgent, last_of, mark_at, mark_class, mark_line, mark_text, mark_title, mark_y, marks, marks_of, marks_text, outline, owner_words, refusal_text, strip_of, strip_weight, sum_class, sum_text, titled};

use crate::drawing::Drawing;
use crate::elements::{number_at, push_line};
use crate::frame::Frame;
use crate::lines::{event_words, thread_words};
use crate::rows::Rows;
use crate::span::{LEFT, Span};
use dk_ledger::{Header, LedgerLine};
use dk_trace::{Event, Label};
use std::alloc::{AllocError, Global};

/// The pixels of a strip, in which marks are told as a number where they would smear into one another.
const STRIP: u64 = 24;

/// The outline of an event's mark, from its middle.
fn outline(event: Event) -> &'static str
    ensures { result.now ≡ outline event }
{
    match event {
        Event::Wait => "m-3 -3h2v7h-2zm4 0h2v7h-2z",
        Event::Exit => "m-3 -3h7v7h-7z",
        Event::Create { .. } => "m-1 -3h2v2h2v2h-2v2h-2v-2h-2v-2h2z",
        Event::Delete(_) => "m-3 -1h6v2h-6z",
        Event::Lock(_) => "m-3 0h2v-3h3v3h2v4h-7z",
        Event::Unlock(_) => "m-3 0h2v-3h1v3h4v4h-7z",
        Event::Slack(_) => "m0 -4l4 8h-8z",
        Event::Put(_) => "m0 -4l4 4l-4 4l-4 -4z",
        Event::Refused(_) => "m0 5l4 -9h-8z",
        Event::Fault(_) => "m-4 -2l2 -2l2 2l2 -2l2 2l-2 2l2 2l-2 2l-2 -2l-2 2l-2 -2l2 -2z",
    }
}

/// Calls that were refused and faults are marked below the bars, the others above them.
fn is_urgent(event: Event) -> bool
    ensures { result ≡ is_urgent event }
{
    matches!(event, Event::Refused(_) | Event::Fault(_))
}

fn mark_class(event: Event) -> &'static str
    ensures { result.now ≡ mark_class event }
{
    if is_urgent(event) { "u" } else { "e" }
}

fn mark_y(top: u64, event: Event) -> u64
    requires low { 6 ≤ top }
    requires high { top < 2 ^ 32 }
    ensures value { result ≡ mark_y top event }
    ensures small { result < 2 ^ 33 }
{
    if is_urgent(event) { top + 16 } else { top - 6 }
}

#[tactic(auto, unfolding(crate::specs::Marks::mark_line))]
pub(crate) fn mark_line(
    alloc: Global,
    class: &str,
    x: u64,
    y: u64,
    outline: &str,
    title: &str,
) -> Result<String, AllocError>
    ensures { IfOk result (λ s. string_bytes s ≡ mark_line class.now x y outline.now title.now) }
{
    format!(in alloc; "<path class='{class}' d='M{x} {y}{outline}'><title>{title}</title></path>\n")
}

pub(crate) fn titled(
    alloc: Global,
    tick: u64,
    thread: &str,
    event: &str,
) -> Result<String, AllocError>
    ensures { IfOk result (λ s. string_bytes s ≡ titled tick thread.now event.now) }
{
    format!(in alloc; "{tick} {thread} {event}")
}

/// The thread of the label, and nothing where it has none.
fn owner_words(alloc: Global, header: &Header, label: Label) -> Result<String, AllocError>
    ensures { IfOk result (λ s. string_bytes s ≡ owner_words header.now label) }
{
    match label.thread() {
        Some(thread) => thread_words(alloc, header, thread),
        None => Ok(String::new(alloc)),
    }
}

/// The tick, the thread and the event.
fn mark_title(
    alloc: Global,
    header: &Header,
    tick: u64,
    label: Label,
    event: Event,
) -> Result<String, AllocError>
    ensures { IfOk result (λ s. string_bytes s ≡ mark_title header.now tick label event) }
{
    let thread = owner_words(alloc, header, label)?;
    let event = event_words(alloc, event)?;
    titled(alloc, tick, thread.as_str(), event.as_str())
}

/// The mark of the event, in the middle of the tick.
fn mark(
    alloc: Global,
    frame: Frame,
    span: Span,
    row: u16,
    tick: u64,
    event: Event,
    title: &str,
) -> Result<String, AllocError>
    ensures { IfOk result (λ s. string_bytes s ≡ mark_at frame span row tick event title.now) }
{
    let y = mark_y(frame.top(row), event);
    mark_line(
        alloc,
        mark_class(event),
        span.middle(tick),
        y,
        outline(event),
        title,
    )
}

/// Whether an event is marked below the bars, or above them.
fn is_on_side(below: bool, event: Option<Event>) -> bool
    ensures { result ≡ is_on_side below event }
{
    match event {
        Some(event) => {
            if below {
                is_urgent(event)
            } else {
                !is_urgent(event)
            }
        }
        None => false,
    }
}

/// The strip of 24 pixels in which the mark of the tick stands.
fn strip_of(span: Span, tick: u64) -> u64
    ensures value { result ≡ strip_of span tick }
    ensures small { result < 2 ^ 48 }
{
    span.middle(tick).saturating_sub(LEFT) / STRIP
}

fn last_of(group: &LedgerLine) -> u64
    ensures { result ≡ last_of group.now }
{
    group.start as u64 + (group.count as u64).saturating_sub(1)
}

/// Whether the group's event is marked in this strip, on this side of the row's bars.
fn is_in_strip(
    span: Span,
    rows: &Rows,
    row: u16,
    below: bool,
    strip: u64,
    group: &LedgerLine,
) -> bool
    ensures { result ≡ is_in_strip span rows.now row below strip group.now }
{
    is_on_side(below, group.event)
        && strip_of(span, last_of(group)) == strip
        && rows.at(group.label) == row
}

fn strip_weight(
    span: Span,
    rows: &Rows,
    row: u16,
    below: bool,
    strip: u64,
    group: &LedgerLine,
) -> u64
    ensures { result ≡ strip_weight span rows.now row below strip group.now }
{
    if is_in_strip(span, rows, row, below, strip, group) {
        1
    } else {
        0
    }
}

/// How many events are marked in this strip, on this side of the row's bars.
fn strip_sum(
    span: Span,
    rows: &Rows,
    row: u16,
    below: bool,
    strip: u64,
    groups: &[LedgerLine],
) -> u64
    requires { length groups.now < 2 ^ 16 }
    ensures { result ≡ sum_by (strip_weight span rows.now row below strip) groups.now }
{
    let mut sum = 0;
    for group in groups {
        sum += strip_weight(span, rows, row, below, strip, group);
    }
    sum
}

fn has_before(
    span: Span,
    rows: &Rows,
    row: u16,
    below: bool,
    strip: u64,
    tick: u64,
    groups: &[LedgerLine],
) -> bool
    ensures { result ≡ list_any (is_before span rows.now row below strip tick) groups.now }
{
    for group in groups {
        if is_in_strip(span, rows, row, below, strip, group) && last_of(group) < tick {
            return true;
        }
    }
    false
}

fn sum_class(event: Event) -> &'static str
    ensures { result.now ≡ sum_class event }
{
    if is_urgent(event) { "u s c" } else { "s c" }
}

/// How many marks a strip has, where this one is its first.
fn sum_text(
    alloc: Global,
    frame: Frame,
    span: Span,
    drawing: &Drawing,
    row: u16,
    tick: u64,
    event: Event,
) -> Result<String, AllocError>
    ensures { IfOk result (λ s. string_bytes s ≡ sum_text frame span drawing.now row tick event) }
{
    let strip = strip_of(span, tick);
    let below = is_urgent(event);
    let rows = drawing.rows();
    let groups = drawing.groups();
    if has_before(span, rows, row, below, strip, tick, groups) {
        return Ok(String::new(alloc));
    }
    let sum = strip_sum(span, rows, row, below, strip, groups);
    let y = mark_y(frame.top(row), event) + 3;
    number_at(alloc, sum_class(event), LEFT + 12 + STRIP * strip, y, sum)
}

/// Whether a mark below the row's bars stands between these places.
fn is_in_way(span: Span, rows: &Rows, row: u16, left: u64, right: u64, group: &LedgerLine) -> bool
    ensures { result ≡ is_in_way span rows.now row left right group.now }
{
    if !is_on_side(true, group.event) || rows.at(group.label) != row {
        return false;
    }
    let x = span.middle(last_of(group));
    left < x && x < right
}

fn is_marked(
    span: Span,
    rows: &Rows,
    row: u16,
    left: u64,
    right: u64,
    groups: &[LedgerLine],
) -> bool
    ensures { result ≡ list_any (is_in_way span rows.now row left right) groups.now }
{
    for group in groups {
        if is_in_way(span, rows, row, left, right, group) {
            return true;
        }
    }
    false
}

/// The number of a refusal beside its mark, where no other is in its way.
fn refusal_text(
    alloc: Global,
    frame: Frame,
    span: Span,
    drawing: &Drawing,
    row: u16,
    tick: u64,
    event: Event,
) -> Result<String, AllocError>
    ensures { IfOk result (λ s. string_bytes s ≡ refusal_text frame span drawing.now row tick event) }
{
    match event {
        Event::Refused(refusal) => {
            let x = span.middle(tick);
            if is_marked(span, drawing.rows(), row, x, x + 24, drawing.groups()) {
                return Ok(String::new(alloc));
            }
            let number = refusal.number() as u64;
            number_at(alloc, "u s", x + 5, frame.top(row) + 20, number)
        }
        _ => Ok(String::new(alloc)),
    }
}

/// Whether marks would smear into one another. A mark is 9 pixels wide.
fn is_crowded(span: Span, drawing: &Drawing, row: u16, tick: u64, event: Event) -> bool
    ensures { result ≡ is_crowded span drawing.now row tick event }
{
    if span.has_pixels(1, 9) {
        return false;
    }
    let strip = strip_of(span, tick);
    let groups = drawing.groups();
    strip_sum(span, drawing.rows(), row, is_urgent(event), strip, groups) > 1
}

/// The mark of the group's event, where it has one, at its last tick; of marks that would smear their number.
fn mark_of_group(
    alloc: Global,
    header: &Header,
    frame: Frame,
    span: Span,
    drawing: &Drawing,
    group: &LedgerLine,
) -> Result<String, AllocError>
    ensures { IfOk result (λ s. string_bytes s
        ≡ flat_map (mark_text frame span drawing.now) (marks_of header.now drawing.now.rows group.now)) }
{
    let Some(event) = group.event else {
        return Ok(String::new(alloc));
    };
    let tick = last_of(group);
    let row = drawing.rows().at(group.label);
    if is_crowded(span, drawing, row, tick, event) {
        return sum_text(alloc, frame, span, drawing, row, tick, event);
    }
    let title = mark_title(alloc, header, tick, group.label, event)?;
    let mut text = mark(alloc, frame, span, row, tick, event, title.as_str())?;
    push_line(
        &mut text,
        refusal_text(alloc, frame, span, drawing, row, tick, event)?,
    )?;
    Ok(text)
}

/// Adds the marks group by group.
fn add_each(
    alloc: Global,
    text: &mut String,
    header: &Header,
    frame: Frame,
    span: Span,
    drawing: &Drawing,
    groups: &[LedgerLine],
) -> Result<(), AllocError>
    ensures { OnOk result (string_bytes text.new ≡ string_bytes text.old
        ++ flat_map (λ g. flat_map (mark_text frame span drawing.now) (marks_of header.now drawing.now.rows g)) groups.now) }
{
    for group in groups {
        let line = mark_of_group(alloc, header, frame, span, drawing, group)?;
        push_line(text, line)?;
    }
    Ok(())
}

/// Adds the marks of the groups' events.
pub(crate) fn add_marks(
    alloc: Global,
    text: &mut String,
    header: &Header,
    frame: Frame,
    span: Span,
    drawing: &Drawing,
) -> Result<(), AllocError>
    ensures { OnOk result (string_bytes text.new ≡ string_bytes text.old
        ++ marks_text frame span drawing.now (marks header.now drawing.now.rows drawing.now.groups)) }
{
    add_each(alloc, text, header, frame, span, drawing, drawing.groups())
}
