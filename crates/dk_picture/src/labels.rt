//! The words at bars.
ghost use Rattle.std.specs.Prelude.{◌≡◌, ◌<◌, ◌≤◌, ◌^◌, ◌++◌, ◌+◌, IfOk, OnOk, decimal, length, string_bytes};
ghost use Rattle.dk_picture.specs.Labels.{group_label, group_labels, hold_label, hold_labels, label_at, labels_text, room_in, serial_label, shared_label, thread_label};

use crate::drawing::Drawing;
use crate::edges::add_edges;
use crate::elements::{push_line, words_at};
use crate::frame::Frame;
use crate::hold_bars::mutex_row;
use crate::lines::thread_words;
use crate::rows::{Row, Rows};
use crate::span::Span;
use dk_hold_spans::Hold;
use dk_ledger::{Header, LedgerLine};
use dk_trace::{Label, ThreadId};
use std::alloc::{AllocError, Global};

/// The letters, of 6 pixels each, for which a bar of these ticks has room, with 2 pixels left on both sides.
pub(crate) fn room_in(span: Span, first: u64, end: u64) -> u64
    ensures value { result ≡ room_in span first end }
    ensures small { result < 2 ^ 48 }
{
    let width = span.place(end).saturating_sub(span.place(first));
    width.saturating_sub(4) / 6
}

/// The words at the bar from tick `first` up to before tick `end`, where it is wide enough.
fn label_at(
    alloc: Global,
    span: Span,
    class: &str,
    y: u64,
    first: u64,
    end: u64,
    words: &str,
) -> Result<String, AllocError>
    ensures { IfOk result (λ s. string_bytes s ≡ label_at span class.now y first end words.now) }
{
    if words.len() as u64 <= room_in(span, first, end) {
        words_at(alloc, class, span.place(first) + 2, y, words)
    } else {
        Ok(String::new(alloc))
    }
}

/// The number at the group's bar, where it is wide enough.
fn number_label(
    alloc: Global,
    span: Span,
    class: &str,
    y: u64,
    group: &LedgerLine,
    number: u32,
) -> Result<String, AllocError>
    ensures { IfOk result (λ s. string_bytes s
        ≡ label_at span class.now y group.now.start (group.now.start + group.now.count) (decimal number)) }
{
    let words = format!(in alloc; "{number}")?;
    let first = group.start as u64;
    let end = first + group.count as u64;
    label_at(alloc, span, class, y, first, end, words.as_str())
}

/// Which child it is, below the bar.
fn serial_label(
    alloc: Global,
    frame: Frame,
    span: Span,
    place: u16,
    group: &LedgerLine,
    thread: Option<ThreadId>,
) -> Result<String, AllocError>
    ensures { IfOk result (λ s. string_bytes s ≡ serial_label frame span place group.now thread) }
{
    match thread {
        Some(thread) => {
            let y = frame.top(place) + 21;
            number_label(alloc, span, "m s", y, group, thread.serial)
        }
        None => Ok(String::new(alloc)),
    }
}

/// That stands where children share the row.
fn shared_label(
    alloc: Global,
    frame: Frame,
    span: Span,
    place: u16,
    group: &LedgerLine,
    row: Option<Row>,
) -> Result<String, AllocError>
    ensures { IfOk result (λ s. string_bytes s ≡ shared_label frame span place group.now row) }
{
    match row {
        Some(Row::Children(_)) => {
            let thread = group.label.thread();
            serial_label(alloc, frame, span, place, group, thread)
        }
        _ => Ok(String::new(alloc)),
    }
}

fn thread_label(
    alloc: Global,
    frame: Frame,
    span: Span,
    rows: &Rows,
    group: &LedgerLine,
) -> Result<String, AllocError>
    ensures { IfOk result (λ s. string_bytes s ≡ thread_label frame span rows.now group.now) }
{
    let place = rows.at(group.label);
    shared_label(alloc, frame, span, place, group, rows.get(place))
}

/// The words at the group's bar. Of the kernel's work its level stands in the bar.
fn group_label(
    alloc: Global,
    frame: Frame,
    span: Span,
    rows: &Rows,
    group: &LedgerLine,
) -> Result<String, AllocError>
    ensures { IfOk result (λ s. string_bytes s ≡ group_label frame span rows.now group.now group.now.label) }
{
    match group.label {
        Label::Kernel(level) => {
            let y = frame.top(rows.at(group.label)) + 10;
            number_label(alloc, span, "kt", y, group, level as u32)
        }
        _ => thread_label(alloc, frame, span, rows, group),
    }
}

/// Adds the words at the groups' bars.
fn add_group_labels(
    alloc: Global,
    text: &mut String,
    frame: Frame,
    span: Span,
    rows: &Rows,
    groups: &[LedgerLine],
) -> Result<(), AllocError>
    ensures { OnOk result (string_bytes text.new
        ≡ string_bytes text.old ++ group_labels frame span rows.now groups.now) }
{
    for group in groups {
        let line = group_label(alloc, frame, span, rows, group)?;
        push_line(text, line)?;
    }
    Ok(())
}

/// Who holds the mutex, in the bar of the hold.
fn hold_label(
    alloc: Global,
    header: &Header,
    frame: Frame,
    span: Span,
    mutexes: &[u8],
    hold: &Hold,
) -> Result<String, AllocError>
    requires { length mutexes.now ≤ 16 }
    ensures { IfOk result (λ s. string_bytes s ≡ hold_label header.now frame span mutexes.now hold.now) }
{
    let y = frame.mutex_top(mutex_row(mutexes, hold.mutex)) + 8;
    let words = thread_words(alloc, header, hold.thread)?;
    let end = hold.end as u64;
    label_at(alloc, span, "ht", y, hold.start as u64, end, words.as_str())
}

/// Adds the words in the holds' bars.
fn add_hold_labels(
    alloc: Global,
    text: &mut String,
    header: &Header,
    frame: Frame,
    span: Span,
    mutexes: &[u8],
    holds: &[Hold],
) -> Result<(), AllocError>
    requires { length mutexes.now ≤ 16 }
    ensures { OnOk result (string_bytes text.new
        ≡ string_bytes text.old ++ hold_labels header.now frame span mutexes.now holds.now) }
{
    for hold in holds {
        let line = hold_label(alloc, header, frame, span, mutexes, hold)?;
        push_line(text, line)?;
    }
    Ok(())
}

/// Adds the lines, and then the words.
#[tactic(auto, unfolding(crate::specs::Labels::labels_text))]
pub(crate) fn add_labels(
    alloc: Global,
    text: &mut String,
    header: &Header,
    frame: Frame,
    span: Span,
    drawing: &Drawing,
) -> Result<(), AllocError>
    ensures { OnOk result (string_bytes text.new ≡ string_bytes text.old
        ++ labels_text header.now frame span drawing.now.rows drawing.now.mutexes drawing.now.groups
        drawing.now.holds) }
{
    let rows = drawing.rows();
    let groups = drawing.groups();
    let mutexes = drawing.mutexes();
    add_edges(alloc, text, frame, span, drawing)?;
    add_group_labels(alloc, text, frame, span, rows, groups)?;
    add_hold_labels(alloc, text, header, frame, span, mutexes, drawing.holds())
}
