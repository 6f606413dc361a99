//! Words of a ledger's lines.
ghost use Rattle.std.specs.Prelude.{◌≡◌, ◌++◌, IfOk, codes, decimal, string_bytes};
ghost use Rattle.dk_trace.specs.Entries.{thread_of};
ghost use Rattle.dk_ledger.specs.Heading.{name_of};
ghost use Rattle.dk_ledger.specs.LineText.{event_part, event_text, label_text, line_body, thread_text};
ghost use Rattle.dk_entry_words.specs.Parted.{parted};
ghost use Rattle.dk_entry_words.specs.Works.{work_words};
ghost use Rattle.dk_picture.specs.Lines.{thread_part};

use dk_entry_words::{Separator, work_words};
use dk_ledger::{Header, LedgerLine};
use dk_trace::{Event, Label, ThreadId};
use std::alloc::{AllocError, Global};

/// The name on the process's line, and nothing where there is none.
pub(crate) fn name_of(header: &Header, process: u8) -> &str
    ensures { result.now ≡ name_of header.now process }
{
    match header.processes.as_slice().get(process as usize) {
        Some(line) => line.name.as_str(),
        None => "",
    }
}

pub(crate) fn thread_words(
    alloc: Global,
    header: &Header,
    thread: ThreadId,
) -> Result<String, AllocError>
    ensures { IfOk result (λ s. string_bytes s ≡ thread_text header.now thread) }
{
    named_thread(alloc, name_of(header, thread.process), thread.serial)
}

fn named_thread(alloc: Global, name: &str, serial: u32) -> Result<String, AllocError>
    ensures { IfOk result (λ s. string_bytes s ≡ name.now ++ codes "." ++ decimal serial) }
{
    format!(in alloc; "{name}.{serial}")
}

/// A blank and the thread of the label, where it has one.
fn thread_part_words(alloc: Global, header: &Header, label: Label) -> Result<String, AllocError>
    ensures { IfOk result (λ s. string_bytes s ≡ thread_part header.now (thread_of label)) }
{
    match label.thread() {
        Some(thread) => {
            let words = thread_words(alloc, header, thread)?;
            behind_blank(alloc, words.as_str())
        }
        None => Ok(String::new(alloc)),
    }
}

fn behind_blank(alloc: Global, words: &str) -> Result<String, AllocError>
    ensures { IfOk result (λ s. string_bytes s ≡ codes " " ++ words.now) }
{
    format!(in alloc; " {words}")
}

/// What a tick of the label is for, and its thread.
fn label_parts(alloc: Global, header: &Header, label: Label) -> Result<String, AllocError>
    ensures { IfOk result (λ s. string_bytes s
        ≡ parted 32 (work_words label) ++ thread_part header.now (thread_of label)) }
{
    let thread = thread_part_words(alloc, header, label)?;
    let thread = thread.as_str();
    let work = work_words(label, Separator::Blank);
    let work = work.as_str();
    format!(in alloc; "{work}{thread}")
}

fn label_words(alloc: Global, header: &Header, label: Label) -> Result<String, AllocError>
    ensures { IfOk result (λ s. string_bytes s ≡ label_text header.now label) }
{
    label_parts(alloc, header, label)
}

pub(crate) fn event_words(alloc: Global, event: Event) -> Result<String, AllocError>
    ensures { IfOk result (λ s. string_bytes s ≡ event_text event) }
{
    String::from_str(
        alloc,
        dk_entry_words::event_words(event, Separator::Blank).as_str(),
    )
}

/// A blank and the event, where there is one.
fn event_part_words(alloc: Global, event: Option<Event>) -> Result<String, AllocError>
    ensures { IfOk result (λ s. string_bytes s ≡ event_part event) }
{
    match event {
        Some(event) => {
            let words = event_words(alloc, event)?;
            behind_blank(alloc, words.as_str())
        }
        None => Ok(String::new(alloc)),
    }
}

fn body_parts(
    alloc: Global,
    start: u32,
    count: u32,
    label: &str,
    event: &str,
) -> Result<String, AllocError>
    ensures { IfOk result (λ s. string_bytes s
        ≡ decimal start ++ (codes " " ++ (decimal count ++ (codes " " ++ (label.now ++ event.now))))) }
{
    format!(in alloc; "{start} {count} {label}{event}")
}

fn body_words(
    alloc: Global,
    start: u32,
    count: u32,
    label: &str,
    event: &str,
) -> Result<String, AllocError>
    ensures { IfOk result (λ s. string_bytes s
        ≡ decimal start ++ codes " " ++ decimal count ++ codes " " ++ label.now ++ event.now) }
{
    body_parts(alloc, start, count, label, event)
}

/// The line of the ledger that the group would be.
pub(crate) fn line_words(
    alloc: Global,
    header: &Header,
    group: LedgerLine,
) -> Result<String, AllocError>
    ensures { IfOk result (λ s. string_bytes s ≡ line_body header.now group) }
{
    let label = label_words(alloc, header, group.label)?;
    let event = event_part_words(alloc, group.event)?;
    body_words(
        alloc,
        group.start,
        group.count,
        label.as_str(),
        event.as_str(),
    )
}
