//! The holds of mutexes.
ghost use Rattle.std.specs.Prelude.{List, ◌≡◌, ◌+◌, ◌<◌, ◌≤◌, ◌^◌, length, IfSome, Some};
ghost use Rattle.dk_trace.specs.declared.Entry.{Entry};
ghost use Rattle.dk_outside.specs.Written.{Writes};
ghost use Rattle.dk_ledger.specs.Heading.{IsPrintable};
ghost use Rattle.dk_groups.specs.Below.{texts_below};
ghost use Rattle.dk_holds.specs.Holds.{AreHolders, ended, holding, last_entry};
ghost use Rattle.dk_trace_events.specs.Behind.{AreKnown};
ghost use Rattle.dk_trace_events.specs.HoldSlices.{hold_slice, hold_text, mutex_name, mutex_track};

use crate::line::Line;
use crate::tracks::{Track, push_place};
use crate::words::push_thread;
use dk_config::MAX_MUTEXES;
use dk_holds::{Holders, Holding, held_since_its_lock};
use dk_ledger::{Header, LedgerLine};
use dk_outside::{Sink, SinkError};
use dk_trace::ThreadId;

fn mutex_track(mutex: u8) -> Track
    ensures { result ≡ mutex_track mutex }
{
    Track {
        pid: 2,
        tid: 30 + mutex as u64,
    }
}

fn name_of(mutex: u8) -> Line
    ensures { result ≡ mutex_name mutex }
{
    let mut text = Line::new();
    text.word("{\"args\":{\"name\":\"mutex ");
    text.number(mutex as u64);
    text.word("\"},\"name\":\"thread_name\",\"ph\":\"M\"");
    push_place(&mut text, mutex_track(mutex));
    text.word("},\n");
    text
}

/// Writes the names of the tracks of the mutexes below this number.
pub(crate) fn write_mutex_names<S: Sink>(below: u8, sink: &mut S) -> Result<(), SinkError>
    ensures { Writes (S.seen sink.old) (S.seen sink.new) result (texts_below mutex_name below) }
{
    if below == 0 {
        return Ok(());
    }
    write_mutex_names(below - 1, sink)?;
    name_of(below - 1).write_to(sink)
}

/// The slice of a hold from tick `first` up to before tick `last`.
fn slice_of_hold(header: &Header, mutex: u8, thread: ThreadId, first: u32, last: u32) -> Line
    requires printable { IsPrintable header.now }
    requires named { thread.process < length header.now.processes }
    requires some { first < last }
    ensures { result ≡ hold_slice header.now mutex thread first last }
{
    let mut text = Line::new();
    text.word("{\"args\":{\"mutex\":");
    text.number(mutex as u64);
    text.word("},\"cat\":\"hold\",\"dur\":");
    text.number((last - first) as u64);
    text.word(",\"name\":\"");
    push_thread(&mut text, header, thread);
    text.word("\",\"ph\":\"X\"");
    push_place(&mut text, mutex_track(mutex));
    text.word(",\"ts\":");
    text.number(first as u64);
    text.word("},\n");
    text
}

/// What is shown of a hold that goes on up to before tick `last`: its ticks from `from` on.
fn text_of_hold(header: &Header, from: u32, last: u32, mutex: u8, holding: Holding) -> Line
    requires printable { IsPrintable header.now }
    requires named { holding.thread.process < length header.now.processes }
    ensures { result ≡ hold_text header.now from last mutex (Some holding) }
{
    let first = holding.since.max(from);
    if first < last {
        slice_of_hold(header, mutex, holding.thread, first, last)
    } else {
        Line::new()
    }
}

fn write_hold<S: Sink>(
    header: &Header,
    from: u32,
    last: u32,
    mutex: u8,
    hold: Option<Holding>,
    sink: &mut S,
) -> Result<(), SinkError>
    requires printable { IsPrintable header.now }
    requires named { IfSome hold (λ x. x.thread.process < length header.now.processes) }
    ensures { Writes (S.seen sink.old) (S.seen sink.new) result (hold_text header.now from last mutex hold) }
{
    match hold {
        Some(holding) => text_of_hold(header, from, last, mutex, holding).write_to(sink),
        None => Ok(()),
    }
}

/// Writes the holds of the mutexes below this number that the line ends.
pub(crate) fn write_ended_holds<S: Sink>(
    below: u8,
    holders: &Holders,
    header: &Header,
    from: u32,
    line: &LedgerLine,
    sink: &mut S,
) -> Result<(), SinkError>
    requires few { below ≤ MAX_MUTEXES }
    requires printable { IsPrintable header.now }
    requires known { AreKnown header.now holders.now }
    requires short { line.now.start + line.now.count < 2 ^ 32 }
    ensures { (past : List Entry) → AreHolders past holders.now → Writes (S.seen sink.old) (S.seen sink.new)
        result (texts_below (λ m. hold_text header.now from (line.now.start + line.now.count) m
        (ended m (last_entry line.now) (holding m past))) below) }
{
    held_since_its_lock();
    if below == 0 {
        return Ok(());
    }
    write_ended_holds(below - 1, holders, header, from, line, sink)?;
    let mutex = below - 1;
    write_hold(
        header,
        from,
        line.start + line.count,
        mutex,
        holders.ended(mutex, line),
        sink,
    )
}

/// Writes the holds of the mutexes below this number that go on up to before tick `to`.
pub(crate) fn write_open_holds<S: Sink>(
    below: u8,
    holders: &Holders,
    header: &Header,
    from: u32,
    to: u32,
    sink: &mut S,
) -> Result<(), SinkError>
    requires few { below ≤ MAX_MUTEXES }
    requires printable { IsPrintable header.now }
    requires known { AreKnown header.now holders.now }
    ensures { (past : List Entry) → AreHolders past holders.now → Writes (S.seen sink.old) (S.seen sink.new)
        result (texts_below (λ m. hold_text header.now from to m (holding m past)) below) }
{
    held_since_its_lock();
    if below == 0 {
        return Ok(());
    }
    write_open_holds(below - 1, holders, header, from, to, sink)?;
    let mutex = below - 1;
    write_hold(header, from, to, mutex, holders.of(mutex), sink)
}
