//! The names of the tracks.
ghost use Rattle.std.specs.Prelude.{◌≡◌, ◌+◌, ◌<◌, ◌≤◌, ◌++◌, length, true};
ghost use Rattle.std.specs.List.{list_all};
ghost use Rattle.dk_config.specs.Rules.{is_name};
ghost use Rattle.dk_outside.specs.Written.{Writes};
ghost use Rattle.dk_ledger.specs.Heading.{IsPrintable};
ghost use Rattle.dk_ledger.specs.LineText.{IsNamed, thread_text};
ghost use Rattle.dk_trace_events.specs.Names.{made_by, made_name, process_labels, process_name, process_order, process_text, process_texts, track_end, track_name};

use crate::line::Line;
use crate::tracks::{push_place, thread_track};
use crate::words::push_thread;
use dk_ledger::{Header, LedgerLine, ProcessLine};
use dk_outside::{Sink, SinkError};
use dk_trace::{Event, ThreadId};

fn push_process_name(text: &mut Line, process: u8, line: &ProcessLine)
    requires name { is_name line.now.name ≡ true }
    requires room { length text.old + 100 ≤ 600 }
    ensures bytes { text.new ≡ text.old ++ process_name process line.now }
    ensures len { length text.new ≤ length text.old + 100 }
{
    text.word("{\"args\":{\"name\":\"");
    text.word(line.name.as_str());
    text.word("\"},\"name\":\"process_name\",\"ph\":\"M\",\"pid\":");
    text.number(100 + process as u64);
    text.word("},\n");
}

fn push_process_labels(text: &mut Line, process: u8, line: &ProcessLine)
    requires { length text.old + 145 ≤ 600 }
    ensures bytes { text.new ≡ text.old ++ process_labels process line.now }
    ensures len { length text.new ≤ length text.old + 145 }
{
    text.word("{\"args\":{\"labels\":\"level ");
    text.number(line.level as u64);
    text.word(" budget ");
    text.number(line.budget as u64);
    text.word("\"},\"name\":\"process_labels\",\"ph\":\"M\",\"pid\":");
    text.number(100 + process as u64);
    text.word("},\n");
}

fn push_process_order(text: &mut Line, process: u8, line: &ProcessLine)
    requires { length text.old + 120 ≤ 600 }
    ensures bytes { text.new ≡ text.old ++ process_order process line.now }
    ensures len { length text.new ≤ length text.old + 120 }
{
    text.word("{\"args\":{\"sort_index\":");
    text.number(2 + 32 * line.level as u64 + process as u64);
    text.word("},\"name\":\"process_sort_index\",\"ph\":\"M\",\"pid\":");
    text.number(100 + process as u64);
    text.word("},\n");
}

/// What stands behind the name of a thread's track.
fn push_track(text: &mut Line, thread: ThreadId)
    requires { length text.old + 95 ≤ 600 }
    ensures bytes { text.new ≡ text.old ++ track_end thread }
    ensures len { length text.new ≤ length text.old + 95 }
{
    text.word("\"},\"name\":\"thread_name\",\"ph\":\"M\"");
    push_place(text, thread_track(thread));
    text.word("},\n");
}

/// The objects of a process.
fn process_of(process: u8, line: &ProcessLine) -> Line
    requires { is_name line.now.name ≡ true }
    ensures { result ≡ process_text process line.now }
{
    let mut text = Line::new();
    push_process_name(&mut text, process, line);
    push_process_labels(&mut text, process, line);
    push_process_order(&mut text, process, line);
    text.word("{\"args\":{\"name\":\"");
    text.word(line.name.as_str());
    text.word(".0");
    let main = ThreadId { process, serial: 0 };
    push_track(&mut text, main);
    text
}

/// Writes the objects of the processes from this one on.
pub(crate) fn write_processes<S: Sink>(
    process: u8,
    lines: &[ProcessLine],
    sink: &mut S,
) -> Result<(), SinkError>
    requires few { process + length lines.now ≤ 32 }
    requires names { list_all (λ p. is_name p.name) lines.now ≡ true }
    ensures { Writes (S.seen sink.old) (S.seen sink.new) result (process_texts process lines.now) }
{
    match lines {
        [] => Ok(()),
        [line, rest @ ..] => {
            process_of(process, line).write_to(sink)?;
            write_processes(process + 1, rest, sink)
        }
    }
}

fn child_track(header: &Header, thread: ThreadId) -> Line
    requires printable { IsPrintable header.now }
    requires named { thread.process < length header.now.processes }
    ensures { result ≡ track_name (thread_text header.now thread) thread }
{
    let mut text = Line::new();
    text.word("{\"args\":{\"name\":\"");
    push_thread(&mut text, header, thread);
    push_track(&mut text, thread);
    text
}

/// The child that the line's event makes.
fn made_by(line: LedgerLine) -> Option<ThreadId>
    ensures { result ≡ made_by line }
{
    match (line.label.thread(), line.event) {
        (Some(thread), Some(Event::Create { serial, .. })) => Some(ThreadId {
            process: thread.process,
            serial,
        }),
        _ => None,
    }
}

/// Writes the name of the child that the line's event makes, if it makes one.
pub(crate) fn write_made<S: Sink>(
    header: &Header,
    line: LedgerLine,
    sink: &mut S,
) -> Result<(), SinkError>
    requires printable { IsPrintable header.now }
    requires named { IsNamed header.now line.label }
    ensures { Writes (S.seen sink.old) (S.seen sink.new) result (made_name header.now line) }
{
    match made_by(line) {
        Some(thread) => child_track(header, thread).write_to(sink),
        None => Ok(()),
    }
}
