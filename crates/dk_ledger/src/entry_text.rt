ghost use Rattle.std.specs.Prelude.{◌≡◌, ◌+◌, ◌<◌, ◌≤◌, ◌++◌, length, decimal, codes};
ghost use Rattle.dk_trace.specs.declared.Event.{Event};
ghost use Rattle.dk_ledger.specs.Heading.{IsPrintable};
ghost use Rattle.dk_ledger.specs.LineText.{thread_text, source_text, work_text, slack_text, label_text, fault_text, event_text, event_part, line_body, IsNamed};

use crate::{Header, LedgerLine, TextLine};
use dk_isa::FaultKind;
use dk_trace::{Event, Label, Source, ThreadId, Work};

/// Appends the thread's name: its process's, a dot and its serial.
pub fn push_thread(line: &mut TextLine, header: &Header, thread: ThreadId)
    requires printable { IsPrintable header.now }
    requires named { thread.process < length header.now.processes }
    requires room { length line.old + 27 ≤ 200 }
    ensures bytes { line.new ≡ line.old ++ thread_text header.now thread }
    ensures len { length line.new ≤ length line.old + 27 }
{
    line.name(header.name_of(thread.process));
    line.word(".");
    line.number(thread.serial);
}

/// A word and the thread after it.
#[inline(always)]
fn push_work_of(line: &mut TextLine, word: &str, header: &Header, thread: ThreadId)
    requires printable { IsPrintable header.now }
    requires named { thread.process < length header.now.processes }
    requires short { length word.now ≤ 8 }
    requires room { length line.old + 35 ≤ 200 }
    ensures bytes { line.new ≡ line.old ++ (word.now ++ thread_text header.now thread) }
    ensures len { length line.new ≤ length line.old + 35 }
{
    line.word(word);
    push_thread(line, header, thread);
}

/// A word and the number after it.
#[inline(always)]
pub(crate) fn push_counted(line: &mut TextLine, word: &str, n: u32)
    requires short { length word.now ≤ 10 }
    requires room { length line.old + 20 ≤ 200 }
    ensures bytes { line.new ≡ line.old ++ (word.now ++ decimal n) }
    ensures len { length line.new ≤ length line.old + 20 }
{
    line.word(word);
    line.number(n);
}

fn push_source(line: &mut TextLine, source: Source)
    requires { length line.old + 20 ≤ 200 }
    ensures bytes { line.new ≡ line.old ++ source_text source }
    ensures len { length line.new ≤ length line.old + 20 }
{
    match source {
        Source::Timeline => line.word("timeline"),
        Source::Reclaimed(level) => push_counted(line, "reclaimed ", level as u32),
    }
}

fn push_work(line: &mut TextLine, work: Work)
    requires { length line.old + 4 ≤ 200 }
    ensures bytes { line.new ≡ line.old ++ work_text work }
    ensures len { length line.new ≤ length line.old + 4 }
{
    match work {
        Work::In => line.word("in"),
        Work::Run => line.word("run"),
        Work::Call => line.word("call"),
    }
}

fn push_slack(line: &mut TextLine, header: &Header, thread: ThreadId, source: Source, work: Work)
    requires printable { IsPrintable header.now }
    requires named { thread.process < length header.now.processes }
    requires room { length line.old + 60 ≤ 200 }
    ensures bytes { line.new ≡ line.old ++ slack_text header.now thread source work }
    ensures len { length line.new ≤ length line.old + 60 }
{
    line.word("slack ");
    push_source(line, source);
    line.word(" ");
    push_work(line, work);
    line.word(" ");
    push_thread(line, header, thread);
}

#[inline(always)]
fn push_label(line: &mut TextLine, header: &Header, label: &Label)
    requires printable { IsPrintable header.now }
    requires named { IsNamed header.now label.now }
    requires room { length line.old + 60 ≤ 200 }
    ensures bytes { line.new ≡ line.old ++ label_text header.now label.now }
    ensures len { length line.new ≤ length line.old + 60 }
{
    match *label {
        Label::Kernel(level) => push_counted(line, "kernel ", level as u32),
        Label::In(thread) => push_work_of(line, "in ", header, thread),
        Label::Run(thread) => push_work_of(line, "run ", header, thread),
        Label::Call(thread) => push_work_of(line, "call ", header, thread),
        Label::Out(thread) => push_work_of(line, "out ", header, thread),
        Label::Slack {
            thread,
            source,
            work,
        } => push_slack(line, header, thread, source, work),
        Label::Idle => line.word("idle"),
    }
}

fn fault_word(kind: FaultKind) -> &'static str
    ensures text { result.now ≡ fault_text kind }
    ensures short { length result.now ≤ 6 }
{
    match kind {
        FaultKind::Fetch => "fetch",
        FaultKind::Decode => "decode",
        FaultKind::Memory => "memory",
        FaultKind::Divide => "divide",
        FaultKind::Call => "call",
        FaultKind::Hold => "hold",
    }
}

fn push_fault(line: &mut TextLine, kind: FaultKind)
    requires { length line.old + 13 ≤ 200 }
    ensures bytes { line.new ≡ line.old ++ (codes " fault " ++ fault_text kind) }
    ensures len { length line.new ≤ length line.old + 13 }
{
    line.word(" fault ");
    line.word(fault_word(kind));
}

fn push_create(line: &mut TextLine, serial: u32, level: u8, quota: u32)
    requires { length line.old + 41 ≤ 200 }
    ensures bytes { line.new ≡ line.old ++ (codes " " ++ event_text (Event.Create serial level quota)) }
    ensures len { length line.new ≤ length line.old + 41 }
{
    line.word(" create ");
    line.number(serial);
    line.word(" ");
    line.number(level as u32);
    line.word(" ");
    line.number(quota);
}

/// A blank and the event.
#[inline(always)]
fn push_event(line: &mut TextLine, event: &Event)
    requires { length line.old + 41 ≤ 200 }
    ensures bytes { line.new ≡ line.old ++ (codes " " ++ event_text event.now) }
    ensures len { length line.new ≤ length line.old + 41 }
{
    match *event {
        Event::Wait => line.word(" wait"),
        Event::Exit => line.word(" exit"),
        Event::Fault(kind) => push_fault(line, kind),
        Event::Create {
            serial,
            level,
            quota,
        } => push_create(line, serial, level, quota),
        Event::Delete(serial) => push_counted(line, " delete ", serial),
        Event::Lock(mutex) => push_counted(line, " lock ", mutex as u32),
        Event::Unlock(mutex) => push_counted(line, " unlock ", mutex as u32),
        Event::Slack(amount) => push_counted(line, " slack ", amount),
        Event::Put(value) => push_counted(line, " put ", value),
        Event::Refused(refusal) => push_counted(line, " refused ", refusal.number() as u32),
    }
}

/// A blank and the event, where there is one.
#[inline(always)]
fn push_event_part(line: &mut TextLine, event: &Option<Event>)
    requires { length line.old + 41 ≤ 200 }
    ensures bytes { line.new ≡ line.old ++ event_part event.now }
    ensures len { length line.new ≤ length line.old + 41 }
{
    if let Some(event) = event {
        push_event(line, event);
    }
}

/// A blank, the number of ticks and a blank.
#[inline(always)]
fn push_count(line: &mut TextLine, count: u32)
    requires { length line.old + 12 ≤ 200 }
    ensures bytes { line.new ≡ line.old ++ (codes " " ++ decimal count ++ codes " ") }
    ensures len { length line.new ≤ length line.old + 12 }
{
    line.word(" ");
    line.number(count);
    line.word(" ");
}

/// A blank, the number of ticks, a blank and the label. What most lines begin with is one piece.
#[inline(always)]
fn push_ticks(text: &mut TextLine, header: &Header, line: &LedgerLine)
    requires printable { IsPrintable header.now }
    requires named { IsNamed header.now line.now.label }
    requires room { length text.old + 72 ≤ 200 }
    ensures bytes { text.new ≡ text.old
        ++ (codes " " ++ decimal line.now.count ++ codes " " ++ label_text header.now line.now.label) }
    ensures len { length text.new ≤ length text.old + 72 }
{
    match line.label {
        Label::Call(thread) if line.count == 1 => push_work_of(text, " 1 call ", header, thread),
        Label::Run(thread) if line.count == 1 => push_work_of(text, " 1 run ", header, thread),
        _ => {
            push_count(text, line.count);
            push_label(text, header, &line.label);
        }
    }
}

/// Appends what comes after the tick that a line begins with, without the line feed.
#[inline(always)]
pub(crate) fn push_rest(text: &mut TextLine, header: &Header, line: &LedgerLine)
    requires printable { IsPrintable header.now }
    requires named { IsNamed header.now line.now.label }
    requires start { text.old ≡ decimal line.now.start }
    requires short { length text.old ≤ 10 }
    ensures text { text.new ≡ line_body header.now line.now }
    ensures len { length text.new < 200 }
{
    push_ticks(text, header, line);
    push_event_part(text, &line.event);
}

/// The text of a line, without its line feed.
pub fn text_of(header: &Header, line: LedgerLine) -> TextLine
    requires printable { IsPrintable header.now }
    requires named { IsNamed header.now line.label }
    ensures text { result ≡ line_body header.now line }
    ensures len { length result < 200 }
{
    let mut text = TextLine::new();
    text.number(line.start);
    push_rest(&mut text, header, &line);
    text
}
