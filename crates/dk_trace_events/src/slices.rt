//! The objects of a group, and of all groups.
ghost use Rattle.std.specs.Prelude.{List, ◌≡◌, ◌+◌, ◌<◌, ◌≤◌, ◌^◌, ◌++◌, ◌∷◌, [], length};
ghost use Rattle.dk_outside.specs.Written.{Writes};
ghost use Rattle.dk_ledger.specs.declared.line.LedgerLine.{LedgerLine as Group};
ghost use Rattle.dk_ledger.specs.Heading.{IsPrintable};
ghost use Rattle.dk_ledger.specs.LineText.{IsNamed};
ghost use Rattle.dk_ledger.specs.Readable.{Journal, IsReadable};
ghost use Rattle.dk_groups.specs.Groups.{groups};
ghost use Rattle.dk_groups.specs.Cutting.{ComesNext};
ghost use Rattle.dk_groups.specs.Writing.{Puts};
ghost use Rattle.dk_trace_events.specs.Behind.{IsStarting};
ghost use Rattle.dk_trace_events.specs.SlackPoints.{slack_in};
ghost use Rattle.dk_trace_events.specs.Slices.{event_lines, group_objects, group_text, instant_text, slice_rest, slice_text};
ghost use Rattle.dk_trace_events.specs.Traces.{groups_text, objects_text};

use crate::line::Line;
use crate::slack::{SlackUsed, write_point, write_start};
use crate::tracks::{push_place, track_of};
use crate::words::{category, push_event, push_line, push_work};
use dk_groups::{GroupReader, WriteFault};
use dk_ledger::{Header, LedgerLine};
use dk_outside::{Sink, SinkError};
use dk_trace::Event;
use std::alloc::Global;

/// The members of a slice behind the ledger's line.
fn push_rest(text: &mut Line, group: LedgerLine)
    requires { length text.old + 187 ≤ 600 }
    ensures bytes { text.new ≡ text.old ++ slice_rest group }
    ensures len { length text.new ≤ length text.old + 187 }
{
    text.word("\"},\"cat\":\"");
    text.word(category(group.label));
    text.word("\",\"dur\":");
    text.number(group.count as u64);
    text.word(",\"name\":\"");
    push_work(text, group.label);
    text.word("\",\"ph\":\"X\"");
    push_place(text, track_of(group.label));
    text.word(",\"ts\":");
    text.number(group.start as u64);
    text.word("},\n");
}

fn slice_of(header: &Header, group: LedgerLine) -> Line
    requires printable { IsPrintable header.now }
    requires named { IsNamed header.now group.label }
    ensures { result ≡ slice_text header.now group }
{
    let mut text = Line::new();
    text.word("{\"args\":{\"line\":\"");
    push_line(&mut text, header, group);
    push_rest(&mut text, group);
    text
}

fn instant_of(group: LedgerLine, event: Event) -> Line
    requires some { 0 < group.count }
    requires short { group.start + group.count < 2 ^ 32 }
    ensures { result ≡ instant_text group event }
{
    let mut text = Line::new();
    text.word("{\"cat\":\"");
    text.word(event.word());
    text.word("\",\"name\":\"");
    push_event(&mut text, event);
    text.word("\",\"ph\":\"i\",\"s\":\"t\"");
    push_place(&mut text, track_of(group.label));
    text.word(",\"ts\":");
    text.number((group.start + (group.count - 1)) as u64);
    text.word("},\n");
    text
}

fn write_event<S: Sink>(group: LedgerLine, sink: &mut S) -> Result<(), SinkError>
    requires some { 0 < group.count }
    requires short { group.start + group.count < 2 ^ 32 }
    ensures { Writes (S.seen sink.old) (S.seen sink.new) result (event_lines group group.event) }
{
    match group.event {
        Some(event) => instant_of(group, event).write_to(sink),
        None => Ok(()),
    }
}

/// Writes the slice of the group, and its event.
fn write_group<S: Sink>(header: &Header, group: LedgerLine, sink: &mut S) -> Result<(), SinkError>
    requires printable { IsPrintable header.now }
    requires named { IsNamed header.now group.label }
    requires some { 0 < group.count }
    requires short { group.start + group.count < 2 ^ 32 }
    ensures { Writes (S.seen sink.old) (S.seen sink.new) result (group_text header.now group) }
{
    slice_of(header, group).write_to(sink)?;
    write_event(group, sink)
}

/// Writes the slice of the group, its event, and the point of the counter behind it, which was `old` before the group and
/// is `new` with it.
fn write_counted<S: Sink>(
    header: &Header,
    group: LedgerLine,
    old: SlackUsed,
    new: SlackUsed,
    sink: &mut S,
) -> Result<(), SinkError>
    requires printable { IsPrintable header.now }
    requires named { IsNamed header.now group.label }
    requires some { 0 < group.count }
    requires short { group.start + group.count < 2 ^ 32 }
    ensures { (before : List Group) → old ≡ slack_in before → new ≡ slack_in (before ++ group ∷ [])
        → Writes (S.seen sink.old) (S.seen sink.new) result (group_objects header.now before group) }
{
    write_group(header, group, sink)?;
    write_point(group.start + group.count, old, new, sink)
}

/// Writes the objects of this group, and of all groups behind it.
fn write_each<S: Sink>(
    reader: &mut GroupReader,
    alloc: Global,
    first: Option<LedgerLine>,
    sink: &mut S,
) -> Result<(), WriteFault>
    requires { IsStarting first reader.old }
    ensures { (j : Journal) → IsReadable j → ComesNext j [] first reader.old
        → Puts (S.seen sink.old) (S.seen sink.new) result
        (objects_text j.heading (groups reader.old.from reader.old.to j.entries)) }
{
    let mut used = SlackUsed::none();
    let mut next = first;
    while let Some(group) = next {
        let more = used.with_group(group);
        write_counted(reader.header(), group, used, more, sink)?;
        used = more;
        next = reader.next(alloc)?;
    }
    Ok(())
}

/// Writes the groups, and where the counter of slack begins.
pub(crate) fn write_groups<S: Sink>(
    reader: &mut GroupReader,
    alloc: Global,
    first: Option<LedgerLine>,
    sink: &mut S,
) -> Result<(), WriteFault>
    requires { IsStarting first reader.old }
    ensures { (j : Journal) → IsReadable j → ComesNext j [] first reader.old
        → Puts (S.seen sink.old) (S.seen sink.new) result
        (groups_text j.heading (groups reader.old.from reader.old.to j.entries)) }
{
    write_start(first, sink)?;
    write_each(reader, alloc, first, sink)
}
