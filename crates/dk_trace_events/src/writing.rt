ghost use Rattle.std.specs.Prelude.{ℕ, List, ◌≡◌, ◌<◌, ◌++◌, [], IfOk};
ghost use Rattle.dk_trace.specs.declared.Entry.{Entry};
ghost use Rattle.dk_outside.specs.Written.{Writes};
ghost use Rattle.dk_ledger.specs.Heading.{IsPrintable};
ghost use Rattle.dk_ledger.specs.Readable.{Journal, IsReadable, text_of};
ghost use Rattle.dk_groups.specs.Groups.{groups};
ghost use Rattle.dk_groups.specs.Cutting.{ComesNext};
ghost use Rattle.dk_groups.specs.Writing.{Puts};
ghost use Rattle.dk_holds.specs.Holds.{AreHolders};
ghost use Rattle.dk_trace_events.specs.Behind.{AreKnown, IsStarting, StandsFirst, lines_text, past_of};
ghost use Rattle.dk_trace_events.specs.HoldSlices.{mutex_names, open_holds};
ghost use Rattle.dk_trace_events.specs.Names.{process_texts};
ghost use Rattle.dk_trace_events.specs.LevelWindows.{level_texts};
ghost use Rattle.dk_trace_events.specs.Traces.{end_text, groups_text, head_text, tail_text, trace_text};

use crate::holds::{write_mutex_names, write_open_holds};
use crate::lines::write_lines;
use crate::names::write_processes;
use crate::overruns::write_overruns;
use crate::slices::write_groups;
use crate::windows::write_levels;
use dk_config::{MAX_MUTEXES, NoMemory};
use dk_groups::{GroupReader, WriteFault, header_of};
use dk_holds::Holders;
use dk_ledger::{Header, LedgerLine};
use dk_outside::{Sink, SinkError, write_all_to};
use dk_overrun_spans::{Overrun, read_overruns};
use std::alloc::Global;
use std::marker::Model;

/// The trace of a ledger in a range of ticks, ready to be written. It is seen as the header with two readers, that of the
/// groups and that of the lines up to the range's end, each with the first of what it gives, and the windows that were
/// overrun.
#[derive(Drop)]
pub struct Trace<'a> {
    header: Header,
    groups: GroupReader<'a>,
    first: Option<LedgerLine>,
    lines: GroupReader<'a>,
    first_line: Option<LedgerLine>,
    overruns: Vec<Overrun>,
}

impl<'a> Model for Trace<'a> {
    ghost use Rattle.std.specs.Prelude.{◌≡◌};
    ghost use Rattle.dk_trace_events.specs.Behind.{IsStarting, StandsFirst};
    ghost use Rattle.dk_trace_events.specs.Traces.{Tracing};

    ghost Value = { Tracing };

    ghost view = { λ t. record { heading = t.header; groups = t.groups; first = t.first; lines = t.lines; first_line = t.first_line; overruns = t.overruns.items } };

    ghost invariant = { λ t. StandsFirst t.header t.first_line t.lines × (t.lines.from ≡ 0) × IsStarting t.first t.groups };
}

impl<'a> Trace<'a> {
    ghost use Rattle.dk_trace_events.specs.Traces.{IsTraceOf};

    /// The trace of the ledger in these bytes, from tick `from` up to before tick `to`.
    pub fn of(alloc: Global, bytes: &'a [u8], from: u32, to: u32) -> Result<Trace<'a>, NoMemory>
        requires { (j : Journal) × IsReadable j × (text_of j ≡ bytes.now) }
        ensures trace { IfOk result (λ t. (j : Journal) → IsReadable j → text_of j ≡ bytes.entry.now
            → IsTraceOf j from to t) }
        ensures printable { IfOk result (λ t. IsPrintable t.heading) }
    {
        let header = header_of(alloc, bytes)?;
        let mut groups = GroupReader::new(alloc, bytes, from, to);
        let first = groups.next(alloc)?;
        let mut lines = GroupReader::new(alloc, bytes, 0, to);
        let first_line = lines.next(alloc)?;
        let overruns = read_overruns(alloc, bytes)?;
        Ok(Trace {
            header,
            groups,
            first,
            lines,
            first_line,
            overruns,
        })
    }

    /// Writes the trace, object by object.
    pub fn write<S: Sink>(self, alloc: Global, sink: &mut S) -> Result<(), WriteFault>
        requires printable { IsPrintable self.heading }
        ensures { (j : Journal) (from to : ℕ) → IsReadable j → IsTraceOf j from to self.entry
            → Puts (S.seen sink.old) (S.seen sink.new) result (trace_text from to j.heading j.entries) }
    {
        let Trace {
            header,
            mut groups,
            first,
            mut lines,
            first_line,
            overruns,
        } = self;
        write_head(&header, sink)?;
        write_objects(
            &header,
            &mut groups,
            first,
            &mut lines,
            first_line,
            overruns.as_slice(),
            alloc,
            sink,
        )
    }
}

const HEAD: &str =
    "{\"displayTimeUnit\":\"ms\",\"traceEvents\":[\n{\"args\":{\"name\":\"kernel\"},\"name\":\"process_name\",\"ph\":\"M\",\"pid\":1},\n{\"args\":{\"sort_index\":0},\"name\":\"process_sort_index\",\"ph\":\"M\",\"pid\":1},\n{\"args\":{\"name\":\"kernel\"},\"name\":\"thread_name\",\"ph\":\"M\",\"pid\":1,\"tid\":1},\n{\"args\":{\"name\":\"idle\"},\"name\":\"thread_name\",\"ph\":\"M\",\"pid\":1,\"tid\":2},\n{\"args\":{\"name\":\"mutexes\"},\"name\":\"process_name\",\"ph\":\"M\",\"pid\":2},\n{\"args\":{\"sort_index\":1},\"name\":\"process_sort_index\",\"ph\":\"M\",\"pid\":2},\n";

const TAIL: &str =
    "{\"args\":{\"sort_index\":1},\"name\":\"thread_sort_index\",\"ph\":\"M\",\"pid\":1,\"tid\":2}\n]}\n";

/// Writes what stands before the groups.
fn write_head<S: Sink>(header: &Header, sink: &mut S) -> Result<(), SinkError>
    requires { IsPrintable header.now }
    ensures { Writes (S.seen sink.old) (S.seen sink.new) result
        (head_text ++ (mutex_names ++ process_texts 0 header.now.processes)) }
{
    write_all_to(sink, HEAD.as_bytes())?;
    write_names(header, sink)
}

fn write_names<S: Sink>(header: &Header, sink: &mut S) -> Result<(), SinkError>
    requires { IsPrintable header.now }
    ensures { Writes (S.seen sink.old) (S.seen sink.new) result
        (mutex_names ++ process_texts 0 header.now.processes) }
{
    write_mutex_names(MAX_MUTEXES as u8, sink)?;
    write_processes(0, header.processes.as_slice(), sink)
}

/// Writes what stands behind the names of the processes.
fn write_objects<S: Sink>(
    header: &Header,
    reader: &mut GroupReader,
    first: Option<LedgerLine>,
    lines: &mut GroupReader,
    first_line: Option<LedgerLine>,
    overruns: &[Overrun],
    alloc: Global,
    sink: &mut S,
) -> Result<(), WriteFault>
    requires printable { IsPrintable header.now }
    requires groups { IsStarting first reader.old }
    requires start { StandsFirst header.now first_line lines.old }
    requires zero { lines.old.from ≡ 0 }
    ensures { (j : Journal) → IsReadable j → j.heading ≡ header.now → ComesNext j [] first reader.old
        → ComesNext j [] first_line lines.old → Puts (S.seen sink.old) (S.seen sink.new) result
        (groups_text j.heading (groups reader.old.from reader.old.to j.entries)
        ++ (lines_text j.heading reader.old.from (groups lines.old.from lines.old.to j.entries)
        ++ (open_holds j.heading reader.old.from lines.old.to (past_of (groups lines.old.from lines.old.to j.entries))
        ++ end_text reader.old.from lines.old.to j.heading overruns.now))) }
{
    let from = reader.first_tick();
    write_groups(reader, alloc, first, sink)?;
    write_end(header, from, lines, first_line, overruns, alloc, sink)
}

/// Writes what stands behind the groups.
fn write_end<S: Sink>(
    header: &Header,
    from: u32,
    lines: &mut GroupReader,
    first: Option<LedgerLine>,
    overruns: &[Overrun],
    alloc: Global,
    sink: &mut S,
) -> Result<(), WriteFault>
    requires printable { IsPrintable header.now }
    requires start { StandsFirst header.now first lines.old }
    requires zero { lines.old.from ≡ 0 }
    ensures { (j : Journal) → IsReadable j → ComesNext j [] first lines.old
        → Puts (S.seen sink.old) (S.seen sink.new) result
        (lines_text header.now from (groups lines.old.from lines.old.to j.entries)
        ++ (open_holds header.now from lines.old.to (past_of (groups lines.old.from lines.old.to j.entries))
        ++ end_text from lines.old.to header.now overruns.now)) }
{
    let to = lines.end_tick();
    let holders = write_lines(header, from, lines, alloc, first, sink)?;
    write_last(header, from, to, &holders, overruns, sink)
}

/// Writes the holds that go on at the range's end, and what a trace ends with.
fn write_last<S: Sink>(
    header: &Header,
    from: u32,
    to: u32,
    holders: &Holders,
    overruns: &[Overrun],
    sink: &mut S,
) -> Result<(), WriteFault>
    requires printable { IsPrintable header.now }
    requires known { AreKnown header.now holders.now }
    ensures { (past : List Entry) → AreHolders past holders.now → Puts (S.seen sink.old) (S.seen sink.new)
        result (open_holds header.now from to past ++ end_text from to header.now overruns.now) }
{
    write_open_holds(MAX_MUTEXES as u8, holders, header, from, to, sink)?;
    write_windows(header, from, to, overruns, sink)
}

/// Writes the windows that were overrun, those of the levels, and what a trace ends with.
fn write_windows<S: Sink>(
    header: &Header,
    from: u32,
    to: u32,
    overruns: &[Overrun],
    sink: &mut S,
) -> Result<(), WriteFault>
    requires { IsPrintable header.now }
    ensures { Puts (S.seen sink.old) (S.seen sink.new) result (end_text from to header.now overruns.now) }
{
    write_overruns(from, to, overruns, sink)?;
    write_windows_and_tail(header, from, to, sink)
}

fn write_windows_and_tail<S: Sink>(
    header: &Header,
    from: u32,
    to: u32,
    sink: &mut S,
) -> Result<(), WriteFault>
    requires { IsPrintable header.now }
    ensures { Puts (S.seen sink.old) (S.seen sink.new) result
        (level_texts from to 0 header.now.levels ++ tail_text) }
{
    write_levels(from, to, 0, header.levels.as_slice(), sink)?;
    write_tail(sink)
}

fn write_tail<S: Sink>(sink: &mut S) -> Result<(), WriteFault>
    ensures { Puts (S.seen sink.old) (S.seen sink.new) result tail_text }
{
    write_all_to(sink, TAIL.as_bytes())?;
    Ok(())
}
