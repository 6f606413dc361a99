ghost use Rattle.std.specs.Prelude.{List, ◌≡◌, ◌+◌, ◌-◌, ◌<◌, ◌≤◌, ◌++◌, ◌∷◌, [], length, IfOk, IfSome, Some};
ghost use Rattle.dk_trace.specs.declared.Entry.{Entry};
ghost use Rattle.dk_trace.specs.Entries.{thread_of, kernel_level};
ghost use Rattle.dk_report.specs.Counts.{counted_for, is_idle, with_event, with_kernel_for, with_thread_label_for, with_thread_event};

use crate::printing::{write_kernel, write_rest};
use crate::sums::{Sums, raise, raise_by};
use dk_config::{MAX_TICKS, NoMemory};
use dk_ledger::{Header, TextLine};
use dk_outside::{Sink, SinkError};
use dk_trace::{Entry, Event, Label, Source};
use std::alloc::Global;
use std::marker::Model;

/// What the threads of a process had, in ticks by label and source, and their events.
#[derive(Clone, Copy, Default, PartialEq, Eq)]
pub struct ProcessTotals {
    pub ins: u32,
    pub runs: u32,
    pub calls: u32,
    pub outs: u32,
    pub timeline: u32,
    pub reclaimed: u32,
    pub created: u32,
    pub refused: u32,
    pub faults: u32,
}

impl ProcessTotals {
    fn count_event(&mut self, event: Event)
        ensures { self.new ≡ with_event self.old (Some event) }
    {
        match event {
            Event::Create { .. } => raise(&mut self.created),
            Event::Refused(_) => raise(&mut self.refused),
            Event::Fault(_) => raise(&mut self.faults),
            _ => {}
        }
    }
}

/// Counts so many ticks with this label, at its level or for the process of its thread.
#[inline(always)]
fn count_label(
    idle: &mut u32,
    levels: &mut [u32],
    processes: &mut [ProcessTotals],
    label: Label,
    count: u32,
)
    requires level { IfSome (kernel_level label) (λ j. j < length levels.old) }
    requires process { IfSome (thread_of label) (λ x. x.process < length processes.old) }
    ensures idle { idle.new ≡ counted_for count (is_idle label) idle.old }
    ensures levels { levels.new ≡ with_kernel_for count levels.old label }
    ensures processes { processes.new ≡ with_thread_label_for count processes.old label }
{
    match label {
        Label::Kernel(level) => raise_by(&mut levels[level as usize], count),
        Label::In(thread) => raise_by(&mut processes[thread.process as usize].ins, count),
        Label::Run(thread) => raise_by(&mut processes[thread.process as usize].runs, count),
        Label::Call(thread) => raise_by(&mut processes[thread.process as usize].calls, count),
        Label::Out(thread) => raise_by(&mut processes[thread.process as usize].outs, count),
        Label::Slack {
            thread,
            source: Source::Timeline,
            ..
        } => raise_by(&mut processes[thread.process as usize].timeline, count),
        Label::Slack { thread, .. } => raise_by(
            &mut processes[thread.process as usize].reclaimed,
            count,
        ),
        Label::Idle => raise_by(idle, count),
    }
}

/// Counts the event for the process of the label's thread.
fn count_event(processes: &mut [ProcessTotals], label: Label, event: Event)
    requires { IfSome (thread_of label) (λ x. x.process < length processes.old) }
    ensures { processes.new ≡ with_thread_event processes.old label event }
{
    if let Some(thread) = label.thread() {
        processes[thread.process as usize].count_event(event);
    }
}

/// The totals of the entries so far, for a fixed number of levels and processes, seen as the
/// numbers of the report. They stand for every list of entries that has these counts.
///
/// So that a tick raises one number, the sums over all levels and processes are kept nowhere: the report
/// adds them up.
#[derive(Drop)]
pub struct Totals {
    idle: u32,
    levels: Vec<u32>,
    processes: Vec<ProcessTotals>,
}

impl Model for Totals {
    ghost use Rattle.dk_report.specs.Counts.{Numbers};
    ghost use Rattle.dk_report.specs.Sums.{numbers_with};

    ghost Value = { Numbers };

    ghost view = { λ t. numbers_with t.idle t.levels.items t.processes.items };
}

impl Totals {
    ghost use Rattle.dk_outside.specs.Written.{Writes};
    ghost use Rattle.dk_ledger.specs.Heading.{IsPrintable};
    ghost use Rattle.dk_trace.specs.Entries.{quiet};
    ghost use Rattle.dk_ledger.specs.Stretches.{stretch_of};
    ghost use Rattle.dk_report.specs.Counts.{StandsFor, added, added_for};
    ghost use Rattle.dk_report.specs.Sums.{sums_of};
    ghost use Rattle.dk_report.specs.Report.{total_body, lines_text, numbers_text, report_text};

    /// The totals of no entry.
    pub fn reserve(alloc: Global, levels: u8, processes: u8) -> Result<Totals, NoMemory>
        ensures start { IfOk result (λ t. StandsFor t []) }
        ensures levels { IfOk result (λ t. length t.levels ≡ levels) }
        ensures processes { IfOk result (λ t. length t.processes ≡ processes) }
    {
        let levels = vec![in alloc; 0; levels as usize]?;
        let processes = vec![in alloc; ProcessTotals::default(); processes as usize]?;
        Ok(Totals {
            idle: 0,
            levels,
            processes,
        })
    }

    /// Counts the entry. Counts stay right for up to 4,000,000,000 entries.
    #[inline(always)]
    pub fn add(&mut self, entry: Entry)
        requires level { IfSome (kernel_level entry.label) (λ j. j < length self.old.levels) }
        requires process { IfSome (thread_of entry.label) (λ x. x.process < length self.old.processes) }
        ensures numbers { self.new ≡ added self.old entry }
        ensures after { (es : List Entry) → StandsFor self.old es → length es < MAX_TICKS
            → StandsFor self.new (es ++ entry ∷ []) }
        ensures levels { length self.new.levels ≡ length self.old.levels }
        ensures processes { length self.new.processes ≡ length self.old.processes }
    {
        count_label(
            &mut self.idle,
            &mut self.levels,
            &mut self.processes,
            entry.label,
            1,
        );
        if let Some(event) = entry.event {
            count_event(&mut self.processes, entry.label, event);
        }
    }

    /// Counts so many entries of the label of this one, which is the last of them and alone may have an event.
    #[inline(always)]
    pub fn add_stretch(&mut self, count: u32, entry: Entry)
        requires some { 1 ≤ count }
        requires level { IfSome (kernel_level entry.label) (λ j. j < length self.old.levels) }
        requires process { IfSome (thread_of entry.label) (λ x. x.process < length self.old.processes) }
        ensures numbers { self.new ≡ added (added_for (count - 1) self.old (quiet entry.label)) entry }
        ensures after { (es : List Entry) → StandsFor self.old es → length es + count ≤ MAX_TICKS
            → StandsFor self.new (es ++ stretch_of count entry) }
        ensures levels { length self.new.levels ≡ length self.old.levels }
        ensures processes { length self.new.processes ≡ length self.old.processes }
    {
        count_label(
            &mut self.idle,
            &mut self.levels,
            &mut self.processes,
            entry.label,
            count,
        );
        if let Some(event) = entry.event {
            count_event(&mut self.processes, entry.label, event);
        }
    }

    /// Writes the report, line by line. It needs no memory.
    ///
    /// The header's names are names of a configuration, and it has at most 12 levels and 32
    /// processes, as many as were reserved.
    pub fn print<S: Sink>(&self, header: &Header, sink: &mut S) -> Result<(), SinkError>
        requires printable { IsPrintable header.now }
        requires levels { length header.now.levels ≡ length self.now.levels }
        requires processes { length header.now.processes ≡ length self.now.processes }

        ensures wrote { Writes (S.seen sink.old) (S.seen sink.new) result
            (numbers_text header.now self.now) }

        // It is the report of each list that the totals stand for.
        ensures text { (es : List Entry) → StandsFor self.now es
            → numbers_text header.now self.now ≡ report_text header.now es }
    {
        self.total_line().write_to(sink)?;
        self.write_lines(header, sink)
    }

    /// The sums over all levels and processes.
    fn sums(&self) -> Sums
        ensures { result ≡ sums_of self.now }
    {
        Sums::of(self.idle, &self.levels, &self.processes)
    }

    /// The first line, without its line feed.
    fn total_line(&self) -> TextLine
        ensures text { result ≡ total_body self.now }
        ensures len { length result < 200 }
    {
        let sums = self.sums();
        let mut text = TextLine::new();
        text.word("total ");
        text.number(sums.entries);
        text.word(" kernel ");
        text.number(sums.kernel);
        text.word(" switch ");
        text.number(sums.switch);
        text.word(" body ");
        text.number(sums.body);
        text.word(" slack ");
        text.number(sums.slack);
        text.word(" idle ");
        text.number(sums.idle);
        text
    }

    /// The lines after the first.
    fn write_lines<S: Sink>(&self, header: &Header, sink: &mut S) -> Result<(), SinkError>
        requires printable { IsPrintable header.now }
        requires levels { length header.now.levels ≡ length self.now.levels }
        requires processes { length header.now.processes ≡ length self.now.processes }
        ensures { Writes (S.seen sink.old) (S.seen sink.new) result (lines_text header.now self.now) }
    {
        write_kernel(0, self.levels.as_slice(), sink)?;
        write_rest(header, self.processes.as_slice(), self.sums().entries, sink)
    }
}
