//! What is ready to be written, and the writing of it.
ghost use Rattle.std.specs.Prelude.{ℕ, List, ◌≡◌, ◌++◌, ◌+◌, ◌<◌, ◌≤◌, ◌==◌, length, codes, Some};
ghost use Rattle.dk_outside.specs.Written.{Writes};
ghost use Rattle.dk_trace.specs.declared.Entry.{Entry as TickEntry};
ghost use Rattle.dk_inspect.specs.View.{view};
ghost use Rattle.dk_inspect.specs.Printing.{IsHeaderOf};
ghost use Rattle.dk_ledger.specs.Heading.{IsPrintable, header_text};
ghost use Rattle.dk_ledger.specs.Ledgers.{entries_text, ledger_text};
ghost use Rattle.dk_report.specs.Report.{numbers_text};
ghost use Rattle.dk_command.specs.Runs.{AreEntries, workload_of};
ghost use Rattle.dk_inputs.specs.Inputs.{IsCertified};
ghost use Rattle.dk_command.specs.Work.{HasText, IsReady};

use crate::recording::RunLedger;
use dk_config::MAX_RUN_TICKS;
use dk_kernel::Kernel;
use dk_ledger::{Header, RunWriter, write_header};
use dk_outside::{Sink, SinkError, write_all_to};
use dk_report::Totals;
use dk_steps::Steps;
use std::marker::Brand;
use std::sync::ledger::{Blank, Ledger};

/// What is ready to be written. It has taken all its memory.
#[derive(Drop)]
pub enum Work {
    /// The ledger of so many ticks of the kernel.
    Run {
        kernel: Kernel,
        header: Header,
        ticks: u32,
    },
    /// The header and the report of these totals.
    Report {
        header: Header,
        totals: Totals,
    },
    /// The lines of the header, and that it is certified.
    Certified(Header),
    /// These bytes, line by line.
    Lines(Vec<u8>),
    /// These bytes, in one piece.
    Bytes(Vec<u8>),
    /// The state of the kernel at its present tick.
    State {
        kernel: Kernel,
        header: Header,
    },
}

/// Writes a piece whole.
fn write_piece<S: Sink>(piece: &[u8], sink: &mut S) -> Result<(), SinkError>
    ensures { Writes (S.seen sink.old) (S.seen sink.new) result piece.now }
{
    write_all_to(sink, piece)
}

/// Writes the lines of the header.
fn write_heading<S: Sink>(header: &Header, sink: &mut S) -> Result<(), SinkError>
    requires { IsPrintable header.now }
    ensures { Writes (S.seen sink.old) (S.seen sink.new) result (header_text header.now) }
{
    write_header(header, sink)
}

/// How long the first line is, with its line feed where it has one.
fn line_length(bytes: &[u8]) -> usize
    requires { 0 < length bytes.now }
    ensures some { 0 < result }
    ensures within { result ≤ length bytes.now }
{
    match bytes.iter().position(|byte| *byte == b'\n') {
        Some(place) => place + 1,
        None => bytes.len(),
    }
}

/// Writes the bytes, each line in one piece.
fn write_lines<S: Sink>(bytes: &[u8], sink: &mut S) -> Result<(), SinkError>
    ensures { Writes (S.seen sink.old) (S.seen sink.new) result bytes.now }
{
    let mut rest = bytes;
    while !rest.is_empty() {
        let (line, behind) = rest.split_at(line_length(rest));
        write_piece(line, sink)?;
        rest = behind;
    }
    Ok(())
}

/// Runs so many ticks and writes their entries as they come. Nobody reads how many steps they take.
fn write_entries<S: Sink, L: Ledger>(
    kernel: &mut Kernel,
    header: &Header,
    ticks: u32,
    sink: &mut S,
    blank: Blank,
) -> Result<(), SinkError>
    requires start { kernel.old.ticks ≡ 0 }
    requires certified { IsCertified kernel.old.config }
    requires few { ticks ≤ MAX_RUN_TICKS }
    requires printable { IsPrintable header.now }
    requires same_processes { length header.now.processes ≡ length kernel.old.config.processes }
    requires name { blank.name ≡ L.name }
    requires parts { blank.parts ≡ L.parts }
    requires some { 0 < L.parts }
    ensures { (es : List TickEntry) × AreEntries (workload_of kernel.old) ticks es
        × Writes (S.seen sink.old) (S.seen sink.new) result (entries_text header.now es) }
{
    let writer = RunWriter::new();
    let mut ledger = RunLedger {
        writer,
        header,
        sink,
    };
    let mut steps = Steps::<L>::new(blank);
    kernel.run(ticks, &mut ledger, &mut steps)?;
    let RunLedger { writer, sink, .. } = ledger;
    writer.finish(header, sink)
}

fn write_run<S: Sink>(
    kernel: &mut Kernel,
    header: &Header,
    ticks: u32,
    sink: &mut S,
) -> Result<(), SinkError>
    requires start { kernel.old.ticks ≡ 0 }
    requires certified { IsCertified kernel.old.config }
    requires few { ticks ≤ MAX_RUN_TICKS }
    requires printable { IsPrintable header.now }
    requires same_processes { length header.now.processes ≡ length kernel.old.config.processes }
    ensures { (es : List TickEntry) × AreEntries (workload_of kernel.old) ticks es
        × Writes (S.seen sink.old) (S.seen sink.new) result (ledger_text header.now es) }
{
    write_heading(header, sink)?;
    write_entries::<S, Brand>(kernel, header, ticks, sink, Blank::new(1))
}

fn write_totals<S: Sink>(header: &Header, totals: &Totals, sink: &mut S) -> Result<(), SinkError>
    requires printable { IsPrintable header.now }
    requires levels { length header.now.levels ≡ length totals.now.levels }
    requires processes { length header.now.processes ≡ length totals.now.processes }
    ensures { Writes (S.seen sink.old) (S.seen sink.new) result (numbers_text header.now totals.now) }
{
    totals.print(header, sink)
}

fn write_report<S: Sink>(header: &Header, totals: &Totals, sink: &mut S) -> Result<(), SinkError>
    requires printable { IsPrintable header.now }
    requires levels { length header.now.levels ≡ length totals.now.levels }
    requires processes { length header.now.processes ≡ length totals.now.processes }
    ensures { Writes (S.seen sink.old) (S.seen sink.new) result
        (header_text header.now ++ numbers_text header.now totals.now) }
{
    write_heading(header, sink)?;
    write_totals(header, totals, sink)
}

fn write_certificate<S: Sink>(header: &Header, sink: &mut S) -> Result<(), SinkError>
    requires { IsPrintable header.now }
    ensures { Writes (S.seen sink.old) (S.seen sink.new) result
        (header_text header.now ++ codes "certified\n") }
{
    write_heading(header, sink)?;
    write_piece(b"certified\n", sink)
}

fn write_state<S: Sink>(kernel: &Kernel, header: &Header, sink: &mut S) -> Result<(), SinkError>
    requires { IsHeaderOf kernel.now.config header.now }
    ensures { Writes (S.seen sink.old) (S.seen sink.new) result
        (view kernel.now.config kernel.now.programs kernel.now.ticks) }
{
    dk_inspect::print(kernel, header, sink)
}

/// Lets go of a kernel. Its parts are many, so this stands in one place.
pub fn let_go(_kernel: Kernel) {}

/// Writes what is ready. It needs no memory.
pub fn perform<S: Sink>(work: Work, sink: &mut S) -> Result<(), SinkError>
    requires { IsReady work }
    ensures { (text : List ℕ) × HasText work text × Writes (S.seen sink.old) (S.seen sink.new) result text }
{
    match work {
        Work::Run {
            mut kernel,
            header,
            ticks,
        } => {
            let result = write_run(&mut kernel, &header, ticks, sink);
            let_go(kernel);
            result
        }
        Work::Report { header, totals } => write_report(&header, &totals, sink),
        Work::Certified(header) => write_certificate(&header, sink),
        Work::Lines(bytes) => write_lines(&bytes, sink),
        Work::Bytes(bytes) => write_piece(&bytes, sink),
        Work::State { kernel, header } => {
            let result = write_state(&kernel, &header, sink);
            let_go(kernel);
            result
        }
    }
}
