//! Tests of dk_ledger: ledgers that are read.
ghost use Rattle.std.specs.Prelude.{◌≡◌, ◌+◌, ◌<◌, length, true, IfSome, OnOk};
ghost use Rattle.std.specs.Bool.{Decides};
ghost use Rattle.std.specs.List.{list_all};
ghost use Rattle.dk_config.specs.Rules.{is_name};
ghost use Rattle.dk_ledger.specs.Heading.{IsPrintable};
ghost use Rattle.dk_ledger.specs.LineText.{IsNamed};

mod each_kind;

use dk_config::{MAX_LEVELS, MAX_PROCESSES, MAX_TICKS, is_name};
use dk_ledger::{Header, Ledger, ProcessLine, read_ledger, write_header};
use dk_ledger_writer::LedgerWriter;
use dk_outside::MemSink;
use dk_trace::{Entry, Label, ThreadId};
use each_kind::{LEDGER, LEVELS, entries};
use std::alloc::Global;
use std::test::Fail;

fn have_names(processes: &[ProcessLine]) -> bool
    ensures { result ≡ list_all (λ p. is_name p.name) processes.now }
{
    processes
        .iter()
        .all(|p| is_name(p.name.as_str().as_bytes()))
}

fn is_printable(header: &Header) -> bool
    ensures { result ≡ true → IsPrintable header.now }
{
    header.levels.len() <= MAX_LEVELS
        && header.processes.len() <= MAX_PROCESSES
        && have_names(header.processes.as_slice())
}

fn has_process(header: &Header, thread: ThreadId) -> bool
    ensures { Decides result (thread.process < length header.now.processes) }
{
    (thread.process as usize) < header.processes.len()
}

/// Whether the header has the process of the label's thread.
fn is_named(header: &Header, label: Label) -> bool
    ensures { Decides result (IsNamed header.now label) }
{
    match label {
        Label::In(thread) | Label::Run(thread) | Label::Call(thread) | Label::Out(thread) => {
            has_process(header, thread)
        }
        Label::Slack { thread, .. } => has_process(header, thread),
        Label::Kernel(_) | Label::Idle => true,
    }
}

/// Writes the next entry.
fn write_one(
    writer: &mut LedgerWriter,
    header: &Header,
    entry: Entry,
    sink: &mut MemSink,
) -> Result<(), Fail>
    requires printable { IsPrintable header.now }
    requires last_named { IfSome writer.old.last (λ l. IsNamed header.now l.label) }
    requires few { writer.old.entries < MAX_TICKS }
    ensures last_named { OnOk result (IfSome writer.new.last (λ l. IsNamed header.now l.label)) }
    ensures one { OnOk result (writer.new.entries ≡ writer.old.entries + 1) }
{
    if !is_named(header, entry.label) {
        return Err("no such process".into());
    }
    Ok(writer.entry(header, entry, sink)?)
}

/// Writes the entries, of which there are few.
fn write(
    writer: &mut LedgerWriter,
    header: &Header,
    entries: &[Entry],
    sink: &mut MemSink,
) -> Result<(), Fail>
    requires printable { IsPrintable header.now }
    requires last_named { IfSome writer.old.last (λ l. IsNamed header.now l.label) }
    requires few { writer.old.entries + length entries.now < MAX_TICKS }
    ensures { OnOk result (IfSome writer.new.last (λ l. IsNamed header.now l.label)) }
{
    for entry in entries {
        write_one(writer, header, *entry, sink)?;
    }
    Ok(())
}

/// The text of a ledger of these 35 entries.
fn written(alloc: Global, header: &Header, entries: &[Entry]) -> Result<MemSink, Fail> {
    if !is_printable(header) || entries.len() != 35 {
        return Err("35 entries under a header that can be printed".into());
    }
    let mut sink = MemSink::reserve(alloc, 1000)?;
    write_header(header, &mut sink)?;
    let mut writer = LedgerWriter::new();
    write(&mut writer, header, entries, &mut sink)?;
    writer.finish(header, &mut sink)?;
    Ok(sink)
}

fn is_line(line: &ProcessLine, name: &str, level: u8, budget: u32) -> bool {
    line.name.as_str() == name && line.level == level && line.budget == budget
}

/// Whether it is the header of `LEDGER`.
fn is_expected(header: &Header) -> bool {
    match header.processes.as_slice() {
        [alpha, beta] => {
            is_line(alpha, "alpha", 0, 3)
                && is_line(beta, "beta", 1, 5)
                && header.levels.as_slice() == LEVELS.as_slice()
        }
        _ => false,
    }
}

// What reading says of the text would be in the way where the answer is used.
fn ledger(alloc: Global) -> Result<Ledger, Fail> {
    Ok(read_ledger(alloc, LEDGER.as_bytes())?)
}

#[test]
fn reads_back(rt: HostRuntime) -> Result<(), Fail> {
    let alloc = rt.alloc();
    let expected = entries(alloc)?;
    let ledger = ledger(alloc)?;
    assert!(rt; ledger.entries.as_slice() == expected.as_slice());
    assert!(rt; is_expected(&ledger.header));
    let sink = written(alloc, &ledger.header, expected.as_slice())?;
    assert!(rt; sink.bytes() == LEDGER.as_bytes());
    Ok(())
}
