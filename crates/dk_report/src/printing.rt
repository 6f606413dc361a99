ghost use Rattle.std.specs.Prelude.{◌≡◌, ◌+◌, ◌<◌, ◌≤◌, ◌++◌, length};
ghost use Rattle.dk_outside.specs.Written.{Writes};
ghost use Rattle.dk_ledger.specs.Heading.{IsPrintable};
ghost use Rattle.dk_report.specs.Report.{kernel_body, slack_part, process_body, kernel_lines, process_lines, rest_text};

use crate::ProcessTotals;
use dk_config::MAX_NAME_BYTES;
use dk_ledger::{Header, TextLine, end_of};
use dk_outside::{Sink, SinkError};

/// The line of a level's kernel work, without its line feed.
fn kernel_text(level: u32, ticks: u32) -> TextLine
    ensures text { result ≡ kernel_body level ticks }
    ensures len { length result < 200 }
{
    let mut text = TextLine::new();
    text.word("kernel level ");
    text.number(level);
    text.word(" ticks ");
    text.number(ticks);
    text
}

/// What the process had on slack, and its events.
fn push_slack(text: &mut TextLine, totals: ProcessTotals)
    requires { length text.old + 97 ≤ 200 }
    ensures bytes { text.new ≡ text.old ++ slack_part totals }
    ensures len { length text.new ≤ length text.old + 97 }
{
    text.word(" timeline ");
    text.number(totals.timeline);
    text.word(" reclaimed ");
    text.number(totals.reclaimed);
    text.word(" created ");
    text.number(totals.created);
    text.word(" refused ");
    text.number(totals.refused);
    text.word(" faults ");
    text.number(totals.faults);
}

/// The line of a process, without its line feed.
fn process_text(name: &str, totals: ProcessTotals) -> TextLine
    requires { length name.now ≤ MAX_NAME_BYTES }
    ensures text { result ≡ process_body name.now totals }
    ensures len { length result < 200 }
{
    let mut text = TextLine::new();
    text.word("process ");
    text.word(name);
    text.word(" in ");
    text.number(totals.ins);
    text.word(" run ");
    text.number(totals.runs);
    text.word(" call ");
    text.number(totals.calls);
    text.word(" out ");
    text.number(totals.outs);
    push_slack(&mut text, totals);
    text
}

pub(crate) fn write_kernel<S: Sink>(
    level: u32,
    ticks: &[u32],
    sink: &mut S,
) -> Result<(), SinkError>
    requires { level + length ticks.now ≤ 256 }
    ensures { Writes (S.seen sink.old) (S.seen sink.new) result (kernel_lines level ticks.now) }
{
    match ticks {
        [] => Ok(()),
        [first, rest @ ..] => {
            kernel_text(level, *first).write_to(sink)?;
            write_kernel(level + 1, rest, sink)
        }
    }
}

fn write_processes<S: Sink>(
    header: &Header,
    process: u32,
    totals: &[ProcessTotals],
    sink: &mut S,
) -> Result<(), SinkError>
    requires printable { IsPrintable header.now }
    requires named { process + length totals.now ≤ length header.now.processes }
    ensures { Writes (S.seen sink.old) (S.seen sink.new) result
        (process_lines header.now process totals.now) }
{
    match totals {
        [] => Ok(()),
        [first, rest @ ..] => {
            process_text(header.name_at(process as u8), *first).write_to(sink)?;
            write_processes(header, process + 1, rest, sink)
        }
    }
}

/// The lines of the processes and of the end.
pub(crate) fn write_rest<S: Sink>(
    header: &Header,
    totals: &[ProcessTotals],
    entries: u32,
    sink: &mut S,
) -> Result<(), SinkError>
    requires printable { IsPrintable header.now }
    requires named { length totals.now ≤ length header.now.processes }
    ensures { Writes (S.seen sink.old) (S.seen sink.new) result (rest_text header.now totals.now entries) }
{
    write_processes(header, 0, totals, sink)?;
    end_of(entries).write_to(sink)
}
