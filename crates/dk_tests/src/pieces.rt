//! Each line of output is one piece, so a write that fails leaves whole lines.
ghost use Rattle.std.specs.Prelude.{◌≤◌};

use crate::given::{TWO_SPINNERS, words_of};
use crate::session::{depot_with, only};
use dk_outside::{FailingSink, MemSink};
use dk_session::{Status, deosk};
use std::alloc::Global;
use std::test::Fail;

/// A line of each command but `asm`, whose bytes are one piece, and one that is refused.
static LINES: [&str; 13] = [
    "run f.toml 20",
    "run f.toml 20 --report",
    "certify f.toml",
    "gen 7 20",
    "ledger two.ledger",
    "ledger two.ledger --report",
    "migrate f.toml",
    "dis spin.bin",
    "audit f.toml two.ledger",
    "plan f.toml alpha",
    "harmonise 5 10 10:3 25:4",
    "inspect f.toml 7",
    "run f.toml -1",
];

/// How the line ends over this output.
fn status_of(alloc: Global, line: &str, sink: &mut FailingSink) -> Result<Status, Fail> {
    let mut depot = depot_with(alloc, TWO_SPINNERS)?;
    let words = words_of(alloc, line)?;
    Ok(deosk(alloc, words.as_slice(), &mut depot, sink))
}

/// How the line ends where the write of that number fails, and what was written. No write has number 0.
fn ended(alloc: Global, line: &str, write: u32) -> Result<(Status, FailingSink), Fail> {
    let mut sink = FailingSink::new(MemSink::reserve(alloc, 5000)?, only(alloc, write)?);
    let status = status_of(alloc, line, &mut sink)?;
    Ok((status, sink))
}

fn lines_in(text: &[u8]) -> u32 {
    let mut lines: u32 = 0;
    for byte in text {
        if *byte == b'\n' {
            lines = lines.saturating_add(1);
        }
    }
    lines
}

/// Whether the part is the first so many lines of the whole.
fn is_front(whole: &[u8], part: &[u8], lines: u32) -> bool {
    whole.starts_with(part) && (part.is_empty() || part.ends_with(b"\n")) && lines_in(part) == lines
}

/// Fails where the write of that number doesn't leave the lines before it alone.
fn is_cut(alloc: Global, line: &str, whole: &[u8], write: u32) -> Result<(), Fail>
    requires { 1 ≤ write }
{
    let (status, sink) = ended(alloc, line, write)?;
    if status == Status::SinkFault && is_front(whole, sink.inner().bytes(), write - 1) {
        return Ok(());
    }
    Err(Fail::new(format_args!("{line}: write {write} of {} isn't a line", lines_in(whole))))
}

/// Fails where the output isn't one piece for each line.
fn goes_by_lines(alloc: Global, line: &str) -> Result<(), Fail> {
    let (answer, sink) = ended(alloc, line, 0)?;
    let whole = sink.inner().bytes();
    let lines = lines_in(whole);
    for write in 1..=lines {
        is_cut(alloc, line, whole, write)?;
    }
    let (status, _) = ended(alloc, line, lines.saturating_add(1))?;
    if lines > 0 && status == answer {
        return Ok(());
    }
    Err(Fail::new(format_args!("{line} has more pieces than its {lines} lines")))
}

#[test]
fn lines_are_pieces(rt: HostRuntime) -> Result<(), Fail> {
    for line in LINES {
        goes_by_lines(rt.alloc(), line)?;
    }
    Ok(())
}
