//! The label of a line of entries, read where it lies.
ghost use Rattle.std.specs.Prelude.{◌≡◌, ◌<◌, ◌++◌, length, codes, IfSome};
ghost use Rattle.dk_ledger.specs.Heading.{IsPrintable, name_of};
ghost use Rattle.dk_ledger.specs.LineText.{IsNamed, thread_text, source_text, work_text, label_text};

use super::{after, number_in, small_in};
use crate::Header;
use dk_trace::{Label, Source, ThreadId, Work};

/// A process's name with the dot behind it.
fn process_in<'a>(header: &Header, bytes: &'a [u8]) -> Option<(u8, &'a [u8])>
    requires { IsPrintable header.now }
    ensures name { IfSome result (λ found. bytes.now ≡ name_of header.now found.0 ++ (codes "." ++ found.1.now)) }
    ensures named { IfSome result (λ found. found.0 < length header.now.processes) }
{
    for process in 0..header.processes.len() as u8 {
        if let Some(rest) = name_in(header, process, bytes) {
            return Some((process, rest));
        }
    }
    None
}

/// The name of this process with the dot behind it.
#[inline(always)]
fn name_in<'a>(header: &Header, process: u8, bytes: &'a [u8]) -> Option<&'a [u8]>
    requires printable { IsPrintable header.now }
    requires named { process < length header.now.processes }
    ensures { IfSome result (λ rest. bytes.now ≡ name_of header.now process ++ (codes "." ++ rest.now)) }
{
    after(after(bytes, header.name_at(process))?, ".")
}

fn thread_in<'a>(header: &Header, bytes: &'a [u8]) -> Option<(ThreadId, &'a [u8])>
    requires { IsPrintable header.now }
    ensures text { IfSome result (λ found. bytes.now ≡ thread_text header.now found.0 ++ found.1.now) }
    ensures named { IfSome result (λ found. found.0.process < length header.now.processes) }
{
    let (process, rest) = process_in(header, bytes)?;
    let (serial, rest) = number_in(rest)?;
    Some((ThreadId { process, serial }, rest))
}

fn source_in(bytes: &[u8]) -> Option<(Source, &[u8])>
    ensures { IfSome result (λ found. bytes.now ≡ source_text found.0 ++ found.1.now) }
{
    if let Some(rest) = after(bytes, "timeline") {
        return Some((Source::Timeline, rest));
    }
    let (level, rest) = small_in(after(bytes, "reclaimed ")?)?;
    Some((Source::Reclaimed(level), rest))
}

fn work_in(bytes: &[u8]) -> Option<(Work, &[u8])>
    ensures { IfSome result (λ found. bytes.now ≡ work_text found.0 ++ found.1.now) }
{
    if let Some(rest) = after(bytes, "run") {
        return Some((Work::Run, rest));
    }
    if let Some(rest) = after(bytes, "in") {
        return Some((Work::In, rest));
    }
    Some((Work::Call, after(bytes, "call")?))
}

/// A label of slack behind its first word.
fn slack_in<'a>(header: &Header, bytes: &'a [u8]) -> Option<(Label, &'a [u8])>
    requires { IsPrintable header.now }
    ensures text { IfSome result (λ found. codes "slack " ++ bytes.now ≡ label_text header.now found.0 ++ found.1.now) }
    ensures named { IfSome result (λ found. IsNamed header.now found.0) }
{
    let (source, rest) = source_in(bytes)?;
    let (work, rest) = work_in(after(rest, " ")?)?;
    let (thread, rest) = thread_in(header, after(rest, " ")?)?;
    let label = Label::Slack {
        thread,
        source,
        work,
    };
    Some((label, rest))
}

/// A label of a thread's own time.
fn own_label_in<'a>(header: &Header, bytes: &'a [u8]) -> Option<(Label, &'a [u8])>
    requires { IsPrintable header.now }
    ensures text { IfSome result (λ found. bytes.now ≡ label_text header.now found.0 ++ found.1.now) }
    ensures named { IfSome result (λ found. IsNamed header.now found.0) }
{
    if let Some(rest) = after(bytes, "run ") {
        let (thread, rest) = thread_in(header, rest)?;
        return Some((Label::Run(thread), rest));
    }
    if let Some(rest) = after(bytes, "call ") {
        let (thread, rest) = thread_in(header, rest)?;
        return Some((Label::Call(thread), rest));
    }
    if let Some(rest) = after(bytes, "in ") {
        let (thread, rest) = thread_in(header, rest)?;
        return Some((Label::In(thread), rest));
    }
    let (thread, rest) = thread_in(header, after(bytes, "out ")?)?;
    Some((Label::Out(thread), rest))
}

pub(super) fn label_in<'a>(header: &Header, bytes: &'a [u8]) -> Option<(Label, &'a [u8])>
    requires { IsPrintable header.now }
    ensures text { IfSome result (λ found. bytes.now ≡ label_text header.now found.0 ++ found.1.now) }
    ensures named { IfSome result (λ found. IsNamed header.now found.0) }
{
    if let Some(rest) = after(bytes, "kernel ") {
        let (level, rest) = small_in(rest)?;
        return Some((Label::Kernel(level), rest));
    }
    if let Some(rest) = after(bytes, "slack ") {
        return slack_in(header, rest);
    }
    if let Some(rest) = after(bytes, "idle") {
        return Some((Label::Idle, rest));
    }
    own_label_in(header, bytes)
}
