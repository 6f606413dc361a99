//! The signals of a dump.
ghost use Rattle.std.specs.Prelude.{◌≡◌, ◌+◌, ◌≤◌, ◌++◌, decimal, length};
ghost use Rattle.dk_vcd.specs.Signals.{code, emptied, row_of, row_of_thread, same_row};

use dk_ledger::TextLine;
use dk_trace::{Label, ThreadId};

/// A signal, by what it tells. Processes are numbered as in the header, from 0.
#[derive(Clone, Copy)]
pub(crate) enum Signal {
    /// The line of the ledger.
    Line,
    /// The kernel's own work.
    Kernel,
    /// Nobody's ticks.
    Idle,
    /// How many windows were overrun.
    Overran,
    /// What the main of the process does.
    Main(u8),
    /// Which child of the process has the tick, and what it does.
    Children(u8),
    /// What happens in the process at the end of a tick.
    Event(u8),
    /// Who holds the mutex.
    Mutex(u8),
}

fn push_numbered(text: &mut TextLine, letter: &str, number: u8)
    requires short { length letter.now ≤ 1 }
    requires room { length text.old + 11 ≤ 200 }
    ensures bytes { text.new ≡ text.old ++ (letter.now ++ decimal number) }
    ensures len { length text.new ≤ length text.old + 11 }
{
    text.word(letter);
    text.number(number as u32);
}

/// What the dump calls the signal.
pub(crate) fn push_code(text: &mut TextLine, signal: Signal)
    requires { length text.old + 11 ≤ 200 }
    ensures bytes { text.new ≡ text.old ++ code signal }
    ensures len { length text.new ≤ length text.old + 11 }
{
    match signal {
        Signal::Line => text.word("L"),
        Signal::Kernel => text.word("K"),
        Signal::Idle => text.word("I"),
        Signal::Overran => text.word("O"),
        Signal::Main(process) => push_numbered(text, "P", process),
        Signal::Children(process) => push_numbered(text, "C", process),
        Signal::Event(process) => push_numbered(text, "E", process),
        Signal::Mutex(mutex) => push_numbered(text, "M", mutex),
    }
}

/// The signal has no value from this time on.
pub(crate) fn push_emptied(text: &mut TextLine, signal: Signal)
    requires { length text.old + 14 ≤ 200 }
    ensures bytes { text.new ≡ text.old ++ emptied signal }
    ensures len { length text.new ≤ length text.old + 14 }
{
    text.word("\ns ");
    push_code(text, signal);
}

fn row_of_thread(thread: ThreadId) -> Signal
    ensures { result ≡ row_of_thread thread }
{
    if thread.serial == 0 {
        Signal::Main(thread.process)
    } else {
        Signal::Children(thread.process)
    }
}

/// The signal that tells the ticks of the label.
pub(crate) fn row_of(label: Label) -> Signal
    ensures { result ≡ row_of label }
{
    match label {
        Label::Kernel(_) => Signal::Kernel,
        Label::In(thread)
        | Label::Run(thread)
        | Label::Call(thread)
        | Label::Out(thread)
        | Label::Slack { thread, .. } => row_of_thread(thread),
        Label::Idle => Signal::Idle,
    }
}

/// Whether both tell the ticks of the same.
pub(crate) fn same_row(a: Signal, b: Signal) -> bool
    ensures { result ≡ same_row a b }
{
    match (a, b) {
        (Signal::Kernel, Signal::Kernel) | (Signal::Idle, Signal::Idle) => true,
        (Signal::Main(p), Signal::Main(q)) | (Signal::Children(p), Signal::Children(q)) => p == q,
        _ => false,
    }
}
