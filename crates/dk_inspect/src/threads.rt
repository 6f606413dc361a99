//! The lines of the threads.
ghost use Rattle.std.specs.Prelude.{◌≡◌, ◌+◌, ◌*◌, ◌<◌, ◌≤◌, ◌++◌, length, IfSome};
ghost use Rattle.dk_outside.specs.Written.{Writes};
ghost use Rattle.dk_ledger.specs.Heading.{IsPrintable, name_of};
ghost use Rattle.dk_inspect.specs.View.{registers, thread_body};
ghost use Rattle.dk_inspect.specs.Printing.{IsHeaderOf, IsRowAt, IsThereIn, IsTextAt, word_of, context_part, line_at, process_lines, all_lines};

use dk_bound::rows_law;
use dk_config::MAX_THREADS;
use dk_cpu::Context;
use dk_kernel::Kernel;
use dk_ledger::{Header, TextLine, push_thread};
use dk_outside::{Sink, SinkError};
use dk_threads::{State, ThreadRow};
use dk_trace::ThreadId;

/// The row at the place of the process: its main's, and then those of its children by serial. None where
/// there are not so many.
pub fn row_at(kernel: &Kernel, process: u8, place: u8) -> Option<ThreadRow>
    requires { process < length kernel.now.config.processes }
    ensures row { IsRowAt kernel.now process place result }
    ensures there { IfSome result (λ row. IsThereIn kernel.now process row.id) }
{
    rows_law();
    let tables = kernel.dispatcher();
    match place {
        0 => tables.find(ThreadId { process, serial: 0 }),
        _ => tables.child(process, place - 1),
    }
}

fn word_of(state: State) -> &'static str
    ensures text { result.now ≡ word_of state }
    ensures short { length result.now ≤ 8 }
{
    match state {
        State::Starting => "starting",
        State::Live => "live",
        State::Stopped => "stopped",
    }
}

/// Appends the registers, each after a space.
fn push_registers(text: &mut TextLine, regs: &[u32])
    requires { length text.old + 11 * length regs.now ≤ 200 }
    ensures bytes { text.new ≡ text.old ++ registers regs.now }
    ensures len { length text.new ≤ length text.old + 11 * length regs.now }
{
    for register in regs {
        text.word(" ");
        text.number(*register);
    }
}

fn push_context(text: &mut TextLine, context: Context)
    requires { length text.old + 123 ≤ 200 }
    ensures bytes { text.new ≡ text.old ++ context_part context }
    ensures len { length text.new ≤ length text.old + 123 }
{
    text.word(" pc ");
    text.number(context.pc);
    text.word(" left ");
    text.number(context.left as u32);
    text.word(" regs");
    push_registers(text, &context.regs);
}

/// The line of a thread, without its line feed.
fn thread_text(header: &Header, id: ThreadId, state: State, context: Context) -> TextLine
    requires printable { IsPrintable header.now }
    requires named { id.process < length header.now.processes }
    ensures text { result ≡ thread_body (name_of header.now id.process) id.serial (word_of state) context }
    ensures len { length result < 200 }
{
    let mut text = TextLine::new();
    text.word("thread ");
    push_thread(&mut text, header, id);
    text.word(" ");
    text.word(word_of(state));
    push_context(&mut text, context);
    text
}

/// The line of the thread at the place of the process, without its line feed. None where there are not so many.
fn text_at(kernel: &Kernel, header: &Header, process: u8, place: u8) -> Option<TextLine>
    requires printable { IsPrintable header.now }
    requires header { IsHeaderOf kernel.now.config header.now }
    requires known { process < length kernel.now.config.processes }
    ensures text { IsTextAt kernel.now process place result }
    ensures len { IfSome result (λ text. length text < 200) }
{
    let row = row_at(kernel, process, place)?;
    let context = kernel.context(row.id)?;
    Some(thread_text(header, row.id, row.state, context))
}

/// Writes the line of the thread at the place of the process, where there is one.
fn write_thread<S: Sink>(
    kernel: &Kernel,
    header: &Header,
    process: u8,
    place: u8,
    sink: &mut S,
) -> Result<(), SinkError>
    requires printable { IsPrintable header.now }
    requires header { IsHeaderOf kernel.now.config header.now }
    requires known { process < length kernel.now.config.processes }
    ensures { Writes (S.seen sink.old) (S.seen sink.new) result (line_at kernel.now process place) }
{
    match text_at(kernel, header, process, place) {
        Some(text) => text.write_to(sink),
        None => Ok(()),
    }
}

/// Writes the lines of the process's threads.
fn write_process<S: Sink>(
    kernel: &Kernel,
    header: &Header,
    process: u8,
    sink: &mut S,
) -> Result<(), SinkError>
    requires printable { IsPrintable header.now }
    requires header { IsHeaderOf kernel.now.config header.now }
    requires known { process < length kernel.now.config.processes }
    ensures { Writes (S.seen sink.old) (S.seen sink.new) result (process_lines kernel.now process) }
{
    kernel.dispatcher().rows_are_few();
    for place in 0..MAX_THREADS as u8 {
        write_thread(kernel, header, process, place, sink)?;
    }
    Ok(())
}

/// Writes the lines of all threads.
pub fn write_threads<S: Sink>(
    kernel: &Kernel,
    header: &Header,
    sink: &mut S,
) -> Result<(), SinkError>
    requires printable { IsPrintable header.now }
    requires header { IsHeaderOf kernel.now.config header.now }
    ensures { Writes (S.seen sink.old) (S.seen sink.new) result (all_lines kernel.now) }
{
    for process in 0..header.processes.len() as u8 {
        write_process(kernel, header, process, sink)?;
    }
    Ok(())
}
