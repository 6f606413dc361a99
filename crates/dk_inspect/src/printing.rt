//! The state at a tick, line by line.
ghost use Rattle.std.specs.Prelude.{◌≡◌, ◌<◌, ◌++◌, length, codes, decimal};
ghost use Rattle.dk_outside.specs.Written.{Writes};
ghost use Rattle.dk_ledger.specs.Heading.{IsPrintable};
ghost use Rattle.dk_inspect.specs.View.{denied_body, view};
ghost use Rattle.dk_inspect.specs.Printing.{IsHeaderOf};

use crate::levels::write_levels;
use crate::threads::write_threads;
use dk_kernel::Kernel;
use dk_ledger::{Header, TextLine, end_of};
use dk_outside::{Sink, SinkError};

/// The first line, without its line feed.
fn tick_text(now: u32) -> TextLine
    ensures text { result ≡ codes "tick " ++ decimal now }
    ensures len { length result < 200 }
{
    let mut text = TextLine::new();
    text.word("tick ");
    text.number(now);
    text
}

/// The line of the level for which slack is denied, without its line feed.
fn denied_text(denial: Option<u8>) -> TextLine
    ensures text { result ≡ denied_body denial }
    ensures len { length result < 200 }
{
    let mut text = TextLine::new();
    match denial {
        None => text.word("denied none"),
        Some(level) => {
            text.word("denied ");
            text.number(level as u32);
        }
    }
    text
}

/// The names of such a header are names of a configuration, and it has few lines.
fn header_is_printable(kernel: &Kernel, header: &Header)
    requires { IsHeaderOf kernel.now.config header.now }
    ensures { IsPrintable header.now }
{
    let _tables = kernel.dispatcher();
    let _header = header;
}

/// Writes the state of the kernel at the present tick: what each level still needs, for which level slack
/// is denied, and where each thread stands. It needs no memory.
///
/// The header is that of the kernel's configuration. The refusal comes only where the sink failed.
pub fn print<S: Sink>(kernel: &Kernel, header: &Header, sink: &mut S) -> Result<(), SinkError>
    requires { IsHeaderOf kernel.now.config header.now }
    ensures { Writes (S.seen sink.old) (S.seen sink.new) result
        (view kernel.now.config kernel.now.programs kernel.now.ticks) }
{
    header_is_printable(kernel, header);
    let now = kernel.now();
    tick_text(now).write_to(sink)?;
    write_levels(kernel, header.levels.len() as u8, sink)?;
    denied_text(kernel.denial()).write_to(sink)?;
    write_threads(kernel, header, sink)?;
    end_of(now).write_to(sink)
}
