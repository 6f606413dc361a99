//! The signals of the mutexes.
ghost use Rattle.std.specs.Prelude.{List, ◌≡◌, ◌+◌, ◌<◌, ◌≤◌, ◌++◌, codes, length};
ghost use Rattle.dk_outside.specs.Written.{Writes};
ghost use Rattle.dk_trace.specs.declared.Entry.{Entry};
ghost use Rattle.dk_ledger.specs.Heading.{IsPrintable, name_of};
ghost use Rattle.dk_holds.specs.Holds.{AreHolders, holding};
ghost use Rattle.dk_groups.specs.Below.{texts_below};
ghost use Rattle.dk_vcd.specs.Holders.{event_before, holder_change, holder_text, holder_value, holders_text, is_told, moved_text};

use crate::signals::{Signal, push_code};
use dk_config::MAX_MUTEXES;
use dk_holds::{Holders, Holding};
use dk_ledger::{Header, LedgerLine, TextLine};
use dk_outside::{Sink, SinkError, write_all_to};
use dk_trace::Event;

/// The name on the process's line, and nothing where there is none.
fn name_of(header: &Header, process: u8) -> &str
    requires { IsPrintable header.now }
    ensures name { result.now ≡ name_of header.now process }
    ensures short { length result.now ≤ 16 }
{
    if (process as usize) < header.processes.len() {
        header.name_at(process)
    } else {
        ""
    }
}

/// The thread of the hold, and nothing where there is no hold.
fn push_holder(text: &mut TextLine, header: &Header, held: Option<Holding>)
    requires printable { IsPrintable header.now }
    requires room { length text.old + 27 ≤ 200 }
    ensures bytes { text.new ≡ text.old ++ holder_value header.now held }
    ensures len { length text.new ≤ length text.old + 27 }
{
    if let Some(holding) = held {
        text.word(name_of(header, holding.thread.process));
        text.word(".");
        text.number(holding.thread.serial);
    }
}

/// The change to the value of the mutex's signal.
fn change_of(header: &Header, mutex: u8, held: Option<Holding>) -> TextLine
    requires { IsPrintable header.now }
    ensures text { result ≡ holder_change header.now mutex held }
    ensures len { length result < 200 }
{
    let mut text = TextLine::new();
    text.word("s");
    push_holder(&mut text, header, held);
    text.word(" ");
    push_code(&mut text, Signal::Mutex(mutex));
    text
}

/// Where values of mutexes are written.
#[derive(Clone, Copy)]
enum Occasion {
    /// Where a dump begins.
    Start,
    /// Behind a group with this event.
    Behind(Event),
}

/// Whether the value of the mutex is written there.
fn is_told(told: Occasion, mutex: u8) -> bool
    ensures { result ≡ is_told told mutex }
{
    match told {
        Occasion::Start => true,
        Occasion::Behind(event) => match event {
            Event::Lock(given) | Event::Unlock(given) => given == mutex,
            Event::Exit | Event::Fault(_) | Event::Delete(_) => true,
            _ => false,
        },
    }
}

fn write_holder<S: Sink>(
    header: &Header,
    told: Occasion,
    mutex: u8,
    held: Option<Holding>,
    sink: &mut S,
) -> Result<(), SinkError>
    requires { IsPrintable header.now }
    ensures { Writes (S.seen sink.old) (S.seen sink.new) result (holder_text header.now told mutex held) }
{
    if is_told(told, mutex) {
        change_of(header, mutex, held).write_to(sink)
    } else {
        Ok(())
    }
}

/// Writes the values of the mutexes below this number.
fn write_holders<S: Sink>(
    below: u8,
    header: &Header,
    told: Occasion,
    holders: &Holders,
    sink: &mut S,
) -> Result<(), SinkError>
    requires few { below ≤ MAX_MUTEXES }
    requires printable { IsPrintable header.now }
    ensures { (past : List Entry) → AreHolders past holders.now → Writes (S.seen sink.old) (S.seen sink.new)
        result (texts_below (λ m. holder_text header.now told m (holding m past)) below) }
{
    if below == 0 {
        return Ok(());
    }
    write_holders(below - 1, header, told, holders, sink)?;
    let mutex = below - 1;
    write_holder(header, told, mutex, holders.of(mutex), sink)
}

/// Writes the values that the mutexes have where a dump begins, and the end of the first values.
pub(crate) fn write_first<S: Sink>(
    header: &Header,
    holders: &Holders,
    sink: &mut S,
) -> Result<(), SinkError>
    requires { IsPrintable header.now }
    ensures { (past : List Entry) → AreHolders past holders.now → Writes (S.seen sink.old) (S.seen sink.new)
        result (holders_text header.now Occasion.Start (λ m. holding m past) ++ codes "$end\n") }
{
    write_holders(MAX_MUTEXES as u8, header, Occasion::Start, holders, sink)?;
    write_all_to(sink, "$end\n".as_bytes())
}

fn event_before(before: Option<LedgerLine>) -> Option<Event>
    ensures { result ≡ event_before before }
{
    match before {
        Some(group) => group.event,
        None => None,
    }
}

/// Writes the values of the mutexes that the group before may have moved by its event.
pub(crate) fn write_moved<S: Sink>(
    header: &Header,
    before: Option<LedgerLine>,
    holders: &Holders,
    sink: &mut S,
) -> Result<(), SinkError>
    requires { IsPrintable header.now }
    ensures { (past : List Entry) → AreHolders past holders.now → Writes (S.seen sink.old) (S.seen sink.new)
        result (moved_text header.now (event_before before) (λ m. holding m past)) }
{
    match event_before(before) {
        Some(event) => write_holders(
            MAX_MUTEXES as u8,
            header,
            Occasion::Behind(event),
            holders,
            sink,
        ),
        None => Ok(()),
    }
}
