//! The rows of the table. No field has a byte that calls for quotes, so each is its fields with commas between them.
ghost use Rattle.std.specs.Prelude.{◌≡◌, ◌+◌, ◌<◌, ◌≤◌, ◌++◌, ◌∷◌, [], length, decimal};
ghost use Rattle.dk_ledger.specs.Heading.{IsPrintable};
ghost use Rattle.dk_ledger.specs.LineText.{IsNamed};
ghost use Rattle.dk_csv.specs.Rows.{behind_comma, event_fields, kind_text, level_of, owner_fields, padded, plain_row, source_fields, thread_fields};

use dk_groups::fault_word;
use dk_ledger::{Header, LedgerLine, TextLine};
use dk_trace::{Arguments, Event, Label, Source, ThreadId, Work};

fn kind_word(label: Label) -> &'static str
    ensures text { result.now ≡ kind_text label }
    ensures short { length result.now ≤ 6 }
{
    match label {
        Label::Kernel(_) => "kernel",
        Label::In(_) | Label::Slack { work: Work::In, .. } => "in",
        Label::Run(_)
        | Label::Slack {
            work: Work::Run,
            ..
        } => "run",
        Label::Call(_)
        | Label::Slack {
            work: Work::Call,
            ..
        } => "call",
        Label::Out(_) => "out",
        Label::Idle => "idle",
    }
}

/// A field that is a word, behind another.
fn push_word(text: &mut TextLine, word: &str)
    requires { length text.old + length word.now + 1 ≤ 200 }
    ensures bytes { text.new ≡ text.old ++ behind_comma (word.now ∷ []) }
    ensures len { length text.new ≡ length text.old + length word.now + 1 }
{
    text.word(",");
    text.word(word);
}

/// A field that is a number, behind another.
fn push_number(text: &mut TextLine, number: u32)
    requires { length text.old + 11 ≤ 200 }
    ensures bytes { text.new ≡ text.old ++ behind_comma (decimal number ∷ []) }
    ensures len { length text.new ≤ length text.old + 11 }
{
    text.word(",");
    text.number(number);
}

/// The level on the process's line.
fn level_of(header: &Header, process: u8) -> u8
    requires { process < length header.now.processes }
    ensures { result ≡ level_of header.now process }
{
    header.processes[process as usize].level
}

fn push_thread(text: &mut TextLine, header: &Header, thread: ThreadId)
    requires printable { IsPrintable header.now }
    requires named { thread.process < length header.now.processes }
    requires room { length text.old + 39 ≤ 200 }
    ensures bytes { text.new ≡ text.old ++ behind_comma (thread_fields header.now thread) }
    ensures len { length text.new ≤ length text.old + 39 }
{
    push_word(text, header.name_at(thread.process));
    push_number(text, thread.serial);
    push_number(text, level_of(header, thread.process) as u32);
}

fn push_owner(text: &mut TextLine, header: &Header, label: Label)
    requires printable { IsPrintable header.now }
    requires named { IsNamed header.now label }
    requires room { length text.old + 39 ≤ 200 }
    ensures bytes { text.new ≡ text.old ++ behind_comma (owner_fields header.now label) }
    ensures len { length text.new ≤ length text.old + 39 }
{
    match label {
        Label::Kernel(level) => {
            text.word(",,");
            push_number(text, level as u32);
        }
        Label::In(thread)
        | Label::Run(thread)
        | Label::Call(thread)
        | Label::Out(thread)
        | Label::Slack { thread, .. } => push_thread(text, header, thread),
        Label::Idle => text.word(",,,"),
    }
}

fn push_source(text: &mut TextLine, label: Label)
    requires { length text.old + 21 ≤ 200 }
    ensures bytes { text.new ≡ text.old ++ behind_comma (source_fields label) }
    ensures len { length text.new ≤ length text.old + 21 }
{
    match label {
        Label::Slack {
            source: Source::Timeline,
            ..
        } => text.word(",timeline,"),
        Label::Slack {
            source: Source::Reclaimed(level),
            ..
        } => {
            push_word(text, "reclaimed");
            push_number(text, level as u32);
        }
        _ => text.word(",,"),
    }
}

/// An event's word and its arguments, and empty fields up to four.
fn push_padded(text: &mut TextLine, word: &str, arguments: Arguments)
    requires short { length word.now ≤ 7 }
    requires room { length text.old + 41 ≤ 200 }
    ensures bytes { text.new ≡ text.old ++ behind_comma (padded word.now arguments) }
    ensures len { length text.new ≤ length text.old + 41 }
{
    push_word(text, word);
    match arguments {
        Arguments::Nothing => text.word(",,,"),
        Arguments::Kind(kind) => {
            text.word(" ");
            text.word(fault_word(kind));
            text.word(",,,");
        }
        Arguments::One(number) => {
            push_number(text, number);
            text.word(",,");
        }
        Arguments::Three(first, second, third) => {
            push_number(text, first);
            push_number(text, second);
            push_number(text, third);
        }
    }
}

fn push_event(text: &mut TextLine, event: Option<Event>)
    requires { length text.old + 41 ≤ 200 }
    ensures bytes { text.new ≡ text.old ++ behind_comma (event_fields event) }
    ensures len { length text.new ≤ length text.old + 41 }
{
    match event {
        None => text.word(",,,,"),
        Some(event) => push_padded(text, event.word(), event.arguments()),
    }
}

/// The row of a group in which so many windows were overrun, without its line feed.
pub(crate) fn row_of(header: &Header, overran: u32, group: LedgerLine) -> TextLine
    requires printable { IsPrintable header.now }
    requires named { IsNamed header.now group.label }
    ensures text { result ≡ plain_row header.now overran group }
    ensures len { length result < 200 }
{
    let mut text = TextLine::new();
    text.number(group.start);
    push_number(&mut text, group.count);
    push_word(&mut text, kind_word(group.label));
    push_owner(&mut text, header, group.label);
    push_source(&mut text, group.label);
    push_event(&mut text, group.event);
    push_number(&mut text, overran);
    text
}
