//! The words of labels, of events and of lines, with a byte between each two.
ghost use Rattle.std.specs.Prelude.{◌≡◌, ◌+◌, ◌<◌, ◌≤◌, ◌++◌, ◌∷◌, [], decimal, length, Some};
ghost use Rattle.dk_ledger.specs.Heading.{IsPrintable};
ghost use Rattle.dk_ledger.specs.LineText.{IsNamed, argument_words, event_text, line_body, thread_text, work_text};
ghost use Rattle.dk_ledger.specs.Words.{event_words, label_words, line_words, source_words};
ghost use Rattle.dk_entry_words.specs.declared.separator.Separator.{Separator};
ghost use Rattle.dk_entry_words.specs.Works.{work_words};
ghost use Rattle.dk_entry_words.specs.Parted.{behind, byte_of, parted};

use crate::Separator;
use arrayvec::ArrayString;
use dk_groups::{fault_word, work_word};
use dk_ledger::{Header, LedgerLine};
use dk_trace::{Arguments, Event, Label, Source, ThreadId, Work};

/// Words of an entry in a buffer of their own.
pub type Words = ArrayString<128>;

fn push_digits(text: &mut Words, number: u32)
    requires { length text.old.bytes + 10 ≤ 128 }
    ensures bytes { text.new.bytes ≡ text.old.bytes ++ decimal number }
    ensures len { length text.new.bytes ≤ length text.old.bytes + 10 }
{
    let mut digits = itoa::Buffer::new();
    text.push_str(digits.format(number));
}

/// A word behind another.
fn push_word(text: &mut Words, separator: Separator, word: &str)
    requires { length text.old.bytes + length word.now + 1 ≤ 128 }
    ensures bytes { text.new.bytes ≡ text.old.bytes ++ behind (byte_of separator) (word.now ∷ []) }
    ensures len { length text.new.bytes ≡ length text.old.bytes + length word.now + 1 }
{
    text.push_str(separator.as_str());
    text.push_str(word);
}

/// A number behind a word.
fn push_number(text: &mut Words, separator: Separator, number: u32)
    requires { length text.old.bytes + 11 ≤ 128 }
    ensures bytes { text.new.bytes ≡ text.old.bytes ++ behind (byte_of separator) (decimal number ∷ []) }
    ensures len { length text.new.bytes ≤ length text.old.bytes + 11 }
{
    text.push_str(separator.as_str());
    push_digits(text, number);
}

fn push_thread(text: &mut Words, header: &Header, thread: ThreadId)
    requires printable { IsPrintable header.now }
    requires named { thread.process < length header.now.processes }
    requires room { length text.old.bytes + 27 ≤ 128 }
    ensures bytes { text.new.bytes ≡ text.old.bytes ++ thread_text header.now thread }
    ensures len { length text.new.bytes ≤ length text.old.bytes + 27 }
{
    text.push_str(header.name_at(thread.process));
    text.push_str(".");
    push_digits(text, thread.serial);
}

/// Where a tick of slack comes from, and what it is for, behind a word.
fn push_slack(text: &mut Words, separator: Separator, source: Source, work: Work)
    requires { length text.old.bytes + 26 ≤ 128 }
    ensures bytes { text.new.bytes
        ≡ text.old.bytes ++ behind (byte_of separator) (source_words source (work_text work ∷ [])) }
    ensures len { length text.new.bytes ≤ length text.old.bytes + 26 }
{
    match source {
        Source::Timeline => {
            push_word(text, separator, "timeline");
            push_word(text, separator, work_word(work));
        }
        Source::Reclaimed(level) => {
            push_word(text, separator, "reclaimed");
            push_number(text, separator, level as u32);
            push_word(text, separator, work_word(work));
        }
    }
}

/// What a tick of the label is for.
fn push_work(text: &mut Words, separator: Separator, label: Label)
    requires { length text.old.bytes + 31 ≤ 128 }
    ensures bytes { text.new.bytes ≡ text.old.bytes ++ parted (byte_of separator) (work_words label) }
    ensures len { length text.new.bytes ≤ length text.old.bytes + 31 }
{
    match label {
        Label::Kernel(level) => {
            text.push_str("kernel");
            push_number(text, separator, level as u32);
        }
        Label::In(_) => text.push_str("in"),
        Label::Run(_) => text.push_str("run"),
        Label::Call(_) => text.push_str("call"),
        Label::Out(_) => text.push_str("out"),
        Label::Slack { source, work, .. } => {
            text.push_str("slack");
            push_slack(text, separator, source, work);
        }
        Label::Idle => text.push_str("idle"),
    }
}

/// The label as a ledger has it, behind a word.
fn push_label(text: &mut Words, separator: Separator, header: &Header, label: Label)
    requires printable { IsPrintable header.now }
    requires named { IsNamed header.now label }
    requires room { length text.old.bytes + 60 ≤ 128 }
    ensures bytes { text.new.bytes ≡ text.old.bytes ++ behind (byte_of separator) (label_words header.now label []) }
    ensures len { length text.new.bytes ≤ length text.old.bytes + 60 }
{
    text.push_str(separator.as_str());
    push_work(text, separator, label);
    if let Some(thread) = label.thread() {
        text.push_str(separator.as_str());
        push_thread(text, header, thread);
    }
}

fn push_arguments(text: &mut Words, separator: Separator, arguments: Arguments)
    requires { length text.old.bytes + 33 ≤ 128 }
    ensures bytes { text.new.bytes ≡ text.old.bytes ++ behind (byte_of separator) (argument_words arguments) }
    ensures len { length text.new.bytes ≤ length text.old.bytes + 33 }
{
    match arguments {
        Arguments::Nothing => {}
        Arguments::Kind(kind) => push_word(text, separator, fault_word(kind)),
        Arguments::One(number) => push_number(text, separator, number),
        Arguments::Three(first, second, third) => {
            push_number(text, separator, first);
            push_number(text, separator, second);
            push_number(text, separator, third);
        }
    }
}

fn push_event(text: &mut Words, separator: Separator, event: Event)
    requires { length text.old.bytes + 40 ≤ 128 }
    ensures bytes { text.new.bytes ≡ text.old.bytes ++ parted (byte_of separator) (event_words (Some event)) }
    ensures len { length text.new.bytes ≤ length text.old.bytes + 40 }
{
    text.push_str(event.word());
    push_arguments(text, separator, event.arguments());
}

/// The event, behind a word, where there is one.
fn push_event_part(text: &mut Words, separator: Separator, event: Option<Event>)
    requires { length text.old.bytes + 41 ≤ 128 }
    ensures bytes { text.new.bytes ≡ text.old.bytes ++ behind (byte_of separator) (event_words event) }
    ensures len { length text.new.bytes ≤ length text.old.bytes + 41 }
{
    if let Some(event) = event {
        text.push_str(separator.as_str());
        push_event(text, separator, event);
    }
}

/// The name of the thread: its process's, a dot and its serial. At most 27 bytes.
pub fn thread_words(header: &Header, thread: ThreadId) -> Words
    requires printable { IsPrintable header.now }
    requires named { thread.process < length header.now.processes }
    ensures text { result.bytes ≡ thread_text header.now thread }
    ensures len { length result.bytes ≤ 27 }
{
    let mut text = Words::new();
    push_thread(&mut text, header, thread);
    text
}

/// What a tick of the label is for: its words without the thread. At most 31 bytes.
pub fn work_words(label: Label, separator: Separator) -> Words
    ensures words { result.bytes ≡ parted (byte_of separator) (work_words label) }
    ensures len { length result.bytes ≤ 31 }
{
    let mut text = Words::new();
    push_work(&mut text, separator, label);
    text
}

/// The words of the event, with blanks as a ledger has it. At most 40 bytes.
pub fn event_words(event: Event, separator: Separator) -> Words
    ensures words { result.bytes ≡ parted (byte_of separator) (event_words (Some event)) }
    ensures as_in_ledger { separator ≡ Separator.Blank → result.bytes ≡ event_text event }
    ensures len { length result.bytes ≤ 40 }
{
    let mut text = Words::new();
    push_event(&mut text, separator, event);
    text
}

/// The words of the line, with blanks as a ledger has it. At most 122 bytes.
pub fn line_words(header: &Header, line: LedgerLine, separator: Separator) -> Words
    requires printable { IsPrintable header.now }
    requires named { IsNamed header.now line.label }
    ensures words { result.bytes ≡ parted (byte_of separator) (line_words header.now line) }
    ensures as_in_ledger { separator ≡ Separator.Blank → result.bytes ≡ line_body header.now line }
    ensures len { length result.bytes ≤ 122 }
{
    let mut text = Words::new();
    push_digits(&mut text, line.start);
    push_number(&mut text, separator, line.count);
    push_label(&mut text, separator, header, line.label);
    push_event_part(&mut text, separator, line.event);
    text
}
