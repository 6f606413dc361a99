ghost use Rattle.std.specs.Prelude.{ℕ, List, ◌≡◌, ◌<◌, ◌≤◌, ◌^◌, ◌∷◌, [], length, decimal, codes, Some, IfOk, IfSome};
ghost use Rattle.std.specs.Bool.{Decides};
ghost use Rattle.std.specs.List.{position};
ghost use Rattle.std.specs.Str.{bytes_eq};
ghost use Rattle.dk_trace.specs.declared.ThreadId.{ThreadId};
ghost use Rattle.dk_trace.specs.declared.Work.{Work};
ghost use Rattle.dk_trace.specs.declared.Label.{Label};
ghost use Rattle.dk_trace.specs.declared.Entry.{Entry};
ghost use Rattle.dk_trace.specs.Ranges.{HasThread, HasLabel, HasOwnEvent, HasEntry};
ghost use Rattle.dk_certify.specs.declared.table.TableRow.{TableRow};
ghost use Rattle.dk_ledger.specs.declared.line.LedgerLine.{LedgerLine};
ghost use Rattle.dk_ledger.specs.Heading.{Heading, IsPrintable, name_of};
ghost use Rattle.dk_ledger.specs.LineText.{IsNamed, thread_text, work_text};
ghost use Rattle.dk_ledger.specs.Readable.{IsLevelRow, HaveOwnNames, size_in};
ghost use Rattle.dk_ledger.specs.Words.{texts, words_of, first_word, level_words, label_words, event_words, line_words};

use crate::event_words::event_of;
use crate::{Header, LedgerLine, ProcessLine};
use arrayvec::ArrayVec;
use dk_certify::TableRow;
use dk_config::MAX_PROCESSES;
use dk_trace::{Entry, Label, Source, ThreadId, Work};
use std::alloc::{AllocError, Global};

/// The first words of a line, which single blanks part. No line of a ledger has more than 11. They need no memory.
pub(crate) fn words_in(alloc: Global, line: &str) -> Result<ArrayVec<&str, 12>, AllocError>
    ensures { IfOk result (λ words. texts words.items ≡ words_of line.now) }
{
    line.split(' ').take(12).collect(alloc)
}

/// Whether this is the first of the words.
pub(crate) fn begins(words: &[&str], word: &str) -> bool
    requires { 0 < length word.now }
    ensures { Decides result (first_word words.now ≡ word.now) }
{
    match words {
        [first, ..] => *first == word,
        [] => false,
    }
}

/// The number that a word is, and 0 where it is none.
pub(crate) fn number(word: &str) -> u32
    ensures { (n : ℕ) → n < 2 ^ 32 → word.now ≡ decimal n → result ≡ n }
{
    word.parse().unwrap_or(0)
}

/// The number below 256 that a word is, and 0 where it is none.
pub(crate) fn small_number(word: &str) -> u8
    ensures { (n : ℕ) → n < 256 → word.now ≡ decimal n → result ≡ n }
{
    word.parse().unwrap_or(0)
}

/// The row of a level's line. The words between the numbers aren't looked at: whoever reads compares the text.
pub(crate) fn level_of(words: &[&str]) -> Option<TableRow>
    ensures { (j : ℕ) (row : TableRow) → IsLevelRow row → texts words.now ≡ level_words j row → result ≡ Some row }
{
    match *words {
        [_, _, _, period, _, demand, _, blocking, _, spare] => Some(TableRow {
            period: number(period),
            demand: number(demand),
            blocking: number(blocking),
            spare: number(spare),
        }),
        _ => None,
    }
}

/// The place of the first line with the name.
pub(crate) fn place_of(lines: &[ProcessLine], name: &str) -> Option<usize>
    ensures { result ≡ position (λ line. bytes_eq line.name name.now) lines.now }
{
    lines.iter().position(|line| line.name.as_str() == name)
}

/// The process of the name.
fn process_of(header: &Header, name: &str) -> Option<u8>
    requires few { length header.now.processes ≤ MAX_PROCESSES }
    requires own_names { HaveOwnNames header.now }
    ensures found { (p : ℕ) → p < length header.now.processes → name.now ≡ name_of header.now p → result ≡ Some p }
    ensures named { IfSome result (λ p. p < length header.now.processes) }
{
    let process = place_of(header.processes.as_slice(), name)?;
    Some(process as u8)
}

/// The thread of a word NAME.SERIAL.
fn thread_of(header: &Header, word: &str) -> Option<ThreadId>
    requires printable { IsPrintable header.now }
    requires own_names { HaveOwnNames header.now }
    ensures found { (x : ThreadId) → HasThread (size_in header.now) x → word.now ≡ thread_text header.now x
        → result ≡ Some x }
    ensures named { IfSome result (λ x. x.process < length header.now.processes) }
{
    let (name, serial) = word.split_once('.')?;
    Some(ThreadId {
        process: process_of(header, name)?,
        serial: number(serial),
    })
}

fn work_of(word: &str) -> Work
    ensures { (work : Work) → word.now ≡ work_text work → result ≡ work }
{
    match word {
        "in" => Work::In,
        "run" => Work::Run,
        _ => Work::Call,
    }
}

fn slack_of(header: &Header, source: Source, work: &str, thread: &str) -> Option<Label>
    requires printable { IsPrintable header.now }
    requires own_names { HaveOwnNames header.now }
    ensures found { (x : ThreadId) (w : Work) → HasThread (size_in header.now) x → work.now ≡ work_text w
        → thread.now ≡ thread_text header.now x → result ≡ Some (Label.Slack x source w) }
    ensures named { IfSome result (IsNamed header.now) }
{
    Some(Label::Slack {
        thread: thread_of(header, thread)?,
        source,
        work: work_of(work),
    })
}

/// The label that has the thread, and no slack.
fn thread_label(word: &str, thread: ThreadId) -> Label
    ensures is_in { word.now ≡ codes "in" → result ≡ Label.In thread }
    ensures is_run { word.now ≡ codes "run" → result ≡ Label.Run thread }
    ensures is_call { word.now ≡ codes "call" → result ≡ Label.Call thread }
    ensures is_out { word.now ≡ codes "out" → result ≡ Label.Out thread }
    ensures named { (h : Heading) → thread.process < length h.processes → IsNamed h result }
{
    match word {
        "in" => Label::In(thread),
        "run" => Label::Run(thread),
        "call" => Label::Call(thread),
        _ => Label::Out(thread),
    }
}

/// The label that a word is with the value behind it.
fn label_with(header: &Header, word: &str, value: &str) -> Option<Label>
    requires printable { IsPrintable header.now }
    requires own_names { HaveOwnNames header.now }
    ensures found { (label : Label) → HasLabel (size_in header.now) label
        → label_words header.now label [] ≡ word.now ∷ value.now ∷ [] → result ≡ Some label }
    ensures named { IfSome result (IsNamed header.now) }
{
    if word == "kernel" {
        return Some(Label::Kernel(small_number(value)));
    }
    Some(thread_label(word, thread_of(header, value)?))
}

/// How many of the words are those of the label that they begin with.
fn label_count(words: &[&str]) -> usize
    ensures { (h : Heading) (label : Label) (more : List (List ℕ)) → texts words.now ≡ label_words h label more
        → result ≡ length (label_words h label []) }
{
    if begins(words, "idle") {
        1
    } else if !begins(words, "slack") {
        2
    } else if begins(&words[1..], "timeline") {
        4
    } else {
        5
    }
}

/// The label that all of the words are. How many they are tells most labels apart.
fn label_of(header: &Header, words: &[&str]) -> Option<Label>
    requires printable { IsPrintable header.now }
    requires own_names { HaveOwnNames header.now }
    ensures found { (label : Label) → HasLabel (size_in header.now) label
        → texts words.now ≡ label_words header.now label [] → result ≡ Some label }
    ensures named { IfSome result (IsNamed header.now) }
{
    match *words {
        [_] => Some(Label::Idle),
        [word, value] => label_with(header, word, value),
        [_, _, work, thread] => slack_of(header, Source::Timeline, work, thread),
        [_, _, level, work, thread] => {
            slack_of(header, Source::Reclaimed(small_number(level)), work, thread)
        }
        _ => None,
    }
}

/// The entry of which these are the words.
fn entry_of(header: &Header, words: &[&str]) -> Option<Entry>
    requires printable { IsPrintable header.now }
    requires own_names { HaveOwnNames header.now }
    ensures found { (entry : Entry) → HasEntry (size_in header.now) entry
        → texts words.now ≡ label_words header.now entry.label (event_words entry.event) → result ≡ Some entry }
    ensures named { IfSome result (λ entry. IsNamed header.now entry.label) }
{
    let (label, event) = words.split_at_checked(label_count(words))?;
    Some(Entry {
        label: label_of(header, label)?,
        event: event_of(event),
    })
}

/// The line of entries of which these are the words.
pub(crate) fn line_of(header: &Header, words: &[&str]) -> Option<LedgerLine>
    requires printable { IsPrintable header.now }
    requires own_names { HaveOwnNames header.now }
    ensures found { (line : LedgerLine) → HasLabel (size_in header.now) line.label
        → HasOwnEvent (size_in header.now) line.label line.event → line.start < 2 ^ 32 → line.count < 2 ^ 32
        → texts words.now ≡ line_words header.now line → result ≡ Some line }
    ensures named { IfSome result (λ line. IsNamed header.now line.label) }
{
    let [start, count, rest @ ..] = words else {
        return None;
    };
    let entry = entry_of(header, rest)?;
    Some(LedgerLine {
        start: number(start),
        count: number(count),
        label: entry.label,
        event: entry.event,
    })
}
