//! The sentence of each kind of row, and its cells.
ghost use Rattle.std.specs.Prelude.{◌≡◌, ◌++◌, OnOk};
ghost use Rattle.show_impact.specs.Forms.{is_alone, key_wording, sentence, sentence_of, told_text, when_word, word_between, wording_of};

use crate::Impact;
use crate::told::{Fate, Told, fate_word};
use show_rows::Cell::Word;
use show_rows::{Form, add_row, number_cell};
use std::alloc::{AllocError, Global};

pub(crate) const COLUMNS: &str = "process,impact,waits,key,before,now,done_before,done_now,when";

const PLAIN: &str = "process {process} {impact}\n";

const KEYED: &str = "process {process} {impact} {key}\n";

const VALUED: &str = "process {process} {impact} {key} {before} now {now}\n";

/// Of a period alone, which the words say themselves.
const ALONE: &str = "process {process} {impact} {before} now {now}\n";

const PLAIN_MOVED: &str =
    "process {process} {impact}, {when} done by {done_before} now {done_now}\n";

const KEYED_MOVED: &str =
    "process {process} {impact} {key}, {when} done by {done_before} now {done_now}\n";

const VALUED_MOVED: &str =
    "process {process} {impact} {key} {before} now {now}, {when} done by {done_before} now {done_now}\n";

const ALONE_MOVED: &str =
    "process {process} {impact} {before} now {now}, {when} done by {done_before} now {done_now}\n";

/// Of a greater budget, with what is known of the windows.
const WAITING: &str = "process {process} {impact}, {waits}, {key} {before} now {now}\n";

const WAITING_MOVED: &str =
    "process {process} {impact}, {waits}, {key} {before} now {now}, {when} done by {done_before} now {done_now}\n";

/// What a sentence tells beside whom it is told of, and what becomes of it.
#[derive(Clone, Copy)]
pub(crate) enum Wording {
    /// Nothing.
    Plain,
    /// A key.
    Keyed,
    /// A key and its numbers.
    Valued,
    /// Numbers alone.
    Alone,
    /// What is known of its windows, a key and its numbers.
    Waiting,
}

fn wording_of(waits: bool, keyed: bool, valued: bool, alone: bool) -> Wording
    ensures { result ≡ wording_of waits keyed valued alone }
{
    if waits {
        Wording::Waiting
    } else {
        key_wording(keyed, valued, alone)
    }
}

fn key_wording(keyed: bool, valued: bool, alone: bool) -> Wording
    ensures { result ≡ key_wording keyed valued alone }
{
    match (keyed, valued, alone) {
        (false, _, _) => Wording::Plain,
        (true, false, _) => Wording::Keyed,
        (true, true, false) => Wording::Valued,
        (true, true, true) => Wording::Alone,
    }
}

fn is_alone(fate: Fate) -> bool
    ensures { result ≡ is_alone fate }
{
    matches!(fate, Fate::Is(Impact::PeriodAlone))
}

/// Whether its main has its budget by a later tick of its windows than before, or by a sooner one.
fn when_word(before: Option<u32>, now: Option<u32>) -> &'static str
    ensures { result.now ≡ when_word before now }
{
    match (before, now) {
        (Some(before), Some(now)) => word_between(before, now),
        _ => "",
    }
}

fn word_between(before: u32, now: u32) -> &'static str
    ensures { result.now ≡ word_between before now }
{
    if before < now {
        "later"
    } else if now < before {
        "sooner"
    } else {
        ""
    }
}

fn sentence_of(moved: bool, wording: Wording) -> &'static str
    ensures { result.now ≡ sentence_of moved wording }
{
    match (moved, wording) {
        (false, Wording::Plain) => PLAIN,
        (false, Wording::Keyed) => KEYED,
        (false, Wording::Valued) => VALUED,
        (false, Wording::Alone) => ALONE,
        (false, Wording::Waiting) => WAITING,
        (true, Wording::Plain) => PLAIN_MOVED,
        (true, Wording::Keyed) => KEYED_MOVED,
        (true, Wording::Valued) => VALUED_MOVED,
        (true, Wording::Alone) => ALONE_MOVED,
        (true, Wording::Waiting) => WAITING_MOVED,
    }
}

/// The sentence of what is told of its windows, by this key, and of when its main is done.
fn sentence(waits: &str, key: &str, when: &str, told: Told) -> &'static str
    ensures { result.now ≡ sentence waits.now key.now when.now told }
{
    let wording = wording_of(
        !waits.is_empty(),
        !key.is_empty(),
        told.before.is_some(),
        is_alone(told.fate),
    );
    sentence_of(!when.is_empty(), wording)
}

/// Adds what is told of the process of this name, and of its windows, by this key.
pub(crate) fn add_told(
    alloc: Global,
    out: &mut Vec<u8>,
    form: Form,
    name: &str,
    waits: &str,
    key: &str,
    told: Told,
) -> Result<(), AllocError>
    ensures { OnOk result (out.new.items ≡ out.old.items ++ told_text form name.now waits.now key.now told) }
{
    let when = when_word(told.done_before, told.done_now);
    let cells = [
        Word(name),
        Word(fate_word(told.fate)),
        Word(waits),
        Word(key),
        number_cell(told.before),
        number_cell(told.now),
        number_cell(told.done_before),
        number_cell(told.done_now),
        Word(when),
    ];
    add_row(
        alloc,
        out,
        form,
        COLUMNS,
        sentence(waits, key, when, told),
        &cells,
    )
}
