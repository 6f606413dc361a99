//! The rows as text.
ghost use Rattle.std.specs.Prelude.{◌≡◌, ◌++◌, true, codes, decimal, flat_map, string_bytes, IfOk, OnOk};
ghost use Rattle.dk_config.specs.Rules.{is_name};
ghost use Rattle.dk_needs.specs.Fit.{HasNames};
ghost use Rattle.dk_needs_text.specs.Csv.{IsPlain};
ghost use Rattle.dk_needs_text.specs.Text.{answer_line, answer_text, audit_text, before_space, between_text, bound_text, condition_text, count_line, count_text, is_time, line_of, measure_words, needs_text, number_text, reason_words, row_line, subject_of, time_text, times_of, times_text, unit_word, verdict_word, waiting_text};

use crate::counts::how_many;
use crate::forever::{repeating_text, waiting_text};
use dk_config::{NoMemory, Text};
use dk_config_report::{Page, push_line};
use dk_needs::{Need, Needs, Tick, Unit, What};
use dk_needs_check::{
    Answer, Audit, Bound, Measure, Reason, Row, Verdict, Waiting, is_met, is_upper, verdict_of,
};
use std::alloc::{AllocError, Global};

pub(crate) fn verdict_word(verdict: Verdict) -> &'static str
    ensures text { result.now ≡ verdict_word verdict }
    ensures plain { IsPlain result.now }
{
    match verdict {
        Verdict::Met => "met",
        Verdict::Missed => "missed",
        Verdict::Open => "open",
    }
}

fn measure_words(measure: Measure) -> &'static str
    ensures { result.now ≡ measure_words measure }
{
    match measure {
        Measure::Done => "done by",
        Measure::Reaction => "reaction",
        Measure::Age => "age",
        Measure::BeginsJitter => "begins jitter",
        Measure::DoneJitter => "done jitter",
        Measure::ReactionJitter => "reaction jitter",
        Measure::Budget => "budget up to",
        Measure::Hold => "hold up to",
        Measure::Release => "release up to",
        Measure::Growth => "growth up to",
        Measure::Spare => "spare",
        Measure::Slack => "slack up to",
        Measure::SlackBy => "slack had by",
        Measure::Overruns => "overruns",
        Measure::Refused => "refused",
        Measure::Faults => "faults",
    }
}

pub(crate) fn reason_words(reason: Reason) -> &'static str
    ensures text { result.now ≡ reason_words reason }
    ensures plain { IsPlain result.now }
{
    match reason {
        Reason::NotTested => "not tested",
        Reason::NoLedger => "no ledger",
    }
}

fn level_text(alloc: Global, level: u32) -> Result<String, AllocError>
    ensures text { IfOk result (λ s. string_bytes s ≡ codes "level " ++ decimal level) }
    ensures plain { IfOk result (λ s. IsPlain (string_bytes s)) }
{
    format!(in alloc; "level {level}")
}

pub(crate) fn name_text(alloc: Global, name: &str) -> Result<String, AllocError>
    ensures text { IfOk result (λ s. string_bytes s ≡ name.now) }
    ensures plain { is_name name.now ≡ true → IfOk result (λ s. IsPlain (string_bytes s)) }
{
    String::from_str(alloc, name)
}

/// Whose number it is.
pub(crate) fn subject_of(alloc: Global, what: &What) -> Result<String, AllocError>
    ensures text { IfOk result (λ s. string_bytes s ≡ subject_of what.now) }
    ensures plain { HasNames what.now → IfOk result (λ s. IsPlain (string_bytes s)) }
{
    match what {
        What::Deadline { process, .. } => name_text(alloc, process.as_str()),
        What::Jitter { process, .. } => name_text(alloc, process.as_str()),
        What::Budget { process, .. } => name_text(alloc, process.as_str()),
        What::Hold { mutex, .. } => name_text(alloc, mutex.as_str()),
        What::Release { level, .. } => level_text(alloc, *level),
        What::Spare { level, .. } => level_text(alloc, *level),
        What::Slack { process, .. } => name_text(alloc, process.as_str()),
        What::Always { process } => name_text(alloc, process.as_str()),
        _ => String::from_str(alloc, ""),
    }
}

/// A word before others, if there is one.
fn before_space(alloc: Global, word: &str) -> Result<String, AllocError>
    ensures { IfOk result (λ s. string_bytes s ≡ before_space word.now) }
{
    if word.is_empty() {
        String::from_str(alloc, "")
    } else {
        format!(in alloc; "{word} ")
    }
}

fn number_text(alloc: Global, number: Option<u32>) -> Result<String, AllocError>
    ensures { IfOk result (λ s. string_bytes s ≡ number_text number) }
{
    match number {
        Some(number) => format!(in alloc; "{number}"),
        None => String::from_str(alloc, "none"),
    }
}

fn between_text(upper: bool) -> &'static str
    ensures { result.now ≡ between_text upper }
{
    if upper { " of " } else { " needs " }
}

fn bound_text(alloc: Global, bound: Bound) -> Result<String, AllocError>
    ensures { IfOk result (λ s. string_bytes s ≡ bound_text bound) }
{
    let measure = measure_words(bound.measure);
    let number = number_text(alloc, bound.number)?;
    let number = number.as_str();
    let between = between_text(is_upper(bound.measure));
    let asked = bound.asked;
    format!(in alloc; "{measure} {number}{between}{asked}")
}

fn unit_word(unit: Unit) -> &'static str
    ensures { result.now ≡ unit_word unit }
{
    match unit {
        Unit::Nanoseconds => "ns",
        Unit::Microseconds => "us",
        Unit::Milliseconds => "ms",
        Unit::Seconds => "s",
    }
}

/// So many ticks as a time, exactly.
fn time_text(alloc: Global, tick: Tick, number: Option<u32>) -> Result<String, AllocError>
    ensures { IfOk result (λ s. string_bytes s ≡ time_text tick number) }
{
    match number {
        Some(number) => {
            let time = number as u64 * tick.amount as u64;
            let unit = unit_word(tick.unit);
            format!(in alloc; "{time}{unit}")
        }
        None => String::from_str(alloc, "none"),
    }
}

fn is_time(measure: Measure) -> bool
    ensures { result ≡ is_time measure }
{
    match measure {
        Measure::Growth => false,
        Measure::Overruns | Measure::Refused | Measure::Faults => false,
        _ => true,
    }
}

fn times_of(alloc: Global, tick: Tick, bound: Bound) -> Result<String, AllocError>
    ensures { IfOk result (λ s. string_bytes s ≡ times_of tick bound) }
{
    let number = time_text(alloc, tick, bound.number)?;
    let number = number.as_str();
    let between = between_text(is_upper(bound.measure));
    let asked = time_text(alloc, tick, Some(bound.asked))?;
    let asked = asked.as_str();
    format!(in alloc; ", {number}{between}{asked}")
}

/// The same numbers as times, where it is said how long a tick is.
fn times_text(alloc: Global, tick: Option<Tick>, bound: Bound) -> Result<String, AllocError>
    ensures { IfOk result (λ s. string_bytes s ≡ times_text tick bound) }
{
    match tick {
        Some(tick) if is_time(bound.measure) => times_of(alloc, tick, bound),
        _ => String::from_str(alloc, ""),
    }
}

fn tested_text(
    alloc: Global,
    tick: Option<Tick>,
    what: &What,
    bound: Bound,
) -> Result<String, AllocError>
    ensures { IfOk result (λ s. string_bytes s ≡ before_space (subject_of what.now) ++ (bound_text bound ++ times_text tick bound)) }
{
    let subject = subject_of(alloc, what)?;
    let mut text = before_space(alloc, subject.as_str())?;
    push_line(&mut text, bound_text(alloc, bound)?)?;
    push_line(&mut text, times_text(alloc, tick, bound)?)?;
    Ok(text)
}

/// Under which condition a bound is kept that would be.
pub(crate) fn condition_text(bound: Bound) -> &'static str
    ensures text { result.now ≡ condition_text bound }
    ensures plain { IsPlain result.now }
{
    if is_met(bound) {
        " if all keep to their slack"
    } else {
        ""
    }
}

/// A bound as far as each process keeps to its slack.
fn kept_text(
    alloc: Global,
    tick: Option<Tick>,
    what: &What,
    bound: Bound,
) -> Result<String, AllocError>
    ensures { IfOk result (λ s. string_bytes s
        ≡ (before_space (subject_of what.now) ++ (bound_text bound ++ times_text tick bound)) ++ condition_text bound) }
{
    let mut text = tested_text(alloc, tick, what, bound)?;
    let condition = String::from_str(alloc, condition_text(bound))?;
    push_line(&mut text, condition)?;
    Ok(text)
}

/// That the process may not ask for slack.
fn barred_text(alloc: Global, what: &What) -> Result<String, AllocError>
    ensures { IfOk result (λ s. string_bytes s ≡ before_space (subject_of what.now) ++ codes "may not ask for slack") }
{
    let subject = subject_of(alloc, what)?;
    let mut text = before_space(alloc, subject.as_str())?;
    let words = String::from_str(alloc, "may not ask for slack")?;
    push_line(&mut text, words)?;
    Ok(text)
}

/// What an audit found, in the words of deosk.
fn audit_text(alloc: Global, audit: Audit) -> Result<String, AllocError>
    ensures { IfOk result (λ s. string_bytes s ≡ audit_text audit) }
{
    match audit {
        Audit::Passed(ticks) => format!(in alloc; "audit passed {ticks}"),
        Audit::Label(tick) => format!(in alloc; "audit tick {tick} label"),
        Audit::Event(tick) => format!(in alloc; "audit tick {tick} event"),
    }
}

fn waits_text(alloc: Global, what: &What, waiting: Waiting) -> Result<String, AllocError>
    ensures { IfOk result (λ s. string_bytes s ≡ before_space (subject_of what.now) ++ waiting_text waiting) }
{
    let subject = subject_of(alloc, what)?;
    let mut text = before_space(alloc, subject.as_str())?;
    push_line(&mut text, waiting_text(alloc, waiting)?)?;
    Ok(text)
}

pub(crate) fn answer_text(
    alloc: Global,
    names: &[Text],
    tick: Option<Tick>,
    what: &What,
    answer: Answer,
) -> Result<String, AllocError>
    ensures { IfOk result (λ s. string_bytes s ≡ answer_text names.now tick what.now answer) }
{
    match answer {
        Answer::Tested(bound) => tested_text(alloc, tick, what, bound),
        Answer::IfKept(bound) => kept_text(alloc, tick, what, bound),
        Answer::NoRight => barred_text(alloc, what),
        Answer::Audited(audit) => audit_text(alloc, audit),
        Answer::Waits(waiting) => waits_text(alloc, what, waiting),
        Answer::Repeats(repeating) => repeating_text(alloc, names, repeating),
        Answer::Open(reason) => String::from_str(alloc, reason_words(reason)),
    }
}

fn line_of(alloc: Global, verdict: &str, id: &str, answer: &str) -> Result<String, AllocError>
    ensures { IfOk result (λ s. string_bytes s ≡ line_of verdict.now id.now answer.now) }
{
    format!(in alloc; "{verdict} {id} {answer}\n")
}

fn answer_line(
    alloc: Global,
    names: &[Text],
    tick: Option<Tick>,
    need: &Need,
    answer: Answer,
) -> Result<String, AllocError>
    ensures { IfOk result (λ s. string_bytes s ≡ answer_line names.now tick need.now answer) }
{
    let text = answer_text(alloc, names, tick, &need.what, answer)?;
    line_of(
        alloc,
        verdict_word(verdict_of(answer)),
        need.id.as_str(),
        text.as_str(),
    )
}

fn row_line(
    alloc: Global,
    names: &[Text],
    tick: Option<Tick>,
    needs: &[Need],
    row: Row,
) -> Result<String, AllocError>
    ensures { IfOk result (λ s. string_bytes s ≡ row_line names.now tick needs.now row) }
{
    match needs.get(row.need) {
        Some(need) => answer_line(alloc, names, tick, need, row.answer),
        None => String::from_str(alloc, ""),
    }
}

fn add_rows(
    alloc: Global,
    text: &mut String,
    names: &[Text],
    tick: Option<Tick>,
    needs: &[Need],
    rows: &[Row],
) -> Result<(), AllocError>
    ensures { OnOk result (string_bytes text.new
        ≡ string_bytes text.old ++ flat_map (row_line names.now tick needs.now) rows.now) }
{
    for row in rows {
        let line = row_line(alloc, names, tick, needs, *row)?;
        push_line(text, line)?;
    }
    Ok(())
}

fn count_text(
    alloc: Global,
    met: usize,
    missed: usize,
    untested: usize,
) -> Result<String, AllocError>
    ensures { IfOk result (λ s. string_bytes s ≡ count_text met missed untested) }
{
    format!(in alloc; "met {met} missed {missed} open {untested}\n")
}

fn count_line(alloc: Global, rows: &[Row]) -> Result<String, AllocError>
    ensures { IfOk result (λ s. string_bytes s ≡ count_line rows.now) }
{
    count_text(
        alloc,
        how_many(rows, Verdict::Met),
        how_many(rows, Verdict::Missed),
        how_many(rows, Verdict::Open),
    )
}

/// A line for each row, with its numbers as times too where the needs say how long a tick is, and last how many are met,
/// missed and open. The names are those of the processes, in the order of the rows. `Err` is want of memory.
pub fn needs_text(
    alloc: Global,
    names: &[Text],
    needs: &Needs,
    rows: &[Row],
) -> Result<Page, NoMemory>
    ensures { IfOk result (λ page. page ≡ needs_text names.now needs.now rows.now) }
{
    let mut text = String::new(alloc);
    add_rows(alloc, &mut text, names, needs.tick, &needs.rows, rows)?;
    push_line(&mut text, count_line(alloc, rows)?)?;
    Ok(Page::new(text))
}
