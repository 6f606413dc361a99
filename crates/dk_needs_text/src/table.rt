//! The rows as a table. No field has a byte that calls for quotes, so a row is its fields with commas between them.
ghost use Rattle.std.specs.Prelude.{◌≡◌, ◌++◌, ◌∷◌, [], All, codes, decimal, flat_map, string_bytes, IfOk, OnOk};
ghost use Rattle.dk_needs.specs.Fit.{HasNames, IsFit};
ghost use Rattle.dk_needs_text.specs.Csv.{IsPlain, asked_of, audit_number, audit_word, columns, fields, joined_record, kept_reason, measure_field, measure_word, needs_csv, number_field, number_of, reason_field, record_text, row_record, subject_field};
ghost use Rattle.dk_needs_text.specs.Names.{AreNamed};

use crate::forever::{
    plain_words, repeating_number, repeating_reason, repeating_subject, waiting_number,
    waiting_reason,
};
use crate::text::{reason_words, subject_of, verdict_word};
use dk_config::{NoMemory, Text};
use dk_config_report::{Page, push_line};
use dk_needs::{Need, Needs, What};
use dk_needs_check::{Answer, Audit, Bound, Measure, Row, is_met, verdict_of};
use std::alloc::{AllocError, Global};

fn measure_word(measure: Measure) -> &'static str
    ensures text { result.now ≡ measure_word measure }
    ensures plain { IsPlain result.now }
{
    match measure {
        Measure::Done => "done",
        Measure::Reaction => "reaction",
        Measure::Age => "age",
        Measure::BeginsJitter => "begins_jitter",
        Measure::DoneJitter => "done_jitter",
        Measure::ReactionJitter => "reaction_jitter",
        Measure::Budget => "budget",
        Measure::Hold => "hold",
        Measure::Release => "release",
        Measure::Growth => "growth",
        Measure::Spare => "spare",
        Measure::Slack => "slack",
        Measure::SlackBy => "slack_by",
        Measure::Overruns => "overruns",
        Measure::Refused => "refused",
        Measure::Faults => "faults",
    }
}

pub(crate) fn measure_field(answer: Answer) -> &'static str
    ensures text { result.now ≡ measure_field answer }
    ensures plain { IsPlain result.now }
{
    match answer {
        Answer::Tested(bound) => measure_word(bound.measure),
        Answer::IfKept(bound) => measure_word(bound.measure),
        Answer::NoRight => "slack",
        Answer::Audited(_) => "audit",
        Answer::Waits(_) => "waits",
        Answer::Repeats(_) => "repeats",
        Answer::Open(_) => "",
    }
}

/// How many entries passed, or the tick of the first that breaks a rule.
fn audit_number(audit: Audit) -> u32
    ensures { result ≡ audit_number audit }
{
    match audit {
        Audit::Passed(ticks) => ticks,
        Audit::Label(tick) => tick,
        Audit::Event(tick) => tick,
    }
}

fn audit_word(audit: Audit) -> &'static str
    ensures text { result.now ≡ audit_word audit }
    ensures plain { IsPlain result.now }
{
    match audit {
        Audit::Passed(_) => "passed",
        Audit::Label(_) => "label",
        Audit::Event(_) => "event",
    }
}

fn number_of(answer: Answer) -> Option<u32>
    ensures { result ≡ number_of answer }
{
    match answer {
        Answer::Tested(bound) => bound.number,
        Answer::IfKept(bound) => bound.number,
        Answer::NoRight => None,
        Answer::Audited(audit) => Some(audit_number(audit)),
        Answer::Waits(waiting) => waiting_number(waiting),
        Answer::Repeats(repeating) => repeating_number(repeating),
        Answer::Open(_) => None,
    }
}

fn asked_of(answer: Answer) -> Option<u32>
    ensures { result ≡ asked_of answer }
{
    match answer {
        Answer::Tested(bound) => Some(bound.asked),
        Answer::IfKept(bound) => Some(bound.asked),
        _ => None,
    }
}

fn subject_field(
    alloc: Global,
    names: &[Text],
    what: &What,
    answer: Answer,
) -> Result<String, AllocError>
    requires named { AreNamed names.now }
    requires fit { HasNames what.now }
    ensures text { IfOk result (λ s. string_bytes s ≡ subject_field names.now what.now answer) }
    ensures plain { IfOk result (λ s. IsPlain (string_bytes s)) }
{
    match answer {
        Answer::Repeats(repeating) => { plain_words(alloc, repeating_subject(names, repeating)) }
        _ => subject_of(alloc, what),
    }
}

/// Under which condition a bound is kept that would be.
fn kept_reason(bound: Bound) -> &'static str
    ensures text { result.now ≡ kept_reason bound }
    ensures plain { IsPlain result.now }
{
    if is_met(bound) {
        "if all keep to their slack"
    } else {
        ""
    }
}

fn reason_field(alloc: Global, answer: Answer) -> Result<String, AllocError>
    ensures text { IfOk result (λ s. string_bytes s ≡ reason_field answer) }
    ensures plain { IfOk result (λ s. IsPlain (string_bytes s)) }
{
    match answer {
        Answer::Tested(_) => plain_words(alloc, ""),
        Answer::IfKept(bound) => plain_words(alloc, kept_reason(bound)),
        Answer::NoRight => plain_words(alloc, "may not ask"),
        Answer::Audited(audit) => plain_words(alloc, audit_word(audit)),
        Answer::Waits(waiting) => waiting_reason(alloc, waiting),
        Answer::Repeats(repeating) => repeating_reason(alloc, repeating),
        Answer::Open(reason) => plain_words(alloc, reason_words(reason)),
    }
}

fn number_text(alloc: Global, number: u32) -> Result<String, AllocError>
    ensures text { IfOk result (λ s. string_bytes s ≡ decimal number) }
    ensures plain { IfOk result (λ s. IsPlain (string_bytes s)) }
{
    format!(in alloc; "{number}")
}

/// A field that is empty where there is no number.
fn number_field(alloc: Global, number: Option<u32>) -> Result<String, AllocError>
    ensures text { IfOk result (λ s. string_bytes s ≡ number_field number) }
    ensures plain { IfOk result (λ s. IsPlain (string_bytes s)) }
{
    match number {
        Some(number) => number_text(alloc, number),
        None => String::from_str(alloc, ""),
    }
}

fn joined_numbers(
    alloc: Global,
    measure: &str,
    number: &str,
    asked: &str,
    reason: &str,
) -> Result<String, AllocError>
    ensures { IfOk result (λ s. string_bytes s ≡ joined_record measure.now (number.now ∷ asked.now ∷ reason.now ∷ [])) }
{
    format!(in alloc; "{measure},{number},{asked},{reason}\n")
}

fn joined_words(
    alloc: Global,
    verdict: &str,
    id: &str,
    subject: &str,
    rest: &str,
) -> Result<String, AllocError>
    ensures { IfOk result (λ s. string_bytes s
        ≡ verdict.now ++ (codes "," ++ (id.now ++ (codes "," ++ (subject.now ++ (codes "," ++ rest.now)))))) }
{
    format!(in alloc; "{verdict},{id},{subject},{rest}")
}

fn joined_record(
    alloc: Global,
    verdict: &str,
    id: &str,
    subject: &str,
    measure: &str,
    number: &str,
    asked: &str,
    reason: &str,
) -> Result<String, AllocError>
    ensures { IfOk result (λ s. string_bytes s ≡ joined_record verdict.now
        (id.now ∷ subject.now ∷ measure.now ∷ number.now ∷ asked.now ∷ reason.now ∷ [])) }
{
    let numbers = joined_numbers(alloc, measure, number, asked, reason)?;
    joined_words(alloc, verdict, id, subject, numbers.as_str())
}

fn record_of(
    alloc: Global,
    verdict: &str,
    id: &str,
    subject: &str,
    measure: &str,
    number: &str,
    asked: &str,
    reason: &str,
) -> Result<String, AllocError>
    requires verdict { IsPlain verdict.now }
    requires id { IsPlain id.now }
    requires subject { IsPlain subject.now }
    requires measure { IsPlain measure.now }
    requires number { IsPlain number.now }
    requires asked { IsPlain asked.now }
    requires reason { IsPlain reason.now }
    ensures { IfOk result (λ s. string_bytes s ≡ record_text
        (verdict.now ∷ id.now ∷ subject.now ∷ measure.now ∷ number.now ∷ asked.now ∷ reason.now ∷ [])) }
{
    joined_record(alloc, verdict, id, subject, measure, number, asked, reason)
}

fn need_record(
    alloc: Global,
    names: &[Text],
    need: &Need,
    answer: Answer,
) -> Result<String, AllocError>
    requires named { AreNamed names.now }
    requires fit { IsFit need.now }
    ensures { IfOk result (λ s. string_bytes s ≡ record_text (fields names.now need.now answer)) }
{
    let subject = subject_field(alloc, names, &need.what, answer)?;
    let number = number_field(alloc, number_of(answer))?;
    let asked = number_field(alloc, asked_of(answer))?;
    let reason = reason_field(alloc, answer)?;
    record_of(
        alloc,
        verdict_word(verdict_of(answer)),
        need.id.as_str(),
        subject.as_str(),
        measure_field(answer),
        number.as_str(),
        asked.as_str(),
        reason.as_str(),
    )
}

fn row_record(alloc: Global, names: &[Text], needs: &[Need], row: Row) -> Result<String, AllocError>
    requires named { AreNamed names.now }
    requires fit { All IsFit needs.now }
    ensures { IfOk result (λ s. string_bytes s ≡ row_record names.now needs.now row) }
{
    match needs.get(row.need) {
        Some(need) => need_record(alloc, names, need, row.answer),
        None => String::from_str(alloc, ""),
    }
}

fn add_records(
    alloc: Global,
    text: &mut String,
    names: &[Text],
    needs: &[Need],
    rows: &[Row],
) -> Result<(), AllocError>
    requires named { AreNamed names.now }
    requires fit { All IsFit needs.now }
    ensures { OnOk result (string_bytes text.new
        ≡ string_bytes text.old ++ flat_map (row_record names.now needs.now) rows.now) }
{
    for row in rows {
        let line = row_record(alloc, names, needs, *row)?;
        push_line(text, line)?;
    }
    Ok(())
}

/// The names of the columns, as a row.
fn column_names(alloc: Global) -> Result<String, AllocError>
    ensures { IfOk result (λ s. string_bytes s ≡ record_text columns) }
{
    String::from_str(alloc, "verdict,id,subject,measure,number,asked,reason\n")
}

/// The same as a table: the names of the columns, and a row for each row. The names are those of the processes. `Err` is want
/// of memory.
pub fn needs_csv(
    alloc: Global,
    names: &[Text],
    needs: &Needs,
    rows: &[Row],
) -> Result<Page, NoMemory>
    requires named { AreNamed names.now }
    requires fit { All IsFit needs.now.rows }
    ensures { IfOk result (λ page. page ≡ needs_csv names.now needs.now.rows rows.now) }
{
    let mut text = column_names(alloc)?;
    add_records(alloc, &mut text, names, &needs.rows, rows)?;
    Ok(Page::new(text))
}
