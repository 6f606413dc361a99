//! Whether a bound is kept.
ghost use Rattle.std.specs.Prelude.{◌≡◌};
ghost use Rattle.dk_needs_check.specs.Bounds.{are_met, audit_verdict, is_met, is_met_row, is_upper, keeps, repeating_verdict, verdict_of, waiting_verdict};

use crate::{Answer, Audit, Bound, Measure, Repeating, Row, Verdict, Waiting};

/// Whether at most so much is asked.
pub fn is_upper(measure: Measure) -> bool
    ensures { result ≡ is_upper measure }
{
    match measure {
        Measure::Done | Measure::Reaction | Measure::Age => true,
        Measure::BeginsJitter | Measure::DoneJitter | Measure::ReactionJitter => true,
        Measure::SlackBy => true,
        Measure::Overruns | Measure::Refused | Measure::Faults => true,
        _ => false,
    }
}

fn keeps(upper: bool, number: Option<u32>, asked: u32) -> bool
    ensures { result ≡ keeps upper number asked }
{
    match number {
        Some(number) if upper => number <= asked,
        Some(number) => asked <= number,
        None => false,
    }
}

/// Whether the number is within what is asked of it.
pub fn is_met(bound: Bound) -> bool
    ensures { result ≡ is_met bound }
{
    keeps(is_upper(bound.measure), bound.number, bound.asked)
}

fn audit_verdict(audit: Audit) -> Verdict
    ensures { result ≡ audit_verdict audit }
{
    match audit {
        Audit::Passed(_) => Verdict::Met,
        Audit::Label(_) => Verdict::Missed,
        Audit::Event(_) => Verdict::Missed,
    }
}

fn waiting_verdict(waiting: Waiting) -> Verdict
    ensures { result ≡ waiting_verdict waiting }
{
    match waiting {
        Waiting::Always => Verdict::Met,
        Waiting::NotFrom(_) => Verdict::Missed,
        _ => Verdict::Open,
    }
}

fn repeating_verdict(repeating: Repeating) -> Verdict
    ensures { result ≡ repeating_verdict repeating }
{
    match repeating {
        Repeating::Every { .. } => Verdict::Met,
        _ => Verdict::Open,
    }
}

/// Whether what was asked for is kept.
pub fn verdict_of(answer: Answer) -> Verdict
    ensures { result ≡ verdict_of answer }
{
    match answer {
        Answer::Tested(bound) => {
            if is_met(bound) {
                Verdict::Met
            } else {
                Verdict::Missed
            }
        }
        Answer::IfKept(bound) => {
            if is_met(bound) {
                Verdict::Open
            } else {
                Verdict::Missed
            }
        }
        Answer::NoRight => Verdict::Missed,
        Answer::Audited(audit) => audit_verdict(audit),
        Answer::Waits(waiting) => waiting_verdict(waiting),
        Answer::Repeats(repeating) => repeating_verdict(repeating),
        Answer::Open(_) => Verdict::Open,
    }
}

fn is_met_row(row: &Row) -> bool
    ensures { result ≡ is_met_row row.now }
{
    match verdict_of(row.answer) {
        Verdict::Met => true,
        _ => false,
    }
}

/// Whether all that was asked for is met.
pub fn are_met(rows: &[Row]) -> bool
    ensures { result ≡ are_met rows.now }
{
    rows.iter().all(is_met_row)
}
