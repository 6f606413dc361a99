//! How many rows are met, missed and open.
ghost use Rattle.std.specs.Prelude.{◌≡◌};
ghost use Rattle.dk_needs_text.specs.Text.{how_many, is_like};

use dk_needs_check::{Row, Verdict, verdict_of};

fn is_like(one: Verdict, other: Verdict) -> bool
    ensures { result ≡ is_like one other }
{
    match (one, other) {
        (Verdict::Met, Verdict::Met) => true,
        (Verdict::Missed, Verdict::Missed) => true,
        (Verdict::Open, Verdict::Open) => true,
        _ => false,
    }
}

/// Of how many rows this is the verdict.
pub(crate) fn how_many(rows: &[Row], told: Verdict) -> usize
    ensures { result ≡ how_many told rows.now }
{
    rows.iter()
        .filter(|row| is_like(told, verdict_of(row.answer)))
        .count()
}
