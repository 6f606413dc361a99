//! Whose some ticks were.
ghost use Rattle.std.specs.Prelude.{◌≡◌, true, []};
ghost use Rattle.dk_cycle_counts.specs.Process.{added_if};
ghost use Rattle.dk_cycle_counts.specs.Totals.{totals_of, totals_with};

use dk_trace::Label;

/// How many of some ticks were of which kind.
#[derive(Clone, Copy)]
pub struct CycleTotals {
    pub ins: u32,
    pub runs: u32,
    pub calls: u32,
    pub outs: u32,
    pub slack: u32,
    pub kernel: u32,
    pub idle: u32,
}

/// So many more, up to the last value.
fn raise(total: &mut u32, count: u32)
    ensures { total.new ≡ added_if true count total.old }
{
    *total = total.saturating_add(count);
}

impl CycleTotals {
    /// Of no ticks.
    pub(crate) fn new() -> CycleTotals
        ensures { result ≡ totals_of [] }
    {
        CycleTotals {
            ins: 0,
            runs: 0,
            calls: 0,
            outs: 0,
            slack: 0,
            kernel: 0,
            idle: 0,
        }
    }

    /// Counts so many ticks more with this label, up to the last value.
    pub(crate) fn add(&mut self, label: Label, count: u32)
        ensures { self.new ≡ totals_with label count self.old }
    {
        match label {
            Label::In(_) => raise(&mut self.ins, count),
            Label::Run(_) => raise(&mut self.runs, count),
            Label::Call(_) => raise(&mut self.calls, count),
            Label::Out(_) => raise(&mut self.outs, count),
            Label::Slack { .. } => raise(&mut self.slack, count),
            Label::Kernel(_) => raise(&mut self.kernel, count),
            Label::Idle => raise(&mut self.idle, count),
        }
    }
}
