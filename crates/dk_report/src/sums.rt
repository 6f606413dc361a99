ghost use Rattle.std.specs.Prelude.{◌≡◌, true};
ghost use Rattle.dk_report.specs.Counts.{counted, counted_for};
ghost use Rattle.dk_report.specs.Sums.{kernel_of};

use crate::ProcessTotals;

/// One more, up to the last value.
#[inline(always)]
pub(crate) fn raise(count: &mut u32)
    ensures { count.new ≡ counted true count.old }
{
    raise_by(count, 1);
}

/// So many more, up to the last value.
#[inline(always)]
pub(crate) fn raise_by(count: &mut u32, more: u32)
    ensures { count.new ≡ counted_for more true count.old }
{
    *count = count.saturating_add(more);
}

/// Ticks by the kind of their label.
#[derive(Clone, Copy, PartialEq, Eq)]
pub(crate) struct Sums {
    pub(crate) entries: u32,
    pub(crate) kernel: u32,
    pub(crate) switch: u32,
    pub(crate) body: u32,
    pub(crate) slack: u32,
    pub(crate) idle: u32,
}

impl Sums {
    ghost use Rattle.dk_report.specs.Sums.{numbers_with, sums_of};

    /// The sums of what is counted of nobody, by level and by process.
    pub(crate) fn of(idle: u32, levels: &[u32], processes: &[ProcessTotals]) -> Sums
        ensures { result ≡ sums_of (numbers_with idle levels.now processes.now) }
    {
        let kernel = kernel_of(levels);
        let mut switch: u32 = 0;
        let mut body: u32 = 0;
        let mut slack: u32 = 0;
        for process in 0..processes.len() {
            let totals = processes[process];
            switch = switch
                .saturating_add(totals.ins)
                .saturating_add(totals.outs);
            body = body
                .saturating_add(totals.runs)
                .saturating_add(totals.calls);
            slack = slack
                .saturating_add(totals.timeline)
                .saturating_add(totals.reclaimed);
        }
        let threads = switch.saturating_add(body).saturating_add(slack);
        Sums {
            entries: kernel.saturating_add(threads).saturating_add(idle),
            kernel,
            switch,
            body,
            slack,
            idle,
        }
    }
}

/// The ticks of the kernel at all levels.
fn kernel_of(levels: &[u32]) -> u32
    ensures { result ≡ kernel_of levels.now }
{
    let mut sum: u32 = 0;
    for level in 0..levels.len() {
        sum = sum.saturating_add(levels[level]);
    }
    sum
}
