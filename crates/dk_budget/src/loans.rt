//! The table: the loans of all processes.
ghost use Rattle.std.specs.Prelude.{◌≡◌, ◌≤◌, ◌<◌, ◌*◌, length, map, MatchResult, None, Some};
ghost use Rattle.std.specs.List.{range_with_len};
ghost use Rattle.dk_config.specs.Checked.{IsAccepted, IsChecked, IsWithinLimits};
ghost use Rattle.dk_config.specs.Windows.{main_level, max_level, slots};
ghost use Rattle.dk_windows.specs.Clock.{end_at, periods_of};
ghost use Rattle.dk_budget.specs.Book.{book_of, lender_of};
ghost use Rattle.dk_budget.specs.Calls.{all_given_back, changed_at, lend_refusal, lent_to, new_loan, stopped_child, stopped_process};
ghost use Rattle.dk_budget.specs.Shares.{future_shares, present_child_share, present_main_share};

use crate::lender::{Lender, give_back_all, loan_of};
use crate::loan::Loan;
use crate::refusing::lend_refusal;
use crate::shares::{child_share, children_future, main_future, main_share};
use arrayvec::ArrayVec;
use dk_config::{Config, MAX_LEVELS, MAX_PROCESSES, MAX_SPAN, MAX_THREADS};
use dk_trace::Refusal;
use dk_windows::{Period, Windows};
use std::marker::Model;

/// What the mains have lent. It is seen as the switch cost, the periods of the levels, and per process,
/// by its row, its lender: the stop, if there is one, and the loans, beside the numbers of the
/// configuration that the calls need, which none of them changes. A call that takes windows takes
/// those of the same levels. A loan is counted until `give_back_due` takes it out at its end.
#[derive(Drop)]
pub struct Loans {
    /// The switch cost in ticks.
    switch: u32,
    /// The period of each level.
    periods: ArrayVec<Period, MAX_LEVELS>,
    lenders: ArrayVec<Lender, MAX_PROCESSES>,
}

impl Model for Loans {
    ghost use Rattle.dk_budget.specs.Book.{Book};
    ghost use Rattle.dk_budget.specs.Sound.{IsSound};

    ghost Value = { Book };

    ghost view = { λ b. record { switch = b.switch; periods = b.periods.items; lenders = b.lenders.items } };

    ghost invariant = { λ b. IsSound
        (record { switch = b.switch; periods = b.periods.items; lenders = b.lenders.items }) };
}

/// The process of that row, which has lent nothing.
fn lender_of(config: &Config, process: usize) -> Lender
    requires known { process < length config.now.processes }
    requires level { main_level config.now process < 256 }
    requires reach { max_level config.now process < 256 }
    requires few { slots config.now process < 256 }
    ensures { result ≡ lender_of config.now process }
{
    let row = &config.processes[process];
    Lender {
        level: row.level as u8,
        max_level: row.max_level as u8,
        budget: row.budget,
        threads: row.threads as u8,
        stop: None,
        loans: ArrayVec::new(),
    }
}

/// The period of each level.
fn periods_of(config: &Config) -> ArrayVec<Period, MAX_LEVELS>
    requires checked { IsChecked config.now }
    requires limits { IsWithinLimits config.now }
    ensures { result.items ≡ periods_of config.now }
{
    let mut periods = ArrayVec::new();
    for level in &config.levels {
        periods.push(Period::of(level.period));
    }
    periods
}

/// All processes, of which none has lent anything.
fn lenders_of(config: &Config) -> ArrayVec<Lender, MAX_PROCESSES>
    requires checked { IsChecked config.now }
    requires limits { IsWithinLimits config.now }
    ensures { result.items ≡ map (lender_of config.now) (range_with_len 0 (length config.now.processes)) }
{
    let mut lenders = ArrayVec::new();
    for process in 0..config.processes.len() {
        lenders.push(lender_of(config, process));
    }
    lenders
}

impl Loans {
    /// Nothing is lent. The configuration is certified. This divides, once for each level; the other
    /// calls don't.
    pub fn at_start(config: &Config) -> Loans
        requires checked { IsChecked config.now }
        requires limits { IsWithinLimits config.now }
        requires accepted { IsAccepted config.now }
        ensures { result ≡ book_of config.now }
    {
        let periods = periods_of(config);
        let lenders = lenders_of(config);
        Loans {
            switch: config.costs.switch,
            periods,
            lenders,
        }
    }

    /// The main lends `quota` ticks of a window of its level to a new child of the level, from the
    /// start of that level's next window on, which is what Ok gives. `entry` is the child's first
    /// instruction, of so many in its program. Refused is, in this order: a level below the main's or
    /// above the slowest of the process; an entry that is no instruction; a child too many; a quota
    /// that gives the child too small a share to get in, do something and get out; and one that does
    /// not leave the main such a share.
    pub fn lend(
        &mut self,
        windows: &Windows,
        process: u8,
        serial: u32,
        level: u32,
        quota: u32,
        entry: u32,
        instructions: u32,
    ) -> Result<u32, Refusal>
        requires known { process < length self.old.lenders }
        requires same_levels { windows.now.periods ≡ self.old.periods }
        ensures { MatchResult result
            (λ start. (lend_refusal self.old process level quota entry instructions ≡ None)
            × (start ≡ end_at windows.now level)
            × (self.new ≡ changed_at process (lent_to (new_loan windows.now serial level quota)) self.old))
            (λ refusal. (lend_refusal self.old process level quota entry instructions ≡ Some refusal)
            × (self.new ≡ self.old)) }
    {
        let lender = &self.lenders[process as usize];
        if let Some(refusal) = lend_refusal(
            self.switch,
            &self.periods,
            lender,
            level,
            quota,
            entry,
            instructions,
        ) {
            return Err(refusal);
        }
        let level = level as u8;
        let start = windows.end(level);
        let lender = &mut self.lenders[process as usize];
        lender.add(Loan {
            serial,
            level,
            quota,
            start,
            end: None,
        });
        Ok(start)
    }

    /// The main's share of the present window of its level, in ticks.
    pub fn main_share(&self, windows: &Windows, process: u8) -> u32
        requires known { process < length self.now.lenders }
        requires same_levels { windows.now.periods ≡ self.now.periods }
        ensures { result ≡ present_main_share self.now windows.now process }
    {
        let lender = &self.lenders[process as usize];
        main_share(lender, windows.start(lender.level)) as u32
    }

    /// The share of the child of that serial of the present window of its level, in ticks; 0 where it
    /// has no loan in force.
    pub fn child_share(&self, windows: &Windows, process: u8, serial: u32) -> u32
        requires known { process < length self.now.lenders }
        requires same_levels { windows.now.periods ≡ self.now.periods }
        ensures { result ≡ present_child_share self.now windows.now process serial }
    {
        let lender = &self.lenders[process as usize];
        match loan_of(&lender.loans, serial) {
            Some(loan) => {
                let start = windows.start(loan.level);
                child_share(&self.periods, lender.level, &loan, start) as u32
            },
            None => 0,
        }
    }

    /// The shares of the process's threads of levels up to `level`, in ticks: of all their windows
    /// that begin after the present tick and before the present window of `level` ends, as if no
    /// event followed.
    pub fn future_shares(&self, windows: &Windows, process: u8, level: u8) -> u64
        requires known { process < length self.now.lenders }
        requires same_levels { windows.now.periods ≡ self.now.periods }
        requires level { level < length self.now.periods }
        ensures shares { result ≡ future_shares self.now windows.now process level }
        ensures few { result ≤ MAX_THREADS * MAX_SPAN * MAX_SPAN }
    {
        let lender = &self.lenders[process as usize];
        main_future(lender, windows, level) + children_future(&self.periods, lender, windows, level)
    }

    /// The main stops the child of that serial at the present tick. Its loan ends with the present
    /// window of its level, and goes at once where its first window has not started. Nothing changes
    /// where the child has no loan or is stopped already.
    pub fn stop(&mut self, windows: &Windows, process: u8, serial: u32)
        requires known { process < length self.old.lenders }
        requires same_levels { windows.now.periods ≡ self.old.periods }
        ensures { self.new ≡ changed_at process (stopped_child windows.now serial) self.old }
    {
        let lender = &mut self.lenders[process as usize];
        lender.stop_child(windows, serial);
    }

    /// The main stops at the present tick, and all its children with it.
    pub fn stop_process(&mut self, windows: &Windows, process: u8)
        requires known { process < length self.old.lenders }
        requires same_levels { windows.now.periods ≡ self.old.periods }
        ensures { self.new ≡ changed_at process (stopped_process windows.now) self.old }
    {
        let lender = &mut self.lenders[process as usize];
        lender.stop_all(windows);
    }

    /// Takes out the loans that end at the tick, so that their quotas can be lent again.
    pub fn give_back_due(&mut self, now: u32)
        ensures { self.new ≡ all_given_back now self.old }
    {
        give_back_all(self.lenders.as_mut_slice(), now);
    }
}
