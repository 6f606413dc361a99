//! The loans of one process.
ghost use Rattle.std.specs.Prelude.{◌≡◌, ◌≤◌, ◌<◌, ◌*◌, ◌^◌, ◌==◌, All, length, find, map};
ghost use Rattle.std.specs.List.{filter_map, list_any};
ghost use Rattle.dk_budget.specs.Loans.{is_ended_at, lent, lent_at, not_ended_at, stopped, stopped_one};
ghost use Rattle.dk_budget.specs.Calls.{given_back, lent_to, stopped_child, stopped_process};

use crate::loan::{Loan, is_ended_at, is_in_force, stopped, stopped_one};
use arrayvec::ArrayVec;
use dk_config::MAX_CHILDREN;
use dk_windows::Windows;

/// A process with its main, and what the main has lent.
#[derive(Default, Drop)]
pub struct Lender {
    /// The main's level.
    pub level: u8,
    /// The slowest level that a child may have.
    pub max_level: u8,
    /// The ticks of the process in each window of the main's level.
    pub budget: u32,
    /// The most children that it may have at a time.
    pub threads: u8,
    /// The tick of the main's stop, once it is stopped.
    pub stop: Option<u32>,
    /// What is lent and not yet given back, in the order of the calls.
    pub loans: ArrayVec<Loan, MAX_CHILDREN>,
}

/// All that is lent, in ticks of a window of the main's level.
pub fn lent(loans: &ArrayVec<Loan, MAX_CHILDREN>) -> u64
    ensures sum { result ≡ lent loans.now.items }
    ensures few { result ≤ MAX_CHILDREN * 2 ^ 32 }
{
    let mut sum: u64 = 0;
    for loan in loans.as_slice() {
        sum += loan.quota as u64;
    }
    sum
}

/// What is lent in a window of the main that starts at that tick.
pub fn lent_at(loans: &ArrayVec<Loan, MAX_CHILDREN>, start: u32) -> u64
    ensures { result ≡ lent_at start loans.now.items }
{
    let mut sum: u64 = 0;
    for loan in loans.as_slice() {
        if is_in_force(loan, start) {
            sum += loan.quota as u64;
        }
    }
    sum
}

/// The loans once all children are stopped at the present tick.
pub fn all_stopped(
    loans: &ArrayVec<Loan, MAX_CHILDREN>,
    windows: &Windows,
) -> ArrayVec<Loan, MAX_CHILDREN>
    requires { All (λ l. l.level < length windows.now.periods) loans.now.items }
    ensures { result.items ≡ filter_map (stopped windows.now) loans.now.items }
{
    let mut rest = ArrayVec::new();
    for loan in loans.as_slice() {
        if let Some(next) = stopped(*loan, windows) {
            rest.push(next);
        }
    }
    rest
}

/// The loans once the child of that serial is stopped at the present tick.
pub fn all_but_one(
    loans: &ArrayVec<Loan, MAX_CHILDREN>,
    windows: &Windows,
    serial: u32,
) -> ArrayVec<Loan, MAX_CHILDREN>
    requires { All (λ l. l.level < length windows.now.periods) loans.now.items }
    ensures { result.items ≡ filter_map (stopped_one windows.now serial) loans.now.items }
{
    let mut rest = ArrayVec::new();
    for loan in loans.as_slice() {
        if let Some(next) = stopped_one(*loan, windows, serial) {
            rest.push(next);
        }
    }
    rest
}

/// Whether a loan ends at the tick.
fn has_ended_at(loans: &ArrayVec<Loan, MAX_CHILDREN>, tick: u32) -> bool
    ensures { result ≡ list_any (is_ended_at tick) loans.now.items }
{
    for loan in loans.as_slice() {
        if is_ended_at(loan, tick) {
            return true;
        }
    }
    false
}

/// The loans that don't end at the tick.
pub fn not_ended_at(loans: &ArrayVec<Loan, MAX_CHILDREN>, tick: u32) -> ArrayVec<Loan, MAX_CHILDREN>
    ensures { result.items ≡ not_ended_at tick loans.now.items }
{
    let mut rest = ArrayVec::new();
    for loan in loans.as_slice() {
        if !is_ended_at(loan, tick) {
            rest.push(*loan);
        }
    }
    rest
}

/// The loan of the child of that serial.
pub fn loan_of(loans: &ArrayVec<Loan, MAX_CHILDREN>, serial: u32) -> Option<Loan>
    ensures { result ≡ find (λ l. l.serial == serial) loans.now.items }
{
    for loan in loans.as_slice() {
        if loan.serial == serial {
            return Some(*loan);
        }
    }
    None
}

impl Lender {
    /// Adds a loan.
    pub fn add(&mut self, loan: Loan)
        requires { length self.old.loans.items < MAX_CHILDREN }
        ensures { self.new ≡ lent_to loan self.old }
    {
        self.loans.push(loan);
    }

    /// Stops the child of that serial.
    pub fn stop_child(&mut self, windows: &Windows, serial: u32)
        requires { All (λ l. l.level < length windows.now.periods) self.old.loans.items }
        ensures { self.new ≡ stopped_child windows.now serial self.old }
    {
        self.loans = all_but_one(&self.loans, windows, serial);
    }

    /// Stops the main and all its children.
    pub fn stop_all(&mut self, windows: &Windows)
        requires { All (λ l. l.level < length windows.now.periods) self.old.loans.items }
        ensures { self.new ≡ stopped_process windows.now self.old }
    {
        self.stop = Some(windows.now());
        self.loans = all_stopped(&self.loans, windows);
    }

    /// Takes out the loans that end at the tick. At most ticks there is none, and nothing is copied.
    pub fn give_back(&mut self, tick: u32)
        ensures { self.new ≡ given_back tick self.old }
    {
        if has_ended_at(&self.loans, tick) {
            self.loans = not_ended_at(&self.loans, tick);
        }
    }
}

/// Takes out the loans that end at the tick, of all processes.
pub fn give_back_all(lenders: &mut [Lender], tick: u32)
    ensures { lenders.new ≡ map (given_back tick) lenders.old }
{
    for lender in lenders.iter_mut() {
        lender.give_back(tick);
    }
}
