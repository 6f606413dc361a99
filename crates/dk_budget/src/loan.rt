//! One loan, and what a stop makes of it.
ghost use Rattle.std.specs.Prelude.{◌≡◌, ◌<◌, length};
ghost use Rattle.dk_budget.specs.Loans.{is_ended_at, is_in_force, stopped, stopped_one};

use dk_windows::Windows;

/// What a main has lent to one of its children.
#[derive(Clone, Copy, Default, PartialEq, Eq)]
pub struct Loan {
    /// The child's serial.
    pub serial: u32,
    /// The child's level.
    pub level: u8,
    /// Ticks of a window of the main's level.
    pub quota: u32,
    /// Where the child's first window starts.
    pub start: u32,
    /// Where the child's last window ends, once it is stopped.
    pub end: Option<u32>,
}

/// Whether the loan is in force in a window that starts at that tick.
pub fn is_in_force(loan: &Loan, start: u32) -> bool
    ensures { result ≡ is_in_force start loan.now }
{
    match loan.end {
        Some(end) => loan.start <= start && start < end,
        None => loan.start <= start,
    }
}

/// Whether the loan has that end.
pub fn is_ended_at(loan: &Loan, tick: u32) -> bool
    ensures { result ≡ is_ended_at tick loan.now }
{
    match loan.end {
        Some(end) => end == tick,
        None => false,
    }
}

/// The loan once its child is stopped at the present tick. None where the child's first window has not
/// started yet: it never ran.
pub fn stopped(loan: Loan, windows: &Windows) -> Option<Loan>
    requires { loan.level < length windows.now.periods }
    ensures { result ≡ stopped windows.now loan }
{
    if loan.end.is_some() {
        Some(loan)
    } else if windows.now() < loan.start {
        None
    } else {
        let mut next = loan;
        next.end = Some(windows.end(loan.level));
        Some(next)
    }
}

/// The loan once the child of that serial is stopped at the present tick.
pub fn stopped_one(loan: Loan, windows: &Windows, serial: u32) -> Option<Loan>
    requires { loan.level < length windows.now.periods }
    ensures { result ≡ stopped_one windows.now serial loan }
{
    if loan.serial == serial {
        stopped(loan, windows)
    } else {
        Some(loan)
    }
}
