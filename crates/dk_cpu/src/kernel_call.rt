//! The kernel calls, which a program names by their numbers.
ghost use Rattle.std.specs.Prelude.{◌≡◌};
ghost use Rattle.dk_cpu.specs.Machine as machine;

/// What a program asks the kernel for.
#[derive(Clone, Copy)]
pub enum KernelCall {
    /// To be closed until the thread's next window.
    Wait,
    /// To stop.
    Exit,
    /// A child.
    Create,
    /// The end of a child.
    Delete,
    /// A mutex.
    Lock,
    /// To give a mutex back.
    Unlock,
    /// Ticks beyond the budget.
    Slack,
    /// A number in the ledger.
    Put,
    /// The present tick.
    Time,
    /// How many ticks of its body the thread has left.
    Left,
}

impl KernelCall {
    /// The call with this number, 1 to 10. No other number is a call's.
    #[inline(always)]
    pub fn from_number(number: u8) -> Option<Self>
        ensures { result ≡ machine.call_of number }
    {
        match number {
            1 => Some(KernelCall::Wait),
            2 => Some(KernelCall::Exit),
            3 => Some(KernelCall::Create),
            4 => Some(KernelCall::Delete),
            5 => Some(KernelCall::Lock),
            6 => Some(KernelCall::Unlock),
            7 => Some(KernelCall::Slack),
            8 => Some(KernelCall::Put),
            9 => Some(KernelCall::Time),
            10 => Some(KernelCall::Left),
            _ => None,
        }
    }
}
