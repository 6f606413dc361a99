//! A caller of dk_kernel, as a program of one's own is that has the kernel as a library.
ghost use Rattle.std.specs.Prelude.{◌≡◌, ◌<◌, ◌≤◌, IfOk, OnOk, length};
ghost use Rattle.dk_trace.specs.Ranges.{Size};
ghost use Rattle.dk_kernel.specs.Booting.{IsLoaded};

use super::two_programs;
use crate::given::{TWO_SPINNERS, config_of};
use dk_config::{MAX_PROGRAM_BYTES, MAX_TICKS, NoMemory};
use dk_kernel::{Kernel, Recorder};
use dk_loader::{Code, Loaded};
use dk_steps::Steps;
use dk_trace::{Entry, Event};
use std::alloc::{AllocError, Global};
use std::marker::Brand;
use std::sync::ledger::{Blank, Ledger};
use std::test::Fail;

/// `LI r1,7`, and nothing behind it.
fn short(alloc: Global) -> Result<Code, AllocError>
    ensures { IfOk result (λ code. length code ≤ MAX_PROGRAM_BYTES) }
{
    Ok(Code::new(vec![in alloc; 1, 1, 7, 0]?))
}

/// Counts the ticks of a run, and stops it at the first that has a fault.
#[derive(Drop)]
struct UntilFault {
    ticks: u32,
}

impl Recorder for UntilFault {
    /// The tick of the fault.
    type Error = u32;

    ghost Start = { Size };

    ghost size = { λ size. size };

    ghost Kept = { Unit {0} };

    ghost kept = { λ _. tt };

    ghost HasTaken = { λ _ seen result past. OnOk result (seen.ticks ≡ length past) };

    fn take(&mut self, count: u32, last: Entry) -> Result<(), u32> {
        self.ticks += count;
        match last.event {
            Some(Event::Fault(_)) => Err(self.ticks - 1),
            _ => Ok(()),
        }
    }
}

/// Boots the programs and goes on for so many ticks. Answers the first tick that has a fault.
fn first_fault<L: Ledger>(
    alloc: Global,
    loaded: Loaded,
    ticks: u32,
    steps: &mut Steps<L>,
) -> Result<Option<u32>, NoMemory>
    requires loaded { IsLoaded loaded }
    requires few { ticks ≤ MAX_TICKS }
{
    match Kernel::boot(alloc, loaded) {
        Ok(mut kernel) => Ok(kernel.run(ticks, &mut UntilFault { ticks: 0 }, steps).err()),
        Err((_, fault)) => Err(fault),
    }
}

/// The first fault in 20 ticks, where the first process sets a register and then has no instruction.
fn answer<L: Ledger>(alloc: Global, blank: Blank) -> Result<Option<u32>, Fail>
    requires name { blank.name ≡ L.name }
    requires parts { blank.parts ≡ L.parts }
    requires some { 0 < L.parts }
{
    let mut steps = Steps::<L>::new(blank);
    let config = config_of(alloc, TWO_SPINNERS)?;
    if config.processes.len() != 2 {
        return Err("two processes".into());
    }
    let programs = two_programs(alloc, short(alloc)?)?;
    let loaded = Loaded { config, programs };
    Ok(first_fault(alloc, loaded, 20, &mut steps)?)
}

#[test]
fn a_caller_sees_the_fault(rt: HostRuntime) -> Result<(), Fail> {
    let fault = answer::<Brand>(rt.alloc(), Blank::new(1))?;
    assert!(rt; fault == Some(1));
    Ok(())
}
