//! The call that the program makes.
use dk_edge::{EdgeFault, Program};
use dk_outside::{Depot, Sink};
use dk_session::{Status, deosk};
use std::alloc::Global;

/// The call of `deosk`.
#[derive(Clone, Copy)]
pub struct Deosk;

impl Program for Deosk {
    ghost use Rattle.dk_inputs.specs.Number.{status_number};
    ghost use Rattle.dk_prog.specs.Ends.{Ends, status_of};

    type Status = Status;

    ghost ends = { Ends };

    ghost number_of = { status_number };

    ghost status_of = { status_of };

    fn call<D: Depot, S: Sink>(
        &self,
        alloc: Global,
        words: &[String],
        depot: &mut D,
        sink: &mut S,
    ) -> Status {
        deosk(alloc, words, depot, sink)
    }

    fn number(&self, status: Status) -> u8 {
        status.number()
    }

    fn at_edge(&self, fault: EdgeFault) -> Status {
        match fault {
            EdgeFault::NoMemory => Status::NoMemory,
            EdgeFault::Output => Status::SinkFault,
        }
    }
}
