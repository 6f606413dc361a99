//! The call that the program makes.
use crate::page::deosk_page;
use crate::status::Status;
use dk_edge::{EdgeFault, Program};
use dk_outside::{Depot, Sink};
use std::alloc::Global;

/// The call of `deosk_page`.
#[derive(Clone, Copy)]
pub struct DeoskPage;

impl Program for DeoskPage {
    ghost use Rattle.dk_page_prog.specs.Answers.{status_number};
    ghost use Rattle.dk_page_prog.specs.Ends.{Ends, status_of};

    type Status = Status;

    ghost ends = { Ends };

    ghost number_of = { status_number };

    ghost status_of = { status_of };

    fn call<D: Depot, S: Sink>(
        &self,
        alloc: Global,
        words: &[String],
        depot: &mut D,
        sink: &mut S,
    ) -> Status {
        deosk_page(alloc, words, depot, sink)
    }

    fn number(&self, status: Status) -> u8 {
        status.number()
    }

    fn at_edge(&self, fault: EdgeFault) -> Status {
        match fault {
            EdgeFault::NoMemory => Status::NoMemory,
            EdgeFault::Output => Status::SinkFault,
        }
    }
}
