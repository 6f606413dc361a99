//! The call that the program makes.
ghost use Rattle.std.specs.Prelude.{◌^◌, ◌<◌, map, string_bytes};
ghost use Rattle.dk_page_prog.specs.Ends.{Ends};

use crate::answers::answer_to;
use crate::status::Status;
use dk_outside::{Depot, DepotError, Sink, write_all_to};
use std::alloc::Global;

/// Writes the page that the words ask for. The first word is the program's name and isn't looked at. All memory is taken
/// before the first write.
pub(crate) fn deosk_page<D: Depot, S: Sink>(
    alloc: Global,
    words: &[String],
    depot: &mut D,
    sink: &mut S,
) -> Status
    requires { (D.seen depot.old).given < 2 ^ 62 }
    ensures { Ends (map string_bytes words.now) (D.seen depot.old) (D.seen depot.new) (S.seen sink.old) (S.seen sink.new) result }
{
    match answer_to(alloc, words, depot) {
        Ok(answer) => match write_all_to(sink, answer.bytes.as_slice()) {
            Ok(()) => Status::Answered(answer.ended),
            Err(_) => Status::SinkFault,
        },
        Err(DepotError::Failed) => Status::DepotFault,
        Err(DepotError::NoMemory) => Status::NoMemory,
    }
}
