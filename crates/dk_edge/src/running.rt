//! What a program does at the edge.
ghost use Rattle.std.specs.Prelude.{◌≡◌, ◌^◌, ◌<◌, ℕ, List, map, string_bytes};
ghost use Rattle.dk_outside.specs.Views.{DepotView, SinkView};
ghost use Rattle.std.specs.Process.{exit_status};
ghost use Rattle.dk_edge.specs.Running.{Exits, RanOnce, WasHandedOn};
ghost use Rattle.dk_edge.specs.OutSink.{out_view};

use crate::out_sink::OutSink;
use crate::words::{Words, words_of};
use dk_outside::{Depot, Sink};
use std::alloc::Global;
use std::process::ExitCode;

/// What ends a program at the edge, before or after its call.
#[derive(Clone, Copy, Debug, PartialEq, Eq)]
pub enum EdgeFault {
    /// Want of memory, for the words or the room for output.
    NoMemory,
    /// The last piece couldn't be handed on.
    Output,
}

/// What a program does with its words, over any depot and any sink.
pub trait Program {
    ghost use Rattle.dk_edge.specs.declared.running.EdgeFault.{EdgeFault};

    type Status: Copy + Drop;

    /// How a call ends: its words, what is seen of the depot before and after it, what is seen of the sink before and
    /// after it, and its status.
    ghost ends: { List (List ℕ) → DepotView → DepotView → SinkView → SinkView → Self.Status → Type 0 };

    /// The number of a status.
    ghost number_of: { Self.Status → ℕ };

    /// The status for what ends the program at the edge.
    ghost status_of: { EdgeFault → Self.Status };

    fn call<D: Depot, S: Sink>(
        &self,
        alloc: Global,
        words: &[String],
        depot: &mut D,
        sink: &mut S,
    ) -> Self::Status
        requires { (D.seen depot.old).given < 2 ^ 62 }
        ensures { ends (map string_bytes words.now) (D.seen depot.old) (D.seen depot.new) (S.seen sink.old) (S.seen sink.new) result };

    fn number(&self, status: Self::Status) -> u8
        ensures { result ≡ number_of status };

    fn at_edge(&self, fault: EdgeFault) -> Self::Status
        ensures { result ≡ status_of fault };
}

/// Makes the one call of the program, and gives what the process ends with: the number of the call's status, or of
/// what ended it at the edge.
pub fn run_program<P: Program, W: Words, D: Depot, S: Sink + Drop>(
    program: &P,
    alloc: Global,
    given: &W,
    depot: &mut D,
    out: S,
) -> (ExitCode, S)
    requires { (D.seen depot.old).given < 2 ^ 62 }
    ensures { Exits P.ends P.number_of P.status_of (W.told given.now) (D.seen depot.old) (D.seen depot.new) (S.seen out) (S.seen result.1) (exit_status result.0) }
{
    let (ended, out) = run(program, alloc, given, depot, out);
    let status = match ended {
        Ok(status) => status,
        Err(fault) => program.at_edge(fault),
    };
    (ExitCode::from(program.number(status)), out)
}

/// Makes the one call of the program, with the words that were given, and hands its output on.
///
/// An Ok is what the call says of the depot and of the output itself. Of a fault of the output it is told that the
/// output took the front of what the call wrote. Where the words aren't told, that holds of some words.
fn run<P: Program, W: Words, D: Depot, S: Sink + Drop>(
    program: &P,
    alloc: Global,
    given: &W,
    depot: &mut D,
    out: S,
) -> (Result<P::Status, EdgeFault>, S)
    requires { (D.seen depot.old).given < 2 ^ 62 }
    ensures { RanOnce P.ends (W.told given.now) (D.seen depot.old) (D.seen depot.new) (S.seen out) (S.seen result.1) result.0 }
{
    let words = match words_of(given, alloc) {
        Ok(words) => words,
        Err(_) => return (Err(EdgeFault::NoMemory), out),
    };
    let mut sink = match OutSink::reserve(alloc, out) {
        Ok(sink) => sink,
        Err(out) => return (Err(EdgeFault::NoMemory), out),
    };
    let status = program.call(alloc, words.as_slice(), depot, &mut sink);
    hand_over(status, sink)
}

// Hands on what is still held back of the call's output.
fn hand_over<T: Copy + Drop, S: Sink + Drop>(
    status: T,
    sink: OutSink<S>,
) -> (Result<T, EdgeFault>, S)
    ensures { WasHandedOn status (out_view S.seen sink) (S.seen result.1) result.0 }
{
    match sink.finish() {
        (out, Ok(())) => (Ok(status), out),
        (out, Err(_)) => (Err(EdgeFault::Output), out),
    }
}
