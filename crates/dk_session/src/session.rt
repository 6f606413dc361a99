//! The top call.
ghost use Rattle.std.specs.Prelude.{◌≡◌, ◌≢◌, ◌⊎◌, ◌^◌, ◌<◌, IfSome, map, string_bytes, true};
ghost use Rattle.dk_outside.specs.Counts.{Rises};
ghost use Rattle.dk_outside.specs.Written.{Appends};
ghost use Rattle.dk_inputs.specs.Answer.{is_silent, refusal_status};
ghost use Rattle.dk_request.specs.Commands.{usage_text};
ghost use Rattle.dk_inputs.specs.Follows.{Goes};
ghost use Rattle.dk_request.specs.Meaning.{MeansNothing};
ghost use Rattle.dk_command.specs.Output.{IsAnswer, Says};
ghost use Rattle.dk_command.specs.Work.{HasText, IsReady};
ghost use Rattle.dk_session.specs.Leaves.{Leaves};
ghost use Rattle.dk_session.specs.Headline.{StandsInOutput, WasReceivedBoundedGranted, GivesExactly, StraysNowhere};
ghost use Rattle.dk_session.specs.Causes.{IsExactly, IsUsageOrFailed};
ghost use Rattle.dk_session.specs.Complete.{HasDoneOutput, IsDoneOrNoMemory, Unfailing};

use dk_command::{Refusal, Status, Work, perform, usage, work_for};
use dk_outside::{Depot, Sink, write_all_to};
use std::alloc::Global;

/// Writes a line.
fn write_line<S: Sink>(line: &str, ended: Status, sink: &mut S) -> Status
    requires { IsAnswer ended }
    ensures left { Leaves S.seen (λ text s. (text ≡ line.now) × (s ≡ ended))
        sink.old sink.new result }
    ensures only { (result ≡ ended) ⊎ (result ≡ Status.SinkFault) }
{
    match write_all_to(sink, line.as_bytes()) {
        Ok(()) => ended,
        Err(_) => Status::SinkFault,
    }
}

/// Writes why a command is refused. A read that failed and want of memory have no text.
fn say<S: Sink>(alloc: Global, sink: &mut S, refusal: &Refusal) -> Status
    ensures left { Leaves S.seen (Says refusal.now) sink.old sink.new result }
    ensures silent { is_silent refusal.now ≡ true → result ≡ refusal_status refusal.now }
    ensures depot { result ≡ Status.DepotFault → refusal.now ≡ Refusal.Depot }
    ensures read { refusal.now ≡ Refusal.Depot → result ≡ Status.DepotFault }
{
    match refusal {
        Refusal::Depot => Status::DepotFault,
        Refusal::NoMemory => Status::NoMemory,
        refusal => match refusal.text(alloc) {
            Ok(text) => write_line(text.as_str(), refusal.status(), sink),
            Err(_) => Status::NoMemory,
        },
    }
}

/// Writes what is ready. It needs no memory.
fn put<S: Sink>(work: Work, sink: &mut S) -> Status
    requires { IsReady work }
    ensures left { Leaves S.seen (λ text s. HasText work text × (s ≡ Status.Done))
        sink.old sink.new result }
    ensures only { (result ≡ Status.Done) ⊎ (result ≡ Status.SinkFault) }
{
    match perform(work, sink) {
        Ok(()) => Status::Done,
        Err(_) => Status::SinkFault,
    }
}

/// Does what the words say. The first word is the program's name and isn't looked at.
///
/// The headline: for every accepted configuration, all program bytes and every number of ticks, the
/// ledger that is written is that of the one defined run; in it each thread received, in each
/// completed period, its whole budget unless it waited or was stopped, and by a tick of the window
/// that is told before any run: a main k ticks of it once k ticks and what may come before it fit
/// into the time since its window began, and all threads of a level theirs once they fit together,
/// where no faster process may have slack, else at its end; it ran past its budget only on slack,
/// granted exactly where the demand of every level with unfinished work still fitted.
///
/// Where memory runs out nothing is written. Where the depot doesn't tell its files, `output` leaves open which
/// text it is, and `received_bounded_granted`, `config`, `uncertified`, `program`, `complete`, `given` and `strays` say
/// nothing. The others need no files told: `usage`, `usage_only`, `usage_line`, `depot_fault`, `sink_fault`,
/// `no_read_failed`, `no_write_failed` and `goes_on`.
pub fn deosk<D: Depot, S: Sink>(
    alloc: Global,
    words: &[String],
    depot: &mut D,
    sink: &mut S,
) -> Status
    requires { (D.seen depot.old).given < 2 ^ 62 }

    // The headline. What is appended, and the status, stand in Output with the words and the files; where a write failed, a
    // prefix of what stands there was appended; where a read failed or memory ran out, nothing.
    ensures output { Leaves S.seen (StandsInOutput (D.seen depot.old).files (map string_bytes words.now))
        sink.old sink.new result }
    // A run that is done was received, bounded, by when and granted.
    ensures received_bounded_granted { WasReceivedBoundedGranted (D.seen depot.old).files
        (map string_bytes words.now) result }

    // When each answer comes: Usage by the words alone, the others exactly where they are the first refusal.
    ensures usage { MeansNothing (map string_bytes words.now) → IsUsageOrFailed result }
    ensures usage_only { result ≡ Status.Usage → MeansNothing (map string_bytes words.now) }
    ensures usage_line { result ≡ Status.Usage
        → Appends (S.seen sink.old).written (S.seen sink.new).written usage_text }
    ensures config { IsExactly Status.Config (D.seen depot.old).files (map string_bytes words.now) result }
    ensures uncertified { IsExactly Status.Uncertified (D.seen depot.old).files (map string_bytes words.now) result }
    ensures program { IsExactly Status.Program (D.seen depot.old).files (map string_bytes words.now) result }
    ensures depot_fault { result ≡ Status.DepotFault → Rises (D.seen depot.old).faults (D.seen depot.new).faults }
    ensures sink_fault { result ≡ Status.SinkFault → Rises (S.seen sink.old).faults (S.seen sink.new).faults }
    // No failure is swallowed: with any other answer no read and no write failed.
    ensures no_read_failed { result ≢ Status.DepotFault → (D.seen depot.new).faults ≡ (D.seen depot.old).faults }
    ensures no_write_failed { result ≢ Status.SinkFault → (S.seen sink.new).faults ≡ (S.seen sink.old).faults }
    // Completeness.
    ensures complete { IfSome (D.seen depot.old).files (λ at. HasDoneOutput (map string_bytes words.now) at
        → Unfailing (D.seen depot.old).faults (D.seen depot.new).faults
        → Unfailing (S.seen sink.old).faults (S.seen sink.new).faults → IsDoneOrNoMemory result) }

    // What the caller goes on with.
    ensures goes_on { Goes (D.seen depot.old) (D.seen depot.new) }
    ensures given { GivesExactly (D.seen depot.old).files (map string_bytes words.now) result
        (D.seen depot.old).given (D.seen depot.new).given }
    ensures strays { StraysNowhere (D.seen depot.old).files (map string_bytes words.now)
        (D.seen depot.old).strays (D.seen depot.new).strays }
{
    match work_for(alloc, words, depot) {
        Ok(Some(work)) => put(work, sink),
        Ok(None) => write_line(usage(), Status::Usage, sink),
        Err(refusal) => say(alloc, sink, &refusal),
    }
}
