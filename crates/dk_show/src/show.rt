//! The top call.
ghost use Rattle.std.specs.Prelude.{ℕ, List, ◌≡◌, ◌≢◌, ◌⊎◌, ◌^◌, ◌<◌, ◌≤◌, IfSome, map, string_bytes, true, ◌+◌, ◌++◌, IfOk, Some};
ghost use Rattle.dk_outside.specs.Counts.{Rises};
ghost use Rattle.dk_show.specs.Answers.{IsAnswer, IsEnd, IsFault, IsFaulty, is_silent, refusal_status};
ghost use Rattle.dk_show.specs.Asking.{Misses, WordsMiss, handed_for, handed_for_words};
ghost use Rattle.dk_show.specs.Leaves.{Leaves};
ghost use Rattle.dk_show_request.specs.Meaning.{DrawsNothing, KeepsLimits, IsSought, MeansNothing, meaning};
ghost use Rattle.dk_show_request.specs.Reasons.{wrong_text};
ghost use Rattle.dk_show_request.specs.Usage.{usage_text};
ghost use Rattle.dk_show.specs.Output.{IsOfRequest, IsOutput, IsUsage, Says, StandsInOutput};
ghost use Rattle.dk_show.specs.Works.{HasText, IsRangeReady, IsReady, IsWhole, ended_of};

use crate::making::work_for;
use crate::work::{RangeWork, Work, draw};
use crate::{Refusal, Status};
use dk_config_report::Page;
use dk_groups::WriteFault;
use dk_outside::{Depot, Sink, write_all_to};
use dk_show_request::{Request, meaning, usage, wrong_words};
use std::alloc::{AllocError, Global};

/// Writes a line.
fn write_line<S: Sink>(line: &str, ended: Status, sink: &mut S) -> Status
    requires { IsAnswer ended }
    ensures left { Leaves S.seen (λ text s. (text ≡ line.now) × (s ≡ ended))
        sink.old sink.new result }
    ensures only { (result ≡ ended) ⊎ (result ≡ Status.SinkFault) }
{
    match write_all_to(sink, line.as_bytes()) {
        Ok(()) => ended,
        Err(_) => Status::SinkFault,
    }
}

/// Writes why a command is refused. A read that failed and want of memory have no text.
fn say<S: Sink>(alloc: Global, sink: &mut S, refusal: &Refusal) -> Status
    ensures left { Leaves S.seen (Says refusal.now) sink.old sink.new result }
    ensures silent { is_silent refusal.now ≡ true → result ≡ refusal_status refusal.now }
    ensures only { (result ≡ refusal_status refusal.now) ⊎ IsFault result }
    ensures depot { result ≡ Status.DepotFault → refusal.now ≡ Refusal.Depot }
    ensures read { refusal.now ≡ Refusal.Depot → result ≡ Status.DepotFault }
    ensures usage { result ≢ Status.Usage }
    ensures untouched { result ≡ Status.NoMemory → sink.new ≡ sink.old }
{
    match refusal {
        Refusal::Depot => Status::DepotFault,
        Refusal::NoMemory => Status::NoMemory,
        refusal => match refusal.text(alloc) {
            Ok(text) => write_line(text.as_str(), refusal.status(), sink),
            Err(_) => Status::NoMemory,
        },
    }
}

/// Writes a drawing.
fn put_drawing<S: Sink>(alloc: Global, work: &RangeWork, sink: &mut S) -> Status
    requires { IsRangeReady work.now }
    ensures left { Leaves S.seen (λ text s. HasText (Work.Draw work.now) text
        × (s ≡ Status.Done)) sink.old sink.new result }
    ensures only { (result ≡ Status.Done) ⊎ IsFault result }
{
    match draw(alloc, work, sink) {
        Ok(()) => Status::Done,
        Err(WriteFault::Sink) => Status::SinkFault,
        Err(WriteFault::NoMemory) => Status::NoMemory,
    }
}

/// Writes a page.
fn put_page<S: Sink>(page: &Page, ended: Status, sink: &mut S) -> Status
    requires { IsEnd ended }
    ensures left { Leaves S.seen (λ text s. (text ≡ page.now) × (s ≡ ended))
        sink.old sink.new result }
    ensures only { (result ≡ ended) ⊎ (result ≡ Status.SinkFault) }
{
    match page.write(sink) {
        Ok(()) => ended,
        Err(_) => Status::SinkFault,
    }
}

/// Writes the bytes of a text.
fn put_bytes<S: Sink>(bytes: &[u8], ended: Status, sink: &mut S) -> Status
    requires { IsEnd ended }
    ensures left { Leaves S.seen (λ text s. (text ≡ bytes.now) × (s ≡ ended))
        sink.old sink.new result }
    ensures only { (result ≡ ended) ⊎ (result ≡ Status.SinkFault) }
{
    match write_all_to(sink, bytes) {
        Ok(()) => ended,
        Err(_) => Status::SinkFault,
    }
}

/// Writes what is ready.
fn put<S: Sink>(alloc: Global, work: &Work, sink: &mut S) -> Status
    requires { IsReady work.now }
    ensures left { Leaves S.seen (λ text s. HasText work.now text × (s ≡ ended_of work.now))
        sink.old sink.new result }
    ensures usage { result ≢ Status.Usage }
    ensures depot { result ≢ Status.DepotFault }
    ensures whole { IsWhole work.now → result ≢ Status.NoMemory }
{
    match work {
        Work::Draw(work) => put_drawing(alloc, work, sink),
        Work::Page(page, ended) => put_page(page, *ended, sink),
        Work::Bytes(bytes, ended) => put_bytes(bytes.as_slice(), *ended, sink),
    }
}

/// The usage line, and behind it why the words mean nothing.
fn usage_of(alloc: Global, words: &[String]) -> Result<String, AllocError>
    ensures { IfOk result (λ s. string_bytes s ≡ usage_text ++ wrong_text (map string_bytes words.now)) }
{
    let mut text = usage(alloc)?;
    let why = wrong_words(alloc, words)?;
    text.push_str(why.as_str())?;
    Ok(text)
}

/// Writes the usage line, and why the words mean nothing.
fn say_usage<S: Sink>(alloc: Global, words: &[String], sink: &mut S) -> Status
    ensures left { Leaves S.seen (IsUsage (map string_bytes words.now)) sink.old sink.new result }
    ensures only { (result ≡ Status.Usage) ⊎ IsFault result }
    ensures depot { result ≢ Status.DepotFault }
    ensures untouched { result ≡ Status.NoMemory → sink.new ≡ sink.old }
{
    match usage_of(alloc, words) {
        Ok(text) => write_line(text.as_str(), Status::Usage, sink),
        Err(_) => Status::NoMemory,
    }
}

/// Does what is asked for.
fn perform<D: Depot, S: Sink>(
    alloc: Global,
    request: &Request,
    depot: &mut D,
    sink: &mut S,
) -> Status
    requires given { (D.seen depot.old).given < 2 ^ 62 }
    requires few { KeepsLimits request.now }
    ensures output { Leaves S.seen (λ text s. IfSome (D.seen depot.old).files (λ at. IsOfRequest request.now at text s))
        sink.old sink.new result }
    ensures complete { IfSome (D.seen depot.old).files (λ at. (text : List ℕ) → ¬ IsSought (Some request.now)
        → IsOfRequest request.now at text Status.Done → (result ≡ Status.Done) ⊎ IsFaulty result) }
    ensures untouched { DrawsNothing request.now → result ≡ Status.NoMemory → sink.new ≡ sink.old }
    ensures usage { result ≢ Status.Usage }
    ensures depot_fault { result ≡ Status.DepotFault → Rises (D.seen depot.old).faults (D.seen depot.new).faults }
    ensures sink_fault { result ≡ Status.SinkFault → Rises (S.seen sink.old).faults (S.seen sink.new).faults }
    ensures no_read_failed { result ≢ Status.DepotFault → (D.seen depot.new).faults ≡ (D.seen depot.old).faults }
    ensures no_write_failed { result ≢ Status.SinkFault → (S.seen sink.new).faults ≡ (S.seen sink.old).faults }
    ensures faults { (D.seen depot.old).faults ≤ (D.seen depot.new).faults }
    ensures given { IfSome (D.seen depot.old).files (λ at. result ≢ Status.DepotFault → result ≢ Status.NoMemory
        → (D.seen depot.new).given ≡ (D.seen depot.old).given + handed_for request.now at) }
    ensures strays { IfSome (D.seen depot.old).files (λ at. ¬ Misses request.now at
        → (D.seen depot.new).strays ≡ (D.seen depot.old).strays) }
    ensures same { (D.seen depot.new).files ≡ (D.seen depot.old).files }
{
    match work_for(alloc, request, depot) {
        Ok(work) => put(alloc, &work, sink),
        Err(refusal) => say(alloc, sink, &refusal),
    }
}

/// Does what the words say. The first word is the program's name and isn't looked at.
pub fn deosk_show<D: Depot, S: Sink>(
    alloc: Global,
    words: &[String],
    depot: &mut D,
    sink: &mut S,
) -> Status
    requires { (D.seen depot.old).given < 2 ^ 62 }

    // What is appended, and the status, stand in Output with the words and the files. Where a write failed, a prefix of
    // what stands there was appended; where memory ran out, nothing or such a prefix; where a read failed, nothing.
    ensures output { Leaves S.seen (StandsInOutput (D.seen depot.old).files (map string_bytes words.now))
        sink.old sink.new result }
    // Where a text stands in Output with Done, no other answer comes than a failed read or write or want of memory. What is
    // sought in so many ticks may stand there and not be found.
    ensures complete { IfSome (D.seen depot.old).files (λ at. (text : List ℕ) → ¬ IsSought (meaning (map string_bytes words.now))
        → IsOutput (map string_bytes words.now) at text Status.Done → (result ≡ Status.Done) ⊎ IsFaulty result) }
    // All memory is taken before the first write, but for a drawing, which is written line by line.
    ensures untouched { IfSome (meaning (map string_bytes words.now)) DrawsNothing → result ≡ Status.NoMemory
        → sink.new ≡ sink.old }
    // Usage by the words alone.
    ensures usage { MeansNothing (map string_bytes words.now) → (result ≡ Status.Usage) ⊎ IsFault result }
    ensures usage_only { result ≡ Status.Usage → MeansNothing (map string_bytes words.now) }
    ensures depot_fault { result ≡ Status.DepotFault → Rises (D.seen depot.old).faults (D.seen depot.new).faults }
    ensures sink_fault { result ≡ Status.SinkFault → Rises (S.seen sink.old).faults (S.seen sink.new).faults }
    // No failed read and no failed write is swallowed: with any other answer none failed.
    ensures no_read_failed { result ≢ Status.DepotFault → (D.seen depot.new).faults ≡ (D.seen depot.old).faults }
    ensures no_write_failed { result ≢ Status.SinkFault → (S.seen sink.new).faults ≡ (S.seen sink.old).faults }
    ensures faults { (D.seen depot.old).faults ≤ (D.seen depot.new).faults }
    // Unless a read failed or memory ran out, exactly the bytes were handed out that the command asks for. No read strays
    // where no file that it asks for is missing.
    ensures given { IfSome (D.seen depot.old).files (λ at. result ≢ Status.DepotFault → result ≢ Status.NoMemory
        → (D.seen depot.new).given ≡ (D.seen depot.old).given + handed_for_words (meaning (map string_bytes words.now)) at) }
    ensures strays { IfSome (D.seen depot.old).files (λ at. ¬ WordsMiss (meaning (map string_bytes words.now)) at
        → (D.seen depot.new).strays ≡ (D.seen depot.old).strays) }
    ensures same { (D.seen depot.new).files ≡ (D.seen depot.old).files }
{
    match meaning(alloc, words) {
        Ok(Some(request)) => perform(alloc, &request, depot, sink),
        Ok(None) => say_usage(alloc, words, sink),
        Err(_) => Status::NoMemory,
    }
}
