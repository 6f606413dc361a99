//! What the words and the files come to: what is written, and the status once it is.
ghost use Rattle.std.specs.Prelude.{◌≡◌, ◌≢◌, ◌≤◌, ◌<◌, ◌^◌, IfOk, IfSome, IsErrOf, Err, Some, length, map, option_map, string_bytes};
ghost use Rattle.dk_config.specs.declared.TheConstants.{MAX_CONFIG_BYTES};
ghost use Rattle.dk_outside.specs.Counts.{Rises};
ghost use Rattle.dk_outside.specs.declared.depot.DepotError.{DepotError};
ghost use Rattle.dk_page_prog.specs.Answers.{IsAnswerTo, IsAnswered, IsAsked, IsOfAll, IsOfFiles, IsOfMore, IsOfReview, IsOfShort, IsToldOrUsage, Says, ended_of, ends_text, line_text, long_ended, long_text, program_text};
ghost use Rattle.dk_page_prog.specs.Asking.{asking_of};
ghost use Rattle.dk_page_prog.specs.Help.{told_by};
ghost use Rattle.dk_review.specs.Files.{file_of};
ghost use Rattle.dk_review.specs.Reviews.{IsReview};

use crate::asking::{Asked, asked_by};
use crate::files::{Held, LongFile, first_long, named, read_files};
use crate::help::{USAGE, told_by};
use crate::repeating::more_of;
use crate::status::Answered;
use dk_loader::LoadFault;
use dk_outside::{Depot, DepotError};
use dk_page::Additions;
use dk_review::{Ending, NamedFile, Range, RunFault, review_of, review_with};
use std::alloc::{AllocError, Global};

/// What is written, and what the call came to once it is.
#[derive(Drop)]
pub struct Answer {
    pub bytes: Vec<u8>,
    pub ended: Answered,
}

fn ended_of(ending: Ending) -> Answered
    ensures { result ≡ ended_of ending }
{
    match ending {
        Ending::Certified => Answered::Done,
        Ending::Failing => Answered::Refused,
        Ending::Uncertified => Answered::Uncertified,
        Ending::Refused => Answered::Config,
    }
}

fn words_answer(alloc: Global, words: &str, ended: Answered) -> Result<Answer, DepotError>
    ensures is { IfOk result (Says words.now ended) }
    ensures memory { result ≢ Err DepotError.Failed }
{
    let bytes = words.as_bytes().to_vec(alloc)?;
    Ok(Answer { bytes, ended })
}

fn long_answer(alloc: Global, long: LongFile) -> Result<Answer, DepotError>
    ensures is { IfOk result (Says (long_text long) (long_ended long)) }
    ensures memory { result ≢ Err DepotError.Failed }
{
    match long {
        LongFile::Config => {
            words_answer(alloc, "config: longer than 65536 bytes\n", Answered::Config)
        }
        LongFile::Needs => {
            words_answer(alloc, "needs: longer than 65536 bytes\n", Answered::Config)
        }
        LongFile::Ledger => {
            words_answer(
                alloc,
                "ledger: longer than 1073741824 bytes\n",
                Answered::Refused,
            )
        }
    }
}

fn line_text(alloc: Global, line: u32) -> Result<String, AllocError>
    ensures { IfOk result (λ s. string_bytes s ≡ line_text line) }
{
    format!(in alloc; "ledger: line {line}\n")
}

fn line_answer(alloc: Global, line: u32) -> Result<Answer, DepotError>
    ensures is { IfOk result (Says (line_text line) Answered.Refused) }
    ensures memory { result ≢ Err DepotError.Failed }
{
    let bytes = line_text(alloc, line)?.into_bytes();
    let ended = Answered::Refused;
    Ok(Answer { bytes, ended })
}

fn ends_text(alloc: Global, ticks: u32) -> Result<String, AllocError>
    ensures { IfOk result (λ s. string_bytes s ≡ ends_text ticks) }
{
    format!(in alloc; "range: ledger ends at {ticks}\n")
}

fn ends_answer(alloc: Global, ticks: u32) -> Result<Answer, DepotError>
    ensures is { IfOk result (Says (ends_text ticks) Answered.Refused) }
    ensures memory { result ≢ Err DepotError.Failed }
{
    let bytes = ends_text(alloc, ticks)?.into_bytes();
    let ended = Answered::Refused;
    Ok(Answer { bytes, ended })
}

/// The page without a ledger.
fn of_document(
    alloc: Global,
    file: NamedFile,
    needs: Option<NamedFile>,
    more: &Additions,
) -> Result<Answer, DepotError>
    requires few { length file.bytes.now ≤ MAX_CONFIG_BYTES }
    requires short { IfSome needs (λ n. length n.bytes.now ≤ MAX_CONFIG_BYTES) }
    ensures is { IfOk result (IsOfReview (IsReview (file_of file.entry) (option_map file_of needs.entry) more.now)) }
    ensures memory { result ≢ Err DepotError.Failed }
{
    match review_of(alloc, file, needs, more) {
        Ok(review) => Ok(Answer {
            bytes: review.bytes,
            ended: ended_of(review.ending),
        }),
        Err(_) => Err(DepotError::NoMemory),
    }
}

/// The page with a ledger, or why there is none.
fn of_both(
    alloc: Global,
    file: NamedFile,
    needs: Option<NamedFile>,
    ledger: NamedFile,
    range: Option<Range>,
    more: &Additions,
) -> Result<Answer, DepotError>
    requires few { length file.bytes.now ≤ MAX_CONFIG_BYTES }
    requires short { IfSome needs (λ n. length n.bytes.now ≤ MAX_CONFIG_BYTES) }
    ensures is { IfOk result (IsOfAll (file_of file.entry) (option_map file_of needs.entry) (Some (file_of ledger.entry)) range more.now) }
    ensures memory { result ≢ Err DepotError.Failed }
{
    match review_with(alloc, file, needs, ledger, range, more) {
        Ok(review) => Ok(Answer {
            bytes: review.bytes,
            ended: ended_of(review.ending),
        }),
        Err(RunFault::Line(line)) => line_answer(alloc, line),
        Err(RunFault::Ends(ticks)) => ends_answer(alloc, ticks),
        Err(RunFault::Other) => {
            words_answer(
                alloc,
                "ledger: of another configuration\n",
                Answered::Refused,
            )
        }
        Err(RunFault::NoMemory) => Err(DepotError::NoMemory),
    }
}

fn of_all(
    alloc: Global,
    file: NamedFile,
    needs: Option<NamedFile>,
    ledger: Option<NamedFile>,
    range: Option<Range>,
    more: &Additions,
) -> Result<Answer, DepotError>
    requires few { length file.bytes.now ≤ MAX_CONFIG_BYTES }
    requires short { IfSome needs (λ n. length n.bytes.now ≤ MAX_CONFIG_BYTES) }
    ensures is { IfOk result (IsOfAll (file_of file.entry) (option_map file_of needs.entry) (option_map file_of ledger.entry) range more.now) }
    ensures memory { result ≢ Err DepotError.Failed }
{
    match ledger {
        Some(ledger) => of_both(alloc, file, needs, ledger, range, more),
        None => of_document(alloc, file, needs, more),
    }
}

fn program_text(alloc: Global, process: u32) -> Result<String, AllocError>
    ensures { IfOk result (λ s. string_bytes s ≡ program_text process) }
{
    format!(in alloc; "program: process {process} longer than 65536 bytes\n")
}

fn program_answer(alloc: Global, process: u32) -> Result<Answer, DepotError>
    ensures is { IfOk result (Says (program_text process) Answered.Refused) }
    ensures memory { result ≢ Err DepotError.Failed }
{
    let bytes = program_text(alloc, process)?.into_bytes();
    let ended = Answered::Refused;
    Ok(Answer { bytes, ended })
}

/// What the files come to, with more that the page has.
fn of_more(alloc: Global, asked: Asked, held: &Held, more: &Additions) -> Result<Answer, DepotError>
    requires few { length held.now.document.items ≤ MAX_CONFIG_BYTES }
    requires short { length held.now.needs.items ≤ MAX_CONFIG_BYTES }
    ensures is { IfOk result (IsOfMore (asking_of asked.entry) held.now.document.items held.now.needs.items held.now.ledger.items more.now) }
    ensures memory { result ≢ Err DepotError.Failed }
{
    let file = NamedFile {
        name: asked.name,
        bytes: held.document.as_slice(),
    };
    let needs = named(asked.needs, held.needs.as_slice());
    let ledger = named(asked.ledger, held.ledger.as_slice());
    of_all(alloc, file, needs, ledger, asked.range, more)
}

/// What files come to of which none is too long.
fn of_short<D: Depot>(
    alloc: Global,
    asked: Asked,
    held: &Held,
    depot: &mut D,
) -> Result<Answer, DepotError>
    requires few { length held.now.document.items ≤ MAX_CONFIG_BYTES }
    requires short { length held.now.needs.items ≤ MAX_CONFIG_BYTES }
    requires given { (D.seen depot.old).given < 2 ^ 63 }
    ensures is { IfSome (D.seen depot.old).files (λ at. IfOk result
        (IsOfShort at (asking_of asked.entry) held.now.document.items held.now.needs.items held.now.ledger.items)) }
    ensures cause { IsErrOf result DepotError.Failed → Rises (D.seen depot.old).faults (D.seen depot.new).faults }
    ensures stays { result ≢ Err DepotError.Failed → (D.seen depot.new).faults ≡ (D.seen depot.old).faults }
    ensures same { (D.seen depot.new).files ≡ (D.seen depot.old).files }
{
    match more_of(
        alloc,
        asked.name,
        held.document.as_slice(),
        asked.repeats,
        depot,
    ) {
        Ok(more) => of_more(alloc, asked, held, &more),
        Err(LoadFault::TooLong(process)) => program_answer(alloc, process),
        Err(LoadFault::Depot) => Err(DepotError::Failed),
        Err(_) => Err(DepotError::NoMemory),
    }
}

fn of_files<D: Depot>(
    alloc: Global,
    asked: Asked,
    held: &Held,
    depot: &mut D,
) -> Result<Answer, DepotError>
    requires given { (D.seen depot.old).given < 2 ^ 63 }
    ensures is { IfSome (D.seen depot.old).files (λ at. IfOk result
        (λ a. IsOfFiles at (asking_of asked.entry) a held.now.document.items held.now.needs.items held.now.ledger.items)) }
    ensures cause { IsErrOf result DepotError.Failed → Rises (D.seen depot.old).faults (D.seen depot.new).faults }
    ensures stays { result ≢ Err DepotError.Failed → (D.seen depot.new).faults ≡ (D.seen depot.old).faults }
    ensures same { (D.seen depot.new).files ≡ (D.seen depot.old).files }
{
    match first_long(
        held.document.as_slice(),
        held.needs.as_slice(),
        held.ledger.as_slice(),
    ) {
        Some(long) => long_answer(alloc, long),
        None => of_short(alloc, asked, held, depot),
    }
}

/// What the files come to that are asked for.
fn of_asked<D: Depot>(alloc: Global, asked: Asked, depot: &mut D) -> Result<Answer, DepotError>
    requires { (D.seen depot.old).given < 2 ^ 62 }
    ensures is { IfSome (D.seen depot.old).files (λ at. IfOk result (IsAsked at (asking_of asked.entry))) }
    ensures cause { IsErrOf result DepotError.Failed → Rises (D.seen depot.old).faults (D.seen depot.new).faults }
    ensures stays { result ≢ Err DepotError.Failed → (D.seen depot.new).faults ≡ (D.seen depot.old).faults }
    ensures same { (D.seen depot.new).files ≡ (D.seen depot.old).files }
{
    let held = read_files(alloc, asked, depot)?;
    of_files(alloc, asked, &held, depot)
}

/// What the program tells of itself, where the words ask for that, and else the usage line.
fn told_answer(alloc: Global, words: &[String]) -> Result<Answer, DepotError>
    ensures is { IfOk result (IsToldOrUsage (told_by (map string_bytes words.now))) }
    ensures memory { result ≢ Err DepotError.Failed }
{
    match told_by(words) {
        Some(text) => words_answer(alloc, text, Answered::Done),
        None => words_answer(alloc, USAGE, Answered::Usage),
    }
}

/// What the words and the files come to, or why they come to nothing: a read failed, or want of memory.
pub(crate) fn answer_to<D: Depot>(
    alloc: Global,
    words: &[String],
    depot: &mut D,
) -> Result<Answer, DepotError>
    requires { (D.seen depot.old).given < 2 ^ 62 }
    ensures is { IfSome (D.seen depot.old).files (λ at. IfOk result (IsAnswered (map string_bytes words.now) at)) }
    ensures cause { IsErrOf result DepotError.Failed → Rises (D.seen depot.old).faults (D.seen depot.new).faults }
    ensures stays { result ≢ Err DepotError.Failed → (D.seen depot.new).faults ≡ (D.seen depot.old).faults }
    ensures same { (D.seen depot.new).files ≡ (D.seen depot.old).files }
{
    match asked_by(words) {
        Some(asked) => of_asked(alloc, asked, depot),
        None => told_answer(alloc, words),
    }
}
