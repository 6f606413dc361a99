//! What a request finds, and what words find.
ghost use Rattle.std.specs.Prelude.{◌≡◌, ◌^◌, ◌<◌, Ok, None, IfOk, IfSome, MatchResult, map, option_map, string_bytes};
ghost use Rattle.dk_request.specs.Meaning.{HasFewTicks, HasFitAsks, MeansNothing};
ghost use Rattle.dk_inputs.specs.Jobs.{job_for_words, job_for};
ghost use Rattle.dk_inputs.specs.Follows.{Finds, CountsStay};
ghost use Rattle.dk_inputs.specs.Inputs.{AreTested, job_of};

use crate::Refusal;
use crate::commands::{
    asm_inputs, audit_inputs, base_inputs, budget_inputs, certify_inputs, dis_inputs, gen_inputs,
    inspect_inputs, ledger_inputs, migrate_inputs, run_inputs,
};
use crate::inputs::Inputs;
use dk_outside::Depot;
use dk_request::{Request, request_in};
use std::alloc::Global;

/// What a request finds.
fn found_for<D: Depot>(alloc: Global, depot: &mut D, request: Request) -> Result<Inputs, Refusal>
    requires room { (D.seen depot.old).given < 2 ^ 62 }
    requires few { HasFewTicks request }
    requires fit { HasFitAsks request }
    ensures found { Finds job_of (D.seen depot.old) (D.seen depot.new) result (job_for request) }
    ensures tested { IfOk result AreTested }
{
    match request {
        Request::Run {
            file,
            ticks,
            output,
        } => run_inputs(alloc, depot, file.as_str(), ticks, output),
        Request::Certify { file } => certify_inputs(alloc, depot, file.as_str()),
        Request::Gen { number, ticks } => gen_inputs(alloc, depot, number, ticks),
        Request::Ledger { file, output } => ledger_inputs(alloc, depot, file.as_str(), output),
        Request::Migrate { file } => migrate_inputs(alloc, depot, file.as_str()),
        Request::Asm { file } => asm_inputs(alloc, depot, file.as_str()),
        Request::Dis { file } => dis_inputs(alloc, depot, file.as_str()),
        Request::Audit { file, ledger } => {
            audit_inputs(alloc, depot, file.as_str(), ledger.as_str())
        }
        Request::Plan { file, name } => budget_inputs(alloc, depot, file.as_str(), name),
        Request::Harmonise { lo, hi, asks } => base_inputs(depot, lo, hi, asks),
        Request::Inspect { file, tick } => inspect_inputs(alloc, depot, file.as_str(), tick),
    }
}

/// The inputs of the command that the words are. None where they are no command, and then nothing is read.
///
/// `Err` is the first refusal in the order of what is read and tested.
pub fn inputs_for<D: Depot>(
    alloc: Global,
    words: &[String],
    depot: &mut D,
) -> Result<Option<Inputs>, Refusal>
    requires { (D.seen depot.old).given < 2 ^ 62 }
    ensures found { Finds (option_map job_of) (D.seen depot.old) (D.seen depot.new) result
        (job_for_words (map string_bytes words.now)) }
    ensures usage_only { result ≡ Ok None → MeansNothing (map string_bytes words.now) }
    ensures usage { MeansNothing (map string_bytes words.now)
        → MatchResult result (λ inputs. inputs ≡ None) (λ e. e ≡ Refusal.NoMemory) }
    ensures unread { MeansNothing (map string_bytes words.now)
        → CountsStay (D.seen depot.old) (D.seen depot.new) }
    ensures tested { IfOk result (λ inputs. IfSome inputs AreTested) }
{
    match request_in(alloc, words)? {
        Some(request) => Ok(Some(found_for(alloc, depot, request)?)),
        None => Ok(None),
    }
}
