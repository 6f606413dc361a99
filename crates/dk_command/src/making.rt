//! What the inputs of a command come to, and what words come to.
ghost use Rattle.std.specs.Prelude.{◌≡◌, ◌^◌, ◌<◌, Ok, None, IfOk, IfSome, MatchResult, map, string_bytes};
ghost use Rattle.dk_request.specs.Meaning.{MeansNothing};
ghost use Rattle.dk_inputs.specs.Jobs.{job_for_words};
ghost use Rattle.dk_inputs.specs.Inputs.{AreTested, job_of};
ghost use Rattle.dk_inputs.specs.Follows.{CountsStay, Follows, Makes};
ghost use Rattle.dk_command.specs.Output.{Fails, SomeFails};
ghost use Rattle.dk_command.specs.Work.{Does, IsReady, SomeDoes};

use crate::auditing::audit_work;
use crate::inspecting::state_work;
use crate::ledgers::ledger_work;
use crate::planner::{base_work, budget_work};
use crate::prepare::{certificate_work, document_work, run_work};
use crate::programs::{code_work, source_work};
use crate::work::Work;
use dk_inputs::{Inputs, Refusal, inputs_for};
use dk_outside::Depot;
use std::alloc::Global;

/// What the inputs of a command come to.
fn work_of(alloc: Global, inputs: Inputs) -> Result<Work, Refusal>
    requires { AreTested inputs }
    ensures does { Makes Does Fails result (job_of inputs) }
    ensures ready { IfOk result IsReady }
{
    match inputs {
        Inputs::Run {
            header,
            loaded,
            ticks,
            output,
        } => run_work(alloc, header, loaded, ticks, output),
        Inputs::Certificate { header } => certificate_work(alloc, header),
        Inputs::Ledger { bytes, output } => ledger_work(alloc, bytes, output),
        Inputs::Document { config } => document_work(alloc, config),
        Inputs::Source { bytes } => source_work(alloc, bytes),
        Inputs::Code { bytes } => code_work(alloc, bytes),
        Inputs::Findings { config, bytes } => audit_work(alloc, &config, bytes.as_slice()),
        Inputs::Budget {
            config,
            process,
            name,
        } => budget_work(alloc, &config, process, name.as_str()),
        Inputs::Base { lo, hi, asks } => base_work(alloc, lo, hi, asks.as_slice()),
        Inputs::State {
            header,
            loaded,
            ticks,
        } => state_work(alloc, header, loaded, ticks),
    }
}

/// What the words come to: None where they are no command.
pub fn work_for<D: Depot>(
    alloc: Global,
    words: &[String],
    depot: &mut D,
) -> Result<Option<Work>, Refusal>
    requires { (D.seen depot.old).given < 2 ^ 62 }
    ensures follows { Follows SomeDoes SomeFails (D.seen depot.old) (D.seen depot.new) result
        (job_for_words (map string_bytes words.now)) }
    ensures usage_only { result ≡ Ok None → MeansNothing (map string_bytes words.now) }
    ensures usage { MeansNothing (map string_bytes words.now)
        → MatchResult result (λ work. work ≡ None) (λ e. e ≡ Refusal.NoMemory) }
    ensures unread { MeansNothing (map string_bytes words.now)
        → CountsStay (D.seen depot.old) (D.seen depot.new) }
    ensures ready { IfOk result (λ work. IfSome work IsReady) }
{
    match inputs_for(alloc, words, depot)? {
        Some(inputs) => Ok(Some(work_of(alloc, inputs)?)),
        None => Ok(None),
    }
}
