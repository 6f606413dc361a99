//! How long a chain takes.
ghost use Rattle.std.specs.Prelude.{◌≡◌, ◌∷◌, ◌<◌, length, string_bytes, IfOk};
ghost use Rattle.dk_config.specs.Checked.{IsChecked, IsWithinLimits};
ghost use Rattle.dk_config.specs.declared.TheConstants.{MAX_PROCESSES};
ghost use Rattle.dk_chain.specs.Chain.{AreThere};
ghost use Rattle.dk_chain_report.specs.Changes.{IsLatency};
ghost use Rattle.dk_chain_report.specs.Spans.{IsSpan, span_part};

use dk_chain::{data_age, reaction, shortest_reaction};
use dk_config::Config;
use std::alloc::{AllocError, Global};

/// How long a chain takes, in ticks.
#[derive(Clone, Copy)]
pub struct Latency {
    /// Within so many it has answered each event.
    pub reaction: u64,
    /// The data that its last process works with is at most so old.
    pub age: u64,
}

pub(crate) fn latency_of(config: &Config, first: u32, rest: &[u32]) -> Latency
    requires checked { IsChecked config.now }
    requires limits { IsWithinLimits config.now }
    requires there { AreThere config.now (first ∷ rest.now) }
    requires few { length rest.now < MAX_PROCESSES }
    ensures { IsLatency config.now first rest.now result }
{
    Latency {
        reaction: reaction(config, first, rest),
        age: data_age(config, first, rest),
    }
}

/// How soon a chain can have answered, in ticks.
#[derive(Clone, Copy)]
pub struct Span {
    /// In fewer it has answered no event, where each job has its whole budget.
    pub shortest: u64,
    /// By so many its reaction time may vary.
    pub jitter: u64,
}

pub(crate) fn span_of(config: &Config, first: u32, rest: &[u32], latency: Latency) -> Span
    requires checked { IsChecked config.now }
    requires limits { IsWithinLimits config.now }
    requires there { AreThere config.now (first ∷ rest.now) }
    requires few { length rest.now < MAX_PROCESSES }
    ensures { IsSpan config.now first rest.now latency result }
{
    let shortest = shortest_reaction(config, first, rest);
    Span {
        shortest,
        jitter: latency.reaction.saturating_sub(shortest),
    }
}

pub(crate) fn span_part(alloc: Global, span: Span) -> Result<String, AllocError>
    ensures { IfOk result (λ s. string_bytes s ≡ span_part span) }
{
    let shortest = span.shortest;
    let jitter = span.jitter;
    format!(in alloc; "shortest {shortest} jitter {jitter}\n")
}
