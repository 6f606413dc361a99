//! The text of a chain.
ghost use Rattle.std.specs.Prelude.{◌≡◌, ◌∷◌, ◌<◌, length, string_bytes, IfOk};
ghost use Rattle.dk_config.specs.Checked.{IsChecked, IsWithinLimits};
ghost use Rattle.dk_config.specs.declared.TheConstants.{MAX_PROCESSES};
ghost use Rattle.dk_chain.specs.Chain.{AreThere};
ghost use Rattle.dk_chain_report.specs.Report.{IsChainText};
ghost use Rattle.dk_chain_report.specs.Spans.{reaction_lines};

use crate::changes::{add_earlier, add_faster, latency_part};
use crate::latency::{Latency, Span, latency_of, span_of, span_part};
use crate::steps::add_steps;
use dk_chain::worst_event;
use dk_config::{Config, NoMemory};
use dk_config_report::{Page, push_line};
use std::alloc::{AllocError, Global};

/// The lines of the whole chain.
fn reaction_lines(alloc: Global, latency: Latency, span: Span) -> Result<String, AllocError>
    ensures { IfOk result (λ s. string_bytes s ≡ reaction_lines latency span) }
{
    let mut lines = latency_part(alloc, latency)?;
    push_line(&mut lines, span_part(alloc, span)?)?;
    Ok(lines)
}

/// When each process of a chain answers the event that has to wait longest, a line each; how long the chain takes at most
/// and at least, and behind that what was measured of it, as whole lines; and a line for each single change of a row with which it would
/// react sooner. The configuration is changed for each trial, and is afterwards as it was. `Err` is want of memory.
pub fn chain_report(
    alloc: Global,
    config: &mut Config,
    first: u32,
    rest: &[u32],
    measured: &str,
) -> Result<Page, NoMemory>
    requires checked { IsChecked config.old }
    requires limits { IsWithinLimits config.old }
    requires there { AreThere config.old (first ∷ rest.now) }
    requires few { length rest.now < MAX_PROCESSES }
    ensures text { IfOk result (λ page. IsChainText config.old first rest.now measured.now page) }
    ensures same { config.new ≡ config.old }
{
    let latency = latency_of(config, first, rest);
    let span = span_of(config, first, rest, latency);
    let mut text = String::new(alloc);
    add_steps(
        alloc,
        &mut text,
        config,
        first,
        rest,
        worst_event(config, first, rest),
    )?;
    push_line(&mut text, reaction_lines(alloc, latency, span)?)?;
    text.push_str(measured)?;
    add_earlier(alloc, &mut text, config, first, rest, latency.reaction)?;
    add_faster(alloc, &mut text, config, first, rest, latency.reaction)?;
    push_line(&mut text, String::from_str(alloc, "end\n")?)?;
    Ok(Page::new(text))
}
