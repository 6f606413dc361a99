//! What the planner comes to.
ghost use Rattle.std.specs.Prelude.{◌≡◌, ◌++◌, ◌<◌, ◌≤◌, IfOk, OnOk, flat_map, length, string_bytes};
ghost use Rattle.dk_config.specs.Checked.{BreaksNoRule, IsChecked, IsWithinLimits};
ghost use Rattle.dk_plan.specs.Base.{AreAsks};
ghost use Rattle.dk_inputs.specs.Jobs.{base, budget};
ghost use Rattle.dk_command.specs.Planner.{ask_line, base_text, budget_text, first_line, utilisation_line};
ghost use Rattle.dk_command.specs.Output.{Fails};
ghost use Rattle.dk_inputs.specs.Follows.{Makes};
ghost use Rattle.dk_command.specs.Work.{Does, IsReady};

use crate::Refusal;
use crate::work::Work;
use dk_config::Config;
use dk_plan::{Ask, best_base, greatest_budget, period_of, utilisation};
use std::alloc::{AllocError, Global};

fn budget_line(alloc: Global, name: &str, answer: Option<u32>) -> Result<String, AllocError>
    ensures { IfOk result (λ s. string_bytes s ≡ budget_text name.now answer) }
{
    match answer {
        Some(budget) => format!(in alloc; "plan: {name} {budget}\n"),
        None => format!(in alloc; "plan: {name} none\n"),
    }
}

/// The greatest budget of the process, whose name is given.
pub fn budget_work(
    alloc: Global,
    config: &Config,
    process: u32,
    name: &str,
) -> Result<Work, Refusal>
    requires unbroken { BreaksNoRule config.now }
    requires checked { IsChecked config.now }
    requires limits { IsWithinLimits config.now }
    requires exists { process < length config.now.processes }
    ensures does { Makes Does Fails result (budget config.now process name.now) }
    ensures ready { IfOk result IsReady }
{
    let line = budget_line(alloc, name, greatest_budget(config, process))?;
    Ok(Work::Lines(line.into_bytes()))
}

fn push_line(text: &mut String, line: &str) -> Result<(), AllocError>
    ensures { OnOk result (string_bytes text.new ≡ string_bytes text.old ++ line.now) }
{
    text.push_str(line)
}

fn base_line(alloc: Global, base: u32) -> Result<String, AllocError>
    ensures { IfOk result (λ s. string_bytes s ≡ first_line base) }
{
    format!(in alloc; "base {base}\n")
}

fn line_of_ask(alloc: Global, base: u32, ask: Ask) -> Result<String, AllocError>
    requires some { 1 ≤ base }
    requires fits { base ≤ ask.period }
    ensures { IfOk result (λ s. string_bytes s ≡ ask_line base ask) }
{
    let got = period_of(base, ask.period);
    let period = ask.period;
    let budget = ask.budget;
    format!(in alloc; "period {period} budget {budget} gets {got}\n")
}

fn push_asks(alloc: Global, text: &mut String, base: u32, asks: &[Ask]) -> Result<(), AllocError>
    requires some { 1 ≤ base }
    requires asks { AreAsks base asks.now }
    ensures { OnOk result (string_bytes text.new ≡ string_bytes text.old ++ flat_map (ask_line base) asks.now) }
{
    for ask in asks {
        let line = line_of_ask(alloc, base, *ask)?;
        push_line(text, line.as_str())?;
    }
    Ok(())
}

fn line_of_utilisation(alloc: Global, ticks: u64, longest: u32) -> Result<String, AllocError>
    ensures { IfOk result (λ s. string_bytes s ≡ utilisation_line ticks longest) }
{
    format!(in alloc; "utilisation {ticks} of {longest}\n")
}

fn base_lines(alloc: Global, base: u32, asks: &[Ask]) -> Result<String, AllocError>
    requires some { 1 ≤ base }
    requires asks { AreAsks base asks.now }
    ensures { IfOk result (λ s. string_bytes s ≡ base_text base asks.now) }
{
    let mut text = base_line(alloc, base)?;
    push_asks(alloc, &mut text, base, asks)?;
    let part = utilisation(base, asks);
    let last = line_of_utilisation(alloc, part.numerator, part.denominator)?;
    push_line(&mut text, last.as_str())?;
    Ok(text)
}

/// The base for the asks, and what each of them gets.
pub fn base_work(alloc: Global, lo: u32, hi: u32, asks: &[Ask]) -> Result<Work, Refusal>
    requires some { 1 ≤ lo }
    requires range { lo ≤ hi }
    requires asks { AreAsks hi asks.now }
    ensures does { Makes Does Fails result (base lo hi asks.now) }
    ensures ready { IfOk result IsReady }
{
    let base = best_base(lo, hi, asks);
    let text = base_lines(alloc, base, asks)?;
    Ok(Work::Lines(text.into_bytes()))
}
