//! All that is wrong with a configuration, a line each.
ghost use Rattle.std.specs.Prelude.{◌≡◌, ◌++◌, flat_map, string_bytes, IfOk, OnOk};
ghost use Rattle.dk_faults.specs.Faults.{HasFewRows};
ghost use Rattle.dk_config.specs.Configuration.{Configuration};
ghost use Rattle.dk_config.specs.declared.fault.ConfigFault.{ConfigFault};
ghost use Rattle.dk_config_report.specs.Allowed.{TellsBounds};
ghost use Rattle.dk_config_report.specs.Following.{StaysAllowed};
ghost use Rattle.dk_config_report.specs.FaultLines.{count_line, fault_line, fault_who, fault_why, faults_text};

use crate::allowed::{allowed_at, allowed_text};
use crate::following::{follows_from, mark_text};
use crate::page::{Page, push_line};
use crate::values::{value_at, value_text, who};
use dk_config::{Config, ConfigFault, NoMemory};
use dk_fault_words::fault_head;
use std::alloc::{AllocError, Global};

fn fault_who(alloc: Global, config: &Config, fault: ConfigFault) -> Result<String, AllocError>
    requires few { HasFewRows config.now }
    ensures { IfOk result (λ s. string_bytes s ≡ fault_who config.now fault) }
{
    let name = who(config, fault.section, fault.row);
    let value = value_at(config, fault.section, fault.row, fault.field);
    let value = value_text(alloc, value)?;
    let value = value.as_str();
    format!(in alloc; ": {name}{value}")
}

fn fault_why(
    alloc: Global,
    config: &Config,
    found: &[ConfigFault],
    fault: ConfigFault,
) -> Result<String, AllocError>
    requires few { HasFewRows config.now }
    ensures { IfOk result (λ s. string_bytes s ≡ fault_why config.now found.now fault) }
{
    let allowed = allowed_text(alloc, allowed_at(config, fault))?;
    let mark = mark_text(alloc, follows_from(found, fault))?;
    let allowed = allowed.as_str();
    let mark = mark.as_str();
    format!(in alloc; "{allowed}{mark}\n")
}

fn line_of_parts(alloc: Global, head: &str, who: &str, why: &str) -> Result<String, AllocError>
    ensures { IfOk result (λ s. string_bytes s ≡ head.now ++ (who.now ++ why.now)) }
{
    format!(in alloc; "{head}{who}{why}")
}

fn fault_line(
    alloc: Global,
    config: &Config,
    found: &[ConfigFault],
    fault: ConfigFault,
) -> Result<String, AllocError>
    requires few { HasFewRows config.now }
    ensures { IfOk result (λ s. string_bytes s ≡ fault_line config.now found.now fault) }
{
    let head = fault_head(alloc, fault)?;
    let who = fault_who(alloc, config, fault)?;
    let why = fault_why(alloc, config, found, fault)?;
    line_of_parts(alloc, head.as_str(), who.as_str(), why.as_str())
}

fn add_faults(
    alloc: Global,
    text: &mut String,
    config: &Config,
    found: &[ConfigFault],
) -> Result<(), AllocError>
    requires few { HasFewRows config.now }
    ensures { OnOk result (string_bytes text.new ≡ string_bytes text.old ++ flat_map (fault_line config.now found.now) found.now) }
{
    for fault in found {
        let line = fault_line(alloc, config, found, *fault)?;
        push_line(text, line)?;
    }
    Ok(())
}

fn count_line(alloc: Global, count: usize) -> Result<String, AllocError>
    ensures { IfOk result (λ s. string_bytes s ≡ count_line count) }
{
    format!(in alloc; "faults {count}\n")
}

/// All of the rules C4 to C13 that the configuration breaks, a line each: the line of a refusal, then the process or
/// mutex by its name, the value and what is allowed, and the first fault that names a number of which that is made. The last
/// line has the number of faults. `Err` is want of memory.
pub fn faults(alloc: Global, config: &Config) -> Result<Page, NoMemory>
    requires few { HasFewRows config.now }
    ensures text { IfOk result (λ page. page ≡ faults_text config.now) }
    // A number that is told isn't one of those told to be allowed, in any configuration.
    ensures bounds { (c : Configuration) → TellsBounds c }
    // What is told to be allowed is made of no other numbers than those whose faults are told behind it.
    ensures stays { (c : Configuration) (f : ConfigFault) → StaysAllowed c f }
{
    let found = dk_faults::faults(alloc, config)?;
    let mut text = String::new(alloc);
    add_faults(alloc, &mut text, config, &found)?;
    push_line(&mut text, count_line(alloc, found.len())?)?;
    Ok(Page::new(text))
}
