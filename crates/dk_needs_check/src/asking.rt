//! The slack that needs ask for.
ghost use Rattle.std.specs.Prelude.{◌≡◌, ◌<◌, length, map, IfOk};
ghost use Rattle.dk_config.specs.Checked.{IsWithinLimits};
ghost use Rattle.dk_needs_check.specs.Meaning.{asked_allotments, most_asked, slack_asked};

use crate::finding::process_named;
use dk_config::{Config, NoMemory};
use dk_needs::{Need, What};
use std::alloc::Global;

/// The slack in each of its windows that the need asks for the process.
fn slack_asked(config: &Config, process: u32, what: &What) -> u32
    requires { IsWithinLimits config.now }
    ensures { result ≡ slack_asked config.now process what.now }
{
    match what {
        What::Slack {
            process: name,
            each,
            ..
        } => match process_named(config, name.as_str()) {
            Some(named) if named == process => *each,
            _ => 0,
        },
        _ => 0,
    }
}

/// The most that one of these needs asks for the process.
fn most_asked(config: &Config, process: u32, needs: &[Need]) -> u32
    requires { IsWithinLimits config.now }
    ensures { result ≡ most_asked config.now needs.now process }
{
    match needs {
        [] => 0,
        [first, rest @ ..] => {
            let asked = slack_asked(config, process, &first.what);
            asked.max(most_asked(config, process, rest))
        }
    }
}

/// Of each process, in the order of the rows, the most slack in each of its windows that one of these needs asks for it.
/// `Err` is want of memory.
pub fn asked_allotments(
    alloc: Global,
    config: &Config,
    needs: &[Need],
) -> Result<Vec<u32>, NoMemory>
    requires { IsWithinLimits config.now }
    ensures asked { IfOk result (λ xs. xs.items ≡ asked_allotments config.now needs.now) }
    ensures one_each { IfOk result (λ xs. length xs.items ≡ length config.now.processes) }
{
    let mut allotments = Vec::new(alloc);
    for process in 0..config.processes.len() as u32 {
        allotments.push(most_asked(config, process, needs))?;
    }
    Ok(allotments)
}
