//! The names of the processes.
ghost use Rattle.std.specs.Prelude.{◌≡◌, IfOk};
ghost use Rattle.dk_config.specs.Checked.{IsWithinLimits};
ghost use Rattle.dk_needs_text.specs.Names.{AreNamed, process_names};

use dk_config::{Config, NoMemory, Text};
use std::alloc::{AllocError, Global};

fn copy_of(alloc: Global, word: &str) -> Result<Text, AllocError>
    ensures { IfOk result (λ text. text ≡ word.now) }
{
    Ok(Text::new(String::from_str(alloc, word)?))
}

/// The names of all rows.
fn copies_of(alloc: Global, config: &Config) -> Result<Vec<Text>, NoMemory>
    ensures { IfOk result (λ names. names.items ≡ process_names config.now) }
{
    let mut names = Vec::new(alloc);
    for row in config.processes.iter() {
        names.push(copy_of(alloc, row.name.as_str())?)?;
    }
    Ok(names)
}

/// The names of the configuration's processes, in the order of the rows. `Err` is want of memory.
pub fn process_names(alloc: Global, config: &Config) -> Result<Vec<Text>, NoMemory>
    requires limits { IsWithinLimits config.now }
    ensures names { IfOk result (λ names. names.items ≡ process_names config.now) }
    ensures named { IfOk result (λ names. AreNamed names.items) }
{
    copies_of(alloc, config)
}
