//! A copy of a configuration.
ghost use Rattle.std.specs.Prelude.{◌≡◌, IfOk};

use dk_config::{Config, MutexRow, NoMemory, ProcessRow, Text};
use std::alloc::Global;

fn text_of(alloc: Global, text: &Text) -> Result<Text, NoMemory>
    ensures { IfOk result (λ copy. copy ≡ text.now) }
{
    let copy = String::from_str(alloc, text.as_str())?;
    Ok(Text::new(copy))
}

fn texts_of(alloc: Global, texts: &[Text]) -> Result<Vec<Text>, NoMemory>
    ensures { IfOk result (λ copies. copies.items ≡ texts.now) }
{
    let mut copies = Vec::new(alloc);
    for text in texts {
        copies.push(text_of(alloc, text)?)?;
    }
    Ok(copies)
}

fn process_of(alloc: Global, row: &ProcessRow) -> Result<ProcessRow, NoMemory>
    ensures { IfOk result (λ copy. copy ≡ row.now) }
{
    let name = text_of(alloc, &row.name)?;
    let program = text_of(alloc, &row.program)?;
    Ok(ProcessRow {
        name,
        program,
        level: row.level,
        budget: row.budget,
        memory: row.memory,
        threads: row.threads,
        slack: row.slack,
        max_level: row.max_level,
    })
}

fn processes_of(alloc: Global, rows: &[ProcessRow]) -> Result<Vec<ProcessRow>, NoMemory>
    ensures { IfOk result (λ copies. copies.items ≡ rows.now) }
{
    let mut copies = Vec::new(alloc);
    for row in rows {
        copies.push(process_of(alloc, row)?)?;
    }
    Ok(copies)
}

fn mutex_of(alloc: Global, row: &MutexRow) -> Result<MutexRow, NoMemory>
    ensures { IfOk result (λ copy. copy ≡ row.now) }
{
    let name = text_of(alloc, &row.name)?;
    let users = texts_of(alloc, row.users.as_slice())?;
    Ok(MutexRow {
        name,
        ceiling: row.ceiling,
        hold: row.hold,
        users,
    })
}

fn mutexes_of(alloc: Global, rows: &[MutexRow]) -> Result<Vec<MutexRow>, NoMemory>
    ensures { IfOk result (λ copies. copies.items ≡ rows.now) }
{
    let mut copies = Vec::new(alloc);
    for row in rows {
        copies.push(mutex_of(alloc, row)?)?;
    }
    Ok(copies)
}

/// A copy of the whole.
pub(crate) fn config_of(alloc: Global, config: &Config) -> Result<Config, NoMemory>
    ensures { IfOk result (λ copy. copy ≡ config.now) }
{
    let levels = config.levels.as_slice().to_vec(alloc)?;
    let processes = processes_of(alloc, config.processes.as_slice())?;
    let mutexes = mutexes_of(alloc, config.mutexes.as_slice())?;
    Ok(Config {
        version: config.version,
        costs: config.costs,
        levels,
        processes,
        mutexes,
    })
}
