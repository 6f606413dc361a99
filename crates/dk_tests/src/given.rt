//! What the tests here are given: words, files and configurations.
ghost use Rattle.std.specs.Prelude.{◌≡◌, IfOk};
ghost use Rattle.dk_config.specs.Checked.{IsAccepted, IsChecked, IsWithinLimits};
ghost use Rattle.dk_outside.specs.MemDepot.{mem_given};

use dk_certify::{Verdict, certify};
use dk_config::{Config, MAX_CONFIG_BYTES};
use dk_loader::read_config;
use dk_outside::{MemDepot, NoMemory};
use std::alloc::{AllocError, Global};
use std::test::Fail;

/// A configuration of two processes, and what is written of its run of 20 ticks.
pub const TWO_SPINNERS: &str =
    "version = 1\n[[level]]\nperiod = 10\n[[level]]\nperiod = 20\n[[process]]\nname = \"alpha\"\nprogram = \"spin.bin\"\nlevel = 0\nbudget = 3\n[[process]]\nname = \"beta\"\nprogram = \"spin.bin\"\nlevel = 1\nbudget = 5\n";

pub const LEDGER: &str =
    "level 0 period 10 demand 3 blocking 0 spare 7\nlevel 1 period 20 demand 11 blocking 0 spare 9\nprocess alpha level 0 budget 3\nprocess beta level 1 budget 5\n0 3 run alpha.0\n3 5 run beta.0\n8 2 idle\n10 3 run alpha.0\n13 7 idle\nend 20\n";

fn add_word(alloc: Global, words: &mut Vec<String>, word: &str) -> Result<(), AllocError> {
    words.push(String::from_str(alloc, word)?)?;
    Ok(())
}

/// The program's name, and the words of a line.
pub fn words_of(alloc: Global, line: &str) -> Result<Vec<String>, AllocError> {
    let mut words = Vec::new(alloc);
    add_word(alloc, &mut words, "deosk")?;
    for word in line.split(' ') {
        add_word(alloc, &mut words, word)?;
    }
    Ok(words)
}

/// The depot, and this file.
pub fn with_file(
    mut depot: MemDepot,
    alloc: Global,
    name: &str,
    bytes: &[u8],
) -> Result<MemDepot, NoMemory>
    requires { mem_given depot ≡ 0 }
    ensures { IfOk result (λ d. mem_given d ≡ 0) }
{
    depot.put(alloc, name, bytes)?;
    Ok(depot)
}

/// The configuration that a document stands for, which passes every check.
pub fn config_of(alloc: Global, document: &str) -> Result<Config, Fail>
    ensures checked { IfOk result IsChecked }
    ensures limits { IfOk result IsWithinLimits }
    ensures accepted { IfOk result IsAccepted }
{
    if document.len() > MAX_CONFIG_BYTES as usize {
        return Err("a document that is too long".into());
    }
    let config = read_config(alloc, document.as_bytes())?;
    match certify(&config) {
        Verdict::Accepted(_) => Ok(config),
        Verdict::Fails { .. } => Err("a configuration that isn't accepted".into()),
    }
}
