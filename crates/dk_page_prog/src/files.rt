//! What the files hold that are asked for.
ghost use Rattle.std.specs.Prelude.{◌≡◌, ◌≢◌, ◌≤◌, ◌<◌, ◌+◌, ◌^◌, IfOk, IfSome, IsErrOf, Err, None, length, option_map};
ghost use Rattle.dk_config.specs.declared.TheConstants.{MAX_CONFIG_BYTES};
ghost use Rattle.dk_outside.specs.Counts.{Rises};
ghost use Rattle.dk_outside.specs.declared.depot.DepotError.{DepotError};
ghost use Rattle.dk_page_prog.specs.Answers.{AreRead, IsReadAt, first_long, named};
ghost use Rattle.dk_page_prog.specs.Asking.{asking_of};
ghost use Rattle.dk_review.specs.Files.{file_of};

use crate::asking::Asked;
use dk_config::{MAX_CONFIG_BYTES, MAX_LEDGER_BYTES};
use dk_outside::{Depot, DepotError};
use dk_review::NamedFile;
use std::alloc::Global;

/// What the files hold that are asked for, each up to one byte more than it may have.
#[derive(Drop)]
pub(crate) struct Held {
    pub document: Vec<u8>,
    pub needs: Vec<u8>,
    pub ledger: Vec<u8>,
}

/// A file that has more bytes than it may have.
#[derive(Clone, Copy)]
pub(crate) enum LongFile {
    Config,
    Needs,
    Ledger,
}

/// The first of these files that has more bytes than it may have.
pub(crate) fn first_long(document: &[u8], needs: &[u8], ledger: &[u8]) -> Option<LongFile>
    ensures is { result ≡ first_long document.now needs.now ledger.now }
    ensures few { result ≡ None → length document.now ≤ MAX_CONFIG_BYTES }
    ensures short { result ≡ None → length needs.now ≤ MAX_CONFIG_BYTES }
{
    if document.len() > MAX_CONFIG_BYTES as usize {
        Some(LongFile::Config)
    } else if needs.len() > MAX_CONFIG_BYTES as usize {
        Some(LongFile::Needs)
    } else if ledger.len() > MAX_LEDGER_BYTES as usize {
        Some(LongFile::Ledger)
    } else {
        None
    }
}

/// The file of this name, where one is named, with what it holds.
pub(crate) fn named<'a>(name: Option<&'a str>, bytes: &'a [u8]) -> Option<NamedFile<'a>>
    ensures { option_map file_of result ≡ named (option_map (λ n. n.now) name.entry) bytes.now }
{
    match name {
        Some(name) => Some(NamedFile { name, bytes }),
        None => None,
    }
}

/// What the file of this name holds, and nothing where none is named.
fn read_some<D: Depot>(
    alloc: Global,
    name: Option<&str>,
    limit: u32,
    depot: &mut D,
) -> Result<Vec<u8>, DepotError>
    requires { (D.seen depot.old).given < 2 ^ 63 }
    ensures held { IfSome (D.seen depot.old).files
        (λ at. IfOk result (λ v. IsReadAt at (option_map (λ n. n.now) name.entry) limit v.items)) }
    ensures given { (D.seen depot.new).given ≤ (D.seen depot.old).given + (limit + 1) }
    ensures cause { IsErrOf result DepotError.Failed → Rises (D.seen depot.old).faults (D.seen depot.new).faults }
    ensures stays { result ≢ Err DepotError.Failed → (D.seen depot.new).faults ≡ (D.seen depot.old).faults }
    ensures same { (D.seen depot.new).files ≡ (D.seen depot.old).files }
{
    match name {
        Some(name) => depot.read(alloc, name, limit),
        None => Ok(Vec::new(alloc)),
    }
}

/// What the files hold that are asked for.
pub(crate) fn read_files<D: Depot>(
    alloc: Global,
    asked: Asked,
    depot: &mut D,
) -> Result<Held, DepotError>
    requires { (D.seen depot.old).given < 2 ^ 62 }
    ensures held { IfSome (D.seen depot.old).files (λ at. IfOk result (AreRead at (asking_of asked.entry))) }
    ensures given { (D.seen depot.new).given < 2 ^ 63 }
    ensures cause { IsErrOf result DepotError.Failed → Rises (D.seen depot.old).faults (D.seen depot.new).faults }
    ensures stays { result ≢ Err DepotError.Failed → (D.seen depot.new).faults ≡ (D.seen depot.old).faults }
    ensures same { (D.seen depot.new).files ≡ (D.seen depot.old).files }
{
    let document = read_some(alloc, Some(asked.name), MAX_CONFIG_BYTES, depot)?;
    let needs = read_some(alloc, asked.needs, MAX_CONFIG_BYTES, depot)?;
    let ledger = read_some(alloc, asked.ledger, MAX_LEDGER_BYTES, depot)?;
    Ok(Held {
        document,
        needs,
        ledger,
    })
}
