//! The programs of a configuration, read from a depot.
ghost use Rattle.std.specs.Prelude.{◌≡◌, ◌≢◌, ◌+◌, ◌^◌, ◌<◌, ◌≤◌, ℕ, IfOk, IfSome, IsErrOf, Err, length};
ghost use Rattle.dk_outside.specs.Counts.{Rises};
ghost use Rattle.dk_config.specs.Checked.{BreaksNoRule};
ghost use Rattle.dk_loader.specs.Programs.{Gives, TakesOne, TakesAll, CountsReads, ReadsOne, ReadsAll, bytes_read, program_in, loading};

use crate::{Code, LoadFault, Loaded};
use dk_config::{Config, MAX_PROCESSES, MAX_PROGRAM_BYTES, ProcessRow};
use dk_outside::{Depot, DepotError};
use std::alloc::Global;

fn program_in(p: u32, bytes: Vec<u8>) -> Result<Code, LoadFault>
    requires { length bytes.items ≤ MAX_PROGRAM_BYTES + 1 }
    ensures told { Gives (λ c. c) result (program_in p bytes.items) }
    ensures given { (old : ℕ) → TakesOne p result old (old + length bytes.items) }
    ensures only { result ≢ Err LoadFault.Depot }
{
    if bytes.len() > MAX_PROGRAM_BYTES as usize {
        return Err(LoadFault::TooLong(p));
    }
    Ok(Code::new(bytes))
}

/// The program of process `p`, which is the file of this name.
fn read_program<D: Depot>(
    alloc: Global,
    depot: &mut D,
    p: u32,
    name: &str,
) -> Result<Code, LoadFault>
    requires { (D.seen depot.old).given + (MAX_PROGRAM_BYTES + 1) < 2 ^ 64 }
    ensures { ReadsOne p name.now result (D.seen depot.old) (D.seen depot.new) }
{
    match depot.read(alloc, name, MAX_PROGRAM_BYTES) {
        Ok(bytes) => program_in(p, bytes),
        Err(DepotError::Failed) => Err(LoadFault::Depot),
        Err(DepotError::NoMemory) => Err(LoadFault::NoMemory),
    }
}

fn read_programs<D: Depot>(
    alloc: Global,
    depot: &mut D,
    processes: &[ProcessRow],
) -> Result<Vec<Code>, LoadFault>
    requires given { (D.seen depot.old).given < 2 ^ 63 }
    requires few { length processes.now ≤ MAX_PROCESSES }
    ensures { ReadsAll (λ v. v.items) processes.now result (D.seen depot.old) (D.seen depot.new) }
{
    let mut programs = Vec::new(alloc);
    for (p, process) in processes.iter().enumerate() {
        programs.push(read_program(alloc, depot, p as u32, process.program.as_str())?)?;
    }
    Ok(programs)
}

/// Reads the program of each process in order, each with the limit 65,536.
///
/// - `Depot`: a read failed, and the depot's `faults` rose in this call.
/// - `TooLong(p)`: the read for process `p` is the first that gave more than 65,536 bytes.
/// - `NoMemory`: want of memory.
///
/// After each of them the configuration is given up, and the depot is as the reads left it. It
/// never answers `NotToml` or `Config`.
pub fn load<D: Depot>(alloc: Global, config: Config, depot: &mut D) -> Result<Loaded, LoadFault>
    requires checked { BreaksNoRule config }
    requires given { (D.seen depot.old).given < 2 ^ 63 }

    // The programs are the files that the processes name; only `Depot` and `NoMemory` may come in their place.
    ensures told { IfSome (D.seen depot.old).files (λ at. Gives (λ l. l) result (loading at config)) }

    ensures config { IfOk result (λ l. l.config ≡ config) }
    ensures given { TakesAll (λ l. l.programs) (length config.processes) result (D.seen depot.old).given
        (D.seen depot.new).given }
    // Where the files are told, it is known how many bytes that is.
    ensures counted { IfSome (D.seen depot.old).files
        (λ at. CountsReads result (D.seen depot.old).given (D.seen depot.new).given (bytes_read at config.processes)) }

    ensures depot { IsErrOf result LoadFault.Depot → Rises (D.seen depot.old).faults (D.seen depot.new).faults }
    ensures stays { result ≢ Err LoadFault.Depot → (D.seen depot.new).faults ≡ (D.seen depot.old).faults }
    ensures faults { (D.seen depot.old).faults ≤ (D.seen depot.new).faults }

    // Where each program that is asked for is held, no read strays.
    ensures stray { IfSome (D.seen depot.old).files
        (λ at. loading at config ≢ Err LoadFault.Depot → (D.seen depot.new).strays ≡ (D.seen depot.old).strays) }
    ensures strays { (D.seen depot.old).strays ≤ (D.seen depot.new).strays }

    ensures same { (D.seen depot.new).files ≡ (D.seen depot.old).files }
{
    match read_programs(alloc, depot, config.processes.as_slice()) {
        Ok(programs) => Ok(Loaded { config, programs }),
        Err(fault) => Err(fault),
    }
}
