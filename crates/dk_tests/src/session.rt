//! Tests of dk_session.
ghost use Rattle.std.specs.Prelude.{◌≡◌, IfOk};
ghost use Rattle.dk_outside.specs.MemDepot.{mem_given};
ghost use Rattle.dk_outside.specs.FailingDepot.{depot_given};

use crate::given::{LEDGER, TWO_SPINNERS, with_file, words_of};
use dk_outside::{FailingDepot, FailingSink, MemDepot, MemSink, NoMemory};
use dk_session::{Status, deosk};
use std::alloc::{AllocError, Global};
use std::test::Fail;

/// A depot with a configuration and the program that spins.
pub fn depot_with(alloc: Global, config: &str) -> Result<MemDepot, NoMemory>
    ensures { IfOk result (λ d. mem_given d ≡ 0) }
{
    let depot = with_file(MemDepot::new(alloc), alloc, "f.toml", config.as_bytes())?;
    let depot = with_file(depot, alloc, "spin.bin", &[0x11, 0, 0, 0])?;
    with_file(depot, alloc, "two.ledger", LEDGER.as_bytes())
}

/// The numbers of the read and the write that fail (none is number 0), the room, how it ends, and how much
/// is written.
type Failing = (u32, u32, usize, Status, usize);

static FAILINGS: [Failing; 6] = [
    (1, 0, 1000, Status::DepotFault, 0),
    (3, 0, 1000, Status::DepotFault, 0),
    (0, 2, 1000, Status::SinkFault, 46),
    (0, 10, 1000, Status::SinkFault, 221),
    (0, 0, 229, Status::Done, 228),
    (0, 0, 227, Status::SinkFault, 227),
];

/// The list of this number alone.
pub fn only(alloc: Global, number: u32) -> Result<Vec<u32>, AllocError> {
    let mut numbers = Vec::new(alloc);
    numbers.push(number)?;
    Ok(numbers)
}

fn failing_depot(alloc: Global, read: u32) -> Result<FailingDepot, Fail>
    ensures { IfOk result (λ d. depot_given d ≡ 0) }
{
    let reads = only(alloc, read)?;
    Ok(FailingDepot::new(depot_with(alloc, TWO_SPINNERS)?, reads))
}

fn failing_sink(alloc: Global, write: u32, room: usize) -> Result<FailingSink, Fail> {
    let writes = only(alloc, write)?;
    Ok(FailingSink::new(MemSink::reserve(alloc, room)?, writes))
}

/// How the run ends where that read fails.
fn failed(alloc: Global, read: u32, sink: &mut FailingSink) -> Result<Status, Fail> {
    let mut depot = failing_depot(alloc, read)?;
    let words = words_of(alloc, "run f.toml 20")?;
    Ok(deosk(alloc, words.as_slice(), &mut depot, sink))
}

/// Fails where the run ends otherwise, or doesn't write just so much of its output.
fn fails(alloc: Global, (read, write, room, status, written): Failing) -> Result<(), Fail> {
    let mut sink = failing_sink(alloc, write, room)?;
    let found = failed(alloc, read, &mut sink)?;
    let bytes = sink.inner().bytes();
    if found == status && bytes.len() == written && LEDGER.as_bytes().starts_with(bytes) {
        return Ok(());
    }
    Err(Fail::new(format_args!(
        "where read {read} and write {write} fail of {room}: {found:?}, {} bytes",
        bytes.len()
    )))
}

/// What is written where the outside fails.
#[test]
fn failing_outside(rt: HostRuntime) -> Result<(), Fail> {
    for failing in FAILINGS {
        fails(rt.alloc(), failing)?;
    }
    Ok(())
}
