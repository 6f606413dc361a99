//! Tests of dk_outside.
ghost use Rattle.std.specs.Prelude.{◌≡◌, ◌+◌, ◌^◌, ◌<◌, ◌≤◌, IfOk};
ghost use Rattle.dk_outside.specs.MemDepot.{mem_given};

use crate::given::with_file;
use dk_outside::{
    Depot, DepotError, FailingDepot, FailingSink, MemDepot, MemSink, NoMemory, Sink, write_all_to,
};
use std::alloc::{AllocError, Global};
use std::test::Fail;

/// The answer of a read that fails.
const FAULT: Result<&[u8], DepotError> = Err(DepotError::Failed);

fn two_files(alloc: Global) -> Result<MemDepot, NoMemory>
    ensures { IfOk result (λ d. mem_given d ≡ 0) }
{
    let depot = with_file(MemDepot::new(alloc), alloc, "a.bin", b"old")?;
    let depot = with_file(depot, alloc, "b.bin", b"")?;
    with_file(depot, alloc, "a.bin", b"abcd")
}

/// The list of this number alone.
fn only(alloc: Global, number: u32) -> Result<Vec<u32>, AllocError> {
    let mut numbers = Vec::new(alloc);
    numbers.push(number)?;
    Ok(numbers)
}

/// Whether a read gave these bytes, or this fault.
fn gave(read: &Result<Vec<u8>, DepotError>, expected: Result<&[u8], DepotError>) -> bool {
    match (read, expected) {
        (Ok(bytes), Ok(expected)) => bytes.as_slice() == expected,
        (Err(error), Err(expected)) => *error == expected,
        _ => false,
    }
}

/// Whether two reads of the file give this, where the read of that number fails.
fn give(
    alloc: Global,
    (name, limit, fails): (&str, u32, u32),
    first: Result<&[u8], DepotError>,
    second: Result<&[u8], DepotError>,
) -> Result<bool, Fail> {
    let mut depot = FailingDepot::new(two_files(alloc)?, only(alloc, fails)?);
    let is_first = gave(&depot.read(alloc, name, limit), first);
    let is_second = gave(&depot.read(alloc, name, limit), second);
    Ok(is_first && is_second)
}

/// Whether the next read of the file gives this.
fn gives(
    alloc: Global,
    depot: &mut MemDepot,
    name: &str,
    limit: u32,
    expected: Result<&[u8], DepotError>,
) -> bool
    requires { mem_given depot.old + limit + 1 < 2 ^ 64 }
    ensures { mem_given depot.new ≤ mem_given depot.old + limit + 1 }
{
    gave(&depot.read(alloc, name, limit), expected)
}

#[test]
fn reads(rt: HostRuntime) -> Result<(), Fail> {
    let alloc = rt.alloc();
    let mut depot = two_files(alloc)?;
    assert!(rt; gives(alloc, &mut depot, "a.bin", 4, Ok(b"abcd")));
    assert!(rt; gives(alloc, &mut depot, "a.bin", 2, Ok(b"abc")));
    assert!(rt; gives(alloc, &mut depot, "b.bin", 0, Ok(b"")));
    assert!(rt; gives(alloc, &mut depot, "c.bin", 9, FAULT));
    Ok(())
}

#[test]
fn fails(rt: HostRuntime) -> Result<(), Fail> {
    let alloc = rt.alloc();
    assert!(rt; give(alloc, ("a.bin", 4, 2), Ok(b"abcd"), FAULT)?);
    assert!(rt; give(alloc, ("a.bin", 3, 1), FAULT, Ok(b"abcd"))?);
    assert!(rt; give(alloc, ("b.bin", 0, 3), Ok(b""), Ok(b""))?);
    assert!(rt; give(alloc, ("c.bin", 9, 3), FAULT, FAULT)?);
    Ok(())
}

/// Whether the sink takes the piece whole.
fn takes<S: Sink>(sink: &mut S, piece: &[u8]) -> bool {
    write_all_to(sink, piece).is_ok()
}

#[test]
fn writes(rt: HostRuntime) -> Result<(), Fail> {
    let mut sink = MemSink::reserve(rt.alloc(), 7)?;
    assert!(rt; takes(&mut sink, b"start"));
    assert!(rt; takes(&mut sink, b""));
    assert!(rt; !takes(&mut sink, b"end"));
    assert!(rt; !takes(&mut sink, b"."));
    assert!(rt; sink.write(b"").is_err());
    assert!(rt; sink.bytes() == b"starten".as_slice());
    Ok(())
}

/// A sink with room enough, of which the second write fails.
fn failing_sink(alloc: Global) -> Result<FailingSink, Fail> {
    let fails = only(alloc, 2)?;
    Ok(FailingSink::new(MemSink::reserve(alloc, 100)?, fails))
}

#[test]
fn fails_to_write(rt: HostRuntime) -> Result<(), Fail> {
    let alloc = rt.alloc();
    let mut sink = failing_sink(alloc)?;
    assert!(rt; takes(&mut sink, b"start"));
    assert!(rt; takes(&mut sink, b""));
    assert!(rt; !takes(&mut sink, b"end"));
    assert!(rt; takes(&mut sink, b"."));
    assert!(rt; sink.inner().bytes() == b"start.".as_slice());
    Ok(())
}
