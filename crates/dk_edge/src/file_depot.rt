//! The files that are opened by name.
ghost use Rattle.std.specs.Prelude.{◌≡◌, ◌≢◌, ◌+◌, ◌<◌, ◌≤◌, ◌^◌, Err, IfOk, IfSome, IsErrOf, OnErr, OnOk, take, vec_len};
ghost use Rattle.dk_outside.specs.Counts.{Rises};
ghost use Rattle.dk_outside.specs.Files.{CountsFailedRead, CountsStray, IsReading};
ghost use Rattle.dk_outside.specs.declared.depot.DepotError.TheVariants.{Failed};
ghost use Rattle.dk_edge.specs.FileDepot.{file_depot_view, file_given, opener_of};
ghost use Rattle.dk_edge.specs.Opener.{AreFirst};

use crate::opener::Opener;
use dk_outside::{Depot, DepotError};
use std::alloc::Global;

/// How many bytes are asked for at once.
const CHUNK: usize = 65_536;

/// The files of an opener, such as the system's. As a depot it tells what the opener does, and counts its failures.
#[derive(Drop)]
pub struct FileDepot<R: Opener> {
    opener: R,
    given: u64,
}

impl<R: Opener> FileDepot<R> {
    pub fn new(opener: R) -> Self
        ensures opener { opener_of result ≡ opener }
        ensures given { file_given result ≡ 0 }
    {
        FileDepot { opener, given: 0 }
    }
}

// Room for the bytes that the file is said to have, up to the most.
fn room_for(told: u64, most: usize) -> usize
    ensures { result ≤ most }
{
    told.min(most as u64) as usize
}

// Reads on until there are so many bytes, or the file is at its end.
#[tactic(auto, using(crate::proofs::ReadingLemmas::nothing_read, crate::proofs::ReadingLemmas::read_more, crate::proofs::ReadingLemmas::all_read, crate::proofs::ReadingLemmas::most_read))]
fn read_on<R: Opener>(
    opener: &mut R,
    file: &mut R::File,
    bytes: &mut Vec<u8>,
    most: usize,
) -> Result<(), DepotError>
    requires { vec_len bytes.old ≡ 0 }
    ensures short { OnOk result (vec_len bytes.new ≤ most) }
    ensures first { OnOk result (IfSome (R.left file.old) (λ whole. bytes.new.items ≡ take most whole)) }
    ensures counted { CountsFailedRead result (R.failures opener.old) (R.failures opener.new) }
    ensures failed { R.failures opener.old ≤ R.failures opener.new }
    ensures strays { R.strays opener.new ≡ R.strays opener.old }
    ensures same { R.contents opener.new ≡ R.contents opener.old }
{
    let mut buffer = [0u8; CHUNK];
    while bytes.len() < most {
        let room = (most - bytes.len()).min(CHUNK);
        let n = opener.read_from(file, &mut buffer[..room])?;
        if n == 0 {
            return Ok(());
        }
        bytes.extend_from_slice(&buffer[..n])?;
    }
    Ok(())
}

// The file, or its first bytes where it is longer, in one block of about its size. The file is opened once.
fn read_up_to<R: Opener>(
    opener: &mut R,
    alloc: Global,
    name: &str,
    most: usize,
) -> Result<Vec<u8>, DepotError>
    ensures short { IfOk result (λ v. vec_len v ≤ most) }
    ensures told { IfSome (R.contents opener.old) (λ at. IfOk result (λ v. AreFirst (at name.now) most v.items)) }
    ensures counted { CountsFailedRead result (R.failures opener.old) (R.failures opener.new) }
    ensures failed { R.failures opener.old ≤ R.failures opener.new }
    ensures rise { R.strays opener.old ≤ R.strays opener.new }
    ensures stray { IfSome (R.contents opener.old)
        (λ at. CountsStray at name.now (R.strays opener.old) (R.strays opener.new)) }
    ensures same { R.contents opener.new ≡ R.contents opener.old }
{
    let mut file = opener.open_at(name)?;
    let room = room_for(opener.length_of(&file), most);
    let mut bytes = Vec::with_capacity(alloc, room)?;
    read_on(opener, &mut file, &mut bytes, most)?;
    Ok(bytes)
}

impl<R: Opener> Depot for FileDepot<R> {
    ghost seen = { file_depot_view R.contents R.failures R.strays };

    fn read(&mut self, alloc: Global, name: &str, limit: u32) -> Result<Vec<u8>, DepotError> {
        let bytes = read_up_to(&mut self.opener, alloc, name, limit as usize + 1)?;
        self.given += bytes.len() as u64;
        Ok(bytes)
    }
}
