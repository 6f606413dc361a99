//! Where the rows of a process's threads stand.
ghost use Rattle.std.specs.Prelude.{true, [], ◌≡◌, ◌++◌, ◌∷◌, length, replicate, slice_get, IfOk, OnOk};
ghost use Rattle.dk_window_report.specs.Touched.{place_of, IsAdded};

use dk_config::NoMemory;
use dk_trace::ThreadId;
use std::alloc::Global;
use std::marker::Model;

/// The places of the threads of a process, by serial.
#[derive(Drop)]
pub struct Family {
    places: Vec<usize>,
}

impl Model for Family {
    ghost use Rattle.std.specs.Prelude.{ℕ, List};

    ghost Value = { List ℕ };

    ghost view = { λ f. f.places.items };
}

impl Family {
    fn new(alloc: Global) -> Family
        ensures { result ≡ [] }
    {
        Family {
            places: Vec::new(alloc),
        }
    }

    fn len(&self) -> usize
        ensures { result ≡ length self.now }
    {
        self.places.len()
    }

    fn place_at(&self, serial: u32) -> Option<usize>
        ensures { result ≡ slice_get self.now serial }
    {
        match self.places.as_slice().get(serial as usize) {
            Some(place) => Some(*place),
            None => None,
        }
    }

    fn push(&mut self, place: usize) -> Result<(), NoMemory>
        ensures { OnOk result (self.new ≡ self.old ++ place ∷ []) }
    {
        self.places.push(place)?;
        Ok(())
    }
}

/// So many families without threads.
pub fn families(alloc: Global, count: usize) -> Result<Vec<Family>, NoMemory>
    ensures { IfOk result (λ families. families.items ≡ replicate count []) }
{
    let mut families = Vec::new(alloc);
    for _process in 0..count {
        families.push(Family::new(alloc))?;
    }
    Ok(families)
}

/// The place of the thread's row.
pub fn place_of(families: &[Family], thread: ThreadId) -> Option<usize>
    ensures { result ≡ place_of families.now thread }
{
    match families.get(thread.process as usize) {
        Some(family) => family.place_at(thread.serial),
        None => None,
    }
}

/// Adds the place of a thread that is the next one of its process, and tells whether it is.
pub fn add_place(
    families: &mut Vec<Family>,
    thread: ThreadId,
    place: usize,
) -> Result<bool, NoMemory>
    ensures { IfOk result (λ is_next. is_next ≡ true → IsAdded families.old.items families.new.items thread place) }
{
    let process = thread.process as usize;
    if process >= families.len() || families[process].len() != thread.serial as usize {
        return Ok(false);
    }
    let family = &mut families[process];
    family.push(place)?;
    Ok(true)
}
