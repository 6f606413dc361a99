ghost use Rattle.std.specs.Prelude.{◌≡◌, ◌≢◌, ◌↔◌, ◌+◌, ◌^◌, ◌<◌, ◌≤◌, ℕ, List, Some, Err, IfOk, IfSome, OnOk, OnErr, IsErrOf, is_some, vec_len};
ghost use Rattle.dk_outside.specs.Counts.{Rises};
ghost use Rattle.dk_outside.specs.Files.{IsReading, CountsStray, PutsFile};

use crate::{Depot, DepotError, NoMemory};
use std::alloc::Global;
use std::collections::BTreeMap;

/// Files in memory, of which the depot tells all. Its strays are its faults.
#[derive(Drop)]
pub struct MemDepot {
    files: BTreeMap<String, Vec<u8>>,
    faults: u64,
    given: u64,
}

impl MemDepot {
    ghost use Rattle.dk_outside.specs.MemDepot.{mem_files, mem_faults, mem_given};

    /// No files. Needs no memory.
    pub fn new(alloc: Global) -> MemDepot
        ensures empty { (name : List ℕ) → mem_files result name ≡ None }
        ensures faults { mem_faults result ≡ 0 }
        ensures given { mem_given result ≡ 0 }
    {
        MemDepot {
            files: BTreeMap::new(alloc),
            faults: 0,
            given: 0,
        }
    }

    /// Sets the file of one name, in place of one that it held before.
    pub fn put(&mut self, alloc: Global, name: &str, bytes: &[u8]) -> Result<(), NoMemory>
        ensures ok { OnOk result (PutsFile (mem_files self.old) (mem_files self.new) name.now bytes.now) }
        ensures err { OnErr result ((q : List ℕ) → mem_files self.new q ≡ mem_files self.old q) }
        ensures faults { mem_faults self.new ≡ mem_faults self.old }
        ensures given { mem_given self.new ≡ mem_given self.old }
    {
        let key = String::from_str(alloc, name)?;
        let file = bytes.to_vec(alloc)?;
        self.files.insert(key, file)?;
        Ok(())
    }

    /// Whether there is a file of this name.
    pub(crate) fn holds(&self, name: &str) -> bool
        ensures { result ≡ is_some (mem_files self.now name.now) }
    {
        self.files.contains_key(name)
    }

    /// What a read of a name gives, without counting it.
    pub(crate) fn reading(
        &self,
        alloc: Global,
        name: &str,
        limit: u32,
    ) -> Result<Vec<u8>, DepotError>
        ensures missing { IsErrOf result DepotError.Failed ↔ (mem_files self.now name.now ≡ None) }
        ensures held { IfOk result (λ v. IsReading (mem_files self.now) name.now limit v.items) }
        ensures short { IfOk result (λ v. vec_len v ≤ limit + 1) }
    {
        let Some(file) = self.files.get(name) else {
            return Err(DepotError::Failed);
        };
        let n = file.len().min(limit as usize + 1);
        Ok(file[..n].to_vec(alloc)?)
    }
}

impl Depot for MemDepot {
    ghost use Rattle.dk_outside.specs.MemDepot.{mem_depot_view, mem_files, mem_faults, mem_given};

    ghost seen = { mem_depot_view };

    fn read(&mut self, alloc: Global, name: &str, limit: u32) -> Result<Vec<u8>, DepotError>
        requires { mem_given self.old + limit + 1 < 2 ^ 64 }

        // It fails exactly where the name holds no file.
        ensures missing { IsErrOf result DepotError.Failed ↔ (mem_files self.old name.now ≡ None) }

        ensures short { IfOk result (λ v. vec_len v ≤ limit + 1) }
        ensures held { IfSome (Some (mem_files self.old))
            (λ at. IfOk result (λ v. IsReading at name.now limit v.items)) }
        ensures given_ok { IfOk result (λ v. mem_given self.new ≡ mem_given self.old + vec_len v) }
        ensures given_err { OnErr result (mem_given self.new ≡ mem_given self.old) }
        ensures cause { IsErrOf result DepotError.Failed → Rises (mem_faults self.old) (mem_faults self.new) }
        ensures stays { result ≢ Err DepotError.Failed → mem_faults self.new ≡ mem_faults self.old }
        ensures faults { mem_faults self.old ≤ mem_faults self.new }
        ensures stray { IfSome (Some (mem_files self.old))
            (λ at. CountsStray at name.now (mem_faults self.old) (mem_faults self.new)) }
        ensures strays { mem_faults self.old ≤ mem_faults self.new }
        ensures same { Some (mem_files self.new) ≡ Some (mem_files self.old) }
    {
        if !self.holds(name) {
            self.faults = self.faults.saturating_add(1);
            return Err(DepotError::Failed);
        }
        let bytes = self.reading(alloc, name, limit)?;
        self.given += bytes.len() as u64;
        Ok(bytes)
    }
}
