ghost use Rattle.std.specs.Prelude.{◌≡◌, ◌≢◌, ◌↔◌, ◌⊎◌, ◌+◌, ◌^◌, ◌<◌, ◌≤◌, Some, Err, IfOk, IfSome, OnErr, IsErrOf, vec_len};
ghost use Rattle.dk_outside.specs.Counts.{Rises, raised};
ghost use Rattle.dk_outside.specs.Files.{IsReading, CountsStray, CountsFailedRead};

use crate::failing::is_to_fail;
use crate::{Depot, DepotError, MemDepot};
use std::alloc::Global;

/// Files in memory, of which some reads fail by their number. It has counts of its own.
#[derive(Drop)]
pub struct FailingDepot {
    inner: MemDepot,
    fails: Vec<u32>,
    reads: u64,
    faults: u64,
    given: u64,
    strays: u64,
}

impl FailingDepot {
    ghost use Rattle.dk_outside.specs.FailingDepot.{inner_files, failing_reads, reads_so_far, depot_faults, depot_given, depot_strays};
    ghost use Rattle.dk_outside.specs.MemDepot.{mem_files};

    /// The files of `inner`, of which the reads with the numbers `fails`, counted from 1, fail.
    pub fn new(inner: MemDepot, fails: Vec<u32>) -> FailingDepot
        ensures inner { inner_files result ≡ mem_files inner }
        ensures fails { failing_reads result ≡ fails.items }
        ensures reads { reads_so_far result ≡ 0 }
        ensures faults { depot_faults result ≡ 0 }
        ensures given { depot_given result ≡ 0 }
        ensures strays { depot_strays result ≡ 0 }
    {
        FailingDepot {
            inner,
            fails,
            reads: 0,
            faults: 0,
            given: 0,
            strays: 0,
        }
    }
}

impl Depot for FailingDepot {
    ghost use Rattle.dk_outside.specs.FailingDepot.{IsToFail, inner_files, failing_reads, reads_so_far, depot_faults, depot_given, depot_strays, failing_depot_view};

    ghost seen = { failing_depot_view };

    fn read(&mut self, alloc: Global, name: &str, limit: u32) -> Result<Vec<u8>, DepotError>
        requires { depot_given self.old + limit + 1 < 2 ^ 64 }

        // It fails exactly where its number is in the list or the name holds no file.
        ensures failed { IsErrOf result DepotError.Failed ↔
            (IsToFail self.old ⊎ (inner_files self.old name.now ≡ None)) }
        ensures reads { reads_so_far self.new ≡ raised (reads_so_far self.old) }
        ensures fails { failing_reads self.new ≡ failing_reads self.old }
        ensures counted { CountsFailedRead result (depot_faults self.old) (depot_faults self.new) }

        ensures short { IfOk result (λ v. vec_len v ≤ limit + 1) }
        ensures held { IfSome (Some (inner_files self.old))
            (λ at. IfOk result (λ v. IsReading at name.now limit v.items)) }
        ensures given_ok { IfOk result (λ v. depot_given self.new ≡ depot_given self.old + vec_len v) }
        ensures given_err { OnErr result (depot_given self.new ≡ depot_given self.old) }
        ensures cause { IsErrOf result DepotError.Failed → Rises (depot_faults self.old) (depot_faults self.new) }
        ensures stays { result ≢ Err DepotError.Failed → depot_faults self.new ≡ depot_faults self.old }
        ensures faults { depot_faults self.old ≤ depot_faults self.new }
        ensures stray { IfSome (Some (inner_files self.old))
            (λ at. CountsStray at name.now (depot_strays self.old) (depot_strays self.new)) }
        ensures strays { depot_strays self.old ≤ depot_strays self.new }
        ensures same { Some (inner_files self.new) ≡ Some (inner_files self.old) }
    {
        self.reads = self.reads.saturating_add(1);
        if !self.inner.holds(name) {
            self.strays = self.strays.saturating_add(1);
            self.faults = self.faults.saturating_add(1);
            return Err(DepotError::Failed);
        }
        if is_to_fail(&self.fails, self.reads) {
            self.faults = self.faults.saturating_add(1);
            return Err(DepotError::Failed);
        }
        let bytes = self.inner.reading(alloc, name, limit)?;
        self.given += bytes.len() as u64;
        Ok(bytes)
    }
}
