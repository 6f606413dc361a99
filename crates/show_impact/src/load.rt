//! A certified configuration with its programs, as a type: whoever has one needs no condition on it.
ghost use Rattle.std.specs.Prelude.{◌≡◌, ◌≤◌, All, IfOk, length};
ghost use Rattle.dk_config.specs.declared.TheConstants.{MAX_PROGRAM_BYTES};
ghost use Rattle.dk_config.specs.Checked.{BreaksNoRule, IsAccepted, IsChecked, IsWithinLimits};
ghost use Rattle.dk_kernel.specs.Booting.{IsLoaded};
ghost use Rattle.show_impact.specs.Impacts.{program_of};

use crate::copies::config_of;
use dk_certify::Certified;
use dk_config::{Config, NoMemory};
use dk_cycle_start::programs_of;
use dk_loader::{Code, Loaded};
use std::alloc::Global;
use std::marker::Model;

/// A certified configuration with the programs of its processes, in the order of the rows. It is seen as the two together.
#[derive(Drop)]
pub struct CertifiedLoad {
    certified: Certified,
    programs: Vec<Code>,
}

impl Model for CertifiedLoad {
    ghost use Rattle.dk_loader.specs.Workload.{Workload};
    ghost use Rattle.show_impact.specs.Loads.{HasPrograms};

    ghost Value = { Workload };

    ghost view = { λ l. record { config = l.certified; programs = l.programs.items } };

    ghost invariant = { λ l. HasPrograms l.certified l.programs.items };
}

impl CertifiedLoad {
    /// There is a program for each process, none of them too long. Needs no memory.
    pub fn of(certified: Certified, programs: Vec<Code>) -> CertifiedLoad
        requires each { length programs.items ≡ length certified.processes }
        requires sizes { All (λ code. length code ≤ MAX_PROGRAM_BYTES) programs.items }
        ensures { result ≡ record { config = certified; programs = programs.items } }
    {
        CertifiedLoad {
            certified,
            programs,
        }
    }

    /// Its configuration.
    pub fn config(&self) -> &Config
        ensures same { result.now ≡ self.now.config }
        ensures unbroken { BreaksNoRule result.now }
        ensures checked { IsChecked result.now }
        ensures accepted { IsAccepted result.now }
        ensures limits { IsWithinLimits result.now }
    {
        self.certified.layout().config()
    }

    /// The program of the process.
    pub(crate) fn program(&self, process: u32) -> &[u8]
        ensures { result.now ≡ program_of self.now process }
    {
        match self.programs.get(process as usize) {
            Some(code) => code.bytes(),
            None => &[],
        }
    }

    /// A copy for a kernel.
    pub(crate) fn copy(&self, alloc: Global) -> Result<Loaded, NoMemory>
        ensures same { IfOk result (λ copy. copy ≡ self.now) }
        ensures loaded { IfOk result IsLoaded }
    {
        let config = config_of(alloc, self.config())?;
        let programs = programs_of(alloc, self.programs.as_slice())?;
        Ok(Loaded { config, programs })
    }
}
