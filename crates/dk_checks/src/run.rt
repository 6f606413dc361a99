ghost use Rattle.std.specs.Prelude.{◌≡◌, ◌≤◌, All, IfOk, IfSome, length};
ghost use Rattle.dk_config.specs.declared.TheConstants.{MAX_PROGRAM_BYTES};
ghost use Rattle.dk_kernel.specs.Booting.{IsLoaded};

use crate::printing::print_ticks;
use dk_certify::{Verdict, certify};
use dk_config::{MAX_CONFIG_BYTES, MAX_PROGRAM_BYTES, NoMemory};
use dk_kernel::Kernel;
use dk_loader::{Code, Loaded, read_config};
use std::alloc::Global;
use std::io;
use std::marker::Brand;
use std::sync::ledger::Blank;

/// A run: the text of a configuration, and the programs of its processes in order.
#[derive(Drop)]
pub struct Run {
    name: String,
    config: Vec<u8>,
    programs: Vec<Vec<u8>>,
}

impl Run {
    /// A run of an empty configuration.
    pub fn new(alloc: Global) -> Run {
        Run {
            name: String::new(alloc),
            config: Vec::new(alloc),
            programs: Vec::new(alloc),
        }
    }

    /// Takes one part: `run NAME`, which begins a run, `config LINE` of its configuration, and `program NUMBER...`,
    /// the next process's bytes.
    pub fn take(&mut self, alloc: Global, part: &str, text: &str) -> Result<(), NoMemory> {
        match part {
            "run" => {
                *self = Run::new(alloc);
                self.name = String::from_str(alloc, text)?;
            }
            "config" => {
                self.config.extend_from_slice(text.as_bytes())?;
                self.config.push(b'\n')?;
            }
            _ => self.programs.push(program_in(alloc, text)?)?,
        }
        Ok(())
    }

    /// The configuration with its programs. None where it isn't certified, has another number of programs, or
    /// memory runs out.
    fn loaded(&self, alloc: Global) -> Option<Loaded>
        ensures { IfSome result IsLoaded }
    {
        if self.config.len() > MAX_CONFIG_BYTES as usize {
            return None;
        }
        let Ok(config) = read_config(alloc, self.config.as_slice()) else {
            return None;
        };
        let Verdict::Accepted(_) = certify(&config) else {
            return None;
        };
        let Ok(programs) = codes_of(alloc, self.programs.as_slice()) else {
            return None;
        };
        if programs.len() == config.processes.len() {
            Some(Loaded { config, programs })
        } else {
            None
        }
    }

    /// Runs it for so many ticks, and prints the tables before each of them and at the end.
    pub fn print(&self, rt: &HostRuntime, ticks: u32) -> io::Result<()> {
        println!(rt; "run {}", self.name.as_str())?;
        let Some(loaded) = self.loaded(rt.alloc()) else {
            return println!(rt; "not run");
        };
        let levels = loaded.config.levels.len() as u8;
        let processes = loaded.config.processes.len() as u8;
        match Kernel::boot(rt.alloc(), loaded) {
            Ok(mut kernel) => print_ticks::<Brand>(
                rt,
                &mut kernel,
                levels,
                processes,
                ticks,
                Blank::new(1),
            ),
            Err(_) => println!(rt; "not run"),
        }
    }
}

/// The bytes that the numbers stand for.
fn program_in(alloc: Global, numbers: &str) -> Result<Vec<u8>, NoMemory> {
    let mut bytes = Vec::new(alloc);
    for number in numbers.split(' ') {
        bytes.push(number.parse().unwrap_or(0))?;
    }
    Ok(bytes)
}

/// The programs. Those that are longer than a program may be are left out.
fn codes_of(alloc: Global, programs: &[Vec<u8>]) -> Result<Vec<Code>, NoMemory>
    ensures { IfOk result (λ codes. All (λ code. length code ≤ MAX_PROGRAM_BYTES) codes.items) }
{
    let mut codes = Vec::new(alloc);
    for program in programs {
        let bytes = program.as_slice().to_vec(alloc)?;
        if bytes.len() <= MAX_PROGRAM_BYTES as usize {
            codes.push(Code::new(bytes))?;
        }
    }
    Ok(codes)
}
