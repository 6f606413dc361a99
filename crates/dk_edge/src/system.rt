//! The system's files and its standard output.
ghost use Rattle.std.specs.Prelude.{◌≡◌, ◌≢◌, ◌<◌, ◌≤◌, None, Ok, Err, IfErr, IfOk, OnErr, IsErr, IsOk, length, take};
ghost use Rattle.std.specs.Io.{ReadsAtMost};
ghost use Rattle.dk_outside.specs.Files.{CountsFailedRead};

use crate::opener::Opener;
use dk_outside::{DepotError, Sink, SinkError};
use std::fs::OpenFile;
use std::io::{ErrorKind, Read};
use std::rt::Files;
use std::{fs, io};

/// The system's files. It is taken on trust that they don't change while the program runs, and so they aren't told.
#[derive(Drop)]
pub struct SystemFiles<'a, R: Files> {
    rt: &'a R,
    failures: u64,
}

impl<'a, R: Files> SystemFiles<'a, R> {
    ghost use Rattle.dk_edge.specs.System.{system_failures, TellsAnswer};

    pub fn new(rt: &'a R) -> Self
        ensures { system_failures result ≡ 0 }
    {
        SystemFiles { rt, failures: 0 }
    }

    // What the system answered, with its failure counted. Want of memory is none.
    fn counted<T>(&mut self, answer: io::Result<T>) -> Result<T, DepotError>
        ensures told { TellsAnswer answer result }
        ensures counted { CountsFailedRead result (system_failures self.old) (system_failures self.new) }
        ensures failed { system_failures self.old ≤ system_failures self.new }
    {
        match answer {
            Ok(value) => Ok(value),
            Err(e) if e.kind() == ErrorKind::OutOfMemory => Err(DepotError::NoMemory),
            Err(_) => {
                self.failures = self.failures.saturating_add(1);
                Err(DepotError::Failed)
            }
        }
    }
}

// One read, or the next one where a signal came in between.
fn read_once<F: Read>(file: &mut F, buffer: &mut [u8]) -> io::Result<usize>
    ensures { ReadsAtMost result buffer.new }
{
    for _ in 1..u64::MAX {
        match file.read(buffer) {
            Err(e) if e.kind() == ErrorKind::Interrupted => {}
            answer => return answer,
        }
    }
    file.read(buffer)
}

impl<R: Files> Opener for SystemFiles<'_, R> {
    ghost use Rattle.dk_edge.specs.Opener.{untold};
    ghost use Rattle.dk_edge.specs.System.{system_failures};

    type File = R::File;

    ghost contents = { λ _. untold };

    ghost left = { λ _. None };

    ghost failures = { system_failures };

    ghost strays = { λ _. 0 };

    fn open_at(&mut self, name: &str) -> Result<R::File, DepotError> {
        let answer = fs::open(self.rt, name);
        self.counted(answer)
    }

    fn length_of(&self, file: &R::File) -> u64 {
        match file.metadata() {
            Ok(metadata) => metadata.len(),
            Err(_) => 0,
        }
    }

    fn read_from(&mut self, file: &mut R::File, buffer: &mut [u8]) -> Result<usize, DepotError> {
        let answer = read_once(file, buffer);
        self.counted(answer)
    }
}

/// The system's standard output. It is taken on trust that what it took stands there, and so that isn't told.
#[derive(Drop)]
pub struct StandardOutput<'a, R: Print> {
    rt: &'a R,
    faults: u64,
}

impl<'a, R: Print> StandardOutput<'a, R> {
    ghost use Rattle.dk_edge.specs.System.{output_faults};

    pub fn new(rt: &'a R) -> Self
        ensures { output_faults result ≡ 0 }
    {
        StandardOutput { rt, faults: 0 }
    }
}

// One write, or the next one where a signal came in between.
fn write_once<R: Print>(rt: &R, piece: &[u8]) -> io::Result<usize>
    ensures { IfOk result (λ n. n ≤ length piece.now) }
{
    for _ in 1..u64::MAX {
        match rt.write_some(piece) {
            Err(e) if e.kind() == ErrorKind::Interrupted => {}
            answer => return answer,
        }
    }
    rt.write_some(piece)
}

impl<R: Print> Sink for StandardOutput<'_, R> {
    ghost use Rattle.dk_edge.specs.System.{output_view};

    ghost seen = { output_view };

    fn write(&mut self, piece: &[u8]) -> Result<usize, SinkError> {
        match write_once(self.rt, piece) {
            Ok(n) if n > 0 => Ok(n),
            _ if piece.is_empty() => Ok(0),
            _ => {
                self.faults = self.faults.saturating_add(1);
                Err(SinkError::Failed)
            }
        }
    }
}
