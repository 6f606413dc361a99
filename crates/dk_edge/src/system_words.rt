//! The words of the system's process.
ghost use Rattle.std.specs.Prelude.{None};
ghost use Rattle.std.specs.Io.{WritesAtMost};

use crate::words::{Word, Words};
use dk_outside::NoMemory;
use std::alloc::Global;
use std::env::{self, FillError};
use std::io::ErrorKind;
use std::rt::Env;

/// The words that the system gave the process. It is taken on trust that these are the ones, and so they aren't told.
#[derive(Drop)]
pub struct ProcessWords<'a, R: Env> {
    rt: &'a R,
}

impl<'a, R: Env> ProcessWords<'a, R> {
    pub fn new(rt: &'a R) -> Self {
        ProcessWords { rt }
    }
}

/// A process with one of the words alone. So the others, such as the program's own name, may be any bytes.
#[derive(Drop)]
struct OneWord<'a, R: Env> {
    rt: &'a R,
    number: usize,
}

impl<R: Env> Env for OneWord<'_, R> {
    fn arg(&self, i: usize, buf: &mut [u8]) -> Result<usize, FillError> {
        if i == 0 {
            return self.rt.arg(self.number, buf);
        }
        Err(FillError::NotPresent)
    }

    fn var(&self, name: &str, buf: &mut [u8]) -> Result<usize, FillError> {
        self.rt.var(name, buf)
    }

    fn var_at(&self, i: usize, buf: &mut [u8]) -> Result<usize, FillError> {
        self.rt.var_at(i, buf)
    }
}

impl<R: Env> Words for ProcessWords<'_, R> {
    ghost told = { λ _. None };

    fn word(&self, alloc: Global, number: usize) -> Result<Word, NoMemory> {
        let one = OneWord {
            rt: self.rt,
            number,
        };
        match env::args(&(one, alloc)) {
            Ok(mut words) => Ok(words.next().map_or(Word::Missing, Word::Text)),
            Err(e) if e.kind() == ErrorKind::OutOfMemory => Err(NoMemory),
            Err(_) => Ok(Word::NotText),
        }
    }
}
