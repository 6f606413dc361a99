ghost use Rattle.std.specs.Prelude.{◌≡◌, IfOk};
ghost use Rattle.dk_outside.specs.MemDepot.{mem_given};

use dk_outside::{MemDepot, MemSink, NoMemory};
use dk_session::deosk_in_memory;
use std::alloc::Global;
use std::fmt;

/// The most bytes that the output of a row has.
const ROOM: usize = 1_000_000;

/// How a row came out.
#[derive(Clone, Copy, PartialEq, Eq)]
pub enum Outcome {
    AsTold,
    OtherStatus(u8),
    OtherOutput,
}

impl fmt::Display for Outcome {
    fn fmt<W: fmt::Write>(&self, f: &mut fmt::Formatter<W>) -> fmt::Result {
        match self {
            Outcome::AsTold => write!(f, "as told"),
            Outcome::OtherStatus(status) => write!(f, "status {status}"),
            Outcome::OtherOutput => write!(f, "other output"),
        }
    }
}

#[derive(Drop)]
struct File {
    name: String,
    bytes: Vec<u8>,
}

/// A row: the words of a call, the files that there are, and the output that is wanted.
#[derive(Drop)]
pub struct Row {
    name: String,
    words: Vec<String>,
    files: Vec<File>,
    output: Vec<u8>,
}

impl Row {
    /// A row of no words and no files.
    pub fn new(alloc: Global) -> Row {
        Row {
            name: String::new(alloc),
            words: Vec::new(alloc),
            files: Vec::new(alloc),
            output: Vec::new(alloc),
        }
    }

    pub fn name(&self) -> &str {
        self.name.as_str()
    }

    /// Takes one part: `row NAME`, which begins a row, `word WORD`, `file NAME`, and behind a file `text LINE` or
    /// `bytes NUMBER...` of it; `output LINE` is a line of the output.
    pub fn take(&mut self, alloc: Global, part: &str, text: &str) -> Result<(), NoMemory> {
        match part {
            "row" => {
                *self = Row::new(alloc);
                self.name = String::from_str(alloc, text)?;
            }
            "word" => self.words.push(String::from_str(alloc, text)?)?,
            "file" => self.files.push(File {
                name: String::from_str(alloc, text)?,
                bytes: Vec::new(alloc),
            })?,
            "output" => push_line(&mut self.output, text)?,
            _ => {
                if let Some(file) = self.files.last_mut() {
                    push_part(&mut file.bytes, part, text)?;
                }
            }
        }
        Ok(())
    }

    /// The files, in memory.
    fn depot(&self, alloc: Global) -> Result<MemDepot, NoMemory>
        ensures { IfOk result (λ d. mem_given d ≡ 0) }
    {
        let mut depot = MemDepot::new(alloc);
        for file in &self.files {
            depot.put(alloc, file.name.as_str(), file.bytes.as_slice())?;
        }
        Ok(depot)
    }

    /// Makes the call, and compares its status and its output.
    pub fn outcome(&self, alloc: Global, status: &str) -> Result<Outcome, NoMemory> {
        let mut depot = self.depot(alloc)?;
        let mut sink = MemSink::reserve(alloc, ROOM)?;
        let ended = deosk_in_memory(alloc, self.words.as_slice(), &mut depot, &mut sink).number();
        if status.parse::<u8>() != Ok(ended) {
            return Ok(Outcome::OtherStatus(ended));
        }
        if sink.bytes() != self.output.as_slice() {
            return Ok(Outcome::OtherOutput);
        }
        Ok(Outcome::AsTold)
    }
}

fn push_line(bytes: &mut Vec<u8>, line: &str) -> Result<(), NoMemory> {
    bytes.extend_from_slice(line.as_bytes())?;
    bytes.push(b'\n')?;
    Ok(())
}

/// Appends a line, or bytes that are written as numbers.
fn push_part(bytes: &mut Vec<u8>, part: &str, text: &str) -> Result<(), NoMemory> {
    if part == "text" {
        return push_line(bytes, text);
    }
    for number in text.split(' ') {
        bytes.push(number.parse().unwrap_or(0))?;
    }
    Ok(())
}
