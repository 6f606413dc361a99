//! The records of a table: each line is one, as the crate `csv` reads it.
ghost use Rattle.std.specs.Prelude.{◌≡◌, IfOk, option_map};
ghost use Rattle.csv.specs.Records.{fields_of};
ghost use Rattle.dk_times.specs.Records.{record_of, without_return};

use csv::{ByteRecord, ReaderBuilder, Terminator};
use dk_config::NoMemory;
use std::alloc::Global;

/// The line without the carriage return at its end.
fn without_return(line: &[u8]) -> &[u8]
    ensures { result.now ≡ without_return line.now }
{
    let count = line.len();
    if count >= 1 && line[count - 1] == b'\r' {
        &line[..count - 1]
    } else {
        line
    }
}

/// The fields of a line that isn't blank, which has no line feed: between commas, in quotes where they need them. `Err` is
/// want of memory.
pub fn record_of(alloc: Global, line: &[u8]) -> Result<Option<ByteRecord>, NoMemory>
    ensures { IfOk result (λ row. option_map fields_of row ≡ record_of line.now) }
{
    let mut reader = ReaderBuilder::new()
        .has_headers(false)
        .terminator(Terminator::Any(b'\n'))
        .from_reader(alloc, without_return(line));
    let mut row = ByteRecord::new(alloc);
    match reader.read_byte_record(&mut row) {
        Ok(true) => Ok(Some(row)),
        Ok(false) => Ok(None),
        Err(_) => Err(NoMemory),
    }
}
