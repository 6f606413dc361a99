//! The lines of a source that are at fault.
ghost use Rattle.std.specs.Prelude.{◌≡◌, ◌<◌, ◌^◌, ◌+◌, ◌++◌, length, string_bytes, IfOk, OnOk};
ghost use Rattle.dk_asm.specs.Source.{lines_of};
ghost use Rattle.dk_source_report.specs.Report.{cause_in, fault_line, lines_text, told_line};

use crate::words::{cause_word, why_text};
use dk_asm::{LineFault, first_line, reason_of};
use std::alloc::{AllocError, Global};

fn fault_line(
    alloc: Global,
    number: usize,
    bytes: &[u8],
    cause: LineFault,
) -> Result<String, AllocError>
    ensures { IfOk result (λ s. string_bytes s ≡ fault_line number bytes.now cause) }
{
    let word = cause_word(cause);
    let why = why_text(alloc, cause, reason_of(bytes, cause))?;
    let why = why.as_str();
    format!(in alloc; "asm: line {number} {word}: {why}\n")
}

fn add_line(
    alloc: Global,
    text: &mut String,
    number: usize,
    bytes: &[u8],
    cause: Option<LineFault>,
) -> Result<(), AllocError>
    ensures { OnOk result (string_bytes text.new ≡ string_bytes text.old ++ told_line number bytes.now cause) }
{
    let Some(cause) = cause else {
        return Ok(());
    };
    let line = fault_line(alloc, number, bytes, cause)?;
    text.push_str(line.as_str())
}

fn cause_in(causes: &[Option<LineFault>], i: usize) -> Option<LineFault>
    ensures { result ≡ cause_in causes.now i }
{
    match causes.get(i) {
        Some(cause) => *cause,
        None => None,
    }
}

/// A line for each line of a source that is at fault.
pub(crate) fn lines_text(
    alloc: Global,
    bytes: &[u8],
    causes: &[Option<LineFault>],
) -> Result<String, AllocError>
    requires { length bytes.now < 2 ^ 32 }
    ensures { IfOk result (λ s. string_bytes s ≡ lines_text causes.now 0 (lines_of bytes.now)) }
{
    let mut text = String::new(alloc);
    let mut rest = bytes;
    let mut i = 0;
    while !rest.is_empty() {
        let (line, behind) = first_line(rest);
        add_line(alloc, &mut text, i + 1, line, cause_in(causes, i))?;
        rest = behind;
        i += 1;
    }
    Ok(text)
}
