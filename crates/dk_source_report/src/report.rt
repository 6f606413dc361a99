//! All that is wrong with a source.
ghost use Rattle.std.specs.Prelude.{◌≡◌, ◌≤◌, ◌++◌, filter, is_some, length, string_bytes, IfOk, OnOk};
ghost use Rattle.dk_asm.specs.Causes.{TellsOutcome, causes_of};
ghost use Rattle.dk_asm.specs.declared.TheConstants.{MAX_SOURCE_BYTES};
ghost use Rattle.dk_source_report.specs.Report.{CountsNone, count_line, faulty, source_text};

use crate::lines::lines_text;
use dk_asm::{LineFault, MAX_SOURCE_BYTES, line_causes};
use std::alloc::{AllocError, Global};

/// All that is wrong with a source.
#[derive(Drop)]
pub struct SourceReport {
    /// A line for each line at fault, and how many they are.
    pub text: String,
    /// How many lines are at fault.
    pub count: usize,
}

fn faulty(causes: &[Option<LineFault>]) -> usize
    ensures { result ≡ faulty causes.now }
{
    causes.iter().filter(|cause| cause.is_some()).count()
}

fn add_count(alloc: Global, text: &mut String, count: usize) -> Result<(), AllocError>
    ensures { OnOk result (string_bytes text.new ≡ string_bytes text.old ++ count_line count) }
{
    let line = format!(in alloc; "faults {count}\n")?;
    text.push_str(line.as_str())
}

/// All that is wrong with a source of at most 1,048,576 bytes: for each line at fault the line of deosk's refusal, what is
/// wanted and what stands there, and then how many they are. `Err` is want of memory.
#[tactic(auto, using(crate::proofs::Counting::counts_none))]
pub fn source_report(alloc: Global, bytes: &[u8]) -> Result<SourceReport, AllocError>
    requires { length bytes.now ≤ MAX_SOURCE_BYTES }
    ensures text { IfOk result (λ report. string_bytes report.text ≡ source_text bytes.now) }
    ensures count { IfOk result (λ report. report.count ≡ faulty (causes_of bytes.now)) }
    // The first line is that of deosk's refusal, and there is none exactly where the source is a program.
    ensures first { TellsOutcome bytes.now }
    ensures none { CountsNone bytes.now }
{
    let causes = line_causes(alloc, bytes)?;
    let count = faulty(&causes);
    let mut text = lines_text(alloc, bytes, &causes)?;
    add_count(alloc, &mut text, count)?;
    Ok(SourceReport { text, count })
}
