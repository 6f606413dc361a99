//! The words of the line of a line at fault.
ghost use Rattle.std.specs.Prelude.{◌≡◌, string_bytes, IfOk};
ghost use Rattle.std.specs.List.{list_all};
ghost use Rattle.std.specs.Option.{option_map};
ghost use Rattle.dk_asm.specs.Seen.{reason as seen_reason};
ghost use Rattle.dk_source_report.specs.Words.{cause_word, is_plain, is_printable, kind_text, place_text, plain_text, reason_text, this_text, wanted_text, why_text};

use dk_asm::{Kind, LineFault, Reason, Wanted};
use std::alloc::{AllocError, Global};

/// The longest text of a line that is told.
const MOST_TOLD: usize = 60;

/// The cause, as deosk tells it.
pub(crate) fn cause_word(cause: LineFault) -> &'static str
    ensures { result.now ≡ cause_word cause }
{
    match cause {
        LineFault::Form => "form",
        LineFault::Range => "range",
        LineFault::Twice => "twice",
        LineFault::Unknown => "unknown",
        LineFault::Short => "short",
        LineFault::Many => "many",
    }
}

fn kind_text(kind: Kind) -> &'static str
    ensures { result.now ≡ kind_text kind }
{
    match kind {
        Kind::Register => "a register r0 to r7 is wanted",
        Kind::Byte => "a decimal number up to 255 is wanted",
        Kind::Word => "a decimal number up to 65535 is wanted",
        Kind::Value => "a decimal number up to 65535 or a label is wanted",
        Kind::Signed => {
            "a decimal number up to 65535, one from -32768 to -1, or a label is wanted"
        }
    }
}

fn wanted_text(wanted: Wanted) -> &'static str
    ensures { result.now ≡ wanted_text wanted }
{
    match wanted {
        Wanted::Label => {
            "a label of 1 to 16 of a to z, 0 to 9 and _ with a colon directly behind it, or an instruction in capitals, is wanted"
        }
        Wanted::Instruction => "the name of an instruction in capitals is wanted",
        Wanted::Operand(kind) => kind_text(kind),
        Wanted::Nothing => "no further operand and no comma is wanted",
        Wanted::OwnLabel => "a label that no earlier line has is wanted",
        Wanted::KnownLabel => "a label that some line has is wanted",
    }
}

fn place_text(alloc: Global, operand: usize) -> Result<String, AllocError>
    ensures { IfOk result (λ s. string_bytes s ≡ place_text operand) }
{
    if operand == 0 {
        Ok(String::new(alloc))
    } else {
        format!(in alloc; "operand {operand}: ")
    }
}

fn is_plain(b: u8) -> bool
    ensures { result ≡ is_plain b }
{
    b >= 32 && b <= 126
}

fn are_plain(text: &[u8]) -> bool
    ensures { result ≡ list_all is_plain text.now }
{
    text.iter().all(|b| is_plain(*b))
}

fn is_printable(text: &[u8]) -> bool
    ensures { result ≡ is_printable text.now }
{
    !text.is_empty() && text.len() <= MOST_TOLD && are_plain(text)
}

/// The text that is wrong, where it can be told in a line.
fn this_text(alloc: Global, text: &[u8]) -> Result<String, AllocError>
    ensures { IfOk result (λ s. string_bytes s ≡ this_text text.now) }
{
    if !is_printable(text) {
        return Ok(String::new(alloc));
    }
    match str::from_utf8(text) {
        Ok(text) => format!(in alloc; ", this is {text}"),
        Err(_) => Ok(String::new(alloc)),
    }
}

fn reason_text<'a>(alloc: Global, reason: Reason<'a>) -> Result<String, AllocError>
    ensures { IfOk result (λ s. string_bytes s ≡ reason_text (seen_reason reason.entry)) }
{
    let place = place_text(alloc, reason.operand)?;
    let this = this_text(alloc, reason.text)?;
    let place = place.as_str();
    let wanted = wanted_text(reason.wanted);
    let this = this.as_str();
    format!(in alloc; "{place}{wanted}{this}")
}

fn plain_text(cause: LineFault) -> &'static str
    ensures { result.now ≡ plain_text cause }
{
    match cause {
        LineFault::Short => "four numbers are wanted where a later line has an instruction",
        LineFault::Many => "16384 instructions at most are wanted",
        _ => "",
    }
}

/// What is wanted in a line, and what stands there.
pub(crate) fn why_text<'a>(
    alloc: Global,
    cause: LineFault,
    reason: Option<Reason<'a>>,
) -> Result<String, AllocError>
    ensures { IfOk result (λ s. string_bytes s ≡ why_text cause (option_map seen_reason reason.entry)) }
{
    match reason {
        Some(reason) => reason_text(alloc, reason),
        None => String::from_str(alloc, plain_text(cause)),
    }
}
