//! What is wrong in a line at fault, and what is wanted in its place.
ghost use Rattle.std.specs.Prelude.{◌≡◌, ◌≤◌, ◌+◌, ◌==◌, codes, length};
ghost use Rattle.std.specs.List.{slice_split};
ghost use Rattle.std.specs.Option.{option_map};
ghost use Rattle.std.specs.Str.{bytes_eq};
ghost use Rattle.dk_asm.specs.Reading.{mnemonic_named, pieces_of};
ghost use Rattle.dk_asm.specs.Reasons.{TellsAmiss, TellsRefused, first_label, is_wrong, reason_of, trimmed, without_end, wrong_end, wrong_in, wrong_instruction, wrong_label, wrong_operand, wrong_rest, wrong_statement};
ghost use Rattle.dk_asm.specs.Seen.{operand as seen_operand, operands as seen_operands, reason as seen_reason};

use crate::LineFault;
use crate::checking::operands_on;
use crate::kind::Kind;
use crate::line::{begins_lower, is_bytes_name, line_of, split_label, without_comment};
use crate::operand::Operand;
use crate::operands::{first_piece, piece_operand};
use crate::table::Mnemonic;
use crate::words::{are_blanks, first_word, is_blank, skip_blanks};

/// What is wanted in a line.
#[derive(Clone, Copy)]
pub enum Wanted {
    /// A label with its colon, or an instruction.
    Label,
    /// The name of an instruction.
    Instruction,
    /// An operand of this kind.
    Operand(Kind),
    /// No operand.
    Nothing,
    /// A label that no earlier line has.
    OwnLabel,
    /// A label that some line has.
    KnownLabel,
}

/// What is wrong in a line: a text of it, at which operand it stands, from 1 (0: at none), and what is wanted there.
/// The text is empty where something is missing.
#[derive(Clone, Copy)]
pub struct Reason<'a> {
    pub text: &'a [u8],
    pub operand: usize,
    pub wanted: Wanted,
}

fn without_end(bytes: &[u8]) -> &[u8]
    ensures { result.now ≡ without_end bytes.now }
{
    let mut end = bytes.len();
    while end > 0 && is_blank(bytes[end - 1]) {
        end -= 1;
    }
    &bytes[..end]
}

/// The text without the blanks around it.
fn trimmed(text: &[u8]) -> &[u8]
    ensures { result.now ≡ trimmed text.now }
{
    without_end(skip_blanks(text))
}

fn is_wrong<'a>(ranges: bool, operand: &Option<Operand<'a>>) -> bool
    ensures { result ≡ is_wrong ranges (option_map seen_operand operand.now) }
{
    match operand {
        None => true,
        Some(Operand::Outside) => ranges,
        Some(Operand::Value(_)) => false,
        Some(Operand::Label(_)) => false,
    }
}

fn wrong_end<'a>(optional: usize, k: usize, kinds: &[Kind]) -> Option<Reason<'a>>
    ensures { option_map seen_reason result ≡ wrong_end optional k kinds.now }
{
    let [kind, ..] = kinds else {
        return None;
    };
    if kinds.len() <= optional {
        return None;
    }
    let wanted = Wanted::Operand(*kind);
    Some(Reason {
        text: &[],
        operand: k,
        wanted,
    })
}

/// The first operand of the text that is wrong, missing or one too many, k being the number of its first.
fn wrong_operand<'a>(
    ranges: bool,
    optional: usize,
    k: usize,
    kinds: &[Kind],
    text: &'a [u8],
) -> Option<Reason<'a>>
    requires { k + length kinds.now ≤ 5 }
    ensures { option_map seen_reason result
        ≡ wrong_operand ranges optional k kinds.now (slice_split (λ b. b == 44) text.now) }
{
    let (piece, rest) = first_piece(text);
    let [kind, kinds @ ..] = kinds else {
        return Some(Reason {
            text: trimmed(piece),
            operand: k,
            wanted: Wanted::Nothing,
        });
    };
    if is_wrong(ranges, &piece_operand(*kind, piece)) {
        return Some(Reason {
            text: trimmed(piece),
            operand: k,
            wanted: Wanted::Operand(*kind),
        });
    }
    match rest {
        Some(rest) => wrong_operand(ranges, optional, k + 1, kinds, rest),
        None => wrong_end(optional, k + 1, kinds),
    }
}

#[tactic(auto, unfolding(crate::specs::Reading::pieces_of))]
fn wrong_operands<'a>(
    ranges: bool,
    optional: usize,
    kinds: &[Kind],
    text: &'a [u8],
) -> Option<Reason<'a>>
    requires { length kinds.now ≤ 4 }
    ensures { option_map seen_reason result ≡ wrong_operand ranges optional 1 kinds.now (pieces_of text.now) }
{
    if are_blanks(text) {
        wrong_end(optional, 1, kinds)
    } else {
        wrong_operand(ranges, optional, 1, kinds, text)
    }
}

fn wrong_instruction<'a>(ranges: bool, name: &'a [u8], text: &'a [u8]) -> Option<Reason<'a>>
    ensures { option_map seen_reason result
        ≡ wrong_instruction ranges name.now (pieces_of text.now) (mnemonic_named name.now) }
{
    match Mnemonic::named(name) {
        Some(mnemonic) => wrong_operands(ranges, 0, mnemonic.kinds(), text),
        None => Some(Reason {
            text: name,
            operand: 0,
            wanted: Wanted::Instruction,
        }),
    }
}

#[tactic(auto, unfolding(crate::specs::Reasons::wrong_statement))]
fn wrong_statement<'a>(ranges: bool, text: &'a [u8]) -> Option<Reason<'a>>
    ensures { option_map seen_reason result ≡ wrong_statement ranges text.now }
{
    let (name, rest) = first_word(text);
    if is_bytes_name(name) {
        wrong_operands(ranges, 3, &[Kind::Byte; 4], rest)
    } else {
        wrong_instruction(ranges, name, rest)
    }
}

fn wrong_rest<'a>(ranges: bool, text: &'a [u8]) -> Option<Reason<'a>>
    ensures { option_map seen_reason result ≡ wrong_rest ranges text.now }
{
    if text.is_empty() {
        None
    } else {
        wrong_statement(ranges, text)
    }
}

#[tactic(auto, unfolding(crate::specs::Reasons::wrong_label))]
fn wrong_label<'a>(ranges: bool, text: &'a [u8]) -> Option<Reason<'a>>
    ensures { option_map seen_reason result ≡ wrong_label ranges text.now }
{
    if !begins_lower(text) {
        return wrong_rest(ranges, text);
    }
    match split_label(text) {
        Some((_, rest)) => wrong_rest(ranges, skip_blanks(rest)),
        None => Some(Reason {
            text: first_word(text).0,
            operand: 0,
            wanted: Wanted::Label,
        }),
    }
}

/// The first that is wrong in a line.
#[tactic(auto, unfolding(crate::specs::Reasons::wrong_in))]
fn wrong_in<'a>(ranges: bool, bytes: &'a [u8]) -> Option<Reason<'a>>
    ensures { option_map seen_reason result ≡ wrong_in ranges bytes.now }
{
    wrong_label(ranges, skip_blanks(without_comment(bytes)))
}

fn own_label<'a>(bytes: &'a [u8]) -> Option<Reason<'a>>
    ensures { option_map seen_reason result ≡ reason_of LineFault.Twice bytes.now }
{
    let line = line_of(bytes)?;
    let text = line.label?;
    Some(Reason {
        text,
        operand: 0,
        wanted: Wanted::OwnLabel,
    })
}

fn first_label<'a>(operands: &[Operand<'a>]) -> Option<&'a [u8]>
    ensures { option_map (λ name. name.now) result ≡ first_label (seen_operands operands.now) }
{
    match operands {
        [] => None,
        [Operand::Label(name), ..] => Some(name),
        [_, operands @ ..] => first_label(operands),
    }
}

fn used_label<'a>(bytes: &'a [u8]) -> Option<Reason<'a>>
    ensures { option_map seen_reason result ≡ reason_of LineFault.Unknown bytes.now }
{
    let line = line_of(bytes)?;
    let text = first_label(operands_on(&line))?;
    Some(Reason {
        text,
        operand: 0,
        wanted: Wanted::KnownLabel,
    })
}

/// What is wrong in a line that is at fault by this cause, and what is wanted there. None where no text of the line is:
/// at `Short` and `Many`.
#[tactic(auto, using(crate::proofs::Refused::told, crate::proofs::Amiss::amiss))]
pub fn reason_of<'a>(bytes: &'a [u8], cause: LineFault) -> Option<Reason<'a>>
    ensures reason { option_map seen_reason result ≡ reason_of cause bytes.now }
    // Something is told exactly of a line that isn't of the form, or has a number out of its range.
    ensures told { TellsRefused bytes.now }
    // The text that is told isn't what is wanted there.
    ensures amiss { TellsAmiss bytes.now }
{
    match cause {
        LineFault::Form => wrong_in(false, bytes),
        LineFault::Range => wrong_in(true, bytes),
        LineFault::Twice => own_label(bytes),
        LineFault::Unknown => used_label(bytes),
        LineFault::Short => None,
        LineFault::Many => None,
    }
}
