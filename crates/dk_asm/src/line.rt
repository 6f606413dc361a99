//! A line of a source, read into its label and its statement.
ghost use Rattle.std.specs.Prelude.{◌≡◌, ◌==◌, codes};
ghost use Rattle.std.specs.List.{before_first};
ghost use Rattle.std.specs.Str.{bytes_eq};
ghost use Rattle.std.specs.Option.{option_map};
ghost use Rattle.dk_asm.specs.Reading.{pieces_of, read_bytes, read_instruction, read_statement, read_rest, begins_lower, split_label, read_label, read_line};
ghost use Rattle.dk_asm.specs.Seen.{statement as seen_statement, seen_line};

use crate::kind::Kind;
use crate::operands::{Operands, operands_of};
use crate::table::Mnemonic;
use crate::words::{byte_at, cut_at, first_word, skip_blanks};
use dk_config::is_name;

/// An instruction of the table, or the numbers of `BYTES`.
#[derive(Drop)]
pub enum Statement<'a> {
    Instruction(Mnemonic, Operands<'a>),
    Bytes(Operands<'a>),
}

/// What a line says beside its comment.
#[derive(Drop)]
pub struct Line<'a> {
    pub label: Option<&'a [u8]>,
    pub statement: Option<Statement<'a>>,
}

/// The numbers of `BYTES`, one to four.
fn bytes_of<'a>(text: &'a [u8]) -> Option<Statement<'a>>
    ensures { option_map seen_statement result ≡ read_bytes (pieces_of text.now) }
{
    let operands = operands_of(&[Kind::Byte; 4], 3, text)?;
    Some(Statement::Bytes(operands))
}

fn instruction_of<'a>(mnemonic: Mnemonic, text: &'a [u8]) -> Option<Statement<'a>>
    ensures { option_map seen_statement result ≡ read_instruction (pieces_of text.now) mnemonic }
{
    let operands = operands_of(mnemonic.kinds(), 0, text)?;
    Some(Statement::Instruction(mnemonic, operands))
}

pub(crate) fn is_bytes_name(name: &[u8]) -> bool
    ensures { result ≡ bytes_eq name.now (codes "BYTES") }
{
    name == b"BYTES".as_slice()
}

/// The instruction of a text that begins with its name.
#[tactic(auto, unfolding(crate::specs::Reading::read_statement))]
fn statement_of<'a>(text: &'a [u8]) -> Option<Statement<'a>>
    ensures { option_map seen_statement result ≡ read_statement text.now }
{
    let (name, rest) = first_word(text);
    if is_bytes_name(name) {
        return bytes_of(rest);
    }
    instruction_of(Mnemonic::named(name)?, rest)
}

/// The line with this label, of which the text is what stands behind it, without blanks in front.
fn with_label<'a>(label: Option<&'a [u8]>, text: &'a [u8]) -> Option<Line<'a>>
    ensures { seen_line result ≡ read_rest (option_map (λ name. name.now) label.entry) text.now }
{
    if text.is_empty() {
        return Some(Line {
            label,
            statement: None,
        });
    }
    let statement = Some(statement_of(text)?);
    Some(Line { label, statement })
}

pub(crate) fn begins_lower(text: &[u8]) -> bool
    ensures { result ≡ begins_lower text.now }
{
    match text {
        [first, ..] => *first >= b'a' && *first <= b'z',
        [] => false,
    }
}

/// A name with a colon directly behind it, and what stands behind the colon.
pub(crate) fn split_label(text: &[u8]) -> Option<(&[u8], &[u8])>
    ensures { option_map (λ parts. (parts.0.now, parts.1.now)) result ≡ split_label text.now }
{
    match cut_at(text, b':') {
        Some((name, rest)) if is_name(name) => Some((name, rest)),
        _ => None,
    }
}

/// The line of a text without blanks in front and without a comment.
#[tactic(auto, unfolding(crate::specs::Reading::read_label))]
fn bare_line<'a>(text: &'a [u8]) -> Option<Line<'a>>
    ensures { seen_line result ≡ read_label text.now }
{
    if !begins_lower(text) {
        return with_label(None, text);
    }
    let (name, rest) = split_label(text)?;
    with_label(Some(name), skip_blanks(rest))
}

pub(crate) fn without_comment(bytes: &[u8]) -> &[u8]
    ensures { result.now ≡ before_first (λ b. b == 35) bytes.now }
{
    let end = byte_at(bytes, b'#').unwrap_or(bytes.len());
    &bytes[..end]
}

/// What a line says, without its line feed; None where it isn't of the form.
#[tactic(auto, unfolding(crate::specs::Reading::read_line))]
pub(crate) fn line_of<'a>(bytes: &'a [u8]) -> Option<Line<'a>>
    ensures { seen_line result ≡ read_line bytes.now }
{
    bare_line(skip_blanks(without_comment(bytes)))
}
