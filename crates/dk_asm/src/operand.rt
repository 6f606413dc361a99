//! Operands, read by the kind that their place takes.
ghost use Rattle.std.specs.Prelude.{◌≡◌, ◌<◌};
ghost use Rattle.std.specs.Option.{option_map};
ghost use Rattle.dk_asm.specs.Operands.{negative as negative_value};
ghost use Rattle.dk_asm.specs.Reading.{number_of, read_number, read_value, read_register, read_signed, read_operand};
ghost use Rattle.dk_asm.specs.Seen.{operand as seen};

use crate::kind::Kind;
use crate::number::number;
use dk_config::is_name;

/// What is written at an operand's place.
#[derive(Clone, Copy, Default)]
pub enum Operand<'a> {
    /// A register's number or a number.
    Value(u16),
    /// A label, which stands for its value.
    Label(&'a [u8]),
    /// A number that is out of its range.
    #[default]
    Outside,
}

fn up_to<'a>(limit: u16, word: &'a [u8]) -> Option<Operand<'a>>
    requires { limit < 65536 }
    ensures { option_map seen result ≡ read_number limit word.now }
{
    let n = number(word)?;
    Some(if n <= limit as u32 {
        Operand::Value(n as u16)
    } else {
        Operand::Outside
    })
}

fn negative<'a>(digits: &'a [u8]) -> Option<Operand<'a>>
    ensures { option_map seen result ≡ option_map negative_value (number_of digits.now) }
{
    let n = number(digits)?;
    Some(if n >= 1 && n <= 32_768 {
        Operand::Value((65_536 - n) as u16)
    } else {
        Operand::Outside
    })
}

fn register<'a>(word: &'a [u8]) -> Option<Operand<'a>>
    ensures { option_map seen result ≡ read_register word.now }
{
    match *word {
        [b'r', digit] if digit >= b'0' && digit <= b'7' => Some(Operand::Value(
            (digit - b'0') as u16,
        )),
        _ => None,
    }
}

fn value<'a>(word: &'a [u8]) -> Option<Operand<'a>>
    ensures { option_map seen result ≡ read_value word.now }
{
    if is_name(word) {
        Some(Operand::Label(word))
    } else {
        up_to(65_535, word)
    }
}

fn signed<'a>(word: &'a [u8]) -> Option<Operand<'a>>
    ensures { option_map seen result ≡ read_signed word.now }
{
    match word {
        [] => None,
        [b'-', digits @ ..] => negative(digits),
        [_, ..] => value(word),
    }
}

/// What the word is at the place of an operand of this kind, if it is of the form.
#[tactic(auto, unfolding(crate::specs::Reading::read_operand))]
pub(crate) fn operand_of<'a>(kind: Kind, word: &'a [u8]) -> Option<Operand<'a>>
    ensures { option_map seen result ≡ read_operand kind word.now }
{
    match kind {
        Kind::Register => register(word),
        Kind::Byte => up_to(255, word),
        Kind::Word => up_to(65_535, word),
        Kind::Value => value(word),
        Kind::Signed => signed(word),
    }
}
