//! The operands of a statement, as commas part them.
ghost use Rattle.std.specs.Prelude.{◌≡◌, ◌≤◌, ◌+◌, ◌++◌, ◌∷◌, [], length, ◌==◌};
ghost use Rattle.std.specs.List.{slice_split};
ghost use Rattle.std.specs.Option.{option_map};
ghost use Rattle.dk_asm.specs.Reading.{pieces_of, pieces_behind, read_piece, read_some};
ghost use Rattle.dk_asm.specs.Seen.{operand as seen_operand, operands as seen_operands};

use crate::kind::Kind;
use crate::operand::{Operand, operand_of};
use crate::words::{are_blanks, cut_at, only_word};
use arrayvec::ArrayVec;

/// The operands of a statement, at most four.
pub type Operands<'a> = ArrayVec<Operand<'a>, 4>;

/// What stands before the first comma, and what stands behind it, if there is one.
pub(crate) fn first_piece(text: &[u8]) -> (&[u8], Option<&[u8]>)
    ensures { slice_split (λ b. b == 44) text.now
        ≡ result.0.now ∷ pieces_behind (option_map (λ rest. rest.now) result.1) }
{
    match cut_at(text, b',') {
        Some((piece, rest)) => (piece, Some(rest)),
        None => (text, None),
    }
}

pub(crate) fn piece_operand<'a>(kind: Kind, piece: &'a [u8]) -> Option<Operand<'a>>
    ensures { option_map seen_operand result ≡ read_piece kind piece.now }
{
    operand_of(kind, only_word(piece)?)
}

/// The operands, where none but optional ones are left.
fn complete<'a>(operands: Operands<'a>, kinds: &[Kind], optional: usize) -> Option<Operands<'a>>
    ensures { option_map (λ v. seen_operands v.items) result ≡ option_map (λ os. seen_operands operands.entry.items ++ os)
        (read_some optional kinds.now []) }
{
    if kinds.len() <= optional {
        Some(operands)
    } else {
        None
    }
}

/// The operands in front and those of the text, if these are of the kinds, the last few of which are optional.
fn operands_behind<'a>(
    mut operands: Operands<'a>,
    kinds: &[Kind],
    optional: usize,
    text: &'a [u8],
) -> Option<Operands<'a>>
    requires { length operands.items + length kinds.now ≤ 4 }
    ensures { option_map (λ v. seen_operands v.items) result ≡ option_map (λ os. seen_operands operands.entry.items ++ os)
        (read_some optional kinds.now (slice_split (λ b. b == 44) text.now)) }
{
    let [kind, kinds @ ..] = kinds else {
        return None;
    };
    let (piece, rest) = first_piece(text);
    let operand = piece_operand(*kind, piece)?;
    operands.push(operand);
    match rest {
        Some(rest) => operands_behind(operands, kinds, optional, rest),
        None => complete(operands, kinds, optional),
    }
}

/// The operands of a text, if they are of the kinds, the last few of which are optional. Blanks alone are none.
#[tactic(auto, unfolding(crate::specs::Reading::pieces_of))]
pub(crate) fn operands_of<'a>(
    kinds: &[Kind],
    optional: usize,
    text: &'a [u8],
) -> Option<Operands<'a>>
    requires { length kinds.now ≤ 4 }
    ensures { option_map (λ v. seen_operands v.items) result ≡ read_some optional kinds.now (pieces_of text.now) }
{
    if are_blanks(text) {
        complete(ArrayVec::new(), kinds, optional)
    } else {
        operands_behind(ArrayVec::new(), kinds, optional, text)
    }
}
