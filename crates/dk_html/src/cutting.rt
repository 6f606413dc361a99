//! The pieces of a text between bytes of one kind.
ghost use Rattle.std.specs.Prelude.{◌≡◌, ◌==◌, map, option_map, position, IfOk};
ghost use Rattle.dk_html.specs.Pieces.{cut_at, pieces};

use std::alloc::{AllocError, Global};

fn place_of(text: &[u8], byte: u8) -> Option<usize>
    ensures { result ≡ position (λ b. b == byte) text.now }
{
    text.iter().position(|b| *b == byte)
}

/// What stands before the first such byte, and what stands behind it.
fn cut_at(text: &[u8], byte: u8) -> Option<(&[u8], &[u8])>
    ensures { option_map (λ cut. (cut.0.now, cut.1.now)) result ≡ cut_at byte text.now }
{
    let end = place_of(text, byte)?;
    Some((&text[..end], &text[end + 1..]))
}

/// The pieces, in order.
pub(crate) fn pieces_of(alloc: Global, text: &[u8], byte: u8) -> Result<Vec<&[u8]>, AllocError>
    ensures { IfOk result (λ v. map (λ p. p.now) v.items ≡ pieces byte text.now) }
{
    let mut found = Vec::new(alloc);
    let mut rest = text;
    loop {
        match cut_at(rest, byte) {
            Some((piece, behind)) => {
                found.push(piece)?;
                rest = behind;
            }
            None => {
                found.push(rest)?;
                return Ok(found);
            }
        }
    }
}
