//! A source, cut into its lines.
ghost use Rattle.std.specs.Prelude.{◌≡◌, ◌<◌, ◌∷◌, ◌++◌, [], length, map, IfOk, OnOk};
ghost use Rattle.dk_asm.specs.Reading.{read_line};
ghost use Rattle.dk_asm.specs.Seen.{seen_lines};
ghost use Rattle.dk_asm.specs.Source.{lines_of};

use crate::line::{Line, line_of};
use crate::words::cut_at;
use std::alloc::{AllocError, Global};

/// The first line of a text that isn't empty, without its line feed, and what stands behind it.
pub fn first_line(text: &[u8]) -> (&[u8], &[u8])
    requires { 0 < length text.now }
    ensures lines { lines_of text.now ≡ result.0.now ∷ lines_of result.1.now }
    ensures shorter { length result.1.now < length text.now }
{
    match cut_at(text, b'\n') {
        Some((line, rest)) => (line, rest),
        None => (text, &[]),
    }
}

fn push_line<'a>(lines: &mut Vec<Option<Line<'a>>>, bytes: &'a [u8]) -> Result<(), AllocError>
    ensures { OnOk result (seen_lines lines.new.items ≡ seen_lines lines.old.items ++ read_line bytes.now ∷ []) }
{
    lines.push(line_of(bytes))?;
    Ok(())
}

/// The lines of a source; None for one that isn't of the form.
pub(crate) fn read_lines(alloc: Global, text: &[u8]) -> Result<Vec<Option<Line<'_>>>, AllocError>
    ensures { IfOk result (λ lines. seen_lines lines.items ≡ map read_line (lines_of text.now)) }
{
    let mut lines = Vec::new(alloc);
    let mut rest = text;
    while !rest.is_empty() {
        let (bytes, behind) = first_line(rest);
        push_line(&mut lines, bytes)?;
        rest = behind;
    }
    Ok(lines)
}
