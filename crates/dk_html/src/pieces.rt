//! What is added to a page as it is.
ghost use Rattle.std.specs.Prelude.{◌≡◌, ◌++◌, OnOk, string_bytes};

use std::alloc::AllocError;

/// Adds words of the page.
pub(crate) fn add_words(out: &mut Vec<u8>, words: &str) -> Result<(), AllocError>
    ensures { OnOk result (out.new.items ≡ out.old.items ++ words.now) }
{
    out.extend_from_slice(words.as_bytes())
}

/// Adds a piece that was made for it.
pub(crate) fn add_string(out: &mut Vec<u8>, piece: String) -> Result<(), AllocError>
    ensures { OnOk result (out.new.items ≡ out.old.items ++ string_bytes piece) }
{
    out.extend_from_slice(piece.as_str().as_bytes())
}
