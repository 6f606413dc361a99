//! Text that a browser shows as it is.
ghost use Rattle.std.specs.Prelude.{◌≡◌, ◌++◌, flat_map, OnOk};
ghost use Rattle.dk_html.specs.Escaping.{escaped, escaped_byte};

use std::alloc::AllocError;

fn add_byte(out: &mut Vec<u8>, byte: u8) -> Result<(), AllocError>
    ensures { OnOk result (out.new.items ≡ out.old.items ++ escaped_byte byte) }
{
    if byte == b'&' {
        out.extend_from_slice(b"&amp;")
    } else if byte == b'<' {
        out.extend_from_slice(b"&lt;")
    } else if byte == b'>' {
        out.extend_from_slice(b"&gt;")
    } else if byte == b'"' {
        out.extend_from_slice(b"&quot;")
    } else if byte == b'\r' {
        out.extend_from_slice(b"&#13;")
    } else {
        out.extend_from_slice(&[byte])
    }
}

/// Adds the text, with `&`, `<`, `>`, the double quote and the carriage return by their names, so that a browser shows it,
/// reads no tag in it, and drops nothing.
pub(crate) fn add_escaped(out: &mut Vec<u8>, text: &[u8]) -> Result<(), AllocError>
    ensures { OnOk result (out.new.items ≡ out.old.items ++ escaped text.now) }
{
    for byte in text {
        add_byte(out, *byte)?;
    }
    Ok(())
}
